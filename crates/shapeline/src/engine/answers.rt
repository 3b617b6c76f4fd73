//! What becomes of a text on its way through a run: prepared, normalised, shaped.
//!
//! A whole run returns its glyphs alone. So the program runs the steps up to normalising on a
//! buffer of its own, and reads the lists that they leave.
ghost use Rattle.std.specs.Prelude.{◌≡◌, ◌≢◌, IfOk};
ghost use Rattle.shape_buffer.specs.Guess.{guessed};
ghost use Rattle.shape_plan.specs.Plan.{Fits};
ghost use Rattle.shape_sessions.specs.Meaning.{unicode_tables};

use shape_buffer::buffer::{Direction, GlyphBuffer, ShapeError, UnicodeBuffer, hb_buffer_t};
use shape_buffer::interfaces::{MapFace, NoLookups};
use shape_pipeline::ot_shape::{hb_ot_shape_context_t, prepare_text};
use shape_pipeline::ot_shape_normalize::{_hb_ot_shape_normalize, normalized_equal};
use shape_pipeline::ot_shape_plan::hb_ot_shape_plan_t;
use shape_pipeline::ot_shaper::hb_ot_shaper_t;
use shape_pipeline::shape_with_plan;
use shape_sessions::unicode_tables::UnicodeTables;
use std::alloc::Global;

/// Sets a text's direction and script by guessing, if they aren't set.
pub fn guess(text: &mut UnicodeBuffer)
    ensures guessed { text.new ≡ guessed unicode_tables text.old }
    ensures known { text.new.direction ≢ Direction.Invalid }
{
    text.guess_segment_properties::<UnicodeTables>();
}

/// Guesses what a text leaves open, and plans for it. Refuses with `Memory` if a growth was
/// refused.
#[tactic(auto, using(crate::proofs::PlanLemmas::planned_direction, crate::proofs::PlanLemmas::planned_script, crate::proofs::PlanLemmas::script_guessed_again, crate::proofs::PlanLemmas::direction_guessed_again))]
pub fn planned<'a, S>(
    alloc: Global,
    face: &'a MapFace,
    shaper: &'a S,
    text: &mut UnicodeBuffer,
) -> Result<hb_ot_shape_plan_t<'a, S, (), S::Data>, ShapeError>
where
    S: hb_ot_shaper_t<UnicodeTables, MapFace, NoLookups>,
    ensures guessed { text.new ≡ guessed unicode_tables text.old }
    ensures known { text.new.direction ≢ Direction.Invalid }
    ensures fits { IfOk result (λ plan. Fits unicode_tables plan text.new) }
    ensures directed { IfOk result (λ plan. plan.direction ≢ Direction.Invalid) }
{
    guess(text);
    hb_ot_shape_plan_t::new::<UnicodeTables, MapFace, NoLookups>(
        alloc,
        face,
        shaper,
        text.direction(),
        text.script(),
        None,
        &[],
    )
}

/// Prepares a text for normalising under this plan. Refuses as `prepare_text` does.
pub fn prepare<S>(
    alloc: Global,
    plan: &hb_ot_shape_plan_t<'_, S, (), S::Data>,
    face: &MapFace,
    buffer: &mut hb_buffer_t,
) -> Result<(), ShapeError>
where
    S: hb_ot_shaper_t<UnicodeTables, MapFace, NoLookups>,
    requires { buffer.old.direction ≢ Direction.Invalid }
{
    let target_direction = buffer.direction();
    let mut ctx = hb_ot_shape_context_t {
        plan,
        face,
        buffer,
        target_direction,
    };
    prepare_text::<UnicodeTables, MapFace, NoLookups, S>(alloc, &mut ctx)
}

/// Normalises a prepared text. Refuses as `_hb_ot_shape_normalize` does.
pub fn normalize<S>(
    alloc: Global,
    plan: &hb_ot_shape_plan_t<'_, S, (), S::Data>,
    face: &MapFace,
    buffer: &mut hb_buffer_t,
) -> Result<(), ShapeError>
where
    S: hb_ot_shaper_t<UnicodeTables, MapFace, NoLookups>,
{
    _hb_ot_shape_normalize::<UnicodeTables, MapFace, NoLookups, S>(alloc, plan, buffer, face)
}

/// Whether two prepared texts have the same characters once they are normalised. Refuses as
/// `normalized_equal` does.
pub fn are_same<S>(
    alloc: Global,
    plan: &hb_ot_shape_plan_t<'_, S, (), S::Data>,
    face: &MapFace,
    a: &mut hb_buffer_t,
    b: &mut hb_buffer_t,
) -> Result<bool, ShapeError>
where
    S: hb_ot_shaper_t<UnicodeTables, MapFace, NoLookups>,
{
    normalized_equal::<UnicodeTables, MapFace, NoLookups, S>(alloc, plan, face, a, b)
}

/// Shapes a text that the plan fits. Refuses as `shape_with_plan` does.
pub fn shape<S>(
    alloc: Global,
    plan: &hb_ot_shape_plan_t<'_, S, (), S::Data>,
    face: &MapFace,
    text: UnicodeBuffer,
) -> Result<GlyphBuffer, ShapeError>
where
    S: hb_ot_shaper_t<UnicodeTables, MapFace, NoLookups>,
    requires { Fits unicode_tables plan.now text }
{
    match shape_with_plan::<UnicodeTables, MapFace, NoLookups, S>(alloc, face, plan, text) {
        Ok(glyphs) => Ok(glyphs),
        Err(fault) => Err(fault.cause),
    }
}
