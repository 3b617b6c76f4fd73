//! The run over a buffer, and what is planned for it.
//!
//! A run is one list of steps, made in the same order for every text: it prepares the characters,
//! has them normalised, makes glyphs of them, places these, and hands them out. What a shaper or a
//! layout engine brings stands for its meaning, so the whole run is a function from buffer to
//! buffer; a refused one leaves the buffer cleared.
ghost use Rattle.std.specs.Prelude.{◌≡◌, ◌≢◌, [], IsOk, OnOk, OnErr, Err};
ghost use Rattle.shape_items.specs.Buffer.{cleared};
ghost use Rattle.shape_buffer.specs.Outcome.{IsWithinLimit, RunOutcome};
ghost use Rattle.shape_pipeline.specs.Shaped.{all_steps, entered, Prepares, Shapes};
ghost use Rattle.shape_pipeline.specs.Shaped.{PreparingPasses, ShapingPasses};
ghost use Rattle.shape_prepare.specs.PrepareSteps.{prepare_steps};

pub(crate) mod kept;
mod run;

use crate::ot_shape::kept::KeptSettings;
use crate::ot_shape::run::shape_entered;
use shape_buffer::buffer::{Direction, ShapeError, hb_buffer_t};
use shape_buffer::interfaces::{hb_font_t, hb_ot_layout_t, hb_unicode_funcs_t};
pub use shape_glyphs::syllables::syllabic_clear_var;
use shape_plan::ot_shape_plan::hb_ot_shape_plan_t;
use shape_plan::ot_shaper::{Runs, hb_ot_shaper_t};
pub use shape_plan::planner::hb_ot_shape_planner_t;
use shape_plan::shaping_types::{Meaning, PlanOf, ShapingTypes, TypesOf};
use shape_prepare::prepare::prepare;
use std::alloc::Global;

/// A buffer that is being shaped, with the plan and the face that it is shaped by, and the
/// direction that the text was handed over in. `S` is the type of the shaper, `P` that of the
/// compiled lookups, `D` that of the shaper's data.
#[derive(Drop)]
pub struct hb_ot_shape_context_t<'a, F, S, P, D> {
    pub plan: &'a hb_ot_shape_plan_t<'a, S, P, D>,
    pub face: &'a F,
    pub buffer: &'a mut hb_buffer_t,
    pub target_direction: Direction,
}

/// Prepares a text for normalising: begins a run, sets properties and finds graphemes, puts in a
/// dotted circle, forms clusters, puts the text in its native order, calls the shaper's
/// `preprocess_text`, and takes the forms of characters for the target direction. Does nothing for
/// an empty list, and takes no memory then. `target_direction` must be the buffer's direction, and
/// not Invalid. Refuses with `Length` if a step would leave a list past the run's limit, and with
/// `Memory` if a growth was refused; the buffer is cleared then.
pub fn prepare_text<U, F, M, S>(
    alloc: Global,
    ctx: &mut hb_ot_shape_context_t<'_, F, S, M::Map, S::Data>,
) -> Result<(), ShapeError>
where
    U: hb_unicode_funcs_t,
    F: hb_font_t,
    M: hb_ot_layout_t<F>,
    S: hb_ot_shaper_t<U, F, M>,
    requires direction { ctx.old.target_direction ≡ ctx.old.buffer.now.direction }
    requires known { ctx.old.target_direction ≢ Direction.Invalid }
    ensures same_reference { ctx.new.buffer.ghost_name ≡ ctx.old.buffer.ghost_name }
    ensures same_direction { ctx.new.target_direction ≡ ctx.old.target_direction }
    ensures ok { OnOk result (Prepares
        (⟦<S as Runs<U, F, M>>⟧.run ctx.old.plan.now ctx.old.face.now)
        ctx.old.target_direction ctx.old.buffer.now ctx.new.buffer.now) }
    ensures length { result ≡ Err ShapeError.Length
        → PreparingPasses (⟦<S as Runs<U, F, M>>⟧.run ctx.old.plan.now ctx.old.face.now)
        ctx.old.target_direction ctx.old.buffer.now }
    ensures cleared { OnErr result (ctx.new.buffer.now ≡ cleared ctx.old.buffer.now) }
    ensures empty { ctx.old.buffer.now.items ≡ [] → IsOk result }
{
    let direction = ctx.target_direction;
    prepare_whole::<TypesOf<U, F, M, S>>(alloc, ctx.plan, ctx.face, ctx.buffer, direction)
}

/// Prepares the text of a buffer.
pub(crate) fn prepare_whole<T: ShapingTypes>(
    alloc: Global,
    plan: &PlanOf<'_, T>,
    face: &T::Face,
    buffer: &mut hb_buffer_t,
    target: Direction,
) -> Result<(), ShapeError>
    ensures ok { OnOk result (Prepares
        (⟦<T as Meaning>⟧.run plan.now face.now) target buffer.old buffer.new) }
    ensures length { result ≡ Err ShapeError.Length
        → PreparingPasses (⟦<T as Meaning>⟧.run plan.now face.now) target buffer.old }
    ensures cleared { OnErr result (buffer.new ≡ cleared buffer.old) }
    ensures empty { buffer.old.items ≡ [] → IsOk result }
{
    if buffer.len() == 0 {
        return Ok(());
    }
    let kept = KeptSettings::of(buffer);
    match enter_and_prepare::<T>(alloc, plan, face, buffer, target) {
        Ok(()) => Ok(()),
        Err(cause) => {
            kept.clear(buffer);
            Err(cause)
        }
    }
}

/// Begins a run and prepares its text.
fn enter_and_prepare<T: ShapingTypes>(
    alloc: Global,
    plan: &PlanOf<'_, T>,
    face: &T::Face,
    buffer: &mut hb_buffer_t,
    target: Direction,
) -> Result<(), ShapeError>
    requires { IsWithinLimit (entered buffer.old) }
    ensures { RunOutcome (prepare_steps (⟦<T as Meaning>⟧.run plan.now face.now) target)
        (entered buffer.old) buffer.new result }
{
    buffer.enter();
    prepare::<T>(alloc, plan, face, buffer, target)
}

/// Shapes the text of a buffer: every step of a run, from entering to leaving. Does nothing for an
/// empty list, and takes no memory then. `target_direction` must be the buffer's direction, and not
/// Invalid. Refuses with `Length` if a step would leave a list past the run's limit (in normalising
/// the expanded list counts), and with `Memory` if a growth was refused; the buffer is cleared
/// then.
pub fn shape_internal<U, F, M, S>(
    alloc: Global,
    ctx: &mut hb_ot_shape_context_t<'_, F, S, M::Map, S::Data>,
) -> Result<(), ShapeError>
where
    U: hb_unicode_funcs_t,
    F: hb_font_t,
    M: hb_ot_layout_t<F>,
    S: hb_ot_shaper_t<U, F, M>,
    requires direction { ctx.old.target_direction ≡ ctx.old.buffer.now.direction }
    requires known { ctx.old.target_direction ≢ Direction.Invalid }
    ensures same_reference { ctx.new.buffer.ghost_name ≡ ctx.old.buffer.ghost_name }
    ensures same_direction { ctx.new.target_direction ≡ ctx.old.target_direction }
    ensures ok { OnOk result (Shapes (⟦<S as Runs<U, F, M>>⟧.run ctx.old.plan.now ctx.old.face.now)
        ctx.old.target_direction ctx.old.buffer.now ctx.new.buffer.now) }
    ensures length { result ≡ Err ShapeError.Length
        → ShapingPasses (⟦<S as Runs<U, F, M>>⟧.run ctx.old.plan.now ctx.old.face.now)
        ctx.old.target_direction ctx.old.buffer.now }
    ensures cleared { OnErr result (ctx.new.buffer.now ≡ cleared ctx.old.buffer.now) }
    ensures empty { ctx.old.buffer.now.items ≡ [] → IsOk result }
{
    let direction = ctx.target_direction;
    shape_whole::<TypesOf<U, F, M, S>>(alloc, ctx.plan, ctx.face, ctx.buffer, direction)
}

/// Shapes the text of a buffer.
pub(crate) fn shape_whole<T: ShapingTypes>(
    alloc: Global,
    plan: &PlanOf<'_, T>,
    face: &T::Face,
    buffer: &mut hb_buffer_t,
    target: Direction,
) -> Result<(), ShapeError>
    ensures ok { OnOk result (Shapes
        (⟦<T as Meaning>⟧.run plan.now face.now) target buffer.old buffer.new) }
    ensures length { result ≡ Err ShapeError.Length
        → ShapingPasses (⟦<T as Meaning>⟧.run plan.now face.now) target buffer.old }
    ensures cleared { OnErr result (buffer.new ≡ cleared buffer.old) }
    ensures empty { buffer.old.items ≡ [] → IsOk result }
{
    if buffer.len() == 0 {
        return Ok(());
    }
    let kept = KeptSettings::of(buffer);
    match enter_and_shape::<T>(alloc, plan, face, buffer, target) {
        Ok(()) => {
            buffer.set_direction(target);
            buffer.leave();
            Ok(())
        }
        Err(cause) => {
            kept.clear(buffer);
            Err(cause)
        }
    }
}

/// Begins a run and makes all its steps but its end.
fn enter_and_shape<T: ShapingTypes>(
    alloc: Global,
    plan: &PlanOf<'_, T>,
    face: &T::Face,
    buffer: &mut hb_buffer_t,
    target: Direction,
) -> Result<(), ShapeError>
    requires { IsWithinLimit (entered buffer.old) }
    ensures { RunOutcome (all_steps (⟦<T as Meaning>⟧.run plan.now face.now) target)
        (entered buffer.old) buffer.new result }
{
    buffer.enter();
    shape_entered::<T>(alloc, plan, face, buffer, target)
}
