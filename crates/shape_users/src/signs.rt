//! A script shaper that reorders: in Buginese the vowel sign E is typed after its letter and shown
//! before it.
//!
//! It gives one of the ten hooks. `preprocess_text` may change the list at will, while
//! `reorder_marks` has marks alone, and never their letter. A step before the letter must not take
//! the text of the two apart: they are merged into one cluster first, and then exchanged. So runs
//! preserve clusters and flags if the engine's lookups do: [`signs_runs_preserve`].
//!
//! To write a shaper of your own, start from here: a definition, a body that is it, the two lemmas
//! that it preserves clusters and flags (`proofs/SignLemmas.antt`), and this law.
//!
//! Marks aren't placed by their boxes: the sign is a mark by its category, and follows the letter
//! before its own by then. In a run by script, Buginese gets `universal_shaper`, which also puts a
//! dotted circle beside a sign that has no letter.
ghost use Rattle.std.specs.Prelude.{◌≡◌, true, false, length, None, pos, refl};
ghost use Rattle.shape_items.specs.Buffer.{Buffer, limit_of};
ghost use Rattle.shape_buffer.specs.Outcome.{Made};
ghost use Rattle.shape_buffer.specs.Preservation.{LookupsPreserveClusters, LookupsPreserveFlags};
ghost use Rattle.shape_plan.specs.Plan.{Plan};
ghost use Rattle.shape_plan.specs.Preservation.{RunPreservesFlags};
ghost use Rattle.shape_pipeline.specs.Order.{RunPreservesClusters};
ghost use Rattle.shape_users.specs.Signs.{is_letter, is_sign, stepped_at, signs_stepped};
ghost use Rattle.shape_users.specs.Signs.{characters, signs_first};
ghost use Rattle.shape_users.specs.Worked.Signs.{WorkedSigns};
ghost use Rattle.shape_users.specs.declared.signs.SignsShaper.{SignsShaper as AnyShaper};

use shape_buffer::buffer::{ShapeError, hb_buffer_t, hb_tag_t};
use shape_buffer::interfaces::{hb_font_t, hb_ot_layout_t, hb_unicode_funcs_t};
use shape_pipeline::laws::given_hooks_preserve;
use shape_pipeline::ot_shape_normalize::HB_OT_SHAPE_NORMALIZATION_MODE_AUTO;
use shape_pipeline::ot_shape_plan::hb_ot_shape_plan_t;
use shape_pipeline::ot_shaper::hooks::preprocess_text_hook;
use shape_pipeline::ot_shaper::{
    HB_OT_SHAPE_ZERO_WIDTH_MARKS_BY_GDEF_LATE, Runs, no_hook, script_shaper,
};
use std::alloc::Global;

/// The shaper of texts in Buginese script.
#[derive(Clone, Copy, Debug)]
pub struct SignsShaper;

/// A letter, KA to HA.
fn is_letter(c: char) -> bool
    ensures { result ≡ is_letter c }
{
    '\u{1A00}' <= c && c <= '\u{1A16}'
}

/// The vowel sign E.
fn is_sign(c: char) -> bool
    ensures { result ≡ is_sign c }
{
    c == '\u{1A19}'
}

/// Puts the sign before the letter at a place, if it was typed right after it. They are one
/// cluster first, so that no line can end between them.
fn step_sign(buffer: &mut hb_buffer_t, i: usize)
    ensures made { buffer.new ≡ stepped_at i buffer.old }
    ensures len { length buffer.new.items ≡ length buffer.old.items }
    ensures limit { limit_of buffer.new ≡ limit_of buffer.old }
{
    let count = buffer.len();
    if count < 2 || count - 2 < i {
        return;
    }
    if !is_letter(buffer.infos()[i].codepoint) || !is_sign(buffer.infos()[i + 1].codepoint) {
        return;
    }
    buffer.merge_clusters(i, i + 2);
    buffer.swap_infos(i, i + 1);
}

/// Puts each sign before its letter, from left to right. Takes no memory.
fn step_signs(buffer: &mut hb_buffer_t)
    ensures { Made signs_stepped buffer.old buffer.new }
{
    for i in 0..buffer.len() {
        step_sign(buffer, i);
    }
}

impl<U: hb_unicode_funcs_t, F: hb_font_t, M: hb_ot_layout_t<F>> script_shaper<U, F, M>
    for SignsShaper {
    type Data = ();

    type CollectFeatures = no_hook;

    type OverrideFeatures = no_hook;

    type CreateData = no_hook;

    type PreprocessText = Self;

    type PostprocessGlyphs = no_hook;

    type Pause = no_hook;

    type Decompose = no_hook;

    type Compose = no_hook;

    type SetupMasks = no_hook;

    type ReorderMarks = no_hook;

    ghost IS_DEFAULT = { false };

    const IS_DEFAULT: bool = false;

    ghost NORMALIZATION_PREFERENCE = { pos 4 };

    const NORMALIZATION_PREFERENCE: i32 = HB_OT_SHAPE_NORMALIZATION_MODE_AUTO;

    ghost GPOS_TAG = { None };

    const GPOS_TAG: Option<hb_tag_t> = None;

    ghost ZERO_WIDTH_MARKS = { 2 };

    const ZERO_WIDTH_MARKS: u32 = HB_OT_SHAPE_ZERO_WIDTH_MARKS_BY_GDEF_LATE;

    ghost FALLBACK_POSITION = { false };

    const FALLBACK_POSITION: bool = false;

    ghost lawful_preference = { refl };

    ghost lawful_zero_width = { refl };
}

impl<U: hb_unicode_funcs_t, F, M: hb_ot_layout_t<F>> preprocess_text_hook<SignsShaper, (), U, F, M>
    for SignsShaper {
    ghost preprocessed = { λ _ _ _. signs_stepped };

    ghost GIVEN = { true };

    const GIVEN: bool = true;

    fn preprocess_text(
        _shaper: &SignsShaper,
        _alloc: Global,
        _plan: &hb_ot_shape_plan_t<'_, SignsShaper, M::Map, ()>,
        _face: &F,
        buffer: &mut hb_buffer_t,
    ) -> Result<(), ShapeError> {
        step_signs(buffer);
        Ok(())
    }
}

/// A run by this shaper preserves clusters if its engine's lookups do, and flags if they do,
/// whatever the Unicode functions, the plan and the face.
pub fn signs_runs_preserve<U: hb_unicode_funcs_t, F: hb_font_t, M: hb_ot_layout_t<F>>()
    ensures clusters { (plan : Plan AnyShaper M.Map Unit) (face : F)
        → let run = ⟦<SignsShaper as Runs<U, F, M>>⟧.run plan face in
        LookupsPreserveClusters run.lookups → RunPreservesClusters run }
    ensures flags { (plan : Plan AnyShaper M.Map Unit) (face : F)
        → let run = ⟦<SignsShaper as Runs<U, F, M>>⟧.run plan face in
        LookupsPreserveFlags run.lookups → RunPreservesFlags run }
{
    given_hooks_preserve::<U, F, M, SignsShaper>();
}

/// What the hook makes of a list: the same characters, each sign before its letter, at every level
/// of clusters.
pub fn signs_come_first()
    ensures { (b : Buffer) → characters (signs_stepped b) ≡ signs_first (characters b) }
{}

/// Which signs step before a letter, which don't, and their clusters, worked out by hand.
pub fn signs_meet_worked_cases()
    ensures { WorkedSigns }
{}
