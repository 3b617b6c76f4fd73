//! A script shaper for Hebrew: points are composed with their letters if the face has a glyph for
//! the two as one character and `GPOS` attaches no marks, and a mark below steps before the point
//! that it stands beside.
//!
//! The shaper gives two of the ten hooks; `no_hook` stands for the others. What a run by it must
//! provide is what its engine's lookups must provide, and no more: [`hebrew_runs_preserve`].
ghost use Rattle.std.specs.Prelude.{◌≡◌, true, false, Some, pos, refl};
ghost use Rattle.std.specs.Option.{option_or};
ghost use Rattle.shape_buffer.specs.Preservation.{LookupsPreserveClusters, LookupsPreserveFlags};
ghost use Rattle.shape_plan.specs.Preservation.{RunPreservesFlags};
ghost use Rattle.shape_plan.specs.Plan.{Plan};
ghost use Rattle.script_shapers.specs.declared.hebrew.HebrewShaper.{HebrewShaper as AnyShaper};
ghost use Rattle.shape_pipeline.specs.Order.{RunPreservesClusters};
ghost use Rattle.script_shapers.specs.declared.hebrew.TheConstants.{HEBR};
ghost use Rattle.script_shapers.specs.HebrewForms.{form_unless};
ghost use Rattle.script_shapers.specs.Worked.HebrewForms.{WorkedForms};
ghost use Rattle.script_shapers.specs.HebrewPoints.{points_reordered, points_reordered-reorders};
ghost use Rattle.script_shapers.specs.Worked.HebrewPoints.{WorkedPoints};

pub mod forms;
mod points;

use forms::form_unless;
use points::reorder_points;
use shape_buffer::buffer::{hb_buffer_t, hb_tag_t};
use shape_buffer::interfaces::{hb_font_t, hb_ot_layout_t, hb_unicode_funcs_t};
use shape_pipeline::laws::hooks_not_given_preserve;
use shape_pipeline::ot_shape_normalize::HB_OT_SHAPE_NORMALIZATION_MODE_AUTO;
use shape_pipeline::ot_shape_plan::hb_ot_shape_plan_t;
use shape_pipeline::ot_shaper::hooks::{compose_hook, reorder_marks_hook};
use shape_pipeline::ot_shaper::{
    HB_OT_SHAPE_ZERO_WIDTH_MARKS_BY_GDEF_LATE, Runs, hb_ot_shaper_t, no_hook, script_shaper,
};

/// The script of Hebrew in tables of lookups.
pub const HEBR: hb_tag_t = hb_tag_t(0x6865_6272);

/// The shaper of texts in Hebrew script.
#[derive(Clone, Copy, Debug)]
pub struct HebrewShaper;

impl<U: hb_unicode_funcs_t, F: hb_font_t, M: hb_ot_layout_t<F>> script_shaper<U, F, M>
    for HebrewShaper {
    type Data = ();

    type CollectFeatures = no_hook;

    type OverrideFeatures = no_hook;

    type CreateData = no_hook;

    type PreprocessText = no_hook;

    type PostprocessGlyphs = no_hook;

    type Pause = no_hook;

    type Decompose = no_hook;

    type Compose = Self;

    type SetupMasks = no_hook;

    type ReorderMarks = Self;

    ghost IS_DEFAULT = { false };

    const IS_DEFAULT: bool = false;

    ghost NORMALIZATION_PREFERENCE = { pos 4 };

    const NORMALIZATION_PREFERENCE: i32 = HB_OT_SHAPE_NORMALIZATION_MODE_AUTO;

    ghost GPOS_TAG = { Some HEBR };

    const GPOS_TAG: Option<hb_tag_t> = Some(HEBR);

    ghost ZERO_WIDTH_MARKS = { 2 };

    const ZERO_WIDTH_MARKS: u32 = HB_OT_SHAPE_ZERO_WIDTH_MARKS_BY_GDEF_LATE;

    ghost FALLBACK_POSITION = { true };

    const FALLBACK_POSITION: bool = true;

    ghost lawful_preference = { refl };

    ghost lawful_zero_width = { refl };
}

impl<U: hb_unicode_funcs_t, F, M: hb_ot_layout_t<F>> compose_hook<HebrewShaper, (), U, F, M>
    for HebrewShaper {
    ghost compose = { λ _ plan _ a b. option_or (U.unicode.compose a b)
        (form_unless plan.decisions.has_gpos_mark a b) };

    ghost GIVEN = { true };

    const GIVEN: bool = true;

    fn compose(
        _shaper: &HebrewShaper,
        plan: &hb_ot_shape_plan_t<'_, HebrewShaper, M::Map, ()>,
        _face: &F,
        a: char,
        b: char,
    ) -> Option<char> {
        U::compose(a, b).or(form_unless(plan.has_gpos_mark(), a, b))
    }
}

impl<U: hb_unicode_funcs_t, F, M: hb_ot_layout_t<F>> reorder_marks_hook<HebrewShaper, (), U, F, M>
    for HebrewShaper {
    ghost reordered = { λ _ _. points_reordered };

    ghost GIVEN = { true };

    const GIVEN: bool = true;

    fn reorder_marks(
        _shaper: &HebrewShaper,
        _plan: &hb_ot_shape_plan_t<'_, HebrewShaper, M::Map, ()>,
        buffer: &mut hb_buffer_t,
        start: usize,
        end: usize,
    ) {
        reorder_points(buffer, start, end);
    }

    ghost reorders = { λ _ _. points_reordered-reorders };
}

/// A run by this shaper preserves clusters if its engine's lookups do, and flags if they do,
/// whatever the Unicode functions, the plan and the face.
pub fn hebrew_runs_preserve<U: hb_unicode_funcs_t, F: hb_font_t, M: hb_ot_layout_t<F>>()
    ensures clusters { (plan : Plan AnyShaper M.Map Unit) (face : F)
        → let run = ⟦<HebrewShaper as Runs<U, F, M>>⟧.run plan face in
        LookupsPreserveClusters run.lookups → RunPreservesClusters run }
    ensures flags { (plan : Plan AnyShaper M.Map Unit) (face : F)
        → let run = ⟦<HebrewShaper as Runs<U, F, M>>⟧.run plan face in
        LookupsPreserveFlags run.lookups → RunPreservesFlags run }
{
    hooks_not_given_preserve::<U, F, M, HebrewShaper>();
}

/// What letters and points make, on pairs worked out by hand.
pub fn forms_meet_worked_cases()
    ensures { WorkedForms }
{}

/// Which points are reordered, where, and their clusters, on runs worked out by hand.
pub fn points_meet_worked_cases()
    ensures { WorkedPoints }
{}

/// What a run takes from the shaper: `GPOS` is applied if it has the script `hebr`, and not by
/// another one; marks lose their widths late, whatever their class (2), and are placed by their
/// boxes if no table places them; texts are normalised as the font's tables ask (4).
pub fn hebrew_marks_are_placed<U: hb_unicode_funcs_t, F: hb_font_t, M: hb_ot_layout_t<F>>()
    ensures normalises { ⟦<HebrewShaper as hb_ot_shaper_t<U, F, M>>⟧.constants.preference ≡ pos 4 }
    ensures own { ⟦<HebrewShaper as hb_ot_shaper_t<U, F, M>>⟧.constants.is_default ≡ false }
    ensures widths { ⟦<HebrewShaper as hb_ot_shaper_t<U, F, M>>⟧.constants.zero_width_marks ≡ 2 }
    ensures script { ⟦<HebrewShaper as hb_ot_shaper_t<U, F, M>>⟧.constants.gpos_tag ≡ Some HEBR }
    ensures places { ⟦<HebrewShaper as hb_ot_shaper_t<U, F, M>>⟧.constants.fallback_position ≡ true }
{}
