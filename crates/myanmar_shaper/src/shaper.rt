//! The shaper: its constants and hooks.
ghost use Rattle.std.specs.Prelude.{◌≡◌, true, false, None, pos, refl};
ghost use Rattle.shape_buffer.specs.Preservation.{LookupsPreserveClusters, LookupsPreserveFlags};
ghost use Rattle.shape_plan.specs.Preservation.{RunPreservesFlags};
ghost use Rattle.shape_plan.specs.Plan.{Plan};
ghost use Rattle.shape_pipeline.specs.Canonical.{RunPreservesEquivalence};
ghost use Rattle.shape_pipeline.specs.Order.{RunPreservesClusters};
ghost use Rattle.myanmar_shaper.specs.Pauses.{made_by_pause};
ghost use Rattle.myanmar_shaper.specs.Requests.{all_requests};
ghost use Rattle.myanmar_shaper.specs.declared.shaper.MyanmarShaper.{MyanmarShaper as AnyShaper};

use crate::pauses::pause_at;
use crate::requests::ask_all;
use shape_buffer::buffer::{Direction, Script, ShapeError, hb_buffer_t, hb_tag_t};
use shape_buffer::interfaces::{
    hb_font_t, hb_ot_layout_t, hb_ot_map_builder_t, hb_unicode_funcs_t,
};
use shape_pipeline::laws::given_hooks_preserve;
use shape_pipeline::ot_shape_normalize::HB_OT_SHAPE_NORMALIZATION_MODE_COMPOSED_DIACRITICS_NO_SHORT_CIRCUIT;
use shape_pipeline::ot_shape_plan::hb_ot_shape_plan_t;
use shape_pipeline::ot_shaper::hooks::{collect_features_hook, pause_hook};
use shape_pipeline::ot_shaper::{
    HB_OT_SHAPE_ZERO_WIDTH_MARKS_BY_GDEF_EARLY, Runs, hb_ot_shaper_t, no_hook, script_shaper,
};
use std::alloc::Global;

/// The shaper of texts in Myanmar.
#[derive(Clone, Copy, Debug)]
pub struct MyanmarShaper;

impl<U: hb_unicode_funcs_t, F: hb_font_t, M: hb_ot_layout_t<F>> script_shaper<U, F, M>
    for MyanmarShaper {
    type Data = ();

    type CollectFeatures = Self;

    type OverrideFeatures = no_hook;

    type CreateData = no_hook;

    type PreprocessText = no_hook;

    type PostprocessGlyphs = no_hook;

    type Pause = Self;

    type Decompose = no_hook;

    type Compose = no_hook;

    type SetupMasks = no_hook;

    type ReorderMarks = no_hook;

    ghost IS_DEFAULT = { false };

    const IS_DEFAULT: bool = false;

    ghost NORMALIZATION_PREFERENCE = { pos 3 };

    const NORMALIZATION_PREFERENCE: i32 =
        HB_OT_SHAPE_NORMALIZATION_MODE_COMPOSED_DIACRITICS_NO_SHORT_CIRCUIT;

    ghost GPOS_TAG = { None };

    const GPOS_TAG: Option<hb_tag_t> = None;

    ghost ZERO_WIDTH_MARKS = { 1 };

    const ZERO_WIDTH_MARKS: u32 = HB_OT_SHAPE_ZERO_WIDTH_MARKS_BY_GDEF_EARLY;

    ghost FALLBACK_POSITION = { false };

    const FALLBACK_POSITION: bool = false;

    ghost lawful_preference = { refl };

    ghost lawful_zero_width = { refl };
}

impl collect_features_hook<MyanmarShaper> for MyanmarShaper {
    ghost collected = { λ _ _ _ _. all_requests };

    ghost GIVEN = { true };

    const GIVEN: bool = true;

    fn collect_features(
        _shaper: &MyanmarShaper,
        _alloc: Global,
        builder: &mut hb_ot_map_builder_t,
        _direction: Direction,
        _script: Option<Script>,
    ) -> Result<(), ShapeError> {
        ask_all(builder)
    }
}

impl<U: hb_unicode_funcs_t, F: hb_font_t, M: hb_ot_layout_t<F>> pause_hook<
    MyanmarShaper,
    (),
    U,
    F,
    M,
> for MyanmarShaper {
    ghost paused = { λ _ _ face n. made_by_pause n (F.face face) };

    ghost GIVEN = { true };

    const GIVEN: bool = true;

    fn pause(
        _shaper: &MyanmarShaper,
        alloc: Global,
        n: u32,
        _plan: &hb_ot_shape_plan_t<'_, MyanmarShaper, M::Map, ()>,
        face: &F,
        buffer: &mut hb_buffer_t,
    ) -> Result<(), ShapeError> {
        pause_at(alloc, n, face, buffer)
    }
}

/// A run by this shaper preserves clusters if its engine's lookups do, and flags if they do,
/// whatever the Unicode functions, the plan and the face. It preserves equivalence: it splits and
/// composes as Unicode does.
pub fn myanmar_runs_preserve<U: hb_unicode_funcs_t, F: hb_font_t, M: hb_ot_layout_t<F>>()
    ensures clusters { (plan : Plan AnyShaper M.Map Unit) (face : F)
        → let run = ⟦<MyanmarShaper as Runs<U, F, M>>⟧.run plan face in
        LookupsPreserveClusters run.lookups → RunPreservesClusters run }
    ensures flags { (plan : Plan AnyShaper M.Map Unit) (face : F)
        → let run = ⟦<MyanmarShaper as Runs<U, F, M>>⟧.run plan face in
        LookupsPreserveFlags run.lookups → RunPreservesFlags run }
    ensures equivalence { (plan : Plan AnyShaper M.Map Unit) (face : F)
        → RunPreservesEquivalence (⟦<MyanmarShaper as Runs<U, F, M>>⟧.run plan face) }
{
    given_hooks_preserve::<U, F, M, MyanmarShaper>();
}

/// What a run takes from the shaper: texts are decomposed, and letters composed with their marks
/// again (3); marks lose their widths early, by their class in the font (1), and aren't placed by
/// their boxes; positioning lookups of any script serve.
pub fn myanmar_marks_are_placed<U: hb_unicode_funcs_t, F: hb_font_t, M: hb_ot_layout_t<F>>()
    ensures normalises { ⟦<MyanmarShaper as hb_ot_shaper_t<U, F, M>>⟧.constants.preference ≡ pos 3 }
    ensures script { ⟦<MyanmarShaper as hb_ot_shaper_t<U, F, M>>⟧.constants.gpos_tag ≡ None }
    ensures own { ⟦<MyanmarShaper as hb_ot_shaper_t<U, F, M>>⟧.constants.is_default ≡ false }
    ensures widths { ⟦<MyanmarShaper as hb_ot_shaper_t<U, F, M>>⟧.constants.zero_width_marks ≡ 1 }
    ensures places { ⟦<MyanmarShaper as hb_ot_shaper_t<U, F, M>>⟧.constants.fallback_position ≡ false }
{}
