//! The shaper of texts in the encoding Zawgyi, which put the characters of Burmese in the order of
//! the glyphs. Its fonts expect nothing of a shaper: all is left to their tables.
ghost use Rattle.std.specs.Prelude.{◌≡◌, true, false, None, pos, refl};
ghost use Rattle.shape_buffer.specs.Preservation.{LookupsPreserveClusters, LookupsPreserveFlags};
ghost use Rattle.shape_plan.specs.Preservation.{RunPreservesFlags};
ghost use Rattle.shape_plan.specs.Plan.{Plan};
ghost use Rattle.shape_pipeline.specs.Canonical.{RunPreservesEquivalence};
ghost use Rattle.shape_pipeline.specs.Order.{RunPreservesClusters};
ghost use Rattle.myanmar_shaper.specs.declared.zawgyi.ZawgyiShaper.{ZawgyiShaper as AnyShaper};

use shape_buffer::buffer::hb_tag_t;
use shape_buffer::interfaces::{hb_font_t, hb_ot_layout_t, hb_unicode_funcs_t};
use shape_pipeline::laws::given_hooks_preserve;
use shape_pipeline::ot_shape_normalize::HB_OT_SHAPE_NORMALIZATION_MODE_NONE;
use shape_pipeline::ot_shaper::{
    HB_OT_SHAPE_ZERO_WIDTH_MARKS_NONE, Runs, hb_ot_shaper_t, no_hook, script_shaper,
};

/// The shaper of texts in Zawgyi.
#[derive(Clone, Copy, Debug)]
pub struct ZawgyiShaper;

impl<U: hb_unicode_funcs_t, F: hb_font_t, M: hb_ot_layout_t<F>> script_shaper<U, F, M>
    for ZawgyiShaper {
    type Data = ();

    type CollectFeatures = no_hook;

    type OverrideFeatures = no_hook;

    type CreateData = no_hook;

    type PreprocessText = no_hook;

    type PostprocessGlyphs = no_hook;

    type Pause = no_hook;

    type Decompose = no_hook;

    type Compose = no_hook;

    type SetupMasks = no_hook;

    type ReorderMarks = no_hook;

    ghost IS_DEFAULT = { false };

    const IS_DEFAULT: bool = false;

    ghost NORMALIZATION_PREFERENCE = { pos 0 };

    const NORMALIZATION_PREFERENCE: i32 = HB_OT_SHAPE_NORMALIZATION_MODE_NONE;

    ghost GPOS_TAG = { None };

    const GPOS_TAG: Option<hb_tag_t> = None;

    ghost ZERO_WIDTH_MARKS = { 0 };

    const ZERO_WIDTH_MARKS: u32 = HB_OT_SHAPE_ZERO_WIDTH_MARKS_NONE;

    ghost FALLBACK_POSITION = { false };

    const FALLBACK_POSITION: bool = false;

    ghost lawful_preference = { refl };

    ghost lawful_zero_width = { refl };
}

/// A run by this shaper preserves clusters if its engine's lookups do, and flags if they do,
/// whatever the Unicode functions, the plan and the face. It preserves equivalence.
pub fn zawgyi_runs_preserve<U: hb_unicode_funcs_t, F: hb_font_t, M: hb_ot_layout_t<F>>()
    ensures clusters { (plan : Plan AnyShaper M.Map Unit) (face : F)
        → let run = ⟦<ZawgyiShaper as Runs<U, F, M>>⟧.run plan face in
        LookupsPreserveClusters run.lookups → RunPreservesClusters run }
    ensures flags { (plan : Plan AnyShaper M.Map Unit) (face : F)
        → let run = ⟦<ZawgyiShaper as Runs<U, F, M>>⟧.run plan face in
        LookupsPreserveFlags run.lookups → RunPreservesFlags run }
    ensures equivalence { (plan : Plan AnyShaper M.Map Unit) (face : F)
        → RunPreservesEquivalence (⟦<ZawgyiShaper as Runs<U, F, M>>⟧.run plan face) }
{
    given_hooks_preserve::<U, F, M, ZawgyiShaper>();
}

/// What a run takes from the shaper: texts aren't normalised further (0), marks keep their widths
/// (0) and aren't placed by their boxes, and positioning lookups of any script serve.
pub fn zawgyi_marks_are_placed<U: hb_unicode_funcs_t, F: hb_font_t, M: hb_ot_layout_t<F>>()
    ensures normalises { ⟦<ZawgyiShaper as hb_ot_shaper_t<U, F, M>>⟧.constants.preference ≡ pos 0 }
    ensures script { ⟦<ZawgyiShaper as hb_ot_shaper_t<U, F, M>>⟧.constants.gpos_tag ≡ None }
    ensures own { ⟦<ZawgyiShaper as hb_ot_shaper_t<U, F, M>>⟧.constants.is_default ≡ false }
    ensures widths { ⟦<ZawgyiShaper as hb_ot_shaper_t<U, F, M>>⟧.constants.zero_width_marks ≡ 0 }
    ensures places { ⟦<ZawgyiShaper as hb_ot_shaper_t<U, F, M>>⟧.constants.fallback_position ≡ false }
{}
