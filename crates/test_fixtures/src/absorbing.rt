//! A shaper whose `compose` hook composes any two characters.
ghost use Rattle.std.specs.Prelude.{true, false, Some, None, pos, refl};

use shape_buffer::buffer::hb_tag_t;
use shape_buffer::interfaces::{hb_font_t, hb_ot_layout_t, hb_unicode_funcs_t};
use shape_pipeline::ot_shape_plan::hb_ot_shape_plan_t;
use shape_pipeline::ot_shaper::hooks::compose_hook;
use shape_pipeline::ot_shaper::{HB_OT_SHAPE_ZERO_WIDTH_MARKS_NONE, no_hook, script_shaper};

/// A starter absorbs every mark, and stays as it is.
#[derive(Clone, Copy, Debug)]
pub struct AbsorbingShaper;

impl<U: hb_unicode_funcs_t, F: hb_font_t, M: hb_ot_layout_t<F>> script_shaper<U, F, M>
    for AbsorbingShaper {
    type Data = ();

    type CollectFeatures = no_hook;

    type OverrideFeatures = no_hook;

    type CreateData = no_hook;

    type PreprocessText = no_hook;

    type PostprocessGlyphs = no_hook;

    type Pause = no_hook;

    type Decompose = no_hook;

    type Compose = Self;

    type SetupMasks = no_hook;

    type ReorderMarks = no_hook;

    ghost IS_DEFAULT = { false };

    const IS_DEFAULT: bool = false;

    ghost NORMALIZATION_PREFERENCE = { pos 2 };

    const NORMALIZATION_PREFERENCE: i32 = 2;

    ghost GPOS_TAG = { None };

    const GPOS_TAG: Option<hb_tag_t> = None;

    ghost ZERO_WIDTH_MARKS = { 0 };

    const ZERO_WIDTH_MARKS: u32 = HB_OT_SHAPE_ZERO_WIDTH_MARKS_NONE;

    ghost FALLBACK_POSITION = { false };

    const FALLBACK_POSITION: bool = false;

    ghost lawful_preference = { refl };

    ghost lawful_zero_width = { refl };
}

impl<U: hb_unicode_funcs_t, F, M: hb_ot_layout_t<F>> compose_hook<AbsorbingShaper, (), U, F, M>
    for AbsorbingShaper {
    ghost compose = { λ _ _ _ a b. Some a };

    ghost GIVEN = { true };

    const GIVEN: bool = true;

    fn compose(
        _shaper: &AbsorbingShaper,
        _plan: &hb_ot_shape_plan_t<'_, AbsorbingShaper, M::Map, ()>,
        _face: &F,
        a: char,
        _b: char,
    ) -> Option<char> {
        Some(a)
    }
}
