//! The two shapers that give no hook.
ghost use Rattle.std.specs.Prelude.{true, false, None, pos, refl};

use crate::normalization_mode::HB_OT_SHAPE_NORMALIZATION_MODE_DEFAULT;
use crate::ot_shaper::{
    HB_OT_SHAPE_ZERO_WIDTH_MARKS_BY_GDEF_LATE, HB_OT_SHAPE_ZERO_WIDTH_MARKS_NONE, no_hook,
    script_shaper,
};
use shape_buffer::buffer::hb_tag_t;
use shape_buffer::interfaces::{hb_font_t, hb_ot_layout_t, hb_unicode_funcs_t};

/// The shaper of texts whose script needs nothing of its own.
#[derive(Clone, Copy, Debug)]
pub struct hb_default_shaper_t;

/// The value of [`hb_default_shaper_t`].
pub const DEFAULT_SHAPER: hb_default_shaper_t = hb_default_shaper_t;

impl<U: hb_unicode_funcs_t, F: hb_font_t, M: hb_ot_layout_t<F>> script_shaper<U, F, M>
    for hb_default_shaper_t {
    type Data = ();

    type CollectFeatures = no_hook;

    type OverrideFeatures = no_hook;

    type CreateData = no_hook;

    type PreprocessText = no_hook;

    type PostprocessGlyphs = no_hook;

    type Pause = no_hook;

    type Decompose = no_hook;

    type Compose = no_hook;

    type SetupMasks = no_hook;

    type ReorderMarks = no_hook;

    ghost IS_DEFAULT = { true };

    const IS_DEFAULT: bool = true;

    ghost NORMALIZATION_PREFERENCE = { pos 4 };

    const NORMALIZATION_PREFERENCE: i32 = HB_OT_SHAPE_NORMALIZATION_MODE_DEFAULT;

    ghost GPOS_TAG = { None };

    const GPOS_TAG: Option<hb_tag_t> = None;

    ghost ZERO_WIDTH_MARKS = { 2 };

    const ZERO_WIDTH_MARKS: u32 = HB_OT_SHAPE_ZERO_WIDTH_MARKS_BY_GDEF_LATE;

    ghost FALLBACK_POSITION = { true };

    const FALLBACK_POSITION: bool = true;

    ghost lawful_preference = { refl };

    ghost lawful_zero_width = { refl };
}

/// The shaper that leaves all to the face: it neither zeroes nor places marks.
#[derive(Clone, Copy, Debug)]
pub struct hb_dumber_shaper_t;

/// The value of [`hb_dumber_shaper_t`].
pub const DUMBER_SHAPER: hb_dumber_shaper_t = hb_dumber_shaper_t;

impl<U: hb_unicode_funcs_t, F: hb_font_t, M: hb_ot_layout_t<F>> script_shaper<U, F, M>
    for hb_dumber_shaper_t {
    type Data = ();

    type CollectFeatures = no_hook;

    type OverrideFeatures = no_hook;

    type CreateData = no_hook;

    type PreprocessText = no_hook;

    type PostprocessGlyphs = no_hook;

    type Pause = no_hook;

    type Decompose = no_hook;

    type Compose = no_hook;

    type SetupMasks = no_hook;

    type ReorderMarks = no_hook;

    ghost IS_DEFAULT = { false };

    const IS_DEFAULT: bool = false;

    ghost NORMALIZATION_PREFERENCE = { pos 4 };

    const NORMALIZATION_PREFERENCE: i32 = HB_OT_SHAPE_NORMALIZATION_MODE_DEFAULT;

    ghost GPOS_TAG = { None };

    const GPOS_TAG: Option<hb_tag_t> = None;

    ghost ZERO_WIDTH_MARKS = { 0 };

    const ZERO_WIDTH_MARKS: u32 = HB_OT_SHAPE_ZERO_WIDTH_MARKS_NONE;

    ghost FALLBACK_POSITION = { false };

    const FALLBACK_POSITION: bool = false;

    ghost lawful_preference = { refl };

    ghost lawful_zero_width = { refl };
}
