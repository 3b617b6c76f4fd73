//! A shaper whose `preprocess_text` hook changes characters, and not their properties.
ghost use Rattle.std.specs.Prelude.{◌≡◌, true, false, None, pos, refl};
ghost use Rattle.test_fixtures.specs.Changing;

use shape_buffer::buffer::{ShapeError, hb_buffer_t, hb_glyph_info_t, hb_tag_t};
use shape_buffer::interfaces::{hb_font_t, hb_ot_layout_t, hb_unicode_funcs_t};
use shape_buffer::walks::update_items;
use shape_pipeline::ot_shape_plan::hb_ot_shape_plan_t;
use shape_pipeline::ot_shaper::hooks::preprocess_text_hook;
use shape_pipeline::ot_shaper::{HB_OT_SHAPE_ZERO_WIDTH_MARKS_NONE, no_hook, script_shaper};
use std::alloc::Global;

/// Changes each U+0061 to U+0301, whose item stays a letter without a ccc.
#[derive(Clone, Copy, Debug)]
pub struct ChangingShaper;

fn changed(info: &hb_glyph_info_t) -> hb_glyph_info_t
    ensures { result ≡ Changing.changed info.now }
{
    let mut info = *info;
    if info.codepoint == 'a' {
        info.codepoint = '\u{301}';
    }
    info
}

impl<U: hb_unicode_funcs_t, F: hb_font_t, M: hb_ot_layout_t<F>> script_shaper<U, F, M>
    for ChangingShaper {
    type Data = ();

    type CollectFeatures = no_hook;

    type OverrideFeatures = no_hook;

    type CreateData = no_hook;

    type PreprocessText = Self;

    type PostprocessGlyphs = no_hook;

    type Pause = no_hook;

    type Decompose = no_hook;

    type Compose = no_hook;

    type SetupMasks = no_hook;

    type ReorderMarks = no_hook;

    ghost IS_DEFAULT = { false };

    const IS_DEFAULT: bool = false;

    ghost NORMALIZATION_PREFERENCE = { pos 1 };

    const NORMALIZATION_PREFERENCE: i32 = 1;

    ghost GPOS_TAG = { None };

    const GPOS_TAG: Option<hb_tag_t> = None;

    ghost ZERO_WIDTH_MARKS = { 0 };

    const ZERO_WIDTH_MARKS: u32 = HB_OT_SHAPE_ZERO_WIDTH_MARKS_NONE;

    ghost FALLBACK_POSITION = { false };

    const FALLBACK_POSITION: bool = false;

    ghost lawful_preference = { refl };

    ghost lawful_zero_width = { refl };
}

impl<U: hb_unicode_funcs_t, F, M: hb_ot_layout_t<F>> preprocess_text_hook<
    ChangingShaper,
    (),
    U,
    F,
    M,
> for ChangingShaper {
    ghost preprocessed = { λ _ _ _. Changing.all_changed };

    ghost GIVEN = { true };

    const GIVEN: bool = true;

    fn preprocess_text(
        _shaper: &ChangingShaper,
        _alloc: Global,
        _plan: &hb_ot_shape_plan_t<'_, ChangingShaper, M::Map, ()>,
        _face: &F,
        buffer: &mut hb_buffer_t,
    ) -> Result<(), ShapeError> {
        update_items(buffer, |info| changed(info));
        Ok(())
    }
}
