//! A shaper with the hooks `setup_masks` and `pause`.
ghost use Rattle.std.specs.Prelude.{◌≡◌, true, false, None, pos, refl};
ghost use Rattle.test_fixtures.specs.Doubling;

use shape_buffer::buffer::{ShapeError, hb_buffer_t, hb_glyph_info_t, hb_tag_t};
use shape_buffer::interfaces::{hb_font_t, hb_ot_layout_t, hb_unicode_funcs_t};
use shape_buffer::walks::update_items;
use shape_pipeline::ot_shape_plan::hb_ot_shape_plan_t;
use shape_pipeline::ot_shaper::hooks::{pause_hook, setup_masks_hook};
use shape_pipeline::ot_shaper::{HB_OT_SHAPE_ZERO_WIDTH_MARKS_NONE, no_hook, script_shaper};
use std::alloc::Global;

/// Sets the bit 0x800 of each mask, and doubles each glyph in pause 7.
#[derive(Clone, Copy, Debug)]
pub struct DoublingShaper;

fn with_bit(info: &hb_glyph_info_t) -> hb_glyph_info_t
    ensures { result ≡ Doubling.with_bit info.now }
{
    let mut info = *info;
    info.mask |= 0x800;
    info
}

/// An item with twice its glyph, bits past 32 dropped.
fn with_double(info: &hb_glyph_info_t) -> hb_glyph_info_t
    ensures { result ≡ Doubling.with_double info.now }
{
    let mut info = *info;
    info.glyph_id <<= 1;
    info
}

impl<U: hb_unicode_funcs_t, F: hb_font_t, M: hb_ot_layout_t<F>> script_shaper<U, F, M>
    for DoublingShaper {
    type Data = ();

    type CollectFeatures = no_hook;

    type OverrideFeatures = no_hook;

    type CreateData = no_hook;

    type PreprocessText = no_hook;

    type PostprocessGlyphs = no_hook;

    type Pause = Self;

    type Decompose = no_hook;

    type Compose = no_hook;

    type SetupMasks = Self;

    type ReorderMarks = no_hook;

    ghost IS_DEFAULT = { false };

    const IS_DEFAULT: bool = false;

    ghost NORMALIZATION_PREFERENCE = { pos 1 };

    const NORMALIZATION_PREFERENCE: i32 = 1;

    ghost GPOS_TAG = { None };

    const GPOS_TAG: Option<hb_tag_t> = None;

    ghost ZERO_WIDTH_MARKS = { 0 };

    const ZERO_WIDTH_MARKS: u32 = HB_OT_SHAPE_ZERO_WIDTH_MARKS_NONE;

    ghost FALLBACK_POSITION = { false };

    const FALLBACK_POSITION: bool = false;

    ghost lawful_preference = { refl };

    ghost lawful_zero_width = { refl };
}

impl<U: hb_unicode_funcs_t, F, M: hb_ot_layout_t<F>> setup_masks_hook<DoublingShaper, (), U, F, M>
    for DoublingShaper {
    ghost masked = { λ _ _ _. Doubling.all_with_bit };

    ghost GIVEN = { true };

    const GIVEN: bool = true;

    fn setup_masks(
        _shaper: &DoublingShaper,
        _plan: &hb_ot_shape_plan_t<'_, DoublingShaper, M::Map, ()>,
        _face: &F,
        buffer: &mut hb_buffer_t,
    ) {
        update_items(buffer, |info| with_bit(info));
    }

    ghost masks_alone = { λ _ _ _. Doubling.all_with_bit-alone };
}

impl<U: hb_unicode_funcs_t, F, M: hb_ot_layout_t<F>> pause_hook<DoublingShaper, (), U, F, M>
    for DoublingShaper {
    ghost paused = { λ _ _ _. Doubling.doubled };

    ghost GIVEN = { true };

    const GIVEN: bool = true;

    fn pause(
        _shaper: &DoublingShaper,
        _alloc: Global,
        n: u32,
        _plan: &hb_ot_shape_plan_t<'_, DoublingShaper, M::Map, ()>,
        _face: &F,
        buffer: &mut hb_buffer_t,
    ) -> Result<(), ShapeError> {
        if n == 7 {
            update_items(buffer, |info| with_double(info));
        }
        Ok(())
    }
}
