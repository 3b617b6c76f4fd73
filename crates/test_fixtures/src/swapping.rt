//! A shaper whose `reorder_marks` hook exchanges the first two marks of a run.
ghost use Rattle.std.specs.Prelude.{◌≡◌, ◌<◌, ◌≤◌, true, false, None, pos, refl, length};
ghost use Rattle.test_fixtures.specs.Swapping.{first_two_swapped, first_two_swapped-reorders};

use shape_buffer::buffer::{hb_buffer_t, hb_tag_t};
use shape_buffer::interfaces::{hb_font_t, hb_ot_layout_t, hb_unicode_funcs_t};
use shape_pipeline::ot_shape_plan::hb_ot_shape_plan_t;
use shape_pipeline::ot_shaper::hooks::reorder_marks_hook;
use shape_pipeline::ot_shaper::{HB_OT_SHAPE_ZERO_WIDTH_MARKS_NONE, no_hook, script_shaper};

/// Exchanges the first two marks of each run after it was put in canonical order, and composes.
#[derive(Clone, Copy, Debug)]
pub struct SwappingShaper;

fn swap_first_two(buffer: &mut hb_buffer_t, start: usize, end: usize)
    requires some { start < end }
    requires within { end ≤ length buffer.old.items }
    ensures { buffer.new ≡ first_two_swapped buffer.old start end }
{
    if start + 1 < end {
        buffer.swap_infos(start, start + 1);
    }
}

impl<U: hb_unicode_funcs_t, F: hb_font_t, M: hb_ot_layout_t<F>> script_shaper<U, F, M>
    for SwappingShaper {
    type Data = ();

    type CollectFeatures = no_hook;

    type OverrideFeatures = no_hook;

    type CreateData = no_hook;

    type PreprocessText = no_hook;

    type PostprocessGlyphs = no_hook;

    type Pause = no_hook;

    type Decompose = no_hook;

    type Compose = no_hook;

    type SetupMasks = no_hook;

    type ReorderMarks = Self;

    ghost IS_DEFAULT = { false };

    const IS_DEFAULT: bool = false;

    ghost NORMALIZATION_PREFERENCE = { pos 3 };

    const NORMALIZATION_PREFERENCE: i32 = 3;

    ghost GPOS_TAG = { None };

    const GPOS_TAG: Option<hb_tag_t> = None;

    ghost ZERO_WIDTH_MARKS = { 0 };

    const ZERO_WIDTH_MARKS: u32 = HB_OT_SHAPE_ZERO_WIDTH_MARKS_NONE;

    ghost FALLBACK_POSITION = { false };

    const FALLBACK_POSITION: bool = false;

    ghost lawful_preference = { refl };

    ghost lawful_zero_width = { refl };
}

impl<U: hb_unicode_funcs_t, F, M: hb_ot_layout_t<F>> reorder_marks_hook<SwappingShaper, (), U, F, M>
    for SwappingShaper {
    ghost reordered = { λ _ _. first_two_swapped };

    ghost GIVEN = { true };

    const GIVEN: bool = true;

    fn reorder_marks(
        _shaper: &SwappingShaper,
        _plan: &hb_ot_shape_plan_t<'_, SwappingShaper, M::Map, ()>,
        buffer: &mut hb_buffer_t,
        start: usize,
        end: usize,
    ) {
        swap_first_two(buffer, start, end);
    }

    ghost reorders = { λ _ _. first_two_swapped-reorders };
}
