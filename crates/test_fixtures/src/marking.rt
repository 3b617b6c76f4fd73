//! How shapers want marks to be treated, as types, since a shaper's preference is a constant.
ghost use Rattle.std.specs.Prelude.{◌≡◌, ℕ, Bool, Option, true, false, None, Some, refl};
ghost use Rattle.shape_common.specs.declared.text_types.hb_tag_t.{hb_tag_t as AnyTag};
ghost use Rattle.shape_plan.specs.Shaper.{is_zero_width_type};
ghost use Rattle.shape_plan.specs.Tags.{tag};

use shape_buffer::buffer::hb_tag_t;
use shape_pipeline::ot_shaper::{
    HB_OT_SHAPE_ZERO_WIDTH_MARKS_BY_GDEF_EARLY, HB_OT_SHAPE_ZERO_WIDTH_MARKS_BY_GDEF_LATE,
    HB_OT_SHAPE_ZERO_WIDTH_MARKS_NONE,
};

/// What a shaper wants for marks.
pub trait Marking {
    ghost ZERO_WIDTH_MARKS: { ℕ };

    /// When marks lose their advances: 0 to 2.
    const ZERO_WIDTH_MARKS: u32;

    ghost FALLBACK_POSITION: { Bool };

    /// Whether marks are placed by their extents if no table places them.
    const FALLBACK_POSITION: bool;

    ghost GPOS_TAG: { Option AnyTag };

    /// The script whose positioning lookups the shaper is made for.
    const GPOS_TAG: Option<hb_tag_t>;

    ghost lawful: { is_zero_width_type ZERO_WIDTH_MARKS ≡ true };
}

/// Marks are never zeroed, and are placed by their boxes.
pub struct Hanging;

impl Marking for Hanging {
    ghost ZERO_WIDTH_MARKS = { 0 };

    const ZERO_WIDTH_MARKS: u32 = HB_OT_SHAPE_ZERO_WIDTH_MARKS_NONE;

    ghost FALLBACK_POSITION = { true };

    const FALLBACK_POSITION: bool = true;

    ghost GPOS_TAG = { None };

    const GPOS_TAG: Option<hb_tag_t> = None;

    ghost lawful = { refl };
}

/// Marks are zeroed before tables place them, and none is placed by its box.
pub struct Early;

impl Marking for Early {
    ghost ZERO_WIDTH_MARKS = { 1 };

    const ZERO_WIDTH_MARKS: u32 = HB_OT_SHAPE_ZERO_WIDTH_MARKS_BY_GDEF_EARLY;

    ghost FALLBACK_POSITION = { false };

    const FALLBACK_POSITION: bool = false;

    ghost GPOS_TAG = { None };

    const GPOS_TAG: Option<hb_tag_t> = None;

    ghost lawful = { refl };
}

/// Marks are zeroed after tables have placed them, and none is placed by its box.
pub struct Late;

impl Marking for Late {
    ghost ZERO_WIDTH_MARKS = { 2 };

    const ZERO_WIDTH_MARKS: u32 = HB_OT_SHAPE_ZERO_WIDTH_MARKS_BY_GDEF_LATE;

    ghost FALLBACK_POSITION = { false };

    const FALLBACK_POSITION: bool = false;

    ghost GPOS_TAG = { None };

    const GPOS_TAG: Option<hb_tag_t> = None;

    ghost lawful = { refl };
}

/// Marks are zeroed after tables have placed them, and are placed by their boxes.
pub struct LateHanging;

impl Marking for LateHanging {
    ghost ZERO_WIDTH_MARKS = { 2 };

    const ZERO_WIDTH_MARKS: u32 = HB_OT_SHAPE_ZERO_WIDTH_MARKS_BY_GDEF_LATE;

    ghost FALLBACK_POSITION = { true };

    const FALLBACK_POSITION: bool = true;

    ghost GPOS_TAG = { None };

    const GPOS_TAG: Option<hb_tag_t> = None;

    ghost lawful = { refl };
}

/// Marks are zeroed before tables place them, and are placed by their boxes unless the positioning
/// lookups are those of the script 1.
pub struct EarlyScripted;

impl Marking for EarlyScripted {
    ghost ZERO_WIDTH_MARKS = { 1 };

    const ZERO_WIDTH_MARKS: u32 = HB_OT_SHAPE_ZERO_WIDTH_MARKS_BY_GDEF_EARLY;

    ghost FALLBACK_POSITION = { true };

    const FALLBACK_POSITION: bool = true;

    ghost GPOS_TAG = { Some (tag 1) };

    const GPOS_TAG: Option<hb_tag_t> = Some(hb_tag_t(1));

    ghost lawful = { refl };
}

/// Marks are never zeroed, and none is placed by its box.
pub struct Never;

impl Marking for Never {
    ghost ZERO_WIDTH_MARKS = { 0 };

    const ZERO_WIDTH_MARKS: u32 = HB_OT_SHAPE_ZERO_WIDTH_MARKS_NONE;

    ghost FALLBACK_POSITION = { false };

    const FALLBACK_POSITION: bool = false;

    ghost GPOS_TAG = { None };

    const GPOS_TAG: Option<hb_tag_t> = None;

    ghost lawful = { refl };
}
