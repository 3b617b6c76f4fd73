//! What a plan decides before it sees a text.

use shape_buffer::buffer::hb_mask_t;
use shape_buffer::interfaces::hb_tables_t;

/// The masks of a plan's features, and what its runs do and leave.
#[derive(Clone, Copy, Debug)]
pub struct Decisions {
    pub apply_morx: bool,
    pub frac_mask: hb_mask_t,
    pub numr_mask: hb_mask_t,
    pub dnom_mask: hb_mask_t,
    pub rtlm_mask: hb_mask_t,
    pub kern_mask: hb_mask_t,
    pub trak_mask: hb_mask_t,
    pub has_frac: bool,
    pub has_vert: bool,
    pub has_gpos_mark: bool,
    pub requested_kerning: bool,
    pub apply_trak: bool,
    pub fallback_glyph_classes: bool,
    pub apply_gpos: bool,
    pub apply_kern: bool,
    pub apply_fallback_kern: bool,
    pub apply_kerx: bool,
    pub zero_marks: bool,
    pub fallback_mark_positioning: bool,
    pub adjust_mark_positioning_when_zeroing: bool,
}

/// What the decisions depend on: masks of features, what the planner knows, and what face and
/// engine return.
#[derive(Clone, Copy, Debug)]
pub struct PlanFacts {
    pub frac_mask: hb_mask_t,
    pub numr_mask: hb_mask_t,
    pub dnom_mask: hb_mask_t,
    pub rtlm_mask: hb_mask_t,
    pub vert_mask: hb_mask_t,
    pub mark_mask: hb_mask_t,
    pub kern_mask: hb_mask_t,
    pub trak_mask: hb_mask_t,
    /// The table GPOS has the feature of kerning.
    pub has_gpos_kern: bool,
    /// The shaper is made for another script than the one chosen for GPOS.
    pub disable_gpos: bool,
    pub apply_morx: bool,
    /// The given shaper wants marks to lose their advances.
    pub script_zero_marks: bool,
    /// The given shaper wants marks to be placed by their extents.
    pub script_fallback_mark_positioning: bool,
    pub tables: hb_tables_t,
    pub has_glyph_classes: bool,
    pub has_kerning: bool,
    pub has_machine_kerning: bool,
    pub has_cross_kerning: bool,
}
