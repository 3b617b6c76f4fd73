//! Shapes a text: makes the glyphs of a face, with positions and clusters, of a list of characters.
//!
//! A plan says how texts of one direction and script are shaped with one face: [`ot_shape_plan`];
//! it is made by the planner of [`ot_shape`]. Script shapers hook in by the trait of [`ot_shaper`].
//! The entries of [`shaping`] run a plan over a buffer: the list of steps stands in [`ot_shape`],
//! each step in a crate below. [`lines`] cuts what they return into lines.
#![tactic(auto)]
#![allow(non_camel_case_types)]

pub mod laws;
pub mod lines;
mod normalised;
pub mod ot_shape;
pub mod shaping;
pub mod strings;
pub mod worked;

pub use normalised::normalised_characters;
pub use ot_shape_normalize::{meets_canonical_premises, normalized_equal};
pub use ot_shape_plan::{hb_ot_shape_plan_t, hb_ot_shape_plan_t as ShapePlan};
pub use ot_shaper::{
    DEFAULT_SHAPER, Preferring, hb_default_shaper_t, hb_ot_shaper_t, no_hook, script_shaper,
};
pub use shape_buffer::{
    BufferClusterLevel, BufferFlags, Direction, Feature, GlyphBuffer, GlyphCluster, GlyphId,
    GlyphInfo, GlyphPosition, Language, MapFace, Metrics, NoLookups, PlainUnicode,
    SAFE_TO_INSERT_TATWEEL, Script, ShapeError, ShapeFault, UNSAFE_TO_BREAK, UNSAFE_TO_CONCAT,
    UnicodeBuffer, hb_buffer_t, hb_font_t, hb_glyph_extents_t, hb_glyph_info_t, hb_mask_t,
    hb_ot_layout_t, hb_ot_map_builder_t, hb_tables_t, hb_tag_t, hb_unicode_funcs_t,
};
pub use shape_fallback::ot_shape_fallback;
pub use shape_normalize::ot_shape_normalize;
pub use shape_plan::{ot_shape_plan, ot_shaper};
pub use shaping::{shape, shape_with_plan};
