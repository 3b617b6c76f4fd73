//! The buffer that shaping works on, and what shaping asks of its callers.
//!
//! [`buffer`] has the items, positions and settings of a text; each of its calls is a function on
//! lists and settings, and its contract says which. [`interfaces`] has the traits that shaping is
//! generic over: the Unicode functions, the face and the layout engine, with the laws that every
//! implementation proves. [`laws`] has what follows for canonical form, [`cluster_laws`] for
//! clusters. Types of `shape_common` and `shape_items`, which stand below, are shown here, too.
#![tactic(auto)]
#![allow(non_camel_case_types)]

pub mod buffer;
pub mod interfaces;
pub mod passing;
pub mod position_walks;
pub mod walks;

pub use buffer::{
    BufferClusterLevel, BufferFlags, Direction, Feature, GlyphBuffer, GlyphCluster, GlyphId,
    GlyphInfo, GlyphPosition, Language, SAFE_TO_INSERT_TATWEEL, Script, ShapeError, ShapeFault,
    UNSAFE_TO_BREAK, UNSAFE_TO_CONCAT, UnicodeBuffer, hb_buffer_t, hb_glyph_info_t, hb_mask_t,
    hb_tag_t,
};
pub use canonical_form::laws;
pub use interfaces::{
    MapFace, Metrics, NoLookups, PlainUnicode, hb_font_t, hb_glyph_extents_t, hb_ot_layout_t,
    hb_ot_map_builder_t, hb_tables_t, hb_unicode_funcs_t,
};
pub use shape_common::wrapping;
pub use shape_items::cluster_laws;
