//! What shaping asks of its callers: the Unicode functions, a face and a layout engine.
//!
//! Each is a trait whose meaning is one ghost record of functions; what every implementation must
//! provide is stated there once, as a law that it proves.

mod layout;
mod map_builder;
mod map_request;
mod no_lookups;

pub use layout::hb_ot_layout_t;
pub use map_builder::hb_ot_map_builder_t;
pub use map_request::{
    F_GLOBAL, F_GLOBAL_HAS_FALLBACK, F_GLOBAL_MANUAL_JOINERS, F_GLOBAL_SEARCH, F_HAS_FALLBACK,
    F_MANUAL_JOINERS, F_MANUAL_ZWJ, F_MANUAL_ZWNJ, F_NONE, F_PER_SYLLABLE, F_RANDOM, MAX_VALUE,
    MapRequest, TableIndex, hb_ot_map_feature_flags_t,
};
pub use no_lookups::NoLookups;
pub use shape_common::{
    MapFace, Metrics, PlainUnicode, hb_font_t, hb_glyph_extents_t, hb_tables_t, hb_unicode_funcs_t,
    hb_unicode_general_category_t, modified_combining_class, space_types,
};
