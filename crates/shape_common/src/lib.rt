//! What all of shaping shares: plain data types, the Unicode functions, and faces.
//!
//! Tags, scripts, directions, languages, cluster levels and features are what a caller sets of a
//! text; positions are what it gets. [`hb_unicode_funcs_t`] and [`hb_font_t`] are the traits that
//! shaping asks its callers for: each has one ghost record of functions as its meaning, with the
//! laws that every implementation proves. [`wrapping`] has sums and products of positions. Nothing
//! here speaks of items or buffers.
#![tactic(auto)]
#![allow(non_camel_case_types)]

mod face;
mod flags;
mod general_category;
mod map_face;
pub mod modified_combining_class;
mod plain_unicode;
mod positions;
mod script_names;
mod scripts;
pub mod space_types;
mod text_types;
mod unicode_funcs;
pub mod wrapping;

pub use face::{hb_font_t, hb_glyph_extents_t, hb_tables_t};
pub use flags::{BufferFlags, GlyphPropsFlags, ScratchFlags};
pub use general_category::hb_unicode_general_category_t;
pub use map_face::{MapFace, Metrics};
pub use plain_unicode::PlainUnicode;
pub use positions::GlyphPosition;
pub use text_types::{BufferClusterLevel, Direction, Feature, GlyphId, Language, Script, hb_tag_t};
pub use unicode_funcs::hb_unicode_funcs_t;
