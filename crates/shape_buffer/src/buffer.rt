//! A text on its way to glyphs: its items and positions, and its settings.
//!
//! A text is filled into a [`UnicodeBuffer`], shaped as an [`hb_buffer_t`] and returned as a
//! [`GlyphBuffer`]: three views of one list of items, which always has as many positions as items.
//! Contracts see each of them as the record `Buffer` of `shape_items`, so no clause names a field
//! of theirs.

mod context;
mod error;
mod glyph_buffer;
mod storage;
mod text;
mod unicode_buffer;

pub use context::CONTEXT_LENGTH;
pub use error::{ShapeError, ShapeFault};
pub use glyph_buffer::GlyphBuffer;
pub use shape_common::{
    BufferClusterLevel, BufferFlags, Direction, Feature, GlyphId, GlyphPosition, GlyphPropsFlags,
    Language, ScratchFlags, Script, hb_tag_t, hb_unicode_general_category_t,
};
pub use shape_items::{
    DEFINED, GlyphCluster, SAFE_TO_INSERT_TATWEEL, UNSAFE_TO_BREAK, UNSAFE_TO_CONCAT,
    hb_glyph_info_t, hb_glyph_info_t as GlyphInfo, hb_mask_t,
};
pub use storage::hb_buffer_t;
pub use unicode_buffer::UnicodeBuffer;
