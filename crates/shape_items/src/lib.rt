//! The items that shaping works on: characters that become glyphs, with their properties, flags and
//! clusters.
//!
//! [`hb_glyph_info_t`] is one item. [`clusters`] merges and marks the clusters of a list of items,
//! deletes items of it, and reads its clusters; the calls of a buffer stand on these.
//! [`cluster_laws`] has what follows for flags. The record `Buffer` of `specs/Buffer.antt`, by
//! which contracts see a buffer, stands here, too: the rules of merging and deleting speak of it.
//!
//! The calls stand over slices, so that a buffer's calls and those of a list share them; a buffer
//! is in `shape_buffer`, which shows these types, too.
#![tactic(auto)]
#![allow(non_camel_case_types)]

pub mod cluster_laws;
pub mod clusters;
mod item_flags;
mod items;
mod properties;
pub mod worked;

pub use clusters::GlyphCluster;
pub use items::{
    DEFINED, SAFE_TO_INSERT_TATWEEL, UNSAFE_TO_BREAK, UNSAFE_TO_CONCAT, hb_glyph_info_t,
    hb_glyph_info_t as GlyphInfo, hb_mask_t,
};
