//! A face over the bytes of a font file (OpenType, TrueType): [`FontFace`] is an `hb_font_t` whose
//! results are functions of the bytes.
//!
//! Any bytes are taken. What lies past the end of a table reads as 0, so no call is refused, and
//! one line says what each one means; no table is copied, and no memory is taken. [`bytes`] reads
//! numbers, [`directory`] finds tables, [`resource_fork`] the fonts of Apple's suitcases, [`cmap`]
//! glyphs of characters, by a page of [`font_pages`] in fonts from before Unicode, [`metrics`]
//! advances and boxes, [`moved`] points at coordinates, [`colors`] what `COLR` says of a glyph,
//! [`apple`] has the tables that are Apple's, and [`face`] puts them together. [`worked`] has the definitions computed on bytes that were read by
//! hand.
#![tactic(auto)]
#![allow(non_camel_case_types)]

pub mod apple;
mod bitmaps;
pub mod bytes;
pub mod cff;
pub mod cmap;
pub mod colors;
pub mod directory;
pub mod face;
pub mod font_pages;
pub mod instance;
pub mod laws;
pub mod metrics;
pub mod moved;
pub mod names;
mod placed;
pub mod resource_fork;
pub mod search;
pub mod subtables;
mod tags;
pub mod variations;
pub mod worked;

pub use apple::AppleTables;
pub use face::FontFace;
