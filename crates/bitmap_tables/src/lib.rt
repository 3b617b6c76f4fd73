//! Boxes of glyphs that a font has as bitmaps: of the PNG images in [`sbix`], and of those in
//! [`cbdt`], which [`cblc`] lists. HarfBuzz takes such a box before that of an outline.
//!
//! Any bytes are taken. What lies past the end of a table reads as 0, so no call is refused, and no
//! table is copied. [`worked`] has the definitions computed on bytes that were read by hand.
#![tactic(auto)]

mod boxes;
pub mod cbdt;
pub mod cblc;
mod limits;
pub mod sbix;
mod tables;
pub mod worked;

pub use tables::Bitmaps;
