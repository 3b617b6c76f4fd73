//! Glyphs in the table `glyf` of a font file (OpenType, "glyf"): the points of a glyph that is
//! drawn by itself ([`simple`]), and the glyphs that another one is made of ([`composite`]).
//!
//! [`bounded`] reads glyphs of few parts without an allocator.
//!
//! Any bytes are taken. A glyph of which a part is cut off has no points.
#![tactic(auto)]

mod axes;
pub mod bounded;
pub mod composite;
mod flags;
pub mod simple;
pub mod worked;

pub use composite::{Component, Matrix, Placement};
pub use simple::GlyphPoint;
