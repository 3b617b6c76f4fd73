//! Charstrings of Type 2, by which tables `CFF ` and `CFF2` draw glyphs (Adobe Technical Note 5177,
//! "The Type 2 Charstring Format"; OpenType, "CFF2 CharString Format").
//!
//! Any bytes are taken, and every call returns: a machine makes one step at a time ([`machine`]),
//! and a charstring has at most 199,999 operators and numbers. [`pieces`] has the operators that
//! draw, [`bounds`] the boxes of what they draw, and [`boxes`] those boxes in whole units. No call
//! takes memory.
#![tactic(auto)]

pub mod bounds;
pub mod boxes;
pub mod machine;
mod numbers;
pub mod pieces;
pub mod strokes;
pub mod worked;

pub use boxes::{GlyphBox, glyph_box};
