//! The tables `CFF ` and `CFF2` of font files: where the outlines of glyphs stand, and their names
//! (Adobe Technical Note 5176, "The Compact Font Format Specification"; OpenType, "CFF2").
//!
//! Any bytes are taken: what lies past the end of a table reads as 0, a place that leads past it
//! has nothing, and no call takes memory. [`index`] finds objects, [`dict`] reads operators,
//! [`charset`] names glyphs, [`select`] finds the Font DICT of a glyph, and [`font`] puts them
//! together.
#![tactic(auto)]

pub mod bytes;
pub mod charset;
pub mod dict;
pub mod font;
pub mod index;
pub mod predefined;
pub mod select;
pub mod strings_text;
pub mod worked;

pub use font::CffFont;
