//! Signs that stretch over a word: the Syriac Abbreviation Mark, and Arabic's signs of numbers and
//! verses in some fonts.
//!
//! A font takes such a sign apart into tiles (feature `stch`), of which every other one may be
//! repeated. [`record_tiles`] notes them right after that feature, [`stretch_tiles`] repeats them
//! over the word once glyphs have positions. [`laws`] says what both preserve. OpenType's page on
//! Syriac shaping describes the feature; how tiles are counted and squeezed is HarfBuzz's.
#![tactic(auto)]
#![allow(non_camel_case_types)]

pub mod copying;
pub mod fitting;
pub mod laws;
pub mod stretching;
pub mod tiles;
pub mod worked;

pub use stretching::stretch_tiles;
pub use tiles::record_tiles;
