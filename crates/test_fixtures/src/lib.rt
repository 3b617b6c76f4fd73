//! What tests bring to shaping: a face that is plain data, an engine that does what the face says,
//! and shapers that compose, reorder, change or double characters, or have preferences for marks.
//! How cases are read from lines of text, and how glyphs are printed. And definitions computed on
//! cases over them.
#![tactic(auto)]
#![allow(non_camel_case_types)]

mod absorbing;
pub mod cases;
mod changing;
mod doubling;
mod face;
mod layout;
mod lookups;
mod marking;
mod preferring;
pub mod printing;
mod rules;
mod swapping;
pub mod worked;

pub use absorbing::AbsorbingShaper;
pub use changing::ChangingShaper;
pub use doubling::DoublingShaper;
pub use face::{EVERY_GLYPH, KnownGlyph, PLAIN_FACE, TestFace};
pub use layout::{TestLayout, TestMap};
pub use marking::{EarlyScripted, LateHanging, Marking, Never};
pub use preferring::{Automatic, EarlyShaper, HangingShaper, LateShaper, PreferringShaper};
pub use rules::{Ligature, Multiple, Single, Stage};
pub use swapping::SwappingShaper;
