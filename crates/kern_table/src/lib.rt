//! A layout engine over the table `kern` of a font file: [`KernTable`], for
//! [`FontFace`](shape_font::FontFace).
//!
//! Two glyphs side by side, with marks and ignorables between them skipped, are moved together or
//! apart by the value that the table has for them: half of it goes to the advance of the first, the
//! rest to the second. The table is read in place, and no memory is taken. [`headers`] reads both
//! versions of the table, OpenType's and Apple's; [`pairs`] finds the value of two glyphs,
//! [`sides`] stores which glyphs have pairs, [`walk`] goes over a buffer, [`tables`] over the
//! subtables of a table, [`map`] reads from the requests of a plan where kerning is on, and
//! [`engine`] puts them together. [`worked`] has the definitions computed by hand.
#![tactic(auto)]
#![allow(non_camel_case_types)]

pub mod engine;
pub mod headers;
pub mod laws;
pub mod map;
pub mod pairs;
pub mod sides;
pub mod tables;
pub mod walk;
pub mod worked;

pub use engine::KernTable;
pub use map::KernMap;
pub use sides::{PairGlyphs, Sides};
