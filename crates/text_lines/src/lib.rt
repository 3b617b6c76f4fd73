//! The lines of a text, by whatever shapes its parts.
//!
//! [`layout`] is the whole, as the list of its steps: levels by UAX 9 (`reading`), the parts of
//! the text that are shaped by themselves ([`parts`]), a font for each cluster and glyphs
//! (`fitting`), lines by UAX 14 over measured glyphs (`cells`), the pieces of each line
//! (`pieces`), and its runs from left to right (`visual`). What shapes is a [`PartShaper`].
//! [`options`] is what a caller may ask for, [`lines`] what comes out, and `scaling` the units of
//! the result.
#![tactic(auto)]

mod cells;
mod fitting;
pub mod layout;
pub mod lines;
pub mod options;
pub mod parts;
mod pieces;
mod reading;
mod scaling;
mod visual;
pub mod worked;

pub use bidi::Direction;
pub use layout::text_lines;
pub use lines::{Glyph, TextLine, TextRun};
pub use options::{ParagraphError, ParagraphOptions};
pub use parts::{Part, PartShaper};
