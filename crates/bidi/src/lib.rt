//! UAX 9, for texts and lines of letters of both directions, each rule under its number.
//!
//! [`text`] has the levels of a whole text (P1), [`levels`] the level of a paragraph (P2, P3),
//! [`explicit`] the levels by embeddings, overrides and isolates (X1 to X8), `members` what is left
//! of it (X9), `sequences` the isolating run sequences (X10), [`weak`], `brackets` and [`neutral`]
//! the rules of a sequence (W1 to W7; N0; N1, N2, I1, I2), and [`lines`] those of a line (L1, L2).
#![tactic(auto)]

mod bracket_pairs;
mod brackets;
mod classes;
pub mod explicit;
pub mod laws;
pub mod levels;
pub mod lines;
mod members;
pub mod neutral;
mod places;
mod sequences;
pub mod text;
pub mod weak;
pub mod worked;

pub use brackets::{closing_bracket, opening_bracket};
pub use explicit::MAX_DEPTH;
pub use levels::{Direction, classes_of, paragraph_level};
pub use lines::{line_levels, visual_order, visual_places};
pub use text::{Paragraph, TextLevels, text_levels};
