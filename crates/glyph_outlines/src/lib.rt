//! Outlines of a font file's glyphs: its table `glyf` (OpenType, "glyf", "loca").
//!
//! Any bytes are taken, and every call returns: a glyph is made of at most [`MOST_COMPONENTS`]
//! others, the last of which begins after at most [`MOST_POINTS`] points, and an outline has at
//! most as many segments as the caller asks for. [`outlines`] finds the bytes of a glyph; its
//! private neighbours put the points of its components together, and [`segments`] are made of them.
//! [`worked`] has the definitions computed by hand.
#![tactic(auto)]

mod cubic;
mod frame;
pub mod outlines;
mod parts;
pub mod segments;
mod varied;
pub mod worked;

pub use frame::Point;
pub use outlines::{Outline, Outlines};
pub use parts::{MOST_COMPONENTS, MOST_POINTS};
pub use segments::Segment;
