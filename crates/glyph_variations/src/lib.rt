//! What the table `gvar` adds to the points of a glyph at the coordinates of a variable font
//! (OpenType, "gvar", "Tuple variation store").
//!
//! [`glyph`] finds what is stored for a glyph, `tuples` says how far each tuple takes part,
//! `numbers` and `packed` read its points and deltas, and [`sums`] adds them up for one point.
//! [`metric_points`] says which points those for a glyph's metrics are. Any bytes are taken: what
//! lies past the end reads as 0.
#![tactic(auto)]

pub mod glyph;
pub mod inferred;
pub mod laws;
pub mod metric_points;
mod numbers;
pub mod outline;
mod packed;
pub mod sums;
mod tuples;
pub mod worked;
