//! Lines of a shaped text: the glyphs that `shape` returns, cut where lines end.
//!
//! What it asks of glyphs, `shape` gives: [`crate::laws::glyphs_can_be_cut`].
pub use shape_lines::{Line, can_cut, cut_lines};
