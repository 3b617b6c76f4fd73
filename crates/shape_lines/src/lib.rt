//! Lines of a shaped text.
//!
//! A paragraph is shaped once, and then cut where its lines end. [`can_cut`] says whether the
//! clusters and flags of the glyphs tell where that may be; [`laws`] says where, glyph by glyph.
#![tactic(auto)]

pub mod allowed;
pub mod cuttable;
pub mod cutting;
pub mod laws;
mod measuring;
mod reading;
mod spots;
pub mod worked;

pub use allowed::{LineAt, cut_lines_at};
pub use cuttable::can_cut;
pub use cutting::{Line, cut_lines};
pub use spots::Breaks;
