//! Carets of a shaped text: where they stand on its line, which is nearest to a click, and what a
//! selection covers.
//!
//! A caret stands before the text of a cluster, at its leading edge, and after the text. Inside a
//! cluster of several characters it stands where the caller says that one may, as between the
//! letters of a ligature: these places divide the cluster's advance into equal parts.
#![tactic(auto)]

pub mod caret;
mod cells;
pub mod laws;
pub mod places;
pub mod selecting;
pub mod worked;

pub use caret::{Caret, carets, stops_rise};
pub use places::{caret_of_offset, offset_of_x};
pub use selecting::{Span, selection};
