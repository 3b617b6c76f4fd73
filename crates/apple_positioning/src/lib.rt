//! Positioning by Apple's tables, read in place: [`tracking`] by the point size of a text, and
//! [`anchors`], points of glyphs by number. Of extended kerning [`tables`] runs the whole table over
//! a line, and [`subtables`] one of the subtables that [`chains`] has; [`values`] has the values of
//! pairs, and [`attachments`] and [`stacks`] read what entries of state tables name. [`old_tables`]
//! runs the older table `kern` over a line. [`laws`] says what they preserve.
//!
//! Any bytes are taken. What lies past the end of a table reads as 0, and a count is cut to what
//! the table has room for. [`worked`] has the definitions computed by hand.
#![tactic(auto)]
#![allow(non_camel_case_types)]

pub mod anchors;
mod attaching;
pub mod attachments;
pub mod chains;
mod driver;
pub mod laws;
mod layouts;
mod old_states;
pub mod old_tables;
mod pairs;
pub mod runs;
mod stacking;
pub mod stacks;
pub mod subtables;
pub mod tables;
#[cfg(test)]
mod tests;
pub mod tracking;
pub mod values;
pub mod worked;

pub use anchors::{Anchor, Anchors};
pub use attachments::Action;
pub use chains::{Chain, Header};
pub use old_tables::{OldKerning, run_kern};
pub use runs::Kerning;
pub use subtables::run_subtable;
pub use tables::{ExtendedKerning, run_table};
pub use values::{Layout, Subtable};
