//! Where the lines of a text may end and where they must, by the rules of UAX 14.
//!
//! [`letters`] gives each character what the rules ask of it, [`units`] joins marks to the
//! characters before them, [`rules`] has the rules, each under its number, and [`breaking`] goes
//! over a text by them.
#![tactic(auto)]

pub mod breaking;
pub mod letters;
pub mod rules;
pub mod units;
pub mod worked;

pub use breaking::{LineBreaks, line_breaks};
