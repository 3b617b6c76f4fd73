//! Which font shows which part of a text, where one font has not all of it.
//!
//! Fonts are tried in the order of a list. A cluster, which is never parted, gets the first font
//! that has all of it, and the first of the list if none has. Neighbours of one font are shaped
//! together: they make a span. What has a cluster is for the caller to say, so [`choosing`] serves
//! any shaper. [`spans`] joins neighbours, and [`laws`] says what follows from the definitions of
//! `specs/Choice`.
#![tactic(auto)]

pub mod choosing;
pub mod laws;
pub mod spans;
#[cfg(test)]
mod tests;
pub mod worked;

pub use choosing::{Chosen, FallbackError, Tried, choose_fonts};
pub use spans::Span;
