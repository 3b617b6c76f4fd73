//! Syllables of texts by a grammar over categories of characters.
//!
//! A grammar is a list of kinds of syllables with their patterns, in the order of their priority:
//! sets of categories, one pattern after another, one or another, any number of times. The first
//! syllable of a text is the longest beginning that a pattern matches, of the kind of the first
//! such pattern, and else one character of another kind. [`scanner`] finds it by a table of states.
//! That a table is that of a grammar is computed in a proof, from the derivatives of its patterns.
#![tactic(auto)]

pub mod categories;
pub mod indic;
pub mod khmer;
pub mod laws;
pub mod myanmar;
pub mod reading;
pub mod scanner;
pub mod universal;
pub mod worked;

pub use scanner::{Machine, Syllable, first_syllable};
