//! What shapers by syllables share: syllables numbered, the walk over them, items that change
//! places once they are in one cluster, dotted circles in broken syllables, vowels that may not
//! follow a letter, and the categories of India, Khmer and Myanmar.
//!
//! A syllable is the longest beginning of a text that a grammar has (crate `syllables`). An item
//! keeps the number of its syllable and its category in two bytes of its own, which no lookup
//! writes, so that pauses between lookups can read them of glyphs.
#![tactic(auto)]
#![allow(non_camel_case_types)]

pub mod categories;
pub mod circles;
pub mod constraints;
pub mod moving;
pub mod scanning;
pub mod walking;
pub mod worked;
