//! The categories of characters. They are numbered without gaps, so that a number is a column of a
//! table of states.

pub mod indic;
pub mod universal;
