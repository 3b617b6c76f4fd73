//! Runs of the library, calls of its buffer and look-ups in its faces, for programs in C that count
//! their instructions: `bench/`.
//!
//! An export of runs fills one buffer with a text, does its work and clears the buffer, so many
//! times: the difference between two numbers of times is the cost of one. Functions that are to be
//! distinguished by the count are never inlined. It returns how many glyphs there are at the end,
//! and 0 if a call was refused. [`tables`] has runs over a face of tables, [`fonts`] over the bytes
//! of a font file, [`runs`] what both do, [`scripts`] the same by the shaper of a script;
//! [`buffer`] and [`lines`] have calls by themselves, [`faces`] opens fonts and looks glyphs up,
//! and [`words`] finds words in a cache.
#![tactic(auto)]
#![allow(non_camel_case_types)]

mod buffer;
pub mod faces;
mod fonts;
mod lines;
mod runs;
mod scripts;
mod table_face;
mod tables;
mod words;
