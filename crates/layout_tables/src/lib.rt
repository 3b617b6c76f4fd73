//! The common tables of OpenType layout, read in place: offsets, coverage and classes of glyphs,
//! scripts and language systems, features and their variations, lookups, and what `GDEF` says of
//! glyphs.
//!
//! Any bytes are taken: what lies past the end of a table reads as 0, and a count is cut to the
//! records that the table has room for. No memory is taken, and no call does more work than the
//! bytes that are there. A place is an index into the bytes of the whole table (`GSUB`, `GPOS`,
//! `GDEF`); a NULL offset leads nowhere. Records in order are searched by midpoints, as HarfBuzz
//! does; [`laws`] says that this finds what a walk finds.
#![tactic(auto)]
#![allow(non_camel_case_types)]

pub mod classes;
pub mod coverage;
pub mod features;
pub mod gdef;
pub mod laws;
pub mod lookups;
pub mod offsets;
pub mod scripts;
pub mod variations;
pub mod worked;
