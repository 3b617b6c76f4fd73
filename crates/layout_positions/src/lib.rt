//! Positioning by the table `GPOS` (OpenType, "Glyph positioning table"): lookups of kinds 1 to 9
//! over a buffer.
//!
//! A lookup moves glyphs, changes advances along the line, and attaches glyphs to others; items,
//! their number and their clusters stay, and flags change only by what is unsafe to break or to
//! concat. [`values`] and [`anchors`] read the table, with what [`devices`] add at the coordinates
//! of a variable font, and `sizes` scale it for a font at a size; [`edits`] change a buffer at a
//! place. Any bytes are taken: what lies past the end of the table reads as 0.
#![tactic(auto)]
#![allow(non_camel_case_types)]

pub mod adjustment;
pub mod anchors;
pub mod attachment;
pub mod bases;
pub mod cursive;
pub mod devices;
pub mod edits;
pub mod flagged;
pub mod known;
pub mod laws;
pub mod listed;
pub mod marks;
pub mod neighbours;
pub mod nested;
pub mod pair_walk;
pub mod paired;
pub mod pairs;
pub mod places;
pub mod sites;
mod sizes;
pub mod steps;
pub mod subtables;
pub mod tolls;
pub mod turning;
pub mod values;
pub mod walk;
pub mod ways;
pub mod worked;
