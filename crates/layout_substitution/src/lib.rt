//! Substitution of glyphs by the lookups of the table `GSUB` that name no others: single, multiple,
//! alternate and ligature substitution at a place of a buffer (OpenType, "GSUB", kinds 1 to 4).
//!
//! [`substitutes`] reads what the table puts in place of a glyph, [`replaced`] says what becomes of
//! an item that another glyph replaces, [`edits`] changes a buffer at a place, [`apply`],
//! [`deletion`], [`alternate`], [`ligature`], and [`ligature_reach`] apply the subtables of a
//! lookup by their kind, and [`kinds`] a whole lookup, one of type 1 by `singles`;
//! [`ligature_sought`] goes over one of type 4 once. [`merging`] is what a ligature costs that
//! merges clusters, and [`start`] is what comes before the first lookup. [`would`] says whether a
//! lookup of any kind would substitute glyphs that stand alone. Any bytes are taken.
#![tactic(auto)]
#![allow(non_camel_case_types)]

pub mod alternate;
pub mod apply;
pub mod deletion;
pub mod edits;
pub mod kinds;
pub mod laws;
pub mod ligation;
pub mod ligature;
pub mod ligature_reach;
pub mod ligature_sought;
pub mod merging;
pub mod replaced;
mod singles;
pub mod start;
pub mod substitutes;
pub mod worked;
pub mod would;
