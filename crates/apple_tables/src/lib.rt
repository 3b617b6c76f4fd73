//! What the tables of Apple's layout have in common, read in place: lookup tables, which have a
//! value for some glyphs ([`lookups`]), and state tables, which lead from glyph to glyph
//! ([`states`]).
//!
//! Any bytes are taken. What lies past the end of a table reads as 0, and a value that leads past
//! it is none. [`worked`] has the definitions computed by hand.
#![tactic(auto)]

pub mod lookups;
pub mod states;
pub mod worked;

pub use lookups::Lookup;
pub use states::{Entry, StateTable};
