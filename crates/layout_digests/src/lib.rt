//! Digests of lookups: which glyphs a lookup may begin at, in six words (HarfBuzz's
//! `hb_set_digest_t` has three).
//!
//! A digest holds more glyphs than were put in, and never fewer: so a lookup whose digest doesn't
//! hold a glyph does nothing there, and a walk may pass on without a look into the table.
//! [`digest`] has digests, [`coverage`] makes them of Coverage tables, and [`lookups`] of the
//! lookups of a table and of their subtables, in time in step with its bytes, whatever they are;
//! [`stored`] keeps them, and [`ligature_sets`] what sets of ligatures cost and begin with.
#![tactic(auto)]

pub mod coverage;
pub mod digest;
pub mod digested;
pub mod ligature_sets;
pub mod lookups;
pub mod stored;
pub mod whole_rules;
pub mod worked;

pub use digest::Digest;
pub use digested::Digested;
pub use stored::{Head, StoredLookup, StoredLookups};
