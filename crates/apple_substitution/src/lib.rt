//! Substitution by Apple's tables.
//!
//! [`driver`] drives an extended state table over a list of glyphs; what its entries do is a kind
//! of subtable's, a [`Subtable`]: [`rearrangement`] moves glyphs of a span, [`contextual`]
//! replaces a marked glyph and the current one, [`ligature`] joins components, and [`insertion`]
//! inserts glyphs of a list. [`noncontextual`] replaces each glyph by itself, with the class that
//! [`glyphs`] gives. [`ranges`] says where features have a subtable on, [`chains`] by which
//! flags, and over which text; [`subtables`] runs one by its header. [`chain_runs`] runs those of
//! a chain, with the flags of [`feature_ranges`] by features and by [`languages`], and
//! [`metamorphosis`] the chains of the table; [`feature_map`] makes the ranges of what is asked
//! for, and [`substitution`] does both. Any bytes are taken, and a walk ends for each: what it may
//! cost is charged to the buffer. [`worked`] has the definitions computed by hand.
#![tactic(auto)]
#![allow(non_camel_case_types)]

mod breaking;
pub mod chain_runs;
pub mod chains;
pub mod contextual;
pub mod driver;
mod edits;
pub mod feat;
pub mod feature_map;
pub mod feature_ranges;
pub mod glyphs;
pub mod insertion;
pub mod languages;
pub mod laws;
pub mod ligature;
pub mod metamorphosis;
pub mod noncontextual;
mod parts;
pub mod ranges;
pub mod rearrangement;
pub mod registry;
pub mod substitution;
pub mod subtables;
#[cfg(test)]
mod tests;
pub mod worked;

pub use chain_runs::Metamorphosis;
pub use chains::{remove_deleted_glyphs, zero_width_deleted};
pub use driver::{Machine, Subtable};
pub use feature_map::map_features;
pub use feature_ranges::FeatureRange;
pub use languages::Languages;
pub use metamorphosis::run_table;
pub use ranges::{FlagRange, Ranges};
pub use substitution::{MorxFont, substitute};
pub use subtables::{Chain, run_subtable};
