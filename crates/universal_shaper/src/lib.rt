//! The Universal Shaping Engine: the shaper of the scripts whose texts are cut into syllables by
//! the categories of their characters, Tibetan, Sinhala, Javanese, Adlam and some eighty others, as
//! HarfBuzz has it.
//!
//! Before normalising, vowels that look like another one are parted by a dotted circle, and marks
//! aren't composed. Letters of scripts that join get their forms with the masks. The rest is done
//! at pauses between lookups ([`requests`] numbers them): at the first one syllables are found,
//! from the characters that items keep beside their glyphs; then what lookups make of a repha and
//! of a form before the base is noted; at last broken syllables get a dotted circle, and each
//! syllable is reordered. Items that change places are in one cluster by then. [`shaper`] has the
//! hooks, and what a run by them preserves.
#![tactic(auto)]
#![allow(non_camel_case_types)]

pub mod categories;
mod composing;
mod finding;
pub mod joining;
pub mod lawful;
mod masks;
mod pauses;
mod recording;
mod reordering;
mod requests;
pub mod shaper;
pub mod worked;

pub use shaper::UniversalShaper;
