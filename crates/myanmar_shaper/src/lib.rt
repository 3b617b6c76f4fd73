//! The shapers of Myanmar, as HarfBuzz has them: one for Unicode, and one for Zawgyi, which does
//! nothing.
//!
//! Syllables are found at the first pause. At the second one each item gets a position by its
//! category ([`places`]), and a syllable is sorted by positions ([`reordering`]); items that
//! change places are in one cluster by then. [`shaper`] has the hooks, and what a run by them
//! preserves; [`lawful`] says that they are lawful hooks.
#![tactic(auto)]
#![allow(non_camel_case_types)]

mod finding;
pub mod lawful;
mod pauses;
mod places;
mod reordering;
mod requests;
pub mod shaper;
mod turning;
pub mod worked;
pub mod zawgyi;

pub use shaper::MyanmarShaper;
pub use zawgyi::ZawgyiShaper;
