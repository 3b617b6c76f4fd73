//! The shaper of Khmer, as HarfBuzz has it.
//!
//! Vowels of two parts are split as texts are normalised, and marks aren't composed:
//! [`splitting`]. Syllables are found at the first pause and reordered at the second one, before
//! any lookup: COENG and RO go before the base, and so do vowels that are drawn before it:
//! [`reordering`]. [`shaper`] has the hooks, and what a run by them preserves.
#![tactic(auto)]
#![allow(non_camel_case_types)]

mod finding;
mod pauses;
mod reordering;
mod requests;
pub mod shaper;
mod splitting;
pub mod worked;

pub use shaper::KhmerShaper;
