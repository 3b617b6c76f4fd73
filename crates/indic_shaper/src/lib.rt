//! The script shaper for the scripts of India: Devanagari, Bengali, Gurmukhi, Gujarati, Oriya,
//! Tamil, Telugu, Kannada and Malayalam.
//!
//! A text is cut into syllables by the categories of its characters. At a first pause each is put
//! in the order in which fonts want it, with the masks of the forms that its letters may take; at a
//! second one, once the forms are made, vowel signs, rephs and consonants before the base take
//! their places. The shaper gives seven hooks.
#![tactic(auto)]
#![allow(non_camel_case_types)]

pub mod categories;
pub mod composing;
pub mod config;
pub mod cutting;
pub mod engine;
pub mod glyphs;
pub mod initial;
pub mod laws;
pub mod pauses;
pub mod requests;
pub mod settling;
pub mod shaper;
pub mod worked;

pub use shaper::IndicShaper;
