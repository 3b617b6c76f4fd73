//! Substitution by whole lookups and stages of lookups, those that apply others included (OpenType,
//! "GSUB", kinds 1 to 8).
//!
//! [`nested`] applies a lookup at a place: where a rule of context matches, it applies the lookups
//! that the rule names, to 64 levels, [`progress`] says how far it is, and [`places`] where its
//! glyphs stand then. [`attempts`] has the same at a place of a walk, with its cost. [`reverse`]
//! has the lookups that go backwards, and [`reversal_reach`] what they looked at in vain;
//! [`stages`] goes over a buffer, and [`laws`] says what each stage preserves, whatever the bytes
//! of the font are.
#![tactic(auto)]
#![allow(non_camel_case_types)]

pub mod attempts;
pub mod laws;
pub mod meeting;
pub mod nested;
pub mod places;
pub mod progress;
pub mod reversal_reach;
pub mod reverse;
pub mod run_digest;
pub mod stages;
mod tried;
pub mod worked;
