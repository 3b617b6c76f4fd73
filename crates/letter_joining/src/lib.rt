//! How letters join, in the scripts whose letters have forms by their neighbours: Arabic, Syriac,
//! Mongolian, N'Ko and others.
//!
//! [`joining`] has kinds of characters, states between them and the forms of letters, by
//! `ArabicShaping.txt` of the Unicode Character Database; [`forms`] gives the items of a buffer the
//! masks of their forms, [`flags`] marks where a text can't be cut. [`join_all`] does both, for
//! shapers of such scripts.
#![tactic(auto)]
#![allow(non_camel_case_types)]

pub mod features;
pub mod flags;
pub mod forms;
pub mod joining;
pub mod texts;
pub mod worked;

pub use texts::join_all;
