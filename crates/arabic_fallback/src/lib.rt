//! Arabic for fonts whose `GSUB` has no forms of letters: the presentation forms of Unicode and
//! their ligatures, where the font has glyphs for them.
//!
//! [`shape_fallback`] does what lookups of initial, medial, final and isolated forms and of
//! required ligatures would do to a buffer of glyphs. [`laws`] says what it preserves.
#![tactic(auto)]
#![allow(non_camel_case_types)]

pub mod classes;
pub mod fallback;
pub mod following;
pub mod forms;
pub mod laws;
pub mod ligating;
pub mod ligatures;
pub mod merging;
pub mod replaced;
pub mod seeking;
pub mod tables;
pub mod vain;
pub mod work;
pub mod worked;

pub use fallback::{FallbackMasks, shape_fallback};
