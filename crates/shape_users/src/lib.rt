//! Users of the layer at work, each on public contracts alone.
//!
//! [`capitals`] is a script shaper that requests a feature and sets its masks, [`signs`] one that
//! reorders. [`ligatures`] is a small engine with single and ligature substitutions, which
//! preserves clusters and flags. It is made by [`stages`], which gives all but the stages of an
//! engine. [`breaking`] goes from a string to its lines, and [`lines`] tells a line breaker: may
//! the text be cut here? [`paragraph`] leads from glyphs to the text that they show, and back.
//! [`plain_glyphs`] says what is known of glyphs without hooks and lookups. [`words`] keeps shaped
//! words, and finds each under each spelling with the same normalised characters.
#![tactic(auto)]
#![allow(non_camel_case_types)]

pub mod breaking;
pub mod capitals;
pub mod ligatures;
pub mod lines;
pub mod paragraph;
pub mod plain_glyphs;
pub mod signs;
pub mod stages;
pub mod words;
