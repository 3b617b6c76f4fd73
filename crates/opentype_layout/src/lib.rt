//! OpenType layout whole: [`OpenTypeLayout`], the engine over `GDEF`, `GSUB`, `GPOS` and `kern` of
//! a font file, and over Apple's `morx`, `kerx` and `trak`, for [`OpenTypeFace`].
//!
//! The crates below it read tables, compile requests and apply lookups. [`chosen`] chooses script
//! and language system for a text, [`lookups`] makes the lookups of a plan ready, `stage` applies
//! those of a stage of substitution, `positioning` those of `GPOS`, [`classes`] gives glyphs their
//! classes, `would` asks lookups for glyphs that stand alone, `apple` runs Apple's tables, and
//! [`engine`] puts them together. Any bytes are taken: [`laws`] has what holds of the engine
//! whatever the font is. [`worked`] has the definitions computed by hand.
#![tactic(auto)]
#![allow(non_camel_case_types)]

mod apple;
pub mod chosen;
pub mod classes;
pub mod engine;
pub mod face;
pub mod laws;
pub mod lookups;
pub mod opened;
mod opened_engine;
mod positioning;
mod stage;
pub mod worked;
mod would;

pub use engine::OpenTypeLayout;
pub use face::OpenTypeFace;
pub use opened::OpenedOpenTypeFace;
