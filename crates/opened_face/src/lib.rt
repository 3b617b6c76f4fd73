//! A face that is opened once: [`OpenedFace`] returns what [`FontFace`](shape_font::FontFace)
//! returns for the same bytes, and most of it from tables that are made when it is opened.
//!
//! A look-up in `cmap` is a search of some hundred instructions; a look-up in a page of 256 glyphs
//! is a few. So the pages of the characters that `cmap` lists are filled by searches once, and the
//! advances of all glyphs are stored. What isn't stored is asked of the face below. `ranges` reads
//! which characters a subtable lists, `pages` chooses and fills pages, `advances` stores advances,
//! [`face`] puts them together with which glyphs have pairs in `kern`, [`engine`] has layout
//! engines over it, and [`kerning`] their ways to kern. [`worked`] has the definitions computed by
//! hand.
#![tactic(auto)]
#![allow(non_camel_case_types)]

mod advances;
pub mod engine;
pub mod face;
pub mod kerning;
mod pages;
mod ranges;
pub mod worked;

pub use engine::{OpenedKernTable, OverOpened};
pub use face::OpenedFace;
