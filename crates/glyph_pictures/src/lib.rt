//! Lines of glyphs, drawn: as one picture of SVG, or as a page of HTML that shows for each glyph
//! where it comes from.
//!
//! [`drawing`] writes outlines, [`drawn`] draws one line with its clusters, [`picture`] puts
//! lines below each other, and [`look`] says in which colours. [`page`] makes the page, of the
//! text in [`bands`], the places of glyphs ([`spots`]), their [`rows`] and the [`steps`] of a run;
//! [`html`] writes names and texts so that none ends the element that it stands in; a [`sheet`]
//! bounds what is written.
#![tactic(auto)]
#![allow(non_camel_case_types)]

mod bands;
mod drawing;
mod drawn;
pub mod html;
pub mod look;
pub mod page;
mod parts;
pub mod picture;
mod rows;
mod sheet;
mod spots;
mod steps;

pub use bands::Character;
pub use look::{Look, Margins, colour_from_string, margins_from_string};
pub use page::{MOST_PAGE, Page, ShapedLine};
pub use picture::Picture;
