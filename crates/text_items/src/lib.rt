//! Texts cut into runs that are shaped each by itself: of one script, one embedding level, one
//! language, one list of features and one presentation.
//!
//! [`clusters`] reads a text by its extended grapheme clusters, of which no run cuts one.
//! [`scripts`] is UAX 24: which script a cluster has by itself, and which one it takes from the
//! clusters around it, with `pairs` of brackets and quotation marks, and `extensions`, the scripts
//! that characters of several have. [`presentation`] is UTS 51: whether a cluster is shown as an
//! emoji. [`ranges`] are the numbers that a caller gives to parts of the text, and [`items`] joins
//! clusters that agree in all of these.
#![tactic(auto)]

pub mod clusters;
mod extension_table;
mod extensions;
pub mod items;
mod pairs;
pub mod presentation;
pub mod ranges;
pub mod scripts;
pub mod worked;

pub use clusters::Properties;
pub use items::{Item, ItemOptions, text_items};
pub use presentation::Presentation;
pub use ranges::NumberedRange;
pub use ucd_script::Script;
