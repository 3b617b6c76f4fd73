//! Features, directions, languages and scripts from text, as HarfBuzz spells them, and glyphs as
//! text, as its program `hb-shape` writes them.
//!
//! Any text is taken: each value is a function of the text's bytes, and what is no feature is none.
//! [`scan`] has what stands at the front of a text, [`feature`] the grammar of a feature,
//! [`variation`] that of a value for an axis, [`names`] what one word names, [`glyph_list`] the
//! text of glyphs, of which each is written by [`glyph_text`] or by [`glyph_json`], with names by
//! [`font_names`] or, where many are written, by [`opened_names`]. [`worked`] has the definitions
//! computed on texts that were read by hand.
//!
//! The calls are functions and not `FromStr`, since neither the trait nor the types are this
//! crate's.
#![tactic(auto)]
#![allow(non_camel_case_types)]

pub mod content;
pub mod feature;
pub mod font_names;
pub mod glyph_json;
pub mod glyph_list;
pub mod glyph_text;
pub mod names;
pub mod opened_names;
pub mod scan;
pub mod variation;
pub mod worked;

pub use content::{Content, ListForm, NoNames, Pen, SerializeFlags, Spot, glyph_names};
pub use feature::feature_from_string;
pub use glyph_list::{
    append_part, serialize, serialize_json, serialize_placed, serialize_placed_json,
};
pub use names::{direction_from_string, language_from_string, script_from_string, tag_from_string};
pub use opened_names::OpenedNames;
pub use variation::variation_from_string;
