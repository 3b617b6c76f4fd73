//! What a text goes through before glyphs are looked up: its graphemes, its native order, the
//! forms of its characters for the direction that it runs in, and, once it is normalised, its
//! masks.
//!
//! Fonts make their lookups for text in the order in which its script is written, and marks that
//! stand after their base. So a run first finds the graphemes, the pieces that no reversal may
//! divide; then it reverses a text that runs against its script's direction, grapheme by grapheme.
//! Each step is a function of its own, and its contract says which function on buffers it is;
//! [`prepare`] makes those before normalising one after another, [`masks`] those after it.
#![tactic(auto)]
#![allow(non_camel_case_types)]

pub mod clusters;
pub mod dotted_circle;
pub mod fractions;
mod grapheme_walk;
pub mod graphemes;
pub mod hook_calls;
pub mod laws;
pub mod masks;
pub mod native_direction;
pub mod prepare;
pub mod ranges;
pub mod rotation;
pub mod worked;

pub use clusters::form_clusters;
pub use dotted_circle::insert_dotted_circle;
pub use fractions::setup_masks_fraction;
pub use graphemes::set_unicode_props;
pub use hook_calls::{preprocess_text, setup_masks_shaper};
pub use masks::{initialize_masks, setup_masks};
pub use native_direction::ensure_native_direction;
pub use ranges::setup_masks_user;
pub use rotation::rotate_chars;
