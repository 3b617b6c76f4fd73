//! The program's Unicode functions: categories and scripts of the Unicode Character Database,
//! widths of spaces as `shape_unicode` has them, and small tables for everything else.
//!
//! A file for each property. No proof of this program knows the value of a category, so the laws
//! may not rest on one: if a law speaks of marks, the function asks for the category as it runs. A
//! ccc counts only for a mark, a mark splits only into marks, characters compose only into one that
//! splits into them, mirror images and vertical forms are of characters that are neither marks nor
//! spaces, and an ASCII character would be no mark whatever the database said. On these tables none
//! of the tests changes a result.

mod category;
mod ccc;
mod compose;
mod ignorable;
mod mirror;
mod pictograph;
mod plain;
mod script;
mod selector;
mod split;
mod vertical;

use shape_buffer::buffer::{Direction, Script};
use shape_buffer::interfaces::space_types::space_t;
use shape_buffer::interfaces::{hb_unicode_funcs_t, hb_unicode_general_category_t};
use shape_unicode::space_of;

/// The program's Unicode functions.
pub struct UnicodeTables;

impl hb_unicode_funcs_t for UnicodeTables {
    ghost use Rattle.shape_sessions.specs.TableLaws.{unicode_tables-lawful};
    ghost use Rattle.shape_sessions.specs.Meaning.{unicode_tables};

    ghost unicode = { unicode_tables };

    ghost lawful = { unicode_tables-lawful };

    fn general_category(c: char) -> hb_unicode_general_category_t {
        category::general_category(c)
    }

    fn modified_combining_class(c: char) -> u8 {
        ccc::modified_combining_class(c)
    }

    fn decompose(c: char) -> Option<(char, char)> {
        split::decompose(c)
    }

    fn compose(a: char, b: char) -> Option<char> {
        compose::compose(a, b)
    }

    fn mirrored(c: char) -> Option<char> {
        mirror::mirrored(c)
    }

    fn vertical(c: char) -> Option<char> {
        vertical::vertical(c)
    }

    fn space_fallback(c: char) -> space_t {
        space_of(c)
    }

    fn is_default_ignorable(c: char) -> bool {
        ignorable::is_default_ignorable(c)
    }

    fn is_emoji_extended_pictographic(c: char) -> bool {
        pictograph::is_emoji_extended_pictographic(c)
    }

    fn is_variation_selector(c: char) -> bool {
        selector::is_variation_selector(c)
    }

    fn script(c: char) -> Script {
        script::script(c)
    }

    fn script_direction(s: Script) -> Option<Direction> {
        script::script_direction(s)
    }
}
