//! Unicode functions that need no data.
ghost use Rattle.shape_common.specs.PlainUnicode.{plain_unicode, plain_unicode-lawful};

use crate::space_types::{NOT_SPACE, space_t};
use crate::{Direction, Script, hb_unicode_funcs_t, hb_unicode_general_category_t};

/// The Unicode functions by which every character is a letter of an unknown script: none is a mark,
/// ignorable or a selector, and none splits, composes or has another form. Start from it when
/// glyphs and lookups are tested, or if there is no data yet.
pub struct PlainUnicode;

impl hb_unicode_funcs_t for PlainUnicode {
    ghost unicode = { plain_unicode };

    ghost lawful = { plain_unicode-lawful };

    fn general_category(_c: char) -> hb_unicode_general_category_t {
        hb_unicode_general_category_t::OtherLetter
    }

    fn modified_combining_class(_c: char) -> u8 {
        0
    }

    fn decompose(_c: char) -> Option<(char, char)> {
        None
    }

    fn compose(_a: char, _b: char) -> Option<char> {
        None
    }

    fn mirrored(_c: char) -> Option<char> {
        None
    }

    fn vertical(_c: char) -> Option<char> {
        None
    }

    fn space_fallback(_c: char) -> space_t {
        NOT_SPACE
    }

    fn is_default_ignorable(_c: char) -> bool {
        false
    }

    fn is_emoji_extended_pictographic(_c: char) -> bool {
        false
    }

    fn is_variation_selector(_c: char) -> bool {
        false
    }

    fn script(_c: char) -> Script {
        Script::UNKNOWN
    }

    fn script_direction(_s: Script) -> Option<Direction> {
        None
    }
}
