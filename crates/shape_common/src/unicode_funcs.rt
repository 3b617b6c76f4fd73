//! What shaping asks of Unicode.
//!
//! The laws range over all numbers. A character in a clause is a number, and the functions of a
//! meaning are ghosts that their implementer chooses, past the characters too. So no law has the
//! premise "is a character": an implementation loses nothing, and more is promised.
ghost use Rattle.std.specs.Prelude.{◌≡◌};
ghost use Rattle.shape_common.specs.Unicode.{UnicodeMeaning, LawfulUnicode};

use crate::space_types::space_t;
use crate::{Direction, Script, hb_unicode_general_category_t};

/// The functions on characters that shaping is generic over. They have no receiver and are called
/// as `U::decompose(c)`.
pub trait hb_unicode_funcs_t {
    /// What the functions return.
    ghost unicode: { UnicodeMeaning };

    /// The general category (The Unicode Standard, section 4.5).
    fn general_category(c: char) -> hb_unicode_general_category_t
        ensures { result ≡ unicode.category c };

    /// The combining class that shaping orders marks by, 0 for a character that is not ordered.
    fn modified_combining_class(c: char) -> u8
        ensures { result ≡ unicode.ccc c };

    /// The two parts that a character splits into in one step; the second one is U+0000 if the
    /// character has one part alone (UAX 44, Decomposition_Mapping without a tag).
    fn decompose(c: char) -> Option<(char, char)>
        ensures { result ≡ unicode.split c };

    /// The character that two characters make in one step (The Unicode Standard, D114, primary
    /// composites), if there is one.
    fn compose(a: char, b: char) -> Option<char>
        ensures { result ≡ unicode.compose a b };

    /// The character whose glyph is the mirror image of this one's (UAX 9, Bidi_Mirroring_Glyph),
    /// if there is one.
    fn mirrored(c: char) -> Option<char>
        ensures { result ≡ unicode.mirrored c };

    /// The form that a character has in vertical text, if it is a character of its own (UAX 44,
    /// Decomposition_Mapping with the tag `<vertical>`).
    fn vertical(c: char) -> Option<char>
        ensures { result ≡ unicode.vertical c };

    /// How wide a space is that the face has no glyph for. The types of
    /// [`crate::space_types`] are meant, `NOT_SPACE` for what is no space; no law fixes the set.
    fn space_fallback(c: char) -> space_t
        ensures { result ≡ unicode.space_fallback c };

    /// Whether a character is unseen unless the buffer's flags preserve it (UAX 44,
    /// Default_Ignorable_Code_Point).
    fn is_default_ignorable(c: char) -> bool
        ensures { result ≡ unicode.ignorable c };

    /// Whether a character continues a sequence of emoji after a ZWJ (UTS 51,
    /// Extended_Pictographic).
    fn is_emoji_extended_pictographic(c: char) -> bool
        ensures { result ≡ unicode.pictographic c };

    /// Whether a character picks a variant of the one before it (UAX 44, Variation_Selector).
    fn is_variation_selector(c: char) -> bool
        ensures { result ≡ unicode.selector c };

    /// The script of a character (UAX 24).
    fn script(c: char) -> Script
        ensures { result ≡ unicode.script c };

    /// The direction that a script is written in; `Some(Direction::Invalid)` counts as none known.
    fn script_direction(s: Script) -> Option<Direction>
        ensures { result ≡ unicode.script_direction s };

    /// What every implementation proves.
    ghost lawful: { LawfulUnicode unicode };
}
