//! The type that has the Unicode functions.
ghost use Rattle.std.specs.Prelude.{◌≡◌};
ghost use Rattle.shape_unicode.specs.Meaning.{unicode_database};

use crate::category::category_at;
use crate::ccc::modified_ccc_from;
use crate::hidden::{is_ignorable, is_selector};
use crate::mirror::mirrored_of;
use crate::script::script_from;
use crate::script_direction::direction_of;
use crate::space::space_of;
use crate::split::split;
use crate::vertical::vertical_of;
use shape_buffer::buffer::{Direction, Script};
use shape_buffer::interfaces::space_types::space_t;
use shape_buffer::interfaces::{hb_unicode_funcs_t, hb_unicode_general_category_t};

/// The Unicode functions over the whole database. It has no value: its functions are called as
/// `UnicodeDatabase::decompose(c)`, and it is given as a type.
pub struct UnicodeDatabase;

impl hb_unicode_funcs_t for UnicodeDatabase {
    ghost use Rattle.shape_unicode.specs.DatabaseLaws.{unicode_database-lawful};
    ghost use Rattle.shape_unicode.specs.TableFacts.{cccs_ok, mirrors_ok, verticals_ok};

    ghost unicode = { unicode_database };

    ghost lawful = { unicode_database-lawful cccs_ok mirrors_ok verticals_ok };

    /// General_Category.
    fn general_category(c: char) -> hb_unicode_general_category_t {
        category_at(c)
    }

    /// Canonical_Combining_Class, with some classes changed.
    fn modified_combining_class(c: char) -> u8 {
        modified_ccc_from(ucd_normal::canonical_combining_class(c), c)
    }

    /// Decomposition_Mapping without a tag, and Hangul syllables by arithmetic.
    fn decompose(c: char) -> Option<(char, char)> {
        split(c)
    }

    /// Primary composites, those of Hangul by arithmetic.
    fn compose(a: char, b: char) -> Option<char> {
        unicode_normalization::char::compose(a, b)
    }

    /// Bidi_Mirroring_Glyph.
    fn mirrored(c: char) -> Option<char> {
        mirrored_of(c)
    }

    /// Decomposition_Mapping with the tag `<vertical>`, inverted, from wide forms.
    fn vertical(c: char) -> Option<char> {
        vertical_of(c)
    }

    /// The widths of the space separators, except for U+1680.
    fn space_fallback(c: char) -> space_t {
        space_of(c)
    }

    /// Default_Ignorable_Code_Point, without those that are shown.
    fn is_default_ignorable(c: char) -> bool {
        is_ignorable(c)
    }

    /// Extended_Pictographic.
    fn is_emoji_extended_pictographic(c: char) -> bool {
        ucd_emoji::is_extended_pictographic(c)
    }

    /// Variation_Selector, without those of Mongolian.
    fn is_variation_selector(c: char) -> bool {
        is_selector(c)
    }

    /// Script, by its short name.
    fn script(c: char) -> Script {
        script_from(ucd_script::Script::for_char(c))
    }

    /// Right to left for the scripts written so, none for those written both ways, else left to
    /// right.
    fn script_direction(s: Script) -> Option<Direction> {
        direction_of(s)
    }
}
