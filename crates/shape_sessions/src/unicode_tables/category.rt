//! General categories (The Unicode Standard, section 4.5), from the Unicode Character Database.
ghost use Rattle.std.specs.Prelude.{◌≡◌};
ghost use Rattle.shape_sessions.specs.Category.{category_of, is_marked};

use shape_buffer::interfaces::hb_unicode_general_category_t;
use shape_unicode::category_from;
use unicode::properties::GeneralCategory;

/// The category of the database; an ASCII character that is a mark there would count as unassigned.
pub fn general_category(c: char) -> hb_unicode_general_category_t
    ensures { result ≡ category_of c }
{
    let category = category_from(GeneralCategory::for_char(c));
    if c.is_ascii() && category.is_mark() {
        hb_unicode_general_category_t::Unassigned
    } else {
        category
    }
}

/// Whether a character is a mark.
pub fn is_mark(c: char) -> bool
    ensures { result ≡ is_marked c }
{
    general_category(c).is_mark()
}
