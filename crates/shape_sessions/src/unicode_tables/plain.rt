//! Which characters may take another's place as a run mirrors a text or sets it upright: both must
//! be plain.
ghost use Rattle.std.specs.Prelude.{◌≡◌};
ghost use Rattle.shape_sessions.specs.Plain.{is_plain, plain_form};

use crate::unicode_tables::category::general_category;
use shape_buffer::interfaces::hb_unicode_general_category_t;

/// Whether a character is neither a mark nor a space separator.
fn is_plain(c: char) -> bool
    ensures { result ≡ is_plain c }
{
    let category = general_category(c);
    !category.is_mark() && !matches!(category, hb_unicode_general_category_t::SpaceSeparator)
}

/// The form that a table has for a character, if both are plain.
pub fn plain_form(c: char, form: Option<char>) -> Option<char>
    ensures { result ≡ plain_form c form }
{
    let form = form?;
    if is_plain(c) && is_plain(form) {
        Some(form)
    } else {
        None
    }
}
