//! Functions over the whole of Unicode, as a program may write them: what they prove needs no proof
//! file.
ghost use Rattle.std.specs.Prelude.{◌≡◌, if◌then◌else◌};
ghost use Rattle.shape_common.specs.Unicode.{is_mark};
ghost use Rattle.shape_unicode.specs.Meaning.{unicode_database};

use shape_buffer::interfaces::hb_unicode_funcs_t;
use shape_unicode::UnicodeDatabase;

/// The ccc of a mark, and 0 for any other character.
pub fn ccc_of_mark(c: char) -> u8
    ensures { result ≡ (if is_mark unicode_database c then unicode_database.ccc c else 0) }
{
    ccc_of_mark_by::<UnicodeDatabase>(c)
}

/// The same by any Unicode functions.
pub fn ccc_of_mark_by<U: hb_unicode_funcs_t>(c: char) -> u8
    ensures { result ≡ (if is_mark U.unicode c then U.unicode.ccc c else 0) }
{
    if U::general_category(c).is_mark() {
        U::modified_combining_class(c)
    } else {
        0
    }
}
