//! Forms of their own in vertical text (UAX 44, Decomposition_Mapping with the tag `<vertical>`).
ghost use Rattle.std.specs.Prelude.{◌≡◌};
ghost use Rattle.shape_sessions.specs.Vertical.{vertical_in_table, vertical_of};

use crate::unicode_tables::plain::plain_form;

/// A character and its vertical form; no other character has one.
const VERTICALS: [(char, char); 1] = [('\u{2014}', '\u{FE31}')];

fn vertical_in_table(c: char) -> Option<char>
    ensures { result ≡ vertical_in_table c }
{
    VERTICALS
        .iter()
        .find(|entry| entry.0 == c)
        .map(|entry| entry.1)
}

/// The vertical form of the table, if it and the character are plain.
pub fn vertical(c: char) -> Option<char>
    ensures { result ≡ vertical_of c }
{
    plain_form(c, vertical_in_table(c))
}
