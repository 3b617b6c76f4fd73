//! Mirror images, for text that runs from right to left (UAX 9, Bidi_Mirroring_Glyph).
ghost use Rattle.std.specs.Prelude.{◌≡◌};
ghost use Rattle.shape_sessions.specs.Mirror.{mirror_in_table, mirror_of};

use crate::unicode_tables::plain::plain_form;

/// A character and its mirror image; no other character has one.
const MIRRORS: [(char, char); 8] = [
    ('(', ')'),
    (')', '('),
    ('<', '>'),
    ('>', '<'),
    ('[', ']'),
    (']', '['),
    ('{', '}'),
    ('}', '{'),
];

fn mirror_in_table(c: char) -> Option<char>
    ensures { result ≡ mirror_in_table c }
{
    MIRRORS
        .iter()
        .find(|entry| entry.0 == c)
        .map(|entry| entry.1)
}

/// The mirror image of the table, if it and the character are plain.
pub fn mirrored(c: char) -> Option<char>
    ensures { result ≡ mirror_of c }
{
    plain_form(c, mirror_in_table(c))
}
