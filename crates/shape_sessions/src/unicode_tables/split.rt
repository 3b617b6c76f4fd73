//! Canonical decompositions in one step (UAX 44, Decomposition_Mapping without a tag).
ghost use Rattle.std.specs.Prelude.{◌≡◌};
ghost use Rattle.shape_sessions.specs.Split.{split_in_table, split_of};

use crate::unicode_tables::category::is_mark;

/// A character and its two parts; the second one is U+0000 if there is one part alone.
const SPLITS: [(char, char, char); 14] = [
    ('\u{00C2}', '\u{0041}', '\u{0302}'),
    ('\u{00C5}', '\u{0041}', '\u{030A}'),
    ('\u{00E1}', '\u{0061}', '\u{0301}'),
    ('\u{00E2}', '\u{0061}', '\u{0302}'),
    ('\u{00E9}', '\u{0065}', '\u{0301}'),
    ('\u{0344}', '\u{0308}', '\u{0301}'),
    ('\u{1EA1}', '\u{0061}', '\u{0323}'),
    ('\u{1EA4}', '\u{00C2}', '\u{0301}'),
    ('\u{1EB9}', '\u{0065}', '\u{0323}'),
    ('\u{2126}', '\u{03A9}', '\u{0000}'),
    ('\u{212B}', '\u{00C5}', '\u{0000}'),
    ('\u{FB2A}', '\u{05E9}', '\u{05C1}'),
    ('\u{FB2C}', '\u{FB49}', '\u{05C1}'),
    ('\u{FB49}', '\u{05E9}', '\u{05BC}'),
];

fn split_in_table(c: char) -> Option<(char, char)>
    ensures { result ≡ split_in_table c }
{
    SPLITS
        .iter()
        .find(|entry| entry.0 == c)
        .map(|entry| (entry.1, entry.2))
}

/// The two parts of the table; a mark splits only into marks.
pub fn decompose(c: char) -> Option<(char, char)>
    ensures { result ≡ split_of c }
{
    let (a, b) = split_in_table(c)?;
    let into_marks = is_mark(a) && (b == '\0' || is_mark(b));
    if into_marks || !is_mark(c) {
        Some((a, b))
    } else {
        None
    }
}
