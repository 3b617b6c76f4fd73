//! The ccc that marks are ordered by.
ghost use Rattle.std.specs.Prelude.{◌≡◌};
ghost use Rattle.shape_sessions.specs.Ccc.{ccc_in_table, ccc_of};

use crate::unicode_tables::category::is_mark;

/// A character and its ccc; every other character has ccc 0.
const CCC: [(char, u8); 8] = [
    ('\u{0301}', 230),
    ('\u{0302}', 230),
    ('\u{0308}', 230),
    ('\u{030A}', 230),
    ('\u{0323}', 220),
    ('\u{0344}', 230),
    ('\u{05BC}', 12),
    ('\u{05C1}', 10),
];

fn ccc_in_table(c: char) -> u8
    ensures { result ≡ ccc_in_table c }
{
    CCC.iter()
        .find(|entry| entry.0 == c)
        .map(|entry| entry.1)
        .unwrap_or(0)
}

/// The ccc of the table, for a mark; 0 for every other character.
pub fn modified_combining_class(c: char) -> u8
    ensures { result ≡ ccc_of c }
{
    if is_mark(c) { ccc_in_table(c) } else { 0 }
}
