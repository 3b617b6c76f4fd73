//! Canonical compositions in one step (The Unicode Standard, D114, primary composites).
ghost use Rattle.std.specs.Prelude.{◌≡◌};
ghost use Rattle.shape_sessions.specs.Compose.{compose_in_table, compose_of};

use crate::unicode_tables::split::decompose;

/// Two parts and the character that they make.
const COMPOSITES: [(char, char, char); 8] = [
    ('\u{0041}', '\u{0302}', '\u{00C2}'),
    ('\u{0041}', '\u{030A}', '\u{00C5}'),
    ('\u{0061}', '\u{0301}', '\u{00E1}'),
    ('\u{0061}', '\u{0302}', '\u{00E2}'),
    ('\u{0065}', '\u{0301}', '\u{00E9}'),
    ('\u{0061}', '\u{0323}', '\u{1EA1}'),
    ('\u{00C2}', '\u{0301}', '\u{1EA4}'),
    ('\u{0065}', '\u{0323}', '\u{1EB9}'),
];

fn compose_in_table(a: char, b: char) -> Option<char>
    ensures { result ≡ compose_in_table a b }
{
    COMPOSITES
        .iter()
        .find(|entry| entry.0 == a && entry.1 == b)
        .map(|entry| entry.2)
}

/// The character of the table, if it splits into the two again.
pub fn compose(a: char, b: char) -> Option<char>
    ensures { result ≡ compose_of a b }
{
    let c = compose_in_table(a, b)?;
    if decompose(c) == Some((a, b)) {
        Some(c)
    } else {
        None
    }
}
