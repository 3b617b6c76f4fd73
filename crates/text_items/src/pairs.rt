//! Brackets and quotation marks that pair, and those that are open.
ghost use Rattle.std.specs.Prelude.{◌≡◌, ◌≤◌, length, reverse, OnOk};
ghost use Rattle.text_items.specs.Pairs;

use std::alloc::{AllocError, Global};
use ucd_script::Script;

/// How many brackets may be open: as many as UAX 9 allows (BD16).
pub(crate) const MAX_OPEN: usize = 63;

/// Pairs that aren't brackets to the bidirectional algorithm: quotation marks, and the signs < and
/// >.
pub const MARK_PAIRS: [(char, char); 5] = [
    ('<', '>'),
    ('\u{AB}', '\u{BB}'),
    ('\u{2018}', '\u{2019}'),
    ('\u{201C}', '\u{201D}'),
    ('\u{2039}', '\u{203A}'),
];

/// What a character is to the pairing.
#[derive(Clone, Copy, Debug)]
pub(crate) enum Side {
    /// It opens a pair, which this character closes.
    Opens(char),
    /// It closes a pair.
    Closes(char),
    /// Neither.
    Neither,
}

/// A bracket that is open: the one that closes it, and its script.
#[derive(Clone, Copy, Debug)]
pub(crate) struct Open {
    pub closing: char,
    pub script: Script,
}

/// What closes a quotation mark or a sign that opens.
fn closing_mark(c: char) -> Option<char>
    ensures { result ≡ Pairs.closing_mark c }
{
    MARK_PAIRS
        .iter()
        .find(|pair| pair.0 == c)
        .map(|pair| pair.1)
}

/// Whether a character is a quotation mark or a sign that closes.
fn closes_mark(c: char) -> bool
    ensures { result ≡ Pairs.closes_mark c }
{
    MARK_PAIRS.iter().any(|pair| pair.1 == c)
}

/// The side of a character that isn't a bracket to the bidirectional algorithm.
fn mark_side(c: char) -> Side
    ensures { result ≡ Pairs.mark_side c }
{
    if let Some(closing) = closing_mark(c) {
        return Side::Opens(closing);
    }
    if closes_mark(c) {
        return Side::Closes(c);
    }
    Side::Neither
}

/// Whether a character of ASCII is one of a pair.
fn is_ascii_pair(c: char) -> bool
    ensures { result ≡ Pairs.is_ascii_pair c }
{
    c == '(' || c == ')' || c == '<' || c == '>' || c == '[' || c == ']' || c == '{' || c == '}'
}

/// What a character is to the pairing. No table is searched for most of ASCII.
pub(crate) fn side_of(c: char) -> Side
    ensures { result ≡ Pairs.side_of c }
{
    if c < '\u{80}' && !is_ascii_pair(c) {
        return Side::Neither;
    }
    side_by_tables(c)
}

/// What a character is to the pairing, by the tables.
fn side_by_tables(c: char) -> Side
    ensures { result ≡ Pairs.side_of c }
{
    if let Some(closing) = bidi::opening_bracket(c) {
        return Side::Opens(closing);
    }
    if let Some(closing) = bidi::closing_bracket(c) {
        return Side::Closes(closing);
    }
    mark_side(c)
}
