//! One step of canonical decomposition (UAX 44, Decomposition_Mapping without a tag).
//!
//! The kit's compiled tables have full decompositions and primary composites, and no single steps.
//! The last step of a character is found from these: its parts are all of its full decomposition
//! except the last character, composed again, and that character. If the two compose to another
//! character, this one is a singleton of it. Few characters begin with a pair that is excluded from
//! composition; a table has their heads. That the mapping of the database comes out, of every
//! character, is computed over its rows (`proofs/LastStepLemmas.antt`).
ghost use Rattle.std.specs.Prelude.{◌≡◌};
ghost use Rattle.ucd_normal.specs.Composition.{composite};
ghost use Rattle.shape_unicode.specs.Split.{split_of, is_whole_early};
ghost use Rattle.shape_unicode.specs.LastStep.{last_step, excluded_head, head_of, split_by};

use crate::hangul::{is_syllable, split_syllable};
use ucd_normal::{canonical_decomposition, composite};

/// Two characters that don't compose, and the one that splits into them, if this one is a first
/// part itself (the pairs of DerivedNormalizationProps.txt, Full_Composition_Exclusion, that
/// UnicodeData.txt names in a mapping).
pub const EXCLUDED_HEADS: [(char, char, char); 4] = [
    ('\u{5E9}', '\u{5BC}', '\u{FB49}'),
    ('\u{1D158}', '\u{1D165}', '\u{1D15F}'),
    ('\u{1D1B9}', '\u{1D165}', '\u{1D1BB}'),
    ('\u{1D1BA}', '\u{1D165}', '\u{1D1BC}'),
];

/// The last step of the decomposition of `c`, if that step leads to `first` and `second`.
fn last_step(c: char, first: char, second: char) -> (char, char)
    ensures { result ≡ last_step composite c first second }
{
    match composite(first, second) {
        Some(d) if d != c => (d, '\u{0}'),
        _ => (first, second),
    }
}

/// The character that splits into two that don't compose.
fn excluded_head(a: char, b: char) -> Option<char>
    ensures { result ≡ excluded_head a b }
{
    EXCLUDED_HEADS
        .iter()
        .find(|entry| entry.0 == a && entry.1 == b)
        .map(|entry| entry.2)
}

/// The character that two characters at the head of a full decomposition come from.
fn head_of(a: char, b: char) -> Option<char>
    ensures { result ≡ head_of composite a b }
{
    match composite(a, b) {
        Some(c) => Some(c),
        None => excluded_head(a, b),
    }
}

/// The last step of the decomposition of `c`, whose full decomposition is `full`, empty if it is
/// `c`.
fn split_by(c: char, full: &[char]) -> Option<(char, char)>
    ensures { result ≡ split_by composite c full.now }
{
    match full {
        [] => None,
        [a] => Some((*a, '\u{0}')),
        [a, b] => Some(last_step(c, *a, *b)),
        [a, b, d] => head_of(*a, *b).map(|p| last_step(c, p, *d)),
        [a, b, d, e] => {
            let p = head_of(*a, *b)?;
            let q = head_of(p, *d)?;
            Some(last_step(c, q, *e))
        }
        _ => None,
    }
}

/// Whether `c` stands where no character splits: up to the signs of Latin-1, among the first marks,
/// in Hebrew and the first letters of Arabic, or in General Punctuation. So most marks and joiners
/// are decided without the table.
fn is_whole_early(c: char) -> bool
    ensures { result ≡ is_whole_early c }
{
    c < '\u{C0}'
        || '\u{2FF}' < c && c < '\u{340}'
        || '\u{4F9}' < c && c < '\u{622}'
        || '\u{2001}' < c && c < '\u{2126}'
}

/// The parts that `c` splits into in one step; the second one is U+0000 if there is one part alone.
pub(crate) fn split(c: char) -> Option<(char, char)>
    ensures { result ≡ split_of c }
{
    if is_whole_early(c) {
        return None;
    }
    if is_syllable(c) {
        Some(split_syllable(c))
    } else {
        split_by(c, canonical_decomposition(c))
    }
}
