//! Mirror images, for text that runs from right to left (UAX 9, Bidi_Mirroring_Glyph).
//!
//! A pair stands once in the table and is searched from both sides, and only for characters that
//! are Bidi_Mirrored. The pairs are those of version 15.
ghost use Rattle.std.specs.Prelude.{◌≡◌, nat_lt};
ghost use Rattle.shape_unicode.specs.Mirror.{other_one, other_of_pair, is_between_brackets, mirrored_of};
ghost use Rattle.shape_unicode.specs.Mirror.{is_before_angles, is_past_pairs};

use crate::mirror_pairs::MIRROR_PAIRS;

/// The other one of a pair that has `c`.
fn other_one(c: char, pair: (char, char)) -> char
    ensures { result ≡ other_one c pair }
{
    if pair.0 == c { pair.1 } else { pair.0 }
}

/// The other one of the pair that `c` belongs to.
fn other_of_pair(c: char) -> Option<char>
    ensures { result ≡ other_of_pair c }
{
    MIRROR_PAIRS
        .iter()
        .find(|pair| pair.0 == c || pair.1 == c)
        .map(|pair| other_one(c, *pair))
}

/// Whether `c` stands between the brackets of Latin and those of Tibetan: among these, which most
/// letters that run from right to left are, nothing is mirrored.
fn is_between_brackets(c: char) -> bool
    ensures { result ≡ is_between_brackets c }
{
    '\u{BB}' < c && c < '\u{F3A}'
}

/// Whether `c` stands in General Punctuation before its angle quotes, where nothing is mirrored
/// either.
fn is_before_angles(c: char) -> bool
    ensures { result ≡ is_before_angles c }
{
    '\u{1FFF}' < c && c < '\u{2039}'
}

/// Whether `c` stands past the last pair, as the letters of Adlam, Sogdian and other scripts beyond
/// U+FFFF do.
fn is_past_pairs(c: char) -> bool
    ensures { result ≡ is_past_pairs c }
{
    '\u{FF63}' < c
}

/// Whether `c` stands before the first bracket: nothing there is mirrored: above all the space,
/// which is in most texts.
fn is_before_brackets(c: char) -> bool
    ensures { result ≡ nat_lt c 0x28 }
{
    c < '\u{28}'
}

/// The mirror image of `c`, if one is encoded. Few characters have the property Bidi_Mirrored, and
/// the pairs are walked through for these alone.
pub(crate) fn mirrored_of(c: char) -> Option<char>
    ensures { result ≡ mirrored_of c }
{
    if is_between_brackets(c) {
        return None;
    }
    if is_before_angles(c) {
        return None;
    }
    if is_before_brackets(c) {
        return None;
    }
    if is_past_pairs(c) {
        return None;
    }
    if ucd_bidi::is_bidi_mirrored(c) {
        other_of_pair(c)
    } else {
        None
    }
}
