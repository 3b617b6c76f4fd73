//! The directions that scripts are written in.
ghost use Rattle.std.specs.Prelude.{◌≡◌, ◌<◌};
ghost use Rattle.shape_unicode.specs.ScriptDirection.{is_right_to_left, is_either_way};
ghost use Rattle.shape_unicode.specs.ScriptDirection.{direction_of, tag_place, may_be_listed};

use shape_buffer::buffer::{Direction, Script, hb_tag_t};

/// The scripts that are written from right to left: those with letters of Bidi_Class R or AL
/// (DerivedBidiClass.txt), except for Old Hungarian (see [`EITHER_WAY`]), as in HarfBuzz,
/// `hb_script_get_horizontal_direction`.
pub const RIGHT_TO_LEFT: [[u8; 4]; 36] = [
    *b"Arab", *b"Hebr", *b"Syrc", *b"Thaa", *b"Cprt", *b"Khar", *b"Phnx", *b"Nkoo", *b"Lydi",
    *b"Avst", *b"Armi", *b"Phli", *b"Prti", *b"Sarb", *b"Orkh", *b"Samr", *b"Mand", *b"Merc",
    *b"Mero", *b"Mani", *b"Mend", *b"Nbat", *b"Narb", *b"Palm", *b"Phlp", *b"Hatr", *b"Adlm",
    *b"Rohg", *b"Sogo", *b"Sogd", *b"Elym", *b"Chrs", *b"Yezi", *b"Ougr", *b"Gara", *b"Sidt",
];

/// The scripts that have been written both ways, so that a text needs its direction said: Old
/// Hungarian, Old Italic, Runic and Tifinagh (HarfBuzz, the same function).
pub const EITHER_WAY: [[u8; 4]; 4] = [*b"Hung", *b"Ital", *b"Runr", *b"Tfng"];

/// A digest of the tags of both lists: it has the bit of each, as the proofs compute. A script that
/// is added to a list needs its bit here.
pub const LISTED: u64 = 0x10A6_2DEB_0988_5A51;

/// The place of a tag's bit in the digest. A product spreads them: with this factor few other
/// scripts share a bit with one of the lists, and Latin, Cyrillic, Greek, Han or Devanagari don't.
#[inline(always)]
fn tag_place(tag: hb_tag_t) -> u32
    ensures value { result ≡ tag_place tag }
    ensures inside { result < 64 }
{
    tag.0.wrapping_mul(1_729_471) >> 26
}

/// Whether one of both lists may have this tag. If not, none has it, and none need be walked.
#[tactic(auto, using(crate::proofs::DirectionLemmas::tested))]
#[inline(always)]
fn may_be_listed(tag: hb_tag_t) -> bool
    ensures { result ≡ may_be_listed tag }
{
    LISTED >> tag_place(tag) & 1 == 1
}

fn is_right_to_left(tag: hb_tag_t) -> bool
    ensures { result ≡ is_right_to_left tag }
{
    RIGHT_TO_LEFT
        .iter()
        .any(|letters| hb_tag_t::from_bytes(letters) == tag)
}

fn is_either_way(tag: hb_tag_t) -> bool
    ensures { result ≡ is_either_way tag }
{
    EITHER_WAY
        .iter()
        .any(|letters| hb_tag_t::from_bytes(letters) == tag)
}

/// The direction of a script, if it has one; left to right for one that is not known.
#[tactic(auto, using(crate::proofs::DirectionLemmas::unlisted))]
pub(crate) fn direction_of(script: Script) -> Option<Direction>
    ensures { result ≡ direction_of script }
{
    if !may_be_listed(script.0) {
        Some(Direction::LeftToRight)
    } else if is_right_to_left(script.0) {
        Some(Direction::RightToLeft)
    } else if is_either_way(script.0) {
        None
    } else {
        Some(Direction::LeftToRight)
    }
}
