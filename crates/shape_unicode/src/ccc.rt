//! The ccc that marks are ordered by: combining classes (The Unicode Standard, section 4.3), some
//! of them changed.
//!
//! Combining classes are fixed for ever, and some of them order the marks of a script in another
//! way than its fonts do. So shaping takes others in their place, as HarfBuzz does
//! (`hb-unicode.hh`, "modified combining class"). No two ccc become one, and none becomes 0, so
//! that marks of two ccc still have two: the order of marks changes, and what is equivalent doesn't
//! ([`crate::laws::equivalence_is_canonical`]). Three marks have a ccc of their own.
ghost use Rattle.std.specs.Prelude.{◌≡◌};
ghost use Rattle.shape_unicode.specs.Ccc.{modified_ccc, ccc_by_character, modified_ccc_from};

use shape_buffer::interfaces::modified_combining_class as mcc;

/// A combining class, and the ccc that shaping takes in its place; the other ccc stay.
///
/// Hebrew: points in the order of the SBL Hebrew font's manual: the dots of shin and sin, dagesh,
/// rafe, holam, then the other vowels. Arabic: shadda before the vowels, as its fonts expect.
/// Telugu: the length marks before the halant, not after it. Thai: the vowel signs below before the
/// phinthu. Tibetan: the vowel sign u before i and the others of class 130. Classes 3, 4 and 5 are
/// otherwise unused.
pub const MODIFIED_CCC: [(u8, u8); 28] = [
    // Hebrew
    (10, mcc::CCC10),
    (11, mcc::CCC11),
    (12, mcc::CCC12),
    (13, mcc::CCC13),
    (14, mcc::CCC14),
    (15, mcc::CCC15),
    (16, mcc::CCC16),
    (17, mcc::CCC17),
    (18, mcc::CCC18),
    (19, mcc::CCC19),
    (20, mcc::CCC20),
    (21, mcc::CCC21),
    (22, mcc::CCC22),
    (23, mcc::CCC23),
    (24, mcc::CCC24),
    (25, mcc::CCC25),
    // Arabic
    (27, mcc::CCC27),
    (28, mcc::CCC28),
    (29, mcc::CCC29),
    (30, mcc::CCC30),
    (31, mcc::CCC31),
    (32, mcc::CCC32),
    (33, mcc::CCC33),
    // Telugu
    (84, mcc::CCC84),
    (91, mcc::CCC91),
    // Thai
    (103, mcc::CCC103),
    // Tibetan
    (130, mcc::CCC130),
    (132, mcc::CCC132),
];

/// A mark, and the ccc that shaping takes for it alone, whatever its combining class.
///
/// U+0F39 goes before U+0F74, U+0FC6 after all vowel signs, and U+1A60 after all tone marks.
pub const CCC_BY_CHARACTER: [(char, u8); 3] = [
    ('\u{F39}', 127),
    ('\u{FC6}', 254),
    ('\u{1A60}', 254),
];

/// The greatest combining class of these.
const LAST_MODIFIED: u8 = 132;

/// The ccc that shaping takes in place of a combining class.
fn modified_ccc(ccc: u8) -> u8
    ensures { result ≡ modified_ccc ccc }
{
    if ccc > LAST_MODIFIED {
        return ccc;
    }
    MODIFIED_CCC
        .iter()
        .find(|entry| entry.0 == ccc)
        .map(|entry| entry.1)
        .unwrap_or(ccc)
}

/// The ccc of a mark that has one of its own.
fn ccc_by_character(c: char) -> Option<u8>
    ensures { result ≡ ccc_by_character c }
{
    if c < '\u{F39}' {
        return None;
    }
    CCC_BY_CHARACTER
        .iter()
        .find(|entry| entry.0 == c)
        .map(|entry| entry.1)
}

/// The ccc that shaping orders `c` by, whose combining class is `ccc`. Most characters have the
/// ccc 0, and no table is asked for these.
pub(crate) fn modified_ccc_from(ccc: u8, c: char) -> u8
    ensures { result ≡ modified_ccc_from ccc c }
{
    if ccc == 0 {
        0
    } else {
        ccc_by_character(c).unwrap_or(modified_ccc(ccc))
    }
}
