//! Letters with a point as one character (the presentation forms that are left out of composition).
//!
//! The pairs of shin hold in both orders of points: shaping puts the dot of a shin before its
//! dagesh, whose ccc is higher.
ghost use Rattle.std.specs.Prelude.{◌≡◌};
ghost use Rattle.script_shapers.specs.HebrewForms.{form_of, form_unless};

/// A letter, a point, and the character that they make. A shin with both its dagesh and its dot is
/// one character whichever of the two comes first: shaping puts the dot first, whose ccc is lower.
pub const FORMS: [(char, char, char); 36] = [
    ('\u{05D9}', '\u{05B4}', '\u{FB1D}'),
    ('\u{05F2}', '\u{05B7}', '\u{FB1F}'),
    ('\u{05D0}', '\u{05B7}', '\u{FB2E}'),
    ('\u{05D0}', '\u{05B8}', '\u{FB2F}'),
    ('\u{05D5}', '\u{05B9}', '\u{FB4B}'),
    ('\u{05D0}', '\u{05BC}', '\u{FB30}'),
    ('\u{05D1}', '\u{05BC}', '\u{FB31}'),
    ('\u{05D2}', '\u{05BC}', '\u{FB32}'),
    ('\u{05D3}', '\u{05BC}', '\u{FB33}'),
    ('\u{05D4}', '\u{05BC}', '\u{FB34}'),
    ('\u{05D5}', '\u{05BC}', '\u{FB35}'),
    ('\u{05D6}', '\u{05BC}', '\u{FB36}'),
    ('\u{05D8}', '\u{05BC}', '\u{FB38}'),
    ('\u{05D9}', '\u{05BC}', '\u{FB39}'),
    ('\u{05DA}', '\u{05BC}', '\u{FB3A}'),
    ('\u{05DB}', '\u{05BC}', '\u{FB3B}'),
    ('\u{05DC}', '\u{05BC}', '\u{FB3C}'),
    ('\u{05DE}', '\u{05BC}', '\u{FB3E}'),
    ('\u{05E0}', '\u{05BC}', '\u{FB40}'),
    ('\u{05E1}', '\u{05BC}', '\u{FB41}'),
    ('\u{05E3}', '\u{05BC}', '\u{FB43}'),
    ('\u{05E4}', '\u{05BC}', '\u{FB44}'),
    ('\u{05E6}', '\u{05BC}', '\u{FB46}'),
    ('\u{05E7}', '\u{05BC}', '\u{FB47}'),
    ('\u{05E8}', '\u{05BC}', '\u{FB48}'),
    ('\u{05E9}', '\u{05BC}', '\u{FB49}'),
    ('\u{05EA}', '\u{05BC}', '\u{FB4A}'),
    ('\u{05D1}', '\u{05BF}', '\u{FB4C}'),
    ('\u{05DB}', '\u{05BF}', '\u{FB4D}'),
    ('\u{05E4}', '\u{05BF}', '\u{FB4E}'),
    ('\u{05E9}', '\u{05C1}', '\u{FB2A}'),
    ('\u{05E9}', '\u{05C2}', '\u{FB2B}'),
    ('\u{FB49}', '\u{05C1}', '\u{FB2C}'),
    ('\u{FB49}', '\u{05C2}', '\u{FB2D}'),
    ('\u{FB2A}', '\u{05BC}', '\u{FB2C}'),
    ('\u{FB2B}', '\u{05BC}', '\u{FB2D}'),
];

/// The character that a letter and a point make.
pub fn form(letter: char, point: char) -> Option<char>
    ensures { result ≡ form_of letter point }
{
    FORMS
        .iter()
        .find(|entry| entry.0 == letter && entry.1 == point)
        .map(|entry| entry.2)
}

/// None where GPOS attaches marks, which then places the point on its letter.
pub fn form_unless(attaches: bool, letter: char, point: char) -> Option<char>
    ensures { result ≡ form_unless attaches letter point }
{
    if attaches { None } else { form(letter, point) }
}
