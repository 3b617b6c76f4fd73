//! The languages that a font names by numbers, and whether one of them is that of a text.
ghost use Rattle.std.specs.Prelude.{◌≡◌, ◌<◌, ◌+◌, ◌^◌, List, ℕ};
ghost use Rattle.std.specs.Option.{option_map};
ghost use Rattle.apple_substitution.specs.Languages as language_rules;

use shape_font::bytes::{records, u8_at, u16_at, u32_at};
use shape_font::directory::slice;

/// The most letters that count of a name.
pub(crate) const MOST_LETTERS: usize = 63;

/// The languages of a font, and that of a text.
#[derive(Clone, Copy)]
pub struct Languages<'a> {
    /// The table `ltag`.
    pub ltag: &'a [u8],
    /// The language of the text by its name, an empty one if it has none.
    pub text: &'a [u8],
}

/// How many names the table has.
fn name_count(ltag: &[u8]) -> u32
    ensures { result ≡ language_rules.name_count ltag.now }
{
    if u32_at(ltag, 0) == 0 {
        return 0;
    }
    records(ltag, u32_at(ltag, 8), 12, 4)
}

/// The name that is said to stand at a place.
fn name_at(ltag: &[u8], at: usize) -> Option<&[u8]>
    requires { at < 2 ^ 36 }
    ensures { option_map (λ name. name.now) result ≡ language_rules.name_at ltag.now at }
{
    let start = u32::from(u16_at(ltag, at));
    let name = slice(ltag, start, u32::from(u16_at(ltag, at + 2)))?;
    if u8_at(name, 0) == 0 {
        None
    } else {
        Some(name)
    }
}

/// The name of a number.
fn name_of(ltag: &[u8], i: u32) -> Option<&[u8]>
    ensures { option_map (λ name. name.now) result ≡ language_rules.name_of ltag.now i }
{
    if i < name_count(ltag) {
        name_at(ltag, 12 + 4 * i as usize)
    } else {
        None
    }
}

/// How a byte of a name is spelled, 0 if it ends the name.
fn spelled(byte: u8) -> u8
    ensures { result ≡ language_rules.spelled byte }
{
    match byte {
        b'a'..=b'z' | b'0'..=b'9' | b'-' => byte,
        b'A'..=b'Z' => byte + 32,
        b'_' => b'-',
        _ => 0,
    }
}

/// The letter at a place of a name, 0 past its end.
fn letter_at(name: &[u8], at: usize) -> u8
    requires { at < 2 ^ 36 }
    ensures { result ≡ language_rules.letter_at name.now at }
{
    spelled(u8_at(name, at))
}

/// Whether a subtag of a name ends before a place.
fn ends_at(name: &[u8], at: usize) -> bool
    requires { at < 2 ^ 36 }
    ensures { result ≡ language_rules.ends_at name.now at }
{
    let letter = letter_at(name, at);
    letter == 0 || letter == b'-'
}

/// Whether a text is in a language, or in one that its name names more closely.
fn is_in(language: &[u8], text: &[u8]) -> bool
    ensures { result ≡ language_rules.is_in language.now text.now }
{
    for at in 0..MOST_LETTERS {
        let letter = letter_at(language, at);
        if letter == 0 {
            return ends_at(text, at);
        }
        if letter != letter_at(text, at) {
            return false;
        }
    }
    ends_at(text, MOST_LETTERS)
}

/// The same, of a language that may be none, and a text that may have none.
fn matches(language: Option<&[u8]>, text: &[u8]) -> bool
    ensures { result ≡ language_rules.matches
        (option_map (λ name. name.now) language.entry) text.now }
{
    match language {
        None => text.is_empty(),
        Some(language) => !text.is_empty() && is_in(language, text),
    }
}

/// Whether the text is in the language of a setting.
pub(crate) fn is_spoken(languages: &Languages<'_>, setting: u32) -> bool
    ensures { result ≡ language_rules.is_spoken (language_rules.spoken_of languages.now) setting }
{
    setting != 0 && matches(name_of(languages.ltag, setting - 1), languages.text)
}
