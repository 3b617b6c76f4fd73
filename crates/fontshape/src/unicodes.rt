//! Texts by the numbers of their characters, as `U+0041,1F600`.
use std::alloc::{AllocError, Global};

/// Whether a character may stand between numbers (HarfBuzz, `hb-shape --unicodes`).
fn is_delimiter(c: char) -> bool {
    matches!(
        c,
        '<' | '+'
            | '-'
            | '|'
            | '>'
            | '{'
            | '}'
            | ','
            | ';'
            | '&'
            | '#'
            | '\\'
            | 'x'
            | 'X'
            | 'u'
            | 'U'
            | 'n'
            | 'N'
            | 'i'
            | 'I'
            | '\n'
            | '\t'
            | '\u{B}'
            | '\u{C}'
            | '\r'
            | ' '
    )
}

/// The character with a number in hexadecimal digits, none if it isn't one.
fn character(digits: &str) -> Option<char> {
    match u32::from_str_radix(digits, 16) {
        Ok(number) => char::from_u32(number),
        Err(_) => None,
    }
}

/// The text of these characters, by their numbers in hexadecimal digits; none if one isn't the
/// number of a character.
pub fn text_of_numbers(alloc: Global, list: &str) -> Result<Option<String>, AllocError> {
    let mut text = String::new(alloc);
    for digits in list.split(is_delimiter) {
        if digits.is_empty() {
            continue;
        }
        match character(digits) {
            Some(c) => text.push(c)?,
            None => return Ok(None),
        }
    }
    Ok(Some(text))
}
