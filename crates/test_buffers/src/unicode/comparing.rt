//! Comparisons of tests, and how rows of text are read.
//!
//! The proof of a test takes next to nothing for a text, and a good part of a second for each
//! `assert_eq!` and for each list of its own. So rows are lines of text. A row that can't be read
//! ends the test, as does a text without rows.

use std::fmt::Debug;
use std::process::Abort;

/// Compares two values.
pub fn assert_same<T: Copy + PartialEq + Debug>(rt: &impl Abort, found: T, wanted: T) {
    assert_eq!(rt; found, wanted);
}

/// Compares what was found for a row with what is wanted.
pub fn assert_row<T: Copy + PartialEq + Debug>(rt: &impl Abort, row: &str, found: T, wanted: T) {
    assert_eq!(rt; (row, found), (row, wanted));
}

/// The rows of a text, a line each.
pub fn rows_of<'a>(rt: &impl Abort, text: &'a str) -> &'a str {
    let rows = text.trim();
    assert!(rt; !rows.is_empty());
    rows
}

/// What stands before `mark` in a text, and after it.
pub fn parts<'a>(rt: &impl Abort, text: &'a str, mark: &str) -> (&'a str, &'a str) {
    match text.split_once(mark) {
        Some((before, after)) => (before.trim(), after.trim()),
        None => rt.panic(text),
    }
}

/// The character of a hexadecimal number.
fn numbered(word: &str) -> Option<char> {
    char::from_u32(u32::from_str_radix(word, 16).ok()?)
}

/// The character that a word names: itself, or the one of a hexadecimal number of two or more
/// digits.
pub fn character(rt: &impl Abort, word: &str) -> char {
    match word.chars().next() {
        Some(c) if c.len_utf8() == word.len() => c,
        _ => numbered(word).expect(rt, word),
    }
}

/// The characters of a text.
pub fn chars_of(rt: &(impl Abort + AllocGlobal), text: &str) -> Vec<char> {
    let mut list = Vec::new(rt.alloc());
    for c in text.chars() {
        list.push(c).expect(rt, "memory");
    }
    list
}

/// The number that a word writes, below 2 to the 32.
pub fn number(rt: &impl Abort, word: &str) -> u32 {
    match word.parse::<u32>() {
        Ok(number) => number,
        Err(_) => rt.panic(word),
    }
}
