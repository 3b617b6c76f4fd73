//! A line of LineBreakTest.txt: its code points with `÷` where a line may end and `×` where none
//! does. A line without a code point gives none.

use line_breaks::{LineBreaks, line_breaks};
use std::alloc::{AllocError, Global};

/// The text that code points name between signs, or none if a word names no character.
fn text_of(alloc: Global, columns: &str) -> Result<Option<String>, AllocError> {
    let mut text = String::new(alloc);
    for word in columns.split_whitespace() {
        if word == "÷" || word == "×" {
            continue;
        }
        match u32::from_str_radix(word, 16).ok().and_then(char::from_u32) {
            Some(c) => text.push(c)?,
            None => return Ok(None),
        }
    }
    Ok(Some(text))
}

/// The sign of an offset.
fn sign(breaks: &LineBreaks, offset: u32) -> &'static str {
    if breaks.allowed.contains(&offset) || breaks.mandatory.contains(&offset) {
        "÷"
    } else {
        "×"
    }
}

/// The line of a text with its signs. None if a word names no character.
pub fn signs_of(alloc: Global, columns: &str) -> Result<Option<String>, AllocError> {
    let Some(text) = text_of(alloc, columns)? else {
        return Ok(None);
    };
    if text.len() > 1_000_000 {
        return Ok(None);
    }
    let breaks = line_breaks(alloc, text.as_str())?;
    let mut signs = String::new(alloc);
    let mut offset: u32 = 0;
    for c in text.chars() {
        let code = u32::from(c);
        write!(signs, "{} {code:04X} ", sign(&breaks, offset))?;
        offset = offset.saturating_add(c.len_utf8() as u32);
    }
    writeln!(signs, "{}", sign(&breaks, offset))?;
    Ok(Some(signs))
}
