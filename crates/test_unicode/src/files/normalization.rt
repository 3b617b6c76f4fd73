//! A line of NormalizationTest.txt: each of its five columns is normalised in mode 1, then in mode
//! 3, after a base with a mark and under a face that has every glyph.

use crate::normalising::normalised;
use shape_buffer::buffer::ShapeError;
use shape_pipeline::ot_shaper::{ComposedDiacriticsNoShortCircuit, Decomposed, Preferring};
use std::alloc::{AllocError, Global};

/// How many columns a line has: a text, its NFC, NFD, NFKC and NFKD.
const COLUMNS: usize = 5;

/// The character that a hexadecimal number names.
fn character(word: &str) -> Option<char> {
    char::from_u32(u32::from_str_radix(word, 16).ok()?)
}

/// The characters that a column names by numbers with one space between them, or none if a word
/// names no character. Refuses if memory is refused.
fn text_of(alloc: Global, column: &str) -> Result<Option<Vec<char>>, ShapeError> {
    let mut text = Vec::new(alloc);
    for word in column.split(' ') {
        match character(word) {
            Some(c) => text.push(c)?,
            None => return Ok(None),
        }
    }
    Ok(Some(text))
}

/// Appends the numbers of characters, with a space between them, and a semicolon.
fn append_list(answer: &mut String, list: &[char]) -> Result<(), AllocError> {
    let mut parted = "";
    for c in list {
        let code = u32::from(*c);
        write!(answer, "{parted}{code:04X}")?;
        parted = " ";
    }
    answer.push(';')
}

/// The lists of the first five columns, by the two modes that split fully: 1, which composes
/// nothing, and 3, which composes again. They stand in one line, each with a semicolon after it.
/// None if there are fewer columns or one names no character. Refuses if memory is refused.
pub fn lists_of(alloc: Global, columns: &str) -> Result<Option<String>, ShapeError> {
    let splitting = Preferring::<Decomposed>::new();
    let composing = Preferring::<ComposedDiacriticsNoShortCircuit>::new();
    let mut answer = String::new(alloc);
    let mut count: usize = 0;
    for column in columns.split(';').take(COLUMNS) {
        let Some(text) = text_of(alloc, column)? else {
            return Ok(None);
        };
        append_list(
            &mut answer,
            normalised(alloc, &splitting, text.as_slice())?.as_slice(),
        )?;
        append_list(
            &mut answer,
            normalised(alloc, &composing, text.as_slice())?.as_slice(),
        )?;
        count = count.saturating_add(1);
    }
    if count < COLUMNS {
        return Ok(None);
    }
    answer.push('\n')?;
    Ok(Some(answer))
}
