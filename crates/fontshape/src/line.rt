//! A line of the input as characters.
use glyph_pictures::Character;
use std::alloc::{AllocError, Global};

/// What stands for a byte that is part of no character (HarfBuzz,
/// `hb_buffer_set_replacement_codepoint`).
const REPLACEMENT: char = '\u{FFFD}';

/// The characters of a line.
#[derive(Drop)]
pub struct Line {
    characters: Vec<Character>,
    by_bytes: bool,
}

impl Line {
    /// The characters of these bytes, each with its place as its cluster: that of its first byte,
    /// or its number. A byte that is part of no character of UTF-8 stands for U+FFFD.
    pub fn new(alloc: Global, bytes: &[u8], by_bytes: bool) -> Result<Line, AllocError> {
        let mut line = Line {
            characters: Vec::new(alloc),
            by_bytes,
        };
        let mut at: usize = 0;
        for _ in 0..bytes.len() {
            if bytes.len() <= at {
                break;
            }
            at = line.append(bytes, at)?;
        }
        Ok(line)
    }

    /// Its characters.
    pub fn characters(&self) -> &[Character] {
        self.characters.as_slice()
    }

    /// Appends the text that begins at this byte, and U+FFFD for a byte after it that is part of no
    /// character. Gives where the rest begins.
    fn append(&mut self, bytes: &[u8], at: usize) -> Result<usize, AllocError> {
        let rest = bytes.get(at..).unwrap_or(&[]);
        let valid = match str::from_utf8(rest) {
            Ok(text) => {
                self.append_text(text, at)?;
                return Ok(bytes.len());
            }
            Err(error) => error.valid_up_to(),
        };
        if let Ok(text) = str::from_utf8(rest.get(..valid).unwrap_or(&[])) {
            self.append_text(text, at)?;
        }
        let wrong = at.saturating_add(valid);
        self.push(REPLACEMENT, wrong)?;
        Ok(wrong.saturating_add(1))
    }

    /// Appends a text that begins at this byte.
    fn append_text(&mut self, text: &str, at: usize) -> Result<(), AllocError> {
        for (place, c) in text.char_indices() {
            self.push(c, at.saturating_add(place))?;
        }
        Ok(())
    }

    /// Appends a character whose first byte is this one.
    fn push(&mut self, c: char, at: usize) -> Result<(), AllocError> {
        let place = if self.by_bytes {
            at
        } else {
            self.characters.len()
        };
        let cluster = u32::try_from(place).unwrap_or(u32::MAX);
        self.characters.push(Character { c, cluster })?;
        Ok(())
    }
}
