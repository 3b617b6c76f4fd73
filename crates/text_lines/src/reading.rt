//! A text with its levels by UAX 9, for each byte: those of a character all have its level and its
//! class.
ghost use Rattle.std.specs.Prelude.{◌≡◌, ◌++◌, length, replicate, IfOk, OnOk};
ghost use Rattle.std.specs.Str.{chars};
ghost use Rattle.text_lines.specs.Levels as by_bytes;
ghost use Rattle.text_lines.specs.Pieces.{bytes_in};

use bidi::{Direction, Paragraph, text_levels};
use std::alloc::{AllocError, Global};
use ucd_bidi::BidiClass;

/// A paragraph of a text by P1: its bytes and its characters from one place up to another, and its
/// level.
#[derive(Clone, Copy)]
pub(crate) struct Block {
    pub start: usize,
    pub end: usize,
    pub first: usize,
    pub last: usize,
    pub level: u8,
}

/// A text as UAX 9 sees it, before L1.
#[derive(Drop)]
pub(crate) struct Levels {
    /// The level of each character.
    pub characters: Vec<u8>,
    /// The level of each byte.
    pub bytes: Vec<u8>,
    /// The class of each byte.
    pub classes: Vec<BidiClass>,
    /// The level of the paragraph of each byte.
    pub bases: Vec<u8>,
    /// The paragraphs.
    pub blocks: Vec<Block>,
}

impl Levels {
    /// The level of the paragraph that a byte stands in, 0 if there is no such byte.
    pub fn base_at(&self, at: usize) -> u8
        ensures { result ≡ by_bytes.base_at (bytes_in self.now) at }
    {
        match self.bases.get(at) {
            Some(level) => *level,
            None => 0,
        }
    }
}

/// The paragraphs, given where each character begins, and the end of the text.
fn blocks(
    alloc: Global,
    offsets: &[usize],
    paragraphs: &[Paragraph],
) -> Result<Vec<Block>, AllocError> {
    let mut blocks = Vec::new(alloc);
    let (mut first, mut start) = (0, 0);
    for paragraph in paragraphs {
        let end = offsets.get(paragraph.end).copied().unwrap_or(start);
        blocks.push(Block {
            start,
            end,
            first,
            last: paragraph.end,
            level: paragraph.level,
        })?;
        (first, start) = (paragraph.end, end);
    }
    Ok(blocks)
}

/// Adds a value so many times.
fn add_times<T: Copy>(values: &mut Vec<T>, value: T, times: usize) -> Result<(), AllocError>
    ensures { OnOk result (values.new.items ≡ values.old.items ++ replicate times value) }
{
    for _done in 0..times {
        values.push(value)?;
    }
    Ok(())
}

/// What is said of each character, for each of its bytes.
fn of_bytes<T: Copy>(
    alloc: Global,
    characters: &[char],
    values: &[T],
    count: usize,
) -> Result<Vec<T>, AllocError>
    ensures { IfOk result (λ bytes. bytes.items ≡ by_bytes.of_bytes characters.now values.now) }
{
    let mut bytes = Vec::with_capacity(alloc, count)?;
    for place in 0..characters.len() {
        if place >= values.len() {
            return Ok(bytes);
        }
        add_times(&mut bytes, values[place], characters[place].len_utf8())?;
    }
    Ok(bytes)
}

/// The level of the paragraph of each character.
fn paragraph_levels(alloc: Global, paragraphs: &[Paragraph]) -> Result<Vec<u8>, AllocError>
    ensures { IfOk result (λ levels. levels.items ≡ by_bytes.paragraph_levels 0 paragraphs.now) }
{
    let mut levels = Vec::new(alloc);
    let mut start = 0;
    for place in 0..paragraphs.len() {
        let paragraph = paragraphs[place];
        add_times(
            &mut levels,
            paragraph.level,
            paragraph.end.saturating_sub(start),
        )?;
        start = paragraph.end;
    }
    Ok(levels)
}

/// Reads the characters of a text.
fn read(letters: &mut Vec<char>, text: &str) -> Result<(), AllocError>
    ensures { OnOk result (letters.new.items ≡ chars text.now) }
{
    letters.clear();
    letters.extend(text.chars())
}

/// Where each character of a text begins, and where it ends.
fn offsets_of(alloc: Global, text: &str, count: usize) -> Result<Vec<usize>, AllocError> {
    let mut offsets = Vec::with_capacity(alloc, count.saturating_add(1))?;
    for (at, _) in text.char_indices() {
        offsets.push(at)?;
    }
    offsets.push(text.len())?;
    Ok(offsets)
}

/// The levels of a text, of this direction or that of the first strong character of each
/// paragraph.
#[tactic(auto, using(crate::proofs::LevelLemmas::same_bytes))]
pub(crate) fn levels_of(
    alloc: Global,
    text: &str,
    direction: Option<Direction>,
) -> Result<Levels, AllocError>
    ensures bytes { IfOk result
        (λ levels. bytes_in levels ≡ by_bytes.byte_levels direction (chars text.now)) }
    ensures same { IfOk result
        (λ levels. length levels.bytes.items ≡ length levels.classes.items) }
{
    let mut characters = Vec::new(alloc);
    read(&mut characters, text)?;
    let made = text_levels(alloc, &characters, direction)?;
    let bases = paragraph_levels(alloc, &made.paragraphs)?;
    let offsets = offsets_of(alloc, text, characters.len())?;
    let blocks = blocks(alloc, &offsets, &made.paragraphs)?;
    let count = text.len();
    let bytes = of_bytes(alloc, &characters, &made.levels, count)?;
    let classes = of_bytes(alloc, &characters, &made.classes, count)?;
    let bases = of_bytes(alloc, &characters, &bases, count)?;
    Ok(Levels {
        bytes,
        classes,
        bases,
        characters: made.levels,
        blocks,
    })
}
