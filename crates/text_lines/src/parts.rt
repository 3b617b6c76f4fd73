//! The parts of a text that are shaped by themselves: its items, cut where a line must end. The
//! characters that end a line or a paragraph are parts by themselves, and have no glyphs.
use crate::reading::{Block, Levels};
use shape_buffer::buffer::{GlyphBuffer, Script, ShapeError};
use shape_buffer::hb_unicode_funcs_t;
use shape_unicode::UnicodeDatabase;
use std::alloc::{AllocError, Global};
use text_items::{Item, ItemOptions, text_items};
use ucd_script::Script as DatabaseScript;

/// A part of a text that is shaped by itself.
#[derive(Clone, Copy)]
pub struct Part {
    /// Where it begins, in bytes.
    pub start: usize,
    /// Where it ends, in bytes.
    pub end: usize,
    /// Its level: odd if it runs from right to left.
    pub level: u8,
    /// Its script.
    pub script: Script,
    /// Whether it has glyphs.
    pub shown: bool,
}

/// Fonts of a list that shape the parts of one text.
pub trait PartShaper {
    ghost use Rattle.std.specs.Prelude.{◌≡◌, List, length, slice_index_or};
    ghost use Rattle.text_lines.specs.Reach.{FontReach, no_font};

    /// What its fonts say of themselves.
    ghost fonts: { Self → List FontReach };

    /// How many fonts there are.
    fn font_count(&self) -> usize
        ensures { result ≡ length (fonts self.now) };

    /// The side of the em square of a font; 0 if there is no such font.
    fn units_per_em(&self, font: usize) -> u16
        ensures { result ≡ (slice_index_or (fonts self.now) font no_font).units };

    /// How far a line in a font reaches above its baseline, and below it as a number that is never
    /// positive; nowhere if there is no such font.
    fn reach(&self, font: usize) -> (i32, i32)
        ensures above { result.0 ≡ (slice_index_or (fonts self.now) font no_font).above }
        ensures below { result.1 ≡ (slice_index_or (fonts self.now) font no_font).below };

    /// The glyphs of a part of the text in a font, with the bytes of the text as their clusters,
    /// by what stands beside the part.
    fn shape(&mut self, alloc: Global, font: usize, part: Part) -> Result<GlyphBuffer, ShapeError>;
}

/// Whether a character ends a line (UAX 14, BK, CR, LF and NL) or a paragraph (UAX 9, B).
fn ends_line(c: char) -> bool {
    match c {
        '\u{A}'..='\u{D}' | '\u{1C}'..='\u{1E}' | '\u{85}' | '\u{2028}' | '\u{2029}' => true,
        _ => false,
    }
}

/// Adds the parts of an item of a text.
fn add_item(parts: &mut Vec<Part>, text: &str, item: Part) -> Result<(), AllocError> {
    let mut part = item;
    for (at, c) in text.get(item.start..item.end).unwrap_or("").char_indices() {
        if !ends_line(c) {
            continue;
        }
        let at = item.start.saturating_add(at);
        let end = at.saturating_add(c.len_utf8());
        if part.start < at {
            parts.push(Part { end: at, ..part })?;
        }
        parts.push(Part {
            start: at,
            end,
            shown: false,
            ..item
        })?;
        part.start = end;
    }
    if part.start < item.end {
        parts.push(part)?;
    }
    Ok(())
}

/// The items of a paragraph of a text.
fn items(
    alloc: Global,
    text: &str,
    levels: &Levels,
    block: Block,
) -> Result<Vec<Item>, AllocError> {
    let options = ItemOptions {
        levels: levels
            .characters
            .get(block.first..block.last)
            .unwrap_or(&[]),
        ..ItemOptions::new()
    };
    text_items(alloc, text, &options)
}

/// The script of an item as shaping names it: by a character that has it. Each script of an item
/// is that of a character of its paragraph, except Common. `known` are those that were sought
/// before.
fn script_of(
    known: &mut Vec<(u32, Script)>,
    text: &str,
    script: DatabaseScript,
) -> Result<Script, AllocError> {
    let number = script.number();
    if let Some((_, script)) = known.iter().find(|(other, _)| *other == number) {
        return Ok(*script);
    }
    let mut named = Script::COMMON;
    for c in text.chars() {
        if DatabaseScript::for_char(c).number() == number {
            named = UnicodeDatabase::script(c);
            break;
        }
    }
    known.push((number, named))?;
    Ok(named)
}

/// Adds the parts of a paragraph of a text.
fn add_block(
    alloc: Global,
    parts: &mut Vec<Part>,
    text: &str,
    levels: &Levels,
    block: Block,
) -> Result<(), AllocError> {
    let inside = text.get(block.start..block.end).unwrap_or("");
    let mut known = Vec::new(alloc);
    for item in &items(alloc, inside, levels, block)? {
        let part = Part {
            start: block.start.saturating_add(item.start),
            end: block.start.saturating_add(item.end),
            level: item.properties.level,
            script: script_of(&mut known, inside, item.properties.script)?,
            shown: true,
        };
        add_item(parts, text, part)?;
    }
    Ok(())
}

/// The parts of a text, in its order.
pub(crate) fn parts(alloc: Global, text: &str, levels: &Levels) -> Result<Vec<Part>, AllocError> {
    let mut parts = Vec::new(alloc);
    for block in &levels.blocks {
        add_block(alloc, &mut parts, text, levels, *block)?;
    }
    Ok(parts)
}
