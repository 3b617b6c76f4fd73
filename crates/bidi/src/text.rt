//! The levels of a whole text: P1, and the rules up to I2 for each of its paragraphs.
ghost use Rattle.std.specs.Prelude.{◌≡◌, ◌+◌, ◌-◌, ◌<◌, ◌≤◌, ◌∷◌, drop, take, length, map, slice_index_or, true, All, IfOk};
ghost use Rattle.std.specs.List.{list_all};
ghost use Rattle.bidi.specs.Explicit;
ghost use Rattle.bidi.specs.Explicit.{is_plain};
ghost use Rattle.bidi.specs.Left.{is_left};
ghost use Rattle.bidi.specs.Levels;
ghost use Rattle.bidi.specs.Members;
ghost use Rattle.bidi.specs.Sequences;
ghost use Rattle.bidi.specs.Text;

use crate::classes::{is, is_left, is_plain, is_removed};
use crate::explicit::{Placed, explicit};
use crate::levels::{Direction, classes_of, paragraph_level};
use crate::members::{members, plain_members};
use crate::sequences::{one_sequence, resolve_sequences};
use std::alloc::{AllocError, Global};
use ucd_bidi::BidiClass;

/// A paragraph of a text.
#[derive(Clone, Copy, Debug)]
pub struct Paragraph {
    /// The place after its last character, which is its separator if it has one.
    pub end: usize,
    /// Its level: 0 if it is left to right, 1 if it is right to left.
    pub level: u8,
}

/// The levels of a text.
#[derive(Drop, Debug)]
pub struct TextLevels {
    /// The class of each character.
    pub classes: Vec<BidiClass>,
    /// The level of each character, before L1.
    pub levels: Vec<u8>,
    /// The paragraphs.
    pub paragraphs: Vec<Paragraph>,
}

/// Gives characters that X9 removes the level of the one before, or of the paragraph.
fn fill_removed(base: u8, classes: &[BidiClass], levels: &mut [u8])
    requires { length levels.old ≡ length classes.now }
    ensures { levels.new ≡ Text.filled base classes.now levels.old }
{
    let mut before = base;
    for i in 0..classes.len() {
        before = filled_level(before, classes[i], levels[i]);
        levels[i] = before;
    }
}

/// The level of a character, that before it if X9 removes it.
fn filled_level(before: u8, class: BidiClass, level: u8) -> u8
    ensures { result ≡ Text.filled_level before class level }
{
    if is_removed(class) { before } else { level }
}

/// The levels after X1 to X8.
fn explicit_levels(alloc: Global, placed: &[Placed]) -> Result<Vec<u8>, AllocError>
    ensures { IfOk result (λ levels. levels.items ≡ map Text.level_of placed.now) }
{
    placed.iter().map(|placed| placed.level).collect(alloc)
}

/// Whether nothing in a paragraph is right to left.
fn are_left(classes: &[BidiClass]) -> bool
    ensures { result ≡ list_all is_left classes.now }
{
    classes.iter().all(|class| is_left(*class))
}

/// The levels of a paragraph of a level. One in which nothing is right to left has one level.
fn levels_in(
    alloc: Global,
    base: u8,
    text: &[char],
    classes: &[BidiClass],
) -> Result<Vec<u8>, AllocError>
    requires same { length classes.now ≡ length text.now }
    requires base { base ≤ 1 }
    ensures { IfOk result (λ levels. levels.items ≡ Text.levels_in base text.now classes.now) }
{
    if base == 0 && are_left(classes) {
        let levels = vec![in alloc; 0; text.len()]?;
        return Ok(levels);
    }
    resolved_levels(alloc, base, text, classes)
}

/// Whether none of X2 to X7 acts on a paragraph.
fn are_plain(classes: &[BidiClass]) -> bool
    ensures { result ≡ list_all is_plain classes.now }
{
    classes.iter().all(|class| is_plain(*class))
}

/// X1 to X8 and X10 where none of X2 to X7 acts: the members are one sequence.
fn plain_sequence(
    alloc: Global,
    base: u8,
    text: &[char],
    classes: &[BidiClass],
) -> Result<Vec<u8>, AllocError>
    requires same { length classes.now ≡ length text.now }
    requires base { base ≤ 1 }
    requires plain { list_all is_plain classes.now ≡ true }
    ensures levels { let placed = Explicit.explicit base classes.now in
        IfOk result (λ levels. levels.items ≡ Sequences.with_sequences base
        (Members.members base text.now classes.now placed) (map Text.level_of placed)) }
    ensures count { IfOk result (λ levels. length levels.items ≡ length text.now) }
{
    let members = plain_members(alloc, base, text, classes)?;
    let levels = one_sequence(alloc, base, &members, text.len())?;
    Ok(levels)
}

/// The levels of a paragraph on which none of X2 to X7 acts.
fn plain_levels(
    alloc: Global,
    base: u8,
    text: &[char],
    classes: &[BidiClass],
) -> Result<Vec<u8>, AllocError>
    requires same { length classes.now ≡ length text.now }
    requires base { base ≤ 1 }
    requires plain { list_all is_plain classes.now ≡ true }
    ensures { IfOk result (λ levels. levels.items ≡ Text.levels_in base text.now classes.now) }
{
    let mut levels = plain_sequence(alloc, base, text, classes)?;
    fill_removed(base, classes, &mut levels);
    Ok(levels)
}

/// The levels of a paragraph of a level, by the rules X1 to I2.
fn resolved_levels(
    alloc: Global,
    base: u8,
    text: &[char],
    classes: &[BidiClass],
) -> Result<Vec<u8>, AllocError>
    requires same { length classes.now ≡ length text.now }
    requires base { base ≤ 1 }
    ensures { IfOk result (λ levels. levels.items ≡ Text.levels_in base text.now classes.now) }
{
    if are_plain(classes) {
        return plain_levels(alloc, base, text, classes);
    }
    sequence_levels(alloc, base, text, classes)
}

/// The levels of a paragraph of a level, by its isolating run sequences.
fn sequence_levels(
    alloc: Global,
    base: u8,
    text: &[char],
    classes: &[BidiClass],
) -> Result<Vec<u8>, AllocError>
    requires same { length classes.now ≡ length text.now }
    requires base { base ≤ 1 }
    ensures { IfOk result (λ levels. levels.items ≡ Text.levels_in base text.now classes.now) }
{
    let placed = explicit(alloc, classes, base)?;
    let members = members(alloc, base, text, classes, &placed)?;
    let levels = explicit_levels(alloc, &placed)?;
    let mut levels = resolve_sequences(alloc, base, &members, levels)?;
    fill_removed(base, classes, &mut levels);
    Ok(levels)
}

/// P1: whether a character ends its paragraph: a separator, except a CR before a LF.
fn ends_paragraph(text: &[char], classes: &[BidiClass], place: usize) -> bool
    requires classes { classes.now ≡ Levels.classes_of text.now }
    requires within { place < length text.now }
    ensures { result
        ≡ Text.ends_paragraph (slice_index_or text.now place 0) (drop (place + 1) text.now) }
{
    is(classes[place], BidiClass::ParagraphSeparator)
        && !(text[place] == '\r' && begins_with('\n', &text[place + 1..]))
}

/// Whether a text begins with a character.
fn begins_with(c: char, text: &[char]) -> bool
    ensures { result ≡ Text.begins_with c text.now }
{
    match text.first() {
        Some(first) => *first == c,
        None => false,
    }
}

/// P1: the place after the paragraph that begins at a place.
fn paragraph_end(text: &[char], classes: &[BidiClass], start: usize) -> usize
    requires classes { classes.now ≡ Levels.classes_of text.now }
    requires within { start < length text.now }
    ensures after { start < result }
    ensures within { result ≤ length text.now }
    ensures part { Text.parts_of (drop start text.now)
        ≡ take (result - start) (drop start text.now) ∷ Text.parts_of (drop result text.now) }
{
    for i in start..text.len() {
        if ends_paragraph(text, classes, i) {
            return i + 1;
        }
    }
    text.len()
}

/// The levels of a text's characters by the rules P1 to I2, paragraph by paragraph, and its
/// paragraphs. `base` is the direction of each paragraph; if it is `None`, each has that of its
/// first strong character. Takes time in step with the text. Refuses if memory runs out.
pub fn text_levels(
    alloc: Global,
    text: &[char],
    base: Option<Direction>,
) -> Result<TextLevels, AllocError>
    ensures classes { IfOk result (λ made. made.classes.items ≡ Levels.classes_of text.now) }
    ensures levels { IfOk result (λ made. made.levels.items ≡ Text.text_levels base text.now) }
    ensures paragraphs { IfOk result (λ made. made.paragraphs.items
        ≡ Text.text_paragraphs base text.now) }
    ensures count { IfOk result (λ made. length made.levels.items ≡ length text.now) }
    ensures within { IfOk result (λ made. All (λ level. level ≤ 126) made.levels.items) }
{
    let made = resolve_text(alloc, text, base)?;
    Ok(made)
}

/// The classes, the levels and the paragraphs themselves.
fn resolve_text(
    alloc: Global,
    text: &[char],
    base: Option<Direction>,
) -> Result<TextLevels, AllocError>
    ensures classes { IfOk result (λ made. made.classes.items ≡ Levels.classes_of text.now) }
    ensures levels { IfOk result (λ made. made.levels.items ≡ Text.text_levels base text.now) }
    ensures paragraphs { IfOk result (λ made. made.paragraphs.items
        ≡ Text.text_paragraphs base text.now) }
{
    let classes = classes_of(alloc, text)?;
    let mut levels: Vec<u8> = Vec::with_capacity(alloc, text.len())?;
    let mut paragraphs = Vec::new(alloc);
    let mut start = 0;
    while start < text.len() {
        let end = paragraph_end(text, &classes, start);
        let level = paragraph_level(&classes[start..end], base);
        let part = levels_in(alloc, level, &text[start..end], &classes[start..end])?;
        levels.extend_from_slice(&part)?;
        paragraphs.push(Paragraph { end, level })?;
        start = end;
    }
    Ok(TextLevels {
        classes,
        levels,
        paragraphs,
    })
}
