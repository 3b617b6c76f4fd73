//! Lines of BidiCharacterTest.txt, over any reader and writer.
ghost use Rattle.std.specs.Prelude.{◌≡◌, ◌≤◌};

use bidi::{Direction, Paragraph, TextLevels, line_levels, text_levels, visual_order};
use std::alloc::{AllocError, Global};
use std::io::{BufRead, Write};
use std::str;
use ucd_bidi::BidiClass;

/// The status of a run that came to the end of its input.
const DONE: u8 = 0;

/// The status of a run whose input couldn't be read or whose output couldn't be written, or that
/// had no memory.
const FAILED: u8 = 1;

/// The status of a run that met a malformed line.
const MALFORMED: u8 = 2;

/// The text that hexadecimal code points name, or none if a word names no character.
fn text_of(alloc: Global, column: &str) -> Result<Option<Vec<char>>, AllocError> {
    let mut text = Vec::new(alloc);
    for word in column.split_whitespace() {
        match u32::from_str_radix(word, 16).ok().and_then(char::from_u32) {
            Some(c) => text.push(c)?,
            None => return Ok(None),
        }
    }
    Ok(Some(text))
}

/// The direction that a digit names, if any, or none if it is no such digit.
fn direction_of(column: &str) -> Option<Option<Direction>> {
    match column.trim() {
        "0" => Some(Some(Direction::LeftToRight)),
        "1" => Some(Some(Direction::RightToLeft)),
        "2" => Some(None),
        _ => None,
    }
}

/// Whether X9 removes characters of a class.
fn is_removed(class: BidiClass) -> bool {
    matches!(
        &class,
        BidiClass::LeftToRightEmbedding
            | BidiClass::RightToLeftEmbedding
            | BidiClass::LeftToRightOverride
            | BidiClass::RightToLeftOverride
            | BidiClass::PopDirectionalFormat
            | BidiClass::BoundaryNeutral
    )
}

/// L1 for each paragraph, as a line.
fn end_lines(levels: &mut [u8], classes: &[BidiClass], paragraphs: &[Paragraph]) {
    let mut start = 0;
    for paragraph in paragraphs {
        let end = paragraph.end.min(levels.len()).min(classes.len());
        if start <= end {
            line_levels(
                &mut levels[start..end],
                &classes[start..end],
                paragraph.level,
            );
        }
        start = end;
    }
}

/// Puts a space after what there is, if there is anything.
fn part(list: &mut String) -> Result<(), AllocError> {
    if list.is_empty() {
        return Ok(());
    }
    list.push(' ')
}

/// The levels of a text, `x` for each character that X9 removes.
fn level_list(alloc: Global, levels: &[u8], classes: &[BidiClass]) -> Result<String, AllocError> {
    let mut list = String::new(alloc);
    for (level, class) in levels.iter().zip(classes.iter()) {
        part(&mut list)?;
        if is_removed(*class) {
            list.push('x')?;
        } else {
            write!(list, "{level}")?;
        }
    }
    Ok(list)
}

/// The places of an order, without those of characters that X9 removes.
fn place_list(alloc: Global, order: &[usize], classes: &[BidiClass]) -> Result<String, AllocError> {
    let mut list = String::new(alloc);
    for place in order {
        if classes.get(*place).is_some_and(|class| !is_removed(*class)) {
            part(&mut list)?;
            write!(list, "{place}")?;
        }
    }
    Ok(list)
}

/// A line with the level of the first paragraph, the levels and the visual order of a text.
fn written(alloc: Global, made: &TextLevels) -> Result<String, AllocError> {
    let first = match made.paragraphs.first() {
        Some(paragraph) => paragraph.level,
        None => 0,
    };
    let levels = level_list(alloc, &made.levels, &made.classes)?;
    let order = visual_order(alloc, &made.levels)?;
    let places = place_list(alloc, &order, &made.classes)?;
    let mut line = String::new(alloc);
    writeln!(line, "{first};{levels};{places}")?;
    Ok(line)
}

/// What a line is answered by, a line too, or nothing if it has no column before its comment. None
/// if it is malformed.
fn answer(alloc: Global, line: &[u8]) -> Result<Option<String>, AllocError> {
    let Ok(line) = str::from_utf8(line) else {
        return Ok(None);
    };
    let (columns, _) = line.split_once('#').unwrap_or((line, ""));
    let Some((text, rest)) = columns.split_once(';') else {
        return Ok(Some(String::new(alloc)));
    };
    let (digit, _) = rest.split_once(';').unwrap_or((rest, ""));
    let Some(direction) = direction_of(digit) else {
        return Ok(None);
    };
    let Some(text) = text_of(alloc, text)? else {
        return Ok(None);
    };
    let mut made = text_levels(alloc, &text, direction)?;
    end_lines(&mut made.levels, &made.classes, &made.paragraphs);
    Ok(Some(written(alloc, &made)?))
}

/// Answers the lines, and gives the exit status: 0 at the end of the input, 1 if a
/// read, a write or a growth of memory failed, 2 at a malformed line.
pub fn run<R: BufRead + Drop, W: Write + Drop>(alloc: Global, mut reader: R, mut writer: W) -> u8
    ensures { result ≤ 2 }
{
    let mut line: Vec<u8> = Vec::new(alloc);
    let mut number: u64 = 0;
    for _ in 0..u128::MAX {
        line.clear();
        match reader.read_until(b'\n', &mut line) {
            Ok(0) => return flushed(&mut writer),
            Ok(_) => {}
            Err(_) => return failed(&mut writer),
        }
        number = number.saturating_add(1);
        match answer(alloc, line.as_slice()) {
            Ok(Some(made)) => if writer.write_all(made.as_bytes()).is_err() {
                return FAILED;
            },
            Ok(None) => return malformed(number, &mut writer),
            Err(_) => return failed(&mut writer),
        }
    }
    flushed(&mut writer)
}

/// Writes what is left, and gives the exit status.
fn flushed<W: Write>(writer: &mut W) -> u8
    ensures { result ≤ 2 }
{
    match writer.flush() {
        Ok(()) => DONE,
        Err(_) => FAILED,
    }
}

/// Writes that the run failed, and gives the exit status.
fn failed<W: Write>(writer: &mut W) -> u8
    ensures { result ≡ 1 }
{
    let _ = writer.write_all(b"error: input\n");
    let _ = writer.flush();
    FAILED
}

/// Writes which line is malformed, counted from 1, and gives the exit status.
fn malformed<W: Write>(number: u64, writer: &mut W) -> u8
    ensures { result ≤ 2 }
{
    let _ = writeln!(writer, "error: line {number}");
    let _ = writer.flush();
    MALFORMED
}
