//! The program over any reader and writer: a line sets something or asks for something.
//!
//! Nothing is kept of a line but what it sets, and what a line prints is written before the next
//! one is read. The first line that can't be obeyed ends the program's run, with a status that says
//! why.
//!
//! Lines are counted in a loop over all u128 numbers, which ends later than any input: a loop
//! without an end would need a handle. The printed number stays at the greatest u64.
ghost use Rattle.std.specs.Prelude.{◌≡◌, ◌≤◌, Some};
ghost use Rattle.shape_sessions.specs.Lines.{IsLine, IsObeyed, line_words, obeyed};
ghost use Rattle.shape_sessions.specs.Lines.{command_of_words};
ghost use Rattle.shape_sessions.specs.State.{IsMeant, set_by};
ghost use Rattle.shape_sessions.specs.Words as word_rules;

mod answers;
mod lines;
mod same;
mod shapers;
mod text;

use shape_sessions::command::Command;
use shape_sessions::outcome::Outcome;
use shape_sessions::parse::Words;
use shape_sessions::session::{Session, words_of_line};
use std::alloc::Global;
use std::io::{BufRead, Write};

/// The status if the program came to the end of its input.
const DONE: u8 = 0;

/// The status if the input couldn't be read or the output couldn't be written.
const FAILED: u8 = 1;

/// The status if a line was malformed.
const MALFORMED: u8 = 2;

/// Obeys the lines of the reader and gives the exit status: 0 at the end of the input, 1 if a read
/// or a write failed, 2 at a malformed line. Running out of memory outside shaping counts as a
/// failed read. After a failed write nothing more is written.
pub fn run<R: BufRead + Drop, W: Write + Drop>(alloc: Global, mut reader: R, mut writer: W) -> u8
    ensures { result ≤ 2 }
{
    let mut session = Session::new(alloc);
    let mut line: Vec<u8> = Vec::new(alloc);
    let mut number: u64 = 0;
    // A loop must be seen to end, and no input has so many lines.
    for _ in 0..u128::MAX {
        line.clear();
        match reader.read_until(b'\n', &mut line) {
            Ok(0) => return DONE,
            Ok(_) => {}
            Err(_) => return input_failed(&mut writer),
        }
        number = number.saturating_add(1);
        match obey(alloc, &mut session, line.as_slice(), &mut writer) {
            Outcome::Done => {}
            Outcome::Malformed => return malformed(number, &mut writer),
            Outcome::OutOfMemory => return input_failed(&mut writer),
            Outcome::WriteFailed => return FAILED,
        }
    }
    DONE
}

/// Writes that the input couldn't be read, and gives the exit status. Takes no memory.
pub fn input_failed<W: Write>(writer: &mut W) -> u8
    ensures { result ≡ 1 }
{
    let _ = writer.write_all(b"error: input\n");
    FAILED
}

/// Writes which line is malformed, counted from 1, and gives the exit status. Takes no memory.
fn malformed<W: Write>(number: u64, writer: &mut W) -> u8
    ensures { result ≤ 2 }
{
    match writeln!(writer, "error: line {number}") {
        Ok(()) => MALFORMED,
        Err(_) => FAILED,
    }
}

/// Does what one line says, and writes what it asks for. A malformed line changes nothing. A
/// `glyph` line is out of memory if a growth was refused, and then changes at most the metrics of
/// glyphs.
fn obey<W: Write>(alloc: Global, session: &mut Session, line: &[u8], writer: &mut W) -> Outcome
    ensures { IsObeyed (command_of_words (line_words line.now)) (IsLine line.now) session.old
        (obeyed (line_words line.now) session.old) result session.new }
{
    let Some(mut words) = words_of_line(line) else {
        return Outcome::Malformed;
    };
    let Some(first) = words.next() else {
        return Outcome::Done;
    };
    if first.starts_with('#') {
        return Outcome::Done;
    }
    match Command::from_word(first) {
        Some(command) => execute(alloc, session, command, words, writer),
        None => Outcome::Malformed,
    }
}

/// Does what a command with these words says.
fn execute<W: Write>(
    alloc: Global,
    session: &mut Session,
    command: Command,
    words: Words,
    writer: &mut W,
) -> Outcome
    ensures { IsObeyed (Some command) (IsMeant command
        (word_rules.words words.entry.rest.now)) session.old
        (set_by command (word_rules.words words.entry.rest.now) session.old) result session.new }
{
    match command {
        Command::Face => session.set_face(alloc, words),
        Command::Glyph => session.set_glyph(words),
        Command::Mode => session.set_mode(words),
        Command::Level => session.set_level(words),
        Command::Dir => session.set_direction(words),
        Command::Flags => session.set_flags(words),
        Command::Text => text::answer(
            alloc,
            session.face(),
            session.text_settings(),
            words,
            writer,
        ),
        Command::Same => same::answer(
            alloc,
            session.face(),
            session.text_settings(),
            words,
            writer,
        ),
        Command::Lines => lines::answer(
            alloc,
            session.face(),
            session.text_settings(),
            words,
            writer,
        ),
    }
}
