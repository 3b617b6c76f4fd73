//! Lines of Unicode's test files, over any reader and writer.
//!
//! A line of NormalizationTest.txt, which has five columns, is answered by a line of lists
//! ([`normalization`]), one of LineBreakTest.txt by its code points with signs ([`breaks`]);
//! another is passed.
ghost use Rattle.std.specs.Prelude.{◌≡◌, ◌≤◌};

mod breaks;
pub mod normalization;

use breaks::signs_of;
use normalization::lists_of;
use shape_buffer::buffer::ShapeError;
use std::alloc::Global;
use std::io::{BufRead, Write};
use std::str;

/// The status of a run that came to the end of its input.
const DONE: u8 = 0;

/// The status of a run whose input couldn't be read or whose output couldn't be written, or that
/// had no memory.
const FAILED: u8 = 1;

/// The status of a run that met a malformed line.
const MALFORMED: u8 = 2;

/// What a line is answered by, a line too, or nothing if it has neither columns nor signs before
/// its comment. None if it is malformed.
fn answer(alloc: Global, line: &[u8]) -> Result<Option<String>, ShapeError> {
    let Ok(line) = str::from_utf8(line) else {
        return Ok(None);
    };
    let (columns, _) = line.split_once('#').unwrap_or((line, ""));
    if columns.contains(';') {
        lists_of(alloc, columns)
    } else if columns.contains('÷') {
        Ok(signs_of(alloc, columns)?)
    } else {
        Ok(Some(String::new(alloc)))
    }
}

/// Answers the lines, and gives the exit status: 0 at the end of the input, 1 if a
/// read, a write or a growth of memory failed, 2 at a malformed line.
pub fn run<R: BufRead + Drop, W: Write + Drop>(alloc: Global, mut reader: R, mut writer: W) -> u8
    ensures { result ≤ 2 }
{
    let mut line: Vec<u8> = Vec::new(alloc);
    let mut number: u64 = 0;
    for _ in 0..u128::MAX {
        line.clear();
        match reader.read_until(b'\n', &mut line) {
            Ok(0) => return DONE,
            Ok(_) => {}
            Err(_) => return failed(&mut writer),
        }
        number = number.saturating_add(1);
        match answer(alloc, line.as_slice()) {
            Ok(Some(made)) => if writer.write_all(made.as_bytes()).is_err() {
                return FAILED;
            },
            Ok(None) => return malformed(number, &mut writer),
            Err(_) => return failed(&mut writer),
        }
    }
    DONE
}

/// Writes that the run failed, and gives the exit status.
pub fn failed<W: Write>(writer: &mut W) -> u8
    ensures { result ≡ 1 }
{
    let _ = writer.write_all(b"error: input\n");
    FAILED
}

/// Writes which line is malformed, counted from 1, and gives the exit status.
fn malformed<W: Write>(number: u64, writer: &mut W) -> u8
    ensures { result ≤ 2 }
{
    match writeln!(writer, "error: line {number}") {
        Ok(()) => MALFORMED,
        Err(_) => FAILED,
    }
}
