//! Texts taken through `bidi` and `text_items`.
//!
//! Each line on the standard input has a text as hexadecimal code points, and after a semicolon the
//! direction of its paragraphs: 0 left to right, 1 right to left, 2 that of their first strong
//! characters. Each is answered by a line with its runs, with semicolons between them: where a run
//! begins and ends, in bytes, its script, its level, and whether it is of emoji.
//! `tests/compare.py items` compares with other libraries. The exit status is 0 at the end of the
//! input, 1 if a read, a write or a growth of memory failed, 2 at a malformed line.
#![tactic(auto)]

mod lines;

use std::io::{self, BufReader, BufWriter};
use std::process::ExitCode;

fn main(rt: HostRuntime) -> io::Result<ExitCode> {
    let alloc = rt.alloc();
    let writer = BufWriter::new(alloc, std::io::writer(&rt))?;
    let reader = BufReader::new(alloc, rt.reader())?;
    Ok(ExitCode::from(lines::run(alloc, reader, writer)))
}
