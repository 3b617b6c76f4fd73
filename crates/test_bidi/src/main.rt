//! Unicode's test files of UAX 9 taken through `bidi`.
//!
//! Each line on the standard input has a text as hexadecimal code points, and after a semicolon the
//! direction of its paragraphs: 0 left to right, 1 right to left, 2 that of their first strong
//! characters, as BidiCharacterTest.txt has them; what comes after a further semicolon is passed
//! over. Each is answered by a line with the level of the first paragraph, the levels of the text
//! as one line after L1, `x` for characters that X9 removes, and the order of the others by L2.
//! `tests/compare.py bidi` compares with the files. The exit status is 0 at the end of the input, 1
//! if a read, a write or a growth of memory failed, 2 at a malformed line.
#![tactic(auto)]

mod lines;

use std::io::{self, BufReader, BufWriter};
use std::process::ExitCode;

fn main(rt: HostRuntime) -> io::Result<ExitCode> {
    let alloc = rt.alloc();
    let writer = BufWriter::new(alloc, std::io::writer(&rt))?;
    let reader = BufReader::new(alloc, rt.reader())?;
    Ok(ExitCode::from(lines::run(alloc, reader, writer)))
}
