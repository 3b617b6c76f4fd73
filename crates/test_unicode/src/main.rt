//! Unicode's own test files taken through the library.
//!
//! The program answers lines of NormalizationTest.txt and LineBreakTest.txt on the standard input
//! ([`files`]); `tests/compare.py` compares with the files. The exit status is 0 at the end of the
//! input, 1 if a read, a write or a growth of memory failed, 2 at a malformed line.
#![tactic(auto)]
#![allow(non_camel_case_types)]

mod every_glyph;
mod files;
mod normalising;

use std::io::{self, BufReader};
use std::process::ExitCode;

fn main(rt: HostRuntime) -> io::Result<ExitCode> {
    let alloc = rt.alloc();
    let writer = std::io::writer(&rt);
    let reader = BufReader::new(alloc, rt.reader())?;
    Ok(ExitCode::from(files::run(alloc, reader, writer)))
}
