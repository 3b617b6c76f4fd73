//! Fills a paragraph with font files: lines of glyphs by several fonts and in both directions,
//! written or drawn.
//!
//! [`command`] says which arguments there are, [`options`] what they ask for; the crate
//! `paragraph` makes the lines, [`written`] writes them, and [`picture`] draws them. [`failure`]
//! is what is said when something is wrong.
#![tactic(auto)]

mod command;
mod failure;
mod options;
mod page;
mod picture;
mod written;

use crate::command::command;
use crate::failure::Failure;
use crate::options::Options;
use crate::picture::picture;
use crate::written::written;
use opentype_layout::{OpenTypeFace, OpenedOpenTypeFace};
use paragraph::{TextLine, paragraph};
use shape_font::FontFace;
use shape_font::instance::coordinates_of;
use std::alloc::Global;
use std::env::{Env, FillError};
use std::io::{Read, Write};
use std::process::ExitCode;
use std::{env, fs, io};

/// What is said of standard input and output.
const INPUT: &str = "standard input";

const OUTPUT: &str = "standard output";

/// A font file: its bytes, and the coordinates that are asked for, as its tables normalize them.
#[derive(Drop)]
struct FontFile {
    bytes: Vec<u8>,
    coordinates: Vec<i32>,
}

/// The font files.
fn read_fonts(rt: &HostRuntime, options: &Options) -> Result<Vec<FontFile>, Failure> {
    let alloc = rt.alloc();
    let mut files = Vec::new(alloc);
    for name in options.fonts() {
        let bytes = match fs::read(rt, name.as_str()) {
            Ok(bytes) => bytes,
            Err(error) => return Err(Failure::io(alloc, name.as_str(), error)),
        };
        let coordinates = coordinates_of(alloc, &bytes, 0, &options.wanted())?;
        files.push(FontFile { bytes, coordinates })?;
    }
    Ok(files)
}

/// The fonts of the files, each opened once.
fn opened<'a>(
    alloc: Global,
    options: &Options,
    files: &'a [FontFile],
) -> Result<Vec<OpenedOpenTypeFace<'a>>, Failure> {
    let mut fonts = Vec::new(alloc);
    for (name, file) in options.fonts().iter().zip(files) {
        let Some(font) = FontFace::from_slice(&file.bytes, 0) else {
            return Err(Failure::no_font(alloc, name.as_str(), &file.bytes));
        };
        let face = OpenTypeFace::new(font.at(file.coordinates.as_slice()));
        fonts.push(OpenedOpenTypeFace::new(alloc, face)?)?;
    }
    Ok(fonts)
}

/// All bytes of standard input.
fn read_input(rt: &HostRuntime) -> io::Result<Vec<u8>> {
    let mut bytes = Vec::new(rt.alloc());
    rt.reader().read_to_end(&mut bytes)?;
    Ok(bytes)
}

/// The bytes of the file of the text, or of standard input, and what it is called.
fn read_text<'a>(rt: &HostRuntime, options: &'a Options) -> Result<(Vec<u8>, &'a str), Failure> {
    let (name, read) = match options.text_file() {
        "-" => (INPUT, read_input(rt)),
        name => (name, fs::read(rt, name)),
    };
    match read {
        Ok(bytes) => Ok((bytes, name)),
        Err(error) => Err(Failure::io(rt.alloc(), name, error)),
    }
}

/// The text to fill: what the options give, or all of a file or of standard input.
fn text_of(rt: &HostRuntime, options: &Options) -> Result<String, Failure> {
    let alloc = rt.alloc();
    if let Some(text) = options.text() {
        return Ok(String::from_str(alloc, text)?);
    }
    let (bytes, name) = read_text(rt, options)?;
    match str::from_utf8(&bytes) {
        Ok(text) => Ok(String::from_str(alloc, text)?),
        Err(error) => Err(Failure::not_text(alloc, name, error.valid_up_to().saturating_add(1))),
    }
}

/// What is written of lines.
fn shown(
    alloc: Global,
    options: &Options,
    files: &[FontFile],
    fonts: &[OpenedOpenTypeFace<'_>],
    text: &str,
    lines: &[TextLine],
) -> Result<String, Failure> {
    if options.svg() {
        picture(alloc, options, files, fonts, lines)
    } else {
        written(alloc, options, text, lines)
    }
}

/// Writes to a file, or to standard output.
fn write(rt: &HostRuntime, name: Option<&str>, text: &str) -> Result<(), Failure> {
    let (name, done) = match name {
        Some(name) => (name, fs::write(rt, name, text)),
        None => (OUTPUT, io::writer(rt).write_all(text.as_bytes())),
    };
    match done {
        Ok(()) => Ok(()),
        Err(error) => Err(Failure::write(rt.alloc(), name, error)),
    }
}

/// Fills a text as the options ask.
fn run(rt: &HostRuntime, options: &Options) -> Result<(), Failure> {
    let alloc = rt.alloc();
    let files = read_fonts(rt, options)?;
    let fonts = opened(alloc, options, &files)?;
    let text = text_of(rt, options)?;
    let lines = paragraph(alloc, &fonts, text.as_str(), &options.paragraph())?;
    let shown = shown(alloc, options, &files, &fonts, text.as_str(), &lines)?;
    write(rt, options.output(), shown.as_str())
}

/// The most bytes of an argument that is looked at.
const LONGEST: usize = 4096;

/// The argument that isn't UTF-8, and its byte from which on it isn't, both counted from 1; none if
/// it isn't found.
fn malformed(rt: &HostRuntime) -> Option<(usize, usize)> {
    let mut bytes = [0u8; LONGEST];
    for number in 1..usize::MAX {
        let len = match rt.arg(number, &mut bytes) {
            Ok(len) => len,
            Err(FillError::TooLong) => continue,
            Err(FillError::NotPresent) => return None,
        };
        if let Err(error) = str::from_utf8(bytes.get(..len).unwrap_or(&[])) {
            return Some((number, error.valid_up_to().saturating_add(1)));
        }
    }
    None
}

/// Why the arguments can't be read.
fn unreadable(rt: &HostRuntime, error: io::Error) -> Failure {
    match malformed(rt) {
        Some((number, at)) => Failure::malformed(rt.alloc(), number, at),
        None => Failure::io(rt.alloc(), "the arguments", error),
    }
}

/// Reads the arguments and does what they ask.
fn obey(rt: &HostRuntime) -> Result<(), Failure> {
    let alloc = rt.alloc();
    let words = match env::args(rt) {
        Ok(words) => words,
        Err(error) => return Err(unreadable(rt, error)),
    };
    let words: Vec<String> = words.collect(alloc)?;
    let matches = match command(alloc)?.try_get_matches_from(words.as_slice()) {
        Ok(matches) => matches,
        Err(error) => return Err(Failure::from(error)),
    };
    let options = Options::new(alloc, &matches)?;
    run(rt, &options)
}

/// Says why the program gives up, and gives the status that it ends with.
fn give_up(rt: &HostRuntime, failure: &Failure) -> io::Result<ExitCode> {
    match failure {
        Failure::Usage(error) => error.print(rt)?,
        Failure::Closed => {}
        _ => eprintln!(rt; "error: {}", failure.text())?,
    }
    Ok(ExitCode::from(failure.status()))
}

fn main(rt: HostRuntime) -> io::Result<ExitCode> {
    match obey(&rt) {
        Ok(()) => Ok(ExitCode::SUCCESS),
        Err(failure) => give_up(&rt, &failure),
    }
}
