//! Shapes texts with a font file, and writes the glyphs as `hb-shape` does.
//!
//! [`command`] says which arguments there are, [`options`], [`values`] and [`forms`] what they ask
//! for; [`line`] reads a line, [`shaping`] shapes it with one of the [`faces`] of a [`size`], or
//! [`fallback`], [`written`] writes it to an [`output`], and [`drawing`] draws it. A [`trace`] has
//! what its run makes of it step by step. [`axes`] lists the axes of a variable font, and
//! [`warnings`] say what a font doesn't have that is asked for.
#![tactic(auto)]
#![allow(non_camel_case_types)]

mod axes;
mod command;
mod drawing;
mod faces;
mod failure;
mod fallback;
mod forms;
mod glyphs;
mod line;
mod options;
mod output;
mod shaping;
mod size;
mod trace;
mod typed;
mod unicodes;
mod values;
mod warnings;
mod written;

use crate::axes::list_axes;
use crate::command::command;
use crate::drawing::{Drawn, begin_drawing};
use crate::faces::{Faces, Plain, at_size, faces_over, plain_faces, unplanned};
use crate::failure::Failure;
use crate::line::Line;
use crate::options::{Options, Source};
use crate::output::Output;
use crate::shaping::{Planned, shaped, traced};
use crate::trace::Trace;
use crate::warnings::{warn_of_boxes, warn_of_unvaried};
use crate::written::{Font, Given, write_line};
use shape_font::FontFace;
use shape_font::instance::coordinates_of;
use shape_pipeline::{GlyphBuffer, ShapeError, hb_font_t};
use std::alloc::Global;
use std::env::{Env, FillError};
use std::fs::File;
use std::io::{BufRead, BufReader, Read, Write};
use std::process::ExitCode;
use std::{env, fs, io};

/// What is said of standard input, output and error.
const INPUT: &str = "standard input";

const OUTPUT: &str = "standard output";

const ERRORS: &str = "standard error";

/// The glyphs of a line, and the trace of its run, empty if none is asked for.
#[derive(Drop)]
struct LineGlyphs {
    glyphs: GlyphBuffer,
    steps: String,
}

/// The program at work: what it shapes with, and what it draws on or writes to.
#[derive(Drop)]
struct Work<'a, W: Write + Drop> {
    options: &'a Options,
    font: Font<'a>,
    planned: Option<Planned<'a>>,
    plain: Option<Plain<'a>>,
    drawn: Option<Drawn<'a>>,
    output: Output<'a, W>,
}

impl<'a, W: Write + Drop> Work<'a, W> {
    /// Shapes a line, and writes the trace of its run to standard error, also if the line is
    /// refused.
    fn shape_traced(
        &self,
        rt: &HostRuntime,
        line: &Line,
        number: usize,
    ) -> Result<LineGlyphs, Failure> {
        let alloc = rt.alloc();
        let trace = Trace::new(alloc, self.options, &self.font, number);
        let planned = self.planned.as_ref();
        let done = traced(alloc, self.options, &self.font.face, planned, &trace, line);
        let text = trace.into_text()?;
        match eprint!(rt; "{text}") {
            Ok(()) => {}
            Err(error) => return Err(Failure::io(alloc, ERRORS, error)),
        }
        match done {
            Ok(glyphs) => Ok(LineGlyphs {
                glyphs,
                steps: text,
            }),
            Err(error) => Err(Failure::line(alloc, number, error)),
        }
    }

    /// Shapes a line as the options ask.
    fn shape(
        &mut self,
        rt: &HostRuntime,
        line: &Line,
        number: usize,
    ) -> Result<LineGlyphs, Failure> {
        if self.options.traced() {
            return self.shape_traced(rt, line, number);
        }
        let alloc = rt.alloc();
        let planned = self.planned.as_mut();
        match shaped(alloc, self.options, &self.font.face, planned, line) {
            Ok(glyphs) => Ok(LineGlyphs {
                glyphs,
                steps: String::new(alloc),
            }),
            Err(error) => Err(Failure::line(alloc, number, error)),
        }
    }

    /// Draws a line, in the units of the font, with these glyphs and numbers. Returns whether lines
    /// are drawn.
    fn draw(
        &mut self,
        alloc: Global,
        line: &Line,
        glyphs: &GlyphBuffer,
        steps: &str,
    ) -> Result<bool, ShapeError> {
        let Some(drawn) = &mut self.drawn else {
            return Ok(false);
        };
        let positions = glyphs.glyph_positions();
        match &mut self.plain {
            Some(plain) => {
                let own = plain.shaped(alloc, self.options, line)?;
                drawn.add(alloc, &self.font, line, &own, positions)?;
            }
            None => drawn.add(alloc, &self.font, line, glyphs, positions)?,
        }
        drawn.add_steps(alloc, steps)?;
        Ok(true)
    }

    /// Shapes a line, and draws it or writes it.
    fn take_line(&mut self, rt: &HostRuntime, text: &[u8], number: usize) -> Result<(), Failure> {
        let alloc = rt.alloc();
        let line = Line::new(alloc, text, self.options.utf8_clusters())?;
        let LineGlyphs { glyphs, steps } = self.shape(rt, &line, number)?;
        match self.draw(alloc, &line, &glyphs, steps.as_str()) {
            Ok(true) => return Ok(()),
            Ok(false) => {}
            Err(error) => return Err(Failure::line(alloc, number, error)),
        }
        let given = Given {
            text,
            number,
            line: &line,
        };
        write_line(
            alloc,
            &mut self.output,
            self.options,
            &self.font,
            given,
            &glyphs,
        )
    }

    /// Takes each line of a reader.
    fn take_lines<R: BufRead + Drop>(
        &mut self,
        rt: &HostRuntime,
        reader: R,
        name: &str,
    ) -> Result<(), Failure> {
        let alloc = rt.alloc();
        let mut number: usize = 0;
        for line in reader.split(alloc, b'\n') {
            number = number.saturating_add(1);
            match line {
                Ok(text) => self.take_line(rt, text.as_slice(), number)?,
                Err(error) => return Err(Failure::io(alloc, name, error)),
            }
        }
        Ok(())
    }

    /// Takes all that a reader gives as one text, if there is anything.
    fn take_whole<R: BufRead + Drop>(
        &mut self,
        rt: &HostRuntime,
        reader: R,
        name: &str,
    ) -> Result<(), Failure> {
        let alloc = rt.alloc();
        let mut reader = reader;
        let mut text = Vec::new(alloc);
        match reader.read_to_end(&mut text) {
            Ok(0) => Ok(()),
            Ok(_) => self.take_line(rt, text.as_slice(), 1),
            Err(error) => Err(Failure::io(alloc, name, error)),
        }
    }

    /// Takes what a reader gives, as the options ask.
    fn take<R: BufRead + Drop>(
        &mut self,
        rt: &HostRuntime,
        reader: R,
        name: &str,
    ) -> Result<(), Failure> {
        if self.options.single_par() {
            self.take_whole(rt, reader, name)
        } else {
            self.take_lines(rt, reader, name)
        }
    }

    /// Takes each line of the texts that the options name.
    fn take_source(&mut self, rt: &HostRuntime) -> Result<(), Failure> {
        let alloc = rt.alloc();
        match self.options.source() {
            Source::Given(text) => self.take(rt, text.as_bytes(), INPUT),
            Source::File(name) => match File::open(rt, name.as_str()) {
                Ok(file) => {
                    let reader = buffered(alloc, file)?;
                    self.take(rt, reader, name.as_str())
                }
                Err(error) => Err(Failure::io(alloc, name.as_str(), error)),
            },
            Source::Input => {
                let reader = buffered(alloc, rt.reader())?;
                self.take(rt, reader, INPUT)
            }
        }
    }

    /// Takes all lines, and writes what was drawn of them.
    fn take_all(&mut self, rt: &HostRuntime) -> Result<(), Failure> {
        let alloc = rt.alloc();
        self.take_source(rt)?;
        if let Some(drawn) = &self.drawn {
            let text = drawn.text(alloc, self.options)?;
            self.output.write(alloc, text.as_bytes())?;
        }
        Ok(())
    }

    /// Takes all lines, and hands on what is written, also what stands before a failure.
    fn run(&mut self, rt: &HostRuntime) -> Result<(), Failure> {
        let done = self.take_all(rt);
        match self.output.flush(rt.alloc()) {
            Ok(()) => done,
            Err(failure) => Err(failure),
        }
    }
}

/// A reader with a buffer.
fn buffered<R: Read + Drop>(alloc: Global, reader: R) -> Result<BufReader<R>, Failure> {
    match BufReader::new(alloc, reader) {
        Ok(reader) => Ok(reader),
        Err(_) => Err(Failure::Memory),
    }
}

/// Takes all lines with these faces, and draws them with those at no size.
fn run_over<'a, W: Write + Drop>(
    rt: &HostRuntime,
    options: &'a Options,
    sized: &'a Faces<'a>,
    own: Option<&'a Faces<'a>>,
    drawn: Option<Drawn<'a>>,
    output: Output<'a, W>,
) -> Result<(), Failure> {
    let alloc = rt.alloc();
    let mut work = Work {
        options,
        font: Font::new(alloc, options, sized.face)?,
        planned: sized.opened.as_ref().map(Planned::new),
        plain: own.map(unplanned),
        drawn,
        output,
    };
    work.run(rt)
}

/// Shapes with the font of a file, for this writer.
fn run_to<W: Write + Drop>(
    rt: &HostRuntime,
    options: &Options,
    bytes: &[u8],
    writer: W,
) -> Result<(), Failure> {
    let alloc = rt.alloc();
    let index = options.face_index();
    let Some(face) = FontFace::from_slice(bytes, index) else {
        return Err(Failure::no_font(alloc, options.font(), bytes, index));
    };
    let output = Output::new(alloc, options.output().unwrap_or(OUTPUT), writer)?;
    if options.lists_axes() {
        return list_axes(alloc, options, bytes, output);
    }
    let coordinates = coordinates_of(alloc, bytes, index, &options.wanted())?;
    let face = face.at(coordinates.as_slice()).at_points(options.points());
    let drawn = begin_drawing(alloc, options, bytes, &face)?;
    warn_of_boxes(rt, options, bytes)?;
    warn_of_unvaried(rt, options, bytes, coordinates.as_slice())?;
    let sized = faces_over(alloc, options, at_size(options, face))?;
    let own = plain_faces(alloc, options, face, drawn.is_some())?;
    run_over(rt, options, &sized, own.as_ref(), drawn, output)
}

/// Shapes with the font of a file.
fn run(rt: &HostRuntime, options: &Options, bytes: &[u8]) -> Result<(), Failure> {
    match options.output() {
        Some(name) => match File::create(rt, name) {
            Ok(file) => run_to(rt, options, bytes, file),
            Err(error) => Err(Failure::io(rt.alloc(), name, error)),
        },
        None => run_to(rt, options, bytes, io::writer(rt)),
    }
}

/// The most bytes of an argument that is looked at.
const LONGEST: usize = 4096;

/// The argument that isn't UTF-8, and its byte from which on it isn't, both counted from 1; none if
/// it isn't found.
fn malformed(rt: &HostRuntime) -> Option<(usize, usize)> {
    let mut bytes = [0u8; LONGEST];
    for number in 1..usize::MAX {
        let len = match rt.arg(number, &mut bytes) {
            Ok(len) => len,
            Err(FillError::TooLong) => continue,
            Err(FillError::NotPresent) => return None,
        };
        if let Err(error) = str::from_utf8(bytes.get(..len).unwrap_or(&[])) {
            return Some((number, error.valid_up_to().saturating_add(1)));
        }
    }
    None
}

/// Why the arguments can't be read.
fn unreadable(rt: &HostRuntime, error: io::Error) -> Failure {
    match malformed(rt) {
        Some((number, at)) => Failure::malformed(rt.alloc(), number, at),
        None => Failure::io(rt.alloc(), "the arguments", error),
    }
}

/// Reads the arguments and does what they ask.
fn obey(rt: &HostRuntime) -> Result<(), Failure> {
    let alloc = rt.alloc();
    let words = match env::args(rt) {
        Ok(words) => words,
        Err(error) => return Err(unreadable(rt, error)),
    };
    let words: Vec<String> = words.collect(alloc)?;
    let matches = match command(alloc)?.try_get_matches_from(words.as_slice()) {
        Ok(matches) => matches,
        Err(error) => return Err(Failure::from(error)),
    };
    let options = Options::new(alloc, &matches, words.as_slice())?;
    match fs::read(rt, options.font()) {
        Ok(bytes) => run(rt, &options, bytes.as_slice()),
        Err(error) => Err(Failure::io(alloc, options.font(), error)),
    }
}

/// Says why the program gives up, and gives the status that it ends with.
fn give_up(rt: &HostRuntime, failure: &Failure) -> io::Result<ExitCode> {
    match failure {
        Failure::Usage(error) => error.print(rt)?,
        Failure::Closed => {}
        _ => eprintln!(rt; "error: {}", failure.text())?,
    }
    Ok(ExitCode::from(failure.status()))
}

fn main(rt: HostRuntime) -> io::Result<ExitCode> {
    match obey(&rt) {
        Ok(()) => Ok(ExitCode::SUCCESS),
        Err(failure) => give_up(&rt, &failure),
    }
}
