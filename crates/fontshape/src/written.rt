//! What is written of a line.
use crate::failure::Failure;
use crate::glyphs::Glyphs;
use crate::line::Line;
use crate::options::{Format, Options};
use crate::output::{Output, sink};
use shape_font::FontFace;
use shape_pipeline::{GlyphBuffer, GlyphPosition, hb_font_t, hb_glyph_info_t};
use shape_text_forms::{
    Content, ListForm, NoNames, OpenedNames, SerializeFlags, Spot, append_part, glyph_names,
};
use std::alloc::{AllocError, Global};
use std::io::Write;

/// How many glyphs are written at once: with the names of a hostile font each may take a thousand
/// bytes.
const PART: usize = 256;

/// The font of what is written: its face, and the names of its glyphs if they are written.
#[derive(Drop)]
pub struct Font<'a> {
    pub face: FontFace<'a>,
    names: Option<OpenedNames<'a>>,
}

impl<'a> Font<'a> {
    /// Opens the names of a face, once for all lines, if the options ask for them.
    pub fn new(
        alloc: Global,
        options: &Options,
        face: FontFace<'a>,
    ) -> Result<Font<'a>, AllocError> {
        let numbers = options.form().asks(SerializeFlags::NO_GLYPH_NAMES);
        let unwritten = options.format() == Format::Svg && !options.traced();
        let names = if numbers || unwritten {
            None
        } else {
            Some(OpenedNames::new(alloc, face)?)
        };
        Ok(Font { face, names })
    }

    /// The names of its glyphs, none if they aren't written.
    pub fn names(&self) -> Option<&OpenedNames<'a>> {
        self.names.as_ref()
    }
}

/// The characters of a line with their clusters, as `<U+0041=0|U+0042=1>`.
fn unicode_text(alloc: Global, line: &Line) -> Result<String, AllocError> {
    let mut out = String::new(alloc);
    let mut separator = '<';
    for character in line.characters() {
        let (number, cluster) = (u32::from(character.c), character.cluster);
        write!(out, "{separator}U+{number:04X}={cluster}")?;
        separator = '|';
    }
    if !out.is_empty() {
        out.push('>')?;
    }
    Ok(out)
}

/// How a list of glyphs is written.
#[derive(Clone, Copy)]
pub struct Style {
    form: ListForm,
    flags: SerializeFlags,
}

impl Style {
    /// As the options ask.
    pub fn new(options: &Options) -> Style {
        let form = match options.format() {
            Format::Json => ListForm::Json,
            _ => ListForm::Text,
        };
        Style {
            form,
            flags: options.form(),
        }
    }

    /// The same without positions, for a list whose glyphs have none.
    pub fn unplaced(self) -> Style {
        Style {
            form: self.form,
            flags: SerializeFlags(self.flags.0 | SerializeFlags::NO_POSITIONS),
        }
    }
}

/// Writes a part of a list of glyphs. Returns where the next part begins.
fn write_part<S: sink, F: hb_font_t, N: glyph_names>(
    alloc: Global,
    output: &mut S,
    content: &Content<'_, F, N>,
    spot: Spot,
    infos: &[hb_glyph_info_t],
    positions: &[GlyphPosition],
) -> Result<Spot, Failure> {
    if positions.len() != infos.len() {
        return Ok(spot);
    }
    let mut part = String::new(alloc);
    let spot = append_part(alloc, &mut part, content, spot, infos, positions)?;
    output.put(alloc, part.as_str())?;
    Ok(spot)
}

/// Writes a list of glyphs part by part; nothing for no glyphs.
fn write_list<S: sink, F: hb_font_t, N: glyph_names>(
    alloc: Global,
    output: &mut S,
    content: &Content<'_, F, N>,
    infos: &[hb_glyph_info_t],
    positions: &[GlyphPosition],
) -> Result<(), Failure> {
    if infos.is_empty() || positions.len() != infos.len() {
        return Ok(());
    }
    let mut spot = Spot::START;
    for (infos, positions) in infos.chunks(PART).zip(positions.chunks(PART)) {
        spot = write_part(alloc, output, content, spot, infos, positions)?;
    }
    output.put(alloc, "]")
}

/// Writes a list of glyphs with these names.
fn write_named<S: sink, N: glyph_names>(
    alloc: Global,
    output: &mut S,
    face: &FontFace,
    names: &N,
    style: Style,
    glyphs: Glyphs,
) -> Result<(), Failure> {
    let content = Content {
        form: style.form,
        flags: style.flags,
        face,
        names,
    };
    write_list(alloc, output, &content, glyphs.infos, glyphs.positions)
}

/// Writes a list of glyphs, by name if names are written.
pub fn write_glyphs<S: sink>(
    alloc: Global,
    output: &mut S,
    font: &Font,
    style: Style,
    glyphs: Glyphs,
) -> Result<(), Failure> {
    match &font.names {
        Some(names) => write_named(alloc, output, &font.face, names, style, glyphs),
        None => write_named(alloc, output, &font.face, &NoNames, style, glyphs),
    }
}

/// Writes the number of a line, if numbers are asked for.
pub fn write_number<S: sink>(
    alloc: Global,
    output: &mut S,
    options: &Options,
    number: usize,
) -> Result<(), Failure> {
    if !options.shown().line_num {
        return Ok(());
    }
    let number = format!(in alloc; "{number}: ")?;
    output.put(alloc, number.as_str())
}

/// A line as it came: its bytes, its number, counted from 1, and its characters.
#[derive(Clone, Copy)]
pub struct Given<'a> {
    pub text: &'a [u8],
    pub number: usize,
    pub line: &'a Line,
}

/// Writes what is asked for of a line before its glyphs: its text, and its characters.
fn write_given<W: Write + Drop>(
    alloc: Global,
    output: &mut Output<W>,
    options: &Options,
    given: Given,
) -> Result<(), Failure> {
    if options.shown().text {
        write_number(alloc, output, options, given.number)?;
        output.write(alloc, b"(")?;
        output.write(alloc, given.text)?;
        output.write(alloc, b")\n")?;
    }
    if options.shown().unicode {
        write_number(alloc, output, options, given.number)?;
        let characters = unicode_text(alloc, given.line)?;
        output.write(alloc, characters.as_bytes())?;
        output.write(alloc, b"\n")?;
    }
    Ok(())
}

/// Writes a line: its text and its characters, if they are asked for, and its glyphs.
pub fn write_line<W: Write + Drop>(
    alloc: Global,
    output: &mut Output<W>,
    options: &Options,
    font: &Font,
    given: Given,
    glyphs: &GlyphBuffer,
) -> Result<(), Failure> {
    write_given(alloc, output, options, given)?;
    write_number(alloc, output, options, given.number)?;
    let glyphs = Glyphs::of_line(glyphs);
    write_glyphs(alloc, output, font, Style::new(options), glyphs)?;
    output.write(alloc, b"\n")
}
