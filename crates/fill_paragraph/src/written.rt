//! Lines as text: a line for each, one for each of its runs, and one for its carets.
use crate::failure::Failure;
use crate::options::Options;
use line_carets::line_carets;
use paragraph::{Glyph, TextLine, TextRun};
use shape_carets::stops_rise;
use std::alloc::{AllocError, Global};
use unicode_segmentation::UnicodeSegmentation;

/// Appends a glyph as `hb-shape` writes it: number, cluster, offset and advance.
fn write_glyph(out: &mut String, glyph: &Glyph) -> Result<(), AllocError> {
    write!(out, "{}={}", glyph.glyph, glyph.cluster)?;
    if glyph.x_offset != 0 || glyph.y_offset != 0 {
        write!(out, "@{},{}", glyph.x_offset, glyph.y_offset)?;
    }
    write!(out, "+{}", glyph.x_advance)
}

/// Appends a run.
fn write_run(out: &mut String, run: &TextRun) -> Result<(), AllocError> {
    write!(out, "  run {}..{} font {}", run.start, run.end, run.font)?;
    write!(out, " level {} x {} [", run.level, run.x)?;
    let mut first = true;
    for glyph in &run.glyphs {
        if !first {
            out.push('|')?;
        }
        first = false;
        write_glyph(out, glyph)?;
    }
    out.push_str("]\n")
}

/// Appends a line with its runs.
fn write_line(out: &mut String, line: &TextLine) -> Result<(), AllocError> {
    let direction = if line.level % 2 == 0 { "ltr" } else { "rtl" };
    write!(out, "line {}..{} {direction}", line.start, line.end)?;
    write!(out, " width {} ascent {}", line.width, line.ascent)?;
    write!(out, " descent {}\n", line.descent)?;
    for run in &line.runs {
        write_run(out, run)?;
    }
    Ok(())
}

/// Where carets may stand in a line: where its grapheme clusters begin.
fn stops_of(alloc: Global, text: &str, line: &TextLine) -> Result<Vec<u32>, AllocError> {
    let mut stops = Vec::new(alloc);
    let inside = text.get(line.start..line.end).unwrap_or("");
    for (at, _) in inside.grapheme_indices(true) {
        let stop = line.start.saturating_add(at);
        stops.push(u32::try_from(stop).unwrap_or(u32::MAX))?;
    }
    Ok(stops)
}

/// Appends the carets of a line, each the byte before which it stands and its place.
fn write_carets(
    alloc: Global,
    out: &mut String,
    text: &str,
    line: &TextLine,
) -> Result<(), Failure> {
    let stops = stops_of(alloc, text, line)?;
    if !stops_rise(&stops) {
        return Ok(());
    }
    out.push_str("  carets")?;
    for caret in &line_carets(alloc, line, &stops)? {
        write!(out, " {}@{}", caret.offset, caret.x)?;
    }
    Ok(out.push('\n')?)
}

/// The lines of a text, as text.
pub fn written(
    alloc: Global,
    options: &Options,
    text: &str,
    lines: &[TextLine],
) -> Result<String, Failure> {
    let mut out = String::new(alloc);
    for line in lines {
        write_line(&mut out, line)?;
        if options.carets() {
            write_carets(alloc, &mut out, text, line)?;
        }
    }
    Ok(out)
}
