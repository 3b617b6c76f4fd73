//! Lines as a picture: the outlines of their glyphs, and below each run a bar in the colour of its
//! font, with a tick where its text begins.
//!
//! [`page`](crate::page) says where the lines stand. Numbers are written in tenths of a unit, y
//! downwards. A picture is made of at most [`MOST_POINTS`] points and those of one glyph, and has
//! at most [`MOST_BYTES`] bytes and those of one glyph: glyphs that would follow are left out.
use crate::FontFile;
use crate::failure::Failure;
use crate::options::Options;
use crate::page::{Page, Pen};
use glyph_outlines::{Outlines, Point, Segment};
use opentype_layout::OpenedOpenTypeFace;
use paragraph::{Glyph, TextLine, TextRun};
use shape_buffer::hb_font_t;
use std::alloc::{AllocError, Global};
use std::num::saturating_f64_to_i64;

/// The most bytes of a picture, except for those of its last glyph.
const MOST_BYTES: usize = 16_000_000;

/// The most points, contours and components that are read for a picture, except for those of its
/// last glyph.
const MOST_POINTS: u32 = 3_200_000;

/// The most segments of a glyph that are drawn.
const MOST_SEGMENTS: usize = 100_000;

/// Coordinates of outlines stay below this.
const FARTHEST: f64 = 1_000_000.0;

/// The colours of the bars of fonts, in turn.
const COLOURS: [&str; 4] = ["#39c", "#c63", "#693", "#939"];

/// A font as it is drawn: its outlines, if it has any, and what they are multiplied by.
#[derive(Drop)]
struct DrawnFont<'a> {
    outlines: Option<Outlines<'a>>,
    scale: f64,
}

/// Whether a font shows glyphs of a line.
fn shows_of(line: &TextLine, font: usize) -> bool {
    for run in &line.runs {
        if run.font == font && !run.glyphs.is_empty() {
            return true;
        }
    }
    false
}

/// Whether a font shows glyphs of some lines.
fn shows(lines: &[TextLine], font: usize) -> bool {
    for line in lines {
        if shows_of(line, font) {
            return true;
        }
    }
    false
}

/// Refuses to draw lines with glyphs of a font that has no outlines.
fn need_outlines(
    alloc: Global,
    options: &Options,
    fonts: &[DrawnFont<'_>],
    lines: &[TextLine],
) -> Result<(), Failure> {
    for (number, (name, font)) in options.fonts().iter().zip(fonts).enumerate() {
        if font.outlines.is_none() && shows(lines, number) {
            return Err(Failure::file(
                alloc,
                name.as_str(),
                "no outlines to draw, since it has no table glyf, CFF or CFF2",
            ));
        }
    }
    Ok(())
}

/// The fonts of a list for an em square of this size.
fn drawn_fonts<'a>(
    alloc: Global,
    files: &'a [FontFile],
    fonts: &[OpenedOpenTypeFace<'_>],
    size: u32,
) -> Result<Vec<DrawnFont<'a>>, AllocError> {
    let mut drawn = Vec::new(alloc);
    for (file, font) in files.iter().zip(fonts) {
        let outlines = match Outlines::from_slice(&file.bytes, 0) {
            Some(outlines) => Some(outlines.at(file.coordinates.as_slice())),
            None => None,
        };
        drawn.push(DrawnFont {
            outlines,
            scale: f64::from(size) / f64::from(font.units_per_em()),
        })?;
    }
    Ok(drawn)
}

/// A coordinate in tenths of a unit, halves upwards; one that is none, or too far, is put near.
fn tenths(x: f64) -> i64 {
    let near = if x.is_nan() {
        0.0
    } else {
        x.max(-FARTHEST).min(FARTHEST)
    };
    saturating_f64_to_i64((near * 10.0 + 0.5).floor())
}

/// What is drawn so far, and how many points were read for it.
#[derive(Drop)]
struct Canvas {
    out: String,
    points: u32,
}

impl Canvas {
    /// Whether there is room for another glyph.
    fn has_room(&self) -> bool {
        self.points < MOST_POINTS && self.out.len() < MOST_BYTES
    }

    /// Appends a letter and a point of an outline.
    fn point(&mut self, letter: char, point: Point, scale: f64) -> Result<(), AllocError> {
        let (x, y) = (
            tenths(point.x * scale),
            tenths(point.y * scale).wrapping_neg(),
        );
        write!(self.out, "{letter}{x} {y}")
    }

    /// Appends a step of an outline.
    fn segment(&mut self, segment: Segment, scale: f64) -> Result<(), AllocError> {
        match segment {
            Segment::Move(point) => self.point('M', point, scale),
            Segment::Line(point) => self.point('L', point, scale),
            Segment::Curve(round, point) => {
                self.point('Q', round, scale)?;
                self.point(' ', point, scale)
            }
            Segment::Cubic(first, second, point) => {
                self.point('C', first, scale)?;
                self.point(' ', second, scale)?;
                self.point(' ', point, scale)
            }
            Segment::Close => self.out.push('Z'),
        }
    }

    /// Draws a glyph of a font for the pen at a place, if the font has outlines.
    fn glyph(
        &mut self,
        alloc: Global,
        font: &DrawnFont<'_>,
        glyph: &Glyph,
        pen: Pen,
    ) -> Result<(), AllocError> {
        let (Some(outlines), Ok(number)) = (&font.outlines, u16::try_from(glyph.glyph)) else {
            return Ok(());
        };
        let outline = outlines.outline(alloc, number, MOST_SEGMENTS)?;
        self.points = self.points.saturating_add(outline.points());
        if outline.segments().is_empty() {
            return Ok(());
        }
        let at = pen.moved(glyph.x_offset, glyph.y_offset);
        write!(
            self.out,
            "<path class=\"glyph\" data-glyph=\"{number}\" data-cluster=\"{}\"",
            glyph.cluster
        )?;
        write!(self.out, " transform=\"translate({} {})\" d=\"", at.x, at.y)?;
        for segment in outline.segments() {
            self.segment(*segment, font.scale)?;
        }
        self.out.push_str("\"/>\n")
    }

    /// Draws the glyphs of a run for the pen at a place. Returns where they leave it.
    fn glyphs(
        &mut self,
        alloc: Global,
        font: Option<&DrawnFont<'_>>,
        run: &TextRun,
        from: Pen,
    ) -> Result<Pen, AllocError> {
        let mut pen = from;
        for glyph in &run.glyphs {
            if let (Some(font), true) = (font, self.has_room()) {
                self.glyph(alloc, font, glyph, pen)?;
            }
            pen = pen.moved(glyph.x_advance, glyph.y_advance);
        }
        Ok(pen)
    }

    /// Draws the bar of a run, so far below the baseline, with a tick of this length where its
    /// text begins.
    fn bar(
        &mut self,
        run: &TextRun,
        from: Pen,
        to: Pen,
        low: i64,
        tick: i64,
    ) -> Result<(), AllocError> {
        let colour = COLOURS[run.font % COLOURS.len()];
        let first = if run.level % 2 == 1 { to.x } else { from.x };
        let y = from.y.saturating_add(low);
        let (high, deep) = (y.saturating_sub(tick), y.saturating_add(tick));
        write!(
            self.out,
            "<path class=\"run\" data-start=\"{}\" data-end=\"{}\" data-font=\"{}\"",
            run.start, run.end, run.font
        )?;
        write!(
            self.out,
            " data-level=\"{}\" stroke=\"{colour}\"",
            run.level
        )?;
        write!(
            self.out,
            " d=\"M{} {y}L{} {y}M{first} {high}L{first} {deep}\"/>\n",
            from.x, to.x
        )
    }

    /// Draws a line whose pen begins at a place. Runs without glyphs have no bar.
    fn line(
        &mut self,
        alloc: Global,
        fonts: &[DrawnFont<'_>],
        line: &TextLine,
        start: Pen,
        page: &Page,
    ) -> Result<(), AllocError> {
        for run in &line.runs {
            let from = start.along(run.x);
            let to = self.glyphs(alloc, fonts.get(run.font), run, from)?;
            if !run.glyphs.is_empty() {
                self.bar(run, from, to, page.low_of(line), page.tick())?;
            }
        }
        Ok(())
    }
}

/// The lines of a paragraph as a picture in SVG. Refuses to draw glyphs of a font without outlines.
pub fn picture(
    alloc: Global,
    options: &Options,
    files: &[FontFile],
    fonts: &[OpenedOpenTypeFace<'_>],
    lines: &[TextLine],
) -> Result<String, Failure> {
    let size = match (options.size(), fonts.first()) {
        (Some(size), _) => size,
        (None, Some(font)) => u32::from(font.units_per_em()),
        (None, None) => 0,
    };
    let fonts = drawn_fonts(alloc, files, fonts, size)?;
    need_outlines(alloc, options, &fonts, lines)?;
    let page = Page::new(size, options.width(), lines);
    let mut canvas = Canvas {
        out: page.head(alloc, lines)?,
        points: 0,
    };
    let mut top: i64 = 0;
    for line in lines {
        canvas.line(alloc, &fonts, line, page.start_of(line, top), &page)?;
        top = top.saturating_add(page.height_of(line));
    }
    canvas.out.push_str("</g>\n</svg>\n")?;
    Ok(canvas.out)
}
