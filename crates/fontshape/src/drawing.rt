//! Lines that are drawn: on a picture of SVG, or on a page of HTML that shows where each glyph
//! comes from.
use crate::failure::Failure;
use crate::line::Line;
use crate::options::{Format, Options};
use crate::written::Font;
use glyph_outlines::Outlines;
use glyph_pictures::{Page, Picture, ShapedLine};
use shape_font::FontFace;
use shape_pipeline::{GlyphBuffer, GlyphPosition, ShapeError, hb_font_t};
use shape_text_forms::NoNames;
use std::alloc::{AllocError, Global};

/// What lines are drawn on.
#[derive(Drop)]
enum Canvas {
    Svg(Picture),
    Html(Page),
}

/// Lines drawn with the outlines of a font.
#[derive(Drop)]
pub struct Drawn<'a> {
    outlines: Outlines<'a>,
    canvas: Canvas,
}

/// What lines are to be drawn on, with outlines at the coordinates of a face; none if they are
/// written. Refuses to draw a font without outlines.
pub fn begin_drawing<'a>(
    alloc: Global,
    options: &Options,
    bytes: &'a [u8],
    face: &FontFace<'a>,
) -> Result<Option<Drawn<'a>>, Failure> {
    let units_per_em = face.units_per_em();
    let canvas = match options.format() {
        Format::Svg => Canvas::Svg(Picture::new(alloc, units_per_em)),
        Format::Html => Canvas::Html(Page::new(alloc, units_per_em, options.typed())?),
        Format::Text | Format::Json => return Ok(None),
    };
    match Outlines::from_slice(bytes, options.face_index()) {
        Some(outlines) => Ok(Some(Drawn {
            outlines: outlines.at(face.coordinates()),
            canvas,
        })),
        None => Err(Failure::file(
            alloc,
            options.font(),
            "no outlines to draw, since it has no table glyf, CFF or CFF2",
        )),
    }
}

/// Draws a line on a page, its glyphs by name if names are written.
fn add_named(
    alloc: Global,
    page: &mut Page,
    outlines: &Outlines,
    font: &Font,
    line: ShapedLine,
) -> Result<(), ShapeError> {
    match font.names() {
        Some(names) => page.add(alloc, Some(outlines), names, line),
        None => page.add(alloc, Some(outlines), &NoNames, line),
    }
}

impl<'a> Drawn<'a> {
    /// Draws a line below all others, on a page with these numbers: its own, or those of the same
    /// line at a size. Refuses if a growth was refused.
    pub fn add(
        &mut self,
        alloc: Global,
        font: &Font,
        line: &Line,
        glyphs: &GlyphBuffer,
        positions: &[GlyphPosition],
    ) -> Result<(), ShapeError> {
        let text = line.characters();
        match &mut self.canvas {
            Canvas::Svg(picture) => picture.add(alloc, &self.outlines, text, glyphs),
            Canvas::Html(page) => {
                let line = ShapedLine {
                    text,
                    glyphs,
                    positions,
                };
                add_named(alloc, page, &self.outlines, font, line)
            }
        }
    }

    /// Adds the steps of the last line's run, if it is drawn on a page. Refuses only if a growth
    /// was refused.
    pub fn add_steps(&mut self, alloc: Global, steps: &str) -> Result<(), AllocError> {
        match &mut self.canvas {
            Canvas::Svg(_) => Ok(()),
            Canvas::Html(page) => page.add_steps(alloc, steps),
        }
    }

    /// The picture or the page. Refuses only if a growth was refused.
    pub fn text(&self, alloc: Global, options: &Options) -> Result<String, AllocError> {
        match &self.canvas {
            Canvas::Svg(picture) => picture.svg(alloc, options.look()),
            Canvas::Html(page) => page.html(alloc),
        }
    }
}
