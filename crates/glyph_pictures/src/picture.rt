//! All lines as one picture of SVG: their outlines, a bar for each cluster, and a mark where a
//! line may be cut.
//!
//! A line stands below the one before it, and the frame holds the boxes of all that is drawn.
use crate::bands::Character;
use crate::drawing::{Drawing, rounded};
use crate::drawn::{Taken, drawn_line};
use crate::html::push_char;
use crate::look::{Look, Margins};
use glyph_outlines::Outlines;
use shape_buffer::{GlyphBuffer, ShapeError};
use std::alloc::{AllocError, Global};

/// How many pixels wide and high the em square is, where a page doesn't say how large the picture
/// is to be.
pub const PIXELS: f64 = 64.0;

/// The most bytes of the title, but for those of its last character.
const MOST_TITLE: usize = 200;

/// The margins from the one above on clockwise, all so wide if nothing is asked for.
fn sides(asked: &Option<Margins>, else_all: f64) -> [f64; 4] {
    match asked {
        Some(margins) => [
            f64::from(margins.top),
            f64::from(margins.right),
            f64::from(margins.bottom),
            f64::from(margins.left),
        ],
        None => [else_all; 4],
    }
}

/// The colour that is asked for, or this one.
fn colour<'a>(asked: &'a Option<String>, other: &'a str) -> &'a str {
    match asked {
        Some(colour) => colour.as_str(),
        None => other,
    }
}

/// A picture of lines, of which each stands below the one before it.
#[derive(Drop)]
pub struct Picture {
    title: String,
    body: String,
    taken: Taken,
    em: f64,
    left: f64,
    right: f64,
    low: f64,
}

impl Picture {
    /// A picture without a line, for a font with such an em square.
    pub fn new(alloc: Global, units_per_em: u16) -> Picture {
        Picture {
            title: String::new(alloc),
            body: String::new(alloc),
            taken: Taken::NOTHING,
            em: f64::from(units_per_em),
            left: 0.0,
            right: 0.0,
            low: 0.0,
        }
    }

    /// Puts a line of text into the title, as far as there is room.
    fn name(&mut self, text: &[Character]) -> Result<(), AllocError> {
        if !self.title.is_empty() {
            self.title.push(' ')?;
        }
        for character in text {
            if MOST_TITLE <= self.title.len() {
                return Ok(());
            }
            push_char(&mut self.title, character.c)?;
        }
        Ok(())
    }

    /// Adds a line with its glyphs below all others. Refuses if a growth was refused.
    pub fn add(
        &mut self,
        alloc: Global,
        outlines: &Outlines,
        text: &[Character],
        glyphs: &GlyphBuffer,
    ) -> Result<(), ShapeError> {
        self.name(text)?;
        let drawing = drawn_line(alloc, Some(outlines), glyphs, self.em, &mut self.taken)?;
        let least = if glyphs.direction().is_vertical() {
            0.0
        } else {
            self.em * 0.75
        };
        self.put(&drawing, least)?;
        Ok(())
    }

    /// Puts a drawing below all that is there, with a gap between them and at least so much room
    /// above its origin.
    fn put(&mut self, drawing: &Drawing, least: f64) -> Result<(), AllocError> {
        let bounds = drawing.bounds();
        let gap = if self.body.is_empty() {
            0.0
        } else {
            self.em * 0.25
        };
        let base = self.low - gap - bounds.high.max(least);
        self.low = base + bounds.low;
        self.left = self.left.min(bounds.left);
        self.right = self.right.max(bounds.right);
        drawing.append_to(&mut self.body, base)
    }

    /// Writes how large the picture is, in pixels of a page and in its own units, with these
    /// margins.
    fn write_size(&self, out: &mut String, margins: [f64; 4]) -> Result<(), AllocError> {
        let [top, right, bottom, left] = margins;
        let width = self.right - self.left + left + right;
        let height = top + bottom - self.low;
        let scale = PIXELS / self.em;
        let (wide, high) = (rounded(width * scale), rounded(height * scale));
        write!(out, " width=\"{wide}\" height=\"{high}\"")?;
        let (x, y) = (rounded(self.left - left), rounded(0.0 - top));
        let (width, height) = (rounded(width), rounded(height));
        write!(out, " viewBox=\"{x} {y} {width} {height}\"")
    }

    /// The picture as SVG.
    pub fn svg(&self, alloc: Global, look: &Look) -> Result<String, AllocError> {
        let mut out = String::new(alloc);
        out.push_str("<svg xmlns=\"http://www.w3.org/2000/svg\"")?;
        self.write_size(&mut out, sides(&look.margins, self.em * 0.125))?;
        let (paper, ink) = (
            colour(&look.background, "#fff"),
            colour(&look.foreground, "#000"),
        );
        write!(out, " style=\"background:{paper};color:{ink}\">\n")?;
        if !self.title.is_empty() {
            write!(out, "<title>{}</title>\n", self.title.as_str())?;
        }
        out.push_str("<g fill=\"currentColor\" transform=\"scale(1 -1)\">\n")?;
        out.push_str(self.body.as_str())?;
        out.push_str("</g>\n</svg>\n")?;
        Ok(out)
    }
}
