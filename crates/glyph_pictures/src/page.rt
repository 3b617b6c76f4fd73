//! All lines as one page of HTML, which stands alone: no server, no network, no other file.
//!
//! Each line has its text in bands, its picture and the table of its glyphs. A pointer or the
//! keyboard on one of them marks the others, and shows the glyph's row below. The steps of a line's
//! run may follow, of which the page shows one at a time. A page has at most
//! [`MOST_PAGE`] bytes: a line that would pass them is left out, with all that follow, and the
//! page says so.
ghost use Rattle.std.specs.Prelude.{◌≡◌, ◌≤◌, IfOk, length, string_bytes};

use crate::bands::{Character, bands};
use crate::drawing::{Bounds, Drawing, rounded};
use crate::drawn::{Taken, drawn_line};
use crate::html::push_html;
use crate::parts::{CUT, HEAD, SCRIPT, STYLE};
use crate::picture::PIXELS;
use crate::rows::Table;
use crate::sheet::Sheet;
use crate::spots::spots;
use crate::steps::{self, entries};
use glyph_outlines::Outlines;
use shape_buffer::{Direction, GlyphBuffer, GlyphPosition, ShapeError};
use shape_text_forms::glyph_names;
use std::alloc::{AllocError, Global};

/// The most bytes of a page.
pub const MOST_PAGE: usize = 32_000_000;

/// The most of them before its end.
const MOST_LINES: usize = 31_999_900;

/// A line as it was shaped: its characters, its glyphs, and the numbers that are written of them.
#[derive(Clone, Copy)]
pub struct ShapedLine<'a> {
    pub text: &'a [Character],
    pub glyphs: &'a GlyphBuffer,
    pub positions: &'a [GlyphPosition],
}

/// A direction as it is written.
fn word(direction: Direction) -> &'static str {
    match direction {
        Direction::RightToLeft => "rtl",
        Direction::TopToBottom => "ttb",
        Direction::BottomToTop => "btt",
        _ => "ltr",
    }
}

/// Appends the line that the pen moves along, and where it starts.
fn push_pen(out: &mut String, bounds: &Bounds, down: bool, em: f64) -> Result<(), AllocError> {
    if down {
        let (low, high) = (rounded(bounds.low), rounded(bounds.high));
        write!(out, "<path class=\"baseline\" d=\"M0 {low}V{high}\"/>\n")?;
    } else {
        let (left, right) = (rounded(bounds.left), rounded(bounds.right));
        write!(out, "<path class=\"baseline\" d=\"M{left} 0H{right}\"/>\n")?;
    }
    let size = rounded(em * 0.03);
    write!(out, "<circle class=\"pen\" r=\"{size}\"/>\n")
}

/// Appends what begins a picture that holds these bounds, with y upwards.
fn push_frame(out: &mut String, bounds: &Bounds, em: f64) -> Result<(), AllocError> {
    let margin = em * 0.125;
    let (width, height) = (
        bounds.right - bounds.left + margin + margin,
        bounds.high - bounds.low + margin + margin,
    );
    let scale = PIXELS / em;
    let (wide, high) = (rounded(width * scale), rounded(height * scale));
    write!(out, "<figure><svg width=\"{wide}\" height=\"{high}\"")?;
    let (x, y) = (
        rounded(bounds.left - margin),
        rounded(0.0 - bounds.high - margin),
    );
    let (width, height) = (rounded(width), rounded(height));
    write!(out, " viewBox=\"{x} {y} {width} {height}\">\n")?;
    out.push_str("<g fill=\"currentColor\" transform=\"scale(1 -1)\">\n")
}

/// A page of lines, each below the one before it.
#[derive(Drop)]
pub struct Page {
    sheet: Sheet,
    em: f64,
    taken: Taken,
    lines: u64,
    ghost within: { sheet.most ≡ 31_999_900 },
}

impl Page {
    /// A page without a line, for a font with such an em square, with the command that makes it
    /// at its head.
    pub fn new(alloc: Global, units_per_em: u16, command: &str) -> Result<Page, AllocError> {
        let mut sheet = Sheet::new(alloc, MOST_LINES);
        sheet.put(HEAD)?;
        sheet.put(STYLE)?;
        sheet.put(SCRIPT)?;
        let mut head = String::new(alloc);
        head.push_str("<body><output id=\"shown\"></output><header><h1>fontshape</h1><code>")?;
        push_html(&mut head, command)?;
        head.push_str("</code></header><main>\n")?;
        sheet.put(head.as_str())?;
        Ok(Page {
            sheet,
            em: f64::from(units_per_em),
            taken: Taken::NOTHING,
            lines: 0,
        })
    }

    /// Appends the picture of a line.
    fn push_picture(
        &self,
        alloc: Global,
        out: &mut String,
        drawing: &Drawing,
        glyphs: &GlyphBuffer,
    ) -> Result<(), AllocError> {
        let em = self.em;
        push_frame(out, drawing.bounds(), em)?;
        push_pen(out, drawing.bounds(), glyphs.direction().is_vertical(), em)?;
        drawing.append_to(out, 0.0)?;
        let spots = spots(alloc, drawing, glyphs, em)?;
        out.push_str(spots.text())?;
        out.push_str("</g>\n</svg></figure>\n")
    }

    /// Appends a line's heading, and its text in bands.
    fn push_text<N: glyph_names>(
        &self,
        alloc: Global,
        out: &mut String,
        table: &Table<N>,
        direction: Direction,
    ) -> Result<(), AllocError> {
        let (number, word) = (self.lines, word(direction));
        write!(out, "<section><h2>{number} <small>{word}</small></h2>\n")?;
        let way = if direction == Direction::RightToLeft {
            "rtl"
        } else {
            "ltr"
        };
        write!(out, "<p class=\"text\" dir=\"{way}\">")?;
        let banded = table.banded(alloc)?;
        out.push_str(banded.text())?;
        out.push_str("</p>\n")
    }

    /// Adds a line below all others, drawn with these outlines, its glyphs by these names.
    /// Refuses if a growth was refused.
    pub fn add<N: glyph_names>(
        &mut self,
        alloc: Global,
        outlines: Option<&Outlines>,
        names: &N,
        line: ShapedLine,
    ) -> Result<(), ShapeError> {
        self.lines = self.lines.saturating_add(1);
        if self.sheet.is_full() {
            return Ok(());
        }
        let glyphs = line.glyphs;
        let bands = bands(alloc, line.text, glyphs)?;
        let table = Table {
            names,
            text: line.text,
            bands: bands.as_slice(),
        };
        let mut out = String::new(alloc);
        self.push_text(alloc, &mut out, &table, glyphs.direction())?;
        let drawing = drawn_line(alloc, outlines, glyphs, self.em, &mut self.taken)?;
        self.push_picture(alloc, &mut out, &drawing, glyphs)?;
        let rows = table.rows(alloc, glyphs.glyph_infos(), line.positions)?;
        out.push_str(rows.text())?;
        out.push_str("</tbody></table></section>\n")?;
        self.sheet.put(out.as_str())?;
        Ok(())
    }

    /// Adds what the run of the last line made of its list, a line of this text for each step;
    /// nothing if there is none. Refuses if a growth was refused.
    pub fn add_steps(&mut self, alloc: Global, steps: &str) -> Result<(), AllocError> {
        if steps.is_empty() || self.sheet.is_full() {
            return Ok(());
        }
        let mut out = String::from_str(alloc, steps::BEGIN)?;
        out.push_str(entries(alloc, steps)?.as_str())?;
        out.push_str(steps::END)?;
        self.sheet.put(out.as_str())
    }

    /// The page. Refuses only if a growth was refused.
    pub fn html(&self, alloc: Global) -> Result<String, AllocError>
        ensures bounded { IfOk result (λ html. length (string_bytes html) ≤ 32_000_000) }
    {
        let mut out = String::from_str(alloc, self.sheet.text())?;
        if self.sheet.is_full() {
            out.push_str(CUT)?;
        }
        Ok(out)
    }
}
