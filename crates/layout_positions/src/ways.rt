//! How far the pen moves over glyphs of a buffer.
//!
//! Marks on one base ask for ways that begin at the same place, each longer than the one before: a
//! way goes on from the one that was measured last.
ghost use Rattle.std.specs.Prelude.{◌≡◌, ◌<◌, ◌≤◌, ◌-◌, fold, length, nat_lt, slice_range, if◌then◌else◌};
ghost use Rattle.layout_positions.specs.Ways;

use crate::places::after;
use shape_buffer::wrapping::sum;
use shape_buffer::{GlyphPosition, hb_buffer_t};

/// A way over fewer glyphs is measured anew each time, so that a longer one stays known.
const SHORT: usize = 64;

/// How far the pen moves over some glyphs, in units of the face.
#[derive(Clone, Copy, PartialEq, Eq, Debug)]
pub struct Pen {
    pub x: i32,
    pub y: i32,
}

/// The way of the pen from one place up to another.
#[derive(Clone, Copy, PartialEq, Eq, Debug)]
pub struct Measured {
    pub from: usize,
    pub to: usize,
    pub pen: Pen,
}

impl Measured {
    /// No way at all.
    pub fn none() -> Measured
        ensures { result ≡ record { from = 0; to = 0; pen = Ways.no_way } }
    {
        Measured {
            from: 0,
            to: 0,
            pen: Pen { x: 0, y: 0 },
        }
    }

    /// Whether it leads over few glyphs.
    pub fn is_short(&self) -> bool
        ensures { result ≡ nat_lt (self.now.to - self.now.from) 64 }
    {
        self.to.saturating_sub(self.from) < SHORT
    }
}

/// The pen after one more glyph.
fn pen_on(pen: Pen, there: GlyphPosition) -> Pen
    ensures { result ≡ Ways.pen_on pen there }
{
    Pen {
        x: sum(pen.x, there.x_advance),
        y: sum(pen.y, there.y_advance),
    }
}

/// The pen after these glyphs.
fn pen_over(pen: Pen, positions: &[GlyphPosition]) -> Pen
    ensures { result ≡ fold Ways.pen_on pen positions.now }
{
    let mut pen = pen;
    for there in positions {
        pen = pen_on(pen, *there);
    }
    pen
}

/// The pen after the glyphs from place `from` up to place `end`.
fn pen_after(buffer: &hb_buffer_t, pen: Pen, from: usize, end: usize) -> Pen
    requires { end ≤ length buffer.now.items }
    ensures { result ≡ (if nat_lt from end
        then fold Ways.pen_on pen (slice_range buffer.now.positions from end) else pen) }
{
    if from < end {
        pen_over(pen, &buffer.positions()[from..end])
    } else {
        pen
    }
}

/// The way of the pen from place `from` up to place `to`.
#[tactic(auto, using(crate::proofs::WayLemmas::way_goes_on))]
fn way(buffer: &hb_buffer_t, from: usize, to: usize, last: Measured) -> Pen
    requires { Ways.IsMeasured buffer.now last }
    ensures { result ≡ Ways.way buffer.now from to }
{
    let end = to.min(buffer.len());
    if last.from == from && from <= last.to && last.to <= end {
        pen_after(buffer, last.pen, last.to, end)
    } else {
        pen_after(buffer, Pen { x: 0, y: 0 }, from, end)
    }
}

/// The same, measured.
fn measure(buffer: &hb_buffer_t, from: usize, to: usize, last: Measured) -> Measured
    requires { Ways.IsMeasured buffer.now last }
    ensures way { result.pen ≡ Ways.way buffer.now from to }
    ensures measured { Ways.IsMeasured buffer.now result }
{
    Measured {
        from,
        to,
        pen: way(buffer, from, to, last),
    }
}

/// The way of the pen between the glyph at place `j` and the mark at place `i`.
pub fn way_between(buffer: &hb_buffer_t, i: usize, j: usize, last: Measured) -> Measured
    requires i { i < length buffer.now.items }
    requires j { j < length buffer.now.items }
    requires last { Ways.IsMeasured buffer.now last }
    ensures way { result.pen ≡ Ways.way_between buffer.now i j }
    ensures measured { Ways.IsMeasured buffer.now result }
{
    let count = buffer.len();
    if buffer.direction().is_forward() {
        measure(buffer, j, i, last)
    } else {
        measure(buffer, after(count, j), after(count, i), last)
    }
}
