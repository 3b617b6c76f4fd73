//! Where the lines of a picture stand: one below the other, each with room for the bars of its
//! runs, those from right to left at the right edge. Numbers are tenths of a unit, y downwards.
use paragraph::TextLine;
use std::alloc::{AllocError, Global};

/// How many pixels wide and high the em square is, where a page doesn't say how large the picture
/// is to be.
const PIXELS: i64 = 48;

/// A number of units in tenths.
fn tenths(units: i64) -> i64 {
    units.saturating_mul(10)
}

/// Where the pen stands.
#[derive(Clone, Copy)]
pub struct Pen {
    pub x: i64,
    pub y: i64,
}

impl Pen {
    /// The place so many units to the right and above.
    pub fn moved(self, right: i32, up: i32) -> Pen {
        Pen {
            x: self.x.saturating_add(tenths(i64::from(right))),
            y: self.y.saturating_sub(tenths(i64::from(up))),
        }
    }

    /// The place so many units to the right.
    pub fn along(self, right: i64) -> Pen {
        Pen {
            x: self.x.saturating_add(tenths(right)),
            y: self.y,
        }
    }
}

/// A page: the size of the em square and how wide the column of lines is.
#[derive(Clone, Copy)]
pub struct Page {
    em: i64,
    column: i64,
}

/// How wide the widest of some lines is.
fn widest(lines: &[TextLine]) -> i64 {
    let mut widest = 0;
    for line in lines {
        widest = line.width.max(widest);
    }
    widest
}

impl Page {
    /// The page of lines at most so wide; none for as wide as the widest.
    pub fn new(size: u32, width: Option<u32>, lines: &[TextLine]) -> Page {
        let column = match width {
            Some(width) => i64::from(width).max(widest(lines)),
            None => widest(lines),
        };
        Page {
            em: i64::from(size).max(1),
            column,
        }
    }

    /// Where the pen of a line begins whose top is here.
    pub fn start_of(&self, line: &TextLine, top: i64) -> Pen {
        let edge = if line.level % 2 == 1 {
            self.column.saturating_sub(line.width)
        } else {
            0
        };
        Pen {
            x: tenths(edge.saturating_add(line.left)),
            y: top.saturating_add(tenths(i64::from(line.ascent))),
        }
    }

    /// How long a tick is above its bar, and below it.
    pub fn tick(&self) -> i64 {
        tenths(self.em) / 16
    }

    /// How far below the baseline the bars of a line are.
    pub fn low_of(&self, line: &TextLine) -> i64 {
        self.tick().saturating_sub(tenths(i64::from(line.descent)))
    }

    /// How high a line is with its bars.
    pub fn height_of(&self, line: &TextLine) -> i64 {
        tenths(i64::from(line.ascent))
            .saturating_add(self.low_of(line))
            .saturating_add(self.tick().saturating_mul(4))
    }

    /// How many pixels a number of tenths is.
    fn pixels(&self, tenths: i64) -> i64 {
        (tenths / 10)
            .saturating_mul(PIXELS)
            .checked_div(self.em)
            .unwrap_or(0)
    }

    /// The head of the picture of lines, up to what is drawn.
    pub fn head(&self, alloc: Global, lines: &[TextLine]) -> Result<String, AllocError> {
        let mut height: i64 = 0;
        for line in lines {
            height = height.saturating_add(self.height_of(line));
        }
        let margin = self.tick().saturating_mul(2);
        let (both, left) = (margin.saturating_mul(2), 0i64.saturating_sub(margin));
        let (wide, high) = (
            tenths(self.column).saturating_add(both),
            height.saturating_add(margin),
        );
        let mut out = String::new(alloc);
        out.push_str("<svg xmlns=\"http://www.w3.org/2000/svg\"")?;
        write!(
            out,
            " width=\"{}\" height=\"{}\"",
            self.pixels(wide),
            self.pixels(high)
        )?;
        write!(out, " viewBox=\"{left} {left} {wide} {high}\"")?;
        out.push_str(" style=\"background:#fff;color:#000\">\n")?;
        let bar = self.tick() / 2;
        write!(out, "<g fill=\"currentColor\" stroke-width=\"{bar}\">\n")?;
        Ok(out)
    }
}
