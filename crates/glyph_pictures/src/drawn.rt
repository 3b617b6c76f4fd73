//! One line drawn: the outlines of its glyphs, a bar for each cluster, and a mark where the line
//! may be cut.
//!
//! The drawing of a line has at most [`MOST_BYTES`] bytes and is made of at most [`MOST_POINTS`]
//! points, contours and components, those of all lines of [`FULL_LINES`] times as much: what
//! would pass either is left out.
use crate::drawing::{Bounds, Drawing, Place};
use glyph_outlines::Outlines;
use shape_buffer::{Direction, GlyphBuffer, GlyphCluster, ShapeError};
use std::alloc::{AllocError, Global};

/// The most bytes of a line.
pub const MOST_BYTES: usize = 1_000_000;

/// The most points, contours and components that are read for a line, except for those of its
/// last glyph.
const MOST_POINTS: u32 = 200_000;

/// How many lines of so many bytes or points a picture holds: else a font of 60 KB makes one of
/// gigabytes of a short text, by a line for each letter.
pub const FULL_LINES: u8 = 16;

/// What all lines of a picture took so far: bytes, and points, contours and components of the
/// font.
#[derive(Clone, Copy)]
pub struct Taken {
    bytes: usize,
    points: u32,
}

impl Taken {
    /// What no line takes.
    pub const NOTHING: Taken = Taken {
        bytes: 0,
        points: 0,
    };

    /// How many bytes there is room for in a line.
    fn room(self) -> usize {
        let all = MOST_BYTES.saturating_mul(usize::from(FULL_LINES));
        all.saturating_sub(self.bytes).min(MOST_BYTES)
    }

    /// How many points may be read for a line.
    fn readable(self) -> u32 {
        let all = MOST_POINTS.saturating_mul(u32::from(FULL_LINES));
        all.saturating_sub(self.points).min(MOST_POINTS)
    }
}

/// Where bars of clusters stand, seen from the pen, and how long the marks across them are.
#[derive(Clone, Copy)]
struct Bars {
    left: f64,
    low: f64,
    len: f64,
    down: bool,
    backward: bool,
}

impl Bars {
    /// The bars of a line with glyphs in these bounds: below them, or at their left if the line
    /// runs down.
    fn of(direction: Direction, em: f64, glyphs: &Bounds) -> Bars {
        let down = direction.is_vertical();
        let far = em * 0.125;
        Bars {
            left: if down {
                (em * -0.625).min(glyphs.left - far)
            } else {
                0.0
            },
            low: if down {
                0.0
            } else {
                (em * -0.3125).min(glyphs.low - far)
            },
            len: em * 0.0625,
            down,
            backward: direction.is_backward(),
        }
    }

    /// Where a bar stands for the pen at this place.
    fn at(self, pen: Place) -> Place {
        Place {
            x: pen.x + self.left,
            y: pen.y + self.low,
        }
    }
}

/// Where the pen stands before each glyph, and after the last.
pub fn places(alloc: Global, glyphs: &GlyphBuffer) -> Result<Vec<Place>, AllocError> {
    let mut places = Vec::new(alloc);
    let mut pen = Place { x: 0.0, y: 0.0 };
    places.push(pen)?;
    for position in glyphs.glyph_positions() {
        pen.x = pen.x + f64::from(position.x_advance);
        pen.y = pen.y + f64::from(position.y_advance);
        places.push(pen)?;
    }
    Ok(places)
}

/// The place of this number, the start of the line if there are fewer.
pub fn place_at(places: &[Place], at: usize) -> Place {
    match places.get(at) {
        Some(place) => *place,
        None => Place { x: 0.0, y: 0.0 },
    }
}

/// Draws the outlines of the glyphs, until so many points are read. Returns how many were.
fn draw_glyphs(
    alloc: Global,
    drawing: &mut Drawing,
    outlines: &Outlines,
    glyphs: &GlyphBuffer,
    places: &[Place],
    most: u32,
) -> Result<u32, AllocError> {
    let mut points: u32 = 0;
    let mut at: usize = 0;
    for (info, position) in glyphs.iter() {
        let mut pen = place_at(places, at);
        pen.x = pen.x + f64::from(position.x_offset);
        pen.y = pen.y + f64::from(position.y_offset);
        at = at.saturating_add(1);
        drawing.next_glyph()?;
        let Ok(glyph) = u16::try_from(info.glyph_id) else {
            continue;
        };
        if most <= points || !drawing.has_room() {
            continue;
        }
        let outline = outlines.outline(alloc, glyph, MOST_BYTES)?;
        points = points.saturating_add(outline.points());
        drawing.glyph(glyph, info.cluster, outline.segments(), pen)?;
    }
    Ok(points)
}

/// Draws the bar of a cluster, and a mark where a line may be cut before its text.
fn draw_cluster(
    drawing: &mut Drawing,
    cluster: &GlyphCluster,
    places: &[Place],
    bars: Bars,
    odd: bool,
) -> Result<(), AllocError> {
    let begin = bars.at(place_at(places, cluster.start));
    let end = bars.at(place_at(places, cluster.end));
    let colour = if odd { "#39c" } else { "#c63" };
    drawing.line("cluster", cluster.cluster, colour, begin, end)?;
    if cluster.unsafe_to_break {
        return Ok(());
    }
    let cut = if bars.backward { end } else { begin };
    let (across, along) = if bars.down {
        (bars.len, 0.0)
    } else {
        (0.0, bars.len)
    };
    let from = Place {
        x: cut.x - across,
        y: cut.y - along,
    };
    let to = Place {
        x: cut.x + across,
        y: cut.y + along,
    };
    drawing.line("break", cluster.cluster, "currentColor", from, to)
}

/// Draws a bar for each cluster, in two alternating colours, with marks.
fn draw_clusters(
    alloc: Global,
    drawing: &mut Drawing,
    glyphs: &GlyphBuffer,
    places: &[Place],
    bars: Bars,
) -> Result<(), ShapeError> {
    let clusters = glyphs.clusters(alloc)?;
    let mut odd = false;
    for cluster in clusters.iter() {
        draw_cluster(drawing, cluster, places, bars, odd)?;
        odd = !odd;
    }
    Ok(())
}

/// A line drawn with these outlines, no glyph without any, in a font with such an em square; what
/// it takes is counted. Refuses only if a growth was refused.
pub fn drawn_line(
    alloc: Global,
    outlines: Option<&Outlines>,
    glyphs: &GlyphBuffer,
    em: f64,
    taken: &mut Taken,
) -> Result<Drawing, ShapeError> {
    let places = places(alloc, glyphs)?;
    let places = places.as_slice();
    let mut drawing = Drawing::new(alloc, taken.room());
    drawing.sees(place_at(places, 0));
    drawing.sees(place_at(places, glyphs.len()));
    if let Some(outlines) = outlines {
        let most = taken.readable();
        let read = draw_glyphs(alloc, &mut drawing, outlines, glyphs, places, most)?;
        taken.points = taken.points.saturating_add(read);
    }
    let bars = Bars::of(glyphs.direction(), em, drawing.bounds());
    drawing.begin_clusters(em * 0.03125)?;
    draw_clusters(alloc, &mut drawing, glyphs, places, bars)?;
    taken.bytes = taken.bytes.saturating_add(drawing.len());
    Ok(drawing)
}
