//! What is drawn of one line, as SVG, and the bounds that it takes.
use glyph_outlines::{Point, Segment};
use std::alloc::{AllocError, Global};
use std::fmt;
use std::fmt::{Display, Formatter};
use std::num::saturating_f64_to_i64;

/// The most bytes of one step of a path, or of what begins or ends a path or a group.
const STEP: usize = 120;

/// Coordinates stay below this, so that no font makes the picture of a point longer than a step.
const FARTHEST: f64 = 1_000_000.0;

/// A place in the plane, y upwards.
#[derive(Clone, Copy)]
pub struct Place {
    pub x: f64,
    pub y: f64,
}

/// A number rounded to a tenth, halves upwards.
#[derive(Clone, Copy)]
pub struct Tenths(i64);

/// A number as it is written.
pub fn rounded(x: f64) -> Tenths {
    Tenths(saturating_f64_to_i64((x * 10.0 + 0.5).floor()))
}

impl Display for Tenths {
    fn fmt<W: fmt::Write>(&self, f: &mut Formatter<W>) -> fmt::Result {
        let sign = if self.0 < 0 { "-" } else { "" };
        let (whole, tenth) = (self.0.unsigned_abs() / 10, self.0.unsigned_abs() % 10);
        if tenth == 0 {
            write!(f, "{sign}{whole}")
        } else {
            write!(f, "{sign}{whole}.{tenth}")
        }
    }
}

/// The least rectangle that holds what was drawn.
#[derive(Clone, Copy)]
pub struct Bounds {
    pub left: f64,
    pub right: f64,
    pub low: f64,
    pub high: f64,
}

impl Bounds {
    /// The rectangle of one place.
    pub fn at(place: Place) -> Bounds {
        Bounds {
            left: place.x,
            right: place.x,
            low: place.y,
            high: place.y,
        }
    }

    /// The rectangle that holds a place too.
    pub fn with(self, place: Place) -> Bounds {
        Bounds {
            left: self.left.min(place.x),
            right: self.right.max(place.x),
            low: self.low.min(place.y),
            high: self.high.max(place.y),
        }
    }
}

/// A number that is near enough to be drawn; 0 if it is none.
fn near(x: f64) -> f64 {
    if x.is_nan() {
        0.0
    } else {
        x.max(-FARTHEST).min(FARTHEST)
    }
}

/// A place that is near enough to be drawn.
fn near_place(place: Place) -> Place {
    Place {
        x: near(place.x),
        y: near(place.y),
    }
}

/// A drawing of at most so many bytes: a step that would pass them is left out. Each glyph has a
/// box, none if nothing of it was drawn.
#[derive(Drop)]
pub struct Drawing {
    out: String,
    most: usize,
    bounds: Bounds,
    boxes: Vec<Option<Bounds>>,
}

impl Drawing {
    /// An empty drawing.
    pub fn new(alloc: Global, most: usize) -> Drawing {
        Drawing {
            out: String::new(alloc),
            most,
            bounds: Bounds::at(Place { x: 0.0, y: 0.0 }),
            boxes: Vec::new(alloc),
        }
    }

    /// Whether there is room for another step, and for all ends.
    pub fn has_room(&self) -> bool {
        self.out.len().saturating_add(4 * STEP) <= self.most
    }

    /// How many bytes it has.
    pub fn len(&self) -> usize {
        self.out.len()
    }

    /// The rectangle that holds it.
    pub fn bounds(&self) -> &Bounds {
        &self.bounds
    }

    /// The boxes of the glyphs, in their order.
    pub fn boxes(&self) -> &[Option<Bounds>] {
        self.boxes.as_slice()
    }

    /// Takes a place into the bounds.
    pub fn sees(&mut self, place: Place) {
        self.bounds = self.bounds.with(near_place(place));
    }

    /// Takes a place into the box of the last glyph, and into the bounds.
    fn reaches(&mut self, place: Place) {
        self.sees(place);
        if let Some(last) = self.boxes.last_mut() {
            let place = near_place(place);
            *last = match *last {
                Some(bounds) => Some(bounds.with(place)),
                None => Some(Bounds::at(place)),
            };
        }
    }

    /// Gives the next glyph a box, of nothing so far.
    pub fn next_glyph(&mut self) -> Result<(), AllocError> {
        self.boxes.push(None)?;
        Ok(())
    }

    /// Draws the outline of a glyph of a cluster from this place on, into the box of the last
    /// glyph.
    pub fn glyph(
        &mut self,
        glyph: u16,
        cluster: u32,
        segments: &[Segment],
        pen: Place,
    ) -> Result<(), AllocError> {
        if !self.has_room() {
            return Ok(());
        }
        let (x, y) = (rounded(near(pen.x)), rounded(near(pen.y)));
        write!(
            self.out,
            "<path class=\"glyph\" data-glyph=\"{glyph}\" data-cluster=\"{cluster}\""
        )?;
        write!(self.out, " transform=\"translate({x} {y})\" d=\"")?;
        for segment in segments {
            self.segment(*segment, pen)?;
        }
        self.out.push_str("\"/>\n")
    }

    /// Draws a step of an outline.
    fn segment(&mut self, segment: Segment, pen: Place) -> Result<(), AllocError> {
        if !self.has_room() {
            return Ok(());
        }
        match segment {
            Segment::Move(point) => self.point('M', point, pen),
            Segment::Line(point) => self.point('L', point, pen),
            Segment::Curve(round, point) => {
                self.point('Q', round, pen)?;
                self.point(' ', point, pen)
            }
            Segment::Cubic(first, second, point) => {
                self.point('C', first, pen)?;
                self.point(' ', second, pen)?;
                self.point(' ', point, pen)
            }
            Segment::Close => self.out.push('Z'),
        }
    }

    /// Appends a letter and a point of an outline that begins at this place.
    fn point(&mut self, letter: char, point: Point, pen: Place) -> Result<(), AllocError> {
        self.reaches(Place {
            x: pen.x + point.x,
            y: pen.y + point.y,
        });
        let (x, y) = (rounded(near(point.x)), rounded(near(point.y)));
        write!(self.out, "{letter}{x} {y}")
    }

    /// Begins the lines of clusters, which are so wide; they are the rest of the drawing.
    pub fn begin_clusters(&mut self, width: f64) -> Result<(), AllocError> {
        let width = rounded(width);
        write!(
            self.out,
            "<g class=\"clusters\" stroke-width=\"{width}\">\n"
        )
    }

    /// Draws a line of a cluster, of this class and colour.
    pub fn line(
        &mut self,
        class: &str,
        cluster: u32,
        colour: &str,
        from: Place,
        to: Place,
    ) -> Result<(), AllocError> {
        if !self.has_room() {
            return Ok(());
        }
        self.sees(from);
        self.sees(to);
        let (x, y) = (rounded(near(from.x)), rounded(near(from.y)));
        write!(
            self.out,
            "<path class=\"{class}\" data-cluster=\"{cluster}\" stroke=\"{colour}\""
        )?;
        write!(self.out, " d=\"M{x} {y}")?;
        let (x, y) = (rounded(near(to.x)), rounded(near(to.y)));
        write!(self.out, "L{x} {y}\"/>\n")
    }

    /// Appends the drawing to a picture, with its origin at this height.
    pub fn append_to(&self, picture: &mut String, base: f64) -> Result<(), AllocError> {
        let base = rounded(base);
        write!(
            picture,
            "<g class=\"line\" transform=\"translate(0 {base})\">\n"
        )?;
        picture.push_str(self.out.as_str())?;
        picture.push_str("</g>\n</g>\n")
    }
}
