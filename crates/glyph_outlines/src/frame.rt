//! Points of an outline, and where a component of a glyph stands. Numbers are those of binary64.
ghost use Rattle.std.specs.Prelude.{◌≡◌};
ghost use Rattle.glyph_outlines.specs.Frames;

use crate::varied::VariedPoint;
use glyf_points::{Component, GlyphPoint, Placement};

/// Where a component of a glyph stands: what its points are multiplied by, and moved by.
#[derive(Clone, Copy)]
pub struct Frame {
    pub xx: f64,
    pub xy: f64,
    pub yx: f64,
    pub yy: f64,
    pub x: f64,
    pub y: f64,
}

/// A point of an outline; `on` if the outline goes through it.
#[derive(Clone, Copy, PartialEq, Debug)]
pub struct Point {
    pub x: f64,
    pub y: f64,
    pub on: bool,
}

/// A point of an outline, and whether its contour ends with it.
#[derive(Clone, Copy)]
pub struct OutlinePoint {
    pub point: Point,
    pub ends: bool,
}

/// The point in the middle.
pub fn middle(a: Point, b: Point) -> Point
    ensures { result ≡ Frames.middle a b }
{
    Point {
        x: (a.x + b.x) / 2.0,
        y: (a.y + b.y) / 2.0,
        on: true,
    }
}

/// A number of 16384ths.
fn fraction(n: i32) -> f64
    ensures { result ≡ Frames.fraction n }
{
    f64::from(n) / 16384.0
}

/// How far a component is moved; one that is placed by points is moved later.
fn offset(placement: Placement) -> Point
    ensures { result ≡ Frames.offset placement }
{
    match placement {
        Placement::Moved(x, y) => Point {
            x: f64::from(x),
            y: f64::from(y),
            on: true,
        },
        Placement::OnPoint(_, _) => Point {
            x: 0.0,
            y: 0.0,
            on: true,
        },
    }
}

impl VariedPoint {
    /// The same in binary64.
    fn point(&self) -> Point
        ensures { result ≡ Frames.point_of self.now }
    {
        Point {
            x: f64::from(self.x),
            y: f64::from(self.y),
            on: self.on,
        }
    }
}

impl OutlinePoint {
    /// The point, moved.
    pub fn moved(&self, dx: f64, dy: f64) -> OutlinePoint
        ensures { result ≡ Frames.shifted dx dy self.now }
    {
        OutlinePoint {
            point: Point {
                x: self.point.x + dx,
                y: self.point.y + dy,
                on: self.point.on,
            },
            ends: self.ends,
        }
    }
}

impl Frame {
    /// The frame that moves nothing.
    pub fn still() -> Frame
        ensures { result ≡ Frames.still }
    {
        Frame {
            xx: 1.0,
            xy: 0.0,
            yx: 0.0,
            yy: 1.0,
            x: 0.0,
            y: 0.0,
        }
    }

    /// The frame that moves along the line.
    pub fn along(dx: f64) -> Frame
        ensures { result ≡ Frames.along dx }
    {
        Frame {
            x: dx,
            ..Frame::still()
        }
    }

    /// The frame of a component in the glyph that it is part of.
    pub fn of(component: &Component) -> Frame
        ensures { result ≡ Frames.frame_of component.now }
    {
        Frame::by(component, offset(component.placement))
    }

    /// The same of a component that is moved so far.
    fn by(component: &Component, offset: Point) -> Frame
        ensures { result ≡ Frames.frame_by component.now offset }
    {
        let turned = Frame {
            xx: fraction(component.matrix.xx),
            xy: fraction(component.matrix.xy),
            yx: fraction(component.matrix.yx),
            yy: fraction(component.matrix.yy),
            x: 0.0,
            y: 0.0,
        };
        let origin = if component.is_offset_scaled {
            turned.moved(offset.x, offset.y, true)
        } else {
            offset
        };
        Frame {
            x: origin.x,
            y: origin.y,
            ..turned
        }
    }

    /// The frame of a component whose variations move it so far.
    pub fn varied(component: &Component, offset: VariedPoint) -> Frame
        ensures { result ≡ Frames.frame_by component.now (Frames.point_of offset) }
    {
        Frame::by(component, offset.point())
    }

    /// Where a place comes to stand.
    pub fn moved(&self, x: f64, y: f64, on: bool) -> Point
        ensures { result ≡ Frames.moved self.now x y on }
    {
        Point {
            x: self.xx * x + self.yx * y + self.x,
            y: self.xy * x + self.yy * y + self.y,
            on,
        }
    }

    /// Where a point of a glyph comes to stand.
    pub fn placed(&self, point: GlyphPoint) -> OutlinePoint
        ensures { result ≡ Frames.placed self.now point }
    {
        OutlinePoint {
            point: self.moved(f64::from(point.x), f64::from(point.y), point.on),
            ends: point.ends,
        }
    }

    /// Where a point of a glyph at coordinates comes to stand.
    pub fn placed_at(&self, point: VariedPoint) -> OutlinePoint
        ensures { result ≡ Frames.placed_at self.now point }
    {
        OutlinePoint {
            point: self.moved(f64::from(point.x), f64::from(point.y), point.on),
            ends: point.ends,
        }
    }

    /// The frame of a component whose own frame is `inner`.
    pub fn within(&self, inner: &Frame) -> Frame
        ensures { result ≡ Frames.within self.now inner.now }
    {
        let origin = self.moved(inner.x, inner.y, true);
        Frame {
            xx: self.xx * inner.xx + self.yx * inner.xy,
            xy: self.xy * inner.xx + self.yy * inner.xy,
            yx: self.xx * inner.yx + self.yx * inner.yy,
            yy: self.xy * inner.yx + self.yy * inner.yy,
            x: origin.x,
            y: origin.y,
        }
    }
}
