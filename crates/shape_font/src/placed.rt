//! Where points of components stand, and the least box that holds them, in binary32.
ghost use Rattle.std.specs.Prelude.{◌≡◌};
ghost use Rattle.shape_font.specs.PlacesAt;

use font_variations::deltas::rounded;
use glyf_points::Component;
use shape_buffer::hb_glyph_extents_t;
use std::num::nearest_i32_to_f32;

/// A place in a glyph, y upwards.
#[derive(Clone, Copy, Default)]
pub(crate) struct Place {
    pub x: f32,
    pub y: f32,
}

/// Where a component stands in the part with the number `outer`: what its points are multiplied by,
/// and moved by, before that if `is_offset_scaled`.
#[derive(Clone, Copy, Default)]
pub(crate) struct Frame {
    pub xx: f32,
    pub xy: f32,
    pub yx: f32,
    pub yy: f32,
    pub offset: Place,
    pub is_offset_scaled: bool,
    pub outer: usize,
}

/// A glyph that another one is made of, in so many frames.
#[derive(Clone, Copy, Default)]
pub(crate) struct Part {
    pub glyph: u32,
    pub depth: u32,
    pub frame: Frame,
}

/// A place in a part.
#[derive(Clone, Copy)]
pub(crate) struct Placing {
    pub part: usize,
    pub place: Place,
}

/// A box: its lower left and its upper right corner.
#[derive(Clone, Copy)]
pub(crate) struct Bounds {
    pub low: Place,
    pub high: Place,
}

/// The box of a glyph without an outline.
const NO_BOX: hb_glyph_extents_t = hb_glyph_extents_t {
    x_bearing: 0,
    y_bearing: 0,
    width: 0,
    height: 0,
};

/// A number of 16384ths.
fn fraction(n: i32) -> f32
    ensures { result ≡ PlacesAt.fraction n }
{
    nearest_i32_to_f32(n) / 16384.0
}

/// A place, moved.
pub(crate) fn shifted(by: Place, place: Place) -> Place
    ensures { result ≡ PlacesAt.shifted by place }
{
    Place {
        x: place.x + by.x,
        y: place.y + by.y,
    }
}

impl Frame {
    /// That of a glyph which is no component.
    pub(crate) fn none() -> Frame
        ensures { result ≡ PlacesAt.no_frame }
    {
        Frame {
            xx: 0.0,
            xy: 0.0,
            yx: 0.0,
            yy: 0.0,
            offset: Place { x: 0.0, y: 0.0 },
            is_offset_scaled: false,
            outer: 0,
        }
    }

    /// The frame of a component that is moved so far.
    pub(crate) fn of(component: &Component, offset: Place, outer: usize) -> Frame
        ensures { result ≡ PlacesAt.frame_of component.now offset outer }
    {
        Frame {
            xx: fraction(component.matrix.xx),
            xy: fraction(component.matrix.xy),
            yx: fraction(component.matrix.yx),
            yy: fraction(component.matrix.yy),
            offset,
            is_offset_scaled: component.is_offset_scaled,
            outer,
        }
    }

    /// A place, multiplied.
    fn turned(&self, place: Place) -> Place
        ensures { result ≡ PlacesAt.turned self.now place }
    {
        Place {
            x: place.x * self.xx + place.y * self.yx,
            y: place.x * self.xy + place.y * self.yy,
        }
    }

    /// Where a place of the component stands.
    fn placed(&self, place: Place) -> Place
        ensures { result ≡ PlacesAt.placed self.now place }
    {
        if self.is_offset_scaled {
            self.turned(shifted(self.offset, place))
        } else {
            shifted(self.offset, self.turned(place))
        }
    }
}

/// The part with this number.
pub(crate) fn part_at(parts: &[Part], i: usize) -> Part
    ensures { result ≡ PlacesAt.part_at parts.now i }
{
    if i < parts.len() {
        return parts[i];
    }
    Part {
        glyph: 0,
        depth: 0,
        frame: Frame::none(),
    }
}

/// A place of a part, in the part that this one is a component of.
fn out(parts: &[Part], placing: Placing) -> Placing
    ensures { result ≡ PlacesAt.out_step parts.now placing }
{
    let frame = part_at(parts, placing.part).frame;
    Placing {
        part: frame.outer,
        place: frame.placed(placing.place),
    }
}

/// Where a place of a part stands in the whole glyph. Takes a step for each frame.
#[tactic(auto, using(glyph_variations::proofs::TimesLemmas::times_step), unfolding(crate::specs::PlacesAt::through))]
pub(crate) fn through(parts: &[Part], part: usize, place: Place) -> Place
    ensures { result ≡ PlacesAt.through parts.now part place }
{
    let mut placing = Placing { part, place };
    for _i in 0..part_at(parts, part).depth {
        placing = out(parts, placing);
    }
    placing.place
}

/// The lesser of two numbers.
pub(crate) fn least(a: f32, b: f32) -> f32
    ensures { result ≡ PlacesAt.least a b }
{
    if b < a { b } else { a }
}

/// The greater of two numbers.
pub(crate) fn greatest(a: f32, b: f32) -> f32
    ensures { result ≡ PlacesAt.greatest a b }
{
    if a < b { b } else { a }
}

/// The least box that holds a box and a place.
#[tactic(auto, unfolding(crate::specs::PlacesAt::widened))]
pub(crate) fn widened(bounds: Option<Bounds>, place: Place) -> Option<Bounds>
    ensures { result ≡ PlacesAt.widened bounds place }
{
    match bounds {
        None => Some(Bounds {
            low: place,
            high: place,
        }),
        Some(bounds) => Some(Bounds {
            low: Place {
                x: least(bounds.low.x, place.x),
                y: least(bounds.low.y, place.y),
            },
            high: Place {
                x: greatest(bounds.high.x, place.x),
                y: greatest(bounds.high.y, place.y),
            },
        }),
    }
}

/// How far it is from a whole number.
fn from_whole(place: f32, whole: i32) -> i32
    ensures { result ≡ PlacesAt.from_whole place whole }
{
    rounded(place - nearest_i32_to_f32(whole))
}

/// A box in whole units.
#[tactic(auto, unfolding(crate::specs::PlacesAt::bounded))]
fn bounded(bounds: &Bounds) -> hb_glyph_extents_t
    ensures { result ≡ PlacesAt.bounded bounds.now }
{
    if !(bounds.low.x < bounds.high.x && bounds.low.y < bounds.high.y) {
        return NO_BOX;
    }
    let (left, top) = (rounded(bounds.low.x), rounded(bounds.high.y));
    hb_glyph_extents_t {
        x_bearing: left,
        y_bearing: top,
        width: from_whole(bounds.high.x, left),
        height: from_whole(bounds.low.y, top),
    }
}

/// The box of points.
pub(crate) fn extents(bounds: Option<Bounds>) -> hb_glyph_extents_t
    ensures { result ≡ PlacesAt.extents_by bounds }
{
    match bounds {
        None => NO_BOX,
        Some(bounds) => bounded(&bounds),
    }
}
