//! What the tuples of a glyph add to one of its points.
ghost use Rattle.std.specs.Prelude.{◌≡◌, ◌<◌, ◌≤◌, ◌+◌, ◌%◌, ◌^◌, true};
ghost use Rattle.glyph_variations.specs.Glyph.{stored};
ghost use Rattle.glyph_variations.specs.Numbers;
ghost use Rattle.glyph_variations.specs.Sums;
ghost use Rattle.glyph_variations.specs.Times.{times};
ghost use Rattle.font_bytes.specs.Bytes.{u16_of};

use crate::glyph::GlyphVariations;
use crate::numbers::{PointNumbers, after_count, count, numbers_end};
use crate::packed::PackedDeltas;
use crate::tuples::{has_points, header_size, scalar};
use font_bytes::bytes::u16_at;
use std::num::nearest_i32_to_f32;

/// How many steps a point takes at most: one for each point that tuples share, and for each tuple
/// four, one for each axis of its peak, and one for each of its deltas. A tuple that would take
/// more ends the sum.
pub const MOST_STEPS: u32 = 8_192;

/// Which point is asked for, of how many with the four for metrics, and which of its coordinates.
#[derive(Clone, Copy)]
pub struct Target {
    pub point: u32,
    pub count: u32,
    pub vertical: bool,
}

/// The points of a tuple: where their numbers begin, how many there are, 0 for all points, and
/// where the deltas begin.
#[derive(Clone, Copy)]
pub(crate) struct TuplePoints {
    pub at: usize,
    pub count: u16,
    pub deltas: usize,
}

/// Where the reading of a tuple stands, and the sum of the deltas for a point.
#[derive(Clone, Copy)]
pub(crate) struct Reading {
    pub numbers: PointNumbers,
    pub deltas: PackedDeltas,
    pub sum: f32,
}

/// A coordinate, and what waits to be added to it.
#[derive(Clone, Copy)]
pub struct Moving {
    pub position: f32,
    pub pending: f32,
}

/// Where the walk over tuples stands: the next header, the data for it, how much may still be read,
/// and whether nothing more is added.
#[derive(Clone, Copy)]
pub(crate) struct TupleWalk {
    pub header: usize,
    pub place: usize,
    pub left: u32,
    pub ended: bool,
    pub moving: Moving,
}

/// Whether tuples share points.
pub(crate) fn has_shared_points(bytes: &[u8]) -> bool
    ensures { result ≡ Sums.has_shared_points bytes.now }
{
    0x8000 <= u16_at(bytes, 0)
}

/// How many points tuples share.
fn shared_count(bytes: &[u8]) -> u32
    ensures { result ≡ Sums.shared_count bytes.now }
{
    if has_shared_points(bytes) {
        u32::from(count(bytes, usize::from(u16_at(bytes, 2))))
    } else {
        0
    }
}

/// Where the data of the first tuple begin.
pub(crate) fn first_place(bytes: &[u8]) -> usize
    ensures value { result ≡ Sums.first_place bytes.now }
    ensures near { result < 2 ^ 18 }
{
    let place = usize::from(u16_at(bytes, 2));
    if has_shared_points(bytes) && shared_count(bytes) <= MOST_STEPS {
        numbers_end(bytes, place)
    } else {
        place
    }
}

/// How many points the tuple lists whose header and data stand there.
fn listed_count(bytes: &[u8], header: usize, place: usize) -> u16
    requires header { header < 2 ^ 38 }
    requires place { place < 2 ^ 32 }
    ensures { result ≡ (Sums.points_of bytes.now header place).count }
{
    if has_points(bytes, header) {
        return count(bytes, place);
    }
    if has_shared_points(bytes) {
        return count(bytes, usize::from(u16_at(bytes, 2)));
    }
    0
}

/// The points of the tuple whose header and data stand there.
pub(crate) fn points_of(bytes: &[u8], header: usize, place: usize) -> TuplePoints
    requires header { header < 2 ^ 38 }
    requires place { place < 2 ^ 32 }
    ensures value { result ≡ Sums.points_of bytes.now header place }
    ensures at { result.at < 2 ^ 33 }
    ensures few { result.count < 2 ^ 15 }
    ensures deltas { result.deltas < 2 ^ 33 }
{
    if has_points(bytes, header) {
        return TuplePoints {
            at: after_count(bytes, place),
            count: count(bytes, place),
            deltas: numbers_end(bytes, place),
        };
    }
    if has_shared_points(bytes) {
        let shared = usize::from(u16_at(bytes, 2));
        return TuplePoints {
            at: after_count(bytes, shared),
            count: count(bytes, shared),
            deltas: place,
        };
    }
    TuplePoints {
        at: 0,
        count: 0,
        deltas: place,
    }
}

/// A delta times a scalar.
pub(crate) fn scaled(value: i32, scalar: f32) -> f32
    ensures { result ≡ Sums.scaled value scalar }
{
    nearest_i32_to_f32(value) * scalar
}

impl Reading {
    /// The next point of the tuple is read.
    fn next(self, bytes: &[u8], point: u32, scalar: f32) -> Reading
        requires numbers { self.numbers.at < 2 ^ 38 }
        requires number { self.numbers.number < 2 ^ 40 }
        requires deltas { self.deltas.at < 2 ^ 38 }
        ensures value { result ≡ Sums.read_step bytes.now point scalar self }
        ensures numbers { result.numbers.at ≤ self.numbers.at + 3 }
        ensures number { result.numbers.number < self.numbers.number + 2 ^ 16 }
        ensures deltas { result.deltas.at ≤ self.deltas.at + 5 }
    {
        let numbers = self.numbers.next(bytes);
        let deltas = self.deltas.next(bytes);
        let mut sum = self.sum;
        if numbers.number == point as usize {
            sum += scaled(deltas.value, scalar);
        }
        Reading {
            numbers,
            deltas,
            sum,
        }
    }
}

/// The sum of the deltas that a tuple lists for a point, scaled; they begin at `at`.
#[tactic(auto, using(crate::proofs::TimesLemmas::times_step, crate::proofs::SkipLemmas::listed_early))]
fn listed_sum(bytes: &[u8], points: &TuplePoints, at: usize, point: u32, scalar: f32) -> f32
    requires place { points.now.at < 2 ^ 34 }
    requires few { points.now.count < 2 ^ 15 }
    requires at { at < 2 ^ 34 }
    ensures { result ≡ Sums.listed_sum bytes.now points.now at point scalar }
{
    let mut reading = Reading {
        numbers: PointNumbers::begin(points.at),
        deltas: PackedDeltas::begin(at),
        sum: 0.0,
    };
    for _i in 0..points.count {
        // numbers never decrease: after a greater one the point isn't listed again
        if (point as usize) < reading.numbers.number {
            return reading.sum;
        }
        reading = reading.next(bytes, point, scalar);
    }
    reading.sum
}

/// The delta for a point of a tuple that has one for each.
fn delta_of(bytes: &[u8], at: usize, point: u32) -> i32
    requires at { at < 2 ^ 34 }
    requires point { point < 2 ^ 20 }
    ensures { result ≡ Sums.delta_of bytes.now at point }
{
    PackedDeltas::begin(at).after(bytes, point + 1).value
}

/// How many deltas a tuple has for each coordinate.
pub(crate) fn delta_count(points: &TuplePoints, target: &Target) -> u32
    ensures value { result ≡ Sums.delta_count points.now target.now }
    ensures few { result ≤ target.now.count + 65535 }
{
    if points.count == 0 {
        target.count
    } else {
        u32::from(points.count)
    }
}

/// Where the deltas for the coordinate begin.
pub(crate) fn deltas_at(bytes: &[u8], points: &TuplePoints, target: &Target) -> usize
    requires deltas { points.now.deltas < 2 ^ 33 }
    requires few { points.now.count < 2 ^ 15 }
    requires count { target.now.count < 2 ^ 20 }
    ensures value { result ≡ Sums.deltas_at bytes.now points.now target.now }
    ensures near { result < 2 ^ 34 }
{
    if !target.vertical {
        return points.deltas;
    }
    let count = delta_count(points, target);
    PackedDeltas::begin(points.deltas).after(bytes, count).at
}

/// A coordinate with what a tuple adds to it.
fn moved(
    bytes: &[u8],
    points: &TuplePoints,
    at: usize,
    point: u32,
    scalar: f32,
    moving: Moving,
) -> Moving
    requires place { points.now.at < 2 ^ 34 }
    requires few { points.now.count < 2 ^ 15 }
    requires at { at < 2 ^ 34 }
    requires point { point < 2 ^ 20 }
    ensures { result ≡ Sums.moved bytes.now points.now at point scalar moving }
{
    if points.count == 0 {
        let delta = scaled(delta_of(bytes, at, point), scalar);
        Moving {
            position: moving.position,
            pending: moving.pending + delta,
        }
    } else {
        Moving {
            position: moving.position + moving.pending,
            pending: listed_sum(bytes, points, at, point, scalar),
        }
    }
}

/// How many steps it takes to pass over a tuple.
fn tuple_steps(glyph: &GlyphVariations<'_>) -> u32
    ensures { result ≡ Sums.tuple_steps (stored glyph.now) }
{
    4 + u32::from(glyph.axes)
}

impl TupleWalk {
    /// Whether its peak may still be read, and the header and the data are there.
    pub(crate) fn is_whole(&self, glyph: &GlyphVariations<'_>) -> bool
        requires header { self.now.header < 2 ^ 32 }
        requires place { self.now.place < 2 ^ 32 }
        ensures { result ≡ Sums.is_whole (stored glyph.now) self.now }
    {
        let size = usize::from(u16_at(glyph.bytes, self.header));
        tuple_steps(glyph) <= self.left
            && self.header + header_size(glyph, self.header) <= glyph.bytes.len()
            && self.place + size <= glyph.bytes.len()
    }

    /// The tuple is passed over.
    pub(crate) fn passed(self, glyph: &GlyphVariations<'_>) -> TupleWalk
        requires header { self.header < 2 ^ 32 }
        requires place { self.place < 2 ^ 32 }
        ensures value { result ≡ Sums.passed (stored glyph.now) self }
        ensures header { result.header ≤ self.header + 524288 }
        ensures place { result.place ≤ self.place + 65535 }
    {
        let mut next = self;
        next.header += header_size(glyph, self.header);
        next.place += usize::from(u16_at(glyph.bytes, self.header));
        next.left = self.left.saturating_sub(tuple_steps(glyph));
        next
    }

    /// Nothing more is added.
    pub(crate) fn end(self) -> TupleWalk
        ensures { result ≡ record self { ended = true } }
    {
        let mut next = self;
        next.ended = true;
        next
    }

    /// The tuple is added.
    fn with_tuple(
        self,
        glyph: &GlyphVariations<'_>,
        target: &Target,
        scalar: f32,
        points: &TuplePoints,
    ) -> TupleWalk
        requires header { self.header < 2 ^ 32 }
        requires place { self.place < 2 ^ 32 }
        requires at { points.now.at < 2 ^ 33 }
        requires few { points.now.count < 2 ^ 15 }
        requires deltas { points.now.deltas < 2 ^ 33 }
        requires count { target.now.count < 2 ^ 20 }
        requires point { target.now.point < 2 ^ 20 }
        ensures value { result ≡ Sums.with_tuple (stored glyph.now) target.now scalar points.now self }
        ensures header { result.header ≤ self.header + 524288 }
        ensures place { result.place ≤ self.place + 65535 }
    {
        let count = delta_count(points, target);
        if self.left < count {
            return self.end();
        }
        let at = deltas_at(glyph.bytes, points, target);
        let mut next = self.passed(glyph);
        next.left = next.left.saturating_sub(count);
        next.moving = moved(glyph.bytes, points, at, target.point, scalar, self.moving);
        next
    }

    /// The next tuple is added, if it takes part.
    fn next(self, glyph: &GlyphVariations<'_>, target: &Target) -> TupleWalk
        requires header { self.header < 2 ^ 32 }
        requires place { self.place < 2 ^ 32 }
        requires count { target.now.count < 2 ^ 20 }
        requires point { target.now.point < 2 ^ 20 }
        ensures value { result ≡ Sums.tuple_step (stored glyph.now) target.now self }
        ensures header { result.header ≤ self.header + 524288 }
        ensures place { result.place ≤ self.place + 65535 }
    {
        if self.ended {
            return self;
        }
        if !self.is_whole(glyph) {
            return self.end();
        }
        let scalar = scalar(glyph, self.header);
        if scalar == 0.0 {
            return self.passed(glyph);
        }
        // what may not be read isn't looked for
        if self.left < u32::from(listed_count(glyph.bytes, self.header, self.place)) {
            return self.end();
        }
        let points = points_of(glyph.bytes, self.header, self.place);
        self.with_tuple(glyph, target, scalar, &points)
    }
}

/// All tuples are added to a coordinate.
#[tactic(auto, using(crate::proofs::TimesLemmas::times_step))]
fn walked(glyph: &GlyphVariations<'_>, target: &Target, position: f32) -> Moving
    requires count { target.now.count < 2 ^ 20 }
    requires point { target.now.point < 2 ^ 20 }
    ensures { result ≡ (times (Sums.tuple_step (stored glyph.now) target.now) (u16_of (stored glyph.now).bytes 0 % 4096)
        (Sums.begun_at (stored glyph.now) position)).moving }
{
    let mut walk = TupleWalk {
        header: 4,
        place: first_place(glyph.bytes),
        left: MOST_STEPS.saturating_sub(shared_count(glyph.bytes)),
        ended: false,
        moving: Moving {
            position,
            pending: 0.0,
        },
    };
    for _i in 0..u16_at(glyph.bytes, 0) % 4096 {
        walk = walk.next(glyph, target);
    }
    walk.moving
}

/// Where a coordinate of a point comes to stand that stands at `position` at the default instance:
/// each tuple's delta for the point is added, as far as the tuple takes part. Deltas of points that
/// a tuple doesn't list are not inferred, as suits the four points of a glyph's metrics. Takes at
/// most [`MOST_STEPS`].
#[tactic(auto, unfolding(crate::specs::Sums::moved_to))]
pub fn moved_to(glyph: &GlyphVariations<'_>, target: &Target, position: f32) -> f32
    requires count { target.now.count < 2 ^ 20 }
    requires point { target.now.point < 2 ^ 20 }
    ensures { result ≡ Sums.moved_to (stored glyph.now) target.now position }
{
    let moving = walked(glyph, target, position);
    moving.position + moving.pending
}
