//! Where the points of an outline come to stand at coordinates, with the deltas of those that
//! tuples don't list.
ghost use Rattle.std.specs.Prelude.{◌≡◌, ◌<◌, ◌≤◌, ◌+◌, ◌*◌, ◌^◌, length, map, replicate};
ghost use Rattle.glyph_variations.specs.Glyph.{stored};
ghost use Rattle.glyph_variations.specs.Inferred.{untouched};
ghost use Rattle.glyph_variations.specs.Outline;
ghost use Rattle.glyph_variations.specs.Times.{times};
ghost use Rattle.glyph_variations.specs.Sums;

use crate::glyph::GlyphVariations;
use crate::inferred::{Listed, listed_at, place, spread_all};
use crate::numbers::{PointNumbers, count};
use crate::packed::PackedDeltas;
use crate::sums::{
    Moving, Target, TuplePoints, TupleWalk, delta_count, deltas_at, first_place, has_shared_points,
    points_of, scaled,
};
use crate::tuples::scalar;
use font_bytes::bytes::u16_at;
use glyf_points::GlyphPoint;

/// The most points of an outline.
pub const MOST_POINTS: usize = 65_536;

/// The points of an outline, along the line or up: those of a glyph that is drawn by itself, or the
/// offsets of components, each a contour by itself.
#[derive(Clone, Copy)]
pub struct OutlineAxis<'a> {
    pub points: &'a [GlyphPoint],
    pub vertical: bool,
}

/// Nothing is listed.
#[tactic(auto, using(crate::proofs::FillLemmas::filled_next, crate::proofs::FillLemmas::filled_end))]
fn clear(listed: &mut [Listed])
    ensures value { listed.new ≡ replicate (length listed.old) untouched }
    ensures same { length listed.new ≡ length listed.old }
{
    for k in 0..listed.len() {
        listed[k] = Listed {
            delta: 0.0,
            touched: false,
        };
    }
}

/// A delta is added to a point.
fn touch(listed: &mut [Listed], i: usize, delta: f32)
    ensures value { listed.new ≡ Outline.touch listed.old i delta }
    ensures same { length listed.new ≡ length listed.old }
{
    if i < listed.len() {
        listed[i] = Listed {
            delta: listed[i].delta + delta,
            touched: true,
        };
    }
}

/// What a tuple lists, whose deltas begin at `at`.
#[tactic(auto, using(crate::proofs::TimesLemmas::times_step), unfolding(crate::specs::Outline::listed_of))]
fn list(bytes: &[u8], points: &TuplePoints, at: usize, scalar: f32, listed: &mut [Listed])
    requires place { points.now.at < 2 ^ 34 }
    requires few { points.now.count < 2 ^ 15 }
    requires at { at < 2 ^ 34 }
    ensures value { listed.new ≡ Outline.listed_of bytes.now points.now at scalar (length listed.old) }
    ensures same { length listed.new ≡ length listed.old }
{
    clear(listed);
    let mut numbers = PointNumbers::begin(points.at);
    let mut deltas = PackedDeltas::begin(at);
    for _i in 0..points.count {
        numbers = numbers.next(bytes);
        deltas = deltas.next(bytes);
        touch(listed, numbers.number, scaled(deltas.value, scalar));
    }
}

/// What waits for a point goes to it, and this waits.
fn flush_point(moving: &mut [Moving], k: usize, listed: &[Listed])
    ensures { moving.new ≡ Outline.flush_step listed.now k moving.old }
{
    if k < moving.len() {
        moving[k] = Moving {
            position: moving[k].position + moving[k].pending,
            pending: listed_at(listed, k).delta,
        };
    }
}

/// What waits goes to the points, and what is listed waits.
#[tactic(auto, using(crate::proofs::TimesLemmas::steps_next), unfolding(crate::specs::Outline::flushed))]
fn flush(listed: &[Listed], moving: &mut [Moving])
    ensures { moving.new ≡ Outline.flushed listed.now moving.old }
{
    for k in 0..listed.len() {
        flush_point(moving, k, listed);
    }
}

/// This is added to what waits for a point.
fn add_pending(moving: &mut [Moving], k: usize, delta: f32)
    ensures { moving.new ≡ Outline.added moving.old k delta }
{
    if k < moving.len() {
        moving[k].pending = moving[k].pending + delta;
    }
}

/// A delta is added to each of so many points, of which the first one's begins at `at`.
#[tactic(auto, using(crate::proofs::TimesLemmas::steps_next), unfolding(crate::specs::Outline::all_added))]
fn add_all(bytes: &[u8], at: usize, scalar: f32, count: u32, moving: &mut [Moving])
    requires at { at < 2 ^ 34 }
    ensures { moving.new ≡ Outline.all_added bytes.now at scalar count moving.old }
{
    let mut deltas = PackedDeltas::begin(at);
    for k in 0..count {
        deltas = deltas.next(bytes);
        add_pending(moving, k as usize, scaled(deltas.value, scalar));
    }
}

/// How many points tuples share.
fn shared_count(bytes: &[u8]) -> u16
    ensures { result ≡ Outline.shared_count bytes.now }
{
    if has_shared_points(bytes) {
        count(bytes, usize::from(u16_at(bytes, 2)))
    } else {
        0
    }
}

impl TupleWalk {
    /// No tuple is read yet, and so much may be.
    fn begin(glyph: &GlyphVariations<'_>, left: u32) -> TupleWalk
        ensures value { result ≡ Outline.walk_begun (stored glyph.now) left }
        ensures place { result.place < 2 ^ 18 }
    {
        TupleWalk {
            header: 4,
            place: first_place(glyph.bytes),
            left: left.saturating_sub(u32::from(shared_count(glyph.bytes))),
            ended: false,
            moving: Moving {
                position: 0.0,
                pending: 0.0,
            },
        }
    }

    /// So much is read.
    fn charge(self, cost: u32) -> TupleWalk
        ensures { result ≡ Outline.charged cost self }
    {
        let mut next = self;
        next.left = self.left.saturating_sub(cost);
        next
    }

    /// More would be read than may be.
    fn spend(self) -> TupleWalk
        ensures { result ≡ Outline.spent self }
    {
        let mut next = self;
        next.left = 0;
        next.ended = true;
        next
    }
}

impl<'a> OutlineAxis<'a> {
    /// How many points there are, with the four for metrics.
    fn all(&self) -> u32
        requires { length self.now.points.now ≤ 65536 }
        ensures value { result ≡ Outline.all_points self.now.points.now }
        ensures few { result ≤ 65540 }
    {
        self.points.len() as u32 + 4
    }

    /// The coordinate of all points.
    fn target(&self) -> Target
        requires { length self.now.points.now ≤ 65536 }
        ensures value { result ≡ Outline.target_of self.now.points.now self.now.vertical }
        ensures few { result.count ≤ 65540 }
    {
        Target {
            point: 0,
            count: self.all(),
            vertical: self.vertical,
        }
    }

    /// A tuple is added.
    fn add(
        &self,
        bytes: &[u8],
        points: &TuplePoints,
        scalar: f32,
        listed: &mut [Listed],
        moving: &mut [Moving],
    )
        requires small { length self.now.points.now ≤ 65536 }
        requires same { length listed.old ≡ length self.now.points.now }
        requires place { points.now.at < 2 ^ 33 }
        requires few { points.now.count < 2 ^ 15 }
        requires deltas { points.now.deltas < 2 ^ 33 }
        ensures value { moving.new ≡ Outline.tuple_moved bytes.now points.now scalar self.now.points.now self.now.vertical moving.old }
        ensures same { length listed.new ≡ length listed.old }
    {
        let at = deltas_at(bytes, points, &self.target());
        if points.count == 0 {
            add_all(bytes, at, scalar, self.points.len() as u32, moving);
            return;
        }
        list(bytes, points, at, scalar, listed);
        flush(listed, moving);
        spread_all(self.points, self.vertical, listed, moving);
    }

    /// The next tuple is added, which takes part so far.
    fn with_tuple(
        &self,
        glyph: &GlyphVariations<'_>,
        walk: TupleWalk,
        scalar: f32,
        listed: &mut [Listed],
        moving: &mut [Moving],
    ) -> TupleWalk
        requires header { walk.header < 2 ^ 32 }
        requires place { walk.place < 2 ^ 32 }
        requires small { length self.now.points.now ≤ 65536 }
        requires same { length listed.old ≡ length self.now.points.now }
        ensures value { Outline.walked result moving.new ≡ Outline.with_tuple (stored glyph.now) self.now.points.now self.now.vertical
            scalar (Sums.points_of (stored glyph.now).bytes walk.header walk.place) (Outline.walked walk moving.old) }
        ensures same { length listed.new ≡ length listed.old }
        ensures header { result.header ≤ walk.header + 524288 }
        ensures place { result.place ≤ walk.place + 65535 }
    {
        let points = points_of(glyph.bytes, walk.header, walk.place);
        let cost = delta_count(&points, &self.target()) + self.all();
        let passed = walk.passed(glyph);
        if passed.left < cost {
            return walk.spend();
        }
        self.add(glyph.bytes, &points, scalar, listed, moving);
        passed.charge(cost)
    }

    /// The next tuple is added, if it takes part.
    fn next(
        &self,
        glyph: &GlyphVariations<'_>,
        walk: TupleWalk,
        listed: &mut [Listed],
        moving: &mut [Moving],
    ) -> TupleWalk
        requires header { walk.header < 2 ^ 32 }
        requires place { walk.place < 2 ^ 32 }
        requires small { length self.now.points.now ≤ 65536 }
        requires same { length listed.old ≡ length self.now.points.now }
        ensures value { Outline.walked result moving.new ≡ Outline.tuple_step (stored glyph.now) self.now.points.now self.now.vertical
            (Outline.walked walk moving.old) }
        ensures same { length listed.new ≡ length listed.old }
        ensures header { result.header ≤ walk.header + 524288 }
        ensures place { result.place ≤ walk.place + 65535 }
    {
        if walk.ended {
            return walk;
        }
        if walk.left < 4 + u32::from(glyph.axes) {
            return walk.spend();
        }
        if !walk.is_whole(glyph) {
            return walk.end();
        }
        let scalar = scalar(glyph, walk.header);
        if scalar == 0.0 {
            return walk.passed(glyph);
        }
        self.with_tuple(glyph, walk, scalar, listed, moving)
    }

    /// Where the points stand in the default instance.
    #[tactic(auto, using(crate::proofs::FillLemmas::mapped_next, crate::proofs::FillLemmas::mapped_end))]
    fn begin(&self, moving: &mut [Moving])
        requires same { length moving.old ≡ length self.now.points.now }
        ensures { moving.new ≡ map (Outline.begun_point self.now.vertical) self.now.points.now }
    {
        for k in 0..self.points.len() {
            moving[k] = Moving {
                position: place(self.points[k], self.vertical),
                pending: 0.0,
            };
        }
    }

    /// Writes where the points come to stand, what waits for each beside its place, and returns how
    /// much may still be read, of `left` deltas, points and coordinates of peaks; 0 if more would
    /// have to be read. `listed` is room to work in.
    #[tactic(auto, using(crate::proofs::TimesLemmas::times_step), unfolding(crate::specs::Outline::outline_moved))]
    pub fn move_points(
        &self,
        glyph: &GlyphVariations<'_>,
        left: u32,
        listed: &mut [Listed],
        moving: &mut [Moving],
    ) -> u32
        requires few { length self.now.points.now ≤ 65536 }
        requires listed { length listed.old ≡ length self.now.points.now }
        requires moving { length moving.old ≡ length self.now.points.now }
        ensures left { result ≡ (Outline.outline_moved (stored glyph.now) self.now.points.now self.now.vertical left).walk.left }
        ensures moving { moving.new ≡ (Outline.outline_moved (stored glyph.now) self.now.points.now self.now.vertical left).moving }
        ensures listed { length listed.new ≡ length listed.old }
    {
        self.begin(moving);
        let mut walk = TupleWalk::begin(glyph, left);
        for _i in 0..u16_at(glyph.bytes, 0) % 4096 {
            walk = self.next(glyph, walk, listed, moving);
        }
        walk.left
    }
}
