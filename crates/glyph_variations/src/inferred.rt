//! Deltas of points that a tuple doesn't list, from those of the touched points next to them
//! (OpenType, "gvar", "Inferred deltas for un-referenced point numbers"), along one coordinate.
ghost use Rattle.std.specs.Prelude.{◌≡◌, ◌<◌, ◌≤◌, ◌+◌, ◌-◌, ◌^◌, length};
ghost use Rattle.std.specs.Option.{IfSome};
ghost use Rattle.glyph_variations.specs.Inferred;

use crate::sums::Moving;
use glyf_points::GlyphPoint;
use std::num::nearest_i32_to_f32;

/// What a tuple lists for a point: the sum of its deltas, and whether there is one.
#[derive(Clone, Copy)]
pub struct Listed {
    pub delta: f32,
    pub touched: bool,
}

/// A touched point: where it stands in the default instance, and its delta.
#[derive(Clone, Copy)]
pub(crate) struct Neighbor {
    pub place: f32,
    pub delta: f32,
}

/// The points of a contour, from `start` up to `end` without it.
#[derive(Clone, Copy)]
pub(crate) struct Contour {
    pub start: usize,
    pub end: usize,
}

/// Where a point stands in the default instance, along the line or up.
pub(crate) fn place(point: GlyphPoint, vertical: bool) -> f32
    ensures { result ≡ Inferred.place_of vertical point }
{
    nearest_i32_to_f32(if vertical { point.y } else { point.x })
}

/// Where point `i` stands.
fn place_at(points: &[GlyphPoint], vertical: bool, i: usize) -> f32
    ensures { result ≡ Inferred.place_at points.now vertical i }
{
    let point = if i < points.len() {
        points[i]
    } else {
        GlyphPoint {
            x: 0,
            y: 0,
            on: false,
            ends: false,
        }
    };
    place(point, vertical)
}

/// What is listed for point `i`.
pub(crate) fn listed_at(listed: &[Listed], i: usize) -> Listed
    ensures { result ≡ Inferred.listed_at listed.now i }
{
    if i < listed.len() {
        listed[i]
    } else {
        Listed {
            delta: 0.0,
            touched: false,
        }
    }
}

/// What waits to be added to point `i` is this.
fn set_pending(moving: &mut [Moving], i: usize, pending: f32)
    ensures { moving.new ≡ Inferred.with_pending moving.old i pending }
{
    if i < moving.len() {
        moving[i].pending = pending;
    }
}

/// In proportion to where a point stands between two others.
fn between(place: f32, a: Neighbor, b: Neighbor) -> f32
    ensures { result ≡ Inferred.between place a b }
{
    a.delta + (place - a.place) / (b.place - a.place) * (b.delta - a.delta)
}

/// The delta of a point between two touched ones.
#[tactic(auto, unfolding(crate::specs::Inferred::inferred))]
fn inferred(place: f32, a: Neighbor, b: Neighbor) -> f32
    ensures { result ≡ Inferred.inferred place a b }
{
    if a.place == b.place {
        return if a.delta == b.delta { a.delta } else { 0.0 };
    }
    let (low, high) = if a.place < b.place { (a, b) } else { (b, a) };
    if low.place < place {
        if place < high.place {
            between(place, a, b)
        } else {
            high.delta
        }
    } else {
        low.delta
    }
}

/// The last touched one of so many points from `start` on.
#[tactic(auto, using(crate::proofs::TouchLemmas::last_here, crate::proofs::TouchLemmas::last_next))]
fn last_touched(listed: &[Listed], start: usize, count: usize) -> Option<usize>
    requires start { start < 2 ^ 40 }
    requires count { count < 2 ^ 40 }
    ensures value { result ≡ Inferred.last_touched listed.now start count }
    ensures near { IfSome result (λ i. i < start + count) }
{
    let mut found = None;
    for k in 0..count {
        if listed_at(listed, start + k).touched {
            found = Some(start + k);
        }
    }
    found
}

/// The first touched one of so many points from `start` on.
#[tactic(auto, using(crate::proofs::TouchLemmas::first_next, crate::proofs::TouchLemmas::first_here, crate::proofs::TouchLemmas::first_end))]
fn first_touched(listed: &[Listed], start: usize, count: usize) -> Option<usize>
    requires start { start < 2 ^ 41 }
    requires count { count < 2 ^ 40 }
    ensures value { result ≡ Inferred.first_touched listed.now start count }
{
    for k in 0..count {
        if listed_at(listed, start + k).touched {
            return Some(start + k);
        }
    }
    None
}

/// A point and its delta.
fn neighbor_at(points: &[GlyphPoint], vertical: bool, listed: &[Listed], i: usize) -> Neighbor
    ensures { result ≡ Inferred.neighbor points.now vertical listed.now i }
{
    Neighbor {
        place: place_at(points, vertical, i),
        delta: listed_at(listed, i).delta,
    }
}

/// The points of a contour that aren't touched get their deltas, unless none is touched.
#[tactic(auto, using(crate::proofs::TouchLemmas::before_begun, crate::proofs::TouchLemmas::after_begun, crate::proofs::TouchLemmas::before_here, crate::proofs::TouchLemmas::before_next, crate::proofs::TouchLemmas::after_next, crate::proofs::TouchLemmas::spread_over, crate::proofs::TouchLemmas::spread_next), unfolding(crate::specs::Inferred::spread))]
fn spread(
    points: &[GlyphPoint],
    vertical: bool,
    contour: Contour,
    listed: &[Listed],
    moving: &mut [Moving],
)
    requires small { contour.end < 2 ^ 40 }
    requires order { contour.start ≤ contour.end }
    ensures { moving.new ≡ Inferred.spread points.now vertical contour listed.now moving.old }
{
    let size = contour.end - contour.start;
    let Some(last) = last_touched(listed, contour.start, size) else {
        return;
    };
    let first = first_touched(listed, contour.start, size).unwrap_or(0);
    let (mut before, mut after) = (last, first);
    for k in 0..size {
        let i = contour.start + k;
        if listed_at(listed, i).touched {
            before = i;
            after = first_touched(listed, contour.start + (k + 1), size - (k + 1)).unwrap_or(first);
        } else {
            let delta = inferred(
                place_at(points, vertical, i),
                neighbor_at(points, vertical, listed, before),
                neighbor_at(points, vertical, listed, after),
            );
            set_pending(moving, i, delta);
        }
    }
}

/// The points of all contours that aren't touched get their deltas. Takes a few steps for each
/// point.
#[tactic(auto, using(crate::proofs::TimesLemmas::steps_next), unfolding(crate::specs::Inferred::all_spread))]
pub(crate) fn spread_all(
    points: &[GlyphPoint],
    vertical: bool,
    listed: &[Listed],
    moving: &mut [Moving],
)
    requires few { length points.now < 2 ^ 32 }
    ensures { moving.new ≡ Inferred.all_spread points.now vertical listed.now moving.old }
{
    let mut start: usize = 0;
    for i in 0..points.len() {
        if points[i].ends {
            let contour = Contour { start, end: i + 1 };
            spread(points, vertical, contour, listed, moving);
            start = i + 1;
        }
    }
}
