//! Points that `gvar` moves, for all who read them at coordinates of a variable font: boxes and
//! advances here, and outlines that are drawn (OpenType, "gvar").
ghost use Rattle.std.specs.Prelude.{◌≡◌, ◌≤ℤ◌, pos, negsuc};
ghost use Rattle.glyph_variations.specs.Glyph.{stored};
ghost use Rattle.shape_font.specs.BoxesAt;
ghost use Rattle.shape_font.specs.PointsAt;

use crate::bytes::i16_at;
use crate::metrics::bearing;
use glyf_points::{Component, GlyphPoint, Placement};
use glyph_variations::glyph::GlyphVariations;
use glyph_variations::metric_points::point_count;
use glyph_variations::sums::{Moving, Target, moved_to};
use std::num::nearest_i32_to_f32;

/// Where a point stands along one coordinate, with what waits to be added to it; in units of the
/// font, in binary32. 0 past the last point.
pub fn coordinate(moving: &[Moving], i: usize) -> f32
    ensures { result ≡ BoxesAt.coordinate moving.now i }
{
    if i < moving.len() {
        moving[i].position + moving[i].pending
    } else {
        0.0 + 0.0
    }
}

/// How far a component is moved in the default instance, in units of the font, as a point; one that
/// is placed by points isn't. A composite glyph has such a point for each of its components, which
/// is a contour by itself.
pub fn offset(component: &Component) -> GlyphPoint
    ensures { result ≡ BoxesAt.offset_of component.now }
{
    let (x, y) = match component.placement {
        Placement::Moved(x, y) => (x, y),
        Placement::OnPoint(_, _) => (0, 0),
    };
    GlyphPoint {
        x,
        y,
        on: true,
        ends: true,
    }
}

/// Where the left point for a glyph's metrics stands in the default instance, in units of the font:
/// as far from the outline's box as its bearing says, which `hmtx` has with `count` long metrics; 0
/// if it has none.
pub fn left(hmtx: &[u8], count: u16, glyph: u32, outline: &[u8]) -> i32
    ensures value { result ≡ PointsAt.left_in hmtx.now count glyph outline.now }
    ensures low { negsuc 65535 ≤ℤ result }
    ensures high { result ≤ℤ pos 65535 }
{
    match bearing(hmtx, count, glyph) {
        Some(bearing) => i16_at(outline, 2) - bearing,
        None => 0,
    }
}

/// Where that point stands at the coordinates of the variations, if it stands at `left` in the
/// default instance. None if the ends of the outline's contours are cut off. Takes at most 8,192
/// deltas, points and coordinates of peaks.
#[tactic(auto, unfolding(crate::specs::PointsAt::moved_left))]
pub fn left_at(variations: &GlyphVariations<'_>, outline: &[u8], left: i32) -> Option<f32>
    ensures { result ≡ PointsAt.moved_left (stored variations.now) outline.now left }
{
    let own = point_count(outline)?;
    let target = Target {
        point: own,
        count: own + 4,
        vertical: false,
    };
    Some(moved_to(variations, &target, nearest_i32_to_f32(left)))
}
