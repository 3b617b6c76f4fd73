//! The points of glyphs for their metrics, at coordinates.
//!
//! A font without `HVAR` and `VVAR` says by `gvar` how advances vary: the four points that each
//! glyph has after its own move as others do. The top one is where vertical lines have the glyph's
//! origin.
ghost use Rattle.std.specs.Prelude.{◌≡◌, ◌≤◌, ◌<◌, ◌^◌, ◌≤ℤ◌, pos, negsuc};
ghost use Rattle.std.specs.Option.{option_map};
ghost use Rattle.glyph_variations.specs.Times.{times};
ghost use Rattle.shape_font.specs.PointsAt;

use super::FontFace;
use crate::bytes::i16_at;
use crate::metrics;
use crate::moved::left;
use font_variations::deltas::rounded;
use glyph_variations::glyph::GlyphVariations;
use glyph_variations::metric_points::{metrics_component, point_count};
use glyph_variations::sums::{Target, moved_to};
use std::num::nearest_i32_to_f32;

/// How often the metrics of a glyph are those of a component at most.
const MOST_STEPS: u32 = 8;

/// A point for metrics: left, right, top or bottom, numbers 0 to 3, and where it stands in the
/// default instance, along the line or up.
#[derive(Clone, Copy)]
pub(crate) struct MetricPoint {
    pub number: u32,
    pub place: i32,
}

/// The bytes of an outline; empty without a whole header. None if the table doesn't hold it.
fn outline_from(glyf: &[u8], start: usize, end: usize) -> Option<&[u8]>
    requires { start < 2 ^ 32 }
    ensures { option_map (λ t. t.now) result ≡ PointsAt.outline_from glyf.now start end }
{
    if end < start || glyf.len() < end {
        None
    } else if end < start + 10 {
        Some(&[])
    } else {
        Some(&glyf[start..end])
    }
}

impl<'a> FontFace<'a> {
    /// Whether `loca` has a place for the glyph.
    pub(super) fn has_place(&self, glyph: u32) -> bool
        ensures { result ≡ PointsAt.has_place self.now glyph }
    {
        let size = if self.long_places { 4 } else { 2 };
        size * (glyph as usize + 2) <= self.loca.len()
    }

    /// The bytes of a glyph's outline. None if the font doesn't hold it.
    pub(super) fn outline(&self, glyph: u32) -> Option<&'a [u8]>
        ensures { option_map (λ t. t.now) result ≡ PointsAt.outline_of self.now glyph }
    {
        if !self.has_place(glyph) {
            return None;
        }
        let start = metrics::place(self.loca, self.long_places, glyph as usize);
        let end = metrics::place(self.loca, self.long_places, glyph as usize + 1);
        outline_from(self.glyf, start, end)
    }

    /// The component whose metrics a glyph has, or the glyph itself.
    fn metrics_step(&self, glyph: u32) -> u32
        ensures { result ≡ PointsAt.metrics_step self.now glyph }
    {
        let Some(outline) = self.outline(glyph) else {
            return glyph;
        };
        match metrics_component(outline) {
            Some(component) => u32::from(component),
            None => glyph,
        }
    }

    /// The glyph whose metrics this one has.
    #[tactic(auto, using(glyph_variations::proofs::TimesLemmas::times_step), unfolding(crate::specs::PointsAt::metrics_glyph))]
    pub(super) fn metrics_glyph(&self, glyph: u32) -> u32
        ensures { result ≡ PointsAt.metrics_glyph self.now glyph }
    {
        let mut there = glyph;
        for _i in 0..MOST_STEPS {
            there = self.metrics_step(there);
        }
        there
    }

    /// Where a point comes to stand of a glyph that has so many points of its own.
    #[tactic(auto, unfolding(crate::specs::PointsAt::point_at))]
    pub(super) fn point_at(&self, glyph: u32, own: u32, point: MetricPoint) -> f32
        requires few { own ≤ 65536 }
        requires number { point.number < 4 }
        ensures { result ≡ PointsAt.point_at self.now glyph own point }
    {
        let variations = GlyphVariations::of(self.gvar, self.glyph_count, glyph, self.coordinates);
        let target = Target {
            point: own + point.number,
            count: own + 4,
            vertical: 2 <= point.number,
        };
        moved_to(&variations, &target, nearest_i32_to_f32(point.place))
    }

    /// How far it is from one point to another.
    fn between(&self, glyph: u32, own: u32, near: MetricPoint, far: MetricPoint) -> i32
        requires few { own ≤ 65536 }
        requires near { near.number < 4 }
        requires far { far.number < 4 }
        ensures { result ≡ PointsAt.between self.now glyph own near far }
    {
        rounded(self.point_at(glyph, own, far) - self.point_at(glyph, own, near))
    }

    /// Where the top point stands in the default instance.
    fn top(&self, glyph: u32, outline: &[u8]) -> i32
        ensures value { result ≡ PointsAt.top_of self.now glyph outline.now }
        ensures low { negsuc 65535 ≤ℤ result }
        ensures high { result ≤ℤ pos 65535 }
    {
        let bearing = metrics::bearing(self.vmtx, self.v_count, glyph);
        i16_at(outline, 8) + bearing.unwrap_or(0)
    }

    /// Where the bottom one stands.
    fn bottom(&self, glyph: u32, outline: &[u8]) -> i32
        ensures { result ≡ PointsAt.bottom_of self.now glyph outline.now }
    {
        let advance = i32::from(metrics::advance(self.vmtx, self.v_count, glyph));
        self.top(glyph, outline) - advance
    }

    /// The horizontal advance of a glyph at the coordinates. None if its outline isn't there.
    #[tactic(auto, unfolding(crate::specs::PointsAt::width_of))]
    pub(super) fn width_at(&self, glyph: u32) -> Option<i32>
        ensures { result ≡ PointsAt.width_of self.now glyph }
    {
        let outline = self.outline(glyph)?;
        let own = point_count(outline)?;
        let place = left(self.hmtx, self.h_count, glyph, outline);
        let left = MetricPoint { number: 0, place };
        let advance = i32::from(metrics::advance(self.hmtx, self.h_count, glyph));
        let right = MetricPoint {
            number: 1,
            place: place + advance,
        };
        Some(self.between(glyph, own, left, right))
    }

    /// The vertical advance of a glyph at the coordinates, upwards. None if its outline isn't
    /// there.
    #[tactic(auto, unfolding(crate::specs::PointsAt::depth_of))]
    pub(super) fn depth_at(&self, glyph: u32) -> Option<i32>
        ensures { result ≡ PointsAt.depth_of self.now glyph }
    {
        let outline = self.outline(glyph)?;
        let own = point_count(outline)?;
        let bottom = MetricPoint {
            number: 3,
            place: self.bottom(glyph, outline),
        };
        let top = MetricPoint {
            number: 2,
            place: self.top(glyph, outline),
        };
        Some(self.between(glyph, own, bottom, top))
    }

    /// The height of a glyph's origin at the coordinates. None if its outline isn't there.
    #[tactic(auto, unfolding(crate::specs::PointsAt::height_of))]
    pub(super) fn height_at(&self, glyph: u32) -> Option<i32>
        ensures { result ≡ PointsAt.height_of self.now glyph }
    {
        let outline = self.outline(glyph)?;
        let own = point_count(outline)?;
        let place = self.top(glyph, outline);
        let top = MetricPoint { number: 2, place };
        Some(rounded(self.point_at(glyph, own, top)))
    }
}
