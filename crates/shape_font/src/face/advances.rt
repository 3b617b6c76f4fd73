//! The advances of glyphs.
ghost use Rattle.std.specs.Prelude.{◌≡◌};
ghost use Rattle.shape_font.specs.PointsAt;
ghost use Rattle.shape_font.specs.Face;

use super::FontFace;
use crate::metrics;
use font_variations::metrics::advance_delta;
use shape_buffer::GlyphId;
use shape_buffer::wrapping::{negative, sum};

/// An advance by the points for metrics, or else that of the default instance.
fn or_default(found: Option<i32>, advance: u16) -> i32
    ensures { result ≡ PointsAt.or_default found advance }
{
    match found {
        Some(there) if 0 < there => there,
        _ => i32::from(advance),
    }
}

impl<'a> FontFace<'a> {
    /// Whether the metrics of a glyph with this bearing vary: only if it has one.
    fn varies(&self, bearing: Option<i32>) -> bool
        ensures { result ≡ Face.varies self.now bearing }
    {
        !self.coordinates.is_empty() && bearing.is_some()
    }

    /// An advance along the line at coordinates, by `HVAR` or else by `gvar`.
    #[tactic(auto, unfolding(crate::specs::Face::width_there))]
    fn width_there(&self, glyph: u32, advance: u16) -> i32
        ensures { result ≡ Face.width_there self.now glyph advance }
    {
        if self.hvar.is_empty() {
            let there = self.width_at(self.metrics_glyph(glyph));
            return or_default(there, advance);
        }
        sum(
            i32::from(advance),
            advance_delta(self.hvar, self.coordinates, glyph),
        )
    }

    /// The advance of a glyph along the line by `hmtx`, which may vary.
    #[tactic(auto, unfolding(crate::specs::Face::width_in))]
    fn width(&self, glyph: u32) -> i32
        ensures { result ≡ Face.width_in self.now glyph }
    {
        let advance = metrics::advance(self.hmtx, self.h_count, glyph);
        if self.varies(metrics::bearing(self.hmtx, self.h_count, glyph)) {
            self.width_there(glyph, advance)
        } else {
            i32::from(advance)
        }
    }

    /// An advance down the page at coordinates, by `VVAR` or else by `gvar`.
    #[tactic(auto, unfolding(crate::specs::Face::depth_there))]
    fn depth_there(&self, glyph: u32, advance: u16) -> i32
        ensures { result ≡ Face.depth_there self.now glyph advance }
    {
        if self.vvar.is_empty() {
            let there = self.depth_at(self.metrics_glyph(glyph));
            return or_default(there, advance);
        }
        sum(
            i32::from(advance),
            advance_delta(self.vvar, self.coordinates, glyph),
        )
    }

    /// The advance of a glyph down the page by `vmtx`, which may vary.
    #[tactic(auto, unfolding(crate::specs::Face::depth_in))]
    fn depth(&self, glyph: u32) -> i32
        ensures { result ≡ Face.depth_in self.now glyph }
    {
        let advance = metrics::advance(self.vmtx, self.v_count, glyph);
        if self.varies(metrics::bearing(self.vmtx, self.v_count, glyph)) {
            self.depth_there(glyph, advance)
        } else {
            i32::from(advance)
        }
    }

    /// The advance of a glyph, half of the em square in a font without advances, 0 past the last
    /// glyph.
    pub(super) fn advance(&self, glyph: GlyphId) -> i32
        ensures { result ≡ Face.h_advance_of self.now glyph }
    {
        if u32::from(self.glyph_count) <= glyph.0 {
            0
        } else if self.h_count == 0 {
            i32::from(self.units_per_em / 2)
        } else {
            metrics::short(self.width(glyph.0))
        }
    }

    /// The advance downwards, the height of a line in a font without such advances, 0 past the last
    /// glyph.
    pub(super) fn advance_down(&self, glyph: GlyphId) -> i32
        ensures { result ≡ Face.v_advance_of self.now glyph }
    {
        if self.v_count == 0 {
            -self.height()
        } else if glyph.0 < u32::from(self.glyph_count) {
            metrics::short(negative(self.depth(glyph.0)))
        } else {
            0
        }
    }
}
