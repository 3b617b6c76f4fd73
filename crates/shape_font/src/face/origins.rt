//! The origins of glyphs in vertical lines.
ghost use Rattle.std.specs.Prelude.{◌≡◌, ◌≤ℤ◌, pos, negsuc};
ghost use Rattle.shape_font.specs.Metrics.{listed_origin};
ghost use Rattle.shape_font.specs.Face;

use super::FontFace;
use crate::bytes::u32_at;
use crate::metrics;
use font_variations::metrics::origin_delta;
use shape_buffer::GlyphId;
use shape_buffer::wrapping::sum;

impl<'a> FontFace<'a> {
    /// Half of the room that a box of this height leaves in a line.
    fn half_room(&self, height: i32) -> i32
        requires long { negsuc 65535 ≤ℤ height }
        requires short { height ≤ℤ pos 65535 }
        ensures { result ≡ Face.half_room self.now height }
    {
        metrics::half_below(self.height() + height)
    }

    /// The height of the origin over a glyph's box.
    fn over(&self, glyph: u32) -> i32
        ensures { result ≡ Face.origin_over self.now glyph (Face.inked_of self.now glyph) }
    {
        let inked = self.inked(glyph);
        match metrics::bearing(self.vmtx, self.v_count, glyph) {
            Some(bearing) => sum(inked.y_bearing, bearing),
            None => sum(inked.y_bearing, self.half_room(inked.height)),
        }
    }

    /// The height of the origin of a glyph with a box: at coordinates that of its top point, else
    /// over the box.
    #[tactic(auto, unfolding(crate::specs::Face::origin_above))]
    fn above(&self, glyph: u32) -> i32
        ensures { result ≡ Face.origin_above self.now glyph }
    {
        if self.coordinates.is_empty() {
            return self.over(glyph);
        }
        match self.height_at(self.metrics_glyph(glyph)) {
            Some(height) => height,
            None => self.over(glyph),
        }
    }

    /// The height of the origin by `VORG`, to which `VVAR` adds at the coordinates if it has a map
    /// for origins.
    fn listed_origin(&self, glyph: u32) -> i32
        ensures { result ≡ Face.listed_origin_at self.now.coordinates.now self.now.vvar.now glyph
            (listed_origin self.now.vorg.now glyph) }
    {
        let height = metrics::origin(self.vorg, glyph);
        if self.coordinates.is_empty() {
            return height;
        }
        match origin_delta(self.vvar, self.coordinates, glyph) {
            Some(delta) => sum(height, delta),
            None => height,
        }
    }

    /// The height of the origin of vertical lines: by `VORG`, by the box, or at the top of a line.
    pub(super) fn origin(&self, glyph: GlyphId) -> i32
        ensures { result ≡ Face.v_origin_of self.now glyph }
    {
        if u32_at(self.vorg, 0) != 0 {
            self.listed_origin(glyph.0)
        } else if self.has_box(glyph) {
            self.above(glyph.0)
        } else {
            self.ascent() as i32
        }
    }
}
