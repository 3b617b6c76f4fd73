//! How many steps the metrics of a glyph take at coordinates.
ghost use Rattle.std.specs.Prelude.{◌≡◌, ◌≤◌};
ghost use Rattle.shape_font.specs.Steps;

use super::FontFace;
use font_variations::metrics::advance_steps;
use glyph_variations::sums::MOST_STEPS;
use shape_buffer::GlyphId;

impl<'a> FontFace<'a> {
    /// How many steps the advance of a glyph takes at most at the coordinates: one for each column
    /// of its row in `HVAR` and for each axis of the column's region, or those of two points by
    /// `gvar`; none at the default instance.
    pub fn advance_steps(&self, glyph: GlyphId) -> u32
        ensures value { result ≡ Steps.advance_steps self.now glyph.0 }
        ensures few { result ≤ 16384 }
    {
        if self.coordinates.is_empty() {
            return 0;
        }
        if !self.hvar.is_empty() {
            return advance_steps(self.hvar, glyph.0);
        }
        if self.gvar.is_empty() {
            0
        } else {
            2 * MOST_STEPS
        }
    }
}
