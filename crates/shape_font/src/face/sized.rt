//! What the face returns at its size, as HarfBuzz rounds it: each number of the font by itself, and
//! what is added to a number at coordinates with it.
ghost use Rattle.std.specs.Prelude.{◌≡◌};
ghost use Rattle.shape_font.specs.Face;

use super::FontFace;
use crate::bytes::u32_at;
use crate::colors::{Coloring, coloring_of};
use crate::metrics;
use font_sizes::{Scale, Size, across};
use font_variations::deltas::rounded;
use font_variations::metrics::origin_shift;
use shape_buffer::wrapping::{difference, negative, sum};
use shape_buffer::{GlyphId, hb_glyph_extents_t};
use std::num::nearest_i32_to_f32;

impl<'a> FontFace<'a> {
    /// The same font with an em square of this size, in whose units all that it returns is then;
    /// negative sizes mirror it. `units_per_em` stays that of the font.
    pub fn at_size(self, size: Size) -> FontFace<'a>
        ensures { result ≡ Face.at_size self.entry size }
    {
        FontFace {
            scale: Some(Scale::new(size, self.units_per_em)),
            ..self
        }
    }

    /// What the numbers of the font are multiplied by; none at no size.
    pub fn scale(&self) -> Option<Scale>
        ensures { result ≡ self.now.scale }
    {
        self.scale
    }

    /// The same font with an em square of so many points, by which `trak` tracks; 0 or less, or no
    /// number, is no size that is known.
    pub fn at_points(self, points: f32) -> FontFace<'a>
        ensures { result ≡ record self.entry { points = points } }
    {
        FontFace { points, ..self }
    }

    /// How many points the em square has; 0 if that is not known.
    pub fn points(&self) -> f32
        ensures { result ≡ self.now.points }
    {
        self.points
    }

    /// How wide and high the em square is.
    pub(super) fn sized_em(&self) -> Size
        ensures { result ≡ Face.sized_em self.now }
    {
        match &self.scale {
            Some(scale) => scale.size,
            None => {
                let units = i32::from(self.units_per_em);
                Size { x: units, y: units }
            }
        }
    }

    /// The advance of a glyph.
    pub(super) fn sized_advance(&self, glyph: GlyphId) -> i32
        ensures { result ≡ Face.sized_h_advance self.now glyph }
    {
        across(self.scale, self.advance(glyph))
    }

    /// The advance downwards.
    pub(super) fn sized_advance_down(&self, glyph: GlyphId) -> i32
        ensures { result ≡ Face.sized_v_advance self.now glyph }
    {
        match &self.scale {
            Some(_) if self.v_count == 0 => negative(self.sized_height()),
            Some(scale) => scale.up.times(self.advance_down(glyph)),
            None => self.advance_down(glyph),
        }
    }

    /// The height of the origin by `VORG`, with what `VVAR` adds at the coordinates.
    #[tactic(auto, unfolding(crate::specs::Face::listed_height))]
    fn listed_height(&self, glyph: u32) -> f32
        ensures { result ≡ Face.listed_height self.now glyph }
    {
        let height = nearest_i32_to_f32(metrics::origin(self.vorg, glyph));
        if self.coordinates.is_empty() {
            return height;
        }
        height + origin_shift(self.vvar, self.coordinates, glyph)
    }

    /// The box of a glyph of `glyf`, at the coordinates if it has one there.
    #[tactic(auto, unfolding(crate::specs::Face::box_there))]
    fn box_there(&self, glyph: u32) -> hb_glyph_extents_t
        ensures { result ≡ Face.box_there self.now glyph }
    {
        if self.coordinates.is_empty() {
            return self.inked(glyph);
        }
        match self.box_at(glyph) {
            Some(found) => found,
            None => self.inked(glyph),
        }
    }

    /// How far the origin of a glyph stands above the upper side of its box.
    #[tactic(auto, unfolding(crate::specs::Face::bearing_above))]
    fn bearing_above(&self, glyph: u32, side: i32) -> Option<i32>
        ensures { result ≡ Face.bearing_above self.now glyph side }
    {
        if self.coordinates.is_empty() {
            return metrics::bearing(self.vmtx, self.v_count, glyph);
        }
        match self.height_at(self.metrics_glyph(glyph)) {
            Some(height) => Some(difference(height, side)),
            None => metrics::bearing(self.vmtx, self.v_count, glyph),
        }
    }

    /// The height of the origin of a glyph of `glyf` at a size: above its box, or so that the box
    /// stands in the middle of a line.
    #[tactic(auto, unfolding(crate::specs::Face::origin_above_at))]
    fn above_at(&self, scale: &Scale, glyph: u32) -> i32
        ensures { result ≡ Face.origin_above_at self.now scale.now glyph }
    {
        let found = self.box_there(glyph);
        let sized = scale.extents(&found);
        match self.bearing_above(glyph, found.y_bearing) {
            Some(bearing) => sum(sized.y_bearing, scale.up.times(bearing)),
            None => {
                let room = sum(self.sized_height(), sized.height);
                sum(sized.y_bearing, metrics::half_below(room))
            }
        }
    }

    /// The height of the origin of vertical lines at a size.
    fn origin_at(&self, scale: &Scale, glyph: GlyphId) -> i32
        ensures { result ≡ Face.v_origin_at self.now scale.now glyph }
    {
        if u32_at(self.vorg, 0) != 0 {
            rounded(scale.up.stretched(self.listed_height(glyph.0)))
        } else if self.has_box(glyph) {
            self.above_at(scale, glyph.0)
        } else {
            self.ascender()
        }
    }

    /// The height of the origin of vertical lines.
    pub(super) fn sized_origin(&self, glyph: GlyphId) -> i32
        ensures { result ≡ Face.sized_v_origin self.now glyph }
    {
        match &self.scale {
            Some(scale) => self.origin_at(scale, glyph),
            None => self.origin(glyph),
        }
    }

    /// A box of the font at the size of the face.
    fn sized_box(&self, found: &hb_glyph_extents_t) -> hb_glyph_extents_t
        ensures { result ≡ Face.sized_box self.now found.now }
    {
        match &self.scale {
            Some(scale) => scale.extents(found),
            None => *found,
        }
    }

    /// The box of a glyph without a bitmap: as `COLR` says, or else of its outline. None for a
    /// graph of paints that is clipped to no box.
    fn colored(&self, glyph: GlyphId) -> Option<hb_glyph_extents_t>
        ensures { result ≡ Face.colored_extents self.now glyph }
    {
        match coloring_of(self.colr, self.coordinates, glyph.0) {
            Coloring::Plain => {
                let found = self.outlined(glyph)?;
                Some(self.sized_box(&found))
            }
            Coloring::Clipped(found) => Some(self.sized_box(&found)),
            Coloring::Layered(layers) => self.layers_box(layers),
            Coloring::Painted => None,
        }
    }

    /// The box of a glyph: of its bitmap, or else of its colours or of its outline.
    pub(super) fn extents(&self, glyph: GlyphId) -> Option<hb_glyph_extents_t>
        ensures { result ≡ Face.extents_of self.now glyph }
    {
        let units = self.units_per_em;
        match self.bitmaps.glyph_box(self.glyph_count, units, glyph.0) {
            Some(found) => Some(self.sized_box(&found)),
            None => self.colored(glyph),
        }
    }
}
