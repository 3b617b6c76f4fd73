//! Where the left point for the metrics of a glyph stands at coordinates (OpenType, "gvar",
//! "Phantom points"): what is drawn begins there.
ghost use Rattle.std.specs.Prelude.{◌≡◌};
ghost use Rattle.glyph_variations.specs.Times.{times};
ghost use Rattle.glyph_outlines.specs.Lefts;

use super::Outlines;
use glyph_variations::glyph::GlyphVariations;
use glyph_variations::metric_points::metrics_component;
use shape_font::moved::{left, left_at};

/// How often the metrics of a glyph are those of a component at most.
const MOST_STEPS: u32 = 8;

impl<'a> Outlines<'a> {
    /// The component whose metrics a glyph has, or the glyph itself.
    fn metrics_step(&self, glyph: u16) -> u16
        ensures { result ≡ Lefts.metrics_step self.now glyph }
    {
        match metrics_component(self.bytes(glyph)) {
            Some(component) => component,
            None => glyph,
        }
    }

    /// The glyph whose metrics this one has.
    #[tactic(auto, using(glyph_variations::proofs::TimesLemmas::times_step), unfolding(crate::specs::Lefts::metrics_glyph))]
    pub(super) fn metrics_glyph(&self, glyph: u16) -> u16
        ensures { result ≡ Lefts.metrics_glyph self.now glyph }
    {
        let mut there = glyph;
        for _i in 0..MOST_STEPS {
            there = self.metrics_step(there);
        }
        there
    }

    /// Where the left point stands at the coordinates; at 0 if the outline isn't whole.
    #[tactic(auto, unfolding(crate::specs::Lefts::left_at))]
    pub(super) fn left_at(&self, glyph: u16) -> f32
        ensures { result ≡ Lefts.left_at self.now glyph }
    {
        let outline = self.bytes(glyph);
        let number = u32::from(glyph);
        let variations = GlyphVariations::of(self.gvar, self.glyph_count, number, self.coordinates);
        let left = left(self.hmtx, self.h_count, number, outline);
        left_at(&variations, outline, left).unwrap_or(0.0)
    }
}
