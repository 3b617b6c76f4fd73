//! The box of a glyph in colours: that of its layers together, or the one that it is clipped to.
ghost use Rattle.std.specs.Prelude.{◌≡◌};
ghost use Rattle.shape_font.specs.Face;
ghost use Rattle.shape_font.specs.Layers as layer_rules;

use super::FontFace;
use super::boxes::{MOST_BOX_STEPS, Walked};
use crate::colors::{Layers, layer_glyph};
use crate::placed::{Bounds, Place, greatest, least, widened};
use font_sizes::Scale;
use shape_buffer::wrapping::sum;
use shape_buffer::{GlyphId, hb_glyph_extents_t};
use std::num::{nearest_i32_to_f32, saturating_f32_to_i32};

/// How many layers a glyph has at most that has a box, where the box of a layer stands in `glyf`.
pub(crate) const MOST_LAYERS: u16 = 4_096;

/// How many it has at most where the outline of each layer is walked over for its box.
pub(crate) const MOST_WALKED: u16 = 64;

/// The corners of a box.
fn corners(extents: &hb_glyph_extents_t) -> Bounds
    ensures { result ≡ layer_rules.corners extents.now }
{
    let right = sum(extents.x_bearing, extents.width);
    let bottom = sum(extents.y_bearing, extents.height);
    Bounds {
        low: Place {
            x: nearest_i32_to_f32(extents.x_bearing),
            y: nearest_i32_to_f32(bottom),
        },
        high: Place {
            x: nearest_i32_to_f32(right),
            y: nearest_i32_to_f32(extents.y_bearing),
        },
    }
}

/// The least box that holds a box and that of a layer, which counts only if it has an area.
fn with_layer(bounds: Option<Bounds>, layer: Option<Bounds>) -> Option<Bounds>
    ensures { result ≡ layer_rules.with_layer bounds layer }
{
    match layer {
        Some(layer) if layer.low.x < layer.high.x && layer.low.y < layer.high.y => {
            widened(widened(bounds, layer.low), layer.high)
        }
        _ => bounds,
    }
}

/// A place at a size.
fn place_at(scale: &Scale, place: Place) -> Place
    ensures { result ≡ layer_rules.place_at scale.now place }
{
    Place {
        x: scale.across.stretched(place.x),
        y: scale.up.stretched(place.y),
    }
}

/// A box at a size, whose corners change places where the size is negative.
fn bounds_at(scale: &Scale, bounds: &Bounds) -> Bounds
    ensures { result ≡ layer_rules.bounds_at scale.now bounds.now }
{
    let low = place_at(scale, bounds.low);
    let high = place_at(scale, bounds.high);
    Bounds {
        low: Place {
            x: least(low.x, high.x),
            y: least(low.y, high.y),
        },
        high: Place {
            x: greatest(low.x, high.x),
            y: greatest(low.y, high.y),
        },
    }
}

/// A box in whole numbers: its sides, and how far they lie apart, towards 0.
#[tactic(auto, unfolding(crate::specs::Layers::whole_box))]
fn whole_box(bounds: &Bounds) -> hb_glyph_extents_t
    ensures { result ≡ layer_rules.whole_box bounds.now }
{
    hb_glyph_extents_t {
        x_bearing: saturating_f32_to_i32(bounds.low.x),
        y_bearing: saturating_f32_to_i32(bounds.high.y),
        width: saturating_f32_to_i32(bounds.high.x - bounds.low.x),
        height: saturating_f32_to_i32(bounds.low.y - bounds.high.y),
    }
}

/// The box of layers at a size, or in units of the font; an empty one if none has an area.
fn covered(scale: Option<Scale>, bounds: Option<Bounds>) -> hb_glyph_extents_t
    ensures { result ≡ layer_rules.covered scale bounds }
{
    match (bounds, scale) {
        (Some(bounds), Some(scale)) => whole_box(&bounds_at(&scale, &bounds)),
        (Some(bounds), None) => whole_box(&bounds),
        (None, _) => hb_glyph_extents_t {
            x_bearing: 0,
            y_bearing: 0,
            width: 0,
            height: 0,
        },
    }
}

impl<'a> FontFace<'a> {
    /// Whether the boxes of the face's outlines stand in `glyf`.
    fn has_stated_boxes(&self) -> bool
        ensures { result ≡ Face.has_stated_boxes self.now }
    {
        self.outlines && self.coordinates.is_empty()
    }

    /// The box of a layer, none past the last glyph, and how much of so much may still be read
    /// after it. Refuses where the box isn't known.
    fn layer_walked(&self, glyph: u32, left: u32) -> Option<Walked>
        ensures { result ≡ Face.layer_walked self.now left glyph }
    {
        if u32::from(self.glyph_count) <= glyph {
            return Some(Walked { bounds: None, left });
        }
        if self.outlines && !self.coordinates.is_empty() {
            return self.bounds_there(glyph, left);
        }
        let found = self.outlined(GlyphId(glyph))?;
        Some(Walked {
            bounds: Some(corners(&found)),
            left,
        })
    }

    /// The box of the layers together. Refuses where that of one isn't known.
    #[tactic(auto, using(crate::proofs::LayerLemmas::layers_next, crate::proofs::LayerLemmas::layers_refused, crate::proofs::LayerLemmas::layers_end))]
    fn layers_walked(&self, layers: Layers) -> Option<Walked>
        ensures { result
            ≡ Face.layers_from self.now layers.first layers.count Face.no_layer }
    {
        let mut walked = Walked {
            bounds: None,
            left: MOST_BOX_STEPS,
        };
        for k in 0..layers.count {
            let glyph = layer_glyph(self.colr, u32::from(layers.first) + u32::from(k));
            let layer = self.layer_walked(glyph, walked.left)?;
            walked = Walked {
                bounds: with_layer(walked.bounds, layer.bounds),
                left: layer.left,
            };
        }
        Some(walked)
    }

    /// The box of a glyph that is drawn in these layers, at the size of the face; none if there are
    /// too many, or that of one isn't known.
    pub(super) fn layers_box(&self, layers: Layers) -> Option<hb_glyph_extents_t>
        ensures { result ≡ Face.layers_box self.now layers }
    {
        let most = if self.has_stated_boxes() {
            MOST_LAYERS
        } else {
            MOST_WALKED
        };
        if most < layers.count {
            return None;
        }
        let walked = self.layers_walked(layers)?;
        Some(covered(self.scale, walked.bounds))
    }
}
