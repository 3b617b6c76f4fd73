//! Boxes in pixels, and in units of the font.
ghost use Rattle.std.specs.Prelude.{◌≡◌};
ghost use Rattle.bitmap_tables.specs.Boxes;

use font_variations::deltas::rounded;
use shape_common::hb_glyph_extents_t;
use std::num::nearest_i32_to_f32;

/// So many pixels in units of the font, at a size of `ppem` pixels to the em square: to the nearest
/// unit, halves up, in binary32, as HarfBuzz computes it.
#[tactic(auto, unfolding(crate::specs::Boxes::scaled))]
fn scaled(units_per_em: u16, ppem: u16, pixels: i32) -> i32
    ensures { result ≡ Boxes.scaled units_per_em ppem pixels }
{
    let unit = nearest_i32_to_f32(i32::from(units_per_em)) / nearest_i32_to_f32(i32::from(ppem));
    rounded(nearest_i32_to_f32(pixels) * unit)
}

/// A box of pixels in units of the font, at a size of so many pixels to the em square, across and
/// upwards. Each number is scaled by itself.
pub(crate) fn in_units(
    pixels: &hb_glyph_extents_t,
    units_per_em: u16,
    across: u16,
    upwards: u16,
) -> hb_glyph_extents_t
    ensures { result ≡ Boxes.in_units units_per_em across upwards pixels.now }
{
    hb_glyph_extents_t {
        x_bearing: scaled(units_per_em, across, pixels.x_bearing),
        y_bearing: scaled(units_per_em, upwards, pixels.y_bearing),
        width: scaled(units_per_em, across, pixels.width),
        height: scaled(units_per_em, upwards, pixels.height),
    }
}
