//! Boxes of the bitmaps in a table `CBDT` (OpenType, "CBDT").
ghost use Rattle.std.specs.Prelude.{◌≡◌, ◌<◌, ◌≤◌, ◌^◌};
ghost use Rattle.std.specs.Option.{IfSome};
ghost use Rattle.bitmap_tables.specs.Cbdt;
ghost use Rattle.bitmap_tables.specs.declared.cblc.Image.{Image};

use crate::boxes::in_units;
use crate::cblc::{
    Image, image_of, is_read, largest_strike, pixels_across, pixels_upwards, strike_count,
};
use font_bytes::bytes::{i8_at, u8_at};
use shape_common::hb_glyph_extents_t;

/// How many bytes stand before the image in this format, those of its metrics first; none in a
/// format without metrics there.
fn header_size(format: u16) -> Option<usize>
    ensures { result ≡ Cbdt.header_size format }
{
    match format {
        17 => Some(9),
        18 => Some(12),
        _ => None,
    }
}

/// Whether the table holds the whole bitmap, and that a header of its format.
fn is_whole(cbdt: &[u8], image: &Image) -> bool
    requires near { image.now.start < 2 ^ 33 }
    requires short { image.now.length < 2 ^ 32 }
    ensures { result ≡ Cbdt.is_whole cbdt.now image.now }
{
    match header_size(image.format) {
        Some(size) => size <= image.length && image.start + image.length <= cbdt.len(),
        None => false,
    }
}

/// The box that the metrics at `at` say, in pixels.
fn metrics_box(cbdt: &[u8], at: usize) -> hb_glyph_extents_t
    requires { at < 2 ^ 33 }
    ensures { result ≡ Cbdt.metrics_box cbdt.now at }
{
    hb_glyph_extents_t {
        x_bearing: i8_at(cbdt, at + 2),
        y_bearing: i8_at(cbdt, at + 3),
        width: i32::from(u8_at(cbdt, at + 1)),
        height: -i32::from(u8_at(cbdt, at)),
    }
}

/// The box of the glyph's bitmap in strike number `i`, in pixels.
fn strike_box(cblc: &[u8], cbdt: &[u8], i: u32, glyph: u32) -> Option<hb_glyph_extents_t>
    ensures { result ≡ Cbdt.strike_box cblc.now cbdt.now i glyph }
{
    match image_of(cblc, i, glyph) {
        Some(image) if is_whole(cbdt, &image) => Some(metrics_box(cbdt, image.start)),
        _ => None,
    }
}

/// The box of a glyph in units of the font, by the strike of `CBLC` with the most pixels; none
/// without such a strike, or if that has no bitmap with metrics for the glyph. Takes a step for
/// each strike, and one for each subtable of that strike.
pub fn cbdt_box(
    cblc: &[u8],
    cbdt: &[u8],
    units_per_em: u16,
    glyph: u32,
) -> Option<hb_glyph_extents_t>
    ensures { result ≡ Cbdt.cbdt_box cblc.now cbdt.now units_per_em glyph }
{
    if !is_read(cblc) || !is_read(cbdt) || strike_count(cblc) == 0 {
        return None;
    }
    let i = largest_strike(cblc);
    let (across, upwards) = (pixels_across(cblc, i), pixels_upwards(cblc, i));
    if across == 0 || upwards == 0 {
        return None;
    }
    match strike_box(cblc, cbdt, i, glyph) {
        Some(pixels) => Some(in_units(
            &pixels,
            units_per_em,
            u16::from(across),
            u16::from(upwards),
        )),
        None => None,
    }
}
