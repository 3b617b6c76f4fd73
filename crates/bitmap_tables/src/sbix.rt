//! Boxes of the PNG images in a table `sbix` (OpenType, "sbix").
ghost use Rattle.std.specs.Prelude.{◌≡◌, ◌<◌, ◌≤◌, ◌^◌, length};
ghost use Rattle.std.specs.Option.{IfSome, option_map};
ghost use Rattle.bitmap_tables.specs.Sbix;

use crate::boxes::in_units;
use crate::limits::looked_at;
use font_bytes::bytes::{i16_at, records, u16_at, u32_at};
use shape_common::hb_glyph_extents_t;

/// `png `, a PNG image.
const PNG: u32 = 0x706e_6720;

/// `dupe`, the image of another glyph.
const DUPE: u32 = 0x6475_7065;

/// How many strikes the table has room for, at most as many as it states.
fn strike_count(sbix: &[u8]) -> u32
    ensures { result ≡ Sbix.strike_count sbix.now }
{
    records(sbix, looked_at(u32_at(sbix, 4)), 8, 4)
}

/// Where strike number `i` begins.
fn strike_at(sbix: &[u8], i: u32) -> usize
    ensures value { result ≡ Sbix.strike_at sbix.now i }
    ensures near { result < 2 ^ 32 }
{
    u32_at(sbix, 8 + 4 * i as usize) as usize
}

/// How many pixels the em square has in strike number `i`; 0 if the table has no room for the
/// strike's offsets of so many glyphs.
#[tactic(auto, unfolding(crate::specs::Sbix::ppem_of))]
fn ppem(sbix: &[u8], glyphs: u16, i: u32) -> u16
    ensures { result ≡ Sbix.ppem_of sbix.now glyphs i }
{
    let at = strike_at(sbix, i);
    if at != 0 && at + 8 + 4 * usize::from(glyphs) <= sbix.len() {
        u16_at(sbix, at)
    } else {
        0
    }
}

/// The strike with the most pixels, the first of them.
#[tactic(auto, using(crate::proofs::StrikeLemmas::ppem_next, crate::proofs::StrikeLemmas::ppem_stays))]
fn largest_strike(sbix: &[u8], glyphs: u16) -> u32
    ensures { result ≡ Sbix.largest_strike sbix.now glyphs }
{
    let mut best = 0;
    for i in 0..strike_count(sbix) {
        if ppem(sbix, glyphs, best) < ppem(sbix, glyphs, i) {
            best = i;
        }
    }
    best
}

/// Where the bytes of a glyph begin, counted from the start of the strike.
fn offset(sbix: &[u8], strike: usize, glyph: u32) -> usize
    requires strike { strike < 2 ^ 32 }
    ensures value { result ≡ Sbix.offset_of sbix.now strike glyph }
    ensures near { result < 2 ^ 32 }
{
    u32_at(sbix, strike + 4 + 4 * glyph as usize) as usize
}

/// The bytes of a glyph in a strike: none past the last glyph, past the end of the table, or if
/// there are no more than those of their header.
fn glyph_bytes(sbix: &[u8], strike: usize, glyphs: u16, glyph: u32) -> Option<&[u8]>
    requires { strike < 2 ^ 32 }
    ensures { option_map (λ g. g.now) result ≡ Sbix.glyph_bytes sbix.now strike glyphs glyph }
{
    if u32::from(glyphs) <= glyph {
        return None;
    }
    let (start, end) = (offset(sbix, strike, glyph), offset(sbix, strike, glyph + 1));
    if end <= start + 8 || sbix.len() < strike + end {
        return None;
    }
    Some(&sbix[strike + start..strike + end])
}

/// The bytes of the glyph whose image a glyph has: its own, or those of the glyph that it names as
/// the same, and so on, eight times at most.
#[tactic(auto, using(crate::proofs::GraphicLemmas::graphic_first, crate::proofs::GraphicLemmas::graphic_none, crate::proofs::GraphicLemmas::graphic_own, crate::proofs::GraphicLemmas::graphic_cut, crate::proofs::GraphicLemmas::graphic_next, crate::proofs::GraphicLemmas::graphic_end))]
fn graphic(sbix: &[u8], strike: usize, glyphs: u16, glyph: u32) -> Option<&[u8]>
    requires { strike < 2 ^ 32 }
    ensures { option_map (λ g. g.now) result ≡ Sbix.graphic_of sbix.now strike glyphs glyph }
{
    let mut named = glyph;
    for _i in 0..9u32 {
        let Some(bytes) = glyph_bytes(sbix, strike, glyphs, named) else {
            return None;
        };
        if u32_at(bytes, 4) != DUPE {
            return Some(bytes);
        }
        if bytes.len() < 10 {
            return None;
        }
        named = u32::from(u16_at(bytes, 8));
    }
    None
}

/// A number in the header of a PNG image; 0 if the header isn't whole.
fn png_number(graphic: &[u8], at: usize) -> u32
    requires { at < 2 ^ 40 }
    ensures { result ≡ Sbix.png_number graphic.now at }
{
    if graphic.len() < 37 {
        0
    } else {
        u32_at(graphic, at)
    }
}

/// The box of a PNG image, in pixels; none of one that is 65536 pixels wide or high.
fn png_box(graphic: &[u8]) -> Option<hb_glyph_extents_t>
    ensures { result ≡ Sbix.png_box graphic.now }
{
    let (width, height) = (png_number(graphic, 24), png_number(graphic, 28));
    if 65535 < width || 65535 < height {
        return None;
    }
    let (width, height) = (width as i32, height as i32);
    Some(hb_glyph_extents_t {
        x_bearing: i16_at(graphic, 0),
        y_bearing: height + i16_at(graphic, 2),
        width,
        height: -height,
    })
}

/// The box of the glyph's PNG image in a strike, in pixels.
#[tactic(auto, unfolding(crate::specs::Sbix::strike_box))]
fn strike_box(sbix: &[u8], strike: usize, glyphs: u16, glyph: u32) -> Option<hb_glyph_extents_t>
    requires { strike < 2 ^ 32 }
    ensures { result ≡ Sbix.strike_box sbix.now strike glyphs glyph }
{
    match graphic(sbix, strike, glyphs, glyph) {
        Some(found) if u32_at(found, 4) == PNG => png_box(found),
        _ => None,
    }
}

/// The box of the glyph in units of the font, by strike number `i`; none in one without pixels.
#[tactic(auto, unfolding(crate::specs::Sbix::box_in))]
fn box_in(
    sbix: &[u8],
    glyphs: u16,
    units_per_em: u16,
    glyph: u32,
    i: u32,
) -> Option<hb_glyph_extents_t>
    ensures { result ≡ Sbix.box_in sbix.now glyphs units_per_em glyph i }
{
    let size = ppem(sbix, glyphs, i);
    if size == 0 {
        return None;
    }
    match strike_box(sbix, strike_at(sbix, i), glyphs, glyph) {
        Some(pixels) => Some(in_units(&pixels, units_per_em, size, size)),
        None => None,
    }
}

/// The box of a glyph in units of the font, by the strike of `sbix` with the most pixels; none
/// without such a strike, or if that has no PNG image for the glyph. `glyphs` says how many glyphs
/// the font has. Takes a step for each strike.
pub fn sbix_box(
    sbix: &[u8],
    glyphs: u16,
    units_per_em: u16,
    glyph: u32,
) -> Option<hb_glyph_extents_t>
    ensures { result ≡ Sbix.sbix_box sbix.now glyphs units_per_em glyph }
{
    if u16_at(sbix, 0) == 0 || strike_count(sbix) == 0 {
        return None;
    }
    let i = largest_strike(sbix, glyphs);
    box_in(sbix, glyphs, units_per_em, glyph, i)
}
