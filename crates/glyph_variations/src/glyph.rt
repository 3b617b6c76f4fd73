//! What `gvar` stores for a glyph.
ghost use Rattle.std.specs.Prelude.{◌≡◌, ◌<◌, ◌^◌};
ghost use Rattle.glyph_variations.specs.Glyph;

use font_bytes::bytes::{u16_at, u32_at};

/// What `gvar` stores for a glyph, and the coordinates at which it is read.
#[derive(Clone, Copy)]
pub struct GlyphVariations<'a> {
    /// The tuples of the glyph with their points and deltas; empty if it doesn't vary.
    pub bytes: &'a [u8],
    /// The peaks of tuples that glyphs share.
    pub shared: &'a [u8],
    /// How many axes a tuple has.
    pub axes: u16,
    /// Normalized, in units of 1/16384; an axis past the last of them is at its default.
    pub coordinates: &'a [i32],
}

/// The bytes from a place on.
fn rest(table: &[u8], at: usize) -> &[u8]
    ensures { result.now ≡ Glyph.rest_of table.now at }
{
    if at <= table.len() {
        return &table[at..];
    }
    &[]
}

/// The first bytes, as many as there are.
fn first(table: &[u8], count: usize) -> &[u8]
    ensures { result.now ≡ Glyph.first_of table.now count }
{
    let count = count.min(table.len());
    &table[..count]
}

/// So many bytes from a place on, as far as the table reaches.
fn cut(table: &[u8], at: usize, count: usize) -> &[u8]
    ensures { result.now ≡ Glyph.cut table.now at count }
{
    first(rest(table, at), count)
}

/// How many bytes the shared tuples have.
fn shared_size(gvar: &[u8]) -> usize
    ensures value { result ≡ Glyph.shared_size gvar.now }
    ensures near { result < 2 ^ 33 }
{
    2 * usize::from(u16_at(gvar, 4)) * usize::from(u16_at(gvar, 6))
}

/// Whether places of glyphs have four bytes.
fn is_long(gvar: &[u8]) -> bool
    ensures { result ≡ Glyph.is_long gvar.now }
{
    u16_at(gvar, 14) % 2 == 1
}

/// Where what is stored for a glyph stands, counted from the place of the first one.
fn place_of(gvar: &[u8], glyph: usize) -> usize
    requires { glyph < 2 ^ 33 }
    ensures value { result ≡ Glyph.place_of gvar.now glyph }
    ensures near { result < 2 ^ 32 }
{
    if is_long(gvar) {
        u32_at(gvar, 20 + 4 * glyph) as usize
    } else {
        2 * usize::from(u16_at(gvar, 20 + 2 * glyph))
    }
}

/// Whether the table is read: it is of version 1, and holds its shared tuples and the places of so
/// many glyphs.
fn is_read(gvar: &[u8], glyphs: u16) -> bool
    ensures { result ≡ Glyph.is_read gvar.now glyphs }
{
    let size = if is_long(gvar) { 4 } else { 2 };
    u16_at(gvar, 0) == 1
        && u32_at(gvar, 8) as usize + shared_size(gvar) <= gvar.len()
        && 20 + size * (usize::from(glyphs) + 1) <= gvar.len()
}

/// The bytes for a glyph of a font with so many; none if it doesn't vary.
fn data_of(gvar: &[u8], glyphs: u16, glyph: u32) -> &[u8]
    ensures { result.now ≡ Glyph.data_of gvar.now glyphs glyph }
{
    if u32::from(glyphs) <= glyph || !is_read(gvar, glyphs) {
        return &[];
    }
    let start = place_of(gvar, glyph as usize);
    let end = place_of(gvar, glyph as usize + 1);
    cut(
        gvar,
        u32_at(gvar, 16) as usize + start,
        end.saturating_sub(start),
    )
}

impl<'a> GlyphVariations<'a> {
    /// What the table `gvar` stores for a glyph of a font with so many glyphs.
    pub fn of(
        gvar: &'a [u8],
        glyphs: u16,
        glyph: u32,
        coordinates: &'a [i32],
    ) -> GlyphVariations<'a>
        ensures bytes { result.bytes.now ≡ Glyph.data_of gvar.now glyphs glyph }
        ensures shared { result.shared.now ≡ Glyph.shared_of gvar.now }
        ensures axes { result.axes ≡ Glyph.axes_of gvar.now }
        ensures coordinates { result.coordinates.now ≡ coordinates.now }
        ensures stored { Glyph.stored result
            ≡ Glyph.stored_of gvar.now glyphs glyph coordinates.now }
    {
        GlyphVariations {
            bytes: data_of(gvar, glyphs, glyph),
            shared: cut(gvar, u32_at(gvar, 8) as usize, shared_size(gvar)),
            axes: u16_at(gvar, 4),
            coordinates,
        }
    }
}
