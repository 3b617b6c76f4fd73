//! Where a glyph's bitmap stands in `CBDT`, by `CBLC` (OpenType, "CBLC").
ghost use Rattle.std.specs.Prelude.{◌≡◌, ◌<◌, ◌≤◌, ◌^◌};
ghost use Rattle.std.specs.Option.{IfSome};
ghost use Rattle.bitmap_tables.specs.Cblc;

use crate::limits::looked_at;
use font_bytes::bytes::{records, u8_at, u16_at, u32_at};

/// Where a bitmap stands in `CBDT`, in how many bytes, and in which format.
#[derive(Clone, Copy, PartialEq, Eq, Debug)]
pub struct Image {
    pub start: usize,
    pub length: usize,
    pub format: u16,
}

/// Whether the table has a version that is read, 2 or 3. `CBDT` has the same.
pub(crate) fn is_read(table: &[u8]) -> bool
    ensures { result ≡ Cblc.is_read table.now }
{
    let version = u16_at(table, 0);
    version == 2 || version == 3
}

/// How many strikes the table has room for, at most as many as it states.
pub(crate) fn strike_count(cblc: &[u8]) -> u32
    ensures value { result ≡ Cblc.strike_count cblc.now }
{
    records(cblc, looked_at(u32_at(cblc, 4)), 8, 48)
}

/// How many pixels the em square has in strike number `i`, across.
pub(crate) fn pixels_across(cblc: &[u8], i: u32) -> u8
    ensures { result ≡ Cblc.pixels_across cblc.now i }
{
    u8_at(cblc, 52 + 48 * i as usize)
}

/// The same upwards.
pub(crate) fn pixels_upwards(cblc: &[u8], i: u32) -> u8
    ensures { result ≡ Cblc.pixels_upwards cblc.now i }
{
    u8_at(cblc, 53 + 48 * i as usize)
}

/// The greater one of them.
fn pixels(cblc: &[u8], i: u32) -> u8
    ensures { result ≡ Cblc.pixels_of cblc.now i }
{
    pixels_across(cblc, i).max(pixels_upwards(cblc, i))
}

/// The strike with the most pixels, the first of them.
#[tactic(auto, using(crate::proofs::StrikeLemmas::pixels_next, crate::proofs::StrikeLemmas::pixels_stays))]
pub(crate) fn largest_strike(cblc: &[u8]) -> u32
    ensures { result ≡ Cblc.largest_strike cblc.now }
{
    let mut best = 0;
    for i in 0..strike_count(cblc) {
        if pixels(cblc, best) < pixels(cblc, i) {
            best = i;
        }
    }
    best
}

/// Whether record number `i` of the list of subtables at `list` is for the glyph.
fn holds(cblc: &[u8], list: usize, glyph: u32, i: u32) -> bool
    requires { list < 2 ^ 32 }
    ensures { result ≡ Cblc.holds cblc.now list glyph i }
{
    let at = list + 8 * i as usize;
    u32::from(u16_at(cblc, at)) <= glyph && glyph <= u32::from(u16_at(cblc, at + 2))
}

/// The first of so many records of subtables that is for the glyph.
#[tactic(auto, using(crate::proofs::RecordLemmas::record_next, crate::proofs::RecordLemmas::record_here, crate::proofs::RecordLemmas::record_end))]
fn record(cblc: &[u8], list: usize, glyph: u32, count: u32) -> Option<u32>
    requires { list < 2 ^ 32 }
    ensures { result ≡ Cblc.record_from cblc.now list glyph count 0 }
{
    for i in 0..count {
        if holds(cblc, list, glyph, i) {
            return Some(i);
        }
    }
    None
}

/// Where a bitmap begins, by the number of its glyph in a subtable: offsets of 32 bits in format 1,
/// of 16 bits in format 3. Other formats have none, as in HarfBuzz.
fn offset(cblc: &[u8], subtable: usize, number: usize) -> usize
    requires subtable { subtable < 2 ^ 37 }
    requires number { number ≤ 2 ^ 32 }
    ensures value { result ≡ Cblc.offset_of cblc.now subtable number }
    ensures near { result < 2 ^ 32 }
{
    match u16_at(cblc, subtable) {
        1 => u32_at(cblc, subtable + 8 + 4 * number) as usize,
        3 => usize::from(u16_at(cblc, subtable + 8 + 2 * number)),
        _ => 0,
    }
}

/// The bitmap of the glyph with this number in a subtable; none if it has no bytes.
fn image_in(cblc: &[u8], subtable: usize, number: usize) -> Option<Image>
    requires subtable { subtable < 2 ^ 37 }
    requires number { number < 2 ^ 32 }
    ensures value { result ≡ Cblc.image_in cblc.now subtable number }
    ensures near { IfSome result (λ image. image.start < 2 ^ 33) }
    ensures short { IfSome result (λ image. image.length < 2 ^ 32) }
{
    let (start, end) = (
        offset(cblc, subtable, number),
        offset(cblc, subtable, number + 1),
    );
    if end <= start {
        return None;
    }
    Some(Image {
        start: u32_at(cblc, subtable + 4) as usize + start,
        length: end - start,
        format: u16_at(cblc, subtable + 2),
    })
}

/// The bitmap of a glyph in strike number `i`: by the first of its subtables that is for the glyph.
/// Takes a step for each subtable.
pub fn image_of(cblc: &[u8], i: u32, glyph: u32) -> Option<Image>
    ensures value { result ≡ Cblc.image_of cblc.now i glyph }
    ensures near { IfSome result (λ image. image.start < 2 ^ 33) }
    ensures short { IfSome result (λ image. image.length < 2 ^ 32) }
{
    let strike = 8 + 48 * i as usize;
    let list = u32_at(cblc, strike) as usize;
    let count = records(cblc, looked_at(u32_at(cblc, strike + 8)), list, 8);
    match record(cblc, list, glyph, count) {
        Some(found) => {
            let at = list + 8 * found as usize;
            let first = u32::from(u16_at(cblc, at));
            let number = glyph.saturating_sub(first) as usize;
            image_in(cblc, list + u32_at(cblc, at + 4) as usize, number)
        }
        None => None,
    }
}
