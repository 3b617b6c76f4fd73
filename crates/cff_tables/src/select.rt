//! FDSelect: the Font DICT of a glyph (Adobe Technical Note 5176, section 19; format 4: OpenType,
//! "CFF2").
ghost use Rattle.std.specs.Prelude.{◌≡◌, ℕ, List, ◌<◌, ◌≤◌, ◌-◌, ◌+◌, ◌^◌};
ghost use Rattle.cff_tables.specs.Select;

use crate::bytes::{byte_at, number_at};

/// How many bytes a glyph takes in ranges.
fn glyph_size(format: u8) -> usize
    ensures value { result ≡ Select.glyph_size format }
    ensures few { result ≤ 4 }
{
    if format == 4 { 4 } else { 2 }
}

/// How many bytes the number of a Font DICT takes in ranges.
fn fd_size(format: u8) -> usize
    ensures value { result ≡ Select.fd_size format }
    ensures few { result ≤ 2 }
{
    if format == 4 { 2 } else { 1 }
}

/// Where range `i` begins.
fn range_at(format: u8, at: u32, i: u32) -> usize
    ensures value { result ≡ Select.range_at format at i }
    ensures small { result < 2 ^ 40 }
{
    at as usize + 1 + glyph_size(format) + i as usize * (glyph_size(format) + fd_size(format))
}

/// Whether the range after range `i` begins past a glyph. Past the end of the table ranges begin at
/// glyph 0.
fn next_is_past(table: &[u8], format: u8, at: u32, glyph: u32, i: u32) -> bool
    requires { i + 1 < 2 ^ 32 }
    ensures { result ≡ Select.next_is_past table.now format at glyph i }
{
    glyph < number_at(table, range_at(format, at, i + 1), glyph_size(format))
}

/// The range of a glyph among `count`, which a font may say to be 2^32: a search takes at most 32
/// steps.
#[tactic(auto, using(crate::proofs::SearchLemmas::halved_none, crate::proofs::SearchLemmas::halved_below, crate::proofs::SearchLemmas::halved_above))]
fn range_of(table: &[u8], format: u8, at: u32, count: u32, glyph: u32) -> u32
    ensures { result ≡ Select.range_of table.now format at count glyph }
{
    let (mut from, mut to) = (0, count.saturating_sub(1));
    while from < to {
        let middle = from + (to - from) / 2;
        if next_is_past(table, format, at, glyph, middle) {
            to = middle;
        } else {
            from = middle + 1;
        }
    }
    to
}

/// The number of the glyph's Font DICT, by ranges.
fn ranged_fd(table: &[u8], format: u8, at: u32, glyph: u32) -> u32
    ensures { result ≡ Select.ranged_fd table.now format at glyph }
{
    let count = number_at(table, at as usize + 1, glyph_size(format));
    let range = range_of(table, format, at, count, glyph);
    let place = range_at(format, at, range) + glyph_size(format);
    number_at(table, place, fd_size(format))
}

/// The number of the glyph's Font DICT; 0 without an FDSelect, or in a format that is not known.
pub fn font_dict(table: &[u8], at: u32, glyph: u32) -> u32
    ensures { result ≡ Select.fd_of table.now at glyph }
{
    if at == 0 {
        return 0;
    }
    match byte_at(table, at as usize) {
        0 => u32::from(byte_at(table, at as usize + 1 + glyph as usize)),
        3 => ranged_fd(table, 3, at, glyph),
        4 => ranged_fd(table, 4, at, glyph),
        _ => 0,
    }
}

/// Where each range begins past the one before it, as the standard asks, the search finds what a
/// walk finds: the first range that the next one begins past, or else the last.
pub fn search_finds_what_a_walk_finds()
    ensures { (t : List ℕ) (format at count glyph : ℕ) → Select.RangesRise t format at count
        → Select.range_of t format at count glyph ≡ Select.walked t format at count glyph }
{}
