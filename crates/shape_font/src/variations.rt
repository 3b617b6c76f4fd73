//! Glyphs of characters before variation selectors: format 14 of the table `cmap`.
//!
//! For each selector a font says which characters look under it as they do alone, and which have a
//! glyph of their own. Another character has no glyph under it.
ghost use Rattle.std.specs.Prelude.{◌≡◌, ◌<◌, ◌^◌, if◌then◌else◌, nat_eq};
ghost use Rattle.shape_font.specs.Variations;
ghost use Rattle.shape_font.specs.declared.variations.GlyphVariant.TheVariants.{Missing, Default, Own};

use crate::bytes::{records, u8_at, u16_at, u24_at, u32_at};
use crate::search::{found, side};
use crate::subtables::{subtable, tail};
use std::cmp::Ordering;

/// Platform and encoding of the table of sequences.
const SEQUENCES: u32 = 5;

/// What a font says of a character before a selector.
#[derive(Clone, Copy, PartialEq, Eq, Debug)]
pub enum GlyphVariant {
    /// Nothing.
    Missing,
    /// The character looks as it does alone.
    Default,
    /// The character has this glyph there, which may be one that the face lacks.
    Own(u32),
}

/// The table of sequences; an empty one if `cmap` has none.
pub fn sequences(cmap: &[u8]) -> &[u8]
    ensures { result.now ≡ Variations.sequences_of cmap.now }
{
    match subtable(cmap, SEQUENCES) {
        Some(table) if u16_at(table, 0) == 14 => table,
        _ => &[],
    }
}

/// Where a selector stands to record `i`.
fn selector_side(table: &[u8], selector: u32, i: u32) -> Ordering
    ensures { result ≡ Variations.side_of_selector table.now selector i }
{
    let there = u24_at(table, 10 + 11 * i as usize);
    side(selector, there, there)
}

/// The record of a selector.
fn record(table: &[u8], selector: u32) -> Option<u32>
    ensures { result ≡ Variations.selector_of table.now selector }
{
    let count = records(table, u32_at(table, 6), 10, 11);
    found(count, |i| selector_side(table, selector, i))
}

/// What stands in the table from the place on that the number at `at` names; nothing if that is 0.
fn sequences_from(table: &[u8], at: usize) -> &[u8]
    requires { at < 2 ^ 40 }
    ensures { result.now ≡ Variations.sequences_from table.now at }
{
    match u32_at(table, at) {
        0 => &[],
        there => tail(table, there),
    }
}

/// Where a character stands to range `i` of those that look as they do alone.
fn range_side(ranges: &[u8], c: u32, i: u32) -> Ordering
    ensures { result ≡ Variations.side_of_range ranges.now c i }
{
    let at = 4 + 4 * i as usize;
    let start = u24_at(ranges, at);
    side(c, start, start + u32::from(u8_at(ranges, at + 3)))
}

/// Whether the character looks as it does alone.
fn is_default(ranges: &[u8], c: u32) -> bool
    ensures { result ≡ Variations.is_default ranges.now c }
{
    let count = records(ranges, u32_at(ranges, 0), 4, 4);
    found(count, |i| range_side(ranges, c, i)).is_some()
}

/// Where a character stands to row `i` of those with glyphs of their own.
fn mapping_side(mappings: &[u8], c: u32, i: u32) -> Ordering
    ensures { result ≡ Variations.side_of_mapping mappings.now c i }
{
    let there = u24_at(mappings, 4 + 5 * i as usize);
    side(c, there, there)
}

/// The glyph that the character has of its own, or 0.
fn own_glyph(mappings: &[u8], c: u32) -> u32
    ensures { result ≡ Variations.own_glyph mappings.now c }
{
    let count = records(mappings, u32_at(mappings, 0), 4, 5);
    match found(count, |i| mapping_side(mappings, c, i)) {
        Some(i) => u32::from(u16_at(mappings, 7 + 5 * i as usize)),
        None => 0,
    }
}

/// What the lists of a record say of a character: the ranges first, then the rows.
fn by_lists(ranges: &[u8], mappings: &[u8], c: u32) -> GlyphVariant
    ensures { result ≡ if Variations.is_default ranges.now c then Default else
        (let glyph = Variations.own_glyph mappings.now c in
        (if nat_eq glyph 0 then Missing else Own glyph)) }
{
    if is_default(ranges, c) {
        return GlyphVariant::Default;
    }
    match own_glyph(mappings, c) {
        0 => GlyphVariant::Missing,
        glyph => GlyphVariant::Own(glyph),
    }
}

/// What the table of sequences says of a character before a selector.
pub fn variation(table: &[u8], c: u32, selector: u32) -> GlyphVariant
    ensures { result ≡ Variations.variation_of table.now c selector }
{
    let Some(i) = record(table, selector) else {
        return GlyphVariant::Missing;
    };
    let at = 13 + 11 * i as usize;
    by_lists(sequences_from(table, at), sequences_from(table, at + 4), c)
}
