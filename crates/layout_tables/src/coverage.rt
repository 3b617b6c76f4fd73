//! Coverage tables: which glyphs a subtable is for, and the index of each.
ghost use Rattle.std.specs.Prelude.{◌≡◌, ◌<◌, ◌≤◌, ◌+◌, ◌-◌, ◌*◌, ◌/◌, ◌^◌, is_some};
ghost use Rattle.shape_font.specs.Bytes.{u16_of, fitting};
ghost use Rattle.layout_tables.specs.Coverage;

use shape_font::bytes::{records, u16_at, word};

/// Glyph `i` of the list, counted from 1. It is read behind no test.
#[tactic(auto, using(crate::proofs::SearchLemmas::glyph_from_one))]
#[inline(always)]
fn nth_listed(table: &[u8], start: usize, i: u32) -> u32
    requires one { 0 < i }
    requires inside { i ≤ fitting table.now (u16_of table.now (start + 2)) (start + 4) 2 }
    ensures { result ≡ u16_of table.now (start + 4 + 2 * (i - 1)) }
{
    u32::from(word(table, start + 2 + 2 * i as usize))
}

/// How many glyphs the list has. Most tables have room for all that are said, which is told without
/// a division.
#[tactic(auto, using(crate::proofs::SearchLemmas::glyphs_fit))]
#[inline(always)]
fn glyph_count(table: &[u8], start: usize) -> u32
    requires { start < 2 ^ 40 }
    ensures { result ≡ fitting table.now (u16_of table.now (start + 2)) (start + 4) 2 }
{
    let said = u32::from(u16_at(table, start + 2));
    if start + 4 + 2 * said as usize <= table.len() {
        return said;
    }
    records(table, said, start + 4, 2)
}

/// How many ranges the table has.
#[tactic(auto, using(crate::proofs::SearchLemmas::ranges_fit))]
#[inline(always)]
fn range_count(table: &[u8], start: usize) -> u32
    requires { start < 2 ^ 40 }
    ensures { result ≡ fitting table.now (u16_of table.now (start + 2)) (start + 4) 6 }
{
    let said = u32::from(u16_at(table, start + 2));
    if start + 4 + 6 * said as usize <= table.len() {
        return said;
    }
    records(table, said, start + 4, 6)
}

/// The middle one of the places from one to another. Searches count them from 1, so that no step
/// takes 1 off before it halves.
#[inline(always)]
fn halfway(from: u32, end: u32) -> u32
    requires some { from ≤ end }
    requires few { end < 2 ^ 16 }
    ensures { result ≡ from + (end - from) / 2 }
{
    (from + end) / 2
}

/// The index of a glyph in a list of glyphs.
///
/// A search of its own, as that of ranges: of `search::found_within` LLVM keeps the three answers
/// of each step apart, which takes half of the time of layout.
#[tactic(auto, using(crate::proofs::SearchLemmas::nowhere))]
fn in_list(table: &[u8], start: usize, glyph: u32) -> Option<u32>
    requires { start < 2 ^ 40 }
    ensures { result ≡ Coverage.listed table.now start glyph }
{
    let count = glyph_count(table, start);
    let (mut from, mut end) = (1, count);
    while from <= end {
        let middle = halfway(from, end);
        let there = nth_listed(table, start, middle);
        if glyph < there {
            end = middle - 1;
        } else if there < glyph {
            from = middle + 1;
        } else {
            return Some(middle - 1);
        }
    }
    None
}

/// The first glyph of range `i`, counted from 1. It is read behind no test.
#[tactic(auto, using(crate::proofs::SearchLemmas::first_from_one))]
#[inline(always)]
fn nth_first(table: &[u8], start: usize, i: u32) -> u32
    requires one { 0 < i }
    requires inside { i ≤ fitting table.now (u16_of table.now (start + 2)) (start + 4) 6 }
    ensures { result ≡ u16_of table.now (start + 4 + 6 * (i - 1)) }
{
    u32::from(word(table, start + 6 * i as usize - 2))
}

/// The last glyph of range `i`, counted from 1. It is read behind no test.
#[tactic(auto, using(crate::proofs::SearchLemmas::last_from_one))]
#[inline(always)]
fn nth_last(table: &[u8], start: usize, i: u32) -> u32
    requires one { 0 < i }
    requires inside { i ≤ fitting table.now (u16_of table.now (start + 2)) (start + 4) 6 }
    ensures { result ≡ u16_of table.now (start + 4 + 6 * (i - 1) + 2) }
{
    u32::from(word(table, start + 6 * i as usize))
}

/// The range that holds a glyph: coverage and classes of format 2 have ranges of the same layout.
#[tactic(auto, using(crate::proofs::SearchLemmas::nowhere))]
pub(crate) fn range(table: &[u8], start: usize, glyph: u32) -> Option<u32>
    requires { start < 2 ^ 40 }
    ensures { result ≡ Coverage.ranged table.now start glyph }
{
    let count = range_count(table, start);
    let (mut from, mut end) = (1, count);
    while from <= end {
        let middle = halfway(from, end);
        if glyph < nth_first(table, start, middle) {
            end = middle - 1;
        } else if nth_last(table, start, middle) < glyph {
            from = middle + 1;
        } else {
            return Some(middle - 1);
        }
    }
    None
}

/// The index of a glyph of range `i`.
fn index_in_range(table: &[u8], start: usize, glyph: u32, i: u32) -> u32
    requires start { start < 2 ^ 40 }
    requires glyph { glyph < 2 ^ 16 }
    ensures { result ≡ Coverage.index_in_range table.now start glyph i }
{
    let at = start + 4 + 6 * i as usize;
    let first = u32::from(u16_at(table, at));
    u32::from(u16_at(table, at + 4)) + glyph.saturating_sub(first)
}

/// The Coverage Index of a glyph by the Coverage table at `start`; none if it does not cover the
/// glyph, or its format is neither 1 nor 2.
pub fn coverage_index(table: &[u8], start: usize, glyph: u32) -> Option<u32>
    requires { start < 2 ^ 40 }
    ensures { result ≡ Coverage.coverage_index table.now start glyph }
{
    if 0xFFFF < glyph {
        return None;
    }
    match u16_at(table, start) {
        1 => in_list(table, start, glyph),
        2 => match range(table, start, glyph) {
            Some(i) => Some(index_in_range(table, start, glyph, i)),
            None => None,
        },
        _ => None,
    }
}

/// Whether the Coverage table at `start` covers the glyph.
pub fn covers(table: &[u8], start: usize, glyph: u32) -> bool
    requires { start < 2 ^ 40 }
    ensures { result ≡ Coverage.covers table.now start glyph }
{
    coverage_index(table, start, glyph).is_some()
}
