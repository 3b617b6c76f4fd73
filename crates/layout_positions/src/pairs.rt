//! Single and pair adjustment (OpenType, `GPOS`, lookup types 1 and 2): what a subtable has for a
//! glyph, or for two.
ghost use Rattle.std.specs.Prelude.{◌≡◌, ◌<◌, ◌≤◌, ◌^◌};
ghost use Rattle.std.specs.Option.{IfSome, option_map};
ghost use Rattle.layout_positions.specs.Pairs;

use crate::anchors::number_there;
use crate::devices::is_default;
use crate::places::{cell, record_offset};
use crate::values::{Adjustment, advance_only, has_bytes, size, value_in, value_record};
use layout_matching::lookup::Lookup;
use layout_tables::classes::class;
use layout_tables::offsets::offset16;
use shape_font::bytes::{i16_at, records, u16_at};
use shape_font::search::{found, side};
use std::cmp::Ordering;

/// What a pair says of its two glyphs, and whether it has a record for the second one.
#[derive(Clone, Copy, PartialEq, Eq, Debug)]
pub struct PairValues {
    pub first: Adjustment,
    pub second: Adjustment,
    pub has_second: bool,
}

/// The record for glyph number `number` of a subtable of single adjustment.
fn single_record(lookup: &Lookup<'_>, start: usize, number: u32) -> Option<Adjustment>
    requires { start < 2 ^ 34 }
    ensures { result ≡ Pairs.single_value lookup.now start number }
{
    let table = lookup.table;
    let format = u16_at(table, start + 4);
    match u16_at(table, start) {
        1 => value_in(lookup, format, start, start + 6),
        2 if number < u32::from(u16_at(table, start + 6)) => {
            let offset = record_offset(number as usize, size(format));
            value_in(lookup, format, start, start + 8 + offset)
        }
        _ => None,
    }
}

/// What the subtable of single adjustment at `start` has for a glyph.
pub fn single(lookup: &Lookup<'_>, start: usize, glyph: u32) -> Option<Adjustment>
    requires { start < 2 ^ 34 }
    ensures { result ≡ Pairs.single_of lookup.now start glyph }
{
    let number = number_there(lookup.table, start, start + 2, glyph)?;
    single_record(lookup, start, number)
}

/// Where the two records of a pair stand, one after the other, and their formats, which the
/// subtable says once for all its pairs. Offsets of their devices count from `base`.
#[derive(Clone, Copy)]
pub struct PairRecords {
    pub first: u16,
    pub second: u16,
    pub base: usize,
    pub at: usize,
}

/// The two records of a pair.
#[inline(always)]
pub(crate) fn values_of(lookup: &Lookup<'_>, records: &PairRecords) -> PairValues
    requires base { records.now.base < 2 ^ 35 }
    requires at { records.now.at < 480000000000 }
    ensures { result ≡ Pairs.values_of lookup.now records.now }
{
    let PairRecords {
        first,
        second,
        base,
        at,
    } = *records;
    PairValues {
        first: value_record(lookup, first, base, at),
        second: value_record(lookup, second, base, at + size(first)),
        has_second: second != 0,
    }
}

/// A pair that changes the advance of its first glyph alone.
#[inline(always)]
pub(crate) fn advance_values(advance: i32) -> PairValues
    ensures { result ≡ Pairs.advance_values advance }
{
    PairValues {
        first: advance_only(advance),
        second: advance_only(0),
        has_second: false,
    }
}

/// Whether the first record of a pair is that of the advance along a horizontal line, and names no
/// device for it that is read, and there is no second one. Not at a size of the font, where the
/// advance may vanish.
#[inline(always)]
fn is_advance_alone(lookup: &Lookup<'_>, records: &PairRecords) -> bool
    requires at { records.now.at < 480000000000 }
    ensures { result ≡ Pairs.is_advance_alone lookup.now records.now }
{
    if records.second != 0 || lookup.scale.is_some() {
        return false;
    }
    match records.first {
        4 => true,
        0x44 => is_default(lookup) || u16_at(lookup.table, records.at + 2) == 0,
        _ => false,
    }
}

/// The advance of a pair whose records say that it changes that of its first glyph alone, as those
/// of most subtables do.
#[inline(always)]
pub(crate) fn plain_advance(lookup: &Lookup<'_>, records: &PairRecords) -> Option<i32>
    requires base { records.now.base < 2 ^ 35 }
    requires at { records.now.at < 480000000000 }
    ensures { IfSome result
        (λ x. Pairs.values_of lookup.now records.now ≡ Pairs.advance_values x) }
{
    if !is_advance_alone(lookup, records) {
        return None;
    }
    Some(i16_at(lookup.table, records.at))
}

/// How many bytes the two records of a pair have.
fn records_size(first: u16, second: u16) -> usize
    ensures value { result ≡ Pairs.records_size first second }
    ensures small { result ≤ 64 }
{
    size(first) + size(second)
}

/// The records, if the table has room for them.
#[inline(always)]
fn records_if(lookup: &Lookup<'_>, records: PairRecords) -> Option<PairRecords>
    requires base { records.base < 2 ^ 35 }
    requires at { records.at < 480000000000 }
    ensures value { option_map (Pairs.values_of lookup.now) result
        ≡ Pairs.records_if lookup.now records.first records.second records.base records.at }
    ensures base { IfSome result (λ r. r.base < 2 ^ 35) }
    ensures at { IfSome result (λ r. r.at < 480000000000) }
{
    let size = records_size(records.first, records.second);
    if has_bytes(lookup.table, records.at, size) {
        Some(records)
    } else {
        None
    }
}

/// Where the pairs of glyph number `number` stand.
fn pair_set(table: &[u8], start: usize, number: u32) -> Option<usize>
    requires { start < 2 ^ 34 }
    ensures value { result ≡ Pairs.pair_set table.now start number }
    ensures near { IfSome result (λ set. set < 2 ^ 35) }
{
    if records(table, u32::from(u16_at(table, start + 8)), start + 10, 2) <= number {
        return None;
    }
    offset16(table, start, start + 10 + 2 * number as usize)
}

/// Where a glyph stands to the second one of pair number `r`.
fn second_side(table: &[u8], size: usize, set: usize, glyph: u32, r: u32) -> Ordering
    requires size { size ≤ 66 }
    requires set { set < 2 ^ 35 }
    ensures { result ≡ Pairs.side_of_second table.now size set glyph r }
{
    let there = u32::from(u16_at(table, set + 2 + record_offset(r as usize, size)));
    side(glyph, there, there)
}

/// The number of the pair with this second glyph.
fn second_in(table: &[u8], size: usize, set: usize, glyph: u32) -> Option<u32>
    requires some { 0 < size }
    requires size { size ≤ 66 }
    requires set { set < 2 ^ 35 }
    ensures { result ≡ Pairs.second_in table.now size glyph set }
{
    let count = records(table, u32::from(u16_at(table, set)), set + 2, size);
    found(count, |r| second_side(table, size, set, glyph, r))
}

/// The pair with this second glyph in a set.
fn pair_within(lookup: &Lookup<'_>, start: usize, set: usize, glyph: u32) -> Option<PairRecords>
    requires start { start < 2 ^ 34 }
    requires set { set < 2 ^ 35 }
    ensures value { option_map (Pairs.values_of lookup.now) result
        ≡ Pairs.pair_in_set lookup.now start glyph set }
    ensures base { IfSome result (λ r. r.base < 2 ^ 35) }
    ensures at { IfSome result (λ r. r.at < 480000000000) }
{
    let table = lookup.table;
    let first = u16_at(table, start + 4);
    let second = u16_at(table, start + 6);
    let size = 2 + records_size(first, second);
    match second_in(table, size, set, glyph) {
        Some(r) => {
            let at = set + 4 + record_offset(r as usize, size);
            Some(PairRecords {
                first,
                second,
                base: set,
                at,
            })
        }
        None => None,
    }
}

/// The pair of glyph number `number` and of this second glyph, by format 1.
fn listed_pair(lookup: &Lookup<'_>, start: usize, number: u32, glyph: u32) -> Option<PairRecords>
    requires { start < 2 ^ 34 }
    ensures value { option_map (Pairs.values_of lookup.now) result
        ≡ Pairs.listed_pair lookup.now start number glyph }
    ensures base { IfSome result (λ r. r.base < 2 ^ 35) }
    ensures at { IfSome result (λ r. r.at < 480000000000) }
{
    let set = pair_set(lookup.table, start, number)?;
    pair_within(lookup, start, set, glyph)
}

/// The class of a glyph by the classes whose offset stands at `at`, 0 without them.
fn class_at(table: &[u8], start: usize, at: usize, glyph: u32) -> u16
    requires start { start < 2 ^ 34 }
    requires at { at < 2 ^ 35 }
    ensures { result ≡ Pairs.class_at table.now start at glyph }
{
    match offset16(table, start, at) {
        Some(classes) => class(table, classes, glyph),
        None => 0,
    }
}

/// The pair of the classes of two glyphs, by format 2.
fn classed_pair(lookup: &Lookup<'_>, start: usize, left: u32, right: u32) -> Option<PairRecords>
    requires { start < 2 ^ 34 }
    ensures value { option_map (Pairs.values_of lookup.now) result
        ≡ Pairs.classed_pair lookup.now start left right }
    ensures base { IfSome result (λ r. r.base < 2 ^ 35) }
    ensures at { IfSome result (λ r. r.at < 480000000000) }
{
    let table = lookup.table;
    let row = class_at(table, start, start + 8, left);
    let column = class_at(table, start, start + 10, right);
    let columns = u16_at(table, start + 14);
    if u16_at(table, start + 12) <= row || columns <= column {
        return None;
    }
    let n = cell(u32::from(row), u32::from(columns), u32::from(column));
    let first = u16_at(table, start + 4);
    let second = u16_at(table, start + 6);
    let offset = record_offset(n, records_size(first, second));
    let records = PairRecords {
        first,
        second,
        base: start,
        at: start + 16 + offset,
    };
    records_if(lookup, records)
}

/// Where the subtable of pair adjustment at `start` has its records for two glyphs; `number` is
/// that of the first one in its list. What they say isn't read here, so that it is nowhere moved
/// from one place to another.
pub fn pair_records(
    lookup: &Lookup<'_>,
    start: usize,
    number: u32,
    left: u32,
    right: u32,
) -> Option<PairRecords>
    requires { start < 2 ^ 34 }
    ensures value { option_map (Pairs.values_of lookup.now) result
        ≡ Pairs.pair_of lookup.now start number left right }
    ensures base { IfSome result (λ r. r.base < 2 ^ 35) }
    ensures at { IfSome result (λ r. r.at < 480000000000) }
{
    match u16_at(lookup.table, start) {
        1 => listed_pair(lookup, start, number, right),
        2 => classed_pair(lookup, start, left, right),
        _ => None,
    }
}
