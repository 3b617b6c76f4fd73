//! Single and pair adjustment, applied at a place of a buffer.
ghost use Rattle.std.specs.Prelude.{◌≡◌, ◌<◌, ◌^◌, length};
ghost use Rattle.std.specs.Option.{IfSome};
ghost use Rattle.layout_positions.specs.Lookups;
ghost use Rattle.layout_positions.specs.Pairs;

use crate::anchors::number_there;
use crate::edits::{break_between, concat_between, position, put};
use crate::neighbours::{end_at, glyph_at, known_stop};
use crate::pairs::{
    PairRecords, PairValues, advance_values, pair_records, plain_advance, single, values_of,
};
use crate::places::{after, two_after};
use crate::values::{Adjustment, adjusted, has_effect};
use layout_matching::lookup::Lookup;
use layout_matching::skipping::item_at;
use shape_buffer::hb_buffer_t;
use shape_font::bytes::u16_at;

/// Adjusts the glyph at place `i`.
#[inline(always)]
fn adjust(buffer: &mut hb_buffer_t, i: usize, value: &Adjustment)
    ensures made { buffer.new ≡ Pairs.glyph_adjusted value.now i buffer.old }
    ensures items { buffer.new.items ≡ buffer.old.items }
{
    let horizontal = buffer.direction().is_horizontal();
    let there = position(buffer, i);
    put(buffer, i, adjusted(horizontal, value, there));
}

/// Applies single adjustment to the glyph at place `i`. Returns the place where the lookup goes on.
pub fn apply_single(
    lookup: &Lookup<'_>,
    start: usize,
    buffer: &mut hb_buffer_t,
    i: usize,
) -> Option<usize>
    requires near { start < 2 ^ 34 }
    requires inside { i < length buffer.old.items }
    ensures made { buffer.new ≡ (Pairs.single_applied lookup.now start i buffer.old).buffer }
    ensures next { result ≡ (Pairs.single_applied lookup.now start i buffer.old).next }
{
    let count = buffer.len();
    match single(lookup, start, item_at(buffer.infos(), i).glyph_id) {
        Some(value) => {
            adjust(buffer, i, &value);
            Some(after(count, i))
        }
        None => None,
    }
}

/// Whether a pair changes something.
#[inline(always)]
fn moves(horizontal: bool, values: &PairValues) -> bool
    ensures { result ≡ Pairs.pair_moves horizontal values.now }
{
    has_effect(horizontal, &values.first) || has_effect(horizontal, &values.second)
}

/// Marks the two glyphs of a pair, as it moves them or doesn't.
#[inline(always)]
fn mark(buffer: &mut hb_buffer_t, listed: bool, moved: bool, i: usize, j: usize)
    requires { j < length buffer.old.items }
    ensures made { buffer.new ≡ Pairs.pair_marked listed moved i j buffer.old }
    ensures len { length buffer.new.items ≡ length buffer.old.items }
{
    let count = buffer.len();
    if moved {
        break_between(buffer, i, after(count, j));
    } else if !listed {
        concat_between(buffer, i, after(count, j));
    }
}

/// Ends a pair: goes on at its second glyph, or after that one if it has a record.
#[inline(always)]
fn end_pair(buffer: &mut hb_buffer_t, values: &PairValues, i: usize, j: usize) -> Option<usize>
    requires { j < length buffer.old.items }
    ensures made { buffer.new ≡ (Pairs.pair_ended values.now i j buffer.old).buffer }
    ensures next { result ≡ (Pairs.pair_ended values.now i j buffer.old).next }
{
    let count = buffer.len();
    if values.has_second {
        break_between(buffer, i, two_after(count, j));
        Some(after(count, j))
    } else {
        Some(j)
    }
}

/// Adjusts the two glyphs of a pair.
#[inline(always)]
fn put_values(
    buffer: &mut hb_buffer_t,
    listed: bool,
    i: usize,
    j: usize,
    values: &PairValues,
) -> Option<usize>
    requires inside { j < length buffer.old.items }
    ensures made { buffer.new ≡ (Pairs.pair_put listed i j buffer.old values.now).buffer }
    ensures next { result ≡ (Pairs.pair_put listed i j buffer.old values.now).next }
{
    let moved = moves(buffer.direction().is_horizontal(), values);
    adjust(buffer, i, &values.first);
    adjust(buffer, j, &values.second);
    mark(buffer, listed, moved, i, j);
    end_pair(buffer, values, i, j)
}

/// Adjusts the two glyphs of any pair.
#[inline(never)]
pub(crate) fn put_pair(
    buffer: &mut hb_buffer_t,
    listed: bool,
    i: usize,
    j: usize,
    values: &PairValues,
) -> Option<usize>
    requires inside { j < length buffer.old.items }
    ensures made { buffer.new ≡ (Pairs.pair_put listed i j buffer.old values.now).buffer }
    ensures next { result ≡ (Pairs.pair_put listed i j buffer.old values.now).next }
{
    put_values(buffer, listed, i, j, values)
}

/// Adjusts the two glyphs of a pair that changes the advance of its first one alone. A call of its
/// own, in which little is left of what other pairs need.
#[inline(never)]
pub(crate) fn put_advance(
    buffer: &mut hb_buffer_t,
    listed: bool,
    i: usize,
    j: usize,
    advance: i32,
) -> Option<usize>
    requires inside { j < length buffer.old.items }
    ensures made { buffer.new
        ≡ (Pairs.pair_put listed i j buffer.old (Pairs.advance_values advance)).buffer }
    ensures next { result
        ≡ (Pairs.pair_put listed i j buffer.old (Pairs.advance_values advance)).next }
{
    put_values(buffer, listed, i, j, &advance_values(advance))
}

/// Adjusts the two glyphs of a pair by the records that were found for them.
#[inline(always)]
fn put_records(
    lookup: &Lookup<'_>,
    buffer: &mut hb_buffer_t,
    listed: bool,
    i: usize,
    j: usize,
    records: &PairRecords,
) -> Option<usize>
    requires inside { j < length buffer.old.items }
    requires base { records.now.base < 2 ^ 35 }
    requires at { records.now.at < 480000000000 }
    ensures made { buffer.new
        ≡ (Pairs.pair_put listed i j buffer.old (Pairs.values_of lookup.now records.now)).buffer }
    ensures next { result
        ≡ (Pairs.pair_put listed i j buffer.old (Pairs.values_of lookup.now records.now)).next }
{
    match plain_advance(lookup, records) {
        Some(advance) => put_advance(buffer, listed, i, j, advance),
        None => put_pair(buffer, listed, i, j, &values_of(lookup, records)),
    }
}

/// Applies pair adjustment to the glyphs at places `i` and `j`; `number` is that of the first one
/// in its list.
fn pair_with(
    lookup: &Lookup<'_>,
    start: usize,
    buffer: &mut hb_buffer_t,
    i: usize,
    number: u32,
    j: usize,
) -> Option<usize>
    requires start { start < 2 ^ 34 }
    requires inside { j < length buffer.old.items }
    ensures made { buffer.new ≡ (Pairs.pair_with lookup.now start i number buffer.old j).buffer }
    ensures next { result ≡ (Pairs.pair_with lookup.now start i number buffer.old j).next }
{
    let count = buffer.len();
    let left = item_at(buffer.infos(), i).glyph_id;
    let right = item_at(buffer.infos(), j).glyph_id;
    match pair_records(lookup, start, number, left, right) {
        Some(records) => {
            let listed = u16_at(lookup.table, start) == 1;
            put_records(lookup, buffer, listed, i, j, &records)
        }
        None => {
            concat_between(buffer, i, after(count, j));
            None
        }
    }
}

/// Applies pair adjustment to the glyph at place `i`, which is glyph number `number` of the list,
/// and the next one.
fn pair_from(
    lookup: &Lookup<'_>,
    start: usize,
    buffer: &mut hb_buffer_t,
    i: usize,
    number: u32,
    ahead: &mut Option<Option<usize>>,
) -> Option<usize>
    requires start { start < 2 ^ 34 }
    requires inside { i < length buffer.old.items }
    requires known { IfSome ahead.old
        (λ stop. stop ≡ Lookups.stop_after lookup.now buffer.old.items i) }
    ensures made { buffer.new ≡ (Pairs.pair_at_number lookup.now start i buffer.old number).buffer }
    ensures next { result ≡ (Pairs.pair_at_number lookup.now start i buffer.old number).next }
    ensures known { IfSome ahead.new
        (λ stop. stop ≡ Lookups.stop_after lookup.now buffer.old.items i) }
{
    let count = buffer.len();
    let stop = known_stop(lookup, buffer.infos(), i, ahead);
    match glyph_at(lookup, buffer.infos(), stop) {
        Some(j) => pair_with(lookup, start, buffer, i, number, j),
        None => {
            concat_between(buffer, i, end_at(count, stop));
            None
        }
    }
}

/// Whether the subtable is of a known format.
pub(crate) fn has_pairs(table: &[u8], start: usize) -> bool
    requires { start < 2 ^ 34 }
    ensures { result ≡ Pairs.has_pairs table.now start }
{
    matches!(u16_at(table, start), 1 | 2)
}

/// Applies pair adjustment to the glyph at place `i` and the next one that the lookup sees. Returns
/// the place where the lookup goes on. `ahead` is the first glyph after the place that isn't passed
/// over, once a subtable has sought it. A call of its own: inlined, its sums are made at each
/// glyph, whatever the lookup is.
#[inline(never)]
pub(crate) fn apply_pair(
    lookup: &Lookup<'_>,
    start: usize,
    buffer: &mut hb_buffer_t,
    i: usize,
    ahead: &mut Option<Option<usize>>,
) -> Option<usize>
    requires near { start < 2 ^ 34 }
    requires inside { i < length buffer.old.items }
    requires known { IfSome ahead.old
        (λ stop. stop ≡ Lookups.stop_after lookup.now buffer.old.items i) }
    ensures made { buffer.new ≡ (Pairs.pair_applied lookup.now start i buffer.old).buffer }
    ensures next { result ≡ (Pairs.pair_applied lookup.now start i buffer.old).next }
    ensures known { IfSome ahead.new
        (λ stop. stop ≡ Lookups.stop_after lookup.now buffer.old.items i) }
{
    if !has_pairs(lookup.table, start) {
        return None;
    }
    let glyph = item_at(buffer.infos(), i).glyph_id;
    match number_there(lookup.table, start, start + 2, glyph) {
        Some(number) => pair_from(lookup, start, buffer, i, number, ahead),
        None => None,
    }
}
