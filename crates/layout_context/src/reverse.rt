//! Reverse chained single substitution (kind 8): from the last item to the first, one glyph for
//! one.
//!
//! No memory is taken, and no item comes or goes. Such a lookup is applied to a whole buffer alone:
//! no rule applies it.
ghost use Rattle.std.specs.Prelude.{◌≡◌, ◌<◌, ◌≤◌, ◌-◌, ◌+◌, ◌^◌, length};
ghost use Rattle.layout_matching.specs.Loops.{times};
ghost use Rattle.layout_context.specs.Reverse;

use crate::reversal_reach::mark_tried;
use layout_buffer::{GapBuffer, ItemList};
use layout_matching::found::{extension_kind, first_subtable, number_in};
use layout_matching::indexed::Indexed;
use layout_matching::lookup::Lookup;
use layout_matching::rules::{Row, Rule, Test};
use layout_matching::skipping::is_on;
use layout_matching::spans::{Origin, Span, span_at};
use layout_matching::work::lookup_charged;
use layout_substitution::apply::put_glyph;
use layout_substitution::edits::{break_span, item};
use layout_substitution::substitutes::{count, listed};
use layout_tables::lookups::{LookupSubtable, lookup_type, subtable, subtable_count};
use shape_font::bytes::u16_at;

/// The glyph that replaces one, and the span that was looked at, from `start` up to `end`.
#[derive(Clone, Copy, PartialEq, Eq, Debug)]
pub struct Reversal {
    pub glyph: u32,
    pub start: usize,
    pub end: usize,
}

/// Where a walk backwards stands, after the next item, and what is left for the lookups to come.
#[derive(Clone, Copy, PartialEq, Eq, Debug)]
pub struct Backward {
    pub at: usize,
    pub left: usize,
}

fn lists(start: usize, count: u16, values: usize) -> Row
    ensures { result ≡ record {
      test = Test.Coverage;
      from = start;
      count = count;
      values = values;
    } }
{
    Row {
        test: Test::Coverage,
        from: start,
        count,
        values,
    }
}

/// What stands before and after the glyph; `lookups` is where the glyphs are listed that replace
/// it.
pub(crate) fn reverse_rule(table: &[u8], start: usize) -> Rule
    requires { start < 2 ^ 35 }
    ensures value { result ≡ Reverse.reverse_rule table.now start }
    ensures near { result.lookups < 2 ^ 36 }
{
    let before = lists(start, u16_at(table, start + 4), start + 6);
    let middle = start + 6 + 2 * usize::from(before.count);
    let after = lists(start, u16_at(table, middle), middle + 2);
    Rule {
        before,
        input: lists(start, 1, middle),
        after,
        lookups: middle + 2 + 2 * usize::from(after.count),
        count: 0,
    }
}

fn reversal_at(table: &[u8], rule: &Rule, i: u32, span: Span) -> Option<Reversal>
    requires { rule.now.lookups < 2 ^ 36 }
    ensures { result ≡ Reverse.reversal_at table.now rule.now i span }
{
    if i < count(table, rule.lookups) {
        Some(Reversal {
            glyph: u32::from(listed(table, rule.lookups, i)),
            start: span.start,
            end: span.end,
        })
    } else {
        None
    }
}

/// What replaces the glyph at `at`, which has number `i` in the list of the subtable at `start`.
fn reversal_by_number(
    lookup: &Lookup<'_>,
    items: &ItemList<'_>,
    at: usize,
    start: usize,
    i: u32,
) -> Option<Reversal>
    requires near { start < 2 ^ 35 }
    requires inside { at < length items.now }
    ensures { result ≡ Reverse.reversal_of lookup.now items.now at start i }
{
    let rule = reverse_rule(lookup.table, start);
    let origin = Origin {
        at,
        is_steady: true,
    };
    match span_at(lookup, items, origin, &rule) {
        Some(span) => reversal_at(lookup.table, &rule, i, span),
        None => None,
    }
}

fn reversal_by(
    lookup: &Lookup<'_>,
    items: &ItemList<'_>,
    at: usize,
    subtable: LookupSubtable,
) -> Option<Reversal>
    requires near { subtable.start < 2 ^ 35 }
    requires inside { at < length items.now }
    ensures { result ≡ Reverse.reversal_by lookup.now items.now at subtable }
{
    if subtable.kind != 8 || u16_at(lookup.table, subtable.start) != 1 {
        return None;
    }
    match number_in(lookup.table, subtable.start, items.item(at).glyph_id) {
        Some(i) => reversal_by_number(lookup, items, at, subtable.start, i),
        None => None,
    }
}

fn reversal_in(lookup: &Lookup<'_>, items: &ItemList<'_>, at: usize, i: u32) -> Option<Reversal>
    requires near { lookup.now.place < 2 ^ 17 }
    requires few { i < 2 ^ 16 }
    requires inside { at < length items.now }
    ensures { result ≡ Reverse.reversal_in lookup.now items.now at i }
{
    match subtable(lookup.table, extension_kind(lookup), lookup.place, i) {
        Some(subtable) => reversal_by(lookup, items, at, subtable),
        None => None,
    }
}

/// What the first subtable that replaces the glyph at `at` puts there.
#[tactic(auto, using(layout_matching::proofs::LoopLemmas::first_some_next, layout_matching::proofs::LoopLemmas::first_some_found, layout_matching::proofs::LoopLemmas::first_some_end))]
fn find_reversal(lookup: &Lookup<'_>, items: &ItemList<'_>, at: usize) -> Option<Reversal>
    requires near { lookup.now.place < 2 ^ 17 }
    requires inside { at < length items.now }
    ensures { result ≡ Reverse.reversal_found lookup.now items.now at }
{
    for i in 0..subtable_count(lookup.table, lookup.place) {
        if let Some(found) = reversal_in(lookup, items, at, i) {
            return Some(found);
        }
    }
    None
}

/// Marks the span that was looked at, and puts the glyph there.
#[tactic(auto, using(crate::proofs::ReverseLemmas::length_reversed_by))]
fn put_reversal(lookup: &Lookup<'_>, buffer: &mut GapBuffer, at: usize, found: Reversal)
    ensures made { buffer.new ≡ Reverse.reversed_by lookup.now at buffer.old found }
    ensures as_many { length buffer.new.items ≡ length buffer.old.items }
{
    break_span(buffer, found.start, found.end);
    put_glyph(lookup, buffer, at, found.glyph);
}

/// Replaces the glyph at `at` if the lookup is on there and a subtable of it matches.
#[tactic(auto, using(crate::proofs::ReverseLemmas::length_reversed_at))]
fn reverse_at(lookup: &Lookup<'_>, buffer: &mut GapBuffer, at: usize)
    requires near { lookup.now.place < 2 ^ 17 }
    requires inside { at < length buffer.old.items }
    ensures made { buffer.new ≡ Reverse.reversed_at lookup.now at buffer.old }
    ensures as_many { length buffer.new.items ≡ length buffer.old.items }
{
    if !is_on(lookup, &item(buffer, at)) {
        return;
    }
    mark_tried(lookup, buffer, at);
    if let Some(found) = find_reversal(lookup, &buffer.items(), at) {
        put_reversal(lookup, buffer, at, found);
    }
}

/// Goes over a buffer from its last item to its first. Returns what is left.
#[tactic(auto, using(layout_matching::proofs::LoopLemmas::times_step))]
pub fn reverse(lookup: &Lookup<'_>, buffer: &mut GapBuffer, left: usize) -> usize
    requires near { lookup.now.place < 2 ^ 17 }
    ensures made { buffer.new ≡ (Reverse.reversed lookup.now left buffer.old).buffer }
    ensures left { result ≡ (Reverse.reversed lookup.now left buffer.old).left }
{
    let mut back = Backward {
        at: buffer.len(),
        left,
    };
    for _i in 0..buffer.len() {
        back = reverse_one(lookup, buffer, back);
    }
    back.left
}

/// Replaces the glyph before a place, if there is one, and what is left suffices for what the
/// lookup may try there.
fn reverse_one(lookup: &Lookup<'_>, buffer: &mut GapBuffer, back: Backward) -> Backward
    requires near { lookup.now.place < 2 ^ 17 }
    requires inside { back.at ≤ length buffer.old.items }
    ensures step { record { buffer = buffer.new; at = result.at; left = result.left }
        ≡ Reverse.reverse_step lookup.now
        (record { buffer = buffer.old; at = back.at; left = back.left }) }
    ensures inside { result.at ≤ length buffer.new.items }
{
    if back.at == 0 {
        return back;
    }
    let at = back.at - 1;
    match lookup_charged(&Indexed::unstored(lookup), &buffer.items(), at, back.left) {
        Some(left) => {
            reverse_at(lookup, buffer, at);
            Backward { at, left }
        }
        None => Backward { at, left: 0 },
    }
}

/// The least type of a lookup that may go backwards, by itself or by what its subtables stand for.
const LEAST_BACKWARD: u16 = 7;

/// Whether the first subtable of the lookup goes backwards.
#[inline(never)]
fn begins_backwards(lookup: &Lookup<'_>) -> bool
    requires { lookup.now.place < 2 ^ 17 }
    ensures { result ≡ Reverse.is_reverse lookup.now }
{
    match first_subtable(lookup) {
        Some(subtable) => subtable.kind == 8,
        None => false,
    }
}

/// Whether the lookup goes backwards, by its type. The first types say that alone: no subtable of
/// theirs is read.
#[tactic(auto, using(crate::proofs::KindLemmas::forward_kind))]
pub fn is_reverse(lookup: &Lookup<'_>) -> bool
    requires { lookup.now.place < 2 ^ 17 }
    ensures { result ≡ Reverse.is_reverse lookup.now }
{
    if lookup_type(lookup.table, lookup.place) < LEAST_BACKWARD {
        return false;
    }
    begins_backwards(lookup)
}
