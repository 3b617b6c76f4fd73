//! How far reverse chained substitution looked in vain at a place.
//!
//! Where what stands before isn't there HarfBuzz marks nothing, else all from there to the glyph
//! after which the search ended.
ghost use Rattle.std.specs.Prelude.{◌≡◌, ◌<◌, ◌^◌, length};
ghost use Rattle.layout_substitution.specs.Edits.{concat_marked};
ghost use Rattle.layout_context.specs.Reverse;

use crate::reverse::reverse_rule;
use layout_buffer::{GapBuffer, ItemList};
use layout_matching::found::{number_in, subtable_at};
use layout_matching::lookup::Lookup;
use layout_matching::rules::Rule;
use layout_matching::seeking::{last_after, last_before};
use layout_matching::spans::seek_around;
use layout_matching::tried::{Reach, after_end, joined, match_at, untried, vain};
use layout_substitution::edits::{asks_for_concat, concat_span};
use layout_substitution::substitutes::count;
use layout_tables::lookups::{LookupSubtable, subtable_count};
use shape_font::bytes::u16_at;

/// How far a rule looked whose glyphs before the one at `at` are there, from `start` on.
fn after_reach(
    lookup: &Lookup<'_>,
    items: &ItemList<'_>,
    at: usize,
    rule: &Rule,
    start: usize,
) -> Reach
    requires { at < length items.now }
    ensures { result ≡ Reverse.reversal_after_reach lookup.now items.now at rule.now start }
{
    let seek = seek_around(lookup, &items.item(at), true, rule.after);
    let n = u32::from(rule.after.count);
    match last_after(lookup, &seek, items, n, at) {
        Some(_) => match_at(at),
        None => vain(at, start, after_end(lookup, &seek, items, n, at)),
    }
}

/// How far the subtable at `start` looked, whose list has the glyph as number `i`.
fn reach_of_number(
    lookup: &Lookup<'_>,
    items: &ItemList<'_>,
    at: usize,
    start: usize,
    i: u32,
) -> Reach
    requires near { start < 2 ^ 35 }
    requires inside { at < length items.now }
    ensures { result ≡ Reverse.reversal_reach_of lookup.now items.now at start i }
{
    let rule = reverse_rule(lookup.table, start);
    if count(lookup.table, rule.lookups) <= i {
        return untried(at);
    }
    let seek = seek_around(lookup, &items.item(at), true, rule.before);
    match last_before(lookup, &seek, items, u32::from(rule.before.count), at) {
        Some(first) => after_reach(lookup, items, at, &rule, first),
        None => untried(at),
    }
}

fn reach_of_subtable(
    lookup: &Lookup<'_>,
    items: &ItemList<'_>,
    at: usize,
    subtable: LookupSubtable,
) -> Reach
    requires near { subtable.start < 2 ^ 35 }
    requires inside { at < length items.now }
    ensures { result ≡ Reverse.reversal_reach_by lookup.now items.now at subtable }
{
    if subtable.kind != 8 || u16_at(lookup.table, subtable.start) != 1 {
        return untried(at);
    }
    match number_in(lookup.table, subtable.start, items.item(at).glyph_id) {
        Some(i) => reach_of_number(lookup, items, at, subtable.start, i),
        None => untried(at),
    }
}

/// How far subtable `i` of the lookup looked.
fn reach_in(lookup: &Lookup<'_>, items: &ItemList<'_>, at: usize, i: u32) -> Reach
    requires near { lookup.now.place < 2 ^ 17 }
    requires few { i < 2 ^ 16 }
    requires inside { at < length items.now }
    ensures { result ≡ Reverse.reversal_reach_in lookup.now items.now at i }
{
    match subtable_at(lookup, i) {
        Some(subtable) => reach_of_subtable(lookup, items, at, subtable),
        None => untried(at),
    }
}

/// How far the subtables of the lookup look that are tried at `at`, up to the first that matches.
#[tactic(auto, using(layout_matching::proofs::ReachLemmas::until_next, layout_matching::proofs::ReachLemmas::until_stays, layout_matching::proofs::ReachLemmas::until_end))]
fn reversal_reach(lookup: &Lookup<'_>, items: &ItemList<'_>, at: usize) -> Reach
    requires near { lookup.now.place < 2 ^ 17 }
    requires inside { at < length items.now }
    ensures { result ≡ Reverse.reversal_reach lookup.now items.now at }
{
    let mut reach = untried(at);
    for i in 0..subtable_count(lookup.table, lookup.place) {
        if reach.matched {
            return reach;
        }
        reach = joined(reach, reach_in(lookup, items, at, i));
    }
    reach
}

/// Marks what the lookup looked at in vain at a place unsafe to concat, if the buffer asks for
/// that.
#[tactic(auto, using(layout_substitution::proofs::EditLemmas::concat_marked_unasked))]
pub fn mark_tried(lookup: &Lookup<'_>, buffer: &mut GapBuffer, at: usize)
    requires near { lookup.now.place < 2 ^ 17 }
    requires inside { at < length buffer.old.items }
    ensures made { buffer.new
        ≡ concat_marked (Reverse.reversal_reach lookup.now buffer.old.items at) buffer.old }
    ensures as_many { length buffer.new.items ≡ length buffer.old.items }
{
    if !asks_for_concat(buffer) {
        return;
    }
    let reach = reversal_reach(lookup, &buffer.items(), at);
    concat_span(buffer, reach);
}
