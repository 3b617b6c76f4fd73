//! How far the rules of context look that are tried at a place, up to the first that matches.
//!
//! Of a chained rule whose own glyphs aren't all there HarfBuzz marks nothing. Nothing is changed
//! here.
ghost use Rattle.std.specs.Prelude.{◌≡◌, ◌<◌, ◌^◌, length};
ghost use Rattle.layout_matching.specs.Sought as sought_rules;
ghost use Rattle.layout_matching.specs.Tried;
ghost use Rattle.layout_matching.specs.Tried.{IsAhead};

use crate::foreseen::{Way, ahead_of, foreseen, seen_after, surely};
use crate::formats::{begins_whole, rule_by, set_for, whole_rule};
use crate::found::{is_chained, is_context_subtable, number_in, subtable_at};
use crate::input::match_input;
use crate::lookup::Lookup;
use crate::rules::{Rule, is_inside, rule_at};
use crate::seeking::{last_after, last_before};
use crate::spans::{Origin, seek_around};
use crate::tried::{Reach, after_end, before_start, input_end, joined, match_at, untried, vain};
use layout_buffer::ItemList;
use layout_tables::lookups::{LookupSubtable, subtable_count};
use shape_font::bytes::{records, u16_at};

/// How far a rule looked whose glyphs are there, and what stands after them, up to `end`.
fn before_reach(
    lookup: &Lookup<'_>,
    items: &ItemList<'_>,
    origin: Origin,
    rule: &Rule,
    end: usize,
) -> Reach
    requires { origin.at < length items.now }
    ensures { result ≡ Tried.before_reach lookup.now items.now origin rule.now end }
{
    let first = items.item(origin.at);
    let seek = seek_around(lookup, &first, origin.is_steady, rule.before);
    let n = u32::from(rule.before.count);
    match last_before(lookup, &seek, items, n, origin.at) {
        Some(_) => match_at(origin.at),
        None => {
            let start = before_start(lookup, &seek, items, n, origin.at);
            vain(origin.at, start, end)
        }
    }
}

/// How far a rule looked whose glyphs are there, the last one at `last`.
fn after_reach(
    lookup: &Lookup<'_>,
    items: &ItemList<'_>,
    origin: Origin,
    rule: &Rule,
    last: usize,
) -> Reach
    requires at { origin.at < length items.now }
    requires last { last < length items.now }
    ensures { result ≡ Tried.after_reach lookup.now items.now origin rule.now last }
{
    // The list can be counted, so the place after one of its own can.
    let _count = items.len();
    let first = items.item(origin.at);
    let seek = seek_around(lookup, &first, last == origin.at, rule.after);
    let n = u32::from(rule.after.count);
    match last_after(lookup, &seek, items, n, last) {
        Some(far) => before_reach(lookup, items, origin, rule, far + 1),
        None => vain(
            origin.at,
            origin.at,
            after_end(lookup, &seek, items, n, last),
        ),
    }
}

/// How far a rule looked whose glyphs aren't all there.
fn input_reach(
    lookup: &Lookup<'_>,
    items: &ItemList<'_>,
    at: usize,
    is_chain: bool,
    rule: &Rule,
) -> Reach
    requires { at < length items.now }
    ensures { result ≡ Tried.input_reach lookup.now items.now at is_chain rule.now }
{
    if is_chain {
        return untried(at);
    }
    vain(at, at, input_end(lookup, items, at, rule.input))
}

/// How far a rule looked.
fn rule_reach(
    lookup: &Lookup<'_>,
    items: &ItemList<'_>,
    origin: Origin,
    is_chain: bool,
    rule: &Rule,
) -> Reach
    requires { origin.at < length items.now }
    ensures { result ≡ Tried.rule_reach lookup.now items.now origin is_chain rule.now }
{
    if !is_inside(lookup.table, rule) {
        return untried(origin.at);
    }
    match match_input(lookup, items, origin.at, rule.input) {
        Some(found) => after_reach(lookup, items, origin, rule, found.last),
        None => input_reach(lookup, items, origin.at, is_chain, rule),
    }
}

/// How far the one rule of a subtable of format 3 looked.
fn whole_reach(
    lookup: &Lookup<'_>,
    items: &ItemList<'_>,
    origin: Origin,
    subtable: LookupSubtable,
) -> Reach
    requires near { subtable.start < 2 ^ 35 }
    requires inside { origin.at < length items.now }
    ensures { result ≡ Tried.whole_reach lookup.now items.now origin subtable }
{
    let is_chain = is_chained(lookup, subtable);
    let glyph = items.at(origin.at).glyph_id;
    if begins_whole(lookup.table, is_chain, subtable.start, glyph) {
        let rule = whole_rule(lookup.table, is_chain, subtable.start);
        rule_reach(lookup, items, origin, is_chain, &rule)
    } else {
        untried(origin.at)
    }
}

/// How far a rule of a set looked that is tried in this way.
fn way_reach(
    lookup: &Lookup<'_>,
    items: &ItemList<'_>,
    origin: Origin,
    is_chain: bool,
    way: Way,
    rule: &Rule,
) -> Reach
    requires inside { origin.at < length items.now }
    requires ahead { IsAhead (length items.now) way }
    ensures { result ≡ Tried.way_reach lookup.now items.now origin is_chain way rule.now }
{
    match way {
        Way::Lone if 1 < rule.input.count || 0 < rule.after.count => untried(origin.at),
        Way::Marked(ahead) => match foreseen(lookup, items, ahead, rule) {
            Some(end) => vain(origin.at, origin.at, end),
            None => rule_reach(lookup, items, origin, is_chain, rule),
        },
        Way::Unmarked(ahead) if foreseen(lookup, items, ahead, rule).is_some() => {
            untried(origin.at)
        }
        _ => rule_reach(lookup, items, origin, is_chain, rule),
    }
}

/// A set of rules: the subtable that it is of, and where it stands in the table.
#[derive(Clone, Copy)]
struct RuleSet {
    subtable: LookupSubtable,
    place: usize,
}

/// How far rule `r` of a set looked.
fn reach_by_rule(
    lookup: &Lookup<'_>,
    items: &ItemList<'_>,
    origin: Origin,
    set: RuleSet,
    way: Way,
    r: u32,
) -> Reach
    requires near { set.subtable.start < 2 ^ 35 }
    requires set { set.place < 2 ^ 36 }
    requires few { r < 2 ^ 16 }
    requires inside { origin.at < length items.now }
    requires ahead { IsAhead (length items.now) way }
    ensures { result ≡ Tried.rule_reach_in lookup.now items.now origin set.subtable way set.place r }
{
    match rule_at(lookup.table, set.place, r) {
        Some(place) => {
            let is_chain = is_chained(lookup, set.subtable);
            let rule = rule_by(lookup.table, is_chain, set.subtable.start, place);
            way_reach(lookup, items, origin, is_chain, way, &rule)
        }
        None => untried(origin.at),
    }
}

/// How many rules a set has.
fn rules_in(lookup: &Lookup<'_>, set: usize) -> u32
    requires { set < 2 ^ 36 }
    ensures value { result ≡ sought_rules.rules_in lookup.now set }
    ensures few { result < 2 ^ 16 }
{
    records(
        lookup.table,
        u32::from(u16_at(lookup.table, set)),
        set + 2,
        2,
    )
}

/// How far the rules of a set looked that are tried in this way, up to the first that matches, and
/// what was looked at before.
#[tactic(auto, using(crate::proofs::ReachLemmas::until_next, crate::proofs::ReachLemmas::until_stays, crate::proofs::ReachLemmas::until_end))]
fn rules_reach(
    lookup: &Lookup<'_>,
    items: &ItemList<'_>,
    origin: Origin,
    set: RuleSet,
    way: Way,
    start: Reach,
) -> Reach
    requires near { set.subtable.start < 2 ^ 35 }
    requires set { set.place < 2 ^ 36 }
    requires inside { origin.at < length items.now }
    requires ahead { IsAhead (length items.now) way }
    ensures { result ≡ Tried.rules_reach lookup.now items.now origin set.subtable set.place way
        start }
{
    let mut reach = start;
    for r in 0..rules_in(lookup, set.place) {
        if reach.matched {
            return reach;
        }
        reach = joined(reach, reach_by_rule(lookup, items, origin, set, way, r));
    }
    reach
}

/// How far the rules of a large set looked, whose next glyph stands at `next`. Plain rules are
/// asked for that in any case.
fn large_reach(
    lookup: &Lookup<'_>,
    items: &ItemList<'_>,
    origin: Origin,
    set: RuleSet,
    next: usize,
) -> Reach
    requires near { set.subtable.start < 2 ^ 35 }
    requires set { set.place < 2 ^ 36 }
    requires inside { origin.at < length items.now }
    requires next { next < length items.now }
    ensures { result ≡ Tried.large_reach lookup.now items.now origin set.subtable set.place next }
{
    // The list can be counted, so the place after one of its own can.
    let _count = items.len();
    let ahead = ahead_of(lookup, items, origin.at, next);
    let start = if is_chained(lookup, set.subtable) {
        untried(origin.at)
    } else {
        vain(origin.at, origin.at, next + 1)
    };
    let all = rules_reach(lookup, items, origin, set, Way::Marked(ahead), start);
    if !all.matched {
        return all;
    }
    let start = untried(origin.at);
    rules_reach(lookup, items, origin, set, Way::Unmarked(ahead), start)
}

/// Whether HarfBuzz asks of the rules of a set first whether they let the glyphs after the place
/// stand there: of chained ones only where joiners are passed over by themselves.
fn is_large(lookup: &Lookup<'_>, set: RuleSet) -> bool
    requires { set.place < 2 ^ 36 }
    ensures { result ≡ Tried.is_large lookup.now set.subtable set.place }
{
    4 < rules_in(lookup, set.place)
        && (!is_chained(lookup, set.subtable) || lookup.auto_zwnj && lookup.auto_zwj)
}

/// How far the rules of a set looked.
fn set_reach(lookup: &Lookup<'_>, items: &ItemList<'_>, origin: Origin, set: RuleSet) -> Reach
    requires near { set.subtable.start < 2 ^ 35 }
    requires set { set.place < 2 ^ 36 }
    requires inside { origin.at < length items.now }
    ensures { result ≡ Tried.set_reach lookup.now items.now origin set.subtable set.place }
{
    let start = untried(origin.at);
    if !is_large(lookup, set) {
        return rules_reach(lookup, items, origin, set, Way::Each, start);
    }
    match seen_after(lookup, items, origin.at, origin.at) {
        Some(next) => match surely(lookup, items, next) {
            Some(next) => large_reach(lookup, items, origin, set, next),
            None => rules_reach(lookup, items, origin, set, Way::Each, start),
        },
        None => rules_reach(lookup, items, origin, set, Way::Lone, start),
    }
}

fn number_reach(
    lookup: &Lookup<'_>,
    items: &ItemList<'_>,
    origin: Origin,
    subtable: LookupSubtable,
    number: u32,
) -> Reach
    requires near { subtable.start < 2 ^ 35 }
    requires inside { origin.at < length items.now }
    ensures { result ≡ Tried.number_reach lookup.now items.now origin subtable number }
{
    let glyph = items.item(origin.at).glyph_id;
    let is_chain = is_chained(lookup, subtable);
    match set_for(lookup.table, is_chain, subtable.start, glyph, number) {
        Some(place) => set_reach(lookup, items, origin, RuleSet { subtable, place }),
        None => untried(origin.at),
    }
}

fn sets_reach(
    lookup: &Lookup<'_>,
    items: &ItemList<'_>,
    origin: Origin,
    subtable: LookupSubtable,
) -> Reach
    requires near { subtable.start < 2 ^ 35 }
    requires inside { origin.at < length items.now }
    ensures { result ≡ Tried.sets_reach lookup.now items.now origin subtable }
{
    let glyph = items.item(origin.at).glyph_id;
    match number_in(lookup.table, subtable.start, glyph) {
        Some(i) => number_reach(lookup, items, origin, subtable, i),
        None => untried(origin.at),
    }
}

fn subtable_reach(
    lookup: &Lookup<'_>,
    items: &ItemList<'_>,
    origin: Origin,
    subtable: LookupSubtable,
) -> Reach
    requires near { subtable.start < 2 ^ 35 }
    requires inside { origin.at < length items.now }
    ensures { result ≡ Tried.subtable_reach lookup.now items.now origin subtable }
{
    if !is_context_subtable(lookup, subtable) {
        return untried(origin.at);
    }
    if u16_at(lookup.table, subtable.start) == 3 {
        whole_reach(lookup, items, origin, subtable)
    } else {
        sets_reach(lookup, items, origin, subtable)
    }
}

/// How far the rules of subtable `i` looked.
fn reach_by_subtable(lookup: &Lookup<'_>, items: &ItemList<'_>, origin: Origin, i: u32) -> Reach
    requires near { lookup.now.place < 2 ^ 17 }
    requires few { i < 2 ^ 16 }
    requires inside { origin.at < length items.now }
    ensures { result ≡ Tried.reach_at_subtable lookup.now items.now origin i }
{
    match subtable_at(lookup, i) {
        Some(subtable) => subtable_reach(lookup, items, origin, subtable),
        None => untried(origin.at),
    }
}

/// How far the rules of a lookup look that are tried at `origin`, up to the first that matches.
#[tactic(auto, using(crate::proofs::ReachLemmas::until_next, crate::proofs::ReachLemmas::until_stays, crate::proofs::ReachLemmas::until_end))]
pub fn reach_at(lookup: &Lookup<'_>, items: &ItemList<'_>, origin: Origin) -> Reach
    requires near { lookup.now.place < 2 ^ 17 }
    requires inside { origin.at < length items.now }
    ensures { result ≡ Tried.reach_of lookup.now items.now origin }
{
    let mut reach = untried(origin.at);
    for i in 0..subtable_count(lookup.table, lookup.place) {
        if reach.matched {
            return reach;
        }
        reach = joined(reach, reach_by_subtable(lookup, items, origin, i));
    }
    reach
}
