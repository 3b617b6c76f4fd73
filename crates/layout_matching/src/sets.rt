//! What a set of rules, or of ligatures, costs at a place: its rules, and what they pass over.
ghost use Rattle.std.specs.Prelude.{◌≡◌, ◌<◌, ◌^◌, length};
ghost use Rattle.std.specs.Option.{IfSome};
ghost use Rattle.layout_matching.specs.Work;

use crate::formats::rows_of;
use crate::found::{is_chained, is_context_subtable};
use crate::glance::{Glances, glances_around, is_refused};
use crate::input::marks_passed;
use crate::lookup::Lookup;
use crate::passing::{SEARCH_WORK, is_free_beside, passed_after, passed_before};
use crate::rules::{Rule, rule_at};
use crate::spans::Origin;
use crate::tally::{
    Counts, Tally, Tries, beside, charged, counted, counts_at, ligature_counts, null_counted,
    rule_counted, short, tries_made, uncounted,
};
use layout_buffer::ItemList;
use layout_tables::lookups::LookupSubtable;
use shape_font::bytes::{records, u16_at};

/// How many marks cost one that are looked at for the ligature that a mark stands on: nothing but
/// their ligature is read.
const MARKS_PART: usize = 4;

/// What a rule or a set passes over beside a place, by glyphs that are `listed` or aren't. Nearly
/// always that is nothing.
#[inline(always)]
pub(crate) fn passed(
    lookup: &Lookup<'_>,
    listed: bool,
    items: &ItemList<'_>,
    at: usize,
    count: Tally,
) -> usize
    requires { at < length items.now }
    ensures { result ≡ Work.passed lookup.now listed items.now at count }
{
    if is_free_beside(lookup, items, at, count) {
        return 0;
    }
    passed_glyphs(lookup, listed, items, at, count)
}

/// The same, where a glyph may be passed over.
#[inline(never)]
fn passed_glyphs(
    lookup: &Lookup<'_>,
    listed: bool,
    items: &ItemList<'_>,
    at: usize,
    count: Tally,
) -> usize
    requires { at < length items.now }
    ensures { result ≡ Work.passed lookup.now listed items.now at count }
{
    let before = passed_before(lookup, listed, items, at, count.before);
    let beside = passed_after(lookup, listed, items, at, count.after).saturating_add(before);
    beside.saturating_add(marks_passed(lookup, items, at) / MARKS_PART)
}

/// What is left after what a rule or a set passes over, which is looked at each time.
pub(crate) fn passed_charged(
    lookup: &Lookup<'_>,
    listed: bool,
    items: &ItemList<'_>,
    at: usize,
    count: Tally,
) -> Option<usize>
    requires { at < length items.now }
    ensures { result ≡ Work.passed_charged lookup.now listed items.now at count }
{
    let passed = passed(lookup, listed, items, at, count);
    charged(count.tries.saturating_mul(passed), count.left)
}

/// What is left after the searches of a rule's lists: one for each glyph.
pub(crate) fn lists_charged(rule: &Rule, left: usize) -> Option<usize>
    ensures { result ≡ Work.lists_charged rule.now left }
{
    let glyphs = short(rule.before.count) + short(rule.input.count) + short(rule.after.count);
    charged(glyphs * SEARCH_WORK, left)
}

/// What is left after what a rule names, and what it passes over.
#[inline(always)]
fn counted_charged(
    lookup: &Lookup<'_>,
    items: &ItemList<'_>,
    at: usize,
    rule: &Rule,
    left: usize,
) -> Option<usize>
    requires { at < length items.now }
    ensures { result ≡ Work.counted_charged lookup.now items.now at rule.now left }
{
    match rule_counted(rule, uncounted(left)) {
        Some(count) => passed_charged(lookup, true, items, at, count),
        None => None,
    }
}

/// What is left after one rule of lists.
#[inline(always)]
pub(crate) fn rule_charged(
    lookup: &Lookup<'_>,
    items: &ItemList<'_>,
    at: usize,
    rule: &Rule,
    left: usize,
) -> Option<usize>
    requires { at < length items.now }
    ensures { result ≡ Work.rule_charged lookup.now items.now at rule.now left }
{
    match lists_charged(rule, left) {
        Some(left) => counted_charged(lookup, items, at, rule, left),
        None => None,
    }
}

/// The counts of the rule, or of the ligature, at a place of the table.
#[inline(always)]
pub(crate) fn part_counts(lookup: &Lookup<'_>, subtable: LookupSubtable, place: usize) -> Counts
    requires { place < 2 ^ 37 }
    ensures { result ≡ Work.part_counts lookup.now subtable place }
{
    if is_context_subtable(lookup, subtable) {
        counts_at(lookup.table, is_chained(lookup, subtable), place)
    } else {
        ligature_counts(lookup.table, place)
    }
}

/// Number `r` of the rules, or ligatures, at `set`.
#[tactic(auto, using(crate::proofs::TallyLemmas::part_counted_by))]
#[inline(always)]
fn part_counted(
    lookup: &Lookup<'_>,
    subtable: LookupSubtable,
    set: usize,
    r: u32,
    count: Tally,
) -> Option<Tally>
    requires near { subtable.start < 2 ^ 35 }
    requires set { set < 2 ^ 36 }
    requires few { r < 2 ^ 16 }
    ensures { result ≡ Work.part_counted lookup.now subtable set r count }
{
    match rule_at(lookup.table, set, r) {
        Some(place) => counted(part_counts(lookup, subtable, place), count),
        None => null_counted(count),
    }
}

/// All rules, or ligatures, at `set`.
#[tactic(auto, using(crate::proofs::LoopLemmas::steps_next, crate::proofs::LoopLemmas::steps_none, crate::proofs::LoopLemmas::steps_end))]
#[inline(always)]
fn set_counted(
    lookup: &Lookup<'_>,
    subtable: LookupSubtable,
    left: usize,
    set: usize,
) -> Option<Tally>
    requires near { subtable.start < 2 ^ 35 }
    requires set { set < 2 ^ 36 }
    ensures { result ≡ Work.set_counted lookup.now subtable left set }
{
    let mut count = beside(left);
    for r in 0..records(
        lookup.table,
        u32::from(u16_at(lookup.table, set)),
        set + 2,
        2,
    ) {
        match part_counted(lookup, subtable, set, r, count) {
            Some(more) => count = more,
            None => return None,
        }
    }
    Some(count)
}

/// Whether a rule is refused by the glyph beside the place.
fn is_vain(lookup: &Lookup<'_>, subtable: LookupSubtable, around: &Glances, place: usize) -> bool
    requires { place < 2 ^ 37 }
    ensures { result ≡ Work.is_vain lookup.now subtable around.now place }
{
    is_context_subtable(lookup, subtable)
        && is_refused(lookup.table, around, is_chained(lookup, subtable), place)
}

/// One rule more, or ligature, at a place of the table.
fn rule_tried(
    lookup: &Lookup<'_>,
    subtable: LookupSubtable,
    around: &Glances,
    place: usize,
    tries: Tries,
) -> Tries
    requires { place < 2 ^ 37 }
    ensures { result ≡ Work.rule_tried lookup.now subtable around.now place tries }
{
    if is_vain(lookup, subtable, around, place) {
        return tries;
    }
    Tries {
        rules: tries.rules.saturating_add(1),
        lookups: tries
            .lookups
            .max(short(part_counts(lookup, subtable, place).lookups)),
    }
}

/// Number `r` of the rules, or ligatures, at `set`.
fn tries_step(
    lookup: &Lookup<'_>,
    subtable: LookupSubtable,
    around: &Glances,
    set: usize,
    r: u32,
    tries: Tries,
) -> Tries
    requires set { set < 2 ^ 36 }
    requires few { r < 2 ^ 16 }
    ensures { result ≡ Work.tries_step lookup.now subtable around.now set r tries }
{
    match rule_at(lookup.table, set, r) {
        Some(place) => rule_tried(lookup, subtable, around, place, tries),
        None => tries,
    }
}

/// What the glyphs beside a place say of the rules of a subtable, in any syllable.
fn glances_at(
    lookup: &Lookup<'_>,
    items: &ItemList<'_>,
    at: usize,
    subtable: LookupSubtable,
) -> Glances
    requires near { subtable.start < 2 ^ 35 }
    requires inside { at < length items.now }
    ensures { result ≡ Work.glances_at lookup.now items.now at subtable }
{
    let is_chain = is_chained(lookup, subtable);
    let rows = rows_of(lookup.table, is_chain, subtable.start);
    let origin = Origin {
        at,
        is_steady: false,
    };
    glances_around(lookup, items, origin, is_chain, rows)
}

/// How often the rules, or ligatures, at `set` look beside the place.
#[tactic(auto, using(crate::proofs::PassingLemmas::along_next, crate::proofs::PassingLemmas::along_end))]
#[inline(never)]
fn set_tries(
    lookup: &Lookup<'_>,
    items: &ItemList<'_>,
    at: usize,
    subtable: LookupSubtable,
    set: usize,
) -> Tries
    requires near { subtable.start < 2 ^ 35 }
    requires set { set < 2 ^ 36 }
    requires inside { at < length items.now }
    ensures { result ≡ Work.set_tries lookup.now items.now at subtable set }
{
    let around = glances_at(lookup, items, at, subtable);
    let mut tries = Tries {
        rules: 0,
        lookups: 0,
    };
    for r in 0..records(
        lookup.table,
        u32::from(u16_at(lookup.table, set)),
        set + 2,
        2,
    ) {
        tries = tries_step(lookup, subtable, &around, set, r, tries);
    }
    tries
}

/// Whether the rules of the subtable name glyphs by their classes.
#[inline(always)]
pub(crate) fn has_classes(lookup: &Lookup<'_>, subtable: LookupSubtable) -> bool
    requires { subtable.start < 2 ^ 35 }
    ensures { result ≡ Work.has_classes lookup.now subtable }
{
    is_context_subtable(lookup, subtable) && u16_at(lookup.table, subtable.start) == 2
}

/// What is left after what the rules, or ligatures, at `set` pass over. Nearly always that is
/// nothing, so that none of them is asked how often it looks there.
#[tactic(auto, using(crate::proofs::PassingLemmas::passed_free))]
#[inline(always)]
pub(crate) fn set_passed(
    lookup: &Lookup<'_>,
    items: &ItemList<'_>,
    at: usize,
    subtable: LookupSubtable,
    set: usize,
    count: Tally,
) -> Option<usize>
    requires near { subtable.start < 2 ^ 35 }
    requires set { set < 2 ^ 36 }
    requires inside { at < length items.now }
    ensures { result ≡ Work.set_passed lookup.now items.now at subtable set count }
{
    let passed = passed(lookup, has_classes(lookup, subtable), items, at, count);
    if passed == 0 {
        return Some(count.left);
    }
    let tries = tries_made(set_tries(lookup, items, at, subtable, set));
    charged(tries.saturating_mul(passed), count.left)
}

/// What is left after all rules, or ligatures, at `set`.
#[inline(always)]
pub(crate) fn set_charged(
    lookup: &Lookup<'_>,
    items: &ItemList<'_>,
    at: usize,
    subtable: LookupSubtable,
    left: usize,
    set: usize,
) -> Option<usize>
    requires near { subtable.start < 2 ^ 35 }
    requires set { set < 2 ^ 36 }
    requires inside { at < length items.now }
    ensures { result ≡ Work.set_charged lookup.now items.now at subtable left set }
{
    match set_counted(lookup, subtable, left, set) {
        Some(count) => set_passed(lookup, items, at, subtable, set, count),
        None => None,
    }
}
