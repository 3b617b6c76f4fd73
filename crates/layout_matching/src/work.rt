//! What a lookup is charged for at a place before it is tried there, so that a font can't make
//! shaping long.
//!
//! Parts of a table may be shared, so that a small font names very many. Each subtable that begins
//! with the glyph is charged for, with the rules or ligatures of its set: one for each glyph that
//! they name, and for each that is passed over beside the place. A lookup is tried only if what is
//! left of a count suffices for all of them; nothing is read that isn't paid for.
ghost use Rattle.std.specs.Prelude.{◌≡◌, ◌<◌, ◌+◌, ◌*◌, ◌^◌, length};
ghost use Rattle.std.specs.Option.{IfSome};
ghost use Rattle.layout_tables.specs.Lookups.{subtable_count_of};
ghost use Rattle.layout_matching.specs.Work;

use crate::formats::{begins_whole, set_for, whole_rule};
use crate::found::{is_chained, is_context, is_context_subtable, number_in, subtable_at};
use crate::indexed::Indexed;
use crate::lookup::Lookup;
use crate::rules::rules;
use crate::sets::{passed_charged, rule_charged, set_charged};
use crate::skipping::is_transparent;
use crate::tally::{backward_rule, beside, charged};
use layout_buffer::ItemList;
use layout_tables::lookups::{LookupSubtable, lookup_type, subtable_count};
use shape_buffer::hb_glyph_info_t;
use shape_font::bytes::u16_at;

/// What a subtable costs that begins with the glyph at the place.
pub(crate) const SUBTABLE_WORK: usize = 8;

/// What a subtable costs at each item of a list, whether it begins there or not.
pub const STEP_WORK: usize = 8;

/// The same if the lookup is plain, which is paid by that alone; without what its devices cost.
pub const PLAIN_WORK: usize = 16;

/// What a lookup costs that a rule names.
const NESTED_WORK: usize = 32;

#[inline(always)]
fn is_ligature(lookup: &Lookup<'_>, subtable: LookupSubtable) -> bool
    ensures { result ≡ Work.is_ligature lookup.now subtable }
{
    !lookup.positioning && subtable.kind == 4
}

/// Where the rules, or the ligatures, for a glyph with this number stand.
#[inline(always)]
fn parts_for(
    lookup: &Lookup<'_>,
    subtable: LookupSubtable,
    glyph: u32,
    number: u32,
) -> Option<usize>
    requires near { subtable.start < 2 ^ 35 }
    ensures value { result ≡ Work.parts_for lookup.now subtable glyph number }
    ensures near { IfSome result (λ s. s < 2 ^ 36) }
{
    if is_context_subtable(lookup, subtable) {
        let is_chain = is_chained(lookup, subtable);
        set_for(lookup.table, is_chain, subtable.start, glyph, number)
    } else if is_ligature(lookup, subtable) {
        rules(lookup.table, subtable.start, 4, number)
    } else {
        None
    }
}

/// An alternate at random marks the whole list.
#[inline(always)]
fn whole_list(lookup: &Lookup<'_>, items: &ItemList<'_>, subtable: LookupSubtable) -> usize
    ensures { result ≡ Work.whole_list lookup.now items.now subtable }
{
    if !lookup.positioning && subtable.kind == 3 && lookup.random {
        items.len()
    } else {
        0
    }
}

/// What is left after a subtable without its rules or ligatures.
#[inline(always)]
pub(crate) fn begun_charged(
    lookup: &Lookup<'_>,
    items: &ItemList<'_>,
    subtable: LookupSubtable,
    left: usize,
) -> Option<usize>
    ensures { result ≡ Work.begun_charged lookup.now items.now subtable left }
{
    match charged(whole_list(lookup, items, subtable), left) {
        Some(left) => charged(SUBTABLE_WORK, left),
        None => None,
    }
}

#[inline(always)]
fn is_backward(lookup: &Lookup<'_>, subtable: LookupSubtable) -> bool
    ensures { result ≡ Work.is_backward lookup.now subtable }
{
    !lookup.positioning && subtable.kind == 8
}

/// What is left after the rules, or the ligatures, for the glyph at a place, or after the glyphs
/// beside it.
#[inline(always)]
fn parts_charged(
    lookup: &Lookup<'_>,
    items: &ItemList<'_>,
    at: usize,
    subtable: LookupSubtable,
    number: u32,
    left: usize,
) -> Option<usize>
    requires near { subtable.start < 2 ^ 35 }
    requires inside { at < length items.now }
    ensures { result ≡ Work.parts_charged lookup.now items.now at subtable number left }
{
    if is_backward(lookup, subtable) {
        let rule = backward_rule(lookup.table, subtable.start);
        return rule_charged(lookup, items, at, &rule, left);
    }
    let glyph = items.item(at).glyph_id;
    match parts_for(lookup, subtable, glyph, number) {
        Some(set) => set_charged(lookup, items, at, subtable, left, set),
        None => passed_charged(lookup, false, items, at, beside(left)),
    }
}

#[inline(always)]
fn numbered_charged(
    lookup: &Lookup<'_>,
    items: &ItemList<'_>,
    at: usize,
    subtable: LookupSubtable,
    left: usize,
    number: u32,
) -> Option<usize>
    requires near { subtable.start < 2 ^ 35 }
    requires inside { at < length items.now }
    ensures { result ≡ Work.numbered_charged lookup.now items.now at subtable left number }
{
    match begun_charged(lookup, items, subtable, left) {
        Some(left) => parts_charged(lookup, items, at, subtable, number, left),
        None => None,
    }
}

/// What is left after the one rule of a subtable of format 3, if it begins with the glyph at a
/// place.
fn whole_charged(
    lookup: &Lookup<'_>,
    items: &ItemList<'_>,
    at: usize,
    subtable: LookupSubtable,
    left: usize,
) -> Option<usize>
    requires near { subtable.start < 2 ^ 35 }
    requires inside { at < length items.now }
    ensures { result ≡ Work.whole_charged lookup.now items.now at subtable left }
{
    let is_chain = is_chained(lookup, subtable);
    let glyph = items.at(at).glyph_id;
    if !begins_whole(lookup.table, is_chain, subtable.start, glyph) {
        return Some(left);
    }
    let rule = whole_rule(lookup.table, is_chain, subtable.start);
    match begun_charged(lookup, items, subtable, left) {
        Some(left) => rule_charged(lookup, items, at, &rule, left),
        None => None,
    }
}

/// Whether the subtable has one rule, by its format.
#[inline(always)]
fn is_whole(lookup: &Lookup<'_>, subtable: LookupSubtable) -> bool
    requires { subtable.start < 2 ^ 35 }
    ensures { result ≡ Work.is_whole lookup.now subtable }
{
    is_context_subtable(lookup, subtable) && u16_at(lookup.table, subtable.start) == 3
}

/// What is left after a subtable; one that doesn't begin with the glyph at the place is free.
#[inline(always)]
fn subtable_charged(
    lookup: &Lookup<'_>,
    items: &ItemList<'_>,
    at: usize,
    left: usize,
    subtable: LookupSubtable,
) -> Option<usize>
    requires near { subtable.start < 2 ^ 35 }
    requires inside { at < length items.now }
    ensures { result ≡ Work.subtable_charged lookup.now items.now at left subtable }
{
    if is_whole(lookup, subtable) {
        return whole_charged(lookup, items, at, subtable, left);
    }
    let glyph = items.item(at).glyph_id;
    match number_in(lookup.table, subtable.start, glyph) {
        Some(number) => numbered_charged(lookup, items, at, subtable, left, number),
        None => Some(left),
    }
}

/// What is left after a subtable of ligatures. Its kind is a constant here, so that no test for
/// another kind is left.
#[inline(never)]
fn ligatures_charged(
    lookup: &Lookup<'_>,
    items: &ItemList<'_>,
    at: usize,
    left: usize,
    start: usize,
) -> Option<usize>
    requires near { start < 2 ^ 35 }
    requires inside { at < length items.now }
    ensures { result ≡ Work.subtable_charged lookup.now items.now at left
        (record { kind = 4; start = start }) }
{
    subtable_charged(lookup, items, at, left, LookupSubtable { kind: 4, start })
}

/// What is left after a subtable, by its kind.
fn kind_charged(
    lookup: &Lookup<'_>,
    items: &ItemList<'_>,
    at: usize,
    left: usize,
    subtable: LookupSubtable,
) -> Option<usize>
    requires near { subtable.start < 2 ^ 35 }
    requires inside { at < length items.now }
    ensures { result ≡ Work.subtable_charged lookup.now items.now at left subtable }
{
    if subtable.kind == 4 {
        return ligatures_charged(lookup, items, at, left, subtable.start);
    }
    subtable_charged(lookup, items, at, left, subtable)
}

/// What is left after subtable `i`.
pub(crate) fn charged_at_subtable(
    lookup: &Lookup<'_>,
    items: &ItemList<'_>,
    at: usize,
    i: u32,
    left: usize,
) -> Option<usize>
    requires near { lookup.now.place < 2 ^ 17 }
    requires few { i < 2 ^ 16 }
    requires inside { at < length items.now }
    ensures { result ≡ Work.charged_at_subtable lookup.now items.now at i left }
{
    match subtable_at(lookup, i) {
        Some(subtable) => kind_charged(lookup, items, at, left, subtable),
        None => Some(left),
    }
}

/// Whether no subtable of the lookup has rules or ligatures, nor marks a whole list, by the
/// lookup's type: in `GPOS` all but context, in `GSUB` kinds 1 and 2, and 3 if it isn't at random.
#[inline(always)]
fn is_plain(lookup: &Lookup<'_>) -> bool
    requires { lookup.now.place < 2 ^ 17 }
    ensures { result ≡ Work.is_plain lookup.now }
{
    if lookup.positioning {
        return !is_context(lookup);
    }
    match lookup_type(lookup.table, lookup.place) {
        1 | 2 => true,
        3 => !lookup.random,
        _ => false,
    }
}

/// What is left after all subtables that begin with the glyph at a place.
#[tactic(auto, using(crate::proofs::LoopLemmas::steps_none, crate::proofs::LoopLemmas::steps_end))]
#[inline(never)]
fn subtables_charged(
    indexed: &Indexed<'_>,
    items: &ItemList<'_>,
    at: usize,
    left: usize,
) -> Option<usize>
    requires near { indexed.now.lookup.now.place < 2 ^ 17 }
    requires inside { at < length items.now }
    ensures { result ≡ Work.subtables_charged indexed.now.lookup.now items.now at left }
{
    let glyph = items.at(at).glyph_id;
    let count = subtable_count(indexed.lookup.table, indexed.lookup.place);
    let mut left = left;
    let mut i = indexed.next_begun(0, count, glyph);
    while i < count {
        match charged_at_subtable(indexed.lookup, items, at, i, left) {
            Some(less) => left = less,
            None => return None,
        }
        i = indexed.next_begun(i + 1, count, glyph);
    }
    Some(left)
}

/// Whether the walk over the list has paid for the lookup at a glyph, or the rule that names it.
#[inline(always)]
fn is_paid(lookup: &Lookup<'_>, item: &hb_glyph_info_t) -> bool
    requires { lookup.now.place < 2 ^ 17 }
    ensures { result ≡ Work.is_paid lookup.now item.now }
{
    is_plain(lookup) && !is_transparent(lookup, false, item)
}

/// What is left after the lookup was charged for the subtables that begin with the glyph at a
/// place; none if it doesn't suffice. One without rules and ligatures is paid by the walk over the
/// list, or where a rule names it.
#[inline(always)]
pub fn lookup_charged(
    indexed: &Indexed<'_>,
    items: &ItemList<'_>,
    at: usize,
    left: usize,
) -> Option<usize>
    requires near { indexed.now.lookup.now.place < 2 ^ 17 }
    requires inside { at < length items.now }
    ensures { result ≡ Work.lookup_charged indexed.now.lookup.now items.now at left }
{
    if is_paid(indexed.lookup, items.at(at)) {
        Some(left)
    } else {
        subtables_charged(indexed, items, at, left)
    }
}

/// What a subtable costs at each item of a list, whether it begins there or not.
fn step_work(lookup: &Lookup<'_>) -> usize
    requires { lookup.now.place < 2 ^ 17 }
    ensures value { result ≡ Work.step_work lookup.now }
    ensures near { result < 2 ^ 33 }
{
    if !is_plain(lookup) {
        STEP_WORK
    } else if lookup.positioning {
        PLAIN_WORK + lookup.device_work as usize
    } else {
        PLAIN_WORK
    }
}

/// The same of all its subtables. A lookup without subtables costs as much as one with one.
fn steps_work(lookup: &Lookup<'_>) -> usize
    requires { lookup.now.place < 2 ^ 17 }
    ensures value { result ≡ Work.steps_work lookup.now }
    ensures near { result < 2 ^ 49 }
{
    let count = (subtable_count(lookup.table, lookup.place) as usize).max(1);
    count * step_work(lookup)
}

/// What is left after a lookup that a rule names was charged for all of its subtables.
pub fn named_paid(lookup: &Lookup<'_>, left: usize) -> Option<usize>
    requires { lookup.now.place < 2 ^ 17 }
    ensures { result ≡ Work.charged (Work.steps_work lookup.now + Work.NESTED_WORK) left }
{
    charged(steps_work(lookup) + NESTED_WORK, left)
}

/// What is left after a lookup that a rule names was charged for all of its subtables, and for
/// those that begin with the glyph.
pub fn nested_charged(
    lookup: &Lookup<'_>,
    items: &ItemList<'_>,
    at: usize,
    left: usize,
) -> Option<usize>
    requires near { lookup.now.place < 2 ^ 17 }
    requires inside { at < length items.now }
    ensures { result ≡ Work.nested_charged lookup.now items.now at left }
{
    match named_paid(lookup, left) {
        Some(left) => subtables_charged(&Indexed::unstored(lookup), items, at, left),
        None => None,
    }
}

/// What a lookup costs that goes over so many items, for each of its subtables.
pub fn walk_work(lookup: &Lookup<'_>, count: usize) -> usize
    requires { lookup.now.place < 2 ^ 17 }
    ensures { result ≡ Work.walk_work lookup.now count }
{
    // Substitution may have emptied the list. Then the lookup's subtables aren't read, however many
    // it has.
    if count == 0 {
        return 0;
    }
    count.saturating_mul(steps_work(lookup))
}
