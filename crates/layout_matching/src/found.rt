//! The rule of a lookup that matches at a place (OpenType, "Common table formats", sequence context
//! 1 to 3, chained 1 to 3).
//!
//! Rules are asked in the order of the table, and the first that matches is taken. Nothing is
//! changed, and no memory is taken.
ghost use Rattle.std.specs.Prelude.{◌≡◌, ◌<◌, ◌+◌, ◌^◌, length, true, None};
ghost use Rattle.std.specs.Option.{IfSome, option_and_then};
ghost use Rattle.layout_matching.specs.Found as found_rules;
ghost use Rattle.layout_matching.specs.Glance as glances;

use crate::around::{GlancedSet, glanced, is_refused_there};
use crate::formats::{begins_whole, rule_by, set_for, whole_rule};
use crate::glance::Glances;
use crate::indexed::Indexed;
use crate::lookup::Lookup;
use crate::rules::{Rule, begins_inside, is_inside, rule_at};
use crate::spans::{Origin, Span, span_at};
use layout_buffer::ItemList;
use layout_tables::coverage::coverage_index;
use layout_tables::lookups::{LookupSubtable, lookup_type, subtable, subtable_count};
use layout_tables::offsets::offset16;
use shape_font::bytes::{records, u16_at};

/// The least type of a lookup of context, or of one whose subtables stand far away.
const LEAST_CONTEXT: u16 = 5;

/// A rule, and where it stands.
#[derive(Clone, Copy, PartialEq, Eq, Debug)]
pub struct Found {
    pub rule: Rule,
    pub span: Span,
}

/// The kind of a lookup of context.
fn context_kind(lookup: &Lookup<'_>) -> u16
    ensures { result ≡ found_rules.context_kind lookup.now }
{
    if lookup.positioning { 7 } else { 5 }
}

/// The kind of a lookup of chained context.
fn chained_kind(lookup: &Lookup<'_>) -> u16
    ensures { result ≡ found_rules.chained_kind lookup.now }
{
    if lookup.positioning { 8 } else { 6 }
}

/// The kind of a lookup whose subtables stand far away.
pub fn extension_kind(lookup: &Lookup<'_>) -> u16
    ensures { result ≡ found_rules.extension_kind lookup.now }
{
    if lookup.positioning { 9 } else { 7 }
}

pub(crate) fn is_chained(lookup: &Lookup<'_>, subtable: LookupSubtable) -> bool
    ensures { result ≡ found_rules.is_chained lookup.now subtable }
{
    subtable.kind == chained_kind(lookup)
}

pub(crate) fn is_context_subtable(lookup: &Lookup<'_>, subtable: LookupSubtable) -> bool
    ensures { result ≡ found_rules.is_context_subtable lookup.now subtable }
{
    subtable.kind == context_kind(lookup) || is_chained(lookup, subtable)
}

/// The rule, if the table has all of its bytes, and it matches.
#[inline(always)]
pub(crate) fn found_if(
    lookup: &Lookup<'_>,
    items: &ItemList<'_>,
    origin: Origin,
    rule: Rule,
) -> Option<Found>
    requires { origin.at < length items.now }
    ensures value { result ≡ found_rules.found_if lookup.now items.now origin rule }
    ensures last { IfSome result (λ f. f.span.last < length items.now) }
{
    if !is_inside(lookup.table, &rule) {
        return None;
    }
    match span_at(lookup, items, origin, &rule) {
        Some(span) => Some(Found { rule, span }),
        None => None,
    }
}

fn found_whole(
    lookup: &Lookup<'_>,
    items: &ItemList<'_>,
    origin: Origin,
    subtable: LookupSubtable,
) -> Option<Found>
    requires near { subtable.start < 2 ^ 35 }
    requires inside { origin.at < length items.now }
    ensures value { result ≡ found_rules.found_whole lookup.now items.now origin subtable }
    ensures last { IfSome result (λ f. f.span.last < length items.now) }
{
    let is_chain = is_chained(lookup, subtable);
    let glyph = items.at(origin.at).glyph_id;
    if begins_whole(lookup.table, is_chain, subtable.start, glyph) {
        let rule = whole_rule(lookup.table, is_chain, subtable.start);
        found_if(lookup, items, origin, rule)
    } else {
        None
    }
}

/// The rule at a place of the table, if it matches.
#[inline(never)]
pub(crate) fn found_at(
    lookup: &Lookup<'_>,
    items: &ItemList<'_>,
    origin: Origin,
    subtable: LookupSubtable,
    place: usize,
) -> Option<Found>
    requires near { subtable.start < 2 ^ 35 }
    requires place { place < 2 ^ 37 }
    requires inside { origin.at < length items.now }
    ensures value { result ≡ found_rules.found_at lookup.now items.now origin subtable place }
    ensures last { IfSome result (λ f. f.span.last < length items.now) }
{
    let is_chain = is_chained(lookup, subtable);
    let rule = rule_by(lookup.table, is_chain, subtable.start, place);
    found_if(lookup, items, origin, rule)
}

/// Whether the rule at a place of the table matches nothing, as a few numbers say of most rules.
#[tactic(auto, using(crate::proofs::RefusalLemmas::refused_rule, crate::proofs::PastLemmas::found_past))]
#[inline(always)]
fn is_vain(
    lookup: &Lookup<'_>,
    items: &ItemList<'_>,
    origin: Origin,
    set: &GlancedSet,
    place: usize,
    known: &mut Option<Glances>,
) -> bool
    requires near { set.now.subtable.start < 2 ^ 35 }
    requires place { place < 2 ^ 37 }
    requires inside { origin.at < length items.now }
    requires before { set.now.before
        ≡ (glances.glances_in lookup.now items.now origin set.now.subtable).before }
    requires known { IfSome known.old
        (λ g. g ≡ glances.glances_in lookup.now items.now origin set.now.subtable) }
    ensures none { result ≡ true
        → found_rules.found_at lookup.now items.now origin set.now.subtable place ≡ None }
    ensures known { IfSome known.new
        (λ g. g ≡ glances.glances_in lookup.now items.now origin set.now.subtable) }
{
    !begins_inside(lookup.table, place)
        || is_refused_there(lookup, items, origin, set, place, known)
}

/// Where rule `r` of the set stands, unless it matches nothing. The loop reads the rule itself: a
/// call that returned what matches would copy it.
#[inline(always)]
fn unrefused(
    lookup: &Lookup<'_>,
    items: &ItemList<'_>,
    origin: Origin,
    set: &GlancedSet,
    r: u32,
    known: &mut Option<Glances>,
) -> Option<usize>
    requires near { set.now.subtable.start < 2 ^ 35 }
    requires set { set.now.place < 2 ^ 36 }
    requires few { r < 2 ^ 16 }
    requires inside { origin.at < length items.now }
    requires before { set.now.before
        ≡ (glances.glances_in lookup.now items.now origin set.now.subtable).before }
    requires known { IfSome known.old
        (λ g. g ≡ glances.glances_in lookup.now items.now origin set.now.subtable) }
    ensures value { found_rules.found_rule lookup.now items.now origin set.now.subtable
        set.now.place r
        ≡ option_and_then (found_rules.found_at lookup.now items.now origin set.now.subtable)
        result }
    ensures near { IfSome result (λ place. place < 2 ^ 37) }
    ensures known { IfSome known.new
        (λ g. g ≡ glances.glances_in lookup.now items.now origin set.now.subtable) }
{
    match rule_at(lookup.table, set.place, r) {
        Some(place) if !is_vain(lookup, items, origin, set, place, known) => Some(place),
        _ => None,
    }
}

/// The first rule of the set that matches.
#[tactic(auto, using(crate::proofs::LoopLemmas::first_some_next, crate::proofs::LoopLemmas::first_some_found, crate::proofs::LoopLemmas::first_some_end))]
fn first_found(
    lookup: &Lookup<'_>,
    items: &ItemList<'_>,
    origin: Origin,
    set: &GlancedSet,
) -> Option<Found>
    requires near { set.now.subtable.start < 2 ^ 35 }
    requires set { set.now.place < 2 ^ 36 }
    requires inside { origin.at < length items.now }
    requires before { set.now.before
        ≡ (glances.glances_in lookup.now items.now origin set.now.subtable).before }
    ensures value { result
        ≡ found_rules.found_in_set lookup.now items.now origin set.now.subtable set.now.place }
    ensures last { IfSome result (λ f. f.span.last < length items.now) }
{
    let mut known = None;
    for r in 0..records(
        lookup.table,
        u32::from(u16_at(lookup.table, set.place)),
        set.place + 2,
        2,
    ) {
        if let Some(place) = unrefused(lookup, items, origin, set, r, &mut known) {
            if let Some(found) = found_at(lookup, items, origin, set.subtable, place) {
                return Some(found);
            }
        }
    }
    None
}

/// The number of a glyph in the list of the subtable at `start`, whose offset stands 2 bytes after
/// `start`.
pub fn number_in(table: &[u8], start: usize, glyph: u32) -> Option<u32>
    requires { start < 2 ^ 35 }
    ensures { result ≡ found_rules.number_of table.now start glyph }
{
    let list = offset16(table, start, start + 2)?;
    coverage_index(table, list, glyph)
}

/// The first rule of the glyph's set that matches. The set is found in this body, too: another call
/// would copy what it returns.
fn found_in_sets(
    lookup: &Lookup<'_>,
    items: &ItemList<'_>,
    origin: Origin,
    subtable: LookupSubtable,
) -> Option<Found>
    requires near { subtable.start < 2 ^ 35 }
    requires inside { origin.at < length items.now }
    ensures value { result ≡ found_rules.found_in_sets lookup.now items.now origin subtable }
    ensures last { IfSome result (λ f. f.span.last < length items.now) }
{
    let glyph = items.item(origin.at).glyph_id;
    let number = number_in(lookup.table, subtable.start, glyph)?;
    let is_chain = is_chained(lookup, subtable);
    let set = set_for(lookup.table, is_chain, subtable.start, glyph, number)?;
    first_found(
        lookup,
        items,
        origin,
        &glanced(lookup, items, origin, subtable, set),
    )
}

/// The rule of subtable `i` that matches.
fn found_at_subtable(
    lookup: &Lookup<'_>,
    items: &ItemList<'_>,
    origin: Origin,
    i: u32,
) -> Option<Found>
    requires near { lookup.now.place < 2 ^ 17 }
    requires few { i < 2 ^ 16 }
    requires inside { origin.at < length items.now }
    ensures value { result
        ≡ found_rules.found_at_subtable lookup.now items.now origin i }
    ensures last { IfSome result (λ f. f.span.last < length items.now) }
{
    let subtable = subtable(lookup.table, extension_kind(lookup), lookup.place, i)?;
    if !is_context_subtable(lookup, subtable) {
        return None;
    }
    if u16_at(lookup.table, subtable.start) == 3 {
        found_whole(lookup, items, origin, subtable)
    } else {
        found_in_sets(lookup, items, origin, subtable)
    }
}

/// The first rule of the first subtable that has one which matches at `origin`.
#[tactic(auto, using(crate::proofs::LoopLemmas::first_some_end))]
pub fn find(indexed: &Indexed<'_>, items: &ItemList<'_>, origin: Origin) -> Option<Found>
    requires near { indexed.now.lookup.now.place < 2 ^ 17 }
    requires inside { origin.at < length items.now }
    ensures value { result ≡ found_rules.found_of indexed.now.lookup.now items.now origin }
    ensures last { IfSome result (λ f. f.span.last < length items.now) }
{
    let glyph = items.at(origin.at).glyph_id;
    let count = subtable_count(indexed.lookup.table, indexed.lookup.place);
    let mut i = indexed.next_begun(0, count, glyph);
    while i < count {
        if let Some(found) = found_at_subtable(indexed.lookup, items, origin, i) {
            return Some(found);
        }
        i = indexed.next_begun(i + 1, count, glyph);
    }
    None
}

/// Subtable `i` of the lookup; none if its offset is NULL.
#[inline(always)]
pub fn subtable_at(lookup: &Lookup<'_>, i: u32) -> Option<LookupSubtable>
    requires near { lookup.now.place < 2 ^ 17 }
    requires few { i < 2 ^ 16 }
    ensures value { result ≡ found_rules.subtable_at lookup.now i }
    ensures near { IfSome result (λ p. p.start < 2 ^ 35) }
{
    subtable(lookup.table, extension_kind(lookup), lookup.place, i)
}

/// The first subtable of the lookup whose offset isn't NULL. All subtables are of the type of the
/// lookup, or of the one that its extensions stand for.
#[tactic(auto, using(crate::proofs::LoopLemmas::first_some_next, crate::proofs::LoopLemmas::first_some_found, crate::proofs::LoopLemmas::first_some_end))]
#[inline(always)]
pub fn first_subtable(lookup: &Lookup<'_>) -> Option<LookupSubtable>
    requires { lookup.now.place < 2 ^ 17 }
    ensures { result ≡ found_rules.first_subtable lookup.now }
{
    for i in 0..subtable_count(lookup.table, lookup.place) {
        if let Some(subtable) = subtable_at(lookup, i) {
            return Some(subtable);
        }
    }
    None
}

/// Whether the lookup is one of context, by what its first subtable is.
#[inline(never)]
fn begins_with_context(lookup: &Lookup<'_>) -> bool
    requires { lookup.now.place < 2 ^ 17 }
    ensures { result ≡ found_rules.is_context lookup.now }
{
    match first_subtable(lookup) {
        Some(subtable) => is_context_subtable(lookup, subtable),
        None => false,
    }
}

/// Whether the lookup is one of context, by its type. The first types say that alone: no subtable
/// of theirs is read.
#[tactic(auto, using(crate::proofs::KindLemmas::plain_kind))]
#[inline(always)]
pub fn is_context(lookup: &Lookup<'_>) -> bool
    requires { lookup.now.place < 2 ^ 17 }
    ensures { result ≡ found_rules.is_context lookup.now }
{
    if lookup_type(lookup.table, lookup.place) < LEAST_CONTEXT {
        return false;
    }
    begins_with_context(lookup)
}
