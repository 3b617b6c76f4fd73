//! The rule of a lookup of context that applies at a place, and what is left after looking for it.
//!
//! One walk does both: a subtable, a set and a rule are charged for before they are looked at, and
//! nothing after the rule that applies.
ghost use Rattle.std.specs.Prelude.{◌≡◌, None, Some, ◌<◌, ◌^◌, length, true, false};
ghost use Rattle.std.specs.Option.{IfSome, option_and_then};
ghost use Rattle.layout_matching.specs.Found as found_rules;
ghost use Rattle.layout_matching.specs.Found.{found_of, is_first, whole_rule as whole_rule_of};
ghost use Rattle.layout_matching.specs.Skipping.{nth};
ghost use Rattle.layout_matching.specs.Sought as sought_rules;
ghost use Rattle.layout_matching.specs.Work;

use crate::formats::{begins_rule, whole_rule};
use crate::found::{Found, found_if, is_chained, is_context_subtable, subtable_at};
use crate::indexed::Indexed;
use crate::lookup::Lookup;
use crate::nearest::is_missed;
use crate::remembered::{Beside, rule_charged_again};
use crate::set_rules::seek_in_sets;
use crate::sets::rule_charged;
use crate::spans::Origin;
use crate::tally::charged;
use crate::whole_rules::stored_begins;
use crate::work::SUBTABLE_WORK;
use layout_buffer::ItemList;
use layout_tables::lookups::{LookupSubtable, subtable_count};
use shape_font::bytes::u16_at;

/// What is left, and the rule that applies, if there is one.
#[derive(Clone, Copy, PartialEq, Eq, Debug)]
pub struct Sought {
    pub left: usize,
    pub found: Option<Found>,
}

pub(crate) fn unfound(left: usize) -> Sought
    ensures { result ≡ sought_rules.unfound left }
{
    Sought { left, found: None }
}

/// Whether the one rule of a subtable of format 3 has to be looked at; if not, it was charged for.
/// It has not, if it doesn't begin with the glyph, or a glyph right beside the place refuses it.
/// Most rules are done with here, and nothing of them is stored.
#[inline(always)]
fn whole_begins(
    lookup: &Lookup<'_>,
    items: &ItemList<'_>,
    origin: Origin,
    subtable: LookupSubtable,
    left: &mut usize,
    known: &mut Option<Beside>,
) -> bool
    requires near { subtable.start < 2 ^ 35 }
    requires inside { origin.at < length items.now }
    requires known { IfSome known.old (Work.IsBeside lookup.now true items.now origin.at) }
    ensures missed { result ≡ false → sought_rules.whole_sought lookup.now items.now origin subtable left.old
        ≡ Some (sought_rules.unfound left.new) }
    ensures kept { result ≡ true → left.new ≡ left.old }
    ensures begun { result ≡ true → is_first lookup.now.table.now subtable.start
        (whole_rule_of lookup.now.table.now (found_rules.is_chained lookup.now subtable) subtable.start)
        (nth items.now origin.at).glyph_id ≡ true }
    ensures known { IfSome known.new (Work.IsBeside lookup.now true items.now origin.at) }
{
    let rule = whole_rule(lookup.table, is_chained(lookup, subtable), subtable.start);
    if !begins_rule(
        lookup.table,
        subtable.start,
        &rule,
        items.at(origin.at).glyph_id,
    ) {
        return false;
    }
    if !is_missed(lookup, items, origin, &rule) {
        return true;
    }
    let Some(rest) = charged(SUBTABLE_WORK, *left) else {
        return true;
    };
    match rule_charged_again(lookup, items, origin.at, &rule, rest, known) {
        Some(rest) => {
            *left = rest;
            false
        }
        None => true,
    }
}

/// Subtable `i`, of which nothing is stored, if it has to be looked at; if not, it was charged for.
#[inline(always)]
fn unstored_begun_at(
    lookup: &Lookup<'_>,
    items: &ItemList<'_>,
    origin: Origin,
    i: u32,
    left: &mut usize,
    known: &mut Option<Beside>,
) -> Option<LookupSubtable>
    requires near { lookup.now.place < 2 ^ 17 }
    requires few { i < 2 ^ 16 }
    requires inside { origin.at < length items.now }
    requires known { IfSome known.old (Work.IsBeside lookup.now true items.now origin.at) }
    ensures missed { result ≡ None → sought_rules.sought_at_subtable lookup.now items.now origin i left.old
        ≡ Some (sought_rules.unfound left.new) }
    ensures begun { IfSome result (λ s. sought_rules.sought_at_subtable lookup.now items.now origin i left.old
        ≡ sought_rules.begun_sought lookup.now items.now origin left.new s) }
    ensures near { IfSome result (λ s. s.start < 2 ^ 35) }
    ensures known { IfSome known.new (Work.IsBeside lookup.now true items.now origin.at) }
{
    let Some(subtable) = subtable_at(lookup, i) else {
        return None;
    };
    if !is_context_subtable(lookup, subtable) {
        return None;
    }
    if u16_at(lookup.table, subtable.start) == 3
        && !whole_begins(lookup, items, origin, subtable, left, known)
    {
        return None;
    }
    Some(subtable)
}

/// Subtable `i`, if it has to be looked at; if not, it was charged for.
#[tactic(auto, using(crate::proofs::WholeRuleLemmas::stored_sought, crate::proofs::WholeRuleLemmas::stored_begun))]
#[inline(always)]
fn begun_at(
    indexed: &Indexed<'_>,
    items: &ItemList<'_>,
    origin: Origin,
    i: u32,
    left: &mut usize,
    known: &mut Option<Beside>,
) -> Option<LookupSubtable>
    requires near { indexed.now.lookup.now.place < 2 ^ 17 }
    requires few { i < 2 ^ 16 }
    requires inside { origin.at < length items.now }
    requires known { IfSome known.old (Work.IsBeside indexed.now.lookup.now true items.now origin.at) }
    ensures missed { result ≡ None
        → sought_rules.sought_at_subtable indexed.now.lookup.now items.now origin i left.old
        ≡ Some (sought_rules.unfound left.new) }
    ensures begun { IfSome result (λ s.
        sought_rules.sought_at_subtable indexed.now.lookup.now items.now origin i left.old
        ≡ sought_rules.begun_sought indexed.now.lookup.now items.now origin left.new s) }
    ensures near { IfSome result (λ s. s.start < 2 ^ 35) }
    ensures known { IfSome known.new (Work.IsBeside indexed.now.lookup.now true items.now origin.at) }
{
    let Some(stored) = indexed.whole_at(i) else {
        return unstored_begun_at(indexed.lookup, items, origin, i, left, known);
    };
    if stored_begins(indexed.lookup, items, origin, stored, left, known) {
        Some(stored.subtable)
    } else {
        None
    }
}

/// Looks at the one rule of a subtable of format 3 that begins with the glyph. Returns whether what
/// was left sufficed. It is read once.
#[inline(never)]
fn seek_whole(
    lookup: &Lookup<'_>,
    items: &ItemList<'_>,
    origin: Origin,
    subtable: LookupSubtable,
    sought: &mut Sought,
) -> bool
    requires near { subtable.start < 2 ^ 35 }
    requires inside { origin.at < length items.now }
    requires none { sought.old.found ≡ None }
    ensures paid { result ≡ true → option_and_then
        (sought_rules.first_sought lookup.now items.now origin subtable)
        (Work.charged Work.SUBTABLE_WORK sought.old.left) ≡ Some sought.new }
    ensures unpaid { result ≡ false → option_and_then
        (sought_rules.first_sought lookup.now items.now origin subtable)
        (Work.charged Work.SUBTABLE_WORK sought.old.left) ≡ None }
    ensures last { IfSome sought.new.found (λ f. f.span.last < length items.now) }
{
    let is_chain = is_chained(lookup, subtable);
    let Some(left) = charged(SUBTABLE_WORK, sought.left) else {
        return false;
    };
    let rule = whole_rule(lookup.table, is_chain, subtable.start);
    match rule_charged(lookup, items, origin.at, &rule, left) {
        Some(left) => {
            sought.left = left;
            sought.found = found_if(lookup, items, origin, rule);
            true
        }
        None => false,
    }
}

/// Looks for the first rule of a subtable that begins with the glyph, or has sets of rules, that
/// applies. Returns whether what was left sufficed.
fn seek_begun(
    lookup: &Lookup<'_>,
    items: &ItemList<'_>,
    origin: Origin,
    subtable: LookupSubtable,
    sought: &mut Sought,
) -> bool
    requires near { subtable.start < 2 ^ 35 }
    requires inside { origin.at < length items.now }
    requires none { sought.old.found ≡ None }
    ensures paid { result ≡ true
        → sought_rules.begun_sought lookup.now items.now origin sought.old.left subtable
        ≡ Some sought.new }
    ensures unpaid { result ≡ false
        → sought_rules.begun_sought lookup.now items.now origin sought.old.left subtable ≡ None }
    ensures last { IfSome sought.new.found (λ f. f.span.last < length items.now) }
{
    if u16_at(lookup.table, subtable.start) == 3 {
        seek_whole(lookup, items, origin, subtable, sought)
    } else {
        seek_in_sets(lookup, items, origin, subtable, sought)
    }
}

/// The first rule of a lookup of context that applies at `origin`, and what is left after looking
/// for it; none if what is left doesn't suffice. Subtables that don't begin with the glyph there
/// cost nothing. Inlined, as what it returns would be copied.
#[tactic(auto, using(crate::proofs::LoopLemmas::steps_next, crate::proofs::LoopLemmas::steps_none, crate::proofs::LoopLemmas::steps_end, crate::proofs::SoughtLemmas::found_there))]
#[inline(always)]
pub fn seek_rule(
    indexed: &Indexed<'_>,
    items: &ItemList<'_>,
    origin: Origin,
    left: usize,
) -> Option<Sought>
    requires near { indexed.now.lookup.now.place < 2 ^ 17 }
    requires inside { origin.at < length items.now }
    ensures value { result ≡ sought_rules.sought indexed.now.lookup.now items.now origin left }
    ensures found { IfSome result (λ s. s.found ≡ found_of indexed.now.lookup.now items.now origin) }
    ensures last { IfSome result (λ s. IfSome s.found (λ f. f.span.last < length items.now)) }
{
    let glyph = items.at(origin.at).glyph_id;
    let count = subtable_count(indexed.lookup.table, indexed.lookup.place);
    let mut sought = unfound(left);
    let mut known = None;
    let mut i = indexed.next_begun(0, count, glyph);
    while i < count {
        let begun = begun_at(indexed, items, origin, i, &mut sought.left, &mut known);
        let Some(subtable) = begun else {
            i = indexed.next_begun(i + 1, count, glyph);
            continue;
        };
        if !seek_begun(indexed.lookup, items, origin, subtable, &mut sought) {
            return None;
        }
        if sought.found.is_some() {
            return Some(sought);
        }
        i = indexed.next_begun(i + 1, count, glyph);
    }
    Some(sought)
}
