//! The rule of a set that applies at a place, and what is left after looking for it. Most rules of
//! a set are refused by the glyphs beside the place, and cost nothing more than their part of the
//! set.
ghost use Rattle.std.specs.Prelude.{◌≡◌, ℕ, None, Some, ◌<◌, ◌≤◌, ◌+◌, ◌^◌, length, true, false};
ghost use Rattle.shape_font.specs.Bytes.{u16_of, fitting};
ghost use Rattle.std.specs.Option.{IfSome, option_map, option_map_or};
ghost use Rattle.layout_matching.specs.Found.{is_chained as is_chained_in};
ghost use Rattle.layout_matching.specs.Glance as glances;
ghost use Rattle.layout_matching.specs.Scanning.{AreRefused};
ghost use Rattle.layout_matching.specs.Sought as sought_rules;
ghost use Rattle.layout_matching.specs.Work;
ghost use Rattle.layout_matching.specs.declared.glance.Glances.{Glances as TheGlances};

use crate::around::{GlancedSet, glanced, is_refused_there};
use crate::formats::set_for;
use crate::found::{found_at, is_chained, number_in};
use crate::glance::Glances;
use crate::lookup::Lookup;
use crate::remembered::{Beside, passed_charged_again};
use crate::rules::{begins_inside, rule_at};
use crate::scanning::next_unrefused;
use crate::sets::has_classes;
use crate::sought::Sought;
use crate::spans::Origin;
use crate::tally::{beside, charged, counted, counts_at, uncounted};
use crate::work::SUBTABLE_WORK;
use layout_buffer::ItemList;
use layout_tables::lookups::LookupSubtable;
use shape_font::bytes::{records, u16_at};

/// Whether the rule of the set that stands at `place` matches nothing, as a few numbers say of
/// most rules.
#[inline(always)]
fn is_idle(
    lookup: &Lookup<'_>,
    items: &ItemList<'_>,
    origin: Origin,
    set: &GlancedSet,
    place: usize,
    known: &mut Option<Glances>,
) -> bool
    requires near { set.now.subtable.start < 2 ^ 35 }
    requires place { place < 2 ^ 37 }
    requires inside { origin.at < length items.now }
    requires before { set.now.before
        ≡ (glances.glances_in lookup.now items.now origin set.now.subtable).before }
    requires known { IfSome known.old
        (λ g. g ≡ glances.glances_in lookup.now items.now origin set.now.subtable) }
    ensures value { result ≡ sought_rules.is_idle lookup.now items.now origin set.now.subtable place }
    ensures known { IfSome known.new
        (λ g. g ≡ glances.glances_in lookup.now items.now origin set.now.subtable) }
{
    !begins_inside(lookup.table, place)
        || is_refused_there(lookup, items, origin, set, place, known)
}

/// Where rule `r` of the set stands, unless it matches nothing.
#[inline(always)]
fn unrefused(
    lookup: &Lookup<'_>,
    items: &ItemList<'_>,
    origin: Origin,
    set: &GlancedSet,
    r: u32,
    known: &mut Option<Glances>,
) -> Option<usize>
    requires near { set.now.subtable.start < 2 ^ 35 }
    requires set { set.now.place < 2 ^ 36 }
    requires few { r < 2 ^ 16 }
    requires inside { origin.at < length items.now }
    requires before { set.now.before
        ≡ (glances.glances_in lookup.now items.now origin set.now.subtable).before }
    requires known { IfSome known.old
        (λ g. g ≡ glances.glances_in lookup.now items.now origin set.now.subtable) }
    ensures value { (left : ℕ) → sought_rules.rule_sought lookup.now items.now origin set.now.subtable
        set.now.place r left
        ≡ option_map_or (sought_rules.tried_sought lookup.now items.now origin set.now.subtable left)
        result (Some (sought_rules.unfound left)) }
    ensures near { IfSome result (λ place. place < 2 ^ 37) }
    ensures known { IfSome known.new
        (λ g. g ≡ glances.glances_in lookup.now items.now origin set.now.subtable) }
{
    match rule_at(lookup.table, set.place, r) {
        Some(place) if !is_idle(lookup, items, origin, set, place, known) => Some(place),
        _ => None,
    }
}

/// How many rules the set at a place of the table has.
#[inline(always)]
fn rules_in(table: &[u8], set: usize) -> u32
    requires { set < 2 ^ 36 }
    ensures value { result ≡ fitting table.now (u16_of table.now set) (set + 2) 2 }
    ensures few { result < 2 ^ 16 }
{
    records(table, u32::from(u16_at(table, set)), set + 2, 2)
}

/// What is left, and what is known of the glyphs beside the place.
#[derive(Clone, Copy)]
struct Paid {
    left: usize,
    known: Option<Beside>,
}

/// What is left after a rule that isn't refused.
#[inline(always)]
fn rule_paid(
    lookup: &Lookup<'_>,
    items: &ItemList<'_>,
    at: usize,
    set: &GlancedSet,
    place: usize,
    paid: Paid,
) -> Option<Paid>
    requires near { set.now.subtable.start < 2 ^ 35 }
    requires place { place < 2 ^ 37 }
    requires inside { at < length items.now }
    requires known { IfSome paid.known
        (Work.IsBeside lookup.now (Work.has_classes lookup.now set.now.subtable) items.now at) }
    ensures value { option_map (λ p. p.left) result
        ≡ sought_rules.rule_paid lookup.now items.now at set.now.subtable paid.left place }
    ensures known { IfSome result (λ p. IfSome p.known
        (Work.IsBeside lookup.now (Work.has_classes lookup.now set.now.subtable) items.now at)) }
{
    let counts = counts_at(lookup.table, is_chained(lookup, set.subtable), place);
    let Some(count) = counted(counts, uncounted(paid.left)) else {
        return None;
    };
    let listed = has_classes(lookup, set.subtable);
    let mut known = paid.known;
    match passed_charged_again(lookup, listed, items, at, count, &mut known) {
        Some(left) => Some(Paid { left, known }),
        None => None,
    }
}

/// The next rule of a set, from number `r` on, that may be none that the glyphs around the place
/// refuse.
#[inline(always)]
fn next_rule(
    lookup: &Lookup<'_>,
    set: &GlancedSet,
    around: &Option<Glances>,
    r: u32,
    count: u32,
) -> u32
    requires set { set.now.place < 2 ^ 36 }
    requires count { count ≡ sought_rules.rules_in lookup.now set.now.place }
    requires from { r ≤ count }
    ensures from { r ≤ result }
    ensures few { result ≤ count }
    ensures none { around.now ≡ None → result ≡ r }
    ensures refused { (g : TheGlances) → around.now ≡ Some g
        → AreRefused lookup.now.table.now set.now.place g
        (is_chained_in lookup.now set.now.subtable) r result }
{
    match around {
        Some(around) => {
            let is_chain = is_chained(lookup, set.subtable);
            next_unrefused(lookup.table, set.place, around, is_chain, r, count)
        }
        None => r,
    }
}

/// Looks for the first rule of the set that applies. Returns whether what was left sufficed.
#[tactic(auto, using(crate::proofs::LoopLemmas::steps_next, crate::proofs::LoopLemmas::steps_none, crate::proofs::LoopLemmas::steps_end))]
fn seek_in_rules(
    lookup: &Lookup<'_>,
    items: &ItemList<'_>,
    origin: Origin,
    set: &GlancedSet,
    paid: Paid,
    sought: &mut Sought,
) -> bool
    requires near { set.now.subtable.start < 2 ^ 35 }
    requires set { set.now.place < 2 ^ 36 }
    requires inside { origin.at < length items.now }
    requires before { set.now.before
        ≡ (glances.glances_in lookup.now items.now origin set.now.subtable).before }
    requires known { IfSome paid.known
        (Work.IsBeside lookup.now (Work.has_classes lookup.now set.now.subtable) items.now origin.at) }
    requires none { sought.old.found ≡ None }
    ensures paid { result ≡ true → sought_rules.rules_sought lookup.now items.now origin set.now.subtable
        set.now.place paid.left ≡ Some sought.new }
    ensures unpaid { result ≡ false → sought_rules.rules_sought lookup.now items.now origin
        set.now.subtable set.now.place paid.left ≡ None }
    ensures last { IfSome sought.new.found (λ f. f.span.last < length items.now) }
{
    let count = rules_in(lookup.table, set.place);
    let mut paid = paid;
    let mut around = None;
    let mut r = 0;
    while r < count {
        let Some(place) = unrefused(lookup, items, origin, set, r, &mut around) else {
            r = next_rule(lookup, set, &around, r + 1, count);
            continue;
        };
        match rule_paid(lookup, items, origin.at, set, place, paid) {
            Some(next) => paid = next,
            None => return false,
        }
        if let Some(found) = found_at(lookup, items, origin, set.subtable, place) {
            sought.left = paid.left;
            sought.found = Some(found);
            return true;
        }
        r = next_rule(lookup, set, &around, r + 1, count);
    }
    sought.left = paid.left;
    true
}

/// Looks for the first rule of the set at `set` that applies. Returns whether what was left
/// sufficed.
fn seek_in_set(
    lookup: &Lookup<'_>,
    items: &ItemList<'_>,
    origin: Origin,
    subtable: LookupSubtable,
    set: usize,
    sought: &mut Sought,
) -> bool
    requires near { subtable.start < 2 ^ 35 }
    requires set { set < 2 ^ 36 }
    requires inside { origin.at < length items.now }
    requires none { sought.old.found ≡ None }
    ensures paid { result ≡ true
        → sought_rules.set_sought lookup.now items.now origin subtable sought.old.left set
        ≡ Some sought.new }
    ensures unpaid { result ≡ false
        → sought_rules.set_sought lookup.now items.now origin subtable sought.old.left set ≡ None }
    ensures last { IfSome sought.new.found (λ f. f.span.last < length items.now) }
{
    let Some(rest) = charged(rules_in(lookup.table, set) as usize, sought.left) else {
        return false;
    };
    let listed = has_classes(lookup, subtable);
    let mut known = None;
    let count = beside(rest);
    match passed_charged_again(lookup, listed, items, origin.at, count, &mut known) {
        Some(left) => {
            let glanced = glanced(lookup, items, origin, subtable, set);
            seek_in_rules(
                lookup,
                items,
                origin,
                &glanced,
                Paid { left, known },
                sought,
            )
        }
        None => false,
    }
}

/// Looks for the first rule of a subtable of format 1 or 2 that applies. Returns whether what was
/// left sufficed. A call of its own: most subtables of a lookup have no rule for the glyph.
#[inline(never)]
pub(crate) fn seek_in_sets(
    lookup: &Lookup<'_>,
    items: &ItemList<'_>,
    origin: Origin,
    subtable: LookupSubtable,
    sought: &mut Sought,
) -> bool
    requires near { subtable.start < 2 ^ 35 }
    requires inside { origin.at < length items.now }
    requires none { sought.old.found ≡ None }
    ensures paid { result ≡ true
        → sought_rules.sets_sought lookup.now items.now origin subtable sought.old.left
        ≡ Some sought.new }
    ensures unpaid { result ≡ false
        → sought_rules.sets_sought lookup.now items.now origin subtable sought.old.left ≡ None }
    ensures last { IfSome sought.new.found (λ f. f.span.last < length items.now) }
{
    let glyph = items.at(origin.at).glyph_id;
    let Some(number) = number_in(lookup.table, subtable.start, glyph) else {
        return true;
    };
    let Some(left) = charged(SUBTABLE_WORK, sought.left) else {
        return false;
    };
    sought.left = left;
    let is_chain = is_chained(lookup, subtable);
    match set_for(lookup.table, is_chain, subtable.start, glyph, number) {
        Some(set) => seek_in_set(lookup, items, origin, subtable, set, sought),
        None => true,
    }
}
