//! Lookups of context, which apply others where a rule matches (OpenType, `GPOS`, lookup types 7
//! and 8).
//!
//! Positioning leaves the items where they are, so that the place of a matched glyph is looked for
//! again where a record names it, and no list of places is kept.
ghost use Rattle.std.specs.Prelude.{◌≡◌, ◌<◌, ◌+◌, ◌-◌, ◌*◌, ◌^◌, length, true, None};
ghost use Rattle.std.specs.Option.{IfSome};
ghost use Rattle.layout_matching.specs.Found as found_rules;
ghost use Rattle.layout_positions.specs.Nested;
ghost use Rattle.layout_matching.specs.Loops.{times};

use crate::edits::{asks_for_concat, break_between, concat_between};
use crate::places::after;
use crate::sites::{Site, charge_place, named_lookup, named_place};
use crate::subtables::{Carried, Outcome, apply_lookup};
use layout_buffer::ItemList;
use layout_matching::found::{Found, find, is_context};
use layout_matching::indexed::Indexed;
use layout_matching::lookup::Lookup;
use layout_matching::reaching::reach_at;
use layout_matching::sought::seek_rule;
use layout_matching::spans::Origin;
use layout_matching::work::{named_paid, nested_charged};
use shape_buffer::hb_buffer_t;

/// Nothing is done, and nothing is left.
pub(crate) fn unpaid(carried: Carried) -> Outcome
    ensures { result ≡ record { next = None; carried = record { seen = carried.seen; left = 0 } } }
{
    Outcome {
        next: None,
        carried: Carried {
            seen: carried.seen,
            left: 0,
        },
    }
}

/// Applies a lookup that a rule names, if what is left suffices for what it may try. Else nothing
/// is left.
#[cycle(nesting)]
#[tactic(auto, using(crate::proofs::NestedLemmas::named_context, crate::proofs::NestedLemmas::named_unpaid, crate::proofs::NestedLemmas::named_plain, crate::proofs::NestedLemmas::named_stopped))]
fn apply_named(
    level: u32,
    lookup: &Lookup<'_>,
    buffer: &mut hb_buffer_t,
    at: usize,
    carried: Carried,
) -> Outcome
    requires near { lookup.now.place < 2 ^ 17 }
    requires inside { at < length buffer.old.items }
    ensures made { record {
      buffer = buffer.new;
      next = result.next;
      seen = result.carried.seen;
      left = result.carried.left;
    } ≡ Nested.named_placed level lookup.now at carried.left carried.seen buffer.old }
    ensures len { length buffer.new.items ≡ length buffer.old.items }
{
    let indexed = Indexed::unstored(&*lookup);
    let seen = carried.seen;
    if is_context(lookup) {
        return match named_paid(lookup, carried.left) {
            Some(left) => apply_sought(level, &indexed, buffer, at, Carried { seen, left }),
            None => unpaid(carried),
        };
    }
    let items = ItemList::of_slice(buffer.infos());
    match nested_charged(lookup, &items, at, carried.left) {
        Some(left) => apply_nested(level, &indexed, buffer, at, Carried { seen, left }),
        None => unpaid(carried),
    }
}

/// Applies what record `r` of a rule names, at the glyph that it names.
#[cycle(nesting)]
#[tactic(auto, using(crate::proofs::NestedLemmas::record_named))]
fn apply_record(
    level: u32,
    site: &Site<'_>,
    buffer: &mut hb_buffer_t,
    carried: Carried,
    r: u32,
) -> Carried
    requires inside { site.now.at < length buffer.old.items }
    ensures made { record { buffer = buffer.new; seen = result.seen; left = result.left; r = r + 1 }
        ≡ Nested.record_step (Nested.nested_placed level) site.now.lookup site.now.at site.now.rule
        (record { buffer = buffer.old; seen = carried.seen; left = carried.left; r = r }) }
    ensures len { length buffer.new.items ≡ length buffer.old.items }
{
    if carried.left == 0 {
        return carried;
    }
    let Some(other) = named_lookup(site, r) else {
        return carried;
    };
    match named_place(site, buffer.infos(), r) {
        Some(place) => {
            let fewer = Carried {
                seen: carried.seen,
                left: charge_place(site, r, carried.left),
            };
            apply_named(level, &other, buffer, place, fewer).carried
        }
        None => carried,
    }
}

/// Applies what the records of a rule name, one after the other.
#[cycle(nesting)]
#[tactic(auto, using(layout_matching::proofs::LoopLemmas::times_step))]
fn apply_records(level: u32, site: &Site<'_>, buffer: &mut hb_buffer_t, carried: Carried) -> Carried
    requires inside { site.now.at < length buffer.old.items }
    ensures made { record {
      buffer = buffer.new;
      seen = result.seen;
      left = result.left;
      r = site.now.rule.count;
    } ≡ times (Nested.record_step
        (Nested.nested_placed level) site.now.lookup site.now.at site.now.rule)
        site.now.rule.count
        (record { buffer = buffer.old; seen = carried.seen; left = carried.left; r = 0 }) }
    ensures len { length buffer.new.items ≡ length buffer.old.items }
{
    let mut carried = carried;
    for r in 0..site.rule.count {
        carried = apply_record(level, site, buffer, carried, u32::from(r));
    }
    carried
}

/// Applies a rule that matches at place `at`.
#[cycle(nesting)]
fn apply_rule(
    level: u32,
    here: &Lookup<'_>,
    buffer: &mut hb_buffer_t,
    at: usize,
    carried: Carried,
    found: Found,
) -> Outcome
    requires inside { at < length buffer.old.items }
    requires last { found.span.last < length buffer.old.items }
    ensures made { record {
      buffer = buffer.new;
      next = result.next;
      seen = result.carried.seen;
      left = result.carried.left;
    } ≡ Nested.rule_placed (Nested.nested_placed level) here.now at carried.left carried.seen
        buffer.old found }
    ensures len { length buffer.new.items ≡ length buffer.old.items }
{
    let next = after(buffer.len(), found.span.last);
    let site = Site {
        lookup: *here,
        rule: found.rule,
        at,
    };
    break_between(buffer, found.span.start, found.span.end);
    Outcome {
        carried: apply_records(level, &site, buffer, carried),
        next: Some(next),
    }
}

/// Applies a lookup at place `at`, with so many levels of others that it may name, each named by
/// the one above.
#[cycle(nesting)]
#[tactic(auto, using(crate::proofs::NestedLemmas::nested_none, crate::proofs::NestedLemmas::nested_outside, crate::proofs::NestedLemmas::nested_level))]
pub fn apply_nested(
    level: u32,
    indexed: &Indexed<'_>,
    buffer: &mut hb_buffer_t,
    at: usize,
    carried: Carried,
) -> Outcome
    requires place { indexed.now.lookup.now.place < 2 ^ 17 }
    ensures made { record {
      buffer = buffer.new;
      next = result.next;
      seen = result.carried.seen;
      left = result.carried.left;
    } ≡ Nested.nested_placed level indexed.now.lookup.now at carried.left carried.seen buffer.old }
    ensures len { length buffer.new.items ≡ length buffer.old.items }
{
    if level == 0 || buffer.len() <= at {
        return Outcome {
            next: None,
            carried,
        };
    }
    apply_level(level - 1, indexed, buffer, at, carried)
}

/// A place at which rules are tried.
fn origin_at(at: usize) -> Origin
    ensures { result ≡ Nested.origin_at at }
{
    Origin {
        at,
        is_steady: true,
    }
}

/// Marks what the rules that are tried at place `at` look at in vain unsafe to concat, up to the
/// first that matches, if the buffer asks for that.
#[tactic(auto, using(crate::proofs::NestedLemmas::tried_unasked))]
fn mark_tried(here: &Lookup<'_>, buffer: &mut hb_buffer_t, at: usize)
    requires place { here.now.place < 2 ^ 17 }
    requires inside { at < length buffer.old.items }
    ensures made { buffer.new ≡ Nested.tried_concat_marked here.now at buffer.old }
    ensures len { length buffer.new.items ≡ length buffer.old.items }
{
    if !asks_for_concat(buffer) {
        return;
    }
    let reach = reach_at(here, &ItemList::of_slice(buffer.infos()), origin_at(at));
    if reach.from < reach.to {
        concat_between(buffer, reach.from, reach.to);
    }
}

/// Applies the first rule that matches at place `at`.
#[cycle(nesting)]
fn apply_first(
    level: u32,
    indexed: &Indexed<'_>,
    buffer: &mut hb_buffer_t,
    at: usize,
    carried: Carried,
) -> Outcome
    requires place { indexed.now.lookup.now.place < 2 ^ 17 }
    requires inside { at < length buffer.old.items }
    ensures made { record {
      buffer = buffer.new;
      next = result.next;
      seen = result.carried.seen;
      left = result.carried.left;
    } ≡ Nested.first_rule_placed
        (Nested.nested_placed level) indexed.now.lookup.now at carried.left carried.seen buffer.old }
    ensures len { length buffer.new.items ≡ length buffer.old.items }
{
    match find(indexed, &ItemList::of_slice(buffer.infos()), origin_at(at)) {
        Some(found) => apply_rule(level, indexed.lookup, buffer, at, carried, found),
        None => Outcome {
            next: None,
            carried,
        },
    }
}

/// Applies the rule that is found at place `at`, if there is one. Where the buffer asks what is
/// unsafe to concat, what was looked at before is marked first.
#[cycle(nesting)]
#[tactic(auto, using(crate::proofs::NestedLemmas::found_some, crate::proofs::NestedLemmas::found_none))]
fn apply_found(
    level: u32,
    indexed: &Indexed<'_>,
    buffer: &mut hb_buffer_t,
    at: usize,
    carried: Carried,
    found: Option<Found>,
) -> Outcome
    requires near { indexed.now.lookup.now.place < 2 ^ 17 }
    requires inside { at < length buffer.old.items }
    requires context { found_rules.is_context indexed.now.lookup.now ≡ true }
    requires found { found ≡ found_rules.found_of indexed.now.lookup.now buffer.old.items
        (Nested.origin_at at) }
    requires last { IfSome found (λ f. f.span.last < length buffer.old.items) }
    ensures made { record {
      buffer = buffer.new;
      next = result.next;
      seen = result.carried.seen;
      left = result.carried.left;
    } ≡ Nested.nested_placed level indexed.now.lookup.now at carried.left carried.seen buffer.old }
    ensures len { length buffer.new.items ≡ length buffer.old.items }
{
    if level == 0 || asks_for_concat(buffer) {
        return apply_nested(level, indexed, buffer, at, carried);
    }
    match found {
        Some(found) => apply_rule(level - 1, indexed.lookup, buffer, at, carried, found),
        None => Outcome {
            next: None,
            carried,
        },
    }
}

/// Applies a lookup of context at place `at`, if what is left suffices for what is looked at. Else
/// nothing is left. Its rule is sought once.
#[cycle(nesting)]
#[inline(never)]
#[tactic(auto, using(crate::proofs::NestedLemmas::sought_some, crate::proofs::NestedLemmas::sought_none))]
pub fn apply_sought(
    level: u32,
    indexed: &Indexed<'_>,
    buffer: &mut hb_buffer_t,
    at: usize,
    carried: Carried,
) -> Outcome
    requires near { indexed.now.lookup.now.place < 2 ^ 17 }
    requires inside { at < length buffer.old.items }
    requires context { found_rules.is_context indexed.now.lookup.now ≡ true }
    ensures made { record {
      buffer = buffer.new;
      next = result.next;
      seen = result.carried.seen;
      left = result.carried.left;
    } ≡ Nested.sought_placed level indexed.now.lookup.now at carried.left carried.seen buffer.old }
    ensures len { length buffer.new.items ≡ length buffer.old.items }
{
    let items = ItemList::of_slice(buffer.infos());
    let Some(sought) = seek_rule(indexed, &items, origin_at(at), carried.left) else {
        return unpaid(carried);
    };
    let rest = Carried {
        seen: carried.seen,
        left: sought.left,
    };
    apply_found(level, indexed, buffer, at, rest, sought.found)
}

/// Applies a lookup where a level is left and the place is inside.
#[cycle(nesting)]
fn apply_level(
    level: u32,
    indexed: &Indexed<'_>,
    buffer: &mut hb_buffer_t,
    at: usize,
    carried: Carried,
) -> Outcome
    requires place { indexed.now.lookup.now.place < 2 ^ 17 }
    requires inside { at < length buffer.old.items }
    ensures made { record {
      buffer = buffer.new;
      next = result.next;
      seen = result.carried.seen;
      left = result.carried.left;
    } ≡ Nested.level_placed (Nested.nested_placed level) indexed.now.lookup.now at carried.left carried.seen
        buffer.old }
    ensures len { length buffer.new.items ≡ length buffer.old.items }
{
    if !is_context(indexed.lookup) {
        let mut carried = carried;
        let next = apply_lookup(indexed, buffer, at, &mut carried);
        return Outcome { next, carried };
    }
    mark_tried(indexed.lookup, buffer, at);
    apply_first(level, indexed, buffer, at, carried)
}
