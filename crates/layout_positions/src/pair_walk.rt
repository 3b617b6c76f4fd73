//! Walks of lookups of pairs.
ghost use Rattle.std.specs.Prelude.{◌≡◌, ◌<◌, ◌^◌, ℕ, None, false, length, All};
ghost use Rattle.std.specs.Option.{IfSome};
ghost use Rattle.layout_matching.specs.Found as found_rules;
ghost use Rattle.layout_positions.specs.Digested.{IsDigested};
ghost use Rattle.layout_positions.specs.Nested;
ghost use Rattle.layout_positions.specs.Paired as pair_rules;
ghost use Rattle.layout_positions.specs.Subtables;
ghost use Rattle.layout_positions.specs.Walk;
ghost use Rattle.layout_positions.specs.declared.bases.BaseSeen.{BaseSeen};

use crate::adjustment::{put_advance, put_pair};
use crate::bases::BaseSeen;
use crate::edits::asks_for_concat;
use crate::neighbours::{glyph_at, stop_after};
use crate::nested::unpaid;
use crate::paired::{KnownPair, PairFound, PlainPair, first_pair, keep, recalled};
use crate::places::after;
use crate::steps::{Spot, charge, steps_over};
use crate::subtables::{Carried, Outcome, apply_lookup};
use layout_digests::Digested;
use layout_matching::found::first_subtable;
use layout_matching::indexed::Indexed;
use layout_matching::lookup::Lookup;
use layout_matching::skipping::is_on;
use layout_tables::lookups::lookup_type;
use shape_buffer::hb_buffer_t;

/// How long a list is that a walk keeps pairs in mind for, and one that it keeps many in mind for.
const LONG: usize = 32;

const VERY_LONG: usize = 512;

/// How many pairs a walk keeps in mind, as places of a power of 2.
const FEW: usize = 64;

const MANY: usize = 512;

/// A pair that wasn't sought.
fn unsought() -> KnownPair
    ensures { result.is_sought ≡ false }
{
    KnownPair {
        left: 0,
        right: 0,
        advance: 0,
        is_sought: false,
        is_found: false,
        listed: false,
    }
}

/// Whether the lookup is one of pairs. Nothing but time depends on it.
fn adjusts_pairs(lookup: &Lookup<'_>) -> bool
    requires { lookup.now.place < 2 ^ 17 }
{
    match lookup_type(lookup.table, lookup.place) {
        2 => true,
        9 => match first_subtable(lookup) {
            Some(subtable) => subtable.kind == 2,
            None => false,
        },
        _ => false,
    }
}

/// Whether a walk over so many items keeps pairs in mind: those of a short list hardly come again.
pub(crate) fn keeps_pairs(lookup: &Lookup<'_>, count: usize) -> bool
    requires { lookup.now.place < 2 ^ 17 }
{
    LONG <= count && adjusts_pairs(lookup)
}

/// Adjusts two glyphs by a pair that changes the advance of the first one alone, or not at all.
/// Returns where the lookup goes on.
#[inline(always)]
fn put_plain(buffer: &mut hb_buffer_t, i: usize, j: usize, plain: &PlainPair) -> Option<usize>
    requires { j < length buffer.old.items }
    ensures made { buffer.new
        ≡ (pair_rules.found_put i j buffer.old (pair_rules.plain_found plain.now)).buffer }
    ensures next { result
        ≡ (pair_rules.found_put i j buffer.old (pair_rules.plain_found plain.now)).next }
{
    if plain.is_found {
        put_advance(buffer, plain.listed, i, j, plain.advance)
    } else {
        None
    }
}

/// Two glyphs beside each other, by their numbers, and where the second one stands.
#[derive(Clone, Copy)]
struct Beside {
    left: u32,
    right: u32,
    second: usize,
}

/// The glyph at place `i` and the next one that a lookup sees; none if there is none, or what was
/// looked at is to be marked.
#[inline(always)]
fn beside_at(lookup: &Lookup<'_>, buffer: &hb_buffer_t, i: usize) -> Option<Beside>
    requires { i < length buffer.now.items }
    ensures inside { IfSome result (λ two. two.second < length buffer.now.items) }
    ensures beside { IfSome result
        (λ two. pair_rules.AreBeside lookup.now two.left two.right buffer.now i two.second) }
{
    if asks_for_concat(buffer) {
        return None;
    }
    let items = buffer.infos();
    let stop = stop_after(lookup, items, i);
    let second = glyph_at(lookup, items, stop)?;
    Some(Beside {
        left: items[i].glyph_id,
        right: items[second].glyph_id,
        second,
    })
}

/// Adjusts two glyphs beside each other as a lookup of pairs does. Unless it is known what that has
/// for them it is sought, and kept in mind. Returns where the lookup goes on; none, with nothing
/// adjusted, if a subtable isn't one of pairs.
#[inline(always)]
fn put_two(
    indexed: &Indexed<'_>,
    buffer: &mut hb_buffer_t,
    i: usize,
    two: Beside,
    known: &mut [KnownPair],
) -> Option<Option<usize>>
    requires place { indexed.now.lookup.now.place < 2 ^ 17 }
    requires inside { two.second < length buffer.old.items }
    requires beside { pair_rules.AreBeside indexed.now.lookup.now two.left two.right buffer.old i
        two.second }
    requires known { All (pair_rules.IsKnownPair indexed.now.lookup.now) known.old }
    ensures made { IfSome result (λ next. (seen : BaseSeen) (left : ℕ)
        → record { buffer = buffer.new; next = next; seen = seen; left = left }
        ≡ Subtables.lookup_placed indexed.now.lookup.now i left seen buffer.old) }
    ensures none { result ≡ None → buffer.new ≡ buffer.old }
    ensures known { All (pair_rules.IsKnownPair indexed.now.lookup.now) known.new }
{
    let Beside {
        left,
        right,
        second,
    } = two;
    if let Some(plain) = recalled(indexed.lookup, left, right, known) {
        return Some(put_plain(buffer, i, second, &plain));
    }
    match first_pair(indexed, left, right)? {
        PairFound::Plain(plain) => {
            keep(indexed.lookup, left, right, &plain, known);
            Some(put_plain(buffer, i, second, &plain))
        }
        PairFound::Other(pair) => { Some(put_pair(buffer, pair.listed, i, second, &pair.values)) }
    }
}

/// Adjusts the glyph at place `i` and the next one that a lookup of pairs sees, as that does.
/// Returns where the lookup goes on; none, with nothing adjusted, if there is no such glyph, or
/// what was looked at is to be marked, or a subtable isn't one of pairs.
#[inline(always)]
fn put_next(
    indexed: &Indexed<'_>,
    buffer: &mut hb_buffer_t,
    i: usize,
    known: &mut [KnownPair],
) -> Option<Option<usize>>
    requires place { indexed.now.lookup.now.place < 2 ^ 17 }
    requires inside { i < length buffer.old.items }
    requires known { All (pair_rules.IsKnownPair indexed.now.lookup.now) known.old }
    ensures made { IfSome result (λ next. (seen : BaseSeen) (left : ℕ)
        → record { buffer = buffer.new; next = next; seen = seen; left = left }
        ≡ Subtables.lookup_placed indexed.now.lookup.now i left seen buffer.old) }
    ensures none { result ≡ None → buffer.new ≡ buffer.old }
    ensures known { All (pair_rules.IsKnownPair indexed.now.lookup.now) known.new }
{
    let two = beside_at(indexed.lookup, buffer, i)?;
    put_two(indexed, buffer, i, two, known)
}

/// Applies a lookup of pairs to the glyph at a place.
#[inline(always)]
fn place_pair(
    indexed: &Indexed<'_>,
    buffer: &mut hb_buffer_t,
    at: usize,
    carried: Carried,
    known: &mut [KnownPair],
) -> Outcome
    requires near { indexed.now.lookup.now.place < 2 ^ 17 }
    requires inside { at < length buffer.old.items }
    requires known { All (pair_rules.IsKnownPair indexed.now.lookup.now) known.old }
    ensures made { record {
      buffer = buffer.new;
      next = result.next;
      seen = result.carried.seen;
      left = result.carried.left;
    } ≡ Subtables.lookup_placed indexed.now.lookup.now at carried.left carried.seen buffer.old }
    ensures known { All (pair_rules.IsKnownPair indexed.now.lookup.now) known.new }
{
    match put_next(indexed, buffer, at, known) {
        Some(next) => Outcome { next, carried },
        None => {
            let mut carried = carried;
            let next = apply_lookup(indexed, buffer, at, &mut carried);
            Outcome { next, carried }
        }
    }
}

/// Applies a lookup of pairs at a place of the walk, if what is left suffices for what it may try
/// there. Else nothing is left.
#[tactic(auto, using(crate::proofs::NestedLemmas::walk_plain, crate::proofs::NestedLemmas::walk_stopped, crate::proofs::NestedLemmas::placed_plainly))]
#[inline(always)]
fn apply_at(
    indexed: &Indexed<'_>,
    buffer: &mut hb_buffer_t,
    spot: Spot,
    known: &mut [KnownPair],
) -> Outcome
    requires near { indexed.now.lookup.now.place < 2 ^ 17 }
    requires plain { found_rules.is_context indexed.now.lookup.now ≡ false }
    requires inside { spot.at < length buffer.old.items }
    requires known { All (pair_rules.IsKnownPair indexed.now.lookup.now) known.old }
    ensures made { record {
      buffer = buffer.new;
      next = result.next;
      seen = result.carried.seen;
      left = result.carried.left;
    } ≡ Nested.walk_placed Nested.LEVELS indexed.now.lookup.now spot.at spot.carried.left
        spot.carried.seen buffer.old }
    ensures known { All (pair_rules.IsKnownPair indexed.now.lookup.now) known.new }
{
    let Spot { at, carried } = spot;
    let seen = carried.seen;
    match charge(indexed, buffer, at, carried.left) {
        Some(left) => place_pair(indexed, buffer, at, Carried { seen, left }, known),
        None => unpaid(carried),
    }
}

/// Applies a lookup of pairs at a place of the walk, or goes on to the next glyph.
#[tactic(auto, using(crate::proofs::NestedLemmas::walk_tried))]
#[inline(always)]
fn step_on(
    indexed: &Indexed<'_>,
    buffer: &mut hb_buffer_t,
    spot: Spot,
    known: &mut [KnownPair],
) -> Spot
    requires near { indexed.now.lookup.now.place < 2 ^ 17 }
    requires plain { found_rules.is_context indexed.now.lookup.now ≡ false }
    requires known { All (pair_rules.IsKnownPair indexed.now.lookup.now) known.old }
    ensures made { record {
      buffer = buffer.new;
      at = result.at;
      seen = result.carried.seen;
      left = result.carried.left;
    } ≡ Walk.lookup_step indexed.now.lookup.now (record {
      buffer = buffer.old;
      at = spot.at;
      seen = spot.carried.seen;
      left = spot.carried.left;
    }) }
    ensures known { All (pair_rules.IsKnownPair indexed.now.lookup.now) known.new }
{
    if buffer.len() <= spot.at {
        return spot;
    }
    if !is_on(indexed.lookup, &buffer.infos()[spot.at]) {
        return Spot {
            at: spot.at + 1,
            carried: spot.carried,
        };
    }
    let next = after(buffer.len(), spot.at);
    let outcome = apply_at(indexed, buffer, spot, known);
    Spot {
        at: outcome.next.unwrap_or(next),
        carried: outcome.carried,
    }
}

/// Goes over a buffer with a lookup of pairs, from its first glyph on, with what is known of
/// pairs. Returns what is left.
#[inline(never)]
fn go_along(
    named: &Digested<'_>,
    buffer: &mut hb_buffer_t,
    left: usize,
    known: &mut [KnownPair],
) -> usize
    requires said { IsDigested named.now }
    requires plain { found_rules.is_context named.now.lookup ≡ false }
    requires known { All (pair_rules.IsKnownPair named.now.lookup) known.old }
    ensures { record { buffer = buffer.new; left = result }
        ≡ Walk.gone_over (record { buffer = buffer.old; left = left }) named.now.lookup }
{
    let seen = BaseSeen {
        until: 0,
        place: None,
    };
    let indexed = Indexed::new(&named.lookup, named.firsts);
    let mut spot = Spot {
        at: 0,
        carried: Carried { seen, left },
    };
    let count = buffer.len();
    let mut done = 0;
    while done < count {
        let steps = steps_over(named, buffer, spot.at, count - done);
        spot.at += steps;
        done += steps;
        if done < count {
            spot = step_on(&indexed, buffer, spot, known);
            done += 1;
        }
    }
    spot.carried.left
}

/// Goes over a long list. A call of its own, so that what is kept stands in no other frame.
#[inline(never)]
fn go_over_long(named: &Digested<'_>, buffer: &mut hb_buffer_t, left: usize) -> usize
    requires said { IsDigested named.now }
    requires plain { found_rules.is_context named.now.lookup ≡ false }
    ensures { record { buffer = buffer.new; left = result }
        ≡ Walk.gone_over (record { buffer = buffer.old; left = left }) named.now.lookup }
{
    let none = unsought();
    let mut known = [none; FEW];
    go_along(named, buffer, left, &mut known)
}

/// Goes over a very long list.
#[inline(never)]
fn go_over_very_long(named: &Digested<'_>, buffer: &mut hb_buffer_t, left: usize) -> usize
    requires said { IsDigested named.now }
    requires plain { found_rules.is_context named.now.lookup ≡ false }
    ensures { record { buffer = buffer.new; left = result }
        ≡ Walk.gone_over (record { buffer = buffer.old; left = left }) named.now.lookup }
{
    let none = unsought();
    let mut known = [none; MANY];
    go_along(named, buffer, left, &mut known)
}

/// Goes over a long list with a lookup of pairs, from its first glyph on. Returns what is left.
pub(crate) fn go_over_pairs(named: &Digested<'_>, buffer: &mut hb_buffer_t, left: usize) -> usize
    requires said { IsDigested named.now }
    requires plain { found_rules.is_context named.now.lookup ≡ false }
    ensures { record { buffer = buffer.new; left = result }
        ≡ Walk.gone_over (record { buffer = buffer.old; left = left }) named.now.lookup }
{
    if buffer.len() < VERY_LONG {
        go_over_long(named, buffer, left)
    } else {
        go_over_very_long(named, buffer, left)
    }
}
