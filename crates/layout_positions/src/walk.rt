//! Positioning: no glyph is attached at first; then lookups go over the buffer, one after the
//! other.
ghost use Rattle.std.specs.Prelude.{◌≡◌, ◌<◌, ◌-◌, ◌^◌, false, fold, length, true, All};
ghost use Rattle.shape_buffer.specs.Outcome.{Made};
ghost use Rattle.layout_matching.specs.Found as found_rules;
ghost use Rattle.layout_matching.specs.Work;
ghost use Rattle.layout_positions.specs.Flagged.{IsFlagged};
ghost use Rattle.layout_positions.specs.Known as known_marks;
ghost use Rattle.layout_positions.specs.Nested;
ghost use Rattle.layout_positions.specs.Walk;
ghost use Rattle.layout_positions.specs.Digested.{IsDigested, HoldsGlyphs, lookups_in};

use crate::bases::BaseSeen;
use crate::flagged::{Flagged, none_flagged};
use crate::known::{Known, LONG, ROOM, apply_known, attaches_marks};
use crate::nested::{apply_sought, unpaid};
use crate::pair_walk::{go_over_pairs, keeps_pairs};
use crate::places::after;
use crate::steps::{Spot, charge, steps_over};
use crate::subtables::{Carried, Outcome, apply_lookup};
use crate::tolls::{has_rules, walk_toll};
use layout_digests::{Digest, Digested};
use layout_matching::indexed::Indexed;
use layout_matching::lookup::Lookup;
use layout_matching::skipping::is_on;
use shape_buffer::position_walks::update_positions;
use shape_buffer::{GlyphPosition, hb_buffer_t, hb_glyph_info_t};

/// How many levels of lookups there are: one of the plan, and 64 below it.
const LEVELS: u32 = 65;

/// The position of a glyph that isn't attached to another one.
fn unattached(position: GlyphPosition) -> GlyphPosition
    ensures { result ≡ Walk.unattached position }
{
    let mut position = position;
    position.attach_chain = 0;
    position.attach_type = 0;
    position
}

/// Begins positioning: no glyph is attached to another one. Advances and offsets stay. Takes no
/// memory, and refuses nothing.
pub fn position_start(buffer: &mut hb_buffer_t)
    ensures { Made Walk.started buffer.old buffer.new }
{
    update_positions(buffer, |_info, position| unattached(position));
}

/// Applies a lookup that isn't one of context at a place.
#[tactic(auto, using(crate::proofs::NestedLemmas::placed_plainly))]
fn apply_plain(
    indexed: &Indexed<'_>,
    buffer: &mut hb_buffer_t,
    spot: Spot,
    known: &mut [Known],
    flagged: &mut Flagged,
) -> Outcome
    requires near { indexed.now.lookup.now.place < 2 ^ 17 }
    requires plain { found_rules.is_context indexed.now.lookup.now ≡ false }
    requires inside { spot.at < length buffer.old.items }
    requires known { All (known_marks.IsKnown indexed.now.lookup.now) known.old }
    requires flagged { IsFlagged flagged.old buffer.old.items }
    ensures made { record {
      buffer = buffer.new;
      next = result.next;
      seen = result.carried.seen;
      left = result.carried.left;
    } ≡ Nested.nested_placed Nested.LEVELS indexed.now.lookup.now spot.at spot.carried.left
        spot.carried.seen buffer.old }
    ensures known { All (known_marks.IsKnown indexed.now.lookup.now) known.new }
    ensures flagged { IsFlagged flagged.new buffer.new.items }
{
    let Spot { at, carried } = spot;
    if known.is_empty() {
        *flagged = none_flagged();
        let mut carried = carried;
        let next = apply_lookup(indexed, buffer, at, &mut carried);
        return Outcome { next, carried };
    }
    apply_known(indexed.lookup, buffer, at, carried, known, flagged)
}

/// Applies a lookup at a place of the walk, if what is left suffices for what it may try there.
/// Else nothing is left.
#[tactic(auto, using(crate::proofs::NestedLemmas::walk_context, crate::proofs::NestedLemmas::walk_plain, crate::proofs::NestedLemmas::walk_stopped))]
fn apply_at(
    indexed: &Indexed<'_>,
    has_rules: bool,
    buffer: &mut hb_buffer_t,
    spot: Spot,
    known: &mut [Known],
    flagged: &mut Flagged,
) -> Outcome
    requires near { indexed.now.lookup.now.place < 2 ^ 17 }
    requires kind { has_rules ≡ found_rules.is_context indexed.now.lookup.now }
    requires inside { spot.at < length buffer.old.items }
    requires known { All (known_marks.IsKnown indexed.now.lookup.now) known.old }
    requires flagged { IsFlagged flagged.old buffer.old.items }
    ensures made { record {
      buffer = buffer.new;
      next = result.next;
      seen = result.carried.seen;
      left = result.carried.left;
    } ≡ Nested.walk_placed Nested.LEVELS indexed.now.lookup.now spot.at spot.carried.left
        spot.carried.seen buffer.old }
    ensures known { All (known_marks.IsKnown indexed.now.lookup.now) known.new }
    ensures flagged { IsFlagged flagged.new buffer.new.items }
{
    let Spot { at, carried } = spot;
    if has_rules {
        *flagged = none_flagged();
        return apply_sought(LEVELS, indexed, buffer, at, carried);
    }
    let seen = carried.seen;
    match charge(indexed, buffer, at, carried.left) {
        Some(left) => {
            let here = Spot {
                at,
                carried: Carried { seen, left },
            };
            apply_plain(indexed, buffer, here, known, flagged)
        }
        None => unpaid(carried),
    }
}

/// Applies a lookup at a place of the walk, or goes on to the next glyph.
#[tactic(auto, using(crate::proofs::NestedLemmas::walk_tried))]
fn step_on(
    indexed: &Indexed<'_>,
    has_rules: bool,
    buffer: &mut hb_buffer_t,
    spot: Spot,
    known: &mut [Known],
    flagged: &mut Flagged,
) -> Spot
    requires near { indexed.now.lookup.now.place < 2 ^ 17 }
    requires kind { has_rules ≡ found_rules.is_context indexed.now.lookup.now }
    requires known { All (known_marks.IsKnown indexed.now.lookup.now) known.old }
    requires flagged { IsFlagged flagged.old buffer.old.items }
    ensures made { record {
      buffer = buffer.new;
      at = result.at;
      seen = result.carried.seen;
      left = result.carried.left;
    } ≡ Walk.lookup_step indexed.now.lookup.now (record {
      buffer = buffer.old;
      at = spot.at;
      seen = spot.carried.seen;
      left = spot.carried.left;
    }) }
    ensures known { All (known_marks.IsKnown indexed.now.lookup.now) known.new }
    ensures flagged { IsFlagged flagged.new buffer.new.items }
{
    if buffer.len() <= spot.at {
        return spot;
    }
    if !is_on(indexed.lookup, &buffer.infos()[spot.at]) {
        return Spot {
            at: spot.at + 1,
            carried: spot.carried,
        };
    }
    let next = after(buffer.len(), spot.at);
    let outcome = apply_at(indexed, has_rules, buffer, spot, known, flagged);
    Spot {
        at: outcome.next.unwrap_or(next),
        carried: outcome.carried,
    }
}

/// Goes over a buffer with a lookup, from its first glyph on, with what is known of glyphs. Returns
/// what is left.
#[inline(never)]
fn go_along(
    named: &Digested<'_>,
    buffer: &mut hb_buffer_t,
    left: usize,
    known: &mut [Known],
) -> usize
    requires said { IsDigested named.now }
    requires known { All (known_marks.IsKnown named.now.lookup) known.old }
    ensures { record { buffer = buffer.new; left = result }
        ≡ Walk.gone_over (record { buffer = buffer.old; left = left }) named.now.lookup }
{
    let seen = BaseSeen {
        until: 0,
        place: None,
    };
    let has_rules = has_rules(&named.lookup);
    let indexed = Indexed::new(&named.lookup, named.firsts);
    let mut spot = Spot {
        at: 0,
        carried: Carried { seen, left },
    };
    let mut flagged = none_flagged();
    let count = buffer.len();
    let mut done = 0;
    while done < count {
        let steps = steps_over(named, buffer, spot.at, count - done);
        spot.at += steps;
        done += steps;
        if done < count {
            spot = step_on(&indexed, has_rules, buffer, spot, known, &mut flagged);
            done += 1;
        }
    }
    spot.carried.left
}

/// Goes over a long list with a lookup that attaches marks, and keeps in mind which subtables don't
/// list a glyph. A call of its own, so that what is kept stands in no other frame.
#[inline(never)]
fn go_over_marks(named: &Digested<'_>, buffer: &mut hb_buffer_t, left: usize) -> usize
    requires { IsDigested named.now }
    ensures { record { buffer = buffer.new; left = result }
        ≡ Walk.gone_over (record { buffer = buffer.old; left = left }) named.now.lookup }
{
    let mut known = [Known { glyph: 0, out: 0 }; ROOM];
    go_along(named, buffer, left, &mut known)
}

/// Goes over a buffer with a lookup, from its first glyph on. Returns what is left.
fn go_over(named: &Digested<'_>, buffer: &mut hb_buffer_t, left: usize) -> usize
    requires { IsDigested named.now }
    ensures { record { buffer = buffer.new; left = result }
        ≡ Walk.gone_over (record { buffer = buffer.old; left = left }) named.now.lookup }
{
    if LONG <= buffer.len() && attaches_marks(&named.lookup) {
        return go_over_marks(named, buffer, left);
    }
    if keeps_pairs(&named.lookup, buffer.len()) && !has_rules(&named.lookup) {
        return go_over_pairs(named, buffer, left);
    }
    go_along(named, buffer, left, &mut [])
}

/// What is left after a walk over so many items was charged for.
fn charge_walk(lookup: &Lookup<'_>, count: usize, left: usize) -> usize
    requires { lookup.now.place < 2 ^ 17 }
    ensures { result ≡ left - Work.walk_work lookup.now count }
{
    left.saturating_sub(walk_toll(lookup, count))
}

/// Goes over a buffer with a lookup, if what is left suffices for a walk. Else nothing is left.
/// Returns what is left.
pub fn apply_over(named: &Digested<'_>, buffer: &mut hb_buffer_t, left: usize) -> usize
    requires { IsDigested named.now }
    ensures { record { buffer = buffer.new; left = result }
        ≡ Walk.lookup_applied (record { buffer = buffer.old; left = left }) named.now.lookup }
{
    let work = walk_toll(&named.lookup, buffer.len());
    if left < work {
        return 0;
    }
    go_over(named, buffer, left - work)
}

/// Whether nothing is left for lookups: each costs something, unless the list is empty. That is
/// told at once, however many subtables a lookup has.
fn is_spent(count: usize, left: usize) -> bool
    ensures none { result ≡ true → left ≡ 0 }
    ensures some { result ≡ true → 0 < count }
{
    left == 0 && 0 < count
}

/// A digest that holds the glyphs of a list.
#[tactic(auto, using(crate::proofs::DigestLemmas::one_held))]
pub fn run_digest(items: &[hb_glyph_info_t]) -> Digest
    ensures { HoldsGlyphs result items.now }
{
    let mut all = Digest::new();
    for i in 0..items.len() {
        all = all.with_glyph(items[i].glyph_id);
    }
    all
}

/// Goes over a buffer with a lookup, and returns what is left. A lookup whose digest shares no glyph
/// with that of the buffer is charged for its walk, and passed over. The digest of the buffer serves
/// the next lookup, too: none changes which glyphs there are.
#[tactic(auto, using(crate::proofs::DigestLemmas::spent, crate::proofs::DigestLemmas::passed_over, crate::proofs::GlyphLemmas::held_applied))]
#[inline(never)]
pub fn apply_within(
    named: &Digested<'_>,
    run: &Digest,
    buffer: &mut hb_buffer_t,
    left: usize,
) -> usize
    requires said { IsDigested named.now }
    requires run { HoldsGlyphs run.now buffer.old.items }
    ensures made { record { buffer = buffer.new; left = result }
        ≡ Walk.lookup_applied (record { buffer = buffer.old; left = left }) named.now.lookup }
    ensures run { HoldsGlyphs run.now buffer.new.items }
{
    let count = buffer.len();
    if is_spent(count, left) {
        return left;
    }
    if !run.may_share(&named.digest) {
        return charge_walk(&named.lookup, count, left);
    }
    apply_over(named, buffer, left)
}

/// Goes over a buffer with each lookup, and returns what is left; all of them share one bound.
#[tactic(auto, using(crate::proofs::DigestLemmas::applied_on))]
fn apply_each(lookups: &[Digested<'_>], buffer: &mut hb_buffer_t) -> usize
    requires { All IsDigested lookups.now }
    ensures { record { buffer = buffer.new; left = result }
        ≡ fold Walk.lookup_applied (Walk.budgeted buffer.old) (lookups_in lookups.now) }
{
    let mut left = buffer.max_ops();
    let run = run_digest(buffer.infos());
    for named in lookups {
        left = apply_within(named, &run, buffer, left);
    }
    left
}

/// Positions the glyphs of a buffer by lookups, one after the other. The number of items and the
/// limit stay. Takes no memory, and refuses nothing.
pub fn position(lookups: &[Digested<'_>], buffer: &mut hb_buffer_t)
    requires { All IsDigested lookups.now }
    ensures { Made (Walk.positioned (lookups_in lookups.now)) buffer.old buffer.new }
{
    let left = apply_each(lookups, buffer);
    buffer.set_max_ops(left);
}
