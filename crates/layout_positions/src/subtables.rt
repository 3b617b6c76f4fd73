//! A lookup at a place: its first subtable that applies.
ghost use Rattle.std.specs.Prelude.{◌≡◌, ℕ, ◌<◌, ◌≤◌, ◌+◌, ◌-◌, ◌*◌, ◌^◌, ◌||◌, true, false, length, nat_eq, None};
ghost use Rattle.std.specs.Option.{IfSome};
ghost use Rattle.layout_matching.specs.Firsts.{IsOut};
ghost use Rattle.layout_matching.specs.Skipping.{nth};
ghost use Rattle.layout_positions.specs.Cursive;
ghost use Rattle.layout_positions.specs.Lookups;
ghost use Rattle.layout_positions.specs.Subtables;

use crate::adjustment::{apply_pair, apply_single};
use crate::bases::BaseSeen;
use crate::cursive::{Joined, UNJOINED, apply_cursive};
use crate::listed::try_mark;
use layout_matching::indexed::Indexed;
use layout_matching::lookup::Lookup;
use layout_tables::lookups::{LookupSubtable, subtable, subtable_count};
use shape_buffer::hb_buffer_t;
use shape_font::bytes::u16_at;

/// The base that was seen last, and what is left for the lookups to come.
#[derive(Clone, Copy)]
pub struct Carried {
    pub seen: BaseSeen,
    pub left: usize,
}

/// Where a lookup goes on, nowhere if it didn't apply, and what is carried on.
#[derive(Clone, Copy)]
pub struct Outcome {
    pub next: Option<usize>,
    pub carried: Carried,
}

/// The base that was seen last, and what is left once the search for it was charged; none if what
/// was left didn't suffice.
#[derive(Clone, Copy)]
pub struct Sought {
    pub seen: BaseSeen,
    pub left: Option<usize>,
}

/// Applies cursive attachment, which is of format 1, to the glyph at place `i`.
#[inline(never)]
fn try_cursive(
    lookup: &Lookup<'_>,
    subtable: LookupSubtable,
    buffer: &mut hb_buffer_t,
    i: usize,
) -> Joined
    requires near { subtable.start < 2 ^ 34 }
    requires inside { i < length buffer.old.items }
    ensures made { buffer.new ≡ (Subtables.if_first_format lookup.now subtable.start buffer.old
        (Cursive.cursive_applied lookup.now subtable.start i buffer.old)).buffer }
    ensures next { result.next ≡ (Subtables.if_first_format lookup.now subtable.start buffer.old
        (Cursive.cursive_applied lookup.now subtable.start i buffer.old)).next }
    ensures links { result.links ≡ Subtables.links_of lookup.now subtable i buffer.old }
{
    if u16_at(lookup.table, subtable.start) != 1 {
        return UNJOINED;
    }
    apply_cursive(lookup, subtable.start, buffer, i)
}

/// What is left after so many links of a chain were turned round.
fn charge_links(links: usize, left: usize) -> usize
    ensures { result ≡ left - links * Subtables.LINK_WORK }
{
    left.saturating_sub(links).saturating_sub(links)
}

/// Applies a subtable of type 3 to the glyph at place `i`, unless nothing is left for the links
/// that it may turn round.
#[tactic(auto, using(crate::proofs::SubtableLemmas::links_placed, crate::proofs::SubtableLemmas::links_unpaid))]
pub(crate) fn place_cursive(
    lookup: &Lookup<'_>,
    subtable: LookupSubtable,
    buffer: &mut hb_buffer_t,
    i: usize,
    carried: Carried,
) -> Outcome
    requires near { subtable.start < 2 ^ 34 }
    requires inside { i < length buffer.old.items }
    requires kind { subtable.kind ≡ 3 }
    ensures { record {
      buffer = buffer.new;
      next = result.next;
      seen = result.carried.seen;
      left = result.carried.left;
    } ≡ Subtables.subtable_placed lookup.now subtable i buffer.old
        (Subtables.sought lookup.now subtable i buffer.old carried.seen carried.left) }
{
    let seen = carried.seen;
    if carried.left == 0 {
        return Outcome {
            next: None,
            carried: Carried { seen, left: 0 },
        };
    }
    let joined = try_cursive(lookup, subtable, buffer, i);
    let left = charge_links(joined.links, carried.left);
    Outcome {
        next: joined.next,
        carried: Carried { seen, left },
    }
}

/// Applies a subtable by its type to the glyph at place `i`, but none of cursive attachment, and
/// none that attaches marks. Returns where the lookup goes on.
#[inline(always)]
fn apply_kind(
    lookup: &Lookup<'_>,
    subtable: LookupSubtable,
    buffer: &mut hb_buffer_t,
    i: usize,
    ahead: &mut Option<Option<usize>>,
) -> Option<usize>
    requires near { subtable.start < 2 ^ 34 }
    requires inside { i < length buffer.old.items }
    requires lone { nat_eq subtable.kind 3 ≡ false }
    requires baseless { nat_eq subtable.kind 4 || nat_eq subtable.kind 5 ≡ false }
    requires markless { nat_eq subtable.kind 6 ≡ false }
    requires known { IfSome ahead.old
        (λ stop. stop ≡ Lookups.stop_after lookup.now buffer.old.items i) }
    ensures placed { (seen : BaseSeen) (left : ℕ) → record {
      buffer = buffer.new;
      next = result;
      seen = seen;
      left = left;
    } ≡ Subtables.kind_placed lookup.now subtable i buffer.old seen left }
    ensures known { IfSome ahead.new
        (λ stop. stop ≡ Lookups.stop_after lookup.now buffer.old.items i) }
{
    match subtable.kind {
        1 => apply_single(lookup, subtable.start, buffer, i),
        2 => apply_pair(lookup, subtable.start, buffer, i, ahead),
        _ => None,
    }
}

/// Where a lookup goes on that has changed what is carried on.
#[inline(always)]
fn carried_on(outcome: Outcome, carried: &mut Carried) -> Option<usize>
    ensures next { result ≡ outcome.next }
    ensures carried { carried.new ≡ outcome.carried }
{
    *carried = outcome.carried;
    outcome.next
}

/// Applies a subtable to the glyph at place `i`.
#[inline(always)]
fn apply_subtable(
    lookup: &Lookup<'_>,
    subtable: LookupSubtable,
    buffer: &mut hb_buffer_t,
    i: usize,
    carried: &mut Carried,
    ahead: &mut Option<Option<usize>>,
) -> Option<usize>
    requires near { subtable.start < 2 ^ 34 }
    requires inside { i < length buffer.old.items }
    requires known { IfSome ahead.old
        (λ stop. stop ≡ Lookups.stop_after lookup.now buffer.old.items i) }
    ensures placed { record {
      buffer = buffer.new;
      next = result;
      seen = carried.new.seen;
      left = carried.new.left;
    } ≡ Subtables.subtable_placed lookup.now subtable i buffer.old
        (Subtables.sought lookup.now subtable i buffer.old carried.old.seen carried.old.left) }
    ensures known { IfSome ahead.new
        (λ stop. stop ≡ Lookups.stop_after lookup.now buffer.old.items i) }
{
    match subtable.kind {
        3 => {
            let outcome = place_cursive(lookup, subtable, buffer, i, *carried);
            carried_on(outcome, carried)
        }
        4 | 5 | 6 => {
            let unplaced = Outcome {
                next: None,
                carried: *carried,
            };
            let outcome = try_mark(lookup, subtable, buffer, i, unplaced);
            carried_on(outcome, carried)
        }
        _ => apply_kind(lookup, subtable, buffer, i, ahead),
    }
}

/// Whether subtable number `k` may begin at the glyph at place `i`, by what is stored of it.
#[inline(always)]
fn may_begin_at(indexed: &Indexed<'_>, buffer: &hb_buffer_t, i: usize, k: u32) -> bool
    requires { i < length buffer.now.items }
    ensures { result ≡ false
        → IsOut indexed.now.lookup.now k (nth buffer.now.items i).glyph_id }
{
    indexed.may_begin(k, buffer.infos()[i].glyph_id)
}

/// Tries subtable number `k` at place `i`. `ahead` is the first glyph after the place that isn't
/// passed over, once it was sought. Returns where the lookup goes on.
#[inline(always)]
fn try_subtable(
    indexed: &Indexed<'_>,
    buffer: &mut hb_buffer_t,
    i: usize,
    carried: &mut Carried,
    k: u32,
    ahead: &mut Option<Option<usize>>,
) -> Option<usize>
    requires place { indexed.now.lookup.now.place < 2 ^ 17 }
    requires inside { i < length buffer.old.items }
    requires few { k < 2 ^ 16 }
    requires known { IfSome ahead.old
        (λ stop. stop ≡ Lookups.stop_after indexed.now.lookup.now buffer.old.items i) }
    ensures step { record {
      buffer = buffer.new;
      next = result;
      seen = carried.new.seen;
      left = carried.new.left;
      subtable = k + 1;
    }
        ≡ Subtables.trial_step indexed.now.lookup.now i (record {
          buffer = buffer.old;
          next = None;
          seen = carried.old.seen;
          left = carried.old.left;
          subtable = k;
        }) }
    ensures known { IfSome ahead.new
        (λ stop. stop ≡ Lookups.stop_after indexed.now.lookup.now buffer.old.items i) }
{
    let lookup = indexed.lookup;
    if lookup.positioning && !may_begin_at(indexed, buffer, i, k) {
        return None;
    }
    match subtable(lookup.table, 9, lookup.place, k) {
        Some(subtable) => apply_subtable(lookup, subtable, buffer, i, carried, ahead),
        None => None,
    }
}

/// Applies a lookup that names no other to the glyph at place `i`: its first subtable that applies.
/// Returns where it goes on.
#[tactic(auto, using(layout_matching::proofs::LoopLemmas::times_step, crate::proofs::SubtableLemmas::length_tried))]
pub fn apply_lookup(
    indexed: &Indexed<'_>,
    buffer: &mut hb_buffer_t,
    i: usize,
    carried: &mut Carried,
) -> Option<usize>
    requires place { indexed.now.lookup.now.place < 2 ^ 17 }
    requires inside { i < length buffer.old.items }
    ensures made { record {
      buffer = buffer.new;
      next = result;
      seen = carried.new.seen;
      left = carried.new.left;
    } ≡ Subtables.lookup_placed indexed.now.lookup.now i carried.old.left carried.old.seen buffer.old }
    ensures len { length buffer.new.items ≡ length buffer.old.items }
{
    let mut ahead = None;
    for k in 0..subtable_count(indexed.lookup.table, indexed.lookup.place) {
        match try_subtable(indexed, buffer, i, carried, k, &mut ahead) {
            Some(next) => return Some(next),
            None => {}
        }
    }
    None
}
