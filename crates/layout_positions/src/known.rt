//! What a walk over a long list knows of its glyphs: which subtables of marks don't list them. A
//! text has few marks, which come again and again, and a lookup many subtables, of which most don't
//! list a mark: those aren't searched again for a glyph as long as it is kept in mind.
ghost use Rattle.std.specs.Prelude.{◌≡◌, ◌<◌, ◌+◌, ◌&&◌, ◌^◌, ◌||◌, All, true, false, length, nat_eq, nat_lt, Some, None};
ghost use Rattle.std.specs.Int.{bit_at};
ghost use Rattle.layout_tables.specs.Lookups.{subtable_of};
ghost use Rattle.layout_matching.specs.Skipping.{nth};
ghost use Rattle.layout_positions.specs.Flagged.{IsFlagged};
ghost use Rattle.layout_positions.specs.Known as known_marks;
ghost use Rattle.layout_positions.specs.Subtables;

use crate::adjustment::{apply_pair, apply_single};
use crate::flagged::{Flagged, none_flagged};
use crate::listed::{listed_mark, place_listed};
use crate::marks::Mark;
use crate::subtables::{Carried, Outcome, place_cursive};
use layout_matching::found::first_subtable;
use layout_matching::lookup::Lookup;
use layout_tables::lookups::{LookupSubtable, lookup_type, subtable, subtable_count};
use shape_buffer::hb_buffer_t;

/// A glyph, and a bit for each of the first 64 subtables that is known not to list it.
#[derive(Clone, Copy)]
pub struct Known {
    pub glyph: u32,
    pub out: u64,
}

/// How many glyphs a walk keeps in mind.
pub(crate) const ROOM: usize = 16;

/// How long a list is that a walk keeps glyphs in mind for.
pub(crate) const LONG: usize = 16;

/// Whether the bit for subtable `k` is set.
#[tactic(auto, using(crate::proofs::KnownLemmas::bit_tested))]
#[inline(always)]
fn is_out(out: u64, k: u32) -> bool
    ensures { result ≡ (nat_lt k 64 && nat_eq (bit_at out k) 1) }
{
    k < 64 && out >> (k % 64) & 1 == 1
}

/// The bit for subtable `k`.
#[inline(always)]
fn bit(k: u32) -> u64
    requires { k < 64 }
    ensures { result ≡ 2 ^ k }
{
    1 << k
}

/// The bits with that for subtable `k`, if it has one.
#[inline(always)]
fn with_out(lookup: &Lookup<'_>, glyph: u32, out: u64, k: u32) -> u64
    requires out { known_marks.AreOut lookup.now glyph out }
    requires new { known_marks.IsOut lookup.now glyph k }
    ensures { known_marks.AreOut lookup.now glyph result }
{
    if k < 64 { out | bit(k) } else { out }
}

/// What is known of a glyph.
#[tactic(auto, using(crate::proofs::KnownLemmas::none_out))]
#[inline(always)]
fn recalled(lookup: &Lookup<'_>, glyph: u32, known: &[Known]) -> u64
    requires { All (known_marks.IsKnown lookup.now) known.now }
    ensures { known_marks.AreOut lookup.now glyph result }
{
    let i = glyph as usize % ROOM;
    if i < known.len() && known[i].glyph == glyph {
        known[i].out
    } else {
        0
    }
}

/// Keeps in mind what is known of a glyph, in place of what was known of another one.
#[inline(always)]
fn keep(lookup: &Lookup<'_>, glyph: u32, out: u64, known: &mut [Known])
    requires all { All (known_marks.IsKnown lookup.now) known.old }
    requires new { known_marks.AreOut lookup.now glyph out }
    ensures { All (known_marks.IsKnown lookup.now) known.new }
{
    let i = glyph as usize % ROOM;
    if i < known.len() {
        known[i] = Known { glyph, out };
    }
}

/// Whether the lookup attaches marks. Nothing but time depends on it.
pub(crate) fn attaches_marks(lookup: &Lookup<'_>) -> bool
    requires { lookup.now.place < 2 ^ 17 }
{
    match lookup_type(lookup.table, lookup.place) {
        4 | 5 | 6 => true,
        9 => match first_subtable(lookup) {
            Some(subtable) => 3 < subtable.kind && subtable.kind < 7,
            None => false,
        },
        _ => false,
    }
}

/// What a lookup has made of a glyph by some of its subtables, which are known not to list it, and
/// what is marked unsafe to break.
#[derive(Clone, Copy)]
struct Tried {
    placed: Outcome,
    out: u64,
    flagged: Flagged,
}

/// Applies a subtable of marks to the glyph at place `i`, or learns that it doesn't list it.
#[tactic(auto, using(crate::proofs::SubtableLemmas::unlisted_unplaced, crate::proofs::KnownLemmas::vain_of))]
#[inline(always)]
fn try_marks(
    lookup: &Lookup<'_>,
    subtable: LookupSubtable,
    buffer: &mut hb_buffer_t,
    i: usize,
    k: u32,
    tried: Tried,
) -> Tried
    requires near { subtable.start < 2 ^ 34 }
    requires inside { i < length buffer.old.items }
    requires kind { nat_eq subtable.kind 4 || nat_eq subtable.kind 5 || nat_eq subtable.kind 6
        ≡ true }
    requires this { subtable_of lookup.now.table.now 9 lookup.now.place k ≡ Some subtable }
    requires unplaced { tried.placed.next ≡ None }
    requires out { known_marks.AreOut lookup.now (nth buffer.old.items i).glyph_id tried.out }
    requires flagged { IsFlagged tried.flagged buffer.old.items }
    ensures placed { record {
      buffer = buffer.new;
      next = result.placed.next;
      seen = result.placed.carried.seen;
      left = result.placed.carried.left;
    } ≡ Subtables.subtable_placed lookup.now subtable i buffer.old
        (Subtables.sought lookup.now subtable i buffer.old tried.placed.carried.seen
        tried.placed.carried.left) }
    ensures out { known_marks.AreOut lookup.now (nth buffer.old.items i).glyph_id result.out }
    ensures flagged { IsFlagged result.flagged buffer.new.items }
{
    let mut tried = tried;
    match listed_mark(lookup, subtable.start, buffer, i) {
        Some(number) => {
            let mark = Mark { place: i, number };
            let carried = tried.placed.carried;
            tried.placed = place_listed(
                lookup,
                subtable,
                buffer,
                mark,
                carried,
                &mut tried.flagged,
            );
        }
        None => tried.out = with_out(lookup, buffer.infos()[i].glyph_id, tried.out, k),
    }
    tried
}

/// Applies a subtable of type 1 or 2 to the glyph at place `i`, and none of another type. It isn't
/// shared with the walks that keep nothing in mind: there it would no longer be inlined.
fn place_values(
    lookup: &Lookup<'_>,
    subtable: LookupSubtable,
    buffer: &mut hb_buffer_t,
    i: usize,
    carried: Carried,
) -> Outcome
    requires near { subtable.start < 2 ^ 34 }
    requires inside { i < length buffer.old.items }
    requires lone { nat_eq subtable.kind 3 ≡ false }
    requires baseless { nat_eq subtable.kind 4 || nat_eq subtable.kind 5 ≡ false }
    requires markless { nat_eq subtable.kind 6 ≡ false }
    ensures { record {
      buffer = buffer.new;
      next = result.next;
      seen = result.carried.seen;
      left = result.carried.left;
    } ≡ Subtables.kind_placed lookup.now subtable i buffer.old carried.seen carried.left }
{
    let next = match subtable.kind {
        1 => apply_single(lookup, subtable.start, buffer, i),
        2 => apply_pair(lookup, subtable.start, buffer, i, &mut None),
        _ => None,
    };
    Outcome { next, carried }
}

/// Applies a subtable that doesn't attach marks to the glyph at place `i`. A call of its own: in a
/// lookup of marks only one that stands far away may be of another type.
#[inline(never)]
fn try_other(
    lookup: &Lookup<'_>,
    subtable: LookupSubtable,
    buffer: &mut hb_buffer_t,
    i: usize,
    carried: Carried,
) -> Outcome
    requires near { subtable.start < 2 ^ 34 }
    requires inside { i < length buffer.old.items }
    requires baseless { nat_eq subtable.kind 4 || nat_eq subtable.kind 5 ≡ false }
    requires markless { nat_eq subtable.kind 6 ≡ false }
    ensures { record {
      buffer = buffer.new;
      next = result.next;
      seen = result.carried.seen;
      left = result.carried.left;
    } ≡ Subtables.subtable_placed lookup.now subtable i buffer.old
        (Subtables.sought lookup.now subtable i buffer.old carried.seen carried.left) }
{
    if subtable.kind == 3 {
        place_cursive(lookup, subtable, buffer, i, carried)
    } else {
        place_values(lookup, subtable, buffer, i, carried)
    }
}

/// Applies subtable number `k` to the glyph at place `i`.
#[inline(always)]
fn try_new(
    lookup: &Lookup<'_>,
    subtable: LookupSubtable,
    buffer: &mut hb_buffer_t,
    i: usize,
    k: u32,
    tried: Tried,
) -> Tried
    requires near { subtable.start < 2 ^ 34 }
    requires inside { i < length buffer.old.items }
    requires this { subtable_of lookup.now.table.now 9 lookup.now.place k ≡ Some subtable }
    requires unplaced { tried.placed.next ≡ None }
    requires out { known_marks.AreOut lookup.now (nth buffer.old.items i).glyph_id tried.out }
    requires flagged { IsFlagged tried.flagged buffer.old.items }
    ensures placed { record {
      buffer = buffer.new;
      next = result.placed.next;
      seen = result.placed.carried.seen;
      left = result.placed.carried.left;
    } ≡ Subtables.subtable_placed lookup.now subtable i buffer.old
        (Subtables.sought lookup.now subtable i buffer.old tried.placed.carried.seen
        tried.placed.carried.left) }
    ensures out { known_marks.AreOut lookup.now (nth buffer.old.items i).glyph_id result.out }
    ensures flagged { IsFlagged result.flagged buffer.new.items }
{
    match subtable.kind {
        4 | 5 | 6 => try_marks(lookup, subtable, buffer, i, k, tried),
        _ => Tried {
            placed: try_other(lookup, subtable, buffer, i, tried.placed.carried),
            out: tried.out,
            flagged: none_flagged(),
        },
    }
}

/// Tries subtable number `k` at place `i`, unless one before it applied, or it is known not to list
/// the glyph.
#[tactic(auto, using(crate::proofs::KnownLemmas::known_tried))]
#[inline(always)]
fn try_known(lookup: &Lookup<'_>, buffer: &mut hb_buffer_t, i: usize, k: u32, tried: Tried) -> Tried
    requires place { lookup.now.place < 2 ^ 17 }
    requires inside { i < length buffer.old.items }
    requires few { k < 2 ^ 16 }
    requires out { known_marks.AreOut lookup.now (nth buffer.old.items i).glyph_id tried.out }
    requires flagged { IsFlagged tried.flagged buffer.old.items }
    ensures step { record {
      buffer = buffer.new;
      next = result.placed.next;
      seen = result.placed.carried.seen;
      left = result.placed.carried.left;
      subtable = k +
          1;
    }
        ≡ Subtables.trial_step lookup.now i (record {
          buffer = buffer.old;
          next = tried.placed.next;
          seen = tried.placed.carried.seen;
          left = tried.placed.carried.left;
          subtable = k;
        }) }
    ensures out { known_marks.AreOut lookup.now (nth buffer.old.items i).glyph_id result.out }
    ensures flagged { IsFlagged result.flagged buffer.new.items }
{
    if tried.placed.next.is_some() {
        return tried;
    }
    if is_out(tried.out, k) {
        return tried;
    }
    match subtable(lookup.table, 9, lookup.place, k) {
        Some(subtable) => try_new(lookup, subtable, buffer, i, k, tried),
        None => tried,
    }
}

/// Applies a lookup that names no other to the glyph at place `i`: its first subtable that applies.
#[tactic(auto, using(layout_matching::proofs::LoopLemmas::times_step, crate::proofs::SubtableLemmas::length_tried))]
pub(crate) fn apply_known(
    lookup: &Lookup<'_>,
    buffer: &mut hb_buffer_t,
    i: usize,
    carried: Carried,
    known: &mut [Known],
    flagged: &mut Flagged,
) -> Outcome
    requires place { lookup.now.place < 2 ^ 17 }
    requires inside { i < length buffer.old.items }
    requires known { All (known_marks.IsKnown lookup.now) known.old }
    requires flagged { IsFlagged flagged.old buffer.old.items }
    ensures made { record {
      buffer = buffer.new;
      next = result.next;
      seen = result.carried.seen;
      left = result.carried.left;
    } ≡ Subtables.lookup_placed lookup.now i carried.left carried.seen buffer.old }
    ensures known { All (known_marks.IsKnown lookup.now) known.new }
    ensures flagged { IsFlagged flagged.new buffer.new.items }
{
    let glyph = buffer.infos()[i].glyph_id;
    let mut tried = Tried {
        placed: Outcome {
            next: None,
            carried,
        },
        out: recalled(lookup, glyph, known),
        flagged: *flagged,
    };
    for k in 0..subtable_count(lookup.table, lookup.place) {
        tried = try_known(lookup, buffer, i, k, tried);
    }
    keep(lookup, glyph, tried.out, known);
    *flagged = tried.flagged;
    tried.placed
}
