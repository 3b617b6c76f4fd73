//! Subtables that attach marks (types 4, 5 and 6). Most don't list a glyph: then nothing but their
//! list is read.
ghost use Rattle.std.specs.Prelude.{◌≡◌, ◌<◌, ◌^◌, ◌||◌, true, length, nat_eq, Some, None, if◌then◌else◌};
ghost use Rattle.shape_font.specs.Bytes.{u16_of};
ghost use Rattle.layout_positions.specs.Flagged.{IsFlagged};
ghost use Rattle.layout_positions.specs.Marks;
ghost use Rattle.layout_positions.specs.Subtables;

use crate::anchors::number_there;
use crate::bases::{base_seen, seek_work};
use crate::flagged::{Flagged, none_flagged};
use crate::marks::{
    Attached, Mark, Pairing, attach_to_mark, concat_from, put_on_glyph, put_on_ligature,
};
use crate::subtables::{Carried, Outcome, Sought};
use layout_matching::lookup::Lookup;
use layout_matching::tally::charged;
use layout_tables::lookups::LookupSubtable;
use shape_buffer::hb_buffer_t;
use shape_font::bytes::u16_at;

/// Looks for the base of the mark at place `i`, and charges for that.
fn seek_base(
    lookup: &Lookup<'_>,
    subtable: LookupSubtable,
    buffer: &hb_buffer_t,
    i: usize,
    carried: Carried,
) -> Sought
    requires near { subtable.start < 2 ^ 34 }
    requires inside { i < length buffer.now.items }
    ensures { result ≡ Subtables.sought_from lookup.now subtable buffer.now.items i carried.seen
        carried.left (Marks.base_seen lookup.now subtable buffer.now.items i carried.seen) }
{
    let items = buffer.infos();
    let seen = base_seen(lookup, subtable, items, i, carried.seen);
    let work = seek_work(lookup, subtable, items, i, carried.seen, seen.place);
    Sought {
        seen,
        left: charged(work, carried.left),
    }
}

/// Attaches a mark of a subtable of type 4 or 5 to the glyph at place `base`.
fn attach(
    lookup: &Lookup<'_>,
    subtable: LookupSubtable,
    base: Option<usize>,
    buffer: &mut hb_buffer_t,
    mark: Mark,
    flagged: Flagged,
) -> Attached
    requires near { subtable.start < 2 ^ 34 }
    requires inside { mark.place < length buffer.old.items }
    requires flagged { IsFlagged flagged buffer.old.items }
    ensures made { buffer.new ≡ (if nat_eq subtable.kind 4
        then Marks.mark_base_at lookup.now subtable.start base mark.place buffer.old mark.number
        else Marks.mark_ligature_at lookup.now subtable.start base mark.place buffer.old
        mark.number).buffer }
    ensures next { result.next ≡ (if nat_eq subtable.kind 4
        then Marks.mark_base_at lookup.now subtable.start base mark.place buffer.old mark.number
        else Marks.mark_ligature_at lookup.now subtable.start base mark.place buffer.old
        mark.number).next }
    ensures flagged { IsFlagged result.flagged buffer.new.items }
{
    let Some(base) = base else {
        return concat_from(buffer, flagged, 0, mark.place);
    };
    let at = Pairing {
        mark: mark.place,
        base,
        number: mark.number,
        flagged,
    };
    if subtable.kind == 4 {
        put_on_glyph(lookup, subtable.start, buffer, &at)
    } else {
        put_on_ligature(lookup, subtable.start, buffer, &at)
    }
}

/// Applies a subtable of type 4 or 5 to its mark, if what is left suffices for the search for its
/// base. Else nothing is left.
#[tactic(auto, using(crate::proofs::SubtableLemmas::mark_placed, crate::proofs::SubtableLemmas::mark_unpaid))]
fn place_mark(
    lookup: &Lookup<'_>,
    subtable: LookupSubtable,
    buffer: &mut hb_buffer_t,
    mark: Mark,
    carried: Carried,
    flagged: &mut Flagged,
) -> Outcome
    requires near { subtable.start < 2 ^ 34 }
    requires inside { mark.place < length buffer.old.items }
    requires flagged { IsFlagged flagged.old buffer.old.items }
    requires kind { nat_eq subtable.kind 4 || nat_eq subtable.kind 5 ≡ true }
    requires listed { (if nat_eq (u16_of lookup.now.table.now subtable.start) 1
        then Marks.mark_number lookup.now subtable.start mark.place buffer.old else None)
        ≡ Some mark.number }
    ensures placed { record {
      buffer = buffer.new;
      next = result.next;
      seen = result.carried.seen;
      left = result.carried.left;
    } ≡ Subtables.subtable_placed lookup.now subtable mark.place buffer.old
        (Subtables.sought lookup.now subtable mark.place buffer.old carried.seen carried.left) }
    ensures flagged { IsFlagged flagged.new buffer.new.items }
{
    let sought = seek_base(lookup, subtable, buffer, mark.place, carried);
    let seen = sought.seen;
    let Some(left) = sought.left else {
        return Outcome {
            next: None,
            carried: Carried { seen, left: 0 },
        };
    };
    let attached = attach(lookup, subtable, seen.place, buffer, mark, *flagged);
    *flagged = attached.flagged;
    Outcome {
        next: attached.next,
        carried: Carried { seen, left },
    }
}

/// Applies a subtable of type 6 to its mark.
#[tactic(auto, using(crate::proofs::SubtableLemmas::mark_on_mark_placed))]
fn place_on_mark(
    lookup: &Lookup<'_>,
    subtable: LookupSubtable,
    buffer: &mut hb_buffer_t,
    mark: Mark,
    carried: Carried,
    flagged: &mut Flagged,
) -> Outcome
    requires near { subtable.start < 2 ^ 34 }
    requires inside { mark.place < length buffer.old.items }
    requires flagged { IsFlagged flagged.old buffer.old.items }
    requires kind { subtable.kind ≡ 6 }
    requires listed { (if nat_eq (u16_of lookup.now.table.now subtable.start) 1
        then Marks.mark_number lookup.now subtable.start mark.place buffer.old else None)
        ≡ Some mark.number }
    ensures placed { record {
      buffer = buffer.new;
      next = result.next;
      seen = result.carried.seen;
      left = result.carried.left;
    } ≡ Subtables.subtable_placed lookup.now subtable mark.place buffer.old
        (Subtables.sought lookup.now subtable mark.place buffer.old carried.seen carried.left) }
    ensures flagged { IsFlagged flagged.new buffer.new.items }
{
    let attached = attach_to_mark(lookup, subtable.start, buffer, mark, *flagged);
    *flagged = attached.flagged;
    Outcome {
        next: attached.next,
        carried,
    }
}

/// Applies a subtable of type 4, 5 or 6 to its mark. A call of its own, since most subtables
/// don't list a mark.
#[inline(never)]
pub(crate) fn place_listed(
    lookup: &Lookup<'_>,
    subtable: LookupSubtable,
    buffer: &mut hb_buffer_t,
    mark: Mark,
    carried: Carried,
    flagged: &mut Flagged,
) -> Outcome
    requires near { subtable.start < 2 ^ 34 }
    requires inside { mark.place < length buffer.old.items }
    requires flagged { IsFlagged flagged.old buffer.old.items }
    requires kind { nat_eq subtable.kind 4 || nat_eq subtable.kind 5 || nat_eq subtable.kind 6
        ≡ true }
    requires listed { (if nat_eq (u16_of lookup.now.table.now subtable.start) 1
        then Marks.mark_number lookup.now subtable.start mark.place buffer.old else None)
        ≡ Some mark.number }
    ensures placed { record {
      buffer = buffer.new;
      next = result.next;
      seen = result.carried.seen;
      left = result.carried.left;
    } ≡ Subtables.subtable_placed lookup.now subtable mark.place buffer.old
        (Subtables.sought lookup.now subtable mark.place buffer.old carried.seen carried.left) }
    ensures flagged { IsFlagged flagged.new buffer.new.items }
{
    if subtable.kind == 6 {
        place_on_mark(lookup, subtable, buffer, mark, carried, flagged)
    } else {
        place_mark(lookup, subtable, buffer, mark, carried, flagged)
    }
}

/// The number of the mark at place `i` in a subtable of format 1; none in one of another format.
pub(crate) fn listed_mark(
    lookup: &Lookup<'_>,
    start: usize,
    buffer: &hb_buffer_t,
    i: usize,
) -> Option<u32>
    requires near { start < 2 ^ 34 }
    requires inside { i < length buffer.now.items }
    ensures { result ≡ (if nat_eq (u16_of lookup.now.table.now start) 1
        then Marks.mark_number lookup.now start i buffer.now else None) }
{
    if u16_at(lookup.table, start) != 1 {
        return None;
    }
    number_there(lookup.table, start, start + 2, buffer.infos()[i].glyph_id)
}

/// Applies a subtable of type 4, 5 or 6 to the glyph at place `i`. Its marks are searched once. If
/// it doesn't list the glyph, as most don't, what is carried on isn't touched.
#[tactic(auto, using(crate::proofs::SubtableLemmas::unlisted_unplaced))]
#[inline(always)]
pub(crate) fn try_mark(
    lookup: &Lookup<'_>,
    subtable: LookupSubtable,
    buffer: &mut hb_buffer_t,
    i: usize,
    placed: Outcome,
) -> Outcome
    requires near { subtable.start < 2 ^ 34 }
    requires inside { i < length buffer.old.items }
    requires kind { nat_eq subtable.kind 4 || nat_eq subtable.kind 5 || nat_eq subtable.kind 6
        ≡ true }
    requires unplaced { placed.next ≡ None }
    ensures { record {
      buffer = buffer.new;
      next = result.next;
      seen = result.carried.seen;
      left = result.carried.left;
    } ≡ Subtables.subtable_placed lookup.now subtable i buffer.old
        (Subtables.sought lookup.now subtable i buffer.old placed.carried.seen placed.carried.left) }
{
    match listed_mark(lookup, subtable.start, buffer, i) {
        Some(number) => {
            let mark = Mark { place: i, number };
            place_listed(
                lookup,
                subtable,
                buffer,
                mark,
                placed.carried,
                &mut none_flagged(),
            )
        }
        None => placed,
    }
}
