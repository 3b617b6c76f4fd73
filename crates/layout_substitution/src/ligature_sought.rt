//! Lookups of ligatures (type 4) at a place, gone over once: what is looked at is charged for while
//! it is looked for.
ghost use Rattle.std.specs.Prelude.{◌≡◌, Some, None, ◌<◌, ◌≤◌, ◌^◌, length, false};
ghost use Rattle.std.specs.Option.{IfSome, option_map_or};
ghost use Rattle.layout_tables.specs.Lookups.{lookup_type_of};
ghost use Rattle.layout_matching.specs.Sifted.{AreOut, second_glance, set_there};
ghost use Rattle.layout_substitution.specs.Applied.{unapplied};
ghost use Rattle.layout_substitution.specs.Ligatures.{ligature_found, ligature_in as one_ligature, ligature_made};
ghost use Rattle.layout_substitution.specs.Sought as Seeking;
ghost use Rattle.layout_substitution.specs.Substitutes.{listed_count};

use crate::apply::{Spot, make_ligature};
use crate::ligature::{Components, found, matched_at};
use crate::substitutes::{count, ligature_at};
use layout_buffer::GapBuffer;
use layout_matching::indexed::Indexed;
use layout_matching::ligature_sets::{PaidSet, set_paid};
use layout_matching::ligatures::{Charge, ligatures_paid};
use layout_matching::lookup::Lookup;
use layout_tables::lookups::subtable_count;
use layout_tables::offsets::offset16;
use shape_font::bytes::u16_at;

/// What is left, and the ligature that stands at a place, if one does.
#[derive(Clone, Copy, PartialEq, Eq, Debug)]
pub struct SoughtLigature {
    pub left: usize,
    pub found: Option<Components>,
}

/// Ligature `i` of the set, if its components stand at `at`.
fn ligature_in(
    lookup: &Lookup<'_>,
    buffer: &GapBuffer,
    at: usize,
    set: usize,
    i: u32,
) -> Option<Components>
    requires near { set < 2 ^ 36 }
    requires few { i < 2 ^ 16 }
    requires inside { at < length buffer.now.items }
    ensures value { result ≡ one_ligature lookup.now buffer.now at set i }
    ensures inside { IfSome result (λ m. m.last < length buffer.now.items) }
    ensures near { IfSome result (λ m. m.ligature < 2 ^ 37) }
{
    match ligature_at(lookup.table, set, i) {
        Some(ligature) => matched_at(lookup, buffer, at, ligature),
        None => None,
    }
}

/// The first ligature of a set that stands at `at`. Those before number `first` don't.
#[tactic(auto, using(layout_matching::proofs::LoopLemmas::first_some_next, layout_matching::proofs::LoopLemmas::first_some_found, layout_matching::proofs::LoopLemmas::first_some_end, crate::proofs::SoughtLemmas::found_after))]
fn found_from(
    lookup: &Lookup<'_>,
    buffer: &GapBuffer,
    at: usize,
    set: usize,
    first: u32,
) -> Option<Components>
    requires near { set < 2 ^ 36 }
    requires inside { at < length buffer.now.items }
    requires out { AreOut lookup.now.table.now (second_glance lookup.now buffer.now.items at) set first }
    requires within { first ≤ listed_count lookup.now.table.now set }
    ensures value { result ≡ ligature_found lookup.now buffer.now at set }
    ensures inside { IfSome result (λ m. m.last < length buffer.now.items) }
    ensures near { IfSome result (λ m. m.ligature < 2 ^ 37) }
{
    let many = count(lookup.table, set);
    for i in first..many {
        if let Some(one) = ligature_in(lookup, buffer, at, set, i) {
            return Some(one);
        }
    }
    None
}

/// The first ligature of a subtable that stands at a place, where it was charged for.
#[tactic(auto, using(crate::proofs::SoughtLemmas::found_by_format, crate::proofs::SoughtLemmas::found_by_set))]
#[inline(always)]
fn found_in(
    lookup: &Lookup<'_>,
    buffer: &GapBuffer,
    at: usize,
    start: usize,
    there: Charge,
) -> Option<Components>
    requires near { start < 2 ^ 35 }
    requires inside { at < length buffer.now.items }
    requires set { there.set ≡ set_there lookup.now buffer.now.items at start }
    requires out { IfSome there.set (λ set. AreOut lookup.now.table.now
        (second_glance lookup.now buffer.now.items at) set there.first) }
    requires within { IfSome there.set (λ set. there.first ≤ listed_count lookup.now.table.now set) }
    requires close { IfSome there.set (λ set. set < 2 ^ 36) }
    ensures value { result ≡ Seeking.found_by lookup.now buffer.now at start }
    ensures inside { IfSome result (λ m. m.last < length buffer.now.items) }
    ensures near { IfSome result (λ m. m.ligature < 2 ^ 37) }
{
    if u16_at(lookup.table, start) != 1 {
        return None;
    }
    match there.set {
        Some(set) => found_from(lookup, buffer, at, set, there.first),
        None => None,
    }
}

/// After the subtable at `start`.
#[inline(always)]
fn sought_by(
    lookup: &Lookup<'_>,
    buffer: &GapBuffer,
    at: usize,
    start: usize,
    sought: SoughtLigature,
) -> Option<SoughtLigature>
    requires near { start < 2 ^ 35 }
    requires inside { at < length buffer.now.items }
    requires substitution { lookup.now.positioning ≡ false }
    requires last { IfSome sought.found (λ m. m.last < length buffer.now.items) }
    requires far { IfSome sought.found (λ m. m.ligature < 2 ^ 37) }
    ensures value { result ≡ Seeking.sought_by lookup.now buffer.now at start sought }
    ensures last { IfSome result (λ s. IfSome s.found (λ m. m.last < length buffer.now.items)) }
    ensures far { IfSome result (λ s. IfSome s.found (λ m. m.ligature < 2 ^ 37)) }
{
    let Some(paid) = ligatures_paid(lookup, &buffer.items(), at, sought.left, start) else {
        return None;
    };
    let found = match sought.found {
        Some(one) => Some(one),
        None => found_in(lookup, buffer, at, start, paid),
    };
    Some(SoughtLigature {
        left: paid.left,
        found,
    })
}

/// After subtable `i`.
#[tactic(auto, using(crate::proofs::SoughtLemmas::step_by_offset))]
#[inline(always)]
fn sought_step(
    lookup: &Lookup<'_>,
    buffer: &GapBuffer,
    at: usize,
    i: u32,
    sought: SoughtLigature,
) -> Option<SoughtLigature>
    requires place { lookup.now.place < 2 ^ 17 }
    requires few { i < 2 ^ 16 }
    requires inside { at < length buffer.now.items }
    requires substitution { lookup.now.positioning ≡ false }
    requires four { lookup_type_of lookup.now.table.now lookup.now.place ≡ 4 }
    requires last { IfSome sought.found (λ m. m.last < length buffer.now.items) }
    requires far { IfSome sought.found (λ m. m.ligature < 2 ^ 37) }
    ensures value { result ≡ Seeking.sought_step lookup.now buffer.now at i sought }
    ensures last { IfSome result (λ s. IfSome s.found (λ m. m.last < length buffer.now.items)) }
    ensures far { IfSome result (λ s. IfSome s.found (λ m. m.ligature < 2 ^ 37)) }
{
    match offset16(
        lookup.table,
        lookup.place,
        lookup.place + 6 + 2 * i as usize,
    ) {
        Some(start) => sought_by(lookup, buffer, at, start, sought),
        None => Some(sought),
    }
}

/// The first ligature of a set of the first subtable that stands at a place. A call of its own: at
/// most places the next glyph refuses each of them.
#[tactic(auto, using(crate::proofs::SoughtLemmas::found_by_format, crate::proofs::SoughtLemmas::found_by_paid))]
#[inline(never)]
fn found_first(
    lookup: &Lookup<'_>,
    buffer: &GapBuffer,
    at: usize,
    paid: PaidSet,
) -> Option<Components>
    requires near { paid.start < 2 ^ 35 }
    requires close { paid.set < 2 ^ 36 }
    requires inside { at < length buffer.now.items }
    requires there { set_there lookup.now buffer.now.items at paid.start ≡ Some paid.set }
    ensures value { result ≡ Seeking.found_by lookup.now buffer.now at paid.start }
    ensures inside { IfSome result (λ m. m.last < length buffer.now.items) }
    ensures near { IfSome result (λ m. m.ligature < 2 ^ 37) }
{
    if u16_at(lookup.table, paid.start) != 1 {
        return None;
    }
    found(lookup, buffer, at, paid.set)
}

/// After subtable `i`. What is stored of the glyph's set mostly says what the first one costs.
#[tactic(auto, using(crate::proofs::SoughtLemmas::paid_step))]
#[inline(always)]
fn sought_at(
    indexed: &Indexed<'_>,
    buffer: &GapBuffer,
    at: usize,
    i: u32,
    sought: SoughtLigature,
) -> Option<SoughtLigature>
    requires place { indexed.now.lookup.now.place < 2 ^ 17 }
    requires few { i < 2 ^ 16 }
    requires inside { at < length buffer.now.items }
    requires substitution { indexed.now.lookup.now.positioning ≡ false }
    requires four { lookup_type_of indexed.now.lookup.now.table.now indexed.now.lookup.now.place ≡ 4 }
    requires last { IfSome sought.found (λ m. m.last < length buffer.now.items) }
    requires far { IfSome sought.found (λ m. m.ligature < 2 ^ 37) }
    ensures value { result ≡ Seeking.sought_step indexed.now.lookup.now buffer.now at i sought }
    ensures last { IfSome result (λ s. IfSome s.found (λ m. m.last < length buffer.now.items)) }
    ensures far { IfSome result (λ s. IfSome s.found (λ m. m.ligature < 2 ^ 37)) }
{
    if i == 0 {
        if let Some(paid) = set_paid(indexed, &buffer.items(), at, sought.left) {
            if paid.is_refused {
                return Some(SoughtLigature {
                    left: paid.left,
                    found: sought.found,
                });
            }
            let found = match sought.found {
                Some(one) => Some(one),
                None => found_first(indexed.lookup, buffer, at, paid),
            };
            return Some(SoughtLigature {
                left: paid.left,
                found,
            });
        }
    }
    sought_step(indexed.lookup, buffer, at, i, sought)
}

/// The ligature that a lookup of type 4 makes at a place, and what is left after all that it may
/// look at there; none if what was left doesn't suffice. Where the lookup has one subtable, what is
/// stored of the glyph's set mostly says at once that no ligature stands there.
#[tactic(auto, using(crate::proofs::SoughtLemmas::paid_alone))]
#[inline(always)]
pub fn seek_ligature(
    indexed: &Indexed<'_>,
    buffer: &GapBuffer,
    at: usize,
    left: usize,
) -> Option<SoughtLigature>
    requires place { indexed.now.lookup.now.place < 2 ^ 17 }
    requires inside { at < length buffer.now.items }
    requires substitution { indexed.now.lookup.now.positioning ≡ false }
    requires four { lookup_type_of indexed.now.lookup.now.table.now indexed.now.lookup.now.place ≡ 4 }
    ensures value { result ≡ Seeking.all_sought indexed.now.lookup.now buffer.now at left }
    ensures last { IfSome result (λ s. IfSome s.found (λ m. m.last < length buffer.now.items)) }
    ensures far { IfSome result (λ s. IfSome s.found (λ m. m.ligature < 2 ^ 37)) }
{
    if subtable_count(indexed.lookup.table, indexed.lookup.place) == 1 {
        if let Some(paid) = set_paid(indexed, &buffer.items(), at, left) {
            if paid.is_refused {
                return Some(SoughtLigature {
                    left: paid.left,
                    found: None,
                });
            }
            return Some(SoughtLigature {
                left: paid.left,
                found: found_first(indexed.lookup, buffer, at, paid),
            });
        }
    }
    seek_in_each(indexed, buffer, at, left)
}

/// The same, subtable by subtable. A call of its own: its registers are saved where it is needed
/// alone.
#[tactic(auto, using(layout_matching::proofs::LoopLemmas::steps_none, layout_matching::proofs::LoopLemmas::steps_end, crate::proofs::SoughtLemmas::sought_whole))]
#[inline(never)]
fn seek_in_each(
    indexed: &Indexed<'_>,
    buffer: &GapBuffer,
    at: usize,
    left: usize,
) -> Option<SoughtLigature>
    requires place { indexed.now.lookup.now.place < 2 ^ 17 }
    requires inside { at < length buffer.now.items }
    requires substitution { indexed.now.lookup.now.positioning ≡ false }
    requires four { lookup_type_of indexed.now.lookup.now.table.now indexed.now.lookup.now.place ≡ 4 }
    ensures value { result ≡ Seeking.all_sought indexed.now.lookup.now buffer.now at left }
    ensures last { IfSome result (λ s. IfSome s.found (λ m. m.last < length buffer.now.items)) }
    ensures far { IfSome result (λ s. IfSome s.found (λ m. m.ligature < 2 ^ 37)) }
{
    let glyph = buffer.items().at(at).glyph_id;
    let count = subtable_count(indexed.lookup.table, indexed.lookup.place);
    let mut sought = SoughtLigature { left, found: None };
    let mut i = indexed.next_begun(0, count, glyph);
    while i < count {
        match sought_at(indexed, buffer, at, i, sought) {
            Some(more) => sought = more,
            None => return None,
        }
        i = indexed.next_begun(i + 1, count, glyph);
    }
    Some(sought)
}

/// Makes the ligature that was found, if one was.
pub fn make_found(
    lookup: &Lookup<'_>,
    buffer: &mut GapBuffer,
    spot: Spot,
    found: Option<Components>,
) -> Option<Spot>
    requires inside { spot.at < length buffer.old.items }
    requires last { IfSome found (λ m. m.last < length buffer.old.items) }
    requires far { IfSome found (λ m. m.ligature < 2 ^ 37) }
    ensures made { buffer.new
        ≡ (option_map_or (ligature_made lookup.now spot buffer.old) found (unapplied buffer.old)).buffer }
    ensures next { result
        ≡ (option_map_or (ligature_made lookup.now spot buffer.old) found (unapplied buffer.old)).next }
{
    match found {
        Some(one) => make_ligature(lookup, buffer, spot, one),
        None => None,
    }
}
