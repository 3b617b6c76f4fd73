//! What is stored of the sets of ligatures of a table, once for a font: for each lookup those of
//! its first subtable.
ghost use Rattle.std.specs.Prelude.{◌≡◌, ◌<◌, ◌≤◌, ◌+◌, ◌^◌, ℕ, List, Some, length, OnOk, IfOk, IsOkUnless};
ghost use Rattle.std.specs.Option.{IfSome};
ghost use Rattle.layout_matching.specs.LigatureSets.{AreSets, IsSetFor, IsSetIn, first_start};
ghost use Rattle.layout_digests.specs.LigatureSets.{AreBelow};
ghost use Rattle.layout_digests.specs.LigatureSets as stored_rules;

use crate::whole_rules::glyphs_of;
use layout_matching::firsts::First;
use layout_matching::ligature_sets::{LigatureSet, StoredSets, stored_for};
use layout_matching::tally::charged;
use layout_tables::lookups::{lookup, lookup_count, lookup_type};
use layout_tables::offsets::offset16;
use shape_buffer::ShapeError;
use shape_font::bytes::u16_at;
use std::alloc::Global;

/// The type of lookups of ligatures.
const LIGATURE: u16 = 4;

/// From which glyph to which one the sets of a subtable go, by the Coverage table at a place. None
/// need be covered, and no other one is stored.
#[derive(Clone, Copy)]
struct Reach {
    first: u32,
    last: u32,
}

/// What the ends of a Coverage table say of that.
fn reach_of(table: &[u8], list: usize) -> Reach
    requires { list < 2 ^ 36 }
    ensures { result.last < 2 ^ 16 }
{
    let count = usize::from(u16_at(table, list + 2));
    let last = match u16_at(table, list) {
        1 => list + 2 + 2 * count,
        _ => list + 6 * count,
    };
    Reach {
        first: u32::from(u16_at(table, list + 4)),
        last: u32::from(u16_at(table, last)),
    }
}

/// What is stored of the set of a glyph in the subtable at `start`; nothing, if it isn't among
/// these.
fn set_among(
    table: &[u8],
    start: usize,
    covered: &First,
    glyph: u32,
    left: &mut usize,
) -> Option<LigatureSet>
    requires { start < 2 ^ 35 }
    ensures { IfSome result (IsSetIn table.now start glyph) }
{
    if covered.has(glyph) {
        stored_for(table, start, glyph, left)
    } else {
        None
    }
}

/// Stores one glyph more, with its set, if it has one.
fn add_glyph(stored: &mut StoredSets, set: Option<LigatureSet>) -> Result<(), ShapeError>
    requires { length stored.old.sets.items < 2 ^ 16 }
    ensures first { OnOk result (stored.new.first ≡ stored.old.first) }
    ensures below { OnOk result (AreBelow stored.old → AreBelow stored.new) }
    ensures held { OnOk result ((t : List ℕ) (place : ℕ) → AreBelow stored.old
        → AreSets t place stored.old
        → IfSome set (IsSetFor t place (stored.old.first + length stored.old.numbers.items))
        → AreSets t place stored.new) }
    ensures count { OnOk result (length stored.new.numbers.items
        ≡ length stored.old.numbers.items + 1) }
    ensures few { OnOk result (length stored.new.sets.items ≤ length stored.old.sets.items + 1) }
    ensures memory { IsOkUnless result ShapeError.Memory }
{
    let Some(set) = set else {
        stored.numbers.push(None)?;
        return Ok(());
    };
    let number = stored.sets.len() as u16;
    stored.numbers.push(Some(number))?;
    stored.sets.push(set)?;
    Ok(())
}

/// What is stored of the sets of the subtable at `start`, the first one of a lookup, of those
/// before too much was read.
fn sets_of(
    alloc: Global,
    table: &[u8],
    start: usize,
    list: usize,
    left: &mut usize,
) -> Result<StoredSets, ShapeError>
    requires start { start < 2 ^ 35 }
    requires list { list < 2 ^ 36 }
    ensures ok { IfOk result (λ stored. (place : ℕ) → first_start table.now place ≡ Some start
        → AreSets table.now place stored) }
    ensures memory { IsOkUnless result ShapeError.Memory }
{
    let reach = reach_of(table, list);
    let covered = glyphs_of(table, Some(list), left);
    let mut stored = StoredSets {
        first: reach.first,
        numbers: Vec::new(alloc),
        sets: Vec::new(alloc),
    };
    for i in 0..(reach.last + 1).saturating_sub(reach.first) {
        let Some(rest) = charged(1, *left) else {
            return Ok(stored);
        };
        *left = rest;
        let set = set_among(table, start, &covered, reach.first + i, left);
        add_glyph(&mut stored, set)?;
    }
    Ok(stored)
}

/// The same of the first subtable of a lookup; none, if the lookup is of another type.
#[tactic(auto, using(crate::proofs::LigatureSetLemmas::first_sets))]
fn sets_at(
    alloc: Global,
    table: &[u8],
    index: u16,
    left: &mut usize,
) -> Result<StoredSets, ShapeError>
    ensures ok { IfOk result (λ stored. stored_rules.AreSetsAt table.now index stored) }
    ensures memory { IsOkUnless result ShapeError.Memory }
{
    let Some(place) = lookup(table, index) else {
        return Ok(StoredSets::none(alloc));
    };
    if lookup_type(table, place) != LIGATURE {
        return Ok(StoredSets::none(alloc));
    }
    let Some(start) = offset16(table, place, place + 6) else {
        return Ok(StoredSets::none(alloc));
    };
    match offset16(table, start, start + 2) {
        Some(list) => sets_of(alloc, table, start, list, left),
        None => Ok(StoredSets::none(alloc)),
    }
}

/// What is stored of the sets of ligatures of each lookup of `GSUB`. Takes a step for each entry of
/// a Coverage table, each glyph between its first and its last one, each set and each ligature, and
/// no more steps than the bytes of the table, and one for each lookup; a glyph is searched for in
/// the Coverage in its step. Refuses with `Memory` if a growth was refused.
#[tactic(auto, using(crate::proofs::LigatureSetLemmas::one_lookup))]
pub fn stored_sets(alloc: Global, table: &[u8]) -> Result<Vec<StoredSets>, ShapeError>
    ensures ok { IfOk result (λ all. stored_rules.HoldSets table.now all.items) }
    ensures memory { IsOkUnless result ShapeError.Memory }
{
    let mut left = table.len();
    let mut all = Vec::new(alloc);
    for index in 0..lookup_count(table) {
        let sets = sets_at(alloc, table, index as u16, &mut left)?;
        all.push(sets)?;
    }
    Ok(all)
}
