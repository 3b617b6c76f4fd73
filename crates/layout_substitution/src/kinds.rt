//! Lookups of kinds 1 to 4 at a place: of their subtables the first that applies.
ghost use Rattle.std.specs.Prelude.{◌≡◌, ◌<◌, ◌-◌, ◌^◌, length, true, None, IfOk, IsErrOf, OnOk};
ghost use Rattle.shape_items.specs.Buffer.{limit_of};
ghost use Rattle.shape_buffer.specs.Outcome.{IsWithinLimit};
ghost use Rattle.shape_buffer.specs.declared.buffer.error.ShapeError.TheVariants.{Length};
ghost use Rattle.layout_substitution.specs.Edits.{is_past};
ghost use Rattle.layout_substitution.specs.Kinds.{kind_applied, subtable_applied, lookup_applied};

use crate::alternate::apply_alternate;
use crate::apply::{Spot, apply_ligature, apply_multiple, apply_single};
use crate::singles::apply_singles;
use layout_buffer::GapBuffer;
use layout_matching::indexed::Indexed;
use layout_matching::lookup::Lookup;
use layout_tables::lookups::{LookupSubtable, lookup_type, subtable, subtable_count};
use shape_buffer::ShapeError;

/// A subtable of the lookup, by its kind.
#[tactic(auto, using(crate::proofs::KindLemmas::past_multiple))]
fn apply_kind(
    lookup: &Lookup<'_>,
    subtable: LookupSubtable,
    buffer: &mut GapBuffer,
    spot: Spot,
) -> Result<Option<Spot>, ShapeError>
    requires near { subtable.start < 2 ^ 35 }
    requires inside { spot.at < length buffer.old.items }
    ensures made { OnOk result (buffer.new ≡ (kind_applied lookup.now spot buffer.old subtable).buffer) }
    ensures next { IfOk result (λ next. next ≡ (kind_applied lookup.now spot buffer.old subtable).next) }
    ensures as_many { IfOk result (λ next. next ≡ None → length buffer.new.items ≡ length buffer.old.items) }
    ensures limit { IfOk result (λ next. next ≡ None → limit_of buffer.new ≡ limit_of buffer.old) }
    ensures length { IsErrOf result Length
        → is_past (kind_applied lookup.now spot buffer.old subtable).buffer ≡ true }
{
    match subtable.kind {
        1 => Ok(apply_single(lookup, subtable.start, buffer, spot)),
        2 => apply_multiple(lookup, subtable.start, buffer, spot),
        3 => Ok(apply_alternate(lookup, subtable.start, buffer, spot)),
        4 => Ok(apply_ligature(lookup, subtable.start, buffer, spot)),
        _ => Ok(None),
    }
}

/// Subtable `i` of the lookup.
#[tactic(auto, using(crate::proofs::OutLemmas::subtable_out))]
fn apply_subtable(
    indexed: &Indexed<'_>,
    i: u32,
    buffer: &mut GapBuffer,
    spot: Spot,
) -> Result<Option<Spot>, ShapeError>
    requires near { indexed.now.lookup.now.place < 2 ^ 17 }
    requires few { i < 2 ^ 16 }
    requires inside { spot.at < length buffer.old.items }
    ensures made { OnOk result (buffer.new ≡ (subtable_applied indexed.now.lookup.now i spot buffer.old).buffer) }
    ensures next { IfOk result (λ next. next ≡ (subtable_applied indexed.now.lookup.now i spot buffer.old).next) }
    ensures as_many { IfOk result (λ next. next ≡ None → length buffer.new.items ≡ length buffer.old.items) }
    ensures limit { IfOk result (λ next. next ≡ None → limit_of buffer.new ≡ limit_of buffer.old) }
    ensures length { IsErrOf result Length
        → is_past (subtable_applied indexed.now.lookup.now i spot buffer.old).buffer ≡ true }
{
    let lookup = indexed.lookup;
    if !lookup.positioning && !indexed.may_begin(i, buffer.items().at(spot.at).glyph_id) {
        return Ok(None);
    }
    match subtable(lookup.table, 7, lookup.place, i) {
        Some(subtable) => apply_kind(lookup, subtable, buffer, spot),
        None => Ok(None),
    }
}

/// The first subtable that applies, whatever the type of the lookup.
#[tactic(auto, using(crate::proofs::KindLemmas::subtables_past, crate::proofs::KindLemmas::subtables_end))]
#[inline(never)]
fn first_applied(
    indexed: &Indexed<'_>,
    buffer: &mut GapBuffer,
    spot: Spot,
) -> Result<Option<Spot>, ShapeError>
    requires near { indexed.now.lookup.now.place < 2 ^ 17 }
    requires inside { spot.at < length buffer.old.items }
    requires within { IsWithinLimit buffer.old }
    ensures made { OnOk result (buffer.new ≡ (lookup_applied indexed.now.lookup.now spot buffer.old).buffer) }
    ensures next { IfOk result (λ next. next ≡ (lookup_applied indexed.now.lookup.now spot buffer.old).next) }
    ensures length { IsErrOf result Length
        → is_past (lookup_applied indexed.now.lookup.now spot buffer.old).buffer ≡ true }
{
    for i in 0..subtable_count(indexed.lookup.table, indexed.lookup.place) {
        match apply_subtable(indexed, i, buffer, spot) {
            Err(error) => return Err(error),
            Ok(Some(next)) => return Ok(Some(next)),
            Ok(None) => {}
        }
    }
    Ok(None)
}

/// The first subtable that applies. A lookup of type 1 goes a shorter way.
#[tactic(auto, using(crate::proofs::SingleLemmas::singles_alone))]
#[inline(always)]
pub fn apply_lookup(
    indexed: &Indexed<'_>,
    buffer: &mut GapBuffer,
    spot: Spot,
) -> Result<Option<Spot>, ShapeError>
    requires near { indexed.now.lookup.now.place < 2 ^ 17 }
    requires inside { spot.at < length buffer.old.items }
    requires within { IsWithinLimit buffer.old }
    ensures made { OnOk result (buffer.new ≡ (lookup_applied indexed.now.lookup.now spot buffer.old).buffer) }
    ensures next { IfOk result (λ next. next ≡ (lookup_applied indexed.now.lookup.now spot buffer.old).next) }
    ensures length { IsErrOf result Length
        → is_past (lookup_applied indexed.now.lookup.now spot buffer.old).buffer ≡ true }
{
    let lookup = indexed.lookup;
    if lookup_type(lookup.table, lookup.place) == 1 {
        return Ok(apply_singles(lookup, buffer, spot));
    }
    first_applied(indexed, buffer, spot)
}
