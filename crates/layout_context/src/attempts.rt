//! A lookup at a place of its walk, charged for what it may try there.
ghost use Rattle.std.specs.Prelude.{◌≡◌, ◌<◌, ◌^◌, length, true, false, IfOk, IsErrOf};
ghost use Rattle.shape_buffer.specs.Outcome.{IsWithinLimit};
ghost use Rattle.shape_buffer.specs.declared.buffer.error.ShapeError.TheVariants.{Length};
ghost use Rattle.layout_matching.specs.Found as found_rules;
ghost use Rattle.layout_substitution.specs.Edits.{asks_for_concat as is_concat_asked, is_past};
ghost use Rattle.layout_tables.specs.Lookups.{lookup_type_of};
ghost use Rattle.layout_context.specs.Nested;

use crate::nested::{Tried, apply_nested, apply_sought, with_left};
use layout_buffer::GapBuffer;
use layout_matching::indexed::Indexed;
use layout_matching::lookup::Lookup;
use layout_matching::work::lookup_charged;
use layout_substitution::apply::Spot;
use layout_substitution::edits::asks_for_concat;
use layout_substitution::ligature_sought::{make_found, seek_ligature};
use layout_tables::lookups::lookup_type;
use shape_buffer::ShapeError;
use std::alloc::Global;

/// Whether a lookup at a place is one of ligatures that is gone over once: nothing is marked that
/// it looked at before.
#[inline(always)]
fn is_sought_once(level: u32, lookup: &Lookup<'_>, buffer: &GapBuffer) -> bool
    requires near { lookup.now.place < 2 ^ 17 }
    ensures some { result ≡ true → 0 < level }
    ensures four { result ≡ true → lookup_type_of lookup.now.table.now lookup.now.place ≡ 4 }
    ensures substitution { result ≡ true → lookup.now.positioning ≡ false }
    ensures unasked { result ≡ true → is_concat_asked buffer.now ≡ false }
    ensures within { result ≡ true → IsWithinLimit buffer.now }
{
    lookup_type(lookup.table, lookup.place) == 4
        && 0 < level
        && !lookup.positioning
        && !asks_for_concat(buffer)
        && buffer.len() <= buffer.length_limit()
}

/// Applies a lookup of ligatures at a place of its walk, if what is left suffices for what it may
/// try there.
#[tactic(auto, using(crate::proofs::OnceLemmas::once_made))]
#[inline(never)]
fn apply_ligatures(
    level: u32,
    indexed: &Indexed<'_>,
    buffer: &mut GapBuffer,
    spot: Spot,
) -> Option<Tried>
    requires near { indexed.now.lookup.now.place < 2 ^ 17 }
    requires inside { spot.at < length buffer.old.items }
    requires some { 0 < level }
    requires four { lookup_type_of indexed.now.lookup.now.table.now indexed.now.lookup.now.place ≡ 4 }
    requires substitution { indexed.now.lookup.now.positioning ≡ false }
    requires unasked { is_concat_asked buffer.old ≡ false }
    requires within { IsWithinLimit buffer.old }
    requires plain { found_rules.is_context indexed.now.lookup.now ≡ false }
    ensures { record { buffer = buffer.new; tried = result }
        ≡ Nested.place_attempt level indexed.now.lookup.now spot buffer.old }
{
    let Some(sought) = seek_ligature(indexed, buffer, spot.at, spot.left) else {
        return None;
    };
    let left = sought.left;
    let next = make_found(indexed.lookup, buffer, with_left(spot, left), sought.found);
    Some(Tried { left, next })
}

/// Applies a lookup at a place of its walk, if what is left suffices for what it may try there. The
/// walk says whether it is one of context.
#[tactic(auto, using(crate::proofs::AttemptLemmas::place_context, crate::proofs::AttemptLemmas::place_plain))]
pub fn apply_charged(
    alloc: Global,
    level: u32,
    indexed: &Indexed<'_>,
    is_context: bool,
    buffer: &mut GapBuffer,
    spot: Spot,
) -> Result<Option<Tried>, ShapeError>
    requires near { indexed.now.lookup.now.place < 2 ^ 17 }
    requires inside { spot.at < length buffer.old.items }
    requires context { is_context ≡ found_rules.is_context indexed.now.lookup.now }
    ensures ok { IfOk result (λ t. record { buffer = buffer.new; tried = t }
        ≡ Nested.place_attempt level indexed.now.lookup.now spot buffer.old) }
    ensures length { IsErrOf result Length
        → is_past (Nested.place_attempt level indexed.now.lookup.now spot buffer.old).buffer ≡ true }
{
    if is_context {
        return apply_sought(alloc, level, indexed, buffer, spot);
    }
    if is_sought_once(level, indexed.lookup, buffer) {
        return Ok(apply_ligatures(level, indexed, buffer, spot));
    }
    let Some(left) = lookup_charged(indexed, &buffer.items(), spot.at, spot.left) else {
        return Ok(None);
    };
    match apply_nested(alloc, level, indexed, buffer, with_left(spot, left)) {
        Err(error) => Err(error),
        Ok(next) => Ok(Some(Tried { left, next })),
    }
}
