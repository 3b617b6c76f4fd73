//! Lookups that apply others where a rule matches (kinds 5 and 6).
//!
//! Each nested lookup may change how many items there are: then the places of the glyphs that the
//! rule matched, and where it goes on, move along. A rule goes no further when it would hold more
//! than 64 glyphs, when what is left doesn't suffice for a nested lookup, or when the list passes
//! the limit of the run.
ghost use Rattle.std.specs.Prelude.{◌≡◌, ◌<◌, ◌-◌, ◌^◌, ◌+◌, length, true, false, OnOk, IfOk, IsErrOf};
ghost use Rattle.std.specs.Option.{IfSome};
ghost use Rattle.shape_buffer.specs.Outcome.{IsWithinLimit};
ghost use Rattle.shape_buffer.specs.declared.buffer.error.ShapeError.TheVariants.{Length};
ghost use Rattle.layout_matching.specs.Found as found_rules;
ghost use Rattle.layout_matching.specs.Loops.{times};
ghost use Rattle.layout_substitution.specs.Edits.{is_past};
ghost use Rattle.layout_context.specs.Nested;

use crate::progress::{Progress, at_end, nested_spot, passed_record, settle, stopped_record};
use crate::tried::{mark_tried, origin};
use layout_buffer::GapBuffer;
use layout_matching::found::{Found, find, is_context};
use layout_matching::indexed::Indexed;
use layout_matching::lookup::Lookup;
use layout_matching::nesting::{Target, places, target_at};
use layout_matching::rules::Rule;
use layout_matching::sought::seek_rule;
use layout_matching::work::{named_paid, nested_charged};
use layout_substitution::apply::Spot;
use layout_substitution::edits::{asks_for_concat, break_span, next_place};
use layout_substitution::kinds::apply_lookup;
use shape_buffer::ShapeError;
use std::alloc::Global;

/// A rule of a lookup.
#[derive(Clone, Copy)]
pub struct LookupRule<'a> {
    pub lookup: Lookup<'a>,
    pub rule: Rule,
}

/// What is left after a lookup was charged for at a place, and where it goes on if it was applied.
#[derive(Clone, Copy, PartialEq, Eq, Debug)]
pub struct Tried {
    pub left: usize,
    pub next: Option<Spot>,
}

pub(crate) fn with_left(spot: Spot, left: usize) -> Spot
    ensures { result ≡ record spot { left = left } }
{
    Spot {
        at: spot.at,
        random: spot.random,
        left,
        whole: spot.whole,
    }
}

/// Applies a lookup that a rule names, if what is left suffices for what it may try.
#[cycle(nesting)]
#[tactic(auto, using(crate::proofs::AttemptLemmas::named_context, crate::proofs::AttemptLemmas::named_unpaid, crate::proofs::AttemptLemmas::named_plain))]
fn apply_named(
    alloc: Global,
    level: u32,
    lookup: &Lookup<'_>,
    buffer: &mut GapBuffer,
    spot: Spot,
) -> Result<Option<Tried>, ShapeError>
    requires near { lookup.now.place < 2 ^ 17 }
    requires inside { spot.at < length buffer.old.items }
    ensures ok { IfOk result (λ t. record { buffer = buffer.new; tried = t }
        ≡ Nested.named_attempt level lookup.now spot buffer.old) }
    ensures length { IsErrOf result Length
        → is_past (Nested.named_attempt level lookup.now spot buffer.old).buffer ≡ true }
{
    let indexed = Indexed::unstored(&*lookup);
    if is_context(lookup) {
        return match named_paid(lookup, spot.left) {
            Some(left) => apply_sought(alloc, level, &indexed, buffer, with_left(spot, left)),
            None => Ok(None),
        };
    }
    let Some(left) = nested_charged(lookup, &buffer.items(), spot.at, spot.left) else {
        return Ok(None);
    };
    match apply_nested(alloc, level, &indexed, buffer, with_left(spot, left)) {
        Err(error) => Err(error),
        Ok(next) => Ok(Some(Tried { left, next })),
    }
}

/// Applies the lookup that a record names, if what is left suffices for what it may try.
#[cycle(nesting)]
#[tactic(auto, using(crate::proofs::AttemptLemmas::target_tried))]
fn apply_target(
    alloc: Global,
    level: u32,
    there: &Target<'_>,
    buffer: &mut GapBuffer,
    places: &mut Vec<usize>,
    progress: Progress,
) -> Result<Progress, ShapeError>
    requires near { there.now.lookup.place < 2 ^ 17 }
    requires index { there.now.index < 2 ^ 16 }
    requires r { progress.r < 2 ^ 16 }
    ensures ok { IfOk result (λ p. record {
      buffer = buffer.new;
      places = places.new.items;
      progress = p;
    }
        ≡ Nested.target_applied (Nested.nested_applied level)
        (record { buffer = buffer.old; places = places.old.items; progress = progress }) there.now) }
    ensures r { IfOk result (λ p. p.r ≡ progress.r + 1) }
    ensures length { IsErrOf result Length
        → is_past (Nested.target_applied (Nested.nested_applied level)
        (record { buffer = buffer.old; places = places.old.items; progress = progress })
        there.now).buffer ≡ true }
{
    let before = buffer.len();
    if before <= there.place {
        return Ok(passed_record(progress));
    }
    let spot = nested_spot(progress.spot, there.place, progress.spot.left);
    match apply_named(alloc, level, &there.lookup, buffer, spot) {
        Err(error) => Err(error),
        Ok(None) => Ok(stopped_record(progress)),
        Ok(Some(tried)) => {
            let after = buffer.len();
            let next = tried.next.unwrap_or(with_left(spot, tried.left));
            settle(there, before, after, places, next, progress)
        }
    }
}

/// Applies what the next record of a rule names.
#[cycle(nesting)]
fn apply_record(
    alloc: Global,
    level: u32,
    named: &LookupRule<'_>,
    buffer: &mut GapBuffer,
    places: &mut Vec<usize>,
    progress: Progress,
) -> Result<Progress, ShapeError>
    requires near { named.now.lookup.place < 2 ^ 17 }
    requires r { progress.r < 2 ^ 16 }
    ensures ok { IfOk result (λ p. record {
      buffer = buffer.new;
      places = places.new.items;
      progress = p;
    }
        ≡ Nested.record_step (Nested.nested_applied level) named.now
        (record { buffer = buffer.old; places = places.old.items; progress = progress })) }
    ensures r { IfOk result (λ p. p.r ≡ progress.r + 1) }
    ensures length { IsErrOf result Length
        → is_past (Nested.record_step (Nested.nested_applied level) named.now
        (record { buffer = buffer.old; places = places.old.items; progress = progress })).buffer
        ≡ true }
{
    if progress.stopped {
        return Ok(passed_record(progress));
    }
    match target_at(&named.lookup, &named.rule, places.as_slice(), progress.r) {
        Some(there) => apply_target(alloc, level, &there, buffer, places, progress),
        None => Ok(passed_record(progress)),
    }
}

/// Applies what the records of a rule name, one after the other.
#[cycle(nesting)]
#[tactic(auto, using(layout_matching::proofs::LoopLemmas::times_step, crate::proofs::NestedLemmas::past_records))]
fn apply_records(
    alloc: Global,
    level: u32,
    named: &LookupRule<'_>,
    buffer: &mut GapBuffer,
    places: &mut Vec<usize>,
    progress: Progress,
) -> Result<Progress, ShapeError>
    requires near { named.now.lookup.place < 2 ^ 17 }
    requires r { progress.r ≡ 0 }
    ensures ok { IfOk result (λ p. record {
      buffer = buffer.new;
      places = places.new.items;
      progress = p;
    }
        ≡ times (Nested.record_step (Nested.nested_applied level) named.now) named.now.rule.count
        (record { buffer = buffer.old; places = places.old.items; progress = progress })) }
    ensures length { IsErrOf result Length
        → is_past (times (Nested.record_step (Nested.nested_applied level) named.now)
        named.now.rule.count (record {
          buffer = buffer.old;
          places = places.old.items;
          progress =
              progress;
        })).buffer ≡ true }
{
    let mut progress = progress;
    for _i in 0..named.rule.count {
        match apply_record(alloc, level, named, buffer, places, progress) {
            Err(error) => return Err(error),
            Ok(next) => progress = next,
        }
    }
    Ok(progress)
}

/// Applies a rule that matches.
#[cycle(nesting)]
fn apply_rule(
    alloc: Global,
    level: u32,
    lookup: &Lookup<'_>,
    buffer: &mut GapBuffer,
    spot: Spot,
    found: Found,
) -> Result<Option<Spot>, ShapeError>
    requires near { lookup.now.place < 2 ^ 17 }
    requires inside { spot.at < length buffer.old.items }
    requires last { found.span.last < length buffer.old.items }
    ensures made { OnOk result (buffer.new
        ≡ (Nested.rule_applied
        (Nested.nested_applied level) lookup.now spot buffer.old found).buffer) }
    ensures next { IfOk result (λ next. next
        ≡ (Nested.rule_applied
        (Nested.nested_applied level) lookup.now spot buffer.old found).next) }
    ensures length { IsErrOf result Length
        → is_past (Nested.rule_applied
        (Nested.nested_applied level) lookup.now spot buffer.old found).buffer ≡ true }
{
    let named = LookupRule {
        lookup: *lookup,
        rule: found.rule,
    };
    let first = Progress {
        spot,
        end: next_place(buffer.len(), found.span.last),
        stopped: false,
        r: 0,
    };
    let mut all = places(alloc, lookup, &buffer.items(), spot.at, &found.rule)?;
    break_span(buffer, found.span.start, found.span.end);
    match apply_records(alloc, level, &named, buffer, &mut all, first) {
        Err(error) => Err(error),
        Ok(last) => Ok(Some(at_end(last))),
    }
}

/// Applies the rule of a lookup of context that matches at a place. A call of its own, so that the
/// path of the other lookups stays small.
#[cycle(nesting)]
#[inline(never)]
fn apply_context(
    alloc: Global,
    level: u32,
    indexed: &Indexed<'_>,
    buffer: &mut GapBuffer,
    spot: Spot,
) -> Result<Option<Spot>, ShapeError>
    requires near { indexed.now.lookup.now.place < 2 ^ 17 }
    requires inside { spot.at < length buffer.old.items }
    ensures made { OnOk result (buffer.new
        ≡ (Nested.first_rule_applied (Nested.nested_applied level) indexed.now.lookup.now spot
        (Nested.tried_marked indexed.now.lookup.now spot buffer.old)).buffer) }
    ensures next { IfOk result (λ next. next
        ≡ (Nested.first_rule_applied (Nested.nested_applied level) indexed.now.lookup.now spot
        (Nested.tried_marked indexed.now.lookup.now spot buffer.old)).next) }
    ensures length { IsErrOf result Length
        → is_past (Nested.first_rule_applied (Nested.nested_applied level) indexed.now.lookup.now spot
        (Nested.tried_marked indexed.now.lookup.now spot buffer.old)).buffer ≡ true }
{
    mark_tried(indexed.lookup, buffer, spot);
    match find(indexed, &buffer.items(), origin(spot, buffer)) {
        Some(found) => apply_rule(alloc, level, indexed.lookup, buffer, spot, found),
        None => Ok(None),
    }
}

/// Applies the rule that is found at a place, if there is one. Where the buffer asks what is unsafe
/// to concat, what was looked at before is marked first.
#[cycle(nesting)]
#[tactic(auto, using(crate::proofs::AttemptLemmas::found_applied))]
fn apply_found(
    alloc: Global,
    level: u32,
    indexed: &Indexed<'_>,
    buffer: &mut GapBuffer,
    spot: Spot,
    found: Option<Found>,
) -> Result<Option<Spot>, ShapeError>
    requires near { indexed.now.lookup.now.place < 2 ^ 17 }
    requires inside { spot.at < length buffer.old.items }
    requires context { found_rules.is_context indexed.now.lookup.now ≡ true }
    requires found { found ≡ found_rules.found_of indexed.now.lookup.now buffer.old.items
        (Nested.origin_of spot buffer.old) }
    requires last { IfSome found (λ f. f.span.last < length buffer.old.items) }
    ensures made { OnOk result (buffer.new
        ≡ (Nested.nested_applied level indexed.now.lookup.now spot buffer.old).buffer) }
    ensures next { IfOk result (λ next. next
        ≡ (Nested.nested_applied level indexed.now.lookup.now spot buffer.old).next) }
    ensures length { IsErrOf result Length
        → is_past (Nested.nested_applied level indexed.now.lookup.now spot buffer.old).buffer ≡ true }
{
    if level == 0 || asks_for_concat(buffer) || buffer.length_limit() < buffer.len() {
        return apply_nested(alloc, level, indexed, buffer, spot);
    }
    match found {
        Some(found) => apply_rule(alloc, level - 1, indexed.lookup, buffer, spot, found),
        None => Ok(None),
    }
}

/// Applies a lookup of context at a place, if what is left suffices for what is looked at. Its rule
/// is sought once.
#[cycle(nesting)]
#[inline(never)]
#[tactic(auto, using(crate::proofs::AttemptLemmas::sought_some, crate::proofs::AttemptLemmas::sought_none))]
pub(crate) fn apply_sought(
    alloc: Global,
    level: u32,
    indexed: &Indexed<'_>,
    buffer: &mut GapBuffer,
    spot: Spot,
) -> Result<Option<Tried>, ShapeError>
    requires near { indexed.now.lookup.now.place < 2 ^ 17 }
    requires inside { spot.at < length buffer.old.items }
    requires context { found_rules.is_context indexed.now.lookup.now ≡ true }
    ensures ok { IfOk result (λ t. record { buffer = buffer.new; tried = t }
        ≡ Nested.attempt level indexed.now.lookup.now spot buffer.old) }
    ensures length { IsErrOf result Length
        → is_past (Nested.attempt level indexed.now.lookup.now spot buffer.old).buffer ≡ true }
{
    let Some(sought) = seek_rule(indexed, &buffer.items(), origin(spot, buffer), spot.left) else {
        return Ok(None);
    };
    let left = sought.left;
    match apply_found(
        alloc,
        level,
        indexed,
        buffer,
        with_left(spot, left),
        sought.found,
    ) {
        Err(error) => Err(error),
        Ok(next) => Ok(Some(Tried { left, next })),
    }
}

/// Applies a lookup at a place, with so many levels of others that it may name. Returns where it
/// goes on, if it was applied. Refuses with `Length` if the list passes the limit of the run.
#[cycle(nesting)]
#[tactic(auto, using(crate::proofs::NestedLemmas::nested_none, crate::proofs::NestedLemmas::nested_past, crate::proofs::NestedLemmas::nested_outside, crate::proofs::NestedLemmas::nested_level))]
pub fn apply_nested(
    alloc: Global,
    level: u32,
    indexed: &Indexed<'_>,
    buffer: &mut GapBuffer,
    spot: Spot,
) -> Result<Option<Spot>, ShapeError>
    requires near { indexed.now.lookup.now.place < 2 ^ 17 }
    ensures made { OnOk result (buffer.new
        ≡ (Nested.nested_applied level indexed.now.lookup.now spot buffer.old).buffer) }
    ensures next { IfOk result (λ next. next
        ≡ (Nested.nested_applied level indexed.now.lookup.now spot buffer.old).next) }
    ensures length { IsErrOf result Length
        → is_past (Nested.nested_applied level indexed.now.lookup.now spot buffer.old).buffer ≡ true }
{
    if level == 0 || buffer.length_limit() < buffer.len() || buffer.len() <= spot.at {
        return Ok(None);
    }
    apply_level(alloc, level - 1, indexed, buffer, spot)
}

/// The same, where a level is left and the place is inside.
#[cycle(nesting)]
fn apply_level(
    alloc: Global,
    level: u32,
    indexed: &Indexed<'_>,
    buffer: &mut GapBuffer,
    spot: Spot,
) -> Result<Option<Spot>, ShapeError>
    requires near { indexed.now.lookup.now.place < 2 ^ 17 }
    requires inside { spot.at < length buffer.old.items }
    requires within { IsWithinLimit buffer.old }
    ensures made { OnOk result (buffer.new
        ≡ (Nested.level_applied (Nested.nested_applied level) indexed.now.lookup.now spot buffer.old).buffer) }
    ensures next { IfOk result (λ next. next
        ≡ (Nested.level_applied (Nested.nested_applied level) indexed.now.lookup.now spot buffer.old).next) }
    ensures length { IsErrOf result Length
        → is_past (Nested.level_applied
        (Nested.nested_applied level) indexed.now.lookup.now spot buffer.old).buffer ≡ true }
{
    if is_context(indexed.lookup) {
        return apply_context(alloc, level, indexed, buffer, spot);
    }
    apply_lookup(indexed, buffer, spot)
}
