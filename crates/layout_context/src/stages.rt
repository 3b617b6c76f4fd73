//! Lookups over a buffer, nested ones included, and stages of lookups.
ghost use Rattle.std.specs.Prelude.{◌≡◌, ℕ, ◌<◌, ◌≤◌, ◌-◌, ◌^◌, None, length, true, false, IfOk, IsErrOf};
ghost use Rattle.std.specs.Option.{ForSome, unwrap_or};
ghost use Rattle.shape_buffer.specs.declared.buffer.error.ShapeError.TheVariants.{Length};
ghost use Rattle.layout_matching.specs.Found as found_rules;
ghost use Rattle.layout_matching.specs.Loops.{times};
ghost use Rattle.layout_matching.specs.LigatureSets.{AreSets};
ghost use Rattle.layout_matching.specs.Skipping.{is_on};
ghost use Rattle.layout_matching.specs.Work.{walk_work};
ghost use Rattle.layout_substitution.specs.Edits.{asks_for_concat as is_concat_asked, is_inside, is_past, item_at};
ghost use Rattle.layout_context.specs.Nested.{nested_applied};
ghost use Rattle.layout_context.specs.Stages;
ghost use Rattle.layout_context.specs.Digested.{IsDigested};

use crate::attempts::apply_charged;
use crate::meeting::unmet;
use crate::nested::{Tried, with_left};
use crate::reverse::{is_reverse, reverse};
use layout_buffer::GapBuffer;
use layout_digests::Digested;
use layout_matching::found::is_context;
use layout_matching::indexed::Indexed;
use layout_matching::ligature_sets::StoredSets;
use layout_substitution::apply::Spot;
use layout_substitution::edits::asks_for_concat;
use shape_buffer::ShapeError;
use std::alloc::Global;

/// Where a lookup goes on, and whether it is known to have left the buffer as it was.
#[derive(Clone, Copy)]
pub struct Looked {
    pub spot: Spot,
    pub is_kept: bool,
}

fn next_spot(spot: Spot, count: usize) -> Spot
    requires { spot.at < count }
    ensures { result ≡ Stages.next_spot spot }
{
    let mut next = spot;
    next.at += 1;
    next
}

/// Where a lookup goes on that was tried at a place. One that wasn't applied goes on at the next.
#[inline(always)]
fn gone_on(tried: Tried, next: Spot) -> Looked
    ensures spot { result.spot ≡ unwrap_or tried.next (record next { left = tried.left }) }
    ensures kept { result.is_kept ≡ true → tried.next ≡ None }
{
    match tried.next {
        Some(spot) => Looked {
            spot,
            is_kept: false,
        },
        None => Looked {
            spot: with_left(next, tried.left),
            is_kept: true,
        },
    }
}

/// Whether two steps one after the other left the buffer as it was.
#[inline(always)]
fn both_kept(before: bool, now: bool) -> bool
    ensures before { result ≡ true → before ≡ true }
    ensures now { result ≡ true → now ≡ true }
{
    before && now
}

/// Applies the lookup at one place, if what is left suffices for what it may try there. Else
/// nothing is left.
#[tactic(auto, using(crate::proofs::AttemptLemmas::walk_tried, crate::proofs::KeptLemmas::attempt_unpaid, crate::proofs::KeptLemmas::attempt_kept))]
fn try_at(
    alloc: Global,
    levels: u32,
    indexed: &Indexed<'_>,
    is_context: bool,
    buffer: &mut GapBuffer,
    spot: Spot,
) -> Result<Looked, ShapeError>
    requires near { indexed.now.lookup.now.place < 2 ^ 17 }
    requires inside { spot.at < length buffer.old.items }
    requires context { is_context ≡ found_rules.is_context indexed.now.lookup.now }
    ensures ok { IfOk result (λ next. record { buffer = buffer.new; spot = next.spot }
        ≡ Stages.tried (nested_applied levels indexed.now.lookup.now) indexed.now.lookup.now
        (record { buffer = buffer.old; spot = spot })) }
    ensures kept { IfOk result (λ next. next.is_kept ≡ true → is_concat_asked buffer.old ≡ false
        → buffer.new ≡ buffer.old) }
    ensures length { IsErrOf result Length
        → is_past (Stages.tried (nested_applied levels indexed.now.lookup.now) indexed.now.lookup.now
        (record { buffer = buffer.old; spot = spot })).buffer ≡ true }
{
    let next = next_spot(spot, buffer.len());
    match apply_charged(alloc, levels, indexed, is_context, buffer, spot) {
        Err(error) => Err(error),
        Ok(None) => Ok(Looked {
            spot: with_left(next, 0),
            is_kept: true,
        }),
        Ok(Some(tried)) => Ok(gone_on(tried, next)),
    }
}

/// Applies the lookup at an item that it is on for, in a list that isn't past its limit.
#[tactic(auto, using(crate::proofs::DigestLemmas::step_on))]
fn step_met(
    alloc: Global,
    levels: u32,
    indexed: &Indexed<'_>,
    is_context: bool,
    buffer: &mut GapBuffer,
    spot: Spot,
) -> Result<Looked, ShapeError>
    requires near { indexed.now.lookup.now.place < 2 ^ 17 }
    requires context { is_context ≡ found_rules.is_context indexed.now.lookup.now }
    requires within { is_past buffer.old ≡ false }
    requires inside { is_inside spot.at buffer.old ≡ true }
    requires on { is_on indexed.now.lookup.now (item_at buffer.old spot.at) ≡ true }
    ensures ok { IfOk result (λ next. record { buffer = buffer.new; spot = next.spot }
        ≡ Stages.lookup_step (nested_applied levels indexed.now.lookup.now) indexed.now.lookup.now
        (record { buffer = buffer.old; spot = spot })) }
    ensures kept { IfOk result (λ next. next.is_kept ≡ true → is_concat_asked buffer.old ≡ false
        → buffer.new ≡ buffer.old) }
    ensures length { IsErrOf result Length
        → is_past (Stages.lookup_step (nested_applied levels indexed.now.lookup.now) indexed.now.lookup.now
        (record { buffer = buffer.old; spot = spot })).buffer ≡ true }
{
    try_at(alloc, levels, indexed, is_context, buffer, spot)
}

/// Where a walk stands after some steps, and whether the lookup meets the item there.
#[derive(Clone, Copy)]
struct Passed {
    spot: Spot,
    steps: usize,
    is_met: bool,
}

/// Goes on over items that the lookup doesn't meet, in at most so many steps, as far as they are
/// stored in one piece. Where the list is past its limit, or ends, no step does anything.
fn pass_over(named: &Digested<'_>, buffer: &GapBuffer, spot: Spot, most: usize) -> Passed
    requires said { IsDigested named.now }
    ensures few { result.steps ≤ most }
    ensures passed { (levels : ℕ) → record { buffer = buffer.now; spot = result.spot }
        ≡ times (Stages.lookup_step (nested_applied levels named.now.lookup) named.now.lookup)
        result.steps (record { buffer = buffer.now; spot = spot }) }
    ensures more { result.is_met ≡ true → result.steps < most }
    ensures within { result.is_met ≡ true → is_past buffer.now ≡ false }
    ensures inside { result.is_met ≡ true → is_inside result.spot.at buffer.now ≡ true }
    ensures on { result.is_met ≡ true
        → is_on named.now.lookup (item_at buffer.now result.spot.at) ≡ true }
    ensures further { result.is_met ≡ false → 0 < most → 0 < result.steps }
{
    let items = buffer.items();
    if buffer.length_limit() < items.len() || items.len() <= spot.at {
        return Passed {
            spot,
            steps: most,
            is_met: false,
        };
    }
    let piece = items.piece(spot.at);
    let count = most.min(piece.len());
    let steps = unmet(named, piece, count);
    let mut next = spot;
    next.at += steps;
    Passed {
        spot: next,
        steps,
        is_met: steps < count,
    }
}

/// Goes over a buffer from its first item on. A call of its own, so that what its loop reads stays
/// in registers.
#[inline(never)]
fn walk(
    alloc: Global,
    levels: u32,
    named: &Digested<'_>,
    sets: Option<&StoredSets>,
    buffer: &mut GapBuffer,
    spot: Spot,
) -> Result<Looked, ShapeError>
    requires said { IsDigested named.now }
    requires sets { ForSome sets
        (λ s. AreSets named.now.lookup.table.now named.now.lookup.place s.now) }
    ensures ok { IfOk result (λ next. record { buffer = buffer.new; spot = next.spot }
        ≡ Stages.walked (nested_applied levels named.now.lookup) named.now.lookup
        (record { buffer = buffer.old; spot = spot })) }
    ensures kept { IfOk result (λ next. next.is_kept ≡ true → buffer.new ≡ buffer.old) }
    ensures length { IsErrOf result Length
        → is_past (Stages.walked (nested_applied levels named.now.lookup) named.now.lookup
        (record { buffer = buffer.old; spot = spot })).buffer ≡ true }
{
    let count = buffer.len();
    let indexed = Indexed::with_sets(&named.lookup, named.firsts, sets);
    let is_context = is_context(&named.lookup);
    let mut is_kept = !asks_for_concat(buffer);
    let mut spot = Spot {
        at: 0,
        random: spot.random,
        left: spot.left,
        whole: count,
    };
    let mut done = 0;
    while done < count {
        let passed = pass_over(named, buffer, spot, count - done);
        spot = passed.spot;
        done += passed.steps;
        if passed.is_met {
            match step_met(alloc, levels, &indexed, is_context, buffer, spot) {
                Err(error) => return Err(error),
                Ok(next) => {
                    spot = next.spot;
                    is_kept = both_kept(is_kept, next.is_kept);
                }
            }
            done += 1;
        }
    }
    Ok(Looked { spot, is_kept })
}

/// Goes over a buffer, forwards or backwards.
fn go_over(
    alloc: Global,
    levels: u32,
    named: &Digested<'_>,
    sets: Option<&StoredSets>,
    buffer: &mut GapBuffer,
    spot: Spot,
) -> Result<Looked, ShapeError>
    requires said { IsDigested named.now }
    requires sets { ForSome sets
        (λ s. AreSets named.now.lookup.table.now named.now.lookup.place s.now) }
    ensures ok { IfOk result (λ next. record { buffer = buffer.new; spot = next.spot }
        ≡ Stages.gone_over levels named.now.lookup (record { buffer = buffer.old; spot = spot })) }
    ensures kept { IfOk result (λ next. next.is_kept ≡ true → buffer.new ≡ buffer.old) }
    ensures length { IsErrOf result Length
        → is_past (Stages.gone_over levels named.now.lookup
        (record { buffer = buffer.old; spot = spot })).buffer ≡ true }
{
    if is_reverse(&named.lookup) {
        let left = reverse(&named.lookup, buffer, spot.left);
        return Ok(Looked {
            spot: with_left(spot, left),
            is_kept: false,
        });
    }
    walk(alloc, levels, named, sets, buffer, spot)
}

/// What is left after a walk that costs so much was charged for.
fn charge_walk(work: usize, spot: Spot) -> Spot
    ensures { result ≡ record spot { left = spot.left - work } }
{
    with_left(spot, spot.left.saturating_sub(work))
}

/// A lookup over the text, and 64 levels of others that it names.
fn levels() -> u32
    ensures { result ≡ Stages.most_levels }
{
    65
}

/// Goes over a buffer for one lookup of a stage, if what is left suffices for the walk, which costs
/// `work`, and returns where it ended. `sets` are what is stored of its sets of ligatures; none need
/// be. Refuses with `Length` if the list passes the limit of the run, and with `Memory` if a growth
/// of the list, or of the places of a rule, was refused.
#[tactic(auto, using(crate::proofs::DigestLemmas::looked_paid, crate::proofs::DigestLemmas::looked_unpaid))]
pub fn look_up(
    alloc: Global,
    named: &Digested<'_>,
    sets: Option<&StoredSets>,
    work: usize,
    buffer: &mut GapBuffer,
    spot: Spot,
) -> Result<Looked, ShapeError>
    requires said { IsDigested named.now }
    requires sets { ForSome sets
        (λ s. AreSets named.now.lookup.table.now named.now.lookup.place s.now) }
    requires work { work ≡ walk_work named.now.lookup (length buffer.old.items) }
    ensures ok { IfOk result (λ next. record { buffer = buffer.new; spot = next.spot }
        ≡ Stages.looked_up Stages.most_levels named.now.lookup
        (record { buffer = buffer.old; spot = spot })) }
    ensures kept { IfOk result (λ next. next.is_kept ≡ true → buffer.new ≡ buffer.old) }
    ensures length { IsErrOf result Length
        → is_past (Stages.looked_up Stages.most_levels named.now.lookup
        (record { buffer = buffer.old; spot = spot })).buffer ≡ true }
{
    let paid = charge_walk(work, spot);
    if spot.left < work {
        return Ok(Looked {
            spot: paid,
            is_kept: true,
        });
    }
    go_over(alloc, levels(), named, sets, buffer, paid)
}
