//! A stage of substitution: lookups of a plan one after the other, in their order.
//!
//! Most lookups of a stage find no glyph of the text. What is stored of a lookup tells that at
//! once: then it is charged for its walk, and nothing of it is made ready. Only where a lookup
//! meets a glyph are the items taken over into a buffer that edits in linear time.
ghost use Rattle.std.specs.Prelude.{◌≡◌, ◌<◌, ◌≤◌, ◌^◌, ℕ, List, min, length, true, false, OnOk, IfOk, IsErrOf, IsOkUnless};
ghost use Rattle.std.specs.Option.{IfSome};
ghost use Rattle.shape_items.specs.Items.{Item};
ghost use Rattle.shape_buffer.specs.Outcome.{IsWithinLimit, Outcome, step};
ghost use Rattle.shape_buffer.specs.declared.buffer.error.ShapeError.TheVariants.{Length};
ghost use Rattle.layout_digests.specs.LigatureSets.{HoldSets};
ghost use Rattle.layout_digests.specs.Stored.{AreStored};
ghost use Rattle.layout_digests.specs.WholeRules.{HoldWholes};
ghost use Rattle.layout_matching.specs.declared.lookup.Lookup.{Lookup};
ghost use Rattle.layout_substitution.specs.Edits.{is_past};
ghost use Rattle.layout_context.specs.Digested.{HoldsGlyphs};
ghost use Rattle.layout_context.specs.Stages.{substituted};
ghost use Rattle.opentype_layout.specs.Lookups.{lookup_of, lookups_of, steps_work_by as work_by};
ghost use Rattle.opentype_layout.specs.Stage as Stages;

use crate::lookups::{LookupList, LookupTables, Stored, list_of, made_ready, stored_at};
use layout_buffer::{GapBuffer, ItemList};
use layout_context::meeting::is_unmet;
use layout_context::run_digest::{digest_for, renew};
use layout_context::stages::{Looked, look_up};
use layout_digests::{Digest, Head};
use layout_map::lookups::LookupMap;
use layout_matching::work::{PLAIN_WORK, STEP_WORK};
use layout_substitution::apply::Spot;
use shape_buffer::{ShapeError, hb_buffer_t, hb_glyph_info_t};
use std::alloc::Global;

/// The lookups of a stage: the tables that they read, where their list stands, what is stored of
/// them, and how a plan uses them.
#[derive(Clone, Copy)]
pub(crate) struct StageLookups<'a> {
    pub tables: LookupTables<'a>,
    pub list: LookupList,
    pub stored: Stored<'a>,
    pub maps: &'a [LookupMap],
}

/// How far a stage is: its next lookup, and what is left of what lookups may ask for.
#[derive(Clone, Copy)]
pub(crate) struct Progress {
    pub next: usize,
    pub left: usize,
}

/// What the subtables of a lookup cost at each item of a list, by its type.
#[inline(always)]
fn steps_work_by(head: &Head, random: bool) -> usize
    requires { head.now.subtables < 2 ^ 16 }
    ensures { result ≡ work_by head.now random }
{
    let count = (head.subtables as usize).max(1);
    let is_plain = match head.kind {
        1 | 2 => true,
        3 => !random,
        _ => false,
    };
    if is_plain {
        count * PLAIN_WORK
    } else {
        count * STEP_WORK
    }
}

/// What is left after a lookup that finds none of so many glyphs of a digest, or that can't be
/// paid; none of any other one.
#[inline(always)]
fn left_if_idle(
    stage: &StageLookups<'_>,
    map: &LookupMap,
    run: &Digest,
    count: usize,
    left: usize,
) -> Option<usize>
    requires { Stages.AreReady stage.now }
    ensures { IfSome result (λ rest. (items : List Item) → HoldsGlyphs run.now items
        → length items ≡ count → Stages.Skips stage.now.tables map.now items left rest) }
{
    let known = stored_at(stage.tables, stage.list, stage.stored, map.index);
    let Some(head) = known.head else {
        return Some(left);
    };
    let work = count.saturating_mul(steps_work_by(&head, map.random));
    if work <= left && run.may_share(&known.digest) {
        return None;
    }
    Some(left.saturating_sub(work))
}

/// Skips the lookups of a stage that find none of so many glyphs of a digest, from one on.
#[inline(never)]
fn skip_idle(stage: &StageLookups<'_>, from: Progress, run: &Digest, count: usize) -> Progress
    requires ready { Stages.AreReady stage.now }
    requires inside { from.next ≤ length stage.now.maps.now }
    ensures inside { result.next ≤ length stage.now.maps.now }
    ensures further { from.next ≤ result.next }
    ensures skipped { (items : List Item) → HoldsGlyphs run.now items → length items ≡ count
        → Stages.SkipsTo stage.now.tables stage.now.maps.now items from result }
{
    let mut left = from.left;
    for next in from.next..stage.maps.len() {
        match left_if_idle(stage, &stage.maps[next], run, count, left) {
            Some(rest) => left = rest,
            None => return Progress { next, left },
        }
    }
    Progress {
        next: stage.maps.len(),
        left,
    }
}

/// The same, unless the stage has one lookup alone: for that no digest is made.
#[inline(always)]
fn skip(stage: &StageLookups<'_>, from: Progress, run: &Digest, count: usize) -> Progress
    requires ready { Stages.AreReady stage.now }
    requires inside { from.next ≤ length stage.now.maps.now }
    ensures inside { result.next ≤ length stage.now.maps.now }
    ensures further { from.next ≤ result.next }
    ensures skipped { (items : List Item) → HoldsGlyphs run.now items → length items ≡ count
        → Stages.SkipsTo stage.now.tables stage.now.maps.now items from result }
{
    if stage.maps.len() < 2 {
        return from;
    }
    skip_idle(stage, from, run, count)
}

/// What is left after a lookup that meets no item; none of any other one.
#[inline(always)]
fn left_if_unmet(
    stage: &StageLookups<'_>,
    map: &LookupMap,
    infos: &[hb_glyph_info_t],
    left: usize,
) -> Option<usize>
    requires { Stages.AreReady stage.now }
    ensures { IfSome result (Stages.Skips stage.now.tables map.now infos.now left) }
{
    let known = stored_at(stage.tables, stage.list, stage.stored, map.index);
    let Some(head) = known.head else {
        return Some(left);
    };
    let named = made_ready(stage.tables, stage.stored, map, &known, &head);
    if is_unmet(&named, infos) {
        let work = infos.len().saturating_mul(steps_work_by(&head, map.random));
        return Some(left.saturating_sub(work));
    }
    None
}

/// The first lookup of a stage that meets an item of a buffer, if one does, and what is left after
/// those before it.
fn first_met(stage: &StageLookups<'_>, run: &Digest, buffer: &hb_buffer_t) -> Progress
    requires ready { Stages.AreReady stage.now }
    requires run { HoldsGlyphs run.now buffer.now.items }
    ensures inside { result.next ≤ length stage.now.maps.now }
    ensures skipped { Stages.SkipsTo stage.now.tables stage.now.maps.now buffer.now.items
        (record { next = 0; left = buffer.now.max_ops }) result }
{
    let first = Progress {
        next: 0,
        left: buffer.max_ops(),
    };
    let mut met = skip(stage, first, run, buffer.len());
    while met.next < stage.maps.len() {
        match left_if_unmet(stage, &stage.maps[met.next], buffer.infos(), met.left) {
            Some(left) => {
                let on = Progress {
                    next: met.next + 1,
                    left,
                };
                met = skip(stage, on, run, buffer.len());
            }
            None => return met,
        }
    }
    met
}

/// Applies a lookup of a stage, if the table has it.
#[tactic(auto, using(crate::proofs::StageLemmas::none_skips, crate::proofs::StageLemmas::one_made, crate::proofs::StageLemmas::one_past_limit))]
#[inline(always)]
fn apply_one(
    alloc: Global,
    stage: &StageLookups<'_>,
    map: &LookupMap,
    buffer: &mut GapBuffer,
    spot: Spot,
) -> Result<Looked, ShapeError>
    requires { Stages.AreReady stage.now }
    ensures ok { IfOk result (λ next. (ls : List Lookup) → Stages.made_by ls buffer.new next.spot
        ≡ Stages.made_by (Stages.after (lookup_of stage.now.tables map.now) ls) buffer.old spot) }
    ensures kept { IfOk result (λ next. next.is_kept ≡ true → buffer.new ≡ buffer.old) }
    ensures length { IsErrOf result Length → (ls : List Lookup)
        → is_past (Stages.made_by (Stages.after (lookup_of stage.now.tables map.now) ls) buffer.old spot)
        ≡ true }
{
    let known = stored_at(stage.tables, stage.list, stage.stored, map.index);
    let Some(head) = known.head else {
        return Ok(Looked {
            spot,
            is_kept: true,
        });
    };
    let named = made_ready(stage.tables, stage.stored, map, &known, &head);
    let sets = stage.stored.sets_of(map.index);
    let work = buffer
        .len()
        .saturating_mul(steps_work_by(&head, map.random));
    match look_up(alloc, &named, sets, work, buffer, spot) {
        Err(error) => Err(error),
        Ok(next) => Ok(next),
    }
}

/// Applies the lookups of a stage from one on, over a buffer that edits in linear time.
fn apply_from(
    alloc: Global,
    stage: &StageLookups<'_>,
    from: Progress,
    first: &Digest,
    buffer: &mut GapBuffer,
) -> Result<(), ShapeError>
    requires ready { Stages.AreReady stage.now }
    requires run { HoldsGlyphs first.now buffer.old.items }
    requires inside { from.next ≤ length stage.now.maps.now }
    ensures ok { OnOk result (buffer.new ≡ Stages.made_from stage.now.tables stage.now.maps.now from.next
        buffer.old (record { at = 0; random = 1; left = from.left; whole = 0 })) }
    ensures length { IsErrOf result Length
        → is_past (Stages.made_from stage.now.tables stage.now.maps.now from.next buffer.old
        (record { at = 0; random = 1; left = from.left; whole = 0 })) ≡ true }
{
    let mut spot = Spot {
        at: 0,
        random: 1,
        left: from.left,
        whole: 0,
    };
    let mut run = *first;
    let mut next = from.next;
    while next < stage.maps.len() {
        match apply_one(alloc, stage, &stage.maps[next], buffer, spot) {
            Err(error) => return Err(error),
            Ok(there) => {
                spot = there.spot;
                let rest = stage.maps.len() - next - 1;
                renew(&mut run, there.is_kept, rest, &buffer.items());
            }
        }
        next += 1;
        let left = spot.left;
        let on = skip(stage, Progress { next, left }, &run, buffer.len());
        next = on.next;
        spot.left = on.left;
    }
    buffer.set_max_ops(spot.left);
    Ok(())
}

/// Gives the buffer its items back, in one slice again.
fn put_back(walk: GapBuffer, buffer: &mut hb_buffer_t) -> Result<(), ShapeError>
    ensures ok { OnOk result (buffer.new ≡ walk) }
    ensures memory { IsOkUnless result ShapeError.Memory }
{
    let (edited, outcome) = walk.close();
    *buffer = edited;
    outcome
}

/// The same over a buffer, whose items are taken over and given back.
#[inline(never)]
fn apply_opened(
    alloc: Global,
    stage: &StageLookups<'_>,
    from: Progress,
    run: &Digest,
    buffer: &mut hb_buffer_t,
) -> Result<(), ShapeError>
    requires ready { Stages.AreReady stage.now }
    requires run { HoldsGlyphs run.now buffer.old.items }
    requires inside { from.next ≤ length stage.now.maps.now }
    ensures ok { OnOk result (buffer.new ≡ Stages.made_from stage.now.tables stage.now.maps.now from.next
        buffer.old (record { at = 0; random = 1; left = from.left; whole = 0 })) }
    ensures length { IsErrOf result Length
        → is_past (Stages.made_from stage.now.tables stage.now.maps.now from.next buffer.old
        (record { at = 0; random = 1; left = from.left; whole = 0 })) ≡ true }
{
    let mut walk = GapBuffer::open(alloc, buffer);
    match apply_from(alloc, stage, from, run, &mut walk) {
        Err(error) => {
            *buffer = walk.abandon();
            Err(error)
        }
        Ok(()) => put_back(walk, buffer),
    }
}

/// Refuses with `Length` if the list passes the limit of the run.
fn within_limit(buffer: &hb_buffer_t) -> Result<(), ShapeError>
    ensures ok { OnOk result (IsWithinLimit buffer.now) }
    ensures length { IsErrOf result Length → is_past buffer.now ≡ true }
{
    if buffer.length_limit() < buffer.len() {
        return Err(ShapeError::Length);
    }
    Ok(())
}

/// All lookups of a stage.
fn apply_stage(
    alloc: Global,
    stage: &StageLookups<'_>,
    buffer: &mut hb_buffer_t,
) -> Result<(), ShapeError>
    requires { Stages.AreReady stage.now }
    ensures ok { OnOk result (buffer.new ≡ Stages.made_from stage.now.tables stage.now.maps.now 0
        buffer.old (record { at = 0; random = 1; left = buffer.old.max_ops; whole = 0 })) }
    ensures length { IsErrOf result Length
        → is_past (Stages.made_from stage.now.tables stage.now.maps.now 0 buffer.old
        (record { at = 0; random = 1; left = buffer.old.max_ops; whole = 0 })) ≡ true }
{
    let run = digest_for(stage.maps.len(), &ItemList::of_slice(buffer.infos()));
    let met = first_met(stage, &run, buffer);
    if met.next < stage.maps.len() {
        return apply_opened(alloc, stage, met, &run, buffer);
    }
    buffer.set_max_ops(met.left);
    Ok(())
}

/// Applies the lookups of a stage of substitution, with what is stored of the table's. Refuses with
/// `Length` if the list passes the limit of the run, and with `Memory` if a growth of the list, or
/// of the places of a rule, was refused.
pub(crate) fn substitute_by(
    alloc: Global,
    tables: LookupTables<'_>,
    stored: Stored<'_>,
    maps: &[LookupMap],
    buffer: &mut hb_buffer_t,
) -> Result<(), ShapeError>
    requires within { IsWithinLimit buffer.old }
    requires kind { tables.positioning ≡ false }
    requires stored { AreStored tables.table.now false stored.firsts.now stored.lookups.now }
    requires sets { HoldSets tables.table.now stored.sets.now }
    requires wholes { HoldWholes tables.table.now false stored.wholes.now }
    ensures { Outcome (step (substituted (lookups_of tables.entry maps.now)))
        buffer.old buffer.new result }
{
    if maps.is_empty() {
        return Ok(());
    }
    let stage = StageLookups {
        tables,
        list: list_of(tables.table),
        stored,
        maps,
    };
    match apply_stage(alloc, &stage, buffer) {
        Err(error) => Err(error),
        Ok(()) => within_limit(buffer),
    }
}
