//! Carets of a line of several runs. They stand in the order of the text, and jump where its
//! direction changes.
//!
//! Each run has the carets of `shape_carets`, from where it begins on. Where the text of one run
//! ends and that of another begins, the caret is that of the latter: at the leading edge of the
//! character after it. So offsets rise over the line, and `caret_of_offset` and `offset_of_x` of
//! `shape_carets` take its carets.
#![tactic(auto)]

ghost use Rattle.std.specs.Prelude.{◌≡◌, ℕ, ◌<◌, ◌≤◌, ◌++◌, Bool, List, length, map, reverse};
ghost use Rattle.std.specs.Prelude.{slice_get, slice_index, IfOk, OnOk};
ghost use Rattle.std.specs.List.Sorted.{IsNonDecreasing};
ghost use Rattle.shape_carets.specs.Carets.{carets_of};
ghost use Rattle.shape_items.specs.declared.clusters.glyph_clusters.GlyphCluster.{GlyphCluster};
ghost use Rattle.line_carets.specs.Laws.{ClicksReturn, OffsetsOfLinesRise};
ghost use Rattle.line_carets.specs.LineCarets as places;

pub mod worked;

use shape_buffer::buffer::{Direction, GlyphCluster, ShapeError};
use shape_carets::{Caret, carets};
use shape_common::wrapping::sum;
use std::alloc::{AllocError, Global};
use text_lines::{Glyph, TextLine, TextRun};

/// A glyph as a cluster: carets ask where its text begins, and how far it moves the pen.
fn cluster_of(glyph: &Glyph) -> GlyphCluster
    ensures { result ≡ places.cluster_of glyph.now }
{
    GlyphCluster {
        cluster: glyph.cluster,
        start: 0,
        end: 0,
        advance: glyph.x_advance,
        unsafe_to_break: false,
    }
}

/// The glyphs of a run in the order of its text.
fn clusters_of(alloc: Global, run: &TextRun) -> Result<Vec<GlyphCluster>, AllocError>
    ensures { IfOk result (λ clusters. clusters.items ≡ places.clusters_of run.now) }
{
    let mut clusters = Vec::new(alloc);
    for place in 0..run.glyphs.len() {
        clusters.push(cluster_of(&run.glyphs[place]))?;
    }
    if run.level % 2 == 1 {
        clusters.reverse();
    }
    Ok(clusters)
}

/// The first place of a list that rises whose number isn't below this one, found by halving.
fn first_from(stops: &[u32], offset: u32) -> usize
    requires { IsNonDecreasing stops.now }
    ensures within { result ≤ length stops.now }
    ensures below { (k : ℕ) → k < result → slice_index stops.now k < offset }
    ensures reached { (k : ℕ) → result ≤ k → k < length stops.now
        → offset ≤ slice_index stops.now k }
{
    stops.partition_point(|stop| *stop < offset)
}

/// The stops inside a text from an offset up to another. Its carets are the same by these as by
/// all, so that a line with many runs doesn't go over all stops for each.
fn stops_in(stops: &[u32], start: u32, end: u32) -> &[u32]
    requires { IsNonDecreasing stops.now }
    ensures rise { IsNonDecreasing result.now }
    ensures same { (backward : Bool) (clusters : List GlyphCluster)
        → carets_of backward start end result.now clusters
        ≡ carets_of backward start end stops.now clusters }
{
    let first = first_from(stops, start);
    let last = first_from(stops, end).max(first);
    &stops[first..last]
}

/// The carets of a run, seen from its left end, in the order of its text. `stops` are as in
/// [`carets`](shape_carets::caret::carets): where a caret may stand inside a cluster. Refuses with
/// `Length` if an offset is 2^32 or more, and with `Memory` if a growth was refused.
pub fn run_carets(alloc: Global, run: &TextRun, stops: &[u32]) -> Result<Vec<Caret>, ShapeError>
    requires { IsNonDecreasing stops.now }
    ensures { IfOk result (λ carets. carets.items ≡ places.carets_of_run stops.now run.now) }
{
    let (Ok(start), Ok(end)) = (u32::try_from(run.start), u32::try_from(run.end)) else {
        return Err(ShapeError::Length);
    };
    let direction = if run.level % 2 == 1 {
        Direction::RightToLeft
    } else {
        Direction::LeftToRight
    };
    let clusters = clusters_of(alloc, run)?;
    carets(
        alloc,
        &clusters,
        direction,
        start,
        end,
        stops_in(stops, start, end),
    )
}

/// Adds carets of a run that begins at x.
fn add_moved(all: &mut Vec<Caret>, carets: &[Caret], x: i32) -> Result<(), AllocError>
    ensures { OnOk result (all.new.items ≡ all.old.items ++ map (places.moved x) carets.now) }
{
    for place in 0..carets.len() {
        let caret = carets[place];
        all.push(Caret {
            offset: caret.offset,
            x: sum(caret.x, x),
        })?;
    }
    Ok(())
}

/// Where a run begins, if that is within 32 bits. Refuses with `Length` if not.
fn start_of(run: &TextRun) -> Result<i32, ShapeError>
    ensures { IfOk result (λ x. x ≡ run.now.x) }
{
    match i32::try_from(run.x) {
        Ok(x) => Ok(x),
        Err(_) => Err(ShapeError::Length),
    }
}

/// Adds the carets of a run, seen from where the line begins.
fn add_carets(
    alloc: Global,
    all: &mut Vec<Caret>,
    run: &TextRun,
    stops: &[u32],
) -> Result<(), ShapeError>
    requires { IsNonDecreasing stops.now }
    ensures { OnOk result (all.new.items ≡ all.old.items
        ++ map (places.moved run.now.x) (places.carets_of_run stops.now run.now)) }
{
    let x = start_of(run)?;
    let carets = run_carets(alloc, run, stops)?;
    Ok(add_moved(all, &carets, x)?)
}

/// Adds the carets of the run at a place, if there is one.
fn add_run(
    alloc: Global,
    all: &mut Vec<Caret>,
    runs: &[TextRun],
    place: usize,
    stops: &[u32],
) -> Result<(), ShapeError>
    requires { IsNonDecreasing stops.now }
    ensures { OnOk result (all.new.items
        ≡ all.old.items ++ places.carets_if stops.now (slice_get runs.now place)) }
{
    let Some(run) = runs.get(place) else {
        return Ok(());
    };
    add_carets(alloc, all, run, stops)
}

/// Whether a caret stands before those that are kept, the last of which is next in the text.
fn is_before(caret: Caret, kept: &[Caret]) -> bool
    ensures { result ≡ places.is_before caret (reverse kept.now) }
{
    match kept.last() {
        Some(next) => caret.offset < next.offset,
        None => true,
    }
}

/// The carets that stand: of those of one offset the last.
fn settled(alloc: Global, carets: &[Caret]) -> Result<Vec<Caret>, AllocError>
    ensures { IfOk result (λ kept. kept.items ≡ places.settled carets.now) }
{
    let mut kept = Vec::new(alloc);
    for place in (0..carets.len()).rev() {
        let caret = carets[place];
        if is_before(caret, &kept) {
            kept.push(caret)?;
        }
    }
    kept.reverse();
    Ok(kept)
}

/// The carets of a line, in the order of the text, each from where its first run begins at the
/// left. `stops` are as in [`run_carets`]. Refuses with `Length` if an offset is 2^32 or more or a
/// run begins past 2^31 units, and with `Memory` if a growth was refused.
pub fn line_carets(alloc: Global, line: &TextLine, stops: &[u32]) -> Result<Vec<Caret>, ShapeError>
    requires { IsNonDecreasing stops.now }
    ensures { IfOk result (λ carets. carets.items
        ≡ places.line_carets stops.now line.now.runs.items line.now.logical.items) }
{
    let mut all = Vec::new(alloc);
    for place in 0..line.logical.len() {
        add_run(alloc, &mut all, &line.runs, line.logical[place], stops)?;
    }
    Ok(settled(alloc, &all)?)
}

/// Offsets of a line's carets rise, and a click where a caret stands leads to its offset.
pub fn clicks_return()
    ensures rise { OffsetsOfLinesRise }
    ensures clicks { ClicksReturn }
{}
