//! The lines of a shaped text that end at allowed places.
//!
//! A line breaker knows where lines may end in its text, as between words, and where one must end.
//! Each line is the longest piece from its start to such a place that fits.
ghost use Rattle.std.specs.Prelude.{◌≡◌, ℕ, ◌<◌, ◌≤◌, ◌+◌, ◌⊎◌, ◌≤ℤ◌, ◌<ℤ◌, ◌+ℤ◌, pos, true, false, [], length, get_or, IfOk, IsOk, IsOkUnless};
ghost use Rattle.std.specs.List.Sorted.{IsNonDecreasing};
ghost use Rattle.shape_items.specs.Clusters.{clusters};
ghost use Rattle.shape_lines.specs.CanCut.{CanCut, IsMonotone};
ghost use Rattle.shape_lines.specs.LinesAt;
ghost use Rattle.shape_lines.specs.Measured.{AreMeasures};
ghost use Rattle.shape_lines.specs.Spots.{spots_of, spot_at, pen};

use crate::cutting::{Line, line_between};
use crate::measuring::{Measures, ends_before, least_of_both, pens};
use crate::spots::{Breaks, Spot, spots};
use shape_buffer::buffer::{GlyphBuffer, ShapeError};
use std::alloc::{AllocError, Global};

/// A line, and whether its end is safe: a place of a cut, or the end of the text. If it isn't, the
/// pieces on both sides of it are to be shaped again.
#[derive(Clone, Copy, PartialEq, Eq, Debug)]
pub struct LineAt {
    pub line: Line,
    pub ends_safely: bool,
}

/// The lines of a shaped text that ends at this cluster, in the order of the text. A line ends
/// before the glyphs of an allowed or a mandatory cluster, never inside a cluster, and no line goes
/// past a mandatory place. It is the longest piece from its start to such a place that is at most
/// this wide, without the spaces that stand last in it; if none is, the shortest one. If lines may
/// end anywhere, places of a cut count then, too: the longest that fits, or the shortest. No glyphs
/// make no line. Refuses with `Memory` if a growth was refused. Asks that `can_cut` is true, and
/// that the lists rise.
pub fn cut_lines_at(
    alloc: Global,
    glyphs: &GlyphBuffer,
    text_end: u32,
    width: u32,
    breaks: &Breaks<'_>,
) -> Result<Vec<LineAt>, ShapeError>
    requires cut { CanCut glyphs.now text_end }
    requires allowed { IsNonDecreasing breaks.now.allowed.now }
    requires mandatory { IsNonDecreasing breaks.now.mandatory.now }
    requires spaces { IsNonDecreasing breaks.now.spaces.now }
    ensures lines { IfOk result
        (λ lines. LinesAt.AreLinesAt glyphs.now text_end breaks.now.allowed.now
        breaks.now.mandatory.now breaks.now.spaces.now breaks.now.anywhere
        (pos width) lines.items) }
    ensures memory { IsOkUnless result ShapeError.Memory }
{
    let measures = measured(alloc, glyphs, breaks)?;
    Ok(lines_of(alloc, glyphs, text_end, width, &measures)?)
}

/// A text as it is measured.
fn measured(
    alloc: Global,
    glyphs: &GlyphBuffer,
    breaks: &Breaks<'_>,
) -> Result<Measures, AllocError>
    requires monotone { IsMonotone (clusters glyphs.now.items) }
    requires allowed { IsNonDecreasing breaks.now.allowed.now }
    requires mandatory { IsNonDecreasing breaks.now.mandatory.now }
    requires spaces { IsNonDecreasing breaks.now.spaces.now }
    ensures measures { IfOk result (λ measures. AreMeasures measures.spots.items measures) }
    ensures spots { IfOk result (λ measures. measures.spots.items ≡ spots_of glyphs.now
        breaks.now.allowed.now breaks.now.mandatory.now breaks.now.spaces.now) }
    ensures anywhere { IfOk result (λ measures. measures.anywhere ≡ breaks.now.anywhere) }
{
    let spots = spots(alloc, glyphs, breaks)?;
    let pens = pens(alloc, &spots)?;
    let (allowed, any) = least_of_both(alloc, &spots, &pens, breaks.anywhere)?;
    Ok(Measures {
        spots,
        pens,
        allowed,
        any,
        anywhere: breaks.anywhere,
    })
}

/// The lines of a measured text.
fn lines_of(
    alloc: Global,
    glyphs: &GlyphBuffer,
    text_end: u32,
    width: u32,
    measures: &Measures,
) -> Result<Vec<LineAt>, AllocError>
    requires as_many { length measures.now.spots.items ≡ length glyphs.now.items }
    requires measured { AreMeasures measures.now.spots.items measures.now }
    ensures { IfOk result (λ lines. LinesAt.AreLinesFrom glyphs.now text_end measures.now.anywhere
        measures.now.spots.items (pos width) 0 lines.items) }
{
    let mut lines = Vec::new(alloc);
    let mut start = 0;
    while start < measures.spots.len() {
        let end = line_end(measures, width, start);
        lines.push(line_at(glyphs, text_end, &measures.spots, start, end))?;
        start = end;
    }
    Ok(lines)
}

/// The line between two places.
fn line_at(glyphs: &GlyphBuffer, text_end: u32, spots: &[Spot], start: usize, end: usize) -> LineAt
    requires some { start < end }
    requires within { end ≤ length glyphs.now.items }
    requires as_many { length spots.now ≡ length glyphs.now.items }
    ensures { result ≡ LinesAt.line_at glyphs.now text_end spots.now start end }
{
    LineAt {
        line: line_between(glyphs, text_end, start, end),
        ends_safely: end == spots.len() || spots[end].safe,
    }
}

/// Where a line that begins at a place ends.
fn line_end(measures: &Measures, width: u32, start: usize) -> usize
    requires some { start < length measures.now.spots.items }
    requires measured { AreMeasures measures.now.spots.items measures.now }
    ensures order { start < result }
    ensures within { result ≤ length measures.now.spots.items }
    ensures end { LinesAt.IsEndAt measures.now.anywhere measures.now.spots.items
        (pos width) start result }
{
    let limit = limit_of(measures, width, start);
    if measures.allowed[start + 1] <= limit {
        return longest(&measures.spots, &measures.allowed, start, limit);
    }
    if measures.any[start + 1] <= limit {
        return longest(&measures.spots, &measures.any, start, limit);
    }
    shortest(&measures.spots, measures.anywhere, start)
}

/// How far the pen may come in a line that begins at a place.
fn limit_of(measures: &Measures, width: u32, start: usize) -> i128
    requires some { start < length measures.now.spots.items }
    requires measured { AreMeasures measures.now.spots.items measures.now }
    ensures { result ≡ pen measures.now.spots.items start +ℤ pos width }
{
    measures.pens[start] + i128::from(width)
}

/// How far a line goes on while an end that fits comes: up to a mandatory place at most.
fn longest(spots: &[Spot], least: &[i128], start: usize, limit: i128) -> usize
    requires some { start < length spots.now }
    requires as_many { length least.now ≡ length spots.now + 1 }
    ensures order { start < result }
    ensures within { result ≤ length spots.now }
    ensures none { (k : ℕ) → start < k → k < result → (spot_at spots.now k).mandatory ≡ false }
    ensures fit { (k : ℕ) → start < k → k < result → get_or least.now (k + 1) (pos 0) ≤ℤ limit }
    ensures stops { ((spot_at spots.now result).mandatory ≡ true)
        ⊎ (limit <ℤ get_or least.now (result + 1) (pos 0)) }
{
    for place in start + 1..spots.len() {
        if spots[place].mandatory || least[place + 1] > limit {
            return place;
        }
    }
    spots.len()
}

/// The first place after the start where a line may end.
fn shortest(spots: &[Spot], anywhere: bool, start: usize) -> usize
    requires { start < length spots.now }
    ensures order { start < result }
    ensures within { result ≤ length spots.now }
    ensures is { LinesAt.ends_before anywhere (spot_at spots.now result) ≡ true }
    ensures none { (k : ℕ) → start < k → k < result
        → LinesAt.ends_before anywhere (spot_at spots.now k) ≡ false }
{
    for place in start + 1..spots.len() {
        if ends_before(spots[place], anywhere) {
            return place;
        }
    }
    spots.len()
}
