//! The carets of a text, each with its place on the line.
ghost use Rattle.std.specs.Prelude.{◌≡◌, ◌↔◌, ℕ, ◌+◌, ◌<◌, ◌≤◌, ◌++◌, pos, int_div, drop, length, slice_index, IfOk, OnOk, IsOkUnless, IsTrue};
ghost use Rattle.std.specs.List.Sorted.{IsNonDecreasing};
ghost use Rattle.shape_common.specs.Direction.{is_backward};
ghost use Rattle.shape_common.specs.Wrapping.{◌+ʷ◌};
ghost use Rattle.shape_carets.specs.Cells.{start_of, Rises};
ghost use Rattle.shape_carets.specs.Carets.{carets_of, carets_from, cell_carets, origin_of};

use crate::cells::{Cell, cells};
use shape_buffer::buffer::ShapeError;
use shape_common::Direction;
use shape_common::wrapping::{negative, sum};
use shape_items::GlyphCluster;
use std::alloc::{AllocError, Global};

/// A caret: before which offset of the text it stands, and where on the line.
#[derive(Clone, Copy, PartialEq, Eq, Debug)]
pub struct Caret {
    /// The offset in the text, in units of the clusters.
    pub offset: u32,
    /// Its place on the line, from where the glyphs begin, modulo 2^32, in units of the face: x, or
    /// y if the direction is vertical.
    pub x: i32,
}

/// The carets of a text that was shaped, in its order: of the whole text, or of a line that was cut
/// from it. The clusters are those of
/// [`GlyphBuffer::clusters`](shape_buffer::buffer::GlyphBuffer::clusters) that show the text from
/// `text_start` up to `text_end`. A caret stands at the leading edge of each cluster: the right
/// one, if the text runs to the left. One stands after the text. `stops` rises, and says where else
/// a caret may stand, as before each grapheme cluster of the text: those inside a cluster divide
/// its advance into equal parts, rounded towards its leading edge. Other stops say nothing. A
/// cluster that isn't past the one before, or is past the end of the text, has no caret. So offsets
/// always rise. Refuses with `Memory` if a growth was refused.
pub fn carets(
    alloc: Global,
    clusters: &[GlyphCluster],
    direction: Direction,
    text_start: u32,
    text_end: u32,
    stops: &[u32],
) -> Result<Vec<Caret>, ShapeError>
    requires { IsNonDecreasing stops.now }
    ensures carets { IfOk result (λ carets. carets.items
        ≡ carets_of (is_backward direction) text_start text_end stops.now clusters.now) }
    ensures memory { IsOkUnless result ShapeError.Memory }
{
    let backward = direction.is_backward();
    let cells = cells(alloc, clusters, backward, text_start, text_end)?;
    Ok(carets_in(alloc, &cells, backward, text_end, stops)?)
}

/// Whether stops rise, as [`carets`] asks.
pub fn stops_rise(stops: &[u32]) -> bool
    ensures { IsTrue result ↔ IsNonDecreasing stops.now }
{
    stops.is_sorted()
}

/// The carets of cells that rise.
fn carets_in(
    alloc: Global,
    cells: &[Cell],
    backward: bool,
    text_end: u32,
    stops: &[u32],
) -> Result<Vec<Caret>, AllocError>
    requires rise { Rises text_end cells.now }
    requires sorted { IsNonDecreasing stops.now }
    ensures { IfOk result (λ carets. carets.items
        ≡ carets_from text_end stops.now (origin_of backward cells.now) cells.now) }
{
    let mut carets = Vec::new(alloc);
    let mut x = origin(cells, backward);
    let mut next = 0;
    for place in 0..cells.len() {
        let cell = cells[place];
        let end = start_after(cells, place, text_end);
        let from = skip_below(stops, next, cell.offset + 1);
        next = skip_below(stops, from, end);
        push_cell(&mut carets, cell, x, &stops[from..next])?;
        x = moved(x, cell);
    }
    carets.push(Caret {
        offset: text_end,
        x,
    })?;
    Ok(carets)
}

/// Where the text of the cell after a place begins: with the next cell, or at the end.
fn start_after(cells: &[Cell], place: usize, text_end: u32) -> u32
    requires { place < length cells.now }
    ensures { result ≡ start_of text_end (drop (place + 1) cells.now) }
{
    if place + 1 < cells.len() {
        cells[place + 1].offset
    } else {
        text_end
    }
}

/// Where the first caret stands: where the glyphs begin or, if the text runs backward, where they
/// end.
fn origin(cells: &[Cell], backward: bool) -> i32
    ensures { result ≡ origin_of backward cells.now }
{
    if !backward {
        return 0;
    }
    let mut total = 0;
    for cell in cells {
        total = moved(total, *cell);
    }
    negative(total)
}

/// Where the caret stands after a cell.
fn moved(x: i32, cell: Cell) -> i32
    ensures { result ≡ x +ʷ cell.advance }
{
    sum(x, cell.advance)
}

/// The first place of a list, from a place on, whose number isn't below this one.
fn skip_below(stops: &[u32], from: usize, offset: u32) -> usize
    requires { from ≤ length stops.now }
    ensures order { from ≤ result }
    ensures within { result ≤ length stops.now }
    ensures below { (k : ℕ) → from ≤ k → k < result → slice_index stops.now k < offset }
    ensures reached { result < length stops.now → offset ≤ slice_index stops.now result }
{
    for place in from..stops.len() {
        if stops[place] >= offset {
            return place;
        }
    }
    stops.len()
}

/// The carets of a cell: at its start, and at the stops inside.
fn push_cell(carets: &mut Vec<Caret>, cell: Cell, x: i32, inside: &[u32]) -> Result<(), AllocError>
    ensures { OnOk result (carets.new.items ≡ carets.old.items ++ cell_carets cell x inside.now) }
{
    let step = part_of(cell.advance, inside.len());
    let mut x = x;
    carets.push(Caret {
        offset: cell.offset,
        x,
    })?;
    for stop in inside {
        x = sum(x, step);
        carets.push(Caret { offset: *stop, x })?;
    }
    Ok(())
}

/// Each part of an advance that so many stops divide, towards zero.
fn part_of(advance: i32, stops: usize) -> i32
    ensures { result ≡ int_div advance (pos (stops + 1)) }
{
    (i128::from(advance) / (i128::from(stops as u64) + 1)) as i32
}
