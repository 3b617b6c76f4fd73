//! The cells of a text: what stands from the start of a cluster to that of the next.
ghost use Rattle.std.specs.Prelude.{◌≡◌, ◌&&◌, nat_lt, pos, ◌∷◌, ◌++◌, List, IfOk};
ghost use Rattle.shape_common.specs.Wrapping.{◌+ʷ◌};
ghost use Rattle.shape_items.specs.declared.clusters.glyph_clusters.GlyphCluster.{GlyphCluster};
ghost use Rattle.shape_carets.specs.Cells;

use shape_common::wrapping::{negative, sum};
use shape_items::GlyphCluster;
use std::alloc::{AllocError, Global};

/// A piece of a text: where it begins, and how far the caret moves from there to its end.
#[derive(Clone, Copy, Debug)]
pub(super) struct Cell {
    pub(super) offset: u32,
    pub(super) advance: i32,
}

/// The cells of the text from an offset up to another, in its order.
pub(super) fn cells(
    alloc: Global,
    clusters: &[GlyphCluster],
    backward: bool,
    text_start: u32,
    text_end: u32,
) -> Result<Vec<Cell>, AllocError>
    ensures are { IfOk result (λ cells. cells.items
        ≡ Cells.cells_of backward text_start text_end clusters.now) }
    ensures rise { IfOk result (λ cells. Cells.Rises text_end cells.items) }
{
    if text_end <= text_start {
        return Ok(Vec::new(alloc));
    }
    let mut cells = Vec::new(alloc);
    let mut cell = Cell {
        offset: text_start,
        advance: 0,
    };
    for cluster in clusters {
        cell = add(&mut cells, cell, *cluster, backward, text_end)?;
    }
    cells.push(cell)?;
    Ok(cells)
}

/// Adds a cluster to the cell so far, or begins another by it: what is to come makes the same
/// cells.
fn add(
    cells: &mut Vec<Cell>,
    cell: Cell,
    cluster: GlyphCluster,
    backward: bool,
    text_end: u32,
) -> Result<Cell, AllocError>
    ensures { IfOk result (λ next. (rest : List GlyphCluster) → cells.new.items
        ++ Cells.cells_after backward text_end next.offset next.advance rest ≡ cells.old.items
        ++ Cells.cells_after backward text_end cell.offset cell.advance (cluster ∷ rest)) }
{
    if !begins(cell, cluster, text_end) {
        return Ok(widened(cell, cluster, backward));
    }
    cells.push(cell)?;
    Ok(begun(cluster, backward))
}

/// Whether a cluster begins a cell after this one.
fn begins(cell: Cell, cluster: GlyphCluster, text_end: u32) -> bool
    ensures { result ≡ (nat_lt cell.offset cluster.cluster && nat_lt cluster.cluster text_end) }
{
    cell.offset < cluster.cluster && cluster.cluster < text_end
}

/// The cell that a cluster begins.
fn begun(cluster: GlyphCluster, backward: bool) -> Cell
    ensures { result ≡ Cells.cell cluster.cluster (Cells.move_of backward cluster.advance) }
{
    Cell {
        offset: cluster.cluster,
        advance: move_of(backward, cluster.advance),
    }
}

/// A cell with the glyphs of one more cluster.
fn widened(cell: Cell, cluster: GlyphCluster, backward: bool) -> Cell
    ensures { result ≡ Cells.cell cell.offset
        (cell.advance +ʷ Cells.move_of backward cluster.advance) }
{
    Cell {
        offset: cell.offset,
        advance: sum(cell.advance, move_of(backward, cluster.advance)),
    }
}

/// How far an advance moves the caret: back, if the text runs backward.
fn move_of(backward: bool, advance: i32) -> i32
    ensures { result ≡ Cells.move_of backward advance }
{
    if backward { negative(advance) } else { advance }
}
