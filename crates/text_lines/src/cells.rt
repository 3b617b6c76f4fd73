//! A text as it is measured: the glyphs of all its runs in the order of the text, as one list that
//! is cut into lines.
//!
//! A run without glyphs has one of no width, so that a line may and must end beside it, too. Runs
//! are shaped by themselves, so the text may be cut between them.
ghost use Rattle.std.specs.Prelude.{◌↔◌, ℕ, List, IsTrue, pos, true, IfOk};
ghost use Rattle.shape_items.specs.Buffer.{Buffer};
ghost use Rattle.std.specs.List.Sorted.{IsNonDecreasing};
ghost use Rattle.shape_lines.specs.LinesAt.{AreLinesAt};

use crate::fitting::Run;
use crate::options::ParagraphError;
use crate::scaling::Scale;
use line_breaks::LineBreaks;
use shape_buffer::buffer::{GlyphBuffer, GlyphPosition, UNSAFE_TO_BREAK, UnicodeBuffer};
use shape_buffer::hb_glyph_info_t;
use shape_lines::{Breaks, LineAt, can_cut, cut_lines_at};
use std::alloc::{AllocError, Global};

/// A glyph: the number of its run and its place in the order of the run's text; what it is
/// measured by; whether it is a space that isn't measured at the end of a line; and whether its
/// run may be cut before its cluster.
#[derive(Clone, Copy)]
pub(crate) struct Cell {
    pub run: usize,
    pub place: usize,
    pub info: hb_glyph_info_t,
    pub position: GlyphPosition,
    pub space: bool,
    pub safe: bool,
}

/// Where the text of a cell begins.
pub(crate) fn start_of(cell: &Cell) -> usize {
    cell.info.cluster as usize
}

/// The place in the list of a run's glyphs of that at a place of its text.
pub(crate) fn list_place(run: &Run, place: usize) -> usize {
    if run.part.level % 2 == 0 {
        place
    } else {
        run.glyphs.len().saturating_sub(place).saturating_sub(1)
    }
}

/// Whether a list of offsets has one.
fn has(list: &[u32], at: u32) -> bool {
    list.binary_search(&at).is_ok()
}

/// A glyph as it is measured: its cluster, whether a line may begin with it anywhere, and its
/// width.
fn measured(cluster: u32, begins: bool, width: i32) -> (hb_glyph_info_t, GlyphPosition) {
    let mut info = hb_glyph_info_t::new('\0', cluster);
    info.mask = if begins { 0 } else { UNSAFE_TO_BREAK };
    let mut position = GlyphPosition::zero();
    position.x_advance = width;
    (info, position)
}

/// Adds the glyphs of a run of this number, in the scale of its font. No line begins with a space
/// or with what ends a line (UAX 14, LB6 and LB7), however narrow lines are.
fn add_run(
    cells: &mut Vec<Cell>,
    run: &Run,
    number: usize,
    scale: Scale,
    spaces: &[u32],
) -> Result<(), ParagraphError> {
    let first = u32::try_from(run.part.start).unwrap_or(u32::MAX);
    if run.glyphs.is_empty() {
        let (info, position) = measured(first, false, 0);
        return Ok(cells.push(Cell {
            run: number,
            place: 0,
            info,
            position,
            space: true,
            safe: true,
        })?);
    }
    let (infos, positions) = (run.glyphs.glyph_infos(), run.glyphs.glyph_positions());
    for place in 0..infos.len() {
        let at = list_place(run, place);
        let (Some(glyph), Some(position)) = (infos.get(at), positions.get(at)) else {
            continue;
        };
        let space = has(spaces, glyph.cluster);
        let safe = glyph.cluster == first || !glyph.unsafe_to_break();
        let width = scale.times(position.x_advance)?;
        let (info, position) = measured(glyph.cluster, safe && !space, width);
        cells.push(Cell {
            run: number,
            place,
            info,
            position,
            space,
            safe,
        })?;
    }
    Ok(())
}

/// The scale of a font of the list.
pub(crate) fn scale_of(scales: &[Scale], font: usize) -> Scale {
    match scales.get(font) {
        Some(scale) => *scale,
        None => Scale::new(0, 1),
    }
}

/// The glyphs of the runs of a text, in its order.
pub(crate) fn cells(
    alloc: Global,
    runs: &[Run],
    scales: &[Scale],
    breaks: &LineBreaks,
) -> Result<Vec<Cell>, ParagraphError> {
    let mut cells = Vec::new(alloc);
    for number in 0..runs.len() {
        let run = &runs[number];
        add_run(
            &mut cells,
            run,
            number,
            scale_of(scales, run.font),
            &breaks.spaces,
        )?;
    }
    Ok(cells)
}

/// The cells as one list of glyphs.
fn glyphs_of(alloc: Global, cells: &[Cell]) -> Result<GlyphBuffer, ParagraphError> {
    let infos: Vec<hb_glyph_info_t> = cells.iter().map(|cell| cell.info).collect(alloc)?;
    let positions: Vec<GlyphPosition> = cells.iter().map(|cell| cell.position).collect(alloc)?;
    let mut buffer = UnicodeBuffer::new(alloc).into_inner();
    buffer.put_lists(infos, positions)?;
    Ok(buffer.into_glyphs())
}

/// Where the spaces and the cells without glyphs begin.
fn spaces_of(alloc: Global, cells: &[Cell]) -> Result<Vec<u32>, AllocError> {
    let mut spaces = Vec::new(alloc);
    for cell in cells {
        if cell.space {
            spaces.push(cell.info.cluster)?;
        }
    }
    Ok(spaces)
}

/// Whether a list never falls.
fn rises(list: &[u32]) -> bool
    ensures { IsTrue result ↔ IsNonDecreasing list.now }
{
    list.is_sorted()
}

/// The lines of a text's cells, at most this wide as far as they can be: at places where a line
/// may end, and inside a word that is too wide. Refuses with `Uncut` if the cells don't stand in
/// the order of the text.
pub(crate) fn lines_of(
    alloc: Global,
    cells: &[Cell],
    text_end: u32,
    width: u32,
    breaks: &LineBreaks,
) -> Result<Vec<LineAt>, ParagraphError>
    ensures { IfOk result (λ lines. (glyphs : Buffer) × (spaces : List ℕ)
        × AreLinesAt glyphs text_end breaks.now.allowed.items breaks.now.mandatory.items
        spaces true (pos width) lines.items) }
{
    let glyphs = glyphs_of(alloc, cells)?;
    let spaces = spaces_of(alloc, cells)?;
    if !can_cut(&glyphs, text_end)
        || !rises(&spaces)
        || !rises(&breaks.allowed)
        || !rises(&breaks.mandatory)
    {
        return Err(ParagraphError::Uncut);
    }
    let places = Breaks {
        allowed: breaks.allowed.as_slice(),
        mandatory: breaks.mandatory.as_slice(),
        spaces: spaces.as_slice(),
        anywhere: true,
    };
    Ok(cut_lines_at(alloc, &glyphs, text_end, width, &places)?)
}
