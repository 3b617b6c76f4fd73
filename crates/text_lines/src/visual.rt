//! A line from left to right: its pieces in the order of L2, each a run with its glyphs.
//!
//! A piece has the glyphs that its run has there, if the run may be cut at both ends of the piece
//! and the piece runs as the run does; else it is shaped again. Whatever the shaper is, glyphs of
//! a run lead back to its text, in its order: else the text is refused with `Uncut`.
ghost use Rattle.std.specs.Prelude.{◌≡◌, ◌↔◌, ◌≤◌, ◌+ℤ◌, ◌-ℤ◌, ℕ, pos, [], ◌∷◌, ◌++◌, map};
ghost use Rattle.std.specs.Prelude.{if◌then◌else◌, int_lt, length, slice_index_or};
ghost use Rattle.std.specs.Prelude.{IsTrue, IfOk, OnOk};
ghost use Rattle.bidi.specs.Lines.{visual_order as order_of, visual_places as places_of};
ghost use Rattle.text_lines.specs.Levels.{IsLevelled};
ghost use Rattle.text_lines.specs.Lines.{Follow, IsInOrder, IsMeasured, LeadsBack};
ghost use Rattle.text_lines.specs.Lines.{left_of as left_by, pen_after as pen_from, pen_after_runs};
ghost use Rattle.text_lines.specs.Lines.{run_shown};
ghost use Rattle.text_lines.specs.Reach.{Reaches, font_of, highest, lowest};
ghost use Rattle.text_lines.specs.Pieces.{bytes_in, level_in, no_piece, shown_of};

use crate::cells::{list_place, scale_of, start_of};
use crate::fitting::Run;
use crate::lines::{Glyph, TextLine, TextRun};
use crate::options::ParagraphError;
use crate::parts::{Part, PartShaper};
use crate::pieces::{Laid, NO_PIECE, Piece, Span};
use crate::scaling::Scale;
use bidi::{visual_order, visual_places};
use shape_buffer::buffer::GlyphBuffer;
use std::alloc::{AllocError, Global};

/// The runs of a line from left to right, where each stands in the order of the text, and where
/// the pen stands after them.
#[derive(Drop)]
struct Row {
    runs: Vec<TextRun>,
    logical: Vec<usize>,
    end: i64,
}

impl Row {
    /// Adds a run at the right: it begins where the pen stands.
    fn push(&mut self, run: TextRun) -> Result<(), ParagraphError>
        requires { LeadsBack run }
        ensures follow { OnOk result (Follow (pos 0) self.old.end self.old.runs.items
            → Follow (pos 0) self.new.end self.new.runs.items) }
        ensures shown { OnOk result (map run_shown self.new.runs.items
            ≡ map run_shown self.old.runs.items ++ run_shown run ∷ []) }
        ensures logical { OnOk result (self.new.logical.items ≡ self.old.logical.items) }
    {
        let x = self.end;
        let end = pen_after(0, x, &run.glyphs)?;
        self.runs.push(TextRun {
            start: run.start,
            end: run.end,
            font: run.font,
            level: run.level,
            x,
            glyphs: run.glyphs,
        })?;
        self.end = end;
        Ok(())
    }
}

/// The glyphs of a buffer from one place of its list up to another.
fn glyphs_of(
    alloc: Global,
    buffer: &GlyphBuffer,
    scale: Scale,
    from: usize,
    to: usize,
) -> Result<Vec<Glyph>, ParagraphError> {
    let mut glyphs = Vec::new(alloc);
    for (info, position) in buffer.iter().skip(from).take(to.saturating_sub(from)) {
        glyphs.push(Glyph {
            glyph: info.glyph_id,
            cluster: info.cluster,
            x_advance: scale.times(position.x_advance)?,
            y_advance: scale.times(position.y_advance)?,
            x_offset: scale.times(position.x_offset)?,
            y_offset: scale.times(position.y_offset)?,
        })?;
    }
    Ok(glyphs)
}

/// Where the pen stands after a glyph, which moves it if it counts. Refuses past what 64 bits can
/// say.
fn moved(counts: bool, pen: i64, glyph: &Glyph) -> Result<i64, ParagraphError>
    ensures { IfOk result (λ end. end ≡ (if counts then pen +ℤ glyph.now.x_advance else pen)) }
{
    if !counts {
        return Ok(pen);
    }
    match pen.checked_add(i64::from(glyph.x_advance)) {
        Some(end) => Ok(end),
        None => Err(ParagraphError::Length),
    }
}

/// Where the pen stands after the glyphs whose text begins at an offset or after it.
fn pen_after(from: u32, x: i64, glyphs: &[Glyph]) -> Result<i64, ParagraphError>
    ensures { IfOk result (λ end. end ≡ pen_from from x glyphs.now) }
{
    let mut pen = x;
    for place in 0..glyphs.len() {
        let glyph = &glyphs[place];
        pen = moved(from <= glyph.cluster, pen, glyph)?;
    }
    Ok(pen)
}

/// The same for the glyphs of runs, from 0 on.
fn pen_after_all(from: u32, runs: &[TextRun]) -> Result<i64, ParagraphError>
    ensures { IfOk result (λ end. end ≡ pen_after_runs from (pos 0) runs.now) }
{
    let mut pen: i64 = 0;
    for place in 0..runs.len() {
        pen = pen_after(from, pen, &runs[place].glyphs)?;
    }
    Ok(pen)
}

/// A width without another.
fn without(width: i64, part: i64) -> Result<i64, ParagraphError>
    ensures { IfOk result (λ rest. rest ≡ width -ℤ part) }
{
    match width.checked_sub(part) {
        Some(rest) => Ok(rest),
        None => Err(ParagraphError::Length),
    }
}

/// Whether the glyphs of a run lead back to its text, in its order.
fn leads_back(run: &TextRun) -> bool
    ensures { IsTrue result ↔ LeadsBack run.now }
{
    let backward = run.level % 2 == 1;
    let (mut start, mut end) = (run.start, run.end);
    for place in 0..run.glyphs.len() {
        let at = run.glyphs[place].cluster as usize;
        if at < start || end <= at {
            return false;
        }
        start = if backward { start } else { at };
        end = if backward { at + 1 } else { end };
    }
    true
}

/// Where a line of a level begins, whose last spaces move the pen so far: these hang at the left
/// if it runs from right to left.
fn left_of(level: u8, hanging: i64) -> Result<i64, ParagraphError>
    ensures { IfOk result (λ left. left ≡ left_by level hanging) }
{
    if level % 2 == 1 {
        without(0, hanging)
    } else {
        Ok(0)
    }
}

/// How far a font reaches above and below the baseline, nowhere if there is no such font.
fn reach_at(reaches: &[(i32, i32)], font: usize) -> (i32, i32)
    ensures { result ≡ slice_index_or reaches.now font (pos 0, pos 0) }
{
    match reaches.get(font) {
        Some(reach) => *reach,
        None => (0, 0),
    }
}

/// The higher of two numbers.
fn higher(one: i32, other: i32) -> i32
    ensures { result ≡ (if int_lt one other then other else one) }
{
    if one < other { other } else { one }
}

/// The lower of two numbers.
fn lower(one: i32, other: i32) -> i32
    ensures { result ≡ (if int_lt other one then other else one) }
{
    if other < one { other } else { one }
}

/// How far runs reach above and below the baseline, given how far the fonts do.
fn reach_of(reaches: &[(i32, i32)], runs: &[TextRun]) -> (i32, i32)
    ensures above { result.0 ≡ highest reaches.now (pos 0) (map font_of runs.now) }
    ensures below { result.1 ≡ lowest reaches.now (pos 0) (map font_of runs.now) }
{
    let (mut ascent, mut descent) = (0, 0);
    for place in 0..runs.len() {
        let (above, below) = reach_at(reaches, runs[place].font);
        ascent = higher(ascent, above);
        descent = lower(descent, below);
    }
    (ascent, descent)
}

/// The piece at a place, one without text if there is none.
fn piece_at(pieces: &[Piece], place: usize) -> Piece
    ensures { result ≡ slice_index_or pieces.now place no_piece }
{
    match pieces.get(place) {
        Some(piece) => *piece,
        None => NO_PIECE,
    }
}

impl Laid<'_> {
    /// The glyphs of a piece.
    fn piece_glyphs<S: PartShaper>(
        &self,
        alloc: Global,
        shaper: &mut S,
        piece: Piece,
        run: &Run,
    ) -> Result<Vec<Glyph>, ParagraphError> {
        let scale = scale_of(self.scales, run.font);
        if !run.part.shown {
            return Ok(Vec::new(alloc));
        }
        let runs_alike = run.part.level % 2 == piece.level % 2;
        if runs_alike && self.is_safe(piece.first) && self.is_safe(piece.last) {
            let first = self.cells.get(piece.first).map_or(0, |cell| cell.place);
            let count = piece.last.saturating_sub(piece.first);
            let (one, other) = (
                list_place(run, first),
                list_place(run, first.saturating_add(count).saturating_sub(1)),
            );
            let (from, to) = (one.min(other), one.max(other).saturating_add(1));
            return glyphs_of(alloc, &run.glyphs, scale, from, to);
        }
        let part = Part {
            start: piece.start,
            end: piece.end,
            level: piece.level,
            ..run.part
        };
        let glyphs = shaper.shape(alloc, run.font, part)?;
        glyphs_of(alloc, &glyphs, scale, 0, glyphs.len())
    }

    /// The run of a piece, where the pen stands at 0; one that no font shows has no glyphs.
    /// Refuses with `Uncut` if the glyphs don't lead back to its text.
    fn text_run<S: PartShaper>(
        &self,
        alloc: Global,
        shaper: &mut S,
        piece: Piece,
    ) -> Result<TextRun, ParagraphError>
        ensures shown { IfOk result (λ run. run_shown run ≡ shown_of piece) }
        ensures leads_back { IfOk result (λ run. LeadsBack run) }
    {
        let (font, glyphs) = match self.runs.get(piece.run) {
            Some(run) => (run.font, self.piece_glyphs(alloc, shaper, piece, run)?),
            None => (0, Vec::new(alloc)),
        };
        let run = TextRun {
            start: piece.start,
            end: piece.end,
            font,
            level: piece.level,
            x: 0,
            glyphs,
        };
        if leads_back(&run) {
            Ok(run)
        } else {
            Err(ParagraphError::Uncut)
        }
    }

    /// The runs of pieces from left to right, each where the one before it ends.
    fn row<S: PartShaper>(
        &self,
        alloc: Global,
        shaper: &mut S,
        pieces: &[Piece],
    ) -> Result<Row, ParagraphError>
        ensures shown { IfOk result (λ row. map run_shown row.runs.items
            ≡ map (λ k. shown_of (slice_index_or pieces.now k no_piece))
            (order_of (map level_in pieces.now))) }
        ensures logical { IfOk result (λ row. row.logical.items
            ≡ places_of (order_of (map level_in pieces.now))) }
        ensures follow { IfOk result (λ row. Follow (pos 0) row.end row.runs.items) }
    {
        let levels: Vec<u8> = pieces.iter().map(|piece| piece.level).collect(alloc)?;
        let order = visual_order(alloc, &levels)?;
        let logical = visual_places(alloc, &order)?;
        let mut row = Row {
            runs: Vec::new(alloc),
            logical,
            end: 0,
        };
        for place in 0..order.len() {
            let piece = piece_at(pieces, order[place]);
            let run = self.text_run(alloc, shaper, piece)?;
            row.push(run)?;
        }
        Ok(row)
    }

    /// Where the spaces that stand last in a line begin; past all text if there are none.
    fn hanging_from(&self, line: Span) -> u32 {
        let mut from = u32::MAX;
        for at in (line.first..line.last).rev() {
            match self.cells.get(at) {
                Some(cell) if cell.space => from = cell.info.cluster,
                _ => return from,
            }
        }
        from
    }

    /// A line. Spaces that stand last in it hang: they lie beyond its end.
    pub fn line<S: PartShaper>(
        &self,
        alloc: Global,
        shaper: &mut S,
        line: Span,
    ) -> Result<TextLine, ParagraphError>
        requires order { line.start ≤ line.end }
        requires same { length self.now.levels.now.bytes.items
            ≡ length self.now.levels.now.classes.items }
        ensures start { IfOk result (λ made. made.start ≡ line.start) }
        ensures end { IfOk result (λ made. made.end ≡ line.end) }
        ensures order { IfOk result (λ made. IsInOrder made) }
        ensures measured { IfOk result (λ made. IsMeasured made) }
        ensures reach { IfOk result (λ made. Reaches self.now.reaches.now made) }
        ensures levels { IfOk result (λ made. IsLevelled (bytes_in self.now.levels.now) made) }
    {
        let level = self.levels.base_at(line.start);
        let pieces = self.pieces(alloc, line, level)?;
        let row = self.row(alloc, shaper, &pieces)?;
        let hanging = pen_after_all(self.hanging_from(line), &row.runs)?;
        let width = without(row.end, hanging)?;
        let left = left_of(level, hanging)?;
        let (ascent, descent) = reach_of(self.reaches, &row.runs);
        Ok(TextLine {
            start: line.start,
            end: line.end,
            level,
            left,
            width,
            ascent,
            descent,
            runs: row.runs,
            logical: row.logical,
        })
    }
}
