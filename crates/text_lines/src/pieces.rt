//! The pieces of a line: its parts of one run and one level.
//!
//! L1 gives the spaces at the end of a line the level of the paragraph, so a run may have several
//! pieces in it.
ghost use Rattle.std.specs.Prelude.{◌≡◌, ◌<◌, ◌≤◌, length, map, All, IfOk};
ghost use Rattle.std.specs.List.{slice_range};
ghost use Rattle.text_lines.specs.Levels.{HasLevel, level_at as level_by, levels_between};
ghost use Rattle.text_lines.specs.Lines.{AreParts};
ghost use Rattle.text_lines.specs.Pieces.{bytes_in, shown_of};

use crate::cells::{Cell, start_of};
use crate::fitting::Run;
use crate::reading::Levels;
use crate::scaling::Scale;
use bidi::line_levels;
use std::alloc::{AllocError, Global};

/// A part of a line of one run and one level: its glyphs from one cell up to another, and its
/// text.
#[derive(Clone, Copy)]
pub(crate) struct Piece {
    pub run: usize,
    pub level: u8,
    pub first: usize,
    pub last: usize,
    pub start: usize,
    pub end: usize,
}

/// A piece without text.
pub(crate) const NO_PIECE: Piece = Piece {
    run: 0,
    level: 0,
    first: 0,
    last: 0,
    start: 0,
    end: 0,
};

/// The cells of a line from one up to another, and its text.
#[derive(Clone, Copy)]
pub(crate) struct Span {
    pub first: usize,
    pub last: usize,
    pub start: usize,
    pub end: usize,
}

/// A text as its lines are made of it.
#[derive(Drop)]
pub(crate) struct Laid<'t> {
    pub levels: &'t Levels,
    pub runs: &'t [Run],
    pub cells: &'t [Cell],
    pub scales: &'t [Scale],
    pub reaches: &'t [(i32, i32)],
}

/// What a list has from one place up to another, as far as it goes.
fn between<T>(list: &[T], start: usize, end: usize) -> &[T]
    ensures { result.now ≡ slice_range list.now start end }
{
    let end = end.min(list.len());
    &list[start.min(end)..end]
}

/// The level of a byte of a line that begins at an offset, given those of its bytes.
fn level_at(levels: &[u8], base: u8, start: usize, at: usize) -> u8
    ensures { result ≡ level_by levels.now base start at }
{
    match levels.get(at.saturating_sub(start)) {
        Some(level) => *level,
        None => base,
    }
}

impl Laid<'_> {
    /// L1: the levels of the bytes of a line.
    fn levels_in(&self, alloc: Global, line: Span, base: u8) -> Result<Vec<u8>, AllocError>
        requires { length self.now.levels.now.bytes.items
            ≡ length self.now.levels.now.classes.items }
        ensures { IfOk result (λ levels. levels.items
            ≡ levels_between (bytes_in self.now.levels.now) base line.start line.end) }
    {
        let levels = between(&self.levels.bytes, line.start, line.end);
        let classes = between(&self.levels.classes, line.start, line.end);
        let mut levels = Vec::from_slice(alloc, levels)?;
        line_levels(&mut levels, classes, base);
        Ok(levels)
    }

    /// The level of a cell of a line, given those of the line's bytes.
    fn level_of(&self, levels: &[u8], line: Span, base: u8, at: usize) -> u8 {
        match self.cells.get(at) {
            Some(cell) => level_at(levels, base, line.start, start_of(cell)),
            None => base,
        }
    }

    /// The run of a cell, that after the last if there is no such cell.
    fn run_of(&self, at: usize) -> usize {
        match self.cells.get(at) {
            Some(cell) => cell.run,
            None => self.runs.len(),
        }
    }

    /// The place after the cells of one run and one level that begin at a place.
    fn same_until(&self, levels: &[u8], line: Span, base: u8, at: usize) -> usize
        requires { at < line.last }
        ensures after { at < result }
        ensures within { result ≤ line.last }
    {
        let (run, level) = (self.run_of(at), self.level_of(levels, line, base, at));
        for next in at + 1..line.last {
            if self.run_of(next) != run || self.level_of(levels, line, base, next) != level {
                return next;
            }
        }
        line.last
    }

    /// Where the text of the cells before one ends, which begins at an offset: where that of the
    /// cell begins, or with the line.
    fn text_until(&self, line: Span, last: usize, start: usize) -> usize
        requires { start ≤ line.end }
        ensures after { start ≤ result }
        ensures within { result ≤ line.end }
    {
        match self.cells.get(last) {
            Some(cell) if last < line.last => start_of(cell).max(start).min(line.end),
            _ => line.end,
        }
    }

    /// The pieces of a line, in the order of the text.
    pub fn pieces(&self, alloc: Global, line: Span, base: u8) -> Result<Vec<Piece>, AllocError>
        requires order { line.start ≤ line.end }
        requires same { length self.now.levels.now.bytes.items
            ≡ length self.now.levels.now.classes.items }
        ensures parts { IfOk result
            (λ pieces. AreParts line.start line.end (map shown_of pieces.items)) }
        ensures levels { let levels = levels_between (bytes_in self.now.levels.now)
            base line.start line.end in IfOk result
            (λ pieces. All (HasLevel levels base line.start) (map shown_of pieces.items)) }
    {
        let levels = self.levels_in(alloc, line, base)?;
        let mut pieces = Vec::new(alloc);
        let (mut at, mut start) = (line.first, line.start);
        while at < line.last {
            let last = self.same_until(&levels, line, base, at);
            let end = self.text_until(line, last, start);
            pieces.push(Piece {
                run: self.run_of(at),
                level: level_at(&levels, base, line.start, start),
                first: at,
                last,
                start,
                end,
            })?;
            (at, start) = (last, end);
        }
        if start < line.end {
            pieces.push(Piece {
                run: self.runs.len(),
                level: level_at(&levels, base, line.start, start),
                first: at,
                last: at,
                start,
                end: line.end,
            })?;
        }
        Ok(pieces)
    }

    /// Whether the run of a cell may be cut before it, so that both sides look as in the whole; so
    /// may the end of the text.
    pub fn is_safe(&self, at: usize) -> bool {
        match self.cells.get(at) {
            Some(cell) => cell.safe,
            None => true,
        }
    }
}
