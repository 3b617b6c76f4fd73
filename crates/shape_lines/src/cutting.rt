//! The lines of a shaped text.
//!
//! Each line is the longest piece from its start that fits. Widths may be negative, so a longer
//! piece may fit again after one that does not. Each place where a line may end is therefore asked
//! whether this end or a later one fits, by the least width from it to an end at it or after it.
//! These are summed once, from the end of the text, and the walk comes to each place once.
ghost use Rattle.std.specs.Prelude.{◌≡◌, ◌<◌, ◌≤◌, ◌+◌, ◌+ℤ◌, pos, true, [], length, get_or, IfOk, OnOk, IsOk, IsOkUnless, if◌then◌else◌};
ghost use Rattle.std.specs.Int.{int_min};
ghost use Rattle.shape_lines.specs.CanCut.{CanCut};
ghost use Rattle.shape_lines.specs.Pieces.{is_end, pieces_of, AreLines, AreSummable, IsNarrow};
ghost use Rattle.shape_lines.specs.RightLines.{AreRightLines};
ghost use Rattle.shape_lines.specs.Walked;

use crate::reading::{Piece, cluster_at, piece_at, runs_back};
use shape_buffer::buffer::{GlyphBuffer, ShapeError};
use std::alloc::{AllocError, Global};

/// A line of a shaped text: its glyphs stand from `glyph_start` up to `glyph_end` in the list, and
/// show the text from `text_start` up to `text_end`, in units of the clusters.
#[derive(Clone, Copy, PartialEq, Eq, Debug)]
pub struct Line {
    /// The place of its first glyph in the list.
    pub glyph_start: usize,
    /// The place after its last glyph in the list.
    pub glyph_end: usize,
    /// Where its text begins: its least cluster.
    pub text_start: u32,
    /// Where its text ends: at the start of the next line's, or at the end of all text.
    pub text_end: u32,
}

/// The walk over a text: the lines so far, where the line that it is in begins, up to which end it
/// was taken (its start if it has met none), and how wide it is from each of the two.
#[derive(Drop)]
struct Walk {
    lines: Vec<Line>,
    start: usize,
    taken: usize,
    so_far: i128,
    beyond: i128,
}

/// The lines of a shaped text that ends at this cluster, in the order of the text, so from the end
/// of the list if clusters fall. A line's width is the exact sum of its glyphs' advances, downwards
/// if the direction is vertical. Each line is the longest piece from its start to a place of a cut,
/// or to the end of the text, that is at most this wide; if none is, it is the shortest one. No
/// glyphs make no line, and take no memory. Refuses with `Memory` if a growth was refused. Asks
/// that `can_cut` is true.
pub fn cut_lines(
    alloc: Global,
    glyphs: &GlyphBuffer,
    text_end: u32,
    width: u32,
) -> Result<Vec<Line>, ShapeError>
    requires { CanCut glyphs.now text_end }
    ensures lines { IfOk result (λ lines.
        AreRightLines glyphs.now text_end (pos width) lines.items) }
    ensures memory { IsOkUnless result ShapeError.Memory }
    ensures empty { glyphs.now.items ≡ [] → IsOk result }
{
    if glyphs.is_empty() {
        return Ok(Vec::new(alloc));
    }
    Ok(walked_lines(alloc, glyphs, text_end, width)?)
}

/// The lines of some glyphs.
fn walked_lines(
    alloc: Global,
    glyphs: &GlyphBuffer,
    text_end: u32,
    width: u32,
) -> Result<Vec<Line>, AllocError>
    requires { 0 < length glyphs.now.items }
    ensures { IfOk result (λ lines. AreLines (pieces_of glyphs.now) (pos width)
        (Walked.line_of glyphs.now text_end) 0 lines.items) }
{
    let least = least_widths(alloc, glyphs)?;
    let mut walk = Walk {
        lines: Vec::new(alloc),
        start: 0,
        taken: 0,
        so_far: 0,
        beyond: 0,
    };
    walk.add(glyphs, text_end, width, 0);
    for place in 1..glyphs.len() {
        if piece_at(glyphs, place).cut {
            walk.meet_end(glyphs, text_end, width, place, least[place])?;
        }
        walk.add(glyphs, text_end, width, place);
    }
    walk.meet_end(glyphs, text_end, width, glyphs.len(), 0)?;
    walk.lines
        .push(line_between(glyphs, text_end, walk.start, walk.taken))?;
    Ok(walk.lines)
}

/// The least width from each place of the text to an end at it or after it.
fn least_widths(alloc: Global, glyphs: &GlyphBuffer) -> Result<Vec<i128>, AllocError>
    ensures least { IfOk result (λ widths. widths.items ≡ Walked.leasts (pieces_of glyphs.now)) }
    ensures summable { IfOk result (λ _. AreSummable glyphs.now) }
{
    let mut widths: Vec<i128> = Vec::with_capacity(alloc, glyphs.len())?;
    let mut on: i128 = 0;
    for place in (0..glyphs.len()).rev() {
        on = least_on(piece_at(glyphs, place), on);
        widths.push(on)?;
    }
    widths.reverse();
    Ok(widths)
}

/// The least width from a piece on, given the least width after it.
fn least_on(piece: Piece, beyond: i128) -> i128
    requires narrow { IsNarrow piece.width }
    requires small { Walked.IsSmall beyond }
    ensures { result
        ≡ let on = piece.width +ℤ beyond in if piece.cut then int_min (pos 0) on else on }
{
    let on = i128::from(piece.width) + beyond;
    if piece.cut && on > 0 {
        return 0;
    }
    on
}

/// Where the text of a place begins: at its glyph's cluster, or at the end of all text.
fn text_at(glyphs: &GlyphBuffer, text_end: u32, place: usize) -> u32
    ensures { result ≡ Walked.text_at glyphs.now text_end place }
{
    if place < glyphs.len() {
        cluster_at(glyphs, place)
    } else {
        text_end
    }
}

/// The line of the glyphs from a place of the text up to another.
pub(super) fn line_between(glyphs: &GlyphBuffer, text_end: u32, start: usize, end: usize) -> Line
    requires some { start < end }
    requires within { end ≤ length glyphs.now.items }
    ensures { result ≡ Walked.line_of glyphs.now text_end start end }
{
    let count = glyphs.len();
    let back = runs_back(glyphs.glyph_infos());
    Line {
        glyph_start: if back { count - end } else { start },
        glyph_end: if back { count - start } else { end },
        text_start: text_at(glyphs, text_end, start),
        text_end: text_at(glyphs, text_end, end),
    }
}

impl Walk {
    /// Meets a place where a line may end: the line is taken up to it if it can be, and else ends
    /// where it was taken to before; `least` is the least width from the place to an end at it or
    /// after it.
    fn meet_end(
        &mut self,
        glyphs: &GlyphBuffer,
        text_end: u32,
        width: u32,
        place: usize,
        least: i128,
    ) -> Result<(), AllocError>
        requires summable { AreSummable glyphs.now }
        requires may_end { is_end (pieces_of glyphs.now) place ≡ true }
        requires within { place ≤ length glyphs.now.items }
        requires least { least ≡ Walked.least_from (pieces_of glyphs.now) place }
        requires walked { Walked.HasWalked glyphs.now text_end (pos width) place place self.old }
        ensures taken { OnOk result (self.new.taken ≡ place) }
        ensures some { OnOk result (self.new.start < place) }
        ensures walked { OnOk result (Walked.HasWalked glyphs.now text_end (pos width) place
            (place + 1)
            self.new) }
    {
        if self.start < self.taken && self.so_far + least > i128::from(width) {
            self.lines
                .push(line_between(glyphs, text_end, self.start, self.taken))?;
            self.start = self.taken;
            self.so_far = self.beyond;
        }
        self.taken = place;
        self.beyond = 0;
        Ok(())
    }

    /// Adds the glyph at a place to the line.
    fn add(&mut self, glyphs: &GlyphBuffer, text_end: u32, width: u32, place: usize)
        requires summable { AreSummable glyphs.now }
        requires within { place < length glyphs.now.items }
        requires walked { Walked.HasWalked glyphs.now text_end (pos width) place
            (place + 1) self.old }
        ensures { Walked.HasWalked glyphs.now text_end (pos width) (place + 1)
            (place + 1) self.new }
    {
        let width = i128::from(piece_at(glyphs, place).width);
        self.so_far += width;
        self.beyond += width;
    }
}
