//! Tiles put side by side, over the word.
//!
//! They take no room of their own, so that the word stands below them: their advances are 0, and
//! each is moved to its place by its offset. In text from right to left the pen moves against the
//! order of the text.
ghost use Rattle.std.specs.Prelude.{◌≡◌, ◌<◌, ◌≤◌, ◌+◌, ◌++◌, ◌∷◌, [], None, length, OnOk, IfOk, IsErrOf};
ghost use Rattle.shape_buffer.specs.declared.buffer.error.ShapeError.TheVariants.{Length};
ghost use Rattle.arabic_stretching.specs.Copying.{moved, moved_by, placed, copies_of, extra_copies, closer, pen_at};
ghost use Rattle.arabic_stretching.specs.Copying.{tile_copies, pen_after, fit_or, fit_for, next_glyphs, next_walk, stretched_from};

use crate::fitting::{Fit, Glyph, advance_of, fit_at};
use crate::tiles::{is_tile, repeats};
use shape_buffer::buffer::{GlyphPosition, ShapeError};
use shape_buffer::interfaces::hb_font_t;
use shape_buffer::wrapping::{difference, sum};
use std::alloc::Global;

/// Where the next copy begins, how far the one after it is from it, and whether the text runs from
/// right to left.
#[derive(Clone, Copy, PartialEq, Eq, Debug)]
pub struct Pen {
    pub right_to_left: bool,
    pub by: i32,
    pub offset: i32,
}

fn moved(pen: Pen) -> Pen
    ensures { result ≡ moved pen }
{
    let offset = if pen.right_to_left {
        difference(pen.offset, pen.by)
    } else {
        sum(pen.offset, pen.by)
    };
    Pen { offset, ..pen }
}

/// A copy of a tile at the pen. From right to left it ends there.
fn placed(pen: Pen, tile: &Glyph) -> Glyph
    ensures { result ≡ placed pen tile.now }
{
    let start = if pen.right_to_left { moved(pen) } else { pen };
    Glyph {
        info: tile.info,
        position: GlyphPosition {
            x_advance: 0,
            x_offset: start.offset,
            ..tile.position
        },
    }
}

/// Appends a glyph. Refuses with `Length` at the limit.
fn push(out: &mut Vec<Glyph>, limit: usize, glyph: Glyph) -> Result<(), ShapeError>
    ensures ok { OnOk result (out.new.items ≡ out.old.items ++ glyph ∷ []) }
    ensures within { OnOk result (length out.new.items ≤ limit) }
    ensures past { IsErrOf result Length → limit ≤ length out.old.items }
{
    if limit <= out.len() {
        return Err(ShapeError::Length);
    }
    out.push(glyph)?;
    Ok(())
}

/// Appends copies of a tile from the pen on, and returns where it is after them.
fn put_copies(
    out: &mut Vec<Glyph>,
    limit: usize,
    pen: Pen,
    tile: &Glyph,
    count: usize,
) -> Result<Pen, ShapeError>
    requires { length out.old.items ≤ limit }
    ensures ok { OnOk result (out.new.items ≡ out.old.items ++ copies_of pen tile.now count) }
    ensures pen { IfOk result (λ p. p ≡ moved_by count pen) }
    ensures within { OnOk result (length out.new.items ≤ limit) }
    ensures past { IsErrOf result Length
        → limit < length out.old.items + length (copies_of pen tile.now count) }
{
    let mut pen = pen;
    for _ in 0..count {
        push(out, limit, placed(pen, tile))?;
        pen = moved(pen);
    }
    Ok(pen)
}

/// How many copies of a tile there are beside itself.
fn extra_copies(fit: Fit, tile: &Glyph) -> usize
    ensures { result ≡ extra_copies fit tile.now }
{
    if repeats(&tile.info) { fit.copies } else { 0 }
}

/// The pen for copies that overlap.
fn closer(fit: Fit, pen: Pen) -> Pen
    ensures { result ≡ closer fit pen }
{
    Pen {
        by: difference(pen.by, fit.overlap),
        ..pen
    }
}

/// The pen for a tile.
fn pen_at<F: hb_font_t>(face: &F, right_to_left: bool, fit: Fit, tile: &Glyph) -> Pen
    ensures { result ≡ pen_at (F.face face.now) right_to_left fit tile.now }
{
    Pen {
        right_to_left,
        by: advance_of(face, tile),
        offset: fit.offset,
    }
}

/// Appends a tile and its copies, and returns the pen after them.
fn put_tile(
    out: &mut Vec<Glyph>,
    limit: usize,
    pen: Pen,
    fit: Fit,
    tile: &Glyph,
) -> Result<Pen, ShapeError>
    requires { length out.old.items ≤ limit }
    ensures ok { OnOk result (out.new.items ≡ out.old.items ++ tile_copies pen fit tile.now) }
    ensures pen { IfOk result (λ p. p ≡ pen_after pen fit tile.now) }
    ensures within { OnOk result (length out.new.items ≤ limit) }
    ensures past { IsErrOf result Length
        → limit < length out.old.items + length (tile_copies pen fit tile.now) }
{
    push(out, limit, placed(pen, tile))?;
    let after = closer(fit, moved(pen));
    put_copies(out, limit, after, tile, extra_copies(fit, tile))
}

/// The fit that tiles before this one have, or that of those that begin here.
fn fit_or<F: hb_font_t>(face: &F, walk: Option<Fit>, glyphs: &[Glyph]) -> Fit
    ensures { result ≡ fit_or (F.face face.now) walk glyphs.now }
{
    match walk {
        Some(fit) => fit,
        None => fit_at(face, glyphs),
    }
}

/// How the first glyph of a list is put, if it is a tile.
fn fit_for<F: hb_font_t>(
    face: &F,
    walk: Option<Fit>,
    first: &Glyph,
    glyphs: &[Glyph],
) -> Option<Fit>
    ensures { result ≡ fit_for (F.face face.now) walk first.now glyphs.now }
{
    if is_tile(&first.info) {
        Some(fit_or(face, walk, glyphs))
    } else {
        None
    }
}

/// Appends a glyph, with its copies if it is a tile, and returns how the next tile is put then.
fn put_next<F: hb_font_t>(
    face: &F,
    right_to_left: bool,
    out: &mut Vec<Glyph>,
    limit: usize,
    fit: Option<Fit>,
    glyph: &Glyph,
) -> Result<Option<Fit>, ShapeError>
    requires { length out.old.items ≤ limit }
    ensures ok { OnOk result (out.new.items
        ≡ out.old.items ++ next_glyphs (F.face face.now) right_to_left fit glyph.now) }
    ensures walk { IfOk result (λ w. w ≡ next_walk (F.face face.now) right_to_left fit glyph.now) }
    ensures within { OnOk result (length out.new.items ≤ limit) }
    ensures past { IsErrOf result Length
        → limit < length out.old.items + length (next_glyphs (F.face face.now) right_to_left fit glyph.now) }
{
    match fit {
        None => {
            push(out, limit, *glyph)?;
            Ok(None)
        }
        Some(fit) => {
            let pen = pen_at(face, right_to_left, fit, glyph);
            let after = put_tile(out, limit, pen, fit, glyph)?;
            Ok(Some(Fit {
                offset: after.offset,
                ..fit
            }))
        }
    }
}

/// The glyphs of a text in its order, with their tiles over their words. Refuses with `Length` if
/// there would be more than the limit, and with `Memory` if a growth was refused.
pub fn stretch<F: hb_font_t>(
    alloc: Global,
    face: &F,
    right_to_left: bool,
    limit: usize,
    glyphs: &[Glyph],
) -> Result<Vec<Glyph>, ShapeError>
    ensures ok { IfOk result (λ out. out.items ≡ stretched_from (F.face face.now) right_to_left None glyphs.now) }
    ensures within { IfOk result (λ out. length out.items ≤ limit) }
    ensures past { IsErrOf result Length
        → limit < length (stretched_from (F.face face.now) right_to_left None glyphs.now) }
{
    let mut out = Vec::new(alloc);
    let mut walk = None;
    for i in 0..glyphs.len() {
        let glyph = &glyphs[i];
        let fit = fit_for(face, walk, glyph, &glyphs[i..]);
        walk = put_next(face, right_to_left, &mut out, limit, fit, glyph)?;
    }
    Ok(out)
}
