//! How tiles fill the width of their word.
//!
//! What the fixed tiles leave of it is filled by the repeating ones: as often as they go into it
//! whole, and once more if something is left, where the copies then overlap so that they end with
//! the word. The first tile begins where the word does if they overlap. Else it is moved by half of
//! what the fixed ones leave, as HarfBuzz does, which doesn't take off what copies fill.
ghost use Rattle.std.specs.Prelude.{◌≡◌, ◌≤◌, length, fold};
ghost use Rattle.std.specs.List.{prefix_len};
ghost use Rattle.arabic_stretching.specs.Fitting;

use crate::tiles::{is_tile, is_word, repeats};
use shape_buffer::buffer::{GlyphId, GlyphPosition, hb_glyph_info_t};
use shape_buffer::interfaces::hb_font_t;
use shape_buffer::wrapping::{difference, half, product, quotient, sum};

/// A glyph with its position.
#[derive(Clone, Copy, Debug)]
pub struct Glyph {
    pub info: hb_glyph_info_t,
    pub position: GlyphPosition,
}

/// How wide the fixed tiles of a sign are, how wide those that repeat, and how many these are.
#[derive(Clone, Copy, PartialEq, Eq, Debug)]
pub struct Widths {
    pub fixed: i32,
    pub repeating: i32,
    pub count: i32,
}

/// How often each repeating tile is repeated, how far copies overlap, and the offset of what comes
/// next.
#[derive(Clone, Copy, PartialEq, Eq, Debug)]
pub struct Fit {
    pub copies: usize,
    pub overlap: i32,
    pub offset: i32,
}

/// The advance of a glyph by the face, in units of the face; that of its position may be another.
pub fn advance_of<F: hb_font_t>(face: &F, glyph: &Glyph) -> i32
    ensures { result ≡ Fitting.advance_of (F.face face.now) glyph.now }
{
    face.glyph_h_advance(GlyphId(glyph.info.glyph_id))
}

fn with_tile<F: hb_font_t>(face: &F, widths: Widths, tile: &Glyph) -> Widths
    ensures { result ≡ Fitting.with_tile (F.face face.now) widths tile.now }
{
    let advance = advance_of(face, tile);
    if repeats(&tile.info) {
        Widths {
            repeating: sum(widths.repeating, advance),
            count: sum(widths.count, 1),
            ..widths
        }
    } else {
        Widths {
            fixed: sum(widths.fixed, advance),
            ..widths
        }
    }
}

fn widths_of<F: hb_font_t>(face: &F, tiles: &[Glyph]) -> Widths
    ensures { result ≡ Fitting.widths_of (F.face face.now) tiles.now }
{
    let mut widths = Widths {
        fixed: 0,
        repeating: 0,
        count: 0,
    };
    for tile in tiles {
        widths = with_tile(face, widths, tile);
    }
    widths
}

fn with_advance(width: i32, glyph: &Glyph) -> i32
    ensures { result ≡ Fitting.with_advance width glyph.now }
{
    sum(width, glyph.position.x_advance)
}

fn word_width(word: &[Glyph]) -> i32
    ensures { result ≡ Fitting.word_width word.now }
{
    let mut width = 0;
    for glyph in word {
        width = with_advance(width, glyph);
    }
    width
}

/// How often tiles can be repeated without passing what is left.
fn whole_copies(left: i32, repeating: i32) -> i32
    ensures { result ≡ Fitting.whole_copies left repeating }
{
    if 0 < repeating && repeating < left {
        difference(quotient(left, repeating), 1)
    } else {
        0
    }
}

/// What is left then.
fn shortfall(left: i32, repeating: i32, copies: i32) -> i32
    ensures { result ≡ Fitting.shortfall left repeating copies }
{
    difference(left, product(repeating, sum(copies, 1)))
}

/// How far each of so many copies overlaps the one before it.
fn overlap_of(excess: i32, copies: i32) -> i32
    ensures { result ≡ Fitting.overlap_of excess copies }
{
    if 0 < copies {
        quotient(excess, copies)
    } else {
        0
    }
}

/// Copies that don't overlap.
fn apart(left: i32, copies: i32) -> Fit
    ensures { result ≡ Fitting.apart left copies }
{
    Fit {
        copies: copies.unsigned_abs() as usize,
        overlap: 0,
        offset: half(left),
    }
}

/// Copies that are one more than go in whole.
fn squeezed(left: i32, widths: Widths, copies: i32) -> Fit
    ensures { result ≡ Fitting.squeezed left widths copies }
{
    let excess = difference(product(widths.repeating, sum(copies, 1)), left);
    if excess <= 0 {
        return apart(left, copies);
    }
    Fit {
        copies: copies.unsigned_abs() as usize,
        overlap: overlap_of(excess, product(copies, widths.count)),
        offset: 0,
    }
}

/// How tiles fill what their fixed ones leave.
#[tactic(auto, unfolding(crate::specs::Fitting::fit_by))]
fn fit_by(left: i32, widths: Widths) -> Fit
    ensures { result ≡ Fitting.fit_by left widths }
{
    let copies = whole_copies(left, widths.repeating);
    if 0 < shortfall(left, widths.repeating, copies) && 0 < widths.count {
        squeezed(left, widths, sum(copies, 1))
    } else {
        apart(left, copies)
    }
}

fn tiles_len(glyphs: &[Glyph]) -> usize
    ensures value { result ≡ prefix_len Fitting.is_tile_glyph glyphs.now }
    ensures within { result ≤ length glyphs.now }
{
    glyphs
        .iter()
        .take_while(|glyph| is_tile(&glyph.info))
        .count()
}

fn word_len(glyphs: &[Glyph]) -> usize
    ensures value { result ≡ prefix_len Fitting.is_word_glyph glyphs.now }
    ensures within { result ≤ length glyphs.now }
{
    glyphs
        .iter()
        .take_while(|glyph| is_word(&glyph.info))
        .count()
}

/// How wide the word at the beginning of a list is.
fn word_at(glyphs: &[Glyph]) -> i32
    ensures { result ≡ Fitting.word_at glyphs.now }
{
    word_width(&glyphs[..word_len(glyphs)])
}

/// How tiles fill the width of the word at the beginning of the rest.
#[tactic(auto, unfolding(crate::specs::Fitting::fit_over))]
fn fit_over<F: hb_font_t>(face: &F, tiles: &[Glyph], rest: &[Glyph]) -> Fit
    ensures { result ≡ Fitting.fit_over (F.face face.now) tiles.now rest.now }
{
    let widths = widths_of(face, tiles);
    fit_by(difference(word_at(rest), widths.fixed), widths)
}

/// How the tiles at the beginning of a list, in the order of the text, fill the width of the word
/// after them.
pub fn fit_at<F: hb_font_t>(face: &F, glyphs: &[Glyph]) -> Fit
    ensures { result ≡ Fitting.fit_at (F.face face.now) glyphs.now }
{
    let tiles = tiles_len(glyphs);
    fit_over(face, &glyphs[..tiles], &glyphs[tiles..])
}
