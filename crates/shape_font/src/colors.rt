//! What the table `COLR` says of a glyph (OpenType, "COLR"): the layers that it is drawn in, and
//! the box that it is clipped to. Graphs of paints aren't walked.
//!
//! Any bytes are taken. What lies past the end of the table reads as 0, and lists are cut to what
//! there is room for.
ghost use Rattle.std.specs.Prelude.{◌≡◌, ◌<◌, ◌≤◌, ◌+◌, ◌^◌};
ghost use Rattle.std.specs.Option.{IfSome};
ghost use Rattle.shape_font.specs.Colors;

use crate::bytes::{i16_at, records, u16_at, u32_at};
use crate::search::{found, side};
use font_bytes::bytes::{u8_at, u24_at};
use font_variations::deltas::{delta_within, rounded};
use font_variations::index_maps::mapped;
use font_variations::metrics::MOST_ROW_STEPS;
use font_variations::parts::part_at;
use shape_buffer::hb_glyph_extents_t;
use shape_buffer::wrapping::{difference, sum};
use std::cmp::Ordering;

/// Layers of the table, one after the other: the first one, and how many.
#[derive(Clone, Copy, PartialEq, Eq, Debug)]
pub struct Layers {
    pub first: u16,
    pub count: u16,
}

/// What the table says of a glyph.
#[derive(Clone, Copy, PartialEq, Eq, Debug)]
pub enum Coloring {
    /// Nothing: it has its outline.
    Plain,
    /// It is clipped to this box, in units of the font.
    Clipped(hb_glyph_extents_t),
    /// It is drawn in these layers, each of them a glyph.
    Layered(Layers),
    /// It is a graph of paints that is clipped to no box.
    Painted,
}

/// Whether the table has the lists of version 1.
fn has_lists(colr: &[u8]) -> bool
    ensures { result ≡ Colors.has_lists colr.now }
{
    u16_at(colr, 0) != 0
}

/// Where the list stands whose offset stands at `at`; none without version 1, or where it is NULL.
fn list_at(colr: &[u8], at: usize) -> Option<usize>
    requires { at ≤ 30 }
    ensures value { result ≡ Colors.list_at colr.now at }
    ensures near { IfSome result (λ list. list < 2 ^ 32) }
{
    let offset = u32_at(colr, at);
    if has_lists(colr) && offset != 0 {
        Some(offset as usize)
    } else {
        None
    }
}

/// Where a glyph stands to base glyph `i` of a list that begins at `at`.
fn base_side(colr: &[u8], at: usize, glyph: u32, i: u32) -> Ordering
    requires { at < 2 ^ 33 }
    ensures { result ≡ Colors.base_side colr.now at glyph i }
{
    let there = u32::from(u16_at(colr, at + 6 * i as usize));
    side(glyph, there, there)
}

/// Which one of the base glyphs that begin at `at` a glyph is, of as many as are said.
fn base_in(colr: &[u8], at: usize, said: u32, glyph: u32) -> Option<u32>
    requires { at < 2 ^ 33 }
    ensures { result ≡ Colors.base_in colr.now at said glyph }
{
    found(
        records(colr, said, at, 6),
        |i| base_side(colr, at, glyph, i),
    )
}

/// The layers of a glyph, by version 0; none if it is no base glyph.
fn layers_of(colr: &[u8], glyph: u32) -> Option<Layers>
    ensures { result ≡ Colors.layers_of colr.now glyph }
{
    let bases = u32_at(colr, 4) as usize;
    let i = base_in(colr, bases, u32::from(u16_at(colr, 2)), glyph)?;
    let at = bases + 6 * i as usize;
    let said = u32::from(u16_at(colr, 12));
    let all = records(colr, said, u32_at(colr, 8) as usize, 4);
    let (first, count) = (u16_at(colr, at + 2), u16_at(colr, at + 4));
    let left = all.saturating_sub(u32::from(first));
    Some(Layers {
        first,
        count: left.min(u32::from(count)) as u16,
    })
}

/// The glyph that layer number `i` of the table is.
pub(crate) fn layer_glyph(colr: &[u8], i: u32) -> u32
    requires { i < 2 ^ 17 }
    ensures { result ≡ Colors.layer_glyph colr.now i }
{
    u32::from(u16_at(colr, u32_at(colr, 8) as usize + 4 * i as usize))
}

/// Whether the glyph is a graph of paints.
fn is_painted(colr: &[u8], glyph: u32) -> bool
    ensures { result ≡ Colors.is_painted colr.now glyph }
{
    match list_at(colr, 14) {
        Some(list) => base_in(colr, list + 4, u32_at(colr, list), glyph).is_some(),
        None => false,
    }
}

/// Where a glyph stands to the range of clip number `i` of a list.
fn clip_side(colr: &[u8], list: usize, glyph: u32, i: u32) -> Ordering
    requires { list < 2 ^ 32 }
    ensures { result ≡ Colors.clip_side colr.now list glyph i }
{
    let at = list + 5 + 7 * i as usize;
    let (first, last) = (u16_at(colr, at), u16_at(colr, at + 2));
    side(glyph, u32::from(first), u32::from(last))
}

/// Where the clip box of a glyph stands; none if no clip has it.
fn clip_at(colr: &[u8], glyph: u32) -> Option<usize>
    ensures value { result ≡ Colors.clip_at colr.now glyph }
    ensures near { IfSome result (λ at. at < 2 ^ 33) }
{
    let list = list_at(colr, 22)?;
    let count = records(colr, u32_at(colr, list + 1), list + 5, 7);
    let i = found(count, |i| clip_side(colr, list, glyph, i))?;
    match u24_at(colr, list + 9 + 7 * i as usize) {
        0 => None,
        offset => Some(list + offset as usize),
    }
}

/// What is added at the coordinates to number `k` of the clip box at `at`: by the store of the
/// table, and its map of indexes. Nothing in a format without deltas.
fn clip_delta(colr: &[u8], coordinates: &[i32], at: usize, k: u32) -> i32
    requires at { at < 2 ^ 33 }
    requires few { k < 4 }
    ensures { result ≡ Colors.clip_delta colr.now coordinates.now at k }
{
    if u8_at(colr, at) != 2 || coordinates.is_empty() {
        return 0;
    }
    let store = part_at(colr, list_at(colr, 30).unwrap_or(0));
    let map = part_at(colr, list_at(colr, 26).unwrap_or(0));
    let index = mapped(map, u32_at(colr, at + 9).saturating_add(k));
    rounded(delta_within(MOST_ROW_STEPS, store, coordinates, index))
}

/// Number `k` of the clip box at `at`: its left, lower, right and upper sides in order.
#[tactic(auto, using(shape_common::proofs::WrappingLemmas::kept_bits))]
fn clip_side_at(colr: &[u8], coordinates: &[i32], at: usize, k: u32) -> i32
    requires at { at < 2 ^ 33 }
    requires few { k < 4 }
    ensures { result ≡ Colors.clip_number colr.now coordinates.now at k }
{
    sum(
        i16_at(colr, at + 1 + 2 * k as usize),
        clip_delta(colr, coordinates, at, k),
    )
}

/// Whether the box at `at` has a format that says its sides.
fn has_sides(colr: &[u8], at: usize) -> bool
    requires { at < 2 ^ 33 }
    ensures { result ≡ Colors.has_sides colr.now at }
{
    matches!(u8_at(colr, at), 1 | 2)
}

/// The box whose sides stand at `at`.
#[tactic(auto, using(shape_common::proofs::WrappingLemmas::kept_bits))]
fn sides_box(colr: &[u8], coordinates: &[i32], at: usize) -> hb_glyph_extents_t
    requires { at < 2 ^ 33 }
    ensures { result ≡ Colors.sides_box colr.now coordinates.now at }
{
    let left = clip_side_at(colr, coordinates, at, 0);
    let top = clip_side_at(colr, coordinates, at, 3);
    let right = clip_side_at(colr, coordinates, at, 2);
    let bottom = clip_side_at(colr, coordinates, at, 1);
    hb_glyph_extents_t {
        x_bearing: left,
        y_bearing: top,
        width: difference(right, left),
        height: difference(bottom, top),
    }
}

/// The clip box at `at`; an empty one in another format than 1 and 2.
fn clip_box(colr: &[u8], coordinates: &[i32], at: usize) -> hb_glyph_extents_t
    requires { at < 2 ^ 33 }
    ensures { result ≡ Colors.clip_box colr.now coordinates.now at }
{
    if has_sides(colr, at) {
        sides_box(colr, coordinates, at)
    } else {
        hb_glyph_extents_t {
            x_bearing: 0,
            y_bearing: 0,
            width: 0,
            height: 0,
        }
    }
}

/// What the table says of a glyph at these coordinates. Takes a step for each bit of the numbers of
/// base glyphs and clips, and at coordinates those of four rows of deltas.
pub fn coloring_of(colr: &[u8], coordinates: &[i32], glyph: u32) -> Coloring
    ensures { result ≡ Colors.coloring_of colr.now coordinates.now glyph }
{
    if let Some(at) = clip_at(colr, glyph) {
        return Coloring::Clipped(clip_box(colr, coordinates, at));
    }
    if is_painted(colr, glyph) {
        return Coloring::Painted;
    }
    match layers_of(colr, glyph) {
        Some(layers) => Coloring::Layered(layers),
        None => Coloring::Plain,
    }
}
