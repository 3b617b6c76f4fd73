//! Placing one mark.
//!
//! The ccc says at which side of the base the mark stands. Across, its extents are put against the
//! left or the right of the base's, or to the middle. Up and down, it comes a gap below or above
//! the base, or touches it; a mark drawn for a lower base is never moved up to this one, and a mark
//! drawn for a higher base only half of the way down. The base's extents then grow by the mark, so
//! that the next one of the ccc stands beyond.
ghost use Rattle.std.specs.Prelude.{◌≡◌, if◌then◌else◌, neg_ℤ, pos};
ghost use Rattle.shape_fallback.specs.Exact.{Fits32, StackedFits, XOffsetFits, exact_hung};
ghost use Rattle.shape_fallback.specs.Exact.{exact_piled, exact_x_offset, hung_at, piled_at};
ghost use Rattle.shape_fallback.specs.OneMark;

use shape_buffer::buffer::{GlyphId, GlyphPosition};
use shape_buffer::interfaces::{hb_font_t, hb_glyph_extents_t};
use shape_buffer::wrapping::{difference, half, negative, sum};

/// Whether the ccc is of marks over two letters: 233 below them, 234 above.
#[tactic(auto, unfolding(crate::specs::OneMark::is_double))]
fn is_double(ccc: u8) -> bool
    ensures { result ≡ OneMark.is_double ccc }
{
    matches!(ccc, 233 | 234)
}

/// Whether the ccc is of marks at the left: 200 and 218 below, 228 above.
#[tactic(auto, unfolding(crate::specs::OneMark::is_left))]
fn is_left(ccc: u8) -> bool
    ensures { result ≡ OneMark.is_left ccc }
{
    matches!(ccc, 200 | 218 | 228)
}

/// Whether the ccc is of marks at the right: 222 below, 216 and 232 above.
#[tactic(auto, unfolding(crate::specs::OneMark::is_right))]
fn is_right(ccc: u8) -> bool
    ensures { result ≡ OneMark.is_right ccc }
{
    matches!(ccc, 216 | 222 | 232)
}

/// The base's width in forward text, else none.
fn forward_width(forward: bool, base: hb_glyph_extents_t) -> i32
    ensures { result ≡ (if forward then base.width else pos 0) }
{
    if forward { base.width } else { 0 }
}

/// How far a mark of such extents is moved to the right from the place of a base of such extents.
#[tactic(auto, using(shape_common::proofs::WrappingLemmas::kept_bits))]
pub(crate) fn mark_x_offset(
    horizontal: bool,
    forward: bool,
    ccc: u8,
    base: hb_glyph_extents_t,
    mark: hb_glyph_extents_t,
) -> i32
    ensures value { result ≡ OneMark.mark_x_offset horizontal forward ccc base mark }
    ensures exact { XOffsetFits horizontal forward ccc base mark
        → result ≡ exact_x_offset horizontal forward ccc base mark }
{
    if horizontal && is_double(ccc) {
        let end = sum(base.x_bearing, forward_width(forward, base));
        return difference(difference(end, half(mark.width)), mark.x_bearing);
    }
    if is_left(ccc) {
        return difference(base.x_bearing, mark.x_bearing);
    }
    if is_right(ccc) {
        let end = sum(base.x_bearing, base.width);
        return difference(difference(end, mark.width), mark.x_bearing);
    }
    let margin = half(difference(base.width, mark.width));
    difference(sum(base.x_bearing, margin), mark.x_bearing)
}

/// Whether both numbers are positive, or neither.
#[tactic(auto, unfolding(crate::specs::OneMark::agree))]
fn agree(a: i32, b: i32) -> bool
    ensures { result ≡ OneMark.agree a b }
{
    (a > 0) == (b > 0)
}

/// Whether the ccc is of marks below the base.
#[tactic(auto, unfolding(crate::specs::OneMark::is_below))]
fn is_below(ccc: u8) -> bool
    ensures { result ≡ OneMark.is_below ccc }
{
    matches!(ccc, 233 | 218 | 220 | 222 | 200 | 202)
}

/// Whether the ccc is of marks above the base.
#[tactic(auto, unfolding(crate::specs::OneMark::is_above))]
fn is_above(ccc: u8) -> bool
    ensures { result ≡ OneMark.is_above ccc }
{
    matches!(ccc, 234 | 228 | 230 | 232 | 214 | 216)
}

/// Whether the ccc is of marks that touch the base, so that there is no gap.
#[tactic(auto, unfolding(crate::specs::OneMark::is_attached))]
fn is_attached(ccc: u8) -> bool
    ensures { result ≡ OneMark.is_attached ccc }
{
    matches!(ccc, 200 | 202 | 214 | 216)
}

/// A mark's y offset, and the base's extents with the mark.
#[derive(Clone, Copy, Debug)]
pub struct Stacked {
    pub y_offset: i32,
    pub base: hb_glyph_extents_t,
}

/// The mark under a base whose gap is taken into account: never moved up.
#[tactic(auto, using(shape_common::proofs::WrappingLemmas::kept_bits))]
fn hung(gap: i32, mark: hb_glyph_extents_t, mut base: hb_glyph_extents_t) -> Stacked
    ensures value { result ≡ OneMark.hung gap mark base }
    ensures exact { Fits32 (hung_at mark base) → StackedFits (exact_hung gap mark base)
        → result ≡ exact_hung gap mark base }
{
    let y_offset = difference(sum(base.y_bearing, base.height), mark.y_bearing);
    if agree(gap, y_offset) {
        base.height = sum(difference(base.height, y_offset), mark.height);
        return Stacked { y_offset: 0, base };
    }
    base.height = sum(base.height, mark.height);
    Stacked { y_offset, base }
}

/// The mark on a base whose gap is taken into account: not moved down too much.
#[tactic(auto, using(shape_common::proofs::WrappingLemmas::kept_bits))]
fn piled(gap: i32, mark: hb_glyph_extents_t, mut base: hb_glyph_extents_t) -> Stacked
    ensures value { result ≡ OneMark.piled gap mark base }
    ensures exact { Fits32 (piled_at mark base) → Fits32 (neg_ℤ (piled_at mark base))
        → StackedFits (exact_piled gap mark base) → result ≡ exact_piled gap mark base }
{
    let y_offset = difference(base.y_bearing, sum(mark.y_bearing, mark.height));
    if agree(gap, y_offset) {
        base.y_bearing = difference(base.y_bearing, mark.height);
        base.height = sum(base.height, mark.height);
        return Stacked { y_offset, base };
    }
    let correction = half(negative(y_offset));
    base.y_bearing = difference(sum(base.y_bearing, correction), mark.height);
    base.height = sum(difference(base.height, correction), mark.height);
    Stacked {
        y_offset: sum(y_offset, correction),
        base,
    }
}

/// A base with a gap below it, except for marks that touch it.
#[tactic(auto, using(shape_common::proofs::WrappingLemmas::kept_bits), unfolding(crate::specs::OneMark::lowered))]
fn lowered(gap: i32, ccc: u8, mut base: hb_glyph_extents_t) -> hb_glyph_extents_t
    ensures { result ≡ OneMark.lowered gap ccc base }
{
    if is_attached(ccc) {
        return base;
    }
    base.height = difference(base.height, gap);
    base
}

/// A base with a gap above it, except for marks that touch it.
#[tactic(auto, using(shape_common::proofs::WrappingLemmas::kept_bits), unfolding(crate::specs::OneMark::raised))]
fn raised(gap: i32, ccc: u8, mut base: hb_glyph_extents_t) -> hb_glyph_extents_t
    ensures { result ≡ OneMark.raised gap ccc base }
{
    if is_attached(ccc) {
        return base;
    }
    base.y_bearing = sum(base.y_bearing, gap);
    base.height = difference(base.height, gap);
    base
}

/// The mark below or above the base, by its ccc.
pub(crate) fn stack_mark(
    gap: i32,
    ccc: u8,
    base: hb_glyph_extents_t,
    mark: hb_glyph_extents_t,
) -> Stacked
    ensures { result ≡ OneMark.stacked gap ccc base mark }
{
    if is_below(ccc) {
        return hung(gap, mark, lowered(gap, ccc, base));
    }
    if is_above(ccc) {
        return piled(gap, mark, raised(gap, ccc, base));
    }
    Stacked { y_offset: 0, base }
}

/// A mark's position, and the base's extents that go on to the next mark.
#[derive(Clone, Copy, Debug)]
pub struct PlacedMark {
    pub position: GlyphPosition,
    pub base: hb_glyph_extents_t,
}

/// What a mark is placed by.
#[derive(Clone, Copy, Debug)]
pub struct Surroundings {
    pub horizontal: bool,
    pub forward: bool,
    pub gap: i32,
}

/// Places a mark by its ccc.
#[tactic(auto, unfolding(crate::specs::OneMark::mark_placed))]
pub fn position_mark<F: hb_font_t>(
    face: &F,
    surroundings: Surroundings,
    glyph: GlyphId,
    ccc: u8,
    mut placed: PlacedMark,
) -> PlacedMark
    ensures { result ≡ OneMark.mark_placed surroundings
        ((F.face face.now).extents glyph) ccc placed }
{
    let Some(mark) = face.glyph_extents(glyph) else {
        return placed;
    };
    let Surroundings {
        horizontal,
        forward,
        gap,
    } = surroundings;
    placed.position.x_offset = mark_x_offset(horizontal, forward, ccc, placed.base, mark);
    let stacked = stack_mark(gap, ccc, placed.base, mark);
    placed.position.y_offset = stacked.y_offset;
    placed.base = stacked.base;
    placed
}
