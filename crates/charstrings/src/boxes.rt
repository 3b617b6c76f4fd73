//! Boxes of glyphs in whole units, rounded as HarfBuzz rounds them (`hb_font_get_glyph_extents`).
ghost use Rattle.std.specs.Prelude.{◌≡◌, ◌≤ℤ◌, pos, negsuc};
ghost use Rattle.charstrings.specs.Boxes;

use crate::bounds::{Bounds, glyph_bounds};
use crate::numbers::plus;
use cff_tables::CffFont;

/// The box of a glyph, in units of the font: where its left and its upper side lie, and how far it
/// reaches from there, to the right and upwards; its height is negative as a rule.
#[derive(Clone, Copy, PartialEq, Debug)]
pub struct GlyphBox {
    pub x_bearing: i32,
    pub y_bearing: i32,
    pub width: i32,
    pub height: i32,
}

/// Where a side of a box begins, and how far it reaches.
#[derive(Clone, Copy)]
struct Side {
    start: i32,
    length: i32,
}

/// The greatest whole number that is not greater than so many 65536ths.
fn floor(value: i64) -> i32
    ensures value { result ≡ Boxes.floor_of value }
    ensures low { negsuc 2147483646 ≤ℤ result }
    ensures high { result ≤ℤ pos 2147483647 }
{
    let size = value.unsigned_abs();
    if value < 0 {
        0 - ((size + 65535) / 65536).min(2_147_483_647) as i32
    } else {
        (size / 65536).min(2_147_483_647) as i32
    }
}

/// A number of 65536ths as the nearest whole number, a half upwards.
pub fn rounded(value: i64) -> i32
    ensures value { result ≡ Boxes.rounded value }
    ensures low { negsuc 2147483646 ≤ℤ result }
    ensures high { result ≤ℤ pos 2147483647 }
{
    floor(plus(value, 32768))
}

/// So many whole units back, in 65536ths.
fn back(start: i32) -> i64
    ensures { result ≡ Boxes.back start }
{
    0 - i64::from(start) * 65536
}

/// How far a side reaches from its rounded start.
fn reach(start: i32, to: i64) -> i32
    ensures { result ≡ Boxes.reach start to }
{
    rounded(plus(to, back(start)))
}

/// A side of a box.
#[tactic(auto, using(crate::proofs::SignedLemmas::kept_bits))]
fn side_between(from: i64, to: i64) -> Side
    ensures { result ≡ Boxes.side from to }
{
    let start = rounded(from);
    Side {
        start,
        length: reach(start, to),
    }
}

/// The side from left to right; none if there is no width.
fn level(bounds: &Bounds) -> Side
    ensures { result ≡ Boxes.level bounds.now }
{
    if bounds.high.x <= bounds.low.x {
        Side {
            start: 0,
            length: 0,
        }
    } else {
        side_between(bounds.low.x, bounds.high.x)
    }
}

/// The side from the top downwards; none if there is no height.
fn upright(bounds: &Bounds) -> Side
    ensures { result ≡ Boxes.upright bounds.now }
{
    if bounds.high.y <= bounds.low.y {
        Side {
            start: 0,
            length: 0,
        }
    } else {
        side_between(bounds.high.y, bounds.low.y)
    }
}

/// A box in whole units.
#[tactic(auto, using(crate::proofs::SignedLemmas::kept_bits))]
pub fn box_of(bounds: &Bounds) -> GlyphBox
    ensures { result ≡ Boxes.box_of bounds.now }
{
    let (level, upright) = (level(bounds), upright(bounds));
    GlyphBox {
        x_bearing: level.start,
        y_bearing: upright.start,
        width: level.length,
        height: upright.length,
    }
}

/// The box of a glyph in whole units. None if the font has no such glyph, or a charstring is
/// refused.
#[tactic(auto, unfolding(crate::specs::Boxes::glyph_box))]
pub fn glyph_box(font: &CffFont<'_>, glyph: u32) -> Option<GlyphBox>
    ensures { result ≡ Boxes.glyph_box font.now.table.now font.now.layout glyph }
{
    match glyph_bounds(font, glyph) {
        Some(bounds) => Some(box_of(&bounds)),
        None => None,
    }
}
