//! What the numbers of a font are multiplied by along both axes of its em square.
ghost use Rattle.std.specs.Prelude.{◌≡◌};
ghost use Rattle.font_sizes.specs.Scales;

use crate::factors::Factor;
use shape_common::hb_glyph_extents_t;
use shape_common::wrapping::{difference, sum};
use std::num::{nearest_i32_to_f32, saturating_f32_to_i32};

/// How many units wide and high the em square is to be; negative ones mirror it.
#[derive(Clone, Copy, PartialEq, Eq, Debug)]
pub struct Size {
    pub x: i32,
    pub y: i32,
}

/// What numbers of one axis are multiplied by: numbers that are rounded at once in 65536ths, and
/// those that are added before they are rounded in binary32.
#[derive(Clone, Copy)]
pub struct Axis {
    pub factor: Factor,
    pub real: f32,
}

/// What the numbers of a font are multiplied by, along the line and upwards, for a size.
#[derive(Clone, Copy)]
pub struct Scale {
    pub size: Size,
    pub across: Axis,
    pub up: Axis,
}

/// The sides of a box along one axis: the one that its bearing says, and how far the other one lies
/// from it.
#[derive(Clone, Copy)]
struct Sides {
    side: i32,
    len: i32,
}

impl Axis {
    /// A size over the units of the em square.
    #[tactic(auto, unfolding(crate::specs::Scales::real_factor))]
    pub fn new(size: i32, units_per_em: u16) -> Axis
        ensures { result ≡ Scales.axis_of size units_per_em }
    {
        let units = nearest_i32_to_f32(i32::from(units_per_em));
        Axis {
            factor: Factor::new(size, units_per_em),
            real: nearest_i32_to_f32(size) / units,
        }
    }

    /// A number at the size: to the nearest whole number, halves upwards.
    pub fn times(&self, number: i32) -> i32
        ensures { result ≡ Scales.times self.now number }
    {
        self.factor.times(number)
    }

    /// A real number at the size, not rounded.
    pub fn stretched(&self, x: f32) -> f32
        ensures { result ≡ Scales.stretched self.now x }
    {
        x * self.real
    }

    /// A number at the size, not rounded.
    pub fn real(&self, number: i32) -> f32
        ensures { result ≡ Scales.real_of self.now number }
    {
        self.stretched(nearest_i32_to_f32(number))
    }

    /// The sides of a box at the size: the first one downwards and the other one upwards to a whole
    /// number, so that a box whose second side lies beyond the first one holds all that it held.
    #[tactic(auto, unfolding(crate::specs::Scales::floor_of, crate::specs::Scales::ceiling_of))]
    fn sides(&self, sides: Sides) -> Sides
        ensures { result ≡ Scales.sides_at self.now sides }
    {
        let low = saturating_f32_to_i32(self.real(sides.side).floor());
        let far = saturating_f32_to_i32(self.real(sum(sides.side, sides.len)).ceil());
        Sides {
            side: low,
            len: difference(far, low),
        }
    }
}

impl Scale {
    /// What the numbers of a font with such an em square are multiplied by.
    pub fn new(size: Size, units_per_em: u16) -> Scale
        ensures { result ≡ Scales.scale_of size units_per_em }
    {
        Scale {
            size,
            across: Axis::new(size.x, units_per_em),
            up: Axis::new(size.y, units_per_em),
        }
    }

    /// A box at the size.
    pub fn extents(&self, extents: &hb_glyph_extents_t) -> hb_glyph_extents_t
        ensures { result ≡ Scales.extents_at self.now extents.now }
    {
        let across = self.across.sides(Sides {
            side: extents.x_bearing,
            len: extents.width,
        });
        let up = self.up.sides(Sides {
            side: extents.y_bearing,
            len: extents.height,
        });
        hb_glyph_extents_t {
            x_bearing: across.side,
            y_bearing: up.side,
            width: across.len,
            height: up.len,
        }
    }
}

/// A number along the line at a size; without one as it is.
#[inline(always)]
pub fn across(scale: Option<Scale>, number: i32) -> i32
    ensures { result ≡ Scales.across scale number }
{
    match scale {
        Some(scale) => scale.across.times(number),
        None => number,
    }
}

/// A number upwards at a size; without one as it is.
#[inline(always)]
pub fn up(scale: Option<Scale>, number: i32) -> i32
    ensures { result ≡ Scales.up scale number }
{
    match scale {
        Some(scale) => scale.up.times(number),
        None => number,
    }
}
