//! Numbers of `GPOS` at a size of the font, as HarfBuzz rounds them: those of value records at
//! once, and anchors, which are numbers of binary32, once they are taken from each other.
ghost use Rattle.std.specs.Prelude.{◌≡◌};
ghost use Rattle.layout_positions.specs.Sizes;

use crate::anchors::Anchor;
use font_sizes::{Axis, Scale};
use font_variations::deltas::rounded;
use layout_matching::lookup::Lookup;
use std::num::nearest_i32_to_f32;

/// The origin of a glyph.
pub(crate) const ORIGIN: Anchor = Anchor {
    x: 0,
    y: 0,
    x_delta: 0,
    y_delta: 0,
};

/// What numbers along the line are multiplied by; none at no size.
pub(crate) fn axis_across(lookup: &Lookup<'_>) -> Option<Axis>
    ensures { result ≡ Sizes.axis_across lookup.now }
{
    match lookup.scale {
        Some(scale) => Some(scale.across),
        None => None,
    }
}

/// What numbers upwards are multiplied by; none at no size.
pub(crate) fn axis_up(lookup: &Lookup<'_>) -> Option<Axis>
    ensures { result ≡ Sizes.axis_up lookup.now }
{
    match lookup.scale {
        Some(scale) => Some(scale.up),
        None => None,
    }
}

/// A real number along an axis that may have a size, to the nearest whole one, halves upwards.
pub(crate) fn rounded_at(axis: Option<Axis>, x: f32) -> i32
    ensures { result ≡ Sizes.rounded_at axis x }
{
    match axis {
        Some(axis) => rounded(axis.stretched(x)),
        None => rounded(x),
    }
}

/// A coordinate of an anchor at a size, and what devices add to it there.
fn real(axis: &Axis, number: i32, delta: i32) -> f32
    ensures { result ≡ Sizes.real axis.now number delta }
{
    axis.real(number) + nearest_i32_to_f32(delta)
}

/// An anchor at a size, each coordinate to the nearest whole number.
fn placed_at(scale: &Scale, anchor: Anchor) -> Anchor
    ensures { result ≡ Sizes.placed_at scale.now anchor }
{
    Anchor {
        x: rounded(real(&scale.across, anchor.x, anchor.x_delta)),
        y: rounded(real(&scale.up, anchor.y, anchor.y_delta)),
        x_delta: 0,
        y_delta: 0,
    }
}

/// How far an anchor stands from another one at a size: taken from each other, and then rounded.
fn gap_at(scale: &Scale, anchor: Anchor, other: Anchor) -> Anchor
    ensures { result ≡ Sizes.gap_at scale.now anchor other }
{
    let across = real(&scale.across, anchor.x, anchor.x_delta);
    let up = real(&scale.up, anchor.y, anchor.y_delta);
    Anchor {
        x: rounded(across - real(&scale.across, other.x, other.x_delta)),
        y: rounded(up - real(&scale.up, other.y, other.y_delta)),
        x_delta: 0,
        y_delta: 0,
    }
}

/// Where an anchor stands, by itself.
#[inline(always)]
pub(crate) fn placed(lookup: &Lookup<'_>, anchor: Anchor) -> Anchor
    ensures { result ≡ Sizes.placed lookup.now anchor }
{
    match &lookup.scale {
        Some(scale) => placed_at(scale, anchor),
        None => anchor,
    }
}

/// Where an anchor stands as another one sees it that stands on the [`footing`].
#[inline(always)]
pub(crate) fn apart(lookup: &Lookup<'_>, anchor: Anchor, other: Anchor) -> Anchor
    ensures { result ≡ Sizes.apart lookup.now anchor other }
{
    match &lookup.scale {
        Some(scale) => gap_at(scale, anchor, other),
        None => anchor,
    }
}

/// Where that other one stands: at a size at the origin, so that what is between the two isn't
/// rounded twice.
#[inline(always)]
pub(crate) fn footing(lookup: &Lookup<'_>, anchor: Anchor) -> Anchor
    ensures { result ≡ Sizes.footing lookup.now anchor }
{
    match lookup.scale {
        Some(_) => ORIGIN,
        None => anchor,
    }
}
