//! Coordinates of points along one axis: how far each point lies from the one before it (OpenType,
//! "glyf", simple glyphs).
ghost use Rattle.std.specs.Prelude.{◌≡◌, ◌≤◌, ◌<◌, ◌+◌, ◌^◌, length, pos, IfOk};
ghost use Rattle.std.specs.Option.{IfSome, option_map};
ghost use Rattle.glyf_points.specs.Axes;

use font_bytes::bytes::{i16_at, u8_at};
use shape_common::wrapping::{difference, sum};
use std::alloc::{AllocError, Global};

/// The bits of a flag that speak of one axis: whether a byte says how far the point lies, and
/// whether that is forwards, or, without such a byte, whether the point lies where the one before
/// it does.
#[derive(Clone, Copy)]
pub(crate) struct Axis {
    pub short: u8,
    pub same: u8,
}

/// Coordinates, and where their bytes end.
#[derive(Drop)]
pub(crate) struct AxisValues {
    pub values: Vec<i32>,
    pub end: usize,
}

/// How many bytes say how far a point with this flag lies from the one before it.
pub(crate) fn step_size(axis: Axis, flag: u8) -> usize
    ensures { result ≡ Axes.step_size axis flag }
{
    if flag & axis.short != 0 {
        1
    } else if flag & axis.same != 0 {
        0
    } else {
        2
    }
}

/// The coordinate of a point with this flag, after one that lies at `before`.
pub(crate) fn next_value(glyph: &[u8], at: usize, axis: Axis, flag: u8, before: i32) -> i32
    requires { at < 2 ^ 40 }
    ensures { result ≡ Axes.next_value glyph.now at axis flag before }
{
    let is_same = flag & axis.same != 0;
    if flag & axis.short != 0 {
        let far = i32::from(u8_at(glyph, at));
        if is_same {
            sum(before, far)
        } else {
            difference(before, far)
        }
    } else if is_same {
        before
    } else {
        sum(before, i16_at(glyph, at))
    }
}

/// The coordinates of points with these flags, whose bytes begin at `start`. None if they are cut
/// off. Refuses only if a growth was refused.
#[tactic(auto, using(crate::proofs::AxisLemmas::values_begun, crate::proofs::AxisLemmas::values_step, crate::proofs::AxisLemmas::values_cut, crate::proofs::AxisLemmas::values_end))]
pub(crate) fn coordinates(
    alloc: Global,
    glyph: &[u8],
    axis: Axis,
    flags: &[u8],
    start: usize,
) -> Result<Option<AxisValues>, AllocError>
    requires few { length glyph.now < 2 ^ 32 }
    requires start { start ≤ length glyph.now }
    ensures values { IfOk result (λ found. option_map (λ c. Axes.read c.values.items c.end) found
        ≡ Axes.values_of glyph.now axis flags.now start (pos 0)) }
    ensures inside { IfOk result (λ found. IfSome found (λ c. c.end ≤ length glyph.now)) }
    ensures each { IfOk result
        (λ found. IfSome found (λ c. length c.values.items ≡ length flags.now)) }
{
    let mut values = Vec::new(alloc);
    let mut value: i32 = 0;
    let mut at = start;
    for flag in flags {
        let size = step_size(axis, *flag);
        if glyph.len() - at < size {
            return Ok(None);
        }
        value = next_value(glyph, at, axis, *flag, value);
        at += size;
        values.push(value)?;
    }
    Ok(Some(AxisValues { values, end: at }))
}
