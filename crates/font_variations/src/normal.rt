//! Normalized coordinates, in units of 1/16384, from the units of users.
ghost use Rattle.std.specs.Prelude.{◌≡◌, pos, negsuc, ◌≤ℤ◌};
ghost use Rattle.font_variations.specs.Normal;

use crate::axes::Axis;
use crate::deltas::rounded;

/// 1 as a normalized coordinate.
pub const NORMAL_ONE: f32 = 16384.0;

/// A value within the axis; what is no number is at its least value.
fn clamped(axis: &Axis, value: f32) -> f32
    ensures { result ≡ Normal.clamped axis.now value }
{
    let low = if value >= axis.least {
        value
    } else {
        axis.least
    };
    if low <= axis.greatest {
        low
    } else {
        axis.greatest
    }
}

/// How far a value lies from the default, of how far it can lie.
fn share(value: f32, from: f32, span: f32) -> i32
    ensures { result ≡ Normal.share value from span }
{
    rounded((value - from) / span * NORMAL_ONE)
}

/// From -16384 to 16384.
pub(crate) fn bounded(n: i64) -> i32
    ensures value { result ≡ Normal.bounded n }
    ensures low { negsuc 16383 ≤ℤ result }
    ensures high { result ≤ℤ pos 16384 }
{
    if n < -16384 {
        return -16384;
    }
    if 16384 < n {
        return 16384;
    }
    n as i32
}

/// The normalized coordinate for a value of the axis, in the units of users: -16384 for the least
/// value, 0 for the default, 16384 for the greatest, and evenly between (OpenType, "Coordinate
/// Scales and Normalization").
#[tactic(auto, unfolding(crate::specs::Normal::normalized))]
pub fn normalized(axis: &Axis, wanted: f32) -> i32
    ensures value { result ≡ Normal.normalized axis.now wanted }
    ensures low { negsuc 16383 ≤ℤ result }
    ensures high { result ≤ℤ pos 16384 }
{
    let value = clamped(axis, wanted);
    if value == axis.default {
        return 0;
    }
    if value < axis.default {
        return bounded(i64::from(share(value, axis.default, axis.default - axis.least)));
    }
    bounded(i64::from(share(value, axis.default, axis.greatest - axis.default)))
}
