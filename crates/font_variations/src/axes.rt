//! The axes of a font, and its named instances.
ghost use Rattle.std.specs.Prelude.{◌≡◌, ◌<◌, ◌≤◌, ◌^◌};
ghost use Rattle.font_variations.specs.Axes;

use font_bytes::bytes::{i32_at, u16_at, u32_at};
use std::num::nearest_i32_to_f32;

/// 1 as a number of 16.16 bits.
pub const FIXED_ONE: f32 = 65536.0;

/// An axis along which a font varies, in the units of users: its tag, and from where to where it
/// goes.
#[derive(Clone, Copy)]
pub struct Axis {
    pub tag: u32,
    pub least: f32,
    pub default: f32,
    pub greatest: f32,
}

/// A number of 16.16 bits.
fn fixed(fvar: &[u8], at: usize) -> f32
    requires { at < 2 ^ 40 }
    ensures { result ≡ Axes.fixed fvar.now at }
{
    nearest_i32_to_f32(i32_at(fvar, at)) / FIXED_ONE
}

/// Where the records of instances stand.
fn instances_at(fvar: &[u8]) -> usize
    ensures value { result ≡ Axes.instances_at fvar.now }
    ensures near { result < 2 ^ 22 }
{
    usize::from(u16_at(fvar, 4)) + 20 * usize::from(u16_at(fvar, 8))
}

/// Whether the table is read: it is of major version 1, and holds all records, which have the
/// right sizes.
fn is_read(fvar: &[u8]) -> bool
    ensures { result ≡ Axes.is_read fvar.now }
{
    let size = usize::from(u16_at(fvar, 14));
    u16_at(fvar, 0) == 1
        && u16_at(fvar, 10) == 20
        && 4 * usize::from(u16_at(fvar, 8)) + 4 <= size
        && instances_at(fvar) + size * usize::from(u16_at(fvar, 12)) <= fvar.len()
}

/// How many axes a font has, by its table `fvar`; none if the table is empty, of another major
/// version than 1, or cut off.
pub fn axis_count(fvar: &[u8]) -> u16
    ensures { result ≡ Axes.axis_count fvar.now }
{
    if is_read(fvar) { u16_at(fvar, 8) } else { 0 }
}

/// How many named instances it has.
pub fn instance_count(fvar: &[u8]) -> u16
    ensures { result ≡ Axes.instance_count fvar.now }
{
    if is_read(fvar) { u16_at(fvar, 12) } else { 0 }
}

/// The axis with this number. What lies past the end of the table reads as 0.
pub fn nth_axis(fvar: &[u8], axis: u16) -> Axis
    ensures { result ≡ Axes.axis_of fvar.now axis }
{
    let at = usize::from(u16_at(fvar, 4)) + 20 * usize::from(axis);
    let default = fixed(fvar, at + 8);
    let (least, greatest) = (fixed(fvar, at + 4), fixed(fvar, at + 12));
    Axis {
        tag: u32_at(fvar, at),
        least: if default <= least { default } else { least },
        default,
        greatest: if default >= greatest {
            default
        } else {
            greatest
        },
    }
}

/// The coordinate along an axis of the named instance with this number, in the units of users.
pub fn instance_value(fvar: &[u8], instance: u16, axis: u16) -> f32
    ensures { result ≡ Axes.instance_value fvar.now instance axis }
{
    let size = usize::from(u16_at(fvar, 14));
    let at = instances_at(fvar) + size * usize::from(instance);
    fixed(fvar, at + 4 + 4 * usize::from(axis))
}
