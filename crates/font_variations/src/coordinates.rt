//! The coordinates of an instance of a font.
ghost use Rattle.std.specs.Prelude.{◌≡◌, ◌<◌, ◌^◌, ◌+ℤ◌, IfOk, length};
ghost use Rattle.std.specs.Option.{IfSome};
ghost use Rattle.std.specs.Vec.{vec_len};
ghost use Rattle.font_variations.specs.Coordinates;
ghost use Rattle.font_variations.specs.Segments;

use crate::axes::{axis_count, instance_count, instance_value, nth_axis};
use crate::deltas::{delta_within, rounded};
use crate::index_maps::mapped;
use crate::normal::{bounded, normalized};
use crate::parts::part_at;
use crate::regions::coordinate;
use crate::segments::{mapped_by, next_segments};
use font_bytes::bytes::{u16_at, u32_at};
use std::alloc::{AllocError, Global};

/// How many steps the shifts of all axes take at most, by an `avar` of version 2: for each axis one
/// for each column of its row, and for each axis of a column's region. A row that takes more than
/// its share isn't read.
pub const MOST_SHIFT_STEPS: u32 = 16_777_216;

/// A wish for an axis: its tag, as a number, and the value, in the units of users.
#[derive(Clone, Copy)]
pub struct Variation {
    pub tag: u32,
    pub value: f32,
}

/// What is wanted of a font: a named instance, by its number, and wishes for axes.
#[derive(Clone, Copy)]
pub struct Wanted<'a> {
    pub instance: Option<u16>,
    pub wishes: &'a [Variation],
}

impl<'a> Wanted<'a> {
    /// Whether nothing is wanted.
    fn is_nothing(&self) -> bool
        ensures { result ≡ Coordinates.is_nothing self.now.instance self.now.wishes.now }
    {
        self.instance.is_none() && self.wishes.is_empty()
    }
}

/// The value of an axis in the named instance, if the font has it, else its default.
fn instance_or_default(fvar: &[u8], instance: Option<u16>, axis: u16) -> f32
    ensures { result ≡ Coordinates.instance_or_default fvar.now instance axis }
{
    match instance {
        Some(i) if i < instance_count(fvar) => instance_value(fvar, i, axis),
        _ => nth_axis(fvar, axis).default,
    }
}

/// The value of an axis in the units of users: the last one that is wished for it, else that of
/// the named instance, or the default.
#[tactic(auto, unfolding(crate::specs::Coordinates::design_value))]
fn design_value(fvar: &[u8], instance: Option<u16>, wishes: &[Variation], axis: u16) -> f32
    ensures { result ≡ Coordinates.design_value fvar.now instance wishes.now axis }
{
    let tag = nth_axis(fvar, axis).tag;
    let first = instance_or_default(fvar, instance, axis);
    wishes.iter().fold(
        first,
        |value, wish| if wish.tag == tag { wish.value } else { value },
    )
}

/// Where the segments of `avar` end that it has for its first `count` axes.
#[tactic(auto, using(crate::proofs::SegmentLemmas::segments_next))]
fn segments_at(avar: &[u8], count: u16) -> usize
    ensures value { result ≡ Segments.segments_at avar.now count }
    ensures near { result < 2 ^ 35 }
{
    let mut at = 8;
    for _axis in 0..count {
        at = next_segments(avar, at);
    }
    at
}

/// Whether the table `avar` is read: it is of major version 1 or 2, and holds the segments of all
/// its axes.
fn has_segments(avar: &[u8]) -> bool
    ensures { result ≡ Coordinates.has_segments avar.now }
{
    let version = u16_at(avar, 0);
    (version == 1 || version == 2) && segments_at(avar, u16_at(avar, 6)) <= avar.len()
}

/// Where the segments of an axis stand, if it has some, from where they would stand.
fn segments_of(avar: &[u8], read: bool, axis: u16, at: usize) -> Option<usize>
    requires read { read ≡ Coordinates.has_segments avar.now }
    requires at { at ≡ Segments.segments_at avar.now axis }
    requires near { at < 2 ^ 36 }
    ensures value { result ≡ Coordinates.segments_of avar.now axis }
    ensures near { IfSome result (λ place. place < 2 ^ 36) }
{
    if !read {
        return None;
    }
    if axis < u16_at(avar, 6) {
        Some(at)
    } else {
        None
    }
}

/// The coordinate of an axis, whose segments would stand at `at`.
#[tactic(auto, unfolding(crate::specs::Coordinates::axis_coordinate))]
fn axis_coordinate(
    fvar: &[u8],
    avar: &[u8],
    read: bool,
    at: usize,
    wanted: &Wanted<'_>,
    axis: u16,
) -> i32
    requires read { read ≡ Coordinates.has_segments avar.now }
    requires at { at ≡ Segments.segments_at avar.now axis }
    requires near { at < 2 ^ 36 }
    ensures { result ≡ Coordinates.axis_coordinate fvar.now avar.now wanted.now.instance
        wanted.now.wishes.now axis }
{
    let design = design_value(fvar, wanted.instance, wanted.wishes, axis);
    let value = normalized(&nth_axis(fvar, axis), design);
    match segments_of(avar, read, axis, at) {
        Some(at) => mapped_by(avar, at, value),
        None => value,
    }
}

/// The coordinates of the axes, each mapped by its segments.
fn by_segments(
    alloc: Global,
    fvar: &[u8],
    avar: &[u8],
    wanted: &Wanted<'_>,
) -> Result<Vec<i32>, AllocError>
    ensures ok { IfOk result (λ v. v.items
        ≡ Coordinates.by_segments fvar.now avar.now wanted.now.instance wanted.now.wishes.now) }
    ensures few { IfOk result (λ v. vec_len v < 2 ^ 16) }
{
    let read = has_segments(avar);
    let mut coordinates = Vec::new(alloc);
    let mut at = 8;
    for axis in 0..axis_count(fvar) {
        coordinates.push(axis_coordinate(fvar, avar, read, at, wanted, axis))?;
        at = next_segments(avar, at);
    }
    Ok(coordinates)
}

/// How far the delta set for an axis shifts its coordinate.
#[tactic(auto, unfolding(crate::specs::Coordinates::shift_of))]
fn shift_of(avar: &[u8], tail: usize, coordinates: &[i32], axis: usize) -> i32
    requires tail { tail ≡ Coordinates.tail_of avar.now }
    requires near { tail < 2 ^ 36 }
    requires axis { axis < length coordinates.now }
    requires few { length coordinates.now < 2 ^ 16 }
    ensures { result ≡ Coordinates.shift_of avar.now coordinates.now axis }
{
    let map = part_at(avar, u32_at(avar, tail) as usize);
    let store = part_at(avar, u32_at(avar, tail + 4) as usize);
    let most = MOST_SHIFT_STEPS / coordinates.len() as u32;
    rounded(delta_within(most, store, coordinates, mapped(map, axis as u32)))
}

/// The sum of two numbers, which 64 bits hold.
fn sum(a: i32, b: i32) -> i64
    ensures { result ≡ a +ℤ b }
{
    i64::from(a) + i64::from(b)
}

/// A coordinate shifted by the delta set for its axis.
#[tactic(auto, unfolding(crate::specs::Coordinates::shifted))]
fn shifted(avar: &[u8], tail: usize, coordinates: &[i32], axis: usize) -> i32
    requires tail { tail ≡ Coordinates.tail_of avar.now }
    requires near { tail < 2 ^ 36 }
    requires axis { axis < length coordinates.now }
    requires few { length coordinates.now < 2 ^ 16 }
    ensures { result ≡ Coordinates.shifted avar.now coordinates.now axis }
{
    bounded(sum(
        coordinate(coordinates, axis),
        shift_of(avar, tail, coordinates, axis),
    ))
}

/// The coordinates shifted by the deltas of an `avar` of version 2.
fn shifted_each(alloc: Global, avar: &[u8], coordinates: &[i32]) -> Result<Vec<i32>, AllocError>
    requires { length coordinates.now < 2 ^ 16 }
    ensures { IfOk result (λ v. v.items
        ≡ Coordinates.shifted_each avar.now coordinates.now) }
{
    let tail = segments_at(avar, u16_at(avar, 6));
    let mut out = Vec::new(alloc);
    for axis in 0..coordinates.len() {
        out.push(shifted(avar, tail, coordinates, axis))?;
    }
    Ok(out)
}

/// The coordinates of an instance of a font, normalized, one for each axis of `fvar`: those of the
/// named instance that is wanted, or the defaults, with the wishes in their place, mapped by
/// `avar` (OpenType, "Coordinate Scales and Normalization"). A wish for an axis that the font
/// doesn't have says nothing. Where nothing is wanted there are none: the default instance.
/// Refuses only if a growth was refused.
pub fn coordinates(
    alloc: Global,
    fvar: &[u8],
    avar: &[u8],
    wanted: &Wanted<'_>,
) -> Result<Vec<i32>, AllocError>
    ensures { IfOk result (λ v. v.items
        ≡ Coordinates.coordinates_of fvar.now avar.now wanted.now.instance wanted.now.wishes.now) }
{
    if wanted.is_nothing() {
        return Ok(Vec::new(alloc));
    }
    let coordinates = by_segments(alloc, fvar, avar, wanted)?;
    if has_segments(avar) && u16_at(avar, 0) == 2 {
        return shifted_each(alloc, avar, coordinates.as_slice());
    }
    Ok(coordinates)
}
