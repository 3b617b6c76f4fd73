//! The segments that `avar` maps the coordinates of an axis by.
ghost use Rattle.std.specs.Prelude.{◌≡◌, ◌<◌, ◌≤◌, ◌^◌, pos, negsuc, ◌≤ℤ◌, ◌-ℤ◌, ◌-◌, ◌+◌};
ghost use Rattle.font_variations.specs.Segments;

use crate::deltas::rounded;
use font_bytes::bytes::{i16_at, u16_at};
use std::num::nearest_i32_to_f32;

/// The coordinate that pair `i` of the segments at `at` maps.
fn from(avar: &[u8], at: usize, i: u16) -> i32
    requires { at < 2 ^ 36 }
    ensures value { result ≡ Segments.from_of avar.now at i }
    ensures low { negsuc 32767 ≤ℤ result }
    ensures high { result ≤ℤ pos 32767 }
{
    i16_at(avar, at + 2 + 4 * usize::from(i))
}

/// The coordinate that it maps to.
fn to(avar: &[u8], at: usize, i: u16) -> i32
    requires { at < 2 ^ 36 }
    ensures value { result ≡ Segments.to_of avar.now at i }
    ensures low { negsuc 32767 ≤ℤ result }
    ensures high { result ≤ℤ pos 32767 }
{
    i16_at(avar, at + 4 + 4 * usize::from(i))
}

/// A value moved by as much as pair `i` moves its own coordinate.
fn moved(avar: &[u8], at: usize, value: i32, i: u16) -> i32
    requires at { at < 2 ^ 36 }
    requires low { negsuc 65535 ≤ℤ value }
    requires high { value ≤ℤ pos 65535 }
    ensures { result ≡ Segments.moved avar.now at value i }
{
    value - from(avar, at, i) + to(avar, at, i)
}

/// The first pair from number 1 on that the value isn't beyond, of those before the last; else the
/// last.
#[tactic(auto, using(crate::proofs::SegmentLemmas::reached_next, crate::proofs::SegmentLemmas::reached_here, crate::proofs::SegmentLemmas::reached_end))]
fn reached(avar: &[u8], at: usize, value: i32, last: u16) -> u16
    requires at { at < 2 ^ 36 }
    requires some { 1 ≤ last }
    ensures value { result ≡ Segments.reached avar.now at value (last - 1) 1 }
    ensures some { 1 ≤ result }
{
    for i in 1..last {
        if value <= from(avar, at, i) {
            return i;
        }
    }
    last
}

/// How far a number lies from another one, in binary32.
fn apart(low: i32, high: i32) -> f32
    requires least { negsuc 131071 ≤ℤ low }
    requires low { low ≤ℤ pos 131071 }
    requires lowest { negsuc 131071 ≤ℤ high }
    requires high { high ≤ℤ pos 131071 }
    ensures { result ≡ Segments.apart low high }
{
    nearest_i32_to_f32(high - low)
}

/// A value between pair `i - 1` and pair `i`, mapped evenly.
#[tactic(auto, unfolding(crate::specs::Segments::between))]
fn between(avar: &[u8], at: usize, value: i32, i: u16) -> i32
    requires at { at < 2 ^ 36 }
    requires some { 1 ≤ i }
    requires low { negsuc 65535 ≤ℤ value }
    requires high { value ≤ℤ pos 65535 }
    ensures { result ≡ Segments.between avar.now at value i }
{
    let (start, start_to) = (from(avar, at, i - 1), to(avar, at, i - 1));
    let rise = apart(start_to, to(avar, at, i)) * apart(start, value);
    let run = apart(start, from(avar, at, i));
    rounded(nearest_i32_to_f32(start_to) + rise / run)
}

/// A value up to pair `i`, the first that it isn't beyond.
fn up_to_pair(avar: &[u8], at: usize, value: i32, i: u16) -> i32
    requires at { at < 2 ^ 36 }
    requires some { 1 ≤ i }
    requires low { negsuc 65535 ≤ℤ value }
    requires high { value ≤ℤ pos 65535 }
    ensures { result ≡ Segments.up_to_pair avar.now at value i }
{
    if from(avar, at, i) <= value {
        return moved(avar, at, value, i);
    }
    between(avar, at, value, i)
}

/// Where the segments of the next axis stand, after those at `at`.
pub(crate) fn next_segments(avar: &[u8], at: usize) -> usize
    requires { at < 2 ^ 36 }
    ensures value { result ≡ Segments.next_at avar.now at }
    ensures near { result ≤ at + 262144 }
{
    at + 2 + 4 * usize::from(u16_at(avar, at))
}

/// A coordinate mapped by the segments at `at` (OpenType, `avar`, "Axis segment maps"); before the
/// first pair and after the last one it moves with that pair.
#[tactic(auto, unfolding(crate::specs::Segments::mapped_by))]
pub fn mapped_by(avar: &[u8], at: usize, value: i32) -> i32
    requires at { at < 2 ^ 36 }
    requires low { negsuc 65535 ≤ℤ value }
    requires high { value ≤ℤ pos 65535 }
    ensures { result ≡ Segments.mapped_by avar.now at value }
{
    let count = u16_at(avar, at);
    if count == 0 {
        return value;
    }
    if count == 1 {
        return moved(avar, at, value, 0);
    }
    if value <= from(avar, at, 0) {
        return moved(avar, at, value, 0);
    }
    up_to_pair(avar, at, value, reached(avar, at, value, count - 1))
}
