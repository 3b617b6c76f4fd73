//! Tuples of a glyph: where each takes part, and how far.
ghost use Rattle.std.specs.Prelude.{◌≡◌, ◌<◌, ◌≤◌, ◌^◌, pos, negsuc, ◌≤ℤ◌, ◌-ℤ◌, slice_index_or};
ghost use Rattle.glyph_variations.specs.Glyph.{stored};
ghost use Rattle.glyph_variations.specs.Tuples;

use crate::glyph::GlyphVariations;
use font_bytes::bytes::{i16_at, u16_at};
use std::num::{nearest_f64_to_f32_with_nan, nearest_i64_to_f64};

/// From where to where a tuple takes part along an axis, and where most. In units of 1/16384.
#[derive(Clone, Copy)]
struct Span {
    start: i32,
    peak: i32,
    end: i32,
}

fn flags(bytes: &[u8], at: usize) -> u16
    requires { at < 2 ^ 38 }
    ensures { result ≡ Tuples.flags_of bytes.now at }
{
    u16_at(bytes, at + 2)
}

/// Whether the peak stands in the header.
fn has_peak(bytes: &[u8], at: usize) -> bool
    requires { at < 2 ^ 38 }
    ensures { result ≡ Tuples.has_peak bytes.now at }
{
    0x8000 <= flags(bytes, at)
}

/// Whether start and end stand in the header.
fn has_span(bytes: &[u8], at: usize) -> bool
    requires { at < 2 ^ 38 }
    ensures { result ≡ Tuples.has_span bytes.now at }
{
    flags(bytes, at) / 0x4000 % 2 == 1
}

/// Whether the tuple has points of its own.
pub(crate) fn has_points(bytes: &[u8], at: usize) -> bool
    requires { at < 2 ^ 38 }
    ensures { result ≡ Tuples.has_points bytes.now at }
{
    flags(bytes, at) / 0x2000 % 2 == 1
}

/// The number of the shared peak.
fn shared_number(bytes: &[u8], at: usize) -> usize
    requires { at < 2 ^ 38 }
    ensures value { result ≡ Tuples.shared_number bytes.now at }
    ensures few { result < 2 ^ 12 }
{
    usize::from(flags(bytes, at) % 0x1000)
}

/// How many bytes a peak of its own has.
fn peak_size(glyph: &GlyphVariations<'_>, at: usize) -> usize
    requires { at < 2 ^ 38 }
    ensures value { result ≡ Tuples.peak_size (stored glyph.now) at }
    ensures small { result < 2 ^ 17 }
{
    if has_peak(glyph.bytes, at) {
        2 * usize::from(glyph.axes)
    } else {
        0
    }
}

/// How many bytes the header at `at` has.
pub(crate) fn header_size(glyph: &GlyphVariations<'_>, at: usize) -> usize
    requires { at < 2 ^ 38 }
    ensures value { result ≡ Tuples.header_size (stored glyph.now) at }
    ensures small { result < 2 ^ 19 }
{
    let span = if has_span(glyph.bytes, at) {
        4 * usize::from(glyph.axes)
    } else {
        0
    };
    4 + peak_size(glyph, at) + span
}

/// Whether the peak is there.
fn is_known(glyph: &GlyphVariations<'_>, at: usize) -> bool
    requires { at < 2 ^ 38 }
    ensures { result ≡ Tuples.is_known (stored glyph.now) at }
{
    let shared = usize::from(glyph.axes) * (shared_number(glyph.bytes, at) + 1);
    has_peak(glyph.bytes, at) || 2 * shared <= glyph.shared.len()
}

/// The peak along an axis.
fn peak(glyph: &GlyphVariations<'_>, at: usize, axis: u16) -> i32
    requires { at < 2 ^ 38 }
    ensures value { result ≡ Tuples.peak_of (stored glyph.now) at axis }
    ensures low { negsuc 32767 ≤ℤ result }
    ensures high { result ≤ℤ pos 32767 }
{
    if has_peak(glyph.bytes, at) {
        return i16_at(glyph.bytes, at + 4 + 2 * usize::from(axis));
    }
    let first = usize::from(glyph.axes) * shared_number(glyph.bytes, at);
    i16_at(glyph.shared, 2 * (first + usize::from(axis)))
}

/// Where the tuple begins to take part along an axis.
fn start(glyph: &GlyphVariations<'_>, at: usize, axis: u16) -> i32
    requires { at < 2 ^ 38 }
    ensures value { result ≡ Tuples.start_of (stored glyph.now) at axis }
    ensures low { negsuc 32767 ≤ℤ result }
    ensures high { result ≤ℤ pos 32767 }
{
    if has_span(glyph.bytes, at) {
        let place = at + 4 + peak_size(glyph, at) + 2 * usize::from(axis);
        return i16_at(glyph.bytes, place);
    }
    let peak = peak(glyph, at, axis);
    if peak < 0 { peak } else { 0 }
}

/// Where it ends.
fn end(glyph: &GlyphVariations<'_>, at: usize, axis: u16) -> i32
    requires { at < 2 ^ 38 }
    ensures value { result ≡ Tuples.end_of (stored glyph.now) at axis }
    ensures low { negsuc 32767 ≤ℤ result }
    ensures high { result ≤ℤ pos 32767 }
{
    if has_span(glyph.bytes, at) {
        let first = at + 4 + peak_size(glyph, at) + 2 * usize::from(glyph.axes);
        return i16_at(glyph.bytes, first + 2 * usize::from(axis));
    }
    let peak = peak(glyph, at, axis);
    if peak < 0 { 0 } else { peak }
}

/// One integer over another one, to the nearest number.
#[tactic(auto, unfolding(crate::specs::Tuples::ratio64))]
fn ratio(part: i64, whole: i64) -> f64
    ensures { result ≡ Tuples.ratio64 part whole }
{
    nearest_i64_to_f64(part) / nearest_i64_to_f64(whole)
}

/// How far one coordinate lies above another one.
fn above(low: i32, high: i32) -> i64
    ensures { result ≡ high -ℤ low }
{
    i64::from(high) - i64::from(low)
}

impl Span {
    /// Whether the axis is left out: it is out of order, or its start and its end stand on either
    /// side of 0.
    fn is_malformed(&self) -> bool
        ensures { result ≡ Tuples.is_malformed self.now.start self.now.peak self.now.end }
    {
        self.peak < self.start || self.end < self.peak || (self.start < 0 && 0 < self.end)
    }

    /// How far a well formed axis takes part at a coordinate that is not its peak.
    fn slope(&self, coordinate: i32) -> f64
        ensures { result ≡ Tuples.slope64 self.now.start self.now.peak self.now.end coordinate }
    {
        if coordinate < self.start || self.end < coordinate {
            return 0.0;
        }
        if coordinate < self.peak {
            ratio(above(self.start, coordinate), above(self.start, self.peak))
        } else {
            ratio(above(coordinate, self.end), above(self.peak, self.end))
        }
    }

    /// How far the axis takes part at a coordinate.
    #[tactic(auto, unfolding(crate::specs::Tuples::part_of))]
    fn part(&self, coordinate: i32) -> f64
        ensures { result ≡ Tuples.part_of self.now.start self.now.peak self.now.end coordinate }
    {
        if self.peak == 0 || coordinate == self.peak || self.is_malformed() {
            return 1.0;
        }
        self.slope(coordinate)
    }
}

/// The coordinate of an axis, 0 past the last one that is given.
fn coordinate(coordinates: &[i32], axis: u16) -> i32
    ensures { result ≡ slice_index_or coordinates.now axis (pos 0) }
{
    let i = usize::from(axis);
    if i < coordinates.len() {
        coordinates[i]
    } else {
        0
    }
}

/// How far a tuple takes part along an axis.
fn axis_part(glyph: &GlyphVariations<'_>, at: usize, axis: u16) -> f64
    requires { at < 2 ^ 38 }
    ensures { result ≡ Tuples.axis_part (stored glyph.now) at axis }
{
    let span = Span {
        start: start(glyph, at, axis),
        peak: peak(glyph, at, axis),
        end: end(glyph, at, axis),
    };
    span.part(coordinate(glyph.coordinates, axis))
}

/// The product over all axes.
#[tactic(auto, using(crate::proofs::TimesLemmas::product_step))]
fn product(glyph: &GlyphVariations<'_>, at: usize) -> f64
    requires { at < 2 ^ 38 }
    ensures { result ≡ Tuples.product_of (Tuples.axis_part (stored glyph.now) at) (stored glyph.now).axes }
{
    let mut product = 1.0;
    for axis in 0..glyph.axes {
        product *= axis_part(glyph, at, axis);
    }
    product
}

/// How far the tuple whose header stands at `at` takes part at the coordinates. 0 without its
/// shared peak. Takes a step for each axis.
#[tactic(auto, unfolding(crate::specs::Tuples::scalar_of))]
pub(crate) fn scalar(glyph: &GlyphVariations<'_>, at: usize) -> f32
    requires { at < 2 ^ 38 }
    ensures { result ≡ Tuples.scalar_of (stored glyph.now) at }
{
    if is_known(glyph, at) {
        nearest_f64_to_f32_with_nan(product(glyph, at))
    } else {
        0.0
    }
}
