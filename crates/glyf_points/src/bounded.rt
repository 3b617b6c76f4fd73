//! Glyphs of few points or components, read without an allocator, for callers that may not refuse.
ghost use Rattle.std.specs.Prelude.{◌≡◌, ◌≤◌, ◌<◌, ◌+◌, ◌*◌, ◌^◌, length, pos};
ghost use Rattle.std.specs.Option.{IfSome, option_map};
ghost use Rattle.font_bytes.specs.Bytes.{u16_of};
ghost use Rattle.arrayvec.specs.ArrayVec.{array_vec_len};
ghost use Rattle.glyf_points.specs.Axes;
ghost use Rattle.glyf_points.specs.Bounded;
ghost use Rattle.glyf_points.specs.Composite;
ghost use Rattle.glyf_points.specs.Flags;
ghost use Rattle.glyf_points.specs.Simple;

use crate::axes::{Axis, next_value, step_size};
use crate::composite::{Component, component_at, component_size};
use crate::flags::{Flag, flag_after};
use crate::simple::GlyphPoint;
use arrayvec::ArrayVec;
use font_bytes::bytes::u16_at;

/// The most points of a glyph that is read so.
pub const MOST_POINTS: usize = 2048;

/// The most components.
pub const MOST_COMPONENTS: usize = 64;

/// Flags, and where they end.
#[derive(Drop)]
struct FewFlags {
    flags: ArrayVec<u8, MOST_POINTS>,
    end: usize,
}

/// Coordinates, and where their bytes end.
#[derive(Drop)]
struct FewValues {
    values: ArrayVec<i32, MOST_POINTS>,
    end: usize,
}

/// The flags of so many points from a place on. None if they are cut off.
#[tactic(auto, using(crate::proofs::FlagLemmas::flags_begun, crate::proofs::FlagLemmas::flags_step, crate::proofs::FlagLemmas::flags_cut, crate::proofs::FlagLemmas::flags_end))]
fn flags(glyph: &[u8], start: usize, count: u32) -> Option<FewFlags>
    requires start { start ≤ length glyph.now }
    requires few { count ≤ 2048 }
    ensures list { option_map (λ f. Flags.read f.flags.items f.end) result
        ≡ Flags.flags_of glyph.now count (Flags.first start) }
    ensures inside { IfSome result (λ f. f.end ≤ length glyph.now) }
    ensures each { IfSome result (λ f. array_vec_len f.flags ≡ count) }
{
    let mut flags = ArrayVec::new();
    let mut last = Flag {
        flag: 0,
        left: 0,
        next: start,
    };
    for _i in 0..count {
        let Some(flag) = flag_after(glyph, last) else {
            return None;
        };
        flags.push(flag.flag);
        last = flag;
    }
    Some(FewFlags {
        flags,
        end: last.next,
    })
}

/// The coordinates of points with these flags, whose bytes begin at `start`. None if they are cut
/// off.
#[tactic(auto, using(crate::proofs::AxisLemmas::values_begun, crate::proofs::AxisLemmas::values_step, crate::proofs::AxisLemmas::values_cut, crate::proofs::AxisLemmas::values_end))]
fn coordinates(glyph: &[u8], axis: Axis, flags: &[u8], start: usize) -> Option<FewValues>
    requires long { length glyph.now < 2 ^ 32 }
    requires start { start ≤ length glyph.now }
    requires few { length flags.now ≤ 2048 }
    ensures values { option_map (λ c. Axes.read c.values.items c.end) result
        ≡ Axes.values_of glyph.now axis flags.now start (pos 0) }
    ensures inside { IfSome result (λ c. c.end ≤ length glyph.now) }
    ensures each { IfSome result (λ c. array_vec_len c.values ≡ length flags.now) }
{
    let mut values = ArrayVec::new();
    let mut value: i32 = 0;
    let mut at = start;
    for flag in flags {
        let size = step_size(axis, *flag);
        if glyph.len() - at < size {
            return None;
        }
        value = next_value(glyph, at, axis, *flag, value);
        at += size;
        values.push(value);
    }
    Some(FewValues { values, end: at })
}

/// The points with these flags and coordinates, of which as many are given.
#[tactic(auto, using(crate::proofs::PointLemmas::joined_step, crate::proofs::PointLemmas::joined_end))]
fn joined(flags: &[u8], xs: &[i32], ys: &[i32]) -> ArrayVec<GlyphPoint, MOST_POINTS>
    requires few { length flags.now ≤ 2048 }
    requires xs { length xs.now ≡ length flags.now }
    requires ys { length ys.now ≡ length flags.now }
    ensures { result.items ≡ Simple.joined flags.now xs.now ys.now }
{
    let mut points = ArrayVec::new();
    for i in 0..flags.len() {
        points.push(GlyphPoint {
            x: xs[i],
            y: ys[i],
            on: flags[i] & 1 != 0,
            ends: false,
        });
    }
    points
}

/// Marks the last points of so many contours.
#[tactic(auto, using(crate::proofs::PointLemmas::marked_step))]
fn mark_ends(glyph: &[u8], contours: u16, points: &mut [GlyphPoint])
    ensures { points.new ≡ Simple.ends_marked glyph.now contours points.old }
{
    for i in 0..contours {
        let end = usize::from(u16_at(glyph, 10 + 2 * usize::from(i)));
        if end < points.len() {
            points[end].ends = true;
        }
    }
}

/// The points of a glyph with so many contours, whose flags begin at `start`.
fn points_at(glyph: &[u8], contours: u16, start: usize) -> Option<ArrayVec<GlyphPoint, MOST_POINTS>>
    requires some { 0 < contours }
    requires long { length glyph.now < 2 ^ 32 }
    requires start { start ≤ length glyph.now }
    requires few { u16_of glyph.now (8 + 2 * contours) + 1 ≤ 2048 }
    ensures { option_map (λ points. points.items) result ≡ Simple.points_at glyph.now contours start }
{
    let count = u32::from(u16_at(glyph, 8 + 2 * usize::from(contours))) + 1;
    let across = Axis { short: 2, same: 16 };
    let upwards = Axis { short: 4, same: 32 };
    let flags = flags(glyph, start, count)?;
    let xs = coordinates(glyph, across, flags.flags.as_slice(), flags.end)?;
    let ys = coordinates(glyph, upwards, flags.flags.as_slice(), xs.end)?;
    let mut points = joined(
        flags.flags.as_slice(),
        xs.values.as_slice(),
        ys.values.as_slice(),
    );
    mark_ends(glyph, contours, points.as_mut_slice());
    Some(points)
}

/// How many points a glyph says that it has: 0 if it is empty, or made of others.
pub fn own_points(glyph: &[u8]) -> u32
    ensures value { result ≡ Bounded.own_points glyph.now }
    ensures few { result ≤ 65536 }
{
    let contours = u16_at(glyph, 0);
    if contours == 0 || 0x8000 <= contours {
        return 0;
    }
    u32::from(u16_at(glyph, 8 + 2 * usize::from(contours))) + 1
}

/// The points of a glyph that is drawn by itself, as [`points`] reads them; none of more than
/// [`MOST_POINTS`].
///
/// [`points`]: crate::simple::points
pub fn few_points(glyph: &[u8]) -> Option<ArrayVec<GlyphPoint, MOST_POINTS>>
    ensures { option_map (λ points. points.items) result ≡ Bounded.few_points glyph.now }
{
    let contours = u16_at(glyph, 0);
    if contours == 0 || 0x8000 <= contours {
        return Some(ArrayVec::new());
    }
    let head = 12 + 2 * usize::from(contours);
    if 2048 < own_points(glyph) || 0xFFFF_FFFF < glyph.len() || glyph.len() < head {
        return None;
    }
    let start = head + usize::from(u16_at(glyph, head - 2));
    if glyph.len() <= start {
        return None;
    }
    points_at(glyph, contours, start)
}

/// The glyphs that a glyph is made of, at most so many.
#[tactic(auto, using(crate::proofs::ComponentLemmas::components_step, crate::proofs::ComponentLemmas::components_last, crate::proofs::ComponentLemmas::components_cut, crate::proofs::ComponentLemmas::components_over))]
fn components_within(glyph: &[u8], most: u32) -> ArrayVec<Component, MOST_COMPONENTS>
    requires { most ≤ 64 }
    ensures { result.items ≡ Composite.components_of glyph.now most }
{
    let mut components = ArrayVec::new();
    if u16_at(glyph, 0) < 0x8000 || 0xFFFF_FFFF < glyph.len() {
        return components;
    }
    let mut at: usize = 10;
    for _i in 0..most {
        let flags = u16_at(glyph, at);
        let size = component_size(flags);
        if glyph.len() < at + size {
            return components;
        }
        components.push(component_at(glyph, at, flags));
        if flags & 0x20 == 0 {
            return components;
        }
        at += size;
    }
    components
}

/// The glyphs that a glyph is made of, as [`components`] reads them: the first [`MOST_COMPONENTS`].
///
/// [`components`]: crate::composite::components
#[tactic(auto, unfolding(crate::specs::Bounded::few_components))]
pub fn few_components(glyph: &[u8]) -> ArrayVec<Component, MOST_COMPONENTS>
    ensures { result.items ≡ Bounded.few_components glyph.now }
{
    components_within(glyph, 64)
}
