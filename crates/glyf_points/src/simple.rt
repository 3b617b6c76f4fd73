//! The points of a glyph that is drawn by itself (OpenType, "glyf", simple glyphs).
ghost use Rattle.std.specs.Prelude.{◌≡◌, ◌≤◌, ◌<◌, ◌+◌, ◌*◌, ◌^◌, length, IfOk};
ghost use Rattle.std.specs.Option.{option_map};
ghost use Rattle.glyf_points.specs.Axes.{across, upwards};
ghost use Rattle.glyf_points.specs.Simple;

use crate::axes::{Axis, coordinates};
use crate::flags::flags;
use font_bytes::bytes::u16_at;
use std::alloc::{AllocError, Global};

/// A point of a glyph, in units of the font, y upwards: `on` if the outline goes through it, `ends`
/// if it is the last one of its contour.
#[derive(Clone, Copy, PartialEq, Debug, Default)]
pub struct GlyphPoint {
    pub x: i32,
    pub y: i32,
    pub on: bool,
    pub ends: bool,
}

/// The points with these flags and coordinates, of which as many are given.
#[tactic(auto, using(crate::proofs::PointLemmas::joined_step, crate::proofs::PointLemmas::joined_end))]
fn joined(
    alloc: Global,
    flags: &[u8],
    xs: &[i32],
    ys: &[i32],
) -> Result<Vec<GlyphPoint>, AllocError>
    requires xs { length xs.now ≡ length flags.now }
    requires ys { length ys.now ≡ length flags.now }
    ensures { IfOk result (λ points. points.items ≡ Simple.joined flags.now xs.now ys.now) }
{
    let mut points = Vec::new(alloc);
    for i in 0..flags.len() {
        points.push(GlyphPoint {
            x: xs[i],
            y: ys[i],
            on: flags[i] & 1 != 0,
            ends: false,
        })?;
    }
    Ok(points)
}

/// Marks the last points of so many contours.
#[tactic(auto, using(crate::proofs::PointLemmas::marked_step))]
fn mark_ends(glyph: &[u8], contours: u16, points: &mut Vec<GlyphPoint>)
    ensures { points.new.items ≡ Simple.ends_marked glyph.now contours points.old.items }
{
    for i in 0..contours {
        let end = usize::from(u16_at(glyph, 10 + 2 * usize::from(i)));
        if end < points.len() {
            points[end].ends = true;
        }
    }
}

/// The points of a glyph with so many contours, whose flags begin at `start`.
fn points_at(
    alloc: Global,
    glyph: &[u8],
    contours: u16,
    start: usize,
) -> Result<Option<Vec<GlyphPoint>>, AllocError>
    requires some { 0 < contours }
    requires few { length glyph.now < 2 ^ 32 }
    requires start { start ≤ length glyph.now }
    ensures { IfOk result (λ found. option_map (λ points. points.items) found
        ≡ Simple.points_at glyph.now contours start) }
{
    let count = u32::from(u16_at(glyph, 8 + 2 * usize::from(contours))) + 1;
    let across = Axis { short: 2, same: 16 };
    let upwards = Axis { short: 4, same: 32 };
    let Some(flags) = flags(alloc, glyph, start, count)? else {
        return Ok(None);
    };
    let Some(xs) = coordinates(alloc, glyph, across, flags.flags.as_slice(), flags.end)? else {
        return Ok(None);
    };
    let Some(ys) = coordinates(alloc, glyph, upwards, flags.flags.as_slice(), xs.end)? else {
        return Ok(None);
    };
    let mut points = joined(
        alloc,
        flags.flags.as_slice(),
        xs.values.as_slice(),
        ys.values.as_slice(),
    )?;
    mark_ends(glyph, contours, &mut points);
    Ok(Some(points))
}

/// How many points and contours a glyph says that it has, which is what its points cost to read,
/// also if they are cut off: 0 if it is empty, or made of others.
pub fn said(glyph: &[u8]) -> u32
    ensures { result ≡ Simple.said glyph.now }
{
    let contours = u16_at(glyph, 0);
    if contours == 0 || 0x8000 <= contours {
        return 0;
    }
    u32::from(u16_at(glyph, 8 + 2 * usize::from(contours))) + 1 + u32::from(contours)
}

/// The points of a glyph that is drawn by itself, contour after contour: those of an empty glyph,
/// and of one that is made of others, are none. `None` if a part of it is cut off, and for 4 GiB or
/// more. Refuses only if a growth was refused.
pub fn points(alloc: Global, glyph: &[u8]) -> Result<Option<Vec<GlyphPoint>>, AllocError>
    ensures { IfOk result (λ found. option_map (λ points. points.items) found
        ≡ Simple.points_of glyph.now) }
{
    let contours = u16_at(glyph, 0);
    if contours == 0 || 0x8000 <= contours {
        return Ok(Some(Vec::new(alloc)));
    }
    let head = 12 + 2 * usize::from(contours);
    if 0xFFFF_FFFF < glyph.len() || glyph.len() < head {
        return Ok(None);
    }
    let start = head + usize::from(u16_at(glyph, head - 2));
    if glyph.len() <= start {
        return Ok(None);
    }
    points_at(alloc, glyph, contours, start)
}
