//! Where the points of a glyph of `glyf` stand at coordinates of a variable font (OpenType,
//! "gvar"). Sums are those of binary32.
ghost use Rattle.std.specs.Prelude.{◌≡◌, ◌≤◌, length, map, IfOk};
ghost use Rattle.glyph_variations.specs.Glyph.{stored};
ghost use Rattle.shape_font.specs.BoxesAt;
ghost use Rattle.glyph_outlines.specs.Varied;

use glyf_points::{Component, GlyphPoint};
use glyph_variations::glyph::GlyphVariations;
use glyph_variations::inferred::Listed;
use glyph_variations::outline::OutlineAxis;
use glyph_variations::sums::Moving;
use shape_font::moved::{coordinate, offset};
use std::alloc::{AllocError, Global};

/// A point of a glyph at coordinates, in units of the font, y upwards, or the offset of a
/// component.
#[derive(Clone, Copy)]
pub struct VariedPoint {
    pub x: f32,
    pub y: f32,
    pub on: bool,
    pub ends: bool,
}

/// Points at coordinates, and how much of variations may still be read.
#[derive(Drop)]
pub struct VariedPoints {
    pub points: Vec<VariedPoint>,
    pub left: u32,
}

/// The points, each where it has come to stand.
#[tactic(auto, using(glyph_variations::proofs::TimesLemmas::steps_next), unfolding(crate::specs::Varied::joined))]
fn joined(
    alloc: Global,
    points: &[GlyphPoint],
    across: &[Moving],
    upwards: &[Moving],
) -> Result<Vec<VariedPoint>, AllocError>
    ensures { IfOk result
        (λ varied. varied.items ≡ Varied.joined points.now across.now upwards.now) }
{
    let mut varied = Vec::new(alloc);
    for i in 0..points.len() {
        varied.push(VariedPoint {
            x: coordinate(across, i),
            y: coordinate(upwards, i),
            on: points[i].on,
            ends: points[i].ends,
        })?;
    }
    Ok(varied)
}

/// Points of a glyph, or offsets of its components, where its variations move them; of these so
/// much may be read. Nothing is left if more would have to be read. Refuses only if a growth was
/// refused.
#[tactic(auto, unfolding(crate::specs::Varied::varied_of))]
pub fn varied(
    alloc: Global,
    variations: &GlyphVariations<'_>,
    points: &[GlyphPoint],
    left: u32,
) -> Result<VariedPoints, AllocError>
    requires { length points.now ≤ 65536 }
    ensures { IfOk result
        (λ v. Varied.varied v ≡ Varied.varied_of (stored variations.now) points.now left) }
{
    let untouched = Listed {
        delta: 0.0,
        touched: false,
    };
    let still = Moving {
        position: 0.0,
        pending: 0.0,
    };
    let mut listed = vec![in alloc; untouched; points.len()]?;
    let mut across = vec![in alloc; still; points.len()]?;
    let mut upwards = vec![in alloc; still; points.len()]?;
    let level = OutlineAxis {
        points,
        vertical: false,
    };
    let left = level.move_points(
        variations,
        left,
        listed.as_mut_slice(),
        across.as_mut_slice(),
    );
    let upright = OutlineAxis {
        points,
        vertical: true,
    };
    let left = upright.move_points(
        variations,
        left,
        listed.as_mut_slice(),
        upwards.as_mut_slice(),
    );
    let points = joined(alloc, points, across.as_slice(), upwards.as_slice())?;
    Ok(VariedPoints { points, left })
}

/// How far components are moved in the default instance, as points.
#[tactic(auto, using(crate::proofs::PartLemmas::offsets_step, crate::proofs::PartLemmas::offsets_end))]
pub fn offsets(alloc: Global, components: &[Component]) -> Result<Vec<GlyphPoint>, AllocError>
    ensures { IfOk result
        (λ offsets. offsets.items ≡ map BoxesAt.offset_of components.now) }
{
    let mut offsets = Vec::new(alloc);
    for component in components {
        offsets.push(offset(component))?;
    }
    Ok(offsets)
}
