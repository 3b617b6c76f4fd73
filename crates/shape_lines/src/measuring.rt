//! How far the pen comes in a text, and the least that it reaches at the ends of lines to come.
//!
//! Spaces at the end of a line aren't measured, so how far a line reaches is a matter of its end
//! alone: the pen after the last glyph before it that isn't a space. The least reach at the ends
//! from a place on tells whether one of them fits. It never falls as the place goes on, so the
//! longest line that fits ends where it passes the limit.
ghost use Rattle.std.specs.Prelude.{◌≡◌, ◌^◌, ◌≤ℤ◌, ◌+ℤ◌, pos, false, length, IfOk, if◌then◌else◌};
ghost use Rattle.std.specs.Int.{int_min};
ghost use Rattle.shape_lines.specs.LinesAt;
ghost use Rattle.shape_lines.specs.Measured.{ArePens, AreSmallPens, AreReaches, AreLeast};

use crate::spots::Spot;
use std::alloc::{AllocError, Global};

/// A text as it is measured: its glyphs, where the pen stands before each and at the end, and the
/// least that it reaches at an end from there on, at an allowed place and at any.
#[derive(Drop)]
pub(super) struct Measures {
    pub(super) spots: Vec<Spot>,
    pub(super) pens: Vec<i128>,
    pub(super) allowed: Vec<i128>,
    pub(super) any: Vec<i128>,
    pub(super) anywhere: bool,
}

/// Where the pen stands before each glyph, and at the end of the text.
pub(super) fn pens(alloc: Global, spots: &[Spot]) -> Result<Vec<i128>, AllocError>
    ensures are { IfOk result (λ pens. ArePens spots.now pens.items) }
    ensures small { IfOk result (λ _. AreSmallPens spots.now) }
{
    let mut pens = Vec::new(alloc);
    let mut pen: i128 = 0;
    pens.push(pen)?;
    for place in 0..spots.len() {
        pen += width_of(&spots[place]);
        pens.push(pen)?;
    }
    Ok(pens)
}

/// The width of a glyph.
fn width_of(spot: &Spot) -> i128
    ensures value { result ≡ spot.now.width }
    ensures above { pos 0 ≤ℤ (result +ℤ pos (2 ^ 63)) }
    ensures below { result ≤ℤ pos (2 ^ 63) }
{
    let spot = *spot;
    i128::from(spot.width)
}

/// Where the pen stands after the last glyph before each place that isn't a space.
fn reaches(alloc: Global, spots: &[Spot], pens: &[i128]) -> Result<Vec<i128>, AllocError>
    requires { ArePens spots.now pens.now }
    ensures { IfOk result (λ reaches. AreReaches spots.now reaches.items) }
{
    let mut reaches = Vec::new(alloc);
    let mut reach: i128 = 0;
    reaches.push(reach)?;
    for place in 0..spots.len() {
        reach = reach_on(&spots[place], reach, pens[place + 1]);
        reaches.push(reach)?;
    }
    Ok(reaches)
}

/// Where the pen stands after the last glyph that isn't a space, given where it stands before and
/// after this one.
fn reach_on(spot: &Spot, before: i128, after: i128) -> i128
    ensures { result ≡ if spot.now.space then before else after }
{
    if spot.space { before } else { after }
}

/// The least that the pen reaches at an end from each place on, at an allowed place and at any.
pub(super) fn least_of_both(
    alloc: Global,
    spots: &[Spot],
    pens: &[i128],
    anywhere: bool,
) -> Result<(Vec<i128>, Vec<i128>), AllocError>
    requires { ArePens spots.now pens.now }
    ensures allowed { IfOk result (λ both. AreLeast false spots.now both.0.items) }
    ensures any { IfOk result (λ both. AreLeast anywhere spots.now both.1.items) }
{
    let any = reaches(alloc, spots, pens)?;
    let allowed = Vec::from_slice(alloc, &any)?;
    Ok((
        least_reaches(spots, allowed, false),
        least_reaches(spots, any, anywhere),
    ))
}

/// The least that the pen reaches at an end from each place on, made of what it reaches at each.
fn least_reaches(spots: &[Spot], reaches: Vec<i128>, anywhere: bool) -> Vec<i128>
    requires { AreReaches spots.now reaches.items }
    ensures { AreLeast anywhere spots.now result.items }
{
    let mut least = reaches;
    for place in (0..spots.len()).rev() {
        least[place] = least_on(spots[place], anywhere, least[place], least[place + 1]);
    }
    least
}

/// The least reach from a glyph on, given that of an end before it and the least after it.
fn least_on(spot: Spot, anywhere: bool, here: i128, on: i128) -> i128
    ensures { result ≡ if spot.mandatory then here else
        if LinesAt.ends_before anywhere spot then int_min here on else on }
{
    if spot.mandatory || ends_before(spot, anywhere) && here < on {
        return here;
    }
    on
}

/// Whether a line may end before a glyph.
pub(super) fn ends_before(spot: Spot, anywhere: bool) -> bool
    ensures { result ≡ LinesAt.ends_before anywhere spot }
{
    spot.mandatory || spot.allowed || anywhere && spot.safe
}
