//! The rules L1 and L2, for the characters of a line.
ghost use Rattle.std.specs.Prelude.{◌≡◌, ℕ, List, ◌+◌, ◌-◌, ◌≤◌, [], ◌++◌, length, map, reverse, IfOk, OnOk, IsPermutation};
ghost use Rattle.bidi.specs.Lines;

use crate::classes::{is, is_isolate, is_removed};
use crate::places::put;
use std::alloc::{AllocError, Global};
use ucd_bidi::BidiClass;

/// A character of a line: its level, and its place in the text.
#[derive(Clone, Copy)]
pub(crate) struct Place {
    pub level: u8,
    pub place: usize,
}

/// Whether a character belongs to the end of a line or of a segment, given whether the next one
/// does.
fn ends_with(class: BidiClass, after: bool) -> bool
    ensures { result ≡ Lines.ends_with class after }
{
    if is(class, BidiClass::SegmentSeparator) || is(class, BidiClass::ParagraphSeparator) {
        return true;
    }
    after && (is(class, BidiClass::WhiteSpace) || is_isolate(class) || is_removed(class))
}

/// L1 for a character.
fn line_level(base: u8, ended: bool, level: u8) -> u8
    ensures { result ≡ Lines.line_level base ended level }
{
    if ended { base } else { level }
}

/// L1: the levels of a line, in which separators, and white space before them and at the end of the
/// line, take the level of the paragraph. `classes` are those of the line's characters.
pub fn line_levels(levels: &mut [u8], classes: &[BidiClass], base: u8)
    requires { length classes.now ≡ length levels.old }
    ensures { levels.new ≡ Lines.line_levels base classes.now levels.old }
{
    let mut ended = true;
    let mut i = classes.len();
    while i > 0 {
        i -= 1;
        ended = ends_with(classes[i], ended);
        levels[i] = line_level(base, ended, levels[i]);
    }
}

/// The highest level of a line, or 0.
fn highest(levels: &[u8]) -> u8
    ensures { result ≡ Lines.highest levels.now }
{
    let mut highest = 0;
    for i in 0..levels.len() {
        highest = levels[i].max(highest);
    }
    highest
}

/// The lowest odd level of a line, or 255.
fn lowest_odd(levels: &[u8]) -> u8
    ensures { result ≡ Lines.lowest_odd levels.now }
{
    let mut lowest = 255;
    for i in 0..levels.len() {
        if levels[i] % 2 != 0 {
            lowest = levels[i].min(lowest);
        }
    }
    lowest
}

/// The characters of a line, in the order of the text.
fn places(alloc: Global, levels: &[u8]) -> Result<Vec<Place>, AllocError>
    ensures { IfOk result (λ places. places.items ≡ Lines.places_from 0 levels.now) }
{
    let mut places = Vec::new(alloc);
    for place in 0..levels.len() {
        places.push(Place {
            level: levels[place],
            place,
        })?;
    }
    Ok(places)
}

/// Puts a run after what is put out, the last character first.
fn put_reversed(out: &mut Vec<Place>, run: &mut Vec<Place>) -> Result<(), AllocError>
    ensures put { OnOk result (out.new.items ≡ out.old.items ++ reverse run.old.items) }
    ensures empty { OnOk result (run.new.items ≡ []) }
{
    while let Some(place) = run.pop() {
        out.push(place)?;
    }
    Ok(())
}

/// L2 for a level: the runs of that level or a higher one reversed.
fn reversed_runs(alloc: Global, places: &[Place], level: usize) -> Result<Vec<Place>, AllocError>
    ensures { IfOk result (λ out. out.items ≡ Lines.reversed_runs level [] places.now) }
{
    let mut out = Vec::new(alloc);
    let mut run = Vec::new(alloc);
    for i in 0..places.len() {
        let place = places[i];
        if level <= place.level as usize {
            run.push(place)?;
            continue;
        }
        put_reversed(&mut out, &mut run)?;
        out.push(place)?;
    }
    put_reversed(&mut out, &mut run)?;
    Ok(out)
}

/// L2: the order of a line's characters from left to right, each by its place in the line. `levels`
/// are those of the line, after L1. Takes time in step with the line, for each level in it.
pub fn visual_order(alloc: Global, levels: &[u8]) -> Result<Vec<usize>, AllocError>
    ensures order { IfOk result (λ order. order.items ≡ Lines.visual_order levels.now) }
    ensures permutation { IfOk result (λ order. IsPermutation (Lines.indices levels.now) order.items) }
{
    let order = ordered(alloc, levels)?;
    Ok(order)
}

/// Where each character of a line stands from left to right, given the order of [`visual_order`]:
/// the one is the inverse of the other.
pub fn visual_places(alloc: Global, order: &[usize]) -> Result<Vec<usize>, AllocError>
    ensures places { IfOk result (λ places. places.items ≡ Lines.visual_places order.now) }
    ensures inverse { (levels : List ℕ) → IsPermutation (Lines.indices levels) order.now
        → IfOk result (λ places. Lines.AreInverse order.now places.items) }
{
    let places = placed(alloc, order)?;
    Ok(places)
}

/// The places themselves.
fn placed(alloc: Global, order: &[usize]) -> Result<Vec<usize>, AllocError>
    ensures { IfOk result (λ places. places.items ≡ Lines.visual_places order.now) }
{
    let mut places: Vec<usize> = vec![in alloc; 0; order.len()]?;
    for i in 0..order.len() {
        put(&mut places, order[i], i);
    }
    Ok(places)
}

/// The order itself.
fn ordered(alloc: Global, levels: &[u8]) -> Result<Vec<usize>, AllocError>
    ensures { IfOk result (λ order. order.items ≡ Lines.visual_order levels.now) }
{
    let lowest = lowest_odd(levels) as usize;
    let mut count = (highest(levels) as usize + 1).saturating_sub(lowest);
    let mut places = places(alloc, levels)?;
    while count > 0 {
        count -= 1;
        places = reversed_runs(alloc, &places, lowest + count)?;
    }
    places.iter().map(|place| place.place).collect(alloc)
}
