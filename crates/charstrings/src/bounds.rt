//! The box of what a charstring draws, in 65536ths of a unit.
ghost use Rattle.std.specs.Prelude.{◌≡◌};
ghost use Rattle.std.specs.Option.{option_map};
ghost use Rattle.charstrings.specs.Machine;
ghost use Rattle.charstrings.specs.Outline;

use crate::machine::{Program, State};
use crate::numbers::plus;
use crate::strokes::{Accent, Event, Place, Stroke};
use cff_tables::CffFont;
use cff_tables::index::ObjectRange;

/// A box: its lower left and its upper right corner.
#[derive(Clone, Copy, PartialEq, Debug)]
pub struct Bounds {
    pub low: Place,
    pub high: Place,
}

/// The box of a charstring, and the accent that it ends with.
#[derive(Clone, Copy)]
struct Inked {
    bounds: Bounds,
    accent: Option<Accent>,
}

/// The box of nothing.
const NOTHING: Bounds = Bounds {
    low: Place {
        x: 140_737_488_289_792,
        y: 140_737_488_289_792,
    },
    high: Place {
        x: -140_737_488_355_328,
        y: -140_737_488_355_328,
    },
};

fn least(a: i64, b: i64) -> i64
    ensures { result ≡ Outline.least a b }
{
    if b < a { b } else { a }
}

fn greatest(a: i64, b: i64) -> i64
    ensures { result ≡ Outline.greatest a b }
{
    if a < b { b } else { a }
}

/// The lower one of each coordinate.
#[tactic(auto, using(crate::proofs::SignedLemmas::kept_bits))]
fn lowest(a: Place, b: Place) -> Place
    ensures { result ≡ Outline.lowest a b }
{
    Place {
        x: least(a.x, b.x),
        y: least(a.y, b.y),
    }
}

/// The higher one of each coordinate.
#[tactic(auto, using(crate::proofs::SignedLemmas::kept_bits))]
fn highest(a: Place, b: Place) -> Place
    ensures { result ≡ Outline.highest a b }
{
    Place {
        x: greatest(a.x, b.x),
        y: greatest(a.y, b.y),
    }
}

/// The least box that holds a box and a place.
fn widened(bounds: Bounds, place: Place) -> Bounds
    ensures { result ≡ Outline.widened bounds place }
{
    Bounds {
        low: lowest(bounds.low, place),
        high: highest(bounds.high, place),
    }
}

/// The least box that holds a box and a stroke, with its control points.
fn with_stroke(bounds: Bounds, stroke: Stroke) -> Bounds
    ensures { result ≡ Outline.with_stroke bounds stroke }
{
    match stroke {
        Stroke::Move(_) => bounds,
        Stroke::Straight(from, to) => widened(widened(bounds, from), to),
        Stroke::Bent(from, first, second, to) => widened(
            widened(widened(widened(bounds, from), first), second),
            to,
        ),
    }
}

/// Whether a box has no width or no height.
fn is_empty(bounds: &Bounds) -> bool
    ensures { result ≡ Outline.is_empty bounds.now }
{
    bounds.high.x <= bounds.low.x || bounds.high.y <= bounds.low.y
}

/// The least box that holds both; an empty one counts for nothing.
#[tactic(auto, unfolding(crate::specs::Outline::merged))]
fn merged(a: Bounds, b: Bounds) -> Bounds
    ensures { result ≡ Outline.merged a b }
{
    if is_empty(&a) {
        return b;
    }
    if is_empty(&b) {
        return a;
    }
    Bounds {
        low: lowest(a.low, b.low),
        high: highest(a.high, b.high),
    }
}

/// A place, moved.
#[tactic(auto, using(crate::proofs::SignedLemmas::kept_bits))]
fn offset_place(place: Place, dx: i64, dy: i64) -> Place
    ensures { result ≡ Outline.offset_place place dx dy }
{
    Place {
        x: plus(place.x, dx),
        y: plus(place.y, dy),
    }
}

/// A box, moved; an empty one stays.
#[tactic(auto, unfolding(crate::specs::Outline::offset))]
fn offset(bounds: Bounds, dx: i64, dy: i64) -> Bounds
    ensures { result ≡ Outline.offset bounds dx dy }
{
    if is_empty(&bounds) {
        return bounds;
    }
    Bounds {
        low: offset_place(bounds.low, dx, dy),
        high: offset_place(bounds.high, dx, dy),
    }
}

/// The steps of a charstring after which it ends at the latest: more than operators, numbers and
/// strokes.
#[tactic(auto, unfolding(crate::specs::Outline::most_events))]
pub fn most_events() -> u32
    ensures { result ≡ Outline.most_events }
{
    600_000
}

/// The most steps of a glyph that has a box. A text may ask for as many boxes as it has glyphs, so
/// that none may take long. The longest glyph of 476 fonts takes 8,006; HarfBuzz runs 200,000
/// operators and numbers each time.
#[tactic(auto, unfolding(crate::specs::Outline::most_box_steps))]
pub fn most_box_steps() -> u32
    ensures { result ≡ Outline.most_box_steps }
{
    10_000
}

/// The box of what a charstring draws in so many steps; none if it is refused, or does not end.
#[tactic(auto, using(crate::proofs::OutlineLemmas::inked_went, crate::proofs::OutlineLemmas::inked_drew, crate::proofs::OutlineLemmas::inked_composed, crate::proofs::OutlineLemmas::inked_ended, crate::proofs::OutlineLemmas::inked_refused, crate::proofs::OutlineLemmas::inked_over))]
fn inked_within(
    program: &Program<'_>,
    code: ObjectRange,
    variation: u32,
    most: u32,
) -> Option<Inked>
    ensures { result ≡ Outline.inked_within most program.now.table.now program.now.layout program.now.local
        (Machine.first_run code variation) }
{
    let mut state = State::begin(code, variation);
    let mut bounds = NOTHING;
    for _i in 0..most {
        match state.step(program) {
            Some(Event::Went) => {}
            Some(Event::Drew(stroke)) => bounds = with_stroke(bounds, stroke),
            Some(Event::Composed(accent)) => {
                return Some(Inked {
                    bounds,
                    accent: Some(accent),
                });
            }
            Some(Event::Ended) => {
                return Some(Inked {
                    bounds,
                    accent: None,
                });
            }
            None => return None,
        }
    }
    None
}

/// The variation data that a glyph's charstring begins with.
fn variation_data(font: &CffFont<'_>, glyph: u32) -> u32
    ensures { result ≡ Outline.first_variation font.now.table.now font.now.layout glyph }
{
    if font.layout().wide {
        font.variation_data(glyph)
    } else {
        0
    }
}

/// The box of a glyph's charstring.
#[tactic(auto, unfolding(crate::specs::Outline::glyph_inked))]
fn glyph_inked(font: &CffFont<'_>, glyph: u32, most: u32) -> Option<Inked>
    ensures { result ≡ Outline.glyph_inked most font.now.table.now font.now.layout glyph }
{
    let variation = variation_data(font, glyph);
    match font.char_string_range(glyph) {
        Some(code) => inked_within(&Program::of(font, glyph), code, variation, most),
        None => None,
    }
}

/// The box of a glyph that is not composed of others; none for another.
#[tactic(auto, unfolding(crate::specs::Outline::part_bounds))]
fn part_bounds(font: &CffFont<'_>, glyph: u32, most: u32) -> Option<Bounds>
    ensures { result ≡ Outline.part_bounds most font.now.table.now font.now.layout glyph }
{
    match glyph_inked(font, glyph, most) {
        Some(inked) => match inked.accent {
            None => Some(inked.bounds),
            Some(_) => None,
        },
        None => None,
    }
}

/// The glyph of a code of Standard Encoding; 0 if there is none.
#[tactic(auto, unfolding(crate::specs::Outline::code_glyph))]
pub fn code_glyph(font: &CffFont<'_>, code: i64) -> u32
    ensures { result ≡ Outline.code_glyph font.now.table.now font.now.layout code }
{
    if code < 0 {
        return 0;
    }
    if 255 < code {
        return 0;
    }
    font.coded_glyph(code as u32)
}

/// The least box that holds two and a third, which is moved.
#[tactic(auto, using(crate::proofs::SignedLemmas::kept_bits), unfolding(crate::specs::Outline::together))]
fn together(bounds: Bounds, first: Bounds, second: Bounds, dx: i64, dy: i64) -> Bounds
    ensures { result ≡ Outline.together bounds first second dx dy }
{
    let moved = offset(second, dx, dy);
    merged(merged(bounds, first), moved)
}

/// The box of two glyphs, the second one moved as an accent is, and of what was drawn before them.
#[tactic(auto, using(crate::proofs::SignedLemmas::kept_bits), unfolding(crate::specs::Outline::joined))]
fn joined(
    bounds: Bounds,
    accent: Accent,
    first: Option<Bounds>,
    second: Option<Bounds>,
) -> Option<Bounds>
    ensures { result ≡ Outline.joined bounds accent first second }
{
    match first {
        Some(first) => match second {
            Some(second) => Some(together(bounds, first, second, accent.dx, accent.dy)),
            None => None,
        },
        None => None,
    }
}

/// The box of a letter with its accent, which take a quarter of the steps each, and of what was
/// drawn before them.
fn composed_bounds(font: &CffFont<'_>, bounds: Bounds, accent: Accent, most: u32) -> Option<Bounds>
    ensures { result ≡ Outline.composed_bounds most font.now.table.now font.now.layout bounds accent }
{
    let base = code_glyph(font, accent.base);
    if base == 0 {
        return None;
    }
    let mark = code_glyph(font, accent.accent);
    if mark == 0 {
        return None;
    }
    let first = part_bounds(font, base, most / 4);
    let second = part_bounds(font, mark, most / 4);
    joined(bounds, accent, first, second)
}

/// The box of a glyph, of charstrings of so many steps.
fn bounds_within(font: &CffFont<'_>, glyph: u32, most: u32) -> Option<Bounds>
    ensures { result ≡ Outline.bounds_within most font.now.table.now font.now.layout glyph }
{
    match glyph_inked(font, glyph, most) {
        Some(inked) => match inked.accent {
            None => Some(inked.bounds),
            Some(accent) => composed_bounds(font, inked.bounds, accent, most),
        },
        None => None,
    }
}

/// The box of a glyph: of the ends and control points of all that its charstring draws, and of the
/// letter and the accent that it is composed of. None if the font has no such glyph, or a
/// charstring is refused or too long for a box.
pub fn glyph_bounds(font: &CffFont<'_>, glyph: u32) -> Option<Bounds>
    ensures { result ≡ Outline.bounds_of font.now.table.now font.now.layout glyph }
{
    bounds_within(font, glyph, most_box_steps())
}
