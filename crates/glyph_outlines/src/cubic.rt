//! The outline of a glyph that a charstring draws (tables `CFF ` and `CFF2`), with curves of the
//! third degree.
ghost use Rattle.std.specs.Prelude.{◌≡◌};

use crate::frame::Point;
use crate::segments::Segment;
use cff_tables::CffFont;
use charstrings::bounds::{code_glyph, most_events};
use charstrings::machine::{Program, State};
use charstrings::strokes::{Accent, Event, Place, Stroke};
use std::alloc::AllocError;
use std::num::nearest_i64_to_f64;

/// So many steps of a charstring count as much as a point of `glyf`: most of them are numbers.
const STEPS_OF_A_POINT: u32 = 8;

/// How a charstring ended.
#[derive(Clone, Copy)]
enum Ending {
    /// By an operator that says so.
    Whole,
    /// The same, and two other glyphs belong to it.
    Composed(Accent),
    /// It was refused.
    Refused,
}

/// What was drawn of a charstring: in how many steps, and how it ended.
#[derive(Clone, Copy)]
struct Drawn {
    steps: u32,
    ending: Ending,
}

/// A pen that draws segments, moved.
#[derive(Drop)]
struct Pen<'a> {
    segments: &'a mut Vec<Segment>,
    dx: i64,
    dy: i64,
    is_down: bool,
}

/// A number of 65536ths, in units.
fn units(n: i64) -> f64 {
    nearest_i64_to_f64(n) / 65536.0
}

impl<'a> Pen<'a> {
    /// A place, moved, as a point.
    fn point(&self, place: Place, on: bool) -> Point {
        Point {
            x: units(place.x.wrapping_add(self.dx)),
            y: units(place.y.wrapping_add(self.dy)),
            on,
        }
    }

    /// Begins a contour if none is begun.
    fn lower(&mut self, place: Place) -> Result<(), AllocError> {
        if !self.is_down {
            self.is_down = true;
            let start = self.point(place, true);
            self.segments.push(Segment::Move(start))?;
        }
        Ok(())
    }

    /// Ends the contour that is begun.
    fn lift(&mut self) -> Result<(), AllocError> {
        if self.is_down {
            self.is_down = false;
            self.segments.push(Segment::Close)?;
        }
        Ok(())
    }

    /// Draws a stroke.
    fn draw(&mut self, stroke: Stroke) -> Result<(), AllocError> {
        match stroke {
            Stroke::Move(_) => self.lift(),
            Stroke::Straight(from, to) => {
                self.lower(from)?;
                let end = self.point(to, true);
                self.segments.push(Segment::Line(end))?;
                Ok(())
            }
            Stroke::Bent(from, first, second, to) => {
                self.lower(from)?;
                let (first, second) = (self.point(first, false), self.point(second, false));
                let end = self.point(to, true);
                self.segments.push(Segment::Cubic(first, second, end))?;
                Ok(())
            }
        }
    }
}

/// Draws the charstring of a glyph, moved so far.
fn draw_glyph(
    segments: &mut Vec<Segment>,
    font: &CffFont,
    glyph: u32,
    dx: i64,
    dy: i64,
) -> Result<Drawn, AllocError> {
    let Some(code) = font.char_string_range(glyph) else {
        return Ok(Drawn {
            steps: 0,
            ending: Ending::Refused,
        });
    };
    let program = Program::of(font, glyph);
    let mut state = State::begin(code, font.variation_data(glyph));
    let mut pen = Pen {
        segments,
        dx,
        dy,
        is_down: false,
    };
    for steps in 0..most_events() {
        let ending = match state.step(&program) {
            Some(Event::Went) => continue,
            Some(Event::Drew(stroke)) => {
                pen.draw(stroke)?;
                continue;
            }
            Some(Event::Composed(accent)) => Ending::Composed(accent),
            Some(Event::Ended) => Ending::Whole,
            None => Ending::Refused,
        };
        pen.lift()?;
        return Ok(Drawn { steps, ending });
    }
    Ok(Drawn {
        steps: most_events(),
        ending: Ending::Refused,
    })
}

/// Draws a letter and its accent. Gives the steps that it took, and whether both were drawn.
fn draw_composed(
    segments: &mut Vec<Segment>,
    font: &CffFont,
    accent: Accent,
) -> Result<Drawn, AllocError> {
    let (base, mark) = (
        code_glyph(font, accent.base),
        code_glyph(font, accent.accent),
    );
    let refused = Drawn {
        steps: 0,
        ending: Ending::Refused,
    };
    if base == 0 || mark == 0 {
        return Ok(refused);
    }
    let first = draw_glyph(segments, font, base, 0, 0)?;
    let second = draw_glyph(segments, font, mark, accent.dx, accent.dy)?;
    let ending = match (first.ending, second.ending) {
        (Ending::Whole, Ending::Whole) => Ending::Whole,
        _ => Ending::Refused,
    };
    Ok(Drawn {
        steps: first.steps.saturating_add(second.steps),
        ending,
    })
}

/// Appends the outline of a glyph, nothing if a charstring is refused. Gives how many steps that
/// took, counted as points.
pub(crate) fn append_glyph(
    segments: &mut Vec<Segment>,
    font: &CffFont,
    glyph: u16,
) -> Result<u32, AllocError> {
    let begun = segments.len();
    let mut drawn = draw_glyph(segments, font, u32::from(glyph), 0, 0)?;
    if let Ending::Composed(accent) = drawn.ending {
        let parts = draw_composed(segments, font, accent)?;
        drawn = Drawn {
            steps: drawn.steps.saturating_add(parts.steps),
            ending: parts.ending,
        };
    }
    if !matches!(drawn.ending, Ending::Whole) {
        segments.truncate(begun);
    }
    Ok(drawn.steps / STEPS_OF_A_POINT + 1)
}
