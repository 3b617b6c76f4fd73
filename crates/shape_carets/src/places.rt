//! From an offset of the text to a place on its line, and back.
ghost use Rattle.std.specs.Prelude.{◌≡◌, ◌↔◌, ◌<◌, ◌≤◌, IsTrue, length};
ghost use Rattle.shape_carets.specs.Carets.{x_at};
ghost use Rattle.shape_carets.specs.Places.{gap, IsNearest, IsPlaceOf};
ghost use Rattle.shape_carets.specs.Places.{CaretStandsAt, OffsetIsNearest};

use crate::caret::Caret;

/// Where the caret of an offset stands: the last caret whose offset isn't past it, or the first, if
/// all are. 0, if there are none.
pub fn caret_of_offset(carets: &[Caret], offset: u32) -> i32
    ensures { CaretStandsAt carets.now offset result }
{
    if carets.is_empty() {
        return 0;
    }
    carets[place_of(carets, offset)].x
}

/// The offset whose caret is nearest to a place on the line, as that of a click: of two that are as
/// near the later in the text. 0, if there are none.
pub fn offset_of_x(carets: &[Caret], x: i32) -> u32
    ensures { OffsetIsNearest carets.now x result }
{
    if carets.is_empty() {
        return 0;
    }
    carets[nearest(carets, x)].offset
}

/// The last caret before one whose offset is past this one.
fn place_of(carets: &[Caret], offset: u32) -> usize
    requires { 0 < length carets.now }
    ensures { IsPlaceOf carets.now offset result }
{
    for place in 1..carets.len() {
        if carets[place].offset > offset {
            return place - 1;
        }
    }
    carets.len() - 1
}

/// The last of the carets that are nearest to a place on the line.
fn nearest(carets: &[Caret], x: i32) -> usize
    requires { 0 < length carets.now }
    ensures { IsNearest carets.now x result }
{
    let mut nearest = 0;
    for place in 1..carets.len() {
        if is_as_near(carets, place, nearest, x) {
            nearest = place;
        }
    }
    nearest
}

/// Whether a caret is as near to a place on the line as another, or nearer.
fn is_as_near(carets: &[Caret], place: usize, other: usize, x: i32) -> bool
    requires one { place < length carets.now }
    requires two { other < length carets.now }
    ensures { IsTrue result ↔ (gap (x_at carets.now place) x ≤ gap (x_at carets.now other) x) }
{
    carets[place].x.abs_diff(x) <= carets[other].x.abs_diff(x)
}
