//! What a selection covers of a line.
ghost use Rattle.std.specs.Prelude.{◌≡◌};
ghost use Rattle.shape_carets.specs.Selections;

use crate::caret::Caret;

/// A piece of a line, from one place up to another that isn't below it.
#[derive(Clone, Copy, PartialEq, Eq, Debug)]
pub struct Span {
    pub start: i32,
    pub end: i32,
}

/// What the text from an offset up to another covers of the line that these carets stand on. A
/// piece of text between two carets is covered whole, if some of it is selected. The pieces that
/// are selected stand one after the other, so they make one span. Nothing is covered, if there is
/// no text in the range.
pub fn selection(carets: &[Caret], start: u32, end: u32) -> Option<Span>
    ensures { result ≡ Selections.selection_of carets.now start end }
{
    let mut selected = None;
    for place in (0..carets.len()).rev() {
        if place + 1 < carets.len() {
            selected = with_piece(carets[place], carets[place + 1], start, end, selected);
        }
    }
    selected
}

/// What is covered from a caret on, given what is from the next caret on.
fn with_piece(from: Caret, to: Caret, start: u32, end: u32, rest: Option<Span>) -> Option<Span>
    ensures { result ≡ Selections.covered from to start end rest }
{
    if is_selected(from.offset, to.offset, start, end) {
        Some(united(span_between(from.x, to.x), rest))
    } else {
        rest
    }
}

/// Whether a piece of text has some of a range.
fn is_selected(from: u32, to: u32, start: u32, end: u32) -> bool
    ensures { result ≡ Selections.is_selected from to start end }
{
    from.max(start) < to.min(end)
}

/// The piece of a line between two carets.
fn span_between(a: i32, b: i32) -> Span
    ensures { result ≡ Selections.span_between a b }
{
    Span {
        start: a.min(b),
        end: a.max(b),
    }
}

/// The least span that has two, the second if there is one.
fn united(span: Span, other: Option<Span>) -> Span
    ensures { result ≡ Selections.united span other }
{
    match other {
        None => span,
        Some(other) => Span {
            start: span.start.min(other.start),
            end: span.end.max(other.end),
        },
    }
}
