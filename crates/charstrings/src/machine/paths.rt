//! Operators that draw, and moves of the pen.
ghost use Rattle.std.specs.Prelude.{◌≡◌};
ghost use Rattle.std.specs.Option.{option_map};
ghost use Rattle.charstrings.specs.Machine;

use super::{Drawing, State};
use crate::numbers::plus;
use crate::pieces::{Delta, PathOperator, Piece, is_accepted, piece_at};
use crate::strokes::{Event, Place, Stroke};

/// Where the pen comes to stand.
#[tactic(auto, using(crate::proofs::SignedLemmas::kept_bits))]
fn place_after(place: Place, delta: Delta) -> Place
    ensures { result ≡ Machine.moved place delta }
{
    Place {
        x: plus(place.x, delta.x),
        y: plus(place.y, delta.y),
    }
}

/// The stroke of a piece that is drawn from `place`.
fn stroke_from(place: Place, piece: Piece) -> Stroke
    ensures { result ≡ Machine.stroke_of place piece }
{
    match piece {
        Piece::Line(delta) => Stroke::Straight(place, place_after(place, delta)),
        Piece::Curve(a, b, c) => {
            let first = place_after(place, a);
            let second = place_after(first, b);
            Stroke::Bent(place, first, second, place_after(second, c))
        }
    }
}

/// Where the pen stands after a stroke.
pub fn end_of(stroke: Stroke) -> Place
    ensures { result ≡ Machine.end_of stroke }
{
    match stroke {
        Stroke::Move(place) => place,
        Stroke::Straight(_, place) => place,
        Stroke::Bent(_, _, _, place) => place,
    }
}

impl State {
    /// The operator draws its next piece, or its arguments are used up.
    pub(super) fn draw(&mut self, drawing: Drawing) -> Option<Event>
        ensures { Machine.drawn (Machine.run_of self.old) drawing
            ≡ option_map (Machine.stepped (Machine.run_of self.new)) result }
    {
        let piece = piece_at(
            drawing.operator,
            drawing.turned,
            self.args.as_slice(),
            drawing.at,
        );
        let Some(found) = piece else {
            self.args.clear();
            self.drawing = None;
            return Some(Event::Went);
        };
        let stroke = stroke_from(self.place, found.piece);
        self.place = end_of(stroke);
        self.drawing = Some(Drawing {
            operator: drawing.operator,
            turned: !drawing.turned,
            at: found.next,
        });
        Some(Event::Drew(stroke))
    }

    /// An operator begins to draw.
    pub(super) fn begin_drawing(&mut self, operator: PathOperator) -> Option<Event>
        ensures { Machine.draws operator (Machine.run_of self.old)
            ≡ option_map (Machine.stepped (Machine.run_of self.new)) result }
    {
        if !is_accepted(operator, self.args.len()) {
            return None;
        }
        self.drawing = Some(Drawing {
            operator,
            turned: false,
            at: 0,
        });
        Some(Event::Went)
    }

    /// The pen goes so far without drawing.
    pub(super) fn move_by(&mut self, delta: Delta) -> Option<Event>
        ensures { Machine.moves_by delta (Machine.run_of self.old)
            ≡ option_map (Machine.stepped (Machine.run_of self.new)) result }
    {
        let place = place_after(self.place, delta);
        self.args.clear();
        self.place = place;
        Some(Event::Drew(Stroke::Move(place)))
    }

    /// rmoveto
    pub(super) fn rmoveto(&mut self) -> Option<Event>
        ensures { Machine.rmoveto (Machine.run_of self.old)
            ≡ option_map (Machine.stepped (Machine.run_of self.new)) result }
    {
        if self.args.len() < 2 {
            return None;
        }
        let delta = Delta {
            x: self.below_top(2),
            y: self.below_top(1),
        };
        self.move_by(delta)
    }

    /// hmoveto
    pub(super) fn hmoveto(&mut self) -> Option<Event>
        ensures { Machine.hmoveto (Machine.run_of self.old)
            ≡ option_map (Machine.stepped (Machine.run_of self.new)) result }
    {
        if self.args.is_empty() {
            return None;
        }
        let delta = Delta {
            x: self.below_top(1),
            y: 0,
        };
        self.move_by(delta)
    }

    /// vmoveto
    pub(super) fn vmoveto(&mut self) -> Option<Event>
        ensures { Machine.vmoveto (Machine.run_of self.old)
            ≡ option_map (Machine.stepped (Machine.run_of self.new)) result }
    {
        if self.args.is_empty() {
            return None;
        }
        let delta = Delta {
            x: 0,
            y: self.below_top(1),
        };
        self.move_by(delta)
    }
}
