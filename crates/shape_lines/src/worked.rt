//! The definitions, computed on small cases whose results were worked out by hand.
ghost use Rattle.shape_lines.specs.Worked.CanCut.{WorkedCanCut, WorkedCannotCut};
ghost use Rattle.shape_lines.specs.Worked.Lines.{WorkedLines};
ghost use Rattle.shape_lines.specs.Worked.LinesAt.{WorkedLinesAt};
ghost use Rattle.shape_lines.specs.Worked.Ends.{WorkedEnds};
ghost use Rattle.shape_lines.specs.Worked.Spots.{WorkedSpots};
ghost use Rattle.shape_lines.specs.Worked.Places.{WorkedTextOrder, WorkedPlaces};

/// What can be cut into lines, and what can't.
pub fn cuttable_meets_worked_cases()
    ensures can { WorkedCanCut }
    ensures cannot { WorkedCannotCut }
{}

/// The order of the text, and the places of a cut.
pub fn places_meet_worked_cases()
    ensures order { WorkedTextOrder }
    ensures places { WorkedPlaces }
{}

/// Right lines.
pub fn lines_meet_worked_cases()
    ensures { WorkedLines }
{}

/// Lines at allowed places.
pub fn lines_at_meet_worked_cases()
    ensures { WorkedLinesAt }
{}

/// What lists of places say of glyphs, and which ends of lines are right by it.
pub fn ends_meet_worked_cases()
    ensures spots { WorkedSpots }
    ensures ends { WorkedEnds }
{}
