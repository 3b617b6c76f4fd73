//! The definitions, computed on charstrings that were run by hand.
ghost use Rattle.charstrings.specs.Worked.Operators.{WorkedNumbers, WorkedLines, WorkedCurves, WorkedAxisCurves, WorkedTurningCurves, WorkedFlexes};
ghost use Rattle.charstrings.specs.Worked.Runs.{WorkedCharstrings, WorkedHints, WorkedCalls, WorkedEnds, WorkedBlends};
ghost use Rattle.charstrings.specs.Worked.Boxes.{WorkedBounds, WorkedRounding, WorkedBoxes};

/// Numbers, and operators that draw.
pub fn operators_meet_worked_cases()
    ensures numbers { WorkedNumbers }
    ensures lines { WorkedLines }
    ensures curves { WorkedCurves }
    ensures axis_curves { WorkedAxisCurves }
    ensures turning_curves { WorkedTurningCurves }
    ensures flexes { WorkedFlexes }
{}

/// Whole charstrings.
pub fn runs_meet_worked_cases()
    ensures charstrings { WorkedCharstrings }
    ensures hints { WorkedHints }
    ensures calls { WorkedCalls }
    ensures ends { WorkedEnds }
    ensures blends { WorkedBlends }
{}

/// Boxes.
pub fn boxes_meet_worked_cases()
    ensures bounds { WorkedBounds }
    ensures rounding { WorkedRounding }
    ensures boxes { WorkedBoxes }
{}
