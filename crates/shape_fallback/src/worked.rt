//! The definitions, computed on cases whose results were worked out by hand.
ghost use Rattle.shape_fallback.specs.Worked.Buffers.{WorkedBuffers};
ghost use Rattle.shape_fallback.specs.Worked.Ccc.{WorkedCcc};
ghost use Rattle.shape_fallback.specs.Worked.Marks.{WorkedMarks};
ghost use Rattle.shape_fallback.specs.Worked.OneMark.{WorkedOneMark};
ghost use Rattle.shape_fallback.specs.Worked.Spaces.{WorkedSpaces};
ghost use Rattle.shape_fallback.specs.Worked.Directions.{WorkedDirections};

/// The ccc that marks are placed by: each row of the rules for Thai and Lao and for other scripts,
/// the characters and ccc beside them, and the categories that don't change.
pub fn fallback_ccc_meet_worked_cases()
    ensures { WorkedCcc }
{}

/// Advances of spaces: each type, the first glyph of each list, horizontal and vertical text, and
/// the items that stay.
pub fn spaces_meet_worked_cases()
    ensures { WorkedSpaces }
{}

/// Single marks: each ccc, a gap and none, halves of odd and negative numbers, and numbers that
/// wrap.
pub fn single_marks_meet_worked_cases()
    ensures { WorkedOneMark }
{}

/// Components of ligatures, the state from mark to mark, running offsets, which items are bases,
/// and which way the components run.
pub fn marks_meet_worked_cases()
    ensures { WorkedMarks }
{}

/// Whole buffers: marks above and below, on ligatures, of ccc 0, on bases without extents, at the
/// limits of numbers; whether the steps are due; and the spans that are marked unsafe to break.
pub fn buffers_meet_worked_cases()
    ensures { WorkedBuffers }
{}

/// What depends on the buffer alone: marks of ccc 0, which stay where they are whichever way text
/// runs, the line that marks stand along, and the flag that says that spaces are due.
pub fn directions_meet_worked_cases()
    ensures { WorkedDirections }
{}
