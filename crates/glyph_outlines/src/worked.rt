//! The definitions, computed on points and bytes that were read by hand.
ghost use Rattle.glyph_outlines.specs.Worked.Contours.{WorkedContours};
ghost use Rattle.glyph_outlines.specs.Worked.Frames.{WorkedFrames};
ghost use Rattle.glyph_outlines.specs.Worked.Places.{WorkedPlaces};
ghost use Rattle.glyph_outlines.specs.Worked.Varied.{WorkedVaried, WorkedLefts};

/// What is drawn of contours, where points of components stand, and which bytes are a glyph's.
pub fn outlines_meet_worked_cases()
    ensures contours { WorkedContours }
    ensures frames { WorkedFrames }
    ensures places { WorkedPlaces }
{}

/// Where points of glyphs, their components and the left point for metrics stand at coordinates.
pub fn varied_outlines_meet_worked_cases()
    ensures points { WorkedVaried }
    ensures lefts { WorkedLefts }
{}
