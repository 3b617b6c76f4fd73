//! The definitions, computed on bytes that were read by hand.
ghost use Rattle.glyf_points.specs.Worked.Glyphs.{WorkedFlags, WorkedSteps, WorkedPoints, WorkedParts};

/// Flags, steps along the axes, points of glyphs, and components.
pub fn glyphs_meet_worked_cases()
    ensures flags { WorkedFlags }
    ensures steps { WorkedSteps }
    ensures points { WorkedPoints }
    ensures parts { WorkedParts }
{}
