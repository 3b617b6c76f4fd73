//! The definitions, computed on bytes that were read by hand.
ghost use Rattle.glyph_variations.specs.Worked.{WorkedGlyphs, WorkedMetricPoints};
ghost use Rattle.glyph_variations.specs.WorkedOutlines.{WorkedInference, WorkedNeighbors, WorkedContours, WorkedOutlines};

/// Packed numbers and deltas, the parts that tuples take, and points that they move; points on
/// which metrics depend.
pub fn glyphs_meet_worked_cases()
    ensures glyphs { WorkedGlyphs }
    ensures metric_points { WorkedMetricPoints }
{}

/// Deltas that are inferred, and outlines that move.
pub fn outlines_meet_worked_cases()
    ensures inference { WorkedInference }
    ensures neighbors { WorkedNeighbors }
    ensures contours { WorkedContours }
    ensures outlines { WorkedOutlines }
{}
