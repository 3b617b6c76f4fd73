//! The definitions, computed by hand.
ghost use Rattle.font_variations.specs.Worked.Scalars.{WorkedTents, WorkedRegions};
ghost use Rattle.font_variations.specs.Worked.Deltas.{WorkedDeltas, WorkedIndexMaps, WorkedMetrics, WorkedLines};
ghost use Rattle.font_variations.specs.Worked.Laws.{WorkedParts, WorkedDefaults};
ghost use Rattle.font_variations.specs.Worked.Coordinates.{WorkedNormal, WorkedSegments, WorkedCoordinates};

/// Scalars of axes and regions, delta sets, index maps, and metrics of glyphs and lines.
pub fn deltas_meet_worked_cases()
    ensures tents { WorkedTents }
    ensures regions { WorkedRegions }
    ensures deltas { WorkedDeltas }
    ensures index_maps { WorkedIndexMaps }
    ensures metrics { WorkedMetrics }
    ensures lines { WorkedLines }
{}

/// Normalizing, the segments of `avar`, and the coordinates of instances.
pub fn coordinates_meet_worked_cases()
    ensures normal { WorkedNormal }
    ensures segments { WorkedSegments }
    ensures coordinates { WorkedCoordinates }
{}

/// What the laws ask, and what then holds: scalars from 0 to 1, and nothing at the default instance
/// if no region has all its peaks there.
pub fn laws_meet_worked_cases()
    ensures parts { WorkedParts }
    ensures defaults { WorkedDefaults }
{}
