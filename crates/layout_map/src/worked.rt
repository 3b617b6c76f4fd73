//! The definitions, computed by hand.
ghost use Rattle.layout_map.specs.Worked.Settings.{WorkedSettings};
ghost use Rattle.layout_map.specs.Worked.Bits.{WorkedBits, WorkedAllotment};
ghost use Rattle.layout_map.specs.Worked.Stages.{WorkedLookups, WorkedStages, WorkedMap, WorkedChosen};

/// Requests merged to settings, and the bits of features.
pub fn features_meet_worked_cases()
    ensures settings { WorkedSettings }
    ensures bits { WorkedBits }
    ensures allotment { WorkedAllotment }
{}

/// Lookups, stages, and what a map returns.
pub fn maps_meet_worked_cases()
    ensures lookups { WorkedLookups }
    ensures stages { WorkedStages }
    ensures map { WorkedMap }
    ensures chosen { WorkedChosen }
{}
