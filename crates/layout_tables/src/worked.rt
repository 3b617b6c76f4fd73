//! The definitions, computed on bytes that were read by hand.
ghost use Rattle.layout_tables.specs.Worked.Glyphs.{WorkedCoverage, WorkedClasses, WorkedDefinitions};
ghost use Rattle.layout_tables.specs.Worked.Scripts.{WorkedOffsets, WorkedScriptChoice, WorkedLanguageChoice};
ghost use Rattle.layout_tables.specs.Worked.Features.{WorkedFeatureLists, WorkedConditions};
ghost use Rattle.layout_tables.specs.Worked.Features.{WorkedTagDigests, WorkedVariations};
ghost use Rattle.layout_tables.specs.Worked.Lookups.{WorkedLookups};

/// Coverage, classes, and what `GDEF` says of glyphs.
pub fn glyphs_meet_worked_cases()
    ensures coverage { WorkedCoverage }
    ensures classes { WorkedClasses }
    ensures definitions { WorkedDefinitions }
{}

/// Offsets, and the choice of scripts and language systems.
pub fn scripts_meet_worked_cases()
    ensures offsets { WorkedOffsets }
    ensures scripts { WorkedScriptChoice }
    ensures languages { WorkedLanguageChoice }
{}

/// Features and their variations, and lookups.
pub fn lookups_meet_worked_cases()
    ensures features { WorkedFeatureLists }
    ensures digests { WorkedTagDigests }
    ensures conditions { WorkedConditions }
    ensures variations { WorkedVariations }
    ensures lookups { WorkedLookups }
{}
