//! The definitions, computed by hand.
ghost use Rattle.apple_substitution.specs.Worked.Driving.{WorkedDrives, WorkedBreaks, WorkedCharges};
ghost use Rattle.apple_substitution.specs.Worked.Contexts.{WorkedContexts, WorkedCurrent};
ghost use Rattle.apple_substitution.specs.Worked.Contexts.{WorkedBoth, WorkedMarkCharges};
ghost use Rattle.apple_substitution.specs.Worked.Ligating.{WorkedStack, WorkedNumbers, WorkedLigature};
ghost use Rattle.apple_substitution.specs.Worked.Ligating.{WorkedLeft, WorkedTooLittle};
ghost use Rattle.apple_substitution.specs.Worked.Ligating.{WorkedActions, WorkedStores, WorkedNoLigature};
ghost use Rattle.apple_substitution.specs.Worked.Inserting.{WorkedWanted, WorkedInsertAt, WorkedCurrentInserted};
ghost use Rattle.apple_substitution.specs.Worked.Inserting.{WorkedPassed, WorkedMarkedInserted};
ghost use Rattle.apple_substitution.specs.Worked.Inserting.{WorkedBothInserted, WorkedEmpty};
ghost use Rattle.apple_substitution.specs.Worked.Chaining.{WorkedFlags, WorkedRanges, WorkedCoverage};
ghost use Rattle.apple_substitution.specs.Worked.Chaining.{WorkedDeleted, WorkedLanguageFlags};
ghost use Rattle.apple_substitution.specs.Worked.Replacing.{WorkedReplacing};
ghost use Rattle.apple_substitution.specs.Worked.Running.{WorkedKinds, WorkedOrders, WorkedRuns};
ghost use Rattle.apple_substitution.specs.Worked.Parts.{WorkedPlaces, WorkedEnds, WorkedPartRuns};
ghost use Rattle.apple_substitution.specs.Worked.Metamorphoses.{WorkedSubtables, WorkedChainCosts};
ghost use Rattle.apple_substitution.specs.Worked.Metamorphoses.{WorkedChains, WorkedLimits, WorkedConcat};
ghost use Rattle.apple_substitution.specs.Worked.Languages.{WorkedNames, WorkedLetters, WorkedMatches};
ghost use Rattle.apple_substitution.specs.Worked.Features.{WorkedFeat, WorkedRegistry};
ghost use Rattle.apple_substitution.specs.Worked.FeatureMaps.{WorkedChoices, WorkedMapped, WorkedAgainst};
ghost use Rattle.apple_substitution.specs.Worked.FeatureMaps.{WorkedEdges, WorkedTextRanges};
ghost use Rattle.apple_substitution.specs.Worked.Substituting.{WorkedSubstitutions};
ghost use Rattle.apple_substitution.specs.Worked.Rearranging.{WorkedVerbs, WorkedSpans, WorkedMerges};

/// Walks of a driver, where they leave a text unsafe to break, and what they cost.
pub fn drives_meet_worked_cases()
    ensures drives { WorkedDrives }
    ensures breaks { WorkedBreaks }
    ensures charges { WorkedCharges }
{}

/// Glyphs that noncontextual subtables replace.
pub fn replacing_meets_worked_cases()
    ensures { WorkedReplacing }
{}

/// The verbs of rearrangement, the spans that entries mark, and what merges.
pub fn rearranging_meets_worked_cases()
    ensures verbs { WorkedVerbs }
    ensures spans { WorkedSpans }
    ensures merges { WorkedMerges }
{}

/// Glyphs that contextual subtables replace.
pub fn contexts_meet_worked_cases()
    ensures contexts { WorkedContexts }
    ensures current { WorkedCurrent }
    ensures both { WorkedBoth }
    ensures charges { WorkedMarkCharges }
{}

/// The stack of components, and the ligatures that actions make.
pub fn ligating_meets_worked_cases()
    ensures stack { WorkedStack }
    ensures numbers { WorkedNumbers }
    ensures actions { WorkedActions }
    ensures ligature { WorkedLigature }
    ensures left { WorkedLeft }
    ensures too_little { WorkedTooLittle }
    ensures stores { WorkedStores }
    ensures no_ligature { WorkedNoLigature }
{}

/// Glyphs that are inserted.
pub fn inserting_meets_worked_cases()
    ensures wanted { WorkedWanted }
    ensures insert_at { WorkedInsertAt }
    ensures current { WorkedCurrentInserted }
    ensures passed { WorkedPassed }
    ensures marked { WorkedMarkedInserted }
    ensures both { WorkedBothInserted }
    ensures empty { WorkedEmpty }
{}

/// The flags of a chain, by itself and in ranges of a text, how its subtables run, and what becomes
/// of deleted glyphs.
pub fn chaining_meets_worked_cases()
    ensures flags { WorkedFlags }
    ensures ranges { WorkedRanges }
    ensures languages { WorkedLanguageFlags }
    ensures coverage { WorkedCoverage }
    ensures deleted { WorkedDeleted }
{}

/// Languages that a font names, and whether a text is in one.
pub fn languages_meet_worked_cases()
    ensures names { WorkedNames }
    ensures letters { WorkedLetters }
    ensures matches { WorkedMatches }
{}

/// Subtables that run over a text.
pub fn running_meets_worked_cases()
    ensures runs { WorkedRuns }
    ensures kinds { WorkedKinds }
    ensures orders { WorkedOrders }
{}

/// Where chains and subtables stand, and how they run one after the other.
pub fn parts_meet_worked_cases()
    ensures places { WorkedPlaces }
    ensures ends { WorkedEnds }
    ensures runs { WorkedPartRuns }
{}

/// Chains that run over a text.
pub fn metamorphoses_meet_worked_cases()
    ensures subtables { WorkedSubtables }
    ensures costs { WorkedChainCosts }
    ensures chains { WorkedChains }
    ensures limits { WorkedLimits }
    ensures concat { WorkedConcat }
{}

/// Types of features that a font has, and OpenType's features in the registry.
pub fn features_meet_worked_cases()
    ensures feat { WorkedFeat }
    ensures registry { WorkedRegistry }
{}

/// Settings that features choose, and ranges of a text.
pub fn feature_maps_meet_worked_cases()
    ensures choices { WorkedChoices }
    ensures mapped { WorkedMapped }
    ensures against { WorkedAgainst }
    ensures edges { WorkedEdges }
    ensures ranges { WorkedTextRanges }
{}

/// Substitution by the tables of a font, with features that are asked for.
pub fn substitutions_meet_worked_cases()
    ensures { WorkedSubstitutions }
{}
