//! The definitions, computed by hand.
ghost use Rattle.layout_context.specs.Worked.Around.{WorkedJoiners, WorkedMasks, WorkedSyllablesAround};
ghost use Rattle.layout_context.specs.Worked.Around.{WorkedComponentsMatched, WorkedClassesOfThreeLists, WorkedBounds, WorkedCovers};
ghost use Rattle.layout_context.specs.Worked.Chains.{WorkedChainedGlyphs, WorkedNested, WorkedDeletions};
ghost use Rattle.layout_context.specs.Worked.Contexts.{WorkedRules, WorkedClasses, WorkedChains, WorkedChainsElsewhere};
ghost use Rattle.layout_context.specs.Worked.Contexts.{WorkedMarkSets, WorkedMarkClasses, WorkedSyllables, WorkedComponents};
ghost use Rattle.layout_context.specs.Worked.Formats.{WorkedChainedClasses, WorkedBackwards, WorkedFlags};
ghost use Rattle.layout_context.specs.Worked.Labels.{WorkedLabels};
ghost use Rattle.layout_context.specs.Worked.Lookups.{WorkedLookups};
ghost use Rattle.layout_context.specs.Worked.Marks.{WorkedVainLigatures, WorkedVainRules, WorkedRandom, WorkedIds, WorkedOps};
ghost use Rattle.layout_context.specs.Worked.Meeting.{WorkedMeeting};
ghost use Rattle.layout_context.specs.Worked.Places.{WorkedPlaces};
ghost use Rattle.layout_context.specs.Worked.Reversals.{WorkedReversals};
ghost use Rattle.layout_context.specs.Worked.Steps.{WorkedSteps, WorkedStages};
ghost use Rattle.layout_context.specs.Worked.Tries.{WorkedTries};

/// Where the glyphs of a rule stand after a nested lookup that changed how many items there are,
/// and where the rule goes on.
pub fn places_meet_worked_cases()
    ensures { WorkedPlaces }
{}

/// Lookups of each kind over lists: skipped marks, joiners, masks, clusters, nested lookups, and
/// from the end of the list.
pub fn lookups_meet_worked_cases()
    ensures { WorkedLookups }
{}

/// Rules of context by their formats, mark filtering sets and mark attachment classes, syllables,
/// and components of ligatures.
pub fn contexts_meet_worked_cases()
    ensures rules { WorkedRules }
    ensures classes { WorkedClasses }
    ensures chains { WorkedChains }
    ensures chains_elsewhere { WorkedChainsElsewhere }
    ensures mark_sets { WorkedMarkSets }
    ensures mark_classes { WorkedMarkClasses }
    ensures syllables { WorkedSyllables }
    ensures components { WorkedComponents }
{}

/// Chained context with glyphs by number, nested lookups after skipped marks, through extensions
/// and by levels, and nested lookups that delete.
pub fn chains_meet_worked_cases()
    ensures chained_glyphs { WorkedChainedGlyphs }
    ensures nested { WorkedNested }
    ensures deletions { WorkedDeletions }
{}

/// What is marked unsafe to concat, alternates at random, the ids of ligatures, and what stages may
/// still ask for.
pub fn marks_meet_worked_cases()
    ensures vain_ligatures { WorkedVainLigatures }
    ensures vain_rules { WorkedVainRules }
    ensures random { WorkedRandom }
    ensures ids { WorkedIds }
    ensures ops { WorkedOps }
{}

/// Chained context by classes over whole lists, lookahead from the end of the list, and flags that
/// ignore classes of glyphs.
pub fn formats_meet_worked_cases()
    ensures chained_classes { WorkedChainedClasses }
    ensures backwards { WorkedBackwards }
    ensures flags { WorkedFlags }
{}

/// Joiners, masks, syllables and components of ligatures within a match and around it, chains by
/// classes, bounds, and which glyphs a lookup may begin at.
pub fn surroundings_meet_worked_cases()
    ensures joiners { WorkedJoiners }
    ensures masks { WorkedMasks }
    ensures syllables { WorkedSyllablesAround }
    ensures components { WorkedComponentsMatched }
    ensures classes_of_three_lists { WorkedClassesOfThreeLists }
    ensures bounds { WorkedBounds }
    ensures covers { WorkedCovers }
{}

/// What lookups try over lists: subtables, rules and ligatures, and lookups that rules name.
pub fn tries_meet_worked_cases()
    ensures { WorkedTries }
{}

/// What a subtable of reverse chaining replaces at a place, and what is unsafe to break then.
pub fn reversals_meet_worked_cases()
    ensures { WorkedReversals }
{}

/// Where the items stand that have a label, and what of them is left after others came or went.
pub fn labels_meet_worked_cases()
    ensures { WorkedLabels }
{}

/// Which items of a list a lookup with a digest meets.
pub fn digests_meet_worked_cases()
    ensures { WorkedMeeting }
{}

/// Steps of lookups and of the records of rules, what each costs, and stages where nothing is
/// counted.
pub fn steps_meet_worked_cases()
    ensures steps { WorkedSteps }
    ensures stages { WorkedStages }
{}
