//! The definitions, computed on small cases whose answers are worked out by hand.
ghost use Rattle.test_fixtures.specs.Worked.Definitions.{WorkedCases};
ghost use Rattle.test_fixtures.specs.Worked.Characters.{WorkedCharacters};
ghost use Rattle.test_fixtures.specs.Worked.Clusters.{WorkedPromises};
ghost use Rattle.test_fixtures.specs.Worked.Fits.{WorkedFits};
ghost use Rattle.test_fixtures.specs.Worked.Outcomes.{WorkedOutcomes};
ghost use Rattle.test_fixtures.specs.Worked.Parts.{WorkedParts};
ghost use Rattle.test_fixtures.specs.Worked.Premises.{WorkedPremises};
ghost use Rattle.test_fixtures.specs.Worked.Results.{WorkedResults};
ghost use Rattle.test_fixtures.specs.Worked.Texts.{WorkedTexts};

/// The chain of U+1EA4 with its expansions and choices, limits of runs, and the order of some
/// marks, as the definitions have them.
pub fn definitions_meet_worked_cases()
    ensures { WorkedCases }
{}

/// What is promised of clusters and flags, as some lists of glyphs have it and others miss it, at
/// each level and in each direction.
pub fn promises_meet_worked_cases()
    ensures { WorkedPromises }
{}

/// What a run asks of its lookups: of those that its plan calls, and of no other.
pub fn premises_meet_worked_cases()
    ensures { WorkedPremises }
{}

/// What a character says of its item and of a text: whether it is hidden, and all properties and
/// scratch flags that depend on it. Also new items, the categories of marks and spaces, and
/// directions.
pub fn characters_meet_worked_cases()
    ensures { WorkedCharacters }
{}

/// The items and contexts that texts bring in, the spans of graphemes, scripts and directions that
/// are guessed, and what clearing leaves of a buffer.
pub fn texts_meet_worked_cases()
    ensures { WorkedTexts }
{}

/// The clusters of a result in the order of the text, clusters by number, and scripts by their
/// tags.
pub fn results_meet_worked_cases()
    ensures { WorkedResults }
{}

/// Steps in order, those that pass a limit and those that don't, and what is known of runs that
/// were made or refused.
pub fn outcomes_meet_worked_cases()
    ensures { WorkedOutcomes }
{}

/// First bytes of a string, requests of a plan, ranges and spans, words of items, flags that are
/// seen, and forms for a direction.
pub fn parts_meet_worked_cases()
    ensures { WorkedParts }
{}

/// What holds of each plan's decisions, and which texts a plan fits.
pub fn plans_meet_worked_cases()
    ensures { WorkedFits }
{}
