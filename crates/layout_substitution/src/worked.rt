//! The definitions, computed by hand.
ghost use Rattle.layout_substitution.specs.Worked.{WorkedLigatures, WorkedPasts, WorkedBeginnings, WorkedCounts, WorkedDeletions};
ghost use Rattle.layout_substitution.specs.Worked.{WorkedMergings, WorkedLigating};
ghost use Rattle.layout_substitution.specs.Worked.Lists.{WorkedLists};
ghost use Rattle.layout_substitution.specs.Worked.Made.{WorkedMade, WorkedNumbers};
ghost use Rattle.layout_substitution.specs.Worked.Would.{WorkedWould};

/// Ligatures: their components, and one that leads past the end of the table.
pub fn ligatures_meet_worked_cases()
    ensures { WorkedLigatures }
{}

/// What becomes of items: which are ligated, and which multiplied.
#[tactic(auto, unfolding(crate::specs::Replaced::is_multiplied, crate::specs::Replaced::as_ligature))]
pub fn items_meet_worked_cases()
    ensures { WorkedPasts }
{}

/// What glyphs are as substitution begins, and what a ligature of marks is.
pub fn beginnings_meet_worked_cases()
    ensures { WorkedBeginnings }
{}

/// How many components a ligature has, by its class.
pub fn counts_meet_worked_cases()
    ensures { WorkedCounts }
{}

/// What deleting a glyph costs.
pub fn deletions_meet_worked_cases()
    ensures { WorkedDeletions }
{}

/// What a ligature costs after it is made: what merging its components writes beside them, and the
/// marks that follow it.
pub fn ligating_meets_worked_cases()
    ensures mergings { WorkedMergings }
    ensures ligating { WorkedLigating }
{}

/// Which glyphs that stand alone lookups of each type would substitute, in any context and in none.
pub fn would_meets_worked_cases()
    ensures { WorkedWould }
{}

/// What items are after glyphs were taken apart, joined or deleted, and which glyph a lookup of
/// type 1 puts in place of one.
pub fn replaced_items_meet_worked_cases()
    ensures { WorkedMade }
{}

/// How parts and components are numbered, which component a mark on a ligature stands on then, and
/// after which subtables the next one is tried.
pub fn numbers_meet_worked_cases()
    ensures { WorkedNumbers }
{}

/// The list that a ligature makes: its glyphs, and which component each mark stands on.
pub fn lists_meet_worked_cases()
    ensures { WorkedLists }
{}
