//! The definitions, computed by hand.
ghost use Rattle.layout_matching.specs.Worked.{WorkedNullClasses, WorkedEnds, WorkedTypes};
ghost use Rattle.layout_matching.specs.Worked.Glance.{WorkedGlance};
ghost use Rattle.layout_matching.specs.Worked.LigatureSets.{WorkedSets};
ghost use Rattle.layout_matching.specs.Worked.WholeRules.{WorkedWholes};
ghost use Rattle.layout_matching.specs.Worked.Passing.{WorkedPassing};
ghost use Rattle.layout_matching.specs.Worked.Seeking.{WorkedSeeking};
ghost use Rattle.layout_matching.specs.Worked.Sought.{WorkedSought};
ghost use Rattle.layout_matching.specs.Worked.Tries.{WorkedTries};
ghost use Rattle.layout_matching.specs.Worked.Work.{WorkedWork};
ghost use Rattle.layout_matching.specs.Worked.Would.{WorkedWould};
ghost use Rattle.layout_matching.specs.Worked.Tried.{WorkedAhead, WorkedLets, WorkedTried};

/// Rules of context: a NULL ClassDef has all glyphs in class 0, and a rule that leads past the end
/// of the table matches nothing.
pub fn rules_meet_worked_cases()
    ensures null_classes { WorkedNullClasses }
    ensures ends { WorkedEnds }
{}

/// Lookups of context, by the type of a lookup whose first subtable is NULL.
pub fn types_meet_worked_cases()
    ensures { WorkedTypes }
{}

/// What lookups are charged for at a place, by rule, ligature and subtable, and what is passed over
/// beside it.
pub fn work_meets_worked_cases()
    ensures { WorkedWork }
{}

/// What is stored of sets of ligatures.
pub fn stored_sets_meet_worked_cases()
    ensures { WorkedSets }
{}

/// What is stored of rules of format 3.
pub fn stored_rules_meet_worked_cases()
    ensures { WorkedWholes }
{}

/// What looking for a rule of context costs, up to the one that applies.
pub fn seeking_meets_worked_cases()
    ensures { WorkedSought }
{}

/// What lookups are charged for where they pass over glyphs that lists are searched for.
pub fn passing_meets_worked_cases()
    ensures { WorkedPassing }
{}

/// What the glyphs around a place say of rules, and which rules that refuses.
pub fn glances_meet_worked_cases()
    ensures { WorkedGlance }
{}

/// Which rules of context match glyphs that stand alone, and at which glyphs subtables of context
/// begin.
pub fn would_meets_worked_cases()
    ensures { WorkedWould }
{}

/// How many subtables are asked at a place, and how many rules are compared there, up to the first
/// that applies.
pub fn tries_meet_worked_cases()
    ensures { WorkedTries }
{}

/// Which glyphs a search finds, how many a rule may have, and which syllable it keeps to.
pub fn searches_meet_worked_cases()
    ensures { WorkedSeeking }
{}

/// How far sets of rules look that are tried in vain, and what rules look for after their first
/// glyph.
pub fn reaches_meet_worked_cases()
    ensures tried { WorkedTried }
    ensures lets { WorkedLets }
    ensures ahead { WorkedAhead }
{}
