//! The definitions of planning, computed on small cases whose results were worked out by hand.
ghost use Rattle.std.specs.Prelude.{ℕ};
ghost use Rattle.shape_plan.specs.Plan.{Plan};
ghost use Rattle.shape_plan.specs.Worked.Requests.{RequestsOfDirections, RequestsOfUsers};
ghost use Rattle.shape_plan.specs.Worked.Requests.{RequestsOfHooks, TextsOfHooks};
ghost use Rattle.shape_plan.specs.Worked.Decisions.{ChoicesOfFaces, ChoicesForMarks};
ghost use Rattle.shape_plan.specs.Worked.Decisions.{DecisionsOfMasks};
ghost use Rattle.shape_plan.specs.Worked.Plans.{UsedShapers, PlansOfFaces, MasksOfPlans};
ghost use Rattle.shape_plan.specs.Worked.Plans.{ScriptsOfShapers};
ghost use Rattle.shape_plan.specs.Worked.Runs.{RulesOfShapers, RunsOfPlans, ConstantsOfShapers};
ghost use Rattle.shape_plan.specs.Worked.Texts.{ScriptsOfTexts, TagsOfFacts, ScriptsThatFit};

/// What is asked for in each direction, for the user and by hooks, and what hooks are told of the
/// text.
pub fn requests_meet_worked_cases()
    ensures directions { RequestsOfDirections }
    ensures users { RequestsOfUsers }
    ensures hooks { RequestsOfHooks }
    ensures texts { TextsOfHooks }
{}

/// Who positions and what is done for marks, by tables and what faces return.
pub fn decisions_meet_worked_cases()
    ensures faces { ChoicesOfFaces }
    ensures marks { ChoicesForMarks }
    ensures masks { DecisionsOfMasks }
{}

/// Which shapers are used, whose masks and scripts count, and what plans are made of.
pub fn plans_meet_worked_cases()
    ensures shapers { UsedShapers }
    ensures faces { PlansOfFaces }
    ensures masks { MasksOfPlans }
    ensures scripts { ScriptsOfShapers }
{}

/// What engine and map are asked with: script and language of the text, and the tag of each
/// feature.
pub fn texts_meet_worked_cases()
    ensures scripts { ScriptsOfTexts }
    ensures tags { TagsOfFacts }
    ensures fit { ScriptsThatFit }
{}

/// What a run depends on: which hooks count, and what is told of plan and face.
pub fn runs_meet_worked_cases()
    ensures rules { (plan : Plan ℕ ℕ ℕ) → RulesOfShapers plan }
    ensures runs { (plan : Plan ℕ ℕ ℕ) → RunsOfPlans plan }
    ensures constants { ConstantsOfShapers }
{}
