//! The definitions of normalising, computed on small cases whose results were worked out by hand.
ghost use Rattle.shape_normalize.specs.Worked.Form.{FormWorked};
ghost use Rattle.shape_normalize.specs.Worked.Hooks.{HooksWorked};
ghost use Rattle.shape_normalize.specs.Worked.One.{RoundOneWorked};
ghost use Rattle.shape_normalize.specs.Worked.OneWalk.{OneWalkWorked};
ghost use Rattle.shape_normalize.specs.Worked.Origins.{OriginsWorked};
ghost use Rattle.shape_normalize.specs.Worked.Three.{RoundThreeWorked};
ghost use Rattle.shape_normalize.specs.Worked.Two.{RoundTwoWorked};

/// Modes, glyphs that replace others, expansions, sequences and variation selectors.
pub fn round_one_meets_worked_cases()
    ensures { RoundOneWorked }
{}

/// Runs of marks and their spans, the shaper's hook, and CGJ.
pub fn round_two_meets_worked_cases()
    ensures { RoundTwoWorked }
{}

/// Marks that come from expansions: which stand by themselves, which runs are put in order.
pub fn one_walk_meets_worked_cases()
    ensures { OneWalkWorked }
{}

/// What composes, what the composed item has, and what is merged.
pub fn round_three_meets_worked_cases()
    ensures { RoundThreeWorked }
{}

/// Where the items of each round came from, and what they have of it.
pub fn origins_meet_worked_cases()
    ensures { OriginsWorked }
{}

/// Whose ccc counts if hooks split, compose or reorder.
pub fn hooks_meet_worked_cases()
    ensures { HooksWorked }
{}

/// What is promised of a normalised list: glyphs, hidden items, short runs, order and what
/// composes; and what canonical form asks, and no more.
pub fn form_meets_worked_cases()
    ensures { FormWorked }
{}
