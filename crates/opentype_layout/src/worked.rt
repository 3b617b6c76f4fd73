//! The definitions, computed on tables that were read by hand.
ghost use Rattle.opentype_layout.specs.Worked.Engine.{WorkedEngine};
ghost use Rattle.opentype_layout.specs.Worked.Tries.{WorkedTries};

/// What the engine takes of the tables of a small font.
pub fn engine_meets_worked_cases()
    ensures { WorkedEngine }
{}

/// What the stages of substitution and positioning try, one after the other, and what lookups cost
/// at each item.
pub fn tries_meet_worked_cases()
    ensures { WorkedTries }
{}
