//! The definitions in small cases.
ghost use Rattle.line_carets.specs.Worked.{WorkedSettled};

/// Carets of a line are those that were worked out by hand.
pub fn carets_meet_worked_cases()
    ensures { WorkedSettled }
{}
