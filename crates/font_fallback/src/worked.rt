//! The definitions in small cases.
ghost use Rattle.font_fallback.specs.Worked.{WorkedChoice};

/// Fonts of clusters are those that were worked out by hand.
pub fn choices_meet_worked_cases()
    ensures { WorkedChoice }
{}
