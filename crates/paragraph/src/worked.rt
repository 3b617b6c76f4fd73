//! The definition in small cases.
ghost use Rattle.paragraph.specs.Worked.{WorkedFaces};

/// How far lines reach is what was worked out by hand.
pub fn faces_meet_worked_cases()
    ensures { WorkedFaces }
{}
