//! Cases worked out by hand, which the definitions meet.
ghost use Rattle.syllabic.specs.Worked.Circles.{WorkedCircles};
ghost use Rattle.syllabic.specs.Worked.Moving.{WorkedMoving};
ghost use Rattle.syllabic.specs.Worked.Numbering.{WorkedNumbering};
ghost use Rattle.syllabic.specs.Worked.Vowels.{WorkedVowels};

/// Where dotted circles go.
pub fn circles_meet_worked_cases()
    ensures { WorkedCircles }
{}

/// Items that change places.
pub fn moving_meets_worked_cases()
    ensures { WorkedMoving }
{}

/// Syllables, numbered.
pub fn numbering_meets_worked_cases()
    ensures { WorkedNumbering }
{}

/// Vowels that may not follow a letter.
pub fn vowels_meet_worked_cases()
    ensures { WorkedVowels }
{}
