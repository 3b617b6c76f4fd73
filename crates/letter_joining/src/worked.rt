//! The definitions, computed by hand.
ghost use Rattle.letter_joining.specs.Worked.JoinedText.{WorkedForms, WorkedJoiningFlags};
ghost use Rattle.letter_joining.specs.Worked.Joining.{WorkedJoining};

/// The forms and states of joining, over HarfBuzz's whole table.
pub fn joining_meets_worked_cases()
    ensures { WorkedJoining }
{}

/// The forms of letters of whole texts, between contexts, about marks and joiners.
pub fn forms_meet_worked_cases()
    ensures { WorkedForms }
{}

/// The flags that joining gives to glyphs.
pub fn flags_meet_worked_cases()
    ensures { WorkedJoiningFlags }
{}
