//! The definitions, computed on small cases whose results were worked out by hand.
ghost use Rattle.line_breaks.specs.Worked.{WorkedRules};
ghost use Rattle.line_breaks.specs.Worked.Classes.{WorkedClasses};
ghost use Rattle.line_breaks.specs.Worked.Texts.{WorkedLetters, WorkedClassOne, WorkedUnits, WorkedText, WorkedBreaks};

/// What each rule says of a place, and of each class that it names.
pub fn rules_meet_worked_cases()
    ensures rules { WorkedRules }
    ensures classes { WorkedClasses }
{}

/// What a character is to the rules, and how a text is read.
pub fn texts_meet_worked_cases()
    ensures letters { WorkedLetters }
    ensures resolved { WorkedClassOne }
    ensures units { WorkedUnits }
    ensures text { WorkedText }
    ensures breaks { WorkedBreaks }
{}
