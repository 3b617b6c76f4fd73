//! The definitions, computed on small cases whose results were worked out by hand.
ghost use Rattle.bidi.specs.Worked.{WorkedClasses, WorkedExplicit, WorkedLines, WorkedNeutral, WorkedWeak};
ghost use Rattle.bidi.specs.Worked.Sequences.{WorkedBrackets, WorkedSequences};

/// What each rule says of small texts.
pub fn rules_meet_worked_cases()
    ensures classes { WorkedClasses }
    ensures explicit { WorkedExplicit }
    ensures sequences { WorkedSequences }
    ensures weak { WorkedWeak }
    ensures brackets { WorkedBrackets }
    ensures neutral { WorkedNeutral }
    ensures lines { WorkedLines }
{}
