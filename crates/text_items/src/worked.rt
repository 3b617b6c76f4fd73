//! The definitions, computed on small cases whose results were worked out by hand.
ghost use Rattle.text_items.specs.Worked.{WorkedExtensions, WorkedOwn, WorkedRuns, WorkedScripts};
ghost use Rattle.text_items.specs.Worked.Texts.{WorkedEmoji, WorkedTexts};

/// The scripts of clusters, the sequences of emoji, and the runs of small texts.
pub fn runs_meet_worked_cases()
    ensures own { WorkedOwn }
    ensures scripts { WorkedScripts }
    ensures extensions { WorkedExtensions }
    ensures runs { WorkedRuns }
    ensures emoji { WorkedEmoji }
    ensures texts { WorkedTexts }
{}
