//! The definitions, computed on scripts and names that were worked by hand.
ghost use Rattle.opentype_tags.specs.Worked.Cases.{WorkedScripts, WorkedLanguages};

/// Tags of scripts and of languages.
pub fn tags_meet_worked_cases()
    ensures scripts { WorkedScripts }
    ensures languages { WorkedLanguages }
{}
