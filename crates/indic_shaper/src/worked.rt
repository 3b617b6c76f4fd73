//! Cases worked out by hand, which the definitions meet.
ghost use Rattle.indic_shaper.specs.Worked.Finals.{WorkedBases, WorkedMatras as MatraSteps};
ghost use Rattle.indic_shaper.specs.Worked.Finals.{WorkedPrefs as PrefSteps};
ghost use Rattle.indic_shaper.specs.Worked.Finals.{WorkedRephs as RephSteps, WorkedWords};
ghost use Rattle.indic_shaper.specs.Worked.Scripts.{WorkedFacts, WorkedFeatures, WorkedScripts};
ghost use Rattle.indic_shaper.specs.Worked.Scripts.{WorkedSplits};
ghost use Rattle.indic_shaper.specs.Worked.Settling.{WorkedBeginnings, WorkedMatras};
ghost use Rattle.indic_shaper.specs.Worked.Settling.{WorkedPrefs, WorkedRephs};
ghost use Rattle.indic_shaper.specs.Worked.Texts.{WorkedPlaces, WorkedTexts};

/// Where matras before the base stand in the end, and their clusters.
pub fn matras_meet_worked_cases()
    ensures { WorkedMatras }
{}

/// Where rephs stand, script by script.
pub fn rephs_meet_worked_cases()
    ensures { WorkedRephs }
{}

/// Where consonants before the base stand.
pub fn prefs_meet_worked_cases()
    ensures { WorkedPrefs }
{}

/// Which matras ask for the form of a word's beginning.
pub fn beginnings_meet_worked_cases()
    ensures { WorkedBeginnings }
{}

/// The steps of final reordering, one by one.
pub fn final_steps_meet_worked_cases()
    ensures bases { WorkedBases }
    ensures matras { MatraSteps }
    ensures rephs { RephSteps }
    ensures prefs { PrefSteps }
    ensures words { WorkedWords }
{}

/// What scripts ask for, what a pause knows of a font, features and splits.
pub fn scripts_meet_worked_cases()
    ensures scripts { WorkedScripts }
    ensures facts { WorkedFacts }
    ensures features { WorkedFeatures }
    ensures splits { WorkedSplits }
{}

/// Texts from their characters through the pauses.
pub fn texts_meet_worked_cases()
    ensures texts { WorkedTexts }
    ensures places { WorkedPlaces }
{}
