//! Syllables found by hand, which the grammars find.
ghost use Rattle.syllables.specs.Worked.Indic.{WorkedIndic};
ghost use Rattle.syllables.specs.Worked.Khmer.{WorkedKhmer};
ghost use Rattle.syllables.specs.Worked.Myanmar.{WorkedMyanmar};
ghost use Rattle.syllables.specs.Worked.Universal.{WorkedUniversal};

/// Syllables of the scripts of India.
pub fn indic_meets_worked_cases()
    ensures { WorkedIndic }
{}

/// Syllables of Khmer.
pub fn khmer_meets_worked_cases()
    ensures { WorkedKhmer }
{}

/// Syllables of Myanmar.
pub fn myanmar_meets_worked_cases()
    ensures { WorkedMyanmar }
{}

/// Syllables of the Universal Shaping Engine.
pub fn universal_meets_worked_cases()
    ensures { WorkedUniversal }
{}
