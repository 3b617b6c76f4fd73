//! The definitions, computed by hand.
ghost use Rattle.arabic_fallback.specs.Worked.Charges.{WorkedCharges};
ghost use Rattle.arabic_fallback.specs.Worked.Faces.{WorkedFaces};
ghost use Rattle.arabic_fallback.specs.Worked.Forms.{WorkedForms};
ghost use Rattle.arabic_fallback.specs.Worked.Ligatures.{WorkedLigatures};
ghost use Rattle.arabic_fallback.specs.Worked.Merging.{WorkedMergings};
ghost use Rattle.arabic_fallback.specs.Worked.Parts.{WorkedParts};
ghost use Rattle.arabic_fallback.specs.Worked.Vain.{WorkedVain};

/// The forms of letters by the code charts, and where they are put.
pub fn forms_meet_worked_cases()
    ensures { WorkedForms }
{}

/// Ligatures over marks and joiners, of three letters and of marks, their clusters, and what
/// becomes of marks.
pub fn ligatures_meet_worked_cases()
    ensures { WorkedLigatures }
{}

/// Which forms and ligatures a face has glyphs for, and which of two ligatures is made.
pub fn faces_meet_worked_cases()
    ensures { WorkedFaces }
{}

/// How far ligatures look in vain, what is marked, and where a lookup goes on.
pub fn vain_searches_meet_worked_cases()
    ensures { WorkedVain }
{}

/// What searches for ligatures are charged, and what becomes of those that what is left doesn't
/// suffice for.
pub fn charges_meet_worked_cases()
    ensures { WorkedCharges }
{}

/// How many items the merging of a ligature's components writes beside them, and what it is charged
/// for these and for those that follow it.
pub fn mergings_meet_worked_cases()
    ensures { WorkedMergings }
{}

/// Ids of ligatures, what their components count, and what becomes of marks.
pub fn parts_meet_worked_cases()
    ensures { WorkedParts }
{}
