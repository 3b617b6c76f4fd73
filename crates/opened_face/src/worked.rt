//! The definitions, computed on bytes that were read by hand.
ghost use Rattle.opened_face.specs.Worked.Ranges.{WorkedRanges};
ghost use Rattle.opened_face.specs.Worked.Pages.{WorkedPages};

/// Which characters subtables list, and which numbers are stored.
pub fn opened_faces_meet_worked_cases()
    ensures ranges { WorkedRanges }
    ensures pages { WorkedPages }
{}
