//! The definitions, computed on small cases whose results were worked out by hand.
ghost use Rattle.layout_digests.specs.Worked.Digests.{WorkedDigests, WorkedFirsts, WorkedLacks};

/// Which glyphs a set holds, and which a subtable begins at.
pub fn digests_meet_worked_cases()
    ensures digests { WorkedDigests }
    ensures firsts { WorkedFirsts }
{}

/// What holds of no set that lacks a glyph.
pub fn sets_that_lack_meet_worked_cases()
    ensures { WorkedLacks }
{}
