//! The definitions in small cases.
ghost use Rattle.text_lines.specs.Worked.{WorkedLeads, WorkedOrder, WorkedParts, WorkedPens};
ghost use Rattle.text_lines.specs.Worked.{WorkedReach};
ghost use Rattle.text_lines.specs.WorkedLevels.{WorkedLevels};

/// Lines, their parts and their glyphs are those that were worked out by hand.
pub fn lines_meet_worked_cases()
    ensures parts { WorkedParts }
    ensures order { WorkedOrder }
    ensures leads { WorkedLeads }
    ensures pens { WorkedPens }
    ensures reach { WorkedReach }
    ensures levels { WorkedLevels }
{}
