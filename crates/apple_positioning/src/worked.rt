//! The definitions, computed by hand.
ghost use Rattle.apple_positioning.specs.Worked.Kerning.{WorkedChains, WorkedHeaders};
ghost use Rattle.apple_positioning.specs.Worked.Kerning.{WorkedPairs, WorkedClasses, WorkedRows};
ghost use Rattle.apple_positioning.specs.Worked.Driving.{WorkedAttaching, WorkedCrossing};
ghost use Rattle.apple_positioning.specs.Worked.Driving.{WorkedStacking};
ghost use Rattle.apple_positioning.specs.Worked.Lines.{WorkedLines, WorkedRises};
ghost use Rattle.apple_positioning.specs.Worked.Machines.{WorkedAttachments, WorkedStacks};
ghost use Rattle.apple_positioning.specs.Worked.Older.{WorkedOldHeaders, WorkedOldKinds};
ghost use Rattle.apple_positioning.specs.Worked.Older.{WorkedOldLines, WorkedOldLists};
ghost use Rattle.apple_positioning.specs.Worked.Older.{WorkedOldRises, WorkedOldStates};
ghost use Rattle.apple_positioning.specs.Worked.Points.{WorkedAnchors};
ghost use Rattle.apple_positioning.specs.Worked.Tables.{WorkedLinks, WorkedTables};
ghost use Rattle.apple_positioning.specs.Worked.Spacing.{WorkedTracking, WorkedParts};
ghost use Rattle.apple_positioning.specs.Worked.Spacing.{WorkedSpacing};

/// The tracking of point sizes, and runs that it widens or tightens.
pub fn tracking_meets_worked_cases()
    ensures tracking { WorkedTracking }
    ensures parts { WorkedParts }
    ensures spacing { WorkedSpacing }
{}

/// Anchor points of glyphs.
pub fn anchors_meet_worked_cases()
    ensures { WorkedAnchors }
{}

/// Chains of subtables, their headers, and the values of pairs.
pub fn kerning_meets_worked_cases()
    ensures chains { WorkedChains }
    ensures headers { WorkedHeaders }
    ensures pairs { WorkedPairs }
    ensures classes { WorkedClasses }
    ensures rows { WorkedRows }
{}

/// What entries of state tables name: actions that attach glyphs, and values for glyphs on a stack.
pub fn machines_meet_worked_cases()
    ensures attachments { WorkedAttachments }
    ensures stacks { WorkedStacks }
{}

/// Lines that subtables of pairs kern, along them and across them.
pub fn lines_meet_worked_cases()
    ensures lines { WorkedLines }
    ensures rises { WorkedRises }
{}

/// Lines that whole tables kern, and which glyphs follow others then.
pub fn tables_meet_worked_cases()
    ensures tables { WorkedTables }
    ensures links { WorkedLinks }
{}

/// Lines that subtables with a state table kern, along them and across them, and glyphs that they
/// attach to others.
pub fn state_tables_meet_worked_cases()
    ensures stacking { WorkedStacking }
    ensures crossing { WorkedCrossing }
    ensures attaching { WorkedAttaching }
{}

/// The older table `kern`: its state tables and headers, lines that it kerns by them, along them
/// and across them, and what it has.
pub fn older_tables_meet_worked_cases()
    ensures states { WorkedOldStates }
    ensures lists { WorkedOldLists }
    ensures headers { WorkedOldHeaders }
    ensures lines { WorkedOldLines }
    ensures rises { WorkedOldRises }
    ensures kinds { WorkedOldKinds }
{}
