//! The definitions, computed on tables and buffers that were read by hand.
ghost use Rattle.layout_positions.specs.Worked.Values.{WorkedValues, WorkedAnchors};
ghost use Rattle.layout_positions.specs.Worked.Devices.{WorkedDevices};
ghost use Rattle.layout_positions.specs.Worked.Sizes.{WorkedSizes};
ghost use Rattle.layout_positions.specs.Worked.Pairs.{WorkedTables, WorkedLines};
ghost use Rattle.layout_positions.specs.Worked.Marks.{WorkedMarks, WorkedBases, WorkedBaseWork, WorkedSearchWork, WorkedMultiplied, WorkedComponents};
ghost use Rattle.layout_positions.specs.Worked.Known.{WorkedKnown};
ghost use Rattle.layout_positions.specs.Worked.Paired.{WorkedPaired};
ghost use Rattle.layout_positions.specs.Worked.Cursive.{WorkedCursive};
ghost use Rattle.layout_positions.specs.Worked.Walk.{WorkedBounds, WorkedWalk};
ghost use Rattle.layout_positions.specs.Worked.Attachment.{WorkedAttachment, WorkedTurning};
ghost use Rattle.layout_positions.specs.Worked.Forest.{WorkedForest};
ghost use Rattle.layout_positions.specs.Worked.Stage.{WorkedStage};
ghost use Rattle.layout_positions.specs.Worked.Tries.{WorkedTries};
ghost use Rattle.layout_positions.specs.Worked.Types.{WorkedFarMarks, WorkedMarkClasses, WorkedPairsDown, WorkedFlags};

/// Value records, anchors, devices, single and pair adjustment.
pub fn adjustment_meets_worked_cases()
    ensures values { WorkedValues }
    ensures anchors { WorkedAnchors }
    ensures devices { WorkedDevices }
    ensures tables { WorkedTables }
    ensures lines { WorkedLines }
{}

/// Marks on bases, on components of ligatures and on marks; cursive attachment, and what follows
/// what.
pub fn attachment_meets_worked_cases()
    ensures marks { WorkedMarks }
    ensures bases { WorkedBases }
    ensures base_work { WorkedBaseWork }
    ensures search_work { WorkedSearchWork }
    ensures multiplied { WorkedMultiplied }
    ensures components { WorkedComponents }
    ensures cursive { WorkedCursive }
    ensures attachment { WorkedAttachment }
    ensures turning { WorkedTurning }
{}

/// Lookups over lines: subtables in order, far away, and in context.
pub fn walks_meet_worked_cases()
    ensures bounds { WorkedBounds }
    ensures walk { WorkedWalk }
{}

/// Subtables of marks that stand far away, marks of class 0, pairs down a line, and flags with a
/// mark attachment class.
pub fn types_meet_worked_cases()
    ensures far_marks { WorkedFarMarks }
    ensures mark_classes { WorkedMarkClasses }
    ensures pairs_down { WorkedPairsDown }
    ensures flags { WorkedFlags }
{}

/// Chains of attached glyphs, and where points of glyphs stand; a stage that counts nothing.
pub fn joins_meet_worked_cases()
    ensures forest { WorkedForest }
    ensures stage { WorkedStage }
{}

/// What lookups try over lines: subtables, rules, and lookups that rules name.
pub fn tries_meet_worked_cases()
    ensures { WorkedTries }
{}

/// Which subtables of marks are known not to list a glyph.
pub fn known_marks_meet_worked_cases()
    ensures { WorkedKnown }
{}

/// Value records and anchors of a font at a size.
pub fn sizes_meet_worked_cases()
    ensures { WorkedSizes }
{}

/// What lookups of pairs have for two glyphs.
pub fn known_pairs_meet_worked_cases()
    ensures { WorkedPaired }
{}
