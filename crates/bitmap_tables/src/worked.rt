//! The definitions, computed on bytes that were read by hand.
ghost use Rattle.bitmap_tables.specs.Worked.Strikes.{WorkedScales, WorkedStrikes, WorkedSbix};
ghost use Rattle.bitmap_tables.specs.Worked.Cbdt.{WorkedImages, WorkedBitmaps};

/// Boxes in units of the font, the choice of a strike, and `sbix`.
pub fn strikes_meet_worked_cases()
    ensures scales { WorkedScales }
    ensures strikes { WorkedStrikes }
    ensures sbix { WorkedSbix }
{}

/// `CBLC` and `CBDT`, and which table is asked first.
pub fn bitmaps_meet_worked_cases()
    ensures images { WorkedImages }
    ensures bitmaps { WorkedBitmaps }
{}
