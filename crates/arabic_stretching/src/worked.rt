//! The definitions, computed by hand.
ghost use Rattle.arabic_stretching.specs.Worked.Tiles.{WorkedTiles};
ghost use Rattle.arabic_stretching.specs.Worked.Fitting.{WorkedFitting};
ghost use Rattle.arabic_stretching.specs.Worked.Stretching.{WorkedStretching};

/// Which glyphs are tiles, and how far the word after them goes.
pub fn tiles_meet_worked_cases()
    ensures { WorkedTiles }
{}

/// How often tiles are repeated, how far they overlap and where they begin.
pub fn fitting_meets_worked_cases()
    ensures { WorkedFitting }
{}

/// Whole texts from right to left and from left to right.
pub fn stretching_meets_worked_cases()
    ensures { WorkedStretching }
{}
