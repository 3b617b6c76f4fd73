//! The definitions, computed on small cases whose results were worked out by hand.
ghost use Rattle.shape_carets.specs.Worked.Carets.{WorkedCarets, WorkedStops};
ghost use Rattle.shape_carets.specs.Worked.Places.{WorkedPlaces, WorkedNearest};
ghost use Rattle.shape_carets.specs.Worked.Selections.{WorkedSelections};

/// Where carets stand, at clusters and at stops inside.
pub fn carets_meet_worked_cases()
    ensures carets { WorkedCarets }
    ensures stops { WorkedStops }
{}

/// The caret of an offset, and that nearest to a place on the line.
pub fn places_meet_worked_cases()
    ensures places { WorkedPlaces }
    ensures nearest { WorkedNearest }
{}

/// What a selection covers.
pub fn selections_meet_worked_cases()
    ensures { WorkedSelections }
{}
