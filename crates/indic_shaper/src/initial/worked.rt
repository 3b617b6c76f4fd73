//! Syllables put in order by hand, which the definitions meet.
ghost use Rattle.indic_shaper.specs.Worked.Initial.{WorkedClusters, WorkedOrders, WorkedRephs};
ghost use Rattle.indic_shaper.specs.Worked.Initial.{WorkedSorts};
ghost use Rattle.indic_shaper.specs.Worked.Steps.{WorkedAttaching, WorkedBases, WorkedJoins};
ghost use Rattle.indic_shaper.specs.Worked.Steps.{WorkedMasks};

/// Categories and positions of characters, and where fonts put consonants.
pub fn sorts_meet_worked_cases()
    ensures { WorkedSorts }
{}

/// Syllables in the order that lookups want, and their masks.
pub fn orders_meet_worked_cases()
    ensures { WorkedOrders }
{}

/// Which syllables begin with a reph, script by script; forms before the base.
pub fn rephs_meet_worked_cases()
    ensures { WorkedRephs }
{}

/// The clusters of what changes places.
pub fn clusters_meet_worked_cases()
    ensures { WorkedClusters }
{}

/// The steps of initial reordering, one by one.
pub fn first_steps_meet_worked_cases()
    ensures bases { WorkedBases }
    ensures attaching { WorkedAttaching }
    ensures masks { WorkedMasks }
    ensures joins { WorkedJoins }
{}
