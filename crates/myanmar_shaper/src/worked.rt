//! Cases worked out by hand, which the definitions meet.
ghost use Rattle.myanmar_shaper.specs.Worked.Orders.{WorkedOrders};
ghost use Rattle.myanmar_shaper.specs.Worked.Requests.{WorkedRequests};
ghost use Rattle.myanmar_shaper.specs.Worked.Places.{WorkedPlaces};
ghost use Rattle.myanmar_shaper.specs.Worked.Syllables.{WorkedSyllables};
ghost use Rattle.myanmar_shaper.specs.Worked.Texts.{WorkedTexts};

/// The order of syllables.
pub fn orders_meet_worked_cases()
    ensures { WorkedOrders }
{}

/// The features and their stages.
pub fn requests_meet_worked_cases()
    ensures { WorkedRequests }
{}

/// The positions of items.
pub fn places_meet_worked_cases()
    ensures { WorkedPlaces }
{}

/// Each kind of syllable.
pub fn syllables_meet_worked_cases()
    ensures { WorkedSyllables }
{}

/// Texts through both pauses.
pub fn texts_meet_worked_cases()
    ensures { WorkedTexts }
{}
