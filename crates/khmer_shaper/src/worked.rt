//! Cases worked out by hand, which the definitions meet.
ghost use Rattle.khmer_shaper.specs.Worked.Orders.{WorkedOrders};
ghost use Rattle.khmer_shaper.specs.Worked.Requests.{WorkedRequests};
ghost use Rattle.khmer_shaper.specs.Worked.Splitting.{WorkedSplitting};
ghost use Rattle.khmer_shaper.specs.Worked.Syllables.{WorkedSyllables};
ghost use Rattle.khmer_shaper.specs.Worked.Texts.{WorkedTexts};

/// The order of syllables, and the masks of their items.
pub fn orders_meet_worked_cases()
    ensures { WorkedOrders }
{}

/// The features and their stages.
pub fn requests_meet_worked_cases()
    ensures { WorkedRequests }
{}

/// Vowels of two parts, and what is composed.
pub fn splitting_meets_worked_cases()
    ensures { WorkedSplitting }
{}

/// Each kind of syllable.
pub fn syllables_meet_worked_cases()
    ensures { WorkedSyllables }
{}

/// Texts through both pauses.
pub fn texts_meet_worked_cases()
    ensures { WorkedTexts }
{}
