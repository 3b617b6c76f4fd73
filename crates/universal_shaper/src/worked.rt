//! The definitions, computed by hand.
ghost use Rattle.universal_shaper.specs.Worked.Categories.{WorkedCategories};
ghost use Rattle.universal_shaper.specs.Worked.Forms.{WorkedFormsOfSyllables};
ghost use Rattle.universal_shaper.specs.Worked.Orders.{WorkedOrders};
ghost use Rattle.universal_shaper.specs.Worked.Pauses.{WorkedPauses};
ghost use Rattle.universal_shaper.specs.Worked.Records.{WorkedRecords};
ghost use Rattle.universal_shaper.specs.Worked.Requests.{WorkedRequests};
ghost use Rattle.universal_shaper.specs.Worked.Syllables.{WorkedSyllables};
ghost use Rattle.universal_shaper.specs.Worked.Texts.{WorkedTexts};

/// Categories of characters.
pub fn categories_meet_worked_cases()
    ensures { WorkedCategories }
{}

/// The first syllables of texts, of each kind.
pub fn syllables_meet_worked_cases()
    ensures { WorkedSyllables }
{}

/// Syllables of texts with joiners.
pub fn texts_meet_worked_cases()
    ensures { WorkedTexts }
{}

/// The features and their stages, and what isn't composed.
pub fn requests_meet_worked_cases()
    ensures { WorkedRequests }
{}

/// What is masked before lookups, and what is noted after them.
pub fn records_meet_worked_cases()
    ensures { WorkedRecords }
{}

/// The order of syllables, and where dotted circles go.
pub fn orders_meet_worked_cases()
    ensures { WorkedOrders }
{}

/// The forms of syllables, and of letters in scripts that join.
pub fn forms_meet_worked_cases()
    ensures { WorkedFormsOfSyllables }
{}

/// What each pause does.
pub fn pauses_meet_worked_cases()
    ensures { WorkedPauses }
{}
