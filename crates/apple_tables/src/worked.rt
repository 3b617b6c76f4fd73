//! The definitions, computed by hand.
ghost use Rattle.apple_tables.specs.Worked.{WorkedLookups, WorkedStates};

/// Lookup tables of each format, and a state table.
pub fn tables_meet_worked_cases()
    ensures lookups { WorkedLookups }
    ensures states { WorkedStates }
{}
