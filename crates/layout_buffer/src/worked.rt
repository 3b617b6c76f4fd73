//! The definitions, computed by hand.
ghost use Rattle.layout_buffer.specs.Worked.{WorkedGaps, WorkedGrowth};

/// What a list is that storage holds round a gap, and how far a merge before a gap grows over what
/// stands after it.
pub fn definitions_meet_worked_cases()
    ensures gaps { WorkedGaps }
    ensures growth { WorkedGrowth }
{}
