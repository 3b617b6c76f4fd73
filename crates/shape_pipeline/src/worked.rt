//! The order of a run, laid beside the list of its parts, and what it begins and ends with, worked
//! by hand.
ghost use Rattle.shape_pipeline.specs.Worked.Beginnings.{WorkedBeginnings};
ghost use Rattle.shape_pipeline.specs.Worked.Obligations.{PausesAreAsked};
ghost use Rattle.shape_pipeline.specs.Worked.Passes.{WorkedPasses};
ghost use Rattle.shape_pipeline.specs.Worked.Run.{StepsComeInOrder};

/// A run makes its steps in this order, from the first mask to the flags of glyphs. Does nothing.
pub fn steps_come_in_order()
    ensures { StepsComeInOrder }
{}

/// The text as it enters, the plan for its language, the origins of a face that is given glyph by
/// glyph, what the promises on clusters and flags are good for, and which pauses are asked to
/// preserve them. Does nothing.
pub fn beginnings_meet_worked_cases()
    ensures beginnings { WorkedBeginnings }
    ensures pauses { PausesAreAsked }
{}

/// What is known of texts with an item and without, prepared, normalised and shaped, when each
/// passes the limit, and what a shaper makes for the plan of a text. Does nothing.
pub fn passes_meet_worked_cases()
    ensures { WorkedPasses }
{}
