//! The definitions, computed on small cases whose results were worked out by hand.
ghost use Rattle.shape_glyphs.specs.Worked.Classes.{ClassesOfGlyphs};
ghost use Rattle.shape_glyphs.specs.Worked.Glyphs.{WorkedGlyphs};
ghost use Rattle.shape_glyphs.specs.Worked.Lookups.{WorkedLookups};
ghost use Rattle.shape_glyphs.specs.Worked.Phases.{WorkedPhases};
ghost use Rattle.shape_glyphs.specs.Worked.Positions.{WorkedPositions};
ghost use Rattle.shape_glyphs.specs.Worked.Steps.{WorkedSteps};
ghost use Rattle.shape_glyphs.specs.Worked.Substitution.{WorkedSubstitution};

/// Classes of glyphs, and the lists of steps run on an engine that adds numbers to glyphs and on
/// one with single, ligature and multiple substitutions, as the definitions have them.
pub fn substitutions_meet_worked_cases()
    ensures classes { ClassesOfGlyphs }
    ensures steps { WorkedSubstitution }
    ensures lookups { WorkedLookups }
{}

/// Advances in each direction, marks that are zeroed, tables that a plan chooses, the reversal,
/// ignorables, selectors and flags of some glyphs, as the definitions have them.
pub fn positions_meet_worked_cases()
    ensures positions { WorkedPositions }
    ensures glyphs { WorkedGlyphs }
{}

/// The order of the steps, on glyphs of which each step leaves a trace; and of substitution and of
/// positions as whole lists, in which ccc, spaces and marks have their places.
pub fn steps_meet_worked_cases()
    ensures steps { WorkedSteps }
    ensures phases { WorkedPhases }
{}
