//! What holds of the definitions.
ghost use Rattle.glyph_variations.specs.Laws.{InfersDeltas};

/// Deltas of points that a tuple doesn't list are those that the standard infers.
pub fn deltas_are_inferred()
    ensures { InfersDeltas }
{}
