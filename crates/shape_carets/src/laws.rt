//! Laws of carets: each function has laws as its contract, and nothing to do.
ghost use Rattle.std.specs.Prelude.{◌≡◌, ℕ, ℤ, List};
ghost use Rattle.shape_carets.specs.Laws.{CaretsRise, CaretsAreUnique, OffsetsReturn, OffsetsReturnFrom};
ghost use Rattle.shape_carets.specs.Laws.{SelectionHasPieces, SelectionHasNoGap};

/// The offsets of carets rise, whatever the clusters are, if no stop is listed twice.
pub fn offsets_rise()
    ensures { CaretsRise }
{}

/// One caret is an offset's, and one is the nearest to a place on the line.
pub fn carets_are_unique()
    ensures { CaretsAreUnique }
{}

/// From an offset to its place on the line and back: a click where a caret stands leads to its
/// offset, if no later caret stands there. If carets go one way on, none does where the text after
/// the caret has a width.
pub fn offsets_return()
    ensures last { OffsetsReturn }
    ensures one_way { OffsetsReturnFrom }
{}

/// A selection has each piece that is selected and, if offsets rise, nothing else: each place in it
/// lies in a piece that is selected.
pub fn selections_are_exact()
    ensures pieces { SelectionHasPieces }
    ensures no_gap { SelectionHasNoGap }
{}
