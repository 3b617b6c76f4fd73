//! What holds of numbers at a size.
ghost use Rattle.font_sizes.specs.Laws.{ChangesNothing};

/// The size of the em square changes no number.
pub fn em_square_changes_nothing()
    ensures { ChangesNothing }
{}
