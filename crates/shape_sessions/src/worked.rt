//! The definitions of printed lines, computed on lines that were written by hand.
ghost use Rattle.shape_sessions.specs.Worked.Printing.{WorkedPrinting};

/// The lines that are printed for a text: items, glyphs, and glyphs of a text's line.
pub fn printing_meets_worked_cases()
    ensures { WorkedPrinting }
{}
