//! The definitions, computed on small cases whose results were worked out by hand.
ghost use Rattle.shape_prepare.specs.Worked.Begun.{WorkedBegun};
ghost use Rattle.shape_prepare.specs.Worked.Fractions.{WorkedFractions};
ghost use Rattle.shape_prepare.specs.Worked.Graphemes.{WorkedGraphemes};
ghost use Rattle.shape_prepare.specs.Worked.MaskSteps.{WorkedMasks};
ghost use Rattle.shape_prepare.specs.Worked.Order.{WorkedOrder};
ghost use Rattle.shape_prepare.specs.Worked.Ranges.{WorkedRanges};

/// The masks and positions that a run begins with, as the definition has them.
pub fn beginnings_meet_worked_cases()
    ensures { WorkedBegun }
{}

/// Which items continue a grapheme (flags of two regional indicators, emoji with skin tones, ZWJ,
/// tags and keycaps, marks), each rule with what stands beside it, and where a dotted circle is
/// put in, as the definitions have them.
pub fn graphemes_meet_worked_cases()
    ensures { WorkedGraphemes }
{}

/// The clusters of graphemes by level, the native order, the forms for a direction and what else
/// an item keeps, as the definitions have them.
pub fn orders_meet_worked_cases()
    ensures { WorkedOrder }
{}

/// Masks of fractions, features of the user over ranges, and the order in which masks are set, as
/// the definitions have them.
pub fn masks_meet_worked_cases()
    ensures fractions { WorkedFractions }
    ensures ranges { WorkedRanges }
    ensures steps { WorkedMasks }
{}
