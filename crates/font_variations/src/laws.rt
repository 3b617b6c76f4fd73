//! What holds of any font.
ghost use Rattle.font_variations.specs.Laws.{AxesArePart, RegionsArePart, AxesAtDefault, RegionsAtDefault, DeltasAtDefault, FewDeltasAtDefault};
ghost use Rattle.font_variations.specs.Laws.{AdvancesAtDefault, BearingsAtDefault, OriginsAtDefault};

/// At any coordinates an axis and a region take part by a number from 0 to 1.
pub fn scalars_are_parts()
    ensures axes { AxesArePart }
    ensures regions { RegionsArePart }
{}

/// At the default instance an axis takes part wholly where its peak is there, and else not at all;
/// so a region with a peak elsewhere takes no part, and a delta set for such regions alone is
/// exactly 0.
pub fn defaults_add_nothing()
    ensures axes { AxesAtDefault }
    ensures regions { RegionsAtDefault }
    ensures deltas { DeltasAtDefault }
    ensures few { FewDeltasAtDefault }
{}

/// Nothing is then added to metrics of a glyph.
pub fn default_metrics_stay()
    ensures advances { AdvancesAtDefault }
    ensures bearings { BearingsAtDefault }
    ensures origins { OriginsAtDefault }
{}
