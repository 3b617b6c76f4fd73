//! The definitions, computed on bytes that were read by hand.
ghost use Rattle.shape_font.specs.Worked.Tables.{WorkedNumbers, WorkedDirectory, WorkedCollections, WorkedSubtables, WorkedTags};
ghost use Rattle.shape_font.specs.Worked.Glyphs.{WorkedLists, WorkedSegments, WorkedGroups, WorkedSymbols, WorkedMetrics};
ghost use Rattle.shape_font.specs.Worked.FontPages.{WorkedFontPages, WorkedForks};
ghost use Rattle.shape_font.specs.Worked.Lines.{WorkedLines};
ghost use Rattle.shape_font.specs.Worked.Searches.{WorkedSearches, WorkedVariations};
ghost use Rattle.shape_font.specs.Worked.Names.{WorkedNames};
ghost use Rattle.shape_font.specs.Worked.Face.{WorkedFace, WorkedOrigins};
ghost use Rattle.shape_font.specs.Worked.Instances.{WorkedInstances};
ghost use Rattle.shape_font.specs.Worked.PointsAt.{WorkedPoints, WorkedPointPlaces};
ghost use Rattle.shape_font.specs.Worked.BoxesAt.{WorkedPlaces, WorkedBoxes};
ghost use Rattle.shape_font.specs.Worked.Colors.{WorkedColors, WorkedLayers};
ghost use Rattle.shape_font.specs.Worked.Sizes.{WorkedSizes};

/// Numbers, the directory, collections, the choice of a character map, and the tags of tables.
pub fn tables_meet_worked_cases()
    ensures numbers { WorkedNumbers }
    ensures directory { WorkedDirectory }
    ensures collections { WorkedCollections }
    ensures subtables { WorkedSubtables }
    ensures tags { WorkedTags }
{}

/// Glyphs of characters, advances and boxes, and what vertical lines take.
pub fn glyphs_meet_worked_cases()
    ensures lists { WorkedLists }
    ensures segments { WorkedSegments }
    ensures groups { WorkedGroups }
    ensures symbols { WorkedSymbols }
    ensures metrics { WorkedMetrics }
    ensures lines { WorkedLines }
{}

/// Pages of fonts from before Unicode, and fonts in resource forks.
pub fn old_fonts_meet_worked_cases()
    ensures pages { WorkedFontPages }
    ensures forks { WorkedForks }
{}

/// Searches by midpoints, variation sequences, names, and what a face returns, also at coordinates.
pub fn searches_meet_worked_cases()
    ensures searches { WorkedSearches }
    ensures variations { WorkedVariations }
    ensures names { WorkedNames }
    ensures face { WorkedFace }
    ensures origins { WorkedOrigins }
    ensures instances { WorkedInstances }
    ensures points { WorkedPoints }
    ensures places { WorkedPointPlaces }
{}

/// What a face returns at a size.
pub fn sizes_meet_worked_cases()
    ensures { WorkedSizes }
{}

/// What `COLR` says of glyphs, and boxes of layers.
pub fn colors_meet_worked_cases()
    ensures colors { WorkedColors }
    ensures layers { WorkedLayers }
{}

/// Frames of components, and boxes at coordinates.
pub fn boxes_meet_worked_cases()
    ensures places { WorkedPlaces }
    ensures boxes { WorkedBoxes }
{}
