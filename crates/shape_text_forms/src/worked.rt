//! The definitions, computed on texts that were read by hand.
ghost use Rattle.shape_text_forms.specs.Worked.Features.{WorkedFeatures, WorkedRefusals};
ghost use Rattle.shape_text_forms.specs.Worked.Json.{WorkedLists};
ghost use Rattle.shape_text_forms.specs.Worked.Starts.{WorkedStarts};
ghost use Rattle.shape_text_forms.specs.Worked.Variations.{WorkedVariations};
ghost use Rattle.shape_text_forms.specs.Worked.Texts.{WorkedNames, WorkedTexts, WorkedFontNames};

/// Features, values for axes, and texts that are none.
pub fn features_meet_worked_cases()
    ensures features { WorkedFeatures }
    ensures refusals { WorkedRefusals }
    ensures variations { WorkedVariations }
{}

/// Tags, scripts, directions and languages, glyphs as text and as JSON, and the names of a font's
/// glyphs and where these are stored.
pub fn texts_meet_worked_cases()
    ensures names { WorkedNames }
    ensures texts { WorkedTexts }
    ensures lists { WorkedLists }
    ensures font_names { WorkedFontNames }
    ensures starts { WorkedStarts }
{}
