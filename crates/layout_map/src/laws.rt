//! What holds of all maps, whatever the bytes of the font and whatever is requested.
ghost use Rattle.std.specs.Prelude.{ℕ, ◌≡◌, ◌≤◌, ◌<◌, ◌+◌, List, [], Option, length};
ghost use Rattle.std.specs.List.{AllPairs};
ghost use Rattle.std.specs.List.Sorted.{IsStrictlyIncreasing};
ghost use Rattle.shape_buffer.specs.Layout.{LawfulMasks};
ghost use Rattle.layout_map.specs.Chosen.{Chosen};
ghost use Rattle.layout_map.specs.Features.{allotted};
ghost use Rattle.layout_map.specs.Lookups.{gsub_lookups, gpos_lookups};
ghost use Rattle.layout_map.specs.Map.{OtMap, map_meaning};
ghost use Rattle.layout_map.specs.Stages.{staged, lookups_of};
ghost use Rattle.layout_map.specs.Laws.{AreApart, indexes};
ghost use Rattle.layout_map.specs.declared.features.FeatureMap.{FeatureMap as FeatureMapOf};
ghost use Rattle.layout_map.specs.declared.settings.Setting.{Setting as SettingOf};

/// No mask has a flag of glyphs, and shifts are below 32: what `hb_ot_layout_t` asks of every map.
pub fn masks_are_lawful()
    ensures { (map : OtMap) → LawfulMasks (map_meaning map) }
{}

/// Features that have bits of their own share none, of all that requests are compiled to.
pub fn features_are_apart()
    ensures { (gsub gpos : Chosen) (settings : List SettingOf)
        → AllPairs AreApart (allotted gsub gpos settings).features }
{}

/// A stage has each lookup once, in order of the table.
pub fn lookups_come_once()
    ensures gsub { (t : Chosen) (features : List FeatureMapOf) (required_stage stage : ℕ)
        → IsStrictlyIncreasing (indexes (gsub_lookups t features required_stage stage)) }
    ensures gpos { (t : Chosen) (features : List FeatureMapOf)
        → IsStrictlyIncreasing (indexes (gpos_lookups t features)) }
{}

/// The slice of a stage holds the lookups of that stage, no more and no fewer, and there is one
/// stage more than pauses.
pub fn stages_have_their_own_lookups()
    ensures own { (t : Chosen) (features : List FeatureMapOf) (required_stage : ℕ) (pauses : List (Option ℕ)) (i : ℕ)
        → i ≤ length pauses
        → lookups_of (staged t features required_stage pauses) i ≡ gsub_lookups t features required_stage i }
    ensures past { (t : Chosen) (features : List FeatureMapOf) (required_stage : ℕ) (pauses : List (Option ℕ)) (i : ℕ)
        → length pauses < i → lookups_of (staged t features required_stage pauses) i ≡ [] }
    ensures count { (t : Chosen) (features : List FeatureMapOf) (required_stage : ℕ) (pauses : List (Option ℕ))
        → length (staged t features required_stage pauses).stages ≡ length pauses + 1 }
{}
