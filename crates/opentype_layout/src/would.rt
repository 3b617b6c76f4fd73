//! Whether lookups of a feature's stage would substitute glyphs that stand alone.
ghost use Rattle.std.specs.Prelude.{◌≡◌};
ghost use Rattle.opentype_layout.specs.Would as would_rules;

use layout_map::lookups::LookupMap;
use layout_map::map::hb_ot_map_t;
use layout_matching::would::Alone;
use layout_substitution::would::lookup_would;
use layout_tables::lookups::lookup;
use shape_buffer::hb_tag_t;

/// Whether the lookup with this index would substitute exactly these glyphs.
fn index_would(table: &[u8], alone: Alone<'_>, index: u16) -> bool
    ensures { result ≡ would_rules.index_would table.now alone.entry.glyphs.now
        alone.entry.zero_context index }
{
    match lookup(table, index) {
        Some(place) => lookup_would(table, place, alone),
        None => false,
    }
}

/// Whether one of the lookups would.
fn some_would(table: &[u8], alone: Alone<'_>, maps: &[LookupMap]) -> bool
    ensures { result ≡ would_rules.some_would table.now alone.entry.glyphs.now
        alone.entry.zero_context maps.now }
{
    for map in maps {
        if index_would(table, alone, map.index) {
            return true;
        }
    }
    false
}

/// Whether a lookup of `GSUB` in the stage of a feature would substitute exactly these glyphs; none
/// would if the map lacks the feature.
pub(crate) fn feature_would(
    table: &[u8],
    map: &hb_ot_map_t,
    tag: hb_tag_t,
    alone: Alone<'_>,
) -> bool
    ensures { result ≡ would_rules.feature_would table.now map.now tag.0 alone.entry.glyphs.now
        alone.entry.zero_context }
{
    match map.feature_stage(tag) {
        Some(stage) => some_would(table, alone, map.gsub_lookups(stage)),
        None => false,
    }
}
