//! What the records of a rule that matches name: a glyph of the match, and a lookup.
ghost use Rattle.std.specs.Prelude.{◌≡◌, ◌<◌, ◌-◌, ◌*◌, ◌^◌, length};
ghost use Rattle.std.specs.Option.{IfSome};
ghost use Rattle.layout_positions.specs.Nested;

use layout_buffer::ItemList;
use layout_matching::input::seek_input;
use layout_matching::lookup::Lookup;
use layout_matching::nesting::{record_at, with_place};
use layout_matching::rules::Rule;
use layout_matching::seeking::last_after;
use layout_matching::skipping::item_at;
use layout_tables::lookups::lookup;
use shape_buffer::hb_glyph_info_t;
use shape_font::bytes::u16_at;

/// What a glyph costs on the way to the one that a record names.
const PLACE_WORK: usize = 8;

/// A rule that matches: the lookup that it is of, and the place of its first glyph.
#[derive(Clone, Copy)]
pub struct Site<'a> {
    pub lookup: Lookup<'a>,
    pub rule: Rule,
    pub at: usize,
}

/// Where glyph number `index` of those that the rule matches stands.
fn matched_place(site: &Site<'_>, items: &[hb_glyph_info_t], index: u16) -> Option<usize>
    requires { site.now.at < length items.now }
    ensures value { result
        ≡ Nested.matched_place site.now.lookup items.now site.now.at site.now.rule index }
    ensures inside { IfSome result (λ j. j < length items.now) }
{
    if site.rule.input.count <= index {
        return None;
    }
    let seek = seek_input(&site.lookup, &item_at(items, site.at), site.rule.input);
    let items = ItemList::of_slice(items);
    last_after(&site.lookup, &seek, &items, u32::from(index), site.at)
}

/// The number of the glyph that record `r` of a rule names.
fn named_index(site: &Site<'_>, r: u32) -> u16
    ensures { result ≡ Nested.named_index site.now.lookup site.now.rule r }
{
    u16_at(site.lookup.table, record_at(&site.rule, r))
}

/// Where record `r` of a rule applies its lookup.
pub(crate) fn named_place(site: &Site<'_>, items: &[hb_glyph_info_t], r: u32) -> Option<usize>
    requires { site.now.at < length items.now }
    ensures value { result ≡ Nested.named_place site.now.lookup items.now site.now.at site.now.rule
        r }
    ensures inside { IfSome result (λ j. j < length items.now) }
{
    matched_place(site, items, named_index(site, r))
}

/// What is left after the glyph that record `r` of a rule names was looked for.
pub(crate) fn charge_place(site: &Site<'_>, r: u32, left: usize) -> usize
    ensures { result
        ≡ left - Nested.named_index site.now.lookup site.now.rule r * Nested.PLACE_WORK }
{
    left.saturating_sub(usize::from(named_index(site, r)) * PLACE_WORK)
}

/// The lookup that record `r` of a rule names.
pub(crate) fn named_lookup<'a>(site: &Site<'a>, r: u32) -> Option<Lookup<'a>>
    ensures value { result ≡ Nested.named_lookup site.now.lookup site.now.rule r }
    ensures near { IfSome result (λ l. l.place < 2 ^ 17) }
{
    let at = record_at(&site.rule, r);
    match lookup(site.lookup.table, u16_at(site.lookup.table, at + 2)) {
        Some(place) => Some(with_place(&site.lookup, place)),
        None => None,
    }
}
