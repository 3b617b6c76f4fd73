//! The glyph that a mark stands on: the nearest one before it that is no mark. Of a glyph that a
//! multiple substitution took apart, attachment to bases takes the first component, or a component
//! that the subtable lists.
ghost use Rattle.std.specs.Prelude.{◌≡◌, ◌<◌, ◌≤◌, ◌-◌, ◌^◌, length};
ghost use Rattle.std.specs.Option.{IfSome};
ghost use Rattle.shape_font.specs.Search.{first_at};
ghost use Rattle.layout_positions.specs.Marks;

use crate::anchors::number_there;
use crate::neighbours::has_lookup_on;
use layout_matching::lookup::Lookup;
use layout_matching::skipping::is_transparent;
use layout_tables::lookups::LookupSubtable;
use shape_buffer::hb_glyph_info_t;

/// The base that a lookup saw last, and the place before which it has looked for one. A run of
/// marks on one base takes a step for each mark.
#[derive(Clone, Copy, PartialEq, Eq, Debug)]
pub struct BaseSeen {
    pub until: usize,
    pub place: Option<usize>,
}

/// What a search of the list of bases costs, beside the place that is looked at.
const SEARCH_WORK: usize = 7;

/// How many glyphs that attachment flags, from the base of a mark on, cost one.
const SPAN_PART: usize = 4;

/// Whether a mark may stand on the glyph, as far as the lookup sees it.
fn is_base_seen(lookup: &Lookup<'_>, item: &hb_glyph_info_t) -> bool
    ensures { result ≡ Marks.is_base_seen lookup.now item.now }
{
    item._hb_glyph_info_get_glyph_class().0 & 8 == 0
        && !is_transparent(lookup, true, item)
        && has_lookup_on(lookup, item)
}

/// Whether the glyph is a component that follows the component `before` of a glyph that a multiple
/// substitution took apart. A component after a mark counts as a first one.
fn follows_component(before: &hb_glyph_info_t, item: &hb_glyph_info_t) -> bool
    ensures { result ≡ Marks.follows_component before.now item.now }
{
    let component = u16::from(before._hb_glyph_info_get_ligature_component());
    item._hb_glyph_info_get_multiplied()
        && before._hb_glyph_info_get_multiplied()
        && before._hb_glyph_info_get_glyph_class().0 & 8 == 0
        && item._hb_glyph_info_get_ligature_id() == before._hb_glyph_info_get_ligature_id()
        && u16::from(item._hb_glyph_info_get_ligature_component()) == component + 1
}

/// Whether the glyph at place `j` follows a component of the same glyph.
fn is_later_component(items: &[hb_glyph_info_t], j: usize) -> bool
    requires { j < length items.now }
    ensures { result ≡ Marks.is_later_component items.now j }
{
    0 < j && follows_component(&items[j - 1], &items[j])
}

/// Whether the subtable at `start` lists the glyph as a base.
fn is_listed_base(lookup: &Lookup<'_>, start: usize, item: &hb_glyph_info_t) -> bool
    requires { start < 2 ^ 34 }
    ensures { result ≡ Marks.is_listed_base lookup.now start item.now }
{
    number_there(lookup.table, start, start + 4, item.glyph_id).is_some()
}

/// Whether the subtable takes the glyph at place `j` as a base if it is a component: a subtable of
/// bases takes the first component, or one that it lists.
fn takes_component(
    lookup: &Lookup<'_>,
    subtable: LookupSubtable,
    items: &[hb_glyph_info_t],
    j: usize,
) -> bool
    requires start { subtable.start < 2 ^ 34 }
    requires inside { j < length items.now }
    ensures { result ≡ Marks.takes_component lookup.now subtable items.now j }
{
    subtable.kind != 4
        || !is_later_component(items, j)
        || is_listed_base(lookup, subtable.start, &items[j])
}

/// Whether a mark may stand on the glyph at place `j`.
fn is_base_at(
    lookup: &Lookup<'_>,
    subtable: LookupSubtable,
    items: &[hb_glyph_info_t],
    j: usize,
) -> bool
    requires start { subtable.start < 2 ^ 34 }
    requires inside { j < length items.now }
    ensures { result ≡ Marks.is_base_at lookup.now subtable items.now j }
{
    is_base_seen(lookup, &items[j]) && takes_component(lookup, subtable, items, j)
}

/// How far before place `i` the nearest base stands, from 0 on, of `count` places.
#[tactic(auto, using(shape_font::proofs::SearchLemmas::first_at_next, shape_font::proofs::SearchLemmas::first_at_found, shape_font::proofs::SearchLemmas::first_at_end))]
fn base_back(
    lookup: &Lookup<'_>,
    subtable: LookupSubtable,
    items: &[hb_glyph_info_t],
    i: usize,
    count: usize,
) -> Option<usize>
    requires start { subtable.start < 2 ^ 34 }
    requires inside { i ≤ length items.now }
    requires count { count ≤ i }
    ensures value { result
        ≡ first_at (λ d. Marks.is_base_at lookup.now subtable items.now (i - 1 - d)) count 0 }
    ensures near { IfSome result (λ d. d < i) }
{
    for d in 0..count {
        if is_base_at(lookup, subtable, items, i - 1 - d) {
            return Some(d);
        }
    }
    None
}

/// The nearest base before place `i`, not before place `until`.
fn nearest_base(
    lookup: &Lookup<'_>,
    subtable: LookupSubtable,
    items: &[hb_glyph_info_t],
    until: usize,
    i: usize,
) -> Option<usize>
    requires start { subtable.start < 2 ^ 34 }
    requires inside { i ≤ length items.now }
    ensures value { result ≡ Marks.nearest_base lookup.now subtable items.now until i }
    ensures inside { IfSome result (λ j. j < i) }
{
    match base_back(lookup, subtable, items, i, i.saturating_sub(until)) {
        Some(d) => Some(i - 1 - d),
        None => None,
    }
}

/// The base of the mark at place `i`, after what was seen before.
fn base_at(
    lookup: &Lookup<'_>,
    subtable: LookupSubtable,
    items: &[hb_glyph_info_t],
    i: usize,
    seen: BaseSeen,
) -> Option<usize>
    requires start { subtable.start < 2 ^ 34 }
    requires inside { i ≤ length items.now }
    ensures { result ≡ Marks.base_of lookup.now subtable items.now i seen }
{
    if i < seen.until {
        return nearest_base(lookup, subtable, items, 0, i);
    }
    match nearest_base(lookup, subtable, items, seen.until, i) {
        None => seen.place,
        found => found,
    }
}

/// Looks for the base of the mark at place `i`.
pub fn base_seen(
    lookup: &Lookup<'_>,
    subtable: LookupSubtable,
    items: &[hb_glyph_info_t],
    i: usize,
    seen: BaseSeen,
) -> BaseSeen
    requires start { subtable.start < 2 ^ 34 }
    requires inside { i ≤ length items.now }
    ensures { result ≡ Marks.base_seen lookup.now subtable items.now i seen }
{
    BaseSeen {
        until: i,
        place: base_at(lookup, subtable, items, i, seen),
    }
}

/// How many places were looked at for the base of the mark at place `i`, back to place `from`.
fn places_looked_at(i: usize, seen: BaseSeen, from: usize) -> usize
    ensures value { result ≡ Marks.places_looked_at i seen from }
    ensures few { result ≤ i }
{
    let known = if i < seen.until { 0 } else { seen.until };
    i.saturating_sub(from.max(known))
}

/// What the places cost that were looked at for the base of the mark at place `i`, and attachment
/// to the base that was found: one for each of them, and one for every four glyphs from the base
/// on, which are marked.
fn base_work(i: usize, seen: BaseSeen, base: Option<usize>) -> usize
    ensures { result ≡ Marks.base_work i seen base }
{
    let from = base.unwrap_or(0);
    places_looked_at(i, seen, from).saturating_add(i.saturating_sub(from) / SPAN_PART)
}

/// Whether the subtable searches its list for the glyph at place `j`: one of bases does, for a
/// component after the first one.
fn is_searched(
    lookup: &Lookup<'_>,
    subtable: LookupSubtable,
    items: &[hb_glyph_info_t],
    j: usize,
) -> bool
    requires { j < length items.now }
    ensures { result ≡ Marks.is_searched lookup.now subtable items.now j }
{
    subtable.kind == 4 && is_base_seen(lookup, &items[j]) && is_later_component(items, j)
}

/// For how many of the `count` places before place `i` the subtable searches its list.
fn places_searched(
    lookup: &Lookup<'_>,
    subtable: LookupSubtable,
    items: &[hb_glyph_info_t],
    i: usize,
    count: usize,
) -> usize
    requires inside { i ≤ length items.now }
    requires count { count ≤ i }
    ensures { result ≡ Marks.places_searched lookup.now subtable items.now i count }
{
    let mut searched = 0;
    for d in 0..count {
        if is_searched(lookup, subtable, items, i - 1 - d) {
            searched += 1;
        }
    }
    searched
}

/// What the searches of the subtable's list cost that were made at places that were looked at.
fn search_work(
    lookup: &Lookup<'_>,
    subtable: LookupSubtable,
    items: &[hb_glyph_info_t],
    i: usize,
    seen: BaseSeen,
    base: Option<usize>,
) -> usize
    requires { i ≤ length items.now }
    ensures { result ≡ Marks.search_work lookup.now subtable items.now i seen base }
{
    let looked = places_looked_at(i, seen, base.unwrap_or(0));
    places_searched(lookup, subtable, items, i, looked).saturating_mul(SEARCH_WORK)
}

/// What the search for the base of the mark at place `i` costs, and attachment to the base that it
/// found.
pub fn seek_work(
    lookup: &Lookup<'_>,
    subtable: LookupSubtable,
    items: &[hb_glyph_info_t],
    i: usize,
    seen: BaseSeen,
    base: Option<usize>,
) -> usize
    requires { i ≤ length items.now }
    ensures { result ≡ Marks.seek_work lookup.now subtable items.now i seen base }
{
    let searches = search_work(lookup, subtable, items, i, seen, base);
    base_work(i, seen, base).saturating_add(searches)
}
