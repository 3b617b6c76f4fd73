//! The glyphs beside the one at a place, as a lookup sees them: its flags skip some, and default
//! ignorables are passed over.
ghost use Rattle.std.specs.Prelude.{◌≡◌, ◌<◌, ◌≤◌, ◌+◌, ◌-◌, true, length, not};
ghost use Rattle.std.specs.Option.{IfSome, option_and_then, option_map_or};
ghost use Rattle.shape_font.specs.Search.{first_at};
ghost use Rattle.layout_matching.specs.Skipping.{nth};
ghost use Rattle.layout_matching.specs.Skipping;
ghost use Rattle.layout_positions.specs.Lookups;

use layout_matching::lookup::Lookup;
use layout_matching::skipping::{is_skipped, is_transparent};
use shape_buffer::hb_glyph_info_t;

/// Whether a default ignorable is passed over. In positioning, where runs of them are searched,
/// that is decided by ZWJ alone.
#[tactic(auto, using(crate::proofs::StopLemmas::transparent_there))]
#[inline(always)]
fn is_transparent_there(lookup: &Lookup<'_>, item: &hb_glyph_info_t) -> bool
    ensures { result ≡ Skipping.is_transparent lookup.now true item.now }
{
    if lookup.positioning {
        return item._hb_glyph_info_is_default_ignorable()
            && (lookup.auto_zwj || !item._hb_glyph_info_get_zwj());
    }
    is_transparent(lookup, true, item)
}

/// Whether a glyph is passed over.
#[inline(always)]
pub fn is_between(lookup: &Lookup<'_>, item: &hb_glyph_info_t) -> bool
    ensures { result ≡ Lookups.is_between lookup.now item.now }
{
    is_skipped(lookup, item) || is_transparent_there(lookup, item)
}

/// Whether the lookup is on for a glyph.
pub fn has_lookup_on(lookup: &Lookup<'_>, item: &hb_glyph_info_t) -> bool
    ensures { result ≡ Lookups.has_lookup_on lookup.now item.now }
{
    item.mask & lookup.mask != 0
}

/// The first place from `from` on whose glyph isn't passed over.
#[tactic(auto, using(shape_font::proofs::SearchLemmas::first_at_next, shape_font::proofs::SearchLemmas::first_at_found, shape_font::proofs::SearchLemmas::first_at_end, layout_matching::proofs::LoopLemmas::not_true, layout_matching::proofs::LoopLemmas::not_false))]
fn stop_from(lookup: &Lookup<'_>, items: &[hb_glyph_info_t], from: usize) -> Option<usize>
    ensures value { result ≡ first_at (λ j. not (Lookups.is_between lookup.now (nth items.now j)))
        (length items.now - from) from }
    ensures inside { IfSome result (λ j. j < length items.now) }
    ensures behind { IfSome result (λ j. from ≤ j) }
{
    for j in from..items.len() {
        if !is_between(lookup, &items[j]) {
            return Some(j);
        }
    }
    None
}

/// The first place after place `i` whose glyph isn't passed over.
pub fn stop_after(lookup: &Lookup<'_>, items: &[hb_glyph_info_t], i: usize) -> Option<usize>
    requires { i < length items.now }
    ensures value { result ≡ Lookups.stop_after lookup.now items.now i }
    ensures inside { IfSome result (λ j. j < length items.now) }
    ensures behind { IfSome result (λ j. i < j) }
{
    stop_from(lookup, items, i + 1)
}

/// Whether the glyph at place `j` isn't passed over.
fn stops(lookup: &Lookup<'_>, items: &[hb_glyph_info_t], j: usize) -> bool
    requires { j < length items.now }
    ensures { result ≡ not (Lookups.is_between lookup.now (nth items.now j)) }
{
    !is_between(lookup, &items[j])
}

/// How far before place `i` the first glyph stands that isn't passed over, from 0 on.
#[tactic(auto, using(shape_font::proofs::SearchLemmas::first_at_next, shape_font::proofs::SearchLemmas::first_at_found, shape_font::proofs::SearchLemmas::first_at_end))]
fn distance_back(lookup: &Lookup<'_>, items: &[hb_glyph_info_t], i: usize) -> Option<usize>
    requires { i ≤ length items.now }
    ensures value { result
        ≡ first_at (λ d. not (Lookups.is_between lookup.now (nth items.now (i - 1 - d)))) i 0 }
    ensures inside { IfSome result (λ d. d < i) }
{
    for d in 0..i {
        if stops(lookup, items, i - 1 - d) {
            return Some(d);
        }
    }
    None
}

/// The first place before place `i`, backwards, whose glyph isn't passed over.
pub fn stop_before(lookup: &Lookup<'_>, items: &[hb_glyph_info_t], i: usize) -> Option<usize>
    requires { i ≤ length items.now }
    ensures value { result ≡ Lookups.stop_before lookup.now items.now i }
    ensures inside { IfSome result (λ j. j < i) }
{
    match distance_back(lookup, items, i) {
        Some(d) => Some(i - 1 - d),
        None => None,
    }
}

/// The place, if the lookup is on for its glyph.
fn if_on(lookup: &Lookup<'_>, items: &[hb_glyph_info_t], j: usize) -> Option<usize>
    requires { j < length items.now }
    ensures value { result ≡ Lookups.if_on lookup.now items.now j }
    ensures same { IfSome result (λ k. k ≡ j) }
{
    if has_lookup_on(lookup, &items[j]) {
        Some(j)
    } else {
        None
    }
}

/// The first place after place `i` whose glyph isn't passed over, sought unless it is known
/// already.
pub(crate) fn known_stop(
    lookup: &Lookup<'_>,
    items: &[hb_glyph_info_t],
    i: usize,
    ahead: &mut Option<Option<usize>>,
) -> Option<usize>
    requires inside { i < length items.now }
    requires known { IfSome ahead.old (λ stop. stop ≡ Lookups.stop_after lookup.now items.now i) }
    ensures value { result ≡ Lookups.stop_after lookup.now items.now i }
    ensures inside { IfSome result (λ j. j < length items.now) }
    ensures known { IfSome ahead.new (λ stop. stop ≡ Lookups.stop_after lookup.now items.now i) }
{
    match *ahead {
        Some(stop) => stop,
        None => {
            let stop = stop_after(lookup, items, i);
            *ahead = Some(stop);
            stop
        }
    }
}

/// The glyph where a search ended, if the lookup sees it.
pub(crate) fn glyph_at(
    lookup: &Lookup<'_>,
    items: &[hb_glyph_info_t],
    stop: Option<usize>,
) -> Option<usize>
    requires { IfSome stop (λ j. j < length items.now) }
    ensures value { result ≡ option_and_then (Lookups.if_on lookup.now items.now) stop }
    ensures inside { IfSome result (λ j. j < length items.now) }
{
    match stop {
        Some(j) => if_on(lookup, items, j),
        None => None,
    }
}

/// How far a search has looked that found nothing and ended there, of so many glyphs.
pub(crate) fn end_at(count: usize, stop: Option<usize>) -> usize
    requires { IfSome stop (λ j. j < count) }
    ensures { result ≡ option_map_or (λ j. j + 1) stop count }
{
    match stop {
        Some(j) => j + 1,
        None => count,
    }
}

/// Where a search backwards that found nothing and ended there has looked from on.
pub(crate) fn start_at(stop: Option<usize>) -> usize
    ensures { result ≡ option_map_or (λ j. j - 1) stop 0 }
{
    match stop {
        Some(j) => j.saturating_sub(1),
        None => 0,
    }
}
