//! Where the next glyph that is looked for stands, after a place or before it.
//!
//! What is looked for is a row of values, one for each glyph. Between two of them stand only glyphs
//! that the lookup skips, and transparent ones that don't fit.
ghost use Rattle.std.specs.Prelude.{◌≡◌, ◌<◌, ◌≤◌, ◌-◌, ◌++◌, length, not, OnOk, IsOkUnless};
ghost use Rattle.std.specs.Option.{IfSome};
ghost use Rattle.shape_font.specs.Search.{first_at};
ghost use Rattle.layout_matching.specs.Skipping.{nth};
ghost use Rattle.layout_matching.specs.Seeking;

use crate::lookup::Lookup;
use crate::rules::{Row, fits_row};
use crate::skipping::{is_skipped, passes_ignorable};
use layout_buffer::ItemList;
use shape_buffer::{ShapeError, hb_glyph_info_t};

/// What is looked for: a row, within what is matched (`is_input`) or around it, and the syllable to
/// stay in (0 for any).
#[derive(Clone, Copy, PartialEq, Eq, Debug)]
pub struct Seek {
    pub row: Row,
    pub is_input: bool,
    pub syllable: u8,
}

/// The bits one of which a glyph has to have.
fn mask(lookup: &Lookup<'_>, seek: &Seek) -> u32
    ensures { result ≡ Seeking.mask_of lookup.now seek.now }
{
    if seek.is_input {
        lookup.mask
    } else {
        0xFFFF_FFFF
    }
}

/// Whether a glyph is number `k` of the row, where the lookup may match it.
#[inline(always)]
pub fn fits(lookup: &Lookup<'_>, seek: &Seek, k: u32, there: &hb_glyph_info_t) -> bool
    ensures { result ≡ Seeking.fits lookup.now seek.now k there.now }
{
    there.mask & mask(lookup, seek) != 0
        && (seek.syllable == 0 || there._hb_glyph_info_get_syllable() == seek.syllable)
        && fits_row(lookup.table, &seek.row, k, there.glyph_id)
}

/// Whether a default ignorable may stand before the glyph that is looked for. Few glyphs are
/// default ignorables, so this isn't inlined.
#[inline(never)]
fn lets_past(lookup: &Lookup<'_>, seek: &Seek, k: u32, there: &hb_glyph_info_t) -> bool
    ensures { result ≡ Seeking.lets_past lookup.now seek.now k there.now }
{
    passes_ignorable(lookup, seek.is_input, there) && !fits(lookup, seek, k, there)
}

/// Whether a glyph may stand before the one that is looked for.
#[inline(always)]
pub(crate) fn is_between(lookup: &Lookup<'_>, seek: &Seek, k: u32, there: &hb_glyph_info_t) -> bool
    ensures { result ≡ Seeking.is_between lookup.now seek.now k there.now }
{
    is_skipped(lookup, there)
        || (there._hb_glyph_info_is_default_ignorable() && lets_past(lookup, seek, k, there))
}

/// The place, if its glyph is the one that is looked for.
#[inline(always)]
fn if_fits(
    lookup: &Lookup<'_>,
    seek: &Seek,
    items: &ItemList<'_>,
    k: u32,
    j: usize,
) -> Option<usize>
    requires { j < length items.now }
    ensures value { result ≡ Seeking.if_fits lookup.now seek.now items.now k j }
    ensures inside { IfSome result (λ n. n < length items.now) }
    ensures same { IfSome result (λ n. n ≤ j) }
{
    if fits(lookup, seek, k, items.at(j)) {
        Some(j)
    } else {
        None
    }
}

/// The first place from `from` on whose glyph may not stand between.
#[tactic(auto, using(shape_font::proofs::SearchLemmas::first_at_next, shape_font::proofs::SearchLemmas::first_at_found, shape_font::proofs::SearchLemmas::first_at_end, crate::proofs::LoopLemmas::not_true, crate::proofs::LoopLemmas::not_false))]
#[inline(always)]
pub(crate) fn place_from(
    lookup: &Lookup<'_>,
    seek: &Seek,
    items: &ItemList<'_>,
    k: u32,
    from: usize,
) -> Option<usize>
    ensures value { result ≡ first_at
        (λ j. not (Seeking.is_between lookup.now seek.now k (nth items.now j)))
        (length items.now - from) from }
    ensures inside { IfSome result (λ j. j < length items.now) }
{
    for j in from..items.len() {
        if !is_between(lookup, seek, k, items.at(j)) {
            return Some(j);
        }
    }
    None
}

/// Where glyph `k` of the row stands after place `i`.
#[inline(always)]
pub fn next(
    lookup: &Lookup<'_>,
    seek: &Seek,
    items: &ItemList<'_>,
    k: u32,
    i: usize,
) -> Option<usize>
    requires { i < length items.now }
    ensures value { result ≡ Seeking.next_place lookup.now seek.now items.now k i }
    ensures inside { IfSome result (λ j. j < length items.now) }
{
    // The list can be counted, so the place after one of its own can.
    let _count = items.len();
    match place_from(lookup, seek, items, k, i + 1) {
        Some(j) => if_fits(lookup, seek, items, k, j),
        None => None,
    }
}

/// Whether the glyph at `j` may not stand between.
fn ends(lookup: &Lookup<'_>, seek: &Seek, items: &ItemList<'_>, k: u32, j: usize) -> bool
    requires { j < length items.now }
    ensures { result ≡ not (Seeking.is_between lookup.now seek.now k (nth items.now j)) }
{
    !is_between(lookup, seek, k, items.at(j))
}

/// How far before place `i` the nearest glyph stands that may not stand between.
#[tactic(auto, using(shape_font::proofs::SearchLemmas::first_at_next, shape_font::proofs::SearchLemmas::first_at_found, shape_font::proofs::SearchLemmas::first_at_end))]
#[inline(always)]
pub(crate) fn distance_back(
    lookup: &Lookup<'_>,
    seek: &Seek,
    items: &ItemList<'_>,
    k: u32,
    i: usize,
) -> Option<usize>
    requires { i ≤ length items.now }
    ensures value { result ≡ Seeking.distance_back lookup.now seek.now items.now k i }
    ensures inside { IfSome result (λ d. d < i) }
{
    for d in 0..i {
        if ends(lookup, seek, items, k, i - 1 - d) {
            return Some(d);
        }
    }
    None
}

/// Where glyph `k` of the row stands before place `i`.
pub(crate) fn prev(
    lookup: &Lookup<'_>,
    seek: &Seek,
    items: &ItemList<'_>,
    k: u32,
    i: usize,
) -> Option<usize>
    requires { i ≤ length items.now }
    ensures value { result ≡ Seeking.prev_place lookup.now seek.now items.now k i }
    ensures inside { IfSome result (λ j. j ≤ length items.now) }
{
    match distance_back(lookup, seek, items, k, i) {
        Some(d) => if_fits(lookup, seek, items, k, i - 1 - d),
        None => None,
    }
}

/// Where the last of `n` glyphs of the row stands after place `i`: place `i` itself if there are
/// none.
#[tactic(auto, using(crate::proofs::LoopLemmas::steps_next, crate::proofs::LoopLemmas::steps_none, crate::proofs::LoopLemmas::steps_end))]
pub fn last_after(
    lookup: &Lookup<'_>,
    seek: &Seek,
    items: &ItemList<'_>,
    n: u32,
    i: usize,
) -> Option<usize>
    requires { i < length items.now }
    ensures value { result ≡ Seeking.last_after lookup.now seek.now items.now n i }
    ensures inside { IfSome result (λ j. j < length items.now) }
{
    let mut last = i;
    for k in 0..n {
        match next(lookup, seek, items, k, last) {
            Some(j) => last = j,
            None => return None,
        }
    }
    Some(last)
}

/// Where the farthest of `n` glyphs of the row stands before place `i`: place `i` itself if there
/// are none.
#[tactic(auto, using(crate::proofs::LoopLemmas::steps_next, crate::proofs::LoopLemmas::steps_none, crate::proofs::LoopLemmas::steps_end))]
pub fn last_before(
    lookup: &Lookup<'_>,
    seek: &Seek,
    items: &ItemList<'_>,
    n: u32,
    i: usize,
) -> Option<usize>
    requires { i ≤ length items.now }
    ensures value { result ≡ Seeking.last_before lookup.now seek.now items.now n i }
{
    let mut last = i;
    for k in 0..n {
        match prev(lookup, seek, items, k, last) {
            Some(j) => last = j,
            None => return None,
        }
    }
    Some(last)
}

/// Appends the places of `n` glyphs of a row after place `at`. Refuses with `Memory` alone.
#[tactic(auto, using(crate::proofs::PlaceLemmas::places_pushed, crate::proofs::PlaceLemmas::places_none, crate::proofs::PlaceLemmas::places_end))]
pub(crate) fn push_places(
    lookup: &Lookup<'_>,
    seek: &Seek,
    items: &ItemList<'_>,
    n: u32,
    at: usize,
    places: &mut Vec<usize>,
) -> Result<(), ShapeError>
    requires { at < length items.now }
    ensures ok { OnOk result (places.new.items
        ≡ places.old.items ++ Seeking.places_after lookup.now seek.now items.now n 0 at) }
    ensures memory { IsOkUnless result ShapeError.Memory }
{
    let mut last = at;
    for k in 0..n {
        match next(lookup, seek, items, k, last) {
            Some(j) => {
                places.push(j)?;
                last = j;
            }
            None => return Ok(()),
        }
    }
    Ok(())
}
