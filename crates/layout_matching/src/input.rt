//! What a rule or a ligature matches, from its first glyph on.
//!
//! Marks that stand on different components of one ligature don't match together, unless the lookup
//! skips the ligature. What is done for each glyph of a rule is inlined into the loop: with a call
//! for each, matching takes twice as long.
ghost use Rattle.std.specs.Prelude.{◌≡◌, ◌<◌, ◌-◌, length, true};
ghost use Rattle.std.specs.Option.{IfSome};
ghost use Rattle.layout_matching.specs.Loops.{steps};
ghost use Rattle.layout_matching.specs.Skipping.{nth};
ghost use Rattle.layout_matching.specs.Input;

use crate::lookup::Lookup;
use crate::rules::Row;
use crate::seeking::{Seek, next};
use crate::skipping::{is_skipped, syllable};
use layout_buffer::ItemList;
use shape_buffer::hb_glyph_info_t;

/// The most glyphs that a rule or a ligature matches.
pub const MAX_CONTEXT_LENGTH: u16 = 64;

/// Where the last glyph that was matched stands, and whether all after the first one are marks.
#[derive(Clone, Copy, PartialEq, Eq, Debug)]
pub struct Matched {
    pub last: usize,
    pub all_marks: bool,
}

/// The first glyph of a match: where it stands, and whether it matches with marks on any component
/// of its ligature. That is found once for all glyphs of a rule.
#[derive(Clone, Copy)]
pub struct First {
    pub at: usize,
    pub joins_all: bool,
}

/// Whether a glyph is a mark on a component of a ligature.
#[inline(always)]
pub(crate) fn is_on_component(item: &hb_glyph_info_t) -> bool
    ensures { result ≡ Input.is_on_component item.now }
{
    0 < item._hb_glyph_info_get_ligature_id() && 0 < item._hb_glyph_info_get_ligature_component()
}

/// Whether a glyph is no mark on a component of the ligature `id`: the ligature itself, or another
/// glyph.
fn ends_marks(id: u8, item: &hb_glyph_info_t) -> bool
    ensures { result ≡ Input.ends_marks id item.now }
{
    item._hb_glyph_info_get_ligature_id() != id || item._hb_glyph_info_get_ligature_component() == 0
}

/// The same, of the glyph at a place.
fn ends_marks_at(items: &ItemList<'_>, id: u8, i: usize) -> bool
    ensures { result ≡ Input.ends_marks id (nth items.now i) }
{
    ends_marks(id, &items.item(i))
}

/// How many marks on components of the ligature `id` stand in a row before `at`; none if that is
/// all.
#[tactic(auto, using(shape_font::proofs::SearchLemmas::first_at_next, shape_font::proofs::SearchLemmas::first_at_found, shape_font::proofs::SearchLemmas::first_at_end))]
fn marks_back(items: &ItemList<'_>, id: u8, at: usize) -> Option<usize>
    ensures { result ≡ Input.marks_back items.now id at }
{
    for k in 0..at {
        if ends_marks_at(items, id, at - 1 - k) {
            return Some(k);
        }
    }
    None
}

/// Whether the lookup skips the glyph at a place, and that is the ligature `id`.
fn skips_base(lookup: &Lookup<'_>, items: &ItemList<'_>, id: u8, i: usize) -> bool
    ensures { result ≡ Input.skips_base lookup.now id (nth items.now i) }
{
    let item = items.item(i);
    item._hb_glyph_info_get_ligature_id() == id && is_skipped(lookup, &item)
}

/// Whether the lookup skips the base of the ligature `id` before `at`.
#[inline(never)]
fn base_is_skipped(lookup: &Lookup<'_>, items: &ItemList<'_>, id: u8, at: usize) -> bool
    ensures { result ≡ Input.base_is_skipped lookup.now items.now id at }
{
    if lookup.positioning {
        return false;
    }
    match marks_back(items, id, at) {
        Some(k) => skips_base(lookup, items, id, at.saturating_sub(1).saturating_sub(k)),
        None => false,
    }
}

/// What the lookup sees of the first glyph of a match.
#[inline(always)]
pub(crate) fn first_glyph(lookup: &Lookup<'_>, items: &ItemList<'_>, at: usize) -> First
    ensures at { result.at ≡ at }
    ensures joins { result.joins_all ≡ Input.joins_all lookup.now items.now at }
{
    let first = items.item(at);
    let id = first._hb_glyph_info_get_ligature_id();
    First {
        at,
        joins_all: is_on_component(&first) && base_is_skipped(lookup, items, id, at),
    }
}

/// How many marks on components are looked at before a place for the ligature that a mark there
/// stands on.
pub(crate) fn marks_passed(lookup: &Lookup<'_>, items: &ItemList<'_>, at: usize) -> usize
    ensures { result ≡ Input.marks_passed lookup.now items.now at }
{
    let first = items.item(at);
    if lookup.positioning || !is_on_component(&first) {
        return 0;
    }
    marks_back(items, first._hb_glyph_info_get_ligature_id(), at).unwrap_or(at)
}

/// Whether a glyph may match together with the first one, by the ligatures that they belong to.
#[inline(always)]
fn joins(items: &ItemList<'_>, first: First, there: &hb_glyph_info_t) -> bool
    requires { first.at < length items.now }
    ensures { result ≡ Input.joins_by first.joins_all (nth items.now first.at) there.now }
{
    let begin = items.at(first.at);
    let id = begin._hb_glyph_info_get_ligature_id();
    let other = there._hb_glyph_info_get_ligature_id();
    if is_on_component(begin) {
        let component = there._hb_glyph_info_get_ligature_component();
        first.joins_all
            || (other == id && component == begin._hb_glyph_info_get_ligature_component())
    } else {
        other == id || !is_on_component(there)
    }
}

/// Whether the class of a glyph is that of marks.
pub fn is_mark_glyph(there: &hb_glyph_info_t) -> bool
    ensures { result ≡ Input.is_mark_glyph there.now }
{
    there._hb_glyph_info_get_glyph_class().0 & 8 != 0
}

/// With one glyph more, at place `j`.
#[inline(always)]
fn with_glyph_at(
    lookup: &Lookup<'_>,
    items: &ItemList<'_>,
    first: First,
    found: Matched,
    j: usize,
) -> Option<Matched>
    requires joins { first.joins_all ≡ Input.joins_all lookup.now items.now first.at }
    requires inside { first.at < length items.now }
    requires there { j < length items.now }
    ensures value { result ≡ Input.with_glyph_at lookup.now items.now first.at found j }
    ensures last { IfSome result (λ m. m.last ≡ j) }
{
    let there = items.at(j);
    if !joins(items, first, there) {
        return None;
    }
    Some(Matched {
        last: j,
        all_marks: found.all_marks && is_mark_glyph(there),
    })
}

/// With glyph `k` after the first one.
#[inline(always)]
pub(crate) fn input_step(
    lookup: &Lookup<'_>,
    seek: &Seek,
    items: &ItemList<'_>,
    first: First,
    k: u32,
    found: Matched,
) -> Option<Matched>
    requires joins { first.joins_all ≡ Input.joins_all lookup.now items.now first.at }
    requires inside { first.at < length items.now }
    requires last { found.last < length items.now }
    ensures value { result ≡ Input.input_step lookup.now seek.now items.now first.at k found }
    ensures inside { IfSome result (λ m. m.last < length items.now) }
{
    match next(lookup, seek, items, k, found.last) {
        Some(j) => with_glyph_at(lookup, items, first, found, j),
        None => None,
    }
}

/// `n` glyphs after the one at `at`.
#[tactic(auto, using(crate::proofs::LoopLemmas::steps_next, crate::proofs::LoopLemmas::steps_none, crate::proofs::LoopLemmas::steps_end))]
fn all_glyphs(
    lookup: &Lookup<'_>,
    seek: &Seek,
    items: &ItemList<'_>,
    at: usize,
    n: u32,
) -> Option<Matched>
    requires { at < length items.now }
    ensures value { result ≡ steps (Input.input_step lookup.now seek.now items.now at) n 0
        (record { last = at; all_marks = true }) }
    ensures inside { IfSome result (λ m. m.last < length items.now) }
{
    let first = first_glyph(lookup, items, at);
    let mut found = Matched {
        last: at,
        all_marks: true,
    };
    for k in 0..n {
        match input_step(lookup, seek, items, first, k, found) {
            Some(more) => found = more,
            None => return None,
        }
    }
    Some(found)
}

/// What is looked for within what is matched, from its first glyph on.
pub fn seek_input(lookup: &Lookup<'_>, first: &hb_glyph_info_t, row: Row) -> Seek
    ensures { result ≡ Input.seek_input lookup.now first.now row }
{
    Seek {
        row,
        is_input: true,
        syllable: syllable(lookup, first),
    }
}

/// Matches the glyphs of a row, whose count has the first one too, from the glyph at `at` on, which
/// isn't looked at itself. A row of more than `MAX_CONTEXT_LENGTH` glyphs matches nowhere.
pub fn match_input(
    lookup: &Lookup<'_>,
    items: &ItemList<'_>,
    at: usize,
    row: Row,
) -> Option<Matched>
    requires { at < length items.now }
    ensures value { result ≡ Input.input_matched lookup.now items.now at row }
    ensures inside { IfSome result (λ m. m.last < length items.now) }
{
    if MAX_CONTEXT_LENGTH < row.count {
        return None;
    }
    let seek = seek_input(lookup, &items.item(at), row);
    let n = u32::from(row.count.saturating_sub(1));
    all_glyphs(lookup, &seek, items, at, n)
}
