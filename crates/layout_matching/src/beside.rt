//! What a lookup of positioning is charged for at a glyph that others pass over.
//!
//! A subtable without rules pays for the glyphs beside the place, which depend on the lookup alone:
//! they are looked for once.
ghost use Rattle.std.specs.Prelude.{◌≡◌, ◌<◌, ◌^◌, true, false, length};
ghost use Rattle.std.specs.Option.{IfSome, option_and_then};
ghost use Rattle.layout_matching.specs.Found as found_rules;
ghost use Rattle.layout_matching.specs.Work;

use crate::found::{is_context_subtable, number_in, subtable_at};
use crate::lookup::Lookup;
use crate::sets::passed;
use crate::tally::{beside, charged};
use crate::work::{SUBTABLE_WORK, charged_at_subtable};
use layout_buffer::ItemList;
use layout_tables::lookups::{LookupSubtable, subtable_count};

/// What is passed over beside the place, counted unless it is known.
fn known_passed(
    lookup: &Lookup<'_>,
    items: &ItemList<'_>,
    at: usize,
    known: &mut Option<usize>,
) -> usize
    requires inside { at < length items.now }
    requires known { IfSome known.old
        (λ n. n ≡ Work.passed lookup.now false items.now at (Work.beside 0)) }
    ensures value { result ≡ Work.passed lookup.now false items.now at (Work.beside 0) }
    ensures known { IfSome known.new
        (λ n. n ≡ Work.passed lookup.now false items.now at (Work.beside 0)) }
{
    match *known {
        Some(count) => count,
        None => {
            let count = passed(lookup, false, items, at, beside(0));
            *known = Some(count);
            count
        }
    }
}

/// What is left after a subtable without rules that begins with the glyph.
fn begun_charged(
    lookup: &Lookup<'_>,
    items: &ItemList<'_>,
    at: usize,
    left: usize,
    known: &mut Option<usize>,
) -> Option<usize>
    requires inside { at < length items.now }
    requires known { IfSome known.old
        (λ n. n ≡ Work.passed lookup.now false items.now at (Work.beside 0)) }
    ensures left { result ≡ option_and_then
        (Work.charged (Work.passed lookup.now false items.now at (Work.beside 0)))
        (Work.charged Work.SUBTABLE_WORK left) }
    ensures known { IfSome known.new
        (λ n. n ≡ Work.passed lookup.now false items.now at (Work.beside 0)) }
{
    match charged(SUBTABLE_WORK, left) {
        Some(left) => charged(known_passed(lookup, items, at, known), left),
        None => None,
    }
}

/// What is left after a subtable without rules.
#[tactic(auto, using(crate::proofs::BesideLemmas::part_unbegun, crate::proofs::BesideLemmas::part_begun))]
fn part_charged(
    lookup: &Lookup<'_>,
    items: &ItemList<'_>,
    at: usize,
    subtable: LookupSubtable,
    left: usize,
    known: &mut Option<usize>,
) -> Option<usize>
    requires near { subtable.start < 2 ^ 35 }
    requires inside { at < length items.now }
    requires positions { lookup.now.positioning ≡ true }
    requires plain { found_rules.is_context_subtable lookup.now subtable ≡ false }
    requires known { IfSome known.old
        (λ n. n ≡ Work.passed lookup.now false items.now at (Work.beside 0)) }
    ensures left { result ≡ Work.subtable_charged lookup.now items.now at left subtable }
    ensures known { IfSome known.new
        (λ n. n ≡ Work.passed lookup.now false items.now at (Work.beside 0)) }
{
    match number_in(lookup.table, subtable.start, items.item(at).glyph_id) {
        Some(_number) => begun_charged(lookup, items, at, left, known),
        None => Some(left),
    }
}

/// What is left after subtable `i`.
fn one_charged(
    lookup: &Lookup<'_>,
    items: &ItemList<'_>,
    at: usize,
    i: u32,
    left: usize,
    known: &mut Option<usize>,
) -> Option<usize>
    requires near { lookup.now.place < 2 ^ 17 }
    requires few { i < 2 ^ 16 }
    requires inside { at < length items.now }
    requires positions { lookup.now.positioning ≡ true }
    requires known { IfSome known.old
        (λ n. n ≡ Work.passed lookup.now false items.now at (Work.beside 0)) }
    ensures left { result ≡ Work.charged_at_subtable lookup.now items.now at i left }
    ensures known { IfSome known.new
        (λ n. n ≡ Work.passed lookup.now false items.now at (Work.beside 0)) }
{
    match subtable_at(lookup, i) {
        Some(subtable) if !is_context_subtable(lookup, subtable) => {
            part_charged(lookup, items, at, subtable, left, known)
        }
        _ => charged_at_subtable(lookup, items, at, i, left),
    }
}

/// What is left after all subtables that begin with the glyph at a place.
#[tactic(auto, using(crate::proofs::LoopLemmas::steps_next, crate::proofs::LoopLemmas::steps_none, crate::proofs::LoopLemmas::steps_end))]
pub fn plain_charged(
    lookup: &Lookup<'_>,
    items: &ItemList<'_>,
    at: usize,
    left: usize,
) -> Option<usize>
    requires near { lookup.now.place < 2 ^ 17 }
    requires inside { at < length items.now }
    requires positions { lookup.now.positioning ≡ true }
    ensures { result ≡ Work.subtables_charged lookup.now items.now at left }
{
    let mut left = left;
    let mut known = None;
    for i in 0..subtable_count(lookup.table, lookup.place) {
        match one_charged(lookup, items, at, i, left, &mut known) {
            Some(less) => left = less,
            None => return None,
        }
    }
    Some(left)
}
