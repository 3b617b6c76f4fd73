//! The glyphs beside a place that a lookup passes over, and what they cost.
ghost use Rattle.std.specs.Prelude.{◌≡◌, ◌<◌, ◌≤◌, ◌+◌, ◌-◌, ◌^◌, Bool, true, length};
ghost use Rattle.layout_matching.specs.Loops.{along};
ghost use Rattle.layout_matching.specs.Skipping.{nth};
ghost use Rattle.layout_matching.specs.Work;

use crate::input::is_on_component;
use crate::lookup::Lookup;
use crate::nearest::ends_searches;
use crate::skipping::{is_skipped, is_transparent};
use crate::tally::Tally;
use layout_buffer::ItemList;
use shape_buffer::hb_glyph_info_t;

/// What a glyph costs that is looked at.
const COMPARED: usize = 1;

/// What a search for a glyph in a list costs.
pub(crate) const SEARCH_WORK: usize = 7;

/// How many glyphs that aren't passed over are still to come, and what those cost that are.
#[derive(Clone, Copy)]
pub struct Passing {
    pub stops: usize,
    pub total: usize,
}

/// Whether the lookup passes over a glyph beside a place.
fn is_passed(lookup: &Lookup<'_>, there: &hb_glyph_info_t) -> bool
    ensures { result ≡ Work.is_passed lookup.now there.now }
{
    is_skipped(lookup, there) || is_transparent(lookup, false, there)
}

fn one_if(test: bool) -> usize
    ensures value { result ≡ Work.one_if test }
    ensures few { result ≤ 1 }
{
    if test { 1 } else { 0 }
}

/// In how many lists a glyph is searched for that is passed over: a mark in the set of marks, and a
/// default ignorable, if the glyph that is looked for is `listed`.
fn searches(lookup: &Lookup<'_>, listed: bool, there: &hb_glyph_info_t) -> usize
    ensures value { result ≡ Work.searches lookup.now listed there.now }
    ensures few { result ≤ 2 }
{
    let is_mark = there._hb_glyph_info_get_glyph_class().0 & 8 != 0;
    let in_set = one_if(lookup.flags & 16 != 0 && is_mark);
    in_set + one_if(listed && !is_skipped(lookup, there))
}

/// What a glyph costs that is passed over.
fn passing_work(lookup: &Lookup<'_>, listed: bool, there: &hb_glyph_info_t) -> usize
    ensures { result ≡ Work.passing_work lookup.now listed there.now }
{
    COMPARED + searches(lookup, listed, there) * SEARCH_WORK
}

/// One glyph more on the way.
#[inline(always)]
fn passing_step(
    lookup: &Lookup<'_>,
    listed: bool,
    there: &hb_glyph_info_t,
    passing: Passing,
) -> Passing
    requires { 0 < passing.stops }
    ensures { result ≡ Work.passing_step lookup.now listed there.now passing }
{
    let mut next = passing;
    if is_passed(lookup, there) {
        next.total = next
            .total
            .saturating_add(passing_work(lookup, listed, there));
    } else {
        next.stops -= 1;
    }
    next
}

fn to_stops(count: usize) -> Passing
    ensures { result ≡ Work.to_stops count }
{
    Passing {
        stops: count,
        total: 0,
    }
}

/// What is passed over from place `from` on.
#[tactic(auto, using(crate::proofs::PassingLemmas::along_next, crate::proofs::PassingLemmas::along_end, crate::proofs::PassingLemmas::after_stops))]
fn passed_from(
    lookup: &Lookup<'_>,
    listed: bool,
    items: &ItemList<'_>,
    from: usize,
    count: usize,
) -> usize
    ensures { result ≡ (along (λ j. Work.passing_step lookup.now listed (nth items.now j))
        (length items.now - from) from (Work.to_stops count)).total }
{
    let mut passing = to_stops(count);
    for j in from..items.len() {
        if passing.stops == 0 {
            return passing.total;
        }
        passing = passing_step(lookup, listed, items.at(j), passing);
    }
    passing.total
}

/// What the lookup passes over on the way from a place to the `n`th glyph after it that it doesn't
/// pass over; up to the end of the list if there are fewer.
pub(crate) fn passed_after(
    lookup: &Lookup<'_>,
    listed: bool,
    items: &ItemList<'_>,
    at: usize,
    n: usize,
) -> usize
    requires { at < length items.now }
    ensures { result ≡ Work.passed_after lookup.now listed items.now at n }
{
    // The list can be counted, so the place after one of its own can.
    let _count = items.len();
    passed_from(lookup, listed, items, at + 1, n)
}

/// The same on the way to the `n`th glyph before it.
#[tactic(auto, using(crate::proofs::PassingLemmas::along_next, crate::proofs::PassingLemmas::along_end, crate::proofs::PassingLemmas::before_stops))]
pub(crate) fn passed_before(
    lookup: &Lookup<'_>,
    listed: bool,
    items: &ItemList<'_>,
    at: usize,
    n: usize,
) -> usize
    requires { at < length items.now }
    ensures { result ≡ Work.passed_before lookup.now listed items.now at n }
{
    let mut passing = to_stops(n);
    for d in 0..at {
        if passing.stops == 0 {
            return passing.total;
        }
        passing = passing_step(lookup, listed, items.at(at - 1 - d), passing);
    }
    passing.total
}

/// Whether nothing is passed over on the way from place `from` to the `n`th glyph, as the glyphs
/// there say.
#[tactic(auto, using(crate::proofs::PassingLemmas::along_next, crate::proofs::PassingLemmas::along_end, crate::proofs::PassingLemmas::after_stops))]
#[inline(always)]
fn is_free_from(lookup: &Lookup<'_>, items: &ItemList<'_>, from: usize, n: usize) -> bool
    ensures { result ≡ true → (listed : Bool)
        → (along (λ j. Work.passing_step lookup.now listed (nth items.now j))
        (length items.now - from) from (Work.to_stops n)).total ≡ 0 }
{
    let mut stops = n;
    for j in from..items.len() {
        if stops == 0 {
            return true;
        }
        if !ends_searches(lookup, items.at(j)) {
            return false;
        }
        stops -= 1;
    }
    true
}

/// The same on the way to the `n`th glyph before a place.
#[tactic(auto, using(crate::proofs::PassingLemmas::along_next, crate::proofs::PassingLemmas::along_end, crate::proofs::PassingLemmas::before_stops))]
#[inline(always)]
fn is_free_before(lookup: &Lookup<'_>, items: &ItemList<'_>, at: usize, n: usize) -> bool
    requires { at ≤ length items.now }
    ensures { result ≡ true → (listed : Bool)
        → Work.passed_before lookup.now listed items.now at n ≡ 0 }
{
    let mut stops = n;
    for d in 0..at {
        if stops == 0 {
            return true;
        }
        if !ends_searches(lookup, items.at(at - 1 - d)) {
            return false;
        }
        stops -= 1;
    }
    true
}

/// Whether nothing is passed over on the way from a place to so many glyphs before it and after it,
/// as the glyphs there say. So it is nearly always.
#[inline(always)]
pub(crate) fn is_free_beside(
    lookup: &Lookup<'_>,
    items: &ItemList<'_>,
    at: usize,
    count: Tally,
) -> bool
    requires { at < length items.now }
    ensures { result ≡ true → (listed : Bool) → Work.passed lookup.now listed items.now at count ≡ 0 }
{
    // The list can be counted, so the place after one of its own can.
    let _count = items.len();
    if !is_free_before(lookup, items, at, count.before) {
        return false;
    }
    if !is_free_from(lookup, items, at + 1, count.after) {
        return false;
    }
    !is_on_component(items.at(at))
}
