//! How far searches look that find nothing.
//!
//! A glyph that a rule or a ligature looked at in vain may match where other glyphs follow: it is
//! unsafe to concat. The spans are those that HarfBuzz marks: from the first glyph to the one that
//! ended the search, and before it to a glyph before that one. [`reaching`](crate::reaching) says
//! it of rules. Nothing is changed here.
ghost use Rattle.std.specs.Prelude.{◌≡◌, ◌<◌, ◌≤◌, length, true};
ghost use Rattle.layout_matching.specs.Loops.{stopped};
ghost use Rattle.layout_matching.specs.Input;
ghost use Rattle.layout_matching.specs.Tried;

use crate::input::{MAX_CONTEXT_LENGTH, Matched, first_glyph, input_step, seek_input};
use crate::lookup::Lookup;
use crate::rules::Row;
use crate::seeking::{Seek, distance_back, next, place_from, prev};
use layout_buffer::ItemList;

/// What was looked at in vain, from `from` up to `to`, and whether a rule matched then.
#[derive(Clone, Copy, PartialEq, Eq, Debug)]
pub struct Reach {
    pub from: usize,
    pub to: usize,
    pub matched: bool,
}

/// Nothing was looked at yet, at place `at`.
pub fn untried(at: usize) -> Reach
    ensures { result ≡ Tried.untried at }
{
    Reach {
        from: at,
        to: at,
        matched: false,
    }
}

/// A match at place `at`.
pub fn match_at(at: usize) -> Reach
    ensures { result ≡ Tried.match_at at }
{
    Reach {
        from: at,
        to: at,
        matched: true,
    }
}

/// A search in vain from `from` up to `to`, for a match at `at`.
pub fn vain(at: usize, from: usize, to: usize) -> Reach
    ensures { result ≡ Tried.vain at from to }
{
    Reach {
        from: at.min(from),
        to: at.max(to),
        matched: false,
    }
}

/// What either looked at.
pub fn joined(s: Reach, r: Reach) -> Reach
    ensures { result ≡ Tried.joined_reach s r }
{
    Reach {
        from: s.from.min(r.from),
        to: s.to.max(r.to),
        matched: s.matched || r.matched,
    }
}

/// Where a search for glyph `k` of a row ended after place `i`.
fn stop_after(lookup: &Lookup<'_>, seek: &Seek, items: &ItemList<'_>, k: u32, i: usize) -> usize
    requires { i < length items.now }
    ensures { result ≡ Tried.stop_after lookup.now seek.now items.now k i }
{
    // The list can be counted, so the place after one of its own can.
    let _count = items.len();
    match place_from(lookup, seek, items, k, i + 1) {
        Some(j) => j + 1,
        None => items.len(),
    }
}

/// Where one ended before place `i`.
fn stop_before(lookup: &Lookup<'_>, seek: &Seek, items: &ItemList<'_>, k: u32, i: usize) -> usize
    requires { i ≤ length items.now }
    ensures { result ≡ Tried.stop_before lookup.now seek.now items.now k i }
{
    match distance_back(lookup, seek, items, k, i) {
        Some(d) => i.saturating_sub(1).saturating_sub(d).saturating_sub(1),
        None => 0,
    }
}

/// Where the search for glyph `k` of what a rule matches ended. A glyph that fits, and belongs to
/// another ligature, counts for nothing.
fn input_stop(
    lookup: &Lookup<'_>,
    seek: &Seek,
    items: &ItemList<'_>,
    k: u32,
    found: Matched,
) -> usize
    requires { found.last < length items.now }
    ensures { result ≡ Tried.input_stop lookup.now seek.now items.now k found }
{
    match next(lookup, seek, items, k, found.last) {
        Some(_) => 0,
        None => stop_after(lookup, seek, items, k, found.last),
    }
}

/// Where the first of `n` glyphs stopped that isn't there; 0 if all are.
#[tactic(auto, using(crate::proofs::LoopLemmas::stopped_next, crate::proofs::LoopLemmas::stopped_none, crate::proofs::LoopLemmas::stopped_end))]
fn glyphs_stop(lookup: &Lookup<'_>, seek: &Seek, items: &ItemList<'_>, at: usize, n: u32) -> usize
    requires { at < length items.now }
    ensures { result ≡ stopped (Input.input_step lookup.now seek.now items.now at)
        (Tried.input_stop lookup.now seek.now items.now) n 0
        (record { last = at; all_marks = true }) }
{
    let first = first_glyph(lookup, items, at);
    let mut found = Matched {
        last: at,
        all_marks: true,
    };
    for k in 0..n {
        match input_step(lookup, seek, items, first, k, found) {
            Some(more) => found = more,
            None => return input_stop(lookup, seek, items, k, found),
        }
    }
    0
}

/// Where the glyphs of a row stopped that aren't all there, from the one at `at` on; 0 if all are,
/// and for a row of more than `MAX_CONTEXT_LENGTH`.
pub fn input_end(lookup: &Lookup<'_>, items: &ItemList<'_>, at: usize, row: Row) -> usize
    requires { at < length items.now }
    ensures { result ≡ Tried.input_end lookup.now items.now at row }
{
    if MAX_CONTEXT_LENGTH < row.count {
        return 0;
    }
    let seek = seek_input(lookup, &items.item(at), row);
    let n = u32::from(row.count.saturating_sub(1));
    glyphs_stop(lookup, &seek, items, at, n)
}

/// Where `n` glyphs after place `i` stopped that aren't all there.
#[tactic(auto, using(crate::proofs::LoopLemmas::stopped_next, crate::proofs::LoopLemmas::stopped_none, crate::proofs::LoopLemmas::stopped_end))]
pub fn after_end(lookup: &Lookup<'_>, seek: &Seek, items: &ItemList<'_>, n: u32, i: usize) -> usize
    requires { i < length items.now }
    ensures { result ≡ Tried.after_end lookup.now seek.now items.now n i }
{
    let mut last = i;
    for k in 0..n {
        match next(lookup, seek, items, k, last) {
            Some(j) => last = j,
            None => return stop_after(lookup, seek, items, k, last),
        }
    }
    0
}

/// Where `n` glyphs before place `i` stopped that aren't all there.
#[tactic(auto, using(crate::proofs::LoopLemmas::stopped_next, crate::proofs::LoopLemmas::stopped_none, crate::proofs::LoopLemmas::stopped_end))]
pub(crate) fn before_start(
    lookup: &Lookup<'_>,
    seek: &Seek,
    items: &ItemList<'_>,
    n: u32,
    i: usize,
) -> usize
    requires { i ≤ length items.now }
    ensures { result ≡ Tried.before_start lookup.now seek.now items.now n i }
{
    let mut last = i;
    for k in 0..n {
        match prev(lookup, seek, items, k, last) {
            Some(j) => last = j,
            None => return stop_before(lookup, seek, items, k, last),
        }
    }
    0
}
