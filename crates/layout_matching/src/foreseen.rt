//! What the two glyphs after a place say of a set of more than four rules.
//!
//! HarfBuzz asks them before it tries a rule (`RuleSet::apply`, `ChainRuleSet::apply`). So what is
//! unsafe to concat by a rule that they refuse ends at the glyph that refuses it.
ghost use Rattle.std.specs.Prelude.{◌≡◌, ◌<◌, length};
ghost use Rattle.std.specs.Option.{IfSome};
ghost use Rattle.layout_matching.specs.Tried;

use crate::input::seek_input;
use crate::lookup::Lookup;
use crate::rules::{Rule, Test, fits_row, row_of};
use crate::seeking::next;
use crate::skipping::is_transparent;
use layout_buffer::ItemList;

/// The glyph after a place, and the one after that, if they can't be passed over.
#[derive(Clone, Copy, PartialEq, Eq, Debug)]
pub struct Ahead {
    pub next: usize,
    pub second: Option<usize>,
}

/// Which rules of a set are tried: each, those that look for no glyph after their first one, or
/// those that the glyphs ahead don't refuse. What was asked of those is marked, or isn't.
#[derive(Clone, Copy, PartialEq, Eq, Debug)]
pub enum Way {
    Each,
    Lone,
    Marked(Ahead),
    Unmarked(Ahead),
}

/// Where the next glyph of what is matched stands after place `i`, whatever it is.
pub(crate) fn seen_after(
    lookup: &Lookup<'_>,
    items: &ItemList<'_>,
    at: usize,
    i: usize,
) -> Option<usize>
    requires at { at < length items.now }
    requires i { i < length items.now }
    ensures value { result ≡ Tried.seen_after lookup.now items.now at i }
    ensures inside { IfSome result (λ j. j < length items.now) }
{
    let seek = seek_input(lookup, &items.item(at), row_of(Test::Any, 0, 1, 0));
    next(lookup, &seek, items, 0, i)
}

/// The place of a glyph, unless it may be passed over.
pub(crate) fn surely(lookup: &Lookup<'_>, items: &ItemList<'_>, j: usize) -> Option<usize>
    requires { j < length items.now }
    ensures value { result ≡ Tried.surely lookup.now items.now j }
    ensures inside { IfSome result (λ i. i < length items.now) }
{
    if is_transparent(lookup, true, items.at(j)) {
        None
    } else {
        Some(j)
    }
}

/// The two glyphs after a place, of which the first stands at `next`.
pub(crate) fn ahead_of(lookup: &Lookup<'_>, items: &ItemList<'_>, at: usize, next: usize) -> Ahead
    requires at { at < length items.now }
    requires next { next < length items.now }
    ensures value { result ≡ Tried.ahead_of lookup.now items.now at next }
    ensures second { IfSome result.second (λ j. j < length items.now) }
{
    let second = match seen_after(lookup, items, at, next) {
        Some(j) => surely(lookup, items, j),
        None => None,
    };
    Ahead { next, second }
}

/// Whether a rule lets a glyph stand right after its first one.
fn lets_next(table: &[u8], rule: &Rule, glyph: u32) -> bool
    ensures { result ≡ Tried.lets_next table.now rule.now glyph }
{
    if 1 < rule.input.count {
        fits_row(table, &rule.input, 0, glyph)
    } else {
        rule.after.count == 0 || fits_row(table, &rule.after, 0, glyph)
    }
}

/// Whether it lets a glyph stand after that.
fn lets_second(table: &[u8], rule: &Rule, glyph: u32) -> bool
    ensures { result ≡ Tried.lets_second table.now rule.now glyph }
{
    if 2 < rule.input.count {
        return fits_row(table, &rule.input, 1, glyph);
    }
    let k = 2 - rule.input.count.max(1);
    rule.after.count <= k || fits_row(table, &rule.after, u32::from(k), glyph)
}

/// Where a rule ends that doesn't let one of the two glyphs stand there.
pub(crate) fn foreseen(
    lookup: &Lookup<'_>,
    items: &ItemList<'_>,
    ahead: Ahead,
    rule: &Rule,
) -> Option<usize>
    requires next { ahead.next < length items.now }
    requires second { IfSome ahead.second (λ j. j < length items.now) }
    ensures { result ≡ Tried.foreseen lookup.now items.now ahead rule.now }
{
    // The list can be counted, so the place after one of its own can.
    let _count = items.len();
    if !lets_next(lookup.table, rule, items.at(ahead.next).glyph_id) {
        return Some(ahead.next + 1);
    }
    let j = ahead.second?;
    if lets_second(lookup.table, rule, items.at(j).glyph_id) {
        None
    } else {
        Some(j + 1)
    }
}
