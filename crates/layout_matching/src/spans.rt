//! Where a rule of context stands: what it matches, and what is before and after that.
ghost use Rattle.std.specs.Prelude.{◌≡◌, ◌<◌, length};
ghost use Rattle.std.specs.Option.{IfSome};
ghost use Rattle.layout_matching.specs.Spans;

use crate::input::{Matched, match_input};
use crate::lookup::Lookup;
use crate::rules::{Row, Rule};
use crate::seeking::{Seek, last_after, last_before};
use crate::skipping::syllable;
use layout_buffer::ItemList;
use shape_buffer::hb_glyph_info_t;

/// Where a match begins: its first glyph, and whether the list is as long as the lookup found it.
/// In such a list what stands before has to be in the syllable of the first glyph too, if the
/// lookup stays in one.
#[derive(Clone, Copy, PartialEq, Eq, Debug)]
pub struct Origin {
    pub at: usize,
    pub is_steady: bool,
}

/// Where a rule stands: from `start` up to `end` with what is around it; `last` is the last glyph
/// that it matches.
#[derive(Clone, Copy, PartialEq, Eq, Debug)]
pub struct Span {
    pub start: usize,
    pub last: usize,
    pub end: usize,
}

/// What is looked for around what is matched, in the syllable of its first glyph if `stays`.
pub fn seek_around(lookup: &Lookup<'_>, first: &hb_glyph_info_t, stays: bool, row: Row) -> Seek
    ensures { result ≡ Spans.seek_around lookup.now first.now stays row }
{
    Seek {
        row,
        is_input: false,
        syllable: if stays { syllable(lookup, first) } else { 0 },
    }
}

/// The span of a rule, by its last glyph and where what is before it begins.
fn span_to(
    lookup: &Lookup<'_>,
    items: &ItemList<'_>,
    origin: Origin,
    rule: &Rule,
    last: usize,
    start: usize,
) -> Option<Span>
    requires { last < length items.now }
    ensures value { result ≡ Spans.span_to lookup.now items.now origin rule.now last start }
    ensures last { IfSome result (λ s. s.last ≡ last) }
{
    let first = items.item(origin.at);
    let seek = seek_around(lookup, &first, last == origin.at, rule.after);
    match last_after(lookup, &seek, items, u32::from(rule.after.count), last) {
        Some(far) => Some(Span {
            start,
            last,
            end: items.place_after(far),
        }),
        None => None,
    }
}

/// The span of a rule, by what it matches.
fn span_from(
    lookup: &Lookup<'_>,
    items: &ItemList<'_>,
    origin: Origin,
    rule: &Rule,
    found: Matched,
) -> Option<Span>
    requires at { origin.at < length items.now }
    requires last { found.last < length items.now }
    ensures value { result ≡ Spans.span_from lookup.now items.now origin rule.now found }
    ensures last { IfSome result (λ s. s.last ≡ found.last) }
{
    let first = items.item(origin.at);
    let seek = seek_around(lookup, &first, origin.is_steady, rule.before);
    match last_before(
        lookup,
        &seek,
        items,
        u32::from(rule.before.count),
        origin.at,
    ) {
        Some(start) => span_to(lookup, items, origin, rule, found.last, start),
        None => None,
    }
}

/// The span of a rule which begins at `origin`, if it matches there. The first glyph itself isn't
/// looked at.
pub fn span_at(
    lookup: &Lookup<'_>,
    items: &ItemList<'_>,
    origin: Origin,
    rule: &Rule,
) -> Option<Span>
    requires { origin.at < length items.now }
    ensures value { result ≡ Spans.span_of lookup.now items.now origin rule.now }
    ensures last { IfSome result (λ s. s.last < length items.now) }
{
    match match_input(lookup, items, origin.at, rule.input) {
        Some(found) => span_from(lookup, items, origin, rule, found),
        None => None,
    }
}
