//! What the glyphs around a place say of the rules of a set, as far as a rule asks.
//!
//! What stands before the place is looked for at once. What follows is looked for once a rule names
//! a glyph there: many sets name none, those of marks among them.
ghost use Rattle.std.specs.Prelude.{◌≡◌, ◌<◌, ◌^◌, length, true};
ghost use Rattle.std.specs.Option.{IfSome};
ghost use Rattle.layout_matching.specs.Found.{is_chained};
ghost use Rattle.layout_matching.specs.Glance as glances;

use crate::formats::rows_of;
use crate::found;
use crate::glance::{Glance, Glances, glance_after, glance_before, refuses};
use crate::input::seek_input;
use crate::lookup::Lookup;
use crate::rules::{FAR, row_of};
use crate::spans::{Origin, seek_around};
use layout_buffer::ItemList;
use layout_tables::lookups::LookupSubtable;
use shape_font::bytes::u16_at;

/// A set of rules, and what the glyph before a place says of all of them.
#[derive(Clone, Copy)]
pub struct GlancedSet {
    pub subtable: LookupSubtable,
    pub place: usize,
    pub before: Glance,
}

/// What the glyph before a place says of the chained rules of a subtable.
#[inline(never)]
fn look_back_chained(
    lookup: &Lookup<'_>,
    items: &ItemList<'_>,
    origin: Origin,
    subtable: LookupSubtable,
) -> Glance
    requires near { subtable.start < 2 ^ 35 }
    requires inside { origin.at < length items.now }
    requires chained { is_chained lookup.now subtable ≡ true }
    ensures { result ≡ (glances.glances_in lookup.now items.now origin subtable).before }
{
    let is_chain = found::is_chained(lookup, subtable);
    let rows = rows_of(lookup.table, is_chain, subtable.start);
    let first = items.item(origin.at);
    let row = row_of(rows.test, rows.before, 0, 0);
    let back = seek_around(lookup, &first, origin.is_steady, row);
    glance_before(lookup, &back, items, origin.at)
}

/// What the glyph before a place says of the rules of a subtable.
#[inline(always)]
fn look_back(
    lookup: &Lookup<'_>,
    items: &ItemList<'_>,
    origin: Origin,
    subtable: LookupSubtable,
) -> Glance
    requires near { subtable.start < 2 ^ 35 }
    requires inside { origin.at < length items.now }
    ensures { result ≡ (glances.glances_in lookup.now items.now origin subtable).before }
{
    if found::is_chained(lookup, subtable) {
        look_back_chained(lookup, items, origin, subtable)
    } else {
        Glance::Open
    }
}

/// The set of rules at a place of the table, seen from `origin`.
pub(crate) fn glanced(
    lookup: &Lookup<'_>,
    items: &ItemList<'_>,
    origin: Origin,
    subtable: LookupSubtable,
    place: usize,
) -> GlancedSet
    requires near { subtable.start < 2 ^ 35 }
    requires inside { origin.at < length items.now }
    ensures { result ≡ record {
      subtable = subtable;
      place = place;
      before = (glances.glances_in lookup.now items.now origin subtable).before;
    } }
{
    GlancedSet {
        subtable,
        place,
        before: look_back(lookup, items, origin, subtable),
    }
}

/// What the glyphs around a place say, with what the one before says.
#[inline(never)]
fn look_on(lookup: &Lookup<'_>, items: &ItemList<'_>, origin: Origin, set: &GlancedSet) -> Glances
    requires near { set.now.subtable.start < 2 ^ 35 }
    requires inside { origin.at < length items.now }
    requires before { set.now.before
        ≡ (glances.glances_in lookup.now items.now origin set.now.subtable).before }
    ensures { result ≡ glances.glances_in lookup.now items.now origin set.now.subtable }
{
    let is_chain = found::is_chained(lookup, set.subtable);
    let rows = rows_of(lookup.table, is_chain, set.subtable.start);
    let first = items.item(origin.at);
    let input = seek_input(lookup, &first, row_of(rows.test, rows.input, 0, 0));
    let on = seek_around(lookup, &first, true, row_of(rows.test, rows.after, 0, 0));
    Glances {
        before: set.before,
        input: glance_after(lookup, &input, items, origin.at),
        after: if is_chain {
            glance_after(lookup, &on, items, origin.at)
        } else {
            Glance::Open
        },
    }
}

/// What the glyphs around a place say, looked for unless it is known.
#[inline(always)]
fn known_around(
    lookup: &Lookup<'_>,
    items: &ItemList<'_>,
    origin: Origin,
    set: &GlancedSet,
    known: &mut Option<Glances>,
) -> Glances
    requires near { set.now.subtable.start < 2 ^ 35 }
    requires inside { origin.at < length items.now }
    requires before { set.now.before
        ≡ (glances.glances_in lookup.now items.now origin set.now.subtable).before }
    requires known { IfSome known.old
        (λ g. g ≡ glances.glances_in lookup.now items.now origin set.now.subtable) }
    ensures value { result ≡ glances.glances_in lookup.now items.now origin set.now.subtable }
    ensures known { IfSome known.new
        (λ g. g ≡ glances.glances_in lookup.now items.now origin set.now.subtable) }
{
    match *known {
        Some(around) => around,
        None => {
            let around = look_on(lookup, items, origin, set);
            *known = Some(around);
            around
        }
    }
}

/// Whether a rule's second glyph isn't there.
#[inline(always)]
fn plain_refused_there(
    lookup: &Lookup<'_>,
    items: &ItemList<'_>,
    origin: Origin,
    set: &GlancedSet,
    at: usize,
    known: &mut Option<Glances>,
) -> bool
    requires near { set.now.subtable.start < 2 ^ 35 }
    requires at { at < 2 ^ 37 }
    requires inside { origin.at < length items.now }
    requires before { set.now.before
        ≡ (glances.glances_in lookup.now items.now origin set.now.subtable).before }
    requires known { IfSome known.old
        (λ g. g ≡ glances.glances_in lookup.now items.now origin set.now.subtable) }
    ensures value { result ≡ glances.plain_refused lookup.now.table.now
        (glances.glances_in lookup.now items.now origin set.now.subtable) at }
    ensures known { IfSome known.new
        (λ g. g ≡ glances.glances_in lookup.now items.now origin set.now.subtable) }
{
    if u16_at(lookup.table, at) <= 1 {
        return false;
    }
    let around = known_around(lookup, items, origin, set, known);
    refuses(lookup.table, (at + 4).min(FAR), around.input)
}

/// Whether a chained rule's second glyph isn't there, or the one behind a rule of one glyph. The
/// rule goes on at `middle`.
#[inline(always)]
fn refused_on(
    lookup: &Lookup<'_>,
    items: &ItemList<'_>,
    origin: Origin,
    set: &GlancedSet,
    middle: usize,
    known: &mut Option<Glances>,
) -> bool
    requires near { set.now.subtable.start < 2 ^ 35 }
    requires middle { middle < 2 ^ 38 }
    requires inside { origin.at < length items.now }
    requires before { set.now.before
        ≡ (glances.glances_in lookup.now items.now origin set.now.subtable).before }
    requires known { IfSome known.old
        (λ g. g ≡ glances.glances_in lookup.now items.now origin set.now.subtable) }
    ensures value { result ≡ glances.refused_on lookup.now.table.now
        (glances.glances_in lookup.now items.now origin set.now.subtable) middle }
    ensures known { IfSome known.new
        (λ g. g ≡ glances.glances_in lookup.now items.now origin set.now.subtable) }
{
    if 1 < u16_at(lookup.table, middle) {
        let around = known_around(lookup, items, origin, set, known);
        return refuses(lookup.table, (middle + 2).min(FAR), around.input);
    }
    if u16_at(lookup.table, middle + 2) == 0 {
        return false;
    }
    let around = known_around(lookup, items, origin, set, known);
    refuses(lookup.table, (middle + 4).min(FAR), around.after)
}

/// Whether the glyphs around the place refuse the rule of the set that stands at `at`.
#[inline(always)]
pub(crate) fn is_refused_there(
    lookup: &Lookup<'_>,
    items: &ItemList<'_>,
    origin: Origin,
    set: &GlancedSet,
    at: usize,
    known: &mut Option<Glances>,
) -> bool
    requires near { set.now.subtable.start < 2 ^ 35 }
    requires at { at < 2 ^ 37 }
    requires inside { origin.at < length items.now }
    requires before { set.now.before
        ≡ (glances.glances_in lookup.now items.now origin set.now.subtable).before }
    requires known { IfSome known.old
        (λ g. g ≡ glances.glances_in lookup.now items.now origin set.now.subtable) }
    ensures value { result ≡ glances.is_refused lookup.now.table.now
        (glances.glances_in lookup.now items.now origin set.now.subtable)
        (is_chained lookup.now set.now.subtable) at }
    ensures known { IfSome known.new
        (λ g. g ≡ glances.glances_in lookup.now items.now origin set.now.subtable) }
{
    if !found::is_chained(lookup, set.subtable) {
        return plain_refused_there(lookup, items, origin, set, at, known);
    }
    let before = u16_at(lookup.table, at);
    if 0 < before && refuses(lookup.table, (at + 2).min(FAR), set.before) {
        return true;
    }
    let middle = at + 2 + 2 * usize::from(before);
    refused_on(lookup, items, origin, set, middle, known)
}
