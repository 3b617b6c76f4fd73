//! What the glyph beside a place says of all rules of a set, before any of them is read.
//!
//! Nearly all rules of a set are refused by the first glyph that they look for beside their place.
//! It is the same glyph for all of them, so it is found once for each set, with the one value that
//! names it, and of most rules no more than that value is read. HarfBuzz does the same
//! (`RuleSet::apply`, `ChainRuleSet::apply`, `LigatureSet::apply`).
ghost use Rattle.std.specs.Prelude.{◌≡◌, ◌<◌, ◌≤◌, ◌^◌, length, min, true};
ghost use Rattle.layout_matching.specs.Glance as glances;
ghost use Rattle.layout_matching.specs.Rules.{FAR};

use crate::input::seek_input;
use crate::lookup::Lookup;
use crate::rules::{FAR, Row, RowTests, Test, row_of};
use crate::seeking::{Seek, next, prev};
use crate::skipping::is_transparent;
use crate::spans::{Origin, seek_around};
use layout_buffer::ItemList;
use layout_tables::classes::class;
use shape_buffer::hb_glyph_info_t;
use shape_font::bytes::u16_at;

/// Which values the glyph beside a place lets a row begin with: any, none, or one.
#[derive(Clone, Copy, PartialEq, Eq, Debug)]
pub enum Glance {
    Open,
    Closed,
    Only(u32),
}

/// What the glyphs around a place say: the one before it, the second one of what is matched, and
/// the one behind a rule of one glyph.
#[derive(Clone, Copy, PartialEq, Eq, Debug)]
pub struct Glances {
    pub before: Glance,
    pub input: Glance,
    pub after: Glance,
}

/// The value of a row that names the glyph, if one alone does.
fn value_of(table: &[u8], row: Row, glyph: u32) -> Glance
    ensures { result ≡ glances.value_of table.now (min row.from FAR) glyph row.test }
{
    match row.test {
        Test::Glyph => Glance::Only(glyph),
        Test::Class => Glance::Only(u32::from(class(table, row.from.min(FAR), glyph))),
        Test::Coverage | Test::Any => Glance::Open,
    }
}

fn glance_at(lookup: &Lookup<'_>, seek: &Seek, there: &hb_glyph_info_t) -> Glance
    ensures { result ≡ glances.glance_of lookup.now seek.now there.now }
{
    if is_transparent(lookup, seek.is_input, there) {
        Glance::Open
    } else {
        value_of(lookup.table, seek.row, there.glyph_id)
    }
}

/// Looks for any glyph, where one of a row is looked for.
pub(crate) fn any_glyph(seek: &Seek) -> Seek
    ensures { result ≡ glances.any_glyph seek.now }
{
    Seek {
        row: row_of(Test::Any, 0, 1, 0),
        is_input: seek.is_input,
        syllable: seek.syllable,
    }
}

/// What the glyph after place `i` says of the first value of the row.
pub fn glance_after(lookup: &Lookup<'_>, seek: &Seek, items: &ItemList<'_>, i: usize) -> Glance
    requires { i < length items.now }
    ensures { result ≡ glances.glance_after lookup.now seek.now items.now i }
{
    match next(lookup, &any_glyph(seek), items, 0, i) {
        Some(j) => glance_at(lookup, seek, items.at(j)),
        None => Glance::Closed,
    }
}

/// What the glyph before place `i` says of it.
pub(crate) fn glance_before(
    lookup: &Lookup<'_>,
    seek: &Seek,
    items: &ItemList<'_>,
    i: usize,
) -> Glance
    requires { i ≤ length items.now }
    ensures { result ≡ glances.glance_before lookup.now seek.now items.now i }
{
    match prev(lookup, &any_glyph(seek), items, 0, i) {
        Some(j) => glance_at(lookup, seek, &items.item(j)),
        None => Glance::Closed,
    }
}

/// What the glyphs around a place say of chained rules.
fn chain_glances(
    lookup: &Lookup<'_>,
    items: &ItemList<'_>,
    origin: Origin,
    rows: RowTests,
) -> Glances
    requires { origin.at < length items.now }
    ensures { result ≡ glances.glances_of lookup.now items.now origin true rows }
{
    let first = items.item(origin.at);
    let before = row_of(rows.test, rows.before, 0, 0);
    let input = row_of(rows.test, rows.input, 0, 0);
    let after = row_of(rows.test, rows.after, 0, 0);
    let back = seek_around(lookup, &first, origin.is_steady, before);
    let on = seek_around(lookup, &first, true, after);
    Glances {
        before: glance_before(lookup, &back, items, origin.at),
        input: glance_after(lookup, &seek_input(lookup, &first, input), items, origin.at),
        after: glance_after(lookup, &on, items, origin.at),
    }
}

/// What the glyphs around a place say of the rules of a set.
pub(crate) fn glances_around(
    lookup: &Lookup<'_>,
    items: &ItemList<'_>,
    origin: Origin,
    is_chain: bool,
    rows: RowTests,
) -> Glances
    requires { origin.at < length items.now }
    ensures { result ≡ glances.glances_of lookup.now items.now origin is_chain rows }
{
    if is_chain {
        return chain_glances(lookup, items, origin, rows);
    }
    let first = items.item(origin.at);
    let input = seek_input(lookup, &first, row_of(rows.test, rows.input, 0, 0));
    Glances {
        before: Glance::Open,
        input: glance_after(lookup, &input, items, origin.at),
        after: Glance::Open,
    }
}

/// Whether the value at a place of the table is none that the glyph is named by.
#[inline(always)]
pub fn refuses(table: &[u8], at: usize, glance: Glance) -> bool
    requires { at < 2 ^ 48 }
    ensures { result ≡ glances.refuses table.now at glance }
{
    match glance {
        Glance::Open => false,
        Glance::Closed => true,
        Glance::Only(value) => value != u32::from(u16_at(table, at)),
    }
}

/// Whether a rule's second glyph isn't there.
#[inline(always)]
fn plain_refused(table: &[u8], around: &Glances, at: usize) -> bool
    requires { at < 2 ^ 37 }
    ensures { result ≡ glances.plain_refused table.now around.now at }
{
    1 < u16_at(table, at) && refuses(table, (at + 4).min(FAR), around.input)
}

/// Whether the glyph before a chained rule isn't there, or its second glyph, or the one behind a
/// rule of one glyph.
#[inline(always)]
fn chain_refused(table: &[u8], around: &Glances, at: usize) -> bool
    requires { at < 2 ^ 37 }
    ensures { result ≡ glances.chain_refused table.now around.now at }
{
    let before = u16_at(table, at);
    if 0 < before && refuses(table, (at + 2).min(FAR), around.before) {
        return true;
    }
    let middle = at + 2 + 2 * usize::from(before);
    if 1 < u16_at(table, middle) {
        refuses(table, (middle + 2).min(FAR), around.input)
    } else {
        0 < u16_at(table, middle + 2) && refuses(table, (middle + 4).min(FAR), around.after)
    }
}

/// Whether the glyphs around a place refuse the rule that stands at a place of the table.
#[inline(always)]
pub(crate) fn is_refused(table: &[u8], around: &Glances, is_chain: bool, at: usize) -> bool
    requires { at < 2 ^ 37 }
    ensures { result ≡ glances.is_refused table.now around.now is_chain at }
{
    if is_chain {
        chain_refused(table, around, at)
    } else {
        plain_refused(table, around, at)
    }
}
