//! Rules of context by the formats of their subtables: format 3 has one, formats 1 and 2 have sets
//! of them.
ghost use Rattle.std.specs.Prelude.{◌≡◌, ◌<◌, ◌+◌, ◌^◌, true, false};
ghost use Rattle.std.specs.Option.{IfSome};
ghost use Rattle.layout_matching.specs.Found as found_rules;
ghost use Rattle.layout_matching.specs.Glance as glances;

use crate::rules::{FAR, RowTests, Rule, Test, chain, plain, rules};
use layout_tables::classes::class;
use layout_tables::coverage::covers;
use layout_tables::offsets::offset16;
use shape_font::bytes::u16_at;

/// Rows whose glyphs or lists stand from one place on.
fn from_one_place(test: Test, start: usize) -> RowTests
    ensures { result ≡ record { test = test; before = start; input = start; after = start } }
{
    RowTests {
        test,
        before: start,
        input: start,
        after: start,
    }
}

/// The one rule of a subtable of format 3. Inlined, as few of its numbers are read of most rules.
#[inline(always)]
pub(crate) fn whole_rule(table: &[u8], is_chain: bool, start: usize) -> Rule
    requires { start < 2 ^ 35 }
    ensures { result ≡ found_rules.whole_rule table.now is_chain start }
{
    if is_chain {
        chain(table, from_one_place(Test::Coverage, start), 1, start + 2)
    } else {
        plain(table, Test::Coverage, start, start + 2, start + 8)
    }
}

/// Where the list of the first glyph of a rule of context of format 3 stands; none if the rule has
/// no glyph.
#[tactic(auto, using(crate::proofs::FirstLemmas::near_values))]
fn first_of_plain(table: &[u8], start: usize) -> Option<usize>
    requires { start < 2 ^ 35 }
    ensures value { result
        ≡ found_rules.first_list table.now start (found_rules.whole_rule table.now false start) }
    ensures near { IfSome result (λ list. list < 2 ^ 40) }
{
    if u16_at(table, start + 2) == 0 {
        return None;
    }
    offset16(table, start, start + 6)
}

/// The same of a rule of chained context, after the lists of what stands before.
#[tactic(auto, using(crate::proofs::FirstLemmas::near_values))]
fn first_of_chain(table: &[u8], start: usize) -> Option<usize>
    requires { start < 2 ^ 35 }
    ensures value { result
        ≡ found_rules.first_list table.now start (found_rules.whole_rule table.now true start) }
    ensures near { IfSome result (λ list. list < 2 ^ 40) }
{
    let middle = start + 4 + 2 * usize::from(u16_at(table, start + 2));
    if u16_at(table, middle) == 0 {
        return None;
    }
    offset16(table, start, middle + 2)
}

/// The same of a rule of either kind. The rest of the rule isn't read.
pub fn first_of_rule(table: &[u8], is_chain: bool, start: usize) -> Option<usize>
    requires { start < 2 ^ 35 }
    ensures value { result
        ≡ found_rules.first_list table.now start (found_rules.whole_rule table.now is_chain start) }
    ensures near { IfSome result (λ list. list < 2 ^ 40) }
{
    if is_chain {
        first_of_chain(table, start)
    } else {
        first_of_plain(table, start)
    }
}

/// Whether the one rule of a subtable of format 3 begins with the glyph. It is asked before the
/// rule is read.
pub(crate) fn begins_whole(table: &[u8], is_chain: bool, start: usize, glyph: u32) -> bool
    requires { start < 2 ^ 35 }
    ensures { result ≡ found_rules.is_first table.now start
        (found_rules.whole_rule table.now is_chain start) glyph }
{
    match first_of_rule(table, is_chain, start) {
        Some(list) => covers(table, list, glyph),
        None => false,
    }
}

/// Whether the one rule of a subtable of format 3, which was read, begins with the glyph.
#[inline(always)]
pub(crate) fn begins_rule(table: &[u8], start: usize, rule: &Rule, glyph: u32) -> bool
    requires { start < 2 ^ 35 }
    ensures { result ≡ found_rules.is_first table.now start rule.now glyph }
{
    if rule.input.count == 0 {
        return false;
    }
    match offset16(table, start, rule.input.values.min(FAR).saturating_sub(2)) {
        Some(list) => covers(table, list, glyph),
        None => false,
    }
}

/// Where the ClassDef stands whose offset is `at` bytes after `start`. A NULL one stands past any
/// table, so that each glyph is of class 0.
fn class_place(table: &[u8], start: usize, at: usize) -> usize
    requires start { start < 2 ^ 35 }
    requires at { at < 16 }
    ensures value { result ≡ found_rules.class_place table.now start at }
    ensures near { result < 2 ^ 39 }
{
    match offset16(table, start, start + at) {
        Some(place) => place,
        None => FAR,
    }
}

fn set_by_class(table: &[u8], is_chain: bool, start: usize, glyph: u32) -> Option<usize>
    requires { start < 2 ^ 35 }
    ensures value { result ≡ found_rules.set_by_class table.now is_chain start glyph }
    ensures near { IfSome result (λ s. s < 2 ^ 36) }
{
    if is_chain {
        let of = class(table, class_place(table, start, 6), glyph);
        rules(table, start, 10, u32::from(of))
    } else {
        let of = class(table, class_place(table, start, 4), glyph);
        rules(table, start, 6, u32::from(of))
    }
}

/// The rules for a glyph with this number.
pub(crate) fn set_for(
    table: &[u8],
    is_chain: bool,
    start: usize,
    glyph: u32,
    number: u32,
) -> Option<usize>
    requires { start < 2 ^ 35 }
    ensures value { result ≡ found_rules.set_for table.now is_chain start glyph number }
    ensures near { IfSome result (λ s. s < 2 ^ 36) }
{
    match u16_at(table, start) {
        1 => rules(table, start, 4, number),
        2 => set_by_class(table, is_chain, start, glyph),
        _ => None,
    }
}

/// The rule at a place, of a subtable of format 1 or 2.
/// Inlined, as a rule has a hundred bytes, which each call would copy.
#[inline(always)]
pub(crate) fn rule_by(table: &[u8], is_chain: bool, start: usize, at: usize) -> Rule
    requires start { start < 2 ^ 35 }
    requires at { at < 2 ^ 37 }
    ensures { result ≡ found_rules.rule_of table.now is_chain start at }
{
    if u16_at(table, start) == 1 {
        if is_chain {
            return chain(table, from_one_place(Test::Glyph, start), 0, at);
        }
        return plain(table, Test::Glyph, start, at, at + 4);
    }
    if !is_chain {
        return plain(table, Test::Class, class_place(table, start, 4), at, at + 4);
    }
    let rows = RowTests {
        test: Test::Class,
        before: class_place(table, start, 4),
        input: class_place(table, start, 6),
        after: class_place(table, start, 8),
    };
    chain(table, rows, 0, at)
}

/// What the values of the rules of a subtable of format 1 or 2 say of glyphs.
pub(crate) fn rows_of(table: &[u8], is_chain: bool, start: usize) -> RowTests
    requires { start < 2 ^ 35 }
    ensures { result ≡ glances.rows_of table.now is_chain start }
{
    if u16_at(table, start) == 1 {
        return from_one_place(Test::Glyph, start);
    }
    if !is_chain {
        return from_one_place(Test::Class, class_place(table, start, 4));
    }
    RowTests {
        test: Test::Class,
        before: class_place(table, start, 4),
        input: class_place(table, start, 6),
        after: class_place(table, start, 8),
    }
}
