//! Whether a subtable of context would match glyphs that stand alone: no glyph is skipped, and
//! nothing is around them.
ghost use Rattle.std.specs.Prelude.{◌≡◌, ◌<◌, ◌+◌, ◌^◌, length, slice_index};
ghost use Rattle.std.specs.Option.{IfSome};
ghost use Rattle.layout_matching.specs.Rules.{fits_row as fits};
ghost use Rattle.layout_matching.specs.Would as would_rules;

use crate::formats::{begins_whole, rule_by, set_for, whole_rule};
use crate::found::number_in;
use crate::rules::{Row, Rule, fits_row, is_inside, rule_at};
use shape_font::bytes::{records, u16_at};

/// Glyphs that stand alone. With `zero_context` only rules count that want no glyph before them and
/// none after.
#[derive(Clone, Copy, Debug)]
pub struct Alone<'a> {
    pub glyphs: &'a [u32],
    pub zero_context: bool,
}

/// The first of the glyphs; 0 if there is none.
pub fn first_of(glyphs: &[u32]) -> u32
    ensures { result ≡ would_rules.first_of glyphs.now }
{
    if glyphs.is_empty() { 0 } else { glyphs[0] }
}

/// Whether glyph `k` after the first one is what the row names.
fn fits_after(table: &[u8], row: &Row, k: u16, glyphs: &[u32]) -> bool
    requires { k + 1 < length glyphs.now }
    ensures { result ≡ fits table.now row.now k (slice_index glyphs.now (k + 1)) }
{
    fits_row(table, row, u32::from(k), glyphs[usize::from(k) + 1])
}

/// Whether the glyphs are as many as the row has, counted with the first one, and those after that
/// what the row names.
#[tactic(auto, using(crate::proofs::LoopLemmas::each_next, crate::proofs::LoopLemmas::each_fails, crate::proofs::LoopLemmas::each_end))]
pub fn is_input(table: &[u8], row: &Row, glyphs: &[u32]) -> bool
    ensures { result ≡ would_rules.is_input table.now row.now glyphs.now }
{
    if usize::from(row.count) != glyphs.len() {
        return false;
    }
    for k in 0..row.count.saturating_sub(1) {
        if !fits_after(table, row, k, glyphs) {
            return false;
        }
    }
    true
}

/// Whether the rule wants no glyph before and none after.
fn has_no_context(rule: &Rule) -> bool
    ensures { result ≡ would_rules.has_no_context rule.now }
{
    rule.before.count == 0 && rule.after.count == 0
}

/// Whether the rule is one for exactly these glyphs.
fn rule_would(table: &[u8], alone: Alone<'_>, rule: &Rule) -> bool
    ensures { result
        ≡ would_rules.rule_would table.now alone.entry.glyphs.now alone.entry.zero_context rule.now }
{
    is_inside(table, rule)
        && (!alone.zero_context || has_no_context(rule))
        && is_input(table, &rule.input, alone.glyphs)
}

/// The same of rule `r` of the set.
fn rule_would_in(
    table: &[u8],
    is_chain: bool,
    start: usize,
    alone: Alone<'_>,
    set: usize,
    r: u32,
) -> bool
    requires near { start < 2 ^ 35 }
    requires set { set < 2 ^ 36 }
    requires few { r < 2 ^ 16 }
    ensures { result ≡ would_rules.rule_would_in table.now is_chain start alone.entry.glyphs.now
        alone.entry.zero_context set r }
{
    match rule_at(table, set, r) {
        Some(place) => rule_would(table, alone, &rule_by(table, is_chain, start, place)),
        None => false,
    }
}

/// Whether a rule of the set is one for exactly these glyphs.
#[tactic(auto, using(crate::proofs::LoopLemmas::some_next, crate::proofs::LoopLemmas::some_found, crate::proofs::LoopLemmas::some_end))]
fn set_would(table: &[u8], is_chain: bool, start: usize, alone: Alone<'_>, set: usize) -> bool
    requires near { start < 2 ^ 35 }
    requires set { set < 2 ^ 36 }
    ensures { result ≡ would_rules.set_would table.now is_chain start alone.entry.glyphs.now
        alone.entry.zero_context set }
{
    for r in 0..records(table, u32::from(u16_at(table, set)), set + 2, 2) {
        if rule_would_in(table, is_chain, start, alone, set, r) {
            return true;
        }
    }
    false
}

/// The rules for the first glyph, by its number in format 1, by its class in format 2.
fn set_of_first(table: &[u8], is_chain: bool, start: usize, glyph: u32) -> Option<usize>
    requires { start < 2 ^ 35 }
    ensures value { result ≡ would_rules.set_of_first table.now is_chain start glyph }
    ensures near { IfSome result (λ s. s < 2 ^ 36) }
{
    if u16_at(table, start) != 1 {
        return set_for(table, is_chain, start, glyph, 0);
    }
    match number_in(table, start, glyph) {
        Some(number) => set_for(table, is_chain, start, glyph, number),
        None => None,
    }
}

/// Whether the subtable of context at `start` has a rule for exactly these glyphs. Formats 2 and 3
/// don't ask their list for the first one: [`context_begins`] does.
pub fn context_would(table: &[u8], is_chain: bool, start: usize, alone: Alone<'_>) -> bool
    requires { start < 2 ^ 35 }
    ensures { result ≡ would_rules.context_would table.now is_chain start alone.entry.glyphs.now
        alone.entry.zero_context }
{
    if u16_at(table, start) == 3 {
        return rule_would(table, alone, &whole_rule(table, is_chain, start));
    }
    match set_of_first(table, is_chain, start, first_of(alone.glyphs)) {
        Some(set) => set_would(table, is_chain, start, alone, set),
        None => false,
    }
}

/// Whether the subtable of context at `start` begins at a glyph.
pub fn context_begins(table: &[u8], is_chain: bool, start: usize, glyph: u32) -> bool
    requires { start < 2 ^ 35 }
    ensures { result ≡ would_rules.context_begins table.now is_chain start glyph }
{
    let format = u16_at(table, start);
    if format == 3 {
        return begins_whole(table, is_chain, start, glyph);
    }
    (format == 1 || format == 2) && number_in(table, start, glyph).is_some()
}
