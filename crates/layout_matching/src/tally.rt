//! Rules counted: each costs one for each glyph and each lookup that it names.
ghost use Rattle.std.specs.Prelude.{◌≡◌, ◌<◌, ◌^◌};
ghost use Rattle.layout_matching.specs.Work;

use crate::rules::{Rule, Test, row_of};
use shape_font::bytes::u16_at;

/// What is left after some rules, the most glyphs that one of them has before the place and after
/// it, and how often glyphs are looked for: once for each rule, and for each lookup that it names.
#[derive(Clone, Copy, PartialEq, Eq, Debug)]
pub struct Tally {
    pub left: usize,
    pub before: usize,
    pub after: usize,
    pub tries: usize,
}

/// How many rules of a set aren't refused by what stands beside the place, and the most lookups
/// that one of them names: only one of them applies.
#[derive(Clone, Copy)]
pub struct Tries {
    pub rules: usize,
    pub lookups: usize,
}

/// How often a set looks beside the place: once for itself, once for each rule, and once for each
/// lookup of the one that applies.
pub(crate) fn tries_made(tries: Tries) -> usize
    ensures { result ≡ Work.tries_made tries }
{
    tries.rules.saturating_add(1).saturating_add(tries.lookups)
}

/// What is left after so much, if it suffices.
#[inline(always)]
pub fn charged(work: usize, left: usize) -> Option<usize>
    ensures { result ≡ Work.charged work left }
{
    if left < work { None } else { Some(left - work) }
}

/// Before the first rule.
pub(crate) fn uncounted(left: usize) -> Tally
    ensures { result ≡ Work.uncounted left }
{
    Tally {
        left,
        before: 0,
        after: 0,
        tries: 0,
    }
}

/// A search of the glyph before a place and of the one after.
pub(crate) fn beside(left: usize) -> Tally
    ensures { result ≡ Work.beside left }
{
    Tally {
        left,
        before: 1,
        after: 1,
        tries: 1,
    }
}

/// A number of 16 bits.
#[inline(always)]
pub(crate) fn short(count: u16) -> usize
    ensures value { result ≡ count }
    ensures near { result < 2 ^ 16 }
{
    usize::from(count)
}

/// How many glyphs a rule has before its place, from there on and behind these, and how many
/// lookups it names.
#[derive(Clone, Copy)]
pub struct Counts {
    pub before: u16,
    pub input: u16,
    pub after: u16,
    pub lookups: u16,
}

fn counts_of(rule: &Rule) -> Counts
    ensures { result ≡ Work.counts_of rule.now }
{
    Counts {
        before: rule.before.count,
        input: rule.input.count,
        after: rule.after.count,
        lookups: rule.count,
    }
}

/// Those of a rule at a place, of a subtable of format 1 or 2. Nothing else is read of it.
#[inline(always)]
pub(crate) fn counts_at(table: &[u8], is_chain: bool, at: usize) -> Counts
    requires { at < 2 ^ 37 }
    ensures { result ≡ Work.counts_at table.now is_chain at }
{
    if is_chain {
        chain_counts(table, at)
    } else {
        Counts {
            before: 0,
            input: u16_at(table, at),
            after: 0,
            lookups: u16_at(table, at + 2),
        }
    }
}

#[inline(always)]
fn chain_counts(table: &[u8], at: usize) -> Counts
    requires { at < 2 ^ 37 }
    ensures { result ≡ Work.chain_counts table.now at }
{
    let before = u16_at(table, at);
    let middle = at + 2 + 2 * usize::from(before);
    let input = u16_at(table, middle);
    let follows = middle + 2 + 2 * usize::from(input.saturating_sub(1));
    let after = u16_at(table, follows);
    Counts {
        before,
        input,
        after,
        lookups: u16_at(table, follows + 2 + 2 * usize::from(after)),
    }
}

/// Those of a ligature, whose components are counted after its glyph.
#[inline(always)]
pub(crate) fn ligature_counts(table: &[u8], place: usize) -> Counts
    requires { place < 2 ^ 37 }
    ensures { result ≡ Work.ligature_counts table.now place }
{
    Counts {
        before: 0,
        input: u16_at(table, place + 2),
        after: 0,
        lookups: 0,
    }
}

/// What a rule costs: each of its glyphs and of its lookups, and the rule.
#[inline(always)]
fn counts_work(counts: Counts) -> usize
    ensures { result ≡ Work.counts_work counts }
{
    short(counts.before) + short(counts.input) + short(counts.after) + short(counts.lookups) + 1
}

/// One rule more, by its counts.
#[inline(always)]
pub(crate) fn counted(counts: Counts, count: Tally) -> Option<Tally>
    ensures { result ≡ Work.counted counts count }
{
    let Some(left) = charged(counts_work(counts), count.left) else {
        return None;
    };
    let after = short(counts.input).saturating_sub(1) + short(counts.after);
    Some(Tally {
        left,
        before: count.before.max(short(counts.before)),
        after: count.after.max(after),
        tries: count.tries.saturating_add(short(counts.lookups) + 1),
    })
}

/// One rule more.
pub(crate) fn rule_counted(rule: &Rule, count: Tally) -> Option<Tally>
    ensures { result ≡ Work.rule_counted rule.now count }
{
    counted(counts_of(rule), count)
}

/// One offset more that is NULL.
#[inline(always)]
pub(crate) fn null_counted(count: Tally) -> Option<Tally>
    ensures { result ≡ Work.null_counted count }
{
    let Some(left) = charged(1, count.left) else {
        return None;
    };
    let mut next = count;
    next.left = left;
    Some(next)
}

/// A rule of kind 8, to be counted alone.
pub(crate) fn backward_rule(table: &[u8], start: usize) -> Rule
    requires { start < 2 ^ 35 }
    ensures { result ≡ Work.backward_rule table.now start }
{
    let before = u16_at(table, start + 4);
    let middle = start + 6 + 2 * usize::from(before);
    Rule {
        before: row_of(Test::Coverage, 0, before, 0),
        input: row_of(Test::Coverage, 0, 1, 0),
        after: row_of(Test::Coverage, 0, u16_at(table, middle), 0),
        lookups: 0,
        count: 0,
    }
}
