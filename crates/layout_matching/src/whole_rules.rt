//! What is stored of the one rule of a subtable of format 3, once for a font: where the list of its
//! first glyph stands, what the rule costs, and which glyphs may stand right beside its place. Most
//! rules are refused by these, and then nothing of them is read.
ghost use Rattle.std.specs.Prelude.{◌≡◌, Some, ◌<◌, ◌≤◌, ◌^◌, ℕ, length, true, false, None};
ghost use Rattle.std.specs.Option.{IfSome, option_and_then};
ghost use Rattle.layout_matching.specs.Found as found_rules;
ghost use Rattle.layout_matching.specs.Found.{is_first, whole_rule as whole_rule_of};
ghost use Rattle.layout_matching.specs.Seeking;
ghost use Rattle.layout_matching.specs.Skipping.{nth};
ghost use Rattle.layout_matching.specs.Sought as sought_rules;
ghost use Rattle.layout_matching.specs.Spans.{span_of};
ghost use Rattle.layout_matching.specs.WholeRules as whole_rules;
ghost use Rattle.layout_matching.specs.Work;
ghost use Rattle.layout_matching.specs.declared.rules.Row.{Row as RowOf};
ghost use Rattle.layout_matching.specs.declared.rules.Rule.{Rule as RuleOf};
ghost use Rattle.layout_matching.specs.declared.seeking.Seek.{Seek};

use crate::firsts::First;
use crate::formats::{first_of_rule, whole_rule};
use crate::lookup::Lookup;
use crate::nearest::ends_searches;
use crate::passing::SEARCH_WORK;
use crate::remembered::{Beside, passed_charged_again};
use crate::rules::{FAR, Row, Rule};
use crate::spans::Origin;
use crate::tally::{Tally, charged};
use crate::work::SUBTABLE_WORK;
use layout_buffer::ItemList;
use layout_tables::coverage::covers;
use layout_tables::lookups::LookupSubtable;
use layout_tables::offsets::offset16;

/// What is stored of the one rule of a subtable: the subtable, where the list of the first glyph
/// stands, what the rule costs, how many glyphs it has before its place and after it, how often it
/// looks there, and which glyphs may be the nearest ones.
#[derive(Clone, Copy, PartialEq, Eq, Debug)]
pub struct WholeRule {
    pub subtable: LookupSubtable,
    pub list: usize,
    pub work: u32,
    pub before: u32,
    pub after: u32,
    pub tries: u32,
    pub nearest_before: First,
    pub nearest_after: First,
}

/// Where the lists of the nearest glyphs of a rule stand: of the one before its place, and of the
/// one after. None, if the rule has no such glyph, or none fits it.
#[derive(Clone, Copy, PartialEq, Eq, Debug)]
pub struct NearestLists {
    pub before: Option<usize>,
    pub after: Option<usize>,
}

/// Where the list of the first glyph of a row stands; none if the row is empty, or no glyph fits
/// it.
fn list_of(table: &[u8], start: usize, row: &Row) -> Option<usize>
    requires { start < 2 ^ 35 }
    ensures value { result ≡ whole_rules.list_of table.now start row.now }
    ensures near { IfSome result (λ list. list < 2 ^ 40) }
{
    if row.count == 0 {
        return None;
    }
    offset16(table, start, row.values.min(FAR))
}

/// The row of the glyphs after the place: the others that a rule matches, or if that is one glyph,
/// what stands behind.
fn row_after(rule: &Rule) -> Row
    ensures { result ≡ whole_rules.row_after rule.now }
{
    if 1 < rule.input.count {
        rule.input
    } else {
        rule.after
    }
}

/// Where the lists of the nearest glyphs of the rule at `start` stand.
pub fn nearest_lists(table: &[u8], is_chain: bool, start: usize) -> NearestLists
    requires { start < 2 ^ 35 }
    ensures before { result.before ≡ whole_rules.list_of table.now start
        (whole_rule_of table.now is_chain start).before }
    ensures after { result.after ≡ whole_rules.list_of table.now start
        (whole_rules.row_after (whole_rule_of table.now is_chain start)) }
    ensures near_before { IfSome result.before (λ list. list < 2 ^ 40) }
    ensures near_after { IfSome result.after (λ list. list < 2 ^ 40) }
{
    let rule = whole_rule(table, is_chain, start);
    NearestLists {
        before: list_of(table, start, &rule.before),
        after: list_of(table, start, &row_after(&rule)),
    }
}

/// What is stored of the rule of a subtable of format 3 without its nearest glyphs, which may be
/// any; none if it begins with no glyph.
#[tactic(auto, using(crate::proofs::WholeRuleLemmas::counted_paid))]
pub fn stored_rule(table: &[u8], is_chain: bool, subtable: LookupSubtable) -> Option<WholeRule>
    requires { subtable.start < 2 ^ 35 }
    ensures subtable { IfSome result (λ w. w.subtable ≡ subtable) }
    ensures counted { IfSome result (whole_rules.IsCounted table.now subtable.start
        (whole_rule_of table.now is_chain subtable.start)) }
{
    let list = first_of_rule(table, is_chain, subtable.start)?;
    let rule = whole_rule(table, is_chain, subtable.start);
    let (before, input) = (u32::from(rule.before.count), u32::from(rule.input.count));
    let (behind, lookups) = (u32::from(rule.after.count), u32::from(rule.count));
    let glyphs = before + input + behind;
    Some(WholeRule {
        subtable,
        list,
        work: SUBTABLE_WORK as u32 + glyphs * SEARCH_WORK as u32 + glyphs + lookups + 1,
        before,
        after: input.saturating_sub(1) + behind,
        tries: lookups + 1,
        nearest_before: First::every(),
        nearest_after: First::every(),
    })
}

/// Whether the glyph right before a place, or the start of the list, says that the rule doesn't
/// match there.
#[tactic(auto, using(crate::proofs::NearestLemmas::prev_past, crate::proofs::WholeRuleLemmas::before_other))]
#[inline(always)]
fn misses_before(lookup: &Lookup<'_>, items: &ItemList<'_>, at: usize, stored: &WholeRule) -> bool
    requires { at ≤ length items.now }
    ensures some { result ≡ true → 0 < stored.now.before }
    ensures missed { result ≡ true → (row : RowOf) → 0 < row.count
        → whole_rules.IsNearest lookup.now.table.now row stored.now.nearest_before
        → (seek : Seek) → seek.row ≡ row → Seeking.prev_place lookup.now seek items.now 0 at ≡ None }
{
    if stored.before == 0 {
        return false;
    }
    if at == 0 {
        return true;
    }
    let there = items.at(at - 1);
    !stored.nearest_before.has(there.glyph_id) && ends_searches(lookup, there)
}

/// The same of the glyph right after it, or the end of the list.
#[tactic(auto, using(crate::proofs::NearestLemmas::next_past, crate::proofs::WholeRuleLemmas::after_other))]
#[inline(always)]
fn misses_after(lookup: &Lookup<'_>, items: &ItemList<'_>, at: usize, stored: &WholeRule) -> bool
    requires { at < length items.now }
    ensures some { result ≡ true → 0 < stored.now.after }
    ensures missed { result ≡ true → (row : RowOf) → 0 < row.count
        → whole_rules.IsNearest lookup.now.table.now row stored.now.nearest_after
        → (seek : Seek) → seek.row ≡ row → Seeking.next_place lookup.now seek items.now 0 at ≡ None }
{
    if stored.after == 0 {
        return false;
    }
    // The list can be counted, so the place after one of its own can.
    let count = items.len();
    let next = at + 1;
    if count <= next {
        return true;
    }
    let there = items.at(next);
    !stored.nearest_after.has(there.glyph_id) && ends_searches(lookup, there)
}

/// Whether what stands right beside a place says that the rule of which this is stored doesn't
/// match there.
#[tactic(auto, using(crate::proofs::WholeRuleLemmas::refused_before, crate::proofs::WholeRuleLemmas::refused_after))]
#[inline(always)]
fn is_refused(lookup: &Lookup<'_>, items: &ItemList<'_>, origin: Origin, stored: &WholeRule) -> bool
    requires { origin.at < length items.now }
    ensures { result ≡ true → (start : ℕ) (rule : RuleOf)
        → whole_rules.IsCounted lookup.now.table.now start rule stored.now
        → whole_rules.HasNearest lookup.now.table.now rule stored.now
        → span_of lookup.now items.now origin rule ≡ None }
{
    misses_after(lookup, items, origin.at, stored)
        || misses_before(lookup, items, origin.at, stored)
}

/// What is left after the rule of which this is stored, where others were looked at.
#[inline(always)]
fn stored_charged(
    lookup: &Lookup<'_>,
    items: &ItemList<'_>,
    at: usize,
    stored: &WholeRule,
    left: usize,
    known: &mut Option<Beside>,
) -> Option<usize>
    requires inside { at < length items.now }
    requires known { IfSome known.old (Work.IsBeside lookup.now true items.now at) }
    ensures value { result ≡ option_and_then (Work.passed_charged lookup.now true items.now at)
        (whole_rules.stored_paid stored.now left) }
    ensures known { IfSome known.new (Work.IsBeside lookup.now true items.now at) }
{
    let Some(left) = charged(stored.work as usize, left) else {
        return None;
    };
    let count = Tally {
        left,
        before: stored.before as usize,
        after: stored.after as usize,
        tries: stored.tries as usize,
    };
    passed_charged_again(lookup, true, items, at, count, known)
}

/// Whether the rule of which this is stored has to be looked at; if not, it was charged for. It has
/// not, if it doesn't begin with the glyph, or what stands right beside the place refuses it.
#[tactic(auto, using(crate::proofs::WholeRuleLemmas::first_listed, crate::proofs::WholeRuleLemmas::whole_unbegun, crate::proofs::WholeRuleLemmas::whole_refused))]
#[inline(always)]
pub(crate) fn stored_begins(
    lookup: &Lookup<'_>,
    items: &ItemList<'_>,
    origin: Origin,
    stored: &WholeRule,
    left: &mut usize,
    known: &mut Option<Beside>,
) -> bool
    requires inside { origin.at < length items.now }
    requires whole { whole_rules.IsWhole lookup.now.table.now
        (found_rules.is_chained lookup.now stored.now.subtable) stored.now }
    requires known { IfSome known.old (Work.IsBeside lookup.now true items.now origin.at) }
    ensures missed { result ≡ false
        → sought_rules.whole_sought lookup.now items.now origin stored.now.subtable left.old
        ≡ Some (sought_rules.unfound left.new) }
    ensures kept { result ≡ true → left.new ≡ left.old }
    ensures begun { result ≡ true → is_first lookup.now.table.now stored.now.subtable.start
        (whole_rule_of lookup.now.table.now (found_rules.is_chained lookup.now stored.now.subtable)
        stored.now.subtable.start) (nth items.now origin.at).glyph_id ≡ true }
    ensures known { IfSome known.new (Work.IsBeside lookup.now true items.now origin.at) }
{
    if !covers(lookup.table, stored.list, items.at(origin.at).glyph_id) {
        return false;
    }
    if !is_refused(lookup, items, origin, stored) {
        return true;
    }
    match stored_charged(lookup, items, origin.at, stored, *left, known) {
        Some(rest) => {
            *left = rest;
            false
        }
        None => true,
    }
}
