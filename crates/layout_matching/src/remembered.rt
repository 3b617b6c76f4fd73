//! What rules pass over beside a place, remembered from one rule to the next: most rules of a
//! lookup look as far as each other.
ghost use Rattle.std.specs.Prelude.{◌≡◌, ◌<◌, length, true};
ghost use Rattle.std.specs.Option.{IfSome};
ghost use Rattle.layout_matching.specs.Work;

use crate::lookup::Lookup;
use crate::rules::Rule;
use crate::sets::{lists_charged, passed};
use crate::tally::{Tally, charged, rule_counted, uncounted};
use layout_buffer::ItemList;

/// What rules of one reach pass over at a place: so many glyphs before it, and so many after it.
#[derive(Clone, Copy)]
pub(crate) struct Beside {
    pub(crate) before: usize,
    pub(crate) after: usize,
    pub(crate) passed: usize,
}

/// What a rule or a set passes over beside a place, where others were looked at before. One that
/// looks as far as another passes over as much, and over nothing if the other one did and looks no
/// less far.
#[inline(always)]
fn passed_again(
    lookup: &Lookup<'_>,
    listed: bool,
    items: &ItemList<'_>,
    at: usize,
    count: Tally,
    known: &mut Option<Beside>,
) -> usize
    requires inside { at < length items.now }
    requires known { IfSome known.old (Work.IsBeside lookup.now listed items.now at) }
    ensures value { result ≡ Work.passed lookup.now listed items.now at count }
    ensures known { IfSome known.new (Work.IsBeside lookup.now listed items.now at) }
{
    if let Some(there) = *known {
        if there.before == count.before && there.after == count.after {
            return there.passed;
        }
        if there.passed == 0 && count.before <= there.before && count.after <= there.after {
            return 0;
        }
    }
    let passed = passed(lookup, listed, items, at, count);
    *known = Some(Beside {
        before: count.before,
        after: count.after,
        passed,
    });
    passed
}

/// What is left after what a rule or a set passes over, where others were looked at before.
#[inline(always)]
pub(crate) fn passed_charged_again(
    lookup: &Lookup<'_>,
    listed: bool,
    items: &ItemList<'_>,
    at: usize,
    count: Tally,
    known: &mut Option<Beside>,
) -> Option<usize>
    requires inside { at < length items.now }
    requires known { IfSome known.old (Work.IsBeside lookup.now listed items.now at) }
    ensures value { result ≡ Work.passed_charged lookup.now listed items.now at count }
    ensures known { IfSome known.new (Work.IsBeside lookup.now listed items.now at) }
{
    let passed = passed_again(lookup, listed, items, at, count, known);
    charged(count.tries.saturating_mul(passed), count.left)
}

/// What is left after one rule of lists, where others were looked at at the same place.
#[inline(always)]
pub(crate) fn rule_charged_again(
    lookup: &Lookup<'_>,
    items: &ItemList<'_>,
    at: usize,
    rule: &Rule,
    left: usize,
    known: &mut Option<Beside>,
) -> Option<usize>
    requires inside { at < length items.now }
    requires known { IfSome known.old (Work.IsBeside lookup.now true items.now at) }
    ensures value { result ≡ Work.rule_charged lookup.now items.now at rule.now left }
    ensures known { IfSome known.new (Work.IsBeside lookup.now true items.now at) }
{
    let Some(left) = lists_charged(rule, left) else {
        return None;
    };
    match rule_counted(rule, uncounted(left)) {
        Some(count) => passed_charged_again(lookup, true, items, at, count, known),
        None => None,
    }
}
