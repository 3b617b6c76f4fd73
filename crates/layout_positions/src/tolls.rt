//! What a walk of a lookup costs over a list, decided by the lookup's type where that says enough.
ghost use Rattle.std.specs.Prelude.{◌≡◌, ◌<◌, ◌^◌, true, false};
ghost use Rattle.layout_matching.specs.Found as found_rules;
ghost use Rattle.layout_matching.specs.Work;

use layout_matching::found::is_context;
use layout_matching::lookup::Lookup;
use layout_matching::work::walk_work;
use layout_tables::lookups::{lookup_type, subtable_count};

/// What a subtable costs at each item of a list if the lookup names no other, without what its
/// devices cost.
const PLAIN_WORK: usize = 16;

/// Whether the lookup's type says that it names no other. Of one whose subtables stand far away it
/// says nothing.
#[tactic(auto, using(crate::proofs::TollLemmas::plain_kind))]
#[inline(always)]
fn is_plain_kind(lookup: &Lookup<'_>) -> bool
    requires { lookup.now.place < 2 ^ 17 }
    ensures plain { result ≡ true → found_rules.is_context lookup.now ≡ false }
    ensures positions { result ≡ true → lookup.now.positioning ≡ true }
{
    lookup.positioning && lookup_type(lookup.table, lookup.place) < 7
}

/// Whether the lookup is one of context. For most their type decides it.
pub(crate) fn has_rules(lookup: &Lookup<'_>) -> bool
    requires { lookup.now.place < 2 ^ 17 }
    ensures { result ≡ found_rules.is_context lookup.now }
{
    if is_plain_kind(lookup) {
        return false;
    }
    is_context(lookup)
}

/// What a lookup of positioning that names no other costs that goes over so many items, for each of
/// its subtables.
#[inline(always)]
fn plain_toll(lookup: &Lookup<'_>, count: usize) -> usize
    requires place { lookup.now.place < 2 ^ 17 }
    requires positions { lookup.now.positioning ≡ true }
    requires plain { found_rules.is_context lookup.now ≡ false }
    ensures { result ≡ Work.walk_work lookup.now count }
{
    let parts = (subtable_count(lookup.table, lookup.place) as usize).max(1);
    count.saturating_mul(parts * (PLAIN_WORK + lookup.device_work as usize))
}

/// What a lookup costs that goes over so many items.
pub(crate) fn walk_toll(lookup: &Lookup<'_>, count: usize) -> usize
    requires { lookup.now.place < 2 ^ 17 }
    ensures { result ≡ Work.walk_work lookup.now count }
{
    if is_plain_kind(lookup) {
        return plain_toll(lookup, count);
    }
    walk_work(lookup, count)
}
