//! The glyphs right beside a place. Nearly all of them end each search, and they refuse most rules
//! of format 3.
ghost use Rattle.std.specs.Prelude.{◌≡◌, ◌<◌, ◌≤◌, length, true, false, None};
ghost use Rattle.shape_items.specs.Items.{is_ignorable_item};
ghost use Rattle.layout_matching.specs.Seeking;
ghost use Rattle.layout_matching.specs.Skipping.{is_skipped as skips};
ghost use Rattle.layout_matching.specs.Spans.{span_of};
ghost use Rattle.layout_matching.specs.declared.seeking.Seek.{Seek};

use crate::lookup::Lookup;
use crate::rules::{Row, Rule, fits_row};
use crate::skipping::is_skipped;
use crate::spans::Origin;
use layout_buffer::ItemList;
use shape_buffer::hb_glyph_info_t;

/// Whether each search ends at a glyph: the lookup doesn't skip it, and it is no default
/// ignorable.
#[inline(always)]
pub(crate) fn ends_searches(lookup: &Lookup<'_>, there: &hb_glyph_info_t) -> bool
    ensures seen { result ≡ true → skips lookup.now there.now ≡ false }
    ensures opaque { result ≡ true → is_ignorable_item there.now ≡ false }
{
    !is_skipped(lookup, there) && !there._hb_glyph_info_is_default_ignorable()
}

/// Whether the glyph right after a place says that the first one of a row doesn't follow.
#[tactic(auto, using(crate::proofs::NearestLemmas::next_past, crate::proofs::NearestLemmas::next_other))]
#[inline(always)]
fn misses_after(lookup: &Lookup<'_>, items: &ItemList<'_>, at: usize, row: &Row) -> bool
    requires { at < length items.now }
    ensures { result ≡ true → (seek : Seek) → seek.row ≡ row.now
        → Seeking.next_place lookup.now seek items.now 0 at ≡ None }
{
    // The list can be counted, so the place after one of its own can.
    let count = items.len();
    let next = at + 1;
    if count <= next {
        return true;
    }
    let there = items.at(next);
    ends_searches(lookup, there) && !fits_row(lookup.table, row, 0, there.glyph_id)
}

/// Whether the glyph right before a place says that the first one of a row doesn't stand before.
#[tactic(auto, using(crate::proofs::NearestLemmas::prev_past, crate::proofs::NearestLemmas::prev_other))]
#[inline(always)]
fn misses_before(lookup: &Lookup<'_>, items: &ItemList<'_>, at: usize, row: &Row) -> bool
    requires { at ≤ length items.now }
    ensures { result ≡ true → (seek : Seek) → seek.row ≡ row.now
        → Seeking.prev_place lookup.now seek items.now 0 at ≡ None }
{
    if at == 0 {
        return true;
    }
    let there = items.at(at - 1);
    ends_searches(lookup, there) && !fits_row(lookup.table, row, 0, there.glyph_id)
}

/// Whether a glyph right beside the place says that a rule doesn't match there: the second glyph
/// of what it matches, or if that is one glyph, the nearest ones around it.
#[tactic(auto, using(crate::proofs::NearestLemmas::missed_input, crate::proofs::NearestLemmas::missed_before, crate::proofs::NearestLemmas::missed_after))]
#[inline(always)]
pub(crate) fn is_missed(
    lookup: &Lookup<'_>,
    items: &ItemList<'_>,
    origin: Origin,
    rule: &Rule,
) -> bool
    requires { origin.at < length items.now }
    ensures { result ≡ true → span_of lookup.now items.now origin rule.now ≡ None }
{
    if 1 < rule.input.count {
        return misses_after(lookup, items, origin.at, &rule.input);
    }
    if 0 < rule.before.count && misses_before(lookup, items, origin.at, &rule.before) {
        return true;
    }
    0 < rule.after.count && misses_after(lookup, items, origin.at, &rule.after)
}
