//! Marking and merging of items round a gap. The gap goes after what changes, so that it stands in
//! one slice.
ghost use Rattle.std.specs.Prelude.{◌≡◌, ◌+◌, ◌-◌, ◌≤◌, ◌<◌, length, slice_range};
ghost use Rattle.shape_items.specs.Clusters;
ghost use Rattle.layout_buffer.specs.Gap.{around};
ghost use Rattle.layout_buffer.specs.GapMerging;

use crate::gap::move_gap;
use shape_buffer::hb_glyph_info_t;
use shape_items::clusters::{count_at_start, least_cluster, mark_break, mark_concat, merge_items};

/// How far the merge of a span that ends `front` grows over the items after it.
fn growth_after(front: &[hb_glyph_info_t], after: &[hb_glyph_info_t], start: usize) -> usize
    requires { start < length front.now }
    ensures value { result ≡ GapMerging.growth_after start front.now after.now }
    ensures within { result ≤ length after.now }
{
    let least = least_cluster(&front[start..]);
    let last = front[front.len() - 1].cluster;
    if last == least {
        return 0;
    }
    count_at_start(after, last)
}

/// The end of all that the merge of a span changes; the gap is at the end of the span.
#[tactic(auto, using(crate::proofs::FrontLemmas::growth_cut, crate::proofs::GapLemmas::front_of, crate::proofs::GapLemmas::back_of))]
fn reach(stored: &[hb_glyph_info_t], room: usize, start: usize, end: usize) -> usize
    requires ordered { start < end }
    requires gap { end + room ≤ length stored.now }
    ensures value { result ≡ end + Clusters.growth_right (around end room stored.now) (end - 1)
        (Clusters.least_cluster (slice_range (around end room stored.now) start end)) }
    ensures within { result + room ≤ length stored.now }
{
    end + growth_after(&stored[..end], &stored[end + room..], start)
}

/// Merges a span before the gap, which is after all that changes.
#[tactic(auto, using(crate::proofs::FrontLemmas::merged_front))]
fn merge_before(stored: &mut [hb_glyph_info_t], at: usize, room: usize, start: usize, end: usize)
    requires ordered { start + 1 < end }
    requires within { end ≤ at }
    requires gap { at + room ≤ length stored.old }
    requires holds { end + Clusters.growth_right (around at room stored.old) (end - 1)
        (Clusters.least_cluster (slice_range (around at room stored.old) start end)) ≤ at }
    ensures len { length stored.new ≡ length stored.old }
    ensures merged { around at room stored.new
        ≡ Clusters.merge start end (around at room stored.old) }
{
    merge_items(&mut stored[..at], start, end);
}

/// Merges the clusters of a span, and of the items beside it that share a cluster which changes.
/// Tells where the gap is then.
#[tactic(auto, using(crate::proofs::FrontLemmas::merge_few))]
pub(crate) fn merge_around(
    stored: &mut [hb_glyph_info_t],
    at: usize,
    room: usize,
    start: usize,
    end: usize,
) -> usize
    requires gap { at + room ≤ length stored.old }
    requires ordered { start ≤ end }
    requires within { end + room ≤ length stored.old }
    ensures len { length stored.new ≡ length stored.old }
    ensures gap { result + room ≤ length stored.new }
    ensures merged { around result room stored.new
        ≡ Clusters.merge start end (around at room stored.old) }
{
    if end - start < 2 {
        return at;
    }
    move_gap(stored, at, room, end);
    let reach = reach(stored, room, start, end);
    move_gap(stored, end, room, reach);
    merge_before(stored, reach, room, start, end);
    reach
}

/// Moves the gap after a place, unless it is there. Tells where it is then.
fn gap_after(stored: &mut [hb_glyph_info_t], at: usize, room: usize, end: usize) -> usize
    requires gap { at + room ≤ length stored.old }
    requires within { end + room ≤ length stored.old }
    ensures len { length stored.new ≡ length stored.old }
    ensures gap { result + room ≤ length stored.new }
    ensures after { end ≤ result }
    ensures same { around result room stored.new ≡ around at room stored.old }
{
    if end <= at {
        return at;
    }
    move_gap(stored, at, room, end);
    end
}

/// Marks a span before the gap unsafe to break, except for the items of its least cluster.
#[tactic(auto, using(crate::proofs::FrontLemmas::break_front))]
fn break_before(stored: &mut [hb_glyph_info_t], at: usize, room: usize, start: usize, end: usize)
    requires ordered { start ≤ end }
    requires within { end ≤ at }
    requires gap { at + room ≤ length stored.old }
    ensures len { length stored.new ≡ length stored.old }
    ensures marked { around at room stored.new
        ≡ Clusters.map_range (Clusters.mark_break
        (Clusters.least_cluster (slice_range (around at room stored.old) start end)))
        start end (around at room stored.old) }
{
    mark_break(&mut stored[..at], start, end);
}

/// Marks a span unsafe to break, except for the items of its least cluster. Tells where the gap is
/// then.
pub(crate) fn break_around(
    stored: &mut [hb_glyph_info_t],
    at: usize,
    room: usize,
    start: usize,
    end: usize,
) -> usize
    requires gap { at + room ≤ length stored.old }
    requires ordered { start ≤ end }
    requires within { end + room ≤ length stored.old }
    ensures len { length stored.new ≡ length stored.old }
    ensures gap { result + room ≤ length stored.new }
    ensures marked { around result room stored.new
        ≡ Clusters.map_range (Clusters.mark_break
        (Clusters.least_cluster (slice_range (around at room stored.old) start end)))
        start end (around at room stored.old) }
{
    let place = gap_after(stored, at, room, end);
    break_before(stored, place, room, start, end);
    place
}

/// Marks a span before the gap unsafe to concat.
#[tactic(auto, using(crate::proofs::FrontLemmas::marked_front))]
fn concat_before(stored: &mut [hb_glyph_info_t], at: usize, room: usize, start: usize, end: usize)
    requires ordered { start ≤ end }
    requires within { end ≤ at }
    requires gap { at + room ≤ length stored.old }
    ensures len { length stored.new ≡ length stored.old }
    ensures marked { around at room stored.new
        ≡ Clusters.map_range Clusters.mark_concat start end (around at room stored.old) }
{
    mark_concat(&mut stored[..at], start, end);
}

/// Marks a span unsafe to concat. Tells where the gap is then.
pub(crate) fn concat_around(
    stored: &mut [hb_glyph_info_t],
    at: usize,
    room: usize,
    start: usize,
    end: usize,
) -> usize
    requires gap { at + room ≤ length stored.old }
    requires ordered { start ≤ end }
    requires within { end + room ≤ length stored.old }
    ensures len { length stored.new ≡ length stored.old }
    ensures gap { result + room ≤ length stored.new }
    ensures marked { around result room stored.new
        ≡ Clusters.map_range Clusters.mark_concat start end (around at room stored.old) }
{
    let place = gap_after(stored, at, room, end);
    concat_before(stored, place, room, start, end);
    place
}
