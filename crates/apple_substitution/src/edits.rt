//! Edits of a list at a place.
//!
//! Past the end nothing changes, so that no caller has to show that a place is inside.
ghost use Rattle.std.specs.Prelude.{◌≡◌, ◌≢◌, ◌<◌, ◌≤◌, ◌+◌, ◌++◌, length, min, nat_le};
ghost use Rattle.std.specs.Prelude.{slice_range, OnOk, IsOkUnless};
ghost use Rattle.shape_items.specs.ClusterOrder.{IsMonotoneLevel};
ghost use Rattle.apple_substitution.specs.Edits;

use layout_buffer::GapBuffer;
use shape_buffer::{BufferClusterLevel, ShapeError, hb_glyph_info_t};

/// The item at a place, a new one past the end.
pub(crate) fn item(buffer: &GapBuffer, i: usize) -> hb_glyph_info_t
    ensures { result ≡ Edits.item_at buffer.now i }
{
    buffer.items().item(i)
}

/// Replaces the item at a place.
pub(crate) fn put(buffer: &mut GapBuffer, i: usize, item: hb_glyph_info_t)
    ensures { buffer.new ≡ Edits.put_at i item buffer.old }
{
    if i < buffer.len() {
        buffer.set_info(i, item);
    }
}

/// Puts other items in place of those from a place on.
#[tactic(auto, using(crate::proofs::EditLemmas::written_more, crate::proofs::EditLemmas::written_all, crate::proofs::EditLemmas::length_put))]
pub(crate) fn write(buffer: &mut GapBuffer, at: usize, items: &[hb_glyph_info_t])
    requires { at + length items.now ≤ length buffer.old.items }
    ensures { buffer.new ≡ Edits.written at items.now buffer.old }
{
    // each place is one of the list, and so a number that fits
    let count = buffer.len();
    prove!(at <= count);
    for i in 0..items.len() {
        put(buffer, at + i, items[i]);
    }
}

/// Copies the items of a span behind others. Refuses with `Memory` alone, if a growth was refused.
#[tactic(auto, using(crate::proofs::EditLemmas::span_more, crate::proofs::EditLemmas::range_none))]
pub(crate) fn push_span(
    items: &mut Vec<hb_glyph_info_t>,
    buffer: &GapBuffer,
    start: usize,
    end: usize,
) -> Result<(), ShapeError>
    requires ordered { start ≤ end }
    requires within { end ≤ length buffer.now.items }
    ensures ok { OnOk result (items.new.items
        ≡ items.old.items ++ slice_range buffer.now.items start end) }
    ensures memory { IsOkUnless result ShapeError.Memory }
{
    for i in start..end {
        items.push(item(buffer, i))?;
    }
    Ok(())
}

/// Merges the clusters of a span.
pub(crate) fn merge(buffer: &mut GapBuffer, start: usize, end: usize)
    ensures made { buffer.new ≡ Edits.merged start end buffer.old }
    ensures as_many { length buffer.new.items ≡ length buffer.old.items }
{
    if start <= end && end <= buffer.len() {
        buffer.merge_clusters(start, end);
    }
}

/// A cluster other than one.
fn other_than(cluster: u32) -> u32
    ensures { result ≢ cluster }
{
    if cluster == 0 { 1 } else { 0 }
}

/// Merges the clusters of a span that stands behind other items. A new item of another cluster
/// stands in for the one before it meanwhile, so that the merge takes in none of them.
#[tactic(auto, using(crate::proofs::OnwardsLemmas::merged_apart))]
fn merge_behind(buffer: &mut GapBuffer, start: usize, end: usize)
    requires behind { 0 < start }
    requires ordered { start ≤ end }
    requires within { end ≤ length buffer.old.items }
    requires monotone { IsMonotoneLevel buffer.old.cluster_level }
    ensures made { buffer.new ≡ Edits.onwards start end buffer.old }
    ensures as_many { length buffer.new.items ≡ length buffer.old.items }
{
    let before = item(buffer, start - 1);
    let first = item(buffer, start);
    let stand_in = hb_glyph_info_t::new('\0', other_than(first.cluster));
    buffer.set_info(start - 1, stand_in);
    buffer.merge_clusters(start, end);
    buffer.set_info(start - 1, before);
}

/// Merges the clusters of a span, and of what follows it in the cluster of its last item. What
/// stands before it stays, even in the cluster of its first item.
#[tactic(auto, using(crate::proofs::OnwardsLemmas::merged_first, crate::proofs::OnwardsLemmas::marked_onwards))]
pub(crate) fn merge_onwards(buffer: &mut GapBuffer, start: usize, end: usize)
    ensures made { buffer.new ≡ Edits.merged_onwards start end buffer.old }
    ensures as_many { length buffer.new.items ≡ length buffer.old.items }
{
    if start > end || end > buffer.len() {
        return;
    }
    if start == 0 || buffer.cluster_level() == BufferClusterLevel::Characters {
        buffer.merge_clusters(start, end);
    } else {
        merge_behind(buffer, start, end);
    }
}

/// Marks a span unsafe to break.
pub(crate) fn break_span(buffer: &mut GapBuffer, start: usize, end: usize)
    ensures { buffer.new ≡ Edits.broken start end buffer.old }
{
    if start <= end && end <= buffer.len() {
        buffer.unsafe_to_break(start, end);
    }
}

/// Whether the list is longer than the run may make it.
pub(crate) fn is_past(buffer: &GapBuffer) -> bool
    ensures { result ≡ Edits.is_past buffer.now }
{
    buffer.length_limit() < buffer.len()
}

/// The place after one of so many.
pub(crate) fn next_place(count: usize, at: usize) -> usize
    requires { at < count }
    ensures { result ≡ at + 1 }
{
    at + 1
}

/// The place after one, or the end of a list of so many.
pub(crate) fn place_after(count: usize, at: usize) -> usize
    ensures { result ≡ min (at + 1) count }
{
    if at < count { at + 1 } else { count }
}

/// Takes of what lookups may still ask for what something costs. Tells whether it sufficed.
pub(crate) fn charge(buffer: &mut GapBuffer, work: usize) -> bool
    ensures paid { result ≡ nat_le work buffer.old.max_ops }
    ensures left { buffer.new ≡ Edits.charged work buffer.old }
{
    let left = buffer.max_ops();
    buffer.set_max_ops(left.saturating_sub(work));
    work <= left
}
