//! Edits of a buffer at a place.
//!
//! Past the end nothing changes, so that no caller has to show that a place is inside.
ghost use Rattle.std.specs.Prelude.{◌≡◌, ◌<◌, ◌≤◌, ◌+◌, length, OnOk, IsErrOf};
ghost use Rattle.shape_items.specs.Buffer.{limit_of};
ghost use Rattle.shape_buffer.specs.declared.buffer.error.ShapeError.TheVariants.{Length};
ghost use Rattle.layout_substitution.specs.Edits;

use bitflags::Flags;
use layout_buffer::GapBuffer;
use layout_matching::tried::Reach;
use shape_buffer::{BufferFlags, ShapeError, hb_glyph_info_t};

/// The item at a place, a new one past the end.
pub fn item(buffer: &GapBuffer, i: usize) -> hb_glyph_info_t
    ensures { result ≡ Edits.item_at buffer.now i }
{
    buffer.items().item(i)
}

/// Replaces the item at a place.
pub(crate) fn put(buffer: &mut GapBuffer, i: usize, item: hb_glyph_info_t)
    ensures { buffer.new ≡ Edits.put_at i item buffer.old }
{
    if i < buffer.len() {
        buffer.set_info(i, item);
    }
}

/// Puts an item in after a place. Refuses as `insert` does.
pub(crate) fn insert_after(
    buffer: &mut GapBuffer,
    i: usize,
    item: hb_glyph_info_t,
) -> Result<(), ShapeError>
    ensures ok { OnOk result (buffer.new ≡ Edits.put_after i item buffer.old) }
    ensures length { IsErrOf result Length → limit_of buffer.old ≤ length buffer.old.items }
    ensures longer { OnOk result (i < length buffer.old.items
        → length buffer.new.items ≡ length buffer.old.items + 1) }
    ensures limit { OnOk result (limit_of buffer.new ≡ limit_of buffer.old) }
{
    if i < buffer.len() {
        buffer.insert(i + 1, item)?;
    }
    Ok(())
}

/// Takes the item at a place out.
pub(crate) fn take_out(buffer: &mut GapBuffer, i: usize)
    ensures { buffer.new ≡ Edits.taken_out i buffer.old }
{
    if i < buffer.len() {
        buffer.remove(i);
    }
}

/// Merges the clusters of a span.
pub(crate) fn merge(buffer: &mut GapBuffer, start: usize, end: usize)
    ensures { buffer.new ≡ Edits.merged start end buffer.old }
{
    if start <= end && end <= buffer.len() {
        buffer.merge_clusters(start, end);
    }
}

/// Marks a span unsafe to break.
#[tactic(auto, using(crate::proofs::EditLemmas::length_broken))]
pub fn break_span(buffer: &mut GapBuffer, start: usize, end: usize)
    ensures made { buffer.new ≡ Edits.broken start end buffer.old }
    ensures as_many { length buffer.new.items ≡ length buffer.old.items }
{
    if start <= end && end <= buffer.len() {
        buffer.unsafe_to_break(start, end);
    }
}

/// Whether the buffer asks for marks of what is unsafe to concat.
pub fn asks_for_concat(buffer: &GapBuffer) -> bool
    ensures { result ≡ Edits.asks_for_concat buffer.now }
{
    buffer
        .flags()
        .contains(BufferFlags::PRODUCE_UNSAFE_TO_CONCAT)
}

/// Marks what was looked at in vain unsafe to concat, if the buffer asks for that.
#[tactic(auto, using(crate::proofs::EditLemmas::length_concat_marked, crate::proofs::EditLemmas::limit_concat_marked))]
pub fn concat_span(buffer: &mut GapBuffer, reach: Reach)
    ensures made { buffer.new ≡ Edits.concat_marked reach buffer.old }
    ensures as_many { length buffer.new.items ≡ length buffer.old.items }
    ensures limit { limit_of buffer.new ≡ limit_of buffer.old }
{
    if reach.from < reach.to && reach.to <= buffer.len() {
        buffer.unsafe_to_concat(reach.from, reach.to);
    }
}

/// The place after one of so many.
pub fn next_place(count: usize, at: usize) -> usize
    requires { at < count }
    ensures { result ≡ at + 1 }
{
    at + 1
}
