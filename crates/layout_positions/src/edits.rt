//! Edits of a buffer's positions and flags, by places. Past the end nothing changes, so that no
//! caller has to show that a place is inside.
ghost use Rattle.std.specs.Prelude.{◌≡◌, length};
ghost use Rattle.layout_positions.specs.Edits;

use bitflags::Flags;
use shape_buffer::{BufferFlags, GlyphPosition, hb_buffer_t};

/// The position at place `i`, one that moves nothing past the end.
pub fn position(buffer: &hb_buffer_t, i: usize) -> GlyphPosition
    ensures { result ≡ Edits.position_at buffer.now i }
{
    if i < buffer.len() {
        buffer.positions()[i]
    } else {
        GlyphPosition::zero()
    }
}

/// Replaces the position at place `i`.
pub fn put(buffer: &mut hb_buffer_t, i: usize, position: GlyphPosition)
    ensures made { buffer.new ≡ Edits.position_put i position buffer.old }
    ensures items { buffer.new.items ≡ buffer.old.items }
{
    if i < buffer.len() {
        buffer.set_position(i, position);
    }
}

/// Marks the items from `start` up to `end`, or to the end of the list, unsafe to break.
#[tactic(auto, using(crate::proofs::CountLemmas::length_broken))]
pub fn break_between(buffer: &mut hb_buffer_t, start: usize, end: usize)
    ensures made { buffer.new ≡ Edits.broken start end buffer.old }
    ensures len { length buffer.new.items ≡ length buffer.old.items }
{
    let last = end.min(buffer.len());
    if start <= last {
        buffer.unsafe_to_break(start, last);
    }
}

/// Whether the buffer asks for marks of what is unsafe to concat.
pub fn asks_for_concat(buffer: &hb_buffer_t) -> bool
    ensures { result ≡ Edits.asks_for_concat buffer.now }
{
    buffer
        .flags()
        .contains(BufferFlags::PRODUCE_UNSAFE_TO_CONCAT)
}

/// Marks the items from `start` up to `end`, or to the end of the list, unsafe to concat, if the
/// buffer asks for that.
#[tactic(auto, using(crate::proofs::CountLemmas::length_concat_marked))]
pub fn concat_between(buffer: &mut hb_buffer_t, start: usize, end: usize)
    ensures made { buffer.new ≡ Edits.concat_marked start end buffer.old }
    ensures len { length buffer.new.items ≡ length buffer.old.items }
{
    let last = end.min(buffer.len());
    if start <= last {
        buffer.unsafe_to_concat(start, last);
    }
}
