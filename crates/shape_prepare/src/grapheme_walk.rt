//! The walk over the graphemes of a buffer.
ghost use Rattle.std.specs.Prelude.{◌≡◌, ◌≤◌, map, drop, length};
ghost use Rattle.shape_items.specs.BufferClusters.{unsafe_to_break};
ghost use Rattle.shape_buffer.specs.Outcome.{Made};
ghost use Rattle.shape_prepare.specs.ClustersFormed.{over_graphemes};
ghost use Rattle.shape_items.specs.GraphemeSpans.{is_continuation, ends};
ghost use Rattle.shape_prepare.specs.GraphemeWalk.{changed};

use shape_buffer::buffer::{hb_buffer_t, hb_glyph_info_t};

/// What is done with each grapheme.
#[derive(Clone, Copy, Debug)]
pub(crate) enum GraphemeChange {
    /// It is marked unsafe to break.
    Mark,
    /// The order of its items is reversed.
    Reverse,
}

impl GraphemeChange {
    /// Makes the change to the items from place `start` up to `end`.
    fn make(self, buffer: &mut hb_buffer_t, start: usize, end: usize)
        requires ordered { start ≤ end }
        requires within { end ≤ length buffer.old.items }
        ensures { buffer.new ≡ changed self start end buffer.old }
    {
        match self {
            GraphemeChange::Mark => mark_unsafe(buffer, start, end),
            GraphemeChange::Reverse => buffer.reverse_range(start, end),
        }
    }
}

/// Marks the items from place `start` up to `end` unsafe to break. One item has no place inside it
/// where a line could be broken, so it is left out before the call.
fn mark_unsafe(buffer: &mut hb_buffer_t, start: usize, end: usize)
    requires ordered { start ≤ end }
    requires within { end ≤ length buffer.old.items }
    ensures { buffer.new ≡ unsafe_to_break start end buffer.old }
{
    if end - start < 2 {
        return;
    }
    buffer.unsafe_to_break(start, end);
}

/// Makes the change to each grapheme, from left to right.
pub(crate) fn each_grapheme(buffer: &mut hb_buffer_t, change: GraphemeChange)
    ensures walked { Made (over_graphemes (changed change)) buffer.old buffer.new }
    ensures as_many { length buffer.old.positions ≡ length buffer.old.items }
{
    let mut start = 0;
    for last in 0..buffer.len() {
        let end = last + 1;
        if ends_grapheme(buffer.infos(), end) {
            change.make(buffer, start, end);
            start = end;
        }
    }
}

/// Whether a grapheme ends before this place.
fn ends_grapheme(infos: &[hb_glyph_info_t], end: usize) -> bool
    requires { end ≤ length infos.now }
    ensures { result ≡ ends (map is_continuation (drop end infos.now)) }
{
    end == infos.len() || !infos[end]._hb_glyph_info_get_continuation()
}
