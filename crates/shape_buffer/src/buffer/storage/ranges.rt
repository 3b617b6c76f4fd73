//! Calls that write a part of the list in place.
ghost use Rattle.std.specs.Prelude.{◌≡◌, ◌≤◌, length, replicate};

use crate::buffer::storage::edits::make_zeros;
use crate::buffer::storage::hb_buffer_t;

impl hb_buffer_t {
    ghost use Rattle.shape_common.specs.Positions.{zero_position};
    ghost use Rattle.shape_buffer.specs.Ranges.{reversed_range};

    /// Reverses the order of the items from `start` up to `end`, and that of their positions with
    /// it. Takes no memory.
    pub fn reverse_range(&mut self, start: usize, end: usize)
        requires ordered { start ≤ end }
        requires within { end ≤ length self.old.items }
        ensures { self.new ≡ record self.old {
          items = reversed_range start end self.old.items;
          positions = reversed_range start end self.old.positions;
        } }
    {
        self.has_positions = true;
        self.infos[start..end].reverse();
        self.positions[start..end].reverse();
    }

    /// Makes every position zeros. Takes no memory, and writes nothing if all of them are.
    pub fn clear_positions(&mut self)
        ensures { self.new ≡ record self.old {
          positions = replicate (length self.old.items) zero_position;
        } }
    {
        make_zeros(self.has_positions, self.positions.as_mut_slice());
        self.has_positions = false;
    }
}
