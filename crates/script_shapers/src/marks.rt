//! What hooks that reorder marks share.
ghost use Rattle.std.specs.Prelude.{◌≡◌, ◌<◌, length};
ghost use Rattle.shape_plan.specs.Reorder.{exchanged};

use shape_buffer::buffer::hb_buffer_t;

/// Exchanges two items, and not their positions, which are zeros yet.
pub(crate) fn exchange(buffer: &mut hb_buffer_t, i: usize, j: usize)
    requires first { i < length buffer.old.items }
    requires second { j < length buffer.old.items }
    ensures { buffer.new ≡ exchanged i j buffer.old }
{
    buffer.swap_infos(i, j);
}
