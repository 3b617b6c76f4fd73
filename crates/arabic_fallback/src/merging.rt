//! What the merging of a ligature's components writes beside them, which it is charged for.
//!
//! Beside the components the walks look at no more items than are charged, and at the one that ends
//! each.
ghost use Rattle.std.specs.Prelude.{◌≡◌, ◌<◌, ◌≤◌, ◌+◌, length};
ghost use Rattle.shape_items.specs.Buffer.{limit_of};
ghost use Rattle.shape_items.specs.Merging.{merged_beside};
ghost use Rattle.arabic_fallback.specs.Merging;

use shape_buffer::BufferClusterLevel;
use shape_buffer::buffer::hb_buffer_t;
use shape_items::clusters::grown_over;

/// What an item costs that is merged beside the components, since it is written anew.
const MERGED: usize = 4;

/// How many items beside the components from `at` to `last` their merging grows over.
fn merged_beside(buffer: &hb_buffer_t, at: usize, last: usize) -> usize
    requires { last < length buffer.now.items }
    ensures { result ≡ merged_beside at last buffer.now }
{
    if buffer.cluster_level() == BufferClusterLevel::Characters {
        return 0;
    }
    grown_over(buffer.infos(), at, last)
}

/// Charges for the merging of the components from `at` to `last`, which is still to come.
pub(crate) fn charge_merging(buffer: &mut hb_buffer_t, at: usize, last: usize)
    requires ordered { at ≤ last }
    requires within { last < length buffer.old.items }
    ensures made { buffer.new ≡ Merging.merging_charged at last buffer.old }
    ensures as_many { length buffer.new.items ≡ length buffer.old.items }
    ensures limit { limit_of buffer.new ≡ limit_of buffer.old }
{
    let merged = merged_beside(buffer, at, last).saturating_mul(MERGED);
    let left = buffer.max_ops().saturating_sub(merged);
    buffer.set_max_ops(left);
}
