//! Items that change places once they are in one cluster with those that they move past.
ghost use Rattle.std.specs.Prelude.{◌≡◌, ◌<◌, ◌≤◌, ◌+◌, ◌-◌, length};
ghost use Rattle.shape_items.specs.Buffer.{limit_of};
ghost use Rattle.syllabic.specs.Moving;

use shape_buffer::buffer::hb_buffer_t;

/// Exchanges two items; a call of its own, since a lemma says what many of them make.
fn exchange(buffer: &mut hb_buffer_t, i: usize, j: usize)
    requires { (i < length buffer.old.items) × (j < length buffer.old.items) }
    ensures { buffer.new ≡ Moving.exchanged i j buffer.old }
{
    buffer.swap_infos(i, j);
}

/// The item at `from` steps before those from a place up to it. Their clusters should be one by
/// then.
pub fn step_before(buffer: &mut hb_buffer_t, place: usize, from: usize)
    requires ordered { place ≤ from }
    requires within { from < length buffer.old.items }
    ensures { buffer.new ≡ Moving.stepped_before place (from - place) buffer.old }
{
    for stepped in 0..from - place {
        exchange(buffer, from - stepped - 1, from - stepped);
    }
}

/// The item at a place steps after those up to `to`.
pub fn step_after(buffer: &mut hb_buffer_t, place: usize, to: usize)
    requires ordered { place ≤ to }
    requires within { to < length buffer.old.items }
    ensures { buffer.new ≡ Moving.stepped_after place (to - place) buffer.old }
{
    for stepped in 0..to - place {
        exchange(buffer, place + stepped, place + stepped + 1);
    }
}

/// Moves the item at `from` before those from a place up to it, once they are in one cluster.
pub fn bring_before(buffer: &mut hb_buffer_t, place: usize, from: usize)
    requires ordered { place ≤ from }
    requires within { from < length buffer.old.items }
    ensures made { buffer.new ≡ Moving.brought_before place from buffer.old }
    ensures len { length buffer.new.items ≡ length buffer.old.items }
    ensures limit { limit_of buffer.new ≡ limit_of buffer.old }
{
    let _count = buffer.len();
    buffer.merge_clusters(place, from + 1);
    step_before(buffer, place, from);
}

/// Moves the item at a place after those up to `to`, once they are in one cluster.
pub fn send_after(buffer: &mut hb_buffer_t, place: usize, to: usize)
    requires ordered { place ≤ to }
    requires within { to < length buffer.old.items }
    ensures made { buffer.new ≡ Moving.sent_after place to buffer.old }
    ensures len { length buffer.new.items ≡ length buffer.old.items }
    ensures limit { limit_of buffer.new ≡ limit_of buffer.old }
{
    let _count = buffer.len();
    buffer.merge_clusters(place, to + 1);
    step_after(buffer, place, to);
}

/// Reverses items. A call of its own, since lemmas say what it leaves.
pub fn reverse(buffer: &mut hb_buffer_t, start: usize, end: usize)
    requires ordered { start ≤ end }
    requires within { end ≤ length buffer.old.items }
    ensures made { buffer.new ≡ Moving.reversed start end buffer.old }
    ensures len { length buffer.new.items ≡ length buffer.old.items }
    ensures limit { limit_of buffer.new ≡ limit_of buffer.old }
{
    buffer.reverse_range(start, end);
}

/// Moves the items from `from` up to `to` before those from a place up to them, the last one first,
/// once they are in one cluster. Its time is in step with the span, however many items move.
pub fn bring_run_before(buffer: &mut hb_buffer_t, place: usize, from: usize, to: usize)
    requires ordered { place ≤ from }
    requires some { from ≤ to }
    requires within { to ≤ length buffer.old.items }
    ensures made { buffer.new ≡ Moving.run_brought_before place from to buffer.old }
    ensures len { length buffer.new.items ≡ length buffer.old.items }
    ensures limit { limit_of buffer.new ≡ limit_of buffer.old }
{
    let _count = buffer.len();
    buffer.merge_clusters(place, to);
    reverse(buffer, place, to);
    reverse(buffer, place + (to - from), to);
}
