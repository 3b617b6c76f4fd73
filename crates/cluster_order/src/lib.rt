//! Clusters put in order: each joins the least one from it on, as the text runs.
//!
//! A shaper that moves glyphs and merges their clusters later leaves clusters out of order between
//! two of its hooks. [`order_clusters`] is what its last hook calls: whatever was left, clusters
//! are in order then, and those that were in order stay as they are.
#![tactic(auto)]

ghost use Rattle.std.specs.Prelude.{◌≡◌, ◌<◌, ◌+◌, length, drop, slice_index_or, slice_set};
ghost use Rattle.cluster_order.specs.Ordered.{clusters_ordered, joined_ahead, joined_for, joined_to};
ghost use Rattle.shape_buffer.specs.Outcome.{Made};
ghost use Rattle.shape_items.specs.Items.{new_item};

pub mod laws;
pub mod worked;

use shape_buffer::buffer::{BufferClusterLevel, DEFINED, hb_buffer_t};

/// Puts the clusters of a buffer in order, rising, or falling if `backward`: each item joins the
/// least cluster from it on, or up to it if `backward`. An item whose cluster changes loses its
/// defined flags. Nothing happens at level CHARACTERS, and to a list in order. Takes no memory.
#[tactic(auto, using(crate::proofs::OrderedLemmas::length_joined_for), unfolding(crate::specs::Ordered::clusters_ordered))]
pub fn order_clusters(buffer: &mut hb_buffer_t, backward: bool)
    ensures { Made (clusters_ordered backward) buffer.old buffer.new }
{
    match buffer.cluster_level() {
        BufferClusterLevel::MonotoneGraphemes => join(buffer, backward),
        BufferClusterLevel::MonotoneCharacters => join(buffer, backward),
        BufferClusterLevel::Characters => {}
    }
}

/// Puts each item in the least cluster from it on, or up to it if `backward`.
#[tactic(auto, using(crate::proofs::OrderedLemmas::turned_twice))]
fn join(buffer: &mut hb_buffer_t, backward: bool)
    ensures { buffer.new ≡ record buffer.old { items = joined_for backward buffer.old.items } }
{
    if backward {
        buffer.reverse();
        join_ahead(buffer);
        buffer.reverse();
    } else {
        join_ahead(buffer);
    }
}

/// Puts each item in the least cluster from it on.
fn join_ahead(buffer: &mut hb_buffer_t)
    ensures { buffer.new ≡ record buffer.old { items = joined_ahead buffer.old.items } }
{
    let len = buffer.len();
    for done in 0..len {
        join_to_next(buffer, len - 1 - done);
    }
}

/// Puts an item in the cluster of the next one, if that is less.
fn join_to_next(buffer: &mut hb_buffer_t, i: usize)
    requires { i < length buffer.old.items }
    ensures { buffer.new ≡ record buffer.old {
      items = slice_set buffer.old.items i
          (joined_to (slice_index_or buffer.old.items i (new_item 0 0))
          (drop (i + 1) buffer.old.items));
    } }
{
    let infos = buffer.infos();
    if infos.len() - 1 <= i {
        return;
    }
    let least = infos[i + 1].cluster;
    if least < infos[i].cluster {
        let mut item = infos[i];
        item.cluster = least;
        item.mask &= !DEFINED;
        buffer.set_info(i, item);
    }
}
