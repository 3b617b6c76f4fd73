//! A glyph deleted, as by a substitution of several for one whose list is empty. Its cluster is
//! left to its neighbours.
//!
//! A cluster may be handed to many glyphs before it, and to these again with the next deletion: so
//! each is charged for. What is merged at the first place isn't: it stands at the start in one
//! cluster from then on, so no glyph is grown over twice.
ghost use Rattle.std.specs.Prelude.{◌≡◌, ◌<◌, ◌-◌, length, None, IsTrue};
ghost use Rattle.layout_matching.specs.Loops.{times};
ghost use Rattle.layout_substitution.specs.Applied;
ghost use Rattle.layout_substitution.specs.Edits.{item_at, put_at};
ghost use Rattle.shape_items.specs.Delete.{hand_over};

use crate::apply::Spot;
use crate::edits::{item, merge, put, take_out};
use layout_buffer::GapBuffer;
use shape_buffer::hb_glyph_info_t;

/// Whether the item after has the cluster of the one at `i`.
fn is_left(buffer: &GapBuffer, i: usize) -> bool
    ensures { result ≡ Applied.is_left_in buffer.now i }
{
    i < buffer.len()
        && i + 1 < buffer.len()
        && item(buffer, i + 1).cluster == item(buffer, i).cluster
}

/// Whether the item before `at` stands in the cluster.
fn is_handed(buffer: &GapBuffer, cluster: u32, at: usize) -> bool
    ensures value { result ≡ Applied.is_handed cluster (record { buffer = buffer.now; at = at }) }
    ensures some { IsTrue result → 0 < at }
{
    0 < at && item(buffer, at - 1).cluster == cluster
}

/// The item with the cluster and the defined flags of another one.
fn handed_over(from: &hb_glyph_info_t, to: hb_glyph_info_t) -> hb_glyph_info_t
    ensures { result ≡ hand_over from.now to }
{
    let mut to = to;
    to.cluster = from.cluster;
    to.mask = (to.mask & 0xFFFF_FFF8) | (from.mask & 7);
    to
}

/// Hands the cluster and the defined flags of an item to the one before it.
fn hand_one(buffer: &mut GapBuffer, at: usize)
    requires { 0 < at }
    ensures { buffer.new ≡ put_at (at - 1) (hand_over (item_at buffer.old at) (item_at buffer.old
        (at - 1))) buffer.old }
{
    let there = handed_over(&item(buffer, at), item(buffer, at - 1));
    put(buffer, at - 1, there);
}

/// Hands the cluster and the defined flags of the item at `i` to all items before it that stand in
/// one cluster. Returns where the first of these is.
#[tactic(auto, using(layout_matching::proofs::LoopLemmas::times_step, crate::proofs::CopyLemmas::handed_on))]
fn hand_back(buffer: &mut GapBuffer, cluster: u32, i: usize) -> usize
    ensures { record { buffer = buffer.new; at = result }
        ≡ times (Applied.handed_step cluster) i (record { buffer = buffer.old; at = i }) }
{
    let mut at = i;
    for _k in 0..i {
        if !is_handed(buffer, cluster, at) {
            return at;
        }
        hand_one(buffer, at);
        at -= 1;
    }
    at
}

/// Leaves the cluster of an item that is to go to its neighbours, if it isn't theirs. Returns how
/// many items before it it was handed to.
fn leave_to_neighbours(buffer: &mut GapBuffer, i: usize) -> usize
    requires { i < length buffer.old.items }
    ensures made { buffer.new ≡ Applied.left_to_neighbours i buffer.old }
    ensures handed { result ≡ Applied.handed_count i buffer.old }
{
    let count = buffer.len();
    if count <= i || is_left(buffer, i) {
        return 0;
    }
    if i == 0 {
        merge(buffer, 0, 2);
        return 0;
    }
    let cluster = item(buffer, i - 1).cluster;
    if item(buffer, i).cluster < cluster {
        i.saturating_sub(hand_back(buffer, cluster, i))
    } else {
        0
    }
}

/// Takes an item out, whose cluster is left to its neighbours. Returns how many items before it it
/// was handed to.
fn take_away(buffer: &mut GapBuffer, i: usize) -> usize
    requires { i < length buffer.old.items }
    ensures made { buffer.new ≡ Applied.gone i buffer.old }
    ensures handed { result ≡ Applied.handed_count i buffer.old }
{
    let handed = leave_to_neighbours(buffer, i);
    take_out(buffer, i);
    handed
}

/// Deletes the glyph at the place, unless nothing is left. Returns where the lookup goes on,
/// charged for each glyph that the cluster was handed to.
pub(crate) fn delete(buffer: &mut GapBuffer, spot: Spot) -> Option<Spot>
    requires { spot.at < length buffer.old.items }
    ensures made { buffer.new ≡ (Applied.deleted spot buffer.old).buffer }
    ensures next { result ≡ (Applied.deleted spot buffer.old).next }
    ensures still { result ≡ None → buffer.new ≡ buffer.old }
{
    if spot.left == 0 {
        return None;
    }
    let after = buffer.len().saturating_sub(spot.at + 1);
    let handed = take_away(buffer, spot.at);
    let mut next = spot;
    next.at = buffer.len().saturating_sub(after);
    next.left = spot.left.saturating_sub(handed);
    Some(next)
}
