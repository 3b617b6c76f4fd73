//! What the merging of a ligature's components writes beside them.
//!
//! A cluster may be as long as the text, and may be merged again with each ligature: so each item
//! beside the components is charged for. Beside the components the walks look at no more items than
//! are charged, and at the one that ends each.
ghost use Rattle.std.specs.Prelude.{◌≡◌, ◌<◌, ◌≤◌, ◌+◌, ◌-◌, drop, length, slice_range, take};
ghost use Rattle.std.specs.List.{prefix_len, suffix_len};
ghost use Rattle.layout_substitution.specs.Ligatures;
ghost use Rattle.shape_items.specs.Clusters;
ghost use Rattle.shape_items.specs.Merging;
ghost use Rattle.shape_items.specs.Items.{has_cluster};

use crate::apply::Spot;
use layout_buffer::{GapBuffer, ItemList};
use shape_buffer::BufferClusterLevel;

/// The least cluster of a span that ends with `last`.
#[tactic(auto, using(crate::proofs::MergingLemmas::least_first, crate::proofs::MergingLemmas::least_next))]
fn least_cluster(items: &ItemList<'_>, at: usize, last: usize) -> u32
    requires ordered { at ≤ last }
    requires within { last < length items.now }
    ensures { result ≡ Clusters.least_cluster (slice_range items.now at (last + 1)) }
{
    let mut least = items.at(at).cluster;
    for i in items.place_after(at)..items.place_after(last) {
        least = least.min(items.at(i).cluster);
    }
    least
}

/// How many items directly before a place stand in the cluster.
fn count_before(items: &ItemList<'_>, at: usize, cluster: u32) -> usize
    requires { at ≤ length items.now }
    ensures { result ≡ suffix_len (has_cluster cluster) (take at items.now) }
{
    for n in 0..at {
        if items.at(at - n - 1).cluster != cluster {
            return n;
        }
    }
    at
}

/// How many items from a place on stand in the cluster.
fn count_from(items: &ItemList<'_>, from: usize, cluster: u32) -> usize
    requires { from ≤ length items.now }
    ensures { result ≡ prefix_len (has_cluster cluster) (drop from items.now) }
{
    for i in from..items.len() {
        if items.at(i).cluster != cluster {
            return i - from;
        }
    }
    items.len() - from
}

/// How many items before a span of that least cluster its merging grows over.
#[tactic(auto, using(crate::proofs::MergingLemmas::cluster_there))]
fn growth_left(items: &ItemList<'_>, start: usize, least: u32) -> usize
    requires { start < length items.now }
    ensures { result ≡ Clusters.growth_left items.now start least }
{
    let first = items.at(start).cluster;
    if first == least {
        return 0;
    }
    count_before(items, start, first)
}

/// How many items after a span of that least cluster, which ends with `last`, its merging grows
/// over.
#[tactic(auto, using(crate::proofs::MergingLemmas::cluster_there))]
fn growth_right(items: &ItemList<'_>, last: usize, least: u32) -> usize
    requires { last < length items.now }
    ensures { result ≡ Clusters.growth_right items.now last least }
{
    let cluster = items.at(last).cluster;
    if cluster == least {
        return 0;
    }
    count_from(items, items.place_after(last), cluster)
}

/// What is left of so much after the components from `at` to `last` were merged.
fn left_when_merged(buffer: &GapBuffer, at: usize, last: usize, left: usize) -> usize
    requires { last < length buffer.now.items }
    ensures { result ≡ left - Merging.merged_beside at last buffer.now }
{
    if last <= at || buffer.cluster_level() == BufferClusterLevel::Characters {
        return left;
    }
    let items = buffer.items();
    let least = least_cluster(&items, at, last);
    let before = growth_left(&items, at, least);
    let after = growth_right(&items, last, least);
    left.saturating_sub(before).saturating_sub(after)
}

/// The spot, charged for the merging of the components up to `last`, which is still to come.
pub(crate) fn charge_merging(buffer: &GapBuffer, spot: Spot, last: usize) -> Spot
    requires { last < length buffer.now.items }
    ensures { result ≡ Ligatures.merging_charged last buffer.now spot }
{
    let mut paid = spot;
    paid.left = left_when_merged(buffer, spot.at, last, spot.left);
    paid
}
