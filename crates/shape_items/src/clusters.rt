//! Merging of clusters and marking of items, over slices.
//!
//! A cluster leads from glyphs back to the text: glyphs of one cluster come from one piece of it.
//! If items of several clusters are mixed they are merged into the least one, and so are the items
//! beside them that stood in a cluster which is now partly gone.
//!
//! Merging depends on clusters alone, and is defined on items: the code counts and writes items,
//! and a definition on the list of clusters would have to be tied to them. That an item stays
//! except for its cluster and defined flags is one lemma either way.
ghost use Rattle.std.specs.Prelude.{◌≡◌, ◌+◌, ◌≤◌, ◌<◌, length, map, slice_range};
ghost use Rattle.std.specs.List.{prefix_len, suffix_len};
ghost use Rattle.shape_items.specs.ClusterOrder.{PreservesClusters};
ghost use Rattle.shape_items.specs.Items.{has_cluster, put_in};
ghost use Rattle.shape_items.specs.Clusters;
ghost use Rattle.shape_items.specs.Merging;

mod delete;
mod each_span;
mod glyph_clusters;
mod unwritten;

use crate::items::{SAFE_TO_INSERT_TATWEEL, UNSAFE_TO_BREAK, UNSAFE_TO_CONCAT, hb_glyph_info_t};
pub use delete::delete_items;
pub use each_span::{merge_each, merge_graphemes};
pub use glyph_clusters::{GlyphCluster, clusters_in_order};

/// The least cluster, 0 for no items.
pub fn least_cluster(infos: &[hb_glyph_info_t]) -> u32
    ensures { result ≡ Clusters.least_cluster infos.now }
{
    match infos.split_first() {
        None => 0,
        Some((first, rest)) => rest
            .iter()
            .fold(first.cluster, |least, info| least.min(info.cluster)),
    }
}

/// How many items at the beginning have the cluster.
pub fn count_at_start(infos: &[hb_glyph_info_t], cluster: u32) -> usize
    ensures { result ≡ prefix_len (has_cluster cluster) infos.now }
{
    infos
        .iter()
        .take_while(|info| info.cluster == cluster)
        .count()
}

/// How many items at the end have the cluster.
pub(crate) fn count_at_end(infos: &[hb_glyph_info_t], cluster: u32) -> usize
    ensures { result ≡ suffix_len (has_cluster cluster) infos.now }
{
    infos
        .iter()
        .rev()
        .take_while(|info| info.cluster == cluster)
        .count()
}

/// How many items directly before a span of that least cluster the merge takes in.
fn growth_left(infos: &[hb_glyph_info_t], start: usize, least: u32) -> usize
    requires { start < length infos.now }
    ensures value { result ≡ Clusters.growth_left infos.now start least }
    ensures within { result ≤ start }
{
    let first = infos[start].cluster;
    if first == least {
        return 0;
    }
    count_at_end(&infos[..start], first)
}

/// How many items directly after a span of that least cluster, which ends with `last`, the merge
/// takes in.
pub(super) fn growth_right(infos: &[hb_glyph_info_t], last: usize, least: u32) -> usize
    requires { last < length infos.now }
    ensures value { result ≡ Clusters.growth_right infos.now last least }
    ensures within { last + result < length infos.now }
{
    let cluster = infos[last].cluster;
    if cluster == least {
        return 0;
    }
    count_at_start(&infos[last + 1..], cluster)
}

/// How many items beside the span from `at` to `last`, both in it, its merging writes.
pub fn grown_over(infos: &[hb_glyph_info_t], at: usize, last: usize) -> usize
    requires { last < length infos.now }
    ensures { result ≡ Merging.grown_over at last infos.now }
{
    if last <= at {
        return 0;
    }
    let least = least_cluster(&infos[at..last + 1]);
    growth_left(infos, at, least) + growth_right(infos, last, least)
}

/// Puts every item into one cluster.
pub(super) fn put_all_in(infos: &mut [hb_glyph_info_t], cluster: u32)
    ensures { infos.new ≡ map (put_in cluster) infos.old }
{
    for info in infos.iter_mut() {
        info.put_in(cluster);
    }
}

/// Merges the clusters of a span, and of the items beside it that share a cluster which changes.
pub fn merge_items(infos: &mut [hb_glyph_info_t], start: usize, end: usize)
    requires ordered { start ≤ end }
    requires within { end ≤ length infos.old }
    ensures merged { infos.new ≡ Clusters.merge start end infos.old }
    ensures order { PreservesClusters (Clusters.clusters infos.old) (Clusters.clusters infos.new) }
{
    if end - start < 2 {
        return;
    }
    let items: &[hb_glyph_info_t] = infos;
    let least = least_cluster(&items[start..end]);
    let from = start - growth_left(items, start, least);
    let to = end + growth_right(items, end - 1, least);
    put_all_in(&mut infos[from..to], least);
}

/// Marks the items of a span unsafe to break, except for those of its least cluster.
pub fn mark_break(infos: &mut [hb_glyph_info_t], start: usize, end: usize)
    requires ordered { start ≤ end }
    requires within { end ≤ length infos.old }
    ensures { infos.new
        ≡ Clusters.map_range (Clusters.mark_break (Clusters.least_cluster
        (slice_range infos.old start end)))
        start end infos.old }
{
    let items: &[hb_glyph_info_t] = infos;
    let least = least_cluster(&items[start..end]);
    mark_all_break(&mut infos[start..end], least);
}

/// Marks the items of a span safe to insert tatweel, except for those of its least cluster.
pub fn mark_tatweel(infos: &mut [hb_glyph_info_t], start: usize, end: usize)
    requires ordered { start ≤ end }
    requires within { end ≤ length infos.old }
    ensures { infos.new
        ≡ Clusters.map_range (Clusters.mark_tatweel (Clusters.least_cluster
        (slice_range infos.old start end)))
        start end infos.old }
{
    let items: &[hb_glyph_info_t] = infos;
    let least = least_cluster(&items[start..end]);
    mark_all_tatweel(&mut infos[start..end], least);
}

/// Marks the items of a span unsafe to concat.
pub fn mark_concat(infos: &mut [hb_glyph_info_t], start: usize, end: usize)
    requires ordered { start ≤ end }
    requires within { end ≤ length infos.old }
    ensures { infos.new ≡ Clusters.map_range Clusters.mark_concat start end infos.old }
{
    mark_all_concat(&mut infos[start..end]);
}

fn mark_all_break(infos: &mut [hb_glyph_info_t], least: u32)
    ensures { infos.new ≡ map (Clusters.mark_break least) infos.old }
{
    for info in infos.iter_mut() {
        if info.cluster != least {
            info.mask |= UNSAFE_TO_BREAK | UNSAFE_TO_CONCAT;
        }
    }
}

fn mark_all_tatweel(infos: &mut [hb_glyph_info_t], least: u32)
    ensures { infos.new ≡ map (Clusters.mark_tatweel least) infos.old }
{
    for info in infos.iter_mut() {
        if info.cluster != least {
            info.mask |= SAFE_TO_INSERT_TATWEEL;
        }
    }
}

fn mark_all_concat(infos: &mut [hb_glyph_info_t])
    ensures { infos.new ≡ map Clusters.mark_concat infos.old }
{
    for info in infos.iter_mut() {
        info.mask |= UNSAFE_TO_CONCAT;
    }
}
