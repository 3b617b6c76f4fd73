//! The clusters of a result, each with its glyphs.
ghost use Rattle.std.specs.Prelude.{◌≡◌, ◌≤◌, length, slice_range, IfOk};
ghost use Rattle.shape_common.specs.FlagNames.{UNSAFE_TO_BREAK};
ghost use Rattle.shape_items.specs.Flags.{cluster_runs};
ghost use Rattle.shape_items.specs.GlyphClusters;
ghost use Rattle.shape_items.specs.PreservesFlags.{some_has};

use crate::clusters::count_at_start;
use crate::items::hb_glyph_info_t;
use shape_common::wrapping::sum;
use shape_common::{Direction, GlyphPosition};
use std::alloc::{AllocError, Global};

/// A cluster of a result: the glyphs from place `start` up to `end`, whose cluster it is.
#[derive(Clone, Copy, PartialEq, Eq, Debug)]
pub struct GlyphCluster {
    /// Where its text begins.
    pub cluster: u32,
    /// The place of its first glyph in the result.
    pub start: usize,
    /// The place after its last glyph.
    pub end: usize,
    /// How far its glyphs move the pen along the line, modulo 2^32, in units of the face.
    pub advance: i32,
    /// Whether a line mustn't be cut before its text unless both sides are shaped again.
    pub unsafe_to_break: bool,
}

/// The clusters of glyphs, each with its glyphs, in the order of the list.
pub fn clusters_in_order(
    alloc: Global,
    infos: &[hb_glyph_info_t],
    positions: &[GlyphPosition],
    direction: Direction,
) -> Result<Vec<GlyphCluster>, AllocError>
    requires { length positions.now ≡ length infos.now }
    ensures { IfOk result (λ clusters. clusters.items
        ≡ GlyphClusters.clusters_of direction positions.now 0 (cluster_runs infos.now)) }
{
    let mut clusters: Vec<GlyphCluster> = Vec::new(alloc);
    let mut start = 0;
    for _ in 0..infos.len() {
        if start == infos.len() {
            return Ok(clusters);
        }
        let end = start + run_length(&infos[start..]);
        clusters.push(cluster_between(infos, positions, direction, start, end))?;
        start = end;
    }
    Ok(clusters)
}

/// How many glyphs from the first one on have its cluster.
fn run_length(infos: &[hb_glyph_info_t]) -> usize
    ensures value { result ≡ GlyphClusters.run_length infos.now }
    ensures within { result ≤ length infos.now }
{
    match infos.first() {
        None => 0,
        Some(first) => count_at_start(infos, first.cluster),
    }
}

/// The cluster of the glyphs from place `start` up to `end`, which share it.
fn cluster_between(
    infos: &[hb_glyph_info_t],
    positions: &[GlyphPosition],
    direction: Direction,
    start: usize,
    end: usize,
) -> GlyphCluster
    requires ordered { start ≤ end }
    requires within { end ≤ length infos.now }
    requires as_many { length positions.now ≡ length infos.now }
    ensures { result
        ≡ GlyphClusters.cluster_of direction positions.now start (slice_range infos.now start end) }
{
    let run = &infos[start..end];
    GlyphCluster {
        cluster: first_cluster(run),
        start,
        end,
        advance: advance_over(direction, &positions[start..end]),
        unsafe_to_break: any_unsafe(run),
    }
}

/// Whether one of the glyphs is unsafe to break.
fn any_unsafe(infos: &[hb_glyph_info_t]) -> bool
    ensures { result ≡ some_has UNSAFE_TO_BREAK infos.now }
{
    infos.iter().any(|info| info.unsafe_to_break())
}

/// The cluster of the first of some glyphs, 0 for none.
fn first_cluster(infos: &[hb_glyph_info_t]) -> u32
    ensures { result ≡ GlyphClusters.first_cluster infos.now }
{
    match infos.first() {
        None => 0,
        Some(first) => first.cluster,
    }
}

/// How far some positions move the pen along a line, modulo 2^32.
fn advance_over(direction: Direction, positions: &[GlyphPosition]) -> i32
    ensures { result ≡ GlyphClusters.advance_over direction positions.now }
{
    let mut total = 0;
    for position in positions {
        total = sum(total, advance_along(direction, position));
    }
    total
}

/// How far a position moves the pen along a line.
fn advance_along(direction: Direction, position: &GlyphPosition) -> i32
    ensures { result ≡ GlyphClusters.advance_along direction position.now }
{
    if direction.is_vertical() {
        position.y_advance
    } else {
        position.x_advance
    }
}
