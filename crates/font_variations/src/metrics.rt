//! What is added to the metrics of glyphs at some coordinates, by the tables `HVAR` and `VVAR`.
ghost use Rattle.std.specs.Prelude.{◌≡◌, ◌≤◌};
ghost use Rattle.font_variations.specs.Metrics;

use crate::deltas::{delta_within, rounded, row_steps};
use crate::index_maps::mapped;
use crate::parts::part_at;
use font_bytes::bytes::{u16_at, u32_at};

/// How many steps the delta of a glyph's metric takes at most: one for each column of its row, and
/// for each axis of a column's region. A longer row isn't read, so that no font makes a run of many
/// glyphs slow.
pub const MOST_ROW_STEPS: u32 = 8_192;

/// Whether a table `HVAR` or `VVAR` is read: it is of major version 1. An empty one is not.
pub fn has_metrics(table: &[u8]) -> bool
    ensures { result ≡ Metrics.has_metrics table.now }
{
    u16_at(table, 0) == 1
}

/// The delta for a glyph, by the map whose offset stands at `at`.
#[tactic(auto, unfolding(crate::specs::Metrics::metric_delta))]
fn metric_delta(table: &[u8], coordinates: &[i32], at: usize, glyph: u32) -> i32
    requires { at ≤ 20 }
    ensures { result ≡ Metrics.metric_delta table.now coordinates.now at glyph }
{
    let store = part_at(table, u32_at(table, 4) as usize);
    let map = part_at(table, u32_at(table, at) as usize);
    rounded(delta_within(MOST_ROW_STEPS, store, coordinates, mapped(map, glyph)))
}

/// The same, if the map is there.
fn mapped_delta(table: &[u8], coordinates: &[i32], at: usize, glyph: u32) -> Option<i32>
    requires { at ≤ 20 }
    ensures { result ≡ Metrics.mapped_delta table.now coordinates.now at glyph }
{
    if has_metrics(table) && 0 < u32_at(table, at) {
        Some(metric_delta(table, coordinates, at, glyph))
    } else {
        None
    }
}

/// What is added to a glyph's advance at the coordinates, by `HVAR` to the horizontal one, by
/// `VVAR` to the vertical one; 0 if the table is not read, or the row takes more than
/// [`MOST_ROW_STEPS`].
pub fn advance_delta(table: &[u8], coordinates: &[i32], glyph: u32) -> i32
    ensures { result ≡ Metrics.advance_delta table.now coordinates.now glyph }
{
    if has_metrics(table) {
        metric_delta(table, coordinates, 8, glyph)
    } else {
        0
    }
}

/// How many steps [`advance_delta`] takes at most: one for each column of the glyph's row, and for
/// each axis of its region.
pub fn advance_steps(table: &[u8], glyph: u32) -> u32
    ensures value { result ≡ Metrics.advance_steps table.now glyph }
    ensures few { result ≤ 8192 }
{
    if !has_metrics(table) {
        return 0;
    }
    let store = part_at(table, u32_at(table, 4) as usize);
    let map = part_at(table, u32_at(table, 8) as usize);
    row_steps(store, mapped(map, glyph)).min(MOST_ROW_STEPS)
}

/// What is added to a glyph's left bearing by `HVAR`, to its upper one by `VVAR`; none if the
/// table has no map for it.
pub fn bearing_delta(table: &[u8], coordinates: &[i32], glyph: u32) -> Option<i32>
    ensures { result ≡ Metrics.bearing_delta table.now coordinates.now glyph }
{
    mapped_delta(table, coordinates, 12, glyph)
}

/// What is added to the height of a glyph's vertical origin, by `VVAR`, before it is rounded; 0 if
/// the table has no map for it.
#[tactic(auto, unfolding(crate::specs::Metrics::origin_shift))]
pub fn origin_shift(vvar: &[u8], coordinates: &[i32], glyph: u32) -> f32
    ensures { result ≡ Metrics.origin_shift vvar.now coordinates.now glyph }
{
    if !has_metrics(vvar) || u32_at(vvar, 20) == 0 {
        return 0.0;
    }
    let store = part_at(vvar, u32_at(vvar, 4) as usize);
    let map = part_at(vvar, u32_at(vvar, 20) as usize);
    delta_within(MOST_ROW_STEPS, store, coordinates, mapped(map, glyph))
}

/// What is added to the height of a glyph's vertical origin, by `VVAR`; none if the table has no
/// map for it.
pub fn origin_delta(vvar: &[u8], coordinates: &[i32], glyph: u32) -> Option<i32>
    ensures { result ≡ Metrics.origin_delta vvar.now coordinates.now glyph }
{
    mapped_delta(vvar, coordinates, 20, glyph)
}
