//! What is added to a number of a font at some coordinates.
ghost use Rattle.std.specs.Prelude.{◌≡◌, ◌<◌, ◌≤◌, ◌^◌, ◌*◌, ◌+◌, IfOk};
ghost use Rattle.font_variations.specs.Deltas;

use crate::regions::{region_count, region_scalar};
use font_bytes::bytes::{i8_at, i16_at, i32_at, u16_at, u32_at};
use std::alloc::{AllocError, Global};
use std::num::{nearest_i32_to_f32, saturating_f32_to_i32};

/// An ItemVariationStore at some coordinates, and scalars of its first regions there, so that a
/// run computes each once. None need be kept.
#[derive(Clone, Copy)]
pub struct StoreAt<'a> {
    bytes: &'a [u8],
    coordinates: &'a [i32],
    scalars: &'a [f32],
    ghost kept: { Deltas.AreScalars bytes.now coordinates.now scalars.now },
}

/// How the numbers of a row are stored.
#[derive(Clone, Copy)]
struct RowShape {
    long: bool,
    wide: u16,
    count: u16,
}

/// The columns of the ItemVariationData at `at`.
fn columns(store: &[u8], at: usize) -> RowShape
    requires { at < 2 ^ 32 }
    ensures long { result.long ≡ Deltas.has_long_words store.now at }
    ensures wide { result.wide ≡ Deltas.wide_count store.now at }
    ensures count { result.count ≡ Deltas.column_count store.now at }
{
    let words = u16_at(store, at + 2);
    RowShape {
        long: 0x8000 <= words,
        wide: words % 0x8000,
        count: u16_at(store, at + 4),
    }
}

/// Where a row stands.
fn row_at(store: &[u8], at: usize, row: u16) -> usize
    requires { at < 2 ^ 32 }
    ensures value { result ≡ Deltas.row_at store.now at row }
    ensures near { result < 2 ^ 36 }
{
    let columns = columns(store, at);
    let unit = if columns.long { 2 } else { 1 };
    let size = (usize::from(columns.wide) + usize::from(columns.count)) * unit;
    at + 6 + 2 * usize::from(columns.count) + size * usize::from(row)
}

/// Whether the table has room for all rows, and no more columns are wide than there are.
fn are_rows(store: &[u8], at: usize) -> bool
    requires { at < 2 ^ 32 }
    ensures { result ≡ Deltas.are_rows store.now at }
{
    let columns = columns(store, at);
    columns.wide <= columns.count && row_at(store, at, u16_at(store, at)) <= store.len()
}

/// The number in a column of the row at `start`.
#[tactic(auto, unfolding(crate::specs::Deltas::delta_in))]
fn delta_in(store: &[u8], long: bool, wide: u16, start: usize, column: u16) -> i32
    requires { start < 2 ^ 36 }
    ensures { result ≡ Deltas.delta_in store.now long wide start column }
{
    let size = if long { 2 } else { 1 };
    if column < wide {
        let at = start + 2 * size * usize::from(column);
        return if long {
            i32_at(store, at)
        } else {
            i16_at(store, at)
        };
    }
    let at = start + size * (usize::from(wide) + usize::from(column));
    if long {
        i16_at(store, at)
    } else {
        i8_at(store, at)
    }
}

/// The scalar of a column's region times its delta.
#[tactic(auto, unfolding(crate::specs::Deltas::part_of))]
fn part(store: &StoreAt<'_>, at: usize, start: usize, column: u16) -> f32
    requires at { at < 2 ^ 32 }
    requires start { start < 2 ^ 36 }
    ensures { result ≡ Deltas.part_of store.now.bytes.now store.now.coordinates.now at start column }
{
    let region = u16_at(store.bytes, at + 6 + 2 * usize::from(column));
    let columns = columns(store.bytes, at);
    let delta = delta_in(store.bytes, columns.long, columns.wide, start, column);
    store.scalar(region) * nearest_i32_to_f32(delta)
}

/// The sum of the parts of the first `count` columns.
#[tactic(auto, using(crate::proofs::ProductLemmas::sum_next, crate::proofs::ProductLemmas::sum_end))]
fn sum(store: &StoreAt<'_>, at: usize, start: usize, count: u16) -> f32
    requires at { at < 2 ^ 32 }
    requires start { start < 2 ^ 36 }
    ensures { result ≡ Deltas.sum_of store.now.bytes.now store.now.coordinates.now at start count }
{
    let mut sum = 0.0;
    for column in 0..count {
        sum += part(store, at, start, column);
    }
    sum
}

/// The sum of a row of the ItemVariationData at `at`; 0 if it has no such row.
fn row_delta(store: &StoreAt<'_>, at: usize, row: u16) -> f32
    requires { at < 2 ^ 32 }
    ensures { result ≡ Deltas.row_delta store.now.bytes.now store.now.coordinates.now at row }
{
    let bytes = store.bytes;
    if row < u16_at(bytes, at) && are_rows(bytes, at) {
        sum(store, at, row_at(bytes, at, row), u16_at(bytes, at + 4))
    } else {
        0.0
    }
}

/// Where the ItemVariationData with this number stands; 0 if the store has none.
fn data_at(store: &[u8], outer: u16) -> usize
    ensures value { result ≡ Deltas.data_at store.now outer }
    ensures near { result < 2 ^ 32 }
{
    u32_at(store, 8 + 4 * usize::from(outer)) as usize
}

/// Whether the store has the ItemVariationData with this number.
fn has_data(store: &[u8], outer: u16) -> bool
    ensures { result ≡ Deltas.has_data store.now outer }
{
    u16_at(store, 0) == 1 && outer < u16_at(store, 6) && 0 < data_at(store, outer)
}

/// The scalars of all regions of an ItemVariationStore at the coordinates, to be kept for a run.
/// There are none if the table doesn't hold the whole list. Refuses only if a growth was refused.
pub fn region_scalars(
    alloc: Global,
    store: &[u8],
    coordinates: &[i32],
) -> Result<Vec<f32>, AllocError>
    ensures { IfOk result (λ scalars. Deltas.AreScalars store.now coordinates.now scalars.items) }
{
    let list = u32_at(store, 2) as usize;
    let mut scalars = Vec::new(alloc);
    for region in 0..region_count(store, list) {
        scalars.push(region_scalar(store, list, coordinates, region))?;
    }
    Ok(scalars)
}

impl<'a> StoreAt<'a> {
    /// A store at the coordinates, with nothing kept.
    pub fn new(bytes: &'a [u8], coordinates: &'a [i32]) -> StoreAt<'a>
        ensures bytes { result.bytes.now ≡ bytes.now }
        ensures coordinates { result.coordinates.now ≡ coordinates.now }
    {
        StoreAt {
            bytes,
            coordinates,
            scalars: &[],
        }
    }

    /// A store at the coordinates, with scalars that were kept, as [`region_scalars`] makes them.
    pub fn with_scalars(bytes: &'a [u8], coordinates: &'a [i32], scalars: &'a [f32]) -> StoreAt<'a>
        requires { Deltas.AreScalars bytes.now coordinates.now scalars.now }
        ensures bytes { result.bytes.now ≡ bytes.now }
        ensures coordinates { result.coordinates.now ≡ coordinates.now }
    {
        StoreAt {
            bytes,
            coordinates,
            scalars,
        }
    }

    /// The scalar of a region: the one that is kept, or computed anew.
    fn scalar(&self, region: u16) -> f32
        ensures { result ≡ Deltas.scalar_of self.now.bytes.now self.now.coordinates.now region }
    {
        let place = usize::from(region);
        if place < self.scalars.len() {
            self.scalars[place]
        } else {
            let list = u32_at(self.bytes, 2) as usize;
            region_scalar(self.bytes, list, self.coordinates, region)
        }
    }

    /// What the delta set with this index says at the coordinates: the outer index stands in the
    /// upper 16 bits. 0 if the store has no such set, and if the table doesn't hold all of its
    /// data. Takes a step for each column of the set, and for each axis of a region whose scalar
    /// isn't kept.
    #[tactic(auto, unfolding(crate::specs::Deltas::delta_of))]
    pub fn delta(&self, index: u32) -> f32
        ensures { result ≡ Deltas.delta_of self.now.bytes.now self.now.coordinates.now index }
    {
        let outer = (index / 65536) as u16;
        if has_data(self.bytes, outer) {
            row_delta(self, data_at(self.bytes, outer), (index % 65536) as u16)
        } else {
            0.0
        }
    }
}

/// What the delta set with this index says at the coordinates, by an ItemVariationStore of which
/// nothing is kept: see [`StoreAt::delta`].
pub fn delta(store: &[u8], coordinates: &[i32], index: u32) -> f32
    ensures { result ≡ Deltas.delta_of store.now coordinates.now index }
{
    StoreAt::new(store, coordinates).delta(index)
}

/// How many steps the delta set with this index takes: one for each column, and for each axis of
/// its region.
pub fn row_steps(store: &[u8], index: u32) -> u32
    ensures { result ≡ Deltas.row_steps store.now index }
{
    let outer = (index / 65536) as u16;
    if !has_data(store, outer) {
        return 0;
    }
    let columns = u16_at(store, data_at(store, outer) + 4);
    let axes = u16_at(store, u32_at(store, 2) as usize);
    u32::from(columns) * (1 + u32::from(axes))
}

/// The same as [`delta`], but 0 for a delta set that takes more than so many steps.
pub fn delta_within(most: u32, store: &[u8], coordinates: &[i32], index: u32) -> f32
    ensures { result ≡ Deltas.delta_within most store.now coordinates.now index }
{
    if row_steps(store, index) <= most {
        delta(store, coordinates, index)
    } else {
        0.0
    }
}

/// To the nearest integer, halves up.
#[tactic(auto, unfolding(crate::specs::Deltas::rounded))]
pub fn rounded(x: f32) -> i32
    ensures { result ≡ Deltas.rounded x }
{
    saturating_f32_to_i32((x + 0.5).floor())
}
