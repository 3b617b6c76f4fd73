//! Devices: what is added to a value or an anchor at the coordinates of a font (OpenType, "Device
//! and VariationIndex tables").
ghost use Rattle.std.specs.Prelude.{◌≡◌, ◌<◌, ◌^◌};
ghost use Rattle.layout_positions.specs.Devices;

use crate::sizes::rounded_at;
use font_sizes::Axis;
use font_variations::deltas::delta;
use font_variations::parts::part_at;
use layout_matching::lookup::Lookup;
use shape_font::bytes::{records, u16_at, u32_at};

/// The Item Variation Store of `GDEF`; empty without one.
fn store(gdef: &[u8]) -> &[u8]
    ensures { result.now ≡ Devices.store_of gdef.now }
{
    if u16_at(gdef, 0) == 1 && 3 <= u16_at(gdef, 2) {
        return part_at(gdef, u32_at(gdef, 14) as usize);
    }
    &[]
}

/// Whether the font is at its default instance, where no device is read.
#[inline(always)]
pub(crate) fn is_default(lookup: &Lookup<'_>) -> bool
    ensures { result ≡ Devices.is_default lookup.now }
{
    lookup.coordinates.is_empty()
}

/// What the set of deltas with this index says at the coordinates, along an axis that may have a
/// size. It is rounded by itself.
fn index_delta(lookup: &Lookup<'_>, axis: Option<Axis>, index: u32) -> i32
    ensures { result ≡ Devices.index_delta lookup.now axis index }
{
    rounded_at(axis, delta(store(lookup.gdef), lookup.coordinates, index))
}

/// What the device at `at` adds along an axis, in units of the face, or of its size. Hints for
/// sizes in pixels add nothing.
fn device_delta(lookup: &Lookup<'_>, axis: Option<Axis>, at: usize) -> i32
    requires { at < 2 ^ 40 }
    ensures { result ≡ Devices.device_delta lookup.now axis at }
{
    let table = lookup.table;
    if at + 6 <= table.len() && u16_at(table, at + 4) == 0x8000 {
        index_delta(lookup, axis, u32_at(table, at))
    } else {
        0
    }
}

/// What the device at an offset from `base` adds along an axis; an offset of 0 is no device.
pub(crate) fn delta_by(lookup: &Lookup<'_>, axis: Option<Axis>, base: usize, offset: u16) -> i32
    requires { base < 2 ^ 39 }
    ensures { result ≡ Devices.delta_by lookup.now axis base offset }
{
    if offset == 0 {
        0
    } else {
        device_delta(lookup, axis, base + usize::from(offset))
    }
}

/// How many columns the set of deltas with this number has; 0 of a NULL offset.
fn columns(store: &[u8], outer: u32) -> u16
    requires { outer < 2 ^ 16 }
    ensures { result ≡ Devices.columns_of store.now outer }
{
    match u32_at(store, 8 + 4 * outer as usize) {
        0 => 0,
        at => u16_at(store, at as usize + 4),
    }
}

/// The most columns of a set of deltas in a store.
#[tactic(auto, using(layout_matching::proofs::PassingLemmas::along_next, layout_matching::proofs::PassingLemmas::along_end))]
fn most_columns(store: &[u8]) -> u16
    ensures { result ≡ Devices.most_columns store.now }
{
    let mut most = 0;
    for outer in 0..records(store, u32::from(u16_at(store, 6)), 8, 4) {
        most = most.max(columns(store, outer));
    }
    most
}

/// What the devices of an item may cost at the coordinates: a step for each column of a set of
/// deltas, and one for each axis of the column's region. A walk pays it for each item. Takes time
/// in step with the store.
pub fn device_work(gdef: &[u8], coordinates: &[i32]) -> u32
    ensures { result ≡ Devices.work_of gdef.now coordinates.now }
{
    let store = store(gdef);
    if coordinates.is_empty() || u16_at(store, 0) != 1 {
        return 0;
    }
    let axes = u32::from(u16_at(store, u32_at(store, 2) as usize));
    u32::from(most_columns(store)) * (1 + axes)
}
