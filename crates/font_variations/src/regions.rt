//! Regions of the space of a font's axes.
ghost use Rattle.std.specs.Prelude.{◌≡◌, ◌<◌, ◌^◌};
ghost use Rattle.font_variations.specs.Laws.{IsPart};
ghost use Rattle.font_variations.specs.Regions;

use crate::tents::Tent;
use font_bytes::bytes::{i16_at, u16_at};

/// The coordinate of an axis, 0 past the last one that is given.
pub fn coordinate(coordinates: &[i32], axis: usize) -> i32
    ensures { result ≡ Regions.coordinate_of coordinates.now axis }
{
    if axis < coordinates.len() {
        coordinates[axis]
    } else {
        0
    }
}

/// The scalar of an axis of the region whose records stand at `at`.
#[tactic(auto, unfolding(crate::specs::Regions::axis_scalar))]
fn axis_scalar(table: &[u8], coordinates: &[i32], at: usize, axis: u16) -> f32
    requires { at < 2 ^ 38 }
    ensures value { result ≡ Regions.axis_scalar table.now coordinates.now at axis }
    ensures part { IsPart result }
{
    let record = at + 6 * usize::from(axis);
    let tent = Tent {
        start: i16_at(table, record),
        peak: i16_at(table, record + 2),
        end: i16_at(table, record + 4),
    };
    tent.scalar(coordinate(coordinates, usize::from(axis)))
}

/// The product of the scalars of the first `count` axes of the region whose records stand at `at`.
#[tactic(auto, using(crate::proofs::ProductLemmas::product_next, crate::proofs::ProductLemmas::product_none, crate::proofs::ProductLemmas::product_end, crate::proofs::PartLemmas::nothing_part, crate::proofs::PartLemmas::whole_part, crate::proofs::PartLemmas::mul_part))]
fn product(table: &[u8], coordinates: &[i32], at: usize, count: u16) -> f32
    requires { at < 2 ^ 38 }
    ensures value { result ≡ Regions.product_of table.now coordinates.now at count }
    ensures part { IsPart result }
{
    let mut product = 1.0;
    for axis in 0..count {
        let scalar = axis_scalar(table, coordinates, at, axis);
        if scalar == 0.0 {
            return 0.0;
        }
        product *= scalar;
    }
    product
}

/// Where the records of a region stand.
fn region_at(table: &[u8], list: usize, region: u16) -> usize
    requires { list < 2 ^ 33 }
    ensures value { result ≡ Regions.region_at table.now list region }
    ensures near { result < 2 ^ 38 }
{
    list + 4 + 6 * (usize::from(u16_at(table, list)) * usize::from(region))
}

/// How many regions the VariationRegionList at `list` has; none if the table doesn't hold all of
/// it.
pub fn region_count(table: &[u8], list: usize) -> u16
    requires { list < 2 ^ 33 }
    ensures { result ≡ Regions.region_count table.now list }
{
    let regions = u16_at(table, list + 2);
    if region_at(table, list, regions) <= table.len() {
        regions
    } else {
        0
    }
}

/// How far the region with this number of the VariationRegionList at `list` takes part at the
/// coordinates, from 0 to 1. 0 if there is no such region, and if the table doesn't hold the whole
/// list. Takes a step for each axis of the list.
#[tactic(auto, using(crate::proofs::PartLemmas::nothing_part), unfolding(crate::specs::Regions::region_scalar))]
pub fn region_scalar(table: &[u8], list: usize, coordinates: &[i32], region: u16) -> f32
    requires { list < 2 ^ 33 }
    ensures value { result ≡ Regions.region_scalar table.now list coordinates.now region }
    ensures part { IsPart result }
{
    let regions = u16_at(table, list + 2);
    if region_at(table, list, regions) <= table.len() && region < regions {
        product(
            table,
            coordinates,
            region_at(table, list, region),
            u16_at(table, list),
        )
    } else {
        0.0
    }
}
