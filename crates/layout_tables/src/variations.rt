//! Feature variations at some coordinates of a font: normalized, in units of 1/16384. Where there
//! are none, it is the default instance.
ghost use Rattle.std.specs.Prelude.{◌≡◌, ◌<◌, ◌^◌, false};
ghost use Rattle.std.specs.Option.{IfSome, ForSome};
ghost use Rattle.shape_font.specs.Search.{first_at};
ghost use Rattle.layout_tables.specs.Variations;

use crate::features::feature;
use crate::offsets::offset32;
use shape_font::bytes::{i16_at, records, u16_at, u32_at};

/// The coordinate of an axis, 0 past the last one that is given.
fn coordinate(coordinates: &[i32], axis: u16) -> i32
    ensures { result ≡ Variations.coordinate_of coordinates.now axis }
{
    if usize::from(axis) < coordinates.len() {
        coordinates[usize::from(axis)]
    } else {
        0
    }
}

/// Whether a coordinate lies within the two numbers of the Condition at `at`.
fn is_within(table: &[u8], coordinates: &[i32], at: usize) -> bool
    requires { at < 2 ^ 38 }
    ensures { result ≡ Variations.is_within table.now coordinates.now at }
{
    let there = coordinate(coordinates, u16_at(table, at + 2));
    i16_at(table, at + 4) <= there && there <= i16_at(table, at + 6)
}

/// Whether the Condition at `at` holds. Format 2, which OpenType does not have, counts by its value
/// at the default instance, and of formats 3 to 5, which it does not have either, none does.
fn condition_holds(table: &[u8], coordinates: &[i32], at: usize) -> bool
    requires { at < 2 ^ 38 }
    ensures { result ≡ Variations.condition_holds table.now coordinates.now at }
{
    match u16_at(table, at) {
        1 => is_within(table, coordinates, at),
        2 => 0 < i16_at(table, at + 2),
        _ => false,
    }
}

/// Whether condition `i` of the ConditionSet at `set` fails.
fn condition_fails(table: &[u8], coordinates: &[i32], set: usize, i: u32) -> bool
    requires { set < 2 ^ 37 }
    ensures { result ≡ Variations.condition_fails table.now coordinates.now set i }
{
    match offset32(table, set, set + 2 + 4 * i as usize) {
        Some(at) => !condition_holds(table, coordinates, at),
        None => true,
    }
}

/// The first of the `count` conditions of the set that fails.
#[tactic(auto, using(shape_font::proofs::SearchLemmas::first_at_next, shape_font::proofs::SearchLemmas::first_at_found, shape_font::proofs::SearchLemmas::first_at_end))]
fn first_failing(table: &[u8], coordinates: &[i32], set: usize, count: u32) -> Option<u32>
    requires { set < 2 ^ 37 }
    ensures { result ≡ first_at (Variations.condition_fails table.now coordinates.now set) count 0 }
{
    for i in 0..count {
        if condition_fails(table, coordinates, set, i) {
            return Some(i);
        }
    }
    None
}

/// Whether all conditions of the ConditionSet at `set` hold. A set of more than 256 conditions does
/// not, so that sets that overlap don't take more work than the bytes that are there.
fn set_holds(table: &[u8], coordinates: &[i32], set: usize) -> bool
    requires { set < 2 ^ 37 }
    ensures { result ≡ Variations.set_holds table.now coordinates.now set }
{
    let count = records(table, u32::from(u16_at(table, set)), set + 2, 4);
    count <= 256 && first_failing(table, coordinates, set, count).is_none()
}

/// Whether record `i` of the FeatureVariations table at `start` holds.
fn record_holds(table: &[u8], coordinates: &[i32], start: usize, i: u32) -> bool
    requires { start < 2 ^ 33 }
    ensures { result ≡ Variations.record_holds table.now coordinates.now start i }
{
    match offset32(table, start, start + 8 + 8 * i as usize) {
        Some(set) => set_holds(table, coordinates, set),
        None => true,
    }
}

/// The first of the `count` records of the FeatureVariations table at `start` that holds.
#[tactic(auto, using(shape_font::proofs::SearchLemmas::first_at_next, shape_font::proofs::SearchLemmas::first_at_found, shape_font::proofs::SearchLemmas::first_at_end))]
fn first_record(table: &[u8], coordinates: &[i32], start: usize, count: u32) -> Option<u32>
    requires { start < 2 ^ 33 }
    ensures { result ≡ first_at (Variations.record_holds table.now coordinates.now start) count 0 }
{
    for i in 0..count {
        if record_holds(table, coordinates, start, i) {
            return Some(i);
        }
    }
    None
}

/// The substitutions of record `i` of the FeatureVariations table at `start`.
fn substitution_at(table: &[u8], start: usize, i: u32) -> Option<usize>
    requires { start < 2 ^ 33 }
    ensures value { result ≡ Variations.substitution_at table.now start i }
    ensures near { IfSome result (λ at. at < 2 ^ 34) }
{
    let at = offset32(table, start, start + 12 + 8 * i as usize)?;
    if u16_at(table, at) == 1 {
        Some(at)
    } else {
        None
    }
}

/// The substitutions of the first record that holds, of the FeatureVariations table at `start`.
fn substitution_in(table: &[u8], coordinates: &[i32], start: usize) -> Option<usize>
    requires { start < 2 ^ 33 }
    ensures value { result ≡ Variations.substitution_in table.now coordinates.now start }
    ensures near { IfSome result (λ at. at < 2 ^ 34) }
{
    if u16_at(table, start) != 1 {
        return None;
    }
    let count = records(table, u32_at(table, start + 4), start + 8, 8);
    let i = first_record(table, coordinates, start, count)?;
    substitution_at(table, start, i)
}

/// Where the FeatureVariations table stands, in a table of version 1.1 or later.
fn feature_variations(table: &[u8]) -> Option<usize>
    ensures value { result ≡ Variations.feature_variations_of table.now }
    ensures near { IfSome result (λ start. start < 2 ^ 32) }
{
    if u16_at(table, 0) == 1 && 1 <= u16_at(table, 2) {
        offset32(table, 0, 10)
    } else {
        None
    }
}

/// Where the FeatureTableSubstitution table stands that counts at the coordinates; none if no
/// feature varies there. Coordinates are normalized, in units of 1/16384; an axis past the last of
/// them is at its default.
pub fn substitution(table: &[u8], coordinates: &[i32]) -> Option<usize>
    ensures value { result ≡ Variations.substitution_of table.now coordinates.now }
    ensures near { IfSome result (λ at. at < 2 ^ 34) }
{
    let start = feature_variations(table)?;
    substitution_in(table, coordinates, start)
}

/// The first of the `count` records at `at` that is for the feature with this index.
#[tactic(auto, using(shape_font::proofs::SearchLemmas::first_at_next, shape_font::proofs::SearchLemmas::first_at_found, shape_font::proofs::SearchLemmas::first_at_end))]
fn first_substitute(table: &[u8], index: u16, at: usize, count: u32) -> Option<u32>
    requires { at < 2 ^ 34 }
    ensures { result ≡ first_at (Variations.is_substitute table.now index at) count 0 }
{
    for i in 0..count {
        if u16_at(table, at + 6 + 6 * i as usize) == index {
            return Some(i);
        }
    }
    None
}

/// The record for the feature with this index, of the FeatureTableSubstitution table at `at`.
fn substitute_in(table: &[u8], index: u16, at: usize) -> Option<u32>
    requires { at < 2 ^ 34 }
    ensures { result ≡ Variations.substitute_in table.now index at }
{
    let count = records(table, u32::from(u16_at(table, at + 4)), at + 6, 6);
    first_substitute(table, index, at, count)
}

/// Where the Feature table of a feature stands, with the substitutions at `at`.
fn varied_in(table: &[u8], index: u16, at: usize) -> Option<usize>
    requires { at < 2 ^ 34 }
    ensures value { result ≡ Variations.varied_in table.now index at }
    ensures near { IfSome result (λ feature. feature < 2 ^ 35) }
{
    match substitute_in(table, index, at) {
        Some(i) => offset32(table, at, at + 8 + 6 * i as usize),
        None => feature(table, index),
    }
}

/// Where the Feature table of the feature with this index stands: the one that takes its place by
/// the FeatureTableSubstitution table at `substitution`, else its own. None if the table has no
/// such feature, or the offset is NULL.
pub fn varied_feature(table: &[u8], substitution: Option<usize>, index: u16) -> Option<usize>
    requires { ForSome substitution (λ at. at < 2 ^ 34) }
    ensures value { result ≡ Variations.varied_feature_of table.now substitution index }
    ensures near { IfSome result (λ feature. feature < 2 ^ 35) }
{
    match substitution {
        Some(at) => varied_in(table, index, at),
        None => feature(table, index),
    }
}
