//! Anchors, the marks that have one, and the glyphs that marks attach to (OpenType, `GPOS`, "Anchor
//! tables", "Mark array").
ghost use Rattle.std.specs.Prelude.{◌≡◌, ◌<◌, ◌≤◌, ◌^◌};
ghost use Rattle.std.specs.Option.{IfSome};
ghost use Rattle.layout_positions.specs.Anchors;

use crate::devices::{delta_by, is_default};
use crate::places::cell;
use crate::sizes::{ORIGIN, axis_across, axis_up};
use layout_matching::lookup::Lookup;
use layout_tables::coverage::coverage_index;
use layout_tables::offsets::offset16;
use shape_buffer::wrapping::sum;
use shape_font::bytes::{i16_at, records, u16_at};

/// A point of a glyph, in units of the face: x to the right, y upwards. For a font at a size also
/// what devices add to them there, in units of the size; at no size it is added to `x` and `y`.
#[derive(Clone, Copy, PartialEq, Eq, Debug)]
pub struct Anchor {
    pub x: i32,
    pub y: i32,
    pub x_delta: i32,
    pub y_delta: i32,
}

/// The coordinates of the anchor at `start`.
fn point(table: &[u8], start: usize) -> Anchor
    requires { start < 2 ^ 39 }
    ensures { result ≡ Anchors.point_at table.now start }
{
    Anchor {
        x: i16_at(table, start + 2),
        y: i16_at(table, start + 4),
        x_delta: 0,
        y_delta: 0,
    }
}

/// A point with what devices add to it.
fn moved(lookup: &Lookup<'_>, point: Anchor, x_delta: i32, y_delta: i32) -> Anchor
    ensures { result ≡ Anchors.moved lookup.now point x_delta y_delta }
{
    match lookup.scale {
        Some(_) => Anchor {
            x: point.x,
            y: point.y,
            x_delta,
            y_delta,
        },
        None => Anchor {
            x: sum(point.x, x_delta),
            y: sum(point.y, y_delta),
            x_delta: 0,
            y_delta: 0,
        },
    }
}

/// The same with what the devices of an anchor of format 3 add at the coordinates of the font.
fn varied_point(lookup: &Lookup<'_>, start: usize) -> Anchor
    requires { start < 2 ^ 39 }
    ensures { result ≡ Anchors.varied_point lookup.now start
        (Anchors.point_at lookup.now.table.now start) }
{
    let point = point(lookup.table, start);
    let x_device = u16_at(lookup.table, start + 6);
    let y_device = u16_at(lookup.table, start + 8);
    let x_delta = delta_by(lookup, axis_across(lookup), start, x_device);
    let y_delta = delta_by(lookup, axis_up(lookup), start, y_device);
    moved(lookup, point, x_delta, y_delta)
}

/// The anchor at `start`, of format 1, 2 or 3; one of another format is the origin.
fn anchor_from(lookup: &Lookup<'_>, start: usize) -> Anchor
    requires { start < 2 ^ 39 }
    ensures { result ≡ Anchors.anchor_at lookup.now start }
{
    match u16_at(lookup.table, start) {
        1 | 2 => point(lookup.table, start),
        3 if is_default(lookup) => point(lookup.table, start),
        3 => varied_point(lookup, start),
        _ => ORIGIN,
    }
}

/// How many bytes an anchor of this format has; of another format only that is read.
fn anchor_size(format: u16) -> usize
    ensures value { result ≡ Anchors.anchor_size format }
    ensures small { result ≤ 10 }
{
    match format {
        1 => 6,
        2 => 8,
        3 => 10,
        _ => 2,
    }
}

/// The anchor at `start`, if the table has room for it.
fn anchor_if(lookup: &Lookup<'_>, start: usize) -> Option<Anchor>
    requires { start < 2 ^ 39 }
    ensures { result ≡ Anchors.anchor_if lookup.now start }
{
    let table = lookup.table;
    if start + anchor_size(u16_at(table, start)) <= table.len() {
        Some(anchor_from(lookup, start))
    } else {
        None
    }
}

/// The anchor whose offset stands at `at` and counts from `start`; none if the offset is 0, or
/// leads past the end of the table.
pub fn anchor_there(lookup: &Lookup<'_>, start: usize, at: usize) -> Option<Anchor>
    requires start { start < 2 ^ 38 }
    requires at { at < 2 ^ 40 }
    ensures { result ≡ Anchors.anchor_by lookup.now start at }
{
    let place = offset16(lookup.table, start, at)?;
    anchor_if(lookup, place)
}

/// The anchor for a class of marks in a row of the matrix at `matrix`.
pub fn anchor_of_class(
    lookup: &Lookup<'_>,
    matrix: usize,
    classes: u16,
    row: u32,
    class: u16,
) -> Option<Anchor>
    requires near { matrix < 2 ^ 37 }
    ensures { result ≡ Anchors.anchor_in lookup.now classes row class matrix }
{
    if u32::from(u16_at(lookup.table, matrix)) <= row || classes <= class {
        return None;
    }
    let at = cell(row, u32::from(classes), u32::from(class));
    anchor_there(lookup, matrix, matrix + 2 + 2 * at)
}

/// Whether an array of marks has mark number `i`.
fn has_mark(table: &[u8], array: usize, i: u32) -> bool
    requires { array < 2 ^ 37 }
    ensures { result ≡ Anchors.is_listed table.now i array }
{
    i < records(table, u32::from(u16_at(table, array)), array + 2, 4)
}

/// The class of mark number `i` in an array; 0 past its end, and without one.
pub fn mark_class(table: &[u8], array: Option<usize>, i: u32) -> u16
    requires near { IfSome array (λ a. a < 2 ^ 37) }
    ensures { result ≡ Anchors.class_of_mark table.now i array }
{
    match array {
        Some(array) if has_mark(table, array, i) => u16_at(table, array + 2 + 4 * i as usize),
        _ => 0,
    }
}

/// The anchor of mark number `i` in an array; the origin past its end, and where there is none.
pub fn mark_anchor(lookup: &Lookup<'_>, array: Option<usize>, i: u32) -> Anchor
    requires near { IfSome array (λ a. a < 2 ^ 37) }
    ensures { result ≡ Anchors.anchor_of_mark lookup.now i array }
{
    let found = match array {
        Some(array) if has_mark(lookup.table, array, i) => {
            anchor_there(lookup, array, array + 4 + 4 * i as usize)
        }
        _ => None,
    };
    match found {
        Some(anchor) => anchor,
        None => ORIGIN,
    }
}

/// The number of a glyph in the list whose offset stands at `at` and counts from `start`.
pub fn number_there(table: &[u8], start: usize, at: usize, glyph: u32) -> Option<u32>
    requires start { start < 2 ^ 38 }
    requires at { at < 2 ^ 38 }
    ensures { result ≡ Anchors.number_at table.now start at glyph }
{
    let list = offset16(table, start, at)?;
    coverage_index(table, list, glyph)
}
