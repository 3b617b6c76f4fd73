//! Value records: how far a glyph is moved, and its advance changed (OpenType, `GPOS`, "Value
//! record").
ghost use Rattle.std.specs.Prelude.{◌≡◌, ◌<◌, ◌≤◌, ◌^◌};
ghost use Rattle.shape_common.specs.Wrapping.{◌+ʷ◌};
ghost use Rattle.layout_positions.specs.Values;

use crate::devices::{delta_by, is_default};
use crate::sizes::{axis_across, axis_up};
use font_sizes::{Axis, Scale};
use layout_matching::lookup::Lookup;
use shape_buffer::GlyphPosition;
use shape_buffer::wrapping::{difference, sum};
use shape_font::bytes::{i16_at, u16_at};

/// Which numbers of a value record count even where they are 0: the placement, and each advance.
/// Such is a number for which a device was read, and one that is 0 only at the size of the font.
#[derive(Clone, Copy, PartialEq, Eq, Debug)]
pub struct Counted {
    pub placement: bool,
    pub x_advance: bool,
    pub y_advance: bool,
}

/// What a value record says, in units of the face or of its size: x to the right, y upwards, except
/// that `y_advance` grows down the line.
#[derive(Clone, Copy, PartialEq, Eq, Debug)]
pub struct Adjustment {
    pub x_placement: i32,
    pub y_placement: i32,
    pub x_advance: i32,
    pub y_advance: i32,
    pub counted: Counted,
}

/// How many bytes a record of this format has.
pub fn size(format: u16) -> usize
    ensures value { result ≡ Values.value_size format }
    ensures small { result ≤ 32 }
{
    2 * format.count_ones() as usize
}

/// The number for one bit of the format, 0 if the format doesn't have it.
fn number(table: &[u8], format: u16, at: usize, bit: u16) -> i32
    requires near { at < 2 ^ 39 }
    requires bit { 0 < bit }
    ensures { result ≡ Values.number_for table.now format at bit }
{
    if format & bit == 0 {
        return 0;
    }
    let before = (format & (bit - 1)).count_ones();
    i16_at(table, at + 2 * before as usize)
}

/// The numbers of the record of this format at `at`, without devices.
#[inline(always)]
fn plain_record(table: &[u8], format: u16, at: usize) -> Adjustment
    requires { at < 2 ^ 39 }
    ensures { result ≡ Values.plain_value table.now format at }
{
    Adjustment {
        x_placement: number(table, format, at, 1),
        y_placement: number(table, format, at, 2),
        x_advance: number(table, format, at, 4),
        y_advance: number(table, format, at, 8),
        counted: Counted {
            placement: false,
            x_advance: false,
            y_advance: false,
        },
    }
}

/// The offset of the device for one bit of the format; 0 without one.
fn device(table: &[u8], format: u16, at: usize, bit: u16) -> u16
    requires near { at < 2 ^ 39 }
    requires bit { 0 < bit }
    ensures { result ≡ Values.device_for table.now format at bit }
{
    if format & bit == 0 {
        return 0;
    }
    let before = (format & (bit - 1)).count_ones();
    u16_at(table, at + 2 * before as usize)
}

/// Where a record of some format stands, and what the offsets of its devices count from.
#[derive(Clone, Copy)]
struct Place {
    format: u16,
    base: usize,
    at: usize,
}

/// A number with what the device for one bit of the format adds along an axis.
fn added(lookup: &Lookup<'_>, axis: Option<Axis>, place: Place, bit: u16, number: i32) -> i32
    requires base { place.base < 2 ^ 39 }
    requires at { place.at < 2 ^ 39 }
    requires bit { 0 < bit }
    ensures { result ≡ number
        +ʷ Values.delta_for lookup.now axis place.format place.base place.at bit }
{
    let offset = device(lookup.table, place.format, place.at, bit);
    sum(number, delta_by(lookup, axis, place.base, offset))
}

/// Whether the record has a device for one bit of the format.
fn has_device(table: &[u8], format: u16, at: usize, bit: u16) -> bool
    requires near { at < 2 ^ 39 }
    requires bit { 0 < bit }
    ensures { result ≡ Values.has_device table.now format at bit }
{
    device(table, format, at, bit) != 0
}

/// Which numbers count once devices were read, if these did before.
fn counted_with(table: &[u8], format: u16, at: usize, counted: Counted) -> Counted
    requires { at < 2 ^ 39 }
    ensures { result ≡ Values.counted_with table.now format at counted }
{
    let placed = has_device(table, format, at, 0x10) || has_device(table, format, at, 0x20);
    Counted {
        placement: counted.placement || placed,
        x_advance: counted.x_advance || has_device(table, format, at, 0x40),
        y_advance: counted.y_advance || has_device(table, format, at, 0x80),
    }
}

/// The numbers of a record with what its devices add at the coordinates of the font.
fn varied(lookup: &Lookup<'_>, format: u16, base: usize, at: usize, value: Adjustment) -> Adjustment
    requires base { base < 2 ^ 39 }
    requires at { at < 2 ^ 39 }
    ensures { result ≡ Values.varied_value lookup.now format base at value }
{
    let place = Place { format, base, at };
    let (across, up) = (axis_across(lookup), axis_up(lookup));
    Adjustment {
        x_placement: added(lookup, across, place, 0x10, value.x_placement),
        y_placement: added(lookup, up, place, 0x20, value.y_placement),
        x_advance: added(lookup, across, place, 0x40, value.x_advance),
        y_advance: added(lookup, up, place, 0x80, value.y_advance),
        counted: counted_with(lookup.table, format, at, value.counted),
    }
}

/// Whether a number is 0 only at the size.
fn vanishes(axis: &Axis, number: i32) -> bool
    ensures { result ≡ Values.vanishes axis.now number }
{
    number != 0 && axis.times(number) == 0
}

/// The numbers of a record at a size, each rounded by itself.
fn sized_at(scale: &Scale, value: Adjustment) -> Adjustment
    ensures { result ≡ Values.sized_at scale.now value }
{
    let (across, up) = (scale.across, scale.up);
    let x_vanishes = vanishes(&across, value.x_placement);
    let y_vanishes = vanishes(&up, value.y_placement);
    Adjustment {
        x_placement: across.times(value.x_placement),
        y_placement: up.times(value.y_placement),
        x_advance: across.times(value.x_advance),
        y_advance: up.times(value.y_advance),
        counted: Counted {
            placement: x_vanishes || y_vanishes,
            x_advance: vanishes(&across, value.x_advance),
            y_advance: vanishes(&up, value.y_advance),
        },
    }
}

/// The numbers of a record as they are at the size of the font, if it has one.
fn sized(lookup: &Lookup<'_>, value: Adjustment) -> Adjustment
    ensures { result ≡ Values.sized lookup.now value }
{
    match &lookup.scale {
        Some(scale) => sized_at(scale, value),
        None => value,
    }
}

/// A record of the advance along a horizontal line alone.
#[inline(always)]
pub(crate) fn advance_only(advance: i32) -> Adjustment
    ensures { result ≡ Values.advance_only advance }
{
    Adjustment {
        x_placement: 0,
        y_placement: 0,
        x_advance: advance,
        y_advance: 0,
        counted: Counted {
            placement: false,
            x_advance: false,
            y_advance: false,
        },
    }
}

/// A record of any format. A call of its own, since few formats need it.
#[inline(never)]
fn any_record(lookup: &Lookup<'_>, format: u16, base: usize, at: usize) -> Adjustment
    requires base { base < 2 ^ 39 }
    requires at { at < 2 ^ 39 }
    ensures { result ≡ Values.value_at lookup.now format base at }
{
    let value = sized(lookup, plain_record(lookup.table, format, at));
    if format & 0xF0 == 0 || is_default(lookup) {
        return value;
    }
    varied(lookup, format, base, at, value)
}

/// The record of this format at `at` in the table of a lookup, at the size of the font. Offsets of
/// its devices count from `base`; at the default instance of a variable font none is read.
/// Inlined, since most pairs have no second record, and the advance alone in the first one.
#[inline(always)]
pub fn value_record(lookup: &Lookup<'_>, format: u16, base: usize, at: usize) -> Adjustment
    requires base { base < 2 ^ 39 }
    requires at { at < 2 ^ 39 }
    ensures { result ≡ Values.value_at lookup.now format base at }
{
    match format {
        0 => advance_only(0),
        4 if lookup.scale.is_none() => advance_only(i16_at(lookup.table, at)),
        _ => any_record(lookup, format, base, at),
    }
}

/// Whether the table has so many bytes at `at`.
pub fn has_bytes(table: &[u8], at: usize, size: usize) -> bool
    requires at { at < 2 ^ 39 }
    requires size { size ≤ 64 }
    ensures { result ≡ Values.has_bytes table.now at size }
{
    at + size <= table.len()
}

/// The record of this format at `at`, if the table has room for it.
pub fn value_in(lookup: &Lookup<'_>, format: u16, base: usize, at: usize) -> Option<Adjustment>
    requires base { base < 2 ^ 39 }
    requires at { at < 2 ^ 39 }
    ensures { result ≡ Values.value_in lookup.now format base at }
{
    if has_bytes(lookup.table, at, size(format)) {
        Some(value_record(lookup, format, base, at))
    } else {
        None
    }
}

/// A position after an adjustment, in a horizontal or a vertical line. Sums wrap.
pub fn adjusted(horizontal: bool, value: &Adjustment, position: GlyphPosition) -> GlyphPosition
    ensures { result ≡ Values.adjusted horizontal value.now position }
{
    let mut position = position;
    position.x_offset = sum(position.x_offset, value.x_placement);
    position.y_offset = sum(position.y_offset, value.y_placement);
    if horizontal {
        position.x_advance = sum(position.x_advance, value.x_advance);
    } else {
        position.y_advance = difference(position.y_advance, value.y_advance);
    }
    position
}

/// How far the advance along the line changes.
fn advance_along(horizontal: bool, value: &Adjustment) -> i32
    ensures { result ≡ Values.advance_along horizontal value.now }
{
    if horizontal {
        value.x_advance
    } else {
        value.y_advance
    }
}

/// Whether a number along the line counts, though it may be 0.
fn counts(horizontal: bool, counted: Counted) -> bool
    ensures { result ≡ Values.counts horizontal counted }
{
    let along = if horizontal {
        counted.x_advance
    } else {
        counted.y_advance
    };
    counted.placement || along
}

/// Whether an adjustment changes something, at some size. A device that was read counts, whatever
/// it adds.
pub fn has_effect(horizontal: bool, value: &Adjustment) -> bool
    ensures { result ≡ Values.has_effect horizontal value.now }
{
    value.x_placement != 0
        || value.y_placement != 0
        || advance_along(horizontal, value) != 0
        || counts(horizontal, value.counted)
}
