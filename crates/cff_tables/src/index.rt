//! INDEX data: so many objects, one after another, each a string of bytes (Adobe Technical Note
//! 5176, section 5; OpenType, "CFF2", where the count is `wide`). An INDEX begins at a place of the
//! table.
ghost use Rattle.std.specs.Prelude.{◌≡◌, ◌<◌, ◌≤◌, ◌+◌, ◌^◌, length};
ghost use Rattle.std.specs.Option.{option_map, IfSome};
ghost use Rattle.cff_tables.specs.Index;

use crate::bytes::{byte_at, number_at};

/// Where an object stands in the table: from one place up to another.
#[derive(Clone, Copy, Default, PartialEq, Debug)]
pub struct ObjectRange {
    pub from: u32,
    pub to: u32,
}

/// How many bytes the count takes.
fn count_size(wide: bool) -> usize
    ensures value { result ≡ Index.count_size wide }
    ensures few { result ≤ 4 }
{
    if wide { 4 } else { 2 }
}

/// How many objects the INDEX says that it has.
pub fn object_count(table: &[u8], wide: bool, at: u32) -> u32
    ensures { result ≡ Index.object_count table.now wide at }
{
    number_at(table, at as usize, count_size(wide))
}

/// How many bytes each offset takes.
fn offset_size(table: &[u8], wide: bool, at: u32) -> usize
    ensures value { result ≡ Index.offset_size table.now wide at }
    ensures few { result < 2 ^ 8 }
{
    usize::from(byte_at(table, at as usize + count_size(wide)))
}

/// Where object `i` begins, counted from the byte before the data.
fn offset(table: &[u8], wide: bool, at: u32, i: usize) -> usize
    requires { i ≤ 2 ^ 32 }
    ensures value { result ≡ Index.offset_of table.now wide at i }
    ensures small { result < 2 ^ 32 }
{
    let size = offset_size(table, wide, at);
    number_at(table, at as usize + count_size(wide) + 1 + i * size, size) as usize
}

/// The byte before the data.
fn base(table: &[u8], wide: bool, at: u32) -> usize
    ensures value { result ≡ Index.base_of table.now wide at }
    ensures small { result < 2 ^ 42 }
{
    let count = object_count(table, wide, at) as usize;
    at as usize + count_size(wide) + (count + 1) * offset_size(table, wide, at)
}

/// Where the last object ends.
fn data_end(table: &[u8], wide: bool, at: u32) -> usize
    ensures { result ≡ Index.data_end table.now wide at }
{
    let count = object_count(table, wide, at) as usize;
    base(table, wide, at) + offset(table, wide, at, count)
}

/// Whether offsets take as many bytes as they may, and the table holds all objects.
fn has_room(table: &[u8], wide: bool, at: u32) -> bool
    ensures { result ≡ Index.has_room table.now wide at }
{
    let size = offset_size(table, wide, at);
    1 <= size && size <= 4 && data_end(table, wide, at) <= table.len()
}

/// Where the INDEX ends; none if the table does not hold all of it.
pub fn index_end(table: &[u8], wide: bool, at: u32) -> Option<usize>
    ensures value { result ≡ Index.index_end table.now wide at }
    ensures inside { IfSome result (λ end. end ≤ length table.now) }
{
    let start = at as usize + count_size(wide);
    if table.len() < start {
        None
    } else if object_count(table, wide, at) == 0 {
        Some(start)
    } else if has_room(table, wide, at) {
        Some(data_end(table, wide, at))
    } else {
        None
    }
}

/// Where object `i` stands in the table; none if there are fewer, or its bytes are not there.
pub fn object_range(table: &[u8], wide: bool, at: u32, i: u32) -> Option<ObjectRange>
    ensures value { result ≡ Index.range_of table.now wide at i }
    ensures ordered { IfSome result (λ r. r.from ≤ r.to) }
    ensures inside { IfSome result (λ r. r.to ≤ length table.now) }
{
    let count = object_count(table, wide, at);
    if count <= i {
        return None;
    }
    let end = offset(table, wide, at, i as usize + 1);
    if offset(table, wide, at, count as usize) < end {
        return None;
    }
    let base = base(table, wide, at);
    let (from, to) = (base + offset(table, wide, at, i as usize), base + end);
    if from <= to && to <= table.len() && to <= 0xFFFF_FFFF {
        Some(ObjectRange {
            from: from as u32,
            to: to as u32,
        })
    } else {
        None
    }
}

/// The bytes of object `i`; none if there are fewer, or its bytes are not there.
pub fn object(table: &[u8], wide: bool, at: u32, i: u32) -> Option<&[u8]>
    ensures { option_map (λ o. o.now) result ≡ Index.object_of table.now wide at i }
{
    match object_range(table, wide, at, i) {
        Some(range) => Some(&table[range.from as usize..range.to as usize]),
        None => None,
    }
}
