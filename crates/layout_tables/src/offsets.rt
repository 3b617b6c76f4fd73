//! Offsets to other tables. An offset of 0 is NULL: there is no such table.
ghost use Rattle.std.specs.Prelude.{◌≡◌, ◌<◌, ◌+◌, ◌^◌};
ghost use Rattle.std.specs.Option.{IfSome};
ghost use Rattle.layout_tables.specs.Offsets.{offset16_of, offset32_of, header_offset_of};

use shape_font::bytes::{u16_at, u32_at};

/// Where the table stands whose `Offset16` is at `at` and counts from `start`; none if it is NULL.
pub fn offset16(table: &[u8], start: usize, at: usize) -> Option<usize>
    requires start { start < 2 ^ 40 }
    requires at { at < 2 ^ 40 }
    ensures value { result ≡ offset16_of table.now start at }
    ensures near { IfSome result (λ place. place < start + 2 ^ 16) }
{
    match u16_at(table, at) {
        0 => None,
        offset => Some(start + usize::from(offset)),
    }
}

/// Where the table stands whose `Offset32` is at `at` and counts from `start`; none if it is NULL.
pub fn offset32(table: &[u8], start: usize, at: usize) -> Option<usize>
    requires start { start < 2 ^ 40 }
    requires at { at < 2 ^ 40 }
    ensures value { result ≡ offset32_of table.now start at }
    ensures near { IfSome result (λ place. place < start + 2 ^ 32) }
{
    match u32_at(table, at) {
        0 => None,
        offset => Some(start + offset as usize),
    }
}

/// Where the table stands whose `Offset16` is at `at` in the header of a table of major version 1;
/// none if it is NULL, or the version is another one.
pub fn header_offset(table: &[u8], at: usize) -> Option<usize>
    requires { at < 2 ^ 40 }
    ensures value { result ≡ header_offset_of table.now at }
    ensures near { IfSome result (λ place. place < 2 ^ 16) }
{
    if u16_at(table, 0) != 1 {
        return None;
    }
    offset16(table, 0, at)
}
