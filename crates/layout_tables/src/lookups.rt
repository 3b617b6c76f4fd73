//! The lookups of a table (`GSUB`, `GPOS`), their flags and their subtables.
ghost use Rattle.std.specs.Prelude.{◌≡◌, ◌<◌, ◌^◌};
ghost use Rattle.std.specs.Option.{IfSome};
ghost use Rattle.layout_tables.specs.Lookups;

use crate::offsets::{header_offset, offset16, offset32};
use shape_font::bytes::{records, u16_at};

/// Of the flags of a lookup (OpenType, LookupFlag bit enumeration): in cursive attachment the last
/// glyph of a sequence stands on the baseline, and not the first.
pub const RIGHT_TO_LEFT: u16 = 0x0001;

/// Glyphs of class 1 are passed over.
pub const IGNORE_BASE_GLYPHS: u16 = 0x0002;

/// Glyphs of class 2 are passed over.
pub const IGNORE_LIGATURES: u16 = 0x0004;

/// Glyphs of class 3 are passed over.
pub const IGNORE_MARKS: u16 = 0x0008;

/// Marks are passed over unless the mark filtering set has them.
pub const USE_MARK_FILTERING_SET: u16 = 0x0010;

/// Marks are passed over unless they are of this attachment class, if it is not 0.
pub const MARK_ATTACHMENT_TYPE: u16 = 0xFF00;

/// A subtable of a lookup: its type, and where it stands.
#[derive(Clone, Copy, PartialEq, Eq, Debug)]
pub struct LookupSubtable {
    pub kind: u16,
    pub start: usize,
}

/// How many lookups the table has.
pub fn lookup_count(table: &[u8]) -> u32
    ensures value { result ≡ Lookups.lookup_count_of table.now }
    ensures few { result < 2 ^ 16 }
{
    match header_offset(table, 8) {
        Some(list) => records(table, u32::from(u16_at(table, list)), list + 2, 2),
        None => 0,
    }
}

/// Where the lookup with this index stands; none if the table has no such lookup.
pub fn lookup(table: &[u8], index: u16) -> Option<usize>
    ensures value { result ≡ Lookups.lookup_of table.now index }
    ensures near { IfSome result (λ lookup. lookup < 2 ^ 17) }
{
    if lookup_count(table) <= u32::from(index) {
        return None;
    }
    let list = header_offset(table, 8)?;
    offset16(table, list, list + 2 + 2 * usize::from(index))
}

/// The type of the lookup at `lookup`.
pub fn lookup_type(table: &[u8], lookup: usize) -> u16
    requires { lookup < 2 ^ 17 }
    ensures { result ≡ Lookups.lookup_type_of table.now lookup }
{
    u16_at(table, lookup)
}

/// The flags of the lookup at `lookup`.
pub fn lookup_flag(table: &[u8], lookup: usize) -> u16
    requires { lookup < 2 ^ 17 }
    ensures { result ≡ Lookups.lookup_flag_of table.now lookup }
{
    u16_at(table, lookup + 2)
}

/// How many subtables the lookup at `lookup` has.
pub fn subtable_count(table: &[u8], lookup: usize) -> u32
    requires { lookup < 2 ^ 17 }
    ensures value { result ≡ Lookups.subtable_count_of table.now lookup }
    ensures few { result < 2 ^ 16 }
{
    records(table, u32::from(u16_at(table, lookup + 4)), lookup + 6, 2)
}

/// The index of the mark filtering set of a lookup with the flag `USE_MARK_FILTERING_SET`.
pub fn mark_filtering_set(table: &[u8], lookup: usize) -> u16
    requires { lookup < 2 ^ 17 }
    ensures { result ≡ Lookups.mark_filtering_set_of table.now lookup }
{
    u16_at(
        table,
        lookup + 6 + 2 * usize::from(u16_at(table, lookup + 4)),
    )
}

/// What an extension subtable at `start` stands for. A call of its own, so that the rest is inlined
/// where subtables are tried.
#[inline(never)]
fn extended(table: &[u8], start: usize) -> Option<LookupSubtable>
    requires { start < 2 ^ 18 }
    ensures value { result ≡ Lookups.extended table.now start }
    ensures near { IfSome result (λ subtable. subtable.start < 2 ^ 33) }
{
    if u16_at(table, start) != 1 {
        return None;
    }
    let there = offset32(table, start, start + 4)?;
    Some(LookupSubtable {
        kind: u16_at(table, start + 2),
        start: there,
    })
}

/// What a subtable of this type at `start` is, if it may stand for another one.
fn resolved(table: &[u8], extension: u16, kind: u16, start: usize) -> Option<LookupSubtable>
    requires { start < 2 ^ 18 }
    ensures value { result ≡ Lookups.resolved table.now extension kind start }
    ensures near { IfSome result (λ subtable. subtable.start < 2 ^ 33) }
{
    if kind == extension {
        extended(table, start)
    } else {
        Some(LookupSubtable { kind, start })
    }
}

/// Subtable `i` of the lookup at `lookup`; none if its offset is NULL. A subtable of type
/// `extension` (7 in `GSUB`, 9 in `GPOS`) stands for one of another type far away, which is
/// returned in its place.
#[inline(always)]
pub fn subtable(table: &[u8], extension: u16, lookup: usize, i: u32) -> Option<LookupSubtable>
    requires lookup { lookup < 2 ^ 17 }
    requires i { i < 2 ^ 16 }
    ensures value { result ≡ Lookups.subtable_of table.now extension lookup i }
    ensures near { IfSome result (λ subtable. subtable.start < 2 ^ 33) }
{
    let start = offset16(table, lookup, lookup + 6 + 2 * i as usize)?;
    resolved(table, extension, lookup_type(table, lookup), start)
}
