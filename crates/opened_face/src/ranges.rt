//! Which characters a subtable of `cmap` lists: ranges, by its format. They decide which pages are
//! stored, and so what a look-up costs; what it returns doesn't depend on them.
ghost use Rattle.std.specs.Prelude.{◌≡◌, ◌<◌, ◌^◌};
ghost use Rattle.opened_face.specs.Ranges;

use shape_font::bytes::{records, u16_at, u32_at};

/// How many ranges of characters the subtable has room for.
pub(crate) fn range_count(table: &[u8]) -> u32
    ensures { result ≡ Ranges.range_count table.now }
{
    match u16_at(table, 0) {
        4 => records(table, u32::from(u16_at(table, 6) / 2), 14, 2),
        12 | 13 => records(table, u32_at(table, 12), 16, 12),
        0 | 6 | 10 => 1,
        _ => 0,
    }
}

/// The first character of range `i`.
pub(crate) fn first(table: &[u8], i: u32) -> u32
    ensures { result ≡ Ranges.first_listed table.now i }
{
    match u16_at(table, 0) {
        4 => {
            let count = usize::from(u16_at(table, 6) / 2);
            u32::from(u16_at(table, 16 + 2 * count + 2 * i as usize))
        }
        6 => u32::from(u16_at(table, 6)),
        10 => u32_at(table, 12),
        12 | 13 => u32_at(table, 16 + 12 * i as usize),
        _ => 0,
    }
}

/// The last character of range `i`.
pub(crate) fn last(table: &[u8], i: u32) -> u32
    ensures { result ≡ Ranges.last_listed table.now i }
{
    match u16_at(table, 0) {
        0 => 255,
        4 => u32::from(u16_at(table, 14 + 2 * i as usize)),
        6 => u32::from(u16_at(table, 6)) + u32::from(u16_at(table, 8)).saturating_sub(1),
        10 => u32_at(table, 12).saturating_add(u32_at(table, 16).saturating_sub(1)),
        12 | 13 => u32_at(table, 20 + 12 * i as usize),
        _ => 0,
    }
}
