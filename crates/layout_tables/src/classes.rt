//! Class definitions: the class of each glyph, 0 for all that no other class has.
ghost use Rattle.std.specs.Prelude.{◌≡◌, ◌<◌, ◌^◌};
ghost use Rattle.layout_tables.specs.Classes.{class_of, listed_class, ranged_class};

use crate::coverage::range;
use shape_font::bytes::{records, u16_at};

/// The class of a glyph by a list of classes.
fn in_list(table: &[u8], start: usize, glyph: u32) -> u16
    requires { start < 2 ^ 40 }
    ensures { result ≡ listed_class table.now start glyph }
{
    let first = u32::from(u16_at(table, start + 2));
    let count = records(table, u32::from(u16_at(table, start + 4)), start + 6, 2);
    if glyph < first || count <= glyph - first {
        return 0;
    }
    u16_at(table, start + 6 + 2 * (glyph - first) as usize)
}

/// The class of a glyph by ranges.
#[inline(always)]
fn in_ranges(table: &[u8], start: usize, glyph: u32) -> u16
    requires { start < 2 ^ 40 }
    ensures { result ≡ ranged_class table.now start glyph }
{
    match range(table, start, glyph) {
        Some(i) => u16_at(table, start + 8 + 6 * i as usize),
        None => 0,
    }
}

/// The class of a glyph by the ClassDef table at `start`; 0 if it names none, or its format is
/// neither 1 nor 2.
#[inline(never)]
pub fn class(table: &[u8], start: usize, glyph: u32) -> u16
    requires { start < 2 ^ 40 }
    ensures { result ≡ class_of table.now start glyph }
{
    match u16_at(table, start) {
        1 => in_list(table, start, glyph),
        2 => in_ranges(table, start, glyph),
        _ => 0,
    }
}
