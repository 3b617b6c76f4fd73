//! What the subtables of lookups put in place of glyphs (OpenType, "GSUB", single, multiple,
//! alternate and ligature).
ghost use Rattle.std.specs.Prelude.{◌≡◌, ◌<◌, ◌+◌, ◌*◌, ◌^◌};
ghost use Rattle.std.specs.Option.{IfSome};
ghost use Rattle.layout_tables.specs.Offsets.{offset16_of};
ghost use Rattle.layout_substitution.specs.Substitutes;

use layout_matching::found::number_in;
use layout_tables::offsets::offset16;
use shape_font::bytes::{records, u16_at};

/// The glyph in place of the one with this number.
#[inline(always)]
fn single_at(table: &[u8], start: usize, glyph: u32, i: u32) -> Option<u32>
    requires { start < 2 ^ 35 }
    ensures { result ≡ Substitutes.single_by table.now start glyph i }
{
    if u16_at(table, start) == 1 {
        let far = u64::from(glyph) + u64::from(u16_at(table, start + 4));
        return Some((far % 65536) as u32);
    }
    if u16_at(table, start) == 2
        && i < records(table, u32::from(u16_at(table, start + 4)), start + 6, 2)
    {
        Some(u32::from(u16_at(table, start + 6 + 2 * i as usize)))
    } else {
        None
    }
}

/// The one glyph in place of this one.
#[inline(always)]
pub(crate) fn single(table: &[u8], start: usize, glyph: u32) -> Option<u32>
    requires { start < 2 ^ 35 }
    ensures { result ≡ Substitutes.single_of table.now start glyph }
{
    match number_in(table, start, glyph) {
        Some(i) => single_at(table, start, glyph, i),
        None => None,
    }
}

/// Where the set of the glyph with this number stands.
fn set_at(table: &[u8], start: usize, i: u32) -> Option<usize>
    requires { start < 2 ^ 35 }
    ensures value { result ≡ Substitutes.set_number table.now start i }
    ensures near { IfSome result (λ s. s < 2 ^ 36) }
{
    if i < records(table, u32::from(u16_at(table, start + 4)), start + 6, 2) {
        offset16(table, start, start + 6 + 2 * i as usize)
    } else {
        None
    }
}

/// Where the set of a glyph stands, in a subtable that has a set for each glyph of its list.
pub(crate) fn set(table: &[u8], start: usize, glyph: u32) -> Option<usize>
    requires { start < 2 ^ 35 }
    ensures value { result ≡ Substitutes.set_of table.now start glyph }
    ensures near { IfSome result (λ s. s < 2 ^ 36) }
{
    if u16_at(table, start) != 1 {
        return None;
    }
    match number_in(table, start, glyph) {
        Some(i) => set_at(table, start, i),
        None => None,
    }
}

/// How many numbers are listed at a place.
pub fn count(table: &[u8], list: usize) -> u32
    requires { list < 2 ^ 36 }
    ensures value { result ≡ Substitutes.listed_count table.now list }
    ensures few { result < 2 ^ 16 }
{
    records(table, u32::from(u16_at(table, list)), list + 2, 2)
}

/// Number `i` of those listed at a place.
pub fn listed(table: &[u8], list: usize, i: u32) -> u16
    requires { list < 2 ^ 36 }
    ensures { result ≡ Substitutes.listed_at table.now list i }
{
    u16_at(table, list + 2 + 2 * i as usize)
}

/// An alternate of the set, which are counted from 1 on.
fn alternate_at(table: &[u8], value: u32, set: usize) -> Option<u32>
    requires { set < 2 ^ 36 }
    ensures { result ≡ Substitutes.alternate_in table.now value set }
{
    if 0 < value && value <= count(table, set) {
        Some(u32::from(listed(table, set, value - 1)))
    } else {
        None
    }
}

/// The alternate of a glyph that this value picks.
pub(crate) fn alternate(table: &[u8], start: usize, glyph: u32, value: u32) -> Option<u32>
    requires { start < 2 ^ 35 }
    ensures { result ≡ Substitutes.alternate_of table.now start glyph value }
{
    match set(table, start, glyph) {
        Some(set) => alternate_at(table, value, set),
        None => None,
    }
}

/// Where ligature `i` of a set stands.
pub(crate) fn ligature_at(table: &[u8], set: usize, i: u32) -> Option<usize>
    requires near { set < 2 ^ 36 }
    requires few { i < 2 ^ 16 }
    ensures value { result ≡ offset16_of table.now set (set + 2 + 2 * i) }
    ensures near { IfSome result (λ l. l < 2 ^ 37) }
{
    offset16(table, set, set + 2 + 2 * i as usize)
}

/// The glyph of a ligature.
pub(crate) fn ligature_glyph(table: &[u8], ligature: usize) -> u16
    requires { ligature < 2 ^ 37 }
    ensures { result ≡ Substitutes.ligature_glyph table.now ligature }
{
    u16_at(table, ligature)
}

/// How many components a ligature has.
pub(crate) fn components(table: &[u8], ligature: usize) -> u16
    requires { ligature < 2 ^ 37 }
    ensures { result ≡ Substitutes.component_count table.now ligature }
{
    u16_at(table, ligature + 2)
}

/// Whether a ligature has a component, and the table all of its bytes. The first component isn't
/// listed.
pub(crate) fn has_components(table: &[u8], ligature: usize) -> bool
    requires { ligature < 2 ^ 37 }
    ensures { result ≡ Substitutes.has_components table.now ligature }
{
    let count = usize::from(components(table, ligature));
    0 < count && ligature + 4 + 2 * count.saturating_sub(1) <= table.len()
}
