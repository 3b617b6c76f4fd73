//! Which delta set an item has.
ghost use Rattle.std.specs.Prelude.{◌≡◌, ◌<◌, ◌≤◌, ◌^◌};
ghost use Rattle.font_variations.specs.IndexMaps;

use font_bytes::bytes::{u8_at, u16_at, u24_at, u32_at};

/// How many bytes an entry of the map has.
fn entry_size(map: &[u8]) -> u32
    ensures value { result ≡ IndexMaps.entry_size map.now }
    ensures some { 0 < result }
    ensures few { result ≤ 4 }
{
    u32::from(u8_at(map, 1)) / 16 % 4 + 1
}

/// How many of the lower bits of an entry are its inner index.
fn inner_bits(map: &[u8]) -> u32
    ensures value { result ≡ IndexMaps.inner_bits map.now }
    ensures few { result ≤ 16 }
{
    u32::from(u8_at(map, 1)) % 16 + 1
}

/// Where the entries begin.
fn entries_at(map: &[u8]) -> usize
    ensures value { result ≡ IndexMaps.entries_at map.now }
    ensures near { result ≤ 6 }
{
    if u8_at(map, 0) == 0 { 4 } else { 6 }
}

/// How many entries the map says that it has.
fn said_count(map: &[u8]) -> u32
    ensures { result ≡ IndexMaps.said_count map.now }
{
    if u8_at(map, 0) == 0 {
        u32::from(u16_at(map, 2))
    } else {
        u32_at(map, 2)
    }
}

/// How many entries it has: none if it leads past the end of the table, or is of an unknown format.
fn map_count(map: &[u8]) -> u32
    ensures { result ≡ IndexMaps.map_count map.now }
{
    if 1 < u8_at(map, 0) {
        return 0;
    }
    let said = said_count(map);
    if entries_at(map) + entry_size(map) as usize * said as usize <= map.len() {
        said
    } else {
        0
    }
}

/// The entry of so many bytes at `at`.
fn entry(map: &[u8], size: u32, at: usize) -> u32
    requires { at < 2 ^ 40 }
    ensures { result ≡ IndexMaps.entry_of map.now size at }
{
    match size {
        1 => u32::from(u8_at(map, at)),
        2 => u32::from(u16_at(map, at)),
        3 => u24_at(map, at),
        _ => u32_at(map, at),
    }
}

/// An outer and an inner index in one number, from an entry with so many bits for the inner one.
fn as_index(bits: u32, entry: u32) -> u32
    requires { bits ≤ 16 }
    ensures { result ≡ IndexMaps.as_index bits entry }
{
    let one = 1u32 << bits;
    entry / one % 65536 * 65536 + entry % one
}

/// The index of an item's delta set, by a DeltaSetIndexMap: the outer one in the upper 16 bits,
/// the inner one in the lower. Items past the last entry share it. Without a map, as where the
/// slice is empty, an item is its own index.
pub fn mapped(map: &[u8], item: u32) -> u32
    ensures { result ≡ IndexMaps.mapped map.now item }
{
    let count = map_count(map);
    if count == 0 {
        return item;
    }
    let size = entry_size(map);
    let place = item.min(count - 1) as usize;
    let at = entries_at(map) + size as usize * place;
    as_index(inner_bits(map), entry(map, size, at))
}
