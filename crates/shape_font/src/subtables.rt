//! Which table of characters of `cmap` is taken: the one that says most, in HarfBuzz's order.
ghost use Rattle.std.specs.Prelude.{◌≡◌, ◌+◌, ◌*◌, nat_eq};
ghost use Rattle.std.specs.Option.{option_map};
ghost use Rattle.shape_font.specs.Bytes.{u32_of};
ghost use Rattle.shape_font.specs.Search.{first_at};
ghost use Rattle.shape_font.specs.Subtables.{tail_of, subtable_of, first_subtable, chosen_subtable, symbols_of};

use crate::bytes::{records, u16_at, u32_at};

/// Platform and encoding of the tables, the most preferred first: symbols, then whole Unicode
/// (Windows, Unicode), then its first plane.
const PREFERRED: [u32; 9] = [0x30000, 0x3000A, 6, 4, 0x30001, 3, 2, 1, 0];

/// What stands from `at` to the end; nothing past the end.
pub fn tail(bytes: &[u8], at: u32) -> &[u8]
    ensures { result.now ≡ tail_of bytes.now at }
{
    let at = (at as usize).min(bytes.len());
    &bytes[at..bytes.len()]
}

/// The first of `count` records with this platform and encoding.
#[tactic(auto, using(crate::proofs::SearchLemmas::first_at_next, crate::proofs::SearchLemmas::first_at_found, crate::proofs::SearchLemmas::first_at_end))]
fn record(cmap: &[u8], key: u32, count: u32) -> Option<u32>
    ensures { result ≡ first_at (λ i. nat_eq (u32_of cmap.now (4 + 8 * i)) key) count 0 }
{
    for i in 0..count {
        if u32_at(cmap, 4 + 8 * i as usize) == key {
            return Some(i);
        }
    }
    None
}

/// The table of characters for this platform and encoding, up to the end of `cmap`; a record whose
/// offset is 0 has none.
pub fn subtable(cmap: &[u8], key: u32) -> Option<&[u8]>
    ensures { option_map (λ t. t.now) result ≡ subtable_of cmap.now key }
{
    match record(cmap, key, records(cmap, u32::from(u16_at(cmap, 2)), 4, 8)) {
        Some(i) => match u32_at(cmap, 8 + 8 * i as usize) {
            0 => None,
            at => Some(tail(cmap, at)),
        },
        None => None,
    }
}

/// The table for the first of these that `cmap` has; an empty one if it has none.
fn first_of<'a>(cmap: &'a [u8], keys: &[u32]) -> &'a [u8]
    ensures { result.now ≡ first_subtable cmap.now keys.now }
{
    for key in keys {
        if let Some(found) = subtable(cmap, *key) {
            return found;
        }
    }
    &[]
}

/// The table of characters that says most; an empty one if `cmap` has none of those that are read.
pub fn chosen(cmap: &[u8]) -> &[u8]
    ensures { result.now ≡ chosen_subtable cmap.now }
{
    first_of(cmap, &PREFERRED)
}

/// Whether the table of characters that is taken is one of symbols.
pub fn symbols(cmap: &[u8]) -> bool
    ensures { result ≡ symbols_of cmap.now }
{
    subtable(cmap, 0x30000).is_some()
}
