//! Apple's resource forks (suitcases, `.dfont`): files of resources, of which those of the type
//! `sfnt` are fonts ("Inside Macintosh: More Macintosh Toolbox", "Resource File Format").
//!
//! The first words of the file say where its data begin and where its map; the map lists types, and
//! for each type where the resources of that type begin. Places of tables in such a font are
//! counted from its own beginning.
ghost use Rattle.std.specs.Prelude.{◌≡◌, ◌<◌, ◌≤◌, ◌^◌};
ghost use Rattle.std.specs.Option.{IfSome};
ghost use Rattle.shape_font.specs.ResourceFork;

use crate::bytes::{u16_at, u24_at, u32_at};
use crate::subtables::tail;

/// The type of resources that are fonts, `sfnt`.
const FONTS: u32 = 0x7366_6E74;

/// Whether the file is a resource fork: its data begin where they do in every one.
pub fn is_fork(bytes: &[u8]) -> bool
    ensures { result ≡ ResourceFork.is_fork bytes.now }
{
    u32_at(bytes, 0) == 0x100
}

/// Where the list of types begins.
fn types(bytes: &[u8]) -> usize
    ensures value { result ≡ ResourceFork.types_at bytes.now }
    ensures near { result < 2 ^ 33 }
{
    let map = u32_at(bytes, 4) as usize;
    map + usize::from(u16_at(bytes, map + 24))
}

/// Which type of the list at `types` is that of fonts.
#[tactic(auto, using(crate::proofs::SearchLemmas::first_at_next, crate::proofs::SearchLemmas::first_at_found, crate::proofs::SearchLemmas::first_at_end), unfolding(crate::specs::ResourceFork::font_type_in))]
fn font_type(bytes: &[u8], types: usize) -> Option<u32>
    requires { types < 2 ^ 33 }
    ensures found { result ≡ ResourceFork.font_type_in bytes.now types }
    ensures within { IfSome result (λ i. i ≤ 65535) }
{
    let count = u32::from(u16_at(bytes, types)) + 1;
    for i in 0..count {
        if u32_at(bytes, types + 2 + 8 * i as usize) == FONTS {
            return Some(i);
        }
    }
    None
}

/// Where font `index` begins, if the type with the record at `entry` of the list at `types` has so
/// many: after the four bytes of its length.
fn start(bytes: &[u8], types: usize, entry: usize, index: u32) -> Option<u32>
    requires types { types < 2 ^ 33 }
    requires entry { entry < 2 ^ 35 }
    ensures { result ≡ ResourceFork.start_in bytes.now types entry index }
{
    if u32::from(u16_at(bytes, entry + 4)) < index {
        return None;
    }
    let record = types + usize::from(u16_at(bytes, entry + 6)) + 12 * index as usize;
    Some(0x104 + u24_at(bytes, record + 5))
}

/// The bytes from the beginning of font `index` of type `i` on; none if the type has no such font.
fn font_in(bytes: &[u8], index: u32, i: u32) -> &[u8]
    requires { i ≤ 65535 }
    ensures { result.now ≡ ResourceFork.font_in bytes.now index i }
{
    let types = types(bytes);
    match start(bytes, types, types + 2 + 8 * i as usize, index) {
        Some(start) => tail(bytes, start),
        None => &[],
    }
}

/// The bytes from the beginning of font `index` of a resource fork on; none if it has no such font.
pub fn font(bytes: &[u8], index: u32) -> &[u8]
    ensures { result.now ≡ ResourceFork.font_of bytes.now index }
{
    let types = types(bytes);
    match font_type(bytes, types) {
        Some(i) => font_in(bytes, index, i),
        None => &[],
    }
}
