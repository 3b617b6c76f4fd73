//! The headers of a table `kern` and of its subtables, by its version: OpenType's 0, or Apple's
//! 1.0. In Apple's counts and lengths are numbers of 32 bits, and a subtable's header has two bytes
//! more; what stands after it is the same in both.
ghost use Rattle.std.specs.Prelude.{◌≡◌, ◌<◌, ◌≤◌, ◌+◌, ◌^◌};
ghost use Rattle.kern_table.specs.Headers;

use shape_font::bytes::{u8_at, u16_at, u32_at};

/// Whether the table has Apple's headers.
pub fn is_apple(kern: &[u8]) -> bool
    ensures { result ≡ Headers.is_apple kern.now }
{
    u16_at(kern, 0) == 1
}

/// Where the first subtable begins.
#[tactic(auto, unfolding(crate::specs::Headers::first_start))]
pub fn first_start(kern: &[u8]) -> usize
    ensures value { result ≡ Headers.first_start kern.now }
    ensures small { result ≤ 8 }
{
    if is_apple(kern) { 8 } else { 4 }
}

/// How many bytes the header of a subtable has.
#[tactic(auto, unfolding(crate::specs::Headers::header_size))]
pub fn header_size(kern: &[u8]) -> usize
    ensures value { result ≡ Headers.header_size kern.now }
    ensures small { result ≤ 8 }
{
    if is_apple(kern) { 8 } else { 6 }
}

/// How many bytes the subtable that begins at `start` says that it has.
#[tactic(auto, unfolding(crate::specs::Headers::length_of))]
pub fn stated_length(kern: &[u8], start: usize) -> usize
    requires { start < 2 ^ 34 }
    ensures value { result ≡ Headers.length_of kern.now start }
    ensures small { result < 2 ^ 32 }
{
    if is_apple(kern) {
        u32_at(kern, start) as usize
    } else {
        usize::from(u16_at(kern, start + 2))
    }
}

/// The format of a subtable.
#[tactic(auto, unfolding(crate::specs::Headers::format_of))]
pub fn format(kern: &[u8], start: usize) -> u8
    requires { start < 2 ^ 34 }
    ensures { result ≡ Headers.format_of kern.now start }
{
    if is_apple(kern) {
        u8_at(kern, start + 5)
    } else {
        u8_at(kern, start + 4)
    }
}

/// What a subtable covers: the bits beside its format.
#[tactic(auto, unfolding(crate::specs::Headers::coverage_of))]
pub fn coverage(kern: &[u8], start: usize) -> u8
    requires { start < 2 ^ 34 }
    ensures { result ≡ Headers.coverage_of kern.now start }
{
    if is_apple(kern) {
        u8_at(kern, start + 4)
    } else {
        u8_at(kern, start + 5)
    }
}

/// The most bytes that a table can have.
pub const MOST_BYTES: usize = 0xFFFF_FFFF;
