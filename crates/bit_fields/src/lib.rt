//! Fields of bits side by side in a word of 32 bits: one is read, or put in while the others stay.
//!
//! A field has a place, that of its lowest bit, and a width. With the widths of all its fields at
//! hand, the lowest field first, a word is the list of their values, like a number that is the list
//! of its digits. One law holds of all fields: putting a value into one leaves the others as they
//! were, [`laws::a_put_field_changes_alone`]; [`laws`] has what else holds.
//!
//! It is a crate of its own, below all others, since what an implementation of `Model` cites may
//! not stand in the proofs of its own crate.
#![tactic(auto)]

ghost use Rattle.std.specs.Prelude.{◌≡◌, ◌<◌, ◌≤◌, ◌+◌, ◌*◌, ◌^◌};
ghost use Rattle.bit_fields.specs.Fields.{field, with_field, number_of, is_set};

pub mod laws;

/// Reads the field of this place and width.
pub fn read_field(word: u32, place: u32, width: u32) -> u32
    requires begins { place < 32 }
    requires narrow { width < 32 }
    requires within { place + width ≤ 32 }
    ensures { result ≡ field place width word }
{
    word >> place & (1 << width) - 1
}

/// The word with the value in the field of this place and width; its other bits stay.
pub fn put_field(word: u32, place: u32, width: u32, value: u32) -> u32
    requires begins { place < 32 }
    requires narrow { width < 32 }
    requires within { place + width ≤ 32 }
    requires fits { value < 2 ^ width }
    ensures { result ≡ with_field place width value word }
{
    word & !((1 << width) - 1 << place) | value << place
}

/// The word of 64 bits whose lower half and upper half these are.
pub fn join(lower: u32, upper: u32) -> u64
    ensures { result ≡ upper * 2 ^ 32 + lower }
{
    u64::from(upper) << 32 | u64::from(lower)
}

/// Reads the field of eight bits that begins at this place.
pub fn read_byte(word: u32, place: u32) -> u8
    requires { place ≤ 24 }
    ensures { result ≡ field place 8 word }
{
    read_field(word, place, 8) as u8
}

/// The word with the value in the field of eight bits that begins at this place; its other bits
/// stay.
pub fn put_byte(word: u32, place: u32, value: u8) -> u32
    requires { place ≤ 24 }
    ensures { result ≡ with_field place 8 value word }
{
    put_field(word, place, 8, u32::from(value))
}

/// Reads one bit: whether it is 1.
pub fn read_bit(word: u32, place: u32) -> bool
    requires { place < 32 }
    ensures { result ≡ is_set (field place 1 word) }
{
    read_field(word, place, 1) == 1
}

/// The word with one bit set, to 1, or unset; its other bits stay.
pub fn put_bit(word: u32, place: u32, value: bool) -> u32
    requires { place < 32 }
    ensures { result ≡ with_field place 1 (number_of value) word }
{
    put_field(word, place, 1, u32::from(value))
}
