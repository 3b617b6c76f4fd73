//! Numbers of charstrings, in 65536ths (Adobe Technical Note 5177, section 3.2).
ghost use Rattle.std.specs.Prelude.{◌≡◌, ◌<◌, ◌≤◌, ◌≤ℤ◌, ◌^◌, pos};
ghost use Rattle.charstrings.specs.Numbers;

use cff_tables::bytes::{byte_at, number_at, word_at};

/// The sum; it wraps where it does not fit.
pub fn plus(a: i64, b: i64) -> i64
    ensures { result ≡ Numbers.plus a b }
{
    a.wrapping_add(b)
}

/// The number with the other sign; it wraps where that does not fit.
pub fn opposite(a: i64) -> i64
    ensures { result ≡ Numbers.opposite a }
{
    a.wrapping_neg()
}

/// Whether a number begins with this byte, and not an operator.
pub fn begins_number(byte: u8) -> bool
    ensures { result ≡ Numbers.begins_number byte }
{
    byte == 28 || 32 <= byte
}

/// How many bytes a number takes, by the first of them.
pub fn number_size(first: u8) -> usize
    ensures value { result ≡ Numbers.number_size first }
    ensures few { result ≤ 5 }
{
    if first == 28 {
        3
    } else if first < 247 {
        1
    } else if first < 255 {
        2
    } else {
        5
    }
}

/// Two bytes in two's complement.
fn signed_word(n: u16) -> i32
    ensures { result ≡ Numbers.signed_word n }
{
    if n < 32768 {
        i32::from(n)
    } else {
        i32::from(n) - 65536
    }
}

/// Four bytes in two's complement.
fn signed_long(n: u32) -> i32
    ensures { result ≡ Numbers.signed_long n }
{
    if n < 2_147_483_648 {
        n as i32
    } else {
        (i64::from(n) - 4_294_967_296) as i32
    }
}

/// The size of a number of two bytes, in 65536ths, by how far the first lies past the first of its
/// kind.
fn small_pair(first: u8, second: u8) -> i32
    requires { first < 4 }
    ensures value { result ≡ Numbers.pair_of first second }
    ensures low { pos 0 ≤ℤ result }
    ensures high { result ≤ℤ pos 74121216 }
{
    (i32::from(first) * 256 + i32::from(second) + 108) * 65536
}

/// The number at `at`, in 65536ths.
pub fn number_value(table: &[u8], at: usize) -> i32
    requires { at < 2 ^ 63 }
    ensures { result ≡ Numbers.number_value table.now at }
{
    let (first, second) = (byte_at(table, at), byte_at(table, at + 1));
    if first == 28 {
        signed_word(word_at(table, at + 1)) * 65536
    } else if first < 247 {
        (i32::from(first) - 139) * 65536
    } else if first < 251 {
        small_pair(first - 247, second)
    } else if first < 255 {
        0 - small_pair(first - 251, second)
    } else {
        signed_long(number_at(table, at + 1, 4))
    }
}
