//! Tables of the tests, by hexadecimal digits; spaces between them are for the reader.
ghost use Rattle.std.specs.Prelude.{◌<◌, ◌^◌};

use layout_matching::lookup::Lookup;
use layout_tables::lookups::{lookup, mark_filtering_set};
use shape_font::bytes::u16_at;
use std::alloc::Global;
use std::process::Abort;

/// What a test is handed: memory, and an end if something isn't as it should be.
pub trait Host: Abort + Alloc<A = Global> {}

impl<R: Abort + Alloc<A = Global>> Host for R {}

/// Glyphs 2 and 3 are bases, 4 is a ligature, 8 to 10 are marks. Mark set 0 has glyphs 8 and 9.
pub const GDEF: &str = "0001 0002 000E 0000 0000 0000 0024 \
    0002 0003 0002 0003 0001 0004 0004 0002 0008 000A 0003 \
    0001 0001 0000 0008 0001 0002 0008 0009";

/// Appends a number of two bytes.
fn push_u16(rt: &impl Host, bytes: &mut Vec<u8>, number: usize) {
    let number = u16::try_from(number).expect(rt, "a number of two bytes");
    for byte in number.to_be_bytes() {
        bytes.push(byte).expect(rt, "memory");
    }
}

/// Appends the bytes that digits write.
fn push_digits(rt: &impl Host, bytes: &mut Vec<u8>, digits: &str) {
    for word in digits.split_whitespace() {
        let more = hex::decode(rt.alloc(), word).expect(rt, word);
        for byte in more.as_slice() {
            bytes.push(*byte).expect(rt, "memory");
        }
    }
}

/// The bytes that digits write.
pub fn bytes_of(rt: &impl Host, digits: &str) -> Vec<u8> {
    let mut bytes = Vec::new(rt.alloc());
    push_digits(rt, &mut bytes, digits);
    bytes
}

/// The number that a word writes in hexadecimal digits.
fn hex(rt: &impl Host, word: &str) -> usize {
    u16::from_str_radix(word, 16).expect(rt, word) as usize
}

/// A lookup of one subtable, as `TYPE FLAGS DIGITS` writes it; by flag 16 it sees marks of set 0.
fn lookup_of(rt: &impl Host, words: &str) -> Vec<u8> {
    let (kind, rest) = words.split_once(' ').expect(rt, words);
    let (flags, digits) = rest.split_once(' ').expect(rt, rest);
    let mut bytes = Vec::new(rt.alloc());
    push_u16(rt, &mut bytes, hex(rt, kind));
    push_u16(rt, &mut bytes, hex(rt, flags));
    push_digits(rt, &mut bytes, "0001 000A 0000");
    push_digits(rt, &mut bytes, digits);
    bytes
}

/// The table `GPOS` that has these lookups, `;` between them.
pub fn gpos_of(rt: &impl Host, lookups: &str) -> Vec<u8> {
    let mut bytes = bytes_of(rt, "0001 0000 0000 0000 000A");
    let count = lookups.split(';').count();
    push_u16(rt, &mut bytes, count);
    let mut place = count.saturating_mul(2).saturating_add(2);
    for words in lookups.split(';') {
        push_u16(rt, &mut bytes, place);
        place = place.saturating_add(lookup_of(rt, words.trim()).len());
    }
    for words in lookups.split(';') {
        for byte in lookup_of(rt, words.trim()).as_slice() {
            bytes.push(*byte).expect(rt, "memory");
        }
    }
    bytes
}

/// A lookup of `GPOS` by its number, on for items whose mask has bit 16.
pub fn gpos_lookup<'a>(rt: &impl Host, gpos: &'a [u8], gdef: &'a [u8], number: u16) -> Lookup<'a>
    ensures { result.place < 2 ^ 17 }
{
    let place = lookup(gpos, number).expect(rt, "a lookup");
    Lookup {
        table: gpos,
        gdef,
        coordinates: &[],
        device_work: 0,
        scale: None,
        place,
        flags: u16_at(gpos, place + 2),
        mark_set: mark_filtering_set(gpos, place),
        mask: 16,
        unit: 16,
        auto_zwnj: true,
        auto_zwj: true,
        per_syllable: false,
        random: false,
        positioning: true,
    }
}
