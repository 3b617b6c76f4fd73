//! Values of two glyphs in a subtable of `kerx`: formats 0, 2 and 6.
ghost use Rattle.std.specs.Prelude.{◌≡◌, ◌<◌, ◌+◌, ◌*◌, ◌^◌, ◌≤ℤ◌, pos, length};
ghost use Rattle.std.specs.Option.{IfSome};
ghost use Rattle.apple_positioning.specs.Values as value_rules;

use apple_tables::Lookup;
use font_bytes::bytes::i32_at;
use shape_font::bytes::{i16_at, records, u16_at, u32_at};
use shape_font::search::{found_within, side};

/// How a subtable is laid out.
#[derive(Clone, Copy, Debug)]
pub enum Layout {
    /// As one of `kerx`, whose own bytes are given.
    Kerx,
    /// As one of the older table `kern`, which begins there. The bytes of the table up to its end
    /// are given.
    Kern(u32),
}

/// A subtable, by its bytes.
#[derive(Clone, Copy, Debug)]
pub struct Subtable<'a> {
    /// How it is laid out.
    pub layout: Layout,
    /// Its bytes, from its header on; of the table `kern` all up to its end.
    pub bytes: &'a [u8],
    /// How many glyphs the font has.
    pub glyphs: u32,
}

/// A value of 16 bits, 0 if bytes of it are lacking.
fn short_at(bytes: &[u8], at: usize) -> i32
    requires { at < 2 ^ 39 }
    ensures { result ≡ value_rules.short_at bytes.now at }
{
    if at + 2 <= bytes.len() {
        i16_at(bytes, at)
    } else {
        0
    }
}

/// A value of 32 bits, 0 if bytes of it are lacking.
fn long_at(bytes: &[u8], at: usize) -> i32
    requires { at < 2 ^ 39 }
    ensures { result ≡ value_rules.long_at bytes.now at }
{
    if at + 4 <= bytes.len() {
        i32_at(bytes, at)
    } else {
        0
    }
}

/// The pair of two glyphs, as one number, among those of format 0.
fn pair(bytes: &[u8], glyphs: u32) -> Option<u32>
    ensures { result ≡ value_rules.pair_of bytes.now glyphs }
{
    found_within(records(bytes, u32_at(bytes, 12), 28, 6), |i| {
        let there = u32_at(bytes, 28 + 6 * i as usize);
        side(glyphs, there, there)
    })
}

/// The value of two glyphs by format 0.
fn listed(bytes: &[u8], left: u32, right: u32) -> Option<i32>
    ensures { result ≡ value_rules.listed bytes.now left right }
{
    if 0xFFFF < left || 0xFFFF < right {
        return None;
    }
    let i = pair(bytes, left * 65536 + right)?;
    Some(i16_at(bytes, 32 + 6 * i as usize))
}

/// The first value of a tuple.
fn tuple_at(bytes: &[u8], at: usize) -> i32
    requires { at < 2 ^ 39 }
    ensures { result ≡ value_rules.tuple_at bytes.now at }
{
    if at + 2 * u32_at(bytes, 8) as usize <= bytes.len() {
        i16_at(bytes, at)
    } else {
        0
    }
}

/// A value, or the first one of the tuple that stands there from `base` on.
fn first_of_tuple(bytes: &[u8], base: u32, value: i32) -> i32
    ensures { result ≡ value_rules.first_of_tuple bytes.now base value }
{
    if u32_at(bytes, 8) == 0 {
        return value;
    }
    if value < 0 {
        return 0;
    }
    tuple_at(bytes, base as usize + value.unsigned_abs() as usize)
}

impl<'a> Subtable<'a> {
    /// The class of a glyph by the lookup table that stands there.
    fn class(&self, at: u32, glyph: u32) -> Option<u32>
        ensures { result ≡ value_rules.class_of self.now.bytes.now at self.now.glyphs glyph }
    {
        let lookup = Lookup {
            table: self.bytes,
            start: at as usize,
            is_long: false,
            glyphs: self.glyphs,
        };
        let class = lookup.value(glyph)?;
        if u16_at(self.bytes, at as usize) == 10 {
            Some(0)
        } else {
            Some(class)
        }
    }

    /// The value of two glyphs by format 2.
    fn classed(&self, left: u32, right: u32) -> Option<i32>
        ensures { result ≡ value_rules.classed self.now.bytes.now self.now.glyphs left right }
    {
        let l = self.class(u32_at(self.bytes, 16), left)?;
        let r = self.class(u32_at(self.bytes, 20), right)?;
        let array = u32_at(self.bytes, 24) as usize;
        Some(short_at(self.bytes, array + 2 * (l as usize + r as usize)))
    }

    /// Whether values of format 6 have 32 bits.
    fn is_long(&self) -> bool
        ensures { result ≡ value_rules.is_long self.now.bytes.now }
    {
        u32_at(self.bytes, 12) % 2 == 1
    }

    /// The index of a glyph by the lookup table that stands there.
    fn index(&self, at: u32, glyph: u32) -> Option<u32>
        ensures { result ≡ value_rules.index_of self.now.bytes.now at self.now.glyphs glyph }
    {
        let lookup = Lookup {
            table: self.bytes,
            start: at as usize,
            is_long: self.is_long(),
            glyphs: self.glyphs,
        };
        let index = lookup.value(glyph)?;
        if self.is_long() {
            Some(index)
        } else {
            Some(index % 65536)
        }
    }

    /// The value of format 6 at a place of the array.
    fn value_in_row(&self, i: usize) -> i32
        requires { i < 2 ^ 34 }
        ensures { result ≡ value_rules.value_in_row self.now.bytes.now i }
    {
        let array = u32_at(self.bytes, 28) as usize;
        if self.is_long() {
            long_at(self.bytes, array + 4 * i)
        } else {
            short_at(self.bytes, array + 2 * i)
        }
    }

    /// The value of two glyphs by format 6.
    fn indexed(&self, left: u32, right: u32) -> Option<i32>
        ensures { result ≡ value_rules.indexed self.now.bytes.now self.now.glyphs left right }
    {
        let l = self.index(u32_at(self.bytes, 20), left)?;
        let r = self.index(u32_at(self.bytes, 24), right)?;
        Some(self.value_in_row(l as usize + r as usize))
    }

    /// What two glyphs have by the format of the subtable.
    fn found_value(&self, left: u32, right: u32) -> Option<i32>
        ensures { result ≡ value_rules.found_value self.now.bytes.now self.now.glyphs left right }
    {
        match u32_at(self.bytes, 4) % 256 {
            0 => listed(self.bytes, left, right),
            2 => self.classed(left, right),
            6 => self.indexed(left, right),
            _ => None,
        }
    }

    /// Where the places of tuples are counted from.
    fn tuples(&self) -> u32
        ensures { result ≡ value_rules.tuples_of self.now.bytes.now }
    {
        if u32_at(self.bytes, 4) % 256 == 6 {
            u32_at(self.bytes, 32)
        } else {
            0
        }
    }
}

/// How far two glyphs are moved apart by a subtable of `kerx`; 0 if it doesn't name one of them, or
/// is of another format than 0, 2 and 6.
#[tactic(auto, unfolding(crate::specs::Values::kerning_of), using(crate::proofs::SignedLemmas::kept_bits))]
pub(crate) fn kerning_of(subtable: &Subtable<'_>, left: u32, right: u32) -> i32
    ensures { result ≡ value_rules.kerning_of subtable.now.bytes.now subtable.now.glyphs
        left right }
{
    match subtable.found_value(left, right) {
        Some(value) => first_of_tuple(subtable.bytes, subtable.tuples(), value),
        None => 0,
    }
}
