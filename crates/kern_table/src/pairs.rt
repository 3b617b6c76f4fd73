//! Values of pairs of glyphs: formats 0, 2 and 3 of the table `kern`, whose fields stand after the
//! header of a subtable.
ghost use Rattle.std.specs.Prelude.{◌≡◌, ◌+◌, ◌*◌, ◌<◌, ◌^◌, ◌≤ℤ◌, pos, negsuc, length, not, ◌||◌, false, nat_lt, slice_index_or};
ghost use Rattle.kern_table.specs.Pairs;
ghost use Rattle.std.specs.Option.{IfSome};

use crate::headers::{format, header_size};
use crate::sides::Sides;
use shape_font::bytes::{i16_at, long, records, u8_at, u16_at};
use shape_font::search::{found_within, side};
use std::cmp::Ordering;

/// A subtable of the table, what is stored of it, and what is read of it once for all pairs: where
/// the fields of its format begin, the format, and how many pairs of format 0 it has room for.
#[derive(Clone, Copy)]
pub(crate) struct Subtable<'a> {
    pub kern: &'a [u8],
    pub start: usize,
    pub body: usize,
    pub sides: Sides<'a>,
    pub format: u8,
    pub count: u32,
}

/// Reads the head of the subtable that begins at `start`.
pub(crate) fn read_subtable<'a>(kern: &'a [u8], start: usize, sides: Sides<'a>) -> Subtable<'a>
    requires near { start < 2 ^ 34 }
    requires sides { Pairs.HoldSides kern.now start sides.lefts.now sides.rights.now }
    ensures so { Pairs.IsRead result }
    ensures kern { result.kern.now ≡ kern.now }
    ensures start { result.start ≡ start }
{
    let body = start + header_size(kern);
    Subtable {
        kern,
        start,
        body,
        sides,
        format: format(kern, start),
        count: records(kern, u32::from(u16_at(kern, body)), body + 8, 6),
    }
}

/// Where two glyphs, as one number, stand to pair `i` of a subtable. It is read behind no test.
fn pair_side(subtable: Subtable<'_>, glyphs: u32, i: u32) -> Ordering
    requires read { Pairs.IsRead subtable }
    requires listed { i < subtable.count }
    ensures { result ≡ Pairs.side_of_pair subtable.entry.kern.now subtable.entry.start glyphs i }
{
    let there = long(subtable.kern, subtable.body + 8 + 6 * i as usize);
    side(glyphs, there, there)
}

/// The pair of two glyphs, as one number, in a subtable.
fn pair(subtable: Subtable<'_>, glyphs: u32) -> Option<u32>
    requires { Pairs.IsRead subtable }
    ensures found { result ≡ Pairs.pair_of subtable.entry.kern.now subtable.entry.start glyphs }
    ensures within { IfSome result (λ i. i < subtable.entry.count) }
{
    found_within(
        subtable.count,
        |i|
            requires read { Pairs.IsRead subtable }
            requires listed { i < subtable.count }
        { pair_side(subtable, glyphs, i) },
    )
}

/// The value of two glyphs in a subtable of format 0.
fn listed_value(subtable: Subtable<'_>, left: u32, right: u32) -> i32
    requires { Pairs.IsRead subtable }
    ensures value { result ≡ Pairs.listed_value subtable.entry.kern.now subtable.entry.start left
        right }
    ensures low { negsuc 32767 ≤ℤ result }
    ensures high { result ≤ℤ pos 32767 }
{
    if 0xFFFF < left || 0xFFFF < right {
        return 0;
    }
    match pair(subtable, left * 65536 + right) {
        Some(i) => i16_at(subtable.kern, subtable.body + 12 + 6 * i as usize),
        None => 0,
    }
}

/// Whether the classes at `classes` have the glyph. Class 1 stands for a glyph out of bounds.
fn is_classed(kern: &[u8], classes: usize, glyph: u32) -> bool
    requires { classes < 2 ^ 35 }
    ensures { result ≡ Pairs.is_classed kern.now classes glyph }
{
    let first = u32::from(u16_at(kern, classes));
    let said = u32::from(u16_at(kern, classes + 2));
    first <= glyph
        && glyph - first < records(kern, said, classes + 4, 2)
        && class(kern, classes, glyph) != 1
}

/// The class of a glyph that the classes at `classes` have.
fn class(kern: &[u8], classes: usize, glyph: u32) -> u32
    requires { classes < 2 ^ 35 }
    ensures value { result ≡ Pairs.class_of kern.now classes glyph }
    ensures small { result < 65536 }
{
    let i = glyph.saturating_sub(u32::from(u16_at(kern, classes)));
    u32::from(u16_at(kern, classes + 4 + 2 * i as usize))
}

/// The value that stands so many bytes after the start of a subtable, 0 if its array of values
/// begins later.
fn value_at(subtable: Subtable<'_>, place: u32) -> i32
    requires read { Pairs.IsRead subtable }
    requires near { place < 131072 }
    ensures value { result ≡ Pairs.value_at subtable.entry.kern.now subtable.entry.start place }
    ensures low { negsuc 32767 ≤ℤ result }
    ensures high { result ≤ℤ pos 32767 }
{
    let array = u32::from(u16_at(subtable.kern, subtable.body + 6));
    if place < array {
        return 0;
    }
    let at = subtable.start + array as usize + 2 * ((place - array) / 2) as usize;
    i16_at(subtable.kern, at)
}

/// The value of two glyphs in a subtable of format 2, by their classes; 0 if one has none.
fn classed_value(subtable: Subtable<'_>, left: u32, right: u32) -> i32
    requires { Pairs.IsRead subtable }
    ensures value { result ≡ Pairs.classed_value subtable.entry.kern.now subtable.entry.start left
        right }
    ensures low { negsuc 32767 ≤ℤ result }
    ensures high { result ≤ℤ pos 32767 }
{
    let kern = subtable.kern;
    let lefts = subtable.start + usize::from(u16_at(kern, subtable.body + 2));
    let rights = subtable.start + usize::from(u16_at(kern, subtable.body + 4));
    if !is_classed(kern, lefts, left) || !is_classed(kern, rights, right) {
        return 0;
    }
    value_at(
        subtable,
        class(kern, lefts, left) + class(kern, rights, right),
    )
}

/// The class of a glyph among so many that stand one after the other; 0 past the last one.
fn number(kern: &[u8], at: usize, count: u32, glyph: u32) -> u32
    requires { at < 2 ^ 36 }
    ensures value { result ≡ Pairs.number_of kern.now at count glyph }
    ensures small { result < 256 }
{
    if glyph < count {
        u32::from(u8_at(kern, at + glyph as usize))
    } else {
        0
    }
}

/// The value of a number in a subtable of format 3, 0 past the last one.
fn numbered_value(subtable: Subtable<'_>, n: u8) -> i32
    requires { Pairs.IsRead subtable }
    ensures value { result ≡ Pairs.numbered_value subtable.entry.kern.now subtable.entry.body n }
    ensures low { negsuc 32767 ≤ℤ result }
    ensures high { result ≤ℤ pos 32767 }
{
    if n < u8_at(subtable.kern, subtable.body + 2) {
        i16_at(subtable.kern, subtable.body + 6 + 2 * usize::from(n))
    } else {
        0
    }
}

/// The value of two glyphs in a subtable of format 3, by the number that their classes have; 0 if
/// one has a class past the count.
fn indexed_value(subtable: Subtable<'_>, left: u32, right: u32) -> i32
    requires { Pairs.IsRead subtable }
    ensures value { result ≡ Pairs.indexed_value subtable.entry.kern.now subtable.entry.start left
        right }
    ensures low { negsuc 32767 ≤ℤ result }
    ensures high { result ≤ℤ pos 32767 }
{
    let (kern, body) = (subtable.kern, subtable.body);
    let count = u32::from(u16_at(kern, body));
    let lefts = body + 6 + 2 * usize::from(u8_at(kern, body + 2));
    let l = number(kern, lefts, count, left);
    let r = number(kern, lefts + count as usize, count, right);
    let columns = u32::from(u8_at(kern, body + 4));
    if u32::from(u8_at(kern, body + 3)) <= l || columns <= r {
        return 0;
    }
    let at = lefts + 2 * count as usize + (l * columns + r) as usize;
    numbered_value(subtable, u8_at(kern, at))
}

/// Whether a glyph is marked, or has no mark.
fn may_stand(marks: &[bool], glyph: u32) -> bool
    ensures { result ≡ (not (nat_lt glyph
        (length marks.now)) || slice_index_or marks.now glyph false) }
{
    let at = glyph as usize;
    marks.len() <= at || marks[at]
}

/// The value of two glyphs, sought among all pairs.
#[tactic(auto, unfolding(crate::specs::Pairs::value_of))]
fn sought_value(subtable: Subtable<'_>, left: u32, right: u32) -> i32
    requires { Pairs.IsRead subtable }
    ensures value { result ≡ Pairs.value_of subtable.entry.kern.now subtable.entry.start left right }
    ensures low { negsuc 32767 ≤ℤ result }
    ensures high { result ≤ℤ pos 32767 }
{
    match subtable.format {
        2 => classed_value(subtable, left, right),
        3 => indexed_value(subtable, left, right),
        _ => listed_value(subtable, left, right),
    }
}

/// How far two glyphs are moved apart by a subtable whose head was read. Nothing is sought for two
/// of which one stands in no pair.
pub(crate) fn pair_value(subtable: Subtable<'_>, left: u32, right: u32) -> i32
    requires { Pairs.IsRead subtable }
    ensures value { result ≡ Pairs.value_of subtable.entry.kern.now subtable.entry.start left right }
    ensures low { negsuc 32767 ≤ℤ result }
    ensures high { result ≤ℤ pos 32767 }
{
    if may_stand(subtable.sides.lefts, left) && may_stand(subtable.sides.rights, right) {
        sought_value(subtable, left, right)
    } else {
        0
    }
}

/// How far two glyphs are moved apart by the subtable of the table that begins at `start`, in units
/// of the face; together if it is negative, and 0 if the subtable doesn't have them. Subtables of
/// formats 2 and 3 have values by classes, every other one is read as format 0.
pub fn value(kern: &[u8], start: usize, left: u32, right: u32) -> i32
    requires { start < 2 ^ 34 }
    ensures value { result ≡ Pairs.value_of kern.now start left right }
    ensures low { negsuc 32767 ≤ℤ result }
    ensures high { result ≤ℤ pos 32767 }
{
    pair_value(read_subtable(kern, start, Sides::none()), left, right)
}
