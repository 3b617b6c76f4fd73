//! Lookup tables: a value for some of the glyphs.
ghost use Rattle.std.specs.Prelude.{◌≡◌, ◌<◌, ◌≤◌, ◌+◌, ◌^◌, length};
ghost use Rattle.std.specs.Option.{IfSome};
ghost use Rattle.apple_tables.specs.Lookups;

use shape_font::bytes::{long, records, u8_at, u16_at, u24_at, u32_at, word};
use shape_font::search::{found_within, side};

/// A lookup table in another table.
#[derive(Clone, Copy, Debug)]
pub struct Lookup<'a> {
    /// The table that it stands in.
    pub table: &'a [u8],
    /// Where it begins there.
    pub start: usize,
    /// Whether a value has four bytes, and not two.
    pub is_long: bool,
    /// How many glyphs the font has.
    pub glyphs: u32,
}

/// Where unit `i` of those that are searched begins.
fn unit_at(table: &[u8], start: usize, i: u32) -> usize
    requires start { start < 2 ^ 36 }
    requires few { i < 2 ^ 16 }
    ensures value { result ≡ Lookups.unit_at table.now start i }
    ensures near { result < 2 ^ 37 }
{
    start + 12 + usize::from(u16_at(table, start + 2)) * i as usize
}

/// How many units of at least so many bytes the table has.
fn unit_count(table: &[u8], start: usize, least: usize) -> u32
    requires start { start < 2 ^ 36 }
    requires least { 0 < least }
    ensures value { result ≡ Lookups.unit_count table.now start least }
    ensures few { result < 2 ^ 16 }
{
    let size = usize::from(u16_at(table, start + 2));
    if size < least {
        return 0;
    }
    records(table, u32::from(u16_at(table, start + 4)), start + 12, size)
}

/// Whether a unit ends a search, since its glyphs are 0xFFFF: the one, or the two of a segment.
fn ends_search(table: &[u8], at: usize, glyphs: u32) -> bool
    requires { at < 2 ^ 40 }
    ensures { result ≡ Lookups.ends_search table.now at glyphs }
{
    u16_at(table, at) == 0xFFFF && (glyphs == 1 || u16_at(table, at + 2) == 0xFFFF)
}

/// How many units a search goes over.
fn searched(table: &[u8], start: usize, least: usize, glyphs: u32) -> u32
    requires start { start < 2 ^ 36 }
    requires least { 0 < least }
    ensures value { result ≡ Lookups.searched table.now start least glyphs }
    ensures few { result < 2 ^ 16 }
{
    let count = unit_count(table, start, least);
    if 0 < count && ends_search(table, unit_at(table, start, count - 1), glyphs) {
        count - 1
    } else {
        count
    }
}

/// Where the segment begins that holds a glyph.
fn segment(table: &[u8], start: usize, least: usize, glyph: u32) -> Option<usize>
    requires start { start < 2 ^ 36 }
    requires least { 0 < least }
    ensures value { result ≡ Lookups.segment table.now start least glyph }
    ensures near { IfSome result (λ at. at < 2 ^ 38) }
{
    let place = found_within(searched(table, start, least, 2), |i| {
        let at = unit_at(table, start, i);
        side(
            glyph,
            u32::from(u16_at(table, at + 2)),
            u32::from(u16_at(table, at)),
        )
    });
    Some(unit_at(table, start, place?))
}

/// Where the unit begins that has a glyph alone.
fn single(table: &[u8], start: usize, least: usize, glyph: u32) -> Option<usize>
    requires start { start < 2 ^ 36 }
    requires least { 0 < least }
    ensures value { result ≡ Lookups.single table.now start least glyph }
    ensures near { IfSome result (λ at. at < 2 ^ 38) }
{
    let place = found_within(searched(table, start, least, 1), |i| {
        let there = u32::from(u16_at(table, unit_at(table, start, i)));
        side(glyph, there, there)
    });
    Some(unit_at(table, start, place?))
}

/// Where the value of a glyph stands among those of glyphs in a row, which begin at `at` with the
/// first glyph and how many there are.
fn in_row(table: &[u8], at: usize, size: usize, glyph: u32) -> Option<usize>
    requires at { at < 2 ^ 37 }
    requires size { size ≤ 4 }
    ensures value { result ≡ Lookups.in_row table.now at size glyph }
    ensures near { IfSome result (λ place. place < 2 ^ 38) }
{
    let first = u32::from(u16_at(table, at));
    if glyph < first || u32::from(u16_at(table, at + 2)) <= glyph - first {
        return None;
    }
    Some(at + 4 + size * (glyph - first) as usize)
}

/// A number of so many bytes, four at most.
fn number_of(table: &[u8], size: usize, at: usize) -> u32
    requires { at < 2 ^ 40 }
    ensures { result ≡ Lookups.number_of table.now size at }
{
    match size {
        1 => u32::from(u8_at(table, at)),
        2 => u32::from(u16_at(table, at)),
        3 => u24_at(table, at),
        4 => u32_at(table, at),
        _ => 0,
    }
}

impl<'a> Lookup<'a> {
    /// How many bytes a value has.
    fn size(&self) -> usize
        ensures value { result ≡ Lookups.size_of self.now.is_long }
        ensures some { 2 ≤ result }
        ensures few { result ≤ 4 }
    {
        if self.is_long { 4 } else { 2 }
    }

    /// Where the value of a glyph stands by the table, which may lead past its end.
    fn stated(&self, glyph: u32) -> Option<usize>
        requires { self.now.start < 2 ^ 36 }
        ensures value { result ≡ Lookups.stated self.now.table.now self.now.start
            (Lookups.size_of self.now.is_long) self.now.glyphs glyph }
        ensures near { IfSome result (λ at. at < 2 ^ 40) }
    {
        let (table, start, size) = (self.table, self.start, self.size());
        match u16_at(table, start) {
            0 if glyph < self.glyphs => Some(start + 2 + size * glyph as usize),
            2 => Some(segment(table, start, 4 + size, glyph)? + 4),
            4 => {
                let at = segment(table, start, 6, glyph)?;
                let first = u32::from(u16_at(table, at + 2));
                let values = start + usize::from(u16_at(table, at + 4));
                Some(values + size * glyph.saturating_sub(first) as usize)
            }
            6 => Some(single(table, start, 2 + size, glyph)? + 2),
            8 => in_row(table, start + 2, size, glyph),
            _ => None,
        }
    }

    /// Where the value of a glyph stands; none if the table names none, or lacks bytes of it. The
    /// values of format 10 are of other sizes, so it has none here.
    pub fn place(&self, glyph: u32) -> Option<usize>
        requires { self.now.start < 2 ^ 36 }
        ensures value { result ≡ Lookups.place_of self.now.table.now self.now.start
            self.now.is_long self.now.glyphs glyph }
        ensures inside { IfSome result
            (λ at. at + Lookups.size_of self.now.is_long ≤ length self.now.table.now) }
    {
        let at = self.stated(glyph)?;
        if at + self.size() <= self.table.len() {
            Some(at)
        } else {
            None
        }
    }

    /// The value of a glyph in a table of format 10.
    fn extended(&self, glyph: u32) -> Option<u32>
        requires { self.now.start < 2 ^ 36 }
        ensures { result ≡ Lookups.extended self.now.table.now self.now.start glyph }
    {
        let size = usize::from(u16_at(self.table, self.start + 2));
        if 4 < size {
            return None;
        }
        let at = in_row(self.table, self.start + 4, size, glyph)?;
        if at + size <= self.table.len() {
            Some(number_of(self.table, size, at))
        } else {
            None
        }
    }

    /// The number that a glyph has by the table; none if the table names none, or lacks bytes of
    /// it. In a table of format 10 it has the bytes that the table says, four at most.
    pub fn value(&self, glyph: u32) -> Option<u32>
        requires { self.now.start < 2 ^ 36 }
        ensures { result ≡ Lookups.value_of self.now.table.now self.now.start
            self.now.is_long self.now.glyphs glyph }
    {
        if u16_at(self.table, self.start) == 10 {
            return self.extended(glyph);
        }
        let at = self.place(glyph)?;
        if self.is_long {
            Some(long(self.table, at))
        } else {
            Some(u32::from(word(self.table, at)))
        }
    }
}
