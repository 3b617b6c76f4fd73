//! Glyphs of characters: formats 0, 4, 6, 10, 12 and 13 of the table `cmap`, and what pages of old
//! fonts add.
ghost use Rattle.std.specs.Prelude.{◌≡◌, ◌<◌, ◌^◌};
ghost use Rattle.std.specs.Option.{IfSome};
ghost use Rattle.shape_font.specs.Cmap.{glyph_0, side_of_segment, segment_of, segment_glyph, glyph_of_segments, listed_glyph, side_of_group};
ghost use Rattle.shape_font.specs.Cmap.{group_of, group_glyph, groups_of, glyph_of_groups, cmap_glyph, mapped_glyph};

use crate::bytes::{long, records, u8_at, u16_at, u32_at};
use crate::font_pages::{FontPage, place};
use crate::search::{found, found_within, side, side_by_end};
use std::cmp::Ordering;

/// The glyph of a character by a table of format 0, or 0.
fn by_bytes(table: &[u8], c: u32) -> u32
    ensures { result ≡ glyph_0 table.now c }
{
    if c < 256 {
        u32::from(u8_at(table, 6 + c as usize))
    } else {
        0
    }
}

/// Where a character stands to segment `i` of `count`.
fn segment_side(table: &[u8], count: u32, c: u32, i: u32) -> Ordering
    ensures { result ≡ side_of_segment table.now count c i }
{
    let (n, k) = (count as usize, i as usize);
    let start = u32::from(u16_at(table, 16 + 2 * n + 2 * k));
    side_by_end(c, start, u32::from(u16_at(table, 14 + 2 * k)))
}

/// The segment that holds the character.
fn segment(table: &[u8], count: u32, c: u32) -> Option<u32>
    ensures { result ≡ segment_of table.now count c }
{
    let room = records(table, count, 14, 2);
    found(room, |i| segment_side(table, count, c, i))
}

/// The glyph that segment `i` of `count` gives a character of its own, or 0.
fn in_segment(table: &[u8], count: u32, c: u32, i: u32) -> u32
    ensures { result ≡ segment_glyph table.now count c i }
{
    let (n, k) = (count as usize, i as usize);
    let start = u32::from(u16_at(table, 16 + 2 * n + 2 * k));
    let delta = u64::from(u16_at(table, 16 + 4 * n + 2 * k));
    let at = 16 + 6 * n + 2 * k;
    let range = u16_at(table, at);
    if range == 0 {
        return ((u64::from(c) + delta) % 65536) as u32;
    }
    let glyph = u16_at(
        table,
        at + usize::from(range) + 2 * c.saturating_sub(start) as usize,
    );
    if glyph == 0 {
        0
    } else {
        ((u64::from(glyph) + delta) % 65536) as u32
    }
}

/// The glyph of a character by `count` segments, or 0.
fn by_segments(table: &[u8], count: u32, c: u32) -> u32
    ensures { result ≡ glyph_of_segments table.now count c }
{
    match segment(table, count, c) {
        Some(i) => in_segment(table, count, c, i),
        None => 0,
    }
}

/// The glyph of a character if `count` characters in a row from `start` on have theirs listed at
/// `at`, or 0.
fn by_list(table: &[u8], start: u32, count: u32, at: usize, c: u32) -> u32
    requires { at < 2 ^ 32 }
    ensures { result ≡ listed_glyph table.now start count at c }
{
    if c < start || count <= c - start {
        return 0;
    }
    u32::from(u16_at(table, at + 2 * (c - start) as usize))
}

/// How many groups a table of format 12 or 13 has room for, at most as many as it says.
fn groups(table: &[u8]) -> u32
    ensures { result ≡ groups_of table.now }
{
    records(table, u32_at(table, 12), 16, 12)
}

/// Where a character stands to group `i`.
fn group_side(table: &[u8], c: u32, i: u32) -> Ordering
    requires { i < groups_of table.now }
    ensures { result ≡ side_of_group table.now c i }
{
    let at = 16 + 12 * i as usize;
    side(c, long(table, at), long(table, at + 4))
}

/// The group that holds the character.
fn group(table: &[u8], c: u32) -> Option<u32>
    ensures found { result ≡ group_of table.now c }
    ensures within { IfSome result (λ i. i < groups_of table.now) }
{
    found_within(
        groups(table),
        |i|
            requires { i < groups_of table.now }
        { group_side(table, c, i) },
    )
}

/// The glyph that group `i` gives a character of its own, as 32 bits hold it; `one` if a group has
/// one glyph for all.
fn in_group(table: &[u8], one: bool, c: u32, i: u32) -> u32
    requires { i < groups_of table.now }
    ensures { result ≡ group_glyph table.now one c i }
{
    let start = long(table, 16 + 12 * i as usize);
    let first = u64::from(long(table, 24 + 12 * i as usize));
    let further = if one {
        0
    } else {
        u64::from(c.saturating_sub(start))
    };
    ((first + further) % 0x1_0000_0000) as u32
}

/// The glyph of a character by a table of format 12, or 13 if groups have one glyph for all; or 0.
fn by_groups(table: &[u8], one: bool, c: u32) -> u32
    ensures { result ≡ glyph_of_groups table.now one c }
{
    match group(table, c) {
        Some(i) => in_group(table, one, c, i),
        None => 0,
    }
}

/// The glyph of a character by the table's format, or 0. It may be past the last glyph of the face.
pub fn glyph(table: &[u8], c: u32) -> u32
    ensures { result ≡ cmap_glyph table.now c }
{
    match u16_at(table, 0) {
        0 => by_bytes(table, c),
        4 => by_segments(table, u32::from(u16_at(table, 6) / 2), c),
        6 => by_list(
            table,
            u32::from(u16_at(table, 6)),
            u32::from(u16_at(table, 8)),
            10,
            c,
        ),
        10 => by_list(table, u32_at(table, 12), u32_at(table, 16), 20, c),
        12 => by_groups(table, false, c),
        13 => by_groups(table, true, c),
        _ => 0,
    }
}

/// The glyph of a character, or 0: the one at its own number, else the one at its code in the page.
pub fn mapped(table: &[u8], page: FontPage, c: u32) -> u32
    ensures { result ≡ mapped_glyph table.now page c }
{
    let found = glyph(table, c);
    if found != 0 {
        return found;
    }
    match place(page, c) {
        Some(code) => glyph(table, code),
        None => 0,
    }
}
