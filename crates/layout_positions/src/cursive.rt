//! Cursive attachment (OpenType, `GPOS`, lookup type 3).
ghost use Rattle.std.specs.Prelude.{◌≡◌, ◌<◌, ◌+◌, ◌^◌, length};
ghost use Rattle.layout_positions.specs.Cursive;

use crate::anchors::{Anchor, anchor_there, number_there};
use crate::edits::{break_between, concat_between, position, put};
use crate::neighbours::{glyph_at, start_at, stop_before};
use crate::places::after;
use crate::sizes::{apart, footing, placed};
use crate::turning::attach;
use layout_matching::lookup::Lookup;
use layout_matching::skipping::item_at;
use shape_buffer::buffer::Direction;
use shape_buffer::wrapping::{difference, sum};
use shape_buffer::{GlyphPosition, hb_buffer_t};
use shape_font::bytes::{records, u16_at};

/// Where the lookup goes on, nowhere if it didn't apply, and how many links of chains it turned.
#[derive(Clone, Copy)]
pub struct Joined {
    pub next: Option<usize>,
    pub links: usize,
}

/// What a lookup returns that doesn't apply.
pub(crate) const UNJOINED: Joined = Joined {
    next: None,
    links: 0,
};

/// Whether the subtable has anchors for glyph number `number`.
fn has_anchors(table: &[u8], start: usize, number: u32) -> bool
    requires { start < 2 ^ 34 }
    ensures { result ≡ Cursive.has_anchors table.now start number }
{
    number < records(table, u32::from(u16_at(table, start + 4)), start + 6, 4)
}

/// Where a glyph is entered.
fn entry(lookup: &Lookup<'_>, start: usize, glyph: u32) -> Option<Anchor>
    requires { start < 2 ^ 34 }
    ensures { result ≡ Cursive.entry_of lookup.now start glyph }
{
    let number = number_there(lookup.table, start, start + 2, glyph)?;
    if has_anchors(lookup.table, start, number) {
        anchor_there(lookup, start, start + 6 + 4 * number as usize)
    } else {
        None
    }
}

/// Where a glyph is left.
fn exit(lookup: &Lookup<'_>, start: usize, glyph: u32) -> Option<Anchor>
    requires { start < 2 ^ 34 }
    ensures { result ≡ Cursive.exit_of lookup.now start glyph }
{
    let number = number_there(lookup.table, start, start + 2, glyph)?;
    if has_anchors(lookup.table, start, number) {
        anchor_there(lookup, start, start + 8 + 4 * number as usize)
    } else {
        None
    }
}

/// The advance reaches up to the anchor.
fn to_x(anchor: Anchor, position: GlyphPosition) -> GlyphPosition
    ensures { result ≡ Cursive.to_x anchor position }
{
    let mut position = position;
    position.x_advance = sum(anchor.x, position.x_offset);
    position
}

fn to_y(anchor: Anchor, position: GlyphPosition) -> GlyphPosition
    ensures { result ≡ Cursive.to_y anchor position }
{
    let mut position = position;
    position.y_advance = sum(anchor.y, position.y_offset);
    position
}

/// The glyph begins at the anchor.
fn from_x(anchor: Anchor, position: GlyphPosition) -> GlyphPosition
    ensures { result ≡ Cursive.from_x anchor position }
{
    let mut position = position;
    let before = sum(anchor.x, position.x_offset);
    position.x_advance = difference(position.x_advance, before);
    position.x_offset = difference(position.x_offset, before);
    position
}

fn from_y(anchor: Anchor, position: GlyphPosition) -> GlyphPosition
    ensures { result ≡ Cursive.from_y anchor position }
{
    let mut position = position;
    let before = sum(anchor.y, position.y_offset);
    position.y_advance = difference(position.y_advance, before);
    position.y_offset = difference(position.y_offset, before);
    position
}

/// The position of the first glyph of two, which the pen leaves at its exit.
fn left_at(direction: Direction, exit: Anchor, position: GlyphPosition) -> GlyphPosition
    ensures { result ≡ Cursive.left_at direction exit position }
{
    match direction {
        Direction::Invalid => position,
        Direction::LeftToRight => to_x(exit, position),
        Direction::RightToLeft => from_x(exit, position),
        Direction::TopToBottom => to_y(exit, position),
        Direction::BottomToTop => from_y(exit, position),
    }
}

/// The position of the second one, which the pen enters at its entry.
fn entered_at(direction: Direction, entry: Anchor, position: GlyphPosition) -> GlyphPosition
    ensures { result ≡ Cursive.entered_at direction entry position }
{
    match direction {
        Direction::Invalid => position,
        Direction::LeftToRight => from_x(entry, position),
        Direction::RightToLeft => to_x(entry, position),
        Direction::TopToBottom => from_y(entry, position),
        Direction::BottomToTop => {
            let mut position = position;
            position.y_advance = entry.y;
            position
        }
    }
}

fn gap_across(horizontal: bool, a: Anchor, b: Anchor) -> i32
    ensures { result ≡ Cursive.gap_across horizontal a b }
{
    if horizontal {
        difference(a.y, b.y)
    } else {
        difference(a.x, b.x)
    }
}

/// Lets one of two glyphs follow the other across the line: the first one the second if `reversed`.
/// Returns how many links that turned round.
fn join_across(
    buffer: &mut hb_buffer_t,
    reversed: bool,
    i: usize,
    j: usize,
    entry: Anchor,
    exit: Anchor,
) -> usize
    requires i { i < length buffer.old.items }
    requires j { j < length buffer.old.items }
    ensures made { buffer.new ≡ Cursive.joined_across reversed i j entry exit buffer.old }
    ensures links { result ≡ Cursive.links_across reversed i j buffer.old }
{
    let horizontal = buffer.direction().is_horizontal();
    if reversed {
        attach(buffer, i, j, gap_across(horizontal, entry, exit))
    } else {
        attach(buffer, j, i, gap_across(horizontal, exit, entry))
    }
}

/// Joins two glyphs along the line.
fn join_along(buffer: &mut hb_buffer_t, i: usize, j: usize, entry: Anchor, exit: Anchor)
    requires { j < length buffer.old.items }
    ensures made { buffer.new ≡ Cursive.joined_along i j entry exit buffer.old }
    ensures len { length buffer.new.items ≡ length buffer.old.items }
{
    let end = after(buffer.len(), j);
    break_between(buffer, i, end);
    let direction = buffer.direction();
    let first = position(buffer, i);
    put(buffer, i, left_at(direction, exit, first));
    let second = position(buffer, j);
    put(buffer, j, entered_at(direction, entry, second));
}

/// Joins the glyph at place `j` with the one at place `i` before it.
fn cursive_with(
    lookup: &Lookup<'_>,
    start: usize,
    buffer: &mut hb_buffer_t,
    j: usize,
    entry: Anchor,
    i: usize,
) -> Joined
    requires start { start < 2 ^ 34 }
    requires i { i < j }
    requires j { j < length buffer.old.items }
    ensures made { buffer.new
        ≡ (Cursive.cursive_with lookup.now start j entry buffer.old i).buffer }
    ensures next { result.next
        ≡ (Cursive.cursive_with lookup.now start j entry buffer.old i).next }
    ensures links { result.links ≡ Cursive.links_with lookup.now start j entry buffer.old i }
{
    let count = buffer.len();
    match exit(lookup, start, item_at(buffer.infos(), i).glyph_id) {
        Some(exit) => {
            join_along(buffer, i, j, placed(lookup, entry), placed(lookup, exit));
            let met = apart(lookup, entry, exit);
            let exit = footing(lookup, exit);
            let links = join_across(buffer, lookup.flags & 1 != 0, i, j, met, exit);
            Joined {
                next: Some(after(count, j)),
                links,
            }
        }
        None => {
            concat_between(buffer, i, after(count, j));
            UNJOINED
        }
    }
}

/// Applies cursive attachment to the glyph at place `j` and the one before it that the lookup sees.
pub fn apply_cursive(
    lookup: &Lookup<'_>,
    start: usize,
    buffer: &mut hb_buffer_t,
    j: usize,
) -> Joined
    requires start { start < 2 ^ 34 }
    requires inside { j < length buffer.old.items }
    ensures made { buffer.new ≡ (Cursive.cursive_applied lookup.now start j buffer.old).buffer }
    ensures next { result.next ≡ (Cursive.cursive_applied lookup.now start j buffer.old).next }
    ensures links { result.links ≡ Cursive.cursive_links lookup.now start j buffer.old }
{
    let count = buffer.len();
    let glyph = item_at(buffer.infos(), j).glyph_id;
    let Some(entry) = entry(lookup, start, glyph) else {
        return UNJOINED;
    };
    let stop = stop_before(lookup, buffer.infos(), j);
    match glyph_at(lookup, buffer.infos(), stop) {
        Some(i) => cursive_with(lookup, start, buffer, j, entry, i),
        None => {
            concat_between(buffer, start_at(stop), after(count, j));
            UNJOINED
        }
    }
}
