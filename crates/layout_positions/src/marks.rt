//! Marks attached to bases, to ligatures and to marks (OpenType, `GPOS`, lookup types 4, 5 and 6).
ghost use Rattle.std.specs.Prelude.{◌≡◌, ◌<◌, ◌+◌, ◌^◌, length, None};
ghost use Rattle.std.specs.Option.{IfSome, option_and_then};
ghost use Rattle.layout_positions.specs.Edits.{concat_marked};
ghost use Rattle.layout_positions.specs.Flagged.{IsFlagged};
ghost use Rattle.layout_positions.specs.Marks;

use crate::anchors::{Anchor, anchor_of_class, mark_anchor, mark_class, number_there};
use crate::attachment::{MARK_ATTACHED, chain};
use crate::edits::{asks_for_concat, concat_between, position, put};
use crate::flagged::{Flagged, break_from, none_flagged};
use crate::neighbours::{glyph_at, start_at, stop_before};
use crate::places::after;
use crate::sizes::{apart, footing};
use layout_matching::lookup::Lookup;
use layout_matching::skipping::item_at;
use layout_tables::offsets::offset16;
use shape_buffer::wrapping::difference;
use shape_buffer::{GlyphPosition, hb_buffer_t, hb_glyph_info_t};
use shape_font::bytes::{records, u16_at};

/// A mark, the glyph that it may stand on, which mark of its subtable it is, and what is marked
/// unsafe to break.
#[derive(Clone, Copy)]
pub struct Pairing {
    pub mark: usize,
    pub base: usize,
    pub number: u32,
    pub flagged: Flagged,
}

/// A mark: its place, and which one of its subtable it is.
#[derive(Clone, Copy)]
pub struct Mark {
    pub place: usize,
    pub number: u32,
}

/// The place where a lookup goes on, none if it didn't apply, and what is marked unsafe to break.
#[derive(Clone, Copy)]
pub struct Attached {
    pub next: Option<usize>,
    pub flagged: Flagged,
}

/// The position of a mark whose anchor stands on that of the glyph at place `base`.
fn mark_position(at: &Pairing, mark: Anchor, base: Anchor, position: GlyphPosition) -> GlyphPosition
    ensures { result ≡ Marks.mark_position at.now.mark at.now.base mark base position }
{
    let mut position = position;
    position.x_offset = difference(base.x, mark.x);
    position.y_offset = difference(base.y, mark.y);
    position.attach_chain = chain(at.mark, at.base);
    position.attach_type = MARK_ATTACHED;
    position
}

/// Attaches a mark. Returns the place where the lookup goes on.
fn put_mark(buffer: &mut hb_buffer_t, at: &Pairing, mark: Anchor, base: Anchor) -> Attached
    requires inside { at.now.mark < length buffer.old.items }
    requires flagged { IsFlagged at.now.flagged buffer.old.items }
    ensures made { buffer.new
        ≡ (Marks.mark_put at.now.mark at.now.base mark buffer.old base).buffer }
    ensures next { result.next
        ≡ (Marks.mark_put at.now.mark at.now.base mark buffer.old base).next }
    ensures flagged { IsFlagged result.flagged buffer.new.items }
{
    let next = after(buffer.len(), at.mark);
    let flagged = break_from(buffer, at.flagged, at.base, next);
    let there = position(buffer, at.mark);
    put(buffer, at.mark, mark_position(at, mark, base, there));
    Attached {
        next: Some(next),
        flagged,
    }
}

/// Where the array of marks stands.
fn mark_array(table: &[u8], start: usize) -> Option<usize>
    requires { start < 2 ^ 34 }
    ensures value { result ≡ Marks.mark_array table.now start }
    ensures near { IfSome result (λ a. a < 2 ^ 35) }
{
    offset16(table, start, start + 8)
}

/// The anchor of a row of a matrix for the class of mark number `number`.
fn base_anchor(
    lookup: &Lookup<'_>,
    start: usize,
    number: u32,
    row: u32,
    matrix: Option<usize>,
) -> Option<Anchor>
    requires start { start < 2 ^ 34 }
    requires matrix { IfSome matrix (λ m. m < 2 ^ 36) }
    ensures { result ≡ option_and_then (Marks.base_anchor lookup.now start number row) matrix }
{
    let table = lookup.table;
    let class = mark_class(table, mark_array(table, start), number);
    anchor_of_class(lookup, matrix?, u16_at(table, start + 6), row, class)
}

/// Attaches a mark to a glyph by a row of a matrix, if that has an anchor for the mark's class.
fn attach_mark(
    lookup: &Lookup<'_>,
    start: usize,
    buffer: &mut hb_buffer_t,
    at: &Pairing,
    row: u32,
    matrix: Option<usize>,
) -> Attached
    requires start { start < 2 ^ 34 }
    requires matrix { IfSome matrix (λ m. m < 2 ^ 36) }
    requires inside { at.now.mark < length buffer.old.items }
    requires flagged { IsFlagged at.now.flagged buffer.old.items }
    ensures made { buffer.new ≡ (Marks.mark_attached lookup.now start at.now.mark at.now.base
        at.now.number row matrix buffer.old).buffer }
    ensures next { result.next ≡ (Marks.mark_attached lookup.now start at.now.mark at.now.base
        at.now.number
        row matrix buffer.old).next }
    ensures flagged { IsFlagged result.flagged buffer.new.items }
{
    match base_anchor(lookup, start, at.number, row, matrix) {
        Some(base) => {
            let marks = mark_array(lookup.table, start);
            let mark = mark_anchor(lookup, marks, at.number);
            let met = apart(lookup, base, mark);
            put_mark(buffer, at, footing(lookup, mark), met)
        }
        None => Attached {
            next: None,
            flagged: at.flagged,
        },
    }
}

/// The row of the glyph at place `j` in the subtable.
fn row(lookup: &Lookup<'_>, start: usize, buffer: &hb_buffer_t, j: usize) -> Option<u32>
    requires { start < 2 ^ 34 }
    ensures { result ≡ Marks.row_of lookup.now start j buffer.now }
{
    let glyph = item_at(buffer.infos(), j).glyph_id;
    number_there(lookup.table, start, start + 4, glyph)
}

/// Marks a mark and what is before it, from a place on, unsafe to concat. The lookup doesn't apply.
#[tactic(auto, using(crate::proofs::FlaggedLemmas::concat_unasked))]
pub(crate) fn concat_from(
    buffer: &mut hb_buffer_t,
    flagged: Flagged,
    from: usize,
    mark: usize,
) -> Attached
    requires inside { mark < length buffer.old.items }
    requires flagged { IsFlagged flagged buffer.old.items }
    ensures made { buffer.new ≡ concat_marked from (mark + 1) buffer.old }
    ensures none { result.next ≡ None }
    ensures flagged { IsFlagged result.flagged buffer.new.items }
{
    if !asks_for_concat(buffer) {
        return Attached {
            next: None,
            flagged,
        };
    }
    let end = after(buffer.len(), mark);
    concat_between(buffer, from, end);
    Attached {
        next: None,
        flagged: none_flagged(),
    }
}

/// Attaches a mark to a glyph of the subtable's list of bases, or of marks.
pub(crate) fn put_on_glyph(
    lookup: &Lookup<'_>,
    start: usize,
    buffer: &mut hb_buffer_t,
    at: &Pairing,
) -> Attached
    requires start { start < 2 ^ 34 }
    requires inside { at.now.mark < length buffer.old.items }
    requires flagged { IsFlagged at.now.flagged buffer.old.items }
    ensures made { buffer.new
        ≡ (Marks.mark_on_glyph lookup.now start at.now.mark at.now.number buffer.old
        at.now.base).buffer }
    ensures next { result.next ≡ (Marks.mark_on_glyph lookup.now start at.now.mark at.now.number
        buffer.old
        at.now.base).next }
    ensures flagged { IsFlagged result.flagged buffer.new.items }
{
    match row(lookup, start, buffer, at.base) {
        Some(row) => {
            let matrix = offset16(lookup.table, start, start + 10);
            attach_mark(lookup, start, buffer, at, row, matrix)
        }
        None => concat_from(buffer, at.flagged, at.base, at.mark),
    }
}

/// Where the matrix of the components of a ligature stands, by its row.
fn ligature_matrix(table: &[u8], start: usize, row: u32) -> Option<usize>
    requires { start < 2 ^ 34 }
    ensures value { result ≡ Marks.ligature_matrix table.now start row }
    ensures near { IfSome result (λ m. m < 2 ^ 36) }
{
    let array = offset16(table, start, start + 10)?;
    if records(table, u32::from(u16_at(table, array)), array + 2, 2) <= row {
        return None;
    }
    offset16(table, array, array + 2 + 2 * row as usize)
}

/// The component, from 0 on, of `count` of a ligature that a mark stands on.
fn component(count: u16, ligature: &hb_glyph_info_t, mark: &hb_glyph_info_t) -> u16
    requires { 0 < count }
    ensures { result ≡ Marks.component_of count ligature.now mark.now }
{
    let id = ligature._hb_glyph_info_get_ligature_id();
    let there = mark._hb_glyph_info_get_ligature_component();
    if 0 < id && id == mark._hb_glyph_info_get_ligature_id() && 0 < there {
        count.min(u16::from(there)).saturating_sub(1)
    } else {
        count.saturating_sub(1)
    }
}

/// Attaches a mark to a component of a ligature.
fn put_on_matrix(
    lookup: &Lookup<'_>,
    start: usize,
    buffer: &mut hb_buffer_t,
    at: &Pairing,
    matrix: usize,
) -> Attached
    requires start { start < 2 ^ 34 }
    requires matrix { matrix < 2 ^ 36 }
    requires inside { at.now.mark < length buffer.old.items }
    requires flagged { IsFlagged at.now.flagged buffer.old.items }
    ensures made { buffer.new ≡ (Marks.mark_on_matrix lookup.now start at.now.mark at.now.base
        at.now.number buffer.old matrix).buffer }
    ensures next { result.next ≡ (Marks.mark_on_matrix lookup.now start at.now.mark at.now.base
        at.now.number
        buffer.old matrix).next }
    ensures flagged { IsFlagged result.flagged buffer.new.items }
{
    let count = u16_at(lookup.table, matrix);
    if count == 0 {
        return concat_from(buffer, at.flagged, at.base, at.mark);
    }
    let ligature = item_at(buffer.infos(), at.base);
    let there = component(count, &ligature, &item_at(buffer.infos(), at.mark));
    attach_mark(lookup, start, buffer, at, u32::from(there), Some(matrix))
}

/// The matrix of the ligature at place `j`.
fn matrix_at(lookup: &Lookup<'_>, start: usize, buffer: &hb_buffer_t, j: usize) -> Option<usize>
    requires { start < 2 ^ 34 }
    ensures value { result
        ≡ option_and_then (Marks.ligature_matrix lookup.now.table.now start)
        (Marks.row_of lookup.now start j buffer.now) }
    ensures near { IfSome result (λ m. m < 2 ^ 36) }
{
    let row = row(lookup, start, buffer, j)?;
    ligature_matrix(lookup.table, start, row)
}

/// Attaches a mark to a ligature of the subtable's list.
pub(crate) fn put_on_ligature(
    lookup: &Lookup<'_>,
    start: usize,
    buffer: &mut hb_buffer_t,
    at: &Pairing,
) -> Attached
    requires start { start < 2 ^ 34 }
    requires inside { at.now.mark < length buffer.old.items }
    requires flagged { IsFlagged at.now.flagged buffer.old.items }
    ensures made { buffer.new ≡ (Marks.mark_on_ligature lookup.now start at.now.mark at.now.number
        buffer.old at.now.base).buffer }
    ensures next { result.next ≡ (Marks.mark_on_ligature lookup.now start at.now.mark at.now.number
        buffer.old
        at.now.base).next }
    ensures flagged { IsFlagged result.flagged buffer.new.items }
{
    match matrix_at(lookup, start, buffer, at.base) {
        Some(matrix) => put_on_matrix(lookup, start, buffer, at, matrix),
        None => concat_from(buffer, at.flagged, at.base, at.mark),
    }
}

/// The lookup as it looks for the mark before: its flags skip no class of glyphs.
fn for_marks<'a>(lookup: &Lookup<'a>) -> Lookup<'a>
    ensures { result ≡ Marks.for_marks lookup.now }
{
    let mut lookup = *lookup;
    lookup.flags &= 0xFFF1;
    lookup
}

/// Whether two marks stand on one glyph, or on one component of a ligature, or one of them is a
/// ligature.
fn are_together(x: &hb_glyph_info_t, y: &hb_glyph_info_t) -> bool
    ensures { result ≡ Marks.are_together x.now y.now }
{
    let (a, b) = (
        x._hb_glyph_info_get_ligature_id(),
        y._hb_glyph_info_get_ligature_id(),
    );
    let (c, d) = (
        x._hb_glyph_info_get_ligature_component(),
        y._hb_glyph_info_get_ligature_component(),
    );
    if a == b {
        a == 0 || c == d
    } else {
        (0 < a && c == 0) || (0 < b && d == 0)
    }
}

/// Attaches a mark to the mark before.
fn put_on_mark(
    lookup: &Lookup<'_>,
    start: usize,
    buffer: &mut hb_buffer_t,
    at: &Pairing,
) -> Attached
    requires start { start < 2 ^ 34 }
    requires inside { at.now.mark < length buffer.old.items }
    requires flagged { IsFlagged at.now.flagged buffer.old.items }
    ensures made { buffer.new
        ≡ (Marks.mark_on_mark lookup.now start at.now.mark at.now.number buffer.old
        at.now.base).buffer }
    ensures next { result.next ≡ (Marks.mark_on_mark lookup.now start at.now.mark at.now.number
        buffer.old
        at.now.base).next }
    ensures flagged { IsFlagged result.flagged buffer.new.items }
{
    let other = item_at(buffer.infos(), at.base);
    let is_mark = other._hb_glyph_info_get_glyph_class().0 & 8 != 0;
    if is_mark && are_together(&item_at(buffer.infos(), at.mark), &other) {
        put_on_glyph(lookup, start, buffer, at)
    } else {
        concat_from(buffer, at.flagged, at.base, at.mark)
    }
}

/// Attaches a mark to the mark before it.
pub(crate) fn attach_to_mark(
    lookup: &Lookup<'_>,
    start: usize,
    buffer: &mut hb_buffer_t,
    mark: Mark,
    flagged: Flagged,
) -> Attached
    requires start { start < 2 ^ 34 }
    requires inside { mark.place < length buffer.old.items }
    requires flagged { IsFlagged flagged buffer.old.items }
    ensures made { buffer.new
        ≡ (Marks.mark_mark_at lookup.now start mark.place buffer.old mark.number).buffer }
    ensures next { result.next
        ≡ (Marks.mark_mark_at lookup.now start mark.place buffer.old mark.number).next }
    ensures flagged { IsFlagged result.flagged buffer.new.items }
{
    let seen = for_marks(lookup);
    let stop = stop_before(&seen, buffer.infos(), mark.place);
    match glyph_at(&seen, buffer.infos(), stop) {
        Some(base) => {
            let at = Pairing {
                mark: mark.place,
                base,
                number: mark.number,
                flagged,
            };
            put_on_mark(lookup, start, buffer, &at)
        }
        None => concat_from(buffer, flagged, start_at(stop), mark.place),
    }
}
