//! Kerning of a buffer by one subtable of the table.
//!
//! A glyph that waits is walked once. HarfBuzz looks for each glyph's right neighbour anew, in
//! the square of the text if it finds none.
ghost use Rattle.std.specs.Prelude.{◌≡◌, ◌+◌, ◌<◌, ◌^◌, length, is_some};
ghost use Rattle.std.specs.Option.{IfSome};
ghost use Rattle.std.specs.Int.RustNames.{bit_and};
ghost use Rattle.shape_items.specs.Buffer.{limit_of};
ghost use Rattle.kern_table.specs.Pairs.{IsRead};
ghost use Rattle.kern_table.specs.Walk;

use crate::pairs::{Subtable, pair_value, read_subtable};
use crate::sides::Sides;
use bitflags::Flags;
use font_sizes::{Scale, across, up};
use shape_buffer::buffer::{
    GlyphPosition, GlyphPropsFlags, hb_buffer_t, hb_glyph_info_t, hb_mask_t,
};
use shape_buffer::wrapping::{difference, sum};
use shape_font::metrics::half_below;

/// Whether a glyph between two others doesn't part them: a mark, or one of a default ignorable.
pub fn is_skipped(item: &hb_glyph_info_t) -> bool
    ensures { result ≡ Walk.is_skipped item.now }
{
    item._hb_glyph_info_get_glyph_class()
        .contains(GlyphPropsFlags::MARK)
        || item._hb_glyph_info_is_default_ignorable()
}

/// A position with a longer advance along the line.
fn moved_on(horizontal: bool, by: i32, position: GlyphPosition) -> GlyphPosition
    ensures { result ≡ Walk.moved_on horizontal by position }
{
    let mut position = position;
    if horizontal {
        position.x_advance = sum(position.x_advance, by);
    } else {
        position.y_advance = sum(position.y_advance, by);
    }
    position
}

/// A position moved along the line.
fn moved(horizontal: bool, by: i32, position: GlyphPosition) -> GlyphPosition
    ensures { result ≡ Walk.moved horizontal by position }
{
    let mut position = position;
    if horizontal {
        position.x_offset = sum(position.x_offset, by);
    } else {
        position.y_offset = sum(position.y_offset, by);
    }
    position
}

/// Adds to a glyph's advance along the line.
pub fn move_on(buffer: &mut hb_buffer_t, i: usize, along: bool, by: i32)
    requires { i < length buffer.old.items }
    ensures { buffer.new
        ≡ Walk.position_put i (Walk.moved_on along by (Walk.position_at buffer.old i)) buffer.old }
{
    let position = moved_on(along, by, buffer.positions()[i]);
    buffer.set_position(i, position);
}

/// Adds to a glyph's advance along the line, and moves the glyph by as much.
pub fn move_both(buffer: &mut hb_buffer_t, j: usize, along: bool, by: i32)
    requires { j < length buffer.old.items }
    ensures { buffer.new ≡ Walk.position_put j
        (Walk.moved along by (Walk.moved_on along by (Walk.position_at buffer.old j))) buffer.old }
{
    let position = moved_on(along, by, buffer.positions()[j]);
    buffer.set_position(j, moved(along, by, position));
}

/// A value along a line of this kind, at a size of the font.
fn sized(scale: Option<Scale>, horizontal: bool, value: i32) -> i32
    ensures { result ≡ Walk.sized scale horizontal value }
{
    if horizontal {
        across(scale, value)
    } else {
        up(scale, value)
    }
}

/// Moves two glyphs apart by a value, at a size of the font: half of it, downwards, goes to the
/// advance of the first, the rest to the advance of the second, which is moved by the rest too.
/// What lies between them is unsafe to break. 0 changes nothing.
fn put_pair(scale: Option<Scale>, buffer: &mut hb_buffer_t, i: usize, j: usize, value: i32)
    requires after { i < j }
    requires inside { j < length buffer.old.items }
    ensures { buffer.new ≡ Walk.pair_moved scale i j value buffer.old }
{
    let count = buffer.len();
    if value == 0 || count <= j {
        return;
    }
    let along = buffer.direction().is_horizontal();
    let by = sized(scale, along, value);
    let (first, second) = (half_below(by), difference(by, half_below(by)));
    move_on(buffer, i, along, first);
    move_both(buffer, j, along, second);
    buffer.unsafe_to_break(i, j + 1);
}

/// The same; the number of items and the limit stay.
#[tactic(auto, using(crate::specs::CountLaws::length_pair_moved, crate::specs::CountLaws::limit_pair_moved))]
fn move_pair(scale: Option<Scale>, buffer: &mut hb_buffer_t, i: usize, j: usize, value: i32)
    requires after { i < j }
    requires inside { j < length buffer.old.items }
    ensures made { buffer.new ≡ Walk.pair_moved scale i j value buffer.old }
    ensures len { length buffer.new.items ≡ length buffer.old.items }
    ensures limit { limit_of buffer.new ≡ limit_of buffer.old }
{
    put_pair(scale, buffer, i, j, value);
}

/// Moves two glyphs apart by their value in a subtable.
fn kern_pair(
    subtable: Subtable<'_>,
    scale: Option<Scale>,
    buffer: &mut hb_buffer_t,
    i: usize,
    j: usize,
)
    requires read { IsRead subtable }
    requires after { i < j }
    requires inside { j < length buffer.old.items }
    ensures made { buffer.new
        ≡ Walk.pair_kerned scale subtable.entry.kern.now subtable.entry.start i j buffer.old }
    ensures len { length buffer.new.items ≡ length buffer.old.items }
    ensures limit { limit_of buffer.new ≡ limit_of buffer.old }
{
    let (left, right) = (buffer.infos()[i].glyph_id, buffer.infos()[j].glyph_id);
    let value = pair_value(subtable, left, right);
    move_pair(scale, buffer, i, j, value);
}

/// Kerns glyph `j` with the one that waits at its left, if kerning is on for it and it isn't
/// skipped. Returns which one waits after it.
fn kern_at(
    subtable: Subtable<'_>,
    scale: Option<Scale>,
    mask: hb_mask_t,
    buffer: &mut hb_buffer_t,
    j: usize,
    left: Option<usize>,
) -> Option<usize>
    requires read { IsRead subtable }
    requires inside { j < length buffer.old.items }
    requires after { IfSome left (λ i. i < j) }
    ensures made { buffer.new
        ≡ Walk.kerned_at scale subtable.entry.kern.now subtable.entry.start mask j left buffer.old }
    ensures waits { result ≡ Walk.left_after mask j left buffer.old.items }
    ensures before { IfSome result (λ i. i < j + 1) }
    ensures len { length buffer.new.items ≡ length buffer.old.items }
    ensures limit { limit_of buffer.new ≡ limit_of buffer.old }
{
    let item = buffer.infos()[j];
    if left.is_some() && is_skipped(&item) {
        return left;
    }
    if item.mask & mask == 0 {
        return None;
    }
    if let Some(i) = left {
        kern_pair(subtable, scale, buffer, i, j);
    }
    Some(j)
}

/// Kerns a buffer from left to right by a subtable whose head was read, as [`kern_all`] by its
/// place.
#[tactic(auto, using(crate::specs::CountLaws::length_concat, crate::specs::CountLaws::limit_concat, crate::proofs::SubtableLemmas::kerned_to_next_buffer, crate::proofs::SubtableLemmas::kerned_to_next_left))]
pub(crate) fn kern_each(
    subtable: Subtable<'_>,
    scale: Option<Scale>,
    mask: hb_mask_t,
    buffer: &mut hb_buffer_t,
)
    requires { IsRead subtable }
    ensures made { buffer.new
        ≡ Walk.kerned scale subtable.entry.kern.now subtable.entry.start mask buffer.old }
    ensures len { length buffer.new.items ≡ length buffer.old.items }
    ensures limit { limit_of buffer.new ≡ limit_of buffer.old }
{
    buffer.unsafe_to_concat(0, buffer.len());
    let mut left = None;
    for j in 0..buffer.len() {
        left = kern_at(subtable, scale, mask, buffer, j, left);
    }
}

/// Kerns a buffer from left to right by the subtable of the table that begins at `start`: each
/// glyph for which kerning is on with the next one for which it is, if only glyphs that are skipped
/// stand between them. Values are scaled if the font has a size. Takes no memory, and a step for
/// each glyph.
pub fn kern_all(
    kern: &[u8],
    scale: Option<Scale>,
    start: usize,
    mask: hb_mask_t,
    buffer: &mut hb_buffer_t,
)
    requires { start < 2 ^ 34 }
    ensures made { buffer.new ≡ Walk.kerned scale kern.now start mask buffer.old }
    ensures len { length buffer.new.items ≡ length buffer.old.items }
    ensures limit { limit_of buffer.new ≡ limit_of buffer.old }
{
    let subtable = read_subtable(kern, start, Sides::none());
    kern_each(subtable, scale, mask, buffer);
}
