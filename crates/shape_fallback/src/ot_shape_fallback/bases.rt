//! All bases of a buffer, each with its marks.
//!
//! One walk finds the marks, and looks at the item before each first one: if that is no mark it is
//! a base, and its marks are counted. The span is marked unsafe to break, since it can't be shaped
//! in parts, and its marks are placed.
ghost use Rattle.std.specs.Prelude.{◌≡◌, ◌+◌, ◌-◌, ◌<◌, ◌≤◌, length, drop};
ghost use Rattle.std.specs.List.{prefix_len};
ghost use Rattle.shape_items.specs.Items.{is_mark_item};
ghost use Rattle.shape_buffer.specs.Outcome.{Made};
ghost use Rattle.shape_fallback.specs.Bases;

use crate::ot_shape_fallback::marks::{
    MarkFrame, first_state, make_base, place_marks_of_base, zero_marks,
};
use shape_buffer::buffer::{GlyphId, hb_buffer_t, hb_glyph_info_t};
use shape_buffer::interfaces::hb_font_t;
use shape_buffer::passing::passed_over;

/// Places the marks of one base, from its place up to another.
fn position_span<F: hb_font_t>(
    face: &F,
    frame: MarkFrame,
    buffer: &mut hb_buffer_t,
    start: usize,
    end: usize,
)
    requires ordered { start + 1 < end }
    requires within { end ≤ length buffer.old.items }
    ensures { buffer.new ≡ Bases.position_span (F.face face.now) frame buffer.old
        (record { start = start; end = end }) }
{
    buffer.unsafe_to_break(start, end);
    let info = buffer.infos()[start];
    let position = buffer.positions()[start];
    match face.glyph_extents(GlyphId(info.glyph_id)) {
        None => zero_marks(frame.adjust, buffer, start + 1, end),
        Some(extents) => {
            let base = make_base(face, frame, &info, position, extents);
            let first = first_state(base, position);
            place_marks_of_base(face, base, first, buffer, start + 1, end);
        }
    }
}

/// How many marks the list begins with.
fn marks_at_start(infos: &[hb_glyph_info_t]) -> usize
    ensures value { result ≡ prefix_len is_mark_item infos.now }
    ensures within { result ≤ length infos.now }
{
    infos
        .iter()
        .take_while(|info| info._hb_glyph_info_is_unicode_mark())
        .count()
}

/// Whether the item at a place is a mark.
fn is_mark_at(infos: &[hb_glyph_info_t], i: usize) -> bool
    requires { i < length infos.now }
    ensures { result ≡ Bases.begins_with_mark (drop i infos.now) }
{
    infos[i]._hb_glyph_info_is_unicode_mark()
}

/// Places the marks of the base at a place, if there is one with marks, and returns up to which
/// place all is done: up to the end of these marks, else of the item. A call of its own: inlined,
/// it leaves no register to the walk over letters without marks.
#[inline(never)]
fn position_at<F: hb_font_t>(
    face: &F,
    frame: MarkFrame,
    buffer: &mut hb_buffer_t,
    i: usize,
) -> usize
    requires { i < length buffer.old.items }
    ensures placed { buffer.new ≡ Bases.positioned_at (F.face face.now) frame i buffer.old }
    ensures end { result ≤ i + 1 + Bases.marks_from (i + 1) buffer.old }
{
    if buffer.infos()[i]._hb_glyph_info_is_unicode_mark() {
        return i + 1;
    }
    let marks = marks_at_start(&buffer.infos()[i + 1..]);
    if marks == 0 {
        return i + 1;
    }
    let end = i + 1 + marks;
    position_span(face, frame, buffer, i, end);
    end
}

/// Places the marks of the base before a place, if a mark stands there that isn't placed yet; those
/// before place `done` are. Returns up to which place all is done then.
fn position_before<F: hb_font_t>(
    face: &F,
    frame: MarkFrame,
    buffer: &mut hb_buffer_t,
    done: usize,
    i: usize,
) -> usize
    requires after { 0 < i }
    requires within { i < length buffer.old.items }
    requires marks { done ≤ i - 1 + Bases.marks_from (i - 1) buffer.old }
    ensures placed { buffer.new ≡ Bases.positioned_at (F.face face.now) frame (i - 1) buffer.old }
    ensures end { result ≤ i + Bases.marks_from i buffer.old }
{
    if i < done {
        return done;
    }
    if !is_mark_at(buffer.infos(), i) {
        return done;
    }
    position_at(face, frame, buffer, i - 1)
}

/// Places the marks of all bases. A base is looked for only before a mark, and marks that were
/// placed are skipped. Inlined, since a call would cost a short word without marks more than
/// looking for them.
#[inline(always)]
pub(crate) fn position_bases<F: hb_font_t>(face: &F, frame: MarkFrame, buffer: &mut hb_buffer_t)
    ensures { Made (Bases.bases_positioned (F.face face.now) frame) buffer.old buffer.new }
{
    let first = passed_over(buffer.infos(), |info| info._hb_glyph_info_is_unicode_mark());
    let mut done = 0;
    for i in first.max(1)..buffer.len() {
        done = position_before(face, frame, buffer, done, i);
    }
}
