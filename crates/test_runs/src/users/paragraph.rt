//! Spans of a text and of its glyphs, in both directions.
use crate::users::rows::{Asked, assert_rows};
use crate::users::shaping::{Shaper, by_graphemes, face_of, glyphs_of, towards};
use shape_buffer::buffer::{BufferClusterLevel, Direction, GlyphBuffer};
use shape_users::paragraph::{glyphs_of_text, text_of_glyphs};
use std::alloc::Global;
use std::fmt::Write;
use std::process::Abort;

/// Prints the text that the glyphs from one place up to another show, and the glyphs that show this
/// text.
fn print_shown(
    rt: &impl Abort,
    printed: &mut String,
    glyphs: &GlyphBuffer,
    start: usize,
    end: usize,
) {
    assert!(rt; start < end && end <= glyphs.len());
    let text = text_of_glyphs(glyphs, start, end, 5);
    let back = glyphs_of_text(glyphs, text);
    let (start, end) = (text.start, text.end);
    write!(
        printed,
        " text {start}..{end}, glyphs {}..{}",
        back.start, back.end
    )
    .expect(rt, "memory");
}

/// Prints what the glyphs from one place up to another show, as ` text 1..4, glyphs 1..3`: their
/// text, and the glyphs that show this text. The whole is `a`, `e`, U+0301, `x` in a direction,
/// whose graphemes begin at 0, 1 and 4 of its 5 bytes.
pub fn print_spans(
    rt: &impl Abort,
    alloc: Global,
    printed: &mut String,
    direction: Direction,
    start: &str,
    end: &str,
) {
    let (start, end) = (start.parse(), end.parse());
    let face = face_of(rt, alloc, "ae\u{301}x");
    let how = by_graphemes(&face, Shaper::Default);
    let how = towards(how, direction, BufferClusterLevel::MonotoneGraphemes);
    let glyphs = glyphs_of(rt, alloc, how, "ae\u{301}x");
    print_shown(
        rt,
        printed,
        &glyphs,
        start.expect(rt, "a place"),
        end.expect(rt, "a place"),
    );
}

/// The clusters are 0 1 1 4, and to the left 4 1 1 0: half of the accented letter shows all of it.
#[test]
fn spans_lead_there_and_back(rt: HostRuntime) {
    let rows = "0 | 1 -> text 0..1, glyphs 0..1
        1 | 2 -> text 1..4, glyphs 1..3
        2 | 4 -> text 1..5, glyphs 1..4";
    assert_rows(&rt, rt.alloc(), Asked::Spans(Direction::LeftToRight), rows);
    let rows = "0 | 1 -> text 4..5, glyphs 0..1
        0 | 2 -> text 1..5, glyphs 0..3
        2 | 4 -> text 0..4, glyphs 1..4";
    assert_rows(&rt, rt.alloc(), Asked::Spans(Direction::RightToLeft), rows);
}
