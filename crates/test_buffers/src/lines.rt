//! Lines of glyphs that were put together by hand.
//!
//! The gate's script counts growths: a test that cuts a buffer without glyphs has as many as one
//! that cuts none. It refuses each growth of the test `growths` in turn.

use crate::support::{assert_same, assert_that, filled};
use shape_buffer::buffer::{Direction, GlyphBuffer, ShapeError, UnicodeBuffer};
use shape_lines::{can_cut, cut_lines};
use std::alloc::Global;
use std::process::Abort;
use std::test::Fail;

/// Two letters, a space and a letter, in a text that ends at 4.
fn glyphs(rt: &(impl Abort + AllocGlobal)) -> Result<GlyphBuffer, ShapeError> {
    let mut buffer = filled(rt, "0/0+600 1/0+500 2/0+250 3/0+300")?;
    buffer.set_direction(Direction::LeftToRight);
    Ok(buffer.into_glyphs())
}

/// Some glyphs, and none.
fn begun(rt: &(impl Abort + AllocGlobal)) -> (GlyphBuffer, GlyphBuffer) {
    let text = glyphs(rt).expect(rt, "memory");
    let none = UnicodeBuffer::new(rt.alloc()).into_inner().into_glyphs();
    assert_same(rt, (text.len(), none.len()), (4, 0));
    (text, none)
}

/// How many lines glyphs are cut into: no two of the text fit one. Refuses if memory is refused.
fn count_lines(
    rt: &impl Abort,
    alloc: Global,
    glyphs: &GlyphBuffer,
    text_end: u32,
) -> Result<usize, ShapeError> {
    assert!(rt; can_cut(glyphs, text_end));
    Ok(cut_lines(alloc, glyphs, text_end, 100)?.len())
}

#[test]
fn glyphs_are_begun(rt: HostRuntime) {
    begun(&rt);
}

#[test]
fn no_glyphs_make_no_line(rt: HostRuntime) {
    let (text, none) = begun(&rt);
    assert_that(&rt, can_cut(&text, 4) && !can_cut(&text, 3));
    assert_same(&rt, count_lines(&rt, rt.alloc(), &none, 0), Ok(0));
}

#[test]
fn growths(rt: HostRuntime) -> Result<(), Fail> {
    let text = glyphs(&rt)?;
    match count_lines(&rt, rt.alloc(), &text, 4) {
        Ok(count) => {
            assert_same(&rt, count, 4);
            Ok(())
        }
        Err(cause) => {
            assert_same(&rt, cause, ShapeError::Memory);
            assert_same(&rt, text.len(), 4);
            assert_same(&rt, count_lines(&rt, rt.alloc(), &text, 4), Ok(4));
            Err(Fail::from("refused"))
        }
    }
}
