//! A run that kerns by the table `kern` of the tests' font, in which A and B are moved together by
//! 50, B and A by 35; and what it leaves if a growth of its memory is refused.

use crate::comparing::{assert_same, assert_that};
use crate::tiny::DIGITS;
use kern_table::KernTable;
use shape_buffer::Direction;
use shape_buffer::buffer::{Feature, hb_tag_t};
use shape_font::FontFace;
use shape_pipeline::{
    DEFAULT_SHAPER, GlyphBuffer, ShapeError, ShapeFault, UnicodeBuffer, hb_font_t, hb_ot_layout_t,
    hb_ot_shaper_t, shape,
};
use shape_unicode::UnicodeDatabase;
use std::alloc::Global;
use std::process::Abort;
use std::test::Fail;

const KERN: hb_tag_t = hb_tag_t(0x6B65_726E);

/// A buffer with ABA after what it has.
fn to_be_kerned(mut buffer: UnicodeBuffer) -> Result<UnicodeBuffer, ShapeError> {
    buffer.push_str("ABA")?;
    buffer.set_direction(Direction::LeftToRight);
    Ok(buffer)
}

/// The glyphs of a text by an engine, or a refusal. The proof of this takes a fraction of what the
/// same call takes if the types are known.
fn shaped_by<F, M, S>(
    alloc: Global,
    face: &F,
    shaper: &S,
    features: &[Feature],
    text: UnicodeBuffer,
) -> Result<GlyphBuffer, ShapeFault>
where
    F: hb_font_t,
    M: hb_ot_layout_t<F>,
    S: hb_ot_shaper_t<UnicodeDatabase, F, M>,
{
    shape::<UnicodeDatabase, F, M, S>(alloc, face, shaper, features, text)
}

/// The advances and offsets of ABA, kerned at its second letter alone.
const MOVED: [(i32, i32); 3] = [(575, 0), (597, -25), (583, -17)];

/// Compares advances and offsets with these. This takes no memory.
fn assert_moved(rt: &impl Abort, glyphs: &GlyphBuffer) {
    assert_same(rt, glyphs.len(), MOVED.len());
    let mut wanted = MOVED.iter();
    for position in glyphs.glyph_positions() {
        let found = (position.x_advance, position.x_offset);
        assert_same(rt, Some(&found), wanted.next());
    }
}

/// Compares the advances and offsets of a text. If it is refused for memory, hands back what is
/// left of it.
fn moved_or_left(
    rt: &impl Abort,
    alloc: Global,
    face: &FontFace<'_>,
    text: UnicodeBuffer,
) -> Option<UnicodeBuffer> {
    let features = [Feature::new(KERN, 1, 1..2)];
    match shaped_by::<_, KernTable, _>(alloc, face, &DEFAULT_SHAPER, &features, text) {
        Ok(glyphs) => {
            assert_moved(rt, &glyphs);
            None
        }
        Err(fault) => {
            assert_same(rt, fault.cause, ShapeError::Memory);
            Some(fault.buffer)
        }
    }
}

/// Compares the buffer that a refused run hands back, and what it gives once it is filled again.
fn assert_moved_again(
    rt: &impl Abort,
    alloc: Global,
    face: &FontFace<'_>,
    left: UnicodeBuffer,
) -> Result<(), ShapeError> {
    assert_that(rt, left.is_empty() && left.script().is_none());
    assert_same(rt, left.direction(), Direction::Invalid);
    let text = to_be_kerned(left)?;
    assert_that(rt, moved_or_left(rt, alloc, face, text).is_none());
    Ok(())
}

/// Whether a growth of the run is refused, planning included. If one is, the text must give the
/// same once it is in the buffer that is handed back.
fn is_refused(rt: &impl Abort, alloc: Global, face: &FontFace<'_>) -> Result<bool, ShapeError> {
    let text = to_be_kerned(UnicodeBuffer::new(alloc))?;
    match moved_or_left(rt, alloc, face, text) {
        Some(left) => {
            assert_moved_again(rt, alloc, face, left)?;
            Ok(true)
        }
        None => Ok(false),
    }
}

/// With memory at hand the test passes. If one growth of the run is refused, it says so, after its
/// comparisons.
#[test]
fn growths(rt: HostRuntime) -> Result<(), Fail> {
    let bytes = hex::decode(rt.alloc(), DIGITS)?;
    let face = FontFace::from_slice(&bytes, 0).expect(&rt, "a face");
    if is_refused(&rt, rt.alloc(), &face)? {
        return Err(Fail::from("refused"));
    }
    Ok(())
}
