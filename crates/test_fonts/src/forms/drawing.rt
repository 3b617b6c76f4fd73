//! Outlines, and the measures of a line.
use crate::comparing::assert_that;
use crate::tiny::DIGITS;
use glyph_outlines::{Outlines, Point, Segment};
use shape_buffer::{GlyphId, hb_font_t};
use shape_font::FontFace;
use std::alloc::Global;
use std::process::Abort;

/// A point of an outline.
fn at(x: f64, y: f64) -> Point {
    Point { x, y, on: true }
}

/// Asserts the outline of a glyph, of which at most so many segments are asked for.
fn assert_outline(rt: &impl Abort, alloc: Global, glyph: u16, most: usize, wanted: &[Segment]) {
    let bytes = hex::decode(alloc, DIGITS).expect(rt, "memory");
    let outlines = Outlines::from_slice(bytes.as_slice(), 0).expect(rt, "outlines");
    let outline = outlines.outline(alloc, glyph, most).expect(rt, "memory");
    assert_that(rt, outline.segments() == wanted);
}

#[test]
fn outlines(rt: HostRuntime) {
    let alloc = rt.alloc();
    let box_of_a = [
        Segment::Move(at(10.0, 0.0)),
        Segment::Line(at(590.0, 0.0)),
        Segment::Line(at(590.0, 700.0)),
        Segment::Line(at(10.0, 700.0)),
        Segment::Close,
    ];
    assert_outline(&rt, alloc, 2, 100, &box_of_a);
    assert_outline(&rt, alloc, 2, 3, &box_of_a[..3]);
    assert_outline(&rt, alloc, 1, 100, &[]);
    assert_outline(&rt, alloc, 65535, 100, &[]);
}

#[test]
fn measures(rt: HostRuntime) {
    let bytes = hex::decode(rt.alloc(), DIGITS).expect(&rt, "memory");
    let face = FontFace::from_slice(bytes.as_slice(), 0).expect(&rt, "a face");
    assert_that(&rt, face.ascender() == 800);
    assert_that(&rt, face.descender() == -200);
    assert_that(&rt, face.line_gap() == 90);
    assert_that(&rt, face.get_nominal_glyph('A') == Some(GlyphId(2)));
    let varied = face.glyph_variation_index('A', '\u{FE01}');
    assert_that(&rt, varied == Some(GlyphId(6)));
    assert_that(&rt, face.glyph_h_advance(GlyphId(4)) == 300);
    assert_that(&rt, Outlines::from_slice(&[], 0).is_none());
    assert_that(&rt, FontFace::from_slice(&bytes, 1).is_none());
}
