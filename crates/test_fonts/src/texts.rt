//! Texts by each call of `font_shaping`. What is wanted is what HarfBuzz 10.2.0's `hb-shape` writes
//! of `data/rich.ttf`.

use crate::comparing::assert_that;
use crate::rich::RICH;
use font_shaping::{FontError, shape_str, shape_with_bytes, shape_with_font};
use opentype_layout::OpenTypeFace;
use shape_buffer::buffer::{Feature, hb_tag_t};
use shape_pipeline::{GlyphBuffer, UnicodeBuffer};
use shape_text_forms::{NoNames, SerializeFlags, serialize};
use shape_unicode::UnicodeDatabase;
use std::alloc::Global;
use std::process::Abort;

const KERN: hb_tag_t = hb_tag_t(0x6B65_726E);

/// The bytes of the tests' font.
fn font_bytes(rt: &impl Abort, alloc: Global) -> Vec<u8> {
    hex::decode(alloc, RICH).expect(rt, "memory")
}

/// Compares glyphs with a line of `hb-shape`, of numbers of glyphs and with flags.
fn assert_line(
    rt: &impl Abort,
    alloc: Global,
    face: &OpenTypeFace<'_>,
    glyphs: &GlyphBuffer,
    wanted: &str,
) {
    let form = SerializeFlags(SerializeFlags::NO_GLYPH_NAMES | SerializeFlags::GLYPH_FLAGS);
    let line = serialize(alloc, glyphs, face, &NoNames, form).expect(rt, "memory");
    assert_that(rt, line.as_str() == wanted);
}

/// The glyphs of a string by a face. What this call and those below promise ends here: a function
/// that makes several is slow to prove.
fn by_face(rt: &impl Abort, alloc: Global, face: &OpenTypeFace<'_>, string: &str) -> GlyphBuffer {
    shape_str::<UnicodeDatabase>(alloc, face, &[], string).expect(rt, "memory")
}

/// The same by the bytes of a font.
fn by_bytes(rt: &impl Abort, alloc: Global, bytes: &[u8], string: &str) -> GlyphBuffer {
    shape_with_bytes::<UnicodeDatabase>(alloc, bytes, 0, &[], string).expect(rt, "memory")
}

/// The glyphs of a text without kerning.
fn unkerned(
    rt: &impl Abort,
    alloc: Global,
    face: &OpenTypeFace<'_>,
    text: UnicodeBuffer,
) -> GlyphBuffer {
    let features = [Feature::global(KERN, 0)];
    shape_with_font::<UnicodeDatabase>(alloc, face, &features, text).expect(rt, "memory")
}

/// Shapes a string by its face and by its bytes.
fn assert_string(rt: &impl Abort, alloc: Global, bytes: &[u8], string: &str, wanted: &str) {
    let face = OpenTypeFace::from_slice(bytes, 0).expect(rt, "a face");
    assert_line(rt, alloc, &face, &by_face(rt, alloc, &face, string), wanted);
    assert_line(
        rt,
        alloc,
        &face,
        &by_bytes(rt, alloc, bytes, string),
        wanted,
    );
}

/// Strings, and lines of `hb-shape`.
const STRINGS: [(&str, &str); 5] = [
    ("fi", "[7=0+540]"),
    ("ab", "[8=0+505|4=1+520#1]"),
    ("AV", "[1=0+520|2=1+640#1]"),
    ("fi\u{301}", "[7=0+540|9=0@-150,120+0]"),
    ("\u{3b1}\u{3b2}", "[11=0+450|12=2@-30,0+440#1]"),
];

#[test]
fn strings(rt: HostRuntime) {
    let bytes = font_bytes(&rt, rt.alloc());
    for (string, wanted) in &STRINGS {
        assert_string(&rt, rt.alloc(), &bytes, string, wanted);
    }
}

#[test]
fn no_kerning(rt: HostRuntime) {
    let bytes = font_bytes(&rt, rt.alloc());
    let face = OpenTypeFace::from_slice(&bytes, 0).expect(&rt, "a face");
    let mut text = UnicodeBuffer::new(rt.alloc());
    text.push_str("AV").expect(&rt, "memory");
    let glyphs = unkerned(&rt, rt.alloc(), &face, text);
    assert_line(&rt, rt.alloc(), &face, &glyphs, "[1=0+600|2=1+640]");
}

#[test]
fn no_font(rt: HostRuntime) {
    let refused = shape_with_bytes::<UnicodeDatabase>(rt.alloc(), b"OTTO", 0, &[], "a");
    assert_that(&rt, matches!(&refused, Err(FontError::NoFont)));
}
