//! What tests compare with. These functions have no contract, since no later call of a test relies
//! on what they found.
use opened_face::OpenedFace;
use shape_buffer::{GlyphId, hb_font_t};
use shape_font::FontFace;
use std::alloc::Global;
use std::process::Abort;

/// Asserts that two faces give a character the same glyph.
fn assert_same_glyph<F: hb_font_t, G: hb_font_t>(rt: &impl Abort, face: &F, other: &G, c: char) {
    let glyph = face.get_nominal_glyph(c);
    assert!(rt; other.get_nominal_glyph(c) == glyph);
    assert!(rt; other.has_glyph(c) == glyph.is_some());
}

/// Places in a page: the ends, and where the tests' fonts begin and end their ranges.
const PLACES: [u32; 9] = [0, 1, 0x0F, 0x41, 0x44, 0x61, 0x7F, 0xFE, 0xFF];

/// Asserts that two faces give characters of a page the same glyphs.
fn assert_same_page<F: hb_font_t, G: hb_font_t>(rt: &impl Abort, face: &F, other: &G, page: u32) {
    for place in PLACES {
        if let Some(c) = char::from_u32((page % 0x1100) * 256 + place % 256) {
            assert_same_glyph(rt, face, other, c);
        }
    }
}

/// Asserts that two faces give characters of each page of Unicode the same glyphs.
fn assert_same_glyphs<F: hb_font_t, G: hb_font_t>(rt: &impl Abort, face: &F, other: &G) {
    for page in 0..0x1100 {
        assert_same_page(rt, face, other, page);
    }
}

/// Asserts that two faces say the same of a glyph.
fn assert_same_metrics<F: hb_font_t, G: hb_font_t>(rt: &impl Abort, face: &F, other: &G, g: u32) {
    let glyph = GlyphId(g);
    assert!(rt; other.glyph_h_advance(glyph) == face.glyph_h_advance(glyph));
    assert!(rt; other.glyph_v_advance(glyph) == face.glyph_v_advance(glyph));
    assert!(rt; other.glyph_h_origin(glyph) == face.glyph_h_origin(glyph));
    assert!(rt; other.glyph_v_origin(glyph) == face.glyph_v_origin(glyph));
    assert!(rt; other.glyph_extents(glyph) == face.glyph_extents(glyph));
}

/// The font with these bytes, opened.
fn opened<'a>(rt: &impl Abort, alloc: Global, bytes: &'a [u8]) -> OpenedFace<'a> {
    let face = FontFace::from_slice(bytes, 0).expect(rt, "a face");
    OpenedFace::new(alloc, face).expect(rt, "memory")
}

/// Asserts that a face that was opened says of all characters, and of the first glyphs, what it
/// said before.
pub fn assert_opens(rt: &impl Abort, alloc: Global, bytes: &[u8]) {
    let opened = opened(rt, alloc, bytes);
    let face = opened.face();
    assert_same_glyphs(rt, face, &opened);
    for glyph in 0..10 {
        assert_same_metrics(rt, face, &opened, glyph);
    }
    assert!(rt; opened.units_per_em() == face.units_per_em());
    assert!(rt; opened.tables() == face.tables());
}

/// Asserts that an opened face gives a character this glyph, 0 for none.
pub fn assert_glyph(rt: &impl Abort, alloc: Global, bytes: &[u8], c: char, wanted: u32) {
    let glyph = opened(rt, alloc, bytes).get_nominal_glyph(c);
    assert!(rt; glyph.map_or(0, |glyph| glyph.0) == wanted);
}
