//! Glyphs as text and as JSON, with the names of a font file.
use crate::comparing::assert_that;
use crate::tiny::DIGITS;
use shape_font::FontFace;
use shape_pipeline::{
    DEFAULT_SHAPER, GlyphBuffer, NoLookups, UnicodeBuffer, hb_default_shaper_t, shape,
};
use shape_text_forms::{OpenedNames, SerializeFlags, glyph_names, serialize, serialize_json};
use shape_unicode::UnicodeDatabase;
use std::alloc::Global;
use std::process::Abort;

/// The glyphs of AB, none if memory was refused.
fn glyphs_of_ab(alloc: Global, face: &FontFace<'_>) -> Option<GlyphBuffer> {
    let mut text = UnicodeBuffer::new(alloc);
    if text.push_str("AB").is_err() {
        return None;
    }
    match shape::<UnicodeDatabase, FontFace, NoLookups, hb_default_shaper_t>(
        alloc,
        face,
        &DEFAULT_SHAPER,
        &[],
        text,
    ) {
        Ok(glyphs) => Some(glyphs),
        Err(_) => None,
    }
}

/// Compares glyphs as text and as JSON, with these names.
fn assert_written<N: glyph_names>(
    rt: &impl Abort,
    alloc: Global,
    face: &FontFace<'_>,
    names: &N,
    glyphs: &GlyphBuffer,
    (text, json): (&str, &str),
) {
    let plain = SerializeFlags(0);
    let found = serialize(alloc, glyphs, face, names, plain).expect(rt, "memory");
    assert_that(rt, found.as_str() == text);
    let found = serialize_json(alloc, glyphs, face, names, plain).expect(rt, "memory");
    assert_that(rt, found.as_str() == json);
}

#[test]
fn texts(rt: HostRuntime) {
    let alloc = rt.alloc();
    let bytes = hex::decode(alloc, DIGITS).expect(&rt, "memory");
    let face = FontFace::from_slice(bytes.as_slice(), 0).expect(&rt, "a face");
    let glyphs = glyphs_of_ab(alloc, &face).expect(&rt, "memory");
    let text = "[A=0+600|B=1+640]";
    let json = "[{\"g\":\"A\",\"cl\":0,\"dx\":0,\"dy\":0,\"ax\":600,\"ay\":0},\
        {\"g\":\"B\",\"cl\":1,\"dx\":0,\"dy\":0,\"ax\":640,\"ay\":0}]";
    assert_written(&rt, alloc, &face, &face, &glyphs, (text, json));
    let names = OpenedNames::new(alloc, face).expect(&rt, "memory");
    assert_written(&rt, alloc, &face, &names, &glyphs, (text, json));
}
