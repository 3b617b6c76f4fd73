use crate::faces::bytes::{
    ALL, BYTES, GROUPS, LIST, LONG_LIST, NOTHING, OUT_OF_ORDER, SEGMENTS, SYMBOLS,
};
use crate::faces::comparing::{assert_glyph, assert_opens};
use std::alloc::Global;
use std::process::Abort;

/// Asserts that the font with these bytes opens, and that these characters have these glyphs then.
fn assert_font(rt: &impl Abort, alloc: Global, digits: &str, rows: &[(char, u32)]) {
    let bytes = hex::decode(alloc, digits).expect(rt, "bytes");
    assert_opens(rt, alloc, &bytes);
    for (c, glyph) in rows {
        assert_glyph(rt, alloc, &bytes, *c, *glyph);
    }
}

/// Fonts by their digits, and the glyphs of some characters.
const FONTS: [(&str, &[(char, u32)]); 9] = [
    (BYTES, &[('A', 3), ('B', 0), ('\u{141}', 0)]),
    (SEGMENTS, &[('A', 1), ('C', 3), ('\u{161}', 4)]),
    (LIST, &[('\u{FF}', 2), ('\u{100}', 3)]),
    (LONG_LIST, &[('\u{10FFFF}', 4), ('A', 0)]),
    (GROUPS, &[('D', 4), ('\u{1F610}', 19)]),
    // pages are full before the last characters of Unicode; those are looked up by searches
    (
        ALL,
        &[
            ('\0', 4),
            ('\u{1FFFF}', 4),
            ('\u{20000}', 4),
            ('\u{10FFFF}', 4),
        ],
    ),
    // a search looks at U+0041 first and finds it; U+3000 it misses
    (OUT_OF_ORDER, &[('A', 3), ('\u{3000}', 0)]),
    (SYMBOLS, &[('\u{F041}', 2), ('A', 2), ('B', 0)]),
    (NOTHING, &[('A', 0)]),
];

#[test]
fn each_format(rt: HostRuntime) {
    for (digits, rows) in &FONTS {
        assert_font(&rt, rt.alloc(), digits, rows);
    }
}
