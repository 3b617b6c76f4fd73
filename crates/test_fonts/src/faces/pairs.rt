//! Which glyphs stand in pairs of the table `kern`, and kerning by what is stored of them: over the
//! tests' font A and V, and no others of these letters, are moved together, by 30.
use crate::rich::RICH;
use kern_table::{KernTable, PairGlyphs};
use opened_face::{OpenedFace, OpenedKernTable, OverOpened};
use shape_buffer::interfaces::{hb_font_t, hb_ot_layout_t};
use shape_font::FontFace;
use shape_pipeline::{DEFAULT_SHAPER, UnicodeBuffer, shape};
use shape_unicode::UnicodeDatabase;
use std::alloc::Global;
use std::process::Abort;

/// A table with one pair in format 0: glyph 2, and glyph 3 after it.
const PAIR: &str = "00000001000000140001000100000000000000020003FFCE";

/// The same with format 2.
const CLASSES: &str = "00000001000000140201000100000000000000020003FFCE";

/// Asserts which glyphs stand first and second in a pair, among so many.
fn assert_pairs(
    rt: &impl Abort,
    alloc: Global,
    digits: &str,
    count: u16,
    sides: (&[bool], &[bool]),
) {
    let bytes = hex::decode(alloc, digits).expect(rt, "bytes");
    let pairs = PairGlyphs::new(alloc, &bytes, count).expect(rt, "memory");
    assert!(rt; pairs.sides().lefts == sides.0);
    assert!(rt; pairs.sides().rights == sides.1);
}

/// Glyph 3 has no mark where there are three glyphs, and of classes nothing is stored.
#[test]
fn glyphs_of_pairs(rt: HostRuntime) {
    let alloc = rt.alloc();
    let sides: (&[bool], &[bool]) = (
        &[false, false, true, false, false],
        &[false, false, false, true, false],
    );
    assert_pairs(&rt, alloc, PAIR, 5, sides);
    let sides: (&[bool], &[bool]) = (&[false, false, true], &[false, false, false]);
    assert_pairs(&rt, alloc, PAIR, 3, sides);
    assert_pairs(&rt, alloc, CLASSES, 5, (&[], &[]));
}

/// Asserts the advances of two letters that an engine kerns.
fn assert_advances<F: hb_font_t, M: hb_ot_layout_t<F>>(
    rt: &impl Abort,
    alloc: Global,
    face: &F,
    letters: &str,
    wanted: (i32, i32),
) {
    let mut text = UnicodeBuffer::new(alloc);
    if letters.len() < 9 {
        text.push_str(letters).expect(rt, "memory");
    }
    let glyphs = shape::<UnicodeDatabase, F, M, _>(alloc, face, &DEFAULT_SHAPER, &[], text).expect(
        rt, "glyphs",
    );
    let positions = glyphs.glyph_positions();
    assert!(rt; positions.len() == 2);
    assert!(rt; (positions[0].x_advance, positions[1].x_advance) == wanted);
}

/// Asserts the advances of two letters, by the face, by the opened face, and by what is stored
/// there.
fn assert_kerned(rt: &impl Abort, alloc: Global, letters: &str, wanted: (i32, i32)) {
    let bytes = hex::decode(alloc, RICH).expect(rt, "bytes");
    let face = FontFace::from_slice(&bytes, 0).expect(rt, "a face");
    let opened = OpenedFace::new(alloc, face).expect(rt, "memory");
    assert_advances::<_, KernTable>(rt, alloc, &face, letters, wanted);
    assert_advances::<_, OverOpened<KernTable>>(rt, alloc, &opened, letters, wanted);
    assert_advances::<_, OpenedKernTable>(rt, alloc, &opened, letters, wanted);
}

#[test]
fn kerning(rt: HostRuntime) {
    assert_kerned(&rt, rt.alloc(), "AV", (585, 625));
    assert_kerned(&rt, rt.alloc(), "VA", (640, 600));
}
