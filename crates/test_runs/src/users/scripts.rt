//! Texts by the shaper of each script, over faces that have a glyph for these characters alone.
//! Lines are compared from the left.
use crate::comparing::assert_that;
use crate::users::rows::{Asked, assert_rows};
use crate::users::shaping::{Shaper, by_graphemes, face_of, print_glyphs, text_of};
use shape_pipeline::{Direction, MapFace, NoLookups, Script, hb_tag_t};
use shape_unicode::UnicodeDatabase;
use shaper_choice::{Category, SCRIPT_SHAPERS, plan_by_script, served_by, shape_with_script_plan};
use std::alloc::Global;
use std::process::Abort;

/// Beh, fatha, shadda, and a hamza above and below are known. A hamza stands after a fatha, and
/// before it; a hamza below comes before one above.
const ARABIC: &str = "\u{628}\u{64E}\u{651}\u{654}\u{655} | \u{628}\u{64E}\u{654} -> 2@0 4@0 1@0
    \u{628}\u{64E}\u{651}\u{654}\u{655} | \u{628}\u{654}\u{64E} -> 2@0 4@0 1@0
    \u{628}\u{64E}\u{651}\u{654}\u{655} | \u{628}\u{651}\u{654}\u{655} -> 3@0 4@0 5@0 1@0";

/// A letter with its point, over a face that has a form for the two, and over one without; a meteg
/// steps before a hiriq.
const HEBREW: &str = "\u{5D9}\u{5B4}\u{FB1D} | \u{5D9}\u{5B4} -> 3@0
    \u{5D9}\u{5B4} | \u{5D9}\u{5B4} -> 2@0 1@0
    \u{5D0}\u{5B7}\u{5B4}\u{5BD} | \u{5D0}\u{5B7}\u{5B4}\u{5BD} -> 3@0 4@0 2@0 1@0";

/// A hamza goes before a fatha, a point joins its letter, jamo make a syllable, SARA AM is taken
/// apart; over a face with the forms of Windows at private characters, a tone mark goes to the left
/// of an ascender; Latin text is shaped as it stands.
const BY_SCRIPT: &str = "\u{628}\u{64E}\u{654} | \u{628}\u{64E}\u{654} -> 2@0 3@0 1@0
    \u{5D9}\u{5B4}\u{FB1D} | \u{5D9}\u{5B4} -> 3@0
    \u{1100}\u{1161}\u{AC00} | \u{1100}\u{1161} -> 3@0
    \u{AC00}\u{302E} | \u{AC00}\u{302E} -> 2@0 1@0
    \u{E14}\u{E4B}\u{E4D}\u{E32} | \u{E14}\u{E4B}\u{E33} -> 1@0 3@0 2@0 4@0
    \u{E94}\u{ECD}\u{EB2} | \u{E94}\u{EB3} -> 1@0 2@0 3@0
    \u{E1B}\u{E48}\u{F705} | \u{E1B}\u{E48} -> 1@0 3@0
    ab | ab -> 1@0 2@1";

/// No engine here has the feature of capitals, so letters have their own glyphs.
const CAPITALS: &str = "aB | aBa -> 1@0 2@1 1@2";

/// A ligature has the cluster of its first letter; the second pair begins with the third f.
const LIGATURES: &str = "afi | afiffi -> B@0 17@1 2@3 17@4";

#[test]
fn texts_by_each_shaper(rt: HostRuntime) {
    let cases = [
        (Shaper::Arabic, ARABIC),
        (Shaper::Hebrew, HEBREW),
        (Shaper::ByScript, BY_SCRIPT),
        (Shaper::Capitals, CAPITALS),
        (Shaper::Ligatures, LIGATURES),
    ];
    for (shaper, rows) in cases {
        assert_rows(&rt, rt.alloc(), Asked::Shaped(shaper), rows);
    }
}

/// The glyphs of a text in Hangul by a plan for its script.
fn print_planned(rt: &impl Abort, alloc: Global, printed: &mut String, face: &MapFace, text: &str) {
    let hangul = Some(Script(hb_tag_t::from_bytes(b"Hang")));
    let plan = plan_by_script::<UnicodeDatabase, MapFace, NoLookups>(
        alloc,
        face,
        &SCRIPT_SHAPERS,
        Direction::LeftToRight,
        hangul,
        None,
        &[],
    )
    .expect(rt, "memory");
    let text = text_of(rt, alloc, by_graphemes(face, Shaper::ByScript), text);
    assert!(rt; plan.fits::<UnicodeDatabase>(&text));
    let glyphs = shape_with_script_plan::<UnicodeDatabase, MapFace, NoLookups>(
        alloc, face, &plan, text,
    ).expect(rt, "glyphs");
    print_glyphs(rt, printed, &glyphs, (0, glyphs.len()));
}

#[test]
fn a_plan_is_made_by_script(rt: HostRuntime) {
    let face = face_of(&rt, rt.alloc(), "\u{AC00}\u{302E}");
    let mut printed = String::new(rt.alloc());
    print_planned(
        &rt,
        rt.alloc(),
        &mut printed,
        &face,
        "\u{1100}\u{1161}\u{302E}",
    );
    assert_that(&rt, printed.as_str() == " 2@0 1@0");
}

#[test]
fn scripts_are_served(rt: HostRuntime) {
    let cases = [
        (b"Latn", Category::Default),
        (b"Syrc", Category::Arabic),
        (b"Laoo", Category::Thai),
        (b"Khmr", Category::Khmer),
        (b"Mymr", Category::Myanmar),
        (b"Mong", Category::Universal),
        (b"Deva", Category::Indic),
    ];
    for (tag, category) in cases {
        assert_that(
            &rt,
            served_by(Script(hb_tag_t::from_bytes(tag))) == category,
        );
    }
}
