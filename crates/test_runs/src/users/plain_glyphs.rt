//! A letter with its accent and a letter after it, in both directions.
use crate::comparing::assert_that;
use crate::users::rows::{Asked, assert_rows};
use crate::users::shaping::{
    Shaper, Shaping, by_graphemes, face_of, planned, print_glyphs, text_of,
};
use shape_buffer::buffer::{Direction, Script, hb_tag_t};
use shape_buffer::interfaces::MapFace;
use shape_pipeline::ot_shaper::DEFAULT_SHAPER;
use shape_pipeline::{GlyphBuffer, ShapeFault};
use shape_unicode::UnicodeDatabase;
use shape_users::plain_glyphs::by_shape::{glyphs_counted, glyphs_formed};
use shape_users::plain_glyphs::{
    PlainPlan, glyphs_of_str, plain_glyphs, plain_glyphs_counted, plain_glyphs_formed,
};
use std::alloc::Global;
use std::process::Abort;

/// The text, whose clusters are 0, 1 and 3.
const TEXT: &str = "e\u{301}x";

/// The calls that take a plan: one says how many glyphs there are, and one of what form the
/// characters are.
#[derive(Clone, Copy)]
enum ByPlan {
    Plain,
    Counted,
    Formed,
}

/// The glyphs of the text by a call.
fn glyphs_by(
    rt: &impl Abort,
    alloc: Global,
    plan: &PlainPlan<'_>,
    how: Shaping<'_>,
    call: ByPlan,
) -> Result<GlyphBuffer, ShapeFault> {
    let text = text_of(rt, alloc, how, TEXT);
    assert!(rt; plan.fits::<UnicodeDatabase>(&text));
    let face = how.face;
    match call {
        ByPlan::Plain => plain_glyphs::<UnicodeDatabase, MapFace>(alloc, face, plan, text),
        ByPlan::Counted => plain_glyphs_counted::<UnicodeDatabase, MapFace>(
            alloc, face, plan, text,
        ),
        ByPlan::Formed => plain_glyphs_formed::<UnicodeDatabase, MapFace>(alloc, face, plan, text),
    }
}

/// Asserts that there are three glyphs in a direction.
fn assert_three(rt: &impl Abort, glyphs: Result<GlyphBuffer, ShapeFault>, direction: Direction) {
    let glyphs = glyphs.expect(rt, "glyphs");
    assert_that(rt, glyphs.direction() == direction && glyphs.len() == 3);
}

/// Asserts this of `shape`, whose plan is its own: it counts the glyphs, and knows the form of the
/// characters.
fn assert_by_shape(rt: &impl Abort, alloc: Global, how: Shaping<'_>) {
    let (face, shaper) = (how.face, &DEFAULT_SHAPER);
    let text = text_of(rt, alloc, how, TEXT);
    let glyphs = glyphs_counted::<UnicodeDatabase, MapFace>(alloc, face, shaper, text);
    assert_three(rt, glyphs, how.direction);
    let text = text_of(rt, alloc, how, TEXT);
    let glyphs = glyphs_formed::<UnicodeDatabase, MapFace>(alloc, face, shaper, text);
    assert_three(rt, glyphs, how.direction);
}

/// Asserts that the text has three glyphs in a direction, by each call.
fn assert_in_direction(rt: &impl Abort, alloc: Global, direction: Direction) {
    let face = face_of(rt, alloc, TEXT);
    let plan = planned(rt, alloc, &face, &DEFAULT_SHAPER, direction, b"Latn");
    let how = Shaping {
        direction,
        script: Some(Script(hb_tag_t::from_bytes(b"Latn"))),
        ..by_graphemes(&face, Shaper::Default)
    };
    for call in [ByPlan::Plain, ByPlan::Counted, ByPlan::Formed] {
        assert_three(rt, glyphs_by(rt, alloc, &plan, how, call), direction);
    }
    assert_by_shape(rt, alloc, how);
}

#[test]
fn glyphs_come_by_graphemes_in_both_directions(rt: HostRuntime) {
    assert_in_direction(&rt, rt.alloc(), Direction::LeftToRight);
    assert_in_direction(&rt, rt.alloc(), Direction::RightToLeft);
}

/// Prints the glyphs of a string whose script runs to the left, over a face of some characters.
pub fn print_string(rt: &impl Abort, alloc: Global, printed: &mut String, known: &str, text: &str) {
    let face = face_of(rt, alloc, known);
    let glyphs = glyphs_of_str::<UnicodeDatabase, MapFace>(alloc, &face, text);
    let glyphs = glyphs.expect(rt, "glyphs");
    assert_that(rt, glyphs.direction() == Direction::RightToLeft);
    print_glyphs(rt, printed, &glyphs, (0, glyphs.len()));
}

#[test]
fn glyphs_of_a_string_run_with_its_script(rt: HostRuntime) {
    let row = "\u{5D0}\u{5D1} | \u{5D0}\u{5D1} -> 2@2 1@0";
    assert_rows(&rt, rt.alloc(), Asked::OfString, row);
}
