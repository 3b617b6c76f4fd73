//! Cases as rows of text, and what is asked of them.
use crate::comparing::assert_that;
use crate::users::kept_words::print_cached;
use crate::users::paragraph::print_spans;
use crate::users::plain_glyphs::print_string;
use crate::users::shaping::{Shaper, print_shaped};
use crate::users::words::print_decided;
use shape_pipeline::Direction;
use std::alloc::Global;
use std::process::Abort;
use test_fixtures::cases::case_of;

/// What cases are asked. Each has two parts; the function that prints the answer says more of them.
#[derive(Clone, Copy)]
pub enum Asked {
    /// The characters of a face, and a text: its glyphs by a shaper.
    Shaped(Shaper),
    /// The same: the glyphs of a string whose script runs to the left.
    OfString,
    /// Two places of glyphs of a text that runs in a direction: what the glyphs between them show.
    Spans(Direction),
    /// Two spellings: whether they are equivalent.
    Decided,
    /// The bytes that a cache may take, and words: which of them are found.
    Cached,
}

/// What stands before and after the first `between` in a text.
fn parts_of<'a>(rt: &impl Abort, text: &'a str, between: &str) -> (&'a str, &'a str) {
    text.split_once(between).expect(rt, "two parts")
}

/// Prints the answer to a case.
fn print_answer(
    rt: &impl Abort,
    alloc: Global,
    printed: &mut String,
    asked: Asked,
    (first, second): (&str, &str),
) {
    match asked {
        Asked::Shaped(shaper) => print_shaped(rt, alloc, printed, shaper, first, second),
        Asked::OfString => print_string(rt, alloc, printed, first, second),
        Asked::Spans(direction) => print_spans(rt, alloc, printed, direction, first, second),
        Asked::Decided => print_decided(rt, alloc, printed, first, second),
        Asked::Cached => print_cached(rt, alloc, printed, first, second),
    }
}

/// Compares what was printed with what was expected.
pub fn assert_printed(rt: &impl Abort, found: &str, wanted: &str) {
    assert!(rt; found == wanted, "{found} in place of {wanted}");
}

/// Compares the answer of a row.
fn assert_row(rt: &impl Abort, alloc: Global, asked: Asked, row: &str) {
    let (case, wanted) = case_of(row).expect(rt, row);
    let mut printed = String::new(alloc);
    print_answer(rt, alloc, &mut printed, asked, parts_of(rt, case, " | "));
    assert_printed(rt, printed.as_str().trim(), wanted);
}

/// Compares the answers to some cases. A row is `FIRST | SECOND -> ANSWER`.
pub fn assert_rows(rt: &impl Abort, alloc: Global, asked: Asked, rows: &str) {
    for row in rows.lines() {
        assert_row(rt, alloc, asked, row);
    }
    assert_that(rt, !rows.is_empty());
}
