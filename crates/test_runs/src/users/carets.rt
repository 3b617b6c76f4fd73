//! Carets, clicks and selections. The numbers were worked out by hand.

use crate::comparing::assert_that;
use shape_buffer::buffer::{Direction, GlyphCluster, ShapeError};
use shape_carets::{Caret, Span, caret_of_offset, carets, offset_of_x, selection, stops_rise};
use std::alloc::Global;
use std::process::Abort;

/// A cluster of this advance.
fn cluster(cluster: u32, advance: i32) -> GlyphCluster {
    GlyphCluster {
        cluster,
        start: 0,
        end: 0,
        advance,
        unsafe_to_break: false,
    }
}

/// A ligature of three letters, 1000 wide, and a letter of 300.
fn ligature(alloc: Global, direction: Direction) -> Result<Vec<Caret>, ShapeError> {
    carets(
        alloc,
        &[cluster(0, 1000), cluster(3, 300)],
        direction,
        0,
        4,
        &[1, 2],
    )
}

/// Compares the caret of an offset, the offset of a click, and a selection.
fn assert_carets(
    rt: &impl Abort,
    carets: &[Caret],
    (offset, x): (u32, i32),
    (click, found): (i32, u32),
    (from, to, span): (u32, u32, Span),
) {
    assert!(rt; carets.len() == 5);
    assert_that(rt, caret_of_offset(carets, offset) == x);
    assert_that(rt, offset_of_x(carets, click) == found);
    assert_that(rt, selection(carets, from, to) == Some(span));
}

#[test]
fn in_both_directions(rt: HostRuntime) {
    let right = ligature(rt.alloc(), Direction::LeftToRight).expect(&rt, "carets");
    let middle = Span {
        start: 333,
        end: 1000,
    };
    assert_carets(&rt, &right, (2, 666), (900, 3), (1, 3, middle));
    let left = ligature(rt.alloc(), Direction::RightToLeft).expect(&rt, "carets");
    let last = Span { start: 0, end: 300 };
    assert_carets(&rt, &left, (0, 1300), (640, 2), (3, 9, last));
    assert_that(&rt, stops_rise(&[1, 2, 2]) && !stops_rise(&[2, 1]));
}
