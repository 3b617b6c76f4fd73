//! What tests compare with. These functions have no contract, since no later call of a test relies
//! on what they found: so the proof of a test takes next to nothing for a call, and a second for
//! each `assert_eq!` of the test's own.

use shape_buffer::buffer::GlyphPosition;
use std::fmt::Debug;
use std::process::Abort;

/// Asserts that two values are the same.
pub fn assert_same<T: Copy + PartialEq + Debug>(rt: &impl Abort, found: T, wanted: T) {
    assert_eq!(rt; found, wanted);
}

/// Asserts a condition.
pub fn assert_that(rt: &impl Abort, condition: bool) {
    assert!(rt; condition);
}

/// The position at a place of a list. Past its end it is zero. A loop over places takes a fourth of
/// the time to prove that one over two lists takes.
pub fn position_at(positions: &[GlyphPosition], at: usize) -> GlyphPosition {
    match positions.get(at) {
        Some(position) => *position,
        None => GlyphPosition::zero(),
    }
}
