//! What tests compare with. These functions have no contract, since no later call of a test relies
//! on what they found: so the proof of a test takes next to nothing for a call, and a second for
//! each `assert_eq!` of the test's own.
use std::fmt::Debug;
use std::process::Abort;

/// Asserts that two values are the same.
pub fn assert_same<T: Copy + PartialEq + Debug>(rt: &impl Abort, found: T, wanted: T) {
    assert_eq!(rt; found, wanted);
}

/// Asserts a condition.
pub fn assert_that(rt: &impl Abort, condition: bool) {
    assert!(rt; condition);
}
