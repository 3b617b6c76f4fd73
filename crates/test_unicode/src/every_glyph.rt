//! A face that has a glyph for every character.
use test_fixtures::{PLAIN_FACE, TestFace};

/// The glyph of a character has its number. The em square has 1000 units.
pub static EVERY_GLYPH: TestFace<'static> = TestFace {
    every: true,
    ..PLAIN_FACE
};
