//! The level of a paragraph.
ghost use Rattle.std.specs.Prelude.{◌≡◌, ◌≤◌, map, IfOk};
ghost use Rattle.bidi.specs.Levels;

use crate::explicit::first_is_right;
use std::alloc::{AllocError, Global};
use ucd_bidi::BidiClass;

/// A direction of text.
#[derive(Clone, Copy, PartialEq, Eq, Debug)]
pub enum Direction {
    LeftToRight,
    RightToLeft,
}

/// The bidirectional classes of a text's characters.
pub fn classes_of(alloc: Global, text: &[char]) -> Result<Vec<BidiClass>, AllocError>
    ensures { IfOk result (λ classes. classes.items ≡ Levels.classes_of text.now) }
{
    text.iter().map(|c| BidiClass::for_char(*c)).collect(alloc)
}

/// The level of a paragraph, 0 or 1: that of the direction that is given, or by P2 and P3 that of
/// its first strong character.
pub fn paragraph_level(classes: &[BidiClass], base: Option<Direction>) -> u8
    ensures level { result ≡ Levels.paragraph_level base classes.now }
    ensures within { result ≤ 1 }
{
    let right = match base {
        Some(Direction::LeftToRight) => false,
        Some(Direction::RightToLeft) => true,
        None => first_is_right(classes, 0, true),
    };
    if right { 1 } else { 0 }
}
