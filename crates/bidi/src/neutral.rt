//! The rules N1, N2, I1 and I2, over the classes of an isolating run sequence.
ghost use Rattle.std.specs.Prelude.{◌≡◌, ◌+◌, ◌<◌, ◌≤◌, drop, length, true};
ghost use Rattle.bidi.specs.Classes;
ghost use Rattle.bidi.specs.Neutral;
ghost use Rattle.bidi.specs.Weak;

use crate::classes::{direction, is, is_neutral};
use ucd_bidi::BidiClass;

/// The direction after the neutral characters at a place.
fn direction_after(classes: &[BidiClass], start: usize, eos: BidiClass) -> BidiClass
    ensures { result ≡ Neutral.direction_after eos (drop start classes.now) }
{
    for i in start..classes.len() {
        if !is_neutral(classes[i]) {
            return direction(classes[i]);
        }
    }
    eos
}

/// The direction after a place. It is looked up at the first of neutral characters, and known at
/// the others; where there is none, nothing asks for it.
fn after_at(
    classes: &[BidiClass],
    place: usize,
    inside: bool,
    after: BidiClass,
    eos: BidiClass,
) -> BidiClass
    requires within { place < length classes.now }
    requires known { inside ≡ true → after ≡ Neutral.direction_after eos (drop place classes.now) }
    ensures { Classes.is_neutral (Weak.next_class (drop place classes.now)) ≡ true
        → result ≡ Neutral.direction_after eos (drop (place + 1) classes.now) }
{
    if !is_neutral(classes[place]) {
        return after;
    }
    if inside {
        after
    } else {
        direction_after(classes, place + 1, eos)
    }
}

/// The direction before a place, after one more character.
fn direction_then(before: BidiClass, class: BidiClass) -> BidiClass
    ensures { result ≡ Neutral.direction_then before class }
{
    if is_neutral(class) {
        before
    } else {
        direction(class)
    }
}

/// N1 and N2 for a character.
fn n1_class(
    embedding: BidiClass,
    before: BidiClass,
    after: BidiClass,
    class: BidiClass,
) -> BidiClass
    ensures { result ≡ Neutral.n1_class embedding before after class }
{
    if !is_neutral(class) {
        return class;
    }
    if is(before, after) { before } else { embedding }
}

/// N1 and N2: neutral characters take the direction around them, or that of the embedding.
pub fn neutral(classes: &mut [BidiClass], embedding: BidiClass, sos: BidiClass, eos: BidiClass)
    ensures { classes.new ≡ Neutral.neutral embedding eos sos classes.old }
{
    let mut before = sos;
    let mut after = eos;
    let mut inside = false;
    for i in 0..classes.len() {
        let class = classes[i];
        after = after_at(classes, i, inside, after, eos);
        inside = is_neutral(class);
        classes[i] = n1_class(embedding, before, after, class);
        before = direction_then(before, class);
    }
}

/// I1 and I2: the level of a character of a class, on the level of its embedding.
pub fn implicit_level(level: u8, class: BidiClass) -> u8
    requires { level ≤ 125 }
    ensures level { result ≡ Neutral.implicit_level level class }
    ensures within { result ≤ 126 }
{
    let number = is(class, BidiClass::ArabicNumber) || is(class, BidiClass::EuropeanNumber);
    if level % 2 == 0 {
        if is(class, BidiClass::RightToLeft) {
            return level + 1;
        }
        return if number { level + 2 } else { level };
    }
    if is(class, BidiClass::LeftToRight) || number {
        level + 1
    } else {
        level
    }
}
