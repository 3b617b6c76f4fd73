//! The rule X9: the characters that it leaves, each with what the rules after it ask of it.
ghost use Rattle.std.specs.Prelude.{◌≡◌, ◌≤◌, drop, length, true, IfOk};
ghost use Rattle.std.specs.List.{list_all};
ghost use Rattle.bidi.specs.Explicit;
ghost use Rattle.bidi.specs.Members;

use crate::classes::is_removed;
use crate::explicit::Placed;
use std::alloc::{AllocError, Global};
use ucd_bidi::BidiClass;

/// A character that X9 leaves.
#[derive(Clone, Copy)]
pub(crate) struct Member {
    /// Its place in the paragraph.
    pub place: usize,
    /// The character.
    pub character: char,
    /// Its class in the database.
    pub original: BidiClass,
    /// Its class after X1 to X8.
    pub class: BidiClass,
    /// Its level after X1 to X8.
    pub level: u8,
    /// The level of the member before it, or that of the paragraph.
    pub before: u8,
    /// The level of the member after it, or that of the paragraph.
    pub after: u8,
}

/// The level of the first member from a place on, or that of the paragraph.
fn level_after(base: u8, classes: &[BidiClass], placed: &[Placed], start: usize) -> u8
    requires { length placed.now ≡ length classes.now }
    ensures { result ≡ Members.level_after base (drop start classes.now) (drop start placed.now) }
{
    for i in start..classes.len() {
        if !is_removed(classes[i]) {
            return placed[i].level;
        }
    }
    base
}

/// The members of a paragraph. `classes` are those of its characters, `placed` what X1 to X8 make
/// of them, and `base` is the level of the paragraph.
pub(crate) fn members(
    alloc: Global,
    base: u8,
    text: &[char],
    classes: &[BidiClass],
    placed: &[Placed],
) -> Result<Vec<Member>, AllocError>
    requires classes { length classes.now ≡ length text.now }
    requires placed { length placed.now ≡ length text.now }
    ensures { IfOk result (λ members. members.items
        ≡ Members.members base text.now classes.now placed.now) }
{
    let mut members = Vec::with_capacity(alloc, text.len())?;
    let mut before = base;
    for i in 0..text.len() {
        if is_removed(classes[i]) {
            continue;
        }
        members.push(Member {
            place: i,
            character: text[i],
            original: classes[i],
            class: placed[i].class,
            level: placed[i].level,
            before,
            after: level_after(base, classes, placed, i + 1),
        })?;
        before = placed[i].level;
    }
    Ok(members)
}

/// The members of a paragraph on which none of X2 to X7 acts: all are on its level.
pub(crate) fn plain_members(
    alloc: Global,
    base: u8,
    text: &[char],
    classes: &[BidiClass],
) -> Result<Vec<Member>, AllocError>
    requires same { length classes.now ≡ length text.now }
    requires plain { list_all Explicit.is_plain classes.now ≡ true }
    ensures { IfOk result (λ members. members.items
        ≡ Members.members base text.now classes.now (Explicit.explicit base classes.now)) }
{
    let mut members = Vec::with_capacity(alloc, text.len())?;
    for i in 0..text.len() {
        let class = classes[i];
        if is_removed(class) {
            continue;
        }
        members.push(Member {
            place: i,
            character: text[i],
            original: class,
            class,
            level: base,
            before: base,
            after: base,
        })?;
    }
    Ok(members)
}
