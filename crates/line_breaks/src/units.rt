//! Characters with the marks that follow them, which no line parts.
ghost use Rattle.std.specs.Prelude.{◌≡◌, ◌<◌, ◌^◌, length, IfOk, OnOk};
ghost use Rattle.line_breaks.specs.Units;

use crate::letters::Letter;
use std::alloc::{AllocError, Global};
use ucd_breaks::LineBreak;

/// A character, and the marks that follow it.
#[derive(Clone, Copy, Debug)]
pub struct Unit {
    /// Where it begins in the text, in bytes.
    pub offset: u32,
    /// The character. LB10: a mark that follows none that takes it stands for a letter.
    pub letter: Letter,
    /// Whether the character before it is a zero width joiner.
    pub after_joiner: bool,
}

/// Whether a letter is a mark or a joiner.
fn attaches(letter: &Letter) -> bool
    ensures { result ≡ Units.attaches letter.now }
{
    letter.is(LineBreak::CombiningMark) || letter.is(LineBreak::Zwj)
}

/// LB9: whether marks attach to a letter.
fn takes_marks(letter: &Letter) -> bool
    ensures { result ≡ Units.takes_marks letter.now }
{
    !(letter.is(LineBreak::MandatoryBreak)
        || letter.is(LineBreak::CarriageReturn)
        || letter.is(LineBreak::LineFeed)
        || letter.is(LineBreak::NextLine)
        || letter.is(LineBreak::Space)
        || letter.is(LineBreak::ZWSpace))
}

/// LB10: a mark that is left stands for the letter A.
fn alone(letter: &Letter) -> Letter
    ensures { result ≡ Units.alone letter.now }
{
    if attaches(letter) {
        return Letter::of('A');
    }
    *letter
}

/// Puts a character after the units, unless it is a mark that the last one of them takes, and
/// returns whether the last one takes marks then.
fn put(
    units: &mut Vec<Unit>,
    letter: &Letter,
    takes: bool,
    joined: bool,
    offset: u32,
) -> Result<bool, AllocError>
    ensures units { OnOk result (units.new.items
        ≡ Units.put takes joined offset letter.now units.old.items) }
    ensures takes { IfOk result (λ next. next ≡ Units.takes_after takes letter.now) }
{
    if takes && attaches(letter) {
        return Ok(true);
    }
    let letter = alone(letter);
    units.push(Unit {
        offset,
        letter,
        after_joiner: joined,
    })?;
    Ok(takes_marks(&letter))
}

/// The characters of a text, each with the marks that follow it.
pub(crate) fn units(alloc: Global, text: &str) -> Result<Vec<Unit>, AllocError>
    requires { length text.now < 2 ^ 32 }
    ensures { IfOk result (λ units. units.items ≡ Units.units_of text.now) }
{
    let mut units = Vec::new(alloc);
    let mut takes = false;
    let mut joined = false;
    let mut offset: u32 = 0;
    for c in text.chars() {
        let letter = Letter::of(c);
        takes = put(&mut units, &letter, takes, joined, offset)?;
        joined = letter.is(LineBreak::Zwj);
        offset += c.len_utf8() as u32;
    }
    Ok(units)
}
