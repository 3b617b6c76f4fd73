//! The places of a text where its lines may end, and where they must.
ghost use Rattle.std.specs.Prelude.{◌≡◌, ◌<◌, ◌^◌, List, [], ◌∷◌, length, drop, IfOk};
ghost use Rattle.line_breaks.specs.Around as around_rules;
ghost use Rattle.line_breaks.specs.Breaks.{verdict_between, verdicts_of, offsets_of, spaces_of};
ghost use Rattle.line_breaks.specs.Breaks.{AreLineBreaks, AreRising};
ghost use Rattle.line_breaks.specs.declared.units.Unit.{Unit as AnyUnit};

use crate::letters::{Letter, edge};
use crate::rules::{Around, Before, Verdict, decide};
use crate::units::{Unit, units};
use std::alloc::{AllocError, Global};
use ucd_breaks::LineBreak;

/// Where the lines of a text end, in bytes from its start. Each list rises.
#[derive(Drop, Debug)]
pub struct LineBreaks {
    /// Where a line may end.
    pub allowed: Vec<u32>,
    /// Where a line must end: after each mandatory break, and at the end of the text.
    pub mandatory: Vec<u32>,
    /// Where the spaces stand, which aren't measured at the end of a line.
    pub spaces: Vec<u32>,
}

/// Where the lines of a text may end, and where they must, by the rules of UAX 14. Takes time in
/// step with the text, which is shorter than 2^32 bytes, since offsets are 32 bits. Refuses if
/// memory runs out.
pub fn line_breaks(alloc: Global, text: &str) -> Result<LineBreaks, AllocError>
    requires { length text.now < 2 ^ 32 }
    ensures breaks { IfOk result (λ breaks. AreLineBreaks text.now breaks) }
    ensures rise { IfOk result (λ breaks. AreRising breaks) }
{
    let breaks = listed(alloc, text)?;
    Ok(breaks)
}

/// The places of a text, each in its list.
fn listed(alloc: Global, text: &str) -> Result<LineBreaks, AllocError>
    requires { length text.now < 2 ^ 32 }
    ensures { IfOk result (λ breaks. AreLineBreaks text.now breaks) }
{
    let units = units(alloc, text)?;
    let verdicts = verdicts(alloc, &units)?;
    let allowed = offsets(alloc, &units, &verdicts, Verdict::Allowed)?;
    let mut mandatory = offsets(alloc, &units, &verdicts, Verdict::Mandatory)?;
    if !text.is_empty() {
        mandatory.push(text.len() as u32)?;
    }
    let spaces = spaces(alloc, &units)?;
    Ok(LineBreaks {
        allowed,
        mandatory,
        spaces,
    })
}

/// What the rules say of the place before each unit. LB2: no line ends before the first.
fn verdicts(alloc: Global, units: &[Unit]) -> Result<Vec<Verdict>, AllocError>
    ensures { IfOk result (λ verdicts. verdicts.items ≡ verdicts_of [] units.now) }
{
    let mut verdicts = Vec::new(alloc);
    let mut before = Before::start();
    for place in 0..units.len() {
        verdicts.push(verdict_at(units, before, place))?;
        before = before.step(&units[place]);
    }
    Ok(verdicts)
}

/// What the rules say of the place before a unit, given those before it.
fn verdict_at(units: &[Unit], before: Before, place: usize) -> Verdict
    requires { place < length units.now }
    ensures { (done rest : List AnyUnit) (unit : AnyUnit) → before ≡ around_rules.before_of done
        → length done ≡ place → drop place units.now ≡ unit ∷ rest
        → result ≡ verdict_between done unit rest }
{
    if place == 0 {
        return Verdict::Prohibited;
    }
    decide(&Around {
        before,
        joined: units[place].after_joiner,
        after: units[place].letter,
        next: letter_at(units, place + 1),
        third: letter_at(units, place + 2),
    })
}

/// The letter of a unit, or the edge of the text.
fn letter_at(units: &[Unit], place: usize) -> Letter
    ensures { result ≡ around_rules.letter_at units.now place }
{
    if place < units.len() {
        units[place].letter
    } else {
        edge()
    }
}

/// The offsets of the units that a verdict is said of.
fn offsets(
    alloc: Global,
    units: &[Unit],
    verdicts: &[Verdict],
    wanted: Verdict,
) -> Result<Vec<u32>, AllocError>
    requires { length verdicts.now ≡ length units.now }
    ensures { IfOk result (λ offsets. offsets.items ≡ offsets_of wanted units.now verdicts.now) }
{
    let mut offsets = Vec::new(alloc);
    for place in 0..units.len() {
        if verdicts[place].number() == wanted.number() {
            offsets.push(units[place].offset)?;
        }
    }
    Ok(offsets)
}

/// The offsets of the spaces.
fn spaces(alloc: Global, units: &[Unit]) -> Result<Vec<u32>, AllocError>
    ensures { IfOk result (λ spaces. spaces.items ≡ spaces_of units.now) }
{
    let mut spaces = Vec::new(alloc);
    for place in 0..units.len() {
        if units[place].letter.is(LineBreak::Space) {
            spaces.push(units[place].offset)?;
        }
    }
    Ok(spaces)
}
