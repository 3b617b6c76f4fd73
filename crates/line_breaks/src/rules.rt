//! The rules of UAX 14 from LB4 to LB31, each under its number, in the order in which they apply.
//!
//! In the standard's signs `×` prohibits a break, `÷` allows one and `!` demands one. The start and
//! the end of the text are letters of their own, of the class BK, which no rule from LB8 on tells
//! from them.
ghost use Rattle.std.specs.Prelude.{◌≡◌};
ghost use Rattle.line_breaks.specs.Around as around_rules;
ghost use Rattle.line_breaks.specs.Breaks.{verdict_number};
ghost use Rattle.line_breaks.specs.Rules;
ghost use Rattle.line_breaks.specs.declared.units.Unit.{Unit as AnyUnit};
ghost use Rattle.std.specs.Prelude.{List, ◌∷◌, []};

mod early;
mod late;

use crate::letters::{Letter, edge};
use crate::units::Unit;
use early::{
    lb4, lb5, lb5_crlf, lb6, lb7, lb8, lb8a, lb11, lb12, lb12a, lb13, lb14, lb15a, lb15b, lb15c,
    lb15d, lb16, lb17, lb18,
};
use late::{
    lb19, lb19a, lb20, lb20a, lb21, lb21a, lb21b, lb22, lb23, lb23a, lb24, lb25_after, lb25_before,
    lb26, lb27, lb28, lb28a_first, lb28a_second, lb29, lb30, lb30a, lb30b,
};
use ucd_breaks::LineBreak;

/// What the rules say of a place.
#[derive(Clone, Copy, PartialEq, Eq, Debug)]
pub enum Verdict {
    /// A line must end here.
    Mandatory,
    /// A line may end here.
    Allowed,
    /// No line ends here.
    Prohibited,
}

impl Verdict {
    /// The verdict's number: its place among the variants, from 0.
    pub fn number(self) -> u8
        ensures { result ≡ verdict_number self }
    {
        self as u8
    }
}

/// The units before a place, as far as the rules ask of them.
#[derive(Clone, Copy, Debug)]
pub struct Before {
    /// The last one but one.
    pub two: Letter,
    /// The last one.
    pub one: Letter,
    /// The one before `base`.
    pub base_two: Letter,
    /// The last one that isn't a space: X in X SP*.
    pub base: Letter,
    /// Whether they end with NU (SY | IS)*.
    pub number: bool,
    /// Whether they end with NU (SY | IS)* (CL | CP).
    pub closed: bool,
    /// Whether they end with an odd number of RI.
    pub odd: bool,
}

/// A place between two units, as the rules see it.
#[derive(Clone, Copy, Debug)]
pub struct Around {
    pub before: Before,
    /// Whether the character before the place is a zero width joiner.
    pub joined: bool,
    /// The unit after it.
    pub after: Letter,
    /// The next one.
    pub next: Letter,
    /// The one after that.
    pub third: Letter,
}

impl Before {
    /// Before the text.
    pub fn start() -> Before
        ensures { result ≡ around_rules.before_of [] }
    {
        Before {
            two: edge(),
            one: edge(),
            base_two: edge(),
            base: edge(),
            number: false,
            closed: false,
            odd: false,
        }
    }

    /// One unit further on.
    pub fn step(self, unit: &Unit) -> Before
        ensures { (units : List AnyUnit) → self ≡ around_rules.before_of units
            → result ≡ around_rules.before_of (unit.now ∷ units) }
    {
        let letter = unit.letter;
        let space = letter.is(LineBreak::Space);
        Before {
            two: self.one,
            one: letter,
            base_two: if space { self.base_two } else { self.one },
            base: if space { self.base } else { letter },
            number: goes_on(&letter, self.number),
            closed: self.number && closes(&letter),
            odd: letter.is(LineBreak::RegionalIndicator) && !self.odd,
        }
    }
}

/// Whether a number ends with this letter, given whether one ends before it.
fn goes_on(letter: &Letter, number: bool) -> bool
    ensures { result ≡ around_rules.goes_on letter.now number }
{
    letter.is(LineBreak::Numeric)
        || (letter.is(LineBreak::BreakSymbols) || letter.is(LineBreak::InfixNumeric)) && number
}

/// Whether a letter may close a number.
fn closes(letter: &Letter) -> bool
    ensures { result ≡ around_rules.closes letter.now }
{
    letter.is(LineBreak::ClosePunctuation) || letter.is(LineBreak::CloseParenthesis)
}

/// What the rules say of a place between two units.
pub fn decide(around: &Around) -> Verdict
    ensures { result ≡ Rules.verdict_of around.now }
{
    first_rules(around)
}

/// LB4 to LB8a, and then the rules after them.
fn first_rules(around: &Around) -> Verdict
    ensures { result ≡ Rules.first_rules around.now }
{
    if lb4(around) {
        return Verdict::Mandatory;
    }
    if lb5_crlf(around) {
        return Verdict::Prohibited;
    }
    if lb5(around) {
        return Verdict::Mandatory;
    }
    if lb6(around) {
        return Verdict::Prohibited;
    }
    if lb7(around) {
        return Verdict::Prohibited;
    }
    if lb8(around) {
        return Verdict::Allowed;
    }
    if lb8a(around) {
        return Verdict::Prohibited;
    }
    space_rules(around)
}

/// LB11 to LB15b, and then the rules after them.
fn space_rules(around: &Around) -> Verdict
    ensures { result ≡ Rules.space_rules around.now }
{
    if lb11(around) {
        return Verdict::Prohibited;
    }
    if lb12(around) {
        return Verdict::Prohibited;
    }
    if lb12a(around) {
        return Verdict::Prohibited;
    }
    if lb13(around) {
        return Verdict::Prohibited;
    }
    if lb14(around) {
        return Verdict::Prohibited;
    }
    if lb15a(around) {
        return Verdict::Prohibited;
    }
    if lb15b(around) {
        return Verdict::Prohibited;
    }
    quotation_rules(around)
}

/// LB15c to LB20, and then the rules after them.
fn quotation_rules(around: &Around) -> Verdict
    ensures { result ≡ Rules.quotation_rules around.now }
{
    if lb15c(around) {
        return Verdict::Allowed;
    }
    if lb15d(around) {
        return Verdict::Prohibited;
    }
    if lb16(around) {
        return Verdict::Prohibited;
    }
    if lb17(around) {
        return Verdict::Prohibited;
    }
    if lb18(around) {
        return Verdict::Allowed;
    }
    if lb19(around) {
        return Verdict::Prohibited;
    }
    if lb19a(around) {
        return Verdict::Prohibited;
    }
    if lb20(around) {
        return Verdict::Allowed;
    }
    hyphen_rules(around)
}

/// LB20a to LB23a, and then the rules after them.
fn hyphen_rules(around: &Around) -> Verdict
    ensures { result ≡ Rules.hyphen_rules around.now }
{
    if lb20a(around) {
        return Verdict::Prohibited;
    }
    if lb21(around) {
        return Verdict::Prohibited;
    }
    if lb21a(around) {
        return Verdict::Prohibited;
    }
    if lb21b(around) {
        return Verdict::Prohibited;
    }
    if lb22(around) {
        return Verdict::Prohibited;
    }
    if lb23(around) {
        return Verdict::Prohibited;
    }
    if lb23a(around) {
        return Verdict::Prohibited;
    }
    number_rules(around)
}

/// LB24 to LB28a, and then the rules after them.
fn number_rules(around: &Around) -> Verdict
    ensures { result ≡ Rules.number_rules around.now }
{
    if lb24(around) {
        return Verdict::Prohibited;
    }
    if lb25_after(around) {
        return Verdict::Prohibited;
    }
    if lb25_before(around) {
        return Verdict::Prohibited;
    }
    if lb26(around) {
        return Verdict::Prohibited;
    }
    if lb27(around) {
        return Verdict::Prohibited;
    }
    if lb28(around) {
        return Verdict::Prohibited;
    }
    if lb28a_first(around) {
        return Verdict::Prohibited;
    }
    letter_rules(around)
}

/// LB28a to LB30b, and LB31: a line may end everywhere else.
fn letter_rules(around: &Around) -> Verdict
    ensures { result ≡ Rules.letter_rules around.now }
{
    if lb28a_second(around) {
        return Verdict::Prohibited;
    }
    if lb29(around) {
        return Verdict::Prohibited;
    }
    if lb30(around) {
        return Verdict::Prohibited;
    }
    if lb30a(around) {
        return Verdict::Prohibited;
    }
    if lb30b(around) {
        return Verdict::Prohibited;
    }
    Verdict::Allowed
}
