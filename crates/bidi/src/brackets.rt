//! The rule N0: pairs of brackets, over an isolating run sequence.
ghost use Rattle.std.specs.Prelude.{◌≡◌, ◌<◌, ◌≤◌, length, reverse, take, IfOk, OnOk};
ghost use Rattle.std.specs.List.{list_any};
ghost use Rattle.bidi.specs.Brackets;
ghost use Rattle.bidi.specs.Brackets.{Pairs as PairsValue};

use crate::bracket_pairs::BRACKET_PAIRS;
use crate::classes::{direction, is, is_directed};
use crate::members::Member;
use crate::places::put;
use crate::weak::class_at;
use std::alloc::{AllocError, Global};
use std::marker::Model;
use ucd_bidi::BidiClass;

/// BD16: how many brackets may be open.
const MAX_OPEN: usize = 63;

/// A bracket that is open: the one that closes it, and its place in the sequence.
#[derive(Clone, Copy)]
pub(crate) struct Open {
    pub closing: char,
    pub place: usize,
}

/// A closing bracket, U+3009 for its canonical equivalent U+232A.
fn canonical(closing: char) -> char
    ensures { result ≡ Brackets.canonical closing }
{
    if closing == '\u{232A}' {
        '\u{3009}'
    } else {
        closing
    }
}

/// The bracket that closes an opening one, by the table.
fn opened_by(c: char) -> Option<char>
    ensures { result ≡ Brackets.opened_by c }
{
    BRACKET_PAIRS
        .iter()
        .find(|pair| pair.0 == c)
        .map(|pair| canonical(pair.1))
}

/// A closing bracket, by the table.
fn closed_by(c: char) -> Option<char>
    ensures { result ≡ Brackets.closed_by c }
{
    BRACKET_PAIRS
        .iter()
        .find(|pair| pair.1 == c)
        .map(|pair| canonical(pair.1))
}

/// BD14: the bracket that closes `c`, if `c` is an opening one; U+3009 for its canonical equivalent
/// U+232A. All brackets are mirrored, so the table is searched for few characters.
pub fn opening_bracket(c: char) -> Option<char>
    ensures { result ≡ Brackets.opening_bracket c }
{
    if ucd_bidi::is_bidi_mirrored(c) {
        opened_by(c)
    } else {
        None
    }
}

/// BD15: `c`, if it is a closing bracket; U+3009 for its canonical equivalent U+232A.
pub fn closing_bracket(c: char) -> Option<char>
    ensures { result ≡ Brackets.closing_bracket c }
{
    if ucd_bidi::is_bidi_mirrored(c) {
        closed_by(c)
    } else {
        None
    }
}

/// The bracket that closes a character of a class, if it is an opening one.
fn opening(class: BidiClass, c: char) -> Option<char>
    ensures { result ≡ Brackets.opening class c }
{
    if is(class, BidiClass::OtherNeutral) {
        opening_bracket(c)
    } else {
        None
    }
}

/// A character of a class, if it is a closing bracket.
fn closing(class: BidiClass, c: char) -> Option<char>
    ensures { result ≡ Brackets.closing class c }
{
    if is(class, BidiClass::OtherNeutral) {
        closing_bracket(c)
    } else {
        None
    }
}

/// BD16, so far.
#[derive(Drop)]
struct Pairs {
    /// The brackets that are open, the last one last.
    stack: Vec<Open>,
    /// For the place of each opening bracket that is paired that of its closing one, for another
    /// place 0.
    closes: Vec<usize>,
    /// Whether there was no room for a bracket, which ends the search.
    full: bool,
}

impl Model for Pairs {
    ghost Value = { PairsValue };

    ghost view = { λ p. record {
      stack = reverse p.stack.items;
      closes = p.closes.items;
      full = p.full;
    } };

    ghost invariant = { λ p. Unit {0} };
}

/// How many brackets are open up to the last one that a bracket closes; 0 if it closes none.
fn open_up_to(stack: &[Open], closing: char) -> usize
    ensures within { result ≤ length stack.now }
    ensures found { reverse (take result stack.now) ≡ Brackets.from_match closing (reverse stack.now) }
{
    let mut count = stack.len();
    while count > 0 {
        if stack[count - 1].closing == closing {
            return count;
        }
        count -= 1;
    }
    0
}

impl Pairs {
    /// No bracket is open, none is paired, in a sequence of so many characters.
    fn new(alloc: Global, count: usize) -> Result<Pairs, AllocError>
        ensures { IfOk result (λ pairs. pairs ≡ Brackets.no_pairs count) }
    {
        Ok(Pairs {
            stack: Vec::new(alloc),
            closes: vec![in alloc; 0; count]?,
            full: false,
        })
    }

    /// An opening bracket.
    fn open(&mut self, closing: char, place: usize) -> Result<(), AllocError>
        ensures { OnOk result (self.new ≡ Brackets.opened closing place self.old) }
    {
        if self.stack.len() < MAX_OPEN {
            self.stack.push(Open { closing, place })?;
        } else {
            self.full = true;
        }
        Ok(())
    }

    /// A closing bracket, paired with the last one that it closes; those after that stay unpaired.
    fn close(&mut self, closing: char, place: usize)
        ensures { self.new ≡ Brackets.closed closing place self.old }
    {
        let count = open_up_to(&self.stack, closing);
        if count > 0 {
            let at = self.stack[count - 1].place;
            self.stack.truncate(count - 1);
            put(&mut self.closes, at, place);
        }
    }

    /// BD16 for a character.
    fn step(&mut self, place: usize, class: BidiClass, c: char) -> Result<(), AllocError>
        ensures { OnOk result (self.new ≡ Brackets.pairs_step place class c self.old) }
    {
        if self.full {
            return Ok(());
        }
        if let Some(closing) = opening(class, c) {
            return self.open(closing, place);
        }
        if let Some(closing) = closing(class, c) {
            self.close(closing, place);
        }
        Ok(())
    }
}

/// BD16: for each place the place of the bracket that closes the one there, or 0.
fn closes_of(
    alloc: Global,
    members: &[Member],
    classes: &[BidiClass],
) -> Result<Vec<usize>, AllocError>
    requires { length classes.now ≡ length members.now }
    ensures { IfOk result (λ closes. closes.items ≡ Brackets.closes_of members.now classes.now) }
{
    let mut pairs = Pairs::new(alloc, members.len())?;
    for i in 0..members.len() {
        pairs.step(i, classes[i], members[i].character)?;
    }
    Ok(pairs.closes)
}

/// N0: the direction that a pair takes, if any: that of the embedding if it is found between its
/// brackets, else that before them if the other one is found there.
fn pair_direction(
    embedding: BidiClass,
    before: BidiClass,
    between: &[BidiClass],
) -> Option<BidiClass>
    ensures { result ≡ Brackets.pair_direction embedding before between.now }
{
    if has_direction(between, embedding) {
        return Some(embedding);
    }
    if has_directed(between) {
        Some(before)
    } else {
        None
    }
}

/// Whether one of classes has a direction.
fn has_directed(classes: &[BidiClass]) -> bool
    ensures { result ≡ Brackets.has_directed classes.now }
{
    classes.iter().any(|class| is_directed(*class))
}

/// Whether one of classes has this direction.
fn has_direction(classes: &[BidiClass], wanted: BidiClass) -> bool
    ensures { result ≡ Brackets.has_direction wanted classes.now }
{
    classes.iter().any(|class| is_directed(*class) && is(direction(*class), wanted))
}

/// Gives a bracket a direction, and the marks after it. `members` are those of the sequence.
fn set_bracket(members: &[Member], classes: &mut [BidiClass], place: usize, direction: BidiClass)
    requires same { length classes.old ≡ length members.now }
    requires within { place < length classes.old }
    ensures { classes.new ≡ Brackets.with_bracket direction members.now place classes.old }
{
    classes[place] = direction;
    for i in place + 1..members.len() {
        if !is(members[i].class, BidiClass::NonspacingMark) {
            return;
        }
        classes[i] = direction;
    }
}

/// N0 for the bracket at a place, if it is the opening one of a pair: `close` is the place of the
/// other.
fn resolve_pair(
    members: &[Member],
    classes: &mut [BidiClass],
    embedding: BidiClass,
    before: BidiClass,
    place: usize,
    close: usize,
)
    requires { length classes.old ≡ length members.now }
    ensures { classes.new ≡ Brackets.with_pair embedding before members.now place close classes.old }
{
    if close <= place || classes.len() <= close {
        return;
    }
    if let Some(direction) = pair_direction(embedding, before, &classes[place + 1..close]) {
        set_bracket(members, classes, place, direction);
        set_bracket(members, classes, close, direction);
    }
}

/// The direction before a place, after the class at one more.
fn directed_then(before: BidiClass, class: BidiClass) -> BidiClass
    ensures { result ≡ Brackets.directed_then before class }
{
    if is_directed(class) {
        direction(class)
    } else {
        before
    }
}

/// N0: pairs of brackets take the direction of what they hold. `members` are those of the sequence.
pub(crate) fn brackets(
    alloc: Global,
    members: &[Member],
    classes: &mut [BidiClass],
    embedding: BidiClass,
    sos: BidiClass,
) -> Result<(), AllocError>
    requires { length classes.old ≡ length members.now }
    ensures { OnOk result (classes.new ≡ Brackets.n0 embedding sos members.now classes.old) }
{
    let closes = closes_of(alloc, members, classes)?;
    if !has_pair(&closes) {
        return Ok(());
    }
    resolve_pairs(members, classes, embedding, sos, &closes);
    Ok(())
}

/// Whether any bracket is paired.
fn has_pair(closes: &[usize]) -> bool
    ensures { result ≡ list_any Brackets.is_paired closes.now }
{
    closes.iter().any(|close| *close != 0)
}

/// N0, given for each place the place of the bracket that closes the one there, or 0.
fn resolve_pairs(
    members: &[Member],
    classes: &mut [BidiClass],
    embedding: BidiClass,
    sos: BidiClass,
    closes: &[usize],
)
    requires { length classes.old ≡ length members.now }
    ensures { classes.new ≡ Brackets.n0_from embedding members.now 0 sos closes.now classes.old }
{
    let mut before = sos;
    for place in 0..closes.len() {
        resolve_pair(members, classes, embedding, before, place, closes[place]);
        before = directed_then(before, class_at(classes, place));
    }
}
