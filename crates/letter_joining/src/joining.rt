//! How letters join: kinds of characters, states between them, and the forms of letters.
ghost use Rattle.std.specs.Prelude.{◌≡◌, ◌<◌, ◌&&◌, nat_le, nat_lt};
ghost use Rattle.letter_joining.specs.Joining.{kind_of, right_kind, next_state, own_form, form_before};
ghost use Rattle.letter_joining.specs.Joining.{joined_form, is_joined_by, settled, is_selector, place_of};

mod kinds;
mod letters;

use kinds::{FIRST, KINDS, PAST};
use letters::{JOINED_FORMS, OWN_FORMS, STATES};
use ucd_bidi::{JoiningGroup, JoiningType};

/// What a character does to those beside it; a transparent one has no kind.
#[derive(Clone, Copy, PartialEq, Eq, Debug)]
pub enum Kind {
    /// Joins to neither side.
    Apart,
    /// Joins to the letter after it alone.
    Left,
    /// Joins to the letter before it alone.
    Right,
    /// Joins to both, or makes both join.
    Dual,
    /// The letter alaph of Syriac.
    Alaph,
    /// The letters dalath and rish of Syriac.
    DalathRish,
}

/// What stands before a letter.
#[derive(Clone, Copy, PartialEq, Eq, Debug)]
pub enum State {
    /// Nothing that joins.
    Free,
    /// A letter that doesn't join on.
    Ended,
    /// A letter that joins on, not joined to the one before it.
    Begun,
    /// A letter that joins on, joined to the one before it.
    Going,
    /// An alaph at the end of joined letters.
    JoinedAlaph,
    /// Another alaph in a form at the end.
    FinalAlaph,
    /// A dalath or rish.
    AfterDalath,
}

/// The form of a letter.
#[derive(Clone, Copy, PartialEq, Eq, Debug)]
pub enum Form {
    None,
    Isol,
    Fina,
    Fin2,
    Fin3,
    Medi,
    Med2,
    Init,
}

/// The kind of a letter that joins to the one before it alone.
fn right_kind(group: JoiningGroup) -> Kind
    ensures { result ≡ right_kind group }
{
    match group {
        JoiningGroup::Alaph => Kind::Alaph,
        JoiningGroup::DalathRish => Kind::DalathRish,
        _ => Kind::Right,
    }
}

/// The kind of a character, by the database. Its group is looked up only if it matters.
#[inline(never)]
fn listed_kind(c: char) -> Option<Kind>
    ensures { result ≡ kind_of c }
{
    match JoiningType::for_char(c) {
        JoiningType::Transparent => None,
        JoiningType::NonJoining => Some(Kind::Apart),
        JoiningType::LeftJoining => Some(Kind::Left),
        JoiningType::DualJoining | JoiningType::JoinCausing => Some(Kind::Dual),
        JoiningType::RightJoining => Some(right_kind(JoiningGroup::for_char(c))),
    }
}

/// Whether a character is one of the table.
fn is_in_table(c: char) -> bool
    ensures { result ≡ (nat_le 0x600 c && nat_lt c 0x780) }
{
    FIRST <= c && c < PAST
}

/// Whether a character stands before U+00AD, where each joins to neither side: the space above all.
fn is_early(c: char) -> bool
    ensures { result ≡ nat_lt c 0xAD }
{
    c < '\u{AD}'
}

/// The kind of a character.
#[inline(always)]
pub fn kind_of(c: char) -> Option<Kind>
    ensures { result ≡ kind_of c }
{
    if is_in_table(c) {
        return KINDS[c as usize - FIRST as usize];
    }
    if is_early(c) {
        return Some(Kind::Apart);
    }
    listed_kind(c)
}

/// The place of a state and a kind in the tables.
fn place_of(state: State, kind: Kind) -> usize
    ensures value { result ≡ place_of state kind }
    ensures within { result < 48 }
{
    kind as usize * 8 + state as usize
}

/// What stands before the next letter, by what stood before this one.
pub fn next_state(state: State, kind: Kind) -> State
    ensures { result ≡ next_state state kind }
{
    STATES[place_of(state, kind)]
}

/// The form of a letter, by what stands before it.
pub fn own_form(state: State, kind: Kind) -> Form
    ensures { result ≡ own_form state kind }
{
    OWN_FORMS[place_of(state, kind)]
}

/// The form of a letter before one that joins to it.
fn joined_form(state: State, kind: Kind) -> Form
    ensures { result ≡ joined_form state kind }
{
    JOINED_FORMS[place_of(state, kind)]
}

/// The form that a letter gets from the next one, by what stands before that; none if it keeps its
/// own.
pub fn form_before(state: State, next: Kind) -> Form
    ensures { result ≡ form_before state next }
{
    match next {
        Kind::Apart | Kind::Left => Form::None,
        _ => match state {
            State::Begun => Form::Init,
            State::Going => Form::Medi,
            State::JoinedAlaph => Form::Med2,
            State::FinalAlaph => Form::Isol,
            _ => Form::None,
        },
    }
}

/// Whether the next letter may give this one its form.
fn is_joined_by(next: Option<Kind>) -> bool
    ensures { result ≡ is_joined_by next }
{
    !matches!(next, None | Some(Kind::Apart | Kind::Left))
}

/// The form of a letter between what stands before it and the next letter.
pub fn settled(state: State, kind: Kind, next: Option<Kind>) -> Form
    ensures { result ≡ settled state kind next }
{
    if is_joined_by(next) {
        joined_form(state, kind)
    } else {
        own_form(state, kind)
    }
}

/// A variation selector of Mongolian, which has the form of its letter.
pub fn is_selector(c: char) -> bool
    ensures { result ≡ is_selector c }
{
    ('\u{180B}' <= c && c <= '\u{180D}') || c == '\u{180F}'
}
