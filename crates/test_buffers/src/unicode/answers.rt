//! What Unicode functions return, beside rows of text.

use crate::unicode::comparing::{assert_row, character, number, parts, rows_of};
use shape_buffer::buffer::{Direction, Script, hb_tag_t};
use shape_buffer::interfaces::hb_unicode_funcs_t;
use shape_buffer::interfaces::space_types::NOT_SPACE;
use std::process::Abort;

/// A question to Unicode functions: about a character, a script, or two characters with a `+`
/// between them.
#[derive(Clone, Copy)]
pub enum Question {
    Ccc,
    Space,
    Script,
    Mirrored,
    Vertical,
    Split,
    Ignorable,
    Selector,
    Pictograph,
    DirectionOfScript,
    Composite,
}

/// The answer to one.
#[derive(Clone, Copy, PartialEq, Debug)]
enum Answer {
    Number(u32),
    Script(Script),
    Character(Option<char>),
    Pair(Option<(char, char)>),
    Kind(bool),
    Direction(Option<Direction>),
}

/// The script of a tag.
pub fn script_of(rt: &impl Abort, word: &str) -> Script {
    match word.as_bytes() {
        [a, b, c, d] => Script(hb_tag_t::from_bytes(&[*a, *b, *c, *d])),
        _ => rt.panic(word),
    }
}

/// Two characters.
fn pair(rt: &impl Abort, word: &str) -> (char, char) {
    let (a, b) = parts(rt, word, "+");
    (character(rt, a), character(rt, b))
}

/// What the functions return.
fn answer_of<U: hb_unicode_funcs_t>(rt: &impl Abort, question: Question, word: &str) -> Answer {
    match question {
        Question::DirectionOfScript => Answer::Direction(U::script_direction(script_of(rt, word))),
        Question::Composite => {
            let (a, b) = pair(rt, word);
            Answer::Character(U::compose(a, b))
        }
        _ => answer_for::<U>(rt, question, character(rt, word)),
    }
}

/// What they answer about a character.
fn answer_for<U: hb_unicode_funcs_t>(rt: &impl Abort, question: Question, c: char) -> Answer {
    match question {
        Question::Ccc => Answer::Number(u32::from(U::modified_combining_class(c))),
        Question::Space => Answer::Number(u32::from(U::space_fallback(c))),
        Question::Script => Answer::Script(U::script(c)),
        Question::Mirrored => Answer::Character(U::mirrored(c)),
        Question::Vertical => Answer::Character(U::vertical(c)),
        Question::Split => Answer::Pair(U::decompose(c)),
        Question::Ignorable => Answer::Kind(U::is_default_ignorable(c)),
        Question::Selector => Answer::Kind(U::is_variation_selector(c)),
        Question::Pictograph => Answer::Kind(U::is_emoji_extended_pictographic(c)),
        _ => rt.panic("no question about a character"),
    }
}

/// The answer that a word gives: whether a character is of a kind.
fn yes_or_no(rt: &impl Abort, word: &str) -> bool {
    match word {
        "yes" => true,
        "no" => false,
        _ => rt.panic(word),
    }
}

/// The direction of a word; none for a script that is written both ways.
fn direction(rt: &impl Abort, word: &str) -> Option<Direction> {
    match word {
        "LeftToRight" => Some(Direction::LeftToRight),
        "RightToLeft" => Some(Direction::RightToLeft),
        "either" => None,
        _ => rt.panic(word),
    }
}

/// The answer that a row has.
fn wanted(rt: &impl Abort, question: Question, word: &str) -> Answer {
    match question {
        Question::Ccc | Question::Space => Answer::Number(number(rt, word)),
        Question::Script => Answer::Script(script_of(rt, word)),
        Question::Split if word == "none" => Answer::Pair(None),
        Question::Split => Answer::Pair(Some(pair(rt, word))),
        Question::DirectionOfScript => Answer::Direction(direction(rt, word)),
        Question::Mirrored | Question::Vertical | Question::Composite => {
            Answer::Character(if word == "none" {
                None
            } else {
                Some(character(rt, word))
            })
        }
        _ => Answer::Kind(yes_or_no(rt, word)),
    }
}

/// Compares the answers for the words of a row, which has some.
fn check_row<U: hb_unicode_funcs_t>(rt: &impl Abort, question: Question, row: &str) {
    let (words, answer) = parts(rt, row, "->");
    assert_row(rt, row, words.is_empty(), false);
    let wanted = wanted(rt, question, answer);
    for word in words.split_whitespace() {
        assert_row(rt, word, answer_of::<U>(rt, question, word), wanted);
    }
}

/// Compares answers: `WORDS -> ANSWER`.
pub fn check_answers<U: hb_unicode_funcs_t>(rt: &impl Abort, question: Question, rows: &str) {
    for row in rows_of(rt, rows).lines() {
        check_row::<U>(rt, question, row);
    }
}

/// Whether the functions have something for a character.
fn has_answer<U: hb_unicode_funcs_t>(rt: &impl Abort, question: Question, c: char) -> bool {
    match question {
        Question::Ccc => U::modified_combining_class(c) != 0,
        Question::Space => U::space_fallback(c) != NOT_SPACE,
        Question::Mirrored => U::mirrored(c).is_some(),
        Question::Vertical => U::vertical(c).is_some(),
        Question::Split => U::decompose(c).is_some(),
        Question::Ignorable => U::is_default_ignorable(c),
        Question::Selector => U::is_variation_selector(c),
        Question::Pictograph => U::is_emoji_extended_pictographic(c),
        _ => rt.panic("no question that some characters alone have an answer to"),
    }
}

/// How many characters the functions have something for.
pub fn count<U: hb_unicode_funcs_t>(rt: &impl Abort, question: Question) -> usize {
    let mut count: usize = 0;
    for c in '\0'..=char::MAX {
        if has_answer::<U>(rt, question, c) {
            count = count.saturating_add(1);
        }
    }
    count
}

/// The name of a character's category.
pub fn category_name<U: hb_unicode_funcs_t>(rt: &(impl Abort + AllocGlobal), c: char) -> String {
    let category = U::general_category(c);
    format!(in rt.alloc(); "{category:?}").expect(rt, "memory")
}

/// Compares the category of a character.
fn check_category<U: hb_unicode_funcs_t>(rt: &(impl Abort + AllocGlobal), row: &str) {
    let (word, wanted) = parts(rt, row, "->");
    let name = category_name::<U>(rt, character(rt, word));
    assert_row(rt, word, name.as_str(), wanted);
}

/// Compares the categories of characters: `CHARACTER -> CATEGORY`.
pub fn check_categories<U: hb_unicode_funcs_t>(rt: &(impl Abort + AllocGlobal), rows: &str) {
    for row in rows_of(rt, rows).lines() {
        check_category::<U>(rt, row);
    }
}
