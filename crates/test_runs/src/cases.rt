//! What a case of a run asks, and what is set for it, as `test_fixtures` reads them from lines of
//! text.
//!
//! A case is a text, and what becomes of it. These are set, until they are set again:
//!
//! - `face`: the characters that have a glyph or the glyphs of the face, as `faces` has them.
//! - `units`: those of the em square of a face with widths, 1000 until they are set. No other face
//!   heeds them.
//! - `settings`: what is set in the text, as `texts` has it.
//! - `shaper`, `tables` and `step`: which ones, by the names that the fixture of the case has for
//!   them.
//!
//! A character is written as itself if it is one of ASCII that can be seen, and by four digits in
//! base 16 or more: `a`, `0301`, `1F1E6`. In a text `@` isn't a character but stands before a
//! cluster, and in the steps of `steps` that compare two texts `/` stands between them. A word may
//! stand many times, `0323*31`, and so may two of them in turn, `0308+0301*15`. How an answer is
//! written stands in `printing`. A line that can't be read fails its test, and so does a text
//! without cases.

use crate::comparing::assert_that;
use crate::texts::{PLAINLY, TextSettings, text_settings_of};
use std::fmt::Debug;
use std::process::Abort;
use std::str::FromStr;
use test_fixtures::cases::{Line, line_of};

/// What is set for a case.
#[derive(Clone, Copy)]
pub struct Settings<'a> {
    pub face: &'a str,
    pub units: u16,
    pub shaper: &'a str,
    pub tables: &'a str,
    pub step: &'a str,
    pub text_settings: TextSettings,
}

/// What is set before anything is.
pub const UNSET: Settings<'static> = Settings {
    face: "",
    units: 1000,
    shaper: "default",
    tables: "",
    step: "",
    text_settings: PLAINLY,
};

/// A text, and the answer that is wanted.
#[derive(Clone, Copy)]
pub struct Case<'a> {
    pub settings: &'a Settings<'a>,
    pub text: &'a str,
    pub wanted: &'a str,
}

/// A fixture that cases are run in.
pub trait Fixture {
    /// What becomes of the text of a case, printed as its answer is.
    fn answer(rt: &(impl Abort + AllocGlobal), case: Case<'_>) -> String;
}

/// Runs cases in a fixture, and compares their answers. There has to be a case.
pub fn check<W: Fixture>(rt: &(impl Abort + AllocGlobal), cases: &str) {
    let mut settings = UNSET;
    let mut has_case = false;
    for line in cases.lines() {
        has_case |= take::<W>(rt, &mut settings, line);
    }
    assert_that(rt, has_case);
}

/// Runs the case that a line is, or sets what the line sets. Gives whether it is a case.
fn take<'a, W: Fixture>(
    rt: &(impl Abort + AllocGlobal),
    settings: &mut Settings<'a>,
    line: &'a str,
) -> bool {
    match line_of(line) {
        Line::Case(text, wanted) => {
            run::<W>(rt, settings, (text, wanted));
            return true;
        }
        Line::Setting(name, words) => set(rt, settings, name, words),
        Line::Nothing => {}
    }
    false
}

/// Runs a case, and compares its answer.
fn run<W: Fixture>(
    rt: &(impl Abort + AllocGlobal),
    settings: &Settings<'_>,
    (text, wanted): (&str, &str),
) {
    let (text, wanted) = (written_out(rt, text), written_out(rt, wanted));
    let case = Case {
        settings,
        text: text.as_str(),
        wanted: wanted.as_str(),
    };
    assert_answer(rt, case, W::answer(rt, case));
}

/// Compares what was found with what a case wants.
pub fn assert_answer(rt: &impl Abort, case: Case<'_>, found: String) {
    if found.as_str() != case.wanted {
        fail(rt, case.text, case.wanted, found.as_str());
    }
}

/// Ends a test by the line of a case and what was found.
fn fail(rt: &impl Abort, text: &str, wanted: &str, found: &str) -> ! {
    panic!(rt; "{text} -> {wanted} gave {found}")
}

/// Sets something by its name.
fn set<'a>(rt: &impl Abort, settings: &mut Settings<'a>, name: &'a str, words: &'a str) {
    match name {
        "face" => settings.face = words,
        "units" => settings.units = number(rt, words),
        "shaper" => settings.shaper = words,
        "tables" => settings.tables = words,
        "step" => settings.step = words,
        "settings" => settings.text_settings = text_settings_of(rt, words),
        _ => rt.panic(name),
    }
}

/// The words of a line, with what stands there many times written out.
fn written_out(rt: &(impl Abort + AllocGlobal), words: &str) -> String {
    let mut line = String::new(rt.alloc());
    for word in words.split_whitespace() {
        append_repeated(rt, &mut line, word);
    }
    line
}

/// Appends a word as often as it says.
fn append_repeated(rt: &impl Abort, line: &mut String, word: &str) {
    let (words, count) = cut_off(word, "*");
    if count.is_empty() {
        return append_word(rt, line, word);
    }
    for _ in 0..number::<u16>(rt, count) {
        append_several(rt, line, words);
    }
}

/// Appends a word, or two with a `+` between them.
fn append_several(rt: &impl Abort, line: &mut String, words: &str) {
    let (first, second) = cut_off(words, "+");
    append_word(rt, line, first);
    if !second.is_empty() {
        append_word(rt, line, second);
    }
}

/// Appends a word after what a line has already.
pub fn append_word(rt: &impl Abort, line: &mut String, word: &str) {
    if !line.is_empty() {
        line.push(' ').expect(rt, "error");
    }
    line.push_str(word).expect(rt, "error");
}

/// A text before and after these characters, which it has to have.
pub fn cut<'a>(rt: &impl Abort, text: &'a str, at: &str) -> (&'a str, &'a str) {
    text.split_once(at).expect(rt, text)
}

/// A text before and after these characters, or all before them if it doesn't have them.
pub fn cut_off<'a>(text: &'a str, at: &str) -> (&'a str, &'a str) {
    text.split_once(at).unwrap_or((text, ""))
}

/// The number that a word writes.
pub fn number<T: FromStr>(rt: &impl Abort, word: &str) -> T
where
    T::Err: Debug,
{
    word.parse::<T>().expect(rt, word)
}

/// The number that a word writes in base 16.
pub fn number_in_hex(rt: &impl Abort, word: &str) -> u32 {
    u32::from_str_radix(word, 16).expect(rt, word)
}

/// The character that a word writes.
pub fn character(rt: &impl Abort, word: &str) -> char {
    let code = match word.as_bytes() {
        [byte] => u32::from(*byte),
        digits if digits.len() < 4 => u32::MAX,
        _ => number_in_hex(rt, word),
    };
    char::from_u32(code).expect(rt, word)
}
