//! Words under one spelling and another.
use crate::comparing::assert_that;
use crate::users::rows::{Asked, assert_printed, assert_rows};
use crate::users::shaping::{face_of, planned};
use shape_buffer::buffer::Direction;
use shape_buffer::interfaces::{MapFace, NoLookups};
use shape_pipeline::ot_shape_plan::hb_ot_shape_plan_t;
use shape_pipeline::ot_shaper::{Decomposed, Preferring};
use shape_unicode::UnicodeDatabase;
use shape_users::words::{Word, equivalent_spellings, find_plan, keep_word, spelled};
use std::alloc::Global;
use std::fmt::Write;
use std::process::Abort;

/// A plan in the mode that decomposes fully.
type Plan<'a> = hb_ot_shape_plan_t<'a, Preferring<Decomposed>, (), ()>;

/// The place at which the plan for Latin, the second one, keeps a word.
fn kept(
    rt: &impl Abort,
    alloc: Global,
    face: &MapFace,
    plans: &[Plan<'_>; 2],
    words: &mut Vec<Word>,
    spelling: &str,
) -> usize {
    let text = spelled(alloc, spelling).expect(rt, "memory");
    let place = find_plan::<UnicodeDatabase, _, _, _>(plans, &text);
    assert_that(rt, place == Some(1));
    let latin = &plans[1];
    assert!(rt; latin.fits::<UnicodeDatabase>(&text));
    keep_word::<UnicodeDatabase, MapFace, NoLookups, _>(alloc, face, latin, words, spelling).expect(
        rt, "memory",
    )
}

/// The words that are kept of some spellings. Prints the place of each spelling's word.
fn kept_words(
    rt: &impl Abort,
    alloc: Global,
    printed: &mut String,
    face: &MapFace,
    plans: &[Plan<'_>; 2],
    spellings: &str,
) -> Vec<Word> {
    let mut words: Vec<Word> = Vec::new(alloc);
    for spelling in spellings.lines() {
        let place = kept(rt, alloc, face, plans, &mut words, spelling.trim());
        write!(printed, " {place}").expect(rt, "memory");
    }
    words
}

/// Prints words with their glyphs, as `; SPELLING 1 3 2`.
fn print_words(rt: &impl Abort, printed: &mut String, words: &[Word]) {
    for word in words {
        write!(printed, "; {}", word.spelling).expect(rt, "memory");
        for info in word.glyphs.glyph_infos() {
            write!(printed, " {}", info.glyph_id).expect(rt, "memory");
        }
    }
}

/// Prints the places at which spellings are kept, and the words that are kept.
fn print_kept(
    rt: &impl Abort,
    alloc: Global,
    printed: &mut String,
    face: &MapFace,
    spellings: &str,
) {
    let shaper = Preferring::<Decomposed>::new();
    let plans = [
        planned(rt, alloc, face, &shaper, Direction::RightToLeft, b"Hebr"),
        planned(rt, alloc, face, &shaper, Direction::LeftToRight, b"Latn"),
    ];
    let words = kept_words(rt, alloc, printed, face, &plans, spellings);
    print_words(rt, printed, words.as_slice());
}

/// Compares the places at which spellings are kept, and the words that are kept.
fn assert_kept(rt: &impl Abort, alloc: Global, spellings: &str, wanted: &str) {
    let face = face_of(rt, alloc, "qe\u{301}\u{E9}");
    let mut printed = String::new(alloc);
    print_kept(rt, alloc, &mut printed, &face, spellings);
    assert_printed(rt, printed.as_str(), wanted);
}

/// The last letter has an accent, spelled as one character and as two, or none. The second spelling
/// gets what was shaped for the first one.
#[test]
fn equivalent_spellings_are_one_word(rt: HostRuntime) {
    let spellings = "q\u{301}\u{E9}
        q\u{301}e\u{301}
        q\u{301}e";
    let wanted = " 0 0 1; q\u{301}\u{E9} 1 3 2 3; q\u{301}e 1 3 2";
    assert_kept(&rt, rt.alloc(), spellings, wanted);
}

/// Whether two spellings are equivalent, if this can be decided.
fn decided(
    rt: &impl Abort,
    alloc: Global,
    face: &MapFace,
    first: &str,
    second: &str,
) -> Option<bool> {
    let shaper = Preferring::<Decomposed>::new();
    let plan = planned(rt, alloc, face, &shaper, Direction::LeftToRight, b"Latn");
    equivalent_spellings::<UnicodeDatabase, MapFace, NoLookups, _>(
        alloc, face, &plan, first, second,
    ).expect(rt, "memory")
}

/// Prints whether two spellings are equivalent: ` yes`, ` no`, or ` open` if this can't be decided.
pub fn print_decided(
    rt: &impl Abort,
    alloc: Global,
    printed: &mut String,
    first: &str,
    second: &str,
) {
    let face = face_of(rt, alloc, "qe\u{301}\u{FE00}");
    let answer = match decided(rt, alloc, &face, first, second) {
        Some(true) => " yes",
        Some(false) => " no",
        None => " open",
    };
    printed.push_str(answer).expect(rt, "memory");
}

/// What the face's glyphs and the text leave open isn't answered: no glyph for x, a variation
/// selector. A mark need not stand past the first character.
#[test]
fn spellings_that_can_be_decided(rt: HostRuntime) {
    let rows = "q\u{301}\u{E9} | q\u{301}e\u{301} -> yes
        q\u{301}\u{E9} | q\u{301}e -> no
        \u{E9} | e\u{301} -> yes
        qe | q\u{301}e -> no
        q\u{301}x | q\u{301}e -> open
        q\u{301}e | q\u{301}e\u{FE00} -> open";
    assert_rows(&rt, rt.alloc(), Asked::Decided, rows);
}
