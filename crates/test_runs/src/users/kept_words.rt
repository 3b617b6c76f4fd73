//! Words in a cache, under their keys. A word takes 4 bytes for each number of its key, those of
//! its spelling, and 40 for each glyph.
use crate::users::rows::{Asked, assert_rows};
use crate::users::shaping::{face_of, planned};
use shape_buffer::buffer::Direction;
use shape_buffer::interfaces::{MapFace, NoLookups};
use shape_pipeline::ot_shape_plan::hb_ot_shape_plan_t;
use shape_pipeline::ot_shaper::{Decomposed, Preferring};
use shape_unicode::UnicodeDatabase;
use shape_users::words::spelled;
use std::alloc::Global;
use std::fmt::Write;
use std::process::Abort;
use word_cache::{WordCache, shape_word};

/// A plan in the mode that decomposes fully.
type Plan<'a> = hb_ot_shape_plan_t<'a, Preferring<Decomposed>, (), ()>;

/// Finds a word, or shapes it and keeps it. Returns whether it was found.
fn was_found(
    rt: &impl Abort,
    alloc: Global,
    cache: &mut WordCache,
    (face, plan): (&MapFace, &Plan<'_>),
    number: u32,
    spelling: &str,
) -> bool {
    let text = spelled(alloc, spelling).expect(rt, "memory");
    assert!(rt; plan.fits::<UnicodeDatabase>(&text));
    shape_word::<UnicodeDatabase, MapFace, NoLookups, _>(
        alloc, cache, face, plan, number, spelling,
    ).expect(rt, "memory")
}

/// Prints an answer, how many words are kept, and their bytes.
fn print_answer(rt: &impl Abort, printed: &mut String, cache: &WordCache, found: bool) {
    let answer = if found { "found" } else { "new" };
    let bytes = cache.bytes().min(1_000_000) as u64;
    write!(printed, " {answer} {}/{bytes}", cache.len()).expect(rt, "memory");
}

/// Asks for a word, which is the number of a plan and a spelling, as `0:qe`.
fn print_word(
    rt: &impl Abort,
    alloc: Global,
    printed: &mut String,
    cache: &mut WordCache,
    how: (&MapFace, &Plan<'_>),
    word: &str,
) {
    let (number, spelling) = word.split_once(':').expect(rt, "a number");
    let number = number.parse().expect(rt, "a number");
    let found = was_found(rt, alloc, cache, how, number, spelling);
    print_answer(rt, printed, cache, found);
}

/// Prints the spelling of the word that was used last, and its glyphs.
fn print_first(rt: &impl Abort, printed: &mut String, cache: &WordCache) {
    let word = cache.first().expect(rt, "a word");
    write!(printed, "; {}", word.spelling).expect(rt, "memory");
    for info in word.glyphs.glyph_infos() {
        write!(printed, " {}", info.glyph_id).expect(rt, "memory");
    }
}

/// Asks a cache that may take so many bytes for some words.
fn print_words(
    rt: &impl Abort,
    alloc: Global,
    printed: &mut String,
    how: (&MapFace, &Plan<'_>),
    limit: u64,
    words: &str,
) {
    let mut cache = WordCache::new(alloc, limit).expect(rt, "memory");
    for word in words.split_whitespace() {
        print_word(rt, alloc, printed, &mut cache, how, word);
    }
    print_first(rt, printed, &cache);
}

/// Asks this over a face.
fn print_words_over(
    rt: &impl Abort,
    alloc: Global,
    printed: &mut String,
    face: &MapFace,
    limit: u64,
    words: &str,
) {
    let shaper = Preferring::<Decomposed>::new();
    let plan = planned(rt, alloc, face, &shaper, Direction::LeftToRight, b"Latn");
    print_words(rt, alloc, printed, (face, &plan), limit, words);
}

/// Asks a cache that may take so many bytes for words, as `0:qe 1:q`: the number of a plan, and a
/// spelling. Prints for each whether it was found or is new, how many words are kept then, and
/// their bytes; and the one that was used last, with its glyphs: ` new 1/50 found 1/50; q 1`.
pub fn print_cached(
    rt: &impl Abort,
    alloc: Global,
    printed: &mut String,
    limit: &str,
    words: &str,
) {
    let limit = limit.parse().expect(rt, "a number of bytes");
    let face = face_of(rt, alloc, "qe\u{301}");
    print_words_over(rt, alloc, printed, &face, limit, words);
}

/// U+00E9 and U+0065 U+0301 have the key 0, 65, 301: 12 bytes, 2 of the first spelling and 80 for
/// two glyphs, which are those of the spelling that came first. Under another number it is another
/// word. Of words of 94, 49 and 49 bytes the one that was not used for longest goes where 150 may
/// be taken; one of 94 stays alone where 90 may be.
#[test]
fn words_are_found_and_go(rt: HostRuntime) {
    let rows = "1000 | 0:\u{E9} 0:q 0:e\u{301} -> new 1/94 new 2/143 found 2/143; \u{E9} 2 3
        1000 | 0:\u{E9} 1:\u{E9} 0:\u{E9} -> new 1/94 new 2/188 found 2/188; \u{E9} 2 3
        150 | 0:\u{E9} 0:q 0:e 0:q 0:\u{E9} -> new 1/94 new 2/143 new 2/98 found 2/98 new 2/143; \u{E9} 2 3
        90 | 0:q 0:e 0:qe 0:q -> new 1/49 new 1/49 new 1/94 new 1/49; q 1";
    assert_rows(&rt, rt.alloc(), Asked::Cached, rows);
}
