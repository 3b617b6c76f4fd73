//! Words found in a cache, beside their normalising alone.
ghost use Rattle.std.specs.Prelude.{◌≡◌, IfOk, IsTrue};
ghost use Rattle.shape_plan.specs.Plan.{Fits};
ghost use Rattle.shape_unicode.specs.Meaning.{unicode_database};
ghost use Rattle.word_cache.specs.Keys;

use opened_face::OpenedFace;
use shape_buffer::buffer::{Direction, ShapeError, UnicodeBuffer};
use shape_buffer::interfaces::NoLookups;
use shape_common::{Script, hb_tag_t};
use shape_font::FontFace;
use shape_pipeline::normalised_characters;
use shape_plan::ot_shape_plan::hb_ot_shape_plan_t;
use shape_plan::ot_shaper::{Decomposed, Preferring};
use shape_unicode::UnicodeDatabase;
use std::alloc::Global;
use word_cache::{WordCache, shape_word};

/// A plan in the mode that decomposes fully.
type Plan<'a> = hb_ot_shape_plan_t<'a, Preferring<Decomposed>, (), ()>;

/// The text of a word.
fn spelled(alloc: Global, word: &str) -> Result<UnicodeBuffer, ShapeError>
    ensures { IfOk result (λ text. text ≡ Keys.spelled word.now) }
{
    if word.len() > u32::MAX as usize {
        return Err(ShapeError::Length);
    }
    let mut text = UnicodeBuffer::new(alloc);
    text.push_str(word)?;
    Ok(text)
}

/// Whether a plan serves the text of a word.
fn serves(alloc: Global, plan: &Plan<'_>, word: &str) -> Result<bool, ShapeError>
    ensures { IfOk result (λ serves. IsTrue serves
        → Fits unicode_database plan.now (Keys.spelled word.now)) }
{
    let text = spelled(alloc, word)?;
    Ok(plan.fits::<UnicodeDatabase>(&text))
}

/// Whether a word was found; else it is kept.
#[inline(never)]
fn find_word(
    alloc: Global,
    cache: &mut WordCache,
    face: &OpenedFace<'_>,
    plan: &Plan<'_>,
    word: &str,
) -> Result<bool, ShapeError>
    requires { Fits unicode_database plan.now (Keys.spelled word.now) }
{
    shape_word::<UnicodeDatabase, OpenedFace<'_>, NoLookups, _>(alloc, cache, face, plan, 0, word)
}

/// How many of the words, a line each, were found.
fn find_each(
    alloc: Global,
    cache: &mut WordCache,
    face: &OpenedFace<'_>,
    plan: &Plan<'_>,
    words: &str,
) -> Result<usize, ShapeError> {
    let mut found: usize = 0;
    for word in words.lines() {
        if !serves(alloc, plan, word)? {
            return Ok(0);
        }
        let is_found = find_word(alloc, cache, face, plan, word)?;
        found = found.saturating_add(usize::from(is_found));
    }
    Ok(found)
}

/// Keeps words, and finds each so many times. Returns how many were found the last time.
fn find_times(
    alloc: Global,
    face: &OpenedFace<'_>,
    plan: &Plan<'_>,
    words: &str,
    times: u32,
) -> Result<usize, ShapeError> {
    let mut cache = WordCache::new(alloc, u64::MAX)?;
    find_each(alloc, &mut cache, face, plan, words)?;
    let mut found = 0;
    for _ in 0..times {
        found = find_each(alloc, &mut cache, face, plan, words)?;
    }
    Ok(found)
}

/// How many characters a word is normalised to.
#[inline(never)]
fn normalise_word(
    alloc: Global,
    face: &OpenedFace<'_>,
    plan: &Plan<'_>,
    word: &str,
) -> Result<usize, ShapeError> {
    let text = spelled(alloc, word)?;
    match normalised_characters::<UnicodeDatabase, OpenedFace<'_>, NoLookups, _>(
        alloc, face, plan, text,
    ) {
        Ok(characters) => Ok(characters.len()),
        Err(fault) => Err(fault.cause),
    }
}

/// How many words, a line each, were normalised.
fn normalise_each(
    alloc: Global,
    face: &OpenedFace<'_>,
    plan: &Plan<'_>,
    words: &str,
) -> Result<usize, ShapeError> {
    let mut count: usize = 0;
    for word in words.lines() {
        normalise_word(alloc, face, plan, word)?;
        count = count.saturating_add(1);
    }
    Ok(count)
}

/// Normalises each word so many times. Returns how many there are.
fn normalise_times(
    alloc: Global,
    face: &OpenedFace<'_>,
    plan: &Plan<'_>,
    words: &str,
    times: u32,
) -> Result<usize, ShapeError> {
    let mut count = 0;
    for _ in 0..times {
        count = normalise_each(alloc, face, plan, words)?;
    }
    Ok(count)
}

/// The plan for words in Latin script.
fn latin_plan<'a>(
    alloc: Global,
    face: &'a OpenedFace<'a>,
    shaper: &'a Preferring<Decomposed>,
) -> Result<Plan<'a>, ShapeError> {
    hb_ot_shape_plan_t::new::<UnicodeDatabase, OpenedFace<'a>, NoLookups>(
        alloc,
        face,
        shaper,
        Direction::LeftToRight,
        Some(Script(hb_tag_t::from_bytes(b"Latn"))),
        None,
        &[],
    )
}

/// Finds words so many times, or normalises them.
fn words_of(
    alloc: Global,
    face: &OpenedFace<'_>,
    words: &str,
    found: bool,
    times: u32,
) -> Result<usize, ShapeError> {
    let shaper = Preferring::<Decomposed>::new();
    let plan = latin_plan(alloc, face, &shaper)?;
    if found {
        find_times(alloc, face, &plan, words, times)
    } else {
        normalise_times(alloc, face, &plan, words, times)
    }
}

/// Over a font file that is opened once, finds the words of a text in Latin script so many times in
/// a cache that has them all, a line each; if `found` is 0 normalises each so many times. Returns
/// how many words there are.
#[unsafe(no_mangle)]
pub extern "C" fn bench_words(
    alloc: Global,
    font: &[u8],
    utf8: &[u8],
    found: u32,
    times: u32,
) -> usize
    ensures { times ≡ 0 → result ≡ 0 }
{
    if times == 0 {
        return 0;
    }
    let (Some(face), Ok(text)) = (FontFace::from_slice(font, 0), str::from_utf8(utf8)) else {
        return 0;
    };
    match OpenedFace::new(alloc, face) {
        Ok(opened) => words_of(alloc, &opened, text, found != 0, times).unwrap_or(0),
        Err(_) => 0,
    }
}
