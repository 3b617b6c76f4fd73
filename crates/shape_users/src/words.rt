//! A cache of shaped words, which finds a word under each spelling with the same normalised
//! characters.
//!
//! A plan serves every text that it fits, so plans are kept and found by `fits`. A word is found by
//! its normalised characters; if `equivalent_spellings` can tell, these are the equivalent
//! spellings, so that U+00E9 and U+0065 U+0301 are kept once. A cache that must never show one word
//! for another needs no more than that, and may use any mode; the one that decomposes fully finds
//! most spellings.
ghost use Rattle.std.specs.Prelude.{◌≡◌, [], length, Err, IsOk, IsErr, IfOk, OnErr, IfSome, IfNone};
ghost use Rattle.shape_plan.specs.Plan.{Fits};
ghost use Rattle.shape_users.specs.Words;
ghost use Rattle.shape_users.specs.Worked.Found.{WorkedFound};
ghost use Rattle.shape_users.specs.Worked.Words.{WorkedWords};

mod spellings;

use shape_buffer::buffer::{GlyphBuffer, ShapeError, UnicodeBuffer};
use shape_buffer::interfaces::{hb_font_t, hb_ot_layout_t, hb_unicode_funcs_t};
use shape_pipeline::ot_shape_plan::hb_ot_shape_plan_t;
use shape_pipeline::ot_shaper::{Runs, hb_ot_shaper_t};
use shape_pipeline::shape_with_plan;
pub use spellings::{equivalent_spellings, same_word, spelled};
use std::alloc::Global;

/// A word that was shaped: how it was spelled, and its glyphs.
#[derive(Drop, Debug)]
pub struct Word {
    pub spelling: String,
    pub glyphs: GlyphBuffer,
}

/// The place of a plan that serves a text.
pub fn find_plan<U: hb_unicode_funcs_t, S, P, D>(
    plans: &[hb_ot_shape_plan_t<'_, S, P, D>],
    text: &UnicodeBuffer,
) -> Option<usize>
    ensures found { IfSome result (λ place. Words.FitsAt U.unicode plans.now place text.now) }
    ensures nowhere { IfNone result (Words.NoneFits U.unicode plans.now
        (length plans.now) text.now) }
{
    for place in 0..plans.len() {
        if plans[place].fits::<U>(text) {
            return Some(place);
        }
    }
    None
}

/// The place of a word that was shaped under a spelling with the same normalised characters: the
/// first such. Refuses as `same_word` does for the spelling and a word up to that place: with
/// `Length` if one of the two is too long, and always then. Compares nothing if there is no word,
/// and refuses nothing then.
pub fn find_word<U, F, M, S>(
    alloc: Global,
    face: &F,
    plan: &hb_ot_shape_plan_t<'_, S, M::Map, S::Data>,
    words: &[Word],
    spelling: &str,
) -> Result<Option<usize>, ShapeError>
where
    U: hb_unicode_funcs_t,
    F: hb_font_t,
    M: hb_ot_layout_t<F>,
    S: hb_ot_shaper_t<U, F, M>,
    ensures found { let run = ⟦<S as Runs<U, F, M>>⟧.run plan.now face.now in
        IfOk result (λ place. IfSome place (λ k. Words.IsPlaceOf run words.now k spelling.now)) }
    ensures nowhere { let run = ⟦<S as Runs<U, F, M>>⟧.run plan.now face.now in
        IfOk result (λ place. IfNone place
        (Words.IsNowhere run words.now (length words.now) spelling.now)) }
    ensures length { let run = ⟦<S as Runs<U, F, M>>⟧.run plan.now face.now in
        result ≡ Err ShapeError.Length → Words.FindsTooLong run words.now spelling.now }
    ensures too_long { let run = ⟦<S as Runs<U, F, M>>⟧.run plan.now face.now in
        Words.FindsTooLong run words.now spelling.now → IsErr result }
    ensures no_words { words.now ≡ [] → IsOk result }
{
    for place in 0..words.len() {
        let known = words[place].spelling.as_str();
        if same_word::<U, F, M, S>(alloc, face, plan, known, spelling)? {
            return Ok(Some(place));
        }
    }
    Ok(None)
}

/// The place of a word under a spelling with the same normalised characters; it is shaped, and kept
/// after the others, if there is none yet. The words that were there stay as they were, at their
/// places. `words` must hold words of this plan and face alone. The plan must fit the spelling's
/// text. Refuses as `find_word` does and, if there is none yet, as `spelled` and `shape_with_plan`
/// do, or with `Memory` if a growth was refused; then keeps nothing.
pub fn keep_word<U, F, M, S>(
    alloc: Global,
    face: &F,
    plan: &hb_ot_shape_plan_t<'_, S, M::Map, S::Data>,
    words: &mut Vec<Word>,
    spelling: &str,
) -> Result<usize, ShapeError>
where
    U: hb_unicode_funcs_t,
    F: hb_font_t,
    M: hb_ot_layout_t<F>,
    S: hb_ot_shaper_t<U, F, M>,
    requires { Fits U.unicode plan.now (Words.spelled spelling.now) }
    ensures place { let run = ⟦<S as Runs<U, F, M>>⟧.run plan.now face.now in
        IfOk result (λ place. Words.IsPlaceOf run words.new.items place spelling.now) }
    ensures kept { let run = ⟦<S as Runs<U, F, M>>⟧.run plan.now face.now in
        IfOk result (λ place. Words.KeepsWords run words.old.items words.new.items place
        spelling.now) }
    ensures refused { OnErr result (words.new.items ≡ words.old.items) }
    ensures length { let run = ⟦<S as Runs<U, F, M>>⟧.run plan.now face.now in
        result ≡ Err ShapeError.Length → Words.KeepsTooLong run words.old.items spelling.now }
    ensures too_long { let run = ⟦<S as Runs<U, F, M>>⟧.run plan.now face.now in
        Words.KeepsTooLong run words.old.items spelling.now → IsErr result }
{
    if let Some(place) = find_word::<U, F, M, S>(alloc, face, plan, words.as_slice(), spelling)? {
        return Ok(place);
    }
    let text = spelled(alloc, spelling)?;
    let glyphs = match shape_with_plan::<U, F, M, S>(alloc, face, plan, text) {
        Ok(glyphs) => glyphs,
        Err(fault) => return Err(fault.cause),
    };
    let place = words.len();
    let spelling = String::from_str(alloc, spelling)?;
    words.push(Word { spelling, glyphs })?;
    Ok(place)
}

/// What a cache keeps of its words, on lists that were worked by hand. Does nothing.
pub fn words_meet_worked_cases()
    ensures { WorkedWords }
{}

/// Which word and which plan are found, and when a spelling is too long for that, on lists worked
/// out by hand.
pub fn found_words_meet_worked_cases()
    ensures { WorkedFound }
{}
