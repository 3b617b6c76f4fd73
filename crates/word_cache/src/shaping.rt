//! Words shaped once, and then found.
ghost use Rattle.std.specs.Prelude.{◌≡◌, ◌↔◌, ◌≤◌, ◌^◌, false, length, string_bytes, IsTrue, IsErr, IfOk, OnErr, Err};
ghost use Rattle.shape_plan.specs.Plan.{Fits};
ghost use Rattle.word_cache.specs.Keys;
ghost use Rattle.word_cache.specs.Shaping.{IsFresh, IsShapedTo, IsTooLong, IsTooLongToShape};
ghost use Rattle.word_cache.specs.Words.{made, brought_first, HasKey};

use crate::key::word_key;
use crate::words::{Word, WordCache};
use shape_buffer::buffer::{GlyphBuffer, ShapeError, UnicodeBuffer};
use shape_buffer::interfaces::{hb_font_t, hb_ot_layout_t, hb_unicode_funcs_t};
use shape_pipeline::ot_shape_plan::hb_ot_shape_plan_t;
use shape_pipeline::ot_shaper::{Runs, hb_ot_shaper_t};
use shape_pipeline::shape_with_plan;
use shape_plan::shaping_types::{Meaning, PlanOf, ShapingTypes, TypesOf};
use std::alloc::{AllocError, Global};

/// Finds the word of a spelling, by a plan of this number, or shapes it and keeps it: then it is
/// the first word of the cache ([`WordCache::first`]). Whether it was found: exactly if one was
/// kept under the same key, so for each spelling with the same normalised characters. Its glyphs
/// are those of the spelling that it was kept with: for another spelling of it its clusters are
/// not. The plan must fit the text of the spelling. Refuses as [`word_key`] does and, if there is
/// no such word, as `shape_with_plan`, with `Length` if the spelling has 4 GiB or more, and with
/// `Memory` if a growth was refused; then nothing changes. If one of these is too long the call is
/// always refused.
pub fn shape_word<U, F, M, S>(
    alloc: Global,
    cache: &mut WordCache,
    face: &F,
    plan: &hb_ot_shape_plan_t<'_, S, M::Map, S::Data>,
    number: u32,
    spelling: &str,
) -> Result<bool, ShapeError>
where
    U: hb_unicode_funcs_t,
    F: hb_font_t,
    M: hb_ot_layout_t<F>,
    S: hb_ot_shaper_t<U, F, M>,
    requires { Fits U.unicode plan.now (Keys.spelled spelling.now) }
    ensures found { let run = ⟦<S as Runs<U, F, M>>⟧.run plan.now face.now in
        let key = Keys.key_of run number (Keys.spelled spelling.now) in
        IfOk result (λ found. IsTrue found ↔ HasKey key cache.old.entries) }
    ensures known { let run = ⟦<S as Runs<U, F, M>>⟧.run plan.now face.now in
        let key = Keys.key_of run number (Keys.spelled spelling.now) in
        IfOk result (λ found. IsTrue found
        → cache.new ≡ made (brought_first key cache.old.entries) cache.old.limit) }
    ensures fresh { let run = ⟦<S as Runs<U, F, M>>⟧.run plan.now face.now in
        IfOk result (λ found. found ≡ false
        → IsFresh run number spelling.now cache.old cache.new) }
    ensures refused { OnErr result (cache.new ≡ cache.old) }
    ensures length { let run = ⟦<S as Runs<U, F, M>>⟧.run plan.now face.now in
        result ≡ Err ShapeError.Length
        → IsTooLong run number spelling.now cache.old.entries }
    ensures too_long { let run = ⟦<S as Runs<U, F, M>>⟧.run plan.now face.now in
        IsTooLong run number spelling.now cache.old.entries → IsErr result }
{
    let text = spelled(alloc, spelling)?;
    let key = word_key::<U, F, M, S>(alloc, face, plan, number, text)?;
    if cache.find(&key) {
        return Ok(true);
    }
    let word = shaped::<TypesOf<U, F, M, S>>(alloc, face, plan, spelling)?;
    cache.keep(key, word)?;
    Ok(false)
}

/// The word that a spelling is shaped to. The plan must fit.
fn shaped<T: ShapingTypes>(
    alloc: Global,
    face: &T::Face,
    plan: &PlanOf<'_, T>,
    spelling: &str,
) -> Result<Word, ShapeError>
    requires { Fits T.Unicode.unicode plan.now (Keys.spelled spelling.now) }
    ensures word { IfOk result (λ word. IsShapedTo (⟦<T as Meaning>⟧.run plan.now face.now)
        spelling.now word) }
    ensures length { result ≡ Err ShapeError.Length
        → IsTooLongToShape (⟦<T as Meaning>⟧.run plan.now face.now) spelling.now }
    ensures too_long { IsTooLongToShape (⟦<T as Meaning>⟧.run plan.now face.now) spelling.now
        → IsErr result }
{
    let text = spelled(alloc, spelling)?;
    match shape_with_plan::<T::Unicode, T::Face, T::Engine, T::Shaper>(alloc, face, plan, text) {
        Ok(glyphs) => Ok(word_of(alloc, spelling, glyphs)?),
        Err(fault) => Err(fault.cause),
    }
}

/// A spelling with its glyphs.
pub(crate) fn word_of(
    alloc: Global,
    spelling: &str,
    glyphs: GlyphBuffer,
) -> Result<Word, AllocError>
    ensures spelling { IfOk result (λ word. string_bytes word.spelling ≡ spelling.now) }
    ensures glyphs { IfOk result (λ word. word.glyphs ≡ glyphs) }
{
    let spelling = String::from_str(alloc, spelling)?;
    Ok(Word { spelling, glyphs })
}

/// The text of a spelling, with nothing else set. Refuses with `Memory` if a growth was refused,
/// and with `Length` if the spelling has 4 GiB or more.
pub(crate) fn spelled(alloc: Global, spelling: &str) -> Result<UnicodeBuffer, ShapeError>
    ensures ok { IfOk result (λ text. text ≡ Keys.spelled spelling.now) }
    ensures length { (result ≡ Err ShapeError.Length) ↔ (2 ^ 32 ≤ length spelling.now) }
{
    if spelling.len() > u32::MAX as usize {
        return Err(ShapeError::Length);
    }
    let mut text = UnicodeBuffer::new(alloc);
    text.push_str(spelling)?;
    Ok(text)
}
