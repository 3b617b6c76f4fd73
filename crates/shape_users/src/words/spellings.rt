//! Spellings of words, and whether two of them are one word.
ghost use Rattle.std.specs.Prelude.{◌≡◌, ◌≤◌, ◌^◌, ◌⊎◌, ◌↔◌, Err, length};
ghost use Rattle.std.specs.Prelude.{IsTrue, IsSome, IsErr, IfOk, IfSome};
ghost use Rattle.shape_normalize.specs.CanonicalForm.{text_of, AreEquivalent};
ghost use Rattle.shape_normalize.specs.CanonicalForm.{CanonicalFormPremises, HasLawfulHooks};
ghost use Rattle.shape_pipeline.specs.Headline.{prepared_text};
ghost use Rattle.shape_users.specs.Words;

use shape_buffer::buffer::{ShapeError, UnicodeBuffer, hb_buffer_t};
use shape_buffer::interfaces::{hb_font_t, hb_ot_layout_t, hb_unicode_funcs_t};
use shape_pipeline::ot_shape::{hb_ot_shape_context_t, prepare_text};
use shape_pipeline::ot_shape_normalize::{meets_canonical_premises, normalized_equal};
use shape_pipeline::ot_shape_plan::hb_ot_shape_plan_t;
use shape_pipeline::ot_shaper::{Runs, hb_ot_shaper_t};
use shape_plan::shaping_types::{Meaning, PlanOf, ShapingTypes, TypesOf};
use std::alloc::Global;

/// The text of a spelling, with nothing else set. Refuses with `Memory` if a growth was refused,
/// and with `Length` if the spelling has 4 GiB or more.
pub fn spelled(alloc: Global, spelling: &str) -> Result<UnicodeBuffer, ShapeError>
    ensures ok { IfOk result (λ text. text ≡ Words.spelled spelling.now) }
    ensures length { (result ≡ Err ShapeError.Length) ↔ (2 ^ 32 ≤ length spelling.now) }
{
    if spelling.len() > u32::MAX as usize {
        return Err(ShapeError::Length);
    }
    let mut text = UnicodeBuffer::new(alloc);
    text.push_str(spelling)?;
    Ok(text)
}

/// A text as a run prepares it for normalising. Refuses with `Length` if the spelling has 4 GiB or
/// more, or a step of preparing would leave its list past the run's limit, and with `Memory` if a
/// growth was refused. A spelling that is too long is always refused; with `Length` if that is for
/// its bytes.
fn prepared<T: ShapingTypes>(
    alloc: Global,
    face: &T::Face,
    plan: &PlanOf<'_, T>,
    spelling: &str,
) -> Result<hb_buffer_t, ShapeError>
    ensures ok { IfOk result (λ buffer. buffer
        ≡ prepared_text (⟦<T as Meaning>⟧.run plan.now face.now) (Words.spelled spelling.now)) }
    ensures length { result ≡ Err ShapeError.Length
        → Words.IsTooLongToPrepare (⟦<T as Meaning>⟧.run plan.now face.now) spelling.now }
    ensures too_long { Words.IsTooLongToPrepare
        (⟦<T as Meaning>⟧.run plan.now face.now) spelling.now
        → IsErr result }
    ensures bytes { 2 ^ 32 ≤ length spelling.now → result ≡ Err ShapeError.Length }
{
    let mut text = spelled(alloc, spelling)?;
    text.guess_segment_properties::<T::Unicode>();
    let mut buffer = text.into_inner();
    let target_direction = buffer.direction();
    let mut ctx = hb_ot_shape_context_t {
        plan,
        face,
        buffer: &mut buffer,
        target_direction,
    };
    prepare_text::<T::Unicode, T::Face, T::Engine, T::Shaper>(alloc, &mut ctx)?;
    Ok(buffer)
}

/// Whether two spellings have the same normalised characters. Under the premises of canonical form,
/// in the modes that decompose fully, this says whether they are canonically equivalent. Refuses
/// with `Length` if one of them has 4 GiB or more, or preparing or normalising it would leave a
/// list past the run's limit (in normalising the expanded list counts), and with `Memory` if a
/// growth was refused. If one is too long the two are always refused; with `Length` if the first
/// has 4 GiB or more.
pub fn same_word<U, F, M, S>(
    alloc: Global,
    face: &F,
    plan: &hb_ot_shape_plan_t<'_, S, M::Map, S::Data>,
    first: &str,
    second: &str,
) -> Result<bool, ShapeError>
where
    U: hb_unicode_funcs_t,
    F: hb_font_t,
    M: hb_ot_layout_t<F>,
    S: hb_ot_shaper_t<U, F, M>,
    ensures alike { let run = ⟦<S as Runs<U, F, M>>⟧.run plan.now face.now in
        IfOk result (λ same. IsTrue same ↔ Words.AreSpelledAlike run first.now second.now) }
    ensures equivalent { let run = ⟦<S as Runs<U, F, M>>⟧.run plan.now face.now in
        let a = prepared_text run (Words.spelled first.now) in
        let b = prepared_text run (Words.spelled second.now) in
        IfOk result (λ same. CanonicalFormPremises run.rules a → CanonicalFormPremises run.rules b
        → IsTrue same ↔ AreEquivalent run.rules (text_of a) (text_of b)) }
    ensures length { let run = ⟦<S as Runs<U, F, M>>⟧.run plan.now face.now in
        result ≡ Err ShapeError.Length
        → Words.IsTooLong run first.now ⊎ Words.IsTooLong run second.now }
    ensures too_long { let run = ⟦<S as Runs<U, F, M>>⟧.run plan.now face.now in
        Words.IsTooLong run first.now ⊎ Words.IsTooLong run second.now → IsErr result }
    ensures bytes { 2 ^ 32 ≤ length first.now → result ≡ Err ShapeError.Length }
{
    let mut a = prepared::<TypesOf<U, F, M, S>>(alloc, face, plan, first)?;
    let mut b = prepared::<TypesOf<U, F, M, S>>(alloc, face, plan, second)?;
    let same = normalized_equal::<U, F, M, S>(alloc, plan, face, &mut a, &mut b)?;
    Ok(same)
}

/// Whether two spellings are canonically equivalent. Returns `None` if this can't be decided by
/// their normalised characters: for one of them a premise of canonical form doesn't hold, as for a
/// text with a variation selector, with a character that the face has no glyph for, with too many
/// marks in a row, or, in a mode that composes, without a mark past its first character (so most
/// words without accents). Refuses as `same_word` does, but spellings that are too long to
/// normalise only if this can be decided.
pub fn equivalent_spellings<U, F, M, S>(
    alloc: Global,
    face: &F,
    plan: &hb_ot_shape_plan_t<'_, S, M::Map, S::Data>,
    first: &str,
    second: &str,
) -> Result<Option<bool>, ShapeError>
where
    U: hb_unicode_funcs_t,
    F: hb_font_t,
    M: hb_ot_layout_t<F>,
    S: hb_ot_shaper_t<U, F, M>,
    ensures decided { let run = ⟦<S as Runs<U, F, M>>⟧.run plan.now face.now in
        let a = prepared_text run (Words.spelled first.now) in
        let b = prepared_text run (Words.spelled second.now) in
        HasLawfulHooks run.rules → IfOk result (λ decided. IsSome decided
        ↔ (CanonicalFormPremises run.rules a × CanonicalFormPremises run.rules b)) }
    ensures equivalent { let run = ⟦<S as Runs<U, F, M>>⟧.run plan.now face.now in
        let a = text_of (prepared_text run (Words.spelled first.now)) in
        let b = text_of (prepared_text run (Words.spelled second.now)) in
        HasLawfulHooks run.rules → IfOk result (λ decided.
        IfSome decided (λ same. IsTrue same ↔ AreEquivalent run.rules a b)) }
    ensures length { let run = ⟦<S as Runs<U, F, M>>⟧.run plan.now face.now in
        result ≡ Err ShapeError.Length
        → Words.IsTooLong run first.now ⊎ Words.IsTooLong run second.now }
    ensures too_long { let run = ⟦<S as Runs<U, F, M>>⟧.run plan.now face.now in
        Words.IsTooLongToPrepare run first.now ⊎ Words.IsTooLongToPrepare run second.now
        → IsErr result }
    ensures counted { let run = ⟦<S as Runs<U, F, M>>⟧.run plan.now face.now in
        IfOk result (λ decided. IsSome decided
        → Words.IsTooLong run first.now ⊎ Words.IsTooLong run second.now → ⊥) }
    ensures bytes { 2 ^ 32 ≤ length first.now → result ≡ Err ShapeError.Length }
{
    let mut a = prepared::<TypesOf<U, F, M, S>>(alloc, face, plan, first)?;
    let mut b = prepared::<TypesOf<U, F, M, S>>(alloc, face, plan, second)?;
    let of_first = meets_canonical_premises::<U, F, M, S>(plan, face, &a);
    let of_second = meets_canonical_premises::<U, F, M, S>(plan, face, &b);
    if !(of_first && of_second) {
        return Ok(None);
    }
    let same = normalized_equal::<U, F, M, S>(alloc, plan, face, &mut a, &mut b)?;
    Ok(Some(same))
}
