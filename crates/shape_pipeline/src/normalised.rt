//! The normalised characters of a text by themselves, by which shaped texts are found again.
ghost use Rattle.std.specs.Prelude.{◌≡◌, [], map, IsOk, IsErr, IfOk, IfErr, Err};
ghost use Rattle.shape_items.specs.Buffer.{cleared};
ghost use Rattle.shape_buffer.specs.Guess.{guessed};
ghost use Rattle.shape_items.specs.Items.{char_of};
ghost use Rattle.shape_normalize.specs.CanonicalForm.{text_of};
ghost use Rattle.shape_normalize.specs.Normalized.{normalized};
ghost use Rattle.shape_pipeline.specs.Canonical;
ghost use Rattle.shape_pipeline.specs.Headline.{target_of};
ghost use Rattle.shape_pipeline.specs.Shaped.{text_made, NormalisingPasses};

use crate::ot_shape::kept::KeptSettings;
use crate::ot_shape::prepare_whole;
use shape_buffer::buffer::{
    Direction, ShapeError, ShapeFault, UnicodeBuffer, hb_buffer_t, hb_glyph_info_t,
};
use shape_buffer::interfaces::{hb_font_t, hb_ot_layout_t, hb_unicode_funcs_t};
use shape_normalize::ot_shape_normalize::_hb_ot_shape_normalize;
use shape_plan::ot_shape_plan::hb_ot_shape_plan_t;
use shape_plan::ot_shaper::{Runs, hb_ot_shaper_t};
use shape_plan::shaping_types::{Meaning, PlanOf, ShapingTypes, TypesOf};
use std::alloc::Global;

/// The characters that a run by this plan normalises a text to: a key under which a cache keeps
/// shaped texts, for one plan and whatever else is set of them. Script and direction are guessed if
/// they aren't set. If the premises of `canonical` hold, two texts have one key exactly when they
/// are canonically equivalent. Otherwise equal keys don't say that: clusters, positions and
/// properties are no part of them.
///
/// Refuses with `Length` if a step of preparing would leave a list past the run's limit, or the
/// expanded list would be longer, and with `Memory` if a growth was refused; the fault holds the
/// cleared buffer. An empty text has no characters, and takes no memory.
pub fn normalised_characters<U, F, M, S>(
    alloc: Global,
    face: &F,
    plan: &hb_ot_shape_plan_t<'_, S, M::Map, S::Data>,
    mut buffer: UnicodeBuffer,
) -> Result<Vec<char>, ShapeFault>
where
    U: hb_unicode_funcs_t,
    F: hb_font_t,
    M: hb_ot_layout_t<F>,
    S: hb_ot_shaper_t<U, F, M>,
    ensures characters { let run = ⟦<S as Runs<U, F, M>>⟧.run plan.now face.now in
        IfOk result (λ characters. characters.items ≡ Canonical.normalised_characters run buffer) }
    ensures canonical { let run = ⟦<S as Runs<U, F, M>>⟧.run plan.now face.now in
        IfOk result (λ _. Canonical.ListIsCanonical run buffer) }
    ensures length { let run = ⟦<S as Runs<U, F, M>>⟧.run plan.now face.now in
        IfErr result (λ fault. fault.cause ≡ ShapeError.Length
        → NormalisingPasses run (target_of run buffer) (guessed U.unicode buffer)) }
    ensures past { let run = ⟦<S as Runs<U, F, M>>⟧.run plan.now face.now in
        NormalisingPasses run (target_of run buffer) (guessed U.unicode buffer) → IsErr result }
    ensures cleared { IfErr result (λ fault. fault.buffer ≡ cleared buffer) }
    ensures empty { buffer.items ≡ [] → IsOk result }
{
    buffer.guess_segment_properties::<U>();
    let mut inner = buffer.into_inner();
    let kept = KeptSettings::of(&inner);
    let direction = inner.direction();
    match characters_in::<TypesOf<U, F, M, S>>(alloc, plan, face, &mut inner, direction) {
        Ok(characters) => Ok(characters),
        Err(cause) => {
            kept.clear(&mut inner);
            Err(ShapeFault {
                cause,
                buffer: inner.clear(),
            })
        }
    }
}

/// Prepares and normalises a buffer, and reads its characters.
fn characters_in<T: ShapingTypes>(
    alloc: Global,
    plan: &PlanOf<'_, T>,
    face: &T::Face,
    buffer: &mut hb_buffer_t,
    target: Direction,
) -> Result<Vec<char>, ShapeError>
    ensures characters { let run = ⟦<T as Meaning>⟧.run plan.now face.now in
        IfOk result (λ characters. characters.items
        ≡ text_of (normalized run.rules (text_made run target buffer.old))) }
    ensures length { let run = ⟦<T as Meaning>⟧.run plan.now face.now in
        result ≡ Err ShapeError.Length → NormalisingPasses run target buffer.old }
    ensures past { let run = ⟦<T as Meaning>⟧.run plan.now face.now in
        NormalisingPasses run target buffer.old → IsErr result }
    ensures empty { buffer.old.items ≡ [] → IsOk result }
{
    prepare_whole::<T>(alloc, plan, face, buffer, target)?;
    _hb_ot_shape_normalize::<T::Unicode, T::Face, T::Engine, T::Shaper>(alloc, plan, buffer, face)?;
    characters_of(alloc, buffer.infos())
}

/// The characters of items.
fn characters_of(alloc: Global, infos: &[hb_glyph_info_t]) -> Result<Vec<char>, ShapeError>
    ensures characters { IfOk result (λ characters. characters.items ≡ map char_of infos.now) }
    ensures memory { IfErr result (λ cause. cause ≡ ShapeError.Memory) }
    ensures empty { infos.now ≡ [] → IsOk result }
{
    let mut characters = Vec::new(alloc);
    for info in infos {
        characters.push(info.codepoint)?;
    }
    Ok(characters)
}
