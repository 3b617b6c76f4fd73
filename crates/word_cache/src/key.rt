//! Keys of words.
ghost use Rattle.std.specs.Prelude.{◌≡◌, ◌↔◌, ◌∷◌, Err, IfOk, IsErr};
ghost use Rattle.shape_buffer.specs.Guess.{guessed};
ghost use Rattle.shape_pipeline.specs.Headline.{target_of};
ghost use Rattle.shape_pipeline.specs.Shaped.{NormalisingPasses};
ghost use Rattle.word_cache.specs.Keys.{key_of, KeysDecide};

use shape_buffer::buffer::{ShapeError, UnicodeBuffer};
use shape_buffer::interfaces::{hb_font_t, hb_ot_layout_t, hb_unicode_funcs_t};
use shape_pipeline::normalised_characters;
use shape_pipeline::ot_shape_plan::hb_ot_shape_plan_t;
use shape_pipeline::ot_shaper::{Runs, hb_ot_shaper_t};
use std::alloc::{AllocError, Global};

/// A word's key: the number of its plan, and then its normalised characters.
pub type WordKey = Vec<u32>;

/// The key of a text under a plan of this number: one normalising. Under the premises of canonical
/// form, in a mode that decomposes fully, two texts have one key exactly if they are canonically
/// equivalent. Refuses with `Length` if a step of preparing would leave a list past the run's
/// limit, or the expanded list would be longer, and with `Memory` if a growth was refused.
pub fn word_key<U, F, M, S>(
    alloc: Global,
    face: &F,
    plan: &hb_ot_shape_plan_t<'_, S, M::Map, S::Data>,
    number: u32,
    text: UnicodeBuffer,
) -> Result<WordKey, ShapeError>
where
    U: hb_unicode_funcs_t,
    F: hb_font_t,
    M: hb_ot_layout_t<F>,
    S: hb_ot_shaper_t<U, F, M>,
    ensures key { let run = ⟦<S as Runs<U, F, M>>⟧.run plan.now face.now in
        IfOk result (λ key. key.items ≡ key_of run number text) }
    ensures decides { let run = ⟦<S as Runs<U, F, M>>⟧.run plan.now face.now in
        IfOk result (λ _. KeysDecide run number text) }
    ensures length { let run = ⟦<S as Runs<U, F, M>>⟧.run plan.now face.now in
        result ≡ Err ShapeError.Length
        → NormalisingPasses run (target_of run text) (guessed U.unicode text) }
    ensures past { let run = ⟦<S as Runs<U, F, M>>⟧.run plan.now face.now in
        NormalisingPasses run (target_of run text) (guessed U.unicode text) → IsErr result }
{
    match normalised_characters::<U, F, M, S>(alloc, face, plan, text) {
        Ok(characters) => Ok(numbered(alloc, number, &characters)?),
        Err(fault) => Err(fault.cause),
    }
}

/// A number, and then characters.
fn numbered(alloc: Global, number: u32, characters: &[char]) -> Result<WordKey, AllocError>
    ensures { IfOk result (λ key. key.items ≡ number ∷ characters.now) }
{
    let mut key = Vec::with_capacity(alloc, characters.len() + 1)?;
    key.push(number)?;
    for c in characters {
        key.push(u32::from(*c))?;
    }
    Ok(key)
}
