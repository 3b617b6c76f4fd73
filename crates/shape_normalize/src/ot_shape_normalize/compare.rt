//! Comparing two texts by their normalised lists.
ghost use Rattle.std.specs.Prelude.{◌≡◌, ◌↔◌, ◌⊎◌, ◌==◌, IsTrue, IfOk, OnOk, OnErr, Err, map};
ghost use Rattle.std.specs.List.{list_all, zip};
ghost use Rattle.shape_items.specs.Buffer.{cleared};
ghost use Rattle.shape_items.specs.Items.{char_of};
ghost use Rattle.shape_normalize.specs.NormalForm;
ghost use Rattle.shape_normalize.specs.RoundOne.{ExpandsPastLimit};

use crate::ot_shape_normalize::_hb_ot_shape_normalize;
use shape_buffer::buffer::{ShapeError, hb_buffer_t, hb_glyph_info_t};
use shape_buffer::interfaces::{hb_font_t, hb_ot_layout_t, hb_unicode_funcs_t};
use shape_plan::ot_shape_plan::hb_ot_shape_plan_t;
use shape_plan::ot_shaper::{Runs, hb_ot_shaper_t};
use shape_plan::shaping_types::{Meaning, PlanOf, ShapingTypes, TypesOf};
use std::alloc::Global;

/// Normalises two buffers and says whether they have the same characters then.
///
/// In the two modes that decompose fully, this tells whether two prepared texts are canonically
/// equivalent (UAX 15): if the shaper's hooks are lawful and don't reorder, there is no variation
/// selector, the face has a glyph for each character of the full decompositions, no run of marks in
/// these is longer than 32, and each text has a mark past its first character. In the mode that
/// doesn't compose, a text without such a mark will do if no mark of its full decomposition has a
/// lower ccc than the mark before it: so U+00E9 and U+0065 U+0301 are equal there.
///
/// Refuses as [`_hb_ot_shape_normalize`] does for one of the buffers; both are cleared then.
pub fn normalized_equal<U, F, M, S>(
    alloc: Global,
    plan: &hb_ot_shape_plan_t<'_, S, M::Map, S::Data>,
    face: &F,
    a: &mut hb_buffer_t,
    b: &mut hb_buffer_t,
) -> Result<bool, ShapeError>
where
    U: hb_unicode_funcs_t,
    F: hb_font_t,
    M: hb_ot_layout_t<F>,
    S: hb_ot_shaper_t<U, F, M>,
    ensures ok { IfOk result (λ same. NormalForm.AreCompared
        (⟦<S as Runs<U, F, M>>⟧.rules plan.now face.now) a.old b.old a.new b.new same) }
    ensures length { let rules = ⟦<S as Runs<U, F, M>>⟧.rules plan.now face.now in
        result ≡ Err ShapeError.Length
        → ExpandsPastLimit rules a.old ⊎ ExpandsPastLimit rules b.old }
    ensures settings_first { cleared a.new ≡ cleared a.old }
    ensures settings_second { cleared b.new ≡ cleared b.old }
    ensures cleared_first { OnErr result (a.new ≡ cleared a.old) }
    ensures cleared_second { OnErr result (b.new ≡ cleared b.old) }
{
    let outcome = normalize_both::<TypesOf<U, F, M, S>>(alloc, plan, face, a, b);
    if outcome.is_err() {
        a.reset();
        b.reset();
    }
    outcome?;
    Ok(have_same_characters(a.infos(), b.infos()))
}

/// Normalises the first buffer, then the second.
fn normalize_both<T: ShapingTypes>(
    alloc: Global,
    plan: &PlanOf<'_, T>,
    face: &T::Face,
    a: &mut hb_buffer_t,
    b: &mut hb_buffer_t,
) -> Result<(), ShapeError>
    ensures first { OnOk result (NormalForm.Normalizes
        (⟦<T as Meaning>⟧.rules plan.now face.now) a.old a.new) }
    ensures second { OnOk result (NormalForm.Normalizes
        (⟦<T as Meaning>⟧.rules plan.now face.now) b.old b.new) }
    ensures length { let rules = ⟦<T as Meaning>⟧.rules plan.now face.now in
        result ≡ Err ShapeError.Length
        → ExpandsPastLimit rules a.old ⊎ ExpandsPastLimit rules b.old }
    ensures settings_first { cleared a.new ≡ cleared a.old }
    ensures settings_second { cleared b.new ≡ cleared b.old }
{
    _hb_ot_shape_normalize::<T::Unicode, T::Face, T::Engine, T::Shaper>(alloc, plan, a, face)?;
    _hb_ot_shape_normalize::<T::Unicode, T::Face, T::Engine, T::Shaper>(alloc, plan, b, face)
}

/// Whether two lists have the same characters.
fn have_same_characters(a: &[hb_glyph_info_t], b: &[hb_glyph_info_t]) -> bool
    ensures { IsTrue result ↔ (map char_of a.now ≡ map char_of b.now) }
{
    a.len() == b.len() && begin_alike(a, b)
}

/// Whether two lists have the same characters as far as both go.
fn begin_alike(a: &[hb_glyph_info_t], b: &[hb_glyph_info_t]) -> bool
    ensures { result ≡ list_all (λ pair. pair.0.codepoint == pair.1.codepoint) (zip a.now b.now) }
{
    a.iter()
        .zip(b.iter())
        .all(|(x, y)| x.codepoint == y.codepoint)
}
