//! *Lawful hooks*, shaper by shaper: what canonical form asks of a shaper's splits and of what it
//! composes.
//!
//! Arabic, Hangul and Thai neither split nor compose by hooks of their own, so their hooks are
//! lawful over any Unicode functions. Hebrew composes: its hooks are lawful where its table is
//! sound.
ghost use Rattle.std.specs.Prelude.{◌≡◌, None};
ghost use Rattle.shape_normalize.specs.CanonicalForm.{HasLawfulHooks};
ghost use Rattle.script_shapers.specs.HebrewForms.{FormsAreSound};

use crate::arabic::ArabicShaper;
use crate::hangul::HangulShaper;
use crate::hebrew::HebrewShaper;
use crate::thai::ThaiShaper;
use shape_buffer::interfaces::{hb_font_t, hb_ot_layout_t, hb_unicode_funcs_t};
use shape_pipeline::laws::hooks_not_given_are_lawful;
use shape_pipeline::ot_shape_plan::hb_ot_shape_plan_t;
use shape_pipeline::ot_shaper::Runs;

/// Arabic splits and composes as Unicode does. Its marks are reordered, so canonical form isn't
/// promised.
pub fn arabic_hooks_are_lawful<U: hb_unicode_funcs_t, F: hb_font_t, M: hb_ot_layout_t<F>>(
    plan: &hb_ot_shape_plan_t<'_, ArabicShaper, M::Map, ()>,
    face: &F,
)
    ensures { HasLawfulHooks (⟦<ArabicShaper as Runs<U, F, M>>⟧.rules plan.now face.now) }
{
    hooks_not_given_are_lawful::<U, F, M, ArabicShaper>(plan, face);
}

/// Hangul splits and composes as Unicode does, and reorders nothing. It composes syllables before
/// texts are normalised, by the glyphs of the face.
pub fn hangul_hooks_are_lawful<U: hb_unicode_funcs_t, F: hb_font_t, M: hb_ot_layout_t<F>>(
    plan: &hb_ot_shape_plan_t<'_, HangulShaper, M::Map, ()>,
    face: &F,
)
    ensures lawful { HasLawfulHooks (⟦<HangulShaper as Runs<U, F, M>>⟧.rules plan.now face.now) }
    ensures no_reordering { (⟦<HangulShaper as Runs<U, F, M>>⟧.rules plan.now face.now).reorder ≡ None }
{
    hooks_not_given_are_lawful::<U, F, M, HangulShaper>(plan, face);
}

/// Thai and Lao split and compose as Unicode does, and reorder nothing. SARA AM is taken apart
/// before texts are normalised.
pub fn thai_hooks_are_lawful<U: hb_unicode_funcs_t, F: hb_font_t, M: hb_ot_layout_t<F>>(
    plan: &hb_ot_shape_plan_t<'_, ThaiShaper, M::Map, ()>,
    face: &F,
)
    ensures lawful { HasLawfulHooks (⟦<ThaiShaper as Runs<U, F, M>>⟧.rules plan.now face.now) }
    ensures no_reordering { (⟦<ThaiShaper as Runs<U, F, M>>⟧.rules plan.now face.now).reorder ≡ None }
{
    hooks_not_given_are_lawful::<U, F, M, ThaiShaper>(plan, face);
}

/// Hebrew splits as Unicode does, and composes what Unicode does and its table: lawful if each
/// character of the table is equivalent to its letter and its point, by these Unicode functions.
/// Else it isn't: over functions that don't split U+FB2A, the text U+05E9 U+05C1 becomes U+FB2A,
/// which is another text then. Its points are reordered, so canonical form isn't promised.
pub fn hebrew_hooks_are_lawful<U: hb_unicode_funcs_t, F: hb_font_t, M: hb_ot_layout_t<F>>(
    plan: &hb_ot_shape_plan_t<'_, HebrewShaper, M::Map, ()>,
    face: &F,
)
    ensures { FormsAreSound U.unicode
        → HasLawfulHooks (⟦<HebrewShaper as Runs<U, F, M>>⟧.rules plan.now face.now) }
{}
