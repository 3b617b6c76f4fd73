//! *Lawful hooks*: what canonical form asks of a shaper's splits and of what it composes.
//!
//! The shaper splits as Unicode does, composes nothing that Unicode doesn't, and reorders no marks
//! before texts are normalised, so its hooks are lawful over any Unicode functions. Runs still
//! don't preserve equivalence for every text, since before normalising a dotted circle goes between
//! vowels that look like another one, and that circle counts as a mark.
ghost use Rattle.std.specs.Prelude.{◌≡◌, None};
ghost use Rattle.shape_normalize.specs.CanonicalForm.{HasLawfulHooks};

use crate::shaper::UniversalShaper;
use shape_buffer::interfaces::{hb_font_t, hb_ot_layout_t, hb_unicode_funcs_t};
use shape_pipeline::laws::hooks_not_given_are_lawful;
use shape_pipeline::ot_shape_plan::hb_ot_shape_plan_t;
use shape_pipeline::ot_shaper::Runs;

/// The hooks are lawful, and reorder no marks.
pub fn universal_hooks_are_lawful<U: hb_unicode_funcs_t, F: hb_font_t, M: hb_ot_layout_t<F>>(
    plan: &hb_ot_shape_plan_t<'_, UniversalShaper, M::Map, ()>,
    face: &F,
)
    ensures lawful { HasLawfulHooks (⟦<UniversalShaper as Runs<U, F, M>>⟧.rules plan.now face.now) }
    ensures no_reordering { (⟦<UniversalShaper as Runs<U, F, M>>⟧.rules plan.now face.now).reorder ≡ None }
{
    hooks_not_given_are_lawful::<U, F, M, UniversalShaper>(plan, face);
}
