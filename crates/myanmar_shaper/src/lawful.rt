//! *Lawful hooks*: what canonical form asks of a shaper's splits and of what it composes. The
//! shapers here give no hook that splits, composes or reorders marks, so theirs are lawful over
//! any Unicode functions.
ghost use Rattle.std.specs.Prelude.{◌≡◌, None};
ghost use Rattle.shape_normalize.specs.CanonicalForm.{HasLawfulHooks};

use crate::shaper::MyanmarShaper;
use crate::zawgyi::ZawgyiShaper;
use shape_buffer::interfaces::{hb_font_t, hb_ot_layout_t, hb_unicode_funcs_t};
use shape_pipeline::laws::hooks_not_given_are_lawful;
use shape_pipeline::ot_shape_plan::hb_ot_shape_plan_t;
use shape_pipeline::ot_shaper::Runs;

/// Myanmar splits and composes as Unicode does, and reorders no marks before texts are normalised.
/// Its syllables are reordered later, when lookups run.
pub fn myanmar_hooks_are_lawful<U: hb_unicode_funcs_t, F: hb_font_t, M: hb_ot_layout_t<F>>(
    plan: &hb_ot_shape_plan_t<'_, MyanmarShaper, M::Map, ()>,
    face: &F,
)
    ensures lawful { HasLawfulHooks (⟦<MyanmarShaper as Runs<U, F, M>>⟧.rules plan.now face.now) }
    ensures no_reordering { (⟦<MyanmarShaper as Runs<U, F, M>>⟧.rules plan.now face.now).reorder ≡ None }
{
    hooks_not_given_are_lawful::<U, F, M, MyanmarShaper>(plan, face);
}

/// Zawgyi splits and composes as Unicode does, and reorders nothing.
pub fn zawgyi_hooks_are_lawful<U: hb_unicode_funcs_t, F: hb_font_t, M: hb_ot_layout_t<F>>(
    plan: &hb_ot_shape_plan_t<'_, ZawgyiShaper, M::Map, ()>,
    face: &F,
)
    ensures lawful { HasLawfulHooks (⟦<ZawgyiShaper as Runs<U, F, M>>⟧.rules plan.now face.now) }
    ensures no_reordering { (⟦<ZawgyiShaper as Runs<U, F, M>>⟧.rules plan.now face.now).reorder ≡ None }
{
    hooks_not_given_are_lawful::<U, F, M, ZawgyiShaper>(plan, face);
}
