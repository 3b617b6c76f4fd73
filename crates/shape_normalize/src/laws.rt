//! Laws that spare callers a proof: each function has laws as its contract, and nothing to do.
ghost use Rattle.std.specs.Prelude.{◌≡◌, ℕ, false, None};
ghost use Rattle.shape_items.specs.Buffer.{Buffer};
ghost use Rattle.shape_normalize.specs.CanonicalForm.{HasLawfulHooks};
ghost use Rattle.shape_normalize.specs.Reordered.{ReordersRun};
ghost use Rattle.shape_plan.specs.Reorder.{IsRunInOrder};

use shape_buffer::interfaces::{hb_font_t, hb_ot_layout_t, hb_unicode_funcs_t};
use shape_plan::ot_shape_plan::hb_ot_shape_plan_t;
use shape_plan::ot_shaper::{Runs, hb_ot_shaper_t};

/// What canonical form asks of a shaper's hooks holds of one that gives none: it decomposes and
/// composes as Unicode does, which is lawful, and reorders nothing.
pub fn hooks_not_given_are_lawful<U, F, M, S>(
    plan: &hb_ot_shape_plan_t<'_, S, M::Map, S::Data>,
    face: &F,
)
where
    U: hb_unicode_funcs_t,
    F: hb_font_t,
    M: hb_ot_layout_t<F>,
    S: hb_ot_shaper_t<U, F, M>,
    ensures lawful { S.constants.has_decompose ≡ false → S.constants.has_compose ≡ false
        → HasLawfulHooks (⟦<S as Runs<U, F, M>>⟧.rules plan.now face.now) }
    ensures no_reordering { S.constants.has_reorder_marks ≡ false
        → (⟦<S as Runs<U, F, M>>⟧.rules plan.now face.now).reorder ≡ None }
{}

/// What `reorder_marks` of any shaper does to a run that it is handed, given or not: it permutes
/// the run and touches nothing else but clusters, ccc, which stay nonzero, and flags.
pub fn reordering_permutes_the_run<U, F, M, S>(
    shaper: &S,
    plan: &hb_ot_shape_plan_t<'_, S, M::Map, S::Data>,
    face: &F,
)
where
    U: hb_unicode_funcs_t,
    F: hb_font_t,
    M: hb_ot_layout_t<F>,
    S: hb_ot_shaper_t<U, F, M>,
    ensures { (b : Buffer) (start end : ℕ) → IsRunInOrder b.items start end
        → ReordersRun start end b ((S.hooks shaper.now plan.now face.now).reorder b start end) }
{}
