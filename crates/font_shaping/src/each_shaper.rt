//! What the runs of each shaper preserve where the lookups of an engine do, with any engine and any
//! face.
ghost use Rattle.std.specs.Prelude.{◌≡◌, List, true};
ghost use Rattle.shape_common.specs.declared.text_types.Feature.{Feature as AnyFeature};
ghost use Rattle.shape_items.specs.Buffer.{Buffer};
ghost use Rattle.shape_pipeline.specs.Canonical.{RunPreservesEquivalence};
ghost use Rattle.shape_pipeline.specs.Order.{RunOrdersClusters};
ghost use Rattle.shape_plan.specs.Plan.{Plan};
ghost use Rattle.shape_plan.specs.Preservation.{RunPreservesFlags};
ghost use Rattle.shaper_choice.specs.Choice.{category_for, preserves_equivalence};
ghost use Rattle.font_shaping.specs.EachShaper.{EnginePreserves};
ghost use Rattle.shaper_choice.specs.declared.plans.ScriptPlan.{ScriptPlan as AnyPlan};

use indic_shaper::shaper::{IndicShaper, indic_runs_preserve};
use khmer_shaper::shaper::{KhmerShaper, khmer_runs_preserve};
use myanmar_shaper::shaper::{MyanmarShaper, myanmar_runs_preserve};
use myanmar_shaper::zawgyi::{ZawgyiShaper, zawgyi_runs_preserve};
use script_shapers::arabic::{ArabicShaper, arabic_runs_preserve};
use script_shapers::hangul::{HangulShaper, hangul_runs_preserve};
use script_shapers::hebrew::{HebrewShaper, hebrew_runs_preserve};
use script_shapers::thai::{ThaiShaper, thai_runs_preserve};
use shape_buffer::interfaces::{hb_font_t, hb_ot_layout_t, hb_unicode_funcs_t};
use shape_pipeline::laws::runs_without_hooks_have_no_obligations;
use shape_pipeline::ot_shaper::{Runs, hb_default_shaper_t, hb_ot_shaper_t};
use shape_pipeline::shaping::TextRuns;
use shaper_choice::choice::{ScriptRuns, by_script};
use shaper_choice::plans::ScriptPlans;
use universal_shaper::shaper::{UniversalShaper, universal_runs_preserve};

/// Where the lookups of an engine preserve clusters and flags, runs by kept plans of the shaper of
/// each script do. Their Unicode functions are those that they are given.
pub(crate) fn plans_preserve<U: hb_unicode_funcs_t, F: hb_font_t, M: hb_ot_layout_t<F>>()
    ensures unicode { (plan : AnyPlan M.Map) (face : F)
        → (⟦<by_script as ScriptPlans<U, F, M>>⟧.run plan face).unicode ≡ U.unicode }
    ensures clusters { EnginePreserves M.lookups → (plan : AnyPlan M.Map) (face : F)
        → RunOrdersClusters (⟦<by_script as ScriptPlans<U, F, M>>⟧.run plan face) }
    ensures flags { EnginePreserves M.lookups → (plan : AnyPlan M.Map) (face : F)
        → RunPreservesFlags (⟦<by_script as ScriptPlans<U, F, M>>⟧.run plan face) }
{
    runs_without_hooks_have_no_obligations::<U, F, M, hb_default_shaper_t>();
    arabic_runs_preserve::<U, F, M>();
    hangul_runs_preserve::<U, F, M>();
    hebrew_runs_preserve::<U, F, M>();
    thai_runs_preserve::<U, F, M>();
    universal_runs_preserve::<U, F, M>();
    khmer_runs_preserve::<U, F, M>();
    myanmar_runs_preserve::<U, F, M>();
    zawgyi_runs_preserve::<U, F, M>();
    indic_runs_preserve::<U, F, M>();
}

/// What is preserved by every run of a shaper is preserved by the run that it makes of a text.
fn text_runs_preserve<U, F, M, S>()
where
    U: hb_unicode_funcs_t,
    F: hb_font_t,
    M: hb_ot_layout_t<F>,
    S: hb_ot_shaper_t<U, F, M>,
    ensures clusters { ((plan : Plan S M.Map S.Data) (face : F)
        → RunOrdersClusters (⟦<S as Runs<U, F, M>>⟧.run plan face))
        → (face : F) (shaper : S) (features : List AnyFeature) (text : Buffer)
        → RunOrdersClusters (⟦<S as TextRuns<U, F, M>>⟧.text_run face shaper features text) }
    ensures flags { ((plan : Plan S M.Map S.Data) (face : F)
        → RunPreservesFlags (⟦<S as Runs<U, F, M>>⟧.run plan face))
        → (face : F) (shaper : S) (features : List AnyFeature) (text : Buffer)
        → RunPreservesFlags (⟦<S as TextRuns<U, F, M>>⟧.text_run face shaper features text) }
    ensures equivalence { ((plan : Plan S M.Map S.Data) (face : F)
        → RunPreservesEquivalence (⟦<S as Runs<U, F, M>>⟧.run plan face))
        → (face : F) (shaper : S) (features : List AnyFeature) (text : Buffer)
        → RunPreservesEquivalence (⟦<S as TextRuns<U, F, M>>⟧.text_run face shaper features text) }
{}

/// The same of the run that is made of a text. By the default shaper, and those of Myanmar and
/// Zawgyi, it preserves equivalence, too.
pub(crate) fn texts_preserve<U: hb_unicode_funcs_t, F: hb_font_t, M: hb_ot_layout_t<F>>()
    ensures unicode { (face : F) (features : List AnyFeature) (text : Buffer)
        → (⟦<by_script as ScriptRuns<U, F, M>>⟧.text_run face features text).unicode ≡ U.unicode }
    ensures clusters { EnginePreserves M.lookups → (face : F) (features : List AnyFeature) (text : Buffer)
        → RunOrdersClusters (⟦<by_script as ScriptRuns<U, F, M>>⟧.text_run face features text) }
    ensures flags { EnginePreserves M.lookups → (face : F) (features : List AnyFeature) (text : Buffer)
        → RunPreservesFlags (⟦<by_script as ScriptRuns<U, F, M>>⟧.text_run face features text) }
    ensures equivalence { EnginePreserves M.lookups → (face : F) (features : List AnyFeature) (text : Buffer)
        → preserves_equivalence (category_for U.unicode (M.layout face) text) ≡ true
        → RunPreservesEquivalence (⟦<by_script as ScriptRuns<U, F, M>>⟧.text_run face features text) }
{
    plans_preserve::<U, F, M>();
    runs_without_hooks_have_no_obligations::<U, F, M, hb_default_shaper_t>();
    myanmar_runs_preserve::<U, F, M>();
    zawgyi_runs_preserve::<U, F, M>();
    text_runs_preserve::<U, F, M, hb_default_shaper_t>();
    text_runs_preserve::<U, F, M, ArabicShaper>();
    text_runs_preserve::<U, F, M, HangulShaper>();
    text_runs_preserve::<U, F, M, HebrewShaper>();
    text_runs_preserve::<U, F, M, ThaiShaper>();
    text_runs_preserve::<U, F, M, UniversalShaper>();
    text_runs_preserve::<U, F, M, KhmerShaper>();
    text_runs_preserve::<U, F, M, MyanmarShaper>();
    text_runs_preserve::<U, F, M, ZawgyiShaper>();
    text_runs_preserve::<U, F, M, IndicShaper>();
}
