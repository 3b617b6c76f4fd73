//! What a run with a font file must provide: nothing is left of it.
ghost use Rattle.std.specs.Prelude.{◌≡◌, ◌+◌, List, true};
ghost use Rattle.layout_map.specs.Map.{OtMap as Map};
ghost use Rattle.opentype_layout.specs.Engine.{opentype_layout, opentype_lookups};
ghost use Rattle.opentype_layout.specs.Tries.{made_by, tries_by};
ghost use Rattle.opentype_layout.specs.declared.face.OpenTypeFace.{OpenTypeFace as Face};
ghost use Rattle.shaper_choice.specs.Choice.{category_for, preserves_equivalence};
ghost use Rattle.shape_common.specs.declared.text_types.Feature.{Feature as AnyFeature};
ghost use Rattle.shape_items.specs.Buffer.{Buffer};
ghost use Rattle.shape_buffer.specs.Outcome.{run_steps};
ghost use Rattle.shape_common.specs.declared.text_types.Direction.{Direction};
ghost use Rattle.shape_pipeline.specs.Canonical.{RunPreservesEquivalence};
ghost use Rattle.shape_pipeline.specs.Order.{RunOrdersClusters};
ghost use Rattle.shape_pipeline.specs.Premises.{HasNoObligations};
ghost use Rattle.shape_pipeline.specs.Shaped.{all_steps};
ghost use Rattle.shape_plan.specs.Plan.{Plan};
ghost use Rattle.shape_plan.specs.Preservation.{RunPreservesFlags};
ghost use Rattle.shape_plan.specs.Run.{Run};
ghost use Rattle.font_shaping.specs.RunTries.{lookup_calls, place_calls, run_calls};
ghost use Rattle.font_shaping.specs.RunTries.{before_lookups, before_placing};
ghost use Rattle.font_shaping.specs.RunTries.{HooksNeverRaise, TriesNoMore, TriesWithin};
ghost use Rattle.font_shaping.specs.Worked.{WorkedStrings, WorkedTries};
ghost use Rattle.shaper_choice.specs.declared.plans.ScriptPlan.{ScriptPlan as AnyPlan};
ghost use Rattle.shape_plan.specs.declared.ot_shaper.shapers.hb_default_shaper_t.{hb_default_shaper_t as DefaultShaper};

use crate::each_hook::{plans_never_raise, texts_never_raise};
use crate::each_shaper::texts_preserve;
use opentype_layout::laws::opentype_layout_preserves;
use opentype_layout::{OpenTypeFace, OpenTypeLayout, OpenedOpenTypeFace};
use shape_buffer::interfaces::hb_unicode_funcs_t;
use shape_pipeline::laws::runs_without_hooks_have_no_obligations;
use shape_pipeline::ot_shaper::{Runs, hb_default_shaper_t};
use shaper_choice::choice::{ScriptRuns, by_script};
use shaper_choice::plans::ScriptPlans;

/// A run of the default shaper with the tables of a font file has no obligations, whatever the
/// bytes of the file are and whatever the plan: every premise of the promises about a run holds of
/// it.
pub fn opentype_runs_have_no_obligations<'a, U: hb_unicode_funcs_t>()
    ensures { (plan : Plan DefaultShaper Map Unit) (face : Face) → HasNoObligations
        (⟦<hb_default_shaper_t as Runs<U, OpenTypeFace<'a>, OpenTypeLayout>>⟧.run plan face) }
{
    opentype_layout_preserves();
    runs_without_hooks_have_no_obligations::<
        U,
        OpenTypeFace,
        OpenTypeLayout,
        hb_default_shaper_t,
    >();
}

/// A run by the shaper of a text's script with the tables of a font file preserves clusters and
/// flags, whatever the bytes of the file are; by the default shaper, and those of Myanmar and
/// Zawgyi, it preserves equivalence, too. Its Unicode functions are those that it is given.
pub fn script_runs_preserve<'a, U: hb_unicode_funcs_t>()
    ensures unicode { (face : Face) (features : List AnyFeature) (text : Buffer)
        → (⟦<by_script as ScriptRuns<U, OpenTypeFace<'a>, OpenTypeLayout>>⟧.text_run face features text).unicode
        ≡ U.unicode }
    ensures clusters { (face : Face) (features : List AnyFeature) (text : Buffer) → RunOrdersClusters
        (⟦<by_script as ScriptRuns<U, OpenTypeFace<'a>, OpenTypeLayout>>⟧.text_run face features text) }
    ensures flags { (face : Face) (features : List AnyFeature) (text : Buffer) → RunPreservesFlags
        (⟦<by_script as ScriptRuns<U, OpenTypeFace<'a>, OpenTypeLayout>>⟧.text_run face features text) }
    ensures equivalence { (face : Face) (features : List AnyFeature) (text : Buffer)
        → preserves_equivalence (category_for U.unicode (opentype_layout face) text) ≡ true
        → RunPreservesEquivalence
        (⟦<by_script as ScriptRuns<U, OpenTypeFace<'a>, OpenTypeLayout>>⟧.text_run face features text) }
{
    opentype_layout_preserves();
    texts_preserve::<U, OpenTypeFace, OpenTypeLayout>();
}

/// No font makes a run try more than it may: the subtables that the lookups of its stages and of
/// positioning ask, and the rules and ligatures that they compare, are at most what it may ask for
/// as it begins less what is left as it ends. What it begins with depends on the length of the text
/// alone. Asked is that no hook of its shaper raises what is left. The calls that are counted make
/// what the run's steps make, and what they try is what stages and positioning try.
pub fn runs_try_no_more_than_they_may()
    ensures calls { (map : Map) (face : Face) (run : Run) (target : Direction)
        → run.lookups ≡ opentype_lookups map face → (b : Buffer)
        → made_by (run_calls map face run target) b ≡ run_steps (all_steps run target) b }
    ensures lookups { (map : Map) (face : Face) (run : Run) (target : Direction)
        → run.lookups ≡ opentype_lookups map face → (b : Buffer)
        → tries_by (run_calls map face run target) b
        ≡ tries_by (lookup_calls map face run) (before_lookups run target b)
        + tries_by (place_calls map face run) (before_placing run target b) }
    ensures within { (map : Map) (face : Face) (run : Run)
        → run.lookups ≡ opentype_lookups map face → HooksNeverRaise run → TriesWithin map face run }
{}

/// So it is of every run of the default shaper over a font, whatever the bytes of the font are and
/// whatever the plan.
pub fn opentype_runs_try_no_more_than_they_may<'a, U: hb_unicode_funcs_t>()
    ensures { (plan : Plan DefaultShaper Map Unit) (face : Face) → TriesWithin plan.ot_map face
        (⟦<hb_default_shaper_t as Runs<U, OpenTypeFace<'a>, OpenTypeLayout>>⟧.run plan face) }
{
    opentype_runs_have_no_obligations::<U>();
    runs_try_no_more_than_they_may();
}

/// So it is of every run by a kept plan of the shaper of a script over a font, whatever the bytes
/// of the font are and whatever is planned: no hook of these shapers raises what is left.
pub fn kept_plans_try_no_more_than_they_may<'a, U: hb_unicode_funcs_t>()
    ensures unopened { (plan : AnyPlan Map) (face : Face) → TriesNoMore face
        (⟦<by_script as ScriptPlans<U, OpenTypeFace<'a>, OpenTypeLayout>>⟧.run plan face) }
    ensures opened { (plan : AnyPlan Map) (face : Face) → TriesNoMore face
        (⟦<by_script as ScriptPlans<U, OpenedOpenTypeFace<'a>, OpenTypeLayout>>⟧.run
        plan face) }
{
    plans_never_raise::<U, OpenTypeFace, OpenTypeLayout>();
    plans_never_raise::<U, OpenedOpenTypeFace, OpenTypeLayout>();
    runs_try_no_more_than_they_may();
}

/// So it is of every run by the shaper of a text's script.
pub fn script_runs_try_no_more_than_they_may<'a, U: hb_unicode_funcs_t>()
    ensures { (face : Face) (features : List AnyFeature) (text : Buffer) → TriesNoMore face
        (⟦<by_script as ScriptRuns<U, OpenTypeFace<'a>, OpenTypeLayout>>⟧.text_run
        face features text) }
{
    texts_never_raise::<U, OpenTypeFace, OpenTypeLayout>();
    runs_try_no_more_than_they_may();
}

/// What stages and positioning try, in runs of none, one and two stages, and the bound on it.
pub fn tries_meet_worked_cases()
    ensures { (map : Map) (face : Face) (run : Run) (b : Buffer) → WorkedTries map face run b }
{}

/// What clauses say of the text of a string, and of the face of a font's bytes, holds of these.
pub fn strings_meet_worked_cases()
    ensures { WorkedStrings }
{}
