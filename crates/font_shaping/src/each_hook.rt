//! No hook of these shapers raises what lookups may ask for, with any engine and any face. Forms of
//! Arabic that are made without lookups pay for what they look at; all other hooks leave it as it
//! is.
ghost use Rattle.std.specs.Prelude.{List};
ghost use Rattle.shape_common.specs.declared.text_types.Feature.{Feature as AnyFeature};
ghost use Rattle.shape_items.specs.Buffer.{Buffer};
ghost use Rattle.shape_plan.specs.Plan.{Plan};
ghost use Rattle.font_shaping.specs.RunTries.{NoHookRaises, HooksNeverRaise};
ghost use Rattle.font_shaping.specs.RunTries.{RunsNeverRaise, NeverRaisesBy};
ghost use Rattle.shaper_choice.specs.declared.plans.ScriptPlan.{ScriptPlan as AnyPlan};

use indic_shaper::shaper::IndicShaper;
use khmer_shaper::shaper::KhmerShaper;
use myanmar_shaper::shaper::MyanmarShaper;
use myanmar_shaper::zawgyi::ZawgyiShaper;
use script_shapers::arabic::ArabicShaper;
use script_shapers::hangul::HangulShaper;
use script_shapers::hebrew::HebrewShaper;
use script_shapers::thai::ThaiShaper;
use shape_buffer::interfaces::{hb_font_t, hb_ot_layout_t, hb_unicode_funcs_t};
use shape_pipeline::ot_shaper::{Runs, hb_default_shaper_t, hb_ot_shaper_t};
use shape_pipeline::shaping::TextRuns;
use shaper_choice::choice::{ScriptRuns, by_script};
use shaper_choice::plans::ScriptPlans;
use universal_shaper::shaper::UniversalShaper;

/// Where no hook of a shaper raises what lookups may ask for, no hook of its runs does.
fn given_hooks_never_raise<U, F, M, S>()
where
    U: hb_unicode_funcs_t,
    F: hb_font_t,
    M: hb_ot_layout_t<F>,
    S: hb_ot_shaper_t<U, F, M>,
    ensures { (plan : Plan S M.Map S.Data) (face : F)
        → ((shaper : S) → NoHookRaises (S.hooks shaper plan face))
        → HooksNeverRaise (⟦<S as Runs<U, F, M>>⟧.run plan face) }
{}

fn default_runs_never_raise<U: hb_unicode_funcs_t, F: hb_font_t, M: hb_ot_layout_t<F>>()
    ensures { RunsNeverRaise ⟦<hb_default_shaper_t as Runs<U, F, M>>⟧.run }
{
    given_hooks_never_raise::<U, F, M, hb_default_shaper_t>();
}

fn arabic_runs_never_raise<U: hb_unicode_funcs_t, F: hb_font_t, M: hb_ot_layout_t<F>>()
    ensures { RunsNeverRaise ⟦<ArabicShaper as Runs<U, F, M>>⟧.run }
{
    given_hooks_never_raise::<U, F, M, ArabicShaper>();
}

fn hangul_runs_never_raise<U: hb_unicode_funcs_t, F: hb_font_t, M: hb_ot_layout_t<F>>()
    ensures { RunsNeverRaise ⟦<HangulShaper as Runs<U, F, M>>⟧.run }
{
    given_hooks_never_raise::<U, F, M, HangulShaper>();
}

fn hebrew_runs_never_raise<U: hb_unicode_funcs_t, F: hb_font_t, M: hb_ot_layout_t<F>>()
    ensures { RunsNeverRaise ⟦<HebrewShaper as Runs<U, F, M>>⟧.run }
{
    given_hooks_never_raise::<U, F, M, HebrewShaper>();
}

fn thai_runs_never_raise<U: hb_unicode_funcs_t, F: hb_font_t, M: hb_ot_layout_t<F>>()
    ensures { RunsNeverRaise ⟦<ThaiShaper as Runs<U, F, M>>⟧.run }
{
    given_hooks_never_raise::<U, F, M, ThaiShaper>();
}

fn universal_runs_never_raise<U: hb_unicode_funcs_t, F: hb_font_t, M: hb_ot_layout_t<F>>()
    ensures { RunsNeverRaise ⟦<UniversalShaper as Runs<U, F, M>>⟧.run }
{
    given_hooks_never_raise::<U, F, M, UniversalShaper>();
}

fn khmer_runs_never_raise<U: hb_unicode_funcs_t, F: hb_font_t, M: hb_ot_layout_t<F>>()
    ensures { RunsNeverRaise ⟦<KhmerShaper as Runs<U, F, M>>⟧.run }
{
    given_hooks_never_raise::<U, F, M, KhmerShaper>();
}

fn myanmar_runs_never_raise<U: hb_unicode_funcs_t, F: hb_font_t, M: hb_ot_layout_t<F>>()
    ensures { RunsNeverRaise ⟦<MyanmarShaper as Runs<U, F, M>>⟧.run }
{
    given_hooks_never_raise::<U, F, M, MyanmarShaper>();
}

fn zawgyi_runs_never_raise<U: hb_unicode_funcs_t, F: hb_font_t, M: hb_ot_layout_t<F>>()
    ensures { RunsNeverRaise ⟦<ZawgyiShaper as Runs<U, F, M>>⟧.run }
{
    given_hooks_never_raise::<U, F, M, ZawgyiShaper>();
}

fn indic_runs_never_raise<U: hb_unicode_funcs_t, F: hb_font_t, M: hb_ot_layout_t<F>>()
    ensures { RunsNeverRaise ⟦<IndicShaper as Runs<U, F, M>>⟧.run }
{
    given_hooks_never_raise::<U, F, M, IndicShaper>();
}

/// No hook of a run by a kept plan raises what lookups may ask for, whatever is planned; and the
/// lookups of the run are those of the engine.
pub(crate) fn plans_never_raise<U: hb_unicode_funcs_t, F: hb_font_t, M: hb_ot_layout_t<F>>()
    ensures { (plan : AnyPlan M.Map) (face : F)
        → NeverRaisesBy M.lookups face (⟦<by_script as ScriptPlans<U, F, M>>⟧.run plan face) }
{
    default_runs_never_raise::<U, F, M>();
    arabic_runs_never_raise::<U, F, M>();
    hangul_runs_never_raise::<U, F, M>();
    hebrew_runs_never_raise::<U, F, M>();
    thai_runs_never_raise::<U, F, M>();
    universal_runs_never_raise::<U, F, M>();
    khmer_runs_never_raise::<U, F, M>();
    myanmar_runs_never_raise::<U, F, M>();
    zawgyi_runs_never_raise::<U, F, M>();
    indic_runs_never_raise::<U, F, M>();
}

/// What is so of every run of a shaper is so of the run that it makes of a text.
fn text_runs_never_raise<U, F, M, S>()
where
    U: hb_unicode_funcs_t,
    F: hb_font_t,
    M: hb_ot_layout_t<F>,
    S: hb_ot_shaper_t<U, F, M>,
    ensures { ((plan : Plan S M.Map S.Data) (face : F)
        → NeverRaisesBy M.lookups face (⟦<S as Runs<U, F, M>>⟧.run plan face))
        → (face : F) (shaper : S) (features : List AnyFeature) (text : Buffer)
        → NeverRaisesBy M.lookups face (⟦<S as TextRuns<U, F, M>>⟧.text_run face shaper features text) }
{}

/// So it is of the run that the shaper of a text's script makes of it.
pub(crate) fn texts_never_raise<U: hb_unicode_funcs_t, F: hb_font_t, M: hb_ot_layout_t<F>>()
    ensures { (face : F) (features : List AnyFeature) (text : Buffer) → NeverRaisesBy M.lookups face
        (⟦<by_script as ScriptRuns<U, F, M>>⟧.text_run face features text) }
{
    plans_never_raise::<U, F, M>();
    text_runs_never_raise::<U, F, M, hb_default_shaper_t>();
    text_runs_never_raise::<U, F, M, ArabicShaper>();
    text_runs_never_raise::<U, F, M, HangulShaper>();
    text_runs_never_raise::<U, F, M, HebrewShaper>();
    text_runs_never_raise::<U, F, M, ThaiShaper>();
    text_runs_never_raise::<U, F, M, UniversalShaper>();
    text_runs_never_raise::<U, F, M, KhmerShaper>();
    text_runs_never_raise::<U, F, M, MyanmarShaper>();
    text_runs_never_raise::<U, F, M, ZawgyiShaper>();
    text_runs_never_raise::<U, F, M, IndicShaper>();
}
