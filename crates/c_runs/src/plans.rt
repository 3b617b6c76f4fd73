//! Plans that the runs of a call share, and those of later calls with a kept font, and texts shaped
//! by them.
ghost use Rattle.std.specs.Prelude.{◌≡◌, ◌≤◌, ◌<◌, ℕ, List, Option, length, IfOk, IfErr};
ghost use Rattle.plan_cache.specs.Keys.{IsKeptAt};
ghost use Rattle.shape_buffer.specs.Guess.{guessed, guessed_direction, guessed_script};
ghost use Rattle.shape_common.specs.declared.text_types.Direction.{Direction as AnyDirection};
ghost use Rattle.shape_common.specs.declared.text_types.Feature.{Feature as AnyFeature};
ghost use Rattle.shape_common.specs.declared.text_types.Script.{Script as AnyScript};
ghost use Rattle.shape_items.specs.Buffer.{Buffer, run_limit};
ghost use Rattle.shape_pipeline.specs.Headline.{target_of};
ghost use Rattle.shape_pipeline.specs.Shaped.{shaped, ShapingPasses};
ghost use Rattle.shaper_choice.specs.ScriptPlans.{PlanFits, all_shapers};
ghost use Rattle.shaper_choice.specs.declared.plans.ScriptPlan.{ScriptPlan as AnyPlan};
ghost use Rattle.c_runs.specs.Plans.{AreMadeBy};

use plan_cache::{KeptPlan, find_plan, keep_plan};
use shape_buffer::buffer::{Feature, GlyphBuffer, ShapeError, UnicodeBuffer};
use shape_buffer::interfaces::{hb_font_t, hb_ot_layout_t, hb_unicode_funcs_t};
use shaper_choice::choice::{ScriptRuns, by_script};
use shaper_choice::plans::ScriptPlans;
use shaper_choice::{SCRIPT_SHAPERS, ScriptPlan, plan_by_script, shape_with_script_plan};
use std::alloc::Global;

/// The number of the one face of a call.
const FACE: u32 = 0;

/// As many plans as are kept at most.
const MOST_PLANS: usize = 32;

/// Plans over a font file, each kept under all that it was made for.
pub type Kept<'a, P> = Vec<KeptPlan<ScriptPlan<'a, P>>>;

/// The plan that is made for a text fits it, and by it the text is shaped as by `shape_by_script`.
/// Does nothing.
fn planned_for_text<U: hb_unicode_funcs_t, F: hb_font_t, M: hb_ot_layout_t<F>>()
    ensures fits { (face : F) (features : List AnyFeature) (text : Buffer) (plan : AnyPlan M.Map)
        → plan ≡ ⟦<by_script as ScriptPlans<U, F, M>>⟧.planned face all_shapers
        (guessed_direction U.unicode text) (guessed_script U.unicode text) text.language features
        → PlanFits U.unicode plan text }
    ensures runs { (face : F) (features : List AnyFeature) (text : Buffer) (plan : AnyPlan M.Map)
        → plan ≡ ⟦<by_script as ScriptPlans<U, F, M>>⟧.planned face all_shapers
        (guessed_direction U.unicode text) (guessed_script U.unicode text) text.language features
        → ⟦<by_script as ScriptPlans<U, F, M>>⟧.run plan face
        ≡ ⟦<by_script as ScriptRuns<U, F, M>>⟧.text_run face features text }
{}

/// The plan for a text.
fn plan_for<U: hb_unicode_funcs_t, F: hb_font_t, M: hb_ot_layout_t<F>>(
    alloc: Global,
    face: &F,
    features: &[Feature],
    text: &UnicodeBuffer,
) -> Result<ScriptPlan<'static, M::Map>, ShapeError>
    ensures plan { IfOk result (λ plan. plan ≡ ⟦<by_script as ScriptPlans<U, F, M>>⟧.planned
        face.now all_shapers (guessed_direction U.unicode text.now)
        (guessed_script U.unicode text.now) text.now.language features.now) }
    ensures memory { IfErr result (λ e. e ≡ ShapeError.Memory) }
{
    let buffer = text.as_inner();
    let script = buffer.guessed_script::<U>();
    let direction = buffer.direction_by::<U>(script);
    plan_by_script::<U, F, M>(
        alloc,
        face,
        &SCRIPT_SHAPERS,
        direction,
        script,
        text.language(),
        features,
    )
}

/// Room for one plan more: where there are as many as are kept, all are let go of.
fn make_room<P: Drop>(plans: &mut Kept<'static, P>)
    ensures made { (planned : AnyDirection → Option AnyScript → Option (List ℕ) → List AnyFeature → AnyPlan P)
        → AreMadeBy planned plans.old.items → AreMadeBy planned plans.new.items }
    ensures room { length plans.new.items < 32 }
{
    if plans.len() >= MOST_PLANS {
        plans.clear();
    }
}

/// The place of the plan for a text, which is made if there is none yet.
fn plan_place<U: hb_unicode_funcs_t, F: hb_font_t, M: hb_ot_layout_t<F>>(
    alloc: Global,
    face: &F,
    features: &[Feature],
    plans: &mut Kept<'static, M::Map>,
    text: &UnicodeBuffer,
) -> Result<usize, ShapeError>
    requires { AreMadeBy (⟦<by_script as ScriptPlans<U, F, M>>⟧.planned face.now all_shapers) plans.old.items }
    ensures made { AreMadeBy (⟦<by_script as ScriptPlans<U, F, M>>⟧.planned face.now all_shapers) plans.new.items }
    ensures place { IfOk result (λ place. IsKeptAt U.unicode plans.new.items place 0 features.now text.now) }
    ensures memory { IfErr result (λ e. e ≡ ShapeError.Memory) }
{
    if let Some(place) = find_plan::<U, _>(plans.as_slice(), FACE, features, text) {
        return Ok(place);
    }
    let plan = plan_for::<U, F, M>(alloc, face, features, text)?;
    make_room(plans);
    keep_plan::<U, _>(alloc, plans, FACE, features, text, plan)
}

/// The glyphs of a text by the shaper that its script asks for: those of `shape_by_script`, by a
/// plan that is kept. Refuses as that does.
pub fn shape_kept<U: hb_unicode_funcs_t, F: hb_font_t, M: hb_ot_layout_t<F>>(
    alloc: Global,
    face: &F,
    features: &[Feature],
    plans: &mut Kept<'static, M::Map>,
    text: UnicodeBuffer,
) -> Result<GlyphBuffer, ShapeError>
    requires { AreMadeBy (⟦<by_script as ScriptPlans<U, F, M>>⟧.planned face.now all_shapers) plans.old.items }
    ensures made { AreMadeBy (⟦<by_script as ScriptPlans<U, F, M>>⟧.planned face.now all_shapers) plans.new.items }
    ensures glyphs { let runs = ⟦<by_script as ScriptRuns<U, F, M>>⟧.text_run face.now features.now in
        IfOk result (λ glyphs. glyphs ≡ shaped (runs text) text) }
    ensures within { IfOk result (λ glyphs. length glyphs.items ≤ run_limit (length text.items)) }
    ensures length { let runs = ⟦<by_script as ScriptRuns<U, F, M>>⟧.text_run face.now features.now in
        IfErr result (λ e. e ≡ ShapeError.Length
        → ShapingPasses (runs text) (target_of (runs text) text) (guessed U.unicode text)) }
{
    let place = plan_place::<U, F, M>(alloc, face, features, plans, &text)?;
    let kept = &plans[place];
    planned_for_text::<U, F, M>();
    match shape_with_script_plan::<U, F, M>(alloc, face, &kept.plan, text) {
        Ok(glyphs) => Ok(glyphs),
        Err(fault) => Err(fault.cause),
    }
}
