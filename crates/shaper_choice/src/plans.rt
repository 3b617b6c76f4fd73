//! Plans by the shaper that a script asks for, to be made once and used for every text that they
//! fit.
ghost use Rattle.std.specs.Prelude.{◌≡◌, ◌≢◌, ℕ, [], List, Option, IsOk, IfOk, IfErr, string_bytes};
ghost use Rattle.std.specs.Option.{option_map};
ghost use Rattle.shape_buffer.specs.declared.interfaces.map_request.TableIndex.TheVariants.{GSUB};
ghost use Rattle.shape_common.specs.declared.text_types.Direction.{Direction as AnyDirection};
ghost use Rattle.shape_common.specs.declared.text_types.Feature.{Feature as AnyFeature};
ghost use Rattle.shape_common.specs.declared.text_types.Script.{Script as AnyScript};
ghost use Rattle.shape_plan.specs.Plan.{Fits};
ghost use Rattle.shape_plan.specs.Planner.{planned};
ghost use Rattle.shape_plan.specs.Run.{Run};
ghost use Rattle.shaper_choice.specs.Choice.{category_of};
ghost use Rattle.shaper_choice.specs.Promises.{IsShapedBy};
ghost use Rattle.shaper_choice.specs.ScriptPlans.{plan_of_category, run_of_plan, PlanFits};
ghost use Rattle.shaper_choice.specs.declared.plans.ScriptShapers.{ScriptShapers as AnyShapers};
ghost use Rattle.shaper_choice.specs.declared.plans.ScriptPlan.{ScriptPlan as AnyPlan};

use crate::choice::{Category, by_script, category_of};
use indic_shaper::IndicShaper;
use khmer_shaper::KhmerShaper;
use myanmar_shaper::{MyanmarShaper, ZawgyiShaper};
use script_shapers::{ArabicShaper, HangulShaper, HebrewShaper, ThaiShaper};
use shape_buffer::buffer::{
    Direction, Feature, GlyphBuffer, Language, Script, ShapeError, ShapeFault, UnicodeBuffer,
};
use shape_buffer::interfaces::{TableIndex, hb_font_t, hb_ot_layout_t, hb_unicode_funcs_t};
use shape_pipeline::ot_shape_plan::hb_ot_shape_plan_t;
use shape_pipeline::shape_with_plan;
use shape_plan::ot_shaper::{DEFAULT_SHAPER, Runs, hb_default_shaper_t, hb_ot_shaper_t};
use shape_plan::planner::Plans;
use std::alloc::Global;
use universal_shaper::UniversalShaper;

/// The shapers that plans refer to.
#[derive(Clone, Copy, Debug)]
pub struct ScriptShapers {
    pub default: hb_default_shaper_t,
    pub arabic: ArabicShaper,
    pub hangul: HangulShaper,
    pub hebrew: HebrewShaper,
    pub thai: ThaiShaper,
    pub universal: UniversalShaper,
    pub khmer: KhmerShaper,
    pub myanmar: MyanmarShaper,
    pub zawgyi: ZawgyiShaper,
    pub indic: IndicShaper,
}

/// All of them: a plan may refer to these for as long as it likes.
pub const SCRIPT_SHAPERS: ScriptShapers = ScriptShapers {
    default: DEFAULT_SHAPER,
    arabic: ArabicShaper,
    hangul: HangulShaper,
    hebrew: HebrewShaper,
    thai: ThaiShaper,
    universal: UniversalShaper,
    khmer: KhmerShaper,
    myanmar: MyanmarShaper,
    zawgyi: ZawgyiShaper,
    indic: IndicShaper,
};

/// A plan by one of them.
#[derive(Drop)]
pub enum ScriptPlan<'a, P> {
    Default(hb_ot_shape_plan_t<'a, hb_default_shaper_t, P, ()>),
    Arabic(hb_ot_shape_plan_t<'a, ArabicShaper, P, ()>),
    Hangul(hb_ot_shape_plan_t<'a, HangulShaper, P, ()>),
    Hebrew(hb_ot_shape_plan_t<'a, HebrewShaper, P, ()>),
    Thai(hb_ot_shape_plan_t<'a, ThaiShaper, P, ()>),
    Universal(hb_ot_shape_plan_t<'a, UniversalShaper, P, ()>),
    Khmer(hb_ot_shape_plan_t<'a, KhmerShaper, P, ()>),
    Myanmar(hb_ot_shape_plan_t<'a, MyanmarShaper, P, ()>),
    Zawgyi(hb_ot_shape_plan_t<'a, ZawgyiShaper, P, ()>),
    Indic(hb_ot_shape_plan_t<'a, IndicShaper, P, ()>),
}

/// What such plans are, and the run of each over a face.
pub trait ScriptPlans<U: hb_unicode_funcs_t, F: hb_font_t, M: hb_ot_layout_t<F>> {
    ghost planned: { F → AnyShapers → AnyDirection → Option AnyScript → Option (List ℕ)
        → List AnyFeature → AnyPlan M.Map };

    ghost run: { AnyPlan M.Map → F → Run };
}

impl<U: hb_unicode_funcs_t, F: hb_font_t, M: hb_ot_layout_t<F>> ScriptPlans<U, F, M> for by_script {
    ghost planned = { λ face shapers direction script language features. plan_of_category
        (category_of script direction ((M.layout face).chosen_script script language GSUB))
        (record {
          default = planned ⟦<hb_default_shaper_t as Plans<U, F, M>>⟧.planning face shapers.default
              direction script language features;
          arabic = planned ⟦<ArabicShaper as Plans<U, F, M>>⟧.planning face shapers.arabic
              direction script language features;
          hangul = planned ⟦<HangulShaper as Plans<U, F, M>>⟧.planning face shapers.hangul
              direction script language features;
          hebrew = planned ⟦<HebrewShaper as Plans<U, F, M>>⟧.planning face shapers.hebrew
              direction script language features;
          thai = planned ⟦<ThaiShaper as Plans<U, F, M>>⟧.planning face shapers.thai
              direction script language features;
          universal = planned ⟦<UniversalShaper as Plans<U, F, M>>⟧.planning face shapers.universal
              direction script language features;
          khmer = planned ⟦<KhmerShaper as Plans<U, F, M>>⟧.planning face shapers.khmer
              direction script language features;
          myanmar = planned ⟦<MyanmarShaper as Plans<U, F, M>>⟧.planning face shapers.myanmar
              direction script language features;
          zawgyi = planned ⟦<ZawgyiShaper as Plans<U, F, M>>⟧.planning face shapers.zawgyi
              direction script language features;
          indic = planned ⟦<IndicShaper as Plans<U, F, M>>⟧.planning face shapers.indic
              direction script language features;
        }) };

    ghost run = { λ plan face. run_of_plan plan
        (record {
          default = λ p. ⟦<hb_default_shaper_t as Runs<U, F, M>>⟧.run p face;
          arabic = λ p. ⟦<ArabicShaper as Runs<U, F, M>>⟧.run p face;
          hangul = λ p. ⟦<HangulShaper as Runs<U, F, M>>⟧.run p face;
          hebrew = λ p. ⟦<HebrewShaper as Runs<U, F, M>>⟧.run p face;
          thai = λ p. ⟦<ThaiShaper as Runs<U, F, M>>⟧.run p face;
          universal = λ p. ⟦<UniversalShaper as Runs<U, F, M>>⟧.run p face;
          khmer = λ p. ⟦<KhmerShaper as Runs<U, F, M>>⟧.run p face;
          myanmar = λ p. ⟦<MyanmarShaper as Runs<U, F, M>>⟧.run p face;
          zawgyi = λ p. ⟦<ZawgyiShaper as Runs<U, F, M>>⟧.run p face;
          indic = λ p. ⟦<IndicShaper as Runs<U, F, M>>⟧.run p face;
        }) };
}

/// What a plan is made of: a face, the texts that it is for by their direction, script and
/// language, and the features that a user asks for.
#[derive(Drop)]
struct Asked<'l, F> {
    alloc: Global,
    face: &'l F,
    direction: Direction,
    script: Option<Script>,
    language: Option<&'l Language>,
    features: &'l [Feature],
}

/// A plan by one shaper.
fn plan_of<'a, U, F, M, S>(
    asked: &Asked<'_, F>,
    shaper: &'a S,
) -> Result<hb_ot_shape_plan_t<'a, S, M::Map, S::Data>, ShapeError>
where
    U: hb_unicode_funcs_t,
    F: hb_font_t,
    M: hb_ot_layout_t<F>,
    S: hb_ot_shaper_t<U, F, M>,
    requires { asked.now.direction ≢ Direction.Invalid }
    ensures plan { IfOk result (λ plan. plan ≡ planned ⟦<S as Plans<U, F, M>>⟧.planning asked.now.face.now shaper.now
        asked.now.direction asked.now.script
        (option_map (λ l. string_bytes l.now.0) asked.now.language) asked.now.features.now) }
    ensures memory { IfErr result (λ e. e ≡ ShapeError.Memory) }
{
    hb_ot_shape_plan_t::new::<U, F, M>(
        asked.alloc,
        asked.face,
        shaper,
        asked.direction,
        asked.script,
        asked.language,
        asked.features,
    )
}

/// A plan for texts of a direction and a script, by the shaper that these ask for, with the
/// features that the user asks for; `language` helps the engine to choose the scripts of its
/// tables. The direction must not be Invalid. Refuses with `Memory` alone.
pub fn plan_by_script<'a, U, F, M>(
    alloc: Global,
    face: &F,
    shapers: &'a ScriptShapers,
    direction: Direction,
    script: Option<Script>,
    language: Option<&Language>,
    features: &[Feature],
) -> Result<ScriptPlan<'a, M::Map>, ShapeError>
where
    U: hb_unicode_funcs_t,
    F: hb_font_t,
    M: hb_ot_layout_t<F>,
    requires { direction ≢ Direction.Invalid }
    ensures plan { IfOk result (λ plan. plan ≡ ⟦<by_script as ScriptPlans<U, F, M>>⟧.planned
        face.now shapers.now direction script
        (option_map (λ l. string_bytes l.now.0) language.entry) features.now) }
    ensures memory { IfErr result (λ e. e ≡ ShapeError.Memory) }
{
    let chosen = M::chosen_script(face, script, language, TableIndex::GSUB);
    let asked = Asked {
        alloc,
        face,
        direction,
        script,
        language,
        features,
    };
    let plan = match category_of(script, direction, chosen) {
        Category::Default => ScriptPlan::Default(plan_of::<U, F, M, _>(&asked, &shapers.default)?),
        Category::Arabic => ScriptPlan::Arabic(plan_of::<U, F, M, _>(&asked, &shapers.arabic)?),
        Category::Hangul => ScriptPlan::Hangul(plan_of::<U, F, M, _>(&asked, &shapers.hangul)?),
        Category::Hebrew => ScriptPlan::Hebrew(plan_of::<U, F, M, _>(&asked, &shapers.hebrew)?),
        Category::Thai => ScriptPlan::Thai(plan_of::<U, F, M, _>(&asked, &shapers.thai)?),
        Category::Universal => {
            ScriptPlan::Universal(plan_of::<U, F, M, _>(&asked, &shapers.universal)?)
        }
        Category::Khmer => ScriptPlan::Khmer(plan_of::<U, F, M, _>(&asked, &shapers.khmer)?),
        Category::Myanmar => ScriptPlan::Myanmar(plan_of::<U, F, M, _>(&asked, &shapers.myanmar)?),
        Category::Zawgyi => ScriptPlan::Zawgyi(plan_of::<U, F, M, _>(&asked, &shapers.zawgyi)?),
        Category::Indic => ScriptPlan::Indic(plan_of::<U, F, M, _>(&asked, &shapers.indic)?),
    };
    Ok(plan)
}

/// The glyphs of a text by a plan of one shaper. It is `shape_with_plan`, with its promises in one
/// record.
fn shape_planned<U, F, M, S>(
    alloc: Global,
    face: &F,
    plan: &hb_ot_shape_plan_t<'_, S, M::Map, S::Data>,
    buffer: UnicodeBuffer,
) -> Result<GlyphBuffer, ShapeFault>
where
    U: hb_unicode_funcs_t,
    F: hb_font_t,
    M: hb_ot_layout_t<F>,
    S: hb_ot_shaper_t<U, F, M>,
    requires { Fits U.unicode plan.now buffer }
    ensures shaped { IsShapedBy U.unicode (⟦<S as Runs<U, F, M>>⟧.run plan.now face.now) buffer result }
    ensures empty { buffer.items ≡ [] → IsOk result }
{
    shape_with_plan::<U, F, M, S>(alloc, face, plan, buffer)
}

/// The glyphs of a text by a plan that fits it. Else it is `shape_with_plan`, and refuses as that
/// does; `shaped` has all of its promises by their names.
pub fn shape_with_script_plan<U, F, M>(
    alloc: Global,
    face: &F,
    plan: &ScriptPlan<'_, M::Map>,
    buffer: UnicodeBuffer,
) -> Result<GlyphBuffer, ShapeFault>
where
    U: hb_unicode_funcs_t,
    F: hb_font_t,
    M: hb_ot_layout_t<F>,
    requires { PlanFits U.unicode plan.now buffer }
    ensures shaped { IsShapedBy U.unicode
        (⟦<by_script as ScriptPlans<U, F, M>>⟧.run plan.now face.now) buffer result }
    ensures empty { buffer.items ≡ [] → IsOk result }
{
    match plan {
        ScriptPlan::Default(plan) => shape_planned::<U, F, M, hb_default_shaper_t>(
            alloc, face, plan, buffer,
        ),
        ScriptPlan::Arabic(plan) => shape_planned::<U, F, M, ArabicShaper>(
            alloc, face, plan, buffer,
        ),
        ScriptPlan::Hangul(plan) => shape_planned::<U, F, M, HangulShaper>(
            alloc, face, plan, buffer,
        ),
        ScriptPlan::Hebrew(plan) => shape_planned::<U, F, M, HebrewShaper>(
            alloc, face, plan, buffer,
        ),
        ScriptPlan::Thai(plan) => shape_planned::<U, F, M, ThaiShaper>(alloc, face, plan, buffer),
        ScriptPlan::Universal(plan) => shape_planned::<U, F, M, UniversalShaper>(
            alloc, face, plan, buffer,
        ),
        ScriptPlan::Khmer(plan) => shape_planned::<U, F, M, KhmerShaper>(alloc, face, plan, buffer),
        ScriptPlan::Myanmar(plan) => shape_planned::<U, F, M, MyanmarShaper>(
            alloc, face, plan, buffer,
        ),
        ScriptPlan::Zawgyi(plan) => shape_planned::<U, F, M, ZawgyiShaper>(
            alloc, face, plan, buffer,
        ),
        ScriptPlan::Indic(plan) => shape_planned::<U, F, M, IndicShaper>(alloc, face, plan, buffer),
    }
}

impl<'a, P> ScriptPlan<'a, P> {
    ghost use Rattle.std.specs.Prelude.{◌↔◌, IsTrue};
    ghost use Rattle.shaper_choice.specs.ScriptPlans.{PlanFits};

    /// Whether the plan serves a text: it has the direction and the script that guessing would set.
    pub fn fits<U: hb_unicode_funcs_t>(&self, buffer: &UnicodeBuffer) -> bool
        ensures { IsTrue result ↔ PlanFits U.unicode self.now buffer.now }
    {
        match self {
            ScriptPlan::Default(plan) => plan.fits::<U>(buffer),
            ScriptPlan::Arabic(plan) => plan.fits::<U>(buffer),
            ScriptPlan::Hangul(plan) => plan.fits::<U>(buffer),
            ScriptPlan::Hebrew(plan) => plan.fits::<U>(buffer),
            ScriptPlan::Thai(plan) => plan.fits::<U>(buffer),
            ScriptPlan::Universal(plan) => plan.fits::<U>(buffer),
            ScriptPlan::Khmer(plan) => plan.fits::<U>(buffer),
            ScriptPlan::Myanmar(plan) => plan.fits::<U>(buffer),
            ScriptPlan::Zawgyi(plan) => plan.fits::<U>(buffer),
            ScriptPlan::Indic(plan) => plan.fits::<U>(buffer),
        }
    }
}
