//! The planner of a run: what it asks of the layout engine, and the plan that it makes of the
//! results.
//!
//! A plan is made in three steps. `new` asks what is known of the face and the shaper, and whether
//! the shaper is used: if `morx` substitutes, the face does a script's work itself.
//! `collect_features` asks for features in the order in which their lookups are to run: a shaper's
//! stand between those that come early and late in every text, then come the user's, which win over
//! these, and last what a shaper overrides, which wins over the user's. `compile` has the engine
//! compile the requests, and then decides who positions, kerns and places marks. All that depends
//! on no text is decided here, once for every text that the plan fits.
//!
//! Planning takes memory, so `collect_features` and `compile` take the allocator, which they pass
//! on to hooks and the engine. The planner borrows face and shaper for one lifetime; a plan borrows
//! the shaper alone, so it may be kept beside its face.
ghost use Rattle.std.specs.Prelude.{◌≡◌, Option, OnOk, IsOkUnless, IfOk, IfErr, string_bytes};
ghost use Rattle.std.specs.Option.{option_map};
ghost use Rattle.shape_plan.specs.Planner as planner_rules;
ghost use Rattle.shape_plan.specs.Plan.{given_shaper};
ghost use Rattle.shape_plan.specs.Decisions.{MasksAreFeatures, PositionsByOneTable};

mod decide;
mod requests;
mod tags;

use crate::decisions::PlanFacts;
use crate::ot_shape_plan::{ChosenShaper, assembled, hb_ot_shape_plan_t};
use crate::ot_shaper::{HB_OT_SHAPE_ZERO_WIDTH_MARKS_NONE, hb_ot_shaper_t};
use crate::shaping_types::TypesOf;
use shape_buffer::buffer::{Direction, Feature, Language, Script, ShapeError};
use shape_buffer::interfaces::{
    hb_font_t, hb_ot_layout_t, hb_ot_map_builder_t, hb_tables_t, hb_unicode_funcs_t,
};
use std::alloc::Global;
use std::marker::Model;

/// What planning depends on: the meanings that its type parameters bring, in plain functions. Every
/// shaper has it, and none writes it.
pub trait Plans<U: hb_unicode_funcs_t, F: hb_font_t, M: hb_ot_layout_t<F>>: hb_ot_shaper_t<
    U,
    F,
    M,
> {
    ghost use Rattle.shape_plan.specs.Planner.{Planning};

    ghost planning: { Planning F Self M.Map Self.Data };
}

impl<U: hb_unicode_funcs_t, F: hb_font_t, M: hb_ot_layout_t<F>, S: hb_ot_shaper_t<U, F, M>> Plans<
    U,
    F,
    M,
> for S {
    ghost planning = { record {
      faces = F.face;
      layouts = M.layout;
      masks = M.masks;
      constants = S.constants;
      collected = S.collected;
      overriding = S.overriding;
      made_data = S.made_data;
    } };
}

/// A plan in the making, for one face, direction and script. `'a` is the time of face and shaper,
/// which the plan refers to, and `'t` that of the language, which it doesn't.
#[derive(Drop)]
pub struct hb_ot_shape_planner_t<'a, 't, F, S> {
    pub face: &'a F,
    pub direction: Direction,
    pub script: Option<Script>,
    /// The requests.
    pub ot_map: hb_ot_map_builder_t<'t>,
    /// Whether glyphs are substituted by the table `morx`.
    pub apply_morx: bool,
    /// Whether the given shaper wants marks to lose their advances.
    pub script_zero_marks: bool,
    /// Whether the given shaper wants marks to be placed by their extents.
    pub script_fallback_mark_positioning: bool,
    pub shaper: ChosenShaper<'a, S>,
}

impl<'a, 't, F, S> Model for hb_ot_shape_planner_t<'a, 't, F, S> {
    ghost use Rattle.shape_plan.specs.Plan.{given_shaper};
    ghost use Rattle.shape_plan.specs.Planner.{Planner};

    ghost Value = { Planner F S };

    ghost view = { λ p. record {
      face = p.face.now;
      direction = p.direction;
      script = p.script;
      ot_map = p.ot_map;
      apply_morx = p.apply_morx;
      script_zero_marks = p.script_zero_marks;
      script_fallback_mark_positioning = p.script_fallback_mark_positioning;
      shaper = given_shaper p.shaper;
    } };
}

/// Whether the table `morx` substitutes: if the face has it and the text is horizontal or there is
/// no `GSUB`.
fn uses_morx(tables: hb_tables_t, direction: Direction) -> bool
    ensures { result ≡ planner_rules.uses_morx tables direction }
{
    tables.morx && (direction.is_horizontal() || !tables.gsub)
}

/// The shaper that is used: under `morx` one that isn't the default gives way.
fn kept<'a, S>(apply_morx: bool, is_default: bool, shaper: &'a S) -> ChosenShaper<'a, S>
    ensures { given_shaper result ≡ planner_rules.used_shaper apply_morx is_default shaper.now }
{
    if apply_morx && !is_default {
        ChosenShaper::Dumber
    } else {
        ChosenShaper::Given(shaper)
    }
}

impl<'a, 't, F, S> hb_ot_shape_planner_t<'a, 't, F, S> {
    /// A planner without requests. Takes what the given shaper prefers for marks, before the shaper
    /// may give way to the one that knows no script.
    #[tactic(auto, unfolding(crate::specs::Planner::begun_planner))]
    pub fn new<U, M>(
        alloc: Global,
        face: &'a F,
        shaper: &'a S,
        direction: Direction,
        script: Option<Script>,
        language: Option<&'t Language>,
    ) -> Self
    where
        U: hb_unicode_funcs_t,
        F: hb_font_t,
        M: hb_ot_layout_t<F>,
        S: hb_ot_shaper_t<U, F, M>,
        ensures { result
            ≡ planner_rules.begun_planner ⟦<S as Plans<U, F, M>>⟧.planning face.now shaper.now
            direction script
            (option_map (λ l. string_bytes l.now.0) language.entry) }
    {
        let apply_morx = uses_morx(face.tables(), direction);
        hb_ot_shape_planner_t {
            face,
            direction,
            script,
            ot_map: hb_ot_map_builder_t::new::<F, M>(alloc, face, script, language),
            apply_morx,
            script_zero_marks: S::ZERO_WIDTH_MARKS != HB_OT_SHAPE_ZERO_WIDTH_MARKS_NONE,
            script_fallback_mark_positioning: S::FALLBACK_POSITION,
            shaper: kept(apply_morx, S::IS_DEFAULT, shaper),
        }
    }

    /// Makes all requests, the user's among them: see the module's own words for their order.
    /// Refuses with `Memory` alone; nothing is said of the planner then.
    #[tactic(auto, unfolding(crate::specs::Planner::collected_planner, crate::specs::Requests::requested))]
    pub fn collect_features<U, M>(
        &mut self,
        alloc: Global,
        user_features: &[Feature],
    ) -> Result<(), ShapeError>
    where
        U: hb_unicode_funcs_t,
        F: hb_font_t,
        M: hb_ot_layout_t<F>,
        S: hb_ot_shaper_t<U, F, M>,
        ensures ok { OnOk result (self.new
            ≡ planner_rules.collected_planner ⟦<S as Plans<U, F, M>>⟧.planning user_features.now
            self.old) }
        ensures memory { IsOkUnless result ShapeError.Memory }
    {
        let (direction, script, shaper) = (self.direction, self.script, self.shaper);
        let builder = &mut self.ot_map;
        builder.reserve(requests::MOST_WITHOUT_HOOKS.saturating_add(user_features.len()))?;
        requests::begin(builder, direction)?;
        requests::collect::<TypesOf<U, F, M, S>>(alloc, shaper, builder, direction, script)?;
        requests::widen(builder, direction, user_features)?;
        requests::override_features::<TypesOf<U, F, M, S>>(
            alloc, shaper, builder, direction, script,
        )
    }

    /// The plan: has the engine compile the requests, decides all that depends on no text, copies
    /// the user's features and, last, has a used shaper make its data. Refuses with `Memory` alone,
    /// and hands nothing back then. What is said of the masks and of who positions holds of every
    /// plan; it stands here for the reader. That `GPOS` alone runs if `kerx` is applied too is the
    /// rule of the steps.
    #[tactic(auto, unfolding(crate::specs::Planner::compiled_plan))]
    pub fn compile<U, M>(
        self,
        alloc: Global,
        user_features: &[Feature],
    ) -> Result<hb_ot_shape_plan_t<'a, S, M::Map, S::Data>, ShapeError>
    where
        U: hb_unicode_funcs_t,
        F: hb_font_t,
        M: hb_ot_layout_t<F>,
        S: hb_ot_shaper_t<U, F, M>,
        ensures plan { IfOk result (λ plan. plan
            ≡ planner_rules.compiled_plan ⟦<S as Plans<U, F, M>>⟧.planning user_features.now
            self.entry) }
        ensures masks { IfOk result (λ plan. MasksAreFeatures plan.decisions) }
        ensures tables { IfOk result (λ plan. PositionsByOneTable plan.decisions) }
        ensures memory { IfErr result (λ e. e ≡ ShapeError.Memory) }
    {
        let ot_map = M::compile(alloc, self.face, &self.ot_map)?;
        let facts = decide::facts::<TypesOf<U, F, M, S>>(&self, &ot_map);
        assembled::<TypesOf<U, F, M, S>>(
            alloc,
            self.direction,
            self.script,
            self.shaper,
            ot_map,
            facts.decide(),
            Vec::from_slice(alloc, user_features)?,
        )
    }
}
