//! The plan of a run: what is known of its direction, script, shaper and lookups before its text
//! is.
//!
//! A plan is made once, by its planner, and serves every text that it fits. What holds of every
//! plan's decisions is kept with the type: no mask has a flag bit, and of `kern` and `kerx` one
//! alone kerns.
ghost use Rattle.std.specs.Prelude.{◌≡◌, ◌≢◌, ◌↔◌, IsTrue, None, IfSome, IfOk, IfErr};
ghost use Rattle.std.specs.Prelude.{MatchResult, Option, option_copied, string_bytes};
ghost use Rattle.std.specs.Option.{option_map};
ghost use Rattle.shape_plan.specs.Decisions.{AreLawful, MasksAreFeatures, PositionsByOneTable};
ghost use Rattle.shape_plan.specs.Planner.{planned, data_for, with_data, own_data};
ghost use Rattle.shape_plan.specs.Plan.{given_shaper};

use crate::decisions::Decisions;
use crate::ot_shaper::hb_ot_shaper_t;
use crate::planner::{Plans, hb_ot_shape_planner_t};
use crate::shaping_types::{DataOf, MapOf, PlanOf, ShapingTypes};
use shape_buffer::buffer::{
    Direction, Feature, Language, Script, ShapeError, UnicodeBuffer, hb_mask_t,
};
use shape_buffer::interfaces::{hb_font_t, hb_ot_layout_t, hb_unicode_funcs_t};
use std::alloc::Global;
use std::marker::Model;

/// The shaper that a plan uses: the one that was given, or the one that knows no script.
#[derive_where(Clone, Copy)]
pub enum ChosenShaper<'a, S> {
    Given(&'a S),
    Dumber,
}

/// How texts of one direction and script are shaped with one face. `S` is the type of the shaper,
/// `P` that of the compiled lookups, `D` that of the shaper's data.
#[derive(Drop)]
pub struct hb_ot_shape_plan_t<'a, S, P, D> {
    direction: Direction,
    script: Option<Script>,
    shaper: ChosenShaper<'a, S>,
    ot_map: P,
    decisions: Decisions,
    user_features: Vec<Feature>,
    shaper_data: Option<D>,
}

impl<'a, S, P, D> Model for hb_ot_shape_plan_t<'a, S, P, D> {
    ghost use Rattle.shape_plan.specs.Decisions.{AreLawful};
    ghost use Rattle.shape_plan.specs.Plan.{Plan, given_shaper};

    ghost Value = { Plan S P D };

    ghost view = { λ p. record {
      direction = p.direction;
      script = p.script;
      shaper = given_shaper p.shaper;
      ot_map = p.ot_map;
      decisions = p.decisions;
      user_features = p.user_features.items;
      shaper_data = p.shaper_data;
    } };

    ghost invariant = { λ p. AreLawful p.decisions };
}

/// What a shaper makes for a plan, if the plan uses it and it gives the hook. Refuses with `Memory`
/// alone.
fn data_of<T: ShapingTypes>(
    alloc: Global,
    plan: &PlanOf<'_, T>,
) -> Result<Option<DataOf<T>>, ShapeError>
    ensures { MatchResult result
        (λ made. made ≡ data_for T.Shaper.constants.has_create_data T.Shaper.made_data plan.now)
        (λ e. e ≡ ShapeError.Memory) }
{
    match plan.shaper {
        ChosenShaper::Given(shaper) if T::Shaper::HAS_CREATE_DATA => {
            Ok(Some(shaper.create_data(alloc, plan)?))
        }
        _ => Ok(None),
    }
}

/// A plan of these parts, with what the shaper makes for it, last, when all else is decided.
/// Refuses with `Memory` alone.
pub(crate) fn assembled<'a, T: ShapingTypes>(
    alloc: Global,
    direction: Direction,
    script: Option<Script>,
    shaper: ChosenShaper<'a, T::Shaper>,
    ot_map: MapOf<T>,
    decisions: Decisions,
    user_features: Vec<Feature>,
) -> Result<PlanOf<'a, T>, ShapeError>
    requires { AreLawful decisions }
    ensures { MatchResult result
        (λ plan. plan ≡ with_data T.Shaper.constants.has_create_data T.Shaper.made_data (record {
          direction = direction;
          script = script;
          shaper = given_shaper shaper.entry;
          ot_map = ot_map;
          decisions = decisions;
          user_features = user_features.items;
          shaper_data = None;
        }))
        (λ e. e ≡ ShapeError.Memory) }
{
    let mut plan = hb_ot_shape_plan_t {
        direction,
        script,
        shaper,
        ot_map,
        decisions,
        user_features,
        shaper_data: None,
    };
    plan.shaper_data = data_of::<T>(alloc, &plan)?;
    Ok(plan)
}

/// A plan, with its shaper borrowed for longer: that of a planner lives as long as the planner's
/// face.
fn with_shaper<'a, S, P, D>(
    plan: hb_ot_shape_plan_t<'_, S, P, D>,
    shaper: &'a S,
) -> hb_ot_shape_plan_t<'a, S, P, D>
    requires { IfSome plan.shaper (λ used. used ≡ shaper.now) }
    ensures { result ≡ plan.entry }
{
    let kept = match plan.shaper {
        ChosenShaper::Given(_) => ChosenShaper::Given(shaper),
        ChosenShaper::Dumber => ChosenShaper::Dumber,
    };
    hb_ot_shape_plan_t {
        direction: plan.direction,
        script: plan.script,
        shaper: kept,
        ot_map: plan.ot_map,
        decisions: plan.decisions,
        user_features: plan.user_features,
        shaper_data: plan.shaper_data,
    }
}

impl<'a, S, P, D> hb_ot_shape_plan_t<'a, S, P, D> {
    ghost use Rattle.shape_plan.specs.Plan.{Plan, Fits};

    /// A plan for texts of a direction and a script, a face and a shaper, with the features that
    /// the user asks for; `language` helps the engine to choose the scripts of its tables. It
    /// serves every text that it fits, over that face, and borrows the shaper alone. What its
    /// shaper made for it is made from the plan as it is without that data. The direction must not
    /// be Invalid. Refuses with `Memory` alone.
    #[tactic(auto, unfolding(crate::specs::Planner::planned))]
    pub fn new<U, F, M>(
        alloc: Global,
        face: &F,
        shaper: &'a S,
        direction: Direction,
        script: Option<Script>,
        language: Option<&Language>,
        user_features: &[Feature],
    ) -> Result<Self, ShapeError>
    where
        U: hb_unicode_funcs_t,
        F: hb_font_t,
        M: hb_ot_layout_t<F, Map = P>,
        S: hb_ot_shaper_t<U, F, M, Data = D>,
        P: Drop,
        D: Drop,
        requires { direction ≢ Direction.Invalid }
        ensures plan { IfOk result (λ plan. plan
            ≡ planned ⟦<S as Plans<U, F, M>>⟧.planning face.now shaper.now
            direction script (option_map (λ l. string_bytes l.now.0) language.entry)
            user_features.now) }
        ensures data { IfOk result (λ plan. plan.shaper_data
            ≡ own_data ⟦<S as Plans<U, F, M>>⟧.planning plan) }
        ensures memory { IfErr result (λ e. e ≡ ShapeError.Memory) }
    {
        let mut planner = hb_ot_shape_planner_t::new::<U, M>(
            alloc, face, shaper, direction, script, language,
        );
        planner.collect_features::<U, M>(alloc, user_features)?;
        let plan = planner.compile::<U, M>(alloc, user_features)?;
        Ok(with_shaper(plan, shaper))
    }

    /// No mask of the plan has a bit of a glyph's flags. Does nothing: it tells this to those who
    /// see nothing of the plan but its value.
    pub fn masks_are_features(&self)
        ensures { MasksAreFeatures self.now.decisions }
    {
        // The read of a field tells the prover the invariant of the type.
        let _ = &self.decisions;
    }

    /// Kerning falls back exactly when no table positions, and `kern` and `kerx` are never both
    /// applied. If `GPOS` and `kerx` both are, the steps of positioning are to run `GPOS` alone;
    /// that they do is a law of theirs. Does nothing.
    pub fn positions_by_one_table(&self)
        ensures { PositionsByOneTable self.now.decisions }
    {
        // The read of a field tells the prover the invariant of the type.
        let _ = &self.decisions;
    }

    /// Whether the plan serves a text: its direction and script, as guessing would set them, are
    /// the plan's. No script counts as Unknown.
    pub fn fits<U: hb_unicode_funcs_t>(&self, buffer: &UnicodeBuffer) -> bool
        ensures { IsTrue result ↔ Fits U.unicode self.now buffer.now }
    {
        let text = buffer.as_inner();
        let script = text.guessed_script::<U>();
        text.direction_by::<U>(script) == self.direction
            && script.unwrap_or(Script::UNKNOWN) == self.script.unwrap_or(Script::UNKNOWN)
    }

    /// The direction that is planned for.
    pub fn direction(&self) -> Direction
        ensures { result ≡ self.now.direction }
    {
        self.direction
    }

    /// The script that is planned for.
    pub fn script(&self) -> Option<Script>
        ensures { result ≡ self.now.script }
    {
        self.script
    }

    /// The given shaper, if the plan uses it; else hooks are never called.
    pub fn shaper(&self) -> Option<&'a S>
        ensures { option_copied result ≡ self.now.shaper }
    {
        match self.shaper {
            ChosenShaper::Given(shaper) => Some(shaper),
            ChosenShaper::Dumber => None,
        }
    }

    /// The lookups, as the layout engine has compiled them.
    pub fn ot_map(&self) -> &P
        ensures { result.now ≡ self.now.ot_map }
    {
        &self.ot_map
    }

    /// Whether glyphs are substituted by the table `morx`.
    pub fn apply_morx(&self) -> bool
        ensures { result ≡ self.now.decisions.apply_morx }
    {
        self.decisions.apply_morx
    }

    /// The mask of the feature `frac`: fractions.
    pub fn frac_mask(&self) -> hb_mask_t
        ensures { result ≡ self.now.decisions.frac_mask }
    {
        self.decisions.frac_mask
    }

    /// The mask of the feature `numr`: numerators.
    pub fn numr_mask(&self) -> hb_mask_t
        ensures { result ≡ self.now.decisions.numr_mask }
    {
        self.decisions.numr_mask
    }

    /// The mask of the feature `dnom`: denominators.
    pub fn dnom_mask(&self) -> hb_mask_t
        ensures { result ≡ self.now.decisions.dnom_mask }
    {
        self.decisions.dnom_mask
    }

    /// The mask of the feature `rtlm`: mirrored forms right to left.
    pub fn rtlm_mask(&self) -> hb_mask_t
        ensures { result ≡ self.now.decisions.rtlm_mask }
    {
        self.decisions.rtlm_mask
    }

    /// The mask of kerning: of `kern` if the direction is horizontal, else of `vkrn`.
    pub fn kern_mask(&self) -> hb_mask_t
        ensures { result ≡ self.now.decisions.kern_mask }
    {
        self.decisions.kern_mask
    }

    /// The mask of the feature `trak`: tracking.
    pub fn trak_mask(&self) -> hb_mask_t
        ensures { result ≡ self.now.decisions.trak_mask }
    {
        self.decisions.trak_mask
    }

    /// Whether there are lookups for fractions.
    pub fn has_frac(&self) -> bool
        ensures { result ≡ self.now.decisions.has_frac }
    {
        self.decisions.has_frac
    }

    /// Whether there are lookups for vertical forms.
    pub fn has_vert(&self) -> bool
        ensures { result ≡ self.now.decisions.has_vert }
    {
        self.decisions.has_vert
    }

    /// Whether there are lookups that place marks.
    pub fn has_gpos_mark(&self) -> bool
        ensures { result ≡ self.now.decisions.has_gpos_mark }
    {
        self.decisions.has_gpos_mark
    }

    /// Whether kerning was asked for.
    pub fn requested_kerning(&self) -> bool
        ensures { result ≡ self.now.decisions.requested_kerning }
    {
        self.decisions.requested_kerning
    }

    /// Whether tracking was asked for and the face has the table `trak`.
    pub fn apply_trak(&self) -> bool
        ensures { result ≡ self.now.decisions.apply_trak }
    {
        self.decisions.apply_trak
    }

    /// Whether classes of glyphs are made up, since the face has none.
    pub fn fallback_glyph_classes(&self) -> bool
        ensures { result ≡ self.now.decisions.fallback_glyph_classes }
    {
        self.decisions.fallback_glyph_classes
    }

    /// Whether glyphs are positioned by the table `GPOS`.
    pub fn apply_gpos(&self) -> bool
        ensures { result ≡ self.now.decisions.apply_gpos }
    {
        self.decisions.apply_gpos
    }

    /// Whether glyphs are positioned by the table `kern`.
    pub fn apply_kern(&self) -> bool
        ensures { result ≡ self.now.decisions.apply_kern }
    {
        self.decisions.apply_kern
    }

    /// Whether no table positions glyphs.
    pub fn apply_fallback_kern(&self) -> bool
        ensures { result ≡ self.now.decisions.apply_fallback_kern }
    {
        self.decisions.apply_fallback_kern
    }

    /// Whether the table `kerx` is applied. If `apply_gpos` holds too, `GPOS` alone runs.
    pub fn apply_kerx(&self) -> bool
        ensures { result ≡ self.now.decisions.apply_kerx }
    {
        self.decisions.apply_kerx
    }

    /// Whether marks may lose their advances.
    pub fn zero_marks(&self) -> bool
        ensures { result ≡ self.now.decisions.zero_marks }
    {
        self.decisions.zero_marks
    }

    /// Whether marks are placed by their extents.
    pub fn fallback_mark_positioning(&self) -> bool
        ensures { result ≡ self.now.decisions.fallback_mark_positioning }
    {
        self.decisions.fallback_mark_positioning
    }

    /// Whether a mark that loses its advance is moved back by it.
    pub fn adjust_mark_positioning_when_zeroing(&self) -> bool
        ensures { result ≡ self.now.decisions.adjust_mark_positioning_when_zeroing }
    {
        self.decisions.adjust_mark_positioning_when_zeroing
    }

    /// The features that the user asked for, in order.
    pub fn user_features(&self) -> &[Feature]
        ensures { result.now ≡ self.now.user_features }
    {
        self.user_features.as_slice()
    }

    /// What the shaper has made for the plan.
    pub fn data(&self) -> Option<&D>
        ensures { option_copied result ≡ self.now.shaper_data }
    {
        self.shaper_data.as_ref()
    }
}
