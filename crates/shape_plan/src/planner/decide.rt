//! What a plan decides by what its planner, the face and the engine know.
//!
//! First all that the decisions depend on is asked, once; then each decision is a formula over it.
//! They build on one another in this order: who positions (`GPOS` or `kerx`), who kerns if that
//! leaves kerning out, and, since whoever positions or kerns may place marks, what is left to do
//! for marks.
//!
//! Questions to the face and the engine have no effect, so all are asked of every face. Formulas
//! have `&` and `|`, which don't branch: what several of them have in common is computed once.
ghost use Rattle.std.specs.Prelude.{◌≡◌};
ghost use Rattle.shape_plan.specs.Decisions as decision_rules;
ghost use Rattle.shape_plan.specs.Planner;
ghost use Rattle.shape_plan.specs.Plan.{given_shaper};

use crate::decisions::{Decisions, PlanFacts};
use crate::ot_shape_plan::ChosenShaper;
use crate::ot_shaper::hb_ot_shaper_t;
use crate::planner::{Plans, hb_ot_shape_planner_t, tags};
use crate::shaping_types::{MapOf, ShapingTypes};
use shape_buffer::buffer::{Direction, hb_mask_t, hb_tag_t};
use shape_buffer::interfaces::{TableIndex, hb_font_t, hb_ot_layout_t};

/// The feature that kerns texts of a direction.
fn kern_tag(direction: Direction) -> hb_tag_t
    ensures { result ≡ Planner.kern_tag direction }
{
    if direction.is_horizontal() {
        tags::KERN
    } else {
        tags::VKRN
    }
}

/// Whether the used shaper is made for another script than the one chosen for `GPOS`.
fn disables_gpos<S>(
    gpos_tag: Option<hb_tag_t>,
    shaper: ChosenShaper<'_, S>,
    chosen: Option<hb_tag_t>,
) -> bool
    ensures { result ≡ Planner.is_gpos_disabled gpos_tag (given_shaper shaper.entry) chosen }
{
    match (shaper, gpos_tag) {
        (ChosenShaper::Given(_), Some(tag)) => chosen != Some(tag),
        _ => false,
    }
}

/// All that the decisions of a planner depend on, with the compiled requests.
#[tactic(auto, unfolding(crate::specs::Planner::facts_of))]
pub(crate) fn facts<T: ShapingTypes>(
    planner: &hb_ot_shape_planner_t<'_, '_, T::Face, T::Shaper>,
    map: &MapOf<T>,
) -> PlanFacts
    ensures { result ≡ Planner.facts_of ⟦<T::Shaper as Plans<T::Unicode, T::Face, T::Engine>>⟧.planning
        planner.now (T.Engine.masks map.now) }
{
    let kern_tag = kern_tag(planner.direction);
    PlanFacts {
        frac_mask: T::Engine::get_1_mask(map, tags::FRAC),
        numr_mask: T::Engine::get_1_mask(map, tags::NUMR),
        dnom_mask: T::Engine::get_1_mask(map, tags::DNOM),
        rtlm_mask: T::Engine::get_1_mask(map, tags::RTLM),
        vert_mask: T::Engine::get_1_mask(map, tags::VERT),
        mark_mask: T::Engine::get_1_mask(map, tags::MARK),
        kern_mask: T::Engine::get_mask(map, kern_tag).0,
        trak_mask: T::Engine::get_mask(map, tags::TRAK).0,
        has_gpos_kern: T::Engine::get_feature_index(map, TableIndex::GPOS, kern_tag).is_some(),
        disable_gpos: disables_gpos(
            T::Shaper::GPOS_TAG,
            planner.shaper,
            planner.ot_map.chosen_script(TableIndex::GPOS),
        ),
        apply_morx: planner.apply_morx,
        script_zero_marks: planner.script_zero_marks,
        script_fallback_mark_positioning: planner.script_fallback_mark_positioning,
        tables: planner.face.tables(),
        has_glyph_classes: T::Engine::has_glyph_classes(planner.face),
        has_kerning: T::Engine::has_kerning(planner.face),
        has_machine_kerning: T::Engine::has_machine_kerning(planner.face),
        has_cross_kerning: T::Engine::has_cross_kerning(planner.face),
    }
}

/// Whether a feature has lookups: its mask isn't 0.
fn is_on(mask: hb_mask_t) -> bool
    ensures { result ≡ decision_rules.is_on mask }
{
    mask != 0
}

impl PlanFacts {
    /// Fractions have their own feature, or one for each side.
    fn has_frac(&self) -> bool
        ensures { result ≡ decision_rules.has_frac self.now }
    {
        is_on(self.frac_mask) | (is_on(self.numr_mask) & is_on(self.dnom_mask))
    }

    /// Tracking is asked for, and the face has its table.
    fn apply_trak(&self) -> bool
        ensures { result ≡ decision_rules.apply_trak self.now }
    {
        is_on(self.trak_mask) & self.tables.trak
    }

    /// `GSUB` substitutes if `morx` doesn't.
    fn has_gsub(&self) -> bool
        ensures { result ≡ decision_rules.has_gsub self.now }
    {
        !self.apply_morx & self.tables.gsub
    }

    fn has_gpos(&self) -> bool
        ensures { result ≡ decision_rules.has_gpos self.now }
    {
        !self.disable_gpos & self.tables.gpos
    }

    /// `kerx` goes before `GPOS`, unless `GSUB` and `GPOS` go together.
    fn prefers_kerx(&self) -> bool
        ensures { result ≡ decision_rules.prefers_kerx self.now }
    {
        self.tables.kerx & !(self.has_gsub() & self.has_gpos())
    }

    fn apply_gpos(&self) -> bool
        ensures { result ≡ decision_rules.apply_gpos self.now }
    {
        !self.prefers_kerx() & self.has_gpos()
    }

    /// Neither `kerx` nor a feature of `GPOS` kerns yet.
    fn lacks_kerning(&self) -> bool
        ensures { result ≡ decision_rules.lacks_kerning self.now }
    {
        !self.prefers_kerx() & (!self.has_gpos_kern | !self.apply_gpos())
    }

    fn apply_kerx(&self) -> bool
        ensures { result ≡ decision_rules.apply_kerx self.now }
    {
        self.prefers_kerx() | (self.lacks_kerning() & self.tables.kerx)
    }

    fn apply_kern(&self) -> bool
        ensures { result ≡ decision_rules.apply_kern self.now }
    {
        self.lacks_kerning() & (!self.tables.kerx & self.has_kerning)
    }

    fn apply_fallback_kern(&self) -> bool
        ensures { result ≡ decision_rules.apply_fallback_kern self.now }
    {
        !(self.apply_gpos() | (self.apply_kerx() | self.apply_kern()))
    }

    /// As the given shaper prefers; but `kerx`, and `kern` with a state machine, see to marks
    /// themselves.
    fn zero_marks(&self) -> bool
        ensures { result ≡ decision_rules.zero_marks self.now }
    {
        self.script_zero_marks
            & (!self.apply_kerx() & (!self.apply_kern() | !self.has_machine_kerning))
    }

    /// Nothing places marks: neither `GPOS` nor `kerx` nor a `kern` that moves glyphs across the
    /// line.
    fn adjusts(&self) -> bool
        ensures { result ≡ decision_rules.adjusts self.now }
    {
        !self.apply_gpos() & (!self.apply_kerx() & (!self.apply_kern() | !self.has_cross_kerning))
    }

    fn fallback_mark_positioning(&self) -> bool
        ensures { result ≡ decision_rules.fallback_mark_positioning self.now }
    {
        self.adjusts() & self.script_fallback_mark_positioning
    }

    /// Faces with `morx` count on marks that are not moved back.
    fn adjust_when_zeroing(&self) -> bool
        ensures { result ≡ decision_rules.adjust_when_zeroing self.now }
    {
        self.adjusts() & !self.apply_morx
    }

    /// All decisions.
    #[tactic(auto, unfolding(crate::specs::Decisions::decided))]
    pub(crate) fn decide(&self) -> Decisions
        ensures { result ≡ decision_rules.decided self.now }
    {
        Decisions {
            apply_morx: self.apply_morx,
            frac_mask: self.frac_mask,
            numr_mask: self.numr_mask,
            dnom_mask: self.dnom_mask,
            rtlm_mask: self.rtlm_mask,
            kern_mask: self.kern_mask,
            trak_mask: self.trak_mask,
            has_frac: self.has_frac(),
            has_vert: is_on(self.vert_mask),
            has_gpos_mark: is_on(self.mark_mask),
            requested_kerning: is_on(self.kern_mask),
            apply_trak: self.apply_trak(),
            fallback_glyph_classes: !self.has_glyph_classes,
            apply_gpos: self.apply_gpos(),
            apply_kern: self.apply_kern(),
            apply_fallback_kern: self.apply_fallback_kern(),
            apply_kerx: self.apply_kerx(),
            zero_marks: self.zero_marks(),
            fallback_mark_positioning: self.fallback_mark_positioning(),
            adjust_mark_positioning_when_zeroing: self.adjust_when_zeroing(),
        }
    }
}
