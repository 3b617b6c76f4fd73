//! What a script shaper changes in a run, and the two shapers that change nothing.
//!
//! A shaper says by constants which hooks it gives; one that isn't given is never called. What the
//! hooks mean is one record of functions, and what every shaper must provide is a law of the trait.
//! Its author writes a [`script_shaper`] and the hooks that it gives, each by the trait of
//! [`hooks`].
//!
//! What a run depends on is quoted: `Runs` is a trait that every shaper has and none writes, and
//! clauses say `⟦<S as Runs<U, F, M>>⟧.run plan face`. A clause can't name a trait's constant, so
//! each constant has a ghost twin, and one equation ties them together.
ghost use Rattle.std.specs.Prelude.{◌≡◌, ◌<◌, ◌≤◌, ℕ, ℤ, Bool, Option, List, length, MatchResult};
ghost use Rattle.std.specs.Prelude.{OnOk, IfErr};
ghost use Rattle.shape_buffer.specs.MapBuilder.{Builder, with_requests};
ghost use Rattle.shape_buffer.specs.Outcome.{IsWithinLimit, Made, Outcome, step};
ghost use Rattle.shape_common.specs.declared.text_types.Direction.{Direction as AnyDirection};
ghost use Rattle.shape_common.specs.declared.text_types.Script.{Script as AnyScript};
ghost use Rattle.shape_common.specs.declared.text_types.hb_tag_t.{hb_tag_t as AnyTag};
ghost use Rattle.shape_buffer.specs.declared.interfaces.map_request.MapRequest.{MapRequest as AnyRequest};
ghost use Rattle.shape_plan.specs.Plan.{Plan};
ghost use Rattle.shape_plan.specs.Reorder.{IsRunInOrder};
ghost use Rattle.shape_plan.specs.Rules.{Rules, rules_of};
ghost use Rattle.shape_plan.specs.Run.{Run, run_of};
ghost use Rattle.shape_plan.specs.Shaper.{ShaperConstants, HookMeaning, LawfulConstants, HookObligations};

mod every_shaper;
pub mod hooks;
mod none;
mod preferring;
mod script;
mod shapers;

use crate::ot_shape_plan::hb_ot_shape_plan_t;
pub use none::no_hook;
pub use preferring::{
    ComposedDiacritics, ComposedDiacriticsNoShortCircuit, Decomposed, Preference, Preferring,
    Shortest,
};
pub use script::script_shaper;
use shape_buffer::buffer::{Direction, Script, ShapeError, hb_buffer_t, hb_tag_t};
use shape_buffer::interfaces::{
    hb_font_t, hb_ot_layout_t, hb_ot_map_builder_t, hb_unicode_funcs_t,
};
pub use shapers::{DEFAULT_SHAPER, DUMBER_SHAPER, hb_default_shaper_t, hb_dumber_shaper_t};
use std::alloc::Global;

/// The longest run of marks that is put in order.
pub const MAX_COMBINING_MARKS: usize = 32;

/// When marks lose their advances.
pub type hb_ot_shape_zero_width_marks_type_t = u32;

/// Never.
pub const HB_OT_SHAPE_ZERO_WIDTH_MARKS_NONE: hb_ot_shape_zero_width_marks_type_t = 0;

/// Before lookups place them.
pub const HB_OT_SHAPE_ZERO_WIDTH_MARKS_BY_GDEF_EARLY: hb_ot_shape_zero_width_marks_type_t = 1;

/// After lookups have placed them.
pub const HB_OT_SHAPE_ZERO_WIDTH_MARKS_BY_GDEF_LATE: hb_ot_shape_zero_width_marks_type_t = 2;

/// A script shaper over the Unicode functions `U`, faces of type `F` and the layout engine `M`, as
/// a run sees it: its constants, which hooks it gives, and what they do. Authors write a
/// [`script_shaper`].
pub trait hb_ot_shaper_t<U: hb_unicode_funcs_t, F: hb_font_t, M: hb_ot_layout_t<F>> {
    /// What the shaper keeps in a plan.
    type Data: Drop;

    /// What the constants are.
    ghost constants: { ShaperConstants };

    /// What the hooks do under a plan and over a face.
    ghost hooks: { Self → Plan Self M.Map Self.Data → F → HookMeaning };

    /// What `collect_features` requests, by the builder as it stands.
    ghost collected: { Self → Builder → AnyDirection → Option AnyScript → List AnyRequest };

    /// What `override_features` requests.
    ghost overriding: { Self → Builder → AnyDirection → Option AnyScript → List AnyRequest };

    /// What `create_data` makes for a plan, which has no data yet.
    ghost made_data: { Self → Plan Self M.Map Self.Data → Self.Data };

    ghost IS_DEFAULT: { Bool };

    /// Whether this is the shaper of texts whose script needs nothing of its own.
    const IS_DEFAULT: bool;

    ghost NORMALIZATION_PREFERENCE: { ℤ };

    /// How texts are to be normalised, 0 to 4: see
    /// [`HB_OT_SHAPE_NORMALIZATION_MODE_NONE`](crate::normalization_mode::HB_OT_SHAPE_NORMALIZATION_MODE_NONE)
    /// and the others.
    const NORMALIZATION_PREFERENCE: i32;

    ghost GPOS_TAG: { Option AnyTag };

    /// The script whose positioning lookups the shaper is made for.
    const GPOS_TAG: Option<hb_tag_t>;

    ghost ZERO_WIDTH_MARKS: { ℕ };

    /// When marks lose their advances: 0 to 2.
    const ZERO_WIDTH_MARKS: hb_ot_shape_zero_width_marks_type_t;

    ghost FALLBACK_POSITION: { Bool };

    /// Whether marks are placed by their extents if neither `GPOS` nor `kerx` nor a `kern` across
    /// the line is applied.
    const FALLBACK_POSITION: bool;

    ghost HAS_COLLECT_FEATURES: { Bool };

    ghost HAS_OVERRIDE_FEATURES: { Bool };

    ghost HAS_CREATE_DATA: { Bool };

    ghost HAS_PREPROCESS_TEXT: { Bool };

    ghost HAS_POSTPROCESS_GLYPHS: { Bool };

    ghost HAS_PAUSE: { Bool };

    ghost HAS_DECOMPOSE: { Bool };

    ghost HAS_COMPOSE: { Bool };

    ghost HAS_SETUP_MASKS: { Bool };

    ghost HAS_REORDER_MARKS: { Bool };

    /// Whether `collect_features` is given.
    const HAS_COLLECT_FEATURES: bool;

    /// Whether `override_features` is given.
    const HAS_OVERRIDE_FEATURES: bool;

    /// Whether `create_data` is given.
    const HAS_CREATE_DATA: bool;

    /// Whether `preprocess_text` is given.
    const HAS_PREPROCESS_TEXT: bool;

    /// Whether `postprocess_glyphs` is given.
    const HAS_POSTPROCESS_GLYPHS: bool;

    /// Whether `pause` is given.
    const HAS_PAUSE: bool;

    /// Whether `decompose` is given.
    const HAS_DECOMPOSE: bool;

    /// Whether `compose` is given.
    const HAS_COMPOSE: bool;

    /// Whether `setup_masks` is given.
    const HAS_SETUP_MASKS: bool;

    /// Whether `reorder_marks` is given.
    const HAS_REORDER_MARKS: bool;

    /// The record of the constants has their values.
    ghost constants_agree: { constants ≡ record {
      is_default = IS_DEFAULT;
      preference = NORMALIZATION_PREFERENCE;
      gpos_tag = GPOS_TAG;
      zero_width_marks = ZERO_WIDTH_MARKS;
      fallback_position = FALLBACK_POSITION;
      has_collect_features = HAS_COLLECT_FEATURES;
      has_override_features = HAS_OVERRIDE_FEATURES;
      has_create_data = HAS_CREATE_DATA;
      has_preprocess_text = HAS_PREPROCESS_TEXT;
      has_postprocess_glyphs = HAS_POSTPROCESS_GLYPHS;
      has_pause = HAS_PAUSE;
      has_decompose = HAS_DECOMPOSE;
      has_compose = HAS_COMPOSE;
      has_setup_masks = HAS_SETUP_MASKS;
      has_reorder_marks = HAS_REORDER_MARKS;
    } };

    /// Requests features of the script before those of the user. Refuses with `Memory` alone.
    fn collect_features(
        &self,
        alloc: Global,
        builder: &mut hb_ot_map_builder_t,
        direction: Direction,
        script: Option<Script>,
    ) -> Result<(), ShapeError>
        ensures ok { OnOk result (builder.new
            ≡ with_requests builder.old (collected self.now builder.old direction script)) }
        ensures memory { IfErr result (λ e. e ≡ ShapeError.Memory) };

    /// Requests features after those of the user. Refuses with `Memory` alone.
    fn override_features(
        &self,
        alloc: Global,
        builder: &mut hb_ot_map_builder_t,
        direction: Direction,
        script: Option<Script>,
    ) -> Result<(), ShapeError>
        ensures ok { OnOk result (builder.new
            ≡ with_requests builder.old (overriding self.now builder.old direction script)) }
        ensures memory { IfErr result (λ e. e ≡ ShapeError.Memory) };

    /// Makes what the shaper keeps in a plan. Refuses with `Memory` alone.
    fn create_data(
        &self,
        alloc: Global,
        plan: &hb_ot_shape_plan_t<'_, Self, M::Map, Self::Data>,
    ) -> Result<Self::Data, ShapeError>
        ensures { MatchResult result (λ «data». «data» ≡ made_data self.now plan.now)
            (λ e. e ≡ ShapeError.Memory) };

    /// Changes the text before it is normalised. Refuses with `Length` if the list would pass the
    /// limit, with `Memory` if a growth was refused.
    fn preprocess_text(
        &self,
        alloc: Global,
        plan: &hb_ot_shape_plan_t<'_, Self, M::Map, Self::Data>,
        face: &F,
        buffer: &mut hb_buffer_t,
    ) -> Result<(), ShapeError>
        requires { IsWithinLimit buffer.old }
        ensures { Outcome (step (hooks self.now plan.now face.now).preprocess)
            buffer.old buffer.new result };

    /// Changes the glyphs after they were positioned. Refuses with `Length` if the list would pass
    /// the limit, with `Memory` if a growth was refused.
    fn postprocess_glyphs(
        &self,
        alloc: Global,
        plan: &hb_ot_shape_plan_t<'_, Self, M::Map, Self::Data>,
        face: &F,
        buffer: &mut hb_buffer_t,
    ) -> Result<(), ShapeError>
        requires { IsWithinLimit buffer.old }
        ensures { Outcome (step (hooks self.now plan.now face.now).postprocess)
            buffer.old buffer.new result };

    /// Runs the pause of number `n` between two stages of substitution. Refuses with `Length` if
    /// the list would pass the limit, with `Memory` if a growth was refused.
    fn pause(
        &self,
        alloc: Global,
        n: u32,
        plan: &hb_ot_shape_plan_t<'_, Self, M::Map, Self::Data>,
        face: &F,
        buffer: &mut hb_buffer_t,
    ) -> Result<(), ShapeError>
        requires { IsWithinLimit buffer.old }
        ensures { Outcome (step ((hooks self.now plan.now face.now).pause n))
            buffer.old buffer.new result };

    /// The two parts that a character splits into in one step, in place of Unicode's; the second
    /// one is U+0000 if it has one part alone.
    fn decompose(
        &self,
        plan: &hb_ot_shape_plan_t<'_, Self, M::Map, Self::Data>,
        face: &F,
        c: char,
    ) -> Option<(char, char)>
        ensures { result ≡ (hooks self.now plan.now face.now).split c };

    /// The character that two characters make in one step, in place of Unicode's.
    fn compose(
        &self,
        plan: &hb_ot_shape_plan_t<'_, Self, M::Map, Self::Data>,
        face: &F,
        a: char,
        b: char,
    ) -> Option<char>
        ensures { result ≡ (hooks self.now plan.now face.now).compose a b };

    /// Sets masks before glyphs are substituted.
    fn setup_masks(
        &self,
        plan: &hb_ot_shape_plan_t<'_, Self, M::Map, Self::Data>,
        face: &F,
        buffer: &mut hb_buffer_t,
    )
        ensures { Made (hooks self.now plan.now face.now).setup_masks buffer.old buffer.new };

    /// Puts the items from place `start` up to `end`, at most 32 marks in canonical order, in an
    /// order of the shaper's own. May merge clusters within the run, and give its items other
    /// nonzero ccc.
    fn reorder_marks(
        &self,
        plan: &hb_ot_shape_plan_t<'_, Self, M::Map, Self::Data>,
        buffer: &mut hb_buffer_t,
        start: usize,
        end: usize,
    )
        requires some { start < end }
        requires within { end ≤ length buffer.old.items }
        requires run { IsRunInOrder buffer.old.items start end }
        ensures { (face : F)
            → buffer.new ≡ (hooks self.now plan.now face).reorder buffer.old start end };

    /// The preference and the zero width type are in their ranges.
    ghost lawful_constants: { LawfulConstants constants };

    /// What the author of each hook must provide.
    ghost lawful_hooks: { (shaper : Self) (plan : Plan Self M.Map Self.Data) (face : F)
        → HookObligations (hooks shaper plan face) };
}

/// What a run depends on under a plan and over a face: the meanings that its four type parameters
/// bring, in plain functions. Every shaper has it, and none writes it.
pub trait Runs<U: hb_unicode_funcs_t, F: hb_font_t, M: hb_ot_layout_t<F>>: hb_ot_shaper_t<U, F, M> {
    /// What normalising depends on.
    ghost rules: { Plan Self M.Map Self.Data → F → Rules };

    /// What the whole run depends on.
    ghost run: { Plan Self M.Map Self.Data → F → Run };
}

impl<U: hb_unicode_funcs_t, F: hb_font_t, M: hb_ot_layout_t<F>, S: hb_ot_shaper_t<U, F, M>> Runs<
    U,
    F,
    M,
> for S {
    ghost rules = { rules_of U.unicode S.constants S.hooks F.face };

    ghost run = { run_of U.unicode M.masks M.lookups S.constants S.hooks F.face };
}
