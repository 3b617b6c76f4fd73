//! The shaper: its constants and hooks.
ghost use Rattle.std.specs.Prelude.{◌≡◌, true, false, None, pos, refl};
ghost use Rattle.indic_shaper.specs.Composing.{split, composed, split-falls};
ghost use Rattle.cluster_order.specs.Ordered.{clusters_ordered};
ghost use Rattle.shape_common.specs.Direction.{is_backward};
ghost use Rattle.shape_buffer.specs.Preservation.{LookupsPreserveClusters, LookupsPreserveFlags};
ghost use Rattle.shape_plan.specs.Plan.{Plan};
ghost use Rattle.shape_plan.specs.Preservation.{RunPreservesFlags};
ghost use Rattle.shape_pipeline.specs.Order.{RunOrdersClusters};
ghost use Rattle.indic_shaper.specs.declared.shaper.IndicShaper.{IndicShaper as AnyShaper};
ghost use Rattle.syllabic.specs.Constraints.{vowels_parted};
ghost use Rattle.indic_shaper.specs.Pauses.{made_by_pause};
ghost use Rattle.indic_shaper.specs.Requests.{indic_requests, overriding_requests};

use crate::composing::{composed, split};
use crate::pauses::pause_at;
use crate::requests::{LIGA, ask_basic, ask_basic_more, ask_first, ask_last};
use cluster_order::laws::ordering_orders;
use cluster_order::order_clusters;
use shape_buffer::buffer::{Direction, Script, ShapeError, hb_buffer_t, hb_tag_t};
use shape_buffer::interfaces::{
    hb_font_t, hb_ot_layout_t, hb_ot_map_builder_t, hb_unicode_funcs_t,
};
use shape_pipeline::laws::{given_hooks_preserve, ordering_hooks_preserve};
use shape_pipeline::ot_shape_normalize::HB_OT_SHAPE_NORMALIZATION_MODE_COMPOSED_DIACRITICS_NO_SHORT_CIRCUIT;
use shape_pipeline::ot_shape_plan::hb_ot_shape_plan_t;
use shape_pipeline::ot_shaper::hooks::{
    collect_features_hook, compose_hook, decompose_hook, override_features_hook, pause_hook,
    postprocess_glyphs_hook, preprocess_text_hook,
};
use shape_pipeline::ot_shaper::{
    HB_OT_SHAPE_ZERO_WIDTH_MARKS_NONE, Runs, hb_ot_shaper_t, no_hook, script_shaper,
};
use std::alloc::Global;
use syllabic::constraints::part_vowels;

/// The shaper of texts in a script of India.
#[derive(Clone, Copy, Debug)]
pub struct IndicShaper;

impl<U: hb_unicode_funcs_t, F: hb_font_t, M: hb_ot_layout_t<F>> script_shaper<U, F, M>
    for IndicShaper {
    type Data = ();

    type CollectFeatures = Self;

    type OverrideFeatures = Self;

    type CreateData = no_hook;

    type PreprocessText = Self;

    type PostprocessGlyphs = Self;

    type Pause = Self;

    type Decompose = Self;

    type Compose = Self;

    type SetupMasks = no_hook;

    type ReorderMarks = no_hook;

    ghost IS_DEFAULT = { false };

    const IS_DEFAULT: bool = false;

    ghost NORMALIZATION_PREFERENCE = { pos 3 };

    const NORMALIZATION_PREFERENCE: i32 =
        HB_OT_SHAPE_NORMALIZATION_MODE_COMPOSED_DIACRITICS_NO_SHORT_CIRCUIT;

    ghost GPOS_TAG = { None };

    const GPOS_TAG: Option<hb_tag_t> = None;

    ghost ZERO_WIDTH_MARKS = { 0 };

    const ZERO_WIDTH_MARKS: u32 = HB_OT_SHAPE_ZERO_WIDTH_MARKS_NONE;

    ghost FALLBACK_POSITION = { false };

    const FALLBACK_POSITION: bool = false;

    ghost lawful_preference = { refl };

    ghost lawful_zero_width = { refl };
}

impl collect_features_hook<IndicShaper> for IndicShaper {
    ghost collected = { λ _ _ _ _. indic_requests };

    ghost GIVEN = { true };

    const GIVEN: bool = true;

    fn collect_features(
        _shaper: &IndicShaper,
        _alloc: Global,
        builder: &mut hb_ot_map_builder_t,
        _direction: Direction,
        _script: Option<Script>,
    ) -> Result<(), ShapeError> {
        ask_first(builder)?;
        ask_basic(builder)?;
        ask_basic_more(builder)?;
        ask_last(builder)
    }
}

impl override_features_hook<IndicShaper> for IndicShaper {
    ghost overriding = { λ _ _ _ _. overriding_requests };

    ghost GIVEN = { true };

    const GIVEN: bool = true;

    fn override_features(
        _shaper: &IndicShaper,
        _alloc: Global,
        builder: &mut hb_ot_map_builder_t,
        _direction: Direction,
        _script: Option<Script>,
    ) -> Result<(), ShapeError> {
        builder.disable_feature(LIGA)?;
        builder.add_gsub_pause(None)
    }
}

impl<U: hb_unicode_funcs_t, F: hb_font_t, M: hb_ot_layout_t<F>> preprocess_text_hook<
    IndicShaper,
    (),
    U,
    F,
    M,
> for IndicShaper {
    ghost preprocessed = { λ _ _ _. vowels_parted };

    ghost GIVEN = { true };

    const GIVEN: bool = true;

    fn preprocess_text(
        _shaper: &IndicShaper,
        alloc: Global,
        _plan: &hb_ot_shape_plan_t<'_, IndicShaper, M::Map, ()>,
        _face: &F,
        buffer: &mut hb_buffer_t,
    ) -> Result<(), ShapeError> {
        part_vowels(alloc, buffer)
    }
}

impl<U: hb_unicode_funcs_t, F: hb_font_t, M: hb_ot_layout_t<F>> decompose_hook<
    IndicShaper,
    (),
    U,
    F,
    M,
> for IndicShaper {
    ghost split = { λ _ _ _. split U.unicode };

    ghost height = { λ _ _ _. U.unicode.height };

    ghost GIVEN = { true };

    const GIVEN: bool = true;

    fn decompose(
        _shaper: &IndicShaper,
        _plan: &hb_ot_shape_plan_t<'_, IndicShaper, M::Map, ()>,
        _face: &F,
        c: char,
    ) -> Option<(char, char)> {
        split::<U>(c)
    }

    ghost falls = { λ _ _ _. split-falls U.unicode U.lawful.splits_fall.height_falls };
}

impl<U: hb_unicode_funcs_t, F: hb_font_t, M: hb_ot_layout_t<F>> compose_hook<
    IndicShaper,
    (),
    U,
    F,
    M,
> for IndicShaper {
    ghost compose = { λ _ _ _. composed U.unicode };

    ghost GIVEN = { true };

    const GIVEN: bool = true;

    fn compose(
        _shaper: &IndicShaper,
        _plan: &hb_ot_shape_plan_t<'_, IndicShaper, M::Map, ()>,
        _face: &F,
        a: char,
        b: char,
    ) -> Option<char> {
        composed::<U>(a, b)
    }
}

impl<U: hb_unicode_funcs_t, F: hb_font_t, M: hb_ot_layout_t<F>> pause_hook<IndicShaper, (), U, F, M>
    for IndicShaper {
    ghost paused = { λ _ plan face n. made_by_pause n (F.face face) (M.layout face)
        (M.masks plan.ot_map) (M.lookups plan.ot_map face) plan.script };

    ghost GIVEN = { true };

    const GIVEN: bool = true;

    fn pause(
        _shaper: &IndicShaper,
        alloc: Global,
        n: u32,
        plan: &hb_ot_shape_plan_t<'_, IndicShaper, M::Map, ()>,
        face: &F,
        buffer: &mut hb_buffer_t,
    ) -> Result<(), ShapeError> {
        pause_at::<F, M>(alloc, n, plan.ot_map(), face, plan.script(), buffer)
    }
}

impl<U: hb_unicode_funcs_t, F: hb_font_t, M: hb_ot_layout_t<F>> postprocess_glyphs_hook<
    IndicShaper,
    (),
    U,
    F,
    M,
> for IndicShaper {
    ghost postprocessed = { λ _ plan _. clusters_ordered (is_backward plan.direction) };

    ghost GIVEN = { true };

    const GIVEN: bool = true;

    /// Puts clusters in order: between the pauses signs stand before their base without being in
    /// one cluster with it. The merges of the last pause do so, and nothing is left to do here.
    fn postprocess_glyphs(
        _shaper: &IndicShaper,
        _alloc: Global,
        plan: &hb_ot_shape_plan_t<'_, IndicShaper, M::Map, ()>,
        _face: &F,
        buffer: &mut hb_buffer_t,
    ) -> Result<(), ShapeError> {
        order_clusters(buffer, plan.direction().is_backward());
        Ok(())
    }
}

/// A run by this shaper orders clusters if its engine's lookups preserve them, and preserves flags
/// if they do, whatever the Unicode functions, the plan and the face. Between its pauses clusters
/// may be out of order; `postprocess_glyphs` puts them in order.
pub fn indic_runs_preserve<U: hb_unicode_funcs_t, F: hb_font_t, M: hb_ot_layout_t<F>>()
    ensures clusters { (plan : Plan AnyShaper M.Map Unit) (face : F)
        → let run = ⟦<IndicShaper as Runs<U, F, M>>⟧.run plan face in
        LookupsPreserveClusters run.lookups → RunOrdersClusters run }
    ensures flags { (plan : Plan AnyShaper M.Map Unit) (face : F)
        → let run = ⟦<IndicShaper as Runs<U, F, M>>⟧.run plan face in
        LookupsPreserveFlags run.lookups → RunPreservesFlags run }
{
    ordering_hooks_preserve::<U, F, M, IndicShaper>();
    given_hooks_preserve::<U, F, M, IndicShaper>();
    ordering_orders();
}
