//! Every author's shaper is a shaper of a run: each hook goes to the type that gives it.
ghost use Rattle.std.specs.Prelude.{refl};

use crate::ot_shape_plan::hb_ot_shape_plan_t;
use crate::ot_shaper::hooks::{
    collect_features_hook, compose_hook, create_data_hook, decompose_hook, override_features_hook,
    pause_hook, postprocess_glyphs_hook, preprocess_text_hook, reorder_marks_hook,
    setup_masks_hook,
};
use crate::ot_shaper::{hb_ot_shape_zero_width_marks_type_t, hb_ot_shaper_t, script_shaper};
use shape_buffer::buffer::{Direction, Script, ShapeError, hb_buffer_t, hb_tag_t};
use shape_buffer::interfaces::{
    hb_font_t, hb_ot_layout_t, hb_ot_map_builder_t, hb_unicode_funcs_t,
};
use std::alloc::Global;

impl<
    U: hb_unicode_funcs_t,
    F: hb_font_t,
    M: hb_ot_layout_t<F>,
    S: script_shaper<U, F, M>,
> hb_ot_shaper_t<U, F, M> for S {
    type Data = <S as script_shaper<U, F, M>>::Data;

    ghost constants = { record {
      is_default = S.IS_DEFAULT;
      preference = S.NORMALIZATION_PREFERENCE;
      gpos_tag = S.GPOS_TAG;
      zero_width_marks = S.ZERO_WIDTH_MARKS;
      fallback_position = S.FALLBACK_POSITION;
      has_collect_features = S.CollectFeatures.GIVEN;
      has_override_features = S.OverrideFeatures.GIVEN;
      has_create_data = S.CreateData.GIVEN;
      has_preprocess_text = S.PreprocessText.GIVEN;
      has_postprocess_glyphs = S.PostprocessGlyphs.GIVEN;
      has_pause = S.Pause.GIVEN;
      has_decompose = S.Decompose.GIVEN;
      has_compose = S.Compose.GIVEN;
      has_setup_masks = S.SetupMasks.GIVEN;
      has_reorder_marks = S.ReorderMarks.GIVEN;
    } };

    ghost hooks = { λ shaper plan face. record {
      split = S.Decompose.split shaper plan face;
      height = S.Decompose.height shaper plan face;
      compose = S.Compose.compose shaper plan face;
      reorder = S.ReorderMarks.reordered shaper plan;
      preprocess = S.PreprocessText.preprocessed shaper plan face;
      setup_masks = S.SetupMasks.masked shaper plan face;
      postprocess = S.PostprocessGlyphs.postprocessed shaper plan face;
      pause = S.Pause.paused shaper plan face;
    } };

    ghost collected = { S.CollectFeatures.collected };

    ghost overriding = { S.OverrideFeatures.overriding };

    ghost made_data = { S.CreateData.made };

    ghost IS_DEFAULT = { S.IS_DEFAULT };

    ghost NORMALIZATION_PREFERENCE = { S.NORMALIZATION_PREFERENCE };

    ghost GPOS_TAG = { S.GPOS_TAG };

    ghost ZERO_WIDTH_MARKS = { S.ZERO_WIDTH_MARKS };

    ghost FALLBACK_POSITION = { S.FALLBACK_POSITION };

    ghost HAS_COLLECT_FEATURES = { S.CollectFeatures.GIVEN };

    ghost HAS_OVERRIDE_FEATURES = { S.OverrideFeatures.GIVEN };

    ghost HAS_CREATE_DATA = { S.CreateData.GIVEN };

    ghost HAS_PREPROCESS_TEXT = { S.PreprocessText.GIVEN };

    ghost HAS_POSTPROCESS_GLYPHS = { S.PostprocessGlyphs.GIVEN };

    ghost HAS_PAUSE = { S.Pause.GIVEN };

    ghost HAS_DECOMPOSE = { S.Decompose.GIVEN };

    ghost HAS_COMPOSE = { S.Compose.GIVEN };

    ghost HAS_SETUP_MASKS = { S.SetupMasks.GIVEN };

    ghost HAS_REORDER_MARKS = { S.ReorderMarks.GIVEN };

    const IS_DEFAULT: bool = <S as script_shaper<U, F, M>>::IS_DEFAULT;

    const NORMALIZATION_PREFERENCE: i32 = <S as script_shaper<U, F, M>>::NORMALIZATION_PREFERENCE;

    const GPOS_TAG: Option<hb_tag_t> = <S as script_shaper<U, F, M>>::GPOS_TAG;

    const ZERO_WIDTH_MARKS: hb_ot_shape_zero_width_marks_type_t = <S as script_shaper<
        U,
        F,
        M,
    >>::ZERO_WIDTH_MARKS;

    const FALLBACK_POSITION: bool = <S as script_shaper<U, F, M>>::FALLBACK_POSITION;

    const HAS_COLLECT_FEATURES: bool = S::CollectFeatures::GIVEN;

    const HAS_OVERRIDE_FEATURES: bool = S::OverrideFeatures::GIVEN;

    const HAS_CREATE_DATA: bool = S::CreateData::GIVEN;

    const HAS_PREPROCESS_TEXT: bool = S::PreprocessText::GIVEN;

    const HAS_POSTPROCESS_GLYPHS: bool = S::PostprocessGlyphs::GIVEN;

    const HAS_PAUSE: bool = S::Pause::GIVEN;

    const HAS_DECOMPOSE: bool = S::Decompose::GIVEN;

    const HAS_COMPOSE: bool = S::Compose::GIVEN;

    const HAS_SETUP_MASKS: bool = S::SetupMasks::GIVEN;

    const HAS_REORDER_MARKS: bool = S::ReorderMarks::GIVEN;

    ghost constants_agree = { refl };

    fn collect_features(
        &self,
        alloc: Global,
        builder: &mut hb_ot_map_builder_t,
        direction: Direction,
        script: Option<Script>,
    ) -> Result<(), ShapeError> {
        S::CollectFeatures::collect_features(self, alloc, builder, direction, script)
    }

    fn override_features(
        &self,
        alloc: Global,
        builder: &mut hb_ot_map_builder_t,
        direction: Direction,
        script: Option<Script>,
    ) -> Result<(), ShapeError> {
        S::OverrideFeatures::override_features(self, alloc, builder, direction, script)
    }

    fn create_data(
        &self,
        alloc: Global,
        plan: &hb_ot_shape_plan_t<'_, Self, M::Map, <S as script_shaper<U, F, M>>::Data>,
    ) -> Result<<S as script_shaper<U, F, M>>::Data, ShapeError> {
        S::CreateData::create_data(self, alloc, plan)
    }

    fn preprocess_text(
        &self,
        alloc: Global,
        plan: &hb_ot_shape_plan_t<'_, Self, M::Map, <S as script_shaper<U, F, M>>::Data>,
        face: &F,
        buffer: &mut hb_buffer_t,
    ) -> Result<(), ShapeError> {
        S::PreprocessText::preprocess_text(self, alloc, plan, face, buffer)
    }

    fn postprocess_glyphs(
        &self,
        alloc: Global,
        plan: &hb_ot_shape_plan_t<'_, Self, M::Map, <S as script_shaper<U, F, M>>::Data>,
        face: &F,
        buffer: &mut hb_buffer_t,
    ) -> Result<(), ShapeError> {
        S::PostprocessGlyphs::postprocess_glyphs(self, alloc, plan, face, buffer)
    }

    fn pause(
        &self,
        alloc: Global,
        n: u32,
        plan: &hb_ot_shape_plan_t<'_, Self, M::Map, <S as script_shaper<U, F, M>>::Data>,
        face: &F,
        buffer: &mut hb_buffer_t,
    ) -> Result<(), ShapeError> {
        S::Pause::pause(self, alloc, n, plan, face, buffer)
    }

    fn decompose(
        &self,
        plan: &hb_ot_shape_plan_t<'_, Self, M::Map, <S as script_shaper<U, F, M>>::Data>,
        face: &F,
        c: char,
    ) -> Option<(char, char)> {
        S::Decompose::decompose(self, plan, face, c)
    }

    fn compose(
        &self,
        plan: &hb_ot_shape_plan_t<'_, Self, M::Map, <S as script_shaper<U, F, M>>::Data>,
        face: &F,
        a: char,
        b: char,
    ) -> Option<char> {
        S::Compose::compose(self, plan, face, a, b)
    }

    fn setup_masks(
        &self,
        plan: &hb_ot_shape_plan_t<'_, Self, M::Map, <S as script_shaper<U, F, M>>::Data>,
        face: &F,
        buffer: &mut hb_buffer_t,
    ) {
        S::SetupMasks::setup_masks(self, plan, face, buffer)
    }

    fn reorder_marks(
        &self,
        plan: &hb_ot_shape_plan_t<'_, Self, M::Map, <S as script_shaper<U, F, M>>::Data>,
        buffer: &mut hb_buffer_t,
        start: usize,
        end: usize,
    ) {
        S::ReorderMarks::reorder_marks(self, plan, buffer, start, end)
    }

    ghost lawful_constants = { record {
      preference = S.lawful_preference;
      zero_width = S.lawful_zero_width;
    } };

    ghost lawful_hooks = { λ shaper plan face. record {
      height_falls = S.Decompose.falls shaper plan face;
      reorders = S.ReorderMarks.reorders shaper plan;
      masks_alone = S.SetupMasks.masks_alone shaper plan face;
    } };
}
