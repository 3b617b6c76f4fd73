//! The hook that a shaper does not give.
ghost use Rattle.std.specs.Prelude.{[], false};
ghost use Rattle.shape_plan.specs.Shapers.{no_reordering-reorders, no_masks-alone};

use crate::ot_shape_plan::hb_ot_shape_plan_t;
use crate::ot_shaper::hooks::{
    collect_features_hook, compose_hook, create_data_hook, decompose_hook, override_features_hook,
    pause_hook, postprocess_glyphs_hook, preprocess_text_hook, reorder_marks_hook,
    setup_masks_hook,
};
use shape_buffer::buffer::{Direction, Script, ShapeError, hb_buffer_t};
use shape_buffer::interfaces::{hb_ot_layout_t, hb_ot_map_builder_t, hb_unicode_funcs_t};
use std::alloc::Global;

/// Stands for every hook that a shaper does not give: it is never called, and does what is done
/// without it.
#[derive(Clone, Copy, Debug)]
pub struct no_hook;

impl<S, D, U: hb_unicode_funcs_t, F, M: hb_ot_layout_t<F>> decompose_hook<S, D, U, F, M>
    for no_hook {
    ghost split = { λ _ _ _. U.unicode.split };

    ghost height = { λ _ _ _. U.unicode.height };

    ghost GIVEN = { false };

    const GIVEN: bool = false;

    fn decompose(
        _shaper: &S,
        _plan: &hb_ot_shape_plan_t<'_, S, M::Map, D>,
        _face: &F,
        c: char,
    ) -> Option<(char, char)> {
        U::decompose(c)
    }

    ghost falls = { λ _ _ _. U.lawful.splits_fall.height_falls };
}

impl<S, D, U: hb_unicode_funcs_t, F, M: hb_ot_layout_t<F>> compose_hook<S, D, U, F, M> for no_hook {
    ghost compose = { λ _ _ _. U.unicode.compose };

    ghost GIVEN = { false };

    const GIVEN: bool = false;

    fn compose(
        _shaper: &S,
        _plan: &hb_ot_shape_plan_t<'_, S, M::Map, D>,
        _face: &F,
        a: char,
        b: char,
    ) -> Option<char> {
        U::compose(a, b)
    }
}

impl<S, D, U: hb_unicode_funcs_t, F, M: hb_ot_layout_t<F>> reorder_marks_hook<S, D, U, F, M>
    for no_hook {
    ghost reordered = { λ _ _ b _ _. b };

    ghost GIVEN = { false };

    const GIVEN: bool = false;

    fn reorder_marks(
        _shaper: &S,
        _plan: &hb_ot_shape_plan_t<'_, S, M::Map, D>,
        _buffer: &mut hb_buffer_t,
        _start: usize,
        _end: usize,
    ) {}

    ghost reorders = { λ _ _. no_reordering-reorders };
}

impl<S, D, U: hb_unicode_funcs_t, F, M: hb_ot_layout_t<F>> setup_masks_hook<S, D, U, F, M>
    for no_hook {
    ghost masked = { λ _ _ _ b. b };

    ghost GIVEN = { false };

    const GIVEN: bool = false;

    fn setup_masks(
        _shaper: &S,
        _plan: &hb_ot_shape_plan_t<'_, S, M::Map, D>,
        _face: &F,
        _buffer: &mut hb_buffer_t,
    ) {}

    ghost masks_alone = { λ _ _ _. no_masks-alone };
}

impl<S, D, U: hb_unicode_funcs_t, F, M: hb_ot_layout_t<F>> preprocess_text_hook<S, D, U, F, M>
    for no_hook {
    ghost preprocessed = { λ _ _ _ b. b };

    ghost GIVEN = { false };

    const GIVEN: bool = false;

    fn preprocess_text(
        _shaper: &S,
        _alloc: Global,
        _plan: &hb_ot_shape_plan_t<'_, S, M::Map, D>,
        _face: &F,
        _buffer: &mut hb_buffer_t,
    ) -> Result<(), ShapeError> {
        Ok(())
    }
}

impl<S, D, U: hb_unicode_funcs_t, F, M: hb_ot_layout_t<F>> postprocess_glyphs_hook<S, D, U, F, M>
    for no_hook {
    ghost postprocessed = { λ _ _ _ b. b };

    ghost GIVEN = { false };

    const GIVEN: bool = false;

    fn postprocess_glyphs(
        _shaper: &S,
        _alloc: Global,
        _plan: &hb_ot_shape_plan_t<'_, S, M::Map, D>,
        _face: &F,
        _buffer: &mut hb_buffer_t,
    ) -> Result<(), ShapeError> {
        Ok(())
    }
}

impl<S, D, U: hb_unicode_funcs_t, F, M: hb_ot_layout_t<F>> pause_hook<S, D, U, F, M> for no_hook {
    ghost paused = { λ _ _ _ _ b. b };

    ghost GIVEN = { false };

    const GIVEN: bool = false;

    fn pause(
        _shaper: &S,
        _alloc: Global,
        _n: u32,
        _plan: &hb_ot_shape_plan_t<'_, S, M::Map, D>,
        _face: &F,
        _buffer: &mut hb_buffer_t,
    ) -> Result<(), ShapeError> {
        Ok(())
    }
}

impl<S> collect_features_hook<S> for no_hook {
    ghost collected = { λ _ _ _ _. [] };

    ghost GIVEN = { false };

    const GIVEN: bool = false;

    fn collect_features(
        _shaper: &S,
        _alloc: Global,
        _builder: &mut hb_ot_map_builder_t,
        _direction: Direction,
        _script: Option<Script>,
    ) -> Result<(), ShapeError> {
        Ok(())
    }
}

impl<S> override_features_hook<S> for no_hook {
    ghost overriding = { λ _ _ _ _. [] };

    ghost GIVEN = { false };

    const GIVEN: bool = false;

    fn override_features(
        _shaper: &S,
        _alloc: Global,
        _builder: &mut hb_ot_map_builder_t,
        _direction: Direction,
        _script: Option<Script>,
    ) -> Result<(), ShapeError> {
        Ok(())
    }
}

impl<S, U: hb_unicode_funcs_t, F, M: hb_ot_layout_t<F>> create_data_hook<S, (), U, F, M>
    for no_hook {
    ghost made = { λ _ _. tt };

    ghost GIVEN = { false };

    const GIVEN: bool = false;

    fn create_data(
        _shaper: &S,
        _alloc: Global,
        _plan: &hb_ot_shape_plan_t<'_, S, M::Map, ()>,
    ) -> Result<(), ShapeError> {
        Ok(())
    }
}
