//! The shaper: its constants and hooks.
ghost use Rattle.std.specs.Prelude.{◌≡◌, true, false, None, pos, refl};
ghost use Rattle.shape_buffer.specs.Preservation.{LookupsPreserveClusters, LookupsPreserveFlags};
ghost use Rattle.shape_plan.specs.Preservation.{RunPreservesFlags};
ghost use Rattle.shape_plan.specs.Plan.{Plan};
ghost use Rattle.shape_pipeline.specs.Order.{RunPreservesClusters};
ghost use Rattle.khmer_shaper.specs.Falling.{split-falls};
ghost use Rattle.khmer_shaper.specs.Splitting.{compose_letters, split, height};
ghost use Rattle.khmer_shaper.specs.Pauses.{made_by_pause};
ghost use Rattle.khmer_shaper.specs.Requests.{all_requests, overriding_requests};
ghost use Rattle.khmer_shaper.specs.declared.shaper.KhmerShaper.{KhmerShaper as AnyShaper};

use crate::pauses::pause_at;
use crate::requests::{ask_all, ask_overriding};
use crate::splitting::{compose_letters, split};
use shape_buffer::buffer::{Direction, Script, ShapeError, hb_buffer_t, hb_tag_t};
use shape_buffer::interfaces::{
    hb_font_t, hb_ot_layout_t, hb_ot_map_builder_t, hb_unicode_funcs_t,
};
use shape_pipeline::laws::given_hooks_preserve;
use shape_pipeline::ot_shape_normalize::HB_OT_SHAPE_NORMALIZATION_MODE_COMPOSED_DIACRITICS_NO_SHORT_CIRCUIT;
use shape_pipeline::ot_shape_plan::hb_ot_shape_plan_t;
use shape_pipeline::ot_shaper::hooks::{
    collect_features_hook, compose_hook, decompose_hook, override_features_hook, pause_hook,
};
use shape_pipeline::ot_shaper::{
    HB_OT_SHAPE_ZERO_WIDTH_MARKS_NONE, Runs, hb_ot_shaper_t, no_hook, script_shaper,
};
use std::alloc::Global;

/// The shaper of texts in Khmer.
#[derive(Clone, Copy, Debug)]
pub struct KhmerShaper;

impl<U: hb_unicode_funcs_t, F: hb_font_t, M: hb_ot_layout_t<F>> script_shaper<U, F, M>
    for KhmerShaper {
    type Data = ();

    type CollectFeatures = Self;

    type OverrideFeatures = Self;

    type CreateData = no_hook;

    type PreprocessText = no_hook;

    type PostprocessGlyphs = no_hook;

    type Pause = Self;

    type Decompose = Self;

    type Compose = Self;

    type SetupMasks = no_hook;

    type ReorderMarks = no_hook;

    ghost IS_DEFAULT = { false };

    const IS_DEFAULT: bool = false;

    ghost NORMALIZATION_PREFERENCE = { pos 3 };

    const NORMALIZATION_PREFERENCE: i32 =
        HB_OT_SHAPE_NORMALIZATION_MODE_COMPOSED_DIACRITICS_NO_SHORT_CIRCUIT;

    ghost GPOS_TAG = { None };

    const GPOS_TAG: Option<hb_tag_t> = None;

    ghost ZERO_WIDTH_MARKS = { 0 };

    const ZERO_WIDTH_MARKS: u32 = HB_OT_SHAPE_ZERO_WIDTH_MARKS_NONE;

    ghost FALLBACK_POSITION = { false };

    const FALLBACK_POSITION: bool = false;

    ghost lawful_preference = { refl };

    ghost lawful_zero_width = { refl };
}

impl collect_features_hook<KhmerShaper> for KhmerShaper {
    ghost collected = { λ _ _ _ _. all_requests };

    ghost GIVEN = { true };

    const GIVEN: bool = true;

    fn collect_features(
        _shaper: &KhmerShaper,
        _alloc: Global,
        builder: &mut hb_ot_map_builder_t,
        _direction: Direction,
        _script: Option<Script>,
    ) -> Result<(), ShapeError> {
        ask_all(builder)
    }
}

impl override_features_hook<KhmerShaper> for KhmerShaper {
    ghost overriding = { λ _ _ _ _. overriding_requests };

    ghost GIVEN = { true };

    const GIVEN: bool = true;

    fn override_features(
        _shaper: &KhmerShaper,
        _alloc: Global,
        builder: &mut hb_ot_map_builder_t,
        _direction: Direction,
        _script: Option<Script>,
    ) -> Result<(), ShapeError> {
        ask_overriding(builder)
    }
}

impl<U: hb_unicode_funcs_t, F: hb_font_t, M: hb_ot_layout_t<F>> decompose_hook<
    KhmerShaper,
    (),
    U,
    F,
    M,
> for KhmerShaper {
    ghost split = { λ _ _ _. split U.unicode };

    ghost height = { λ _ _ _. height U.unicode };

    ghost GIVEN = { true };

    const GIVEN: bool = true;

    fn decompose(
        _shaper: &KhmerShaper,
        _plan: &hb_ot_shape_plan_t<'_, KhmerShaper, M::Map, ()>,
        _face: &F,
        c: char,
    ) -> Option<(char, char)> {
        split::<U>(c)
    }

    ghost falls = { λ _ _ _. split-falls U.unicode U.lawful };
}

impl<U: hb_unicode_funcs_t, F: hb_font_t, M: hb_ot_layout_t<F>> compose_hook<
    KhmerShaper,
    (),
    U,
    F,
    M,
> for KhmerShaper {
    ghost compose = { λ _ _ _. compose_letters U.unicode };

    ghost GIVEN = { true };

    const GIVEN: bool = true;

    fn compose(
        _shaper: &KhmerShaper,
        _plan: &hb_ot_shape_plan_t<'_, KhmerShaper, M::Map, ()>,
        _face: &F,
        a: char,
        b: char,
    ) -> Option<char> {
        compose_letters::<U>(a, b)
    }
}

impl<U: hb_unicode_funcs_t, F: hb_font_t, M: hb_ot_layout_t<F>> pause_hook<KhmerShaper, (), U, F, M>
    for KhmerShaper {
    ghost paused = { λ _ plan face n. made_by_pause n (M.masks plan.ot_map) (F.face face) };

    ghost GIVEN = { true };

    const GIVEN: bool = true;

    fn pause(
        _shaper: &KhmerShaper,
        alloc: Global,
        n: u32,
        plan: &hb_ot_shape_plan_t<'_, KhmerShaper, M::Map, ()>,
        face: &F,
        buffer: &mut hb_buffer_t,
    ) -> Result<(), ShapeError> {
        pause_at::<F, M>(alloc, n, plan.ot_map(), face, buffer)
    }
}

/// A run by this shaper preserves clusters if its engine's lookups do, and flags if they do,
/// whatever the Unicode functions, the plan and the face.
pub fn khmer_runs_preserve<U: hb_unicode_funcs_t, F: hb_font_t, M: hb_ot_layout_t<F>>()
    ensures clusters { (plan : Plan AnyShaper M.Map Unit) (face : F)
        → let run = ⟦<KhmerShaper as Runs<U, F, M>>⟧.run plan face in
        LookupsPreserveClusters run.lookups → RunPreservesClusters run }
    ensures flags { (plan : Plan AnyShaper M.Map Unit) (face : F)
        → let run = ⟦<KhmerShaper as Runs<U, F, M>>⟧.run plan face in
        LookupsPreserveFlags run.lookups → RunPreservesFlags run }
{
    given_hooks_preserve::<U, F, M, KhmerShaper>();
}

/// What a run takes from the shaper: texts are decomposed, and letters composed with their marks
/// again (3); marks keep their widths (0) and aren't placed by their boxes; positioning lookups of
/// any script serve.
pub fn khmer_marks_are_placed<U: hb_unicode_funcs_t, F: hb_font_t, M: hb_ot_layout_t<F>>()
    ensures normalises { ⟦<KhmerShaper as hb_ot_shaper_t<U, F, M>>⟧.constants.preference ≡ pos 3 }
    ensures script { ⟦<KhmerShaper as hb_ot_shaper_t<U, F, M>>⟧.constants.gpos_tag ≡ None }
    ensures own { ⟦<KhmerShaper as hb_ot_shaper_t<U, F, M>>⟧.constants.is_default ≡ false }
    ensures widths { ⟦<KhmerShaper as hb_ot_shaper_t<U, F, M>>⟧.constants.zero_width_marks ≡ 0 }
    ensures places { ⟦<KhmerShaper as hb_ot_shaper_t<U, F, M>>⟧.constants.fallback_position ≡ false }
{}
