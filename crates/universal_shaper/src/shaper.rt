//! The shaper: its constants and hooks.
ghost use Rattle.std.specs.Prelude.{◌≡◌, true, false, None, pos, refl};
ghost use Rattle.shape_buffer.specs.Preservation.{LookupsPreserveClusters, LookupsPreserveFlags};
ghost use Rattle.shape_plan.specs.Preservation.{RunPreservesFlags};
ghost use Rattle.shape_plan.specs.Plan.{Plan};
ghost use Rattle.shape_pipeline.specs.Order.{RunPreservesClusters};
ghost use Rattle.letter_joining.specs.Forms.{masks_by};
ghost use Rattle.syllabic.specs.Constraints.{vowels_parted};
ghost use Rattle.universal_shaper.specs.Composing.{compose_letters};
ghost use Rattle.universal_shaper.specs.Joining.{joined_if, joined_if-alone};
ghost use Rattle.universal_shaper.specs.Pauses.{made_by_pause};
ghost use Rattle.universal_shaper.specs.Requests.{all_requests};
ghost use Rattle.universal_shaper.specs.declared.shaper.UniversalShaper.{UniversalShaper as AnyShaper};

use crate::composing::compose_letters;
use crate::joining::join_if;
use crate::pauses::pause_at;
use crate::requests::ask_all;
use letter_joining::features::{FIN2, FIN3, FINA, INIT, ISOL, MED2, MEDI};
use letter_joining::forms::FormMasks;
use shape_buffer::buffer::{Direction, Script, ShapeError, hb_buffer_t, hb_tag_t};
use shape_buffer::interfaces::{
    hb_font_t, hb_ot_layout_t, hb_ot_map_builder_t, hb_unicode_funcs_t,
};
use shape_pipeline::laws::given_hooks_preserve;
use shape_pipeline::ot_shape_normalize::HB_OT_SHAPE_NORMALIZATION_MODE_COMPOSED_DIACRITICS_NO_SHORT_CIRCUIT;
use shape_pipeline::ot_shape_plan::hb_ot_shape_plan_t;
use shape_pipeline::ot_shaper::hooks::{
    collect_features_hook, compose_hook, pause_hook, preprocess_text_hook, setup_masks_hook,
};
use shape_pipeline::ot_shaper::{
    HB_OT_SHAPE_ZERO_WIDTH_MARKS_BY_GDEF_EARLY, Runs, hb_ot_shaper_t, no_hook, script_shaper,
};
use std::alloc::Global;
use syllabic::constraints::part_vowels;

/// The shaper of texts by syllables.
#[derive(Clone, Copy, Debug)]
pub struct UniversalShaper;

impl<U: hb_unicode_funcs_t, F: hb_font_t, M: hb_ot_layout_t<F>> script_shaper<U, F, M>
    for UniversalShaper {
    type Data = ();

    type CollectFeatures = Self;

    type OverrideFeatures = no_hook;

    type CreateData = no_hook;

    type PreprocessText = Self;

    type PostprocessGlyphs = no_hook;

    type Pause = Self;

    type Decompose = no_hook;

    type Compose = Self;

    type SetupMasks = Self;

    type ReorderMarks = no_hook;

    ghost IS_DEFAULT = { false };

    const IS_DEFAULT: bool = false;

    ghost NORMALIZATION_PREFERENCE = { pos 3 };

    const NORMALIZATION_PREFERENCE: i32 =
        HB_OT_SHAPE_NORMALIZATION_MODE_COMPOSED_DIACRITICS_NO_SHORT_CIRCUIT;

    ghost GPOS_TAG = { None };

    const GPOS_TAG: Option<hb_tag_t> = None;

    ghost ZERO_WIDTH_MARKS = { 1 };

    const ZERO_WIDTH_MARKS: u32 = HB_OT_SHAPE_ZERO_WIDTH_MARKS_BY_GDEF_EARLY;

    ghost FALLBACK_POSITION = { false };

    const FALLBACK_POSITION: bool = false;

    ghost lawful_preference = { refl };

    ghost lawful_zero_width = { refl };
}

impl collect_features_hook<UniversalShaper> for UniversalShaper {
    ghost collected = { λ _ _ _ _. all_requests };

    ghost GIVEN = { true };

    const GIVEN: bool = true;

    fn collect_features(
        _shaper: &UniversalShaper,
        _alloc: Global,
        builder: &mut hb_ot_map_builder_t,
        _direction: Direction,
        _script: Option<Script>,
    ) -> Result<(), ShapeError> {
        ask_all(builder)
    }
}

impl<U: hb_unicode_funcs_t, F: hb_font_t, M: hb_ot_layout_t<F>> preprocess_text_hook<
    UniversalShaper,
    (),
    U,
    F,
    M,
> for UniversalShaper {
    ghost preprocessed = { λ _ _ _. vowels_parted };

    ghost GIVEN = { true };

    const GIVEN: bool = true;

    fn preprocess_text(
        _shaper: &UniversalShaper,
        alloc: Global,
        _plan: &hb_ot_shape_plan_t<'_, UniversalShaper, M::Map, ()>,
        _face: &F,
        buffer: &mut hb_buffer_t,
    ) -> Result<(), ShapeError> {
        part_vowels(alloc, buffer)
    }
}

impl<U: hb_unicode_funcs_t, F: hb_font_t, M: hb_ot_layout_t<F>> compose_hook<
    UniversalShaper,
    (),
    U,
    F,
    M,
> for UniversalShaper {
    ghost compose = { λ _ _ _. compose_letters U.unicode };

    ghost GIVEN = { true };

    const GIVEN: bool = true;

    fn compose(
        _shaper: &UniversalShaper,
        _plan: &hb_ot_shape_plan_t<'_, UniversalShaper, M::Map, ()>,
        _face: &F,
        a: char,
        b: char,
    ) -> Option<char> {
        compose_letters::<U>(a, b)
    }
}

impl<U: hb_unicode_funcs_t, F: hb_font_t, M: hb_ot_layout_t<F>> setup_masks_hook<
    UniversalShaper,
    (),
    U,
    F,
    M,
> for UniversalShaper {
    ghost masked = { λ _ plan _. joined_if (masks_by (M.masks plan.ot_map).one_mask) plan.script };

    ghost GIVEN = { true };

    const GIVEN: bool = true;

    fn setup_masks(
        _shaper: &UniversalShaper,
        plan: &hb_ot_shape_plan_t<'_, UniversalShaper, M::Map, ()>,
        _face: &F,
        buffer: &mut hb_buffer_t,
    ) {
        let map = plan.ot_map();
        let masks = FormMasks {
            isol: M::get_1_mask(map, ISOL),
            fina: M::get_1_mask(map, FINA),
            fin2: M::get_1_mask(map, FIN2),
            fin3: M::get_1_mask(map, FIN3),
            medi: M::get_1_mask(map, MEDI),
            med2: M::get_1_mask(map, MED2),
            init: M::get_1_mask(map, INIT),
        };
        join_if(masks, plan.script(), buffer);
    }

    ghost masks_alone = { λ _ plan _. joined_if-alone (masks_by (M.masks plan.ot_map).one_mask) plan.script };
}

impl<U: hb_unicode_funcs_t, F: hb_font_t, M: hb_ot_layout_t<F>> pause_hook<
    UniversalShaper,
    (),
    U,
    F,
    M,
> for UniversalShaper {
    ghost paused = { λ _ plan face n. made_by_pause n (M.masks plan.ot_map) plan.script (F.face face) };

    ghost GIVEN = { true };

    const GIVEN: bool = true;

    fn pause(
        _shaper: &UniversalShaper,
        alloc: Global,
        n: u32,
        plan: &hb_ot_shape_plan_t<'_, UniversalShaper, M::Map, ()>,
        face: &F,
        buffer: &mut hb_buffer_t,
    ) -> Result<(), ShapeError> {
        pause_at::<F, M>(alloc, n, plan.ot_map(), plan.script(), face, buffer)
    }
}

/// A run by this shaper preserves clusters if its engine's lookups do, and flags if they do,
/// whatever the Unicode functions, the plan and the face.
pub fn universal_runs_preserve<U: hb_unicode_funcs_t, F: hb_font_t, M: hb_ot_layout_t<F>>()
    ensures clusters { (plan : Plan AnyShaper M.Map Unit) (face : F)
        → let run = ⟦<UniversalShaper as Runs<U, F, M>>⟧.run plan face in
        LookupsPreserveClusters run.lookups → RunPreservesClusters run }
    ensures flags { (plan : Plan AnyShaper M.Map Unit) (face : F)
        → let run = ⟦<UniversalShaper as Runs<U, F, M>>⟧.run plan face in
        LookupsPreserveFlags run.lookups → RunPreservesFlags run }
{
    given_hooks_preserve::<U, F, M, UniversalShaper>();
}

/// What a run takes from the shaper: texts are composed, marks that stand by themselves too (3), a
/// mark loses its width before positioning by its class in GDEF (1) and isn't placed by its box,
/// and positioning lookups of any script serve.
pub fn universal_marks_are_placed<U: hb_unicode_funcs_t, F: hb_font_t, M: hb_ot_layout_t<F>>()
    ensures normalises { ⟦<UniversalShaper as hb_ot_shaper_t<U, F, M>>⟧.constants.preference ≡ pos 3 }
    ensures script { ⟦<UniversalShaper as hb_ot_shaper_t<U, F, M>>⟧.constants.gpos_tag ≡ None }
    ensures own { ⟦<UniversalShaper as hb_ot_shaper_t<U, F, M>>⟧.constants.is_default ≡ false }
    ensures widths { ⟦<UniversalShaper as hb_ot_shaper_t<U, F, M>>⟧.constants.zero_width_marks ≡ 1 }
    ensures places { ⟦<UniversalShaper as hb_ot_shaper_t<U, F, M>>⟧.constants.fallback_position ≡ false }
{}
