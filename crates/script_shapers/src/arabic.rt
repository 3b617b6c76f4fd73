//! The script shaper for Arabic and Syriac. Letters get the forms that their neighbours ask for,
//! and modifier marks step to the front of their letter's marks.
//!
//! The shaper gives five hooks. Signs that stretch over a word (`stch`) are noted at the first
//! pause, and stretched once glyphs have positions. Fonts of Arabic without forms get them at the
//! pause after `rlig`.
ghost use Rattle.std.specs.Prelude.{◌≡◌, true, false, None, pos, refl};
ghost use Rattle.shape_buffer.specs.Preservation.{LookupsPreserveClusters, LookupsPreserveFlags};
ghost use Rattle.shape_plan.specs.Preservation.{RunPreservesFlags};
ghost use Rattle.shape_plan.specs.Plan.{Plan};
ghost use Rattle.shape_pipeline.specs.Order.{RunPreservesClusters};
ghost use Rattle.script_shapers.specs.Worked.ArabicPauses.{WorkedPauses};
ghost use Rattle.script_shapers.specs.Worked.ArabicRequests.{WorkedRequests};
ghost use Rattle.script_shapers.specs.Modifiers.{modifiers_reordered, modifiers_reordered-reorders};
ghost use Rattle.script_shapers.specs.declared.arabic.ArabicShaper.{ArabicShaper as AnyShaper};
ghost use Rattle.letter_joining.specs.Forms.{masks_by};
ghost use Rattle.letter_joining.specs.Flags.{joined, joined-alone};
ghost use Rattle.script_shapers.specs.Worked.Modifiers.{WorkedModifiers};
ghost use Rattle.script_shapers.specs.ArabicRequests.{arabic_requests};
ghost use Rattle.letter_joining.specs.Features.{is_mongolian};
ghost use Rattle.shape_buffer.specs.Outcome.{IsWithinLimit, Outcome, step};
ghost use Rattle.arabic_fallback.specs.Classes.{class_by};
ghost use Rattle.arabic_stretching.specs.Stretching.{stretched};
ghost use Rattle.script_shapers.specs.ArabicPauses.{made_by_pause};

mod modifiers;
mod pauses;
mod requests;

use arabic_stretching::stretch_tiles;
use letter_joining::features::{FIN2, FIN3, FINA, INIT, ISOL, MED2, MEDI, is_mongolian};
use letter_joining::forms::FormMasks;
use letter_joining::join_all;
use modifiers::reorder_modifiers;
use pauses::pause_at;
use requests::{ask_final_forms, ask_first, ask_last, ask_other_forms, has_fallback};
use shape_buffer::buffer::{Direction, Script, ShapeError, hb_buffer_t, hb_tag_t};
use shape_buffer::interfaces::{
    hb_font_t, hb_ot_layout_t, hb_ot_map_builder_t, hb_unicode_funcs_t,
};
use shape_pipeline::laws::given_hooks_preserve;
use shape_pipeline::ot_shape_normalize::HB_OT_SHAPE_NORMALIZATION_MODE_AUTO;
use shape_pipeline::ot_shape_plan::hb_ot_shape_plan_t;
use shape_pipeline::ot_shaper::hooks::{
    collect_features_hook, pause_hook, postprocess_glyphs_hook, reorder_marks_hook,
    setup_masks_hook,
};
use shape_pipeline::ot_shaper::{
    HB_OT_SHAPE_ZERO_WIDTH_MARKS_BY_GDEF_LATE, Runs, hb_ot_shaper_t, no_hook, script_shaper,
};
use std::alloc::Global;

/// The shaper of texts in Arabic script, or one that joins as it does.
#[derive(Clone, Copy, Debug)]
pub struct ArabicShaper;

impl<U: hb_unicode_funcs_t, F: hb_font_t, M: hb_ot_layout_t<F>> script_shaper<U, F, M>
    for ArabicShaper {
    type Data = ();

    type CollectFeatures = Self;

    type OverrideFeatures = no_hook;

    type CreateData = no_hook;

    type PreprocessText = no_hook;

    type PostprocessGlyphs = Self;

    type Pause = Self;

    type Decompose = no_hook;

    type Compose = no_hook;

    type SetupMasks = Self;

    type ReorderMarks = Self;

    ghost IS_DEFAULT = { false };

    const IS_DEFAULT: bool = false;

    ghost NORMALIZATION_PREFERENCE = { pos 4 };

    const NORMALIZATION_PREFERENCE: i32 = HB_OT_SHAPE_NORMALIZATION_MODE_AUTO;

    ghost GPOS_TAG = { None };

    const GPOS_TAG: Option<hb_tag_t> = None;

    ghost ZERO_WIDTH_MARKS = { 2 };

    const ZERO_WIDTH_MARKS: u32 = HB_OT_SHAPE_ZERO_WIDTH_MARKS_BY_GDEF_LATE;

    ghost FALLBACK_POSITION = { true };

    const FALLBACK_POSITION: bool = true;

    ghost lawful_preference = { refl };

    ghost lawful_zero_width = { refl };
}

impl collect_features_hook<ArabicShaper> for ArabicShaper {
    ghost collected = { λ _ _ _ script. arabic_requests script };

    ghost GIVEN = { true };

    const GIVEN: bool = true;

    fn collect_features(
        _shaper: &ArabicShaper,
        _alloc: Global,
        builder: &mut hb_ot_map_builder_t,
        _direction: Direction,
        script: Option<Script>,
    ) -> Result<(), ShapeError> {
        let fallback = has_fallback(script);
        ask_first(builder)?;
        ask_final_forms(builder, fallback)?;
        ask_other_forms(builder, fallback)?;
        ask_last(builder, script)
    }
}

impl<U: hb_unicode_funcs_t, F, M: hb_ot_layout_t<F>> setup_masks_hook<ArabicShaper, (), U, F, M>
    for ArabicShaper {
    ghost masked = { λ _ plan _. joined (masks_by (M.masks plan.ot_map).one_mask) (is_mongolian plan.script) };

    ghost GIVEN = { true };

    const GIVEN: bool = true;

    fn setup_masks(
        _shaper: &ArabicShaper,
        plan: &hb_ot_shape_plan_t<'_, ArabicShaper, M::Map, ()>,
        _face: &F,
        buffer: &mut hb_buffer_t,
    ) {
        let map = plan.ot_map();
        let masks = FormMasks {
            isol: M::get_1_mask(map, ISOL),
            fina: M::get_1_mask(map, FINA),
            fin2: M::get_1_mask(map, FIN2),
            fin3: M::get_1_mask(map, FIN3),
            medi: M::get_1_mask(map, MEDI),
            med2: M::get_1_mask(map, MED2),
            init: M::get_1_mask(map, INIT),
        };
        join_all(masks, is_mongolian(plan.script()), buffer);
    }

    ghost masks_alone = { λ _ plan _. joined-alone (masks_by (M.masks plan.ot_map).one_mask) (is_mongolian plan.script) };
}

impl<U: hb_unicode_funcs_t, F, M: hb_ot_layout_t<F>> reorder_marks_hook<ArabicShaper, (), U, F, M>
    for ArabicShaper {
    ghost reordered = { λ _ _. modifiers_reordered };

    ghost GIVEN = { true };

    const GIVEN: bool = true;

    fn reorder_marks(
        _shaper: &ArabicShaper,
        _plan: &hb_ot_shape_plan_t<'_, ArabicShaper, M::Map, ()>,
        buffer: &mut hb_buffer_t,
        start: usize,
        end: usize,
    ) {
        reorder_modifiers(buffer, start, end);
    }

    ghost reorders = { λ _ _. modifiers_reordered-reorders };
}

impl<U: hb_unicode_funcs_t, F: hb_font_t, M: hb_ot_layout_t<F>> pause_hook<
    ArabicShaper,
    (),
    U,
    F,
    M,
> for ArabicShaper {
    ghost paused = { λ _ plan face n. made_by_pause n (M.masks plan.ot_map) (F.face face)
        (class_by (M.layout face).has_glyph_classes (M.lookups plan.ot_map face).substitute_start) };

    ghost GIVEN = { true };

    const GIVEN: bool = true;

    fn pause(
        _shaper: &ArabicShaper,
        alloc: Global,
        n: u32,
        plan: &hb_ot_shape_plan_t<'_, ArabicShaper, M::Map, ()>,
        face: &F,
        buffer: &mut hb_buffer_t,
    ) -> Result<(), ShapeError> {
        pause_at::<F, M>(alloc, n, plan.ot_map(), face, buffer)
    }
}

impl<U: hb_unicode_funcs_t, F: hb_font_t, M: hb_ot_layout_t<F>> postprocess_glyphs_hook<
    ArabicShaper,
    (),
    U,
    F,
    M,
> for ArabicShaper {
    ghost postprocessed = { λ _ _ face. stretched (F.face face) };

    ghost GIVEN = { true };

    const GIVEN: bool = true;

    fn postprocess_glyphs(
        _shaper: &ArabicShaper,
        alloc: Global,
        _plan: &hb_ot_shape_plan_t<'_, ArabicShaper, M::Map, ()>,
        face: &F,
        buffer: &mut hb_buffer_t,
    ) -> Result<(), ShapeError> {
        stretch_tiles(alloc, face, buffer)
    }
}

/// A run by this shaper preserves clusters if its engine's lookups do, and flags if they do,
/// whatever the Unicode functions, the plan and the face.
pub fn arabic_runs_preserve<U: hb_unicode_funcs_t, F: hb_font_t, M: hb_ot_layout_t<F>>()
    ensures clusters { (plan : Plan AnyShaper M.Map Unit) (face : F)
        → let run = ⟦<ArabicShaper as Runs<U, F, M>>⟧.run plan face in
        LookupsPreserveClusters run.lookups → RunPreservesClusters run }
    ensures flags { (plan : Plan AnyShaper M.Map Unit) (face : F)
        → let run = ⟦<ArabicShaper as Runs<U, F, M>>⟧.run plan face in
        LookupsPreserveFlags run.lookups → RunPreservesFlags run }
{
    given_hooks_preserve::<U, F, M, ArabicShaper>();
}

/// Which marks step to the front of a run, which don't, and their clusters, on runs worked out by
/// hand.
pub fn modifiers_meet_worked_cases()
    ensures { WorkedModifiers }
{}

/// What a run takes from the shaper: marks lose their widths late, whatever their class (2), and
/// are placed by their boxes if no table places them; positioning lookups of any script serve;
/// texts are normalised as the font's tables ask (4).
pub fn arabic_marks_are_placed<U: hb_unicode_funcs_t, F: hb_font_t, M: hb_ot_layout_t<F>>()
    ensures normalises { ⟦<ArabicShaper as hb_ot_shaper_t<U, F, M>>⟧.constants.preference ≡ pos 4 }
    ensures script { ⟦<ArabicShaper as hb_ot_shaper_t<U, F, M>>⟧.constants.gpos_tag ≡ None }
    ensures own { ⟦<ArabicShaper as hb_ot_shaper_t<U, F, M>>⟧.constants.is_default ≡ false }
    ensures widths { ⟦<ArabicShaper as hb_ot_shaper_t<U, F, M>>⟧.constants.zero_width_marks ≡ 2 }
    ensures places { ⟦<ArabicShaper as hb_ot_shaper_t<U, F, M>>⟧.constants.fallback_position ≡ true }
{}

/// The features of Arabic and Syriac, and their stages.
pub fn requests_meet_worked_cases()
    ensures { WorkedRequests }
{}

/// When tiles are noted, when forms are made for fonts without them, and by which masks.
pub fn pauses_meet_worked_cases()
    ensures { WorkedPauses }
{}
