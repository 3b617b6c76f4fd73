//! The script shaper for Thai and Lao: SARA AM is taken apart into NIKHAHIT and SARA AA, and the
//! first of them stands before the marks above the base, in one cluster with what it steps over.
//!
//! The shaper gives one hook. Fonts of Thai without `GSUB` may have forms of marks and letters at
//! private characters: the same hook puts these in.
ghost use Rattle.std.specs.Prelude.{◌≡◌, true, false, None, pos, refl};
ghost use Rattle.shape_buffer.specs.Preservation.{LookupsPreserveClusters, LookupsPreserveFlags};
ghost use Rattle.shape_plan.specs.Preservation.{RunPreservesFlags};
ghost use Rattle.shape_plan.specs.Plan.{Plan};
ghost use Rattle.shape_pipeline.specs.Order.{RunPreservesClusters};
ghost use Rattle.script_shapers.specs.Worked.Thai.{WorkedThai};
ghost use Rattle.script_shapers.specs.Worked.ThaiForms.{WorkedThaiForms};
ghost use Rattle.shape_buffer.specs.Outcome.{Outcome, step};
ghost use Rattle.shape_buffer.specs.declared.interfaces.map_request.TableIndex.TheVariants.{GSUB};
ghost use Rattle.script_shapers.specs.ThaiForms.{is_own, is_thai, forms_due, thai_text};
ghost use Rattle.script_shapers.specs.declared.thai.ThaiShaper.{ThaiShaper as AnyShaper};

mod forms;
mod sara_am;

use forms::form_all;
use sara_am::part_sara_am;
use shape_buffer::buffer::{Script, ShapeError, hb_buffer_t, hb_tag_t};
use shape_buffer::interfaces::{TableIndex, hb_font_t, hb_ot_layout_t, hb_unicode_funcs_t};
use shape_pipeline::laws::given_hooks_preserve;
use shape_pipeline::ot_shape_normalize::HB_OT_SHAPE_NORMALIZATION_MODE_AUTO;
use shape_pipeline::ot_shape_plan::hb_ot_shape_plan_t;
use shape_pipeline::ot_shaper::hooks::preprocess_text_hook;
use shape_pipeline::ot_shaper::{
    HB_OT_SHAPE_ZERO_WIDTH_MARKS_BY_GDEF_LATE, Runs, hb_ot_shaper_t, no_hook, script_shaper,
};
use std::alloc::Global;

/// The shaper of texts in Thai or Lao script.
#[derive(Clone, Copy, Debug)]
pub struct ThaiShaper;

impl<U: hb_unicode_funcs_t, F: hb_font_t, M: hb_ot_layout_t<F>> script_shaper<U, F, M>
    for ThaiShaper {
    type Data = ();

    type CollectFeatures = no_hook;

    type OverrideFeatures = no_hook;

    type CreateData = no_hook;

    type PreprocessText = Self;

    type PostprocessGlyphs = no_hook;

    type Pause = no_hook;

    type Decompose = no_hook;

    type Compose = no_hook;

    type SetupMasks = no_hook;

    type ReorderMarks = no_hook;

    ghost IS_DEFAULT = { false };

    const IS_DEFAULT: bool = false;

    ghost NORMALIZATION_PREFERENCE = { pos 4 };

    const NORMALIZATION_PREFERENCE: i32 = HB_OT_SHAPE_NORMALIZATION_MODE_AUTO;

    ghost GPOS_TAG = { None };

    const GPOS_TAG: Option<hb_tag_t> = None;

    ghost ZERO_WIDTH_MARKS = { 2 };

    const ZERO_WIDTH_MARKS: u32 = HB_OT_SHAPE_ZERO_WIDTH_MARKS_BY_GDEF_LATE;

    ghost FALLBACK_POSITION = { false };

    const FALLBACK_POSITION: bool = false;

    ghost lawful_preference = { refl };

    ghost lawful_zero_width = { refl };
}

/// Whether a script of `GSUB` is one of Thai, and not one that stands for any script.
fn is_own(chosen: Option<hb_tag_t>) -> bool
    ensures { result ≡ is_own chosen }
{
    match chosen {
        Some(tag) => !(tag.0 == 0x4446_4C54 || tag.0 == 0x6466_6C74 || tag.0 == 0x6C61_746E),
        None => false,
    }
}

fn is_thai(script: Option<Script>) -> bool
    ensures { result ≡ is_thai script }
{
    match script {
        Some(script) => script.0.0 == 0x5468_6169,
        None => false,
    }
}

/// Whether a text gets forms of private characters: in Thai, if the font has no `GSUB` for it.
fn forms_due(script: Option<Script>, chosen: Option<hb_tag_t>) -> bool
    ensures { result ≡ forms_due script chosen }
{
    is_thai(script) && !is_own(chosen)
}

/// Takes each SARA AM of a text apart, and puts marks and letters in their forms if these are due.
fn shape_text<F: hb_font_t>(
    alloc: Global,
    face: &F,
    due: bool,
    buffer: &mut hb_buffer_t,
) -> Result<(), ShapeError>
    ensures { Outcome (step (thai_text due (F.face face.now))) buffer.old buffer.new result }
{
    part_sara_am(alloc, buffer)?;
    if due {
        form_all(face, buffer);
    }
    Ok(())
}

impl<U: hb_unicode_funcs_t, F: hb_font_t, M: hb_ot_layout_t<F>> preprocess_text_hook<
    ThaiShaper,
    (),
    U,
    F,
    M,
> for ThaiShaper {
    ghost preprocessed = { λ _ plan face. thai_text
        (forms_due plan.script ((M.layout face).chosen_script plan.script None GSUB)) (F.face face) };

    ghost GIVEN = { true };

    const GIVEN: bool = true;

    fn preprocess_text(
        _shaper: &ThaiShaper,
        alloc: Global,
        plan: &hb_ot_shape_plan_t<'_, ThaiShaper, M::Map, ()>,
        face: &F,
        buffer: &mut hb_buffer_t,
    ) -> Result<(), ShapeError> {
        let script = plan.script();
        let chosen = M::chosen_script(face, script, None, TableIndex::GSUB);
        shape_text(alloc, face, forms_due(script, chosen), buffer)
    }
}

/// A run by this shaper preserves clusters if its engine's lookups do, and flags if they do,
/// whatever the Unicode functions, the plan and the face.
pub fn thai_runs_preserve<U: hb_unicode_funcs_t, F: hb_font_t, M: hb_ot_layout_t<F>>()
    ensures clusters { (plan : Plan AnyShaper M.Map Unit) (face : F)
        → let run = ⟦<ThaiShaper as Runs<U, F, M>>⟧.run plan face in
        LookupsPreserveClusters run.lookups → RunPreservesClusters run }
    ensures flags { (plan : Plan AnyShaper M.Map Unit) (face : F)
        → let run = ⟦<ThaiShaper as Runs<U, F, M>>⟧.run plan face in
        LookupsPreserveFlags run.lookups → RunPreservesFlags run }
{
    given_hooks_preserve::<U, F, M, ThaiShaper>();
}

/// What a run takes from the shaper: marks lose their widths late, whatever their class (2), and
/// aren't placed by their boxes; positioning lookups of any script serve; texts are normalised as
/// the font's tables ask (4).
pub fn thai_marks_are_placed<U: hb_unicode_funcs_t, F: hb_font_t, M: hb_ot_layout_t<F>>()
    ensures normalises { ⟦<ThaiShaper as hb_ot_shaper_t<U, F, M>>⟧.constants.preference ≡ pos 4 }
    ensures script { ⟦<ThaiShaper as hb_ot_shaper_t<U, F, M>>⟧.constants.gpos_tag ≡ None }
    ensures own { ⟦<ThaiShaper as hb_ot_shaper_t<U, F, M>>⟧.constants.is_default ≡ false }
    ensures widths { ⟦<ThaiShaper as hb_ot_shaper_t<U, F, M>>⟧.constants.zero_width_marks ≡ 2 }
    ensures places { ⟦<ThaiShaper as hb_ot_shaper_t<U, F, M>>⟧.constants.fallback_position ≡ false }
{}

/// SARA AM after letters and marks, at each level of clusters.
pub fn sara_am_meets_worked_cases()
    ensures { WorkedThai }
{}

/// Marks and letters in their private forms, and when these are due.
pub fn forms_meet_worked_cases()
    ensures { WorkedThaiForms }
{}
