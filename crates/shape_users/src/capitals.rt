//! A script shaper that asks for a feature and switches it on where it is due: `c2sc`, small
//! letters in place of capitals, for the capitals of ASCII.
//!
//! It gives two of the ten hooks, those that a shaper gives which joins letters or finds syllables.
//! `collect_features` requests the feature, which is off then; `setup_masks` asks the plan's map
//! for the bits that switch it on, and sets them. That masks alone change is the law of its trait,
//! and clusters are kept by it: [`capitals_preserve_clusters`].
ghost use Rattle.std.specs.Prelude.{◌≡◌, ◌∷◌, [], true, false, None, pos, refl};
ghost use Rattle.shape_buffer.specs.Preservation.{LookupsPreserveClusters};
ghost use Rattle.shape_buffer.specs.MapBuilder.{feature};
ghost use Rattle.shape_buffer.specs.Outcome.{Made};
ghost use Rattle.shape_plan.specs.Plan.{Plan};
ghost use Rattle.shape_pipeline.specs.Order.{RunPreservesClusters};
ghost use Rattle.shape_users.specs.Capitals.{capital_marked, capitals_marked, capitals_marked-alone};
ghost use Rattle.shape_users.specs.Worked.Capitals.{WorkedCapitals};
ghost use Rattle.shape_users.specs.declared.capitals.TheConstants.{C2SC};
ghost use Rattle.shape_users.specs.declared.capitals.CapitalsShaper.{CapitalsShaper as AnyShaper};

use shape_buffer::buffer::{
    Direction, Script, ShapeError, hb_buffer_t, hb_glyph_info_t, hb_mask_t, hb_tag_t,
};
use shape_buffer::interfaces::{
    F_NONE, hb_font_t, hb_ot_layout_t, hb_ot_map_builder_t, hb_unicode_funcs_t,
};
use shape_buffer::walks::update_items;
use shape_pipeline::laws::given_hooks_preserve;
use shape_pipeline::ot_shape_normalize::HB_OT_SHAPE_NORMALIZATION_MODE_AUTO;
use shape_pipeline::ot_shape_plan::hb_ot_shape_plan_t;
use shape_pipeline::ot_shaper::hooks::{collect_features_hook, setup_masks_hook};
use shape_pipeline::ot_shaper::{
    HB_OT_SHAPE_ZERO_WIDTH_MARKS_BY_GDEF_LATE, Runs, no_hook, script_shaper,
};
use std::alloc::Global;

/// The feature that puts small capitals in place of capitals.
pub const C2SC: hb_tag_t = hb_tag_t(0x6332_7363);

/// The shaper of texts whose capitals are to be small ones.
#[derive(Clone, Copy, Debug)]
pub struct CapitalsShaper;

/// An item with these bits in its mask, if it is a capital of ASCII.
fn capital_marked(mask: hb_mask_t, info: &hb_glyph_info_t) -> hb_glyph_info_t
    ensures { result ≡ capital_marked mask info.now }
{
    let mut info = *info;
    if 'A' <= info.codepoint && info.codepoint <= 'Z' {
        info.mask |= mask;
    }
    info
}

/// Sets these bits in the masks of capitals.
fn mark_capitals(mask: hb_mask_t, buffer: &mut hb_buffer_t)
    ensures { Made (capitals_marked mask) buffer.old buffer.new }
{
    update_items(buffer, |info| capital_marked(mask, info));
}

impl<U: hb_unicode_funcs_t, F: hb_font_t, M: hb_ot_layout_t<F>> script_shaper<U, F, M>
    for CapitalsShaper {
    type Data = ();

    type CollectFeatures = Self;

    type OverrideFeatures = no_hook;

    type CreateData = no_hook;

    type PreprocessText = no_hook;

    type PostprocessGlyphs = no_hook;

    type Pause = no_hook;

    type Decompose = no_hook;

    type Compose = no_hook;

    type SetupMasks = Self;

    type ReorderMarks = no_hook;

    ghost IS_DEFAULT = { false };

    const IS_DEFAULT: bool = false;

    ghost NORMALIZATION_PREFERENCE = { pos 4 };

    const NORMALIZATION_PREFERENCE: i32 = HB_OT_SHAPE_NORMALIZATION_MODE_AUTO;

    ghost GPOS_TAG = { None };

    const GPOS_TAG: Option<hb_tag_t> = None;

    ghost ZERO_WIDTH_MARKS = { 2 };

    const ZERO_WIDTH_MARKS: u32 = HB_OT_SHAPE_ZERO_WIDTH_MARKS_BY_GDEF_LATE;

    ghost FALLBACK_POSITION = { true };

    const FALLBACK_POSITION: bool = true;

    ghost lawful_preference = { refl };

    ghost lawful_zero_width = { refl };
}

impl collect_features_hook<CapitalsShaper> for CapitalsShaper {
    ghost collected = { λ _ _ _ _. feature C2SC 0 1 ∷ [] };

    ghost GIVEN = { true };

    const GIVEN: bool = true;

    fn collect_features(
        _shaper: &CapitalsShaper,
        _alloc: Global,
        builder: &mut hb_ot_map_builder_t,
        _direction: Direction,
        _script: Option<Script>,
    ) -> Result<(), ShapeError> {
        builder.add_feature(C2SC, F_NONE, 1)
    }
}

impl<U: hb_unicode_funcs_t, F, M: hb_ot_layout_t<F>> setup_masks_hook<CapitalsShaper, (), U, F, M>
    for CapitalsShaper {
    ghost masked = { λ _ plan _. capitals_marked ((M.masks plan.ot_map).one_mask C2SC) };

    ghost GIVEN = { true };

    const GIVEN: bool = true;

    fn setup_masks(
        _shaper: &CapitalsShaper,
        plan: &hb_ot_shape_plan_t<'_, CapitalsShaper, M::Map, ()>,
        _face: &F,
        buffer: &mut hb_buffer_t,
    ) {
        mark_capitals(M::get_1_mask(plan.ot_map(), C2SC), buffer);
    }

    ghost masks_alone = { λ _ plan _. capitals_marked-alone ((M.masks plan.ot_map).one_mask C2SC) };
}

/// A run by this shaper preserves clusters if its engine's lookups do, whatever the Unicode
/// functions, the plan and the face.
pub fn capitals_preserve_clusters<U: hb_unicode_funcs_t, F: hb_font_t, M: hb_ot_layout_t<F>>()
    ensures { (plan : Plan AnyShaper M.Map Unit) (face : F)
        → let run = ⟦<CapitalsShaper as Runs<U, F, M>>⟧.run plan face in
        LookupsPreserveClusters run.lookups → RunPreservesClusters run }
{
    given_hooks_preserve::<U, F, M, CapitalsShaper>();
}

/// Which items get the bits, and what is requested, worked out by hand.
pub fn capitals_meet_worked_cases()
    ensures { WorkedCapitals }
{}
