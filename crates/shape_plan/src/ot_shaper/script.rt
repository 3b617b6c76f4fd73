//! What the author of a script shaper writes.
//!
//! Associated types have no defaults, so an author names every hook, given or not: a line each.
ghost use Rattle.std.specs.Prelude.{◌≡◌, ℕ, ℤ, Bool, true, Option};
ghost use Rattle.shape_plan.specs.Shaper.{is_preference, is_zero_width_type};
ghost use Rattle.shape_common.specs.declared.text_types.hb_tag_t.{hb_tag_t as AnyTag};

use crate::ot_shaper::hb_ot_shape_zero_width_marks_type_t;
use crate::ot_shaper::hooks::{
    collect_features_hook, compose_hook, create_data_hook, decompose_hook, override_features_hook,
    pause_hook, postprocess_glyphs_hook, preprocess_text_hook, reorder_marks_hook,
    setup_masks_hook,
};
use shape_buffer::buffer::hb_tag_t;
use shape_buffer::interfaces::{hb_font_t, hb_ot_layout_t, hb_unicode_funcs_t};

/// A script shaper as its author writes it: five constants, and for each hook the type that gives
/// it, the shaper itself or [`no_hook`](crate::ot_shaper::no_hook). Every such type is a
/// [`hb_ot_shaper_t`](crate::ot_shaper::hb_ot_shaper_t).
pub trait script_shaper<U: hb_unicode_funcs_t, F: hb_font_t, M: hb_ot_layout_t<F>> {
    /// What the shaper keeps in a plan.
    type Data: Drop;

    /// Requests features of the script before those of the user.
    type CollectFeatures: collect_features_hook<Self>;

    /// Requests features after those of the user.
    type OverrideFeatures: override_features_hook<Self>;

    /// Makes the data of a plan.
    type CreateData: create_data_hook<Self, Self::Data, U, F, M>;

    /// Changes the text before it is normalised.
    type PreprocessText: preprocess_text_hook<Self, Self::Data, U, F, M>;

    /// Changes the glyphs after they were positioned.
    type PostprocessGlyphs: postprocess_glyphs_hook<Self, Self::Data, U, F, M>;

    /// Changes the glyphs between two stages of substitution.
    type Pause: pause_hook<Self, Self::Data, U, F, M>;

    /// Splits characters in place of Unicode.
    type Decompose: decompose_hook<Self, Self::Data, U, F, M>;

    /// Composes characters in place of Unicode.
    type Compose: compose_hook<Self, Self::Data, U, F, M>;

    /// Sets masks before glyphs are substituted.
    type SetupMasks: setup_masks_hook<Self, Self::Data, U, F, M>;

    /// Puts marks in an order of its own.
    type ReorderMarks: reorder_marks_hook<Self, Self::Data, U, F, M>;

    ghost IS_DEFAULT: { Bool };

    /// Whether this is the shaper of texts whose script needs nothing of its own.
    const IS_DEFAULT: bool;

    ghost NORMALIZATION_PREFERENCE: { ℤ };

    /// How texts are to be normalised, 0 to 4: see
    /// [`HB_OT_SHAPE_NORMALIZATION_MODE_NONE`](crate::normalization_mode::HB_OT_SHAPE_NORMALIZATION_MODE_NONE)
    /// and the others.
    const NORMALIZATION_PREFERENCE: i32;

    ghost GPOS_TAG: { Option AnyTag };

    /// The script whose positioning lookups the shaper is made for.
    const GPOS_TAG: Option<hb_tag_t>;

    ghost ZERO_WIDTH_MARKS: { ℕ };

    /// When marks lose their advances: 0 to 2.
    const ZERO_WIDTH_MARKS: hb_ot_shape_zero_width_marks_type_t;

    ghost FALLBACK_POSITION: { Bool };

    /// Whether marks are placed by their extents if neither `GPOS` nor `kerx` nor a `kern` across
    /// the line is applied.
    const FALLBACK_POSITION: bool;

    /// The preference is a mode of normalising.
    ghost lawful_preference: { is_preference NORMALIZATION_PREFERENCE ≡ true };

    /// The zero width type is one of the three.
    ghost lawful_zero_width: { is_zero_width_type ZERO_WIDTH_MARKS ≡ true };
}
