//! The modes of normalising; a shaper prefers one of them.

/// How a text is normalised, 0 to 4.
pub type hb_ot_shape_normalization_mode_t = i32;

/// A character is expanded only if the face lacks it, and then as little as may be. Nothing is
/// composed.
pub const HB_OT_SHAPE_NORMALIZATION_MODE_NONE: hb_ot_shape_normalization_mode_t = 0;

/// Every character is expanded as far as the face allows. Nothing is composed.
pub const HB_OT_SHAPE_NORMALIZATION_MODE_DECOMPOSED: hb_ot_shape_normalization_mode_t = 1;

/// A character with marks is expanded as far as the face allows, any other one as little as may be.
/// Marks are composed with their starters again.
pub const HB_OT_SHAPE_NORMALIZATION_MODE_COMPOSED_DIACRITICS: hb_ot_shape_normalization_mode_t = 2;

/// Every character is expanded as far as the face allows, and marks are composed with their
/// starters again.
pub const HB_OT_SHAPE_NORMALIZATION_MODE_COMPOSED_DIACRITICS_NO_SHORT_CIRCUIT: hb_ot_shape_normalization_mode_t =
    3;

/// As [`HB_OT_SHAPE_NORMALIZATION_MODE_COMPOSED_DIACRITICS`].
pub const HB_OT_SHAPE_NORMALIZATION_MODE_AUTO: hb_ot_shape_normalization_mode_t = 4;

/// The mode of a shaper without preferences of its own.
pub const HB_OT_SHAPE_NORMALIZATION_MODE_DEFAULT: hb_ot_shape_normalization_mode_t =
    HB_OT_SHAPE_NORMALIZATION_MODE_AUTO;
