//! What a run is planned by: a shaper's hooks, and the plan that uses it.
//!
//! [`ot_shaper`] has the trait of script shapers, [`ot_shape_plan`] the plan.
#![tactic(auto)]
#![allow(non_camel_case_types)]

pub mod decisions;
pub mod normalization_mode;
pub mod ot_shape_plan;
pub mod ot_shaper;
pub mod planner;
pub mod shaping_types;
pub mod worked;

pub use normalization_mode::{
    HB_OT_SHAPE_NORMALIZATION_MODE_AUTO, HB_OT_SHAPE_NORMALIZATION_MODE_COMPOSED_DIACRITICS,
    HB_OT_SHAPE_NORMALIZATION_MODE_COMPOSED_DIACRITICS_NO_SHORT_CIRCUIT,
    HB_OT_SHAPE_NORMALIZATION_MODE_DECOMPOSED, HB_OT_SHAPE_NORMALIZATION_MODE_DEFAULT,
    HB_OT_SHAPE_NORMALIZATION_MODE_NONE, hb_ot_shape_normalization_mode_t,
};
pub use ot_shape_plan::{ChosenShaper, hb_ot_shape_plan_t};
pub use ot_shaper::hooks::{
    collect_features_hook, compose_hook, create_data_hook, decompose_hook, override_features_hook,
    pause_hook, postprocess_glyphs_hook, preprocess_text_hook, reorder_marks_hook,
    setup_masks_hook,
};
pub use ot_shaper::{
    ComposedDiacritics, ComposedDiacriticsNoShortCircuit, DEFAULT_SHAPER, DUMBER_SHAPER,
    Decomposed, HB_OT_SHAPE_ZERO_WIDTH_MARKS_BY_GDEF_EARLY,
    HB_OT_SHAPE_ZERO_WIDTH_MARKS_BY_GDEF_LATE, HB_OT_SHAPE_ZERO_WIDTH_MARKS_NONE,
    MAX_COMBINING_MARKS, Preference, Preferring, Runs, Shortest, hb_default_shaper_t,
    hb_dumber_shaper_t, hb_ot_shape_zero_width_marks_type_t, hb_ot_shaper_t, no_hook,
    script_shaper,
};
pub use planner::{Plans, hb_ot_shape_planner_t};
