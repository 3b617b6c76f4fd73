//! Normalising: the characters of a text become those that the face has glyphs for, and equivalent
//! spellings become one list.
//!
//! [`ot_shape_normalize`] runs the rounds over a buffer by a plan, and its names stand here too;
//! [`laws`] spares callers proofs.
#![tactic(auto)]
#![allow(non_camel_case_types)]

pub mod laws;
pub mod ot_shape_normalize;
pub mod worked;

pub use ot_shape_normalize::{
    _hb_ot_shape_normalize, HB_OT_SHAPE_NORMALIZATION_MODE_AUTO,
    HB_OT_SHAPE_NORMALIZATION_MODE_COMPOSED_DIACRITICS,
    HB_OT_SHAPE_NORMALIZATION_MODE_COMPOSED_DIACRITICS_NO_SHORT_CIRCUIT,
    HB_OT_SHAPE_NORMALIZATION_MODE_DECOMPOSED, HB_OT_SHAPE_NORMALIZATION_MODE_DEFAULT,
    HB_OT_SHAPE_NORMALIZATION_MODE_NONE, hb_ot_shape_normalization_mode_t,
    hb_ot_shape_normalize_context_t, meets_canonical_premises, normalized_equal,
};
