//! Fallback positions of marks and spaces, for faces whose lookups place none.
//!
//! [`ot_shape_fallback`] has the calls, [`laws`] what they leave alone and when their numbers are
//! exact. A run makes them if a plan or a buffer asks for it: `shape_glyphs` has these steps.
#![tactic(auto)]
#![allow(non_camel_case_types)]

pub mod laws;
pub mod ot_shape_fallback;
pub mod worked;

pub use ot_shape_fallback::{
    _hb_ot_shape_fallback_kern, _hb_ot_shape_fallback_mark_position_recategorize_marks,
    _hb_ot_shape_fallback_spaces, position_marks,
};
