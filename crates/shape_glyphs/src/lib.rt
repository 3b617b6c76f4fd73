//! From masked characters to the glyphs that are handed out: the second half of a run.
//!
//! A run makes three calls: [`substitute_pre`] makes glyphs of characters and runs the lookups on
//! them, [`position`] places them by the face, by the tables of a plan and, if there are none, by
//! the fallback steps, and [`finish_glyphs`] puts the list in the order of its direction, hides
//! what is to stay unseen and gives each cluster one set of flags. Each step is one function over
//! a plan, a face and a buffer, whose contract names the definition that it makes of the buffer;
//! those that call the engine stand in [`engine_calls`], those that call a hook in [`hook_calls`].
#![tactic(auto)]
#![allow(non_camel_case_types)]

pub mod advances;
pub mod engine_calls;
pub mod fallback_steps;
pub mod finishing;
pub mod flags;
pub mod glyphs;
pub mod hook_calls;
pub mod ignorables;
pub mod laws;
pub mod positioning;
pub mod selectors;
pub mod substitution;
pub mod syllables;
pub mod worked;
pub mod zeroing;

pub use advances::{clear_positions, position_default, put_advances};
pub use engine_calls::{
    kern_by_plan, position_by_plan, position_finish_advances, position_finish_offsets,
    position_start, remove_deleted, substitute_start, track_by_plan, zero_width_deleted,
};
pub use fallback_steps::{place_marks, place_spaces, recategorize_marks};
pub use finishing::{finish_glyphs, reverse_backward};
pub use flags::propagate_flags;
pub use glyphs::{hb_synthesize_glyph_classes, map_glyphs_fast, setup_glyphs, synthesize_classes};
pub use hook_calls::postprocess_glyphs;
pub use ignorables::{hide_default_ignorables, zero_width_default_ignorables};
pub use positioning::{position, position_complex};
pub use selectors::deal_with_variation_selectors;
pub use substitution::{substitute, substitute_pre};
pub use syllables::syllabic_clear_var;
pub use zeroing::{zero_mark_widths_by_gdef, zero_marks_early, zero_marks_late};
