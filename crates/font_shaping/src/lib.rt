//! Texts shaped with font files, whatever bytes these are.
//!
//! [`shape_with_font`] shapes a text with a face of OpenType layout, [`shape_str`] a string, and
//! [`shape_with_bytes`] a string with the bytes of a font file. Nothing is asked of the font: every
//! premise on an engine's lookups is proved here once, for all bytes, by [`laws`]. So a hostile
//! file changes what glyphs come out, and neither whether a call returns nor what it promises.
#![tactic(auto)]
#![allow(non_camel_case_types)]

mod each_hook;
mod each_shaper;
pub mod kept_plans;
pub mod laws;
pub mod shaping;
pub mod strings;

// What a caller of these names: faces, texts and their settings, plans that are kept.
pub use opentype_layout::{OpenTypeFace, OpenTypeLayout, OpenedOpenTypeFace};
pub use shape_pipeline::strings::text_of_str;
pub use shape_pipeline::{
    BufferClusterLevel, BufferFlags, Direction, Feature, GlyphBuffer, GlyphId, GlyphInfo,
    GlyphPosition, Language, Script, ShapeError, ShapeFault, UnicodeBuffer, hb_font_t, hb_tag_t,
    hb_unicode_funcs_t,
};
pub use shape_unicode::UnicodeDatabase;
pub use shaper_choice::{
    SCRIPT_SHAPERS, ScriptPlan, plan_by_script, shape_by_script, shape_with_script_plan,
};
pub use shaping::shape_with_font;
pub use strings::{FontError, shape_str, shape_with_bytes};
