//! Glyphs, as substitution finds them: those that the face returned, with a class each.
//!
//! Lookups may skip glyphs of a class. If a face doesn't say which glyphs are marks, the characters
//! do: a nonspacing mark is one, except for default ignorables, which lookups are to see.
ghost use Rattle.std.specs.Prelude.{◌≡◌};
ghost use Rattle.shape_buffer.specs.Outcome.{IsWithinLimit, Made, Ran};
ghost use Rattle.shape_plan.specs.Run.{step_if};
ghost use Rattle.shape_glyphs.specs.Classes;
ghost use Rattle.shape_glyphs.specs.Substitution.{glyph_steps};

use crate::engine_calls::substitute_start;
use shape_buffer::buffer::{
    GlyphPropsFlags, hb_buffer_t, hb_glyph_info_t, hb_unicode_general_category_t,
};
use shape_buffer::interfaces::{hb_font_t, hb_ot_layout_t, hb_unicode_funcs_t};
use shape_buffer::walks::update_items;
use shape_plan::ot_shape_plan::hb_ot_shape_plan_t;
use shape_plan::ot_shaper::hb_ot_shaper_t;
use shape_plan::shaping_types::{Meaning, PlanOf, ShapingTypes};

/// An item with the glyph that the face returned for its character.
fn with_nominal_glyph(info: &hb_glyph_info_t) -> hb_glyph_info_t
    ensures { result ≡ Classes.with_nominal_glyph info.now }
{
    let mut info = *info;
    info.glyph_id = info.glyph_index;
    info
}

/// Makes the glyph of each item the one that the face returned for its character. Takes no memory.
pub fn map_glyphs_fast(buffer: &mut hb_buffer_t)
    ensures { Made Classes.glyphs_mapped buffer.old buffer.new }
{
    update_items(buffer, |info| with_nominal_glyph(info));
}

/// The class of a glyph by its character.
fn class_of_glyph(info: &hb_glyph_info_t) -> GlyphPropsFlags
    ensures { result ≡ Classes.class_of_glyph info.now }
{
    let nonspacing = matches!(
        info._hb_glyph_info_get_general_category(),
        hb_unicode_general_category_t::NonspacingMark
    );
    if nonspacing && !info._hb_glyph_info_is_default_ignorable() {
        GlyphPropsFlags::MARK
    } else {
        GlyphPropsFlags::BASE_GLYPH
    }
}

/// An item with that class, as a glyph that no lookup has made. It has no mark attachment class.
fn with_class(info: &hb_glyph_info_t) -> hb_glyph_info_t
    ensures { result ≡ Classes.with_class info.now }
{
    let mut info = *info;
    info._hb_glyph_info_set_glyph_class(class_of_glyph(&info));
    info._hb_glyph_info_set_substituted(false);
    info._hb_glyph_info_set_ligated(false);
    info._hb_glyph_info_set_multiplied(false);
    info._hb_glyph_info_set_mark_attachment_class(0);
    info
}

/// Makes up the class of each glyph, as one that no lookup has made. Takes no memory.
pub fn hb_synthesize_glyph_classes(buffer: &mut hb_buffer_t)
    ensures { Made Classes.classes_synthesised buffer.old buffer.new }
{
    update_items(buffer, |info| with_class(info));
}

/// Makes up the classes, if the plan says so, since the face has none.
pub fn synthesize_classes<S, P, D>(plan: &hb_ot_shape_plan_t<'_, S, P, D>, buffer: &mut hb_buffer_t)
    ensures { Made (step_if plan.now.decisions.fallback_glyph_classes Classes.classes_synthesised)
        buffer.old buffer.new }
{
    if plan.fallback_glyph_classes() {
        hb_synthesize_glyph_classes(buffer);
    }
}

/// Makes glyphs of the items, prepares the buffer for substitution, and makes up the classes if the
/// face has none. Takes no memory.
pub fn setup_glyphs<T: ShapingTypes>(plan: &PlanOf<'_, T>, face: &T::Face, buffer: &mut hb_buffer_t)
    requires { IsWithinLimit buffer.old }
    ensures { Ran (glyph_steps (⟦<T as Meaning>⟧.run plan.now face.now))
        buffer.old buffer.new }
{
    map_glyphs_fast(buffer);
    substitute_start::<T>(plan, face, buffer);
    synthesize_classes(plan, buffer);
}
