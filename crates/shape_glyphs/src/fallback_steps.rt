//! The steps of a run that replace lookups: each asks the plan or the buffer whether it is due.
//!
//! They are functions of their own, so that the calls in them stay unconditional, as in
//! rustybuzz.
ghost use Rattle.std.specs.Prelude.{◌≡◌};
ghost use Rattle.shape_buffer.specs.Outcome.{Made};
ghost use Rattle.shape_fallback.specs.DueSteps.{recategorize_step, spaces_step, marks_step};

use bitflags::Flags;
use shape_buffer::buffer::{ScratchFlags, hb_buffer_t};
use shape_buffer::interfaces::{hb_font_t, hb_unicode_funcs_t};
use shape_fallback::{
    _hb_ot_shape_fallback_mark_position_recategorize_marks, _hb_ot_shape_fallback_spaces,
    position_marks,
};
use shape_plan::shaping_types::{PlanOf, ShapingTypes};

/// Gives marks the ccc that they are placed by, if the plan places marks by their extents.
pub fn recategorize_marks<T: ShapingTypes>(
    plan: &PlanOf<'_, T>,
    face: &T::Face,
    buffer: &mut hb_buffer_t,
)
    ensures { Made (recategorize_step plan.now.decisions) buffer.old buffer.new }
{
    if plan.fallback_mark_positioning() {
        _hb_ot_shape_fallback_mark_position_recategorize_marks(plan, face, buffer);
    }
}

/// Places spaces, if one without a glyph was seen.
#[tactic(auto, unfolding(shape_fallback::specs::DueSteps::spaces_step))]
pub fn place_spaces<T: ShapingTypes>(plan: &PlanOf<'_, T>, face: &T::Face, buffer: &mut hb_buffer_t)
    ensures { Made (spaces_step (T.Face.face face.now)) buffer.old buffer.new }
{
    if buffer
        .scratch_flags()
        .contains(ScratchFlags::HAS_SPACE_FALLBACK)
    {
        _hb_ot_shape_fallback_spaces(plan, face, buffer);
    }
}

/// Places marks, if the plan places marks by their extents. Offsets lose the advances of marks
/// whose base has no extents if the plan adjusts them, and in forward text alone.
#[tactic(auto, unfolding(shape_fallback::specs::DueSteps::marks_adjusted))]
pub fn place_marks<T: ShapingTypes>(plan: &PlanOf<'_, T>, face: &T::Face, buffer: &mut hb_buffer_t)
    ensures { Made (marks_step T.Unicode.unicode (T.Face.face face.now) plan.now.direction
        plan.now.script plan.now.decisions) buffer.old buffer.new }
{
    if plan.fallback_mark_positioning() {
        let adjust = plan.adjust_mark_positioning_when_zeroing() && buffer.direction().is_forward();
        position_marks::<T::Unicode, _, _, _, _>(plan, face, buffer, adjust);
    }
}
