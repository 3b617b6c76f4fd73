//! The calls of the script shaper's hooks on characters, one function each.
//!
//! A hook is called if the plan uses the shaper and the shaper gives it. They are functions so
//! that a list of steps can be proved by them: a shaper's clause speaks of the shaper that is
//! called, a step of the one that the plan uses, if any.
ghost use Rattle.shape_buffer.specs.Outcome.{IsWithinLimit, Made, Outcome, step};
ghost use Rattle.shape_plan.specs.Run.{hook_if};

use shape_buffer::buffer::{ShapeError, hb_buffer_t};
use shape_buffer::interfaces::{hb_font_t, hb_ot_layout_t, hb_unicode_funcs_t};
use shape_plan::ot_shaper::hb_ot_shaper_t;
use shape_plan::shaping_types::{Meaning, PlanOf, ShapingTypes};
use std::alloc::Global;

/// Runs the hook `preprocess_text` of the plan's shaper, if it is given. Refuses if the hook does.
pub fn preprocess_text<T: ShapingTypes>(
    alloc: Global,
    plan: &PlanOf<'_, T>,
    face: &T::Face,
    buffer: &mut hb_buffer_t,
) -> Result<(), ShapeError>
    requires { IsWithinLimit buffer.old }
    ensures { let run = ⟦<T as Meaning>⟧.run plan.now face.now in
        Outcome (step (hook_if run.constants.has_preprocess_text run.hooks (λ h. h.preprocess)))
        buffer.old buffer.new result }
{
    match plan.shaper() {
        Some(shaper) if T::Shaper::HAS_PREPROCESS_TEXT => {
            shaper.preprocess_text(alloc, plan, face, buffer)
        }
        _ => Ok(()),
    }
}

/// Calls the hook `setup_masks`, if the plan uses the shaper and it is given.
pub fn setup_masks_shaper<T: ShapingTypes>(
    plan: &PlanOf<'_, T>,
    face: &T::Face,
    buffer: &mut hb_buffer_t,
)
    ensures { let run = ⟦<T as Meaning>⟧.run plan.now face.now in
        Made (hook_if run.constants.has_setup_masks run.hooks (λ hooks. hooks.setup_masks))
        buffer.old buffer.new }
{
    match plan.shaper() {
        Some(shaper) if T::Shaper::HAS_SETUP_MASKS => shaper.setup_masks(plan, face, buffer),
        _ => (),
    }
}
