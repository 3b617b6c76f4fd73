//! The calls of the script shaper's hooks on glyphs, one function each.
//!
//! A hook is called if the plan uses the shaper and the shaper gives it. They are functions so
//! that a list of steps can be proved by them: a shaper's clause speaks of the shaper that is
//! called, a step of the one that the plan uses, if any.
ghost use Rattle.std.specs.Prelude.{◌≡◌};
ghost use Rattle.shape_buffer.specs.Outcome.{IsWithinLimit, Outcome, step};
ghost use Rattle.shape_plan.specs.Run.{hook_if};
ghost use Rattle.shape_glyphs.specs.Substitution.{paused};

use shape_buffer::buffer::{ShapeError, hb_buffer_t};
use shape_buffer::interfaces::{hb_font_t, hb_ot_layout_t, hb_unicode_funcs_t};
use shape_plan::ot_shaper::hb_ot_shaper_t;
use shape_plan::shaping_types::{Meaning, PlanOf, ShapingTypes};
use std::alloc::Global;

/// Runs the pause after stage `i`, if it has one, the plan uses the shaper, and the shaper gives
/// pauses.
pub(crate) fn pause_after<T: ShapingTypes>(
    alloc: Global,
    i: usize,
    plan: &PlanOf<'_, T>,
    face: &T::Face,
    buffer: &mut hb_buffer_t,
) -> Result<(), ShapeError>
    requires { IsWithinLimit buffer.old }
    ensures { Outcome (step (paused (⟦<T as Meaning>⟧.run plan.now face.now) i))
        buffer.old buffer.new result }
{
    match (T::Engine::pause_after(plan.ot_map(), i), plan.shaper()) {
        (Some(number), Some(shaper)) if T::Shaper::HAS_PAUSE => {
            shaper.pause(alloc, number, plan, face, buffer)
        }
        _ => Ok(()),
    }
}

/// Runs the hook on the glyphs that are handed out, if the plan uses a shaper that gives it.
/// Refuses as the hook does.
pub fn postprocess_glyphs<T: ShapingTypes>(
    alloc: Global,
    plan: &PlanOf<'_, T>,
    face: &T::Face,
    buffer: &mut hb_buffer_t,
) -> Result<(), ShapeError>
    requires { IsWithinLimit buffer.old }
    ensures { let run = ⟦<T as Meaning>⟧.run plan.now face.now in
        Outcome (step (hook_if run.constants.has_postprocess_glyphs run.hooks
        (λ hooks. hooks.postprocess))) buffer.old buffer.new result }
{
    match plan.shaper() {
        Some(shaper) if T::Shaper::HAS_POSTPROCESS_GLYPHS => {
            shaper.postprocess_glyphs(alloc, plan, face, buffer)
        }
        _ => Ok(()),
    }
}
