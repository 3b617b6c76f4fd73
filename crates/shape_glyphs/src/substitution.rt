//! From masked characters to substituted glyphs: the stages of the table `GSUB` with the shaper's
//! pauses, or the table `morx`.
//!
//! A pause lets the shaper look at the glyphs that one stage has made before the next one runs.
ghost use Rattle.shape_buffer.specs.Outcome.{IsWithinLimit, RunOutcome};
ghost use Rattle.shape_glyphs.specs.Steps.{substitute_pre_steps};
ghost use Rattle.shape_glyphs.specs.Substitution.{stage_steps, substitute_steps};

use crate::engine_calls::{run_lookups, stage_count, substitute_aat};
use crate::fallback_steps::recategorize_marks;
use crate::glyphs::setup_glyphs;
use crate::hook_calls::pause_after;
use shape_buffer::buffer::{ShapeError, hb_buffer_t};
use shape_buffer::interfaces::{hb_font_t, hb_ot_layout_t, hb_unicode_funcs_t};
use shape_plan::ot_shaper::hb_ot_shaper_t;
use shape_plan::shaping_types::{Meaning, PlanOf, ShapingTypes};
use std::alloc::Global;

/// Runs every stage of `GSUB` in order, each with the pause after it.
fn substitute_stages<T: ShapingTypes>(
    alloc: Global,
    plan: &PlanOf<'_, T>,
    face: &T::Face,
    buffer: &mut hb_buffer_t,
) -> Result<(), ShapeError>
    requires { IsWithinLimit buffer.old }
    ensures { let run = ⟦<T as Meaning>⟧.run plan.now face.now in
        RunOutcome (stage_steps run run.map.stages) buffer.old buffer.new result }
{
    'stages: for i in 0..stage_count::<T>(plan) {
        run_lookups::<T>(alloc, i, plan, face, buffer)?;
        pause_after::<T>(alloc, i, plan, face, buffer)?;
    }
    Ok(())
}

/// Substitutes glyphs: by the table `morx` if the plan says so, and then what it has deleted goes
/// if the table `GPOS` is to position the rest; else by the stages. Refuses with `Length` if a
/// stage, a pause or `morx` would leave a list past the buffer's limit, and with `Memory` if a
/// growth was refused; nothing is said of the buffer then.
pub fn substitute<T: ShapingTypes>(
    alloc: Global,
    plan: &PlanOf<'_, T>,
    face: &T::Face,
    buffer: &mut hb_buffer_t,
) -> Result<(), ShapeError>
    requires { IsWithinLimit buffer.old }
    ensures { RunOutcome (substitute_steps (⟦<T as Meaning>⟧.run plan.now face.now))
        buffer.old buffer.new result }
{
    if plan.apply_morx() {
        substitute_aat::<T>(alloc, plan, face, buffer)?;
        if plan.apply_gpos() {
            T::Engine::aat_remove_deleted(buffer);
        }
        return Ok(());
    }
    substitute_stages::<T>(alloc, plan, face, buffer)?;
    Ok(())
}

/// Makes glyphs of a list whose masks are set: the ccc that marks are placed by, glyphs with their
/// classes, and the lookups. Refuses as [`substitute`] does.
pub fn substitute_pre<T: ShapingTypes>(
    alloc: Global,
    plan: &PlanOf<'_, T>,
    face: &T::Face,
    buffer: &mut hb_buffer_t,
) -> Result<(), ShapeError>
    requires { IsWithinLimit buffer.old }
    ensures { RunOutcome (substitute_pre_steps (⟦<T as Meaning>⟧.run plan.now face.now))
        buffer.old buffer.new result }
{
    recategorize_marks::<T>(plan, face, buffer);
    setup_glyphs::<T>(plan, face, buffer);
    substitute::<T>(alloc, plan, face, buffer)
}
