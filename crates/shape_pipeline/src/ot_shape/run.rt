//! The steps of a run, in their order.
//!
//! The contract is that the list of steps was run, or refused at one of them. Steps are joined by
//! what is known of lists that stand one after the other, so no proof looks into a step.
ghost use Rattle.shape_buffer.specs.Outcome.{IsWithinLimit, Outcome, RunOutcome};
ghost use Rattle.shape_pipeline.specs.Shaped.{normalising, all_steps};

use shape_buffer::buffer::{Direction, ShapeError, hb_buffer_t};
use shape_buffer::interfaces::{hb_font_t, hb_ot_layout_t, hb_unicode_funcs_t};
use shape_glyphs::finishing::finish_glyphs;
use shape_glyphs::positioning::position;
use shape_glyphs::substitution::substitute_pre;
use shape_normalize::ot_shape_normalize::_hb_ot_shape_normalize;
use shape_plan::ot_shaper::hb_ot_shaper_t;
use shape_plan::shaping_types::{Meaning, PlanOf, ShapingTypes};
use shape_prepare::masks::setup_masks;
use shape_prepare::prepare::prepare;
use std::alloc::Global;

/// Makes all steps of a run over a text that was entered, except for its end.
pub(crate) fn shape_entered<T: ShapingTypes>(
    alloc: Global,
    plan: &PlanOf<'_, T>,
    face: &T::Face,
    buffer: &mut hb_buffer_t,
    target: Direction,
) -> Result<(), ShapeError>
    requires { IsWithinLimit buffer.old }
    ensures { RunOutcome (all_steps (⟦<T as Meaning>⟧.run plan.now face.now) target)
        buffer.old buffer.new result }
{
    prepare::<T>(alloc, plan, face, buffer, target)?;
    normalize::<T>(alloc, plan, face, buffer)?;
    setup_masks::<T>(plan, face, buffer);
    substitute_pre::<T>(alloc, plan, face, buffer)?;
    position::<T>(alloc, plan, face, buffer)?;
    finish_glyphs::<T>(alloc, plan, face, buffer)
}

/// Normalises, as a step of a run.
fn normalize<T: ShapingTypes>(
    alloc: Global,
    plan: &PlanOf<'_, T>,
    face: &T::Face,
    buffer: &mut hb_buffer_t,
) -> Result<(), ShapeError>
    requires { IsWithinLimit buffer.old }
    ensures { Outcome (normalising (⟦<T as Meaning>⟧.run plan.now face.now).rules)
        buffer.old buffer.new result }
{
    _hb_ot_shape_normalize::<T::Unicode, T::Face, T::Engine, T::Shaper>(alloc, plan, buffer, face)
}
