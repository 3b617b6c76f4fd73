//! The end of a run: the order of the glyphs, which of them are seen, and their flags.
//!
//! Shaping works in the order of the text, so the glyphs of a line that runs to the left or to the
//! top are reversed once they are placed. Flags come last, since every step before may still move
//! them between glyphs.
ghost use Rattle.shape_buffer.specs.Outcome.{IsWithinLimit, Made, RunOutcome};
ghost use Rattle.shape_glyphs.specs.Steps.{finish_steps};
ghost use Rattle.shape_glyphs.specs.Reversal.{reversed};

use crate::engine_calls::remove_deleted;
use crate::flags::propagate_flags;
use crate::hook_calls::postprocess_glyphs;
use crate::ignorables::hide_default_ignorables;
use crate::selectors::deal_with_variation_selectors;
use shape_buffer::buffer::{ShapeError, hb_buffer_t};
use shape_buffer::interfaces::{hb_font_t, hb_ot_layout_t, hb_unicode_funcs_t};
use shape_plan::ot_shaper::hb_ot_shaper_t;
use shape_plan::shaping_types::{Meaning, PlanOf, ShapingTypes};
use std::alloc::Global;

/// Reverses glyphs and positions, if the buffer's direction is backward. Takes no memory.
#[tactic(auto, unfolding(crate::specs::Reversal::reversed))]
pub fn reverse_backward(buffer: &mut hb_buffer_t)
    ensures { Made reversed buffer.old buffer.new }
{
    if buffer.direction().is_backward() {
        buffer.reverse();
    }
}

/// Makes of placed glyphs those that are handed out: in the order of their direction, without what
/// is to stay unseen, each cluster with one set of flags. Refuses with `Length` if the shaper's
/// hook would leave a list past the buffer's limit, and with `Memory` if a growth was refused;
/// nothing is said of the buffer then.
pub fn finish_glyphs<T: ShapingTypes>(
    alloc: Global,
    plan: &PlanOf<'_, T>,
    face: &T::Face,
    buffer: &mut hb_buffer_t,
) -> Result<(), ShapeError>
    requires { IsWithinLimit buffer.old }
    ensures { RunOutcome (finish_steps (⟦<T as Meaning>⟧.run plan.now face.now))
        buffer.old buffer.new result }
{
    reverse_backward(buffer);
    remove_deleted::<T>(plan, face, buffer);
    deal_with_variation_selectors(buffer);
    hide_default_ignorables(face, buffer);
    postprocess_glyphs::<T>(alloc, plan, face, buffer)?;
    propagate_flags(buffer);
    Ok(())
}
