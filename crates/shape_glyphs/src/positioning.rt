//! Positions of substituted glyphs, in the order in which a run makes them.
//!
//! The order is fixed: marks lose their advances before the tables or after them, as the shaper
//! says, and advances are finished before offsets, since an offset may rest on the advances
//! between two glyphs.
ghost use Rattle.std.specs.Prelude.{◌≡◌};
ghost use Rattle.shape_buffer.specs.Outcome.{IsWithinLimit, RunOutcome};
ghost use Rattle.shape_glyphs.specs.Steps.{table_steps, position_steps};

use crate::advances::position_default;
use crate::engine_calls::{
    kern_by_plan, position_by_plan, position_finish_advances, position_finish_offsets,
    position_start, track_by_plan, zero_width_deleted,
};
use crate::fallback_steps::{place_marks, place_spaces};
use crate::ignorables::zero_width_default_ignorables;
use crate::zeroing::{zero_marks_early, zero_marks_late};
use shape_buffer::buffer::{ShapeError, hb_buffer_t};
use shape_buffer::interfaces::{hb_font_t, hb_ot_layout_t, hb_unicode_funcs_t};
use shape_plan::ot_shaper::hb_ot_shaper_t;
use shape_plan::shaping_types::{Meaning, PlanOf, ShapingTypes};
use std::alloc::Global;

/// Positions the glyphs by the tables of the plan, in units of the face; fallback marks come
/// after. Refuses with `Length` if a table would leave a list past the buffer's limit, and with
/// `Memory` if a growth was refused; nothing is said of the buffer then.
pub fn position_complex<T: ShapingTypes>(
    alloc: Global,
    plan: &PlanOf<'_, T>,
    face: &T::Face,
    buffer: &mut hb_buffer_t,
) -> Result<(), ShapeError>
    requires { IsWithinLimit buffer.old }
    ensures { RunOutcome (table_steps (⟦<T as Meaning>⟧.run plan.now face.now))
        buffer.old buffer.new result }
{
    position_start::<T>(plan, face, buffer);
    zero_marks_early::<T>(plan, face, buffer);
    position_by_plan::<T>(alloc, plan, face, buffer)?;
    kern_by_plan::<T>(alloc, plan, face, buffer)?;
    track_by_plan::<T>(plan, face, buffer);
    zero_marks_late::<T>(plan, face, buffer);
    position_finish_advances::<T>(plan, face, buffer);
    zero_width_default_ignorables(buffer);
    zero_width_deleted::<T>(plan, face, buffer);
    position_finish_offsets::<T>(plan, face, buffer);
    Ok(())
}

/// Positions the glyphs: by the face, spaces without a glyph, by tables, and marks that no table
/// places. Refuses as [`position_complex`] does.
pub fn position<T: ShapingTypes>(
    alloc: Global,
    plan: &PlanOf<'_, T>,
    face: &T::Face,
    buffer: &mut hb_buffer_t,
) -> Result<(), ShapeError>
    requires { IsWithinLimit buffer.old }
    ensures { RunOutcome (position_steps (⟦<T as Meaning>⟧.run plan.now face.now))
        buffer.old buffer.new result }
{
    position_default::<T>(plan, face, buffer);
    place_spaces::<T>(plan, face, buffer);
    position_complex::<T>(alloc, plan, face, buffer)?;
    place_marks::<T>(plan, face, buffer);
    Ok(())
}
