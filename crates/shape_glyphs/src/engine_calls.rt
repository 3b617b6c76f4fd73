//! The calls of the layout engine in a run, one function each, in the order in which a run makes
//! them.
//!
//! The plan has chosen the tables: a call is made if the plan asks for it, and what a table does
//! is the engine's. Kerning without a table changes nothing.
//!
//! They are functions so that a list of steps can be proved by them. What an engine's call makes
//! of a buffer is said of the plan's lookups by their value; written in place, the equation that
//! says so would have to be rewritten within the record of the whole run. Each contract here is a
//! step, in the form that a list has it.
ghost use Rattle.std.specs.Prelude.{◌≡◌};
ghost use Rattle.shape_buffer.specs.Outcome.{IsWithinLimit, Made, Outcome, step};
ghost use Rattle.shape_glyphs.specs.Tables.{table_positioned, kerned, tracked, deleted_narrowed};
ghost use Rattle.shape_glyphs.specs.Tables.{deleted_removed};

use shape_buffer::buffer::{ShapeError, hb_buffer_t};
use shape_buffer::interfaces::hb_ot_layout_t;
use shape_plan::shaping_types::{PlanOf, ShapingTypes};
use std::alloc::Global;

/// Has the engine prepare the buffer for substitution.
pub fn substitute_start<T: ShapingTypes>(
    plan: &PlanOf<'_, T>,
    face: &T::Face,
    buffer: &mut hb_buffer_t,
)
    ensures { Made (T.Engine.lookups plan.now.ot_map face.now).substitute_start
        buffer.old buffer.new }
{
    T::Engine::substitute_start(face, buffer);
}

/// How many stages the plan's lookups have.
pub(crate) fn stage_count<T: ShapingTypes>(plan: &PlanOf<'_, T>) -> usize
    ensures { result ≡ (T.Engine.masks plan.now.ot_map).stages }
{
    T::Engine::stages(plan.ot_map())
}

/// Runs the lookups of stage `i`.
pub(crate) fn run_lookups<T: ShapingTypes>(
    alloc: Global,
    i: usize,
    plan: &PlanOf<'_, T>,
    face: &T::Face,
    buffer: &mut hb_buffer_t,
) -> Result<(), ShapeError>
    requires { IsWithinLimit buffer.old }
    ensures { Outcome (step ((T.Engine.lookups plan.now.ot_map face.now).stage i))
        buffer.old buffer.new result }
{
    T::Engine::substitute_stage(alloc, plan.ot_map(), i, face, buffer)
}

/// Substitutes by the table `morx`.
pub(crate) fn substitute_aat<T: ShapingTypes>(
    alloc: Global,
    plan: &PlanOf<'_, T>,
    face: &T::Face,
    buffer: &mut hb_buffer_t,
) -> Result<(), ShapeError>
    requires { IsWithinLimit buffer.old }
    ensures { Outcome
        (step ((T.Engine.lookups plan.now.ot_map face.now).aat_substitute plan.now.user_features))
        buffer.old buffer.new result }
{
    T::Engine::aat_substitute(alloc, plan.ot_map(), plan.user_features(), face, buffer)
}

/// Prepares the positions for tables. Takes no memory.
pub fn position_start<T: ShapingTypes>(
    plan: &PlanOf<'_, T>,
    face: &T::Face,
    buffer: &mut hb_buffer_t,
)
    ensures { Made (T.Engine.lookups plan.now.ot_map face.now).position_start
        buffer.old buffer.new }
{
    T::Engine::position_start(face, buffer);
}

/// Positions by GPOS if the plan says so, else by kerx if it says that. Refuses as the engine
/// does.
pub fn position_by_plan<T: ShapingTypes>(
    alloc: Global,
    plan: &PlanOf<'_, T>,
    face: &T::Face,
    buffer: &mut hb_buffer_t,
) -> Result<(), ShapeError>
    requires { IsWithinLimit buffer.old }
    ensures { Outcome (step (table_positioned
        (T.Engine.lookups plan.now.ot_map face.now) plan.now.decisions))
        buffer.old buffer.new result }
{
    if plan.apply_gpos() {
        T::Engine::position(alloc, plan.ot_map(), face, buffer)
    } else if plan.apply_kerx() {
        T::Engine::aat_position(alloc, plan.ot_map(), plan.kern_mask(), face, buffer)
    } else {
        Ok(())
    }
}

/// Kerns by the table `kern`, if the plan says so. Refuses as the engine does.
pub fn kern_by_plan<T: ShapingTypes>(
    alloc: Global,
    plan: &PlanOf<'_, T>,
    face: &T::Face,
    buffer: &mut hb_buffer_t,
) -> Result<(), ShapeError>
    requires { IsWithinLimit buffer.old }
    ensures { Outcome (step (kerned (T.Engine.lookups plan.now.ot_map face.now) plan.now.decisions))
        buffer.old buffer.new result }
{
    if plan.apply_kern() {
        T::Engine::kern(alloc, plan.kern_mask(), face, buffer)
    } else {
        Ok(())
    }
}

/// Tracks by the table `trak`, if the plan says so. Takes no memory.
pub fn track_by_plan<T: ShapingTypes>(
    plan: &PlanOf<'_, T>,
    face: &T::Face,
    buffer: &mut hb_buffer_t,
)
    ensures { Made (tracked (T.Engine.lookups plan.now.ot_map face.now) plan.now.decisions)
        buffer.old buffer.new }
{
    if plan.apply_trak() {
        T::Engine::aat_track(plan.trak_mask(), face, buffer);
    }
}

/// Finishes the advances that tables have begun. Takes no memory.
pub fn position_finish_advances<T: ShapingTypes>(
    plan: &PlanOf<'_, T>,
    face: &T::Face,
    buffer: &mut hb_buffer_t,
)
    ensures { Made (T.Engine.lookups plan.now.ot_map face.now).position_finish_advances
        buffer.old buffer.new }
{
    T::Engine::position_finish_advances(face, buffer);
}

/// Takes the width from glyphs that `morx` has deleted, if the plan applies it. Takes no memory.
pub fn zero_width_deleted<T: ShapingTypes>(
    plan: &PlanOf<'_, T>,
    face: &T::Face,
    buffer: &mut hb_buffer_t,
)
    ensures { Made (deleted_narrowed (T.Engine.lookups plan.now.ot_map face.now) plan.now.decisions)
        buffer.old buffer.new }
{
    if plan.apply_morx() {
        T::Engine::aat_zero_width_deleted(buffer);
    }
}

/// Finishes the offsets that tables have begun. Takes no memory.
pub fn position_finish_offsets<T: ShapingTypes>(
    plan: &PlanOf<'_, T>,
    face: &T::Face,
    buffer: &mut hb_buffer_t,
)
    ensures { Made (T.Engine.lookups plan.now.ot_map face.now).position_finish_offsets
        buffer.old buffer.new }
{
    T::Engine::position_finish_offsets(face, buffer);
}

/// Takes out the glyphs that `morx` has deleted, if the plan applies it and not GPOS, before which
/// they would have gone. Takes no memory.
pub fn remove_deleted<T: ShapingTypes>(
    plan: &PlanOf<'_, T>,
    face: &T::Face,
    buffer: &mut hb_buffer_t,
)
    ensures { Made (deleted_removed (T.Engine.lookups plan.now.ot_map face.now) plan.now.decisions)
        buffer.old buffer.new }
{
    if plan.apply_morx() && !plan.apply_gpos() {
        T::Engine::aat_remove_deleted(buffer);
    }
}
