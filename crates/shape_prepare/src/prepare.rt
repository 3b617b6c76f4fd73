//! The steps that prepare a text, one after another.
//!
//! Each step is a function of its own whose contract says which function on buffers it is; here
//! they are made in the order of the lists, and the contract is that the whole list was run.
ghost use Rattle.shape_buffer.specs.Outcome.{RunOutcome, IsWithinLimit};
ghost use Rattle.shape_prepare.specs.PrepareSteps.{prepare_steps};

use crate::clusters::form_clusters;
use crate::dotted_circle::insert_dotted_circle;
use crate::graphemes::set_unicode_props;
use crate::hook_calls::preprocess_text;
use crate::masks::initialize_masks;
use crate::native_direction::ensure_native_direction;
use crate::rotation::rotate_chars;
use shape_buffer::buffer::{Direction, ShapeError, hb_buffer_t};
use shape_buffer::interfaces::{hb_font_t, hb_ot_layout_t, hb_unicode_funcs_t};
use shape_plan::ot_shaper::hb_ot_shaper_t;
use shape_plan::shaping_types::{Meaning, PlanOf, ShapingTypes};
use std::alloc::Global;

/// Prepares a text for normalising: masks and positions anew, properties and graphemes, a dotted
/// circle before a mark that begins the text, clusters, the native order, the shaper's
/// `preprocess_text`, and the forms for the target direction, which is the one that the text was
/// handed over in. Refuses with `Length` if a step would make the list longer than the buffer's
/// limit, and with `Memory` if a growth was refused; nothing is said of the buffer then.
pub fn prepare<T: ShapingTypes>(
    alloc: Global,
    plan: &PlanOf<'_, T>,
    face: &T::Face,
    buffer: &mut hb_buffer_t,
    target: Direction,
) -> Result<(), ShapeError>
    requires { IsWithinLimit buffer.old }
    ensures { RunOutcome (prepare_steps (⟦<T as Meaning>⟧.run plan.now face.now) target)
        buffer.old buffer.new result }
{
    initialize_masks::<T>(plan, buffer);
    set_unicode_props::<T::Unicode>(buffer);
    insert_dotted_circle::<T::Unicode, T::Face>(face, buffer)?;
    form_clusters(buffer);
    ensure_native_direction::<T::Unicode>(buffer);
    preprocess_text::<T>(alloc, plan, face, buffer)?;
    rotate_chars::<T>(plan, face, buffer, target);
    Ok(())
}
