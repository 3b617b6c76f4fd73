//! What the shaper does at its pauses.
ghost use Rattle.std.specs.Prelude.{◌≡◌};
ghost use Rattle.shape_buffer.specs.Outcome.{IsWithinLimit, Outcome, step};
ghost use Rattle.myanmar_shaper.specs.Pauses;

use crate::finding::find_syllables;
use crate::reordering::reorder_all;
use crate::requests::{REORDER, SYLLABLES};
use shape_buffer::buffer::{ShapeError, hb_buffer_t};
use shape_buffer::interfaces::hb_font_t;
use std::alloc::Global;

/// Does what a pause is for. Refuses with `Length` if dotted circles would pass the limit, and
/// with `Memory`.
pub fn pause_at<F: hb_font_t>(
    alloc: Global,
    n: u32,
    face: &F,
    buffer: &mut hb_buffer_t,
) -> Result<(), ShapeError>
    requires { IsWithinLimit buffer.old }
    ensures { Outcome (step (Pauses.made_by_pause n (F.face face.now))) buffer.old buffer.new result }
{
    match n {
        SYLLABLES => {
            find_syllables(buffer);
            Ok(())
        }
        REORDER => reorder_all(alloc, face, buffer),
        _ => Ok(()),
    }
}
