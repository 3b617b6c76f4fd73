//! What the shaper does at its pauses: it finds syllables, puts them in the order that lookups
//! want, and settles them once the basic forms are made.
ghost use Rattle.std.specs.Prelude.{◌≡◌};
ghost use Rattle.shape_buffer.specs.Outcome.{IsWithinLimit, Made, Outcome, step};
ghost use Rattle.indic_shaper.specs.Pauses;

use crate::cutting::find_syllables;
use crate::engine::facts_of;
use crate::initial::order_all;
use crate::requests::{FINAL, INITIAL, SYLLABLES};
use crate::settling::settle_all;
use shape_buffer::buffer::{Script, ShapeError, hb_buffer_t};
use shape_buffer::interfaces::{hb_font_t, hb_ot_layout_t};
use std::alloc::Global;

/// Puts syllables in the order that lookups want.
fn order_by<F: hb_font_t, M: hb_ot_layout_t<F>>(
    alloc: Global,
    map: &M::Map,
    face: &F,
    script: Option<Script>,
    buffer: &mut hb_buffer_t,
) -> Result<(), ShapeError>
    requires { IsWithinLimit buffer.old }
    ensures { Outcome (step (Pauses.ordered_by (F.face face.now) (M.layout face.now)
        (M.masks map.now) (M.lookups map.now face.now) script)) buffer.old buffer.new result }
{
    let facts = facts_of::<F, M>(map, face, script, buffer);
    order_all::<F, M>(alloc, map, face, &facts, buffer)
}

/// Settles syllables once the basic forms are made.
fn settle_by<F: hb_font_t, M: hb_ot_layout_t<F>>(
    map: &M::Map,
    face: &F,
    script: Option<Script>,
    buffer: &mut hb_buffer_t,
)
    ensures { Made (Pauses.settled_by (F.face face.now) (M.layout face.now) (M.masks map.now)
        script) buffer.old buffer.new }
{
    let facts = facts_of::<F, M>(map, face, script, buffer);
    settle_all(&facts, buffer);
}

/// Does what a pause is for. Refuses with `Length` if dotted circles would pass the limit, and
/// with `Memory`.
pub fn pause_at<F: hb_font_t, M: hb_ot_layout_t<F>>(
    alloc: Global,
    n: u32,
    map: &M::Map,
    face: &F,
    script: Option<Script>,
    buffer: &mut hb_buffer_t,
) -> Result<(), ShapeError>
    requires { IsWithinLimit buffer.old }
    ensures { Outcome (step (Pauses.made_by_pause n (F.face face.now) (M.layout face.now)
        (M.masks map.now) (M.lookups map.now face.now) script)) buffer.old buffer.new result }
{
    match n {
        SYLLABLES => {
            find_syllables(buffer);
            Ok(())
        }
        INITIAL => order_by::<F, M>(alloc, map, face, script, buffer),
        FINAL => {
            settle_by::<F, M>(map, face, script, buffer);
            Ok(())
        }
        _ => Ok(()),
    }
}
