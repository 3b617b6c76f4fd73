//! What the shaper does at its pauses.
ghost use Rattle.std.specs.Prelude.{◌≡◌};
ghost use Rattle.shape_buffer.specs.Outcome.{IsWithinLimit, Outcome, step};
ghost use Rattle.khmer_shaper.specs.Pauses;

use crate::finding::find_syllables;
use crate::reordering::{KhmerMasks, reorder_all};
use crate::requests::{ABVF, BLWF, CFAR, PREF, PSTF, REORDER, SYLLABLES};
use shape_buffer::buffer::{ShapeError, hb_buffer_t};
use shape_buffer::interfaces::{hb_font_t, hb_ot_layout_t};
use std::alloc::Global;

/// The masks of features that belong to places of a syllable.
fn khmer_masks<F, M: hb_ot_layout_t<F>>(map: &M::Map) -> KhmerMasks
    ensures { result ≡ Pauses.khmer_masks (M.masks map.now) }
{
    KhmerMasks {
        after_base: M::get_1_mask(map, BLWF) | M::get_1_mask(map, ABVF) | M::get_1_mask(map, PSTF),
        prebase: M::get_1_mask(map, PREF),
        after_ro: M::get_1_mask(map, CFAR),
    }
}

/// Does what a pause is for. Refuses with `Length` if dotted circles would pass the limit, and
/// with `Memory`.
pub fn pause_at<F: hb_font_t, M: hb_ot_layout_t<F>>(
    alloc: Global,
    n: u32,
    map: &M::Map,
    face: &F,
    buffer: &mut hb_buffer_t,
) -> Result<(), ShapeError>
    requires { IsWithinLimit buffer.old }
    ensures { Outcome (step (Pauses.made_by_pause n (M.masks map.now) (F.face face.now))) buffer.old buffer.new result }
{
    match n {
        SYLLABLES => {
            find_syllables(buffer);
            Ok(())
        }
        REORDER => reorder_all(alloc, face, khmer_masks::<F, M>(map), buffer),
        _ => Ok(()),
    }
}
