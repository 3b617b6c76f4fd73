//! What the shaper does at its pauses.
ghost use Rattle.std.specs.Prelude.{◌≡◌};
ghost use Rattle.shape_buffer.specs.Outcome.{IsWithinLimit, Made, Outcome, step};
ghost use Rattle.universal_shaper.specs.Pauses;

use crate::finding::find_syllables;
use crate::joining::joins;
use crate::masks::{FormMasks, mask_rephas, own_masks, set_forms_if_any};
use crate::recording::{clear_substitutions, record_prebases, record_rephas};
use crate::reordering::reorder_all;
use crate::requests::{
    CLEAR, FINA, INIT, ISOL, MEDI, RECORD_PREBASE, RECORD_REPHA, REORDER, RPHF, SYLLABLES,
};
use shape_buffer::buffer::{Script, ShapeError, hb_buffer_t, hb_mask_t};
use shape_buffer::interfaces::{hb_font_t, hb_ot_layout_t};
use std::alloc::Global;

/// The masks of the forms of syllables.
fn form_masks<F, M: hb_ot_layout_t<F>>(map: &M::Map) -> FormMasks
    ensures { result ≡ Pauses.form_masks (M.masks map.now) }
{
    let masks = FormMasks {
        isol: M::get_1_mask(map, ISOL),
        init: M::get_1_mask(map, INIT),
        medi: M::get_1_mask(map, MEDI),
        fina: M::get_1_mask(map, FINA),
    };
    own_masks(masks, M::global_mask(map))
}

/// Masks the beginnings of syllables if the font has signs for a repha.
fn mask_rephas_if(mask: hb_mask_t, buffer: &mut hb_buffer_t)
    ensures { Made (Pauses.rephas_masked_if mask) buffer.old buffer.new }
{
    if mask != 0 {
        mask_rephas(mask, buffer);
    }
}

/// Sets the forms of syllables unless letters have forms of their own.
fn set_forms_unless(joins: bool, masks: FormMasks, buffer: &mut hb_buffer_t)
    ensures { Made (Pauses.forms_set_unless joins masks) buffer.old buffer.new }
{
    if !joins {
        set_forms_if_any(masks, buffer);
    }
}

/// Finds syllables, and masks what belongs to their places.
fn set_up(repha: hb_mask_t, joins: bool, forms: FormMasks, buffer: &mut hb_buffer_t)
    ensures { Made (Pauses.set_up repha joins forms) buffer.old buffer.new }
{
    find_syllables(buffer);
    mask_rephas_if(repha, buffer);
    set_forms_unless(joins, forms, buffer);
}

/// Notes signs for a repha if the font has them.
fn record_rephas_if(mask: hb_mask_t, buffer: &mut hb_buffer_t)
    ensures { Made (Pauses.rephas_recorded_if mask) buffer.old buffer.new }
{
    if mask != 0 {
        record_rephas(mask, buffer);
    }
}

/// Does what a pause is for. Refuses with `Length` if dotted circles would pass the limit, and with
/// `Memory`.
pub fn pause_at<F: hb_font_t, M: hb_ot_layout_t<F>>(
    alloc: Global,
    n: u32,
    map: &M::Map,
    script: Option<Script>,
    face: &F,
    buffer: &mut hb_buffer_t,
) -> Result<(), ShapeError>
    requires { IsWithinLimit buffer.old }
    ensures { Outcome (step (Pauses.made_by_pause n (M.masks map.now) script (F.face face.now)))
        buffer.old buffer.new result }
{
    match n {
        SYLLABLES => {
            set_up(
                M::get_1_mask(map, RPHF),
                joins(script),
                form_masks::<F, M>(map),
                buffer,
            );
            Ok(())
        }
        CLEAR => {
            clear_substitutions(buffer);
            Ok(())
        }
        RECORD_REPHA => {
            record_rephas_if(M::get_1_mask(map, RPHF), buffer);
            Ok(())
        }
        RECORD_PREBASE => {
            record_prebases(buffer);
            Ok(())
        }
        REORDER => reorder_all(alloc, face, buffer),
        _ => Ok(()),
    }
}
