//! What the shaper does at its pauses: it notes the tiles of signs that stretch, and makes forms
//! and ligatures for fonts whose tables have none of the four features of forms.
ghost use Rattle.std.specs.Prelude.{◌≡◌};
ghost use Rattle.shape_buffer.specs.Outcome.{IsWithinLimit, Made, Outcome, step};
ghost use Rattle.arabic_fallback.specs.Classes.{class_by};
ghost use Rattle.script_shapers.specs.ArabicPauses;
ghost use Rattle.script_shapers.specs.ArabicPauses.{masks_of};

use crate::arabic::requests::{FALLBACK, RLIG, STCH, STRETCH};
use arabic_fallback::{FallbackMasks, shape_fallback};
use arabic_stretching::record_tiles;
use letter_joining::features::{FINA, INIT, ISOL, MEDI};
use shape_buffer::buffer::{ShapeError, hb_buffer_t, hb_tag_t};
use shape_buffer::interfaces::{TableIndex, hb_font_t, hb_ot_layout_t};
use std::alloc::Global;

/// Whether a feature that is on is in neither table.
fn lacks<F, M: hb_ot_layout_t<F>>(map: &M::Map, tag: hb_tag_t) -> bool
    ensures { result ≡ ArabicPauses.lacks (M.masks map.now) tag }
{
    M::get_1_mask(map, tag) != 0
        && M::get_feature_index(map, TableIndex::GSUB, tag).is_none()
        && M::get_feature_index(map, TableIndex::GPOS, tag).is_none()
}

/// Whether each of the four features of forms is on and in neither table.
fn lacks_forms<F, M: hb_ot_layout_t<F>>(map: &M::Map) -> bool
    ensures { result ≡ ArabicPauses.lacks_forms (M.masks map.now) }
{
    lacks::<F, M>(map, ISOL)
        && lacks::<F, M>(map, FINA)
        && lacks::<F, M>(map, MEDI)
        && lacks::<F, M>(map, INIT)
}

/// The masks of the features that are done without lookups.
fn masks_of<F, M: hb_ot_layout_t<F>>(map: &M::Map) -> FallbackMasks
    ensures { result ≡ masks_of (M.masks map.now).one_mask }
{
    FallbackMasks {
        init: M::get_1_mask(map, INIT),
        medi: M::get_1_mask(map, MEDI),
        fina: M::get_1_mask(map, FINA),
        isol: M::get_1_mask(map, ISOL),
        rlig: M::get_1_mask(map, RLIG),
    }
}

/// Notes the tiles of signs that stretch, if the font has their feature.
fn note_tiles<F, M: hb_ot_layout_t<F>>(map: &M::Map, buffer: &mut hb_buffer_t)
    ensures { Made (ArabicPauses.tiles_noted (M.masks map.now)) buffer.old buffer.new }
{
    if M::get_1_mask(map, STCH) != 0 {
        record_tiles(buffer);
    }
}

/// Puts letters in their forms and makes their ligatures, if the tables have no forms. Refuses with
/// `Memory` alone.
fn make_forms<F: hb_font_t, M: hb_ot_layout_t<F>>(
    alloc: Global,
    map: &M::Map,
    face: &F,
    buffer: &mut hb_buffer_t,
) -> Result<(), ShapeError>
    requires { IsWithinLimit buffer.old }
    ensures { Outcome (step (ArabicPauses.forms_made (M.masks map.now) (F.face face.now)
        (class_by (M.layout face.now).has_glyph_classes
        (M.lookups map.now face.now).substitute_start)))
        buffer.old buffer.new result }
{
    if !lacks_forms::<F, M>(map) {
        return Ok(());
    }
    shape_fallback::<F, M>(alloc, face, map, masks_of::<F, M>(map), buffer)
}

/// Does what a pause is for: notes tiles after `stch`, makes forms after `rlig`. Refuses with
/// `Memory` alone.
pub fn pause_at<F: hb_font_t, M: hb_ot_layout_t<F>>(
    alloc: Global,
    n: u32,
    map: &M::Map,
    face: &F,
    buffer: &mut hb_buffer_t,
) -> Result<(), ShapeError>
    requires { IsWithinLimit buffer.old }
    ensures { Outcome (step (ArabicPauses.made_by_pause n (M.masks map.now) (F.face face.now)
        (class_by (M.layout face.now).has_glyph_classes
        (M.lookups map.now face.now).substitute_start)))
        buffer.old buffer.new result }
{
    match n {
        STRETCH => {
            note_tiles::<F, M>(map, buffer);
            Ok(())
        }
        FALLBACK => make_forms::<F, M>(alloc, map, face, buffer),
        _ => Ok(()),
    }
}
