//! A layout engine for faces without tables of lookups.
ghost use Rattle.shape_buffer.specs.NoLookups.{no_layout, no_masks, no_lookups, no_masks-lawful};
ghost use Rattle.shape_buffer.specs.NoLookups.{no_lookups-lawful};

use crate::buffer::{Feature, Language, Script, ShapeError, hb_buffer_t, hb_mask_t, hb_tag_t};
use crate::interfaces::layout::hb_ot_layout_t;
use crate::interfaces::map_builder::hb_ot_map_builder_t;
use crate::interfaces::map_request::TableIndex;
use std::alloc::Global;

/// The engine that chooses no script, has no mask, no stage and no kerning, and changes nothing,
/// whatever the face. Start from it if a face has no lookups, or if there is no engine yet.
pub struct NoLookups;

impl<F> hb_ot_layout_t<F> for NoLookups {
    type Map = ();

    ghost layout = { λ _. no_layout };

    ghost masks = { λ _. no_masks };

    ghost lookups = { λ _ _. no_lookups };

    fn chosen_script(
        _face: &F,
        _script: Option<Script>,
        _language: Option<&Language>,
        _table: TableIndex,
    ) -> Option<hb_tag_t> {
        None
    }

    fn compile(
        _alloc: Global,
        _face: &F,
        _builder: &hb_ot_map_builder_t,
    ) -> Result<(), ShapeError> {
        Ok(())
    }

    fn has_glyph_classes(_face: &F) -> bool {
        false
    }

    fn has_kerning(_face: &F) -> bool {
        false
    }

    fn has_machine_kerning(_face: &F) -> bool {
        false
    }

    fn has_cross_kerning(_face: &F) -> bool {
        false
    }

    fn global_mask(_map: &()) -> hb_mask_t {
        0
    }

    fn get_1_mask(_map: &(), _tag: hb_tag_t) -> hb_mask_t {
        0
    }

    fn get_mask(_map: &(), _tag: hb_tag_t) -> (hb_mask_t, u32) {
        (0, 0)
    }

    fn get_feature_index(_map: &(), _table: TableIndex, _tag: hb_tag_t) -> Option<u16> {
        None
    }

    fn would_substitute(
        _map: &(),
        _face: &F,
        _tag: hb_tag_t,
        _glyphs: &[u32],
        _zero_context: bool,
    ) -> bool {
        false
    }

    fn substitute_start(_face: &F, _buffer: &mut hb_buffer_t) {}

    fn stages(_map: &()) -> usize {
        0
    }

    fn substitute_stage(
        _alloc: Global,
        _map: &(),
        _i: usize,
        _face: &F,
        _buffer: &mut hb_buffer_t,
    ) -> Result<(), ShapeError> {
        Ok(())
    }

    fn pause_after(_map: &(), _i: usize) -> Option<u32> {
        None
    }

    fn aat_substitute(
        _alloc: Global,
        _map: &(),
        _user_features: &[Feature],
        _face: &F,
        _buffer: &mut hb_buffer_t,
    ) -> Result<(), ShapeError> {
        Ok(())
    }

    fn aat_remove_deleted(_buffer: &mut hb_buffer_t) {}

    fn aat_zero_width_deleted(_buffer: &mut hb_buffer_t) {}

    fn position_start(_face: &F, _buffer: &mut hb_buffer_t) {}

    fn position(
        _alloc: Global,
        _map: &(),
        _face: &F,
        _buffer: &mut hb_buffer_t,
    ) -> Result<(), ShapeError> {
        Ok(())
    }

    fn position_finish_advances(_face: &F, _buffer: &mut hb_buffer_t) {}

    fn position_finish_offsets(_face: &F, _buffer: &mut hb_buffer_t) {}

    fn aat_position(
        _alloc: Global,
        _map: &(),
        _kern_mask: hb_mask_t,
        _face: &F,
        _buffer: &mut hb_buffer_t,
    ) -> Result<(), ShapeError> {
        Ok(())
    }

    fn kern(
        _alloc: Global,
        _kern_mask: hb_mask_t,
        _face: &F,
        _buffer: &mut hb_buffer_t,
    ) -> Result<(), ShapeError> {
        Ok(())
    }

    fn aat_track(_trak_mask: hb_mask_t, _face: &F, _buffer: &mut hb_buffer_t) {}

    ghost lawful_masks = { λ _. no_masks-lawful };

    ghost lawful_lookups = { λ _ _. no_lookups-lawful };
}
