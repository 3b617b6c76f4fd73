//! Layout engines over an opened face: what an engine does over the face below.
//!
//! Engines read tables of a font, and do so by the face without tables beside it; so each call is
//! passed on with that face, and what is proved of the engine holds over the opened face.
ghost use Rattle.std.specs.Prelude.{◌≡◌};

use crate::face::OpenedFace;
use crate::kerning::{AsBelow, ByStoredPairs, KernsOpened};
use kern_table::KernTable;
use shape_buffer::buffer::{
    Feature, Language, Script, ShapeError, hb_buffer_t, hb_mask_t, hb_tag_t,
};
use shape_buffer::interfaces::{TableIndex, hb_ot_layout_t, hb_ot_map_builder_t};
use shape_font::FontFace;
use std::alloc::Global;
use std::marker::PhantomData;

/// The engine `M` over faces that are opened once, which kerns in the way `K`.
pub struct OverOpenedBy<M, K> {
    engine: PhantomData<M>,
    kerning: PhantomData<K>,
}

/// The engine `M` over faces that are opened once.
pub type OverOpened<M> = OverOpenedBy<M, AsBelow>;

/// The engine `KernTable` over faces that are opened once: it seeks no pair of which one glyph has
/// none.
pub type OpenedKernTable = OverOpenedBy<KernTable, ByStoredPairs>;

impl<'a, M: hb_ot_layout_t<FontFace<'a>>, K: KernsOpened<'a, M>> hb_ot_layout_t<OpenedFace<'a>>
    for OverOpenedBy<M, K> {
    type Map = M::Map;

    ghost layout = { M.layout };

    ghost masks = { M.masks };

    ghost lookups = { M.lookups };

    fn chosen_script(
        face: &OpenedFace<'a>,
        script: Option<Script>,
        language: Option<&Language>,
        table: TableIndex,
    ) -> Option<hb_tag_t> {
        M::chosen_script(face.face(), script, language, table)
    }

    fn compile(
        alloc: Global,
        face: &OpenedFace<'a>,
        builder: &hb_ot_map_builder_t,
    ) -> Result<M::Map, ShapeError> {
        M::compile(alloc, face.face(), builder)
    }

    fn has_glyph_classes(face: &OpenedFace<'a>) -> bool {
        M::has_glyph_classes(face.face())
    }

    fn has_kerning(face: &OpenedFace<'a>) -> bool {
        M::has_kerning(face.face())
    }

    fn has_machine_kerning(face: &OpenedFace<'a>) -> bool {
        M::has_machine_kerning(face.face())
    }

    fn has_cross_kerning(face: &OpenedFace<'a>) -> bool {
        M::has_cross_kerning(face.face())
    }

    fn global_mask(map: &M::Map) -> hb_mask_t {
        M::global_mask(map)
    }

    fn get_1_mask(map: &M::Map, tag: hb_tag_t) -> hb_mask_t {
        M::get_1_mask(map, tag)
    }

    fn get_mask(map: &M::Map, tag: hb_tag_t) -> (hb_mask_t, u32) {
        M::get_mask(map, tag)
    }

    fn get_feature_index(map: &M::Map, table: TableIndex, tag: hb_tag_t) -> Option<u16> {
        M::get_feature_index(map, table, tag)
    }

    fn would_substitute(
        map: &Self::Map,
        face: &OpenedFace<'a>,
        tag: hb_tag_t,
        glyphs: &[u32],
        zero_context: bool,
    ) -> bool {
        M::would_substitute(map, face.face(), tag, glyphs, zero_context)
    }

    fn substitute_start(face: &OpenedFace<'a>, buffer: &mut hb_buffer_t) {
        M::substitute_start(face.face(), buffer)
    }

    fn stages(map: &M::Map) -> usize {
        M::stages(map)
    }

    fn substitute_stage(
        alloc: Global,
        map: &M::Map,
        i: usize,
        face: &OpenedFace<'a>,
        buffer: &mut hb_buffer_t,
    ) -> Result<(), ShapeError> {
        M::substitute_stage(alloc, map, i, face.face(), buffer)
    }

    fn pause_after(map: &M::Map, i: usize) -> Option<u32> {
        M::pause_after(map, i)
    }

    fn aat_substitute(
        alloc: Global,
        map: &M::Map,
        user_features: &[Feature],
        face: &OpenedFace<'a>,
        buffer: &mut hb_buffer_t,
    ) -> Result<(), ShapeError> {
        M::aat_substitute(alloc, map, user_features, face.face(), buffer)
    }

    fn aat_remove_deleted(buffer: &mut hb_buffer_t) {
        M::aat_remove_deleted(buffer)
    }

    fn aat_zero_width_deleted(buffer: &mut hb_buffer_t) {
        M::aat_zero_width_deleted(buffer)
    }

    fn position_start(face: &OpenedFace<'a>, buffer: &mut hb_buffer_t) {
        M::position_start(face.face(), buffer)
    }

    fn position(
        alloc: Global,
        map: &M::Map,
        face: &OpenedFace<'a>,
        buffer: &mut hb_buffer_t,
    ) -> Result<(), ShapeError> {
        M::position(alloc, map, face.face(), buffer)
    }

    fn position_finish_advances(face: &OpenedFace<'a>, buffer: &mut hb_buffer_t) {
        M::position_finish_advances(face.face(), buffer)
    }

    fn position_finish_offsets(face: &OpenedFace<'a>, buffer: &mut hb_buffer_t) {
        M::position_finish_offsets(face.face(), buffer)
    }

    fn aat_position(
        alloc: Global,
        map: &M::Map,
        kern_mask: hb_mask_t,
        face: &OpenedFace<'a>,
        buffer: &mut hb_buffer_t,
    ) -> Result<(), ShapeError> {
        M::aat_position(alloc, map, kern_mask, face.face(), buffer)
    }

    fn kern(
        alloc: Global,
        kern_mask: hb_mask_t,
        face: &OpenedFace<'a>,
        buffer: &mut hb_buffer_t,
    ) -> Result<(), ShapeError> {
        K::kern(alloc, kern_mask, face, buffer)
    }

    fn aat_track(trak_mask: hb_mask_t, face: &OpenedFace<'a>, buffer: &mut hb_buffer_t) {
        M::aat_track(trak_mask, face.face(), buffer)
    }

    ghost lawful_masks = { M.lawful_masks };

    ghost lawful_lookups = { M.lawful_lookups };
}
