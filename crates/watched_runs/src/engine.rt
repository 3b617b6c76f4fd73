//! Engines that are watched.
use crate::face::{Moment, WatchedFace, watcher};
use shape_buffer::buffer::{
    Feature, Language, Script, ShapeError, hb_buffer_t, hb_mask_t, hb_tag_t,
};
use shape_buffer::interfaces::{TableIndex, hb_font_t, hb_ot_layout_t, hb_ot_map_builder_t};
use std::alloc::Global;
use std::marker::PhantomData;

/// The engine `M`, watched over [`WatchedFace`].
pub struct Watched<M> {
    engine: PhantomData<M>,
}

impl<'a, F, W, M> hb_ot_layout_t<WatchedFace<'a, F, W>> for Watched<M>
where
    F: hb_font_t,
    M: hb_ot_layout_t<F>,
    W: watcher<M::Map>,
{
    type Map = M::Map;

    ghost layout = { λ w. M.layout w.face.now };

    ghost masks = { M.masks };

    ghost lookups = { λ map w. M.lookups map w.face.now };

    fn chosen_script(
        face: &WatchedFace<'a, F, W>,
        script: Option<Script>,
        language: Option<&Language>,
        table: TableIndex,
    ) -> Option<hb_tag_t> {
        M::chosen_script(face.face, script, language, table)
    }

    fn compile(
        alloc: Global,
        face: &WatchedFace<'a, F, W>,
        builder: &hb_ot_map_builder_t,
    ) -> Result<M::Map, ShapeError> {
        M::compile(alloc, face.face, builder)
    }

    fn has_glyph_classes(face: &WatchedFace<'a, F, W>) -> bool {
        M::has_glyph_classes(face.face)
    }

    fn has_kerning(face: &WatchedFace<'a, F, W>) -> bool {
        M::has_kerning(face.face)
    }

    fn has_machine_kerning(face: &WatchedFace<'a, F, W>) -> bool {
        M::has_machine_kerning(face.face)
    }

    fn has_cross_kerning(face: &WatchedFace<'a, F, W>) -> bool {
        M::has_cross_kerning(face.face)
    }

    fn global_mask(map: &M::Map) -> hb_mask_t {
        M::global_mask(map)
    }

    fn get_1_mask(map: &M::Map, tag: hb_tag_t) -> hb_mask_t {
        M::get_1_mask(map, tag)
    }

    fn get_mask(map: &M::Map, tag: hb_tag_t) -> (hb_mask_t, u32) {
        M::get_mask(map, tag)
    }

    fn get_feature_index(map: &M::Map, table: TableIndex, tag: hb_tag_t) -> Option<u16> {
        M::get_feature_index(map, table, tag)
    }

    fn would_substitute(
        map: &M::Map,
        face: &WatchedFace<'a, F, W>,
        tag: hb_tag_t,
        glyphs: &[u32],
        zero_context: bool,
    ) -> bool {
        M::would_substitute(map, face.face, tag, glyphs, zero_context)
    }

    fn substitute_start(face: &WatchedFace<'a, F, W>, buffer: &mut hb_buffer_t) {
        M::substitute_start(face.face, buffer);
        face.watcher.sees(Moment::BeforeStages, buffer);
    }

    fn stages(map: &M::Map) -> usize {
        M::stages(map)
    }

    fn substitute_stage(
        alloc: Global,
        map: &M::Map,
        i: usize,
        face: &WatchedFace<'a, F, W>,
        buffer: &mut hb_buffer_t,
    ) -> Result<(), ShapeError> {
        let done = M::substitute_stage(alloc, map, i, face.face, buffer);
        face.watcher.sees_lookups(Moment::Stage(i), map, buffer);
        done
    }

    fn pause_after(map: &M::Map, i: usize) -> Option<u32> {
        M::pause_after(map, i)
    }

    fn aat_substitute(
        alloc: Global,
        map: &M::Map,
        user_features: &[Feature],
        face: &WatchedFace<'a, F, W>,
        buffer: &mut hb_buffer_t,
    ) -> Result<(), ShapeError> {
        let done = M::aat_substitute(alloc, map, user_features, face.face, buffer);
        face.watcher.sees(Moment::Metamorphosed, buffer);
        done
    }

    fn aat_remove_deleted(buffer: &mut hb_buffer_t) {
        M::aat_remove_deleted(buffer);
    }

    fn aat_zero_width_deleted(buffer: &mut hb_buffer_t) {
        M::aat_zero_width_deleted(buffer);
    }

    fn position_start(face: &WatchedFace<'a, F, W>, buffer: &mut hb_buffer_t) {
        M::position_start(face.face, buffer);
        face.watcher.sees(Moment::BeforePlacing, buffer);
    }

    fn position(
        alloc: Global,
        map: &M::Map,
        face: &WatchedFace<'a, F, W>,
        buffer: &mut hb_buffer_t,
    ) -> Result<(), ShapeError> {
        let done = M::position(alloc, map, face.face, buffer);
        face.watcher.sees_lookups(Moment::Placed, map, buffer);
        done
    }

    fn position_finish_advances(face: &WatchedFace<'a, F, W>, buffer: &mut hb_buffer_t) {
        M::position_finish_advances(face.face, buffer);
    }

    fn position_finish_offsets(face: &WatchedFace<'a, F, W>, buffer: &mut hb_buffer_t) {
        M::position_finish_offsets(face.face, buffer);
    }

    fn aat_position(
        alloc: Global,
        map: &M::Map,
        kern_mask: hb_mask_t,
        face: &WatchedFace<'a, F, W>,
        buffer: &mut hb_buffer_t,
    ) -> Result<(), ShapeError> {
        let done = M::aat_position(alloc, map, kern_mask, face.face, buffer);
        face.watcher.sees(Moment::PlacedByKerx, buffer);
        done
    }

    fn kern(
        alloc: Global,
        kern_mask: hb_mask_t,
        face: &WatchedFace<'a, F, W>,
        buffer: &mut hb_buffer_t,
    ) -> Result<(), ShapeError> {
        let done = M::kern(alloc, kern_mask, face.face, buffer);
        face.watcher.sees(Moment::Kerned, buffer);
        done
    }

    fn aat_track(trak_mask: hb_mask_t, face: &WatchedFace<'a, F, W>, buffer: &mut hb_buffer_t) {
        M::aat_track(trak_mask, face.face, buffer);
        face.watcher.sees(Moment::Tracked, buffer);
    }

    ghost lawful_masks = { M.lawful_masks };

    ghost lawful_lookups = { λ map w. M.lawful_lookups map w.face.now };
}
