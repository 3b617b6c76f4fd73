//! The engine over the face that is opened once: what it makes is what it makes over the face
//! below, and lookups are passed over by their digests.
ghost use Rattle.std.specs.Prelude.{◌≡◌, IsOk};
ghost use Rattle.shape_buffer.specs.Outcome.{IsWithinLimit, Made, Outcome, step};
ghost use Rattle.layout_map.specs.Map.{OtMap, map_meaning};
ghost use Rattle.opentype_layout.specs.declared.face.OpenTypeFace.{OpenTypeFace as Face};
ghost use Rattle.layout_context.specs.Stages.{substituted};
ghost use Rattle.opentype_layout.specs.Engine.{gsub_tables as tables_of, opentype_layout, opentype_lookups};
ghost use Rattle.opentype_layout.specs.EngineLaws.{opentype_lookups-lawful};
ghost use Rattle.opentype_layout.specs.Lookups.{lookups_of};
ghost use Rattle.layout_map.proofs.LawfulLemmas.{map_meaning-lawful};

use crate::apple::{kern_by, position_by_kerx, substitute_by_morx, track};
use crate::chosen::script_in;
use crate::classes::begin_glyphs;
use crate::engine::{OpenTypeLayout, compiled, gpos_tables, gsub_tables, table_of};
use crate::opened::OpenedOpenTypeFace;
use crate::positioning::position_by;
use crate::stage::substitute_by;
use crate::would::feature_would;
use apple_positioning::old_tables::{has_across, has_machine};
use apple_substitution::{remove_deleted_glyphs, zero_width_deleted};
use kern_table::tables::subtable_count;
use layout_map::lookups::LookupMap;
use layout_map::map::hb_ot_map_t;
use layout_matching::would::Alone;
use layout_positions::attachment::finish_offsets;
use layout_positions::walk;
use layout_tables::gdef;
use shape_buffer::buffer::{
    Feature, Language, Script, ShapeError, hb_buffer_t, hb_mask_t, hb_tag_t,
};
use shape_buffer::interfaces::{TableIndex, hb_ot_layout_t, hb_ot_map_builder_t};
use std::alloc::Global;

/// The lookups of a stage. A call of its own: most stages of most plans have none.
#[inline(never)]
fn substitute_opened(
    alloc: Global,
    face: &OpenedOpenTypeFace<'_>,
    maps: &[LookupMap],
    buffer: &mut hb_buffer_t,
) -> Result<(), ShapeError>
    requires { IsWithinLimit buffer.old }
    ensures { Outcome (step (substituted (lookups_of (tables_of face.now) maps.now)))
        buffer.old buffer.new result }
{
    substitute_by(
        alloc,
        gsub_tables(face.face()),
        face.stored_gsub(),
        maps,
        buffer,
    )
}

impl<'a> hb_ot_layout_t<OpenedOpenTypeFace<'a>> for OpenTypeLayout {
    type Map = hb_ot_map_t;

    ghost layout = { opentype_layout };

    ghost masks = { map_meaning };

    ghost lookups = { opentype_lookups };

    fn chosen_script(
        face: &OpenedOpenTypeFace<'a>,
        script: Option<Script>,
        language: Option<&Language>,
        table: TableIndex,
    ) -> Option<hb_tag_t> {
        script_in(table_of(face.face(), table), script, language)
    }

    fn compile(
        alloc: Global,
        face: &OpenedOpenTypeFace<'a>,
        builder: &hb_ot_map_builder_t,
    ) -> Result<hb_ot_map_t, ShapeError> {
        compiled(alloc, face.face(), builder)
    }

    fn has_glyph_classes(face: &OpenedOpenTypeFace<'a>) -> bool {
        gdef::has_glyph_classes(face.face().gdef())
    }

    fn has_kerning(face: &OpenedOpenTypeFace<'a>) -> bool {
        subtable_count(face.face().kern()) != 0
    }

    fn has_machine_kerning(face: &OpenedOpenTypeFace<'a>) -> bool {
        has_machine(face.face().kern())
    }

    fn has_cross_kerning(face: &OpenedOpenTypeFace<'a>) -> bool {
        has_across(face.face().kern())
    }

    fn global_mask(map: &hb_ot_map_t) -> hb_mask_t
        ensures { result ≡ (map_meaning map.now).global_mask }
    {
        map.global_mask()
    }

    fn get_1_mask(map: &hb_ot_map_t, tag: hb_tag_t) -> hb_mask_t
        ensures { result ≡ (map_meaning map.now).one_mask tag }
    {
        map.one_mask(tag)
    }

    fn get_mask(map: &hb_ot_map_t, tag: hb_tag_t) -> (hb_mask_t, u32)
        ensures { result ≡ (map_meaning map.now).mask tag }
    {
        map.mask(tag)
    }

    fn get_feature_index(map: &hb_ot_map_t, table: TableIndex, tag: hb_tag_t) -> Option<u16>
        ensures { result ≡ (map_meaning map.now).feature_index table tag }
    {
        map.feature_index(table, tag)
    }

    fn would_substitute(
        map: &hb_ot_map_t,
        face: &OpenedOpenTypeFace<'a>,
        tag: hb_tag_t,
        glyphs: &[u32],
        zero_context: bool,
    ) -> bool {
        let alone = Alone {
            glyphs,
            zero_context,
        };
        feature_would(face.face().gsub(), map, tag, alone)
    }

    fn substitute_start(face: &OpenedOpenTypeFace<'a>, buffer: &mut hb_buffer_t) {
        begin_glyphs(face.classes(), buffer);
    }

    fn stages(map: &hb_ot_map_t) -> usize
        ensures { result ≡ (map_meaning map.now).stages }
    {
        map.stages()
    }

    fn substitute_stage(
        alloc: Global,
        map: &hb_ot_map_t,
        i: usize,
        face: &OpenedOpenTypeFace<'a>,
        buffer: &mut hb_buffer_t,
    ) -> Result<(), ShapeError> {
        let maps = map.gsub_lookups(i);
        if maps.is_empty() {
            return Ok(());
        }
        substitute_opened(alloc, face, maps, buffer)
    }

    fn pause_after(map: &hb_ot_map_t, i: usize) -> Option<u32>
        ensures { result ≡ (map_meaning map.now).pause_after i }
    {
        map.pause_after(i)
    }

    fn aat_substitute(
        alloc: Global,
        _map: &hb_ot_map_t,
        user_features: &[Feature],
        face: &OpenedOpenTypeFace<'a>,
        buffer: &mut hb_buffer_t,
    ) -> Result<(), ShapeError> {
        substitute_by_morx(alloc, face.face(), user_features, buffer)
    }

    fn aat_remove_deleted(buffer: &mut hb_buffer_t)
        ensures { (map : OtMap) (face : Face)
            → Made (opentype_lookups map face).aat_remove_deleted buffer.old buffer.new }
    {
        remove_deleted_glyphs(buffer);
    }

    fn aat_zero_width_deleted(buffer: &mut hb_buffer_t)
        ensures { (map : OtMap) (face : Face)
            → Made (opentype_lookups map face).aat_zero_width_deleted buffer.old buffer.new }
    {
        zero_width_deleted(buffer);
    }

    fn position_start(_face: &OpenedOpenTypeFace<'a>, buffer: &mut hb_buffer_t) {
        walk::position_start(buffer);
    }

    fn position(
        _alloc: Global,
        map: &hb_ot_map_t,
        face: &OpenedOpenTypeFace<'a>,
        buffer: &mut hb_buffer_t,
    ) -> Result<(), ShapeError> {
        let tables = gpos_tables(face.face());
        position_by(tables, face.stored_gpos(), map.gpos_lookups(), buffer);
        Ok(())
    }

    fn position_finish_advances(_face: &OpenedOpenTypeFace<'a>, _buffer: &mut hb_buffer_t) {}

    fn position_finish_offsets(_face: &OpenedOpenTypeFace<'a>, buffer: &mut hb_buffer_t) {
        finish_offsets(buffer);
    }

    fn aat_position(
        _alloc: Global,
        map: &hb_ot_map_t,
        kern_mask: hb_mask_t,
        face: &OpenedOpenTypeFace<'a>,
        buffer: &mut hb_buffer_t,
    ) -> Result<(), ShapeError>
        requires { IsWithinLimit buffer.old }
        ensures made { Outcome (step ((opentype_lookups map.now face.now).aat_position kern_mask))
            buffer.old buffer.new result }
        ensures ok { IsOk result }
    {
        position_by_kerx(face.face(), kern_mask, buffer);
        Ok(())
    }

    fn kern(
        _alloc: Global,
        kern_mask: hb_mask_t,
        face: &OpenedOpenTypeFace<'a>,
        buffer: &mut hb_buffer_t,
    ) -> Result<(), ShapeError>
        requires { IsWithinLimit buffer.old }
        ensures made { (map : OtMap) → Outcome (step ((opentype_lookups map face.now).kern kern_mask))
            buffer.old buffer.new result }
        ensures ok { IsOk result }
    {
        kern_by(face.face(), face.pair_sides(), kern_mask, buffer);
        Ok(())
    }

    fn aat_track(trak_mask: hb_mask_t, face: &OpenedOpenTypeFace<'a>, buffer: &mut hb_buffer_t) {
        track(face.face(), trak_mask, buffer);
    }

    ghost lawful_masks = { map_meaning-lawful };

    ghost lawful_lookups = { opentype_lookups-lawful };
}
