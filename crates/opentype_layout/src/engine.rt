//! The engine.
ghost use Rattle.std.specs.Prelude.{◌≡◌, IsOk, MatchResult};
ghost use Rattle.shape_buffer.specs.Outcome.{IsWithinLimit, Made, Outcome, step};
ghost use Rattle.layout_map.specs.Map.{OtMap, map_meaning};
ghost use Rattle.opentype_layout.specs.declared.face.OpenTypeFace.{OpenTypeFace as Face};
ghost use Rattle.opentype_layout.specs.Engine;
ghost use Rattle.opentype_layout.specs.Lookups.{lookups_of};
ghost use Rattle.opentype_layout.specs.EngineLaws.{opentype_lookups-lawful};
ghost use Rattle.layout_map.proofs.LawfulLemmas.{map_meaning-lawful};

use crate::apple::{kern_by, position_by_kerx, substitute_by_morx, track};
use crate::chosen::{chosen_for, script_in};
use crate::classes::{GlyphClasses, begin_glyphs};
use crate::face::OpenTypeFace;
use crate::lookups::{LookupTables, Stored};
use crate::positioning::position_by;
use crate::stage::substitute_by;
use crate::would::feature_would;
use apple_positioning::old_tables::{has_across, has_machine};
use apple_substitution::{remove_deleted_glyphs, zero_width_deleted};
use kern_table::Sides;
use kern_table::tables::subtable_count;
use layout_map::map::hb_ot_map_t;
use layout_matching::would::Alone;
use layout_positions::attachment::finish_offsets;
use layout_positions::walk;
use layout_tables::gdef;
use shape_buffer::buffer::{
    Feature, Language, Script, ShapeError, hb_buffer_t, hb_mask_t, hb_tag_t,
};
use shape_buffer::interfaces::{TableIndex, hb_ot_layout_t, hb_ot_map_builder_t};
use std::alloc::Global;

/// The engine of OpenType layout: `GDEF`, `GSUB` and `GPOS`, and `kern` in texts that `GPOS`
/// doesn't kern.
pub struct OpenTypeLayout;

/// A table of lookups.
pub(crate) fn table_of<'a>(face: &OpenTypeFace<'a>, table: TableIndex) -> &'a [u8]
    ensures { result.now ≡ Engine.table_of face.now table }
{
    match table {
        TableIndex::GSUB => face.gsub(),
        TableIndex::GPOS => face.gpos(),
    }
}

/// The tables that lookups of substitution read.
pub(crate) fn gsub_tables<'a>(face: &OpenTypeFace<'a>) -> LookupTables<'a>
    ensures { result ≡ Engine.gsub_tables face.now }
{
    LookupTables {
        table: face.gsub(),
        gdef: face.gdef(),
        coordinates: face.coordinates(),
        device_work: 0,
        scale: None,
        positioning: false,
    }
}

/// The tables that lookups of positioning read.
pub(crate) fn gpos_tables<'a>(face: &OpenTypeFace<'a>) -> LookupTables<'a>
    ensures { result ≡ Engine.gpos_tables face.now }
{
    LookupTables {
        table: face.gpos(),
        gdef: face.gdef(),
        coordinates: face.coordinates(),
        device_work: face.device_work(),
        scale: face.scale(),
        positioning: true,
    }
}

/// Compiles the requests of a plan for the scripts that it has chosen. Refuses with `Memory` alone,
/// if a growth was refused.
pub(crate) fn compiled(
    alloc: Global,
    face: &OpenTypeFace<'_>,
    builder: &hb_ot_map_builder_t,
) -> Result<hb_ot_map_t, ShapeError>
    ensures { MatchResult result (λ map. map ≡ Engine.map_of face.now builder.now) (λ e. e
        ≡ ShapeError.Memory) }
{
    let coordinates = face.coordinates();
    let gsub = chosen_for(face.gsub(), coordinates, TableIndex::GSUB, builder);
    let gpos = chosen_for(face.gpos(), coordinates, TableIndex::GPOS, builder);
    match hb_ot_map_t::compile(alloc, &gsub, &gpos, builder.requests()) {
        Ok(map) => Ok(map),
        Err(_) => Err(ShapeError::Memory),
    }
}

impl<'a> hb_ot_layout_t<OpenTypeFace<'a>> for OpenTypeLayout {
    type Map = hb_ot_map_t;

    ghost layout = { Engine.opentype_layout };

    ghost masks = { map_meaning };

    ghost lookups = { Engine.opentype_lookups };

    fn chosen_script(
        face: &OpenTypeFace<'a>,
        script: Option<Script>,
        language: Option<&Language>,
        table: TableIndex,
    ) -> Option<hb_tag_t> {
        script_in(table_of(face, table), script, language)
    }

    fn compile(
        alloc: Global,
        face: &OpenTypeFace<'a>,
        builder: &hb_ot_map_builder_t,
    ) -> Result<hb_ot_map_t, ShapeError> {
        compiled(alloc, face, builder)
    }

    fn has_glyph_classes(face: &OpenTypeFace<'a>) -> bool {
        gdef::has_glyph_classes(face.gdef())
    }

    fn has_kerning(face: &OpenTypeFace<'a>) -> bool {
        subtable_count(face.kern()) != 0
    }

    fn has_machine_kerning(face: &OpenTypeFace<'a>) -> bool {
        has_machine(face.kern())
    }

    fn has_cross_kerning(face: &OpenTypeFace<'a>) -> bool {
        has_across(face.kern())
    }

    fn global_mask(map: &hb_ot_map_t) -> hb_mask_t
        ensures { result ≡ (map_meaning map.now).global_mask }
    {
        map.global_mask()
    }

    fn get_1_mask(map: &hb_ot_map_t, tag: hb_tag_t) -> hb_mask_t
        ensures { result ≡ (map_meaning map.now).one_mask tag }
    {
        map.one_mask(tag)
    }

    fn get_mask(map: &hb_ot_map_t, tag: hb_tag_t) -> (hb_mask_t, u32)
        ensures { result ≡ (map_meaning map.now).mask tag }
    {
        map.mask(tag)
    }

    fn get_feature_index(map: &hb_ot_map_t, table: TableIndex, tag: hb_tag_t) -> Option<u16>
        ensures { result ≡ (map_meaning map.now).feature_index table tag }
    {
        map.feature_index(table, tag)
    }

    fn would_substitute(
        map: &hb_ot_map_t,
        face: &OpenTypeFace<'a>,
        tag: hb_tag_t,
        glyphs: &[u32],
        zero_context: bool,
    ) -> bool {
        let alone = Alone {
            glyphs,
            zero_context,
        };
        feature_would(face.gsub(), map, tag, alone)
    }

    fn substitute_start(face: &OpenTypeFace<'a>, buffer: &mut hb_buffer_t) {
        begin_glyphs(GlyphClasses::new(face.gdef(), &[]), buffer);
    }

    fn stages(map: &hb_ot_map_t) -> usize
        ensures { result ≡ (map_meaning map.now).stages }
    {
        map.stages()
    }

    fn substitute_stage(
        alloc: Global,
        map: &hb_ot_map_t,
        i: usize,
        face: &OpenTypeFace<'a>,
        buffer: &mut hb_buffer_t,
    ) -> Result<(), ShapeError> {
        substitute_by(
            alloc,
            gsub_tables(face),
            Stored {
                lookups: &[],
                firsts: &[],
                sets: &[],
                wholes: &[],
            },
            map.gsub_lookups(i),
            buffer,
        )
    }

    fn pause_after(map: &hb_ot_map_t, i: usize) -> Option<u32>
        ensures { result ≡ (map_meaning map.now).pause_after i }
    {
        map.pause_after(i)
    }

    fn aat_substitute(
        alloc: Global,
        _map: &hb_ot_map_t,
        user_features: &[Feature],
        face: &OpenTypeFace<'a>,
        buffer: &mut hb_buffer_t,
    ) -> Result<(), ShapeError> {
        substitute_by_morx(alloc, face, user_features, buffer)
    }

    fn aat_remove_deleted(buffer: &mut hb_buffer_t)
        ensures { (map : OtMap) (face : Face)
            → Made (Engine.opentype_lookups map face).aat_remove_deleted buffer.old buffer.new }
    {
        remove_deleted_glyphs(buffer);
    }

    fn aat_zero_width_deleted(buffer: &mut hb_buffer_t)
        ensures { (map : OtMap) (face : Face)
            → Made (Engine.opentype_lookups map face).aat_zero_width_deleted buffer.old buffer.new }
    {
        zero_width_deleted(buffer);
    }

    fn position_start(_face: &OpenTypeFace<'a>, buffer: &mut hb_buffer_t) {
        walk::position_start(buffer);
    }

    fn position(
        _alloc: Global,
        map: &hb_ot_map_t,
        face: &OpenTypeFace<'a>,
        buffer: &mut hb_buffer_t,
    ) -> Result<(), ShapeError> {
        let none = Stored {
            lookups: &[],
            firsts: &[],
            sets: &[],
            wholes: &[],
        };
        position_by(gpos_tables(face), none, map.gpos_lookups(), buffer);
        Ok(())
    }

    fn position_finish_advances(_face: &OpenTypeFace<'a>, _buffer: &mut hb_buffer_t) {}

    fn position_finish_offsets(_face: &OpenTypeFace<'a>, buffer: &mut hb_buffer_t) {
        finish_offsets(buffer);
    }

    fn aat_position(
        _alloc: Global,
        map: &hb_ot_map_t,
        kern_mask: hb_mask_t,
        face: &OpenTypeFace<'a>,
        buffer: &mut hb_buffer_t,
    ) -> Result<(), ShapeError>
        requires { IsWithinLimit buffer.old }
        ensures made { Outcome (step ((Engine.opentype_lookups map.now face.now).aat_position kern_mask))
            buffer.old buffer.new result }
        ensures ok { IsOk result }
    {
        position_by_kerx(face, kern_mask, buffer);
        Ok(())
    }

    fn kern(
        _alloc: Global,
        kern_mask: hb_mask_t,
        face: &OpenTypeFace<'a>,
        buffer: &mut hb_buffer_t,
    ) -> Result<(), ShapeError>
        requires { IsWithinLimit buffer.old }
        ensures made { (map : OtMap) → Outcome (step ((Engine.opentype_lookups map face.now).kern kern_mask))
            buffer.old buffer.new result }
        ensures ok { IsOk result }
    {
        kern_by(face, Sides::none(), kern_mask, buffer);
        Ok(())
    }

    fn aat_track(trak_mask: hb_mask_t, face: &OpenTypeFace<'a>, buffer: &mut hb_buffer_t) {
        track(face, trak_mask, buffer);
    }

    ghost lawful_masks = { map_meaning-lawful };

    ghost lawful_lookups = { opentype_lookups-lawful };
}
