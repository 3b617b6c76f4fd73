//! The engine of tests: it substitutes by the stages that its face lists, adds to advances what the
//! face says, and answers as the face says.
ghost use Rattle.std.specs.Prelude.{◌≡◌};
ghost use Rattle.shape_buffer.specs.Outcome.{Made};
ghost use Rattle.test_fixtures.specs.declared.face.TestFace.{TestFace as Face};
ghost use Rattle.test_fixtures.specs.declared.layout.TestMap.{TestMap as Compiled};
ghost use Rattle.test_fixtures.specs.Layouts;

use crate::face::TestFace;
use crate::lookups::run_stage;
use shape_buffer::buffer::{
    Feature, GlyphPosition, GlyphPropsFlags, Language, Script, ShapeError, hb_buffer_t,
    hb_glyph_info_t, hb_mask_t, hb_tag_t,
};
use shape_buffer::interfaces::{TableIndex, hb_ot_layout_t, hb_ot_map_builder_t};
use shape_buffer::position_walks::update_positions;
use shape_buffer::walks::update_items;
use shape_buffer::wrapping::sum;
use std::alloc::Global;

/// What requests are compiled to.
#[derive(Clone, Copy, Debug)]
pub struct TestMap {
    stages: usize,
    pause: Option<u32>,
    global_bit: bool,
    fractions: bool,
    every_feature: bool,
    gpos_kerns: bool,
}

const FRAC: u32 = 0x66726163;

const NUMR: u32 = 0x6E756D72;

const DNOM: u32 = 0x646E6F6D;

const SS01: u32 = 0x73733031;

/// Stands for a glyph that `morx` has deleted.
const STRUCK: u32 = 0xFFFF;

/// Does what a [`TestFace`] says. The feature `ss01` has two bits from bit 8 on.
pub struct TestLayout;

/// The mask of a feature's value 1.
fn one_mask(map: &TestMap, tag: u32) -> hb_mask_t
    ensures { result ≡ Layouts.one_mask map.now tag }
{
    match tag {
        _ if map.every_feature => 8,
        FRAC if map.fractions => 0x10,
        NUMR if map.fractions => 0x20,
        DNOM if map.fractions => 0x40,
        SS01 => 0x100,
        _ => 0,
    }
}

fn with_class(info: &hb_glyph_info_t) -> hb_glyph_info_t
    ensures { result ≡ Layouts.with_class_of_face info.now }
{
    let mut info = *info;
    let class = if info.glyph_id == 9 {
        GlyphPropsFlags::MARK
    } else {
        GlyphPropsFlags::BASE_GLYPH
    };
    info._hb_glyph_info_set_glyph_class(class);
    info
}

/// The glyph that `morx` deletes.
fn struck_glyph(features: &[Feature]) -> u32
    ensures { result ≡ Layouts.struck_glyph features.now }
{
    match features {
        [] => 0x78,
        [feature, ..] => feature.value,
    }
}

fn struck(glyph: u32, info: &hb_glyph_info_t) -> hb_glyph_info_t
    ensures { result ≡ Layouts.struck glyph info.now }
{
    let mut info = *info;
    if info.glyph_id == glyph {
        info.glyph_id = STRUCK;
        info._hb_glyph_info_set_substituted(true);
    }
    info
}

fn is_struck(info: &hb_glyph_info_t) -> bool
    ensures { result ≡ Layouts.is_struck info.now }
{
    info.glyph_id == STRUCK
}

/// The position with its horizontal advance greater by `n`.
fn wider(n: i32, info: &hb_glyph_info_t, position: GlyphPosition) -> GlyphPosition
    ensures { result ≡ Layouts.wider_by n info.now position }
{
    GlyphPosition {
        x_advance: sum(position.x_advance, n),
        ..position
    }
}

impl<'a> hb_ot_layout_t<TestFace<'a>> for TestLayout {
    type Map = TestMap;

    ghost layout = { Layouts.layout_of };

    ghost masks = { Layouts.masks_of };

    ghost lookups = { λ _. Layouts.lookups_of };

    fn chosen_script(
        face: &TestFace<'a>,
        _script: Option<Script>,
        _language: Option<&Language>,
        table: TableIndex,
    ) -> Option<hb_tag_t> {
        match table {
            TableIndex::GSUB => face.gsub_script,
            TableIndex::GPOS => face.gpos_script,
        }
    }

    fn compile(
        _alloc: Global,
        face: &TestFace<'a>,
        _builder: &hb_ot_map_builder_t,
    ) -> Result<TestMap, ShapeError> {
        Ok(TestMap {
            stages: face.stages.len(),
            pause: face.pause,
            global_bit: face.global_bit,
            fractions: face.fractions,
            every_feature: face.every_feature,
            gpos_kerns: face.gpos_kerns,
        })
    }

    fn has_glyph_classes(face: &TestFace<'a>) -> bool {
        face.classes
    }

    fn has_kerning(face: &TestFace<'a>) -> bool {
        face.kerning
    }

    fn has_machine_kerning(face: &TestFace<'a>) -> bool {
        face.machine_kerning
    }

    fn has_cross_kerning(face: &TestFace<'a>) -> bool {
        face.cross_kerning
    }

    fn global_mask(map: &TestMap) -> hb_mask_t
        ensures { result ≡ (Layouts.masks_of map.now).global_mask }
    {
        if map.global_bit { 8 } else { 0 }
    }

    fn get_1_mask(map: &TestMap, tag: hb_tag_t) -> hb_mask_t
        ensures { result ≡ (Layouts.masks_of map.now).one_mask tag }
    {
        one_mask(map, tag.0)
    }

    fn get_mask(map: &TestMap, tag: hb_tag_t) -> (hb_mask_t, u32)
        ensures { result ≡ (Layouts.masks_of map.now).mask tag }
    {
        match tag.0 {
            _ if map.every_feature => (8, 3),
            SS01 => (0x300, 8),
            _ => (0, 0),
        }
    }

    fn get_feature_index(map: &TestMap, table: TableIndex, tag: hb_tag_t) -> Option<u16>
        ensures { result ≡ (Layouts.masks_of map.now).feature_index table tag }
    {
        match table {
            TableIndex::GPOS if map.gpos_kerns => Some(0),
            _ => None,
        }
    }

    fn would_substitute(
        _map: &TestMap,
        _face: &TestFace<'a>,
        _tag: hb_tag_t,
        _glyphs: &[u32],
        _zero_context: bool,
    ) -> bool {
        false
    }

    fn substitute_start(_face: &TestFace<'a>, buffer: &mut hb_buffer_t) {
        update_items(buffer, |info| with_class(info));
    }

    fn stages(map: &TestMap) -> usize
        ensures { result ≡ (Layouts.masks_of map.now).stages }
    {
        map.stages
    }

    fn substitute_stage(
        alloc: Global,
        _map: &TestMap,
        i: usize,
        face: &TestFace<'a>,
        buffer: &mut hb_buffer_t,
    ) -> Result<(), ShapeError> {
        if i < face.stages.len() {
            run_stage(alloc, &face.stages[i], buffer)
        } else {
            Ok(())
        }
    }

    fn pause_after(map: &TestMap, i: usize) -> Option<u32>
        ensures { result ≡ (Layouts.masks_of map.now).pause_after i }
    {
        if i == 0 { map.pause } else { None }
    }

    fn aat_substitute(
        _alloc: Global,
        _map: &TestMap,
        user_features: &[Feature],
        _face: &TestFace<'a>,
        buffer: &mut hb_buffer_t,
    ) -> Result<(), ShapeError> {
        let glyph = struck_glyph(user_features);
        update_items(buffer, |info| struck(glyph, info));
        Ok(())
    }

    fn aat_remove_deleted(buffer: &mut hb_buffer_t)
        ensures { (map : Compiled) (face : Face)
            → Made (Layouts.lookups_of face).aat_remove_deleted buffer.old buffer.new }
    {
        buffer.delete_glyphs_inplace(|info| is_struck(info));
    }

    fn aat_zero_width_deleted(buffer: &mut hb_buffer_t)
        ensures { (map : Compiled) (face : Face)
            → Made (Layouts.lookups_of face).aat_zero_width_deleted buffer.old buffer.new }
    {}

    fn position_start(_face: &TestFace<'a>, _buffer: &mut hb_buffer_t) {}

    fn position(
        _alloc: Global,
        _map: &TestMap,
        face: &TestFace<'a>,
        buffer: &mut hb_buffer_t,
    ) -> Result<(), ShapeError> {
        let more = face.gpos_adds;
        update_positions(buffer, |info, position| wider(more, info, position));
        Ok(())
    }

    fn position_finish_advances(_face: &TestFace<'a>, _buffer: &mut hb_buffer_t) {}

    fn position_finish_offsets(_face: &TestFace<'a>, _buffer: &mut hb_buffer_t) {}

    fn aat_position(
        _alloc: Global,
        _map: &TestMap,
        _kern_mask: hb_mask_t,
        face: &TestFace<'a>,
        buffer: &mut hb_buffer_t,
    ) -> Result<(), ShapeError> {
        let more = face.kerx_adds;
        update_positions(buffer, |info, position| wider(more, info, position));
        Ok(())
    }

    fn kern(
        _alloc: Global,
        _kern_mask: hb_mask_t,
        face: &TestFace<'a>,
        buffer: &mut hb_buffer_t,
    ) -> Result<(), ShapeError> {
        let more = face.kern_adds;
        update_positions(buffer, |info, position| wider(more, info, position));
        Ok(())
    }

    fn aat_track(_trak_mask: hb_mask_t, _face: &TestFace<'a>, _buffer: &mut hb_buffer_t) {}

    ghost lawful_masks = { Layouts.masks_of-lawful };

    ghost lawful_lookups = { λ _. Layouts.lookups_of-lawful };
}
