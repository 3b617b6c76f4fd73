//! The engine.
ghost use Rattle.shape_font.specs.declared.face.FontFace.{FontFace as Face};
ghost use Rattle.std.specs.Prelude.{◌≡◌, IsOk, MatchResult};
ghost use Rattle.shape_buffer.specs.Outcome.{IsWithinLimit, Made, Outcome, step};
ghost use Rattle.kern_table.specs.Map.{kern_masks};
ghost use Rattle.kern_table.specs.declared.map.KernMap.{KernMap as Compiled};
ghost use Rattle.kern_table.specs.Engine.{kern_layout, kern_lookups, kern_masks-lawful, kern_lookups-lawful};

use crate::map::{KERN, KernMap, map};
use crate::tables::{kern_table, subtable_count};
use shape_buffer::buffer::{
    Feature, Language, Script, ShapeError, hb_buffer_t, hb_mask_t, hb_tag_t,
};
use shape_buffer::interfaces::{TableIndex, hb_ot_layout_t, hb_ot_map_builder_t};
use shape_font::FontFace;
use std::alloc::Global;

/// The engine that kerns by the table `kern` of a font file, and does nothing else: it chooses no
/// script, and has no stage. Read are the subtables of formats 0, 2 and 3 along the line, of
/// OpenType's version of the table and of Apple's. Takes no memory, and refuses nothing: its calls
/// say so beside what the trait asks.
pub struct KernTable;

impl<'a> hb_ot_layout_t<FontFace<'a>> for KernTable {
    type Map = KernMap;

    ghost layout = { kern_layout };

    ghost masks = { kern_masks };

    ghost lookups = { λ _ face. kern_lookups face };

    fn chosen_script(
        _face: &FontFace<'a>,
        _script: Option<Script>,
        _language: Option<&Language>,
        _table: TableIndex,
    ) -> Option<hb_tag_t> {
        None
    }

    fn compile(
        _alloc: Global,
        face: &FontFace<'a>,
        builder: &hb_ot_map_builder_t,
    ) -> Result<KernMap, ShapeError>
        ensures made { MatchResult result
            (λ map. map ≡ (kern_layout face.now).compiled builder.now)
            (λ e. e ≡ ShapeError.Memory) }
        ensures ok { IsOk result }
    {
        Ok(map(builder.requests()))
    }

    fn has_glyph_classes(_face: &FontFace<'a>) -> bool {
        false
    }

    fn has_kerning(face: &FontFace<'a>) -> bool {
        subtable_count(face.kern_table()) != 0
    }

    fn has_machine_kerning(_face: &FontFace<'a>) -> bool {
        false
    }

    fn has_cross_kerning(_face: &FontFace<'a>) -> bool {
        false
    }

    fn global_mask(map: &KernMap) -> hb_mask_t
        ensures { result ≡ (kern_masks map.now).global_mask }
    {
        if map.is_on {
            16 * (map.everywhere % 256)
        } else {
            0
        }
    }

    fn get_1_mask(map: &KernMap, tag: hb_tag_t) -> hb_mask_t
        ensures { result ≡ (kern_masks map.now).one_mask tag }
    {
        if tag.0 == KERN.0 && map.is_on { 16 } else { 0 }
    }

    fn get_mask(map: &KernMap, tag: hb_tag_t) -> (hb_mask_t, u32)
        ensures { result ≡ (kern_masks map.now).mask tag }
    {
        if tag.0 == KERN.0 && map.is_on {
            (4080, 4)
        } else {
            (0, 4)
        }
    }

    fn get_feature_index(map: &KernMap, table: TableIndex, tag: hb_tag_t) -> Option<u16>
        ensures { result ≡ (kern_masks map.now).feature_index table tag }
    {
        None
    }

    fn would_substitute(
        _map: &KernMap,
        _face: &FontFace<'a>,
        _tag: hb_tag_t,
        _glyphs: &[u32],
        _zero_context: bool,
    ) -> bool {
        false
    }

    fn substitute_start(_face: &FontFace<'a>, _buffer: &mut hb_buffer_t) {}

    fn stages(map: &KernMap) -> usize
        ensures { result ≡ (kern_masks map.now).stages }
    {
        0
    }

    fn substitute_stage(
        _alloc: Global,
        _map: &KernMap,
        i: usize,
        face: &FontFace<'a>,
        buffer: &mut hb_buffer_t,
    ) -> Result<(), ShapeError>
        requires { IsWithinLimit buffer.old }
        ensures made { Outcome (step ((kern_lookups face.now).stage i))
            buffer.old buffer.new result }
        ensures ok { IsOk result }
    {
        Ok(())
    }

    fn pause_after(map: &KernMap, i: usize) -> Option<u32>
        ensures { result ≡ (kern_masks map.now).pause_after i }
    {
        None
    }

    fn aat_substitute(
        _alloc: Global,
        _map: &KernMap,
        user_features: &[Feature],
        face: &FontFace<'a>,
        buffer: &mut hb_buffer_t,
    ) -> Result<(), ShapeError>
        requires { IsWithinLimit buffer.old }
        ensures made { Outcome (step ((kern_lookups face.now).aat_substitute user_features.now))
            buffer.old buffer.new result }
        ensures ok { IsOk result }
    {
        Ok(())
    }

    fn aat_remove_deleted(buffer: &mut hb_buffer_t)
        ensures { (map : Compiled) (face : Face)
            → Made (kern_lookups face).aat_remove_deleted buffer.old buffer.new }
    {}

    fn aat_zero_width_deleted(buffer: &mut hb_buffer_t)
        ensures { (map : Compiled) (face : Face)
            → Made (kern_lookups face).aat_zero_width_deleted buffer.old buffer.new }
    {}

    fn position_start(_face: &FontFace<'a>, _buffer: &mut hb_buffer_t) {}

    fn position(
        _alloc: Global,
        _map: &KernMap,
        face: &FontFace<'a>,
        buffer: &mut hb_buffer_t,
    ) -> Result<(), ShapeError>
        requires { IsWithinLimit buffer.old }
        ensures made { Outcome (step ((kern_lookups face.now).position))
            buffer.old buffer.new result }
        ensures ok { IsOk result }
    {
        Ok(())
    }

    fn position_finish_advances(_face: &FontFace<'a>, _buffer: &mut hb_buffer_t) {}

    fn position_finish_offsets(_face: &FontFace<'a>, _buffer: &mut hb_buffer_t) {}

    fn aat_position(
        _alloc: Global,
        _map: &KernMap,
        kern_mask: hb_mask_t,
        face: &FontFace<'a>,
        buffer: &mut hb_buffer_t,
    ) -> Result<(), ShapeError>
        requires { IsWithinLimit buffer.old }
        ensures made { Outcome (step ((kern_lookups face.now).aat_position kern_mask))
            buffer.old buffer.new result }
        ensures ok { IsOk result }
    {
        Ok(())
    }

    fn kern(
        _alloc: Global,
        kern_mask: hb_mask_t,
        face: &FontFace<'a>,
        buffer: &mut hb_buffer_t,
    ) -> Result<(), ShapeError>
        requires { IsWithinLimit buffer.old }
        ensures made { (map : Compiled) → Outcome (step ((kern_lookups face.now).kern kern_mask))
            buffer.old buffer.new result }
        ensures ok { IsOk result }
    {
        kern_table(face.kern_table(), face.scale(), kern_mask, buffer);
        Ok(())
    }

    fn aat_track(_trak_mask: hb_mask_t, _face: &FontFace<'a>, _buffer: &mut hb_buffer_t) {}

    ghost lawful_masks = { kern_masks-lawful };

    ghost lawful_lookups = { λ _ face. kern_lookups-lawful face };
}
