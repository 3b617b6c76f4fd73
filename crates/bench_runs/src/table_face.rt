//! A face that is tables: glyphs by characters, 0 for none, advances by glyphs, and boxes by
//! glyphs; U+0061 with U+FE00 after it has glyph 7. It has no tables of lookups.
ghost use Rattle.std.specs.Prelude.{◌≡◌};
ghost use Rattle.bench_runs.specs.Face;

use shape_buffer::buffer::GlyphId;
use shape_buffer::interfaces::{hb_font_t, hb_glyph_extents_t, hb_tables_t};

fn glyph_of(number: u32) -> Option<GlyphId>
    ensures { result ≡ Face.glyph_of number }
{
    if number == 0 {
        None
    } else {
        Some(GlyphId(number))
    }
}

fn advance_of(advances: &[i32], glyph: GlyphId) -> i32
    ensures { result ≡ Face.advance_of advances.now glyph }
{
    advances.get(glyph.0 as usize).copied().unwrap_or(0)
}

fn extents_of(boxes: &[hb_glyph_extents_t], glyph: GlyphId) -> Option<hb_glyph_extents_t>
    ensures { result ≡ Face.extents_of boxes.now glyph }
{
    boxes.get(glyph.0 as usize).copied()
}

/// Glyphs by characters, advances and boxes by glyphs.
#[derive(Clone, Copy)]
pub struct TableFace<'a> {
    pub glyphs: &'a [u32],
    pub advances: &'a [i32],
    pub boxes: &'a [hb_glyph_extents_t],
}

impl hb_font_t for TableFace<'_> {
    ghost face = { λ face. Face.table_face face.glyphs.now face.advances.now face.boxes.now };

    fn get_nominal_glyph(&self, c: char) -> Option<GlyphId> {
        let index = u32::from(c) as usize;
        if index < self.glyphs.len() {
            glyph_of(self.glyphs[index])
        } else {
            None
        }
    }

    fn has_glyph(&self, c: char) -> bool {
        self.get_nominal_glyph(c).is_some()
    }

    fn glyph_variation_index(&self, c: char, selector: char) -> Option<GlyphId> {
        if c == 'a' && selector == '\u{FE00}' {
            Some(GlyphId(7))
        } else {
            None
        }
    }

    fn glyph_h_advance(&self, glyph: GlyphId) -> i32 {
        advance_of(self.advances, glyph)
    }

    fn glyph_v_advance(&self, _glyph: GlyphId) -> i32 {
        0
    }

    fn glyph_h_origin(&self, _glyph: GlyphId) -> i32 {
        0
    }

    fn glyph_v_origin(&self, _glyph: GlyphId) -> i32 {
        0
    }

    fn glyph_extents(&self, glyph: GlyphId) -> Option<hb_glyph_extents_t> {
        extents_of(self.boxes, glyph)
    }

    fn units_per_em(&self) -> u16 {
        1000
    }

    fn x_scale(&self) -> i32 {
        1000
    }

    fn y_scale(&self) -> i32 {
        1000
    }

    fn tables(&self) -> hb_tables_t {
        hb_tables_t {
            gsub: false,
            gpos: false,
            morx: false,
            kerx: false,
            trak: false,
        }
    }
}
