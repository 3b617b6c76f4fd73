//! The tables of a font that have bitmaps.
ghost use Rattle.std.specs.Prelude.{◌≡◌};
ghost use Rattle.bitmap_tables.specs.Tables;

use crate::cbdt::cbdt_box;
use crate::sbix::sbix_box;
use shape_common::hb_glyph_extents_t;

/// The bytes of the tables of a font that have bitmaps: empty ones of those that it lacks.
#[derive(Clone, Copy)]
pub struct Bitmaps<'a> {
    pub sbix: &'a [u8],
    pub cblc: &'a [u8],
    pub cbdt: &'a [u8],
}

impl<'a> Bitmaps<'a> {
    /// The box of a glyph's bitmap, in units of the font: by `sbix`, or else by `CBDT`. None if
    /// neither has one. `glyphs` says how many glyphs the font has.
    pub fn glyph_box(
        &self,
        glyphs: u16,
        units_per_em: u16,
        glyph: u32,
    ) -> Option<hb_glyph_extents_t>
        ensures { result ≡ Tables.bitmap_box self.now glyphs units_per_em glyph }
    {
        match sbix_box(self.sbix, glyphs, units_per_em, glyph) {
            Some(found) => Some(found),
            None => cbdt_box(self.cblc, self.cbdt, units_per_em, glyph),
        }
    }
}
