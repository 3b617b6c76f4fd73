//! The face that is opened once.
ghost use Rattle.std.specs.Prelude.{◌≡◌, ◌<◌, IfOk, IsOkUnless};
ghost use Rattle.kern_table.specs.Pairs.{HoldSides};
ghost use Rattle.shape_font.specs.Face;

use crate::advances::advances_of;
use crate::pages::{glyphs_of, index_of, listed_pages};
use kern_table::{PairGlyphs, Sides};
use shape_buffer::{GlyphId, ShapeError, hb_font_t, hb_glyph_extents_t, hb_tables_t};
use shape_font::FontFace;
use std::alloc::Global;
use std::marker::Model;

/// A face over the bytes of a font file with tables beside it: it returns what the [`FontFace`]
/// returns, and contracts see it as that face.
///
/// The tables take 8,704 bytes, 1,024 for each page of 256 characters that `cmap` lists (at most
/// 512 pages), and six for each glyph: less than a megabyte for any font.
#[derive(Drop)]
pub struct OpenedFace<'a> {
    face: FontFace<'a>,
    index: Vec<u16>,
    glyphs: Vec<u32>,
    advances: Vec<i32>,
    pairs: PairGlyphs,
}

impl<'a> Model for OpenedFace<'a> {
    ghost use Rattle.shape_font.specs.declared.face.FontFace.{FontFace};
    ghost use Rattle.opened_face.specs.Pages.{IsOpened};

    ghost Value = { FontFace };

    ghost view = { λ o. o.face };

    ghost invariant = { λ o. IsOpened o.face o.index.items o.glyphs.items o.advances.items o.pairs };
}

/// The glyph with this number; 0 is none.
fn numbered(glyph: u32) -> Option<GlyphId>
    ensures { result ≡ Face.numbered glyph }
{
    if 0 < glyph {
        Some(GlyphId(glyph))
    } else {
        None
    }
}

impl<'a> OpenedFace<'a> {
    /// Opens a face: stores the pages of its character map, its advances, and which glyphs stand in
    /// pairs of `kern`. Refuses with `Memory` if a growth was refused.
    #[tactic(auto, using(crate::proofs::PageLemmas::stored))]
    pub fn new(alloc: Global, face: FontFace<'a>) -> Result<OpenedFace<'a>, ShapeError>
        ensures ok { IfOk result (λ opened. opened ≡ face.entry) }
        ensures memory { IsOkUnless result ShapeError.Memory }
    {
        let pages = listed_pages(alloc, face.character_map())?;
        let index = index_of(alloc, &pages)?;
        let glyphs = glyphs_of(alloc, &face, &pages)?;
        let advances = advances_of(alloc, &face)?;
        let pairs = PairGlyphs::new(alloc, face.kern_table(), face.glyph_count())?;
        Ok(OpenedFace {
            face,
            index,
            glyphs,
            advances,
            pairs,
        })
    }

    /// The face without the tables, for what isn't shaping: names, and tables for engines.
    pub fn face(&self) -> &FontFace<'a>
        ensures { result.now ≡ self.now }
    {
        &self.face
    }

    /// Which glyphs stand in pairs of the first subtable of `kern`.
    pub fn pair_sides(&self) -> Sides<'_>
        ensures { HoldSides self.now.kern.now 4 result.lefts.now result.rights.now }
    {
        self.pairs.sides()
    }

    /// The glyph of a character: from its page, or by a search if its page isn't stored.
    fn glyph(&self, c: char) -> Option<GlyphId>
        ensures { result ≡ Face.glyph_of self.now c }
    {
        let code = u32::from(c) as usize;
        let page = code / 256;
        if page < self.index.len() {
            let at = 256 * usize::from(self.index[page]) + code % 256;
            if at < self.glyphs.len() {
                return numbered(self.glyphs[at]);
            }
        }
        self.face.get_nominal_glyph(c)
    }

    /// The advance of a glyph.
    fn advance(&self, glyph: GlyphId) -> i32
        ensures { result ≡ Face.sized_h_advance self.now glyph }
    {
        let at = glyph.0 as usize;
        if at < self.advances.len() {
            self.advances[at]
        } else {
            self.face.glyph_h_advance(glyph)
        }
    }
}

impl<'a> hb_font_t for OpenedFace<'a> {
    ghost face = { Face.font_face };

    fn get_nominal_glyph(&self, c: char) -> Option<GlyphId> {
        self.glyph(c)
    }

    fn has_glyph(&self, c: char) -> bool {
        self.glyph(c).is_some()
    }

    fn glyph_variation_index(&self, c: char, selector: char) -> Option<GlyphId> {
        self.face.glyph_variation_index(c, selector)
    }

    fn glyph_h_advance(&self, glyph: GlyphId) -> i32 {
        self.advance(glyph)
    }

    fn glyph_v_advance(&self, glyph: GlyphId) -> i32 {
        self.face.glyph_v_advance(glyph)
    }

    fn glyph_h_origin(&self, glyph: GlyphId) -> i32 {
        self.face.glyph_h_origin(glyph)
    }

    fn glyph_v_origin(&self, glyph: GlyphId) -> i32 {
        self.face.glyph_v_origin(glyph)
    }

    fn glyph_extents(&self, glyph: GlyphId) -> Option<hb_glyph_extents_t> {
        self.face.glyph_extents(glyph)
    }

    fn units_per_em(&self) -> u16 {
        self.face.units_per_em()
    }

    fn x_scale(&self) -> i32 {
        self.face.x_scale()
    }

    fn y_scale(&self) -> i32 {
        self.face.y_scale()
    }

    fn tables(&self) -> hb_tables_t {
        self.face.tables()
    }
}
