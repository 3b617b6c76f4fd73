//! What the table `CFF ` or `CFF2` says of a glyph: its box, and its name; and the box of any
//! outline.
ghost use Rattle.std.specs.Prelude.{◌≡◌};
ghost use Rattle.std.specs.Option.{option_map};
ghost use Rattle.shape_font.specs.Cff;
ghost use Rattle.shape_font.specs.Face;

use super::FontFace;
use cff_tables::CffFont;
use charstrings::glyph_box;
use shape_buffer::{GlyphId, hb_glyph_extents_t};

/// Whether these are the coordinates of the default instance.
#[tactic(auto, using(crate::proofs::BoxLemmas::default_next, crate::proofs::BoxLemmas::default_not, crate::proofs::BoxLemmas::default_end))]
fn is_default(coordinates: &[i32]) -> bool
    ensures { result ≡ Face.is_default coordinates.now }
{
    for coordinate in coordinates {
        if *coordinate != 0 {
            return false;
        }
    }
    true
}

impl<'a> FontFace<'a> {
    /// The font of the table `CFF2` or `CFF `, for outlines; none if it has neither, or the table
    /// does not hold so many glyphs.
    pub fn cff(&self) -> Option<CffFont<'a>>
        ensures layout { option_map (λ c. c.layout) result ≡ option_map (λ c. c.layout) self.now.cff }
        ensures table { option_map (λ c. c.table.now) result ≡ option_map (λ c. c.table.now) self.now.cff }
    {
        self.cff
    }

    /// The name that the charset of `CFF ` gives a glyph; none without such a table, in a CID font,
    /// or an empty one.
    pub fn charset_name(&self, glyph: u32) -> Option<&'a [u8]>
        ensures { option_map (λ s. s.now) result ≡ Cff.charset_name self.now.cff glyph }
    {
        match self.cff {
            Some(font) => font.name(glyph),
            None => None,
        }
    }

    /// Whether charstrings would have to vary, which are run as those of the default instance.
    fn varies_drawn(&self) -> bool
        ensures { result ≡ Face.varies_drawn self.now }
    {
        match self.cff {
            Some(font) => font.layout().wide && !is_default(self.coordinates),
            None => false,
        }
    }

    /// The box of a glyph's charstring; none away from the default instance of `CFF2`.
    pub(super) fn drawn(&self, glyph: u32) -> Option<hb_glyph_extents_t>
        ensures { result ≡ Face.drawn_there self.now glyph }
    {
        if self.varies_drawn() {
            return None;
        }
        match self.cff {
            Some(font) => match glyph_box(&font, glyph) {
                Some(drawn) => Some(hb_glyph_extents_t {
                    x_bearing: drawn.x_bearing,
                    y_bearing: drawn.y_bearing,
                    width: drawn.width,
                    height: drawn.height,
                }),
                None => None,
            },
            None => None,
        }
    }

    /// The box of a glyph's outline, at the coordinates too, if it has one.
    pub(super) fn outlined(&self, glyph: GlyphId) -> Option<hb_glyph_extents_t>
        ensures { result ≡ Face.outlined_extents self.now glyph }
    {
        if !self.has_box(glyph) {
            self.drawn(glyph.0)
        } else if self.coordinates.is_empty() {
            Some(self.inked(glyph.0))
        } else {
            self.box_at(glyph.0)
        }
    }
}
