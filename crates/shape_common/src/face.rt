//! What shaping asks of a face.
ghost use Rattle.std.specs.Prelude.{◌≡◌, is_some};

use crate::GlyphId;

/// The box round a glyph's ink, in units of the face: its left side, its upper side, its width to
/// the right and its height upwards, so that a height is negative as a rule.
#[derive(Clone, Copy, PartialEq, Eq, Debug)]
pub struct hb_glyph_extents_t {
    pub x_bearing: i32,
    pub y_bearing: i32,
    pub width: i32,
    pub height: i32,
}

/// Which tables of lookups a face has (OpenType, AAT).
#[derive(Clone, Copy, PartialEq, Eq, Debug)]
pub struct hb_tables_t {
    pub gsub: bool,
    pub gpos: bool,
    pub morx: bool,
    pub kerx: bool,
    pub trak: bool,
}

/// The character map of a face, the metrics of its glyphs, and which tables it has. Metrics are in
/// units of the face: those of the font, or of a size of it.
pub trait hb_font_t {
    ghost use Rattle.shape_common.specs.Face.{FaceMeaning};

    /// What a face returns.
    ghost face: { Self → FaceMeaning };

    /// The glyph that stands for a character if nothing else is known.
    fn get_nominal_glyph(&self, c: char) -> Option<GlyphId>
        ensures { result ≡ (face self.now).nominal_glyph c };

    /// Whether `get_nominal_glyph` returns.
    fn has_glyph(&self, c: char) -> bool
        ensures { result ≡ is_some ((face self.now).nominal_glyph c) };

    /// The glyph that stands for a character before a variation selector, if the face has one for
    /// the two (OpenType, `cmap` format 14).
    fn glyph_variation_index(&self, c: char, selector: char) -> Option<GlyphId>
        ensures { result ≡ (face self.now).variation_glyph c selector };

    /// How far the pen moves on along a horizontal line.
    fn glyph_h_advance(&self, glyph: GlyphId) -> i32
        ensures { result ≡ (face self.now).h_advance glyph };

    /// How far the pen moves on along a vertical line; negative as a rule, since it goes down.
    fn glyph_v_advance(&self, glyph: GlyphId) -> i32
        ensures { result ≡ (face self.now).v_advance glyph };

    /// Where the origin of vertical lines lies, to the right of the glyph's own.
    fn glyph_h_origin(&self, glyph: GlyphId) -> i32
        ensures { result ≡ (face self.now).h_origin glyph };

    /// Where the origin of vertical lines lies, above the glyph's own.
    fn glyph_v_origin(&self, glyph: GlyphId) -> i32
        ensures { result ≡ (face self.now).v_origin glyph };

    /// The box round the glyph, if the face knows it.
    fn glyph_extents(&self, glyph: GlyphId) -> Option<hb_glyph_extents_t>
        ensures { result ≡ (face self.now).extents glyph };

    /// The side of the em square, in units of the font.
    fn units_per_em(&self) -> u16
        ensures { result ≡ (face self.now).units_per_em };

    /// How wide the em square is in units of the face, negative if a size mirrors it.
    fn x_scale(&self) -> i32
        ensures { result ≡ (face self.now).x_scale };

    /// How high it is, likewise.
    fn y_scale(&self) -> i32
        ensures { result ≡ (face self.now).y_scale };

    /// Which tables of lookups the face has.
    fn tables(&self) -> hb_tables_t
        ensures { result ≡ (face self.now).tables };
}
