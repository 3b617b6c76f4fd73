//! The face that the engine is over.
ghost use Rattle.std.specs.Prelude.{◌≡◌, is_some, nat_lt, IfSome};
ghost use Rattle.layout_positions.specs.Devices;
ghost use Rattle.opentype_layout.specs.Fonts.{IsFaceOf, IsFontOf, units_of};
ghost use Rattle.opentype_layout.specs.Face;

use apple_positioning::tracking::has_tracking;
use apple_substitution::metamorphosis::is_present;
use font_sizes::Scale;
use layout_positions::devices::device_work;
use shape_buffer::{GlyphId, hb_font_t, hb_glyph_extents_t, hb_tables_t};
use shape_font::bytes::u16_at;
use shape_font::{AppleTables, FontFace};

/// A font file as layout sees it: a [`FontFace`] without tables that this engine doesn't read. So no
/// plan leaves kerning or marks to a table (one of a version to come) that nobody reads.
#[derive(Clone, Copy)]
pub struct OpenTypeFace<'a> {
    font: FontFace<'a>,
    gdef: &'a [u8],
    gsub: &'a [u8],
    gpos: &'a [u8],
    coordinates: &'a [i32],
    scale: Option<Scale>,
    device_work: u32,
}

/// Whether a table of lookups is read: it is of major version 1.
fn is_read(table: &[u8]) -> bool
    ensures { result ≡ Face.is_read table.now }
{
    u16_at(table, 0) == 1
}

/// Whether `kerx` is read: it is of version 2 at least.
fn reads_kerx(kerx: &[u8]) -> bool
    ensures { result ≡ Face.reads_kerx kerx.now }
{
    2 <= u16_at(kerx, 0)
}

/// The font with this number in a collection, or number 0, the one of a file of one font.
fn font_of(bytes: &[u8], index: u32) -> Option<FontFace<'_>>
    ensures found { is_some result ≡ nat_lt 0 (units_of bytes.now index) }
    ensures font { IfSome result (λ font. IsFontOf bytes.now index font) }
{
    FontFace::from_slice(bytes, index)
}

impl<'a> OpenTypeFace<'a> {
    /// The face over a font.
    pub fn new(font: FontFace<'a>) -> Self
        ensures font { result.font ≡ font.entry }
        ensures gdef { result.gdef.now ≡ font.entry.gdef.now }
        ensures gsub { result.gsub.now ≡ font.entry.gsub.now }
        ensures gpos { result.gpos.now ≡ font.entry.gpos.now }
        ensures coordinates { result.coordinates.now ≡ font.entry.coordinates.now }
        ensures scale { result.scale ≡ font.entry.scale }
        ensures devices { result.device_work
            ≡ Devices.work_of font.entry.gdef.now font.entry.coordinates.now }
    {
        let gdef = font.gdef_table();
        OpenTypeFace {
            font,
            gdef,
            gsub: font.gsub_table(),
            gpos: font.gpos_table(),
            coordinates: font.coordinates(),
            scale: font.scale(),
            device_work: device_work(gdef, font.coordinates()),
        }
    }

    /// The font with this number in a collection, or number 0, the one of a file of one font. None
    /// if the file has no such font, or its em square is empty.
    pub fn from_slice(bytes: &'a [u8], index: u32) -> Option<Self>
        ensures found { is_some result ≡ nat_lt 0 (units_of bytes.now index) }
        ensures face { IfSome result (λ face. IsFaceOf bytes.now index face) }
    {
        match font_of(bytes, index) {
            Some(font) => Some(OpenTypeFace::new(font)),
            None => None,
        }
    }

    /// The font.
    pub fn font(&self) -> FontFace<'a>
        ensures { result ≡ self.now.font }
    {
        self.font
    }

    /// The table `GDEF`.
    pub(crate) fn gdef(&self) -> &'a [u8]
        ensures { result ≡ self.now.gdef }
    {
        self.gdef
    }

    /// The table `GSUB`.
    pub(crate) fn gsub(&self) -> &'a [u8]
        ensures { result ≡ self.now.gsub }
    {
        self.gsub
    }

    /// The table `GPOS`.
    pub(crate) fn gpos(&self) -> &'a [u8]
        ensures { result ≡ self.now.gpos }
    {
        self.gpos
    }

    /// The coordinates of the font.
    pub(crate) fn coordinates(&self) -> &'a [i32]
        ensures { result ≡ self.now.coordinates }
    {
        self.coordinates
    }

    /// What the numbers of the font are multiplied by; none at no size.
    pub(crate) fn scale(&self) -> Option<Scale>
        ensures { result ≡ self.now.scale }
    {
        self.scale
    }

    /// What devices of `GPOS` may cost at an item.
    pub(crate) fn device_work(&self) -> u32
        ensures { result ≡ self.now.device_work }
    {
        self.device_work
    }

    /// The table `kern`.
    pub(crate) fn kern(&self) -> &'a [u8]
        ensures { result.now ≡ self.now.font.kern.now }
    {
        self.font.kern_table()
    }

    /// Apple's tables.
    pub(crate) fn apple_tables(&self) -> AppleTables<'a>
        ensures { result ≡ self.now.font.apple }
    {
        self.font.apple_tables()
    }

    /// How many points the em square has; 0 if that is not known.
    pub(crate) fn points(&self) -> f32
        ensures { result ≡ self.now.font.points }
    {
        self.font.points()
    }

    /// The tables of lookups that the engine reads.
    fn read_tables(&self) -> hb_tables_t
        ensures { result ≡ Face.tables_of self.now }
    {
        let apple = self.apple_tables();
        hb_tables_t {
            gsub: is_read(self.gsub),
            gpos: is_read(self.gpos),
            morx: is_present(apple.morx),
            kerx: reads_kerx(apple.kerx),
            trak: has_tracking(apple.trak),
        }
    }
}

impl<'a> hb_font_t for OpenTypeFace<'a> {
    ghost face = { Face.opentype_face };

    fn get_nominal_glyph(&self, c: char) -> Option<GlyphId> {
        self.font.get_nominal_glyph(c)
    }

    fn has_glyph(&self, c: char) -> bool {
        self.font.has_glyph(c)
    }

    fn glyph_variation_index(&self, c: char, selector: char) -> Option<GlyphId> {
        self.font.glyph_variation_index(c, selector)
    }

    fn glyph_h_advance(&self, glyph: GlyphId) -> i32 {
        self.font.glyph_h_advance(glyph)
    }

    fn glyph_v_advance(&self, glyph: GlyphId) -> i32 {
        self.font.glyph_v_advance(glyph)
    }

    fn glyph_h_origin(&self, glyph: GlyphId) -> i32 {
        self.font.glyph_h_origin(glyph)
    }

    fn glyph_v_origin(&self, glyph: GlyphId) -> i32 {
        self.font.glyph_v_origin(glyph)
    }

    fn glyph_extents(&self, glyph: GlyphId) -> Option<hb_glyph_extents_t> {
        self.font.glyph_extents(glyph)
    }

    fn units_per_em(&self) -> u16 {
        self.font.units_per_em()
    }

    fn x_scale(&self) -> i32 {
        self.font.x_scale()
    }

    fn y_scale(&self) -> i32 {
        self.font.y_scale()
    }

    fn tables(&self) -> hb_tables_t {
        self.read_tables()
    }
}
