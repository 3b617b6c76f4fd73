//! The face that shaping asks.
ghost use Rattle.std.specs.Prelude.{◌≡◌, ◌≤ℤ◌, ◌&&◌, [], pos, negsuc, None, is_some, nat_lt};
ghost use Rattle.std.specs.Option.{IfSome, option_map};
ghost use Rattle.shape_font.specs.Bytes.{u16_of};
ghost use Rattle.shape_font.specs.Cmap.{mapped_glyph};
ghost use Rattle.shape_font.specs.FontPages.{font_page_of};
ghost use Rattle.shape_font.specs.Subtables.{chosen_subtable};
ghost use Rattle.shape_font.specs.Variations.{sequences_of};
ghost use Rattle.shape_font.specs.Directory.{bytes_of, has_table};
ghost use Rattle.shape_font.specs.Metrics.{long_metrics};
ghost use Rattle.shape_font.specs.Cff;
ghost use Rattle.shape_font.specs.declared.tags.TheConstants.{HEAD, HHEA, MAXP, HMTX, VHEA, VMTX, VORG, OS2, CMAP, LOCA, GLYF, GSUB, GPOS, GDEF};
ghost use Rattle.shape_font.specs.declared.tags.TheConstants.{MORX, KERX, TRAK, KERN, POST, HVAR, VVAR, GVAR, MVAR, SBIX, CBLC, CBDT, COLR};
ghost use Rattle.shape_font.specs.declared.tags.TheConstants.{FEAT, LTAG, ANKR};
ghost use Rattle.shape_font.specs.declared.face.TheConstants.{NO_POINTS};
ghost use Rattle.shape_font.specs.Face;

use crate::apple::{AppleTables, apple_tables};
use crate::bitmaps::bitmaps;
use crate::bytes::u16_at;
use crate::cff::cff_font;
use crate::directory::Directory;
use crate::font_pages::{FontPage, font_page};
use crate::subtables::chosen;
use crate::tags::{
    CMAP, COLR, GDEF, GLYF, GPOS, GSUB, GVAR, HEAD, HHEA, HMTX, HVAR, KERN, KERX, LOCA, MAXP, MORX,
    MVAR, OS2, POST, TRAK, VHEA, VMTX, VORG, VVAR,
};
use crate::variations::{GlyphVariant, variation};
use crate::{cmap, metrics, names, variations};
use bitmap_tables::Bitmaps;
use cff_tables::CffFont;
use font_sizes::Scale;
use shape_buffer::wrapping::half;
use shape_buffer::{GlyphId, hb_font_t, hb_glyph_extents_t, hb_tables_t};

mod advances;
pub mod boxes;
mod drawn;
mod layers;
mod lines;
mod metric_points;
mod origins;
mod sized;
mod steps;
mod tables;

/// A face over the bytes of an OpenType or TrueType file, in its units. A table that the file lacks
/// reads as an empty one. Boxes are those of bitmaps, else of what `COLR` says, else of `glyf`, or
/// of the charstrings of `CFF2` or `CFF `. The face is at the default instance of a variable font,
/// or at the coordinates given to [`FontFace::at`], and in units of the font, or of the size given
/// to [`FontFace::at_size`]; how many points that size has is not known, unless it was given to
/// [`FontFace::at_points`]. Two over the same tables at the same coordinates, size and points are
/// equal.
#[derive(Clone, Copy)]
pub struct FontFace<'a> {
    units_per_em: u16,
    glyph_count: u16,
    h_count: u16,
    v_count: u16,
    long_places: bool,
    outlines: bool,
    font_page: FontPage,
    tables: hb_tables_t,
    cmap: &'a [u8],
    sequences: &'a [u8],
    hmtx: &'a [u8],
    vmtx: &'a [u8],
    vorg: &'a [u8],
    loca: &'a [u8],
    glyf: &'a [u8],
    hhea: &'a [u8],
    os2: &'a [u8],
    cff: Option<CffFont<'a>>,
    bitmaps: Bitmaps<'a>,
    colr: &'a [u8],
    kern: &'a [u8],
    post: &'a [u8],
    gdef: &'a [u8],
    gsub: &'a [u8],
    gpos: &'a [u8],
    hvar: &'a [u8],
    vvar: &'a [u8],
    gvar: &'a [u8],
    mvar: &'a [u8],
    apple: AppleTables<'a>,
    coordinates: &'a [i32],
    scale: Option<Scale>,
    points: f32,
}

/// How many points an em square has of which that is not known.
const NO_POINTS: f32 = 0.0;

/// The glyph with this number, whether the font has so many or not; 0 is none.
fn numbered(glyph: u32) -> Option<GlyphId>
    ensures { result ≡ Face.numbered glyph }
{
    if 0 < glyph {
        Some(GlyphId(glyph))
    } else {
        None
    }
}

/// Which tables of lookups the font has.
fn lookups(font: &Directory<'_>) -> hb_tables_t
    ensures gsub { result.gsub ≡ has_table font.now.bytes.now font.now.index GSUB }
    ensures gpos { result.gpos ≡ has_table font.now.bytes.now font.now.index GPOS }
    ensures morx { result.morx ≡ has_table font.now.bytes.now font.now.index MORX }
    ensures kerx { result.kerx ≡ has_table font.now.bytes.now font.now.index KERX }
    ensures trak { result.trak ≡ has_table font.now.bytes.now font.now.index TRAK }
{
    hb_tables_t {
        gsub: font.has(GSUB),
        gpos: font.has(GPOS),
        morx: font.has(MORX),
        kerx: font.has(KERX),
        trak: font.has(TRAK),
    }
}

impl<'a> FontFace<'a> {
    /// The font with this number in a collection, or number 0, the one of a file of one font. None
    /// if the file has no such font, or its em square is empty.
    pub fn from_slice(bytes: &'a [u8], index: u32) -> Option<FontFace<'a>>
        ensures found { is_some result ≡ nat_lt 0 (u16_of (bytes_of bytes.now index HEAD) 18) }
        ensures units_per_em { IfSome result (λ f. f.units_per_em
            ≡ u16_of (bytes_of bytes.now index HEAD) 18) }
        ensures glyph_count { IfSome result (λ f. f.glyph_count
            ≡ u16_of (bytes_of bytes.now index MAXP) 4) }
        ensures h_count { IfSome result (λ f. f.h_count ≡ long_metrics
            (bytes_of bytes.now index HMTX) (u16_of (bytes_of bytes.now index HHEA) 34)) }
        ensures v_count { IfSome result (λ f. f.v_count ≡ long_metrics
            (bytes_of bytes.now index VMTX) (u16_of (bytes_of bytes.now index VHEA) 34)) }
        ensures long_places { IfSome result (λ f. f.long_places
            ≡ nat_lt 0 (u16_of (bytes_of bytes.now index HEAD) 50)) }
        ensures outlines { IfSome result (λ f. f.outlines ≡ has_table bytes.now index GLYF) }
        ensures font_page { IfSome result (λ f. f.font_page
            ≡ font_page_of (bytes_of bytes.now index CMAP) (bytes_of bytes.now index OS2)) }
        ensures gsub { IfSome result (λ f. f.tables.gsub ≡ has_table bytes.now index GSUB) }
        ensures gpos { IfSome result (λ f. f.tables.gpos ≡ has_table bytes.now index GPOS) }
        ensures morx { IfSome result (λ f. f.tables.morx ≡ has_table bytes.now index MORX) }
        ensures kerx { IfSome result (λ f. f.tables.kerx ≡ has_table bytes.now index KERX) }
        ensures trak { IfSome result (λ f. f.tables.trak ≡ has_table bytes.now index TRAK) }
        ensures cmap { IfSome result (λ f. f.cmap.now
            ≡ chosen_subtable (bytes_of bytes.now index CMAP)) }
        ensures sequences { IfSome result (λ f. f.sequences.now
            ≡ sequences_of (bytes_of bytes.now index CMAP)) }
        ensures hmtx { IfSome result (λ f. f.hmtx.now ≡ bytes_of bytes.now index HMTX) }
        ensures vmtx { IfSome result (λ f. f.vmtx.now ≡ bytes_of bytes.now index VMTX) }
        ensures vorg { IfSome result (λ f. f.vorg.now ≡ bytes_of bytes.now index VORG) }
        ensures loca { IfSome result (λ f. f.loca.now ≡ bytes_of bytes.now index LOCA) }
        ensures glyf { IfSome result (λ f. f.glyf.now ≡ bytes_of bytes.now index GLYF) }
        ensures hhea { IfSome result (λ f. f.hhea.now ≡ bytes_of bytes.now index HHEA) }
        ensures os2 { IfSome result (λ f. f.os2.now ≡ bytes_of bytes.now index OS2) }
        ensures layout { IfSome result (λ f. option_map (λ c. c.layout) f.cff
            ≡ Cff.chosen_layout bytes.now index (u16_of (bytes_of bytes.now index MAXP) 4)) }
        ensures cff { IfSome result (λ f. option_map (λ c. c.table.now) f.cff
            ≡ Cff.chosen_table bytes.now index (u16_of (bytes_of bytes.now index MAXP) 4)) }
        ensures sbix { IfSome result (λ f. f.bitmaps.sbix.now ≡ bytes_of bytes.now index SBIX) }
        ensures cblc { IfSome result (λ f. f.bitmaps.cblc.now ≡ bytes_of bytes.now index CBLC) }
        ensures cbdt { IfSome result (λ f. f.bitmaps.cbdt.now ≡ bytes_of bytes.now index CBDT) }
        ensures colr { IfSome result (λ f. f.colr.now ≡ bytes_of bytes.now index COLR) }
        ensures kern { IfSome result (λ f. f.kern.now ≡ bytes_of bytes.now index KERN) }
        ensures post { IfSome result (λ f. f.post.now ≡ bytes_of bytes.now index POST) }
        ensures gdef_table { IfSome result (λ f. f.gdef.now ≡ bytes_of bytes.now index GDEF) }
        ensures gsub_table { IfSome result (λ f. f.gsub.now ≡ bytes_of bytes.now index GSUB) }
        ensures gpos_table { IfSome result (λ f. f.gpos.now ≡ bytes_of bytes.now index GPOS) }
        ensures hvar { IfSome result (λ f. f.hvar.now ≡ bytes_of bytes.now index HVAR) }
        ensures vvar { IfSome result (λ f. f.vvar.now ≡ bytes_of bytes.now index VVAR) }
        ensures gvar { IfSome result (λ f. f.gvar.now ≡ bytes_of bytes.now index GVAR) }
        ensures mvar { IfSome result (λ f. f.mvar.now ≡ bytes_of bytes.now index MVAR) }
        ensures coordinates { IfSome result (λ f. f.coordinates.now ≡ []) }
        ensures morx_table { IfSome result (λ f. f.apple.morx.now ≡ bytes_of bytes.now index MORX) }
        ensures feat_table { IfSome result (λ f. f.apple.feat.now ≡ bytes_of bytes.now index FEAT) }
        ensures ltag_table { IfSome result (λ f. f.apple.ltag.now ≡ bytes_of bytes.now index LTAG) }
        ensures kerx_table { IfSome result (λ f. f.apple.kerx.now ≡ bytes_of bytes.now index KERX) }
        ensures ankr_table { IfSome result (λ f. f.apple.ankr.now ≡ bytes_of bytes.now index ANKR) }
        ensures trak_table { IfSome result (λ f. f.apple.trak.now ≡ bytes_of bytes.now index TRAK) }
        ensures scale { IfSome result (λ f. f.scale ≡ None) }
        ensures points { IfSome result (λ f. f.points ≡ NO_POINTS) }
    {
        let font = Directory::of(bytes, index);
        let head = font.table_or_empty(HEAD);
        let units_per_em = u16_at(head, 18);
        if units_per_em == 0 {
            return None;
        }
        let (hhea, vhea) = (font.table_or_empty(HHEA), font.table_or_empty(VHEA));
        let (hmtx, vmtx) = (font.table_or_empty(HMTX), font.table_or_empty(VMTX));
        let cmap = font.table_or_empty(CMAP);
        let glyph_count = u16_at(font.table_or_empty(MAXP), 4);
        Some(FontFace {
            units_per_em,
            glyph_count,
            h_count: metrics::metrics_in(hmtx, u16_at(hhea, 34)),
            v_count: metrics::metrics_in(vmtx, u16_at(vhea, 34)),
            long_places: u16_at(head, 50) != 0,
            outlines: font.has(GLYF),
            font_page: font_page(cmap, font.table_or_empty(OS2)),
            tables: lookups(&font),
            cmap: chosen(cmap),
            sequences: variations::sequences(cmap),
            hmtx,
            vmtx,
            vorg: font.table_or_empty(VORG),
            loca: font.table_or_empty(LOCA),
            glyf: font.table_or_empty(GLYF),
            hhea,
            os2: font.table_or_empty(OS2),
            cff: cff_font(&font, glyph_count),
            bitmaps: bitmaps(&font),
            colr: font.table_or_empty(COLR),
            kern: font.table_or_empty(KERN),
            post: font.table_or_empty(POST),
            gdef: font.table_or_empty(GDEF),
            gsub: font.table_or_empty(GSUB),
            gpos: font.table_or_empty(GPOS),
            hvar: font.table_or_empty(HVAR),
            vvar: font.table_or_empty(VVAR),
            gvar: font.table_or_empty(GVAR),
            mvar: font.table_or_empty(MVAR),
            apple: apple_tables(&font),
            coordinates: &[],
            scale: None,
            points: NO_POINTS,
        })
    }

    /// The same font at these coordinates, normalized and in units of 1/16384, as
    /// [`coordinates_of`] makes them; an axis past the last of them is at its default, and none are
    /// the default instance. Advances are varied by `HVAR` and `VVAR`, or else by `gvar`, origins
    /// by `VVAR` and `VORG`, or else by `gvar`, measures of lines by `MVAR`, and boxes by `gvar`; a
    /// glyph of `CFF2` has none away from the default instance.
    ///
    /// [`coordinates_of`]: crate::instance::coordinates_of
    pub fn at(self, coordinates: &'a [i32]) -> FontFace<'a>
        ensures { result ≡ record self.entry { coordinates = coordinates.entry } }
    {
        FontFace {
            coordinates,
            ..self
        }
    }

    /// The coordinates; none at the default instance.
    pub fn coordinates(&self) -> &'a [i32]
        ensures { result.now ≡ self.now.coordinates.now }
    {
        self.coordinates
    }

    /// How many glyphs the font has.
    pub fn glyph_count(&self) -> u16
        ensures { result ≡ self.now.glyph_count }
    {
        self.glyph_count
    }

    /// The glyph's name by `post`, or else by the charset of `CFF `; none if neither has one for
    /// it, or an empty one.
    pub fn glyph_name(&self, glyph: GlyphId) -> Option<&'a [u8]>
        ensures { option_map (λ s. s.now) result ≡ Face.name_of_glyph self.now glyph.0 }
    {
        match names::glyph_name(self.post, glyph.0) {
            Some(name) => Some(name),
            None => self.charset_name(glyph.0),
        }
    }

    /// The subtable of `cmap` that has the glyphs of characters; an empty one if the font has none.
    pub fn character_map(&self) -> &'a [u8]
        ensures { result.now ≡ self.now.cmap.now }
    {
        self.cmap
    }

    /// The number of the glyph that `cmap` gives the character with this number, 0 if it gives
    /// none.
    pub fn glyph_number(&self, c: u32) -> u32
        ensures { result ≡ mapped_glyph self.now.cmap.now self.now.font_page c }
    {
        cmap::mapped(self.cmap, self.font_page, c)
    }

    /// The glyph of a character by `cmap`. It may be past the last glyph of the font.
    fn glyph(&self, c: char) -> Option<GlyphId>
        ensures { result ≡ Face.glyph_of self.now c }
    {
        numbered(self.glyph_number(u32::from(c)))
    }

    /// The glyph of a character before a selector: its own, or the character's if it looks as it
    /// does alone.
    fn variant(&self, c: char, selector: char) -> Option<GlyphId>
        ensures { result ≡ Face.variant_of self.now c selector }
    {
        match variation(self.sequences, u32::from(c), u32::from(selector)) {
            GlyphVariant::Missing => None,
            GlyphVariant::Default => self.glyph(c),
            GlyphVariant::Own(glyph) => numbered(glyph),
        }
    }

    /// The box of a glyph's outline.
    #[tactic(auto, unfolding(crate::specs::Face::inked_of))]
    fn inked(&self, glyph: u32) -> hb_glyph_extents_t
        ensures value { result ≡ Face.inked_of self.now glyph }
        ensures long { negsuc 65535 ≤ℤ result.height }
        ensures short { result.height ≤ℤ pos 65535 }
    {
        let start = metrics::place(self.loca, self.long_places, glyph as usize);
        let end = metrics::place(self.loca, self.long_places, glyph as usize + 1);
        let bearing = metrics::bearing(self.hmtx, self.h_count, glyph);
        metrics::outline_box(self.glyf, start, end, bearing)
    }

    /// Whether the glyph has a box.
    fn has_box(&self, glyph: GlyphId) -> bool
        ensures { result ≡ (self.now.outlines && nat_lt glyph.0 self.now.glyph_count) }
    {
        self.outlines && glyph.0 < u32::from(self.glyph_count)
    }
}

impl<'a> hb_font_t for FontFace<'a> {
    ghost face = { Face.font_face };

    fn get_nominal_glyph(&self, c: char) -> Option<GlyphId> {
        self.glyph(c)
    }

    fn has_glyph(&self, c: char) -> bool {
        self.glyph(c).is_some()
    }

    fn glyph_variation_index(&self, c: char, selector: char) -> Option<GlyphId> {
        self.variant(c, selector)
    }

    fn glyph_h_advance(&self, glyph: GlyphId) -> i32 {
        self.sized_advance(glyph)
    }

    fn glyph_v_advance(&self, glyph: GlyphId) -> i32 {
        self.sized_advance_down(glyph)
    }

    fn glyph_h_origin(&self, glyph: GlyphId) -> i32 {
        half(self.sized_advance(glyph))
    }

    fn glyph_v_origin(&self, glyph: GlyphId) -> i32 {
        self.sized_origin(glyph)
    }

    fn glyph_extents(&self, glyph: GlyphId) -> Option<hb_glyph_extents_t> {
        self.extents(glyph)
    }

    fn units_per_em(&self) -> u16 {
        self.units_per_em
    }

    fn x_scale(&self) -> i32 {
        self.sized_em().x
    }

    fn y_scale(&self) -> i32 {
        self.sized_em().y
    }

    fn tables(&self) -> hb_tables_t {
        self.tables
    }
}
