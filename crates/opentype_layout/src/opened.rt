//! The face that is opened once, for the engine.
ghost use Rattle.std.specs.Prelude.{◌≡◌, true, false, IfOk, IsOkUnless};
ghost use Rattle.kern_table.specs.Pairs.{HoldSides};
ghost use Rattle.layout_digests.specs.LigatureSets.{HoldSets};
ghost use Rattle.layout_digests.specs.Stored.{AreStored};
ghost use Rattle.layout_digests.specs.WholeRules.{HoldWholes};
ghost use Rattle.opentype_layout.specs.Face.{opentype_face};

use crate::classes::{GlyphClasses, props_of};
use crate::face::OpenTypeFace;
use crate::lookups::Stored;
use kern_table::Sides;
use layout_digests::StoredLookups;
use layout_digests::ligature_sets::stored_sets;
use layout_digests::lookups::Lookups;
use layout_digests::stored::stored;
use layout_matching::ligature_sets::StoredSets;
use opened_face::OpenedFace;
use shape_buffer::{GlyphId, ShapeError, hb_font_t, hb_glyph_extents_t, hb_tables_t};
use std::alloc::Global;
use std::marker::Model;

/// A face over the bytes of a font file with tables beside it: those of [`OpenedFace`], for each
/// glyph what `GDEF` says of it, in 2 bytes, for each lookup of `GSUB` and `GPOS` what it begins
/// with and a digest of the glyphs that it may begin at, in 88 bytes with the place of those of its
/// subtables, and for these 24 each, or 120 in lookups of context; and for each set of ligatures
/// where it stands, what it costs and the second components, in 64, with 4 for each glyph between
/// the first and the last one that have such a set. It returns what the [`OpenTypeFace`] returns,
/// and contracts see it as that face.
#[derive(Drop)]
pub struct OpenedOpenTypeFace<'a> {
    face: OpenTypeFace<'a>,
    font: OpenedFace<'a>,
    props: Vec<u16>,
    substitution: StoredLookups,
    positioning: StoredLookups,
    sets: Vec<StoredSets>,
}

impl<'a> Model for OpenedOpenTypeFace<'a> {
    ghost use Rattle.opentype_layout.specs.declared.face.OpenTypeFace.{OpenTypeFace};
    ghost use Rattle.opentype_layout.specs.Digested.{IsStored};

    ghost Value = { OpenTypeFace };

    ghost view = { λ o. o.face };

    ghost invariant = { λ o. IsStored o.font o.face o.props.items o.substitution o.positioning o.sets.items };
}

impl<'a> OpenedOpenTypeFace<'a> {
    /// Opens a face: stores the pages of its character map, the advances and classes of its glyphs,
    /// and the digests of its lookups. Takes time in step with the bytes of the tables, whatever
    /// they are. Refuses with `Memory` if a growth was refused.
    pub fn new(alloc: Global, face: OpenTypeFace<'a>) -> Result<OpenedOpenTypeFace<'a>, ShapeError>
        ensures ok { IfOk result (λ opened. opened ≡ face.entry) }
        ensures memory { IsOkUnless result ShapeError.Memory }
    {
        let font = OpenedFace::new(alloc, face.font())?;
        let props = props_of(alloc, face.gdef(), face.font().glyph_count())?;
        let gsub = Lookups {
            table: face.gsub(),
            positioning: false,
        };
        let gpos = Lookups {
            table: face.gpos(),
            positioning: true,
        };
        let substitution = stored(alloc, gsub)?;
        let positioning = stored(alloc, gpos)?;
        let sets = stored_sets(alloc, face.gsub())?;
        Ok(OpenedOpenTypeFace {
            face,
            font,
            props,
            substitution,
            positioning,
            sets,
        })
    }

    /// The face without the tables.
    pub fn face(&self) -> &OpenTypeFace<'a>
        ensures { result.now ≡ self.now }
    {
        &self.face
    }

    /// Which glyphs stand in pairs of the first subtable of `kern`.
    pub(crate) fn pair_sides(&self) -> Sides<'_>
        ensures { HoldSides self.now.font.kern.now 4 result.lefts.now result.rights.now }
    {
        self.font.pair_sides()
    }

    /// What `GDEF` says of glyphs.
    pub(crate) fn classes(&self) -> GlyphClasses<'_>
        ensures { result.gdef.now ≡ self.now.gdef.now }
    {
        GlyphClasses::new(self.face.gdef(), self.props.as_slice())
    }

    /// What is stored of the lookups of `GSUB`.
    pub(crate) fn stored_gsub(&self) -> Stored<'_>
        ensures stored { AreStored self.now.gsub.now false result.firsts.now result.lookups.now }
        ensures sets { HoldSets self.now.gsub.now result.sets.now }
        ensures wholes { HoldWholes self.now.gsub.now false result.wholes.now }
    {
        Stored {
            lookups: self.substitution.lookups.as_slice(),
            firsts: self.substitution.firsts.as_slice(),
            sets: self.sets.as_slice(),
            wholes: self.substitution.wholes.as_slice(),
        }
    }

    /// What is stored of the lookups of `GPOS`.
    pub(crate) fn stored_gpos(&self) -> Stored<'_>
        ensures stored { AreStored self.now.gpos.now true result.firsts.now result.lookups.now }
        ensures wholes { HoldWholes self.now.gpos.now true result.wholes.now }
    {
        Stored {
            lookups: self.positioning.lookups.as_slice(),
            firsts: self.positioning.firsts.as_slice(),
            sets: &[],
            wholes: self.positioning.wholes.as_slice(),
        }
    }
}

impl<'a> hb_font_t for OpenedOpenTypeFace<'a> {
    ghost face = { opentype_face };

    fn get_nominal_glyph(&self, c: char) -> Option<GlyphId> {
        self.font.get_nominal_glyph(c)
    }

    fn has_glyph(&self, c: char) -> bool {
        self.font.has_glyph(c)
    }

    fn glyph_variation_index(&self, c: char, selector: char) -> Option<GlyphId> {
        self.font.glyph_variation_index(c, selector)
    }

    fn glyph_h_advance(&self, glyph: GlyphId) -> i32 {
        self.font.glyph_h_advance(glyph)
    }

    fn glyph_v_advance(&self, glyph: GlyphId) -> i32 {
        self.font.glyph_v_advance(glyph)
    }

    fn glyph_h_origin(&self, glyph: GlyphId) -> i32 {
        self.font.glyph_h_origin(glyph)
    }

    fn glyph_v_origin(&self, glyph: GlyphId) -> i32 {
        self.font.glyph_v_origin(glyph)
    }

    fn glyph_extents(&self, glyph: GlyphId) -> Option<hb_glyph_extents_t> {
        self.font.glyph_extents(glyph)
    }

    fn units_per_em(&self) -> u16 {
        self.font.units_per_em()
    }

    fn x_scale(&self) -> i32 {
        self.font.x_scale()
    }

    fn y_scale(&self) -> i32 {
        self.font.y_scale()
    }

    fn tables(&self) -> hb_tables_t {
        self.face.tables()
    }
}
