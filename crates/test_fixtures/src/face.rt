//! The face of tests, which also says what its engine does.
ghost use Rattle.std.specs.Prelude.{◌≡◌};
ghost use Rattle.test_fixtures.specs.Faces.{test_face, glyph_among};
ghost use Rattle.test_fixtures.specs.Faces.{glyph_known, advance_known, extents_known};

use crate::rules::Stage;
use shape_buffer::buffer::{GlyphId, hb_tag_t};
use shape_buffer::interfaces::{hb_font_t, hb_glyph_extents_t, hb_tables_t};

/// A character with a glyph of its own.
#[derive(Clone, Copy, Debug)]
pub struct KnownGlyph {
    pub character: char,
    pub glyph: GlyphId,
    pub advance: i32,
    pub extents: Option<hb_glyph_extents_t>,
}

/// A face that is plain data, and what [`crate::TestLayout`] does for it. A test says what differs
/// from [`PLAIN_FACE`].
#[derive(Clone, Copy, Debug)]
pub struct TestFace<'a> {
    /// Characters whose glyphs are listed one by one.
    pub known: &'a [KnownGlyph],
    /// Whether every other character has the glyph of its own number.
    pub every: bool,
    /// The characters that have it, if not every one does.
    pub characters: &'a [char],
    /// Whether U+0061 with U+FE00 after it has glyph 7.
    pub variant: bool,
    /// The advance of glyphs that aren't listed.
    pub h_advance: i32,
    pub v_advance: i32,
    pub h_origin: i32,
    pub v_origin: i32,
    pub units_per_em: u16,
    pub tables: hb_tables_t,
    /// The stages of substitution, in order.
    pub stages: &'a [Stage],
    /// The number of the pause after the first stage, if there is one.
    pub pause: Option<u32>,
    /// Whether bit 3 is on in the mask of every item.
    pub global_bit: bool,
    /// Whether there are lookups for fractions.
    pub fractions: bool,
    /// Whether there are lookups for each feature, which then has mask 8.
    pub every_feature: bool,
    /// Whether glyphs have classes: glyph 9 that of a mark, all others that of a base.
    pub classes: bool,
    /// The script that is chosen for `GSUB`, whatever was asked.
    pub gsub_script: Option<hb_tag_t>,
    pub gpos_script: Option<hb_tag_t>,
    /// Whether `GPOS` has each feature that is asked for, so one that kerns.
    pub gpos_kerns: bool,
    pub kerning: bool,
    pub machine_kerning: bool,
    pub cross_kerning: bool,
    /// What `GPOS` adds to each horizontal advance.
    pub gpos_adds: i32,
    pub kerx_adds: i32,
    pub kern_adds: i32,
}

/// No character has a glyph, there are no tables, the em square has 1000 units and every other
/// number is 0.
pub const PLAIN_FACE: TestFace<'static> = TestFace {
    known: &[],
    every: false,
    characters: &[],
    variant: false,
    h_advance: 0,
    v_advance: 0,
    h_origin: 0,
    v_origin: 0,
    units_per_em: 1000,
    tables: hb_tables_t {
        gsub: false,
        gpos: false,
        morx: false,
        kerx: false,
        trak: false,
    },
    stages: &[],
    pause: None,
    global_bit: false,
    fractions: false,
    every_feature: false,
    classes: false,
    gsub_script: None,
    gpos_script: None,
    gpos_kerns: false,
    kerning: false,
    machine_kerning: false,
    cross_kerning: false,
    gpos_adds: 0,
    kerx_adds: 0,
    kern_adds: 0,
};

/// Every character has the glyph of its own number, of no width.
pub const EVERY_GLYPH: TestFace<'static> = TestFace {
    every: true,
    ..PLAIN_FACE
};

impl<'a> TestFace<'a> {
    /// These characters have the glyph of their own number, of no width.
    pub fn of(characters: &'a [char]) -> TestFace<'a> {
        TestFace {
            characters,
            ..PLAIN_FACE
        }
    }

    /// Every character has the glyph of its own number, and `GSUB` these stages; bit 3 is on for
    /// every item.
    pub fn ruled(stages: &'a [Stage]) -> TestFace<'a> {
        TestFace {
            stages,
            global_bit: true,
            tables: hb_tables_t {
                gsub: true,
                ..PLAIN_FACE.tables
            },
            ..EVERY_GLYPH
        }
    }
}

/// The glyph that is listed for a character.
fn glyph_of(known: &[KnownGlyph], c: char) -> Option<GlyphId>
    ensures { result ≡ glyph_known known.now c }
{
    known
        .iter()
        .find(|entry| entry.character == c)
        .map(|entry| entry.glyph)
}

/// The advance that is listed for a glyph.
fn advance_of(known: &[KnownGlyph], glyph: GlyphId) -> Option<i32>
    ensures { result ≡ advance_known known.now glyph }
{
    known
        .iter()
        .find(|entry| entry.glyph.0 == glyph.0)
        .map(|entry| entry.advance)
}

/// What is listed as the box of a glyph, if the glyph is listed.
fn extents_of(known: &[KnownGlyph], glyph: GlyphId) -> Option<Option<hb_glyph_extents_t>>
    ensures { result ≡ extents_known known.now glyph }
{
    known
        .iter()
        .find(|entry| entry.glyph.0 == glyph.0)
        .map(|entry| entry.extents)
}

/// The glyph of a character that is one of these.
fn glyph_in(characters: &[char], c: char) -> Option<GlyphId>
    ensures { result ≡ glyph_among characters.now c }
{
    characters
        .iter()
        .find(|known| **known == c)
        .map(|known| GlyphId(u32::from(*known)))
}

impl hb_font_t for TestFace<'_> {
    ghost face = { test_face };

    fn get_nominal_glyph(&self, c: char) -> Option<GlyphId> {
        match glyph_of(self.known, c) {
            Some(glyph) => Some(glyph),
            None if self.every => Some(GlyphId(u32::from(c))),
            None => glyph_in(self.characters, c),
        }
    }

    fn has_glyph(&self, c: char) -> bool {
        self.get_nominal_glyph(c).is_some()
    }

    fn glyph_variation_index(&self, c: char, selector: char) -> Option<GlyphId> {
        if self.variant && c == 'a' && selector == '\u{FE00}' {
            Some(GlyphId(7))
        } else {
            None
        }
    }

    fn glyph_h_advance(&self, glyph: GlyphId) -> i32 {
        advance_of(self.known, glyph).unwrap_or(self.h_advance)
    }

    fn glyph_v_advance(&self, _glyph: GlyphId) -> i32 {
        self.v_advance
    }

    fn glyph_h_origin(&self, _glyph: GlyphId) -> i32 {
        self.h_origin
    }

    fn glyph_v_origin(&self, _glyph: GlyphId) -> i32 {
        self.v_origin
    }

    fn glyph_extents(&self, glyph: GlyphId) -> Option<hb_glyph_extents_t> {
        extents_of(self.known, glyph).flatten()
    }

    fn units_per_em(&self) -> u16 {
        self.units_per_em
    }

    fn x_scale(&self) -> i32 {
        i32::from(self.units_per_em)
    }

    fn y_scale(&self) -> i32 {
        i32::from(self.units_per_em)
    }

    fn tables(&self) -> hb_tables_t {
        self.tables
    }
}
