//! A face that is given glyph by glyph.
ghost use Rattle.std.specs.Prelude.{◌≡◌, ◌⊎◌, [], OnOk, OnErr};
ghost use Rattle.std.specs.Ordering.{nat_cmp};
ghost use Rattle.std.specs.BTreeMap.{insert_entry};
ghost use Rattle.shape_common.specs.MapFace.{map_face, advance_of, extents_of};

use crate::wrapping::half;
use crate::{GlyphId, hb_font_t, hb_glyph_extents_t, hb_tables_t};
use std::alloc::{AllocError, Global};
use std::collections::BTreeMap;

/// What a face says of a glyph.
#[derive(Clone, Copy, Debug)]
pub struct Metrics {
    pub advance: i32,
    pub extents: Option<hb_glyph_extents_t>,
}

/// A face over two maps: the glyphs of characters, and the metrics of glyphs, in units of which its
/// em square has `units_per_em`.
///
/// It has no tables of lookups and no variation glyphs. A glyph of which nothing was said has
/// advance 0 and no extents. In vertical lines every glyph moves the pen down by the em square, and
/// stands with its middle on the line and its origin at the top of the square.
#[derive(Drop)]
pub struct MapFace {
    units_per_em: u16,
    glyphs: BTreeMap<char, GlyphId>,
    metrics: BTreeMap<u32, Metrics>,
}

impl MapFace {
    /// A face without a glyph.
    pub fn new(alloc: Global, units_per_em: u16) -> MapFace
        ensures units_per_em { result.units_per_em ≡ units_per_em }
        ensures glyphs { result.glyphs.entries ≡ [] }
        ensures metrics { result.metrics.entries ≡ [] }
    {
        MapFace {
            units_per_em,
            glyphs: BTreeMap::new(alloc),
            metrics: BTreeMap::new(alloc),
        }
    }

    /// Gives a character a glyph, and the glyph its metrics. This replaces what was said of either
    /// before. Refuses if a growth was refused: the character then keeps the glyph that it had, and
    /// the glyph has either its old metrics or the new ones.
    pub fn set_glyph(&mut self, c: char, glyph: GlyphId, metrics: Metrics) -> Result<(), AllocError>
        ensures units_per_em { self.new.units_per_em ≡ self.old.units_per_em }
        ensures glyphs { OnOk result (self.new.glyphs.entries
            ≡ insert_entry nat_cmp self.old.glyphs.entries c glyph) }
        ensures metrics { OnOk result (self.new.metrics.entries
            ≡ insert_entry nat_cmp self.old.metrics.entries glyph.0 metrics) }
        ensures err { OnErr result (self.new.glyphs.entries ≡ self.old.glyphs.entries) }
        ensures err_metrics { OnErr result ((self.new.metrics.entries ≡ self.old.metrics.entries)
            ⊎ (self.new.metrics.entries
            ≡ insert_entry nat_cmp self.old.metrics.entries glyph.0 metrics)) }
    {
        self.metrics.insert(glyph.0, metrics)?;
        self.glyphs.insert(c, glyph)?;
        Ok(())
    }

    /// The advance of a glyph, 0 if nothing was said of it.
    fn advance(&self, glyph: GlyphId) -> i32
        ensures { result ≡ advance_of self.now glyph }
    {
        match self.metrics.get(&glyph.0) {
            Some(metrics) => metrics.advance,
            None => 0,
        }
    }

    /// The extents of a glyph, if they were given.
    fn extents(&self, glyph: GlyphId) -> Option<hb_glyph_extents_t>
        ensures { result ≡ extents_of self.now glyph }
    {
        match self.metrics.get(&glyph.0) {
            Some(metrics) => metrics.extents,
            None => None,
        }
    }
}

impl hb_font_t for MapFace {
    ghost face = { map_face };

    fn get_nominal_glyph(&self, c: char) -> Option<GlyphId> {
        self.glyphs.get(&c).copied()
    }

    fn has_glyph(&self, c: char) -> bool {
        self.glyphs.contains_key(&c)
    }

    fn glyph_variation_index(&self, _c: char, _selector: char) -> Option<GlyphId> {
        None
    }

    fn glyph_h_advance(&self, glyph: GlyphId) -> i32 {
        self.advance(glyph)
    }

    fn glyph_v_advance(&self, _glyph: GlyphId) -> i32 {
        -i32::from(self.units_per_em)
    }

    fn glyph_h_origin(&self, glyph: GlyphId) -> i32 {
        half(self.advance(glyph))
    }

    fn glyph_v_origin(&self, _glyph: GlyphId) -> i32 {
        i32::from(self.units_per_em)
    }

    fn glyph_extents(&self, glyph: GlyphId) -> Option<hb_glyph_extents_t> {
        self.extents(glyph)
    }

    fn units_per_em(&self) -> u16 {
        self.units_per_em
    }

    fn x_scale(&self) -> i32 {
        i32::from(self.units_per_em)
    }

    fn y_scale(&self) -> i32 {
        i32::from(self.units_per_em)
    }

    fn tables(&self) -> hb_tables_t {
        hb_tables_t {
            gsub: false,
            gpos: false,
            morx: false,
            kerx: false,
            trak: false,
        }
    }
}
