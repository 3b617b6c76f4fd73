//! Faces that are watched.
use shape_buffer::GlyphId;
use shape_buffer::buffer::hb_buffer_t;
use shape_buffer::interfaces::{hb_font_t, hb_glyph_extents_t, hb_tables_t};

/// When a list is seen.
#[derive(Clone, Copy, PartialEq, Eq, Debug)]
pub enum Moment {
    /// Each character has its glyph, and no lookup was applied.
    BeforeStages,
    /// Stage `i` of substitution, from 0 on, was applied; the pause after it comes next.
    Stage(usize),
    /// The table `morx` was applied.
    Metamorphosed,
    /// Each glyph has its own advance, and nothing was placed.
    BeforePlacing,
    /// `GPOS` was applied.
    Placed,
    /// The table `kerx` was applied.
    PlacedByKerx,
    /// The table `kern` was applied.
    Kerned,
    /// The table `trak` was applied.
    Tracked,
}

/// Who watches a run whose compiled requests are a `P`. It changes nothing of the run.
pub trait watcher<P> {
    /// Takes note of a list.
    fn sees(&self, moment: Moment, buffer: &hb_buffer_t);

    /// Takes note of a list after lookups that were compiled to this.
    fn sees_lookups(&self, moment: Moment, map: &P, buffer: &hb_buffer_t);
}

/// A face whose runs are watched.
#[derive(Clone, Copy)]
pub struct WatchedFace<'a, F, W> {
    pub face: &'a F,
    pub watcher: &'a W,
}

impl<'a, F: hb_font_t, W> hb_font_t for WatchedFace<'a, F, W> {
    ghost face = { λ w. F.face w.face.now };

    fn get_nominal_glyph(&self, c: char) -> Option<GlyphId> {
        self.face.get_nominal_glyph(c)
    }

    fn has_glyph(&self, c: char) -> bool {
        self.face.has_glyph(c)
    }

    fn glyph_variation_index(&self, c: char, selector: char) -> Option<GlyphId> {
        self.face.glyph_variation_index(c, selector)
    }

    fn glyph_h_advance(&self, glyph: GlyphId) -> i32 {
        self.face.glyph_h_advance(glyph)
    }

    fn glyph_v_advance(&self, glyph: GlyphId) -> i32 {
        self.face.glyph_v_advance(glyph)
    }

    fn glyph_h_origin(&self, glyph: GlyphId) -> i32 {
        self.face.glyph_h_origin(glyph)
    }

    fn glyph_v_origin(&self, glyph: GlyphId) -> i32 {
        self.face.glyph_v_origin(glyph)
    }

    fn glyph_extents(&self, glyph: GlyphId) -> Option<hb_glyph_extents_t> {
        self.face.glyph_extents(glyph)
    }

    fn units_per_em(&self) -> u16 {
        self.face.units_per_em()
    }

    fn x_scale(&self) -> i32 {
        self.face.x_scale()
    }

    fn y_scale(&self) -> i32 {
        self.face.y_scale()
    }

    fn tables(&self) -> hb_tables_t {
        self.face.tables()
    }
}
