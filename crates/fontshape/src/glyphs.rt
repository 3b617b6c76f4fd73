//! A list of glyphs, as a run leaves it or as it is between two steps.
use shape_pipeline::{GlyphBuffer, GlyphPosition, hb_buffer_t, hb_glyph_info_t};

/// A list of glyphs with their positions.
#[derive(Clone, Copy)]
pub struct Glyphs<'a> {
    pub infos: &'a [hb_glyph_info_t],
    pub positions: &'a [GlyphPosition],
}

impl<'a> Glyphs<'a> {
    /// The glyphs of a line.
    pub fn of_line(glyphs: &'a GlyphBuffer) -> Glyphs<'a> {
        Glyphs {
            infos: glyphs.glyph_infos(),
            positions: glyphs.glyph_positions(),
        }
    }

    /// The list of a run between two of its steps.
    pub fn of_run(buffer: &'a hb_buffer_t) -> Glyphs<'a> {
        Glyphs {
            infos: buffer.infos(),
            positions: buffer.positions(),
        }
    }
}
