//! HarfBuzz's shaper `fallback`: each character by itself, with its own glyph and advance, whatever
//! its script and the font's tables of lookups.
use shape_buffer::wrapping::difference;
use shape_pipeline::{
    Direction, GlyphBuffer, GlyphId, GlyphPosition, UnicodeBuffer, hb_font_t, hb_unicode_funcs_t,
};
use shape_unicode::UnicodeDatabase;

/// A glyph's position by itself: from its origin to where the next one begins.
fn alone<F: hb_font_t>(face: &F, direction: Direction, glyph: GlyphId) -> GlyphPosition {
    let mut position = GlyphPosition::zero();
    if direction.is_vertical() {
        position.y_advance = face.glyph_v_advance(glyph);
        position.x_offset = difference(0, face.glyph_h_origin(glyph));
        position.y_offset = difference(0, face.glyph_v_origin(glyph));
    } else {
        position.x_advance = face.glyph_h_advance(glyph);
    }
    position
}

/// A character's glyph, and its position. A default ignorable is a space of no width, if the font
/// has a space.
fn placed<F: hb_font_t>(face: &F, direction: Direction, c: char) -> (GlyphId, GlyphPosition) {
    if UnicodeDatabase::is_default_ignorable(c) {
        if let Some(space) = face.get_nominal_glyph(' ') {
            return (space, GlyphPosition::zero());
        }
    }
    let glyph = face.get_nominal_glyph(c).unwrap_or(GlyphId(0));
    (glyph, alone(face, direction, glyph))
}

/// The glyphs of a buffer's characters, one for each, from the left of a line or from its top.
pub fn shaped_alone<F: hb_font_t>(face: &F, buffer: UnicodeBuffer) -> GlyphBuffer {
    let mut glyphs = buffer.into_inner();
    let direction = glyphs.direction();
    for i in 0..glyphs.len() {
        if glyphs.len() <= i {
            break;
        }
        let mut item = glyphs.infos()[i];
        let (glyph, position) = placed(face, direction, item.codepoint);
        item.glyph_id = glyph.0;
        glyphs.set_info(i, item);
        glyphs.set_position(i, position);
    }
    if direction.is_backward() {
        glyphs.reverse();
    }
    glyphs.into_glyphs()
}
