//! How tests print glyphs: the number of a glyph in base 16 and its cluster, `1A@3`, then its
//! advances and offsets, x before y, `(0,0,-450,112)`, and its mask in base 16, `/1`, if they are
//! asked for.

use shape_buffer::buffer::{GlyphPosition, hb_glyph_info_t};
use std::alloc::AllocError;

/// Appends a space between words.
pub fn append_space(line: &mut String) -> Result<(), AllocError> {
    if line.is_empty() {
        return Ok(());
    }
    line.push(' ')
}

/// Appends a glyph and its cluster: `1A@3`.
pub fn append_glyph(line: &mut String, info: &hb_glyph_info_t) -> Result<(), AllocError> {
    let (glyph, cluster) = (info.glyph_id, info.cluster);
    write!(line, "{glyph:X}@{cluster}")
}

/// Appends advances and offsets: `(0,0,-450,112)`.
pub fn append_position(line: &mut String, at: GlyphPosition) -> Result<(), AllocError> {
    let (x, y) = (at.x_advance, at.y_advance);
    let (right, up) = (at.x_offset, at.y_offset);
    write!(line, "({x},{y},{right},{up})")
}

/// Appends a mask: `/8`.
pub fn append_mask(line: &mut String, mask: u32) -> Result<(), AllocError> {
    write!(line, "/{mask:X}")
}
