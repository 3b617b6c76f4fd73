//! The lines that are printed for a text.
//!
//! Each call appends to a string, which keeps what it has, and refuses if a growth was refused.
ghost use Rattle.std.specs.Prelude.{◌≡◌, ◌++◌, string_bytes, IfOk};
ghost use Rattle.shape_sessions.specs.Printing.{glyph_word, glyphs_line, item_word, items_line};
ghost use Rattle.shape_sessions.specs.Printing.{advances_word, flags_word, offsets_word, place_word};
ghost use Rattle.shape_sessions.specs.Printing.{text_line};

use shape_buffer::buffer::{DEFINED, GlyphPosition, hb_glyph_info_t, hb_mask_t};
use std::alloc::AllocError;

/// Appends a line of a name and the items, each as its character, `@` and its cluster.
pub fn append_items(
    lines: &mut String,
    name: &str,
    items: &[hb_glyph_info_t],
) -> Result<(), AllocError>
    ensures { IfOk result (λ _. string_bytes lines.new
        ≡ string_bytes lines.old ++ items_line name.now items.now) }
{
    lines.push_str(name)?;
    for item in items {
        append_item(lines, item)?;
    }
    lines.push('\n')
}

/// Appends a line of the glyphs, each with its cluster, its position and its defined flags.
pub fn append_glyphs(
    lines: &mut String,
    items: &[hb_glyph_info_t],
    positions: &[GlyphPosition],
) -> Result<(), AllocError>
    ensures { IfOk result (λ _. string_bytes lines.new
        ≡ string_bytes lines.old ++ glyphs_line items.now positions.now) }
{
    lines.push_str("glyphs")?;
    for (item, position) in items.iter().zip(positions) {
        append_glyph(lines, item, position)?;
    }
    lines.push('\n')
}

/// Appends a line of a text's line, which shows the text from one cluster up to another: its
/// glyphs, each with its cluster.
pub fn append_line(
    lines: &mut String,
    text_start: u32,
    text_end: u32,
    items: &[hb_glyph_info_t],
) -> Result<(), AllocError>
    ensures { IfOk result (λ _. string_bytes lines.new
        ≡ string_bytes lines.old ++ text_line text_start text_end items.now) }
{
    write!(lines, "line {text_start}-{text_end}")?;
    for item in items {
        append_place(lines, item)?;
    }
    lines.push('\n')
}

/// Appends one item, after a space.
fn append_item(lines: &mut String, item: &hb_glyph_info_t) -> Result<(), AllocError>
    ensures { IfOk result (λ _. string_bytes lines.new
        ≡ string_bytes lines.old ++ item_word item.now) }
{
    let code = u32::from(item.codepoint);
    let cluster = item.cluster;
    write!(lines, " {code:04X}@{cluster}")
}

/// Appends one glyph and its cluster, after a space.
fn append_place(lines: &mut String, item: &hb_glyph_info_t) -> Result<(), AllocError>
    ensures { IfOk result (λ _. string_bytes lines.new
        ≡ string_bytes lines.old ++ place_word item.now) }
{
    let (glyph, cluster) = (item.glyph_id, item.cluster);
    write!(lines, " {glyph}@{cluster}")
}

/// Appends how far a glyph moves the pen, after a bracket.
fn append_advances(lines: &mut String, position: &GlyphPosition) -> Result<(), AllocError>
    ensures { IfOk result (λ _. string_bytes lines.new
        ≡ string_bytes lines.old ++ advances_word position.now) }
{
    let (x, y) = (position.x_advance, position.y_advance);
    write!(lines, "({x},{y}")
}

/// Appends where a glyph is moved to, and a bracket.
fn append_offsets(lines: &mut String, position: &GlyphPosition) -> Result<(), AllocError>
    ensures { IfOk result (λ _. string_bytes lines.new
        ≡ string_bytes lines.old ++ offsets_word position.now) }
{
    let (x, y) = (position.x_offset, position.y_offset);
    write!(lines, ",{x},{y})")
}

/// Appends the defined flags of a glyph.
fn append_flags(lines: &mut String, mask: hb_mask_t) -> Result<(), AllocError>
    ensures { IfOk result (λ _. string_bytes lines.new
        ≡ string_bytes lines.old ++ flags_word mask) }
{
    let flags = mask & DEFINED;
    write!(lines, "/{flags}")
}

/// Appends one glyph, after a space.
fn append_glyph(
    lines: &mut String,
    item: &hb_glyph_info_t,
    position: &GlyphPosition,
) -> Result<(), AllocError>
    ensures { IfOk result (λ _. string_bytes lines.new
        ≡ string_bytes lines.old ++ glyph_word item.now position.now) }
{
    append_place(lines, item)?;
    append_advances(lines, position)?;
    append_offsets(lines, position)?;
    append_flags(lines, item.mask)?;
    Ok(())
}
