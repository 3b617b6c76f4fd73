//! Glyphs as text, as `hb-shape` writes them: `[A=0+600|B=1@-50,0+640]`.
//!
//! A glyph is its name or number, `=` and its cluster, `@` and where it is moved to, `+` and how
//! far the pen moves on; if they are asked for, also `#` and its flags, and its box.
ghost use Rattle.std.specs.Prelude.{◌≡◌, ◌++◌, string_bytes, IfOk};
ghost use Rattle.shape_text_forms.specs.Serialize.{form_of, cluster_word, offset_word, advance_word};
ghost use Rattle.shape_text_forms.specs.Serialize.{position_word, flags_word, corner_word, size_word, box_word, extents_word};
ghost use Rattle.shape_text_forms.specs.Serialize.{separator, glyph_word, entry_text};

use crate::content::{Content, Pen, SerializeFlags, Spot, glyph_names};
use shape_buffer::wrapping::sum;
use shape_buffer::{GlyphId, GlyphPosition, hb_font_t, hb_glyph_extents_t, hb_glyph_info_t};
use std::alloc::AllocError;

/// Appends a glyph's cluster.
fn append_cluster(out: &mut String, flags: SerializeFlags, cluster: u32) -> Result<(), AllocError>
    ensures { IfOk result (λ _. string_bytes out.new
        ≡ string_bytes out.old ++ cluster_word flags.0 cluster) }
{
    if flags.asks(SerializeFlags::NO_CLUSTERS) {
        return Ok(());
    }
    write!(out, "={cluster}")
}

/// Appends where a glyph is moved to, if it is moved.
fn append_offset(out: &mut String, x: i32, y: i32) -> Result<(), AllocError>
    ensures { IfOk result (λ _. string_bytes out.new ≡ string_bytes out.old ++ offset_word x y) }
{
    if x == 0 && y == 0 {
        return Ok(());
    }
    write!(out, "@{x},{y}")
}

/// Appends how far the pen moves on.
fn append_advance(out: &mut String, x: i32, y: i32) -> Result<(), AllocError>
    ensures { IfOk result (λ _. string_bytes out.new ≡ string_bytes out.old ++ advance_word x y) }
{
    if y == 0 {
        write!(out, "+{x}")
    } else {
        write!(out, "+{x},{y}")
    }
}

/// Appends a glyph's offset and advance, as far as they are asked for.
fn append_position(
    out: &mut String,
    flags: SerializeFlags,
    pen: Pen,
    position: &GlyphPosition,
) -> Result<(), AllocError>
    ensures { IfOk result (λ _. string_bytes out.new
        ≡ string_bytes out.old ++ position_word flags.0 pen position.now) }
{
    if flags.asks(SerializeFlags::NO_POSITIONS) {
        return Ok(());
    }
    append_offset(
        out,
        sum(pen.x, position.x_offset),
        sum(pen.y, position.y_offset),
    )?;
    if flags.asks(SerializeFlags::NO_ADVANCES) {
        return Ok(());
    }
    append_advance(out, position.x_advance, position.y_advance)?;
    Ok(())
}

/// Appends the defined flags of a glyph, if they are asked for and it has any.
fn append_flags(out: &mut String, flags: SerializeFlags, mask: u32) -> Result<(), AllocError>
    ensures { IfOk result (λ _. string_bytes out.new
        ≡ string_bytes out.old ++ flags_word flags.0 mask) }
{
    let defined = mask % 8;
    if flags.asks(SerializeFlags::GLYPH_FLAGS) && defined != 0 {
        return write!(out, "#{defined}");
    }
    Ok(())
}

/// Appends the start of a box: its left and upper sides.
fn append_corner(out: &mut String, x: i32, y: i32) -> Result<(), AllocError>
    ensures { IfOk result (λ _. string_bytes out.new ≡ string_bytes out.old ++ corner_word x y) }
{
    write!(out, "<{x},{y}")
}

/// Appends the rest of a box: its width and height.
fn append_size(out: &mut String, width: i32, height: i32) -> Result<(), AllocError>
    ensures { IfOk result (λ _. string_bytes out.new
        ≡ string_bytes out.old ++ size_word width height) }
{
    write!(out, ",{width},{height}>")
}

/// Appends a box, all zeros for none.
fn append_box(out: &mut String, extents: Option<hb_glyph_extents_t>) -> Result<(), AllocError>
    ensures { IfOk result (λ _. string_bytes out.new ≡ string_bytes out.old ++ box_word extents) }
{
    match extents {
        None => out.push_str("<0,0,0,0>"),
        Some(extents) => {
            append_corner(out, extents.x_bearing, extents.y_bearing)?;
            append_size(out, extents.width, extents.height)?;
            Ok(())
        }
    }
}

/// Appends a glyph's box, if boxes are asked for.
fn append_extents<F: hb_font_t>(
    out: &mut String,
    flags: SerializeFlags,
    face: &F,
    glyph: u32,
) -> Result<(), AllocError>
    ensures { IfOk result (λ _. string_bytes out.new
        ≡ string_bytes out.old ++ extents_word flags.0 (F.face face.now).extents glyph) }
{
    if flags.asks(SerializeFlags::GLYPH_EXTENTS) {
        append_box(out, face.glyph_extents(GlyphId(glyph)))
    } else {
        Ok(())
    }
}

/// Appends a glyph's name, or its number.
fn append_glyph<N: glyph_names>(
    out: &mut String,
    flags: SerializeFlags,
    names: &N,
    glyph: u32,
) -> Result<(), AllocError>
    ensures { IfOk result (λ _. string_bytes out.new
        ≡ string_bytes out.old ++ glyph_word flags.0 (N.name names.now) glyph) }
{
    if flags.asks(SerializeFlags::NO_GLYPH_NAMES) {
        return write!(out, "{glyph}");
    }
    match names.glyph_name(GlyphId(glyph)) {
        Some(name) => out.push_str(name),
        None => write!(out, "gid{glyph}"),
    }
}

/// Appends what stands before a glyph.
fn append_separator(out: &mut String, first: bool) -> Result<(), AllocError>
    ensures { IfOk result (λ _. string_bytes out.new ≡ string_bytes out.old ++ separator first) }
{
    if first {
        out.push_str("[")
    } else {
        out.push_str("|")
    }
}

/// Appends a separator and all of a glyph.
pub(crate) fn append_entry<F: hb_font_t, N: glyph_names>(
    out: &mut String,
    content: &Content<'_, F, N>,
    spot: Spot,
    info: &hb_glyph_info_t,
    position: &GlyphPosition,
) -> Result<(), AllocError>
    ensures { IfOk result (λ _. string_bytes out.new
        ≡ string_bytes out.old ++ entry_text (form_of content.now.flags.0
        (N.name content.now.names.now) (F.face content.now.face.now))
        spot.first spot.pen info.now position.now) }
{
    append_separator(out, spot.first)?;
    append_glyph(out, content.flags, content.names, info.glyph_id)?;
    append_cluster(out, content.flags, info.cluster)?;
    append_position(out, content.flags, spot.pen, position)?;
    append_flags(out, content.flags, info.mask)?;
    append_extents(out, content.flags, content.face, info.glyph_id)?;
    Ok(())
}
