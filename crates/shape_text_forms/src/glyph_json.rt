//! Glyphs as a list of JSON (RFC 8259), as `hb-shape` writes it:
//! `[{"g":"A","cl":0,"dx":0,"dy":0,"ax":600,"ay":0}]`.
//!
//! A glyph is an object: `g` is its name or number, `cl` its cluster, `dx` and `dy` say where it is
//! moved to, `ax` and `ay` how far the pen moves on; if they are asked for, `fl` has its flags, and
//! `xb`, `yb`, `w` and `h` its box. Names are written by `serde_json`, which escapes what a string
//! of JSON can't hold.
ghost use Rattle.std.specs.Prelude.{◌≡◌, ◌++◌, [], ◌∷◌, codes, string_bytes, IfOk};
ghost use Rattle.std.specs.Option.{option_map_or};
ghost use Rattle.std.specs.Fmt.{decimal, signed_decimal};
ghost use Rattle.json.specs.Print.{quoted};
ghost use Rattle.shape_text_forms.specs.Json.{member, members, opening, glyph_value, cluster_member, position_members};
ghost use Rattle.shape_text_forms.specs.Json.{flags_member, no_box, box_members, extents_members, json_entry};
ghost use Rattle.shape_text_forms.specs.Serialize.{form_of};

use crate::content::{Content, Pen, SerializeFlags, Spot, glyph_names};
use serde_json::{Error, to_string};
use shape_buffer::wrapping::sum;
use shape_buffer::{GlyphId, GlyphPosition, hb_font_t, hb_glyph_extents_t, hb_glyph_info_t};
use std::alloc::{AllocError, Global};

/// A text as a string of JSON.
fn quoted_text(alloc: Global, text: &str) -> Result<String, Error>
    ensures { IfOk result (λ s. string_bytes s ≡ quoted text.now) }
{
    to_string(alloc, &text)
}

/// A text as a string of JSON, which fails for want of memory alone.
fn string_of(alloc: Global, text: &str) -> Result<String, AllocError>
    ensures { IfOk result (λ s. string_bytes s ≡ quoted text.now) }
{
    match quoted_text(alloc, text) {
        Ok(string) => Ok(string),
        Err(_) => Err(AllocError),
    }
}

/// Appends a member whose value is a count.
fn append_count(out: &mut String, name: &str, n: u32) -> Result<(), AllocError>
    ensures { IfOk result (λ _. string_bytes out.new
        ≡ string_bytes out.old ++ member name.now (decimal n)) }
{
    write!(out, ",\"{name}\":{n}")
}

/// Appends a member whose value is a number.
fn append_number(out: &mut String, name: &str, n: i32) -> Result<(), AllocError>
    ensures { IfOk result (λ _. string_bytes out.new
        ≡ string_bytes out.old ++ member name.now (signed_decimal n)) }
{
    write!(out, ",\"{name}\":{n}")
}

/// Appends two members.
fn append_numbers(
    out: &mut String,
    one: &str,
    x: i32,
    other: &str,
    y: i32,
) -> Result<(), AllocError>
    ensures { IfOk result (λ _. string_bytes out.new
        ≡ string_bytes out.old ++ members one.now x other.now y) }
{
    append_number(out, one, x)?;
    append_number(out, other, y)?;
    Ok(())
}

/// Appends what stands before a glyph's name.
fn append_opening(out: &mut String, first: bool) -> Result<(), AllocError>
    ensures { IfOk result (λ _. string_bytes out.new ≡ string_bytes out.old ++ opening first) }
{
    if first {
        out.push_str("[{\"g\":")
    } else {
        out.push_str(",{\"g\":")
    }
}

/// The name of a glyph without one.
fn number_name(alloc: Global, glyph: u32) -> Result<String, AllocError>
    ensures { IfOk result (λ s. string_bytes s ≡ codes "gid" ++ decimal glyph) }
{
    format!(in alloc; "gid{glyph}")
}

/// The name of a glyph as a string of JSON.
fn name_value<N: glyph_names>(alloc: Global, names: &N, glyph: u32) -> Result<String, AllocError>
    ensures { IfOk result (λ s. string_bytes s ≡ quoted
        (option_map_or (λ bytes. bytes) (N.name names.now glyph) (codes "gid" ++ decimal glyph))) }
{
    match names.glyph_name(GlyphId(glyph)) {
        Some(name) => string_of(alloc, name),
        None => string_of(alloc, number_name(alloc, glyph)?.as_str()),
    }
}

/// Appends a glyph's name, or its number.
fn append_glyph<N: glyph_names>(
    alloc: Global,
    out: &mut String,
    flags: SerializeFlags,
    names: &N,
    glyph: u32,
) -> Result<(), AllocError>
    ensures { IfOk result (λ _. string_bytes out.new
        ≡ string_bytes out.old ++ glyph_value flags.0 (N.name names.now) glyph) }
{
    if flags.asks(SerializeFlags::NO_GLYPH_NAMES) {
        return write!(out, "{glyph}");
    }
    out.push_str(name_value(alloc, names, glyph)?.as_str())
}

/// Appends a glyph's cluster.
fn append_cluster(out: &mut String, flags: SerializeFlags, cluster: u32) -> Result<(), AllocError>
    ensures { IfOk result (λ _. string_bytes out.new
        ≡ string_bytes out.old ++ cluster_member flags.0 cluster) }
{
    if flags.asks(SerializeFlags::NO_CLUSTERS) {
        return Ok(());
    }
    append_count(out, "cl", cluster)
}

/// Appends where a glyph is moved to.
fn append_offset(out: &mut String, x: i32, y: i32) -> Result<(), AllocError>
    ensures { IfOk result (λ _. string_bytes out.new
        ≡ string_bytes out.old ++ members (codes "dx") x (codes "dy") y) }
{
    append_numbers(out, "dx", x, "dy", y)
}

/// Appends how far the pen moves on.
fn append_advance(out: &mut String, x: i32, y: i32) -> Result<(), AllocError>
    ensures { IfOk result (λ _. string_bytes out.new
        ≡ string_bytes out.old ++ members (codes "ax") x (codes "ay") y) }
{
    append_numbers(out, "ax", x, "ay", y)
}

/// Appends a glyph's offset and advance, as far as they are asked for.
fn append_position(
    out: &mut String,
    flags: SerializeFlags,
    pen: Pen,
    position: &GlyphPosition,
) -> Result<(), AllocError>
    ensures { IfOk result (λ _. string_bytes out.new
        ≡ string_bytes out.old ++ position_members flags.0 pen position.now) }
{
    if flags.asks(SerializeFlags::NO_POSITIONS) {
        return Ok(());
    }
    append_offset(
        out,
        sum(pen.x, position.x_offset),
        sum(pen.y, position.y_offset),
    )?;
    if flags.asks(SerializeFlags::NO_ADVANCES) {
        return Ok(());
    }
    append_advance(out, position.x_advance, position.y_advance)?;
    Ok(())
}

/// Appends the defined flags of a glyph, if they are asked for and it has any.
fn append_flags(out: &mut String, flags: SerializeFlags, mask: u32) -> Result<(), AllocError>
    ensures { IfOk result (λ _. string_bytes out.new
        ≡ string_bytes out.old ++ flags_member flags.0 mask) }
{
    let defined = mask % 8;
    if flags.asks(SerializeFlags::GLYPH_FLAGS) && defined != 0 {
        return append_count(out, "fl", defined);
    }
    Ok(())
}

/// Appends the left and upper sides of a box.
fn append_corner(out: &mut String, x: i32, y: i32) -> Result<(), AllocError>
    ensures { IfOk result (λ _. string_bytes out.new
        ≡ string_bytes out.old ++ members (codes "xb") x (codes "yb") y) }
{
    append_numbers(out, "xb", x, "yb", y)
}

/// Appends the width and height of a box.
fn append_size(out: &mut String, width: i32, height: i32) -> Result<(), AllocError>
    ensures { IfOk result (λ _. string_bytes out.new
        ≡ string_bytes out.old ++ members (codes "w") width (codes "h") height) }
{
    append_numbers(out, "w", width, "h", height)
}

/// Appends a box.
fn append_box(out: &mut String, extents: hb_glyph_extents_t) -> Result<(), AllocError>
    ensures { IfOk result (λ _. string_bytes out.new
        ≡ string_bytes out.old ++ box_members extents) }
{
    append_corner(out, extents.x_bearing, extents.y_bearing)?;
    append_size(out, extents.width, extents.height)?;
    Ok(())
}

/// The box that is written for a glyph without one.
const NO_BOX: hb_glyph_extents_t = hb_glyph_extents_t {
    x_bearing: 0,
    y_bearing: 0,
    width: 0,
    height: 0,
};

/// Appends a glyph's box, if boxes are asked for.
fn append_extents<F: hb_font_t>(
    out: &mut String,
    flags: SerializeFlags,
    face: &F,
    glyph: u32,
) -> Result<(), AllocError>
    ensures { IfOk result (λ _. string_bytes out.new
        ≡ string_bytes out.old ++ extents_members flags.0 (F.face face.now).extents glyph) }
{
    if flags.asks(SerializeFlags::GLYPH_EXTENTS) {
        append_box(out, face.glyph_extents(GlyphId(glyph)).unwrap_or(NO_BOX))
    } else {
        Ok(())
    }
}

/// Appends the end of a glyph.
fn append_end(out: &mut String) -> Result<(), AllocError>
    ensures { IfOk result (λ _. string_bytes out.new ≡ string_bytes out.old ++ 125 ∷ []) }
{
    out.push_str("}")
}

/// Appends all of a glyph.
pub(crate) fn append_entry<F: hb_font_t, N: glyph_names>(
    alloc: Global,
    out: &mut String,
    content: &Content<'_, F, N>,
    spot: Spot,
    info: &hb_glyph_info_t,
    position: &GlyphPosition,
) -> Result<(), AllocError>
    ensures { IfOk result (λ _. string_bytes out.new
        ≡ string_bytes out.old ++ json_entry (form_of content.now.flags.0
        (N.name content.now.names.now) (F.face content.now.face.now))
        spot.first spot.pen info.now position.now) }
{
    append_opening(out, spot.first)?;
    append_glyph(alloc, out, content.flags, content.names, info.glyph_id)?;
    append_cluster(out, content.flags, info.cluster)?;
    append_position(out, content.flags, spot.pen, position)?;
    append_flags(out, content.flags, info.mask)?;
    append_extents(out, content.flags, content.face, info.glyph_id)?;
    append_end(out)?;
    Ok(())
}
