//! Glyphs one after the other, as text or as a list of JSON.
ghost use Rattle.std.specs.Prelude.{◌≡◌, ◌++◌, ◌∷◌, [], true, pos, length, string_bytes, IfOk, IsOk};
ghost use Rattle.shape_text_forms.specs.Serialize.{form_of};
ghost use Rattle.shape_text_forms.specs.Lists.{entry_in, glyphs_from, listed, serialized, json_text};
ghost use Rattle.shape_text_forms.specs.Lists.{part_text, spot_after, PartsMakeLists};

use crate::content::{Content, ListForm, SerializeFlags, Spot, glyph_names, pen_after};
use crate::{glyph_json, glyph_text};
use shape_buffer::{GlyphBuffer, GlyphPosition, hb_font_t, hb_glyph_info_t};
use std::alloc::{AllocError, Global};

/// Appends all of a glyph, in its form.
fn append_entry<F: hb_font_t, N: glyph_names>(
    alloc: Global,
    out: &mut String,
    content: &Content<'_, F, N>,
    spot: Spot,
    info: &hb_glyph_info_t,
    position: &GlyphPosition,
) -> Result<(), AllocError>
    ensures { IfOk result (λ _. string_bytes out.new
        ≡ string_bytes out.old ++ entry_in content.now.form (form_of content.now.flags.0
        (N.name content.now.names.now) (F.face content.now.face.now))
        spot.first spot.pen info.now position.now) }
{
    match content.form {
        ListForm::Text => glyph_text::append_entry(out, content, spot, info, position),
        ListForm::Json => glyph_json::append_entry(alloc, out, content, spot, info, position),
    }
}

/// Appends a part of a list: glyphs from this spot on, and no end. Returns the spot of the glyph
/// after them, from which the next part goes on. Refuses only if a growth of memory was refused.
pub fn append_part<F: hb_font_t, N: glyph_names>(
    alloc: Global,
    out: &mut String,
    content: &Content<'_, F, N>,
    spot: Spot,
    infos: &[hb_glyph_info_t],
    positions: &[GlyphPosition],
) -> Result<Spot, AllocError>
    requires { length positions.now ≡ length infos.now }
    ensures text { IfOk result (λ _. string_bytes out.new
        ≡ string_bytes out.old ++ part_text content.now.form (form_of content.now.flags.0
        (N.name content.now.names.now) (F.face content.now.face.now))
        spot infos.now positions.now) }
    ensures spot { IfOk result (λ next. next
        ≡ spot_after content.now.flags.0 spot positions.now) }
{
    let mut spot = spot;
    for i in 0..infos.len() {
        append_entry(alloc, out, content, spot, &infos[i], &positions[i])?;
        spot = Spot {
            first: false,
            pen: pen_after(content.flags, spot.pen, &positions[i]),
        };
    }
    Ok(spot)
}

/// Appends the end of a list.
fn append_end(out: &mut String) -> Result<(), AllocError>
    ensures { IfOk result (λ _. string_bytes out.new ≡ string_bytes out.old ++ 93 ∷ []) }
{
    out.push_str("]")
}

/// Appends glyphs, and the end of the list.
fn append_glyphs<F: hb_font_t, N: glyph_names>(
    alloc: Global,
    out: &mut String,
    content: &Content<'_, F, N>,
    infos: &[hb_glyph_info_t],
    positions: &[GlyphPosition],
) -> Result<(), AllocError>
    requires { length positions.now ≡ length infos.now }
    ensures { IfOk result (λ _. string_bytes out.new
        ≡ string_bytes out.old ++ glyphs_from content.now.form (form_of content.now.flags.0
        (N.name content.now.names.now) (F.face content.now.face.now))
        true (record { x = pos 0; y = pos 0 }) infos.now positions.now) }
{
    append_part(alloc, out, content, Spot::START, infos, positions)?;
    append_end(out)?;
    Ok(())
}

/// The whole list; an empty text for no glyphs.
fn list<F: hb_font_t, N: glyph_names>(
    alloc: Global,
    content: &Content<'_, F, N>,
    infos: &[hb_glyph_info_t],
    positions: &[GlyphPosition],
) -> Result<String, AllocError>
    requires { length positions.now ≡ length infos.now }
    ensures text { IfOk result (λ text. string_bytes text ≡ listed content.now.form
        (form_of content.now.flags.0 (N.name content.now.names.now)
        (F.face content.now.face.now)) infos.now positions.now) }
    ensures empty { infos.now ≡ [] → IsOk result }
{
    let mut out = String::new(alloc);
    if infos.is_empty() {
        return Ok(out);
    }
    append_glyphs(alloc, &mut out, content, infos, positions)?;
    Ok(out)
}

/// Glyphs at these positions as text, as `hb-shape` writes them: an empty text for no glyphs, which
/// takes no memory. Boxes are the face's. Refuses only if a growth of that text was refused.
pub fn serialize_placed<F: hb_font_t, N: glyph_names>(
    alloc: Global,
    infos: &[hb_glyph_info_t],
    positions: &[GlyphPosition],
    face: &F,
    names: &N,
    flags: SerializeFlags,
) -> Result<String, AllocError>
    requires { length positions.now ≡ length infos.now }
    ensures text { IfOk result (λ text. string_bytes text ≡ serialized
        (form_of flags.0 (N.name names.now) (F.face face.now)) infos.now positions.now) }
    ensures empty { infos.now ≡ [] → IsOk result }
{
    let content = Content {
        form: ListForm::Text,
        flags,
        face,
        names,
    };
    list(alloc, &content, infos, positions)
}

/// The glyphs of a run as text, as [`serialize_placed`] writes them where they stand. Refuses only
/// if a growth of that text was refused.
pub fn serialize<F: hb_font_t, N: glyph_names>(
    alloc: Global,
    glyphs: &GlyphBuffer,
    face: &F,
    names: &N,
    flags: SerializeFlags,
) -> Result<String, AllocError>
    ensures text { IfOk result (λ text. string_bytes text ≡ serialized
        (form_of flags.0 (N.name names.now) (F.face face.now))
        glyphs.now.items glyphs.now.positions) }
    ensures empty { glyphs.now.items ≡ [] → IsOk result }
{
    let infos = glyphs.glyph_infos();
    serialize_placed(alloc, infos, glyphs.glyph_positions(), face, names, flags)
}

/// Glyphs at these positions as a list of JSON: an empty text for no glyphs, which takes no memory.
/// Boxes are the face's. Refuses only if a growth of memory was refused.
pub fn serialize_placed_json<F: hb_font_t, N: glyph_names>(
    alloc: Global,
    infos: &[hb_glyph_info_t],
    positions: &[GlyphPosition],
    face: &F,
    names: &N,
    flags: SerializeFlags,
) -> Result<String, AllocError>
    requires { length positions.now ≡ length infos.now }
    ensures text { IfOk result (λ text. string_bytes text ≡ json_text
        (form_of flags.0 (N.name names.now) (F.face face.now)) infos.now positions.now) }
    ensures empty { infos.now ≡ [] → IsOk result }
{
    let content = Content {
        form: ListForm::Json,
        flags,
        face,
        names,
    };
    list(alloc, &content, infos, positions)
}

/// The glyphs of a run as a list of JSON, as [`serialize_placed_json`] writes them where they
/// stand. Refuses only if a growth of memory was refused.
pub fn serialize_json<F: hb_font_t, N: glyph_names>(
    alloc: Global,
    glyphs: &GlyphBuffer,
    face: &F,
    names: &N,
    flags: SerializeFlags,
) -> Result<String, AllocError>
    ensures text { IfOk result (λ text. string_bytes text ≡ json_text
        (form_of flags.0 (N.name names.now) (F.face face.now))
        glyphs.now.items glyphs.now.positions) }
    ensures empty { glyphs.now.items ≡ [] → IsOk result }
{
    let infos = glyphs.glyph_infos();
    serialize_placed_json(alloc, infos, glyphs.glyph_positions(), face, names, flags)
}

/// Parts that are written one after the other, and `]`, make the list, if it has a glyph.
pub fn parts_make_lists()
    ensures { PartsMakeLists }
{}
