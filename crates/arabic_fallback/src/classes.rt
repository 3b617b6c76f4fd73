//! The class that a layout engine gives a glyph.
//!
//! The engine gives classes to the glyphs of a text before its first lookup. The class of one glyph
//! is asked of it by a text of that glyph alone.
ghost use Rattle.std.specs.Prelude.{◌≡◌, IfOk, IsOkUnless, slice_get};
ghost use Rattle.std.specs.Option.{option_map};
ghost use Rattle.arabic_fallback.specs.Classes;

use shape_buffer::buffer::{ShapeError, hb_buffer_t, hb_glyph_info_t};
use shape_buffer::interfaces::hb_ot_layout_t;
use shape_common::GlyphPropsFlags;
use std::alloc::Global;

/// The class of a glyph, and its mark attachment class.
#[derive(Clone, Copy, PartialEq, Eq, Debug)]
pub struct GlyphClass {
    pub class: GlyphPropsFlags,
    pub attachment: u8,
}

fn class_of_item(info: &hb_glyph_info_t) -> GlyphClass
    ensures { result ≡ Classes.class_of_item info.now }
{
    GlyphClass {
        class: info._hb_glyph_info_get_glyph_class(),
        attachment: info._hb_glyph_info_get_mark_attachment_class(),
    }
}

/// The class of the first item, if there is one.
fn first_class(infos: &[hb_glyph_info_t]) -> Option<GlyphClass>
    ensures { result ≡ option_map Classes.class_of_item (slice_get infos.now 0) }
{
    infos.get(0).map(|info| class_of_item(info))
}

/// A text of one glyph.
fn alone(alloc: Global, glyph: u32) -> Result<hb_buffer_t, ShapeError>
    ensures ok { IfOk result (λ b. b ≡ Classes.alone glyph) }
    ensures memory { IsOkUnless result ShapeError.Memory }
{
    let mut text = hb_buffer_t::new(alloc);
    let mut info = hb_glyph_info_t::new('\0', 0);
    info.glyph_id = glyph;
    match text.insert(0, info) {
        Ok(()) => Ok(text),
        Err(_) => Err(ShapeError::Memory),
    }
}

/// The class that the engine gives a glyph; none if the face has no classes. Refuses with `Memory`
/// alone.
pub fn class_of<F, M: hb_ot_layout_t<F>>(
    alloc: Global,
    face: &F,
    _map: &M::Map,
    glyph: u32,
) -> Result<Option<GlyphClass>, ShapeError>
    ensures ok { IfOk result (λ c. c ≡ Classes.class_by (M.layout face.now).has_glyph_classes
        (M.lookups _map.now face.now).substitute_start glyph) }
    ensures memory { IsOkUnless result ShapeError.Memory }
{
    if !M::has_glyph_classes(face) {
        return Ok(None);
    }
    let mut text = alone(alloc, glyph)?;
    M::substitute_start(face, &mut text);
    Ok(first_class(text.infos()))
}
