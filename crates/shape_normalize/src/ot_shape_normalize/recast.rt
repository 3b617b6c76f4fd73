//! A character that is mapped to its glyph, and an item that is recast as another character.
//!
//! Round one recasts an item as each character of an expansion, round three as what a starter and a
//! mark compose to. Either is a copy of the item that it comes from, so cluster, mask and features
//! stay.
ghost use Rattle.std.specs.Prelude.{◌≡◌, if◌then◌else◌, Some, None};
ghost use Rattle.shape_items.specs.UnicodeProps.{with_scratch_of};
ghost use Rattle.shape_normalize.specs.Recast;
ghost use Rattle.shape_plan.specs.Rules.{has_glyph};

use shape_buffer::buffer::{GlyphId, ScratchFlags, hb_glyph_info_t};
use shape_buffer::interfaces::{hb_font_t, hb_unicode_funcs_t};

/// A character of an expansion, with the index of its glyph.
#[derive(Clone, Copy)]
pub(crate) struct MappedChar {
    pub(crate) c: char,
    pub(crate) glyph: u32,
}

/// The index of the glyph of a character, 0 if the face has none.
pub(crate) fn glyph_index<F: hb_font_t>(face: &F, c: char) -> u32
    ensures { result ≡ Recast.glyph_index (F.face face.now).nominal_glyph c }
{
    match face.get_nominal_glyph(c) {
        Some(GlyphId(glyph)) => glyph,
        None => 0,
    }
}

/// The character with its glyph, if the face has one.
pub(crate) fn mapped<F: hb_font_t>(face: &F, c: char) -> Option<MappedChar>
    ensures { result ≡ (if has_glyph (F.face face.now).nominal_glyph c
        then Some (Recast.mapped_char (F.face face.now).nominal_glyph c) else None) }
{
    match face.get_nominal_glyph(c) {
        Some(GlyphId(glyph)) => Some(MappedChar { c, glyph }),
        None => None,
    }
}

/// A copy of an item with another character and its glyph, and the properties of that character.
pub(crate) fn recast<U: hb_unicode_funcs_t>(
    info: &hb_glyph_info_t,
    mapped: MappedChar,
    scratch_flags: &mut ScratchFlags,
) -> hb_glyph_info_t
    ensures item { result ≡ Recast.recast U.unicode info.now mapped }
    ensures flags { scratch_flags.new ≡ with_scratch_of U.unicode mapped.c scratch_flags.old }
{
    let mut copy = *info;
    copy.codepoint = mapped.c;
    copy.glyph_index = mapped.glyph;
    copy.init_unicode_props::<U>(scratch_flags);
    copy
}

/// A copy of an item with another character, its glyph, and the properties of that character.
pub(crate) fn recast_to<U: hb_unicode_funcs_t, F: hb_font_t>(
    face: &F,
    info: &hb_glyph_info_t,
    c: char,
    scratch_flags: &mut ScratchFlags,
) -> hb_glyph_info_t
    ensures item { result ≡ Recast.recast_to U.unicode (F.face face.now).nominal_glyph info.now c }
    ensures flags { scratch_flags.new ≡ with_scratch_of U.unicode c scratch_flags.old }
{
    let glyph = glyph_index(face, c);
    recast::<U>(info, MappedChar { c, glyph }, scratch_flags)
}
