//! Glyphs put in place of others.
ghost use Rattle.std.specs.Prelude.{◌≡◌, ◌<◌, ◌^◌};
ghost use Rattle.apple_substitution.specs.Glyphs;

use apple_tables::Lookup;
use layout_tables::gdef::{glyph_props, has_glyph_classes};
use shape_buffer::hb_glyph_info_t;
use shape_common::GlyphPropsFlags;
use shape_font::bytes::word;

/// What substitution reads of a font.
#[derive(Clone, Copy)]
pub struct Tables<'a> {
    /// The table `morx`.
    pub morx: &'a [u8],
    /// The table `GDEF`.
    pub gdef: &'a [u8],
    /// How many glyphs the font has.
    pub glyphs: u32,
}

/// An item with the class of its glyph, and with the mark attachment class in the upper byte of
/// `props`.
fn with_class(props: u16, item: hb_glyph_info_t) -> hb_glyph_info_t
    ensures { result ≡ Glyphs.with_class props item }
{
    let mut item = item;
    item._hb_glyph_info_set_glyph_class(GlyphPropsFlags(props));
    item._hb_glyph_info_set_mark_attachment_class((props / 256) as u8);
    item
}

/// Another glyph, of the class that the font says.
pub(crate) fn replaced(gdef: &[u8], glyph: u16, item: hb_glyph_info_t) -> hb_glyph_info_t
    ensures { result ≡ Glyphs.replaced gdef.now glyph item }
{
    let mut item = item;
    item.glyph_id = u32::from(glyph);
    if has_glyph_classes(gdef) {
        return with_class(glyph_props(gdef, u32::from(glyph)), item);
    }
    item
}

/// The glyph in place of another by the lookup table that begins at `start`.
pub(crate) fn glyph_by(tables: &Tables<'_>, start: usize, glyph: u32) -> Option<u16>
    requires { start < 2 ^ 36 }
    ensures { result ≡ Glyphs.glyph_by tables.now.morx.now start tables.now.glyphs glyph }
{
    let lookup = Lookup {
        table: tables.morx,
        start,
        is_long: false,
        glyphs: tables.glyphs,
    };
    Some(word(tables.morx, lookup.place(glyph)?))
}
