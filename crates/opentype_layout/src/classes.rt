//! Glyphs as the lookups find them: with the class that the font gives each.
ghost use Rattle.std.specs.Prelude.{◌≡◌, ◌≤◌, length, IfOk, IsOkUnless};
ghost use Rattle.shape_buffer.specs.Outcome.{Made};
ghost use Rattle.layout_tables.specs.Gdef;
ghost use Rattle.opentype_layout.specs.Classes;

use layout_tables::gdef::{glyph_props, has_glyph_classes};
use shape_buffer::walks::update_items;
use shape_buffer::{ShapeError, hb_buffer_t, hb_glyph_info_t};
use shape_common::GlyphPropsFlags;
use std::alloc::Global;

/// What `GDEF` says of glyphs, and what it says of the first ones, stored one after the other. None
/// need be stored.
#[derive(Clone, Copy)]
pub(crate) struct GlyphClasses<'a> {
    gdef: &'a [u8],
    props: &'a [u16],
    ghost stored: { Classes.AreProps gdef.now props.now },
}

impl<'a> GlyphClasses<'a> {
    /// The table with what is stored of it.
    pub fn new(gdef: &'a [u8], props: &'a [u16]) -> GlyphClasses<'a>
        requires { Classes.AreProps gdef.now props.now }
        ensures { result.gdef.now ≡ gdef.now }
    {
        GlyphClasses { gdef, props }
    }

    /// The properties of a glyph: a look-up in place of a search among classes.
    fn props(self, glyph: u32) -> u16
        ensures { result ≡ Gdef.glyph_props self.entry.gdef.now glyph }
    {
        if (glyph as usize) < self.props.len() {
            self.props[glyph as usize]
        } else {
            glyph_props(self.gdef, glyph)
        }
    }
}

/// What the table says of the first `count` glyphs; nothing if it has no classes. Refuses with
/// `Memory` if a growth was refused.
pub(crate) fn props_of(alloc: Global, gdef: &[u8], count: u16) -> Result<Vec<u16>, ShapeError>
    ensures ok { IfOk result (λ props. Classes.AreProps gdef.now props.items) }
    ensures few { IfOk result (λ props. length props.items ≤ count) }
    ensures memory { IsOkUnless result ShapeError.Memory }
{
    let count = if has_glyph_classes(gdef) { count } else { 0 };
    let mut props = Vec::with_capacity(alloc, usize::from(count))?;
    for glyph in 0..count {
        props.push(glyph_props(gdef, u32::from(glyph)))?;
    }
    Ok(props)
}

/// A glyph that no lookup has made, with the class that the font says, and in no ligature.
fn begun(classes: GlyphClasses<'_>, info: &hb_glyph_info_t) -> hb_glyph_info_t
    ensures { result ≡ Classes.begun classes.entry.gdef.now info.now }
{
    let mut info = *info;
    let props = classes.props(info.glyph_id);
    info._hb_glyph_info_set_glyph_class(GlyphPropsFlags(props));
    info._hb_glyph_info_set_mark_attachment_class((props / 256) as u8);
    info._hb_glyph_info_set_substituted(false);
    info._hb_glyph_info_set_ligated(false);
    info._hb_glyph_info_set_multiplied(false);
    info._hb_glyph_info_set_ligature_id(0);
    info._hb_glyph_info_set_ligature_component(0);
    info._hb_glyph_info_set_number_of_components(1);
    info
}

/// Makes the glyphs ones that no lookup has made. Takes no memory.
pub(crate) fn begin_glyphs(classes: GlyphClasses<'_>, buffer: &mut hb_buffer_t)
    ensures { Made (Classes.glyphs_begun classes.entry.gdef.now) buffer.old buffer.new }
{
    update_items(buffer, |info| begun(classes, info));
}
