//! Glyphs put in place of others, as substitution puts them.
ghost use Rattle.std.specs.Prelude.{◌≡◌};
ghost use Rattle.arabic_fallback.specs.Replaced;

use crate::classes::GlyphClass;
use shape_buffer::buffer::hb_glyph_info_t;
use shape_common::{GlyphPropsFlags, hb_unicode_general_category_t};

/// A glyph that is put in place of others, and the class that the face gives it, if it has classes.
#[derive(Clone, Copy, PartialEq, Eq, Debug)]
pub struct NewGlyph {
    pub glyph: u32,
    pub class: Option<GlyphClass>,
}

/// An item that was found to be a component of a ligature, and is to go.
const GONE: u8 = 1;

fn classed(class: GlyphClass, item: hb_glyph_info_t) -> hb_glyph_info_t
    ensures { result ≡ Replaced.classed class item }
{
    let mut item = item;
    item._hb_glyph_info_set_glyph_class(class.class);
    item._hb_glyph_info_set_mark_attachment_class(class.attachment);
    item
}

/// Another glyph, of the class that the face says, or else of the one that is guessed, if one is.
pub fn replaced(new: NewGlyph, guess: Option<GlyphClass>, item: hb_glyph_info_t) -> hb_glyph_info_t
    ensures { result ≡ Replaced.replaced new guess item }
{
    let mut item = item;
    item.glyph_id = new.glyph;
    item._hb_glyph_info_set_substituted(true);
    match (new.class, guess) {
        (Some(class), _) => classed(class, item),
        (None, Some(class)) => classed(class, item),
        (None, None) => item,
    }
}

/// How many components a glyph has: more than one only if its class is that of ligatures.
pub fn components_of(item: &hb_glyph_info_t) -> u8
    ensures { result ≡ Replaced.components_of item.now }
{
    if item._hb_glyph_info_get_glyph_class().0 & 4 != 0 {
        item._hb_glyph_info_get_number_of_components()
    } else {
        1
    }
}

/// A mark on a component of a ligature.
pub fn as_component(id: u8, component: u32, item: hb_glyph_info_t) -> hb_glyph_info_t
    ensures { result ≡ Replaced.as_component id component item }
{
    let mut item = item;
    item._hb_glyph_info_set_ligature_id(id);
    item._hb_glyph_info_set_ligature_component((component % 16) as u8);
    item._hb_glyph_info_set_number_of_components(1);
    item
}

/// A ligature with its id, of so many components, which isn't a mark any more.
fn with_components(id: u8, components: u32, item: hb_glyph_info_t) -> hb_glyph_info_t
    ensures { result ≡ Replaced.with_components id components item }
{
    let mut item = item;
    item._hb_glyph_info_set_ligature_id(id);
    item._hb_glyph_info_set_ligature_component(0);
    item._hb_glyph_info_set_number_of_components((components % 16) as u8);
    if item._hb_glyph_info_get_general_category() == hb_unicode_general_category_t::NonspacingMark {
        item._hb_glyph_info_set_general_category(hb_unicode_general_category_t::OtherLetter);
        item._hb_glyph_info_set_modified_combining_class(0);
    }
    item
}

/// The ligature in place of its first component, which isn't multiplied any more. `own` if it isn't
/// one of marks, or of a base and marks.
#[tactic(auto, unfolding(crate::specs::Replaced::as_ligature))]
pub fn as_ligature(
    own: bool,
    id: u8,
    components: u32,
    new: NewGlyph,
    item: hb_glyph_info_t,
) -> hb_glyph_info_t
    ensures { result ≡ Replaced.as_ligature own id components new item }
{
    let guess = GlyphClass {
        class: GlyphPropsFlags(4),
        attachment: 0,
    };
    let mut item = if own {
        replaced(new, Some(guess), with_components(id, components, item))
    } else {
        replaced(new, None, item)
    };
    let count = components_of(&item);
    item._hb_glyph_info_set_number_of_components(count);
    item._hb_glyph_info_set_ligated(true);
    item._hb_glyph_info_set_multiplied(false);
    item
}

/// Whether an item is to go.
pub fn is_gone(item: &hb_glyph_info_t) -> bool
    ensures { result ≡ Replaced.is_gone item.now }
{
    item._hb_glyph_info_get_shaper_auxiliary() == GONE
}

/// An item that is to go.
pub fn gone(item: hb_glyph_info_t) -> hb_glyph_info_t
    ensures { result ≡ Replaced.gone item }
{
    let mut item = item;
    item._hb_glyph_info_set_shaper_auxiliary(GONE);
    item
}
