//! Glyphs put in place of others.
ghost use Rattle.std.specs.Prelude.{◌≡◌};
ghost use Rattle.layout_substitution.specs.Replaced;

use layout_matching::lookup::Lookup;
use layout_tables::gdef::{glyph_props, has_glyph_classes};
use shape_buffer::hb_glyph_info_t;
use shape_common::{GlyphPropsFlags, hb_unicode_general_category_t};

/// An item with the class of its glyph, and with the mark attachment class in the upper byte of
/// `props`. A glyph that is no ligature any more counts as one component.
#[inline(always)]
pub(crate) fn with_class(props: u16, item: hb_glyph_info_t) -> hb_glyph_info_t
    ensures { result ≡ Replaced.with_class props item }
{
    let mut item = item;
    item._hb_glyph_info_set_glyph_class(GlyphPropsFlags(props));
    item._hb_glyph_info_set_mark_attachment_class((props / 256) as u8);
    let count = components_of(&item);
    item._hb_glyph_info_set_number_of_components(count);
    item
}

/// Another glyph, of the class that the font says, or else of the one that is guessed, if it isn't
/// 0.
#[inline(always)]
pub(crate) fn replaced(
    lookup: &Lookup<'_>,
    guess: u16,
    glyph: u32,
    item: hb_glyph_info_t,
) -> hb_glyph_info_t
    ensures { result ≡ Replaced.replaced lookup.now guess glyph item }
{
    let mut item = item;
    item.glyph_id = glyph;
    item._hb_glyph_info_set_substituted(true);
    if has_glyph_classes(lookup.gdef) {
        return with_class(glyph_props(lookup.gdef, glyph), item);
    }
    if guess != 0 {
        return with_class(guess, item);
    }
    item
}

/// How many components a glyph has: more than one only if its class is that of ligatures.
pub(crate) fn components_of(item: &hb_glyph_info_t) -> u8
    ensures { result ≡ Replaced.components_of item.now }
{
    if item._hb_glyph_info_get_glyph_class().0 & 4 != 0 {
        item._hb_glyph_info_get_number_of_components()
    } else {
        1
    }
}

/// A mark on a component of a ligature, or a component of what one glyph was taken apart into.
pub(crate) fn as_component(id: u8, component: u32, item: hb_glyph_info_t) -> hb_glyph_info_t
    ensures { result ≡ Replaced.as_component id component item }
{
    let mut item = item;
    item._hb_glyph_info_set_ligature_id(id);
    item._hb_glyph_info_set_ligature_component((component % 16) as u8);
    item._hb_glyph_info_set_number_of_components(1);
    item
}

/// Glyph number `i` of those that one is taken apart into: each is multiplied.
#[tactic(auto, unfolding(crate::specs::Replaced::is_multiplied))]
pub(crate) fn taken_apart(
    lookup: &Lookup<'_>,
    glyph: u32,
    i: u32,
    item: hb_glyph_info_t,
) -> hb_glyph_info_t
    ensures { result ≡ Replaced.taken_apart lookup.now glyph i item }
{
    let guess = if item._hb_glyph_info_get_glyph_class().0 & 4 != 0 {
        2
    } else {
        0
    };
    let mut component = if item._hb_glyph_info_get_ligature_id() == 0 {
        replaced(lookup, guess, glyph, as_component(0, i, item))
    } else {
        replaced(lookup, guess, glyph, item)
    };
    component._hb_glyph_info_set_multiplied(true);
    component
}

/// A ligature with its id, of so many components, which isn't a mark any more.
fn with_components(id: u8, components: u32, item: hb_glyph_info_t) -> hb_glyph_info_t
    ensures { result ≡ Replaced.with_components id components item }
{
    let mut item = item;
    item._hb_glyph_info_set_ligature_id(id);
    item._hb_glyph_info_set_ligature_component(0);
    item._hb_glyph_info_set_number_of_components((components % 16) as u8);
    if item._hb_glyph_info_get_general_category() == hb_unicode_general_category_t::NonspacingMark {
        item._hb_glyph_info_set_general_category(hb_unicode_general_category_t::OtherLetter);
        item._hb_glyph_info_set_modified_combining_class(0);
    }
    item
}

/// The ligature in place of its first component, which isn't multiplied any more. `own` if it isn't
/// one of marks, or of a base and marks.
#[tactic(auto, unfolding(crate::specs::Replaced::as_ligature))]
pub(crate) fn as_ligature(
    lookup: &Lookup<'_>,
    own: bool,
    id: u8,
    components: u32,
    glyph: u32,
    item: hb_glyph_info_t,
) -> hb_glyph_info_t
    ensures { result ≡ Replaced.as_ligature lookup.now own id components glyph item }
{
    let mut item = if own {
        replaced(lookup, 4, glyph, with_components(id, components, item))
    } else {
        replaced(lookup, 0, glyph, item)
    };
    item._hb_glyph_info_set_ligated(true);
    item._hb_glyph_info_set_multiplied(false);
    item
}
