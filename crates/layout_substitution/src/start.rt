//! The beginning of substitution: what `GDEF` says of each glyph, before any lookup.
ghost use Rattle.std.specs.Prelude.{◌≡◌};
ghost use Rattle.shape_buffer.specs.Outcome.{Made};
ghost use Rattle.layout_substitution.specs.Start;

use crate::replaced::with_class;
use layout_tables::gdef::glyph_props;
use shape_buffer::walks::update_items;
use shape_buffer::{hb_buffer_t, hb_glyph_info_t};

/// The item as a glyph that no lookup has made, and that belongs to no ligature.
fn untouched(item: hb_glyph_info_t) -> hb_glyph_info_t
    ensures { result ≡ Start.untouched item }
{
    let mut item = item;
    item._hb_glyph_info_set_substituted(false);
    item._hb_glyph_info_set_ligated(false);
    item._hb_glyph_info_set_multiplied(false);
    item._hb_glyph_info_set_ligature_id(0);
    item._hb_glyph_info_set_ligature_component(0);
    item._hb_glyph_info_set_number_of_components(1);
    item
}

/// The item with the class and the mark attachment class of its glyph.
fn begun_item(gdef: &[u8], item: &hb_glyph_info_t) -> hb_glyph_info_t
    ensures { result ≡ Start.begun_item gdef.now item.now }
{
    untouched(with_class(glyph_props(gdef, item.glyph_id), *item))
}

/// Gives each glyph the class and the mark attachment class that `GDEF` says, as one that no lookup
/// has made: both are 0 if the table has no classes of glyphs. Substitution begins with it
/// (OpenType, "GDEF"). Takes no memory.
#[tactic(auto, unfolding(crate::specs::Start::begun))]
pub fn begin_substitution(gdef: &[u8], buffer: &mut hb_buffer_t)
    ensures { Made (Start.begun gdef.now) buffer.old buffer.new }
{
    update_items(buffer, |item| begun_item(gdef, item));
}
