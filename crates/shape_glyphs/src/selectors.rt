//! Variation selectors for which the face has no variation glyph.
//!
//! Normalising marks such a selector. A caller that wants to see that a variant is missing sets a
//! glyph for it in the buffer; else a selector is hidden like any default ignorable (OpenType,
//! `cmap` format 14).
ghost use Rattle.std.specs.Prelude.{◌≡◌};
ghost use Rattle.shape_buffer.specs.Outcome.{Made};
ghost use Rattle.shape_glyphs.specs.Selectors;
ghost use Rattle.std.specs.Prelude.{Some};

use crate::ignorables::without_values;
use bitflags::Flags;
use shape_buffer::buffer::{GlyphId, GlyphPosition, ScratchFlags, hb_buffer_t, hb_glyph_info_t};

/// The item, with the glyph and without its mark if it is a marked selector.
fn not_found_item(glyph: GlyphId, info: &hb_glyph_info_t) -> hb_glyph_info_t
    ensures { result ≡ Selectors.not_found_item glyph info.now }
{
    let mut info = *info;
    if info._hb_glyph_info_get_selector_mark() {
        info.glyph_id = glyph.0;
        info._hb_glyph_info_set_selector_mark(false);
    }
    info
}

/// The position of a glyph, with values 0 if it is a marked selector.
fn not_found_position(info: &hb_glyph_info_t, position: GlyphPosition) -> GlyphPosition
    ensures { result ≡ Selectors.not_found_position info.now position }
{
    if info._hb_glyph_info_get_selector_mark() {
        without_values(position)
    } else {
        position
    }
}

/// Gives each marked selector the glyph and values 0.
fn replace_selectors(buffer: &mut hb_buffer_t, glyph: GlyphId)
    ensures { Made (Selectors.selectors_replaced_by (Some glyph)) buffer.old buffer.new }
{
    for i in 0..buffer.len() {
        let info = buffer.infos()[i];
        let position = not_found_position(&info, buffer.positions()[i]);
        buffer.set_position(i, position);
        buffer.set_info(i, not_found_item(glyph, &info));
    }
}

/// Gives each selector that normalising has marked the buffer's glyph for it, and values 0, if the
/// run has seen one and that glyph is set; the mark goes. Takes no memory.
#[tactic(auto, unfolding(crate::specs::Selectors::selectors_replaced))]
pub fn deal_with_variation_selectors(buffer: &mut hb_buffer_t)
    ensures { Made Selectors.selectors_replaced buffer.old buffer.new }
{
    if !buffer
        .scratch_flags()
        .contains(ScratchFlags::HAS_VARIATION_SELECTOR_FALLBACK)
    {
        return;
    }
    if let Some(glyph) = buffer.not_found_variation_selector_glyph() {
        replace_selectors(buffer, glyph);
    }
}
