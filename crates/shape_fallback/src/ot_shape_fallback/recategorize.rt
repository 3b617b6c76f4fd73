//! The ccc that the marks of a buffer are placed by.
ghost use Rattle.std.specs.Prelude.{◌≡◌, ◌<◌, length, slice_index_or, slice_set};
ghost use Rattle.shape_items.specs.Items.{Item};
ghost use Rattle.shape_buffer.specs.Outcome.{Made};
ghost use Rattle.shape_fallback.specs.Recategorized;

use crate::ot_shape_fallback::ccc::fallback_ccc;
use shape_buffer::buffer::{hb_buffer_t, hb_glyph_info_t, hb_unicode_general_category_t};
use shape_buffer::passing::passed_over;

/// Whether an item is a nonspacing mark.
#[tactic(auto, unfolding(crate::specs::Recategorized::is_nonspacing))]
pub(crate) fn is_nonspacing(info: &hb_glyph_info_t) -> bool
    ensures { result ≡ Recategorized.is_nonspacing info.now }
{
    matches!(
        info._hb_glyph_info_get_general_category(),
        hb_unicode_general_category_t::NonspacingMark
    )
}

/// Gives the item at a place the ccc that it is placed by, if it is a nonspacing mark; no other is
/// written.
#[tactic(auto, unfolding(crate::specs::Recategorized::recategorized_item))]
fn recategorize_at(buffer: &mut hb_buffer_t, i: usize)
    requires { i < length buffer.old.items }
    ensures { (x : Item) → x ≡ slice_index_or buffer.old.items i x → buffer.new
        ≡ record buffer.old {
          items = slice_set buffer.old.items i
              (Recategorized.recategorized_item x);
        } }
{
    let mut info = buffer.infos()[i];
    if !is_nonspacing(&info) {
        return;
    }
    let ccc = fallback_ccc(
        info.codepoint,
        info._hb_glyph_info_get_modified_combining_class(),
    );
    info._hb_glyph_info_set_modified_combining_class(ccc);
    buffer.set_info(i, info);
}

/// Gives every nonspacing mark the ccc that it is placed by. Inlined, since a call would cost a
/// short word without marks more than looking for them.
#[inline(always)]
pub(crate) fn recategorize_items(buffer: &mut hb_buffer_t)
    ensures { Made Recategorized.recategorized buffer.old buffer.new }
{
    let first = passed_over(buffer.infos(), |info| is_nonspacing(info));
    for i in first..buffer.len() {
        recategorize_at(buffer, i);
    }
}
