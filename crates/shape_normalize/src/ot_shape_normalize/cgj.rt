//! Combining grapheme joiners, U+034F, which keep marks apart that would change places or compose.
//!
//! One that keeps nothing apart is unhidden: lookups may then skip it as they skip other ignorable
//! characters.
ghost use Rattle.std.specs.Prelude.{◌≡◌};
ghost use Rattle.shape_normalize.specs.RoundTwo;

use bitflags::Flags;
use shape_buffer::buffer::{ScratchFlags, hb_buffer_t, hb_glyph_info_t};

const COMBINING_GRAPHEME_JOINER: char = '\u{34F}';

/// Whether a CGJ between two items keeps nothing apart: the second wouldn't go before the first.
fn keeps_nothing_apart(before: &hb_glyph_info_t, after: &hb_glyph_info_t) -> bool
    ensures { result ≡ RoundTwo.keeps_nothing_apart before.now after.now }
{
    let ccc = after._hb_glyph_info_get_modified_combining_class();
    ccc == 0 || before._hb_glyph_info_get_modified_combining_class() <= ccc
}

/// An item between two others, unhidden if it is a CGJ that keeps nothing apart.
fn unhide_one_cgj(
    before: &hb_glyph_info_t,
    info: &hb_glyph_info_t,
    after: &hb_glyph_info_t,
) -> hb_glyph_info_t
    ensures { result ≡ RoundTwo.one_cgj_unhidden before.now info.now after.now }
{
    let mut info = *info;
    if info.codepoint == COMBINING_GRAPHEME_JOINER && keeps_nothing_apart(before, after) {
        info._hb_glyph_info_set_hidden(false);
    }
    info
}

/// Unhides each CGJ that keeps nothing apart, if the run has seen one; the first and the last
/// item stay.
pub(crate) fn unhide_cgj(buffer: &mut hb_buffer_t)
    ensures { buffer.new ≡ RoundTwo.cgj_unhidden_where_seen buffer.old }
{
    if !buffer.scratch_flags().contains(ScratchFlags::HAS_CGJ) {
        return;
    }
    for i in 1..buffer.len().saturating_sub(1) {
        let infos = buffer.infos();
        let info = unhide_one_cgj(&infos[i - 1], &infos[i], &infos[i + 1]);
        buffer.set_info(i, info);
    }
}
