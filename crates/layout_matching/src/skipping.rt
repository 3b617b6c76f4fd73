//! Which glyphs a lookup sees (OpenType, "Lookup table", lookup flags).
//!
//! A glyph is skipped by the lookup's flags, whatever is looked for. A default ignorable is
//! transparent: it is passed over unless it is the very glyph that is looked for. Positioning
//! passes over more of them than substitution does.
//!
//! These are asked of each glyph that a rule looks at, so what most glyphs need is inlined, and the
//! rest isn't.
ghost use Rattle.std.specs.Prelude.{◌≡◌, ◌||◌, nat_lt};
ghost use Rattle.layout_matching.specs.Skipping.{shares};
ghost use Rattle.layout_matching.specs.Skipping;

use crate::lookup::Lookup;
use layout_tables::gdef::mark_set_covers;
use shape_buffer::hb_glyph_info_t;

/// The item at place `i`, a new one past the end.
pub fn item_at(items: &[hb_glyph_info_t], i: usize) -> hb_glyph_info_t
    ensures { result ≡ Skipping.nth items.now i }
{
    if i < items.len() {
        items[i]
    } else {
        hb_glyph_info_t::new('\0', 0)
    }
}

/// Whether a mark is out of the lookup's set of marks, or of another class of marks than the
/// lookup's. A call of its own, so that the tests before it are inlined where glyphs are walked
/// over.
#[inline(never)]
fn mark_is_left_out(lookup: &Lookup<'_>, item: &hb_glyph_info_t) -> bool
    ensures { result ≡ Skipping.is_mark_left_out lookup.now item.now }
{
    if lookup.flags & 16 != 0 {
        return !mark_set_covers(lookup.gdef, lookup.mark_set, item.glyph_id);
    }
    255 < lookup.flags
        && lookup.flags / 256 != u16::from(item._hb_glyph_info_get_mark_attachment_class())
}

/// Whether the lookup has a set of marks, or a class of marks. Few have.
#[inline(always)]
fn chooses_marks(lookup: &Lookup<'_>) -> bool
    ensures { result ≡ (shares lookup.now.flags 16 || nat_lt 255 lookup.now.flags) }
{
    lookup.flags & 16 != 0 || 255 < lookup.flags
}

/// Whether the lookup's flags skip the glyph.
#[inline(always)]
pub fn is_skipped(lookup: &Lookup<'_>, item: &hb_glyph_info_t) -> bool
    ensures { result ≡ Skipping.is_skipped lookup.now item.now }
{
    let class = item._hb_glyph_info_get_glyph_class().0;
    class & lookup.flags & 14 != 0
        || (class & 8 != 0 && chooses_marks(lookup) && mark_is_left_out(lookup, item))
}

fn passes_zwnj(lookup: &Lookup<'_>, is_input: bool) -> bool
    ensures { result ≡ Skipping.passes_zwnj lookup.now is_input }
{
    lookup.positioning || (!is_input && lookup.auto_zwnj)
}

fn passes_zwj(lookup: &Lookup<'_>, is_input: bool) -> bool
    ensures { result ≡ Skipping.passes_zwj lookup.now is_input }
{
    !is_input || lookup.auto_zwj
}

/// Whether a default ignorable is of a kind that is passed over.
#[inline(never)]
pub(crate) fn passes_ignorable(lookup: &Lookup<'_>, is_input: bool, item: &hb_glyph_info_t) -> bool
    ensures { result ≡ Skipping.passes_ignorable lookup.now is_input item.now }
{
    (passes_zwnj(lookup, is_input) || !item._hb_glyph_info_get_zwnj())
        && (passes_zwj(lookup, is_input) || !item._hb_glyph_info_get_zwj())
        && (lookup.positioning || !item._hb_glyph_info_get_hidden())
}

/// Whether a default ignorable is passed over unless it is looked for. `is_input` within what is
/// matched, else around it.
#[inline(always)]
pub fn is_transparent(lookup: &Lookup<'_>, is_input: bool, item: &hb_glyph_info_t) -> bool
    ensures { result ≡ Skipping.is_transparent lookup.now is_input item.now }
{
    item._hb_glyph_info_is_default_ignorable() && passes_ignorable(lookup, is_input, item)
}

/// Whether the lookup may begin at the glyph.
pub fn is_on(lookup: &Lookup<'_>, item: &hb_glyph_info_t) -> bool
    ensures { result ≡ Skipping.is_on lookup.now item.now }
{
    item.mask & lookup.mask != 0 && !is_skipped(lookup, item)
}

/// The syllable that a match which begins at the glyph stays in, 0 for any.
pub(crate) fn syllable(lookup: &Lookup<'_>, item: &hb_glyph_info_t) -> u8
    ensures { result ≡ Skipping.syllable_of lookup.now item.now }
{
    if lookup.per_syllable && !lookup.positioning {
        item._hb_glyph_info_get_syllable()
    } else {
        0
    }
}
