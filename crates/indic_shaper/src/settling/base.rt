//! Where the base stands once lookups have made the basic forms.
//!
//! Microsoft's specification finds it once, before any lookup. HarfBuzz finds it again by the
//! positions that it noted then: lookups have joined some items and left others as they were, so a
//! consonant that asked for a form and got none may be the base.
ghost use Rattle.std.specs.Prelude.{◌≡◌, ◌<◌, ◌≤◌, ◌+◌, length};
ghost use Rattle.std.specs.List.{prefix_len, suffix_len};
ghost use Rattle.shape_items.specs.Buffer.{limit_of};
ghost use Rattle.shape_buffer.specs.Outcome.{Made};
ghost use Rattle.shape_buffer.specs.Walks.{items_mapped};
ghost use Rattle.indic_shaper.specs.Glyphs;
ghost use Rattle.indic_shaper.specs.Settling.Bases;

use crate::categories::{CAT_H, CAT_N, CAT_ZWJ, POS_BASE_C, POS_BELOW_C};
use crate::config::MALAYALAM;
use crate::engine::Facts;
use crate::glyphs::{
    is_consonant, is_halant, is_joiner, is_ligature, is_of, position, with_position,
};
use shape_buffer::buffer::{hb_buffer_t, hb_glyph_info_t, hb_mask_t};
use shape_buffer::walks::update_items;

/// The virama as a Halant if lookups have joined it to something and taken it off again.
fn mended(virama: u32, info: &hb_glyph_info_t) -> hb_glyph_info_t
    ensures { result ≡ Bases.mended virama info.now }
{
    let mut info = *info;
    if info.glyph_id == virama
        && info._hb_glyph_info_get_ligated()
        && info._hb_glyph_info_get_multiplied()
    {
        info._hb_glyph_info_set_shaper_category(CAT_H);
        info._hb_glyph_info_set_ligated(false);
        info._hb_glyph_info_set_multiplied(false);
    }
    info
}

fn mend_all(virama: u32, buffer: &mut hb_buffer_t)
    ensures { Made (items_mapped (Bases.mended virama)) buffer.old buffer.new }
{
    update_items(buffer, |info| mended(virama, info));
}

/// Makes such viramas Halants again.
pub fn mend_viramas(virama: u32, buffer: &mut hb_buffer_t)
    ensures { Made (Bases.viramas_mended virama) buffer.old buffer.new }
{
    if virama != 0 {
        mend_all(virama, buffer);
    }
}

fn is_before_base(info: &hb_glyph_info_t) -> bool
    ensures { result ≡ Bases.is_before_base info.now }
{
    position(info) < POS_BASE_C
}

fn count_before_base(infos: &[hb_glyph_info_t]) -> usize
    ensures value { result ≡ prefix_len Bases.is_before_base infos.now }
    ensures within { result ≤ length infos.now }
{
    infos.iter().take_while(|info| is_before_base(info)).count()
}

/// The first item of a syllable that doesn't stand before the base.
pub fn first_base(infos: &[hb_glyph_info_t], start: usize, end: usize) -> usize
    requires ordered { start ≤ end }
    requires within { end ≤ length infos.now }
    ensures value { result ≡ Bases.first_base infos.now start end }
    ensures from { start ≤ result }
    ensures to { result ≤ end }
{
    start + count_before_base(&infos[start..end])
}

fn asks_not(mask: hb_mask_t, info: &hb_glyph_info_t) -> bool
    ensures { result ≡ Bases.asks_not mask info.now }
{
    info.mask & mask == 0
}

fn count_not_asking(mask: hb_mask_t, infos: &[hb_glyph_info_t]) -> usize
    ensures value { result ≡ prefix_len (Bases.asks_not mask) infos.now }
    ensures within { result ≤ length infos.now }
{
    infos.iter().take_while(|info| asks_not(mask, info)).count()
}

/// The first item from a place on that a feature is on for.
pub fn asking_from(mask: hb_mask_t, infos: &[hb_glyph_info_t], from: usize, end: usize) -> usize
    requires ordered { from ≤ end }
    requires within { end ≤ length infos.now }
    ensures value { result ≡ Bases.asking_from mask infos.now from end }
    ensures from { from ≤ result }
    ensures to { result ≤ end }
{
    from + count_not_asking(mask, &infos[from..end])
}

/// Whether a lookup has made the form before the base that an item asked for.
fn is_formed(info: &hb_glyph_info_t) -> bool
    ensures { result ≡ Bases.is_formed info.now }
{
    info._hb_glyph_info_get_substituted() && is_ligature(info)
}

/// Whether the first consonant after the base that asked for a form before it has none.
pub fn is_unformed(mask: hb_mask_t, infos: &[hb_glyph_info_t], base: usize, end: usize) -> bool
    requires { end ≤ length infos.now }
    ensures { result ≡ Bases.is_unformed mask infos.now base end }
{
    if end <= base {
        return false;
    }
    let i = asking_from(mask, infos, base + 1, end);
    i < end && !is_formed(&infos[i])
}

fn count_halants(infos: &[hb_glyph_info_t]) -> usize
    ensures value { result ≡ prefix_len Glyphs.is_halant infos.now }
    ensures within { result ≤ length infos.now }
{
    infos.iter().take_while(|info| is_halant(info)).count()
}

fn after_halants(infos: &[hb_glyph_info_t], from: usize, end: usize) -> usize
    requires ordered { from ≤ end }
    requires within { end ≤ length infos.now }
    ensures value { result ≡ Bases.after_halants infos.now from end }
    ensures from { from ≤ result }
    ensures to { result ≤ end }
{
    from + count_halants(&infos[from..end])
}

/// The base, by whether a consonant that asked for a form before it has one.
fn base_at(
    unformed: bool,
    mask: hb_mask_t,
    infos: &[hb_glyph_info_t],
    base: usize,
    end: usize,
) -> usize
    requires ordered { base ≤ end }
    requires within { end ≤ length infos.now }
    requires is { unformed ≡ Bases.is_unformed mask infos.now base end }
    ensures value { result ≡ Bases.base_at unformed mask infos.now base end }
    ensures from { base ≤ result }
    ensures to { result ≤ end }
{
    if unformed && base < end {
        let from = asking_from(mask, infos, base + 1, end);
        after_halants(infos, from, end)
    } else {
        base
    }
}

/// Notes an item as a base.
fn place(buffer: &mut hb_buffer_t, i: usize)
    requires { i < length buffer.old.items }
    ensures made { buffer.new ≡ Bases.placed i buffer.old }
    ensures len { length buffer.new.items ≡ length buffer.old.items }
    ensures limit { limit_of buffer.new ≡ limit_of buffer.old }
{
    let info = with_position(&buffer.infos()[i], POS_BASE_C);
    buffer.set_info(i, info);
}

fn place_if(unformed: bool, buffer: &mut hb_buffer_t, i: usize, end: usize)
    requires { end ≤ length buffer.old.items }
    ensures made { buffer.new ≡ Bases.placed_if unformed i end buffer.old }
    ensures len { length buffer.new.items ≡ length buffer.old.items }
    ensures limit { limit_of buffer.new ≡ limit_of buffer.old }
{
    if unformed && i < end {
        place(buffer, i);
    }
}

fn count_joiners(infos: &[hb_glyph_info_t]) -> usize
    ensures value { result ≡ prefix_len Glyphs.is_joiner infos.now }
    ensures within { result ≤ length infos.now }
{
    infos.iter().take_while(|info| is_joiner(info)).count()
}

fn after_joiners(infos: &[hb_glyph_info_t], from: usize, end: usize) -> usize
    requires ordered { from ≤ end }
    requires within { end ≤ length infos.now }
    ensures value { result ≡ Bases.after_joiners infos.now from end }
    ensures from { from ≤ result }
    ensures to { result ≤ end }
{
    from + count_joiners(&infos[from..end])
}

/// The letter after a Halant, with joiners before and after that; `end` if no Halant follows.
fn letter_from(infos: &[hb_glyph_info_t], from: usize, end: usize) -> usize
    requires ordered { from ≤ end }
    requires within { end ≤ length infos.now }
    ensures value { result ≡ Bases.letter_from infos.now from end }
    ensures from { from ≤ result }
    ensures to { result ≤ end }
{
    let halant = after_joiners(infos, from, end);
    if halant < end && is_halant(&infos[halant]) {
        after_joiners(infos, halant + 1, end)
    } else {
        end
    }
}

fn is_below(info: &hb_glyph_info_t) -> bool
    ensures { result ≡ Bases.is_below info.now }
{
    is_consonant(info) && position(info) == POS_BELOW_C
}

/// Where a walk over forms below the base stands: the base, and from where on the next letter is
/// looked for.
#[derive(Clone, Copy, Debug)]
pub struct Below {
    pub base: usize,
    pub from: usize,
}

/// Looks at one more letter.
fn next_below(buffer: &mut hb_buffer_t, below: Below, end: usize) -> Below
    requires before { below.base < below.from }
    requires ordered { below.from ≤ end }
    requires within { end ≤ length buffer.old.items }
    ensures made { buffer.new ≡ Bases.below_placed end below buffer.old }
    ensures value { result ≡ Bases.below_after end buffer.old.items below }
    ensures before { result.base < result.from }
    ensures to { result.from ≤ end }
    ensures grows { below.base ≤ result.base }
    ensures len { length buffer.new.items ≡ length buffer.old.items }
    ensures limit { limit_of buffer.new ≡ limit_of buffer.old }
{
    let i = letter_from(buffer.infos(), below.from, end);
    if i < end && is_below(&buffer.infos()[i]) {
        place(buffer, i);
        Below {
            base: i,
            from: i + 1,
        }
    } else {
        Below {
            base: below.base,
            from: if i < end { i + 1 } else { end },
        }
    }
}

/// In Malayalam the base is behind consonants that asked for a form below it and have none.
fn skip_below(buffer: &mut hb_buffer_t, base: usize, end: usize) -> usize
    requires ordered { base ≤ end }
    requires within { end ≤ length buffer.old.items }
    ensures made { buffer.new ≡ (Bases.below_skipped base end buffer.old).0 }
    ensures value { result ≡ (Bases.below_skipped base end buffer.old).1.base }
    ensures to { result ≤ end }
    ensures from { base ≤ result }
    ensures len { length buffer.new.items ≡ length buffer.old.items }
    ensures limit { limit_of buffer.new ≡ limit_of buffer.old }
{
    if end <= base {
        return base;
    }
    let mut below = Below {
        base,
        from: base + 1,
    };
    for k in 0..end - (base + 1) {
        let _round = k;
        below = next_below(buffer, below, end);
    }
    below.base
}

/// An item past the base: it is the one before.
fn stepped_back(infos: &[hb_glyph_info_t], start: usize, base: usize) -> usize
    requires ordered { start ≤ base }
    requires within { base < length infos.now }
    ensures value { result ≡ Bases.stepped_back infos.now start base }
    ensures from { start ≤ result }
    ensures to { result ≤ base }
{
    if start < base && POS_BASE_C < position(&infos[base]) {
        base - 1
    } else {
        base
    }
}

/// A nukta or a Halant.
fn is_sign(info: &hb_glyph_info_t) -> bool
    ensures { result ≡ Bases.is_sign info.now }
{
    is_of(info, CAT_N) || is_of(info, CAT_H)
}

fn count_signs(infos: &[hb_glyph_info_t]) -> usize
    ensures value { result ≡ suffix_len Bases.is_sign infos.now }
    ensures within { result ≤ length infos.now }
{
    infos.iter().rev().take_while(|info| is_sign(info)).count()
}

fn before_signs(infos: &[hb_glyph_info_t], start: usize, base: usize) -> usize
    requires ordered { start ≤ base }
    requires within { base < length infos.now }
    ensures value { result ≡ Bases.before_signs infos.now start base }
    ensures from { start ≤ result }
    ensures to { result ≤ base }
{
    base - count_signs(&infos[start + 1..base + 1])
}

/// The end of a syllable, or a ZWJ that it ends with.
fn joiner_before(infos: &[hb_glyph_info_t], start: usize, end: usize) -> usize
    requires ordered { start ≤ end }
    requires within { end ≤ length infos.now }
    ensures value { result ≡ Bases.joiner_before infos.now start end }
    ensures from { start ≤ result }
    ensures to { result ≤ end }
{
    if start < end && is_of(&infos[end - 1], CAT_ZWJ) {
        end - 1
    } else {
        end
    }
}

fn settled_base(infos: &[hb_glyph_info_t], start: usize, end: usize, base: usize) -> usize
    requires ordered { start ≤ base }
    requires within { end ≤ length infos.now }
    requires to { base ≤ end }
    ensures value { result ≡ Bases.settled_base infos.now start end base }
    ensures from { start ≤ result }
    ensures to { result ≤ end }
{
    if base < end {
        let base = stepped_back(infos, start, base);
        before_signs(infos, start, base)
    } else {
        joiner_before(infos, start, end)
    }
}

/// The base of a syllable, and whether a form may still go before it.
#[derive(Clone, Copy, Debug)]
pub struct Spot {
    pub base: usize,
    pub try_pref: bool,
}

fn skip_below_if(malayalam: bool, buffer: &mut hb_buffer_t, base: usize, end: usize) -> usize
    requires ordered { base ≤ end }
    requires within { end ≤ length buffer.old.items }
    ensures made { buffer.new ≡ (Bases.below_skipped_if malayalam base end buffer.old).0 }
    ensures value { result ≡ (Bases.below_skipped_if malayalam base end buffer.old).1 }
    ensures to { result ≤ end }
    ensures from { base ≤ result }
    ensures len { length buffer.new.items ≡ length buffer.old.items }
    ensures limit { limit_of buffer.new ≡ limit_of buffer.old }
{
    if malayalam {
        skip_below(buffer, base, end)
    } else {
        base
    }
}

/// Finds the base of a syllable again.
pub fn find_base(facts: &Facts, buffer: &mut hb_buffer_t, start: usize, end: usize) -> Spot
    requires ordered { start ≤ end }
    requires within { end ≤ length buffer.old.items }
    ensures made { buffer.new ≡ (Bases.found facts.now start end buffer.old).0 }
    ensures value { result ≡ (Bases.found facts.now start end buffer.old).1 }
    ensures from { start ≤ result.base }
    ensures to { result.base ≤ end }
    ensures len { length buffer.new.items ≡ length buffer.old.items }
    ensures limit { limit_of buffer.new ≡ limit_of buffer.old }
{
    let first = first_base(buffer.infos(), start, end);
    let pref = facts.masks.pref;
    let unformed = is_unformed(pref, buffer.infos(), first, end);
    let base = base_at(unformed, pref, buffer.infos(), first, end);
    place_if(unformed, buffer, base, end);
    let base = skip_below_if(facts.tag == MALAYALAM, buffer, base, end);
    Spot {
        base: settled_base(buffer.infos(), start, end, base),
        try_pref: !unformed,
    }
}
