//! The base of a syllable, and whether a reph begins it.
ghost use Rattle.std.specs.Prelude.{◌≡◌, ◌+◌, ◌≤◌, length, drop, false};
ghost use Rattle.std.specs.List.{prefix_len};
ghost use Rattle.indic_shaper.specs.Glyphs;
ghost use Rattle.indic_shaper.specs.Bases;

use crate::categories::{CAT_H, CAT_REPHA, CAT_ZWJ, POS_BELOW_C, POS_POST_C};
use crate::config::RephMode;
use crate::engine::{Facts, would};
use crate::glyphs::{category, is_consonant, is_joiner, item_at, position};
use crate::requests::RPHF;
use shape_buffer::buffer::hb_glyph_info_t;
use shape_buffer::interfaces::hb_ot_layout_t;

/// Where the base stands, and whether Ra before it becomes a reph.
#[derive(Clone, Copy, Debug)]
pub struct Base {
    pub base: usize,
    pub has_reph: bool,
}

/// How many joiners a list begins with.
fn count_joiners(items: &[hb_glyph_info_t]) -> usize
    ensures value { result ≡ prefix_len Glyphs.is_joiner items.now }
    ensures within { result ≤ length items.now }
{
    items.iter().take_while(|info| is_joiner(info)).count()
}

/// The first place from here on without a joiner.
fn after_joiners(items: &[hb_glyph_info_t], from: usize) -> usize
    requires { from ≤ length items.now }
    ensures { result ≡ Bases.after_joiners items.now from }
{
    from + count_joiners(&items[from..])
}

/// Whether what stands third allows a reph.
fn third_allows(mode: RephMode, third: &hb_glyph_info_t) -> bool
    ensures { result ≡ Bases.third_allows mode third.now }
{
    match mode {
        RephMode::Implicit => !is_joiner(third),
        RephMode::Explicit => category(third) == CAT_ZWJ,
        RephMode::Encoded => false,
    }
}

/// Whether the beginning may be a reph by what is written.
fn may_begin_reph(facts: &Facts, items: &[hb_glyph_info_t]) -> bool
    ensures { result ≡ Bases.may_begin_reph facts.now items.now }
{
    facts.masks.rphf != 0
        && 3 <= items.len()
        && third_allows(facts.config.reph_mode, &item_at(items, 2))
}

/// Whether ZWJ belongs to a reph.
fn is_explicit(mode: RephMode) -> bool
    ensures { result ≡ Bases.is_explicit mode }
{
    match mode {
        RephMode::Implicit => false,
        RephMode::Explicit => true,
        RephMode::Encoded => false,
    }
}

/// Whether a reph is a character of its own.
fn is_encoded(mode: RephMode) -> bool
    ensures { result ≡ Bases.is_encoded mode }
{
    match mode {
        RephMode::Implicit => false,
        RephMode::Explicit => false,
        RephMode::Encoded => true,
    }
}

/// Whether the font makes a reph of the beginning.
fn makes_reph<F, M: hb_ot_layout_t<F>>(
    map: &M::Map,
    face: &F,
    facts: &Facts,
    items: &[hb_glyph_info_t],
) -> bool
    ensures { result ≡ Bases.makes_reph (M.lookups map.now face.now) facts.now items.now }
{
    let first = item_at(items, 0).glyph_id;
    let second = item_at(items, 1).glyph_id;
    let third = item_at(items, 2).glyph_id;
    would::<F, M>(map, face, facts, RPHF, &[first, second])
        || (is_explicit(facts.config.reph_mode)
            && would::<F, M>(map, face, facts, RPHF, &[first, second, third]))
}

/// Whether a reph of its own begins a syllable.
fn begins_with_repha(facts: &Facts, items: &[hb_glyph_info_t]) -> bool
    ensures { result ≡ Bases.begins_with_repha facts.now items.now }
{
    is_encoded(facts.config.reph_mode)
        && 1 <= items.len()
        && category(&item_at(items, 0)) == CAT_REPHA
}

/// The place behind the reph, 0 if there is none.
fn reph_limit<F, M: hb_ot_layout_t<F>>(
    map: &M::Map,
    face: &F,
    facts: &Facts,
    items: &[hb_glyph_info_t],
) -> usize
    ensures { result ≡ Bases.reph_limit (M.lookups map.now face.now) facts.now items.now }
{
    if may_begin_reph(facts, items) {
        if makes_reph::<F, M>(map, face, facts, items) {
            after_joiners(items, 2)
        } else {
            0
        }
    } else if begins_with_repha(facts, items) {
        after_joiners(items, 1)
    } else {
        0
    }
}

/// Whether a consonant has no form below or after the base.
fn has_no_form(seen_below: bool, info: &hb_glyph_info_t) -> bool
    ensures { result ≡ Bases.has_no_form seen_below info.now }
{
    position(info) != POS_BELOW_C && (position(info) != POS_POST_C || seen_below)
}

/// Whether an item is a consonant with a form below the base.
fn is_below(info: &hb_glyph_info_t) -> bool
    ensures { result ≡ Bases.is_below info.now }
{
    is_consonant(info) && position(info) == POS_BELOW_C
}

/// Whether a ZWJ after a Halant asks for a half form.
fn asks_for_half(items: &[hb_glyph_info_t], i: usize) -> bool
    ensures { result ≡ Bases.asks_for_half items.now i }
{
    0 < i && category(&item_at(items, i)) == CAT_ZWJ && category(&item_at(items, i - 1)) == CAT_H
}

/// Whether the search for the base ends at a place.
fn ends_search(items: &[hb_glyph_info_t], limit: usize, seen_below: bool, i: usize) -> bool
    ensures { result ≡ Bases.ends_search items.now limit seen_below i }
{
    if i <= limit {
        return true;
    }
    let info = item_at(items, i);
    if is_consonant(&info) {
        has_no_form(seen_below, &info)
    } else {
        asks_for_half(items, i)
    }
}

/// The base so far.
fn base_at(items: &[hb_glyph_info_t], base: usize, i: usize) -> usize
    ensures { result ≡ Bases.base_at items.now base i }
{
    if is_consonant(&item_at(items, i)) {
        i
    } else {
        base
    }
}

/// Whether a form below the base has been seen so far.
fn seen_at(items: &[hb_glyph_info_t], seen_below: bool, i: usize) -> bool
    ensures { result ≡ Bases.seen_at items.now seen_below i }
{
    seen_below || is_below(&item_at(items, i))
}

/// The base, looked for from the end down to a limit; `none` if there is none.
fn base_from(items: &[hb_glyph_info_t], limit: usize, none: usize) -> usize
    ensures { result ≡ Bases.base_from items.now limit false none (length items.now) }
{
    let mut base = none;
    let mut seen_below = false;
    for i in (0..items.len()).rev() {
        let here = base_at(items, base, i);
        if ends_search(items, limit, seen_below, i) {
            return here;
        }
        seen_below = seen_at(items, seen_below, i);
        base = here;
    }
    base
}

/// The base behind a place.
fn base_by(items: &[hb_glyph_info_t], limit: usize) -> Base
    ensures { result ≡ Bases.base_by items.now limit }
{
    let none = if limit == 0 { items.len() } else { 0 };
    let base = base_from(items, limit, none);
    Base {
        base,
        // With no other consonant Ra is the base.
        has_reph: limit != 0 && !(base == 0 && limit <= 2),
    }
}

/// Finds the base, and whether a reph begins the syllable.
pub fn find_base<F, M: hb_ot_layout_t<F>>(
    map: &M::Map,
    face: &F,
    facts: &Facts,
    items: &[hb_glyph_info_t],
) -> Base
    ensures { result ≡ Bases.find_base (M.lookups map.now face.now) facts.now items.now }
{
    let limit = reph_limit::<F, M>(map, face, facts, items);
    base_by(items, limit)
}
