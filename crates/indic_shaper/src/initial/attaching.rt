//! Which positions the items of a syllable take from the base and from one another, before they are
//! sorted.
ghost use Rattle.std.specs.Prelude.{◌≡◌, ◌+◌, ◌-◌, ◌<◌, ◌≤◌, length, drop};
ghost use Rattle.std.specs.List.{suffix_len};
ghost use Rattle.syllabic.specs.Walking.{item_at};
ghost use Rattle.indic_shaper.specs.Attaching;

use crate::categories::{
    CAT_CM, CAT_H, CAT_MPST, CAT_N, CAT_RS, CAT_SM, CAT_ZWJ, CAT_ZWNJ, POS_BASE_C, POS_PRE_C,
    POS_PRE_M, POS_RA_TO_BECOME_REPH, POS_SMVD, POS_START,
};
use crate::config::KANNADA;
use crate::engine::Facts;
use crate::glyphs::{category, is_consonant, is_matra, item_at, position, with_position};
use crate::initial::base::Base;
use shape_buffer::buffer::hb_glyph_info_t;

/// Where an item stands beside the base and the reph.
fn noted_place(found: Base, i: usize, info: &hb_glyph_info_t) -> u8
    ensures { result ≡ Attaching.noted_place found i info.now }
{
    if found.has_reph && i == 0 {
        POS_RA_TO_BECOME_REPH
    } else if i == found.base {
        POS_BASE_C
    } else if i < found.base {
        position(info).min(POS_PRE_C)
    } else {
        position(info)
    }
}

/// Notes what goes before the base, the base and the reph.
fn note_base(found: Base, items: &mut [hb_glyph_info_t])
    ensures { items.new ≡ Attaching.base_noted found items.old }
{
    for i in 0..items.len() {
        let place = noted_place(found, i, &items[i]);
        items[i] = with_position(&items[i], place);
    }
}

/// Whether an item at a place is a Halant after the base.
fn is_late_halant(base: usize, i: usize, info: &hb_glyph_info_t) -> bool
    ensures { result ≡ Attaching.is_late_halant base i info.now }
{
    base < i && category(info) == CAT_H
}

/// The place of the first Halant after the base, the end if there is none.
fn halant_after(items: &[hb_glyph_info_t], base: usize) -> usize
    ensures value { result ≡ Attaching.halant_from base 0 items.now }
    ensures within { result ≤ length items.now }
{
    for i in 0..items.len() {
        if is_late_halant(base, i, &items[i]) {
            return i;
        }
    }
    items.len()
}

/// Whether a Halant may go behind an item, and no further: in Kannada no two stand together.
fn holds_halant(facts: &Facts, info: &hb_glyph_info_t) -> bool
    ensures { result ≡ Attaching.holds_halant facts.now info.now }
{
    is_consonant(info) || (facts.tag == KANNADA && category(info) == CAT_H)
}

/// Whether a Halant doesn't go behind an item.
fn passes_halant(facts: &Facts, info: &hb_glyph_info_t) -> bool
    ensures { result ≡ Attaching.passes_halant facts.now info.now }
{
    !holds_halant(facts, info)
}

/// How many items at the end a Halant doesn't go behind.
fn count_passed(facts: &Facts, items: &[hb_glyph_info_t]) -> usize
    ensures value { result ≡ suffix_len (Attaching.passes_halant facts.now) items.now }
    ensures within { result ≤ length items.now }
{
    items
        .iter()
        .rev()
        .take_while(|info| passes_halant(facts, info))
        .count()
}

/// The place behind the last item that a Halant may go behind.
fn halant_end(facts: &Facts, items: &[hb_glyph_info_t]) -> usize
    ensures value { result ≡ Attaching.halant_end facts.now items.now }
    ensures within { result ≤ length items.now }
{
    items.len() - count_passed(facts, items)
}

/// Moves an item so many places on.
fn carry(items: &mut [hb_glyph_info_t], i: usize, n: usize)
    requires { i + n < length items.old }
    ensures { items.new ≡ Attaching.carried i n items.old }
{
    for k in 0..n {
        items.swap(i + k, i + k + 1);
    }
}

/// Of the older specification: the first Halant after the base goes behind the last consonant.
fn move_halant(facts: &Facts, base: usize, items: &mut [hb_glyph_info_t])
    ensures { items.new ≡ Attaching.halant_moved facts.now base items.old }
{
    let i = halant_after(items, base);
    let end = halant_end(facts, items);
    if i + 1 < end && category(&item_at(items, end - 1)) != CAT_H {
        carry(items, i, end - 1 - i);
    }
}

/// Whether a sign goes where the item before it goes.
fn is_attached(info: &hb_glyph_info_t) -> bool
    ensures { result ≡ Attaching.is_attached info.now }
{
    let c = category(info);
    c == CAT_ZWJ || c == CAT_ZWNJ || c == CAT_N || c == CAT_RS || c == CAT_CM || c == CAT_H
}

/// The position that signs take, and the last one that isn't of vowel signs before the base.
#[derive(Clone, Copy, Debug)]
pub struct Last {
    pub place: u8,
    pub other: u8,
}

/// The position of a sign. A Halant doesn't go before the base with a vowel sign.
fn sign_place(last: Last, info: &hb_glyph_info_t) -> u8
    ensures { result ≡ Attaching.sign_place last info.now }
{
    if category(info) == CAT_H && last.place == POS_PRE_M {
        last.other
    } else {
        last.place
    }
}

/// Whether a modifier goes with the vowel sign right after it.
fn goes_with(info: &hb_glyph_info_t, next: &hb_glyph_info_t) -> bool
    ensures { result ≡ Attaching.goes_with info.now next.now }
{
    category(info) == CAT_SM && category(next) == CAT_MPST && position(next) != POS_SMVD
}

/// The position of an item by what is before it and right after it.
fn attached_place(last: Last, info: &hb_glyph_info_t, rest: &[hb_glyph_info_t]) -> u8
    ensures { result ≡ Attaching.attached_place last info.now rest.now }
{
    if is_attached(info) {
        return sign_place(last, info);
    }
    let next = item_at(rest, 0);
    if goes_with(info, &next) {
        position(&next)
    } else {
        position(info)
    }
}

/// The position of the item at a place by what is before it and right after it.
fn attached_at(last: Last, items: &[hb_glyph_info_t], i: usize) -> u8
    requires { i < length items.now }
    ensures { result
        ≡ Attaching.attached_place last (item_at items.now i) (drop (i + 1) items.now) }
{
    attached_place(last, &items[i], &items[i + 1..])
}

/// What signs take after an item that goes to a place.
fn last_after(last: Last, info: &hb_glyph_info_t, place: u8) -> Last
    ensures { result ≡ record {
      place = Attaching.last_place last info.now;
      other = Attaching.other_place last place;
    } }
{
    Last {
        place: if is_attached(info) || position(info) == POS_SMVD {
            last.place
        } else {
            position(info)
        },
        other: if place == POS_PRE_M {
            last.other
        } else {
            place
        },
    }
}

/// Attaches signs to what is before them.
fn attach_signs(items: &mut [hb_glyph_info_t])
    ensures { items.new ≡ Attaching.signs_attached items.old }
{
    let mut last = Last {
        place: POS_START,
        other: POS_PRE_M,
    };
    for i in 0..items.len() {
        let place = attached_at(last, items, i);
        last = last_after(last, &items[i], place);
        items[i] = with_position(&items[i], place);
    }
}

/// The position of the consonant that comes before any vowel sign, by an item and what is so after
/// it.
fn owner_at(info: &hb_glyph_info_t, after: Option<u8>) -> Option<u8>
    ensures { result ≡ Attaching.owner_at info.now after }
{
    if is_consonant(info) {
        Some(position(info))
    } else if is_matra(info) {
        None
    } else {
        after
    }
}

/// Whether a consonant may own an item.
fn is_ownable(base: usize, i: usize, info: &hb_glyph_info_t) -> bool
    ensures { result ≡ Attaching.is_ownable base i info.now }
{
    base < i && !(is_consonant(info) || is_matra(info)) && position(info) < POS_SMVD
}

/// The position of an item that a consonant after it may own.
fn owned_by(base: usize, i: usize, info: &hb_glyph_info_t, owner: Option<u8>) -> u8
    ensures { result ≡ Attaching.owned_by base i info.now owner }
{
    if is_ownable(base, i, info) {
        match owner {
            Some(place) => place,
            None => position(info),
        }
    } else {
        position(info)
    }
}

/// Consonants after the base own what stands between them and the last consonant or vowel sign.
fn own_signs(base: usize, items: &mut [hb_glyph_info_t])
    ensures { items.new ≡ Attaching.signs_owned base items.old }
{
    let mut owner = None;
    for i in (0..items.len()).rev() {
        let info = item_at(items, i);
        let place = owned_by(base, i, &info, owner);
        owner = owner_at(&info, owner);
        items[i] = with_position(&info, place);
    }
}

/// Gives each item of a syllable its position.
pub fn position_all(facts: &Facts, found: Base, items: &mut [hb_glyph_info_t])
    ensures { items.new ≡ Attaching.positioned facts.now found items.old }
{
    note_base(found, items);
    if facts.is_old {
        move_halant(facts, found.base, items);
    }
    attach_signs(items);
    own_signs(found.base, items);
}
