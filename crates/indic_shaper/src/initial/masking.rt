//! The features that each glyph of a syllable may take.
ghost use Rattle.std.specs.Prelude.{◌≡◌, ◌<◌, ◌≤◌, ◌+◌, length, drop};
ghost use Rattle.syllabic.specs.Walking.{item_at};
ghost use Rattle.indic_shaper.specs.Masking;

use crate::categories::{CAT_H, CAT_RA, CAT_ZWJ, CAT_ZWNJ, POS_RA_TO_BECOME_REPH};
use crate::config::DEVANAGARI;
use crate::engine::{Facts, would};
use crate::glyphs::{category, is_consonant, is_of, item_at, position, with_mask};
use crate::requests::PREF;
use shape_buffer::buffer::{hb_glyph_info_t, hb_mask_t};
use shape_buffer::interfaces::hb_ot_layout_t;

/// A mask where it is wanted.
fn or_0(is_on: bool, mask: hb_mask_t) -> hb_mask_t
    ensures { result ≡ Masking.or_0 is_on mask }
{
    if is_on { mask } else { 0 }
}

/// The features of what stands before the base.
fn before_mask(facts: &Facts) -> hb_mask_t
    ensures { result ≡ Masking.before_mask facts.now }
{
    let below = !facts.is_old && facts.config.below_before_base;
    facts.masks.half | or_0(below, facts.masks.blwf)
}

/// The features of what stands after the base.
fn after_mask(facts: &Facts) -> hb_mask_t
    ensures { result ≡ Masking.after_mask facts.now }
{
    facts.masks.blwf | facts.masks.abvf | facts.masks.pstf
}

/// Where the walk that sets masks stands: how many places before the base, or after it, whether
/// only parts of a reph are before it, and whether Ra of an eyelash is.
#[derive(Clone, Copy, Debug)]
pub struct Masked {
    pub left: usize,
    pub is_after: bool,
    pub in_reph: bool,
    pub after_eyelash: bool,
}

/// The features of a place beside the base.
fn side_mask(facts: &Facts, masked: Masked) -> hb_mask_t
    ensures { result ≡ Masking.side_mask facts.now masked }
{
    if 0 < masked.left {
        before_mask(facts)
    } else {
        or_0(masked.is_after, after_mask(facts))
    }
}

/// Whether an item is a part of a reph.
fn is_reph(masked: Masked, info: &hb_glyph_info_t) -> bool
    ensures { result ≡ Masking.is_reph masked info.now }
{
    masked.in_reph && position(info) == POS_RA_TO_BECOME_REPH
}

/// Whether Ra and Halant so many places before the base are a form below it in the older
/// specification.
fn is_eyelash(left: usize, info: &hb_glyph_info_t, rest: &[hb_glyph_info_t]) -> bool
    ensures { result ≡ Masking.is_eyelash left info.now rest.now }
{
    1 < left
        && category(info) == CAT_RA
        && category(&item_at(rest, 0)) == CAT_H
        && (left == 2 || category(&item_at(rest, 1)) != CAT_ZWJ)
}

/// Whether an eyelash begins at a place.
fn begins_eyelash(facts: &Facts, masked: Masked, items: &[hb_glyph_info_t], i: usize) -> bool
    requires { i < length items.now }
    ensures { result
        ≡ Masking.begins_eyelash facts.now masked (item_at items.now i) (drop (i + 1) items.now) }
{
    facts.is_old && facts.tag == DEVANAGARI && is_eyelash(masked.left, &items[i], &items[i + 1..])
}

/// The features of an item by its place, and by whether an eyelash begins there.
fn mask_at(facts: &Facts, masked: Masked, info: &hb_glyph_info_t, eyelash: bool) -> hb_mask_t
    ensures { result ≡ Masking.mask_at facts.now masked info.now eyelash }
{
    or_0(is_reph(masked, info), facts.masks.rphf)
        | side_mask(facts, masked)
        | or_0(masked.after_eyelash || eyelash, facts.masks.blwf)
}

/// Where the walk stands after an item.
fn masked_next(masked: Masked, info: &hb_glyph_info_t, eyelash: bool) -> Masked
    ensures { result ≡ Masking.masked_next masked info.now eyelash }
{
    Masked {
        left: masked.left.saturating_sub(1),
        is_after: masked.left == 0,
        in_reph: is_reph(masked, info),
        after_eyelash: eyelash,
    }
}

/// Sets masks by where items stand beside the base.
fn mask_places(facts: &Facts, base: usize, items: &mut [hb_glyph_info_t])
    ensures { items.new ≡ Masking.places_masked facts.now base items.old }
{
    let mut masked = Masked {
        left: base,
        is_after: false,
        in_reph: true,
        after_eyelash: false,
    };
    for i in 0..items.len() {
        let eyelash = begins_eyelash(facts, masked, items, i);
        let mask = mask_at(facts, masked, &items[i], eyelash);
        masked = masked_next(masked, &items[i], eyelash);
        items[i] = with_mask(&items[i], mask);
    }
}

/// Whether the feature of consonants before the base joins an item and the next one.
fn joins_next<F, M: hb_ot_layout_t<F>>(
    map: &M::Map,
    face: &F,
    facts: &Facts,
    info: &hb_glyph_info_t,
    rest: &[hb_glyph_info_t],
) -> bool
    ensures { result ≡ Masking.joins_next (M.lookups map.now face.now) facts.now info.now rest.now }
{
    let next = item_at(rest, 0).glyph_id;
    rest.len() != 0 && would::<F, M>(map, face, facts, PREF, &[info.glyph_id, next])
}

/// Whether it joins the item at a place after the base and the next one.
fn joins_before<F, M: hb_ot_layout_t<F>>(
    map: &M::Map,
    face: &F,
    facts: &Facts,
    base: usize,
    items: &[hb_glyph_info_t],
    i: usize,
) -> bool
    requires { i < length items.now }
    ensures { result ≡ Masking.joins_before (M.lookups map.now face.now) facts.now base i
        (item_at items.now i) (drop (i + 1) items.now) }
{
    base < i && joins_next::<F, M>(map, face, facts, &items[i], &items[i + 1..])
}

/// Where the first two glyphs after the base are that it joins, the end if none are.
fn pref_from<F, M: hb_ot_layout_t<F>>(
    map: &M::Map,
    face: &F,
    facts: &Facts,
    base: usize,
    items: &[hb_glyph_info_t],
) -> usize
    ensures { result ≡ Masking.pref_from (M.lookups map.now face.now) facts.now base 0 items.now }
{
    for i in 0..items.len() {
        if joins_before::<F, M>(map, face, facts, base, items, i) {
            return i;
        }
    }
    items.len()
}

/// Adds to the masks of two items.
fn mask_pair(mask: hb_mask_t, i: usize, items: &mut [hb_glyph_info_t])
    ensures { items.new ≡ Masking.pair_masked mask i items.old }
{
    let count = items.len();
    if i < count && i + 1 < count {
        items[i] = with_mask(&item_at(items, i), mask);
        items[i + 1] = with_mask(&item_at(items, i + 1), mask);
    }
}

/// Marks a consonant that is to go before the base.
fn mask_before_base<F, M: hb_ot_layout_t<F>>(
    map: &M::Map,
    face: &F,
    facts: &Facts,
    base: usize,
    items: &mut [hb_glyph_info_t],
)
    ensures { items.new
        ≡ Masking.pref_masked (M.lookups map.now face.now) facts.now base items.old }
{
    if facts.masks.pref != 0 {
        let i = pref_from::<F, M>(map, face, facts, base, items);
        mask_pair(facts.masks.pref, i, items);
    }
}

/// Whether a ZWNJ comes before any consonant, by an item and what is so after it.
fn zwnj_at(info: &hb_glyph_info_t, after: bool) -> bool
    ensures { result ≡ Masking.zwnj_at info.now after }
{
    if is_of(info, CAT_ZWNJ) {
        true
    } else if is_consonant(info) {
        false
    } else {
        after
    }
}

/// An item without features.
fn without_mask(info: &hb_glyph_info_t, mask: hb_mask_t) -> hb_glyph_info_t
    ensures { result ≡ Masking.without_mask info.now mask }
{
    let mut info = *info;
    info.mask = info.mask ^ (info.mask & mask);
    info
}

/// An item that a ZWNJ after it may keep from a half form.
fn joiner_by(facts: &Facts, info: &hb_glyph_info_t, before: bool) -> hb_glyph_info_t
    ensures { result ≡ Masking.joiner_by facts.now info.now before }
{
    if before {
        without_mask(info, facts.masks.half)
    } else {
        *info
    }
}

/// A ZWNJ keeps what is before it from half forms.
fn mask_joiners(facts: &Facts, items: &mut [hb_glyph_info_t])
    ensures { items.new ≡ Masking.joiners_masked facts.now items.old }
{
    let mut before = false;
    for i in (0..items.len()).rev() {
        let info = item_at(items, i);
        let masked = joiner_by(facts, &info, before);
        before = zwnj_at(&info, before);
        items[i] = masked;
    }
}

/// Sets the masks of a syllable.
pub fn mask_all<F, M: hb_ot_layout_t<F>>(
    map: &M::Map,
    face: &F,
    facts: &Facts,
    base: usize,
    items: &mut [hb_glyph_info_t],
)
    ensures { items.new ≡ Masking.all_masked (M.lookups map.now face.now) facts.now base items.old }
{
    mask_places(facts, base, items);
    mask_before_base::<F, M>(map, face, facts, base, items);
    mask_joiners(facts, items);
}
