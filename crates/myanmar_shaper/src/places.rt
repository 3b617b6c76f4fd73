//! The position of each item of a syllable, by which it is sorted.
ghost use Rattle.std.specs.Prelude.{◌≡◌, ◌<◌, ◌≤◌, ◌+◌, ◌-◌, length, true};
ghost use Rattle.std.specs.List.{prefix_len};
ghost use Rattle.shape_items.specs.Buffer.{limit_of};
ghost use Rattle.myanmar_shaper.specs.Places;

use shape_buffer::buffer::{hb_buffer_t, hb_glyph_info_t};
use syllables::categories::indic::{
    A, ASAT, C, CS, DOTTED_CIRCLE, H, MR, PLACEHOLDER, RA, V, VBLW, VPRE, VS,
};

/// Vowels before the base.
pub const PRE_VOWEL: u8 = 2;

/// Consonants before the base.
const PRE_BASE: u8 = 3;

/// The base.
const BASE: u8 = 4;

/// What comes right after the base.
const AFTER_BASE: u8 = 5;

/// Anusvara before vowels below.
const BEFORE_BELOW: u8 = 7;

/// Vowels below.
const BELOW: u8 = 8;

/// What comes after them.
const AFTER_BELOW: u8 = 9;

fn category_of(info: &hb_glyph_info_t) -> u8
    ensures { result ≡ Places.category_of info.now }
{
    info._hb_glyph_info_get_shaper_category()
}

/// A consonant or what stands for one, unless lookups have joined it.
fn is_consonant(info: &hb_glyph_info_t) -> bool
    ensures { result ≡ Places.is_consonant info.now }
{
    !info._hb_glyph_info_get_ligated()
        && matches!(
            category_of(info),
            C | V | PLACEHOLDER | DOTTED_CIRCLE | RA | CS
        )
}

/// Whether a syllable begins with kinzi: RA, ASAT and a virama.
fn has_kinzi(infos: &[hb_glyph_info_t]) -> bool
    ensures value { result ≡ Places.has_kinzi infos.now }
    ensures long { result ≡ true → 3 ≤ length infos.now }
{
    3 <= infos.len()
        && category_of(&infos[0]) == RA
        && category_of(&infos[1]) == ASAT
        && category_of(&infos[2]) == H
}

fn is_other(info: &hb_glyph_info_t) -> bool
    ensures { result ≡ Places.is_other info.now }
{
    !is_consonant(info)
}

/// How many items stand before the first consonant of a list.
fn count_other(infos: &[hb_glyph_info_t]) -> usize
    ensures value { result ≡ prefix_len Places.is_other infos.now }
    ensures within { result ≤ length infos.now }
{
    infos.iter().take_while(|info| is_other(info)).count()
}

/// The base of a syllable without kinzi: its first consonant, or its first item.
fn plain_base(infos: &[hb_glyph_info_t]) -> usize
    ensures { result ≡ Places.plain_base infos.now }
{
    let count = count_other(infos);
    if count < infos.len() { count } else { 0 }
}

/// The base of a syllable with kinzi: the first consonant after it, or the kinzi.
fn base_after_kinzi(infos: &[hb_glyph_info_t]) -> usize
    requires { 3 ≤ length infos.now }
    ensures { result ≡ Places.base_after_kinzi infos.now }
{
    let count = 3 + count_other(&infos[3..]);
    if count < infos.len() { count } else { 0 }
}

/// Where kinzi ends, and the base.
#[derive(Clone, Copy, Debug)]
pub struct Frame {
    pub kinzi: usize,
    pub base: usize,
}

/// The frame of a syllable.
fn frame_of(infos: &[hb_glyph_info_t]) -> Frame
    ensures { result ≡ Places.frame_of infos.now }
{
    if has_kinzi(infos) {
        Frame {
            kinzi: 3,
            base: base_after_kinzi(infos),
        }
    } else {
        Frame {
            kinzi: 0,
            base: plain_base(infos),
        }
    }
}

/// The position of an item after the base, and where the next one goes that isn't one of its own.
#[derive(Clone, Copy, Debug)]
pub struct Placing {
    pub own: u8,
    pub next: u8,
}

/// The position of an item of a category before vowels below.
fn place_before_below(category: u8, next: u8) -> Placing
    ensures { result ≡ Places.place_before_below category next }
{
    if category == VBLW {
        Placing {
            own: BELOW,
            next: BELOW,
        }
    } else {
        Placing { own: next, next }
    }
}

/// The position of one after a vowel below.
fn place_at_below(category: u8) -> Placing
    ensures { result ≡ Places.place_at_below category }
{
    match category {
        A => Placing {
            own: BEFORE_BELOW,
            next: BELOW,
        },
        VBLW => Placing {
            own: BELOW,
            next: BELOW,
        },
        _ => Placing {
            own: AFTER_BELOW,
            next: AFTER_BELOW,
        },
    }
}

/// The position of an item after the base, by its category, the position of the one before it, and
/// where it goes if it isn't one of its own.
fn place_after(category: u8, before: u8, next: u8) -> Placing
    ensures { result ≡ Places.place_after category before next }
{
    match category {
        MR => Placing {
            own: PRE_BASE,
            next,
        },
        VPRE => Placing {
            own: PRE_VOWEL,
            next,
        },
        VS => Placing { own: before, next },
        _ => match next {
            AFTER_BASE => place_before_below(category, next),
            BELOW => place_at_below(category),
            _ => Placing { own: next, next },
        },
    }
}

/// The position of the item `k` of a syllable.
fn place_of(frame: Frame, k: usize, category: u8, before: u8, next: u8) -> Placing
    ensures { result ≡ Places.place_of frame k category before next }
{
    if k < frame.kinzi {
        Placing {
            own: AFTER_BASE,
            next,
        }
    } else if k < frame.base {
        Placing {
            own: PRE_BASE,
            next,
        }
    } else if k == frame.kinzi.max(frame.base) {
        Placing { own: BASE, next }
    } else {
        place_after(category, before, next)
    }
}

/// Gives the item at a place a position.
fn put_place(buffer: &mut hb_buffer_t, i: usize, place: u8)
    requires { i < length buffer.old.items }
    ensures made { buffer.new ≡ Places.place_put place i buffer.old }
    ensures len { length buffer.new.items ≡ length buffer.old.items }
    ensures limit { limit_of buffer.new ≡ limit_of buffer.old }
{
    let mut info = buffer.infos()[i];
    info._hb_glyph_info_set_shaper_auxiliary(place);
    buffer.set_info(i, info);
}

/// Gives the item at a place its position, and returns where the walk stands then.
fn place_at(
    frame: Frame,
    placing: Placing,
    buffer: &mut hb_buffer_t,
    start: usize,
    k: usize,
) -> Placing
    requires { start + k < length buffer.old.items }
    ensures made { buffer.new ≡ Places.placed_at frame placing start k buffer.old }
    ensures value { result ≡ Places.placing_at frame placing start k buffer.old }
    ensures len { length buffer.new.items ≡ length buffer.old.items }
    ensures limit { limit_of buffer.new ≡ limit_of buffer.old }
{
    let category = category_of(&buffer.infos()[start + k]);
    let here = place_of(frame, k, category, placing.own, placing.next);
    put_place(buffer, start + k, here.own);
    here
}

/// Gives the first items of a syllable their positions.
fn place_first(frame: Frame, buffer: &mut hb_buffer_t, start: usize, count: usize)
    requires { start + count ≤ length buffer.old.items }
    ensures made { buffer.new ≡ (Places.placed_to frame start count buffer.old).0 }
    ensures len { length buffer.new.items ≡ length buffer.old.items }
    ensures limit { limit_of buffer.new ≡ limit_of buffer.old }
{
    let mut placing = Placing {
        own: 0,
        next: AFTER_BASE,
    };
    for k in 0..count {
        placing = place_at(frame, placing, buffer, start, k);
    }
}

/// Gives the items of a syllable their positions.
pub fn place_each(buffer: &mut hb_buffer_t, start: usize, end: usize)
    requires ordered { start ≤ end }
    requires within { end ≤ length buffer.old.items }
    ensures made { buffer.new ≡ Places.each_placed buffer.old start end }
    ensures len { length buffer.new.items ≡ length buffer.old.items }
    ensures limit { limit_of buffer.new ≡ limit_of buffer.old }
{
    let frame = frame_of(&buffer.infos()[start..end]);
    place_first(frame, buffer, start, end - start);
}
