//! The order of a syllable: COENG and RO go to its front, and vowels before the base.
ghost use Rattle.std.specs.Prelude.{◌≡◌, ◌<◌, ◌≤◌, ◌+◌, ◌-◌, length};
ghost use Rattle.shape_items.specs.Buffer.{limit_of};
ghost use Rattle.shape_buffer.specs.Outcome.{IsWithinLimit, Made, Outcome, step};
ghost use Rattle.khmer_shaper.specs.Reordering;

use shape_buffer::buffer::{ShapeError, hb_buffer_t, hb_glyph_info_t, hb_mask_t};
use shape_buffer::interfaces::hb_font_t;
use std::alloc::Global;
use syllabic::circles::{Circled, insert_circles};
use syllabic::moving::{bring_before, bring_run_before, reverse};
use syllabic::walking::{begins_at, end_of, kind_of_byte};
use syllables::categories::indic::{DOTTED_CIRCLE, H as COENG, RA as RO, VPRE};
use syllables::khmer::BROKEN;

/// The masks of features that belong to places of a syllable: after the base, of COENG and RO
/// before it, and after these.
#[derive(Clone, Copy, Debug)]
pub struct KhmerMasks {
    pub after_base: hb_mask_t,
    pub prebase: hb_mask_t,
    pub after_ro: hb_mask_t,
}

/// Adds a mask to the item at a place.
fn add_mask(buffer: &mut hb_buffer_t, mask: hb_mask_t, i: usize)
    requires { i < length buffer.old.items }
    ensures made { buffer.new ≡ Reordering.mask_added mask i buffer.old }
    ensures len { length buffer.new.items ≡ length buffer.old.items }
    ensures limit { limit_of buffer.new ≡ limit_of buffer.old }
{
    let mut info = buffer.infos()[i];
    info.mask |= mask;
    buffer.set_info(i, info);
}

/// Adds a mask from a place up to another one.
fn add_masks(buffer: &mut hb_buffer_t, mask: hb_mask_t, start: usize, end: usize)
    requires { end ≤ length buffer.old.items }
    ensures made { buffer.new ≡ Reordering.masks_added mask start (end - start) buffer.old }
    ensures len { length buffer.new.items ≡ length buffer.old.items }
    ensures limit { limit_of buffer.new ≡ limit_of buffer.old }
{
    for k in 0..end.saturating_sub(start) {
        add_mask(buffer, mask, start + k);
    }
}

fn has_category(info: &hb_glyph_info_t, category: u8) -> bool
    ensures { result ≡ Reordering.has_category category info.now }
{
    info._hb_glyph_info_get_shaper_category() == category
}

/// COENG at the second of two places goes to the first one.
fn turn_at(buffer: &mut hb_buffer_t, i: usize)
    requires { i + 1 < length buffer.old.items }
    ensures made { buffer.new ≡ Reordering.turned_at i buffer.old }
    ensures len { length buffer.new.items ≡ length buffer.old.items }
    ensures limit { limit_of buffer.new ≡ limit_of buffer.old }
{
    let _count = buffer.len();
    if has_category(&buffer.infos()[i + 1], COENG) {
        reverse(buffer, i, i + 2);
    }
}

/// Pairs that are turned round stand as they did, COENG before RO.
fn turn(buffer: &mut hb_buffer_t, start: usize, count: usize)
    requires { start + count < length buffer.old.items }
    ensures made { buffer.new ≡ Reordering.turned start count buffer.old }
    ensures len { length buffer.new.items ≡ length buffer.old.items }
    ensures limit { limit_of buffer.new ≡ limit_of buffer.old }
{
    let _count = buffer.len();
    for k in 0..count {
        turn_at(buffer, start + k);
    }
}

/// COENG and RO, once or more from a place up to the pair at another one, go to the front with
/// their mask, the last pair first, and what stands after the first of them gets its own. They
/// move together, so that many of them take time in step with their number.
fn move_ros(
    masks: KhmerMasks,
    buffer: &mut hb_buffer_t,
    start: usize,
    end: usize,
    from: usize,
    i: usize,
)
    requires ordered { start ≤ from }
    requires some { from ≤ i }
    requires inside { i + 1 < end }
    requires within { end ≤ length buffer.old.items }
    ensures made { buffer.new ≡ Reordering.ros_moved masks start end from i buffer.old }
    ensures len { length buffer.new.items ≡ length buffer.old.items }
    ensures limit { limit_of buffer.new ≡ limit_of buffer.old }
{
    let _count = buffer.len();
    add_masks(buffer, masks.prebase, from, i + 2);
    add_masks(buffer, masks.after_ro, from + 2, end);
    bring_run_before(buffer, start, from, i + 2);
    turn(buffer, start, i + 1 - from);
}

/// Where a walk over a syllable stands: how many COENGs it has seen, and whether a pair that it has
/// seen waits for the one after it, with the place where such pairs begin.
#[derive(Clone, Copy, Debug)]
pub struct Seen {
    pub coengs: u8,
    pub waits: bool,
    pub from: usize,
}

/// Whether COENG and RO stand at a place of a syllable.
fn is_pair(infos: &[hb_glyph_info_t], end: usize, i: usize) -> bool
    requires inside { i < end }
    requires within { end ≤ length infos.now }
    ensures { result ≡ Reordering.is_pair end i infos.now }
{
    i + 1 < end && has_category(&infos[i], COENG) && has_category(&infos[i + 1], RO)
}

/// Whether one more stands right after the one at a place.
fn pair_follows(infos: &[hb_glyph_info_t], end: usize, i: usize) -> bool
    requires inside { i + 1 < end }
    requires within { end ≤ length infos.now }
    ensures { result ≡ Reordering.pair_follows end i infos.now }
{
    i + 2 < end && is_pair(infos, end, i + 2)
}

/// Where the pairs begin that stand one after the other up to the one at a place.
fn from_of(seen: Seen, start: usize, i: usize) -> usize
    requires { start ≤ i }
    ensures value { result ≡ Reordering.from_of seen start i }
    ensures from { start ≤ result }
    ensures to { result ≤ i }
{
    if seen.waits && start <= seen.from && seen.from <= i {
        seen.from
    } else {
        i
    }
}

/// Moves the pair at a place with those right before it, unless it waits for the one after it.
fn move_pair(
    masks: KhmerMasks,
    buffer: &mut hb_buffer_t,
    start: usize,
    end: usize,
    seen: Seen,
    i: usize,
)
    requires ordered { start ≤ i }
    requires inside { i + 1 < end }
    requires within { end ≤ length buffer.old.items }
    ensures made { buffer.new ≡ Reordering.pair_moved masks start end seen i buffer.old }
    ensures len { length buffer.new.items ≡ length buffer.old.items }
    ensures limit { limit_of buffer.new ≡ limit_of buffer.old }
{
    let _count = buffer.len();
    if !pair_follows(buffer.infos(), end, i) {
        let from = from_of(seen, start, i);
        move_ros(masks, buffer, start, end, from, i);
    }
}

/// Whether COENG stands at a place before an item of the syllable. Three of them are looked at.
fn is_coeng(infos: &[hb_glyph_info_t], end: usize, coengs: u8, i: usize) -> bool
    requires { i < length infos.now }
    ensures { result ≡ Reordering.is_coeng end coengs i infos.now }
{
    has_category(&infos[i], COENG) && coengs <= 2 && i + 1 < end
}

/// Reorders at a place of a syllable.
fn move_at(
    masks: KhmerMasks,
    buffer: &mut hb_buffer_t,
    start: usize,
    end: usize,
    seen: Seen,
    i: usize,
)
    requires ordered { start ≤ i }
    requires inside { i < end }
    requires within { end ≤ length buffer.old.items }
    ensures made { buffer.new ≡ Reordering.moved_at masks start end seen i buffer.old }
    ensures len { length buffer.new.items ≡ length buffer.old.items }
    ensures limit { limit_of buffer.new ≡ limit_of buffer.old }
{
    let _count = buffer.len();
    if is_coeng(buffer.infos(), end, seen.coengs, i) {
        if has_category(&buffer.infos()[i + 1], RO) {
            move_pair(masks, buffer, start, end, seen, i);
        }
    } else if has_category(&buffer.infos()[i], VPRE) {
        bring_before(buffer, start, i);
    }
}

/// What is seen after a place of a syllable. COENG with RO counts as the second one.
fn seen_at(infos: &[hb_glyph_info_t], start: usize, end: usize, seen: Seen, i: usize) -> Seen
    requires ordered { start ≤ i }
    requires inside { i < end }
    requires within { end ≤ length infos.now }
    ensures { result ≡ Reordering.seen_in start end seen i infos.now }
{
    if !is_coeng(infos, end, seen.coengs, i) {
        return seen;
    }
    if has_category(&infos[i + 1], RO) {
        Seen {
            coengs: 2,
            waits: pair_follows(infos, end, i),
            from: from_of(seen, start, i),
        }
    } else {
        Seen {
            coengs: seen.coengs + 1,
            waits: false,
            from: seen.from,
        }
    }
}

/// Reorders at a place of a syllable, and returns what is seen after it.
fn step_at(
    masks: KhmerMasks,
    buffer: &mut hb_buffer_t,
    start: usize,
    end: usize,
    seen: Seen,
    i: usize,
) -> Seen
    requires ordered { start ≤ i }
    requires inside { i < end }
    requires within { end ≤ length buffer.old.items }
    ensures made { buffer.new ≡ Reordering.moved_at masks start end seen i buffer.old }
    ensures value { result ≡ Reordering.seen_in start end seen i buffer.old.items }
    ensures len { length buffer.new.items ≡ length buffer.old.items }
    ensures limit { limit_of buffer.new ≡ limit_of buffer.old }
{
    let after = seen_at(buffer.infos(), start, end, seen, i);
    move_at(masks, buffer, start, end, seen, i);
    after
}

/// Reorders the items of a syllable after its first one.
fn move_each(masks: KhmerMasks, buffer: &mut hb_buffer_t, start: usize, end: usize)
    requires ordered { start < end }
    requires within { end ≤ length buffer.old.items }
    ensures made { buffer.new ≡ Reordering.each_moved masks buffer.old start end }
    ensures len { length buffer.new.items ≡ length buffer.old.items }
    ensures limit { limit_of buffer.new ≡ limit_of buffer.old }
{
    let mut seen = Seen {
        coengs: 0,
        waits: false,
        from: 0,
    };
    for k in 0..end - start - 1 {
        seen = step_at(masks, buffer, start, end, seen, start + k + 1);
    }
}

/// Masks and reorders the syllable between two places.
fn reorder(masks: KhmerMasks, buffer: &mut hb_buffer_t, start: usize, end: usize)
    requires ordered { start < end }
    requires within { end ≤ length buffer.old.items }
    ensures made { buffer.new ≡ Reordering.reordered masks buffer.old start end }
    ensures len { length buffer.new.items ≡ length buffer.old.items }
    ensures limit { limit_of buffer.new ≡ limit_of buffer.old }
{
    if kind_of_byte(buffer.infos()[start]._hb_glyph_info_get_syllable()) <= BROKEN {
        add_masks(buffer, masks.after_base, start + 1, end);
        move_each(masks, buffer, start, end);
    }
}

/// Reorders the syllable that begins at a place.
fn reorder_at(masks: KhmerMasks, buffer: &mut hb_buffer_t, i: usize)
    requires { i < length buffer.old.items }
    ensures made { buffer.new ≡ Reordering.reordered_at masks i buffer.old }
    ensures len { length buffer.new.items ≡ length buffer.old.items }
    ensures limit { limit_of buffer.new ≡ limit_of buffer.old }
{
    if begins_at(buffer.infos(), i) {
        let end = end_of(buffer.infos(), i);
        if i < end {
            reorder(masks, buffer, i, end);
        }
    }
}

/// Reorders each syllable.
fn reorder_each(masks: KhmerMasks, buffer: &mut hb_buffer_t)
    ensures { Made (Reordering.each_reordered masks) buffer.old buffer.new }
{
    for i in 0..buffer.len() {
        reorder_at(masks, buffer, i);
    }
}

/// Puts dotted circles into broken syllables, and reorders each syllable.
pub fn reorder_all<F: hb_font_t>(
    alloc: Global,
    face: &F,
    masks: KhmerMasks,
    buffer: &mut hb_buffer_t,
) -> Result<(), ShapeError>
    requires { IsWithinLimit buffer.old }
    ensures { Outcome (step (Reordering.all_reordered (F.face face.now) masks)) buffer.old buffer.new result }
{
    let circled = Circled {
        kind: BROKEN,
        category: DOTTED_CIRCLE,
        repha: None,
    };
    insert_circles(alloc, face, circled, buffer)?;
    reorder_each(masks, buffer);
    Ok(())
}
