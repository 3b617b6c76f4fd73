//! Matras before the base come as close to it as half forms let them.
ghost use Rattle.std.specs.Prelude.{◌≡◌, ◌<◌, ◌≤◌, ◌+◌, ◌-◌, length};
ghost use Rattle.std.specs.List.{prefix_len};
ghost use Rattle.shape_items.specs.Buffer.{limit_of};
ghost use Rattle.indic_shaper.specs.Settling.Matras;

use crate::categories::{CAT_ZWJ, POS_PRE_M};
use crate::config::{MALAYALAM, TAMIL};
use crate::glyphs::{category, is_halant, is_matra_or_halant, position};
use shape_buffer::buffer::{hb_buffer_t, hb_glyph_info_t};
use syllabic::moving::step_after;

/// A matra before the base.
fn is_before(info: &hb_glyph_info_t) -> bool
    ensures { result ≡ Matras.is_before info.now }
{
    position(info) == POS_PRE_M
}

/// Malayalam and Tamil have no half forms that a matra would stand after.
pub fn has_half_forms(tag: u32) -> bool
    ensures { result ≡ Matras.has_half_forms tag }
{
    tag != MALAYALAM && tag != TAMIL
}

/// A Halant that stands alone.
fn is_standing(info: &hb_glyph_info_t) -> bool
    ensures { result ≡ Matras.is_standing info.now }
{
    is_halant(info) && !is_before(info)
}

fn joiner_follows(infos: &[hb_glyph_info_t], end: usize, i: usize) -> bool
    requires within { end ≤ length infos.now }
    requires inside { i < length infos.now }
    ensures { result ≡ Matras.joiner_follows infos.now end i }
{
    i + 1 < end && category(&infos[i + 1]) == CAT_ZWJ
}

/// Whether no matra goes after an item, and the search for one goes on.
fn goes_on(infos: &[hb_glyph_info_t], end: usize, i: usize) -> bool
    requires within { end ≤ length infos.now }
    requires inside { i < length infos.now }
    ensures { result ≡ Matras.goes_on infos.now end i }
{
    !is_matra_or_halant(&infos[i]) || (is_standing(&infos[i]) && joiner_follows(infos, end, i))
}

/// Back from a place to the last item that the search ends at.
fn back_from(infos: &[hb_glyph_info_t], start: usize, end: usize, from: usize) -> usize
    requires ordered { start ≤ from }
    requires within { end ≤ length infos.now }
    requires inside { from < length infos.now }
    ensures value { result ≡ Matras.back_while (Matras.goes_on infos.now end) start from }
    ensures from { start ≤ result }
    ensures to { result ≤ from }
{
    let mut i = from;
    while start < i && goes_on(infos, end, i) {
        i -= 1;
    }
    i
}

/// The last Halant that stands alone, up to a place; `start` if there is none.
fn halant_before(infos: &[hb_glyph_info_t], start: usize, end: usize, from: usize) -> usize
    requires ordered { start ≤ from }
    requires within { end ≤ length infos.now }
    requires inside { from < length infos.now }
    ensures value { result ≡ Matras.halant_before infos.now start end from }
    ensures from { start ≤ result }
    ensures to { result ≤ from }
{
    let i = back_from(infos, start, end, from);
    if is_standing(&infos[i]) { i } else { start }
}

fn last_before(base: usize, end: usize) -> usize
    requires { 0 < base }
    ensures { result ≡ Matras.last_before base end }
{
    if base == end {
        base.saturating_sub(2)
    } else {
        base - 1
    }
}

/// The item that matras go after; they stay if it is the first one.
fn place(tag: u32, infos: &[hb_glyph_info_t], start: usize, end: usize, base: usize) -> usize
    requires room { start < base }
    requires two { start + 1 < end }
    requires to { base ≤ end }
    requires within { end ≤ length infos.now }
    ensures value { result ≡ Matras.place tag infos.now start end base }
    ensures from { start ≤ result }
    ensures before { result < base }
{
    let last = last_before(base, end);
    if has_half_forms(tag) {
        halant_before(infos, start, end, last)
    } else {
        last
    }
}

/// Moves the item at a place after those up to `to` if it is a matra, and returns where the next
/// one goes.
fn move_at(buffer: &mut hb_buffer_t, until: usize, i: usize, to: usize) -> usize
    requires ordered { i < to }
    requires before { to ≤ until }
    requires inside { to < length buffer.old.items }
    requires within { until ≤ length buffer.old.items }
    ensures made { buffer.new ≡ Matras.moved_at until i buffer.old to }
    ensures value { result ≡ Matras.to_after i buffer.old to }
    ensures least { to ≤ result + 1 }
    ensures most { result ≤ to }
    ensures len { length buffer.new.items ≡ length buffer.old.items }
    ensures limit { limit_of buffer.new ≡ limit_of buffer.old }
{
    if !is_before(&buffer.infos()[i]) {
        return to;
    }
    step_after(buffer, i, to);
    buffer.merge_clusters(to, until);
    to - 1
}

/// Moves matras after the item at a place, the last one first.
fn move_matras(buffer: &mut hb_buffer_t, start: usize, until: usize, to: usize)
    requires ordered { start ≤ to }
    requires before { to ≤ until }
    requires inside { to < length buffer.old.items }
    requires within { until ≤ length buffer.old.items }
    ensures made { buffer.new ≡ Matras.moved start until to buffer.old }
    ensures len { length buffer.new.items ≡ length buffer.old.items }
    ensures limit { limit_of buffer.new ≡ limit_of buffer.old }
{
    let mut place = to;
    for k in 0..to - start {
        place = move_at(buffer, until, to - k - 1, place);
    }
}

fn is_none(info: &hb_glyph_info_t) -> bool
    ensures { result ≡ Matras.is_none info.now }
{
    !is_before(info)
}

fn count_none(infos: &[hb_glyph_info_t]) -> usize
    ensures value { result ≡ prefix_len Matras.is_none infos.now }
    ensures within { result ≤ length infos.now }
{
    infos.iter().take_while(|info| is_none(info)).count()
}

/// Merges matras that stay with what is between them and the base.
fn merge_matras(buffer: &mut hb_buffer_t, start: usize, until: usize, base: usize)
    requires ordered { start ≤ base }
    requires before { base ≤ until }
    requires within { until ≤ length buffer.old.items }
    ensures made { buffer.new ≡ Matras.merged start until base buffer.old }
    ensures len { length buffer.new.items ≡ length buffer.old.items }
    ensures limit { limit_of buffer.new ≡ limit_of buffer.old }
{
    let i = start + count_none(&buffer.infos()[start..base]);
    if i < base {
        buffer.merge_clusters(i, until);
    }
}

/// Moves matras after the item at a place, or merges them where they stay.
fn put_matras(buffer: &mut hb_buffer_t, start: usize, base: usize, end: usize, to: usize)
    requires ordered { start ≤ base }
    requires end { base ≤ end }
    requires from { start ≤ to }
    requires before { to < base }
    requires within { end ≤ length buffer.old.items }
    ensures made { buffer.new ≡ Matras.put start base end to buffer.old }
    ensures len { length buffer.new.items ≡ length buffer.old.items }
    ensures limit { limit_of buffer.new ≡ limit_of buffer.old }
{
    let _count = buffer.len();
    let until = if base < end { base + 1 } else { end };
    if start < to && !is_before(&buffer.infos()[to]) {
        move_matras(buffer, start, until, to);
    } else {
        merge_matras(buffer, start, until, base);
    }
}

/// Puts matras before the base where they belong.
pub fn settle_matras(tag: u32, buffer: &mut hb_buffer_t, start: usize, end: usize, base: usize)
    requires ordered { start ≤ base }
    requires to { base ≤ end }
    requires within { end ≤ length buffer.old.items }
    ensures made { buffer.new ≡ Matras.settled tag start end base buffer.old }
    ensures len { length buffer.new.items ≡ length buffer.old.items }
    ensures limit { limit_of buffer.new ≡ limit_of buffer.old }
{
    let _count = buffer.len();
    if start < base && start + 1 < end {
        let to = place(tag, buffer.infos(), start, end, base);
        put_matras(buffer, start, base, end, to);
    }
}
