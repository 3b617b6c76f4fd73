//! A reph goes where its script wants it.
ghost use Rattle.std.specs.Prelude.{◌≡◌, ◌<◌, ◌≤◌, ◌+◌, ◌-◌, length};
ghost use Rattle.std.specs.List.{prefix_len, suffix_len};
ghost use Rattle.shape_items.specs.Buffer.{limit_of};
ghost use Rattle.indic_shaper.specs.Settling.Rephs;

use crate::categories::{
    CAT_REPHA, POS_AFTER_MAIN, POS_AFTER_POST, POS_AFTER_SUB, POS_POST_C, POS_RA_TO_BECOME_REPH,
    POS_SMVD,
};
use crate::glyphs::{category, is_halant, is_joiner, is_ligature, is_matra, position};
use shape_buffer::buffer::{hb_buffer_t, hb_glyph_info_t};
use syllabic::moving::send_after;

/// A reph that the font has made of Ra and Halant, or one that is written as such and joined to
/// nothing.
fn is_reph(info: &hb_glyph_info_t) -> bool
    ensures { result ≡ Rephs.is_reph info.now }
{
    if position(info) != POS_RA_TO_BECOME_REPH {
        return false;
    }
    if category(info) == CAT_REPHA {
        !is_ligature(info)
    } else {
        is_ligature(info)
    }
}

fn begins_with_reph(infos: &[hb_glyph_info_t], start: usize, end: usize) -> bool
    requires { end ≤ length infos.now }
    ensures { result ≡ Rephs.begins_with_reph infos.now start end }
{
    start < end && start + 1 < end && is_reph(&infos[start])
}

fn is_no_halant(info: &hb_glyph_info_t) -> bool
    ensures { result ≡ Rephs.is_no_halant info.now }
{
    !is_halant(info)
}

fn count_no_halant(infos: &[hb_glyph_info_t]) -> usize
    ensures value { result ≡ prefix_len Rephs.is_no_halant infos.now }
    ensures within { result ≤ length infos.now }
{
    infos.iter().take_while(|info| is_no_halant(info)).count()
}

/// The first Halant between the beginning and the base; the base if there is none.
fn first_halant(infos: &[hb_glyph_info_t], start: usize, base: usize) -> usize
    requires ordered { start ≤ base }
    requires within { base ≤ length infos.now }
    ensures value { result ≡ Rephs.first_halant infos.now start base }
    ensures from { start ≤ result }
    ensures to { result ≤ base }
{
    if start < base {
        start + 1 + count_no_halant(&infos[start + 1..base])
    } else {
        base
    }
}

/// A Halant, or the joiner after it.
fn after_joiner(infos: &[hb_glyph_info_t], halant: usize, base: usize) -> usize
    requires before { halant < base }
    requires within { base ≤ length infos.now }
    ensures value { result ≡ Rephs.after_joiner infos.now halant base }
    ensures from { halant ≤ result }
    ensures to { result < base }
{
    if halant + 1 < base && is_joiner(&infos[halant + 1]) {
        halant + 1
    } else {
        halant
    }
}

fn is_of_main(info: &hb_glyph_info_t) -> bool
    ensures { result ≡ Rephs.is_of_main info.now }
{
    position(info) <= POS_AFTER_MAIN
}

fn count_of_main(infos: &[hb_glyph_info_t]) -> usize
    ensures value { result ≡ prefix_len Rephs.is_of_main infos.now }
    ensures within { result ≤ length infos.now }
{
    infos.iter().take_while(|info| is_of_main(info)).count()
}

/// The last item that belongs to the main consonant.
fn after_main(infos: &[hb_glyph_info_t], base: usize, end: usize) -> usize
    requires ordered { base < end }
    requires within { end ≤ length infos.now }
    ensures value { result ≡ Rephs.after_main infos.now base end }
    ensures from { base ≤ result }
    ensures to { result < end }
{
    base + count_of_main(&infos[base + 1..end])
}

fn is_of_sub(info: &hb_glyph_info_t) -> bool
    ensures { result ≡ Rephs.is_of_sub info.now }
{
    !matches!(position(info), POS_POST_C | POS_AFTER_POST | POS_SMVD)
}

fn count_of_sub(infos: &[hb_glyph_info_t]) -> usize
    ensures value { result ≡ prefix_len Rephs.is_of_sub infos.now }
    ensures within { result ≤ length infos.now }
{
    infos.iter().take_while(|info| is_of_sub(info)).count()
}

/// The last item before what stands after the base, and before signs that stand last.
fn after_sub(infos: &[hb_glyph_info_t], base: usize, end: usize) -> usize
    requires ordered { base < end }
    requires within { end ≤ length infos.now }
    ensures value { result ≡ Rephs.after_sub infos.now base end }
    ensures from { base ≤ result }
    ensures to { result < end }
{
    base + count_of_sub(&infos[base + 1..end])
}

fn is_last(info: &hb_glyph_info_t) -> bool
    ensures { result ≡ Rephs.is_last info.now }
{
    position(info) == POS_SMVD
}

fn count_last(infos: &[hb_glyph_info_t]) -> usize
    ensures value { result ≡ suffix_len Rephs.is_last infos.now }
    ensures within { result ≤ length infos.now }
{
    infos.iter().rev().take_while(|info| is_last(info)).count()
}

/// The end of a syllable, before signs that stand last.
fn before_last(infos: &[hb_glyph_info_t], start: usize, end: usize) -> usize
    requires ordered { start < end }
    requires within { end ≤ length infos.now }
    ensures value { result ≡ Rephs.before_last infos.now start end }
    ensures from { start ≤ result }
    ensures to { result < end }
{
    end - 1 - count_last(&infos[start + 1..end])
}

/// One place back if a matra stands before a place.
fn before_matra(infos: &[hb_glyph_info_t], i: usize, to: usize) -> usize
    requires { to ≤ length infos.now }
    ensures value { result ≡ Rephs.before_matra infos.now i to }
    ensures most { result ≤ to }
    ensures least { i ≤ to → i ≤ result }
{
    if i < to && is_matra(&infos[i]) {
        to - 1
    } else {
        to
    }
}

/// As many places back as matras stand between the base and a Halant.
fn before_matras(infos: &[hb_glyph_info_t], base: usize, to: usize) -> usize
    requires { to < length infos.now }
    ensures value { result ≡ Rephs.before_matras infos.now base to (to - (base + 1)) }
    ensures most { result ≤ to }
    ensures least { base ≤ to → base ≤ result }
{
    if to <= base {
        return to;
    }
    let mut place = to;
    for k in 0..to - (base + 1) {
        place = before_matra(infos, base + 1 + k, place);
    }
    place
}

/// The end of a syllable, before signs that stand last and the Halant of a matra.
fn last_place(infos: &[hb_glyph_info_t], start: usize, end: usize, base: usize) -> usize
    requires ordered { start < end }
    requires from { start ≤ base }
    requires within { end ≤ length infos.now }
    ensures value { result ≡ Rephs.last_place infos.now start end base }
    ensures from { start ≤ result }
    ensures to { result < end }
{
    let to = before_last(infos, start, end);
    if is_halant(&infos[to]) {
        before_matras(infos, base, to)
    } else {
        to
    }
}

/// Where a reph goes if no Halant stands before the base.
fn after_base(reph: u8, infos: &[hb_glyph_info_t], start: usize, end: usize, base: usize) -> usize
    requires ordered { start < end }
    requires from { start ≤ base }
    requires within { end ≤ length infos.now }
    ensures value { result ≡ Rephs.after_base reph infos.now start end base }
    ensures from { start ≤ result }
    ensures to { result < end }
{
    if base < end && reph == POS_AFTER_MAIN {
        after_main(infos, base, end)
    } else if base < end && reph == POS_AFTER_SUB {
        after_sub(infos, base, end)
    } else {
        last_place(infos, start, end, base)
    }
}

/// Where a reph goes.
fn place(reph: u8, infos: &[hb_glyph_info_t], start: usize, end: usize, base: usize) -> usize
    requires ordered { start < end }
    requires from { start ≤ base }
    requires to { base ≤ end }
    requires within { end ≤ length infos.now }
    ensures value { result ≡ Rephs.place reph infos.now start end base }
    ensures from { start ≤ result }
    ensures to { result < end }
{
    let halant = first_halant(infos, start, base);
    if halant < base {
        after_joiner(infos, halant, base)
    } else {
        after_base(reph, infos, start, end, base)
    }
}

/// Puts a reph where its script wants it, and returns where the base is then.
pub fn settle_reph(
    reph: u8,
    buffer: &mut hb_buffer_t,
    start: usize,
    end: usize,
    base: usize,
) -> usize
    requires ordered { start ≤ base }
    requires to { base ≤ end }
    requires within { end ≤ length buffer.old.items }
    ensures made { buffer.new ≡ Rephs.settled reph start end base buffer.old }
    ensures value { result ≡ Rephs.base_after reph buffer.old.items start end base }
    ensures from { start ≤ result }
    ensures most { result ≤ base }
    ensures len { length buffer.new.items ≡ length buffer.old.items }
    ensures limit { limit_of buffer.new ≡ limit_of buffer.old }
{
    let _count = buffer.len();
    if !begins_with_reph(buffer.infos(), start, end) {
        return base;
    }
    let to = place(reph, buffer.infos(), start, end, base);
    send_after(buffer, start, to);
    if start < base && base <= to {
        base - 1
    } else {
        base
    }
}
