//! How far the ligatures that are tried at a place look in vain, as lookups of `GSUB` do.
//!
//! A text may not be put together of parts that were shaped apart where a ligature was looked for
//! across the parts' edge. So what a search looked at is marked unsafe to concat, if the buffer
//! asks for that.
ghost use Rattle.std.specs.Prelude.{◌≡◌, ◌<◌, ◌≤◌, length};
ghost use Rattle.std.specs.List.{prefix_len};
ghost use Rattle.shape_items.specs.Buffer.{limit_of};
ghost use Rattle.arabic_fallback.specs.Vain;

use crate::ligatures::{LigatureGlyphs, component_at, found_by, found_in};
use crate::seeking::{Rule, has_mask, is_skipped, passes, place_from, stop_from};
use bitflags::Flags;
use shape_buffer::buffer::{BufferFlags, hb_buffer_t, hb_glyph_info_t};

/// How far ligatures looked in vain, up to the first whose components were found.
#[derive(Clone, Copy, PartialEq, Eq, Debug)]
pub struct Tried {
    pub end: usize,
    pub matched: bool,
}

/// Where the search for a component after a place ended in vain.
fn component_stop(rule: Rule, glyph: u32, infos: &[hb_glyph_info_t], after: usize) -> usize
    requires { after < length infos.now }
    ensures { result ≡ Vain.component_stop rule glyph infos.now after }
{
    if place_from(rule, glyph, infos, after + 1).is_some() {
        return 0;
    }
    stop_from(rule, glyph, infos, after + 1)
}

/// The same for a component that may be there.
fn component_end(
    rule: Rule,
    glyph: u32,
    infos: &[hb_glyph_info_t],
    at: usize,
    after: usize,
) -> usize
    requires first { at < length infos.now }
    requires within { after < length infos.now }
    ensures { result ≡ Vain.component_end rule glyph infos.now at after }
{
    if component_at(rule, glyph, infos, at, after).is_some() {
        return 0;
    }
    component_stop(rule, glyph, infos, after)
}

/// The same for a third component.
fn third_end(
    rule: Rule,
    row: &LigatureGlyphs,
    infos: &[hb_glyph_info_t],
    at: usize,
    second: usize,
) -> usize
    requires first { at < length infos.now }
    requires within { second < length infos.now }
    ensures { result ≡ Vain.third_end rule row.now infos.now at second }
{
    match row.components.third {
        Some(glyph) => component_end(rule, glyph, infos, at, second),
        None => 0,
    }
}

/// The same for the components of a ligature.
fn row_end(rule: Rule, row: &LigatureGlyphs, infos: &[hb_glyph_info_t], at: usize) -> usize
    requires { at < length infos.now }
    ensures { result ≡ Vain.row_end rule row.now infos.now at }
{
    if infos[at].glyph_id != row.components.first {
        return 0;
    }
    match component_at(rule, row.components.second, infos, at, at) {
        Some(second) => third_end(rule, row, infos, at, second),
        None => component_stop(rule, row.components.second, infos, at),
    }
}

/// Whether a ligature has another second component than `only`.
fn is_left_out(only: Option<u32>, row: &LigatureGlyphs) -> bool
    ensures { result ≡ Vain.is_left_out only row.now }
{
    match only {
        Some(glyph) => row.components.second != glyph,
        None => false,
    }
}

/// Tries one ligature more.
fn with_row(
    rule: Rule,
    only: Option<u32>,
    infos: &[hb_glyph_info_t],
    at: usize,
    tried: Tried,
    row: &LigatureGlyphs,
) -> Tried
    requires { at < length infos.now }
    ensures { result ≡ Vain.with_row rule only infos.now at tried row.now }
{
    if tried.matched || is_left_out(only, row) {
        return tried;
    }
    Tried {
        end: tried.end.max(row_end(rule, row, infos, at)),
        matched: found_by(rule, row, infos, at).is_some(),
    }
}

/// How far ligatures look in vain.
fn rows_end(
    rule: Rule,
    only: Option<u32>,
    rows: &[LigatureGlyphs],
    infos: &[hb_glyph_info_t],
    at: usize,
) -> usize
    requires { at < length infos.now }
    ensures { result ≡ Vain.rows_end rule only rows.now infos.now at }
{
    let mut tried = Tried {
        end: 0,
        matched: false,
    };
    for row in rows {
        tried = with_row(rule, only, infos, at, tried, row);
    }
    tried.end
}

/// How many ligatures begin with a glyph.
pub fn count_of(rows: &[LigatureGlyphs], glyph: u32) -> usize
    ensures value { result ≡ Vain.count_of rows.now glyph }
    ensures few { result ≤ length rows.now }
{
    let mut count = 0;
    for row in rows {
        if row.components.first == glyph {
            count += 1;
        }
    }
    count
}

fn is_unseen(rule: Rule, info: &hb_glyph_info_t) -> bool
    ensures { result ≡ Vain.is_unseen rule info.now }
{
    is_skipped(rule, info) || (passes(info) && !has_mask(rule, info))
}

/// How many glyphs at the beginning of a list the lookup doesn't see.
fn count_unseen(rule: Rule, rest: &[hb_glyph_info_t]) -> usize
    ensures value { result ≡ prefix_len (Vain.is_unseen rule) rest.now }
    ensures within { result ≤ length rest.now }
{
    rest.iter().take_while(|info| is_unseen(rule, info)).count()
}

/// The first glyph of a list that the lookup sees, unless it may be passed over.
fn seen_glyph(rule: Rule, rest: &[hb_glyph_info_t]) -> Option<u32>
    ensures { result ≡ Vain.seen_glyph rule rest.now }
{
    let unseen = count_unseen(rule, rest);
    if unseen < rest.len() && has_mask(rule, &rest[unseen]) && !passes(&rest[unseen]) {
        Some(rest[unseen].glyph_id)
    } else {
        None
    }
}

/// The second component that alone counts, if one does.
fn only_of(rule: Rule, rows: &[LigatureGlyphs], infos: &[hb_glyph_info_t], at: usize) -> Option<u32>
    requires { at < length infos.now }
    ensures { result ≡ Vain.only_of rule rows.now infos.now at }
{
    if 4 < count_of(rows, infos[at].glyph_id) && found_in(rule, rows, infos, at).is_some() {
        seen_glyph(rule, &infos[at + 1..])
    } else {
        None
    }
}

/// How far the ligatures that are tried at a place look in vain.
fn vain_end(rule: Rule, rows: &[LigatureGlyphs], infos: &[hb_glyph_info_t], at: usize) -> usize
    requires { at < length infos.now }
    ensures { result ≡ Vain.vain_end rule rows.now infos.now at }
{
    let only = only_of(rule, rows, infos, at);
    rows_end(rule, only, rows, infos, at)
}

/// Marks a span unsafe to concat, if the buffer asks for that.
fn mark_concat(buffer: &mut hb_buffer_t, at: usize, end: usize)
    ensures made { buffer.new ≡ Vain.concat_marked at end buffer.old }
    ensures as_many { length buffer.new.items ≡ length buffer.old.items }
    ensures limit { limit_of buffer.new ≡ limit_of buffer.old }
{
    if at < end && end <= buffer.len() {
        buffer.unsafe_to_concat(at, end);
    }
}

/// Whether the buffer asks for marks of what is unsafe to concat.
fn asks_concat(buffer: &hb_buffer_t) -> bool
    ensures { result ≡ Vain.asks_concat buffer.now }
{
    buffer
        .flags()
        .contains(BufferFlags::PRODUCE_UNSAFE_TO_CONCAT)
}

/// Marks what ligatures look at in vain from a place on. They are sought again only if the buffer
/// asks for that.
pub fn mark_vain(buffer: &mut hb_buffer_t, rule: Rule, rows: &[LigatureGlyphs], at: usize)
    requires { at < length buffer.old.items }
    ensures made { buffer.new ≡ Vain.vain_marked rule rows.now at buffer.old }
    ensures as_many { length buffer.new.items ≡ length buffer.old.items }
    ensures limit { limit_of buffer.new ≡ limit_of buffer.old }
{
    if !asks_concat(buffer) {
        return;
    }
    let end = vain_end(rule, rows, buffer.infos(), at);
    mark_concat(buffer, at, end);
}
