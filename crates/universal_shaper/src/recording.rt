//! What lookups have made is noted as a category: a sign for a repha, and a form before the base.
ghost use Rattle.std.specs.Prelude.{◌≡◌, ◌<◌, ◌≤◌, ◌+◌, ◌-◌, length};
ghost use Rattle.shape_items.specs.Buffer.{limit_of};
ghost use Rattle.shape_buffer.specs.Outcome.{Made};
ghost use Rattle.universal_shaper.specs.Recording;

use shape_buffer::buffer::{hb_buffer_t, hb_glyph_info_t, hb_mask_t};
use shape_buffer::walks::update_items;
use syllabic::walking::{begins_at, end_of};
use syllables::categories::universal::{R, VPRE};

fn without_substitution(info: &hb_glyph_info_t) -> hb_glyph_info_t
    ensures { result ≡ Recording.without_substitution info.now }
{
    let mut info = *info;
    info._hb_glyph_info_set_substituted(false);
    info
}

/// Forgets which glyphs lookups have made.
pub fn clear_substitutions(buffer: &mut hb_buffer_t)
    ensures { Made Recording.substitutions_cleared buffer.old buffer.new }
{
    update_items(buffer, |info| without_substitution(info));
}

/// Gives the item at a place a category.
fn set_category(buffer: &mut hb_buffer_t, i: usize, category: u8)
    requires { i < length buffer.old.items }
    ensures made { buffer.new ≡ Recording.category_set category i buffer.old }
    ensures len { length buffer.new.items ≡ length buffer.old.items }
    ensures limit { limit_of buffer.new ≡ limit_of buffer.old }
{
    let mut info = buffer.infos()[i];
    info._hb_glyph_info_set_shaper_category(category);
    buffer.set_info(i, info);
}

fn has_mask(mask: hb_mask_t, info: &hb_glyph_info_t) -> bool
    ensures { result ≡ Recording.has_mask mask info.now }
{
    info.mask & mask != 0
}

fn may_follow(mask: hb_mask_t, info: &hb_glyph_info_t) -> bool
    ensures { result ≡ Recording.may_follow mask info.now }
{
    has_mask(mask, info) && !info._hb_glyph_info_get_substituted()
}

/// How many masked items that no lookup has made a list begins with.
fn count_before(mask: hb_mask_t, infos: &[hb_glyph_info_t]) -> usize
    ensures value { result ≡ Recording.count_before mask infos.now }
    ensures within { result ≤ length infos.now }
{
    infos
        .iter()
        .take_while(|info| may_follow(mask, info))
        .count()
}

/// The first masked item between two places that a lookup has made, if only masked ones stand
/// before it, is a sign for a repha.
fn record_repha(mask: hb_mask_t, buffer: &mut hb_buffer_t, start: usize, end: usize)
    requires ordered { start ≤ end }
    requires within { end ≤ length buffer.old.items }
    ensures made { buffer.new ≡ Recording.repha_recorded mask buffer.old start end }
    ensures len { length buffer.new.items ≡ length buffer.old.items }
    ensures limit { limit_of buffer.new ≡ limit_of buffer.old }
{
    let i = start + count_before(mask, &buffer.infos()[start..end]);
    if i < end && has_mask(mask, &buffer.infos()[i]) {
        set_category(buffer, i, R);
    }
}

fn record_repha_at(mask: hb_mask_t, buffer: &mut hb_buffer_t, i: usize)
    requires { i < length buffer.old.items }
    ensures made { buffer.new ≡ Recording.repha_recorded_at mask i buffer.old }
    ensures len { length buffer.new.items ≡ length buffer.old.items }
    ensures limit { limit_of buffer.new ≡ limit_of buffer.old }
{
    if begins_at(buffer.infos(), i) {
        let end = end_of(buffer.infos(), i);
        record_repha(mask, buffer, i, end);
    }
}

/// Notes the repha of each syllable.
pub fn record_rephas(mask: hb_mask_t, buffer: &mut hb_buffer_t)
    ensures { Made (Recording.rephas_recorded mask) buffer.old buffer.new }
{
    for i in 0..buffer.len() {
        record_repha_at(mask, buffer, i);
    }
}

fn is_own(info: &hb_glyph_info_t) -> bool
    ensures { result ≡ Recording.is_own info.now }
{
    !info._hb_glyph_info_get_substituted()
}

/// How many items that no lookup has made a list begins with.
fn count_own(infos: &[hb_glyph_info_t]) -> usize
    ensures value { result ≡ Recording.count_own infos.now }
    ensures within { result ≤ length infos.now }
{
    infos.iter().take_while(|info| is_own(info)).count()
}

/// The first item between two places that a lookup has made is a vowel before the base.
fn record_prebase(buffer: &mut hb_buffer_t, start: usize, end: usize)
    requires ordered { start ≤ end }
    requires within { end ≤ length buffer.old.items }
    ensures made { buffer.new ≡ Recording.prebase_recorded buffer.old start end }
    ensures len { length buffer.new.items ≡ length buffer.old.items }
    ensures limit { limit_of buffer.new ≡ limit_of buffer.old }
{
    let i = start + count_own(&buffer.infos()[start..end]);
    if i < end {
        set_category(buffer, i, VPRE);
    }
}

fn record_prebase_at(buffer: &mut hb_buffer_t, i: usize)
    requires { i < length buffer.old.items }
    ensures made { buffer.new ≡ Recording.prebase_recorded_at i buffer.old }
    ensures len { length buffer.new.items ≡ length buffer.old.items }
    ensures limit { limit_of buffer.new ≡ limit_of buffer.old }
{
    if begins_at(buffer.infos(), i) {
        let end = end_of(buffer.infos(), i);
        record_prebase(buffer, i, end);
    }
}

/// Notes the form before the base of each syllable.
pub fn record_prebases(buffer: &mut hb_buffer_t)
    ensures { Made Recording.prebases_recorded buffer.old buffer.new }
{
    for i in 0..buffer.len() {
        record_prebase_at(buffer, i);
    }
}
