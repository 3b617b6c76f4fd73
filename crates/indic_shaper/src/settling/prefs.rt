//! Consonants that a lookup has made a form of that goes before the base.
ghost use Rattle.std.specs.Prelude.{◌≡◌, ◌<◌, ◌≤◌, ◌+◌, ◌-◌, length};
ghost use Rattle.std.specs.List.{suffix_len};
ghost use Rattle.shape_items.specs.Buffer.{limit_of};
ghost use Rattle.indic_shaper.specs.Settling.Prefs;

use crate::glyphs::{is_halant, is_joiner, is_ligature, is_matra_or_halant};
use crate::settling::base::asking_from;
use crate::settling::matras::has_half_forms;
use shape_buffer::buffer::{hb_buffer_t, hb_glyph_info_t, hb_mask_t};
use syllabic::moving::bring_before;

fn is_passed(info: &hb_glyph_info_t) -> bool
    ensures { result ≡ Prefs.is_passed info.now }
{
    !is_matra_or_halant(info)
}

fn count_passed(infos: &[hb_glyph_info_t]) -> usize
    ensures value { result ≡ suffix_len Prefs.is_passed infos.now }
    ensures within { result ≤ length infos.now }
{
    infos
        .iter()
        .rev()
        .take_while(|info| is_passed(info))
        .count()
}

/// After the last matra or Halant before the base.
fn after_signs(infos: &[hb_glyph_info_t], start: usize, base: usize) -> usize
    requires ordered { start ≤ base }
    requires within { base ≤ length infos.now }
    ensures value { result ≡ Prefs.after_signs infos.now start base }
    ensures from { start ≤ result }
    ensures to { result ≤ base }
{
    base - count_passed(&infos[start..base])
}

fn before_base(tag: u32, infos: &[hb_glyph_info_t], start: usize, base: usize) -> usize
    requires ordered { start ≤ base }
    requires within { base ≤ length infos.now }
    ensures value { result ≡ Prefs.before_base tag infos.now start base }
    ensures from { start ≤ result }
    ensures to { result ≤ base }
{
    if has_half_forms(tag) {
        after_signs(infos, start, base)
    } else {
        base
    }
}

fn follows_halant(infos: &[hb_glyph_info_t], start: usize, to: usize) -> bool
    requires { to ≤ length infos.now }
    ensures { result ≡ Prefs.follows_halant infos.now start to }
{
    start < to && is_halant(&infos[to - 1])
}

/// A place, or after the joiner there if a Halant stands before it.
fn past_joiner(infos: &[hb_glyph_info_t], start: usize, end: usize, to: usize) -> usize
    requires ordered { to < end }
    requires within { end ≤ length infos.now }
    ensures value { result ≡ Prefs.past_joiner infos.now start end to }
    ensures least { to ≤ result }
    ensures most { result ≤ to + 1 }
{
    if follows_halant(infos, start, to) && is_joiner(&infos[to]) {
        to + 1
    } else {
        to
    }
}

/// Where a consonant before the base goes.
fn place(tag: u32, infos: &[hb_glyph_info_t], start: usize, end: usize, base: usize) -> usize
    requires ordered { start ≤ base }
    requires before { base < end }
    requires within { end ≤ length infos.now }
    ensures value { result ≡ Prefs.place tag infos.now start end base }
    ensures most { result ≤ base + 1 }
{
    let to = before_base(tag, infos, start, base);
    past_joiner(infos, start, end, to)
}

/// Puts such a consonant before the base.
pub fn settle_pref(
    tag: u32,
    mask: hb_mask_t,
    buffer: &mut hb_buffer_t,
    start: usize,
    end: usize,
    base: usize,
)
    requires ordered { start ≤ base }
    requires within { end ≤ length buffer.old.items }
    ensures made { buffer.new ≡ Prefs.settled tag mask start end base buffer.old }
    ensures len { length buffer.new.items ≡ length buffer.old.items }
    ensures limit { limit_of buffer.new ≡ limit_of buffer.old }
{
    let _count = buffer.len();
    if end <= base {
        return;
    }
    let from = asking_from(mask, buffer.infos(), base + 1, end);
    if from < end && is_ligature(&buffer.infos()[from]) {
        let to = place(tag, buffer.infos(), start, end, base);
        bring_before(buffer, to, from);
    }
}
