//! Vowels before the base. A sorted syllable begins with them, each followed by its selectors, and
//! the last one is drawn first: all of them are reversed, and then each group, so that selectors
//! follow their vowel again.
ghost use Rattle.std.specs.Prelude.{◌≡◌, ◌<◌, ◌≤◌, ◌+◌, length};
ghost use Rattle.std.specs.List.{prefix_len};
ghost use Rattle.shape_items.specs.Buffer.{limit_of};
ghost use Rattle.myanmar_shaper.specs.Turning;

use crate::places::PRE_VOWEL;
use shape_buffer::buffer::{hb_buffer_t, hb_glyph_info_t};
use syllabic::moving::reverse;
use syllables::categories::indic::VPRE;

fn is_pre_vowel(info: &hb_glyph_info_t) -> bool
    ensures { result ≡ Turning.is_pre_vowel info.now }
{
    info._hb_glyph_info_get_shaper_auxiliary() == PRE_VOWEL
}

/// How many vowels before the base, with their selectors, a sorted syllable begins with.
fn count_pre_vowels(infos: &[hb_glyph_info_t]) -> usize
    ensures value { result ≡ prefix_len Turning.is_pre_vowel infos.now }
    ensures within { result ≤ length infos.now }
{
    infos.iter().take_while(|info| is_pre_vowel(info)).count()
}

/// Reverses the group that the item `k` ends, if it is a vowel: the items are reversed by then, so
/// selectors stand before it. Returns where the group of the next item begins.
fn turn_at(buffer: &mut hb_buffer_t, start: usize, from: usize, k: usize) -> usize
    requires ordered { from ≤ k }
    requires within { start + k < length buffer.old.items }
    ensures made { buffer.new ≡ Turning.turned_at start from k buffer.old }
    ensures value { result ≡ Turning.from_after start from k buffer.old }
    ensures before { result ≤ k + 1 }
    ensures len { length buffer.new.items ≡ length buffer.old.items }
    ensures limit { limit_of buffer.new ≡ limit_of buffer.old }
{
    let _count = buffer.len();
    if buffer.infos()[start + k]._hb_glyph_info_get_shaper_category() == VPRE {
        reverse(buffer, start + from, start + k + 1);
        k + 1
    } else {
        from
    }
}

/// Reverses each group of a vowel and its selectors.
fn turn_groups(buffer: &mut hb_buffer_t, start: usize, count: usize)
    requires { start + count ≤ length buffer.old.items }
    ensures made { buffer.new ≡ Turning.groups_turned start count buffer.old }
    ensures len { length buffer.new.items ≡ length buffer.old.items }
    ensures limit { limit_of buffer.new ≡ limit_of buffer.old }
{
    let mut from = 0;
    for k in 0..count {
        from = turn_at(buffer, start, from, k);
    }
}

/// Turns round the vowels before the base that a sorted syllable begins with. They are in one
/// cluster by then, since each has moved before the base; merging them says so.
pub fn turn_vowels(buffer: &mut hb_buffer_t, start: usize, end: usize)
    requires ordered { start ≤ end }
    requires within { end ≤ length buffer.old.items }
    ensures made { buffer.new ≡ Turning.vowels_turned buffer.old start end }
    ensures len { length buffer.new.items ≡ length buffer.old.items }
    ensures limit { limit_of buffer.new ≡ limit_of buffer.old }
{
    let _count = buffer.len();
    let count = count_pre_vowels(&buffer.infos()[start..end]);
    if 1 < count {
        buffer.merge_clusters(start, start + count);
        reverse(buffer, start, start + count);
        turn_groups(buffer, start, count);
    }
}
