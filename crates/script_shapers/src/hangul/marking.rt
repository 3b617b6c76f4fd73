//! Syllables of Hangul merged and marked where they stand, each with the tone mark after it.
ghost use Rattle.std.specs.Prelude.{◌≡◌, ◌<◌, ◌≤◌, length, drop, MatchOption};
ghost use Rattle.shape_items.specs.Buffer.{limit_of};
ghost use Rattle.script_shapers.specs.Hangul.{merged_syllable, joined_syllable, joined_tone};
ghost use Rattle.script_shapers.specs.Hangul.{with_tone, taken_at, joined_at};
ghost use Rattle.script_shapers.specs.Hangul.{joined_next, joined_to};

use crate::hangul::syllables::{
    Syllable, is_zero_width, marks_of, syllable_at, taken_of, tone_after, up_to,
};
use shape_buffer::buffer::{BufferClusterLevel, hb_buffer_t, hb_glyph_info_t};
use shape_buffer::interfaces::{hb_font_t, hb_unicode_funcs_t};

/// Merges a syllable where it stands.
fn merge_syllable(buffer: &mut hb_buffer_t, syllable: Syllable, i: usize, end: usize)
    requires ordered { i ≤ end }
    requires within { end ≤ length buffer.old.items }
    ensures made { buffer.new ≡ merged_syllable syllable i end buffer.old }
    ensures len { length buffer.new.items ≡ length buffer.old.items }
    ensures limit { limit_of buffer.new ≡ limit_of buffer.old }
{
    if let Syllable::Composed(_, _) = syllable {
        buffer.merge_clusters(i, end);
        return;
    }
    if buffer.cluster_level() == BufferClusterLevel::MonotoneGraphemes {
        buffer.merge_out_clusters(i, end);
    }
}

/// Marks and merges a syllable where it stands.
fn join_syllable(buffer: &mut hb_buffer_t, syllable: Syllable, i: usize, marked: usize, end: usize)
    requires marks { (i ≤ marked) × (marked ≤ length buffer.old.items) }
    requires taken { (i ≤ end) × (end ≤ length buffer.old.items) }
    ensures made { buffer.new ≡ joined_syllable syllable i marked end buffer.old }
    ensures len { length buffer.new.items ≡ length buffer.old.items }
    ensures limit { limit_of buffer.new ≡ limit_of buffer.old }
{
    buffer.unsafe_to_break(i, marked);
    merge_syllable(buffer, syllable, i, end);
}

/// Merges and marks a syllable and the tone mark after it.
fn join_tone(buffer: &mut hb_buffer_t, i: usize, end: usize, zero_width: bool)
    requires ordered { i ≤ end }
    requires within { end < length buffer.old.items }
    ensures made { buffer.new ≡ joined_tone i end zero_width buffer.old }
    ensures len { length buffer.new.items ≡ length buffer.old.items }
    ensures limit { limit_of buffer.new ≡ limit_of buffer.old }
{
    let _count = buffer.len();
    buffer.unsafe_to_break(i, end);
    if !zero_width {
        buffer.merge_out_clusters(i, end + 1);
    }
}

/// Marks and merges the tone mark after a syllable, if there is one.
fn join_tone_after<F: hb_font_t>(
    face: &F,
    buffer: &mut hb_buffer_t,
    tone: Option<hb_glyph_info_t>,
    i: usize,
    end: usize,
)
    requires ordered { i ≤ end }
    requires within { MatchOption tone (i ≡ i) (λ _. end < length buffer.old.items) }
    ensures made { buffer.new ≡ with_tone (F.face face.now) i end tone buffer.old }
    ensures len { length buffer.new.items ≡ length buffer.old.items }
    ensures limit { limit_of buffer.new ≡ limit_of buffer.old }
{
    if let Some(tone) = tone {
        join_tone(buffer, i, end, is_zero_width(face, tone.codepoint));
    }
}

/// Marks and merges what begins at a place, and says how many items it is of.
fn join_at<U: hb_unicode_funcs_t, F: hb_font_t>(
    face: &F,
    buffer: &mut hb_buffer_t,
    i: usize,
) -> usize
    requires { i < length buffer.old.items }
    ensures made { buffer.new ≡ joined_at U.unicode (F.face face.now) i buffer.old }
    ensures count { result ≡ taken_at U.unicode (F.face face.now) (drop i buffer.old.items) }
    ensures len { length buffer.new.items ≡ length buffer.old.items }
    ensures limit { limit_of buffer.new ≡ limit_of buffer.old }
{
    let rest = &buffer.infos()[i..];
    let syllable = syllable_at::<U, F>(face, rest);
    let taken = up_to(taken_of(syllable), rest);
    let marks = up_to(marks_of::<U>(syllable, rest), rest);
    let tone = tone_after(syllable, rest);
    join_syllable(buffer, syllable, i, i + marks, i + taken);
    join_tone_after(face, buffer, tone, i, i + taken);
    taken
}

/// Goes over a place: what begins there is marked and merged, unless it belongs to what began
/// before it. Says how many of the next items belong to what began before them.
fn join_next<U: hb_unicode_funcs_t, F: hb_font_t>(
    face: &F,
    buffer: &mut hb_buffer_t,
    i: usize,
    skip: usize,
) -> usize
    requires { i < length buffer.old.items }
    ensures made { (buffer.new, result) ≡ joined_next U.unicode (F.face face.now) i (buffer.old, skip) }
    ensures len { length buffer.new.items ≡ length buffer.old.items }
    ensures limit { limit_of buffer.new ≡ limit_of buffer.old }
{
    if skip != 0 {
        return skip - 1;
    }
    join_at::<U, F>(face, buffer, i).saturating_sub(1)
}

/// Marks and merges each syllable.
pub fn join_each<U: hb_unicode_funcs_t, F: hb_font_t>(face: &F, buffer: &mut hb_buffer_t)
    ensures made { buffer.new ≡ (joined_to U.unicode (F.face face.now) (length buffer.old.items) buffer.old).0 }
    ensures limit { limit_of buffer.new ≡ limit_of buffer.old }
{
    let mut skip = 0;
    for i in 0..buffer.len() {
        skip = join_next::<U, F>(face, buffer, i, skip);
    }
}
