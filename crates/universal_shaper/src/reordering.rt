//! The order of a syllable: a sign for a repha goes behind the base, and vowels before the base go
//! to the front.
ghost use Rattle.std.specs.Prelude.{◌≡◌, ◌<◌, ◌≤◌, ◌+◌, ◌-◌, length};
ghost use Rattle.shape_items.specs.Buffer.{limit_of};
ghost use Rattle.shape_buffer.specs.Outcome.{IsWithinLimit, Made, Outcome, step};
ghost use Rattle.universal_shaper.specs.Reordering;

use shape_buffer::buffer::{ShapeError, hb_buffer_t, hb_glyph_info_t};
use shape_buffer::interfaces::hb_font_t;
use std::alloc::Global;
use syllabic::circles::{Circled, insert_circles};
use syllabic::moving::{bring_run_before, send_after};
use syllabic::walking::{begins_at, end_of, kind_of_byte};
use syllables::categories::universal::{
    B, FMABV, FMPST, H, HVM, IS, MPRE, R, VABV, VMPRE, VMPST, VPRE,
};
use syllables::universal::{BROKEN, SAKOT_TERMINATED, STANDARD, SYMBOL, VIRAMA_TERMINATED};

/// A halant by itself.
fn is_halant(info: &hb_glyph_info_t) -> bool
    ensures { result ≡ Reordering.is_halant info.now }
{
    !info._hb_glyph_info_get_ligated()
        && matches!(info._hb_glyph_info_get_shaper_category(), H | HVM | IS)
}

/// Whether a category is one of those that stand after the base: vowels and their modifiers,
/// finals, medials.
fn follows_base(category: u8) -> bool
    ensures { result ≡ Reordering.follows_base category }
{
    matches!(category, VPRE..=MPRE | VABV..=VMPST | FMABV..=FMPST)
}

fn is_before(info: &hb_glyph_info_t) -> bool
    ensures { result ≡ Reordering.is_before info.now }
{
    !follows_base(info._hb_glyph_info_get_shaper_category()) && !is_halant(info)
}

/// How many items a list begins with that neither follow the base nor are halants.
fn count_base(infos: &[hb_glyph_info_t]) -> usize
    ensures value { result ≡ Reordering.count_base infos.now }
    ensures within { result ≤ length infos.now }
{
    infos.iter().take_while(|info| is_before(info)).count()
}

/// Moves a sign for a repha that a syllable begins with after its base.
fn move_repha(buffer: &mut hb_buffer_t, start: usize, end: usize)
    requires ordered { start < end }
    requires within { end ≤ length buffer.old.items }
    ensures made { buffer.new ≡ Reordering.repha_moved buffer.old start end }
    ensures len { length buffer.new.items ≡ length buffer.old.items }
    ensures limit { limit_of buffer.new ≡ limit_of buffer.old }
{
    if buffer.infos()[start]._hb_glyph_info_get_shaper_category() == R {
        let count = count_base(&buffer.infos()[start + 1..end]);
        send_after(buffer, start, start + count);
    }
}

/// A vowel or a modifier before the base, and of the glyphs that one lookup has made of it the
/// first one.
fn goes_first(info: &hb_glyph_info_t) -> bool
    ensures { result ≡ Reordering.goes_first info.now }
{
    let category = info._hb_glyph_info_get_shaper_category();
    (category == VPRE || category == VMPRE) && info._hb_glyph_info_get_ligature_component() == 0
}

/// How many items that go first a list ends with.
fn count_first(infos: &[hb_glyph_info_t]) -> usize
    ensures value { result ≡ Reordering.count_first infos.now }
    ensures within { result ≤ length infos.now }
{
    infos
        .iter()
        .rev()
        .take_while(|info| goes_first(info))
        .count()
}

/// Whether the item at a place goes first, and the next one of its syllable doesn't.
fn ends_run(infos: &[hb_glyph_info_t], end: usize, i: usize) -> bool
    requires inside { i < end }
    requires within { end ≤ length infos.now }
    ensures { result ≡ Reordering.ends_run end i infos.now }
{
    goes_first(&infos[i]) && !(i + 1 < end && goes_first(&infos[i + 1]))
}

/// Moves those that go first to the front if the item at a place is the last of them, and returns
/// where the front is for the next one: after a halant. Those of one run move together, so that a
/// long run takes time in step with its length.
fn move_at(buffer: &mut hb_buffer_t, front: usize, end: usize, i: usize) -> usize
    requires inside { i < end }
    requires within { end ≤ length buffer.old.items }
    ensures made { buffer.new ≡ Reordering.moved_at end front i buffer.old }
    ensures value { result ≡ Reordering.front_at front i buffer.old }
    ensures len { length buffer.new.items ≡ length buffer.old.items }
    ensures limit { limit_of buffer.new ≡ limit_of buffer.old }
{
    let _count = buffer.len();
    if is_halant(&buffer.infos()[i]) {
        return i + 1;
    }
    if front < i && ends_run(buffer.infos(), end, i) {
        let count = count_first(&buffer.infos()[front..i + 1]);
        bring_run_before(buffer, front, i + 1 - count, i + 1);
    }
    front
}

/// Moves those that go to the front.
fn move_first(buffer: &mut hb_buffer_t, start: usize, end: usize)
    requires ordered { start ≤ end }
    requires within { end ≤ length buffer.old.items }
    ensures made { buffer.new ≡ Reordering.first_moved buffer.old start end }
    ensures len { length buffer.new.items ≡ length buffer.old.items }
    ensures limit { limit_of buffer.new ≡ limit_of buffer.old }
{
    let mut front = start;
    for k in 0..end - start {
        front = move_at(buffer, front, end, start + k);
    }
}

/// Whether syllables of a kind are reordered: those with a base, symbols and broken ones.
fn is_reordered(byte: u8) -> bool
    ensures { result ≡ Reordering.is_reordered byte }
{
    matches!(
        kind_of_byte(byte),
        VIRAMA_TERMINATED | SAKOT_TERMINATED | STANDARD | SYMBOL | BROKEN
    )
}

/// Reorders the syllable between two places.
fn reorder(buffer: &mut hb_buffer_t, start: usize, end: usize)
    requires ordered { start < end }
    requires within { end ≤ length buffer.old.items }
    ensures made { buffer.new ≡ Reordering.reordered buffer.old start end }
    ensures len { length buffer.new.items ≡ length buffer.old.items }
    ensures limit { limit_of buffer.new ≡ limit_of buffer.old }
{
    if is_reordered(buffer.infos()[start]._hb_glyph_info_get_syllable()) {
        move_repha(buffer, start, end);
        move_first(buffer, start, end);
    }
}

/// Reorders the syllable that begins at a place.
fn reorder_at(buffer: &mut hb_buffer_t, i: usize)
    requires { i < length buffer.old.items }
    ensures made { buffer.new ≡ Reordering.reordered_at i buffer.old }
    ensures len { length buffer.new.items ≡ length buffer.old.items }
    ensures limit { limit_of buffer.new ≡ limit_of buffer.old }
{
    if begins_at(buffer.infos(), i) {
        let end = end_of(buffer.infos(), i);
        if i < end {
            reorder(buffer, i, end);
        }
    }
}

/// Reorders each syllable.
fn reorder_each(buffer: &mut hb_buffer_t)
    ensures { Made Reordering.each_reordered buffer.old buffer.new }
{
    for i in 0..buffer.len() {
        reorder_at(buffer, i);
    }
}

/// Puts dotted circles into broken syllables, and reorders each syllable.
pub fn reorder_all<F: hb_font_t>(
    alloc: Global,
    face: &F,
    buffer: &mut hb_buffer_t,
) -> Result<(), ShapeError>
    requires { IsWithinLimit buffer.old }
    ensures { Outcome (step (Reordering.all_reordered (F.face face.now)))
        buffer.old buffer.new result }
{
    let circled = Circled {
        kind: BROKEN,
        category: B,
        repha: Some(R),
    };
    insert_circles(alloc, face, circled, buffer)?;
    reorder_each(buffer);
    Ok(())
}
