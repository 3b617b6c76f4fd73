//! Where matras, rephs and consonants before the base stand in the end.
//!
//! Once lookups have made the basic forms, a matra comes as close to the base as half forms let
//! it, a reph goes where its script wants it, and a consonant that became a form before the base
//! goes there. The rules are those of Microsoft's specification of OpenType fonts for the scripts
//! of India, section "Final reordering", as HarfBuzz reads them.
ghost use Rattle.std.specs.Prelude.{◌≡◌, ◌<◌, ◌≤◌, length};
ghost use Rattle.shape_items.specs.Buffer.{limit_of};
ghost use Rattle.shape_buffer.specs.Outcome.{Made};
ghost use Rattle.indic_shaper.specs.Settling.Syllables;
ghost use Rattle.syllabic.specs.Walking;

mod base;
mod matras;
mod prefs;
mod rephs;

use crate::categories::POS_PRE_M;
use crate::engine::Facts;
use crate::glyphs::{position, with_mask};
use base::{Spot, find_base, mend_viramas};
use matras::settle_matras;
use prefs::settle_pref;
use rephs::settle_reph;
use shape_buffer::buffer::{hb_buffer_t, hb_mask_t, hb_unicode_general_category_t};
use syllabic::walking::{begins_at, end_of};

/// Whether a glyph before a syllable keeps it from beginning a word: a letter, a mark or a format
/// character.
fn is_in_word(category: hb_unicode_general_category_t) -> bool
    ensures { result ≡ Syllables.is_in_word category }
{
    matches!(
        category,
        hb_unicode_general_category_t::Format
            | hb_unicode_general_category_t::Unassigned
            | hb_unicode_general_category_t::PrivateUse
            | hb_unicode_general_category_t::Surrogate
            | hb_unicode_general_category_t::LowercaseLetter
            | hb_unicode_general_category_t::ModifierLetter
            | hb_unicode_general_category_t::OtherLetter
            | hb_unicode_general_category_t::TitlecaseLetter
            | hb_unicode_general_category_t::UppercaseLetter
            | hb_unicode_general_category_t::SpacingMark
            | hb_unicode_general_category_t::EnclosingMark
            | hb_unicode_general_category_t::NonspacingMark
    )
}

/// Whether a syllable that begins at a place begins a word.
fn begins_word(buffer: &hb_buffer_t, start: usize) -> bool
    requires { start < length buffer.now.items }
    ensures { result ≡ Syllables.begins_word buffer.now start }
{
    start == 0 || !is_in_word(buffer.infos()[start - 1]._hb_glyph_info_get_general_category())
}

/// Asks for the form of a left matra that begins a word.
fn mark_beginning(mask: hb_mask_t, buffer: &mut hb_buffer_t, start: usize)
    requires { start < length buffer.old.items }
    ensures made { buffer.new ≡ Syllables.beginning_marked mask start buffer.old }
    ensures len { length buffer.new.items ≡ length buffer.old.items }
    ensures limit { limit_of buffer.new ≡ limit_of buffer.old }
{
    let info = buffer.infos()[start];
    if position(&info) != POS_PRE_M {
        return;
    }
    if begins_word(buffer, start) {
        buffer.set_info(start, with_mask(&info, mask));
    } else {
        buffer.unsafe_to_break(start - 1, start + 1);
    }
}

/// Moves matras, the reph and a consonant before the base.
fn move_all(facts: &Facts, buffer: &mut hb_buffer_t, start: usize, end: usize, spot: Spot)
    requires ordered { start ≤ spot.base }
    requires to { spot.base ≤ end }
    requires within { end ≤ length buffer.old.items }
    ensures made { buffer.new ≡ Syllables.moved facts.now start end buffer.old spot }
    ensures len { length buffer.new.items ≡ length buffer.old.items }
    ensures limit { limit_of buffer.new ≡ limit_of buffer.old }
{
    settle_matras(facts.tag, buffer, start, end, spot.base);
    let base = settle_reph(facts.config.reph_position, buffer, start, end, spot.base);
    if spot.try_pref {
        settle_pref(facts.tag, facts.masks.pref, buffer, start, end, base);
    }
}

/// Settles the syllable between two places.
fn settle(facts: &Facts, buffer: &mut hb_buffer_t, start: usize, end: usize)
    requires ordered { start < end }
    requires within { end ≤ length buffer.old.items }
    ensures made { buffer.new ≡ Syllables.settled facts.now buffer.old start end }
    ensures len { length buffer.new.items ≡ length buffer.old.items }
    ensures limit { limit_of buffer.new ≡ limit_of buffer.old }
{
    let spot = find_base(facts, buffer, start, end);
    move_all(facts, buffer, start, end, spot);
    mark_beginning(facts.masks.init, buffer, start);
}

/// Settles what is between two places, if anything is.
fn settle_some(facts: &Facts, buffer: &mut hb_buffer_t, start: usize, end: usize)
    requires within { end ≤ length buffer.old.items }
    ensures made { buffer.new ≡ Syllables.settled_some facts.now buffer.old start end }
    ensures len { length buffer.new.items ≡ length buffer.old.items }
    ensures limit { limit_of buffer.new ≡ limit_of buffer.old }
{
    if start < end {
        settle(facts, buffer, start, end);
    }
}

/// Settles the syllable that begins at a place.
fn settle_at(facts: &Facts, buffer: &mut hb_buffer_t, i: usize)
    requires { i < length buffer.old.items }
    ensures made { buffer.new
        ≡ Walking.at_syllable (Syllables.settled_some facts.now) i buffer.old }
    ensures len { length buffer.new.items ≡ length buffer.old.items }
    ensures limit { limit_of buffer.new ≡ limit_of buffer.old }
{
    if begins_at(buffer.infos(), i) {
        let end = end_of(buffer.infos(), i);
        settle_some(facts, buffer, i, end);
    }
}

/// Settles each syllable.
fn settle_each(facts: &Facts, buffer: &mut hb_buffer_t)
    ensures { Made (Walking.each_syllable (Syllables.settled_some facts.now))
        buffer.old buffer.new }
{
    for i in 0..buffer.len() {
        settle_at(facts, buffer, i);
    }
}

/// Puts matras, rephs and consonants before the base where they belong, in each syllable.
pub fn settle_all(facts: &Facts, buffer: &mut hb_buffer_t)
    ensures { Made (Syllables.all_settled facts.now) buffer.old buffer.new }
{
    mend_viramas(facts.virama, buffer);
    settle_each(facts, buffer);
}
