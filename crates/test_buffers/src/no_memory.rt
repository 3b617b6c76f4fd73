//! Calls of `hb_buffer_t` and of its items that can't be refused take no memory. Two tests fill the
//! same buffer, and the second one makes each such call besides; the gate's script counts the
//! growths of both, and the two numbers must be equal.

use crate::support::{assert_same, assert_that, with_every_property};
use shape_buffer::buffer::{
    BufferClusterLevel, BufferFlags, Direction, GlyphId, GlyphPosition, GlyphPropsFlags, Language,
    ScratchFlags, Script, UnicodeBuffer, hb_buffer_t, hb_glyph_info_t, hb_tag_t,
    hb_unicode_general_category_t,
};
use shape_buffer::cluster_laws::clusters_have_one_set_of_flags;
use shape_buffer::interfaces::PlainUnicode;
use shape_buffer::position_walks::update_positions;
use shape_buffer::walks::update_items;
use std::alloc::Global;
use std::process::Abort;

/// A buffer of sixteen items, and a language to be set. The lists have room for so many items and
/// no more, so that a growth by one is seen.
fn begun(rt: &impl Abort, alloc: Global) -> (hb_buffer_t, Language) {
    let mut infos: Vec<hb_glyph_info_t> = Vec::new(alloc);
    for cluster in 0..16 {
        let info = hb_glyph_info_t::new('g', cluster);
        infos.push(info).expect(rt, "memory");
    }
    let mut buffer = UnicodeBuffer::new(alloc).into_inner();
    buffer.replace_infos(infos).expect(rt, "memory");
    let language = String::from_str(alloc, "de").expect(rt, "memory");
    (buffer, Language(language))
}

/// Sets all that a run asks.
fn set_all(buffer: &mut hb_buffer_t, language: Language) {
    buffer.set_direction(Direction::RightToLeft);
    buffer.set_script(Some(Script(hb_tag_t::from_bytes(b"Hebr"))));
    buffer.set_language(Some(language));
    buffer.set_flags(BufferFlags::PRODUCE_UNSAFE_TO_CONCAT);
    buffer.set_cluster_level(BufferClusterLevel::Characters);
    buffer.set_scratch_flags(ScratchFlags::HAS_CGJ);
    buffer.set_invisible_glyph(Some(GlyphId(3)));
    buffer.set_not_found_variation_selector_glyph(Some(GlyphId(4)));
    buffer.set_pre_context("before");
    buffer.set_post_context("behind");
}

/// How many of some are true.
fn count(all: &[bool]) -> usize {
    let mut count: usize = 0;
    for is_set in all {
        count = count.saturating_add(usize::from(*is_set));
    }
    count
}

/// How many settings aren't those of a new buffer.
fn count_settings(buffer: &hb_buffer_t) -> usize {
    count(&[
        buffer.direction() != Direction::Invalid,
        buffer.script().is_some(),
        buffer.language().is_some(),
        buffer.flags() != BufferFlags(0),
        buffer.cluster_level() != BufferClusterLevel::MonotoneGraphemes,
        buffer.scratch_flags() != ScratchFlags(0),
        buffer.invisible_glyph().is_some(),
        buffer.not_found_variation_selector_glyph().is_some(),
        !buffer.pre_context().is_empty(),
        !buffer.post_context().is_empty(),
        buffer.length_limit() != usize::MAX,
    ])
}

/// Guesses script and direction, which are set, and then those of the text.
fn guess(rt: &impl Abort, buffer: &mut hb_buffer_t) {
    buffer.guess_segment_properties::<PlainUnicode>();
    assert_same(rt, buffer.direction(), Direction::RightToLeft);
    buffer.set_direction(Direction::Invalid);
    buffer.set_script(None);
    assert_same(rt, buffer.guessed_script::<PlainUnicode>(), None);
    assert_same(
        rt,
        buffer.guessed_direction::<PlainUnicode>(),
        Direction::LeftToRight,
    );
    assert_same(
        rt,
        buffer.direction_by::<PlainUnicode>(None),
        Direction::LeftToRight,
    );
    buffer.guess_segment_properties::<PlainUnicode>();
    assert_same(rt, buffer.direction(), Direction::LeftToRight);
}

/// Merges clusters and marks spans, at a level.
fn merge_and_mark(buffer: &mut hb_buffer_t, level: BufferClusterLevel) {
    buffer.set_cluster_level(level);
    if 3 <= buffer.len() {
        buffer.merge_clusters(0, 2);
    }
    if 3 <= buffer.len() {
        buffer.merge_out_clusters(1, 3);
    }
    if 3 <= buffer.len() {
        buffer.merge_spans(&[(0, 2), (1, 3)]);
    }
    if 3 <= buffer.len() {
        buffer.merge_spans_out(&[(0, 2), (1, 3)]);
    }
    buffer.merge_graphemes();
    if 3 <= buffer.len() {
        buffer.unsafe_to_break(0, 3);
    }
    if 3 <= buffer.len() {
        buffer.unsafe_to_concat(0, 2);
    }
    if 3 <= buffer.len() {
        buffer.safe_to_insert_tatweel(0, 2);
    }
}

/// Gives ids to ligatures: they go from 1 to 7, and begin again with 1.
fn give_ids(rt: &impl Abort, buffer: &mut hb_buffer_t) {
    assert_same(rt, buffer.allocate_lig_id(), 1);
    buffer.set_serial(7);
    assert_same(rt, buffer.serial(), 7);
    assert_same(rt, buffer.allocate_lig_id(), 1);
}

/// Merges more spans than are merged one by one.
fn merge_many(buffer: &mut hb_buffer_t, level: BufferClusterLevel) {
    buffer.set_cluster_level(level);
    let first = (0, 2);
    let spans = [
        first,
        first,
        first,
        first,
        first,
        first,
        first,
        first,
        first,
        first,
        first,
        first,
        first,
        first,
        (1, 3),
        (1, 3),
        (1, 3),
    ];
    if 3 <= buffer.len() {
        buffer.merge_spans(&spans);
    }
}

/// Puts items in other places, and takes one out, and then all past the fourteenth.
fn move_items(buffer: &mut hb_buffer_t) {
    if 3 <= buffer.len() {
        buffer.swap(0, 1);
    }
    if 3 <= buffer.len() {
        buffer.swap_infos(0, 2);
    }
    if 3 <= buffer.len() {
        buffer.reverse_range(0, 3);
    }
    buffer.reverse();
    if 3 <= buffer.len() {
        buffer.remove(1);
    }
    buffer.truncate(14);
}

/// Replaces items and positions, one and then each.
fn write_items(buffer: &mut hb_buffer_t) {
    if 3 <= buffer.len() {
        buffer.set_info(1, with_every_property());
    }
    if 3 <= buffer.len() {
        buffer.set_position(1, GlyphPosition::zero());
    }
    update_items(buffer, |info| unmarked(info));
    update_positions(buffer, |_info, position| position);
    buffer.clear_positions();
}

/// The item with the properties of its character.
fn unmarked(info: &hb_glyph_info_t) -> hb_glyph_info_t {
    let mut info = *info;
    let mut seen = ScratchFlags(0);
    info.init_unicode_props::<PlainUnicode>(&mut seen);
    info
}

/// How many properties of an item aren't those of a new one, and how many flags it has.
fn count_properties(item: &hb_glyph_info_t) -> usize {
    let letter = hb_unicode_general_category_t::UppercaseLetter;
    count(&[
        item._hb_glyph_info_get_general_category() != letter,
        item._hb_glyph_info_is_unicode_mark(),
        item._hb_glyph_info_get_modified_combining_class() != 0,
        item._hb_glyph_info_get_ignorable(),
        item._hb_glyph_info_get_hidden(),
        item._hb_glyph_info_get_continuation(),
        item._hb_glyph_info_get_zwj(),
        item._hb_glyph_info_get_zwnj(),
        item._hb_glyph_info_get_space_type() != 0,
        item._hb_glyph_info_get_selector_mark(),
        item._hb_glyph_info_get_glyph_class() != GlyphPropsFlags(0),
        item._hb_glyph_info_get_substituted(),
        item._hb_glyph_info_get_ligated(),
        item._hb_glyph_info_get_multiplied(),
        item._hb_glyph_info_get_mark_attachment_class() != 0,
        item._hb_glyph_info_get_ligature_id() != 0,
        item._hb_glyph_info_get_ligature_component() != 0,
        item._hb_glyph_info_get_number_of_components() != 1,
        item._hb_glyph_info_get_syllable() != 0,
        item._hb_glyph_info_get_shaper_category() != 0,
        item._hb_glyph_info_get_shaper_auxiliary() != 0,
        item.unsafe_to_break(),
        item.unsafe_to_concat(),
        item.safe_to_insert_tatweel(),
    ])
}

/// Hands the items out as glyphs, and gives the buffer back for new text.
fn hand_out(rt: &impl Abort, buffer: hb_buffer_t) -> UnicodeBuffer {
    let glyphs = buffer.into_glyphs();
    assert_same(rt, glyphs.len(), glyphs.glyph_infos().len());
    assert_same(rt, glyphs.len(), glyphs.glyph_positions().len());
    assert_same(rt, glyphs.direction(), Direction::LeftToRight);
    assert_that(rt, glyphs.script().is_none() && glyphs.language().is_some());
    assert_that(rt, glyphs.iter().next().is_some());
    clusters_have_one_set_of_flags();
    let text = glyphs.clear();
    assert_that(rt, text.is_empty() && text.len() == 0);
    text
}

fn delete_items(buffer: &mut hb_buffer_t) {
    buffer.delete_glyphs_inplace(|info| info.cluster == 9);
}

/// The buffer of a text, reset and cleared.
fn reset(mut text: UnicodeBuffer) -> UnicodeBuffer {
    text.set_language(None);
    text.reset_clusters();
    let mut buffer = text.into_inner();
    buffer.reset();
    buffer.clear()
}

#[test]
fn filled_is_begun(rt: HostRuntime) {
    let (buffer, language) = begun(&rt, rt.alloc());
    assert_same(&rt, buffer.len(), 16);
    assert_that(&rt, language.0.as_str() == "de");
}

#[test]
fn filled_and_used(rt: HostRuntime) {
    let (mut buffer, language) = begun(&rt, rt.alloc());
    buffer.enter();
    set_all(&mut buffer, language);
    assert_same(&rt, count_settings(&buffer), 11);
    assert_same(&rt, count_properties(&with_every_property()), 21);
    guess(&rt, &mut buffer);
    give_ids(&rt, &mut buffer);
    merge_and_mark(&mut buffer, BufferClusterLevel::Characters);
    merge_and_mark(&mut buffer, BufferClusterLevel::MonotoneCharacters);
    merge_and_mark(&mut buffer, BufferClusterLevel::MonotoneGraphemes);
    merge_many(&mut buffer, BufferClusterLevel::Characters);
    merge_many(&mut buffer, BufferClusterLevel::MonotoneGraphemes);
    move_items(&mut buffer);
    write_items(&mut buffer);
    assert_same(
        &rt,
        (buffer.infos().len(), buffer.positions().len()),
        (14, 14),
    );
    delete_items(&mut buffer);
    assert_that(&rt, !buffer.is_empty());
    buffer.leave();
    assert_that(&rt, reset(hand_out(&rt, buffer)).as_inner().is_empty());
    assert_that(&rt, hb_buffer_t::new(rt.alloc()).is_empty());
}
