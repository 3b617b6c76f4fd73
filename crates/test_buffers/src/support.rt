//! Small buffers for the tests, what they show, and calls on them, written in lines of text.
//!
//! A test hands its rows to one function, which reads each row, does what it says and compares what
//! is left, printed in one line: the proof of a test takes next to nothing for a text, and a good
//! part of a second for each list of its own. The functions below have no contract. A row that
//! can't be read ends the test, as does a text without rows.

use shape_buffer::buffer::{
    BufferClusterLevel, GlyphPosition, GlyphPropsFlags, ScratchFlags, ShapeError, hb_buffer_t,
    hb_glyph_info_t, hb_unicode_general_category_t,
};
use std::fmt::{Debug, Display};
use std::process::Abort;
use std::str::FromStr;

/// Compares two values.
pub fn assert_same<T: Copy + PartialEq + Debug>(rt: &impl Abort, found: T, wanted: T) {
    assert_eq!(rt; found, wanted);
}

/// Asserts what no later call of a test relies on.
pub fn assert_that(rt: &impl Abort, condition: bool) {
    assert!(rt; condition);
}

/// Compares what a row gives with what it says.
pub fn assert_shown(rt: &impl Abort, row: &str, found: &String, wanted: &str) {
    assert_eq!(rt; found.as_str().trim_end(), wanted, "in {row}");
}

/// The rows of a text, a line each.
pub fn rows_of<'a>(rt: &impl Abort, text: &'a str) -> &'a str {
    let rows = text.trim();
    assert!(rt; !rows.is_empty());
    rows
}

/// What stands before `mark` in a text, and after it.
pub fn parts<'a>(rt: &impl Abort, text: &'a str, mark: &str) -> (&'a str, &'a str) {
    match text.split_once(mark) {
        Some((before, after)) => (before.trim(), after.trim()),
        None => panic!(rt; "no {mark} in {text}"),
    }
}

/// The number that a word writes.
pub fn number<T: FromStr>(rt: &impl Abort, word: &str) -> T
where
    T::Err: Drop,
{
    match word.parse::<T>() {
        Ok(number) => number,
        Err(_) => panic!(rt; "{word} is no number"),
    }
}

/// The item that a word writes: `CLUSTER/MASK`, after `GLYPH@` if it has one, and after `*` if it
/// is a continuation. Advances may stand after it.
fn item(rt: &impl Abort, word: &str) -> hb_glyph_info_t {
    let (word, _) = word.split_once('+').unwrap_or((word, ""));
    let (glyph, place) = word.split_once('@').unwrap_or(("0", word));
    let (cluster, mask) = parts(rt, place.trim_start_matches('*'), "/");
    let mut info = hb_glyph_info_t::new('a', number(rt, cluster));
    info.glyph_id = number(rt, glyph);
    info.mask = number(rt, mask);
    info._hb_glyph_info_set_continuation(word.starts_with('*'));
    info
}

/// The advances after an item: `+RIGHT` or `+RIGHT,UP`; none is 0.
fn position(rt: &impl Abort, word: &str) -> GlyphPosition {
    let (_, advances) = word.split_once('+').unwrap_or((word, "0"));
    let (right, up) = advances.split_once(',').unwrap_or((advances, "0"));
    let mut position = GlyphPosition::zero();
    position.x_advance = number(rt, right);
    position.y_advance = number(rt, up);
    position
}

/// Gives each item the advances after it.
fn place(rt: &impl Abort, buffer: &mut hb_buffer_t, items: &str) {
    let mut at: usize = 0;
    for word in items.split_whitespace() {
        if at < buffer.len() {
            buffer.set_position(at, position(rt, word));
            at = at.saturating_add(1);
        }
    }
}

/// A buffer of these items. Refuses if memory is refused.
pub fn filled(rt: &(impl Abort + AllocGlobal), items: &str) -> Result<hb_buffer_t, ShapeError> {
    let mut infos: Vec<hb_glyph_info_t> = Vec::new(rt.alloc());
    for word in items.split_whitespace() {
        infos.push(item(rt, word))?;
    }
    let mut buffer = hb_buffer_t::new(rt.alloc());
    buffer.replace_infos(infos)?;
    place(rt, &mut buffer, items);
    Ok(buffer)
}

/// Appends a number or a text.
pub fn push<T: Copy + Display>(rt: &impl Abort, text: &mut String, value: T) {
    write!(text, "{value}").expect(rt, "memory");
}

/// Appends an item, with its advance to the right if that isn't 0.
fn push_item(rt: &impl Abort, text: &mut String, info: &hb_glyph_info_t, advance: i32) {
    push(rt, text, info.cluster);
    push(rt, text, "/");
    push(rt, text, info.mask);
    if advance != 0 {
        push(rt, text, "+");
        push(rt, text, advance);
    }
    push(rt, text, " ");
}

/// The items of a buffer, and its scratch flags if there are any.
pub fn shown(rt: &(impl Abort + AllocGlobal), buffer: &hb_buffer_t) -> String {
    let mut text = String::new(rt.alloc());
    for (info, position) in buffer.infos().iter().zip(buffer.positions()) {
        push_item(rt, &mut text, info, position.x_advance);
    }
    let ScratchFlags(flags) = buffer.scratch_flags();
    if flags != 0 {
        push(rt, &mut text, "flags ");
        push(rt, &mut text, flags);
    }
    text
}

/// The level of a word.
pub fn level_of(rt: &impl Abort, word: &str) -> BufferClusterLevel {
    match word {
        "graphemes" => BufferClusterLevel::MonotoneGraphemes,
        "monotone" => BufferClusterLevel::MonotoneCharacters,
        "characters" => BufferClusterLevel::Characters,
        _ => panic!(rt; "{word} is no level"),
    }
}

/// An item with every property set.
pub fn with_every_property() -> hb_glyph_info_t {
    let mut item = hb_glyph_info_t::new('a', 3);
    item._hb_glyph_info_set_general_category(hb_unicode_general_category_t::NonspacingMark);
    item._hb_glyph_info_set_modified_combining_class(230);
    item._hb_glyph_info_set_ignorable(true);
    item._hb_glyph_info_set_hidden(true);
    item._hb_glyph_info_set_continuation(true);
    item._hb_glyph_info_set_zwj(true);
    item._hb_glyph_info_set_zwnj(true);
    item._hb_glyph_info_set_space_type(16);
    item._hb_glyph_info_set_selector_mark(true);
    item._hb_glyph_info_set_glyph_class(GlyphPropsFlags::MARK);
    item._hb_glyph_info_set_substituted(true);
    item._hb_glyph_info_set_ligated(true);
    item._hb_glyph_info_set_multiplied(true);
    item._hb_glyph_info_set_mark_attachment_class(4);
    item._hb_glyph_info_set_ligature_id(7);
    item._hb_glyph_info_set_ligature_component(2);
    item._hb_glyph_info_set_number_of_components(3);
    item._hb_glyph_info_set_syllable(200);
    item._hb_glyph_info_set_shaper_category(11);
    item._hb_glyph_info_set_shaper_auxiliary(12);
    item
}
