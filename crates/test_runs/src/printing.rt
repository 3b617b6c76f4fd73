//! How answers are printed.
//!
//! An item of a list is its character and its cluster: `a@0`. What an answer names is compared of
//! all its items: clusters if it has an `@`, and if it has a `=` the glyphs that were found for
//! characters, in base 16: `1EA4=0@0`. `+` stands after a character that continues a grapheme, if
//! there is one in the answer, and `~` after each that is hidden.
//!
//! A glyph is printed as `test_fixtures` has it, with its advances and offsets, and with its mask
//! if that isn't 0: `2@1(0,0,-450,112)/1`.
//!
//! What is printed is handed over: a function that has to drop a list is slow to prove, and these
//! do it once.

use crate::comparing::position_at;
use shape_buffer::buffer::{GlyphBuffer, GlyphPosition, hb_buffer_t, hb_glyph_info_t};
use std::process::Abort;
use test_fixtures::printing;

/// Appends a space between words.
pub fn append_space(rt: &impl Abort, line: &mut String) {
    printing::append_space(line).expect(rt, "error");
}

/// Appends a character.
pub fn append_character(rt: &impl Abort, line: &mut String, c: char) {
    if c.is_ascii_graphic() {
        line.push(c).expect(rt, "error");
        return;
    }
    write!(line, "{:04X}", u32::from(c)).expect(rt, "error");
}

/// Appends a mask if it isn't 0.
fn append_mask(rt: &impl Abort, line: &mut String, mask: u32) {
    if mask != 0 {
        printing::append_mask(line, mask).expect(rt, "error");
    }
}

/// What is appended to the character of an item.
fn mark_of(info: &hb_glyph_info_t, wanted: &str) -> &'static str {
    if info._hb_glyph_info_get_hidden() {
        "~"
    } else if wanted.contains('+') && info._hb_glyph_info_get_continuation() {
        "+"
    } else {
        ""
    }
}

/// Appends an item with what an answer names of it.
fn append_item(rt: &impl Abort, line: &mut String, info: &hb_glyph_info_t, wanted: &str) {
    append_space(rt, line);
    append_character(rt, line, info.codepoint);
    line.push_str(mark_of(info, wanted)).expect(rt, "error");
    if wanted.contains('=') {
        write!(line, "={:X}", info.glyph_index).expect(rt, "error");
    }
    if wanted.contains('@') {
        write!(line, "@{}", info.cluster).expect(rt, "error");
    }
}

/// The items of a list, as an answer names them.
pub fn printed_list(rt: &(impl Abort + AllocGlobal), list: hb_buffer_t, wanted: &str) -> String {
    let mut line = String::new(rt.alloc());
    for info in list.infos() {
        append_item(rt, &mut line, info, wanted);
    }
    line
}

/// Appends a glyph and its cluster.
fn append_glyph(rt: &impl Abort, line: &mut String, info: &hb_glyph_info_t) {
    append_space(rt, line);
    printing::append_glyph(line, info).expect(rt, "error");
}

/// Appends a position.
fn append_position(rt: &impl Abort, line: &mut String, at: GlyphPosition) {
    printing::append_position(line, at).expect(rt, "error");
}

/// Glyphs with their positions.
pub fn printed_glyphs(rt: &(impl Abort + AllocGlobal), glyphs: GlyphBuffer) -> String {
    let mut line = String::new(rt.alloc());
    for (at, info) in glyphs.glyph_infos().iter().enumerate() {
        append_glyph(rt, &mut line, info);
        append_position(rt, &mut line, position_at(glyphs.glyph_positions(), at));
        append_mask(rt, &mut line, info.mask);
    }
    line
}

/// The glyphs of a list without their positions.
pub fn printed_numbers(rt: &(impl Abort + AllocGlobal), list: hb_buffer_t) -> String {
    let mut line = String::new(rt.alloc());
    for info in list.infos() {
        append_glyph(rt, &mut line, info);
    }
    line
}
