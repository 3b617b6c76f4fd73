//! Texts, as the words of cases write them.
//!
//! A character stands in the cluster that is its offset in UTF-8, if no other is written after an
//! `@`: `1EA4@7`. The characters after it go on from there.
//!
//! The words of the settings are a direction (`ltr`, `rtl`, `ttb`, `btt`), `by_character` for
//! clusters of single characters, `beginning` and `no_circle` for flags of the text, and glyphs in
//! base 16: `invisible=3` for what isn't shown, `selector=9` for selectors without a variant.

use crate::cases::{character, cut, number, number_in_hex};
use shape_buffer::buffer::{
    BufferClusterLevel, BufferFlags, Direction, GlyphId, UnicodeBuffer, hb_buffer_t,
    hb_glyph_info_t,
};
use shape_buffer::interfaces::hb_unicode_funcs_t;
use std::process::Abort;

/// What is set in a text before it is shaped.
#[derive(Clone, Copy)]
pub struct TextSettings {
    pub direction: Direction,
    pub level: BufferClusterLevel,
    pub flags: BufferFlags,
    pub invisible: Option<GlyphId>,
    pub selector: Option<GlyphId>,
}

/// Nothing is set.
pub const PLAINLY: TextSettings = TextSettings {
    direction: Direction::Invalid,
    level: BufferClusterLevel::MonotoneGraphemes,
    flags: BufferFlags(0),
    invisible: None,
    selector: None,
};

/// The settings that words name.
pub fn text_settings_of(rt: &impl Abort, words: &str) -> TextSettings {
    let mut text_settings = PLAINLY;
    for word in words.split_whitespace() {
        set_word(rt, &mut text_settings, word);
    }
    text_settings
}

/// Sets one more of the settings.
fn set_word(rt: &impl Abort, text_settings: &mut TextSettings, word: &str) {
    match word {
        "ltr" => text_settings.direction = Direction::LeftToRight,
        "rtl" => text_settings.direction = Direction::RightToLeft,
        "ttb" => text_settings.direction = Direction::TopToBottom,
        "btt" => text_settings.direction = Direction::BottomToTop,
        "by_character" => text_settings.level = BufferClusterLevel::MonotoneCharacters,
        "beginning" => text_settings.flags.0 |= BufferFlags::BEGINNING_OF_TEXT.0,
        "no_circle" => text_settings.flags.0 |= BufferFlags::DO_NOT_INSERT_DOTTED_CIRCLE.0,
        _ => set_glyph(rt, text_settings, cut(rt, word, "=")),
    }
}

/// Sets a glyph of the settings.
fn set_glyph(rt: &impl Abort, text_settings: &mut TextSettings, (name, glyph): (&str, &str)) {
    let glyph = Some(GlyphId(number_in_hex(rt, glyph)));
    match name {
        "invisible" => text_settings.invisible = glyph,
        "selector" => text_settings.selector = glyph,
        _ => rt.panic(name),
    }
}

/// Appends the character of a word, in this cluster if the word has none. Gives the cluster after
/// it.
fn add_word(rt: &impl Abort, text: &mut UnicodeBuffer, word: &str, cluster: u32) -> u32 {
    let (c, cluster) = match word.split_once("@") {
        Some((c, at)) => (character(rt, c), number(rt, at)),
        None => (character(rt, word), cluster),
    };
    text.add(c, cluster).expect(rt, "error");
    cluster.saturating_add(c.len_utf8() as u32)
}

/// Appends the characters of words.
pub fn add(rt: &impl Abort, text: &mut UnicodeBuffer, words: &str) {
    let mut cluster: u32 = 0;
    for word in words.split_whitespace() {
        cluster = add_word(rt, text, word, cluster);
    }
}

/// Sets the settings of a text. Direction and script are guessed if they aren't set.
fn set<U: hb_unicode_funcs_t>(text: &mut UnicodeBuffer, text_settings: &TextSettings) {
    text.set_direction(text_settings.direction);
    text.set_cluster_level(text_settings.level);
    text.set_flags(text_settings.flags);
    text.set_invisible_glyph(text_settings.invisible);
    text.set_not_found_variation_selector_glyph(text_settings.selector);
    text.guess_segment_properties::<U>();
}

/// The text that words write, with settings.
pub fn text_of<U: hb_unicode_funcs_t>(
    rt: &(impl Abort + AllocGlobal),
    text_settings: &TextSettings,
    words: &str,
) -> UnicodeBuffer {
    let mut text = UnicodeBuffer::new(rt.alloc());
    add(rt, &mut text, words);
    set::<U>(&mut text, text_settings);
    text
}

/// The items that words write, each in the cluster of its place.
pub fn items_of(rt: &(impl Abort + AllocGlobal), words: &str) -> Vec<hb_glyph_info_t> {
    let mut infos = Vec::new(rt.alloc());
    let mut place: u32 = 0;
    for word in words.split_whitespace() {
        let info = hb_glyph_info_t::new(character(rt, word), place);
        infos.push(info).expect(rt, "error");
        place = place.saturating_add(1);
    }
    infos
}

/// A buffer of these items.
pub fn buffer_of(rt: &(impl Abort + AllocGlobal), infos: Vec<hb_glyph_info_t>) -> hb_buffer_t {
    let mut buffer = hb_buffer_t::new(rt.alloc());
    buffer.replace_infos(infos).expect(rt, "error");
    buffer
}
