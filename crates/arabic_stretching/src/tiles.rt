//! Tiles, the word that they stretch over, and what isn't safe to break.
ghost use Rattle.std.specs.Prelude.{◌≡◌, ◌<◌, ◌≤◌, ◌+◌, length};
ghost use Rattle.std.specs.List.{prefix_len};
ghost use Rattle.shape_items.specs.Buffer.{limit_of};
ghost use Rattle.shape_buffer.specs.Outcome.{Made};
ghost use Rattle.arabic_stretching.specs.Tiles;

use shape_buffer::buffer::{hb_buffer_t, hb_glyph_info_t, hb_unicode_general_category_t};
use shape_buffer::walks::update_items;

/// A tile that stands once.
pub const FIXED: u8 = 2;

/// A tile that may be repeated.
pub const REPEATING: u8 = 3;

/// The first of the glyphs that one is taken apart into is fixed, the second repeats, and so on.
fn tile_of(component: u8) -> u8
    ensures { result ≡ Tiles.tile_of component }
{
    if component % 2 == 0 { FIXED } else { REPEATING }
}

fn recorded(info: &hb_glyph_info_t) -> hb_glyph_info_t
    ensures { result ≡ Tiles.recorded info.now }
{
    let mut item = *info;
    if item._hb_glyph_info_get_multiplied() {
        let tile = tile_of(item._hb_glyph_info_get_ligature_component());
        item._hb_glyph_info_set_shaper_auxiliary(tile);
    }
    item
}

/// Notes what a lookup has taken apart so far as tiles. It belongs into a pause right after the
/// feature `stch`, if the font has that. Takes no memory.
pub fn record_tiles(buffer: &mut hb_buffer_t)
    ensures { Made Tiles.tiles_recorded buffer.old buffer.new }
{
    update_items(buffer, |info| recorded(info));
}

pub fn is_tile(info: &hb_glyph_info_t) -> bool
    ensures { result ≡ Tiles.is_tile info.now }
{
    let kind = info._hb_glyph_info_get_shaper_auxiliary();
    kind == FIXED || kind == REPEATING
}

/// Whether a tile may be repeated.
pub fn repeats(info: &hb_glyph_info_t) -> bool
    ensures { result ≡ Tiles.repeats info.now }
{
    info._hb_glyph_info_get_shaper_auxiliary() == REPEATING
}

/// Whether characters of a category stand in words.
fn is_word_category(category: hb_unicode_general_category_t) -> bool
    ensures { result ≡ Tiles.is_word_category category }
{
    match category {
        hb_unicode_general_category_t::Unassigned
        | hb_unicode_general_category_t::PrivateUse
        | hb_unicode_general_category_t::ModifierLetter
        | hb_unicode_general_category_t::OtherLetter
        | hb_unicode_general_category_t::SpacingMark
        | hb_unicode_general_category_t::EnclosingMark
        | hb_unicode_general_category_t::NonspacingMark
        | hb_unicode_general_category_t::DecimalNumber
        | hb_unicode_general_category_t::LetterNumber
        | hb_unicode_general_category_t::OtherNumber
        | hb_unicode_general_category_t::CurrencySymbol
        | hb_unicode_general_category_t::ModifierSymbol
        | hb_unicode_general_category_t::MathSymbol
        | hb_unicode_general_category_t::OtherSymbol => true,
        _ => false,
    }
}

/// Whether a glyph is one of the word that tiles stretch over.
pub fn is_word(info: &hb_glyph_info_t) -> bool
    ensures { result ≡ Tiles.is_word info.now }
{
    !is_tile(info)
        && (info._hb_glyph_info_is_default_ignorable()
            || is_word_category(info._hb_glyph_info_get_general_category()))
}

fn tiles_len(infos: &[hb_glyph_info_t]) -> usize
    ensures value { result ≡ prefix_len Tiles.is_tile infos.now }
    ensures within { result ≤ length infos.now }
{
    infos.iter().take_while(|info| is_tile(info)).count()
}

fn word_len(infos: &[hb_glyph_info_t]) -> usize
    ensures value { result ≡ prefix_len Tiles.is_word infos.now }
    ensures within { result ≤ length infos.now }
{
    infos.iter().take_while(|info| is_word(info)).count()
}

/// How many glyphs the tiles at the beginning of a list are, and the word after them.
fn span_at(infos: &[hb_glyph_info_t]) -> usize
    ensures value { result ≡ Tiles.span_len infos.now }
    ensures within { result ≤ length infos.now }
{
    let tiles = tiles_len(infos);
    tiles + word_len(&infos[tiles..])
}

/// Whether tiles begin at a place.
fn begins_at(infos: &[hb_glyph_info_t], i: usize) -> bool
    requires { i < length infos.now }
    ensures { result ≡ Tiles.begins_at infos.now i }
{
    is_tile(&infos[i]) && (i == 0 || !is_tile(&infos[i - 1]))
}

/// Marks the tiles that begin at a place and their word unsafe to break.
fn mark_at(buffer: &mut hb_buffer_t, i: usize)
    requires { i < length buffer.old.items }
    ensures made { buffer.new ≡ Tiles.span_marked_at i buffer.old }
    ensures len { length buffer.new.items ≡ length buffer.old.items }
    ensures limit { limit_of buffer.new ≡ limit_of buffer.old }
{
    if !begins_at(buffer.infos(), i) {
        return;
    }
    let end = i + span_at(&buffer.infos()[i..]);
    buffer.unsafe_to_break(i, end);
}

/// Marks all tiles unsafe to break, each run of them with its word.
pub fn mark_spans(buffer: &mut hb_buffer_t)
    ensures { Made Tiles.spans_marked buffer.old buffer.new }
{
    for i in 0..buffer.len() {
        mark_at(buffer, i);
    }
}
