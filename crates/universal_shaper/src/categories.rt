//! The category of each character: what it is in a syllable.
//!
//! A category follows from Unicode's properties `Indic_Syllabic_Category`,
//! `Indic_Positional_Category`, `General_Category`, `Joining_Type` and
//! `Default_Ignorable_Code_Point` by the rules of the Universal Shaping Engine's specification. The
//! table is made by `tests/syllable-categories.py`, which also compares it with Unicode's files.
ghost use Rattle.std.specs.Prelude.{◌≡◌, slice_index_or};
ghost use Rattle.shape_buffer.specs.Outcome.{Made};
ghost use Rattle.universal_shaper.specs.Categories;

mod blocks;
mod pages;

use blocks::BLOCKS;
use pages::PAGES;
use shape_buffer::buffer::{hb_buffer_t, hb_glyph_info_t};
use shape_buffer::walks::update_items;
use syllables::categories::universal::{CGJ, O, WJ};

/// The entry of a table at a place; 0 past its end.
fn entry(table: &[u8], place: usize) -> u8
    ensures { result ≡ slice_index_or table.now place 0 }
{
    match table.get(place) {
        Some(entry) => *entry,
        None => 0,
    }
}

/// The category of a character before U+20000: a page is 32 characters, whose categories are a
/// block.
fn near_category(c: usize) -> u8
    ensures { result ≡ Categories.near_category c }
{
    let block = entry(&PAGES, c / 32) as usize;
    entry(&BLOCKS, block * 32 + c % 32)
}

/// The category of a character from U+20000 on: some of plane 14 can't be seen, and of these the
/// variation selectors are marks.
fn far_category(c: char) -> u8
    ensures { result ≡ Categories.far_category c }
{
    match c {
        '\u{E0100}'..='\u{E01EF}' => CGJ,
        '\u{E0000}'..='\u{E0FFF}' => WJ,
        _ => O,
    }
}

/// The category of a character, one of `syllables::categories::universal`.
pub fn category(c: char) -> u8
    ensures { result ≡ Categories.category c }
{
    if c < '\u{20000}' {
        near_category(c as usize)
    } else {
        far_category(c)
    }
}

/// An item with the category of its character.
fn with_category(info: &hb_glyph_info_t) -> hb_glyph_info_t
    ensures { result ≡ Categories.with_category info.now }
{
    let category = category(info.codepoint);
    let mut info = *info;
    info._hb_glyph_info_set_shaper_category(category);
    info
}

/// Gives each item the category of its character.
pub fn categorize(buffer: &mut hb_buffer_t)
    ensures { Made Categories.categorized buffer.old buffer.new }
{
    update_items(buffer, |info| with_category(info));
}
