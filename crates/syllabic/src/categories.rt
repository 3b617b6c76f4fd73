//! Categories of the characters of Khmer and Myanmar, and of the scripts of India. The tables are
//! made by `tests/khmer-categories.py`, which also compares them with Unicode's files.
ghost use Rattle.std.specs.Prelude.{◌≡◌, ◌<◌, slice_index_or};
ghost use Rattle.shape_buffer.specs.Outcome.{Made};
ghost use Rattle.syllabic.specs.Categories.{category, with_category, categorized};

mod blocks;
mod pages;

use blocks::BLOCKS;
use pages::PAGES;
use shape_buffer::buffer::{hb_buffer_t, hb_glyph_info_t};
use shape_buffer::walks::update_items;

/// The entry of a table at a place; 0 past its end.
fn entry(table: &[u8], place: usize) -> u8
    ensures { result ≡ slice_index_or table.now place 0 }
{
    match table.get(place) {
        Some(entry) => *entry,
        None => 0,
    }
}

/// The category of a character, one of `syllables::categories::indic`: a page is 32 characters,
/// whose categories are a block.
pub fn category(c: char) -> u8
    ensures value { result ≡ category c }
    ensures within { result < 64 }
{
    let code = c as usize;
    let block = entry(&PAGES, code / 32) as usize;
    entry(&BLOCKS, block * 32 + code % 32) % 64
}

/// An item with the category of its character.
fn with_category(info: &hb_glyph_info_t) -> hb_glyph_info_t
    ensures { result ≡ with_category info.now }
{
    let category = category(info.codepoint);
    let mut info = *info;
    info._hb_glyph_info_set_shaper_category(category);
    info
}

/// Gives each item the category of its character.
pub fn categorize(buffer: &mut hb_buffer_t)
    ensures { Made categorized buffer.old buffer.new }
{
    update_items(buffer, |info| with_category(info));
}
