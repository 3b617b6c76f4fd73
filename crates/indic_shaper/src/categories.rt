//! The sort of each character: its category, by which a text is cut into syllables, and its
//! position, by which a syllable is ordered.
//!
//! They follow from Unicode's properties `Indic_Syllabic_Category` and `Indic_Positional_Category`.
//! The tables are made by `tests/indic-categories.py`, which also compares them with Unicode's
//! files.
ghost use Rattle.std.specs.Prelude.{◌≡◌, slice_index_or};
ghost use Rattle.shape_buffer.specs.Outcome.{Made};
ghost use Rattle.indic_shaper.specs.Categories.{value_of, sort_of, with_sort, categorized};

mod blocks;
mod pages;

use blocks::BLOCKS;
use pages::PAGES;
use shape_buffer::buffer::{hb_buffer_t, hb_glyph_info_t};
use shape_buffer::walks::update_items;

/// Any other character.
pub const CAT_X: u8 = 0;
/// A consonant.
pub const CAT_C: u8 = 1;
/// An independent vowel.
pub const CAT_V: u8 = 2;
/// A nukta.
pub const CAT_N: u8 = 3;
/// A halant (virama).
pub const CAT_H: u8 = 4;
/// U+200C.
pub const CAT_ZWNJ: u8 = 5;
/// U+200D.
pub const CAT_ZWJ: u8 = 6;
/// A vowel sign (matra).
pub const CAT_M: u8 = 7;
/// A syllable modifier.
pub const CAT_SM: u8 = 8;
/// A digit, a dash or another character that signs may stand on.
pub const CAT_PLACEHOLDER: u8 = 10;
/// U+25CC.
pub const CAT_DOTTEDCIRCLE: u8 = 11;
/// A register shifter.
pub const CAT_RS: u8 = 12;
/// A vowel sign that may stand after a syllable modifier.
pub const CAT_MPST: u8 = 13;
/// A reph that is a character of its own.
pub const CAT_REPHA: u8 = 14;
/// The Ra of a script, which may become a reph.
pub const CAT_RA: u8 = 15;
/// A medial consonant.
pub const CAT_CM: u8 = 16;
/// A consonant with a stacker.
pub const CAT_CS: u8 = 18;

/// The beginning of a syllable.
pub const POS_START: u8 = 0;
/// Ra that becomes a reph.
pub const POS_RA_TO_BECOME_REPH: u8 = 1;
/// A vowel sign before the base.
pub const POS_PRE_M: u8 = 2;
/// A consonant before the base.
pub const POS_PRE_C: u8 = 3;
/// The base.
pub const POS_BASE_C: u8 = 4;
/// After the base.
pub const POS_AFTER_MAIN: u8 = 5;
/// Before forms below the base.
pub const POS_BEFORE_SUB: u8 = 7;
/// A consonant below the base.
pub const POS_BELOW_C: u8 = 8;
/// After forms below the base.
pub const POS_AFTER_SUB: u8 = 9;
/// Before forms after the base.
pub const POS_BEFORE_POST: u8 = 10;
/// A consonant after the base.
pub const POS_POST_C: u8 = 11;
/// After forms after the base.
pub const POS_AFTER_POST: u8 = 12;
/// Modifiers and signs of Vedic texts.
pub const POS_SMVD: u8 = 13;
/// The end of a syllable.
pub const POS_END: u8 = 14;

/// The category and the position of a character.
#[derive(Clone, Copy, PartialEq, Eq, Debug)]
pub struct Sort {
    pub category: u8,
    pub position: u8,
}

/// The block of a page, 0 past the end.
fn block_of(pages: &[u8], page: usize) -> u8
    ensures { result ≡ slice_index_or pages.now page 0 }
{
    match pages.get(page) {
        Some(block) => *block,
        None => 0,
    }
}

/// The entry of a block's table at a place, 0 past the end.
fn entry_of(blocks: &[u16], place: usize) -> u16
    ensures { result ≡ slice_index_or blocks.now place 0 }
{
    match blocks.get(place) {
        Some(entry) => *entry,
        None => 0,
    }
}

/// Position and category of a character in one number: a page is 32 characters, whose numbers are a
/// block.
fn value_of(c: char) -> u16
    ensures { result ≡ value_of c }
{
    let code = c as usize;
    let block = block_of(&PAGES, code / 32) as usize;
    entry_of(&BLOCKS, block * 32 + code % 32)
}

/// The category and the position of a character.
pub fn categories(c: char) -> Sort
    ensures { result ≡ sort_of c }
{
    let value = value_of(c);
    Sort {
        category: (value % 64) as u8,
        position: (value / 64 % 16) as u8,
    }
}

/// An item with the category and the position of its character.
fn categorized(info: &hb_glyph_info_t) -> hb_glyph_info_t
    ensures { result ≡ with_sort info.now }
{
    let found = categories(info.codepoint);
    let mut info = *info;
    info._hb_glyph_info_set_shaper_category(found.category);
    info._hb_glyph_info_set_shaper_auxiliary(found.position);
    info
}

/// Gives each item the category and the position of its character.
pub fn categorize(buffer: &mut hb_buffer_t)
    ensures { Made categorized buffer.old buffer.new }
{
    update_items(buffer, |info| categorized(info));
}
