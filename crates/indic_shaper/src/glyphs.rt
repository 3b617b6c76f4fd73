//! What the shaper asks of an item: its category and position, which are in the two bytes of the
//! shaper.
ghost use Rattle.std.specs.Prelude.{◌≡◌};
ghost use Rattle.syllabic.specs.Walking.{item_at};
ghost use Rattle.indic_shaper.specs.Glyphs;

use crate::categories::{
    CAT_C, CAT_CM, CAT_CS, CAT_DOTTEDCIRCLE, CAT_H, CAT_M, CAT_MPST, CAT_PLACEHOLDER, CAT_RA,
    CAT_V, CAT_ZWJ, CAT_ZWNJ,
};
use shape_buffer::buffer::hb_glyph_info_t;

/// The item at a place, and one without properties past the end.
pub fn item_at(infos: &[hb_glyph_info_t], i: usize) -> hb_glyph_info_t
    ensures { result ≡ item_at infos.now i }
{
    match infos.get(i) {
        Some(info) => *info,
        None => hb_glyph_info_t::new('\0', 0),
    }
}

/// The category of an item.
pub fn category(info: &hb_glyph_info_t) -> u8
    ensures { result ≡ Glyphs.category info.now }
{
    info._hb_glyph_info_get_shaper_category()
}

/// Where an item stands in its syllable.
pub fn position(info: &hb_glyph_info_t) -> u8
    ensures { result ≡ Glyphs.position info.now }
{
    info._hb_glyph_info_get_shaper_auxiliary()
}

/// An item with another position.
pub fn with_position(info: &hb_glyph_info_t, position: u8) -> hb_glyph_info_t
    ensures { result ≡ Glyphs.with_position info.now position }
{
    let mut info = *info;
    info._hb_glyph_info_set_shaper_auxiliary(position);
    info
}

/// An item with more features.
pub fn with_mask(info: &hb_glyph_info_t, mask: u32) -> hb_glyph_info_t
    ensures { result ≡ Glyphs.with_mask info.now mask }
{
    let mut info = *info;
    info.mask |= mask;
    info
}

/// Of a ligature nothing is known.
fn is_whole(info: &hb_glyph_info_t) -> bool
    ensures { result ≡ Glyphs.is_whole info.now }
{
    !info._hb_glyph_info_get_ligated()
}

/// Consonants, vowels, placeholders and the dotted circle.
pub fn is_letter(c: u8) -> bool
    ensures { result ≡ Glyphs.is_letter c }
{
    c == CAT_C
        || c == CAT_CS
        || c == CAT_RA
        || c == CAT_CM
        || c == CAT_V
        || c == CAT_PLACEHOLDER
        || c == CAT_DOTTEDCIRCLE
}

/// Vowels and placeholders count as consonants: no consonant's syllable has them.
pub fn is_consonant(info: &hb_glyph_info_t) -> bool
    ensures { result ≡ Glyphs.is_consonant info.now }
{
    is_whole(info) && is_letter(category(info))
}

/// ZWJ or ZWNJ.
pub fn is_joiner(info: &hb_glyph_info_t) -> bool
    ensures { result ≡ Glyphs.is_joiner info.now }
{
    is_whole(info) && (category(info) == CAT_ZWJ || category(info) == CAT_ZWNJ)
}

/// The sign that takes a consonant's vowel.
pub fn is_halant(info: &hb_glyph_info_t) -> bool
    ensures { result ≡ Glyphs.is_halant info.now }
{
    is_whole(info) && category(info) == CAT_H
}

/// Whether the category is one of the two of vowel signs.
pub fn is_matra(info: &hb_glyph_info_t) -> bool
    ensures { result ≡ Glyphs.is_matra info.now }
{
    category(info) == CAT_M || category(info) == CAT_MPST
}

/// Whether an item is of a category, and no ligature.
pub fn is_of(info: &hb_glyph_info_t, wanted: u8) -> bool
    ensures { result ≡ Glyphs.is_of info.now wanted }
{
    is_whole(info) && category(info) == wanted
}

/// A vowel sign or Halant, and no ligature.
pub fn is_matra_or_halant(info: &hb_glyph_info_t) -> bool
    ensures { result ≡ Glyphs.is_matra_or_halant info.now }
{
    is_whole(info) && (is_matra(info) || category(info) == CAT_H)
}

/// Whether a lookup has made one glyph of several, and no several of it.
pub fn is_ligature(info: &hb_glyph_info_t) -> bool
    ensures { result ≡ Glyphs.is_ligature info.now }
{
    info._hb_glyph_info_get_ligated() && !info._hb_glyph_info_get_multiplied()
}
