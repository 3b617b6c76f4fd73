//! Chains of the table `morx`: their flags, how their subtables run, and the deleted glyphs that
//! they leave.
ghost use Rattle.std.specs.Prelude.{◌≡◌, ◌<◌, ◌^◌};
ghost use Rattle.std.specs.List.{list_any};
ghost use Rattle.apple_substitution.specs.Chains;
ghost use Rattle.apple_substitution.specs.Languages.{spoken_of};
ghost use Rattle.shape_buffer.specs.Outcome.{Made};

use crate::languages::{Languages, is_spoken};
use apple_tables::states::DELETED_GLYPH;
use shape_buffer::position_walks::update_positions;
use shape_buffer::{Direction, GlyphPosition, hb_buffer_t, hb_glyph_info_t};
use shape_font::bytes::{records, u16_at, u32_at};

/// A feature that is asked for, by the numbers of Apple's registry.
#[derive(Clone, Copy, Debug)]
pub struct Feature {
    /// Its type.
    pub kind: u16,
    /// The setting of that type. A font names none from 2^16 on.
    pub setting: u32,
}

/// Whether a feature is among those that are asked for.
fn is_requested(features: &[Feature], kind: u16, setting: u32) -> bool
    ensures { result ≡ Chains.is_requested features.now kind setting }
{
    features.iter().any(|feature| feature.kind == kind && feature.setting == setting)
}

/// Whether an entry for this type and this setting counts. Small capitals were setting 3 of type 3,
/// see <https://github.com/harfbuzz/harfbuzz/issues/1342>. The settings of type 39 are languages.
fn is_on(features: &[Feature], languages: &Languages<'_>, kind: u16, setting: u32) -> bool
    ensures { result ≡ Chains.is_on (spoken_of languages.now) features.now kind setting }
{
    is_requested(features, kind, setting)
        || kind == 3 && setting == 3 && is_requested(features, 37, 1)
        || kind == 39 && is_spoken(languages, setting)
}

/// The flags after the entry at a place.
fn flags_after(
    morx: &[u8],
    features: &[Feature],
    languages: &Languages<'_>,
    at: usize,
    flags: u32,
) -> u32
    requires { at < 2 ^ 39 }
    ensures { result ≡ Chains.flags_after morx.now (spoken_of languages.now) features.now at flags }
{
    let setting = u32::from(u16_at(morx, at + 2));
    if is_on(features, languages, u16_at(morx, at), setting) {
        flags & u32_at(morx, at + 8) | u32_at(morx, at + 4)
    } else {
        flags
    }
}

/// How many entries of features a chain has, and the table has room for.
pub(crate) fn entry_count(morx: &[u8], chain: u32) -> u32
    ensures { result ≡ Chains.entry_count morx.now chain }
{
    let chain = chain as usize;
    records(morx, u32_at(morx, chain + 8), chain + 16, 12)
}

/// The flags of the chain that begins at `chain`, by the features that are asked for, and by the
/// language of the text (TrueType Reference Manual, "The 'morx' table", "Feature subtables"). Takes
/// time in step with the entries that the chain has for features, and with the features.
#[tactic(auto, unfolding(crate::specs::Chains::chain_flags), using(crate::proofs::ChainLemmas::flags_next, crate::proofs::ChainLemmas::flags_all))]
pub fn chain_flags(morx: &[u8], features: &[Feature], languages: &Languages<'_>, chain: u32) -> u32
    ensures { result ≡ Chains.chain_flags morx.now (spoken_of languages.now) features.now chain }
{
    let first = chain as usize + 16;
    let count = entry_count(morx, chain);
    let mut flags = u32_at(morx, chain as usize);
    for i in 0..count {
        flags = flags_after(morx, features, languages, first + 12 * i as usize, flags);
    }
    flags
}

/// Whether a subtable runs over text of a direction.
pub fn covers(coverage: u32, direction: Direction) -> bool
    ensures { result ≡ Chains.covers coverage direction }
{
    if coverage & 0x2000_0000 != 0 {
        return true;
    }
    if direction.is_vertical() {
        coverage & 0x8000_0000 != 0
    } else {
        coverage & 0x8000_0000 == 0
    }
}

/// Whether a list is reversed before a subtable runs over it, and after that.
pub fn is_reversed(coverage: u32, direction: Direction) -> bool
    ensures { result ≡ Chains.is_reversed coverage direction }
{
    let is_backwards = coverage & 0x4000_0000 != 0;
    if coverage & 0x1000_0000 != 0 || !direction.is_backward() {
        is_backwards
    } else {
        !is_backwards
    }
}

/// Removes the glyphs that ligatures left as deleted, as the end of a run does. Takes no memory.
pub fn remove_deleted_glyphs(buffer: &mut hb_buffer_t)
    ensures { Made Chains.without_deleted buffer.old buffer.new }
{
    buffer.delete_glyphs_inplace(|item| item.glyph_id == DELETED_GLYPH);
}

/// The position of a glyph, without its advances and offsets if the glyph is a deleted one.
fn narrowed(item: &hb_glyph_info_t, position: GlyphPosition) -> GlyphPosition
    ensures { result ≡ Chains.narrowed item.now position }
{
    if item.glyph_id != DELETED_GLYPH {
        return position;
    }
    GlyphPosition {
        x_advance: 0,
        y_advance: 0,
        x_offset: 0,
        y_offset: 0,
        ..position
    }
}

/// Takes the advances and the offsets from the glyphs that ligatures left as deleted, which stay.
/// Takes no memory.
pub fn zero_width_deleted(buffer: &mut hb_buffer_t)
    ensures { Made Chains.deleted_narrowed buffer.old buffer.new }
{
    update_positions(buffer, |item, position| narrowed(item, position));
}
