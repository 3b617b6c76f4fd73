//! What a plan asks of the layout engine.

use crate::buffer::hb_tag_t;

/// Flags of a requested feature.
pub type hb_ot_map_feature_flags_t = u32;

/// None of the flags.
pub const F_NONE: hb_ot_map_feature_flags_t = 0;

/// The feature is on over the whole text.
pub const F_GLOBAL: hb_ot_map_feature_flags_t = 1;

/// The feature has a fallback: it gets a mask even if the face lacks it.
pub const F_HAS_FALLBACK: hb_ot_map_feature_flags_t = 2;

/// Lookups don't skip U+200C when they match context.
pub const F_MANUAL_ZWNJ: hb_ot_map_feature_flags_t = 4;

/// Lookups don't skip U+200D when they match input.
pub const F_MANUAL_ZWJ: hb_ot_map_feature_flags_t = 8;

/// Both of these: lookups don't skip the joiners.
pub const F_MANUAL_JOINERS: hb_ot_map_feature_flags_t = 12;

/// The feature is taken from any script of the table if the chosen one lacks it.
pub const F_GLOBAL_SEARCH: hb_ot_map_feature_flags_t = 16;

/// Alternates are chosen at random.
pub const F_RANDOM: hb_ot_map_feature_flags_t = 32;

/// Lookups stay inside one syllable.
pub const F_PER_SYLLABLE: hb_ot_map_feature_flags_t = 64;

/// On over the whole text, and lookups don't skip the joiners.
pub const F_GLOBAL_MANUAL_JOINERS: hb_ot_map_feature_flags_t = 13;

/// On over the whole text, with a fallback.
pub const F_GLOBAL_HAS_FALLBACK: hb_ot_map_feature_flags_t = 3;

/// The greatest value that a feature is asked for with.
pub const MAX_VALUE: u32 = 255;

/// One of the two tables of lookups (OpenType).
#[derive(Clone, Copy, PartialEq, Eq, Debug)]
pub enum TableIndex {
    GSUB,
    GPOS,
}

/// One request: a feature with its flags and value, a pause of substitution that may have a number,
/// or a pause that stands only if the language systems that are chosen in the font's tables lack a
/// feature.
#[derive(Clone, Copy, PartialEq, Eq, Debug)]
pub enum MapRequest {
    Feature {
        tag: hb_tag_t,
        flags: hb_ot_map_feature_flags_t,
        value: u32,
    },
    Pause(Option<u32>),
    PauseUnless(hb_tag_t),
}
