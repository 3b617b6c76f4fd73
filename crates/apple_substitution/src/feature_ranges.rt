//! Features that are asked for in ranges of a text, and the flags of a chain there.
ghost use Rattle.std.specs.Prelude.{◌≡◌, map, IfOk, IsOkUnless};
ghost use Rattle.apple_substitution.specs.FeatureRanges as feature_rules;
ghost use Rattle.apple_substitution.specs.FeatureRanges.{request_of};
ghost use Rattle.apple_substitution.specs.Languages.{spoken_of};

use crate::chains::{Feature, chain_flags, entry_count};
use crate::languages::{Languages, MOST_LETTERS};
use crate::ranges::{FlagRange, STEP_WORK};
use shape_buffer::ShapeError;
use std::alloc::Global;

/// Features that are asked for in a range of a text, which begins after the range before.
#[derive(Drop, Debug)]
pub struct FeatureRange {
    /// The last cluster of the range.
    pub last: u32,
    /// The features.
    pub features: Vec<Feature>,
}

/// The flags of a chain in ranges of the text. Refuses with `Memory` alone, if a growth was
/// refused.
pub(crate) fn flags_of(
    alloc: Global,
    morx: &[u8],
    chain: u32,
    features: &[FeatureRange],
    languages: &Languages<'_>,
) -> Result<Vec<FlagRange>, ShapeError>
    ensures ok { IfOk result (λ flags. flags.items
        ≡ feature_rules.flags_of morx.now (spoken_of languages.now) chain
        (map request_of features.now)) }
    ensures memory { IsOkUnless result ShapeError.Memory }
{
    let mut flags = Vec::new(alloc);
    for i in 0..features.len() {
        let range = &features[i];
        flags.push(FlagRange {
            last: range.last,
            flags: chain_flags(morx, range.features.as_slice(), languages, chain),
        })?;
    }
    Ok(flags)
}

/// How many looks at a feature or a letter an entry of a chain takes, with one at each range.
fn looks(features: &[FeatureRange], languages: &Languages<'_>) -> usize
    ensures { result ≡ feature_rules.looks (spoken_of languages.now) (map request_of features.now) }
{
    let each = 1 + languages.text.len().min(MOST_LETTERS);
    let mut looks: usize = 0;
    for i in 0..features.len() {
        looks = looks
            .saturating_add(each)
            .saturating_add(features[i].features.len());
    }
    looks
}

/// What the flags of a chain cost.
pub(crate) fn flags_work(
    morx: &[u8],
    chain: u32,
    features: &[FeatureRange],
    languages: &Languages<'_>,
) -> usize
    ensures { result ≡ feature_rules.flags_work morx.now (spoken_of languages.now) chain
        (map request_of features.now) }
{
    let entries = entry_count(morx, chain) as usize;
    STEP_WORK.saturating_add(entries.saturating_mul(looks(features, languages)))
}
