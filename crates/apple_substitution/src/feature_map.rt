//! Which settings of Apple's registry the features that are asked for choose, and in which ranges
//! of a text, as HarfBuzz's `hb-aat-map.cc` has it.
//!
//! A feature of OpenType has a type in the registry, and a setting for on and for off; it chooses
//! one if the table `feat` of the font has the type.
ghost use Rattle.std.specs.Prelude.{◌≡◌, ◌<◌, ◌+◌, ◌*◌, ◌^◌, length, map, OnOk, IfOk, IsOkUnless};
ghost use Rattle.std.specs.List.{list_any};
ghost use Rattle.apple_substitution.specs.FeatureMap as map_rules;
ghost use Rattle.apple_substitution.specs.FeatureRanges.{request_of};

use crate::chains::Feature;
use crate::feat::exclusive;
use crate::feature_ranges::FeatureRange;
use crate::registry::{Mapping, mapping_of};
use shape_buffer::ShapeError;
use std::alloc::{AllocError, Global};

/// The tag of access to all alternates.
const AALT: u32 = 0x6161_6C74;

/// The greatest cluster.
const LAST: u32 = 0xFFFF_FFFF;

/// A setting that is chosen over the clusters from one up to another.
#[derive(Clone, Copy, Debug)]
pub struct Choice {
    /// The setting, with its type.
    pub feature: Feature,
    /// Whether the settings of its type exclude each other.
    pub is_exclusive: bool,
    /// The first cluster.
    pub start: u32,
    /// The cluster after the last one.
    pub end: u32,
}

/// A setting that a feature chooses.
fn chosen(feature: &shape_common::Feature, kind: u16, setting: u32, is_exclusive: bool) -> Choice
    ensures { result ≡ map_rules.chosen feature.now kind setting is_exclusive }
{
    Choice {
        feature: Feature { kind, setting },
        is_exclusive,
        start: feature.start,
        end: feature.end,
    }
}

/// Whether the settings of a type that OpenType has exclude each other; none if the font has no
/// settings of the type. Small capitals were of type 3, see
/// <https://github.com/harfbuzz/harfbuzz/issues/2307>.
fn exclusive_for(feat: &[u8], mapping: &Mapping) -> Option<bool>
    ensures { result ≡ map_rules.exclusive_for feat.now mapping.now }
{
    match exclusive(feat, mapping.kind) {
        Some(is_exclusive) => Some(is_exclusive),
        None if mapping.kind == 37 && mapping.on == 1 => exclusive(feat, 3),
        None => None,
    }
}

/// The setting that a feature chooses by the registry.
fn mapped(feat: &[u8], feature: &shape_common::Feature, mapping: &Mapping) -> Option<Choice>
    ensures { result ≡ map_rules.mapped feat.now feature.now mapping.now }
{
    let is_exclusive = exclusive_for(feat, mapping)?;
    let setting = if feature.value == 0 {
        mapping.off
    } else {
        mapping.on
    };
    Some(chosen(feature, mapping.kind, u32::from(setting), is_exclusive))
}

/// The setting that a feature chooses.
fn choice_of(feat: &[u8], feature: &shape_common::Feature) -> Option<Choice>
    ensures { result ≡ map_rules.choice_of feat.now feature.now }
{
    if feature.end <= feature.start {
        return None;
    }
    if feature.tag.0 == AALT {
        let _is_exclusive = exclusive(feat, 17)?;
        return Some(chosen(feature, 17, feature.value, true));
    }
    let mapping = mapping_of(feature.tag.0)?;
    mapped(feat, feature, &mapping)
}

/// The settings that features choose.
fn choices_of(
    alloc: Global,
    feat: &[u8],
    features: &[shape_common::Feature],
) -> Result<Vec<Choice>, AllocError>
    ensures { IfOk result (λ choices. choices.items
        ≡ map_rules.choices_of feat.now features.now) }
{
    features
        .iter()
        .filter_map(|feature| choice_of(feat, feature))
        .collect(alloc)
}

/// Whether one of these settings goes against one that is chosen.
fn is_decided(features: &[Feature], choice: &Choice) -> bool
    ensures { result ≡ list_any (map_rules.is_against choice.now) features.now }
{
    let feature = choice.feature;
    features.iter().any(|other| {
        other.kind == feature.kind
            && (choice.is_exclusive || other.setting / 2 == feature.setting / 2)
    })
}

/// Adds a setting to those of a cluster, if it is chosen there, and none is against it. Refuses
/// with `Memory` alone, if a growth was refused.
fn add(features: &mut Vec<Feature>, cluster: u32, choice: &Choice) -> Result<(), ShapeError>
    ensures ok { OnOk result (features.new.items
        ≡ map_rules.added cluster features.old.items choice.now) }
    ensures memory { IsOkUnless result ShapeError.Memory }
{
    let is_in = choice.start <= cluster && cluster < choice.end;
    if is_in && !is_decided(features.as_slice(), choice) {
        features.push(choice.feature)?;
    }
    Ok(())
}

/// The settings in a cluster. Refuses with `Memory` alone, if a growth was refused.
fn features_in(alloc: Global, cluster: u32, choices: &[Choice]) -> Result<Vec<Feature>, ShapeError>
    ensures ok { IfOk result (λ features. features.items
        ≡ map_rules.features_in cluster choices.now) }
    ensures memory { IsOkUnless result ShapeError.Memory }
{
    let mut features = Vec::new(alloc);
    for i in 0..choices.len() {
        add(&mut features, cluster, &choices[i])?;
    }
    Ok(features)
}

/// The place of a beginning or an end after a cluster, if it is nearer.
fn nearer(cluster: u32, nearest: u32, edge: u32) -> u32
    ensures { result ≡ map_rules.nearer cluster nearest edge }
{
    if cluster < edge && edge < nearest {
        edge
    } else {
        nearest
    }
}

/// The next cluster where a choice begins or ends, the greatest one if there is none.
fn edge_after(cluster: u32, choices: &[Choice]) -> u32
    ensures { result ≡ map_rules.edge_after cluster choices.now }
{
    let mut nearest = LAST;
    for i in 0..choices.len() {
        nearest = nearer(cluster, nearest, choices[i].start);
        nearest = nearer(cluster, nearest, choices[i].end);
    }
    nearest
}

/// The range from a cluster up to the next one where a choice begins or ends. Refuses with
/// `Memory` alone, if a growth was refused.
fn range_at(
    alloc: Global,
    choices: &[Choice],
    cluster: u32,
    next: u32,
) -> Result<FeatureRange, ShapeError>
    ensures ok { IfOk result (λ range. request_of range
        ≡ map_rules.range_at choices.now cluster next) }
    ensures memory { IsOkUnless result ShapeError.Memory }
{
    Ok(FeatureRange {
        last: if next == LAST {
            LAST
        } else {
            next.saturating_sub(1)
        },
        features: features_in(alloc, cluster, choices)?,
    })
}

/// The ranges of a text with the settings there. Refuses with `Memory` alone, if a growth was
/// refused.
fn ranges_of(alloc: Global, choices: &[Choice]) -> Result<Vec<FeatureRange>, ShapeError>
    ensures ok { IfOk result (λ ranges. map request_of ranges.items
        ≡ map_rules.ranges_of choices.now) }
    ensures memory { IsOkUnless result ShapeError.Memory }
{
    let most = 2 * choices.len() + 1;
    let mut ranges = Vec::new(alloc);
    let mut cluster = 0;
    for _i in 0..most {
        let next = edge_after(cluster, choices);
        ranges.push(range_at(alloc, choices, cluster, next)?)?;
        if next == LAST {
            return Ok(ranges);
        }
        cluster = next;
    }
    Ok(ranges)
}

/// The ranges of a text with the settings that features choose there, by the table `feat` of the
/// font. The last range ends with the greatest cluster. There are at most two ranges for each
/// feature, and one; each takes a look at all features, and for each at the settings that are on
/// there. Refuses with `Memory` alone, if a growth was refused.
#[tactic(auto, unfolding(crate::specs::FeatureMap::requests_of))]
pub fn map_features(
    alloc: Global,
    feat: &[u8],
    features: &[shape_common::Feature],
) -> Result<Vec<FeatureRange>, ShapeError>
    ensures ok { IfOk result (λ ranges. map request_of ranges.items
        ≡ map_rules.requests_of feat.now features.now) }
    ensures memory { IsOkUnless result ShapeError.Memory }
{
    let choices = choices_of(alloc, feat, features)?;
    ranges_of(alloc, choices.as_slice())
}
