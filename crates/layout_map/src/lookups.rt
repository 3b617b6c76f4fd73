//! The lookups of a stage, each once, in order of the table.
//!
//! Each lookup of the table has a slot, in which the features that ask for it are joined; so a
//! feature costs as many steps as it lists lookups, whatever their order.
ghost use Rattle.std.specs.Prelude.{◌≡◌, ◌<◌, ◌^◌, ◌++◌, length, fold, replicate, is_some, IfOk, OnOk, IsOkUnless};
ghost use Rattle.std.specs.List.{list_any};
ghost use Rattle.layout_map.specs.Lookups;

use crate::chosen::ChosenTable;
use crate::features::{FeatureMap, GLOBAL_BIT, mask};
use layout_tables::features::{feature_lookup, feature_lookup_count};
use shape_buffer::ShapeError;
use std::alloc::Global;

/// How the features of a stage use a lookup: the mask for which it is on, empty if none asks for
/// it; whether it skips the joiners U+200C and U+200D; whether it chooses alternates at random, and
/// stays inside one syllable.
#[derive(Clone, Copy, PartialEq, Eq, Debug)]
pub struct LookupUse {
    pub mask: u32,
    pub auto_zwnj: bool,
    pub auto_zwj: bool,
    pub random: bool,
    pub per_syllable: bool,
}

/// A lookup of a stage: its index in the table, and how it is used.
#[derive(Clone, Copy, PartialEq, Eq, Debug)]
pub struct LookupMap {
    pub index: u16,
    pub mask: u32,
    pub auto_zwnj: bool,
    pub auto_zwj: bool,
    pub random: bool,
    pub per_syllable: bool,
}

/// A lookup that no feature asks for.
fn unused() -> LookupUse
    ensures { result ≡ Lookups.unused }
{
    LookupUse {
        mask: 0,
        auto_zwnj: true,
        auto_zwj: true,
        random: false,
        per_syllable: false,
    }
}

/// A lookup that several features ask for.
fn joined(old: LookupUse, new: LookupUse) -> LookupUse
    ensures { result ≡ Lookups.use_joined old new }
{
    if old.mask == 0 {
        return new;
    }
    LookupUse {
        mask: old.mask | new.mask,
        auto_zwnj: old.auto_zwnj && new.auto_zwnj,
        auto_zwj: old.auto_zwj && new.auto_zwj,
        random: old.random,
        per_syllable: old.per_syllable,
    }
}

/// How a feature uses its lookups.
fn use_of(feature: &FeatureMap) -> LookupUse
    ensures { result ≡ Lookups.use_of feature.now }
{
    LookupUse {
        mask: feature.mask(),
        auto_zwnj: feature.auto_zwnj,
        auto_zwj: feature.auto_zwj,
        random: feature.random,
        per_syllable: feature.per_syllable,
    }
}

/// How the required feature uses its lookups.
fn required_use() -> LookupUse
    ensures { result ≡ Lookups.required_use }
{
    LookupUse {
        mask: mask(GLOBAL_BIT),
        auto_zwnj: true,
        auto_zwj: true,
        random: false,
        per_syllable: false,
    }
}

/// Asks for one lookup, if the table has it.
fn ask(uses: &mut [LookupUse], new: LookupUse, index: u16)
    ensures { uses.new ≡ Lookups.with_use new uses.old index }
{
    let i = usize::from(index);
    if i < uses.len() {
        let old = uses[i];
        uses[i] = joined(old, new);
    }
}

/// Asks for the lookups of the Feature table at `feature`.
#[tactic(auto, using(crate::proofs::EachLemmas::each_next, crate::proofs::EachLemmas::each_end))]
fn ask_each(table: &[u8], uses: &mut [LookupUse], new: LookupUse, feature: usize)
    requires { feature < 2 ^ 35 }
    ensures { uses.new ≡ Lookups.place_used table.now new uses.old feature }
{
    for j in 0..feature_lookup_count(table, feature) {
        ask(uses, new, feature_lookup(table, feature, j));
    }
}

/// Asks for the lookups of a feature, if the table has it.
fn ask_feature(table: &ChosenTable<'_>, uses: &mut [LookupUse], new: LookupUse, index: Option<u16>)
    ensures { uses.new ≡ Lookups.index_used table.now new uses.old index }
{
    if let Some(feature) = table.feature(index) {
        ask_each(table.bytes(), uses, new, feature);
    }
}

/// The index of a feature in `GSUB`, if it is of the stage.
fn gsub_index(stage: usize, feature: &FeatureMap) -> Option<u16>
    ensures { result ≡ Lookups.gsub_index stage feature.now }
{
    if feature.stage == stage {
        feature.gsub
    } else {
        None
    }
}

/// The index of the required feature, if this is its stage.
fn required_index(table: &ChosenTable<'_>, here: bool) -> Option<u16>
    ensures { result ≡ Lookups.required_index table.now here }
{
    if here { table.required() } else { None }
}

/// So many slots of lookups that no feature asks for. Refuses with `Memory` if a growth was
/// refused.
fn empty_slots(alloc: Global, count: u32) -> Result<Vec<LookupUse>, ShapeError>
    ensures ok { IfOk result (λ uses. uses.items ≡ replicate count Lookups.unused) }
    ensures count { IfOk result (λ uses. length uses.items ≡ count) }
    ensures memory { IsOkUnless result ShapeError.Memory }
{
    let mut uses = Vec::new(alloc);
    uses.resize(count as usize, unused())?;
    Ok(uses)
}

/// A slot for each lookup of the table; the required feature has asked for its own, if this is its
/// stage. Refuses with `Memory` if a growth was refused.
fn slots(alloc: Global, table: &ChosenTable<'_>, here: bool) -> Result<Vec<LookupUse>, ShapeError>
    ensures ok { IfOk result (λ uses. uses.items ≡ Lookups.required_used table.now here) }
    ensures few { IfOk result (λ uses. length uses.items < 2 ^ 16) }
    ensures memory { IsOkUnless result ShapeError.Memory }
{
    let mut uses = empty_slots(alloc, table.lookup_count())?;
    ask_feature(
        table,
        uses.as_mut_slice(),
        required_use(),
        required_index(table, here),
    );
    Ok(uses)
}

/// The features of a stage ask for their lookups of `GSUB`.
fn ask_gsub(table: &ChosenTable<'_>, uses: &mut [LookupUse], features: &[FeatureMap], stage: usize)
    ensures { uses.new ≡ fold (λ uses f. Lookups.index_used table.now (Lookups.use_of f) uses
        (Lookups.gsub_index stage f)) uses.old features.now }
{
    for feature in features {
        ask_feature(table, uses, use_of(feature), gsub_index(stage, feature));
    }
}

/// The features ask for their lookups of `GPOS`.
fn ask_gpos(table: &ChosenTable<'_>, uses: &mut [LookupUse], features: &[FeatureMap])
    ensures { uses.new ≡ fold (λ uses f. Lookups.index_used table.now
        (Lookups.use_of f) uses f.gpos)
        uses.old features.now }
{
    for feature in features {
        ask_feature(table, uses, use_of(feature), feature.gpos);
    }
}

fn lookup_with(index: u16, uses: LookupUse) -> LookupMap
    ensures { result ≡ Lookups.lookup_with index uses }
{
    LookupMap {
        index,
        mask: uses.mask,
        auto_zwnj: uses.auto_zwnj,
        auto_zwj: uses.auto_zwj,
        random: uses.random,
        per_syllable: uses.per_syllable,
    }
}

/// Appends the lookups that are asked for. Refuses with `Memory` if a growth was refused.
fn append_used(lookups: &mut Vec<LookupMap>, uses: &[LookupUse]) -> Result<(), ShapeError>
    requires { length uses.now < 2 ^ 16 }
    ensures ok { OnOk result (lookups.new.items
        ≡ lookups.old.items ++ Lookups.used_from 0 uses.now) }
    ensures memory { IsOkUnless result ShapeError.Memory }
{
    for (i, found) in uses.iter().enumerate() {
        if found.mask != 0 {
            lookups.push(lookup_with(i as u16, *found))?;
        }
    }
    Ok(())
}

/// Whether a feature of the stage may ask for lookups of `GSUB`.
fn some_asks(features: &[FeatureMap], stage: usize) -> bool
    ensures { result ≡ list_any (λ f. is_some (Lookups.gsub_index stage f)) features.now }
{
    for feature in features {
        if gsub_index(stage, feature).is_some() {
            return true;
        }
    }
    false
}

/// Appends the lookups of a stage of `GSUB`. Refuses with `Memory` if a growth was refused.
#[tactic(auto, using(crate::proofs::IdleLemmas::idle))]
pub fn append_gsub(
    alloc: Global,
    table: &ChosenTable<'_>,
    features: &[FeatureMap],
    required_stage: usize,
    stage: usize,
    lookups: &mut Vec<LookupMap>,
) -> Result<(), ShapeError>
    ensures ok { OnOk result (lookups.new.items ≡ lookups.old.items
        ++ Lookups.gsub_lookups table.now features.now required_stage stage) }
    ensures memory { IsOkUnless result ShapeError.Memory }
{
    // The first stage is for variations, which few fonts have.
    if required_stage != stage && !some_asks(features, stage) {
        return Ok(());
    }
    let mut uses = slots(alloc, table, required_stage == stage)?;
    ask_gsub(table, uses.as_mut_slice(), features, stage);
    append_used(lookups, uses.as_slice())
}

/// Appends the lookups of `GPOS`, which has one stage. Refuses with `Memory` if a growth was
/// refused.
pub fn append_gpos(
    alloc: Global,
    table: &ChosenTable<'_>,
    features: &[FeatureMap],
    lookups: &mut Vec<LookupMap>,
) -> Result<(), ShapeError>
    ensures ok { OnOk result (lookups.new.items ≡ lookups.old.items
        ++ Lookups.gpos_lookups table.now features.now) }
    ensures memory { IsOkUnless result ShapeError.Memory }
{
    let mut uses = slots(alloc, table, true)?;
    ask_gpos(table, uses.as_mut_slice(), features);
    append_used(lookups, uses.as_slice())
}
