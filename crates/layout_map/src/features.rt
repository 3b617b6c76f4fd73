//! Settings looked up in the tables, and the bits of the mask that each feature gets.
//!
//! A feature that is on everywhere with value 1 shares the last bit of a mask with all such
//! features. Another one gets bits of its own, as many as its greatest value needs and at most 8,
//! from bit 4 on: the lower bits of a mask are those of the glyph flags. A feature that no table
//! has gets none unless it has a fallback.
ghost use Rattle.std.specs.Prelude.{◌≡◌, ◌<◌, ◌+◌, ◌^◌, [], true, false, nat_eq, if◌then◌else◌, IfOk, IsOkUnless};
ghost use Rattle.shape_buffer.specs.Layout.{HasNoDefinedFlag};
ghost use Rattle.layout_map.specs.Chosen.{required_tag_of};
ghost use Rattle.layout_map.specs.Features;

use crate::chosen::ChosenTable;
use crate::settings::{Setting, has_flag};
use shape_buffer::ShapeError;
use shape_buffer::interfaces::{
    F_GLOBAL_SEARCH, F_MANUAL_ZWJ, F_MANUAL_ZWNJ, F_PER_SYLLABLE, F_RANDOM,
};

/// The place of the last bit, counted from bit 4.
const GLOBAL_PLACE: u32 = 27;

/// The last bit of a mask, counted from bit 4: that of all features that are on everywhere with
/// value 1.
pub const GLOBAL_BIT: u32 = 134_217_728;

/// The indexes of a feature in `GSUB` and `GPOS`.
#[derive(Clone, Copy, PartialEq, Eq, Debug)]
pub struct Indexes {
    pub gsub: Option<u16>,
    pub gpos: Option<u16>,
}

/// A feature of a map.
///
/// `place` is the first of its bits and `bits` are all of them, both counted from bit 4 of a mask.
/// `stage` is that of `GSUB`. `auto_zwnj` and `auto_zwj`: lookups skip the joiners; `random`:
/// alternates are chosen at random; `per_syllable`: lookups stay inside one syllable.
#[derive(Clone, Copy, PartialEq, Eq, Debug)]
pub struct FeatureMap {
    pub tag: u32,
    pub gsub: Option<u16>,
    pub gpos: Option<u16>,
    pub stage: usize,
    pub place: u32,
    pub bits: u32,
    pub needs_fallback: bool,
    pub auto_zwnj: bool,
    pub auto_zwj: bool,
    pub random: bool,
    pub per_syllable: bool,
}

/// What is left while bits are allotted: the first free bit, the bits of values that are on
/// everywhere, and the stage of the required feature of `GSUB`.
#[derive(Clone, Copy)]
pub struct Room {
    pub place: u32,
    pub global: u32,
    pub required_stage: usize,
}

/// Whether the feature is on everywhere with value 1.
fn is_plain(setting: Setting) -> bool
    ensures { result ≡ Features.is_plain setting }
{
    setting.is_global && setting.max_value == 1
}

/// How many bits hold a value, at most 8.
fn bit_storage(value: u32) -> u32
    ensures value { result ≡ Features.bit_storage value }
    ensures few { result < 9 }
{
    match value {
        0..2 => 1,
        2..4 => 2,
        4..8 => 3,
        8..16 => 4,
        16..32 => 5,
        32..64 => 6,
        64..128 => 7,
        _ => 8,
    }
}

/// How many bits of its own a feature needs.
fn bits_needed(setting: Setting) -> u32
    ensures value { result ≡ Features.bits_needed setting }
    ensures few { result < 9 }
{
    if is_plain(setting) {
        0
    } else {
        bit_storage(setting.max_value)
    }
}

/// Whether the feature is on at all, and there are bits for it.
fn has_room(room: Room, setting: Setting) -> bool
    requires { room.place < 27 }
    ensures { result ≡ Features.has_room room.place setting }
{
    0 < setting.max_value && room.place + bits_needed(setting) < GLOBAL_PLACE
}

/// The indexes of a feature that the language systems list.
fn own_indexes(gsub: &ChosenTable<'_>, gpos: &ChosenTable<'_>, tag: u32) -> Indexes
    ensures { result ≡ Features.own_indexes gsub.now gpos.now tag }
{
    Indexes {
        gsub: gsub.index(tag),
        gpos: gpos.index(tag),
    }
}

/// Whether a table has the feature.
fn is_found(indexes: Indexes) -> bool
    ensures { result ≡ Features.is_found indexes }
{
    indexes.gsub.is_some() || indexes.gpos.is_some()
}

/// Whether a language system that is chosen in the tables lists the feature.
pub fn is_listed(gsub: &ChosenTable<'_>, gpos: &ChosenTable<'_>, tag: u32) -> bool
    ensures { result ≡ Features.is_listed gsub.now gpos.now tag }
{
    is_found(own_indexes(gsub, gpos, tag))
}

/// The indexes of a feature in the tables, searched in all of them if its request says so.
#[inline(never)]
fn looked_up(gsub: &ChosenTable<'_>, gpos: &ChosenTable<'_>, setting: Setting) -> Indexes
    ensures { result ≡ Features.indexes_of gsub.now gpos.now setting }
{
    let own = own_indexes(gsub, gpos, setting.tag);
    if !is_found(own) && has_flag(setting.flags, F_GLOBAL_SEARCH) {
        Indexes {
            gsub: gsub.any_index(setting.tag),
            gpos: gpos.any_index(setting.tag),
        }
    } else {
        own
    }
}

fn feature_with(setting: Setting, indexes: Indexes, place: u32, bits: u32) -> FeatureMap
    ensures { result ≡ Features.feature_with setting indexes place bits }
{
    FeatureMap {
        tag: setting.tag,
        gsub: indexes.gsub,
        gpos: indexes.gpos,
        stage: setting.stage,
        place,
        bits,
        needs_fallback: !is_found(indexes),
        auto_zwnj: !has_flag(setting.flags, F_MANUAL_ZWNJ),
        auto_zwj: !has_flag(setting.flags, F_MANUAL_ZWJ),
        random: has_flag(setting.flags, F_RANDOM),
        per_syllable: has_flag(setting.flags, F_PER_SYLLABLE),
    }
}

/// The bit at a place.
#[tactic(auto, using(crate::proofs::BitLemmas::unit_whole))]
fn unit(place: u32) -> u32
    requires { place < 32 }
    ensures { result ≡ 2 ^ place }
{
    1 << place
}

/// So many bits from a place on.
#[tactic(auto, using(crate::proofs::BitLemmas::bits_whole, std::proofs::lemmas::Nat::pow_pos))]
fn bits_from(place: u32, count: u32) -> u32
    requires { place + count < 27 }
    ensures { result ≡ Features.bits_from place count }
{
    (unit(count) - 1) << place
}

/// Gives a feature bits of its own.
fn give_own(
    features: &mut Vec<FeatureMap>,
    room: Room,
    setting: Setting,
    indexes: Indexes,
) -> Result<Room, ShapeError>
    requires own { Features.is_plain setting ≡ false }
    requires room { Features.has_room room.place setting ≡ true }
    ensures ok { IfOk result (λ r. record {
      features = features.new.items;
      place = r.place;
      global = r.global;
      required_stage = r.required_stage;
    } ≡ Features.with_feature (record {
      features = features.old.items;
      place = room.place;
      global = room.global;
      required_stage = room.required_stage;
    }) setting indexes) }
    ensures near { IfOk result (λ r. r.place < 27) }
    ensures memory { IsOkUnless result ShapeError.Memory }
{
    let count = bits_needed(setting);
    let bits = bits_from(room.place, count);
    features.push(feature_with(setting, indexes, room.place, bits))?;
    Ok(Room {
        place: room.place + count,
        global: room.global | ((setting.default_value << room.place) & bits),
        required_stage: room.required_stage,
    })
}

/// Gives a feature its bits.
fn give(
    features: &mut Vec<FeatureMap>,
    room: Room,
    setting: Setting,
    indexes: Indexes,
) -> Result<Room, ShapeError>
    requires { Features.has_room room.place setting ≡ true }
    ensures ok { IfOk result (λ r. record {
      features = features.new.items;
      place = r.place;
      global = r.global;
      required_stage = r.required_stage;
    } ≡ Features.with_feature (record {
      features = features.old.items;
      place = room.place;
      global = room.global;
      required_stage = room.required_stage;
    }) setting indexes) }
    ensures near { IfOk result (λ r. r.place < 27) }
    ensures memory { IsOkUnless result ShapeError.Memory }
{
    if !is_plain(setting) {
        return give_own(features, room, setting, indexes);
    }
    features.push(feature_with(setting, indexes, GLOBAL_PLACE, GLOBAL_BIT))?;
    Ok(room)
}

/// Gives a feature its bits if a table has it or it has a fallback.
#[inline(never)]
fn give_found(
    features: &mut Vec<FeatureMap>,
    room: Room,
    setting: Setting,
    indexes: Indexes,
) -> Result<Room, ShapeError>
    requires { Features.has_room room.place setting ≡ true }
    ensures ok { IfOk result (λ r. record {
      features = features.new.items;
      place = r.place;
      global = r.global;
      required_stage = r.required_stage;
    } ≡ Features.with_indexes (record {
      features = features.old.items;
      place = room.place;
      global = room.global;
      required_stage = room.required_stage;
    }) setting indexes) }
    ensures near { IfOk result (λ r. r.place < 27) }
    ensures memory { IsOkUnless result ShapeError.Memory }
{
    if is_found(indexes) || setting.has_fallback {
        give(features, room, setting, indexes)
    } else {
        Ok(room)
    }
}

/// The same room, with the stage of the required feature if the setting has its tag.
fn with_stage(gsub: &ChosenTable<'_>, room: Room, setting: Setting) -> Room
    ensures place { result.place ≡ room.place }
    ensures global { result.global ≡ room.global }
    ensures stage { result.required_stage ≡ (if nat_eq (required_tag_of gsub.now) setting.tag
        then setting.stage else room.required_stage) }
{
    if gsub.required_tag() == setting.tag {
        Room {
            place: room.place,
            global: room.global,
            required_stage: setting.stage,
        }
    } else {
        room
    }
}

/// Whether a setting may change anything: it may be the required one, or in a table, or do without.
#[tactic(auto, using(crate::proofs::NeutralLemmas::neutral))]
#[inline]
fn may_matter(gsub: &ChosenTable<'_>, gpos: &ChosenTable<'_>, setting: Setting) -> bool
    ensures { result ≡ false → (a : Features.Allotment)
        → Features.with_setting gsub.now gpos.now a setting ≡ a }
{
    gsub.may_list(setting.tag)
        || gpos.may_list(setting.tag)
        || setting.has_fallback
        || has_flag(setting.flags, F_GLOBAL_SEARCH)
        || gsub.required_tag() == setting.tag
}

/// Looks a setting up, and gives it its bits. One that can't matter, as most of those that every
/// text asks for, is passed over at once.
fn add(
    gsub: &ChosenTable<'_>,
    gpos: &ChosenTable<'_>,
    features: &mut Vec<FeatureMap>,
    room: Room,
    setting: Setting,
) -> Result<Room, ShapeError>
    requires { room.place < 27 }
    ensures ok { IfOk result (λ r. record {
      features = features.new.items;
      place = r.place;
      global = r.global;
      required_stage = r.required_stage;
    } ≡ Features.with_setting gsub.now gpos.now (record {
      features = features.old.items;
      place = room.place;
      global = room.global;
      required_stage = room.required_stage;
    }) setting) }
    ensures near { IfOk result (λ r. r.place < 27) }
    ensures memory { IsOkUnless result ShapeError.Memory }
{
    if !may_matter(gsub, gpos, setting) {
        return Ok(room);
    }
    if !has_room(room, setting) {
        return Ok(room);
    }
    let found = looked_up(gsub, gpos, setting);
    give_found(features, with_stage(gsub, room, setting), setting, found)
}

/// Allots bits to the features of these settings, in their order; `features` comes in empty.
/// Returns what is left. Refuses with `Memory` if a growth was refused.
pub fn allot(
    gsub: &ChosenTable<'_>,
    gpos: &ChosenTable<'_>,
    features: &mut Vec<FeatureMap>,
    settings: &[Setting],
) -> Result<Room, ShapeError>
    requires { features.old.items ≡ [] }
    ensures ok { IfOk result (λ r. record {
      features = features.new.items;
      place = r.place;
      global = r.global;
      required_stage = r.required_stage;
    } ≡ Features.allotted gsub.now gpos.now settings.now) }
    ensures memory { IsOkUnless result ShapeError.Memory }
{
    let mut room = Room {
        place: 0,
        global: GLOBAL_BIT,
        required_stage: 0,
    };
    features.reserve(settings.len())?;
    for setting in settings {
        room = add(gsub, gpos, features, room, *setting)?;
    }
    Ok(room)
}

/// Bits in their place in a mask: none of the four lowest is among them.
#[tactic(auto, using(crate::proofs::BitLemmas::mask_is_free))]
pub fn mask(bits: u32) -> u32
    ensures value { result ≡ Features.mask_of bits }
    ensures free { HasNoDefinedFlag result }
{
    bits << 4
}

impl FeatureMap {
    /// The bits of a mask that hold the feature's value.
    pub fn mask(&self) -> u32
        ensures { result ≡ Features.mask_of self.now.bits }
    {
        mask(self.bits)
    }

    /// The mask that sets the feature to 1.
    pub fn one_mask(&self) -> u32
        ensures { result ≡ Features.mask_of (Features.one_bit_of self.now) }
    {
        mask(unit(self.place.min(GLOBAL_PLACE)) & self.bits)
    }

    /// How far a value is shifted in a mask.
    pub fn shift(&self) -> u32
        ensures value { result ≡ Features.shift_of self.now }
        ensures small { result < 32 }
    {
        4 + self.place.min(GLOBAL_PLACE)
    }
}
