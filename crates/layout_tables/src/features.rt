//! Features of a table of lookups (`GSUB`, `GPOS`), and the lookups of each.
ghost use Rattle.std.specs.Prelude.{◌≡◌, ◌≢◌, ◌<◌, ◌^◌, ℕ, true};
ghost use Rattle.std.specs.Option.{IfSome};
ghost use Rattle.shape_font.specs.Search.{first_at};
ghost use Rattle.layout_tables.specs.Features;
ghost use Rattle.layout_tables.specs.Offsets.{header_offset_of};

use crate::offsets::{header_offset, offset16};
use shape_font::bytes::{records, u16_at, u32_at};

/// How many features the FeatureList at `list` has.
fn features(table: &[u8], list: usize) -> u32
    requires { list < 2 ^ 16 }
    ensures value { result ≡ Features.features_at table.now list }
    ensures few { result < 2 ^ 16 }
{
    records(table, u32::from(u16_at(table, list)), list + 2, 6)
}

/// Where the FeatureList of a table stands, none if it has none, and how many features it has.
/// Searches share them, and don't read them for each feature that they look at.
#[derive(Clone, Copy)]
pub struct FeatureList {
    pub place: Option<usize>,
    pub count: u32,
}

/// The FeatureList of a table.
pub fn feature_list(table: &[u8]) -> FeatureList
    ensures place { result.place ≡ header_offset_of table.now 6 }
    ensures near { IfSome result.place (λ list. list < 2 ^ 16) }
    ensures count { result.count ≡ Features.feature_count_of table.now }
    ensures few { result.count < 2 ^ 16 }
{
    let place = header_offset(table, 6);
    let count = match place {
        Some(list) => features(table, list),
        None => 0,
    };
    FeatureList { place, count }
}

/// How many features the table has.
pub fn feature_count(table: &[u8]) -> u32
    ensures value { result ≡ Features.feature_count_of table.now }
    ensures few { result < 2 ^ 16 }
{
    feature_list(table).count
}

/// The tag of the feature with this index in a list, 0 past the last one.
#[inline]
fn tag_in(table: &[u8], list: FeatureList, index: u16) -> u32
    requires place { list.place ≡ header_offset_of table.now 6 }
    requires near { IfSome list.place (λ place. place < 2 ^ 16) }
    requires count { list.count ≡ Features.feature_count_of table.now }
    ensures { result ≡ Features.feature_tag_of table.now index }
{
    match list.place {
        Some(place) if u32::from(index) < list.count => {
            u32_at(table, place + 2 + 6 * usize::from(index))
        }
        _ => 0,
    }
}

/// The tag of the feature with this index, 0 past the last one.
pub fn feature_tag(table: &[u8], index: u16) -> u32
    ensures { result ≡ Features.feature_tag_of table.now index }
{
    tag_in(table, feature_list(table), index)
}

/// The index of the feature that is on for the language system at `lang_sys` whatever is asked;
/// none if it has none, or leads past the end of the table.
pub fn required_feature(table: &[u8], lang_sys: usize) -> Option<u16>
    requires { lang_sys < 2 ^ 18 }
    ensures { result ≡ Features.required_feature_of table.now lang_sys }
{
    let index = u16_at(table, lang_sys + 2);
    if index == 0xFFFF || table.len() < lang_sys + 6 {
        None
    } else {
        Some(index)
    }
}

/// Whether the feature with this index has the tag. None has the tag 0.
#[inline]
fn has_tag(table: &[u8], list: FeatureList, tag: u32, index: u16) -> bool
    requires place { list.place ≡ header_offset_of table.now 6 }
    requires near { IfSome list.place (λ place. place < 2 ^ 16) }
    requires count { list.count ≡ Features.feature_count_of table.now }
    ensures { result ≡ Features.has_tag table.now tag index }
{
    tag != 0 && tag_in(table, list, index) == tag
}

/// Whether feature `i` of those that the language system at `lang_sys` lists has the tag.
#[inline]
fn has_feature_tag(table: &[u8], list: FeatureList, lang_sys: usize, tag: u32, i: u32) -> bool
    requires near_system { lang_sys < 2 ^ 18 }
    requires place { list.place ≡ header_offset_of table.now 6 }
    requires near { IfSome list.place (λ place. place < 2 ^ 16) }
    requires count { list.count ≡ Features.feature_count_of table.now }
    ensures { result ≡ Features.has_feature_tag table.now lang_sys tag i }
{
    has_tag(
        table,
        list,
        tag,
        u16_at(table, lang_sys + 6 + 2 * i as usize),
    )
}

/// The first of the `count` features of a language system that has the tag.
#[tactic(auto, using(shape_font::proofs::SearchLemmas::first_at_next, shape_font::proofs::SearchLemmas::first_at_found, shape_font::proofs::SearchLemmas::first_at_end))]
fn feature_number(
    table: &[u8],
    list: FeatureList,
    lang_sys: usize,
    tag: u32,
    count: u32,
) -> Option<u32>
    requires near_system { lang_sys < 2 ^ 18 }
    requires place { list.place ≡ header_offset_of table.now 6 }
    requires near { IfSome list.place (λ place. place < 2 ^ 16) }
    requires count { list.count ≡ Features.feature_count_of table.now }
    ensures { result ≡ first_at (Features.has_feature_tag table.now lang_sys tag) count 0 }
{
    for i in 0..count {
        if has_feature_tag(table, list, lang_sys, tag, i) {
            return Some(i);
        }
    }
    None
}

/// The index of the feature with this tag that the language system at `lang_sys` lists, by the
/// table's FeatureList: the first one, if it lists several; none if it lists none, or the tag is 0.
pub fn listed_feature(table: &[u8], list: FeatureList, lang_sys: usize, tag: u32) -> Option<u16>
    requires near_system { lang_sys < 2 ^ 18 }
    requires place { list.place ≡ header_offset_of table.now 6 }
    requires near { IfSome list.place (λ place. place < 2 ^ 16) }
    requires count { list.count ≡ Features.feature_count_of table.now }
    ensures { result ≡ Features.feature_index_of table.now lang_sys tag }
{
    let stated = u32::from(u16_at(table, lang_sys + 4));
    let count = records(table, stated, lang_sys + 6, 2);
    let i = feature_number(table, list, lang_sys, tag, count)?;
    Some(u16_at(table, lang_sys + 6 + 2 * i as usize))
}

/// The place of a tag's bit in a digest of tags. A product spreads them, so that few of a font's
/// share one.
fn tag_place(tag: u32) -> u32
    ensures value { result ≡ Features.tag_place tag }
    ensures inside { result < 64 }
{
    tag.wrapping_mul(0x9E37_79B1) >> 26
}

/// Whether a digest of tags may hold this one. If not, it was not put in.
#[tactic(auto, using(crate::proofs::DigestLemmas::tested))]
#[inline(always)]
pub fn may_hold(digest: u64, tag: u32) -> bool
    ensures { result ≡ Features.may_hold digest tag }
{
    digest >> tag_place(tag) & 1 == 1
}

/// A digest with one tag more.
#[tactic(auto, using(crate::proofs::DigestLemmas::bit_set, crate::proofs::DigestLemmas::set_before, crate::proofs::DigestLemmas::other_bits))]
#[inline]
fn with_tag(digest: u64, tag: u32) -> u64
    ensures set { Features.may_hold result tag ≡ true }
    ensures kept { Features.KeepsTags digest result }
    ensures others { (other : ℕ) → Features.tag_place other ≢ Features.tag_place tag
        → Features.may_hold result other ≡ Features.may_hold digest other }
{
    digest | 1 << tag_place(tag)
}

/// The tag of feature `i` of those that the language system at `lang_sys` lists.
#[inline]
fn listed_tag(table: &[u8], list: FeatureList, lang_sys: usize, i: u32) -> u32
    requires near_system { lang_sys < 2 ^ 18 }
    requires place { list.place ≡ header_offset_of table.now 6 }
    requires near { IfSome list.place (λ place. place < 2 ^ 16) }
    requires count { list.count ≡ Features.feature_count_of table.now }
    ensures { result ≡ Features.listed_tag_of table.now lang_sys i }
{
    tag_in(table, list, u16_at(table, lang_sys + 6 + 2 * i as usize))
}

/// A digest of the tags of the first `count` features of a language system.
fn first_tags(table: &[u8], list: FeatureList, lang_sys: usize, count: u32) -> u64
    requires near_system { lang_sys < 2 ^ 18 }
    requires place { list.place ≡ header_offset_of table.now 6 }
    requires near { IfSome list.place (λ place. place < 2 ^ 16) }
    requires count { list.count ≡ Features.feature_count_of table.now }
    ensures held { Features.HoldsFirst table.now lang_sys count result }
    ensures only { Features.HasOnlyFirst table.now lang_sys count result }
{
    let mut digest = 0;
    for i in 0..count {
        digest = with_tag(digest, listed_tag(table, list, lang_sys, i));
    }
    digest
}

/// A digest of the tags of the features that the language system at `lang_sys` lists, by the
/// table's FeatureList: a tag that it doesn't hold need not be searched. It has no bit but theirs.
#[tactic(auto, using(crate::proofs::DigestLemmas::first_are_listed))]
pub fn listed_tags(table: &[u8], list: FeatureList, lang_sys: usize) -> u64
    requires near_system { lang_sys < 2 ^ 18 }
    requires place { list.place ≡ header_offset_of table.now 6 }
    requires near { IfSome list.place (λ place. place < 2 ^ 16) }
    requires count { list.count ≡ Features.feature_count_of table.now }
    ensures held { Features.HoldsListed table.now lang_sys result }
    ensures only { Features.HasOnlyListed table.now lang_sys result }
{
    let stated = u32::from(u16_at(table, lang_sys + 4));
    let count = records(table, stated, lang_sys + 6, 2);
    first_tags(table, list, lang_sys, count)
}

/// The index of the first feature of the table with this tag, whatever the language system; none if
/// it has none, or the tag is 0.
#[tactic(auto, using(shape_font::proofs::SearchLemmas::first_at_next, shape_font::proofs::SearchLemmas::first_at_found, shape_font::proofs::SearchLemmas::first_at_end))]
pub fn any_feature(table: &[u8], tag: u32) -> Option<u16>
    ensures { result ≡ Features.any_feature_of table.now tag }
{
    let list = feature_list(table);
    for i in 0..list.count as u16 {
        if has_tag(table, list, tag, i) {
            return Some(i);
        }
    }
    None
}

/// Where the Feature table of the feature with this index stands; none if the table has no such
/// feature.
pub fn feature(table: &[u8], index: u16) -> Option<usize>
    ensures value { result ≡ Features.feature_of table.now index }
    ensures near { IfSome result (λ feature. feature < 2 ^ 17) }
{
    let list = header_offset(table, 6)?;
    if features(table, list) <= u32::from(index) {
        return None;
    }
    offset16(table, list, list + 6 + 6 * usize::from(index))
}

/// How many lookups the Feature table at `feature` lists.
pub fn feature_lookup_count(table: &[u8], feature: usize) -> u32
    requires { feature < 2 ^ 35 }
    ensures value { result ≡ Features.feature_lookup_count_of table.now feature }
    ensures few { result < 2 ^ 16 }
{
    records(table, u32::from(u16_at(table, feature + 2)), feature + 4, 2)
}

/// The index of lookup `i` of those that the Feature table at `feature` lists.
pub fn feature_lookup(table: &[u8], feature: usize, i: u32) -> u16
    requires { feature < 2 ^ 35 }
    ensures { result ≡ Features.feature_lookup_of table.now feature i }
{
    u16_at(table, feature + 4 + 2 * i as usize)
}
