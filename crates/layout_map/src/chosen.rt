//! A table of lookups (`GSUB`, `GPOS`), and what is chosen in it for a text.
ghost use Rattle.std.specs.Prelude.{◌≡◌, ◌<◌, ◌^◌, false, None};
ghost use Rattle.std.specs.Option.{ForSome, IfSome, option_and_then, option_map_or};
ghost use Rattle.layout_tables.specs.Features.{HoldsListed, feature_count_of, feature_tag_of, required_feature_of};
ghost use Rattle.layout_tables.specs.Offsets.{header_offset_of};

use layout_tables::features::{
    FeatureList, any_feature, feature_list, feature_tag, listed_feature, listed_tags, may_hold,
    required_feature,
};
use layout_tables::lookups::lookup_count;
use layout_tables::scripts::chosen_lang_sys;
use layout_tables::variations::{substitution, varied_feature};
use std::marker::Model;

/// A table of lookups with the language system that is chosen in it for a text, and the features
/// that take the place of others at the coordinates of the font.
#[derive(Drop)]
pub struct ChosenTable<'a> {
    bytes: &'a [u8],
    list: FeatureList,
    lang_sys: Option<usize>,
    substitution: Option<usize>,
    tags: u64,
    required_tag: u32,
}

/// A digest of the tags of the features that a language system lists.
fn tags_of(bytes: &[u8], list: FeatureList, lang_sys: Option<usize>) -> u64
    requires near_system { ForSome lang_sys (λ l. l < 2 ^ 18) }
    requires place { list.place ≡ header_offset_of bytes.now 6 }
    requires near { IfSome list.place (λ place. place < 2 ^ 16) }
    requires count { list.count ≡ feature_count_of bytes.now }
    ensures { IfSome lang_sys (λ l. HoldsListed bytes.now l result) }
{
    match lang_sys {
        Some(lang_sys) => listed_tags(bytes, list, lang_sys),
        None => 0,
    }
}

/// The tag of the feature that a language system has on whatever is asked, 0 if it has none.
fn required_tag_in(bytes: &[u8], lang_sys: Option<usize>) -> u32
    requires { ForSome lang_sys (λ l. l < 2 ^ 18) }
    ensures { result ≡ option_map_or (feature_tag_of bytes.now)
        (option_and_then (required_feature_of bytes.now) lang_sys) 0 }
{
    let required = match lang_sys {
        Some(lang_sys) => required_feature(bytes, lang_sys),
        None => None,
    };
    match required {
        Some(index) => feature_tag(bytes, index),
        None => 0,
    }
}

impl<'a> Model for ChosenTable<'a> {
    ghost use Rattle.std.specs.Prelude.{◌≡◌, ◌<◌, ◌^◌};
    ghost use Rattle.std.specs.Option.{ForSome, IfSome, option_and_then, option_map_or};
    ghost use Rattle.layout_map.specs.Chosen.{Chosen};
    ghost use Rattle.layout_tables.specs.Features.{HoldsListed, feature_count_of, feature_tag_of, required_feature_of};
    ghost use Rattle.layout_tables.specs.Offsets.{header_offset_of};

    ghost Value = { Chosen };

    ghost view = { λ t. record {
      bytes = t.bytes.now;
      lang_sys = t.lang_sys;
      substitution = t.substitution;
    } };

    ghost invariant = { λ t. (ForSome t.lang_sys (λ l. l < 2 ^ 18))
        × ((ForSome t.substitution (λ s. s < 2 ^ 34))
        × ((t.list.place ≡ header_offset_of t.bytes.now 6)
        × ((IfSome t.list.place (λ place. place < 2 ^ 16))
        × ((t.list.count ≡ feature_count_of t.bytes.now)
        × ((IfSome t.lang_sys (λ l. HoldsListed t.bytes.now l t.tags))
        × (t.required_tag ≡ option_map_or (feature_tag_of t.bytes.now)
        (option_and_then (required_feature_of t.bytes.now) t.lang_sys) 0)))))) };
}

impl<'a> ChosenTable<'a> {
    ghost use Rattle.layout_map.specs.Chosen.{
      chosen,
      index_of,
      required_of,
      required_tag_of,
      feature_place,
    };
    ghost use Rattle.layout_tables.specs.Features.{any_feature_of};
    ghost use Rattle.layout_tables.specs.Lookups.{lookup_count_of};

    /// What is chosen in a table for a text: the language system of the script with the tag
    /// `script`, by the tags of the text's language, the preferred one first. An empty table has
    /// none. The coordinates are those of the font, normalized, in units of 1/16384; none for its
    /// default instance.
    pub fn new(bytes: &'a [u8], coordinates: &[i32], script: Option<u32>, languages: &[u32]) -> Self
        ensures { result ≡ chosen bytes.now coordinates.now script languages.now }
    {
        let lang_sys = match script {
            Some(tag) => chosen_lang_sys(bytes, tag, languages),
            None => None,
        };
        let list = feature_list(bytes);
        ChosenTable {
            bytes,
            list,
            lang_sys,
            substitution: substitution(bytes, coordinates),
            tags: tags_of(bytes, list, lang_sys),
            required_tag: required_tag_in(bytes, lang_sys),
        }
    }

    /// The bytes of the table.
    pub fn bytes(&self) -> &'a [u8]
        ensures { result.now ≡ self.now.bytes }
    {
        self.bytes
    }

    /// How many lookups the table has.
    pub fn lookup_count(&self) -> u32
        ensures value { result ≡ lookup_count_of self.now.bytes }
        ensures few { result < 2 ^ 16 }
    {
        lookup_count(self.bytes)
    }

    /// Whether the language system may list a feature with this tag.
    #[inline(always)]
    pub(crate) fn may_list(&self, tag: u32) -> bool
        ensures { result ≡ false → index_of self.now tag ≡ None }
    {
        may_hold(self.tags, tag)
    }

    /// The index of the feature with this tag that the language system lists, searched among all
    /// that it lists.
    fn sought(&self, tag: u32) -> Option<u16>
        ensures { result ≡ index_of self.now tag }
    {
        listed_feature(self.bytes, self.list, self.lang_sys?, tag)
    }

    /// The index of the feature with this tag that the language system lists.
    #[inline]
    pub fn index(&self, tag: u32) -> Option<u16>
        ensures { result ≡ index_of self.now tag }
    {
        if self.may_list(tag) {
            self.sought(tag)
        } else {
            None
        }
    }

    /// The index of the first feature with this tag, whatever the language system.
    pub fn any_index(&self, tag: u32) -> Option<u16>
        ensures { result ≡ any_feature_of self.now.bytes tag }
    {
        any_feature(self.bytes, tag)
    }

    /// The index of the feature that is on whatever is asked.
    pub fn required(&self) -> Option<u16>
        ensures { result ≡ required_of self.now }
    {
        required_feature(self.bytes, self.lang_sys?)
    }

    /// The tag of the feature that is on whatever is asked, 0 if there is none.
    #[inline]
    pub fn required_tag(&self) -> u32
        ensures { result ≡ required_tag_of self.now }
    {
        self.required_tag
    }

    /// Where the Feature table of a feature stands; none if there is no such feature.
    pub fn feature(&self, index: Option<u16>) -> Option<usize>
        ensures value { result ≡ feature_place self.now index }
        ensures near { IfSome result (λ feature. feature < 2 ^ 35) }
    {
        varied_feature(self.bytes, self.substitution, index?)
    }
}
