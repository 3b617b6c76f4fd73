//! OpenType's tags of a language.
//!
//! The first rule that knows the language decides: its private use, a variant that has a tag in
//! whatever language, a name that is registered as a whole, a script or a place that its writing
//! depends on, the rows of its first subtag. A language of three letters that none of them knows is
//! looked for by its own letters.
ghost use Rattle.std.specs.Prelude.{◌≡◌, ◌<◌, ◌≤◌, ◌^◌, length};
ghost use Rattle.std.specs.Prelude.{string_bytes};
ghost use Rattle.std.specs.Option.{option_map};
ghost use Rattle.opentype_tags.specs.Language as language_rules;

use crate::private_use::private_language_tag;
use crate::rows::rows_of;
use crate::subtags::{after_first, begins_with, first_subtag, has_subtag, registered_subtags};
use crate::tag_list::TagList;
use shape_common::{Language, hb_tag_t};
use shape_font::bytes::u8_at;

/// The tag of a variant or a script that has one in whatever language.
fn variant_tag(name: &[u8]) -> Option<u32>
    ensures { result ≡ language_rules.variant_tag name.now }
{
    if has_subtag(name, b"-fonnapa") {
        Some(0x4150_5048) // APPH
    } else if has_subtag(name, b"-polyton") {
        Some(0x5047_5220) // PGR
    } else if has_subtag(name, b"-arevmda") {
        Some(0x4859_4520) // HYE
    } else if has_subtag(name, b"-provenc") {
        Some(0x5052_4F20) // PRO
    } else if has_subtag(name, b"-fonipa") {
        Some(0x4950_5048) // IPPH
    } else if has_subtag(name, b"-geok") {
        Some(0x4B47_4520) // KGE
    } else if has_subtag(name, b"-syre") {
        Some(0x5359_5245) // SYRE
    } else if has_subtag(name, b"-syrj") {
        Some(0x5359_524A) // SYRJ
    } else if has_subtag(name, b"-syrn") {
        Some(0x5359_524E) // SYRN
    } else {
        None
    }
}

/// The same, of a name that is long enough to have a language beside the variant.
fn long_variant_tag(name: &[u8]) -> Option<u32>
    ensures { result ≡ language_rules.long_variant_tag name.now }
{
    if name.len() >= 7 {
        variant_tag(name)
    } else {
        None
    }
}

fn is_name(name: &[u8], whole: &[u8]) -> bool
    ensures { result ≡ language_rules.is_name name.now whole.now }
{
    name.len() == whole.len() && name.starts_with(whole)
}

/// The tags of a name that is registered as a whole.
fn tags_of_whole(name: &[u8]) -> Option<TagList>
    ensures { result ≡ language_rules.tags_of_whole name.now }
{
    if is_name(name, b"art-lojban") {
        Some(TagList::one(0x4A42_4F20)) // JBO
    } else if is_name(name, b"i-navajo") {
        Some(TagList::two(0x4E41_5620, 0x4154_4820)) // NAV, ATH
    } else if is_name(name, b"i-hak") {
        Some(TagList::one(0x5A48_5320)) // ZHS
    } else if is_name(name, b"i-lux") {
        Some(TagList::one(0x4C54_5A20)) // LTZ
    } else if is_name(name, b"no-bok") {
        Some(TagList::one(0x4E4F_5220)) // NOR
    } else if is_name(name, b"no-nyn") {
        Some(TagList::one(0x4E59_4E20)) // NYN
    } else if is_name(name, b"zh-min-nan") {
        Some(TagList::one(0x5A48_5320)) // ZHS
    } else if is_name(name, b"zh-min") {
        Some(TagList::one(0x5A48_5320)) // ZHS
    } else {
        None
    }
}

/// A subtag of two or three bytes as one number, filled up with spaces; 0 for others.
fn subtag_key(subtag: &[u8]) -> u32
    ensures { result ≡ language_rules.subtag_key subtag.now }
{
    match subtag {
        [a, b] => u32::from(*a) * 0x100_0000 + u32::from(*b) * 0x1_0000 + 0x2020,
        [a, b, c] => {
            u32::from(*a) * 0x100_0000 + u32::from(*b) * 0x1_0000 + u32::from(*c) * 0x100 + 0x20
        }
        _ => 0,
    }
}

/// Whether the key is of a Chinese language, whose writing depends on the script or the place.
fn is_chinese(key: u32) -> bool
    ensures { result ≡ language_rules.is_chinese key }
{
    matches!(
        key,
        0x7A68_2020 // zh
            | 0x6364_6F20 // cdo
            | 0x636A_7920 // cjy
            | 0x636D_6E20 // cmn
            | 0x636E_7020 // cnp
            | 0x6370_7820 // cpx
            | 0x6373_7020 // csp
            | 0x637A_6820 // czh
            | 0x637A_6F20 // czo
            | 0x6761_6E20 // gan
            | 0x6861_6B20 // hak
            | 0x6873_6E20 // hsn
            | 0x6D6E_7020 // mnp
            | 0x6E61_6E20 // nan
            | 0x7775_7520 // wuu
    )
}

/// Chinese by script and place; `after` is what follows the language.
fn chinese_tags(name: &[u8], after: &[u8]) -> Option<TagList>
    ensures { result ≡ language_rules.chinese_tags name.now after.now }
{
    if begins_with(after, b"hant-hk") {
        Some(TagList::one(0x5A48_4820)) // ZHH
    } else if begins_with(after, b"hant-mo") {
        Some(TagList::two(0x5A48_544D, 0x5A48_4820)) // ZHTM, ZHH
    } else if begins_with(after, b"hans") {
        Some(TagList::one(0x5A48_5320)) // ZHS
    } else if begins_with(after, b"hant") {
        Some(TagList::one(0x5A48_5420)) // ZHT
    } else if has_subtag(name, b"-hk") {
        Some(TagList::one(0x5A48_4820)) // ZHH
    } else if has_subtag(name, b"-mo") {
        Some(TagList::two(0x5A48_544D, 0x5A48_4820)) // ZHTM, ZHH
    } else if has_subtag(name, b"-tw") {
        Some(TagList::one(0x5A48_5420)) // ZHT
    } else {
        None
    }
}

/// Other languages that a script or a place gives another tag.
fn placed_tags(key: u32, name: &[u8], after: &[u8]) -> Option<TagList>
    ensures { result ≡ language_rules.placed_tags key name.now after.now }
{
    let is_written_chinese = key == 0x6C7A_6820 || key == 0x7975_6520;
    if is_written_chinese && begins_with(after, b"hans") {
        Some(TagList::one(0x5A48_5320)) // lzh, yue: ZHS
    } else if key == 0x6761_2020 && begins_with(after, b"latg") {
        Some(TagList::one(0x4952_5420)) // ga: IRT
    } else if key == 0x6D6E_7720 && has_subtag(name, b"-th") {
        Some(TagList::one(0x4D4F_4E54)) // mnw: MONT
    } else if key == 0x726F_2020 && has_subtag(name, b"-md") {
        Some(TagList::two(0x4D4F_4C20, 0x524F_4D20)) // ro: MOL, ROM
    } else {
        None
    }
}

/// The tags of a language whose writing depends on the script or the place.
fn regional_tags(name: &[u8]) -> Option<TagList>
    ensures { result ≡ language_rules.regional_tags name.now }
{
    let key = subtag_key(first_subtag(name));
    let after = after_first(name);
    if is_chinese(key) {
        chinese_tags(name, after)
    } else {
        placed_tags(key, name, after)
    }
}

/// A tag after those before; 0 is no tag.
fn with_tag(mut tags: TagList, tag: u32) -> TagList
    ensures { result ≡ language_rules.with_tag tags tag }
{
    if tag != 0 {
        tags.push(hb_tag_t(tag));
    }
    tags
}

/// What is found with one row more.
fn with_row(key: u32, found: Option<TagList>, row: (u32, u32)) -> Option<TagList>
    ensures { result ≡ language_rules.with_row key found row }
{
    if row.0 == key {
        Some(with_tag(found.unwrap_or(TagList::new()), row.1))
    } else {
        found
    }
}

/// What the rows of a subtag say; none if it has no row.
fn row_tags(subtag: &[u8]) -> Option<TagList>
    ensures { result ≡ language_rules.row_tags subtag.now }
{
    let key = subtag_key(subtag);
    let mut found = None;
    for row in rows_of(u8_at(subtag, 0)) {
        found = with_row(key, found, *row);
    }
    found
}

/// Whether a second subtag of three letters names the language more closely.
fn has_extended(name: &[u8]) -> bool
    ensures { result ≡ language_rules.has_extended name.now }
{
    let after = after_first(name);
    name.len() >= 6
        && first_subtag(after).len() == 3
        && matches!(u8_at(after, 0), b'a'..=b'z' | b'A'..=b'Z')
}

/// Three letters as a tag.
fn capital_tag(subtag: &[u8]) -> TagList
    ensures { result ≡ language_rules.capital_tag subtag.now }
{
    if subtag.len() == 3 {
        TagList::one(subtag_key(subtag) & 0xDFDF_DFFF)
    } else {
        TagList::new()
    }
}

/// The tags by the rows of the language's subtag, or by its letters.
fn listed_tags(name: &[u8]) -> TagList
    ensures { result ≡ language_rules.listed_tags name.now }
{
    if has_extended(name) {
        return row_tags(first_subtag(after_first(name))).unwrap_or(TagList::new());
    }
    let first = first_subtag(name);
    row_tags(first).unwrap_or(capital_tag(first))
}

/// The tags of a name whose registered subtags are `subtags`.
fn registered_tags(name: &[u8], subtags: &[u8]) -> TagList
    ensures { result ≡ language_rules.registered_tags name.now subtags.now }
{
    if let Some(tag) = long_variant_tag(subtags) {
        return TagList::one(tag);
    }
    if let Some(tags) = tags_of_whole(name) {
        return tags;
    }
    match regional_tags(subtags) {
        Some(tags) => tags,
        None => listed_tags(subtags),
    }
}

fn name_tags(name: &[u8]) -> TagList
    ensures { result ≡ language_rules.name_tags name.now }
{
    match private_language_tag(name) {
        Some(tag) => TagList::one(tag),
        None => registered_tags(name, registered_subtags(name)),
    }
}

/// OpenType's tags of the language systems of a language, the preferred one first; none if the
/// language is given none. The name is in HarfBuzz's spelling, as `language_from_string` makes it:
/// small letters, digits, hyphens. A language with the private subtag `x-hbot-..` names the only
/// tag, as [`script_tags`](crate::script_tags) has it (HarfBuzz,
/// `hb_ot_tags_from_script_and_language`; "Language system tags" of the OpenType specification).
pub fn language_tags(language: Option<&Language>) -> TagList
    ensures { result ≡ language_rules.language_tags (option_map
        (λ l. string_bytes l.now.0) language.entry) }
{
    match language {
        Some(language) => name_tags(language.0.as_bytes()),
        None => TagList::new(),
    }
}
