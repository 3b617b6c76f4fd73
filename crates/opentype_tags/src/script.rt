//! OpenType's tags of a script.
ghost use Rattle.std.specs.Prelude.{◌≡◌, ◌<◌, ◌^◌, IfSome};
ghost use Rattle.std.specs.Prelude.{string_bytes};
ghost use Rattle.std.specs.Option.{option_map};
ghost use Rattle.opentype_tags.specs.Script as script_rules;
ghost use Rattle.opentype_tags.specs.Language as language_rules;

use crate::private_use::private_script_tag;
use crate::tag_list::TagList;
use shape_common::{Language, Script, hb_tag_t};

/// The tag of a script whose shaping was defined anew, in version 2.
fn new_tag(script: u32) -> Option<u32>
    ensures value { result ≡ script_rules.new_tag script }
    ensures small { IfSome result (λ tag. tag < 2 ^ 31) }
{
    match script {
        0x4265_6E67 => Some(0x626E_6732), // Beng: bng2
        0x4465_7661 => Some(0x6465_7632), // Deva: dev2
        0x4775_6A72 => Some(0x676A_7232), // Gujr: gjr2
        0x4775_7275 => Some(0x6775_7232), // Guru: gur2
        0x4B6E_6461 => Some(0x6B6E_6432), // Knda: knd2
        0x4D6C_796D => Some(0x6D6C_6D32), // Mlym: mlm2
        0x4F72_7961 => Some(0x6F72_7932), // Orya: ory2
        0x5461_6D6C => Some(0x746D_6C32), // Taml: tml2
        0x5465_6C75 => Some(0x7465_6C32), // Telu: tel2
        0x4D79_6D72 => Some(0x6D79_6D32), // Mymr: mym2
        _ => None,
    }
}

/// The first tag that a script was given.
fn old_tag(script: u32) -> u32
    ensures { result ≡ script_rules.old_tag script }
{
    match script {
        0x5A6D_7468 => 0x6D61_7468, // Zmth: math
        0x4869_7261 => 0x6B61_6E61, // Hira: kana
        0x4C61_6F6F => 0x6C61_6F20, // Laoo: lao
        0x5969_6969 => 0x7969_2020, // Yiii: yi
        0x4E6B_6F6F => 0x6E6B_6F20, // Nkoo: nko
        0x5661_6969 => 0x7661_6920, // Vaii: vai
        _ => script | 0x2000_0000,
    }
}

/// Version 3 before version 2. Myanmar has no version 3.
fn new_tags(script: u32) -> TagList
    ensures { result ≡ script_rules.new_tags (script_rules.new_tag script) }
{
    match new_tag(script) {
        None => TagList::new(),
        Some(0x6D79_6D32) => TagList::one(0x6D79_6D32),
        Some(tag) => TagList::two(tag + 1, tag),
    }
}

fn tags_of_script(script: Option<Script>) -> TagList
    ensures { result ≡ script_rules.tags_of_script script }
{
    match script {
        None => TagList::new(),
        Some(Script(hb_tag_t(0))) => TagList::new(),
        Some(Script(hb_tag_t(script))) => {
            let mut tags = new_tags(script);
            tags.push(hb_tag_t(old_tag(script)));
            tags
        }
    }
}

/// OpenType's tags of a script, the preferred one first: those of versions 3 and 2 where shaping
/// was defined anew, then its own tag. No script has none. A language with the private subtag
/// `x-hbsc-..` names the only tag, by up to four letters and digits or by eight hexadecimal digits
/// after a further hyphen (HarfBuzz, `hb_ot_tags_from_script_and_language`; "Script tags" of the
/// OpenType specification).
pub fn script_tags(script: Option<Script>, language: Option<&Language>) -> TagList
    ensures { result ≡ language_rules.script_tags script (option_map
        (λ l. string_bytes l.now.0) language.entry) }
{
    match private_script_tag(language) {
        Some(tag) => TagList::one(tag),
        None => tags_of_script(script),
    }
}
