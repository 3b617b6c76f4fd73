//! Scripts by name, and by tags that callers bring.
ghost use Rattle.std.specs.Prelude.{◌≡◌};
ghost use Rattle.shape_common.specs.ScriptTags;

use crate::{Script, hb_tag_t};

impl Script {
    /// Zyyy: characters of many scripts.
    pub const COMMON: Script = Script(hb_tag_t(0x5A79_7979));

    /// Zinh: characters that take the script of the one before.
    pub const INHERITED: Script = Script(hb_tag_t(0x5A69_6E68));

    /// Zzzz: characters without a known script.
    pub const UNKNOWN: Script = Script(hb_tag_t(0x5A7A_7A7A));

    /// Arab.
    pub const ARABIC: Script = Script(hb_tag_t(0x4172_6162));

    /// Armn.
    pub const ARMENIAN: Script = Script(hb_tag_t(0x4172_6D6E));

    /// Beng.
    pub const BENGALI: Script = Script(hb_tag_t(0x4265_6E67));

    /// Copt.
    pub const COPTIC: Script = Script(hb_tag_t(0x436F_7074));

    /// Cyrl.
    pub const CYRILLIC: Script = Script(hb_tag_t(0x4379_726C));

    /// Deva.
    pub const DEVANAGARI: Script = Script(hb_tag_t(0x4465_7661));

    /// Ethi.
    pub const ETHIOPIC: Script = Script(hb_tag_t(0x4574_6869));

    /// Geor.
    pub const GEORGIAN: Script = Script(hb_tag_t(0x4765_6F72));

    /// Grek.
    pub const GREEK: Script = Script(hb_tag_t(0x4772_656B));

    /// Hani.
    pub const HAN: Script = Script(hb_tag_t(0x4861_6E69));

    /// Hang.
    pub const HANGUL: Script = Script(hb_tag_t(0x4861_6E67));

    /// Hebr.
    pub const HEBREW: Script = Script(hb_tag_t(0x4865_6272));

    /// Hira.
    pub const HIRAGANA: Script = Script(hb_tag_t(0x4869_7261));

    /// Kana.
    pub const KATAKANA: Script = Script(hb_tag_t(0x4B61_6E61));

    /// Latn.
    pub const LATIN: Script = Script(hb_tag_t(0x4C61_746E));

    /// Syrc.
    pub const SYRIAC: Script = Script(hb_tag_t(0x5379_7263));

    /// Taml.
    pub const TAMIL: Script = Script(hb_tag_t(0x5461_6D6C));

    /// Thai.
    pub const THAI: Script = Script(hb_tag_t(0x5468_6169));

    /// The script of a tag of ISO 15924 in any case: `latn` is Latn. A variant of a script is the
    /// script (Hans is Hani), as is a name that it had before. None for the tag 0, and Unknown for
    /// what doesn't look like a name (HarfBuzz, `hb_script_from_iso15924_tag`).
    pub fn from_iso15924_tag(tag: hb_tag_t) -> Option<Script>
        ensures { result ≡ ScriptTags.script_of_tag tag.0 }
    {
        if tag.0 == 0 {
            return None;
        }
        let name = main_script(in_standard_case(tag.0));
        if name & 0xE0E0_E0E0 != 0x4060_6060 {
            return Some(Script::UNKNOWN);
        }
        Some(Script(hb_tag_t(name)))
    }

    /// The script's tag of ISO 15924.
    pub fn tag(self) -> hb_tag_t
        ensures { result ≡ self.0 }
    {
        self.0
    }

    /// Whether the script is neither Common nor Inherited nor Unknown.
    pub fn is_specific(self) -> bool
        ensures { result ≡ ScriptTags.is_specific self }
    {
        self != Script::COMMON && self != Script::INHERITED && self != Script::UNKNOWN
    }
}

/// The tag with one capital letter and three small ones.
fn in_standard_case(tag: u32) -> u32
    ensures { result ≡ ScriptTags.in_standard_case tag }
{
    tag & 0xDFDF_DFDF | 0x0020_2020
}

/// The script that a tag names a variant of, or named before; any other tag as it is.
fn main_script(tag: u32) -> u32
    ensures { result ≡ ScriptTags.main_script tag }
{
    match tag {
        0x5161_6169 => Script::INHERITED.0.0,
        0x5161_6163 => Script::COPTIC.0.0,
        0x4172_616E => Script::ARABIC.0.0,
        0x4379_7273 => Script::CYRILLIC.0.0,
        0x4765_6F6B => Script::GEORGIAN.0.0,
        0x4861_6E73 | 0x4861_6E74 => Script::HAN.0.0,
        0x4A61_6D6F => Script::HANGUL.0.0,
        0x4C61_7466 | 0x4C61_7467 => Script::LATIN.0.0,
        0x5379_7265 | 0x5379_726A | 0x5379_726E => Script::SYRIAC.0.0,
        _ => tag,
    }
}
