//! The scripts by name and by tag, against their tags of ISO 15924.
use crate::support::{assert_same, parts, rows_of};
use shape_buffer::buffer::{Script, hb_tag_t};
use std::process::Abort;

/// Each script that has a name beside its tag.
const NAMED: [(Script, &[u8; 4]); 114] = [
    (Script::ADLAM, b"Adlm"),
    (Script::AHOM, b"Ahom"),
    (Script::ARABIC, b"Arab"),
    (Script::ARMENIAN, b"Armn"),
    (Script::BALINESE, b"Bali"),
    (Script::BATAK, b"Batk"),
    (Script::BENGALI, b"Beng"),
    (Script::BHAIKSUKI, b"Bhks"),
    (Script::BRAHMI, b"Brah"),
    (Script::BUGINESE, b"Bugi"),
    (Script::BUHID, b"Buhd"),
    (Script::CHAKMA, b"Cakm"),
    (Script::CHAM, b"Cham"),
    (Script::CHORASMIAN, b"Chrs"),
    (Script::COMMON, b"Zyyy"),
    (Script::COPTIC, b"Copt"),
    (Script::CYPRO_MINOAN, b"Cpmn"),
    (Script::CYRILLIC, b"Cyrl"),
    (Script::DEVANAGARI, b"Deva"),
    (Script::DIVES_AKURU, b"Diak"),
    (Script::DOGRA, b"Dogr"),
    (Script::DUPLOYAN, b"Dupl"),
    (Script::EGYPTIAN_HIEROGLYPHS, b"Egyp"),
    (Script::ELYMAIC, b"Elym"),
    (Script::ETHIOPIC, b"Ethi"),
    (Script::GARAY, b"Gara"),
    (Script::GEORGIAN, b"Geor"),
    (Script::GRANTHA, b"Gran"),
    (Script::GREEK, b"Grek"),
    (Script::GUJARATI, b"Gujr"),
    (Script::GUNJALA_GONDI, b"Gong"),
    (Script::GURMUKHI, b"Guru"),
    (Script::GURUNG_KHEMA, b"Gukh"),
    (Script::HAN, b"Hani"),
    (Script::HANGUL, b"Hang"),
    (Script::HANIFI_ROHINGYA, b"Rohg"),
    (Script::HANUNOO, b"Hano"),
    (Script::HEBREW, b"Hebr"),
    (Script::HIRAGANA, b"Hira"),
    (Script::INHERITED, b"Zinh"),
    (Script::JAVANESE, b"Java"),
    (Script::KAITHI, b"Kthi"),
    (Script::KANNADA, b"Knda"),
    (Script::KATAKANA, b"Kana"),
    (Script::KAWI, b"Kawi"),
    (Script::KAYAH_LI, b"Kali"),
    (Script::KHAROSHTHI, b"Khar"),
    (Script::KHITAN_SMALL_SCRIPT, b"Kits"),
    (Script::KHMER, b"Khmr"),
    (Script::KHOJKI, b"Khoj"),
    (Script::KHUDAWADI, b"Sind"),
    (Script::KIRAT_RAI, b"Krai"),
    (Script::LAO, b"Laoo"),
    (Script::LATIN, b"Latn"),
    (Script::LEPCHA, b"Lepc"),
    (Script::LIMBU, b"Limb"),
    (Script::MAHAJANI, b"Mahj"),
    (Script::MAKASAR, b"Maka"),
    (Script::MALAYALAM, b"Mlym"),
    (Script::MANDAIC, b"Mand"),
    (Script::MANICHAEAN, b"Mani"),
    (Script::MARCHEN, b"Marc"),
    (Script::MASARAM_GONDI, b"Gonm"),
    (Script::MEDEFAIDRIN, b"Medf"),
    (Script::MEETEI_MAYEK, b"Mtei"),
    (Script::MIAO, b"Plrd"),
    (Script::MODI, b"Modi"),
    (Script::MONGOLIAN, b"Mong"),
    (Script::MULTANI, b"Mult"),
    (Script::MYANMAR, b"Mymr"),
    (Script::NAG_MUNDARI, b"Nagm"),
    (Script::NANDINAGARI, b"Nand"),
    (Script::NEWA, b"Newa"),
    (Script::NKO, b"Nkoo"),
    (Script::NYIAKENG_PUACHUE_HMONG, b"Hmnp"),
    (Script::OLD_SOGDIAN, b"Sogo"),
    (Script::OLD_UYGHUR, b"Ougr"),
    (Script::OL_ONAL, b"Onao"),
    (Script::ORIYA, b"Orya"),
    (Script::PAHAWH_HMONG, b"Hmng"),
    (Script::PHAGS_PA, b"Phag"),
    (Script::PSALTER_PAHLAVI, b"Phlp"),
    (Script::REJANG, b"Rjng"),
    (Script::SAURASHTRA, b"Saur"),
    (Script::SHARADA, b"Shrd"),
    (Script::SIDDHAM, b"Sidd"),
    (Script::SINHALA, b"Sinh"),
    (Script::SOGDIAN, b"Sogd"),
    (Script::SOYOMBO, b"Soyo"),
    (Script::SUNDANESE, b"Sund"),
    (Script::SUNUWAR, b"Sunu"),
    (Script::SYLOTI_NAGRI, b"Sylo"),
    (Script::SYRIAC, b"Syrc"),
    (Script::TAGALOG, b"Tglg"),
    (Script::TAGBANWA, b"Tagb"),
    (Script::TAI_LE, b"Tale"),
    (Script::TAI_THAM, b"Lana"),
    (Script::TAI_VIET, b"Tavt"),
    (Script::TAKRI, b"Takr"),
    (Script::TAMIL, b"Taml"),
    (Script::TANGSA, b"Tnsa"),
    (Script::TELUGU, b"Telu"),
    (Script::THAI, b"Thai"),
    (Script::TIBETAN, b"Tibt"),
    (Script::TIFINAGH, b"Tfng"),
    (Script::TIRHUTA, b"Tirh"),
    (Script::TODHRI, b"Todr"),
    (Script::TOTO, b"Toto"),
    (Script::TULU_TIGALARI, b"Tutg"),
    (Script::UNKNOWN, b"Zzzz"),
    (Script::VITHKUQI, b"Vith"),
    (Script::WANCHO, b"Wcho"),
    (Script::YEZIDI, b"Yezi"),
    (Script::ZANABAZAR_SQUARE, b"Zanb"),
];

#[test]
fn names_have_their_tags(rt: HostRuntime) {
    for (script, tag) in NAMED.iter() {
        assert_same(&rt, *script, Script(hb_tag_t::from_bytes(tag)));
    }
}

/// The tag of four letters.
fn tag_of(rt: &impl Abort, word: &str) -> hb_tag_t {
    match word.as_bytes() {
        [a, b, c, d] => hb_tag_t::from_bytes(&[*a, *b, *c, *d]),
        _ => panic!(rt; "{word} has not four letters"),
    }
}

/// Tags in any case, of variants and of no script, and the script of each by its own tag.
const TAGS: &str = "
    Latn -> Latn
    latn -> Latn
    LATN -> Latn
    lATN -> Latn
    latg -> Latn
    1234 -> Zzzz
    La n -> Zzzz
    zzzz -> Zzzz
    Qaai -> Zinh
    Qaac -> Copt
    Aran -> Arab
    Cyrs -> Cyrl
    Geok -> Geor
    Hans -> Hani
    Hant -> Hani
    Jamo -> Hang
    Latf -> Latn
    Latg -> Latn
    Syre -> Syrc
    Syrj -> Syrc
    Syrn -> Syrc
";

#[test]
fn tags_have_their_scripts(rt: HostRuntime) {
    for row in rows_of(&rt, TAGS).lines() {
        let (word, script) = parts(&rt, row, "->");
        let found = Script::from_iso15924_tag(tag_of(&rt, word));
        assert_same(&rt, found, Some(Script(tag_of(&rt, script))));
    }
    assert_same(&rt, Script::from_iso15924_tag(hb_tag_t(0)), None);
}
