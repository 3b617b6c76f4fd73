//! The scripts that shapers know, besides those of [`Script`] in `scripts`, by their tags of ISO
//! 15924.
use crate::{Script, hb_tag_t};

impl Script {
    /// Adlm.
    pub const ADLAM: Script = Script(hb_tag_t(0x4164_6C6D));

    /// Ahom.
    pub const AHOM: Script = Script(hb_tag_t(0x4168_6F6D));

    /// Bali.
    pub const BALINESE: Script = Script(hb_tag_t(0x4261_6C69));

    /// Batk.
    pub const BATAK: Script = Script(hb_tag_t(0x4261_746B));

    /// Bhks.
    pub const BHAIKSUKI: Script = Script(hb_tag_t(0x4268_6B73));

    /// Brah.
    pub const BRAHMI: Script = Script(hb_tag_t(0x4272_6168));

    /// Bugi.
    pub const BUGINESE: Script = Script(hb_tag_t(0x4275_6769));

    /// Buhd.
    pub const BUHID: Script = Script(hb_tag_t(0x4275_6864));

    /// Cakm.
    pub const CHAKMA: Script = Script(hb_tag_t(0x4361_6B6D));

    /// Cham.
    pub const CHAM: Script = Script(hb_tag_t(0x4368_616D));

    /// Chrs.
    pub const CHORASMIAN: Script = Script(hb_tag_t(0x4368_7273));

    /// Cpmn.
    pub const CYPRO_MINOAN: Script = Script(hb_tag_t(0x4370_6D6E));

    /// Diak.
    pub const DIVES_AKURU: Script = Script(hb_tag_t(0x4469_616B));

    /// Dogr.
    pub const DOGRA: Script = Script(hb_tag_t(0x446F_6772));

    /// Dupl.
    pub const DUPLOYAN: Script = Script(hb_tag_t(0x4475_706C));

    /// Egyp.
    pub const EGYPTIAN_HIEROGLYPHS: Script = Script(hb_tag_t(0x4567_7970));

    /// Elym.
    pub const ELYMAIC: Script = Script(hb_tag_t(0x456C_796D));

    /// Gara.
    pub const GARAY: Script = Script(hb_tag_t(0x4761_7261));

    /// Gran.
    pub const GRANTHA: Script = Script(hb_tag_t(0x4772_616E));

    /// Gujr.
    pub const GUJARATI: Script = Script(hb_tag_t(0x4775_6A72));

    /// Gong.
    pub const GUNJALA_GONDI: Script = Script(hb_tag_t(0x476F_6E67));

    /// Guru.
    pub const GURMUKHI: Script = Script(hb_tag_t(0x4775_7275));

    /// Gukh.
    pub const GURUNG_KHEMA: Script = Script(hb_tag_t(0x4775_6B68));

    /// Rohg.
    pub const HANIFI_ROHINGYA: Script = Script(hb_tag_t(0x526F_6867));

    /// Hano.
    pub const HANUNOO: Script = Script(hb_tag_t(0x4861_6E6F));

    /// Java.
    pub const JAVANESE: Script = Script(hb_tag_t(0x4A61_7661));

    /// Kthi.
    pub const KAITHI: Script = Script(hb_tag_t(0x4B74_6869));

    /// Knda.
    pub const KANNADA: Script = Script(hb_tag_t(0x4B6E_6461));

    /// Kawi.
    pub const KAWI: Script = Script(hb_tag_t(0x4B61_7769));

    /// Kali.
    pub const KAYAH_LI: Script = Script(hb_tag_t(0x4B61_6C69));

    /// Khar.
    pub const KHAROSHTHI: Script = Script(hb_tag_t(0x4B68_6172));

    /// Kits.
    pub const KHITAN_SMALL_SCRIPT: Script = Script(hb_tag_t(0x4B69_7473));

    /// Khmr.
    pub const KHMER: Script = Script(hb_tag_t(0x4B68_6D72));

    /// Khoj.
    pub const KHOJKI: Script = Script(hb_tag_t(0x4B68_6F6A));

    /// Sind.
    pub const KHUDAWADI: Script = Script(hb_tag_t(0x5369_6E64));

    /// Krai.
    pub const KIRAT_RAI: Script = Script(hb_tag_t(0x4B72_6169));

    /// Laoo.
    pub const LAO: Script = Script(hb_tag_t(0x4C61_6F6F));

    /// Lepc.
    pub const LEPCHA: Script = Script(hb_tag_t(0x4C65_7063));

    /// Limb.
    pub const LIMBU: Script = Script(hb_tag_t(0x4C69_6D62));

    /// Mahj.
    pub const MAHAJANI: Script = Script(hb_tag_t(0x4D61_686A));

    /// Maka.
    pub const MAKASAR: Script = Script(hb_tag_t(0x4D61_6B61));

    /// Mlym.
    pub const MALAYALAM: Script = Script(hb_tag_t(0x4D6C_796D));

    /// Mand.
    pub const MANDAIC: Script = Script(hb_tag_t(0x4D61_6E64));

    /// Mani.
    pub const MANICHAEAN: Script = Script(hb_tag_t(0x4D61_6E69));

    /// Marc.
    pub const MARCHEN: Script = Script(hb_tag_t(0x4D61_7263));

    /// Gonm.
    pub const MASARAM_GONDI: Script = Script(hb_tag_t(0x476F_6E6D));

    /// Medf.
    pub const MEDEFAIDRIN: Script = Script(hb_tag_t(0x4D65_6466));

    /// Mtei.
    pub const MEETEI_MAYEK: Script = Script(hb_tag_t(0x4D74_6569));

    /// Plrd.
    pub const MIAO: Script = Script(hb_tag_t(0x506C_7264));

    /// Modi.
    pub const MODI: Script = Script(hb_tag_t(0x4D6F_6469));

    /// Mong.
    pub const MONGOLIAN: Script = Script(hb_tag_t(0x4D6F_6E67));

    /// Mult.
    pub const MULTANI: Script = Script(hb_tag_t(0x4D75_6C74));

    /// Mymr.
    pub const MYANMAR: Script = Script(hb_tag_t(0x4D79_6D72));

    /// Nagm.
    pub const NAG_MUNDARI: Script = Script(hb_tag_t(0x4E61_676D));

    /// Nand.
    pub const NANDINAGARI: Script = Script(hb_tag_t(0x4E61_6E64));

    /// Newa.
    pub const NEWA: Script = Script(hb_tag_t(0x4E65_7761));

    /// Nkoo.
    pub const NKO: Script = Script(hb_tag_t(0x4E6B_6F6F));

    /// Hmnp.
    pub const NYIAKENG_PUACHUE_HMONG: Script = Script(hb_tag_t(0x486D_6E70));

    /// Sogo.
    pub const OLD_SOGDIAN: Script = Script(hb_tag_t(0x536F_676F));

    /// Ougr.
    pub const OLD_UYGHUR: Script = Script(hb_tag_t(0x4F75_6772));

    /// Onao.
    pub const OL_ONAL: Script = Script(hb_tag_t(0x4F6E_616F));

    /// Orya.
    pub const ORIYA: Script = Script(hb_tag_t(0x4F72_7961));

    /// Hmng.
    pub const PAHAWH_HMONG: Script = Script(hb_tag_t(0x486D_6E67));

    /// Phag.
    pub const PHAGS_PA: Script = Script(hb_tag_t(0x5068_6167));

    /// Phlp.
    pub const PSALTER_PAHLAVI: Script = Script(hb_tag_t(0x5068_6C70));

    /// Rjng.
    pub const REJANG: Script = Script(hb_tag_t(0x526A_6E67));

    /// Saur.
    pub const SAURASHTRA: Script = Script(hb_tag_t(0x5361_7572));

    /// Shrd.
    pub const SHARADA: Script = Script(hb_tag_t(0x5368_7264));

    /// Sidd.
    pub const SIDDHAM: Script = Script(hb_tag_t(0x5369_6464));

    /// Sinh.
    pub const SINHALA: Script = Script(hb_tag_t(0x5369_6E68));

    /// Sogd.
    pub const SOGDIAN: Script = Script(hb_tag_t(0x536F_6764));

    /// Soyo.
    pub const SOYOMBO: Script = Script(hb_tag_t(0x536F_796F));

    /// Sund.
    pub const SUNDANESE: Script = Script(hb_tag_t(0x5375_6E64));

    /// Sunu.
    pub const SUNUWAR: Script = Script(hb_tag_t(0x5375_6E75));

    /// Sylo.
    pub const SYLOTI_NAGRI: Script = Script(hb_tag_t(0x5379_6C6F));

    /// Tglg.
    pub const TAGALOG: Script = Script(hb_tag_t(0x5467_6C67));

    /// Tagb.
    pub const TAGBANWA: Script = Script(hb_tag_t(0x5461_6762));

    /// Tale.
    pub const TAI_LE: Script = Script(hb_tag_t(0x5461_6C65));

    /// Lana.
    pub const TAI_THAM: Script = Script(hb_tag_t(0x4C61_6E61));

    /// Tavt.
    pub const TAI_VIET: Script = Script(hb_tag_t(0x5461_7674));

    /// Takr.
    pub const TAKRI: Script = Script(hb_tag_t(0x5461_6B72));

    /// Tnsa.
    pub const TANGSA: Script = Script(hb_tag_t(0x546E_7361));

    /// Telu.
    pub const TELUGU: Script = Script(hb_tag_t(0x5465_6C75));

    /// Tibt.
    pub const TIBETAN: Script = Script(hb_tag_t(0x5469_6274));

    /// Tfng.
    pub const TIFINAGH: Script = Script(hb_tag_t(0x5466_6E67));

    /// Tirh.
    pub const TIRHUTA: Script = Script(hb_tag_t(0x5469_7268));

    /// Todr.
    pub const TODHRI: Script = Script(hb_tag_t(0x546F_6472));

    /// Toto.
    pub const TOTO: Script = Script(hb_tag_t(0x546F_746F));

    /// Tutg.
    pub const TULU_TIGALARI: Script = Script(hb_tag_t(0x5475_7467));

    /// Vith.
    pub const VITHKUQI: Script = Script(hb_tag_t(0x5669_7468));

    /// Wcho.
    pub const WANCHO: Script = Script(hb_tag_t(0x5763_686F));

    /// Yezi.
    pub const YEZIDI: Script = Script(hb_tag_t(0x5965_7A69));

    /// Zanb.
    pub const ZANABAZAR_SQUARE: Script = Script(hb_tag_t(0x5A61_6E62));
}
