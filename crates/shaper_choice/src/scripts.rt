//! The scripts that a shaper of their own may serve.
ghost use Rattle.std.specs.Prelude.{◌≡◌};
ghost use Rattle.shaper_choice.specs.Scripts.{group_of};
ghost use Rattle.shaper_choice.specs.Worked.Scripts.{WorkedScripts};

use shape_buffer::buffer::Script;

/// Scripts among which the choice of a shaper doesn't differ.
#[derive(Clone, Copy, PartialEq, Eq, Debug)]
pub enum Group {
    Arabic,
    Syriac,
    Hangul,
    Hebrew,
    /// Thai and Lao.
    Thai,
    /// Nine scripts of India.
    Indic,
    Khmer,
    Myanmar,
    /// Myanmar as fonts of the encoding Zawgyi have it: a script of one's own, `Qaag`.
    Zawgyi,
    /// Scripts of the Universal Shaping Engine.
    Universal,
}

/// The scripts of each group, in the order of their tags.
#[rattlefmt::skip]
pub static SCRIPTS: [(u32, Group); 102] = [
    (0x4164_6C6D, Group::Universal), // Adlam
    (0x4168_6F6D, Group::Universal), // Ahom
    (0x4172_6162, Group::Arabic), // Arabic
    (0x4261_6C69, Group::Universal), // Balinese
    (0x4261_746B, Group::Universal), // Batak
    (0x4265_6E67, Group::Indic), // Bengali
    (0x4268_6B73, Group::Universal), // Bhaiksuki
    (0x4272_6168, Group::Universal), // Brahmi
    (0x4275_6769, Group::Universal), // Buginese
    (0x4275_6864, Group::Universal), // Buhid
    (0x4361_6B6D, Group::Universal), // Chakma
    (0x4368_616D, Group::Universal), // Cham
    (0x4368_7273, Group::Universal), // Chorasmian
    (0x4370_6D6E, Group::Universal), // Cypro Minoan
    (0x4465_7661, Group::Indic), // Devanagari
    (0x4469_616B, Group::Universal), // Dives Akuru
    (0x446F_6772, Group::Universal), // Dogra
    (0x4475_706C, Group::Universal), // Duployan
    (0x4567_7970, Group::Universal), // Egyptian Hieroglyphs
    (0x456C_796D, Group::Universal), // Elymaic
    (0x4761_7261, Group::Universal), // Garay
    (0x476F_6E67, Group::Universal), // Gunjala Gondi
    (0x476F_6E6D, Group::Universal), // Masaram Gondi
    (0x4772_616E, Group::Universal), // Grantha
    (0x4775_6A72, Group::Indic), // Gujarati
    (0x4775_6B68, Group::Universal), // Gurung Khema
    (0x4775_7275, Group::Indic), // Gurmukhi
    (0x4861_6E67, Group::Hangul), // Hangul
    (0x4861_6E6F, Group::Universal), // Hanunoo
    (0x4865_6272, Group::Hebrew), // Hebrew
    (0x486D_6E67, Group::Universal), // Pahawh Hmong
    (0x486D_6E70, Group::Universal), // Nyiakeng Puachue Hmong
    (0x4A61_7661, Group::Universal), // Javanese
    (0x4B61_6C69, Group::Universal), // Kayah Li
    (0x4B61_7769, Group::Universal), // Kawi
    (0x4B68_6172, Group::Universal), // Kharoshthi
    (0x4B68_6D72, Group::Khmer), // Khmer
    (0x4B68_6F6A, Group::Universal), // Khojki
    (0x4B69_7473, Group::Universal), // Khitan Small Script
    (0x4B6E_6461, Group::Indic), // Kannada
    (0x4B72_6169, Group::Universal), // Kirat Rai
    (0x4B74_6869, Group::Universal), // Kaithi
    (0x4C61_6E61, Group::Universal), // Tai Tham
    (0x4C61_6F6F, Group::Thai), // Lao
    (0x4C65_7063, Group::Universal), // Lepcha
    (0x4C69_6D62, Group::Universal), // Limbu
    (0x4D61_686A, Group::Universal), // Mahajani
    (0x4D61_6B61, Group::Universal), // Makasar
    (0x4D61_6E64, Group::Universal), // Mandaic
    (0x4D61_6E69, Group::Universal), // Manichaean
    (0x4D61_7263, Group::Universal), // Marchen
    (0x4D65_6466, Group::Universal), // Medefaidrin
    (0x4D6C_796D, Group::Indic), // Malayalam
    (0x4D6F_6469, Group::Universal), // Modi
    (0x4D6F_6E67, Group::Universal), // Mongolian
    (0x4D74_6569, Group::Universal), // Meetei Mayek
    (0x4D75_6C74, Group::Universal), // Multani
    (0x4D79_6D72, Group::Myanmar), // Myanmar
    (0x4E61_676D, Group::Universal), // Nag Mundari
    (0x4E61_6E64, Group::Universal), // Nandinagari
    (0x4E65_7761, Group::Universal), // Newa
    (0x4E6B_6F6F, Group::Universal), // N'Ko
    (0x4F6E_616F, Group::Universal), // Ol Onal
    (0x4F72_7961, Group::Indic), // Oriya
    (0x4F75_6772, Group::Universal), // Old Uyghur
    (0x5068_6167, Group::Universal), // Phags-pa
    (0x5068_6C70, Group::Universal), // Psalter Pahlavi
    (0x506C_7264, Group::Universal), // Miao
    (0x5161_6167, Group::Zawgyi), // Myanmar in the encoding Zawgyi
    (0x526A_6E67, Group::Universal), // Rejang
    (0x526F_6867, Group::Universal), // Hanifi Rohingya
    (0x5361_7572, Group::Universal), // Saurashtra
    (0x5368_7264, Group::Universal), // Sharada
    (0x5369_6464, Group::Universal), // Siddham
    (0x5369_6E64, Group::Universal), // Khudawadi
    (0x5369_6E68, Group::Universal), // Sinhala
    (0x536F_6764, Group::Universal), // Sogdian
    (0x536F_676F, Group::Universal), // Old Sogdian
    (0x536F_796F, Group::Universal), // Soyombo
    (0x5375_6E64, Group::Universal), // Sundanese
    (0x5375_6E75, Group::Universal), // Sunuwar
    (0x5379_6C6F, Group::Universal), // Syloti Nagri
    (0x5379_7263, Group::Syriac), // Syriac
    (0x5461_6762, Group::Universal), // Tagbanwa
    (0x5461_6B72, Group::Universal), // Takri
    (0x5461_6C65, Group::Universal), // Tai Le
    (0x5461_6D6C, Group::Indic), // Tamil
    (0x5461_7674, Group::Universal), // Tai Viet
    (0x5465_6C75, Group::Indic), // Telugu
    (0x5466_6E67, Group::Universal), // Tifinagh
    (0x5467_6C67, Group::Universal), // Tagalog
    (0x5468_6169, Group::Thai), // Thai
    (0x5469_6274, Group::Universal), // Tibetan
    (0x5469_7268, Group::Universal), // Tirhuta
    (0x546E_7361, Group::Universal), // Tangsa
    (0x546F_6472, Group::Universal), // Todhri
    (0x546F_746F, Group::Universal), // Toto
    (0x5475_7467, Group::Universal), // Tulu Tigalari
    (0x5669_7468, Group::Universal), // Vithkuqi
    (0x5763_686F, Group::Universal), // Wancho
    (0x5965_7A69, Group::Universal), // Yezidi
    (0x5A61_6E62, Group::Universal), // Zanabazar Square
];

/// The group of a script; none if the default shaper serves it whatever the font.
pub fn group_of(script: Script) -> Option<Group>
    ensures { result ≡ group_of script }
{
    SCRIPTS
        .iter()
        .find(|row| row.0 == script.0.0)
        .map(|row| row.1)
}

/// The scripts of each group.
pub fn scripts_meet_worked_cases()
    ensures { WorkedScripts }
{}
