//! OpenType's features in Apple's registry of features.
ghost use Rattle.std.specs.Prelude.{◌≡◌};
ghost use Rattle.apple_substitution.specs.Registry;

/// A feature of OpenType in Apple's registry: a type, and what turns it on and off.
#[derive(Clone, Copy, Debug)]
pub struct Mapping {
    /// The type.
    pub kind: u16,
    /// The setting of the type if the feature is on.
    pub on: u16,
    /// The setting of the type if it is off.
    pub off: u16,
}

/// The tags of features, with the type in the registry, and the settings for on and for off, as in
/// HarfBuzz's `hb-aat-layout.cc`.
pub const FEATURES: [(u32, u16, u16, u16); 78] = [
    (0x6166_7263, 11, 1, 0), // afrc
    (0x6332_7063, 38, 2, 0), // c2pc
    (0x6332_7363, 38, 1, 0), // c2sc
    (0x6361_6C74, 36, 0, 1), // calt
    (0x6361_7365, 33, 0, 1), // case
    (0x636C_6967, 1, 18, 19), // clig
    (0x6370_7370, 33, 2, 3), // cpsp
    (0x6373_7768, 36, 4, 5), // cswh
    (0x646C_6967, 1, 4, 5), // dlig
    (0x6578_7074, 20, 10, 16), // expt
    (0x6672_6163, 11, 2, 0), // frac
    (0x6677_6964, 22, 1, 7), // fwid
    (0x6861_6C74, 22, 6, 7), // halt
    (0x6869_7374, 40, 0, 1), // hist
    (0x686B_6E61, 34, 0, 1), // hkna
    (0x686C_6967, 1, 20, 21), // hlig
    (0x686E_676C, 23, 1, 0), // hngl
    (0x686F_6A6F, 20, 12, 16), // hojo
    (0x6877_6964, 22, 2, 7), // hwid
    (0x6974_616C, 32, 2, 3), // ital
    (0x6A70_3034, 20, 11, 16), // jp04
    (0x6A70_3738, 20, 2, 16), // jp78
    (0x6A70_3833, 20, 3, 16), // jp83
    (0x6A70_3930, 20, 4, 16), // jp90
    (0x6C69_6761, 1, 2, 3), // liga
    (0x6C6E_756D, 21, 1, 2), // lnum
    (0x6D67_726B, 15, 10, 11), // mgrk
    (0x6E6C_636B, 20, 13, 16), // nlck
    (0x6F6E_756D, 21, 0, 2), // onum
    (0x6F72_646E, 10, 3, 0), // ordn
    (0x7061_6C74, 22, 5, 7), // palt
    (0x7063_6170, 37, 2, 0), // pcap
    (0x706B_6E61, 22, 0, 7), // pkna
    (0x706E_756D, 6, 1, 4), // pnum
    (0x7077_6964, 22, 0, 7), // pwid
    (0x7177_6964, 22, 4, 7), // qwid
    (0x726C_6967, 1, 0, 1), // rlig
    (0x7275_6279, 28, 2, 3), // ruby
    (0x7369_6E66, 10, 4, 0), // sinf
    (0x736D_6370, 37, 1, 0), // smcp
    (0x736D_706C, 20, 1, 16), // smpl
    (0x7373_3031, 35, 2, 3), // ss01
    (0x7373_3032, 35, 4, 5), // ss02
    (0x7373_3033, 35, 6, 7), // ss03
    (0x7373_3034, 35, 8, 9), // ss04
    (0x7373_3035, 35, 10, 11), // ss05
    (0x7373_3036, 35, 12, 13), // ss06
    (0x7373_3037, 35, 14, 15), // ss07
    (0x7373_3038, 35, 16, 17), // ss08
    (0x7373_3039, 35, 18, 19), // ss09
    (0x7373_3130, 35, 20, 21), // ss10
    (0x7373_3131, 35, 22, 23), // ss11
    (0x7373_3132, 35, 24, 25), // ss12
    (0x7373_3133, 35, 26, 27), // ss13
    (0x7373_3134, 35, 28, 29), // ss14
    (0x7373_3135, 35, 30, 31), // ss15
    (0x7373_3136, 35, 32, 33), // ss16
    (0x7373_3137, 35, 34, 35), // ss17
    (0x7373_3138, 35, 36, 37), // ss18
    (0x7373_3139, 35, 38, 39), // ss19
    (0x7373_3230, 35, 40, 41), // ss20
    (0x7375_6273, 10, 2, 0), // subs
    (0x7375_7073, 10, 1, 0), // sups
    (0x7377_7368, 36, 2, 3), // swsh
    (0x7469_746C, 19, 4, 0), // titl
    (0x746E_616D, 20, 14, 16), // tnam
    (0x746E_756D, 6, 0, 4), // tnum
    (0x7472_6164, 20, 0, 16), // trad
    (0x7477_6964, 22, 3, 7), // twid
    (0x756E_6963, 3, 14, 15), // unic
    (0x7661_6C74, 22, 5, 7), // valt
    (0x7665_7274, 4, 0, 1), // vert
    (0x7668_616C, 22, 6, 7), // vhal
    (0x766B_6E61, 34, 2, 3), // vkna
    (0x7670_616C, 22, 5, 7), // vpal
    (0x7672_7432, 4, 0, 1), // vrt2
    (0x7672_7472, 4, 2, 3), // vrtr
    (0x7A65_726F, 14, 4, 5), // zero
];

/// What the registry has for the feature of a tag.
pub fn mapping_of(tag: u32) -> Option<Mapping>
    ensures { result ≡ Registry.mapping_of tag }
{
    FEATURES.iter().find(|row| row.0 == tag).map(|row| Mapping {
        kind: row.1,
        on: row.2,
        off: row.3,
    })
}
