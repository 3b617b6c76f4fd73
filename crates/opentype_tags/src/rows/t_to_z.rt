//! Languages whose subtag begins with t to z: the subtag, and OpenType's tag of the language (0: it
//! has none).

pub const T: [(u32, u32); 94] = [
    (0x74612020, 0x54414D20), // ta TAM
    (0x74652020, 0x54454C20), // te TEL
    (0x74672020, 0x54414A20), // tg TAJ
    (0x74682020, 0x54484120), // th THA
    (0x74692020, 0x54475920), // ti TGY
    (0x746B2020, 0x544B4D20), // tk TKM
    (0x746C2020, 0x54474C20), // tl TGL
    (0x746E2020, 0x544E4120), // tn TNA
    (0x746F2020, 0x54474E20), // to TGN
    (0x74722020, 0x54524B20), // tr TRK
    (0x74732020, 0x54534720), // ts TSG
    (0x74742020, 0x54415420), // tt TAT
    (0x74772020, 0x54574920), // tw TWI
    (0x74772020, 0x414B4120), // tw AKA
    (0x74792020, 0x54485420), // ty THT
    (0x74616120, 0x41544820), // taa ATH
    (0x74616A20, 0), // taj none
    (0x74617120, 0x54415120), // taq TAQ
    (0x74617120, 0x544D4820), // taq TMH
    (0x74617120, 0x42425220), // taq BBR
    (0x74617320, 0x43505020), // tas CPP
    (0x74617520, 0x41544820), // tau ATH
    (0x74636220, 0x41544820), // tcb ATH
    (0x74636520, 0x41544820), // tce ATH
    (0x74636820, 0x43505020), // tch CPP
    (0x74637020, 0x51494E20), // tcp QIN
    (0x74637320, 0x43505020), // tcs CPP
    (0x74637920, 0x54554C20), // tcy TUL
    (0x74637A20, 0x51494E20), // tcz QIN
    (0x74647820, 0x4D4C4720), // tdx MLG
    (0x74656320, 0x4B414C20), // tec KAL
    (0x74656D20, 0x544D4E20), // tem TMN
    (0x74657A20, 0x42425220), // tez BBR
    (0x74666E20, 0x41544820), // tfn ATH
    (0x74676820, 0x43505020), // tgh CPP
    (0x74676A20, 0x4E495320), // tgj NIS
    (0x74676E20, 0), // tgn none
    (0x74677220, 0), // tgr none
    (0x74677820, 0x41544820), // tgx ATH
    (0x74677920, 0), // tgy none
    (0x74687420, 0x41544820), // tht ATH
    (0x74687620, 0x54485620), // thv THV
    (0x74687620, 0x544D4820), // thv TMH
    (0x74687620, 0x42425220), // thv BBR
    (0x74687A20, 0x54485A20), // thz THZ
    (0x74687A20, 0x544D4820), // thz TMH
    (0x74687A20, 0x42425220), // thz BBR
    (0x74696120, 0x42425220), // tia BBR
    (0x74696720, 0x54475220), // tig TGR
    (0x746A6F20, 0x42425220), // tjo BBR
    (0x746B6720, 0x4D4C4720), // tkg MLG
    (0x746B6D20, 0), // tkm none
    (0x746D6720, 0x43505020), // tmg CPP
    (0x746D6820, 0x544D4820), // tmh TMH
    (0x746D6820, 0x42425220), // tmh BBR
    (0x746D6E20, 0), // tmn none
    (0x746D7720, 0x4D4C5920), // tmw MLY
    (0x746E6120, 0), // tna none
    (0x746E6520, 0), // tne none
    (0x746E6620, 0x44524920), // tnf DRI
    (0x746E6620, 0x46415220), // tnf FAR
    (0x746E6720, 0), // tng none
    (0x746F6420, 0x544F4430), // tod TOD0
    (0x746F6920, 0x544E4720), // toi TNG
    (0x746F6A20, 0x4D594E20), // toj MYN
    (0x746F6C20, 0x41544820), // tol ATH
    (0x746F7220, 0x42414430), // tor BAD0
    (0x74706920, 0x54504920), // tpi TPI
    (0x74706920, 0x43505020), // tpi CPP
    (0x74726620, 0x43505020), // trf CPP
    (0x74726B20, 0), // trk none
    (0x74727520, 0x54554120), // tru TUA
    (0x74727520, 0x53595220), // tru SYR
    (0x74736720, 0), // tsg none
    (0x74746320, 0x4D594E20), // ttc MYN
    (0x74746D20, 0x41544820), // ttm ATH
    (0x74747120, 0x54545120), // ttq TTQ
    (0x74747120, 0x544D4820), // ttq TMH
    (0x74747120, 0x42425220), // ttq BBR
    (0x74756120, 0), // tua none
    (0x74756C20, 0), // tul none
    (0x74757520, 0x41544820), // tuu ATH
    (0x74757620, 0), // tuv none
    (0x74757920, 0x4B414C20), // tuy KAL
    (0x74767920, 0x43505020), // tvy CPP
    (0x74786320, 0x41544820), // txc ATH
    (0x74787920, 0x4D4C4720), // txy MLG
    (0x74797620, 0x54555620), // tyv TUV
    (0x747A6820, 0x4D594E20), // tzh MYN
    (0x747A6A20, 0x4D594E20), // tzj MYN
    (0x747A6D20, 0x545A4D20), // tzm TZM
    (0x747A6D20, 0x42425220), // tzm BBR
    (0x747A6F20, 0x545A4F20), // tzo TZO
    (0x747A6F20, 0x4D594E20), // tzo MYN
];

pub const U: [(u32, u32); 12] = [
    (0x75672020, 0x55594720), // ug UYG
    (0x756B2020, 0x554B5220), // uk UKR
    (0x75722020, 0x55524420), // ur URD
    (0x757A2020, 0x555A4220), // uz UZB
    (0x75626C20, 0x42494B20), // ubl BIK
    (0x756B6920, 0x4B554920), // uki KUI
    (0x756C6E20, 0x43505020), // uln CPP
    (0x756E7220, 0x4D554E20), // unr MUN
    (0x75726B20, 0x4D4C5920), // urk MLY
    (0x75737020, 0x4D594E20), // usp MYN
    (0x757A6E20, 0x555A4220), // uzn UZB
    (0x757A7320, 0x555A4220), // uzs UZB
];

pub const V: [(u32, u32); 14] = [
    (0x76652020, 0x56454E20), // ve VEN
    (0x76692020, 0x56495420), // vi VIT
    (0x766F2020, 0x564F4C20), // vo VOL
    (0x76617020, 0x51494E20), // vap QIN
    (0x76696320, 0x43505020), // vic CPP
    (0x76697420, 0), // vit none
    (0x766B6B20, 0x4D4C5920), // vkk MLY
    (0x766B7020, 0x43505020), // vkp CPP
    (0x766B7420, 0x4D4C5920), // vkt MLY
    (0x766C7320, 0x464C4520), // vls FLE
    (0x766D7720, 0x4D414B20), // vmw MAK
    (0x76726F20, 0x56524F20), // vro VRO
    (0x76726F20, 0x45544920), // vro ETI
    (0x76736E20, 0x53414E20), // vsn SAN
];

pub const W: [(u32, u32); 18] = [
    (0x77612020, 0x574C4E20), // wa WLN
    (0x776F2020, 0x574C4620), // wo WLF
    (0x77616720, 0), // wag none
    (0x77626D20, 0x57412020), // wbm WA
    (0x77627220, 0x57414720), // wbr WAG
    (0x77627220, 0x52414A20), // wbr RAJ
    (0x77656120, 0x4B524E20), // wea KRN
    (0x77657320, 0x43505020), // wes CPP
    (0x77657520, 0x51494E20), // weu QIN
    (0x776C6320, 0x434D5220), // wlc CMR
    (0x776C6520, 0x53494720), // wle SIG
    (0x776C6B20, 0x41544820), // wlk ATH
    (0x776E6920, 0x434D5220), // wni CMR
    (0x77727920, 0x4D415720), // wry MAW
    (0x77736720, 0x474F4E20), // wsg GON
    (0x77757520, 0x5A485320), // wuu ZHS
    (0x77796120, 0x57445420), // wya WDT
    (0x77796120, 0x57594E20), // wya WYN
];

pub const X: [(u32, u32); 21] = [
    (0x78682020, 0x58485320), // xh XHS
    (0x78616C20, 0x4B4C4D20), // xal KLM
    (0x78616C20, 0x544F4420), // xal TOD
    (0x78616E20, 0x53454B20), // xan SEK
    (0x78626420, 0), // xbd none
    (0x786D6720, 0x424D4C20), // xmg BML
    (0x786D6D20, 0x4D4C5920), // xmm MLY
    (0x786D6D20, 0x43505020), // xmm CPP
    (0x786D7620, 0x4D4C4720), // xmv MLG
    (0x786D7720, 0x4D4C4720), // xmw MLG
    (0x786E6A20, 0x53585420), // xnj SXT
    (0x786E7120, 0x53585420), // xnq SXT
    (0x786E7220, 0x44475220), // xnr DGR
    (0x78706520, 0x58504520), // xpe XPE
    (0x78706520, 0x4B504C20), // xpe KPL
    (0x78736C20, 0x53534C20), // xsl SSL
    (0x78736C20, 0x534C4120), // xsl SLA
    (0x78736C20, 0x41544820), // xsl ATH
    (0x78737420, 0x53494720), // xst SIG
    (0x78757020, 0x41544820), // xup ATH
    (0x78776F20, 0x544F4420), // xwo TOD
];

pub const Y: [(u32, u32); 14] = [
    (0x79692020, 0x4A494920), // yi JII
    (0x796F2020, 0x59424120), // yo YBA
    (0x79616A20, 0x42414430), // yaj BAD0
    (0x79616B20, 0), // yak none
    (0x79626120, 0), // yba none
    (0x79626220, 0x424D4C20), // ybb BML
    (0x79626420, 0x41524B20), // ybd ARK
    (0x79637220, 0x43505020), // ycr CPP
    (0x79646420, 0x4A494920), // ydd JII
    (0x79696820, 0x4A494920), // yih JII
    (0x79696D20, 0), // yim none
    (0x796F7320, 0x51494E20), // yos QIN
    (0x79756120, 0x4D594E20), // yua MYN
    (0x79756520, 0x5A484820), // yue ZHH
];

pub const Z: [(u32, u32); 33] = [
    (0x7A612020, 0x5A484120), // za ZHA
    (0x7A682020, 0x5A485320), // zh ZHS
    (0x7A752020, 0x5A554C20), // zu ZUL
    (0x7A636820, 0x5A484120), // zch ZHA
    (0x7A646A20, 0x434D5220), // zdj CMR
    (0x7A656820, 0x5A484120), // zeh ZHA
    (0x7A656E20, 0x42425220), // zen BBR
    (0x7A676220, 0x5A484120), // zgb ZHA
    (0x7A676820, 0x5A474820), // zgh ZGH
    (0x7A676820, 0x42425220), // zgh BBR
    (0x7A676D20, 0x5A484120), // zgm ZHA
    (0x7A676E20, 0x5A484120), // zgn ZHA
    (0x7A686420, 0x5A484120), // zhd ZHA
    (0x7A686E20, 0x5A484120), // zhn ZHA
    (0x7A6B6220, 0x4B484120), // zkb KHA
    (0x7A6C6A20, 0x5A484120), // zlj ZHA
    (0x7A6C6D20, 0x4D4C5920), // zlm MLY
    (0x7A6C6E20, 0x5A484120), // zln ZHA
    (0x7A6C7120, 0x5A484120), // zlq ZHA
    (0x7A6D6920, 0x4D4C5920), // zmi MLY
    (0x7A6D7A20, 0x42414430), // zmz BAD0
    (0x7A6E6420, 0), // znd none
    (0x7A6E6520, 0x5A4E4420), // zne ZND
    (0x7A6F6D20, 0x51494E20), // zom QIN
    (0x7A716520, 0x5A484120), // zqe ZHA
    (0x7A736D20, 0x4D4C5920), // zsm MLY
    (0x7A756D20, 0x4C524320), // zum LRC
    (0x7A796220, 0x5A484120), // zyb ZHA
    (0x7A796720, 0x5A484120), // zyg ZHA
    (0x7A796A20, 0x5A484120), // zyj ZHA
    (0x7A796E20, 0x5A484120), // zyn ZHA
    (0x7A797020, 0x51494E20), // zyp QIN
    (0x7A7A6A20, 0x5A484120), // zzj ZHA
];
