//! The answers for single characters, taken from the files of the database (UnicodeData.txt,
//! Scripts.txt, DerivedNormalizationProps.txt) and from HarfBuzz: ccc, spaces, the ends of ranges,
//! the directions of scripts.

use crate::unicode::answers::{Question, check_answers, check_categories};
use crate::unicode::comparing::{number, parts};
use shape_buffer::interfaces::hb_unicode_funcs_t;
use shape_unicode::UnicodeDatabase;
use std::process::Abort;
use ucd_normal::canonical_combining_class;

/// A mark of each combining class that is changed, and the ccc that HarfBuzz has for it.
const CHANGED: &str = "
    5B0 -> 22
    5B1 -> 15
    5B2 -> 16
    5B3 -> 17
    5B4 -> 23
    5B5 -> 18
    5B6 -> 19
    5B7 -> 20
    5B8 -> 21
    5B9 -> 14
    5BB -> 24
    5BC -> 12
    5BD -> 25
    5BF -> 13
    5C1 -> 10
    5C2 -> 11
    64B -> 28
    64C -> 29
    64D -> 30
    64E -> 31
    64F -> 32
    650 -> 33
    651 -> 27
    C55 -> 4
    C56 -> 5
    E38 -> 3
    F72 -> 132
    F74 -> 131
";

/// Pairs that compose again: Latin with one and with two marks, a sign, Greek, Cyrillic, Arabic,
/// Indic letters, kana, Kaithi in the supplementary planes, and Hangul.
const SPLITS: &str = "
    C5 -> A+30A
    E9 -> e+301
    1EA4 -> C2+301
    1EC7 -> 1EB9+302
    226E -> <+338
    3AC -> 3B1+301
    1F82 -> 1F02+345
    439 -> 438+306
    623 -> 627+654
    929 -> 928+93C
    9CB -> 9C7+9BE
    DDD -> DDC+DCA
    1026 -> 1025+102E
    304C -> 304B+3099
    1109A -> 11099+110BA
    AC00 -> 1100+1161
    AC01 -> AC00+11A8
    D788 -> 1112+1175
    D7A3 -> D788+11C2
";

/// The same pairs, as they compose.
const COMPOSITES: &str = "
    A+30A -> C5
    e+301 -> E9
    C2+301 -> 1EA4
    1EB9+302 -> 1EC7
    <+338 -> 226E
    3B1+301 -> 3AC
    1F02+345 -> 1F82
    438+306 -> 439
    627+654 -> 623
    928+93C -> 929
    9C7+9BE -> 9CB
    DDC+DCA -> DDD
    1025+102E -> 1026
    304B+3099 -> 304C
    11099+110BA -> 1109A
    1100+1161 -> AC00
    AC00+11A8 -> AC01
    1112+1175 -> D788
    D788+11C2 -> D7A3
";

/// Questions, and rows of characters with their answers.
const ANSWERS: [(Question, &str); 16] = [
    (Question::Ccc, CHANGED),
    (Question::Split, SPLITS),
    (Question::Composite, COMPOSITES),
    // the whole table, and what stands beside its entries: 0 is no space, 1 to 6 and 16 are an em
    // and its parts, 17 is 4/18 em, 18 the ordinary space, and 19, 20 and 21 are as wide as a
    // digit, as punctuation, and narrow
    (
        Question::Space,
        "1F -> 0
         0020 -> 18
         A0 -> 18
         1680 -> 0
         2000 -> 2
         2001 -> 1
         2002 -> 2
         2003 -> 1
         2004 -> 3
         2005 -> 4
         2006 -> 6
         2007 -> 19
         2008 -> 20
         2009 -> 5
         200A -> 16
         200B -> 0
         202F -> 21
         205F -> 17
         3000 -> 1",
    ),
    // the ends of each range of ignorables; then what stands beside the ranges, and characters in
    // them that fonts draw
    (
        Question::Ignorable,
        "AD 34F 61C 17B4 17B5 180B 180E 200B 200C 200D 200F 202A 202E 2060 2065 206F FE00 FE0F FEFF FFF0 \
             FFF8 1D173 1D17A E0000 E0001 E01EF E0FFF -> yes
         a 0020 AC 34E 115F 1160 180A 180F 200A 2010 202F 3164 FE10 FFA0 FFF9 1BCA0 1BCA3 1D17B E1000 -> no",
    ),
    (
        Question::Selector,
        "FE00 FE0F E0100 E01EF -> yes
         180B 180D 180F FDFF FE10 E00FF E01F0 -> no",
    ),
    (
        Question::Pictograph,
        "A9 2764 1F468 1F600 1F9D1 1FFFD -> yes
         23 1 200D 1F1E6 1F3FB 1FFFE -> no",
    ),
    // characters that mirror one another, and some that mirror none
    (
        Question::Mirrored,
        "( -> )
         ) -> (
         < -> >
         > -> <
         AB -> BB
         BB -> AB
         2208 -> 220B
         220B -> 2208
         2264 -> 2265
         2265 -> 2264
         298D -> 2990
         2990 -> 298D
         2ADE -> 22A6
         22A6 -> 2ADE
         300C -> 300D
         300D -> 300C
         FF62 -> FF63
         FF63 -> FF62
         a -> none
         / -> none
         221A -> none
         2018 -> none
         201C -> none",
    ),
    (
        Question::Vertical,
        "2013 -> FE32
         2014 -> FE31
         2025 -> FE30
         2026 -> FE19
         3001 -> FE11
         3002 -> FE12
         300C -> FE41
         FE4F -> FE34
         FF01 -> FE15
         FF08 -> FE35
         FF5D -> FE38
         a -> none
         ( -> none
         ! -> none
         _ -> none
         2015 -> none
         30FF -> none
         FE35 -> none",
    ),
    // marks whose ccc stays, characters that have a ccc of their own, and letters
    (
        Question::Ccc,
        "a -> 0
         334 -> 1
         93C -> 7
         3099 -> 8
         94D -> 9
         FB1E -> 26
         652 -> 34
         670 -> 35
         711 -> 36
         E48 -> 107
         EB8 -> 118
         EC8 -> 122
         F71 -> 129
         321 -> 202
         323 -> 220
         301 -> 230
         345 -> 240
         F39 -> 127
         FC6 -> 254
         1037 -> 7
         103A -> 9
         1A60 -> 254
         AC00 -> 0
         10FFFF -> 0",
    ),
    (
        Question::Script,
        "a -> Latn
         1 -> Zyyy
         301 -> Zinh
         3B1 -> Grek
         416 -> Cyrl
         5D0 -> Hebr
         627 -> Arab
         915 -> Deva
         E01 -> Thai
         1100 -> Hang
         AC00 -> Hang
         180B -> Mong
         2C80 -> Copt
         3042 -> Hira
         4E00 -> Hani
         16F00 -> Plrd
         E000 -> Zzzz",
    ),
    (
        Question::DirectionOfScript,
        "Latn Hani Mong Zyyy Zzzz ???? -> LeftToRight
         Arab Hebr Syrc Adlm Gara -> RightToLeft
         Hung Ital Runr Tfng -> either",
    ),
    // singletons, whose second part is U+0000, and pairs that are excluded from composition; then
    // letters, jamo, what stands beside the syllables, compatibility characters, and the last
    // character
    (
        Question::Split,
        "340 -> 300+0000
         37E -> ;+0000
         1F71 -> 3AC+0000
         1FEE -> 385+0000
         2126 -> 3A9+0000
         212B -> C5+0000
         F900 -> 8C48+0000
         2F800 -> 4E3D+0000
         344 -> 308+301
         958 -> 915+93C
         F73 -> F71+F72
         FB1D -> 5D9+5B4
         FB2C -> FB49+5C1
         FB49 -> 5E9+5BC
         1D160 -> 1D15F+1D16E
         1D1C0 -> 1D1BC+1D16F",
    ),
    (
        Question::Composite,
        "300+0000 ;+0000 3AC+0000 385+0000 3A9+0000 C5+0000 8C48+0000 4E3D+0000 308+301 915+93C F71+F72 \
             5D9+5B4 FB49+5C1 5E9+5BC 1D15F+1D16E 1D1BC+1D16F -> none",
    ),
    (
        Question::Split,
        "0000 A 301 1100 11A7 ABFF D7A4 FB01 FDFA 10FFFF -> none",
    ),
    (
        Question::Composite,
        "A+B 30A+A AC01+11A8 AC00+11A7 1100+11A8 1113+1161 -> none",
    ),
];

/// A character of most categories.
const CATEGORIES: &str = "
    A -> UppercaseLetter
    1C5 -> TitlecaseLetter
    2B0 -> ModifierLetter
    5D0 -> OtherLetter
    301 -> NonspacingMark
    93E -> SpacingMark
    20DD -> EnclosingMark
    2010 -> DashPunctuation
    3000 -> SpaceSeparator
    2028 -> LineSeparator
    200D -> Format
    E000 -> PrivateUse
    10FFFF -> Unassigned
";

#[test]
fn single_characters(rt: HostRuntime) {
    for (question, rows) in &ANSWERS {
        check_answers::<UnicodeDatabase>(&rt, *question, rows);
    }
    check_categories::<UnicodeDatabase>(&rt, CATEGORIES);
}

/// Marks that have a ccc of their own, whatever their combining class.
const ALONE: [char; 3] = ['\u{F39}', '\u{FC6}', '\u{1A60}'];

/// Whether a ccc is that of a changed combining class.
fn is_changed(rt: &impl Abort, ccc: u8) -> bool {
    for row in CHANGED.trim().lines() {
        if number(rt, parts(rt, row, "->").1) == u32::from(ccc) {
            return true;
        }
    }
    false
}

/// Whether a character has its combining class as its ccc, or one of those that are listed.
fn is_known(rt: &impl Abort, c: char) -> bool {
    let ccc = UnicodeDatabase::modified_combining_class(c);
    ccc == canonical_combining_class(c) || ALONE.contains(&c) || is_changed(rt, ccc)
}

/// Stops at a character of any other ccc.
fn assert_known(rt: &impl Abort, c: char) {
    if !is_known(rt, c) {
        panic!(rt; "the ccc of {c:?}");
    }
}

#[test]
fn no_other_ccc_is_changed(rt: HostRuntime) {
    for c in '\0'..=char::MAX {
        assert_known(&rt, c);
    }
}
