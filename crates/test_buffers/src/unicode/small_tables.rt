//! The small tables of Unicode that the program `shapeline` has, entry by entry, with the
//! characters beside them and how many they name.

use crate::unicode::answers::{Question, check_answers, check_categories, count};
use crate::unicode::comparing::assert_same;
use shape_sessions::unicode_tables::UnicodeTables;

/// Questions, and rows of characters with their answers.
const ANSWERS: [(Question, &str); 11] = [
    (
        Question::Ccc,
        "301 302 308 30A 344 -> 230
         323 -> 220
         5BC -> 12
         5C1 -> 10
         0000 a 300 303 307 309 30B 322 324 343 345 34F 5BB 5BD 5C0 5C2 E9 FE00 10FFFF -> 0",
    ),
    (
        Question::Split,
        "C2 -> A+302
         C5 -> A+30A
         E1 -> a+301
         E2 -> a+302
         E9 -> e+301
         344 -> 308+301
         1EA1 -> a+323
         1EA4 -> C2+301
         1EB9 -> e+323
         FB2A -> 5E9+5C1
         FB2C -> FB49+5C1
         FB49 -> 5E9+5BC
         2126 -> 3A9+0000
         212B -> C5+0000
         0000 A a e C1 C3 C4 C6 E0 E3 E8 EA 301 302 308 30A 323 343 345 3A9 5BC 5C1 5E9 1EA0 1EA2 1EA3 1EA5 \
             1EB8 1EBA 2125 2127 212A 212C FB29 FB2B FB2D FB48 FB4A -> none",
    ),
    // pairs that compose; then the same the other way round, and others
    (
        Question::Composite,
        "A+302 -> C2
         A+30A -> C5
         a+301 -> E1
         a+302 -> E2
         e+301 -> E9
         a+323 -> 1EA1
         C2+301 -> 1EA4
         e+323 -> 1EB9
         302+A 30A+A 301+a 302+a 301+e 323+a 301+C2 323+e 308+301 5E9+5C1 5E9+5BC FB49+5C1 3A9+0000 C5+0000 \
             A+301 A+303 A+309 B+302 E+301 a+300 a+303 a+30A a+324 b+301 e+302 e+322 C1+301 C2+302 E2+301 \
             -> none",
    ),
    (
        Question::Mirrored,
        "( -> )
         ) -> (
         < -> >
         > -> <
         [ -> ]
         ] -> [
         { -> }
         } -> {
         0000 0020 ' * ; = ? Z \\ ^ z | ~ AB BB 301 FF08 -> none",
    ),
    (
        Question::Vertical,
        "2014 -> FE31
         0000 - ( 2013 2015 FE30 FE31 FE32 -> none",
    ),
    // the numbers are those of the table in `characters`
    (
        Question::Space,
        "0020 A0 -> 18
         2000 2002 -> 2
         2001 2003 3000 -> 1
         2004 -> 3
         2005 -> 4
         2006 -> 6
         2007 -> 19
         2008 -> 20
         2009 -> 5
         200A -> 16
         202F -> 21
         205F -> 17
         0000 09 1F 21 a 9F A1 1680 1FFF 200B 202E 2030 205E 2060 2FFF 3001 -> 0",
    ),
    (
        Question::Ignorable,
        "34F 200C 200D FE00 FE01 FE02 FE03 FE04 FE05 FE06 FE07 FE08 FE09 FE0A FE0B FE0C FE0D FE0E FE0F \
             -> yes
         0000 0020 a AD 34E 350 180B 200B 200E FDFF FE10 FEFF E0020 E0100 -> no",
    ),
    (
        Question::Selector,
        "FE00 FE01 FE02 FE03 FE04 FE05 FE06 FE07 FE08 FE09 FE0A FE0B FE0C FE0D FE0E FE0F -> yes
         0000 a 180B 200D FDFF FE10 E0100 -> no",
    ),
    (
        Question::Pictograph,
        "1F600 1F601 1F602 1F603 1F604 1F605 1F606 1F607 1F608 1F609 1F60A 1F60B 1F60C 1F60D 1F60E 1F60F \
             1F610 1F611 1F612 1F613 1F614 1F615 1F616 1F617 1F618 1F619 1F61A 1F61B 1F61C 1F61D 1F61E 1F61F \
             1F620 1F621 1F622 1F623 1F624 1F625 1F626 1F627 1F628 1F629 1F62A 1F62B 1F62C 1F62D 1F62E 1F62F \
             1F630 1F631 1F632 1F633 1F634 1F635 1F636 1F637 1F638 1F639 1F63A 1F63B 1F63C 1F63D 1F63E 1F63F \
             1F640 1F641 1F642 1F643 1F644 1F645 1F646 1F647 1F648 1F649 1F64A 1F64B 1F64C 1F64D 1F64E 1F64F \
             -> yes
         0000 a A9 200D 2764 1F1E6 1F3FB 1F5FF 1F650 1F680 -> no",
    ),
    (
        Question::Script,
        "627 64A -> Arab
         5D0 5BC -> Hebr
         A 1EA4 -> Latn
         0020 1 2003 -> Zyyy
         301 FE00 -> Zinh
         3B1 414 E01 4E00 378 -> Zzzz",
    ),
    // Syriac is none of the program's scripts; four times `\0` is the tag 0, which no script has
    (
        Question::DirectionOfScript,
        "Arab Hebr -> RightToLeft
         Latn Zyyy Zinh Zzzz Syrc \0\0\0\0 -> LeftToRight",
    ),
];

/// A character of each category.
const CATEGORIES: &str = "
    A -> UppercaseLetter
    a -> LowercaseLetter
    1C5 -> TitlecaseLetter
    2B0 -> ModifierLetter
    5D0 -> OtherLetter
    301 -> NonspacingMark
    903 -> SpacingMark
    20DD -> EnclosingMark
    7 -> DecimalNumber
    2160 -> LetterNumber
    B2 -> OtherNumber
    _ -> ConnectorPunctuation
    - -> DashPunctuation
    ( -> OpenPunctuation
    ) -> ClosePunctuation
    AB -> InitialPunctuation
    BB -> FinalPunctuation
    ! -> OtherPunctuation
    + -> MathSymbol
    $ -> CurrencySymbol
    1F3FB -> ModifierSymbol
    1F600 -> OtherSymbol
    2003 -> SpaceSeparator
    2028 -> LineSeparator
    2029 -> ParagraphSeparator
    0000 -> Control
    200D -> Format
    E000 -> PrivateUse
    378 -> Unassigned
";

/// How many characters the tables have something for, of all of Unicode.
const ENTRIES: [(Question, usize); 5] = [
    (Question::Split, 14),
    (Question::Ccc, 8),
    (Question::Mirrored, 8),
    (Question::Vertical, 1),
    (Question::Space, 16),
];

/// The same of ranges.
const RANGES: [(Question, usize); 3] = [
    (Question::Ignorable, 19),
    (Question::Selector, 16),
    (Question::Pictograph, 80),
];

#[test]
fn each_entry(rt: HostRuntime) {
    for (question, rows) in &ANSWERS {
        check_answers::<UnicodeTables>(&rt, *question, rows);
    }
    check_categories::<UnicodeTables>(&rt, CATEGORIES);
}

#[test]
fn no_other_entry(rt: HostRuntime) {
    for (question, wanted) in &ENTRIES {
        assert_same(&rt, count::<UnicodeTables>(&rt, *question), *wanted);
    }
}

#[test]
fn no_other_character_of_ranges(rt: HostRuntime) {
    for (question, wanted) in &RANGES {
        assert_same(&rt, count::<UnicodeTables>(&rt, *question), *wanted);
    }
}
