//! Cases, by the type of the lookup. A row is `LINE -> POSITIONS`; each was worked by hand from the
//! standard.
use crate::positions::lines::positioned;
use crate::positions::tables::Host;

// the same for glyph 3, as others name it
const NAMED: &str = "1 0 0001 0008 0001 000A 0001 0001 0003";

// type 4: mark 8, by its point (100, 0), on glyph 2 at (300, 600)
const ON_BASE: &str = "0001 0022 0028 0001 000C 0018 \
    0001 0000 0006 0001 0064 0000  0001 0004 0001 012C 0258  0001 0001 0008  0001 0001 0002";

// type 5: mark 8, by its point (100, 0), on the components of glyph 4 at (100, 600) and (500, 600)
const ON_LIGATURE: &str = "0001 002E 0034 0001 000C 0018 \
    0001 0000 0006 0001 0064 0000  0001 0004 0002 0006 000C 0001 0064 0258 0001 01F4 0258 \
    0001 0001 0008  0001 0001 0004";

// type 6: mark 8, by its point (100, 0), on mark 9 at (300, 600)
const ON_MARK: &str = "0001 0022 0028 0001 000C 0018 \
    0001 0000 0006 0001 0064 0000  0001 0004 0001 012C 0258  0001 0001 0008  0001 0001 0009";

// type 3: glyph 2 is left at (500, 100), glyph 3 is entered at (50, 20)
const CURSIVE: &str = "0001 001A 0002 0000 000E 0014 0000 \
    0001 01F4 0064  0001 0032 0014  0001 0002 0002 0003";

/// Lookups, whose digits follow those of a beginning, and rows.
const CASES: [(&str, &str, &str); 21] = [
    // type 1, format 1: glyph 2 is moved by 10
    (
        "1 0 ",
        "0001 0008 0001 000A 0001 0001 0002",
        "ltr 2 3 -> 10,0,600 0,0,600\nttb 2 3 -> 10,0,-600 0,0,-600",
    ),
    // format 2: advances, by 20 and by -20
    (
        "1 0 ",
        "0002 000C 0004 0002 0014 FFEC 0001 0002 0002 0003",
        "ltr 2 3 7 -> 0,0,620 0,0,580 0,0,600\nttb 2 3 -> 0,0,-600 0,0,-600",
    ),
    // an advance down the line grows downwards
    (
        "1 0 ",
        "0001 0008 0008 0032 0001 0001 0002",
        "ttb 2 3 -> 0,0,-650 0,0,-600\nltr 2 3 -> 0,0,600 0,0,600",
    ),
    // pairs 2 and 3: the advance of the first by -50, the second to the right by 7; the lookup goes
    // on after it
    (
        "2 0 ",
        "0001 0014 0004 0001 0001 000C  0001 0003 FFCE 0007  0001 0001 0002",
        "ltr 2 3 3 -> 0,0,550 7,0,600 0,0,600\n\
         ltr 2 2 3 -> 0,0,600 0,0,550 7,0,600\n\
         ltr 2 7 3 -> 0,0,600 0,0,600 0,0,600",
    ),
    // by classes: 3 is of class 1, all others are of class 0
    (
        "2 0 ",
        "0002 0020 0004 0000 0018 0018 0002 0002  0001 0002 0003 0004  0001 0003 0001 0001  0001 0002 0002 0003",
        "ltr 2 2 3 3 7 -> 0,0,601 0,0,602 0,0,604 0,0,603 0,0,600",
    ),
    // past marks, by flag 8
    (
        "2 8 ",
        "0001 0014 0004 0001 0001 000C  0001 0003 FFCE 0007  0001 0001 0002",
        "ltr 2 8 3 -> 0,0,550 0,0,600 7,0,600",
    ),
    (
        "3 0 ",
        CURSIVE,
        "ltr 2 3 -> 0,0,500 -50,80,550\nrtl 2 3 -> -500,0,100 0,80,50\nltr 3 2 -> 0,0,600 0,0,600",
    ),
    // by flag 1 the first one moves across the line
    ("3 1 ", CURSIVE, "ltr 2 3 -> 0,-80,500 -50,0,550"),
    (
        "4 0 ",
        ON_BASE,
        "ltr 2 8 -> 0,0,600 -400,600,600\n\
         ltr 2 8 8 -> 0,0,600 -400,600,600 -1000,600,600\n\
         ltr 2 9 8 -> 0,0,600 0,0,600 -1000,600,600\n\
         ltr 2 3 8 -> 0,0,600 0,0,600 0,0,600\n\
         ltr 8 -> 0,0,600\n\
         rtl 2 8 -> 0,0,600 800,600,600\n\
         ttb 2 8 -> 0,0,-600 200,1200,-600",
    ),
    // far away
    (
        "9 0 0001 0004 00000008 ",
        ON_BASE,
        "ltr 2 8 -> 0,0,600 -400,600,600",
    ),
    // the anchor of the base is past the end
    (
        "4 0 ",
        "0001 000C 0012 0001 0018 0024  0001 0001 0008  0001 0001 0002 \
         0001 0000 0006 0001 0064 0000  0001 0004 0001 012C",
        "ltr 2 8 -> 0,0,600 0,0,600",
    ),
    (
        "5 0 ",
        ON_LIGATURE,
        "ltr 4:1.0 8:1.1 -> 0,0,600 -600,600,600\n\
         ltr 4:1.0 8:1.2 -> 0,0,600 -200,600,600\n\
         ltr 4:1.0 8:1.3 -> 0,0,600 -200,600,600\n\
         ltr 4:1.0 8:2.1 -> 0,0,600 -200,600,600\n\
         ltr 4 8 -> 0,0,600 -200,600,600",
    ),
    (
        "6 0 ",
        ON_MARK,
        "ltr 2 9 8 -> 0,0,600 0,0,600 -400,600,600\n\
         ltr 2 9 10 8 -> 0,0,600 0,0,600 0,0,600 0,0,600\n\
         ltr 2 9:1.1 8:1.1 -> 0,0,600 0,0,600 -400,600,600\n\
         ltr 2 9:1.1 8:1.2 -> 0,0,600 0,0,600 0,0,600",
    ),
    // mark 10 isn't of the set
    (
        "6 10 ",
        ON_MARK,
        "ltr 2 9 10 8 -> 0,0,600 0,0,600 0,0,600 -1000,600,600",
    ),
    // contexts, by glyphs, by classes and by coverage; each names the lookup after it
    (
        "7 0 0001 0016 0001 0008  0001 0004  0002 0001 0003 0001 0001  0001 0001 0002;",
        NAMED,
        SECOND,
    ),
    (
        "7 0 0002 0022 001A 0002 000C 0000  0001 0004  0002 0001 0001 0001 0001  0001 0003 0001 0001  \
         0001 0001 0002;",
        NAMED,
        SECOND,
    ),
    (
        "7 0 0003 0002 0001 000E 0014 0001 0001  0001 0001 0002  0001 0001 0003;",
        NAMED,
        SECOND,
    ),
    // the named glyph stands after a mark that the rule skips
    (
        "7 8 0001 0016 0001 0008  0001 0004  0002 0001 0003 0001 0001  0001 0001 0002;",
        NAMED,
        "ltr 2 8 3 -> 0,0,600 0,0,600 10,0,600",
    ),
    // chained contexts
    (
        "8 0 0001 001C 0001 0008  0001 0004  0001 0002 0001 0001 0002 0001 0000 0001  0001 0001 0003;",
        NAMED,
        MIDDLE,
    ),
    (
        "8 0 0002 0034 0024 002C 0024 0002 0000 0010  0001 0004  0001 0001 0001 0001 0001 0001 0000 0001 \
         0001 0002 0001 0001  0001 0003 0001 0001  0001 0001 0003;",
        NAMED,
        MIDDLE,
    ),
    (
        "8 0 0003 0001 0014 0001 001A 0001 0014 0001 0000 0001  0001 0001 0002  0001 0001 0003;",
        NAMED,
        MIDDLE,
    ),
];

// the second of two glyphs is moved
const SECOND: &str = "ltr 2 3 3 -> 0,0,600 10,0,600 0,0,600\n\
    ltr 2 2 -> 0,0,600 0,0,600\nltr 3 3 -> 0,0,600 0,0,600";

// the one between two others is moved
const MIDDLE: &str = "ltr 2 3 2 -> 0,0,600 10,0,600 0,0,600\n\
    ltr 2 3 3 -> 0,0,600 0,0,600 0,0,600\nltr 3 3 2 -> 0,0,600 0,0,600 0,0,600";

/// The lookups of a beginning and digits.
fn lookups_of(rt: &impl Host, head: &str, digits: &str) -> String {
    let mut text = String::new(rt.alloc());
    text.push_str(head).expect(rt, "memory");
    text.push_str(digits).expect(rt, "memory");
    text
}

/// Compares what the first lookup makes of the line of each row with the row's positions.
fn check_rows(rt: &impl Host, lookups: &str, rows: &str) {
    assert!(rt; !rows.is_empty());
    for row in rows.lines() {
        let (line, wanted) = row.split_once(" -> ").expect(rt, row);
        let found = positioned(rt, lookups, line.trim());
        if found.as_str().trim() != wanted {
            panic!(rt; "{line} -> {found}");
        }
    }
}

#[test]
fn lookups_of_each_type(rt: HostRuntime) {
    for (head, digits, rows) in &CASES {
        check_rows(&rt, &lookups_of(&rt, head, digits), rows);
    }
}

/// 10,000 marks on one base, each 600 after the one before: by their way back to the base the last
/// one is at 200 - 600 * 10000.
#[test]
fn many_marks_on_one_base(rt: HostRuntime) {
    let mut line = String::new(rt.alloc());
    line.push_str("ltr 2").expect(&rt, "memory");
    for _mark in 0..10_000 {
        line.push_str(" 8").expect(&rt, "memory");
    }
    let found = positioned(&rt, &lookups_of(&rt, "4 0 ", ON_BASE), line.as_str());
    assert!(&rt; found.as_str().trim().ends_with(" -5999800,600,600"));
}
