//! Lines of small texts, by hand.
use crate::letters::{LetterFont, Letters};
use std::alloc::Global;
use std::process::Abort;
use std::test::Fail;
use text_lines::{Direction, ParagraphError, ParagraphOptions, TextLine, TextRun, text_lines};

/// A font, and one whose em square has half as many units.
const FONTS: [LetterFont<'static>; 2] = [
    LetterFont {
        letters: "abcdef 123()\u{5d0}\u{5d1}",
        units: 100,
        above: 80,
        below: -20,
    },
    LetterFont {
        letters: "abcxyz\u{5d2}\u{301}",
        units: 50,
        above: 45,
        below: -5,
    },
];

/// The lines of a text.
fn lines_of(
    alloc: Global,
    text: &str,
    width: u32,
    direction: Option<Direction>,
) -> Result<Vec<TextLine>, ParagraphError> {
    let mut shaper = Letters {
        text,
        fonts: &FONTS,
    };
    let options = ParagraphOptions {
        width,
        direction,
        ..ParagraphOptions::new()
    };
    text_lines(alloc, &mut shaper, text, &options)
}

/// That a text has lines with these ends and widths.
fn breaks(
    rt: &(impl Abort + Alloc<A = Global>),
    text: &str,
    width: u32,
    wanted: &[(usize, i64)],
) -> Result<(), Fail> {
    let lines = lines_of(rt.alloc(), text, width, None)?;
    assert_eq!(rt; lines.len(), wanted.len());
    let mut start = 0;
    for (line, (end, width)) in lines.iter().zip(wanted) {
        assert_eq!(rt; line.start, start);
        assert_eq!(rt; line.end, *end);
        assert_eq!(rt; line.width, *width);
        start = line.end;
    }
    Ok(())
}

/// That a text that is one line has these runs from left to right: text, font, level and place.
fn runs(
    rt: &(impl Abort + Alloc<A = Global>),
    text: &str,
    direction: Option<Direction>,
    wanted: &[(usize, usize, usize, u8, i64)],
) -> Result<(), Fail> {
    let lines = lines_of(rt.alloc(), text, u32::MAX, direction)?;
    assert_eq!(rt; lines.len(), 1);
    let line = &lines[0];
    assert_eq!(rt; line.runs.len(), wanted.len());
    for (run, (start, end, font, level, x)) in line.runs.iter().zip(wanted) {
        assert_eq!(rt; run.start, *start);
        assert_eq!(rt; run.end, *end);
        assert_eq!(rt; run.font, *font);
        assert_eq!(rt; run.level, *level);
        assert_eq!(rt; run.x, *x);
    }
    Ok(())
}

#[test]
fn lines_end_where_they_may(rt: HostRuntime) -> Result<(), Fail> {
    // the last space hangs: five letters and spaces of ten units fit 50
    breaks(&rt, "ab cd ef", 50, &[(6, 50), (8, 20)])?;
    breaks(&rt, "ab cd ef", 49, &[(3, 20), (6, 20), (8, 20)])?;
    breaks(&rt, "ab cd ef", u32::MAX, &[(8, 80)])?;
    // a word that is wider than the line ends inside
    breaks(&rt, "abcde f", 25, &[(2, 20), (4, 20), (6, 10), (7, 10)])?;
    // and no line is narrower than a cluster
    breaks(&rt, "ab c", 0, &[(1, 10), (3, 10), (4, 10)])?;
    // mandatory breaks, which are no wider than nothing
    breaks(&rt, "ab\nc\r\n", 50, &[(3, 20), (6, 10)])?;
    breaks(&rt, "a\nb\u{2029}", 0, &[(2, 10), (6, 10)])?;
    breaks(&rt, "\n\n", 0, &[(1, 0), (2, 0)])?;
    breaks(&rt, "", 50, &[])
}

#[test]
fn spaces_hang_at_the_end_of_their_line(rt: HostRuntime) -> Result<(), Fail> {
    let lines = lines_of(rt.alloc(), "\u{5d0}\u{5d1} \u{5d0}", 20, None)?;
    assert_eq!(&rt; lines.len(), 2);
    // from right to left the space is at the left of the line
    assert_eq!(&rt; lines[0].level, 1);
    assert_eq!(&rt; lines[0].width, 20);
    assert_eq!(&rt; lines[0].left, -10);
    assert_eq!(&rt; lines[1].left, 0);
    let lines = lines_of(rt.alloc(), "ab c", 20, None)?;
    assert_eq!(&rt; lines.len(), 2);
    assert_eq!(&rt; lines[0].left, 0);
    Ok(())
}

#[test]
fn runs_stand_from_left_to_right(rt: HostRuntime) -> Result<(), Fail> {
    // a number after Hebrew stands at its left
    runs(
        &rt,
        "ab \u{5d0}\u{5d1} 12",
        None,
        &[(0, 3, 0, 0, 0), (8, 10, 0, 2, 30), (3, 8, 0, 1, 50)],
    )?;
    // a Latin word in a line from right to left
    runs(
        &rt,
        "\u{5d0} ab",
        None,
        &[(3, 5, 0, 2, 0), (0, 3, 0, 1, 20)],
    )?;
    runs(&rt, "ab", Some(Direction::RightToLeft), &[(0, 2, 0, 2, 0)])?;
    // controls alone have no direction of their own
    runs(&rt, "\u{202a}\u{202c}", None, &[(0, 6, 0, 0, 0)])
}

#[test]
fn controls_that_match_nothing_change_nothing(rt: HostRuntime) -> Result<(), Fail> {
    runs(&rt, "a\u{202c}b\u{2069}\u{202b}", None, &[(0, 11, 0, 0, 0)])
}

#[test]
fn embeddings_are_at_most_125_deep(rt: HostRuntime) -> Result<(), Fail> {
    let mut text = String::new(rt.alloc());
    for _ in 0..10_000 {
        text.push('\u{202b}')?;
    }
    text.push('a')?;
    for _ in 0..10_000 {
        text.push('\u{202c}')?;
    }
    let lines = lines_of(rt.alloc(), text.as_str(), u32::MAX, None)?;
    assert_eq!(&rt; lines.len(), 1);
    // a letter from left to right is one level above the 125th
    let deep = lines[0].runs.iter().find(|run| run.start == 30_000);
    assert!(&rt;
        matches!(
            deep,
            Some(TextRun {
                end: 30_001,
                level: 126,
                ..
            })
        )
    );
    Ok(())
}

#[test]
fn clusters_have_the_first_font_that_has_them(rt: HostRuntime) -> Result<(), Fail> {
    // ten units of the second font are twenty of the first
    runs(
        &rt,
        "axb",
        None,
        &[(0, 1, 0, 0, 0), (1, 2, 1, 0, 10), (2, 3, 0, 0, 30)],
    )?;
    // a mark takes its letter with it, and what no font has is the first one's
    runs(
        &rt,
        "ba\u{301}\u{3b1}",
        None,
        &[(0, 1, 0, 0, 0), (1, 4, 1, 0, 10), (4, 6, 0, 0, 50)],
    )?;
    let lines = lines_of(rt.alloc(), "x", 50, None)?;
    assert_eq!(&rt; lines.len(), 1);
    assert_eq!(&rt; lines[0].ascent, 90);
    assert_eq!(&rt; lines[0].descent, -10);
    let lines = lines_of(rt.alloc(), "ax", 50, None)?;
    assert_eq!(&rt; lines.len(), 1);
    assert_eq!(&rt; lines[0].descent, -20);
    Ok(())
}

#[test]
fn an_empty_list_of_fonts_is_an_error(rt: HostRuntime) {
    let mut none = Letters {
        text: "a",
        fonts: &[],
    };
    let lines = text_lines(rt.alloc(), &mut none, "a", &ParagraphOptions::new());
    assert!(&rt; matches!(lines, Err(ParagraphError::NoFonts)));
}

#[test]
fn a_size_past_32_bits_is_refused(rt: HostRuntime) {
    let mut shaper = Letters {
        text: "a",
        fonts: &FONTS,
    };
    let options = ParagraphOptions {
        size: Some(u32::MAX),
        ..ParagraphOptions::new()
    };
    let lines = text_lines(rt.alloc(), &mut shaper, "a", &options);
    assert!(&rt; matches!(lines, Err(ParagraphError::Size)));
}
