//! Paragraphs over a font file: texts of controls, lines of no width, and what is refused. The
//! letter A is 600 wide and B 640, 80 closer to an A, and controls have no width.
use crate::tall::TALL;
use opentype_layout::{OpenTypeFace, OpenedOpenTypeFace};
use paragraph::{ParagraphError, ParagraphOptions, TextLine, TextRun, paragraph};
use std::alloc::Global;
use std::process::Abort;
use std::test::Fail;

/// The font of a file, opened; none if the file has none.
fn opened<'a>(
    alloc: Global,
    bytes: &'a [u8],
) -> Result<Vec<OpenedOpenTypeFace<'a>>, ParagraphError> {
    let mut fonts = Vec::new(alloc);
    match OpenTypeFace::from_slice(bytes, 0) {
        Some(face) => fonts.push(OpenedOpenTypeFace::new(alloc, face)?)?,
        None => {}
    }
    Ok(fonts)
}

/// The lines of a text in the font.
fn lines_of(
    rt: &impl Abort,
    alloc: Global,
    text: &str,
    options: &ParagraphOptions<'_>,
) -> Result<Vec<TextLine>, ParagraphError> {
    let bytes = hex::decode(alloc, TALL).expect(rt, "memory");
    let fonts = opened(alloc, &bytes)?;
    paragraph(alloc, &fonts, text, options)
}

/// That a text has lines with these ends and widths, none of them from right to left.
fn breaks(
    rt: &(impl Abort + Alloc<A = Global>),
    text: &str,
    width: u32,
    wanted: &[(usize, i64)],
) -> Result<(), Fail> {
    let options = ParagraphOptions {
        width,
        ..ParagraphOptions::new()
    };
    let lines = lines_of(rt, rt.alloc(), text, &options)?;
    assert_eq!(rt; lines.len(), wanted.len());
    for (line, (end, width)) in lines.iter().zip(wanted) {
        assert_eq!(rt; line.end, *end);
        assert_eq!(rt; line.width, *width);
        assert_eq!(rt; line.level, 0);
    }
    Ok(())
}

#[test]
fn controls_that_match_nothing_change_nothing(rt: HostRuntime) -> Result<(), Fail> {
    breaks(&rt, "A\u{202c}B\u{2069}\u{202b}", u32::MAX, &[(11, 1160)])
}

#[test]
fn controls_alone_have_no_width(rt: HostRuntime) -> Result<(), Fail> {
    breaks(&rt, "\u{202a}\u{202c}\u{2066}", u32::MAX, &[(9, 0)])
}

#[test]
fn embeddings_are_at_most_125_deep(rt: HostRuntime) -> Result<(), Fail> {
    let mut text = String::new(rt.alloc());
    for _ in 0..10_000 {
        text.push('\u{202b}')?;
    }
    text.push('A')?;
    for _ in 0..10_000 {
        text.push('\u{202c}')?;
    }
    let lines = lines_of(&rt, rt.alloc(), text.as_str(), &ParagraphOptions::new())?;
    assert_eq!(&rt; lines.len(), 1);
    assert_eq!(&rt; lines[0].width, 600);
    let deep = lines[0].runs.iter().find(|run| run.start == 30_000);
    assert!(&rt;
        matches!(
            deep,
            Some(TextRun {
                end: 30_001,
                level: 126,
                ..
            })
        )
    );
    Ok(())
}

#[test]
fn in_a_width_of_0_each_cluster_is_a_line(rt: HostRuntime) -> Result<(), Fail> {
    breaks(&rt, "A B", 0, &[(2, 600), (3, 640)])
}

#[test]
fn an_empty_list_of_fonts_is_an_error(rt: HostRuntime) -> Result<(), Fail> {
    let refused = paragraph(rt.alloc(), &[], "A", &ParagraphOptions::new());
    assert!(&rt; matches!(refused, Err(ParagraphError::NoFonts)));
    let said = format!(in rt.alloc(); "{}", ParagraphError::NoFonts)?;
    assert!(&rt; said.as_str() == "the list of fonts is empty");
    Ok(())
}

#[test]
fn a_size_past_32_bits_is_refused(rt: HostRuntime) {
    let options = ParagraphOptions {
        size: Some(u32::MAX),
        ..ParagraphOptions::new()
    };
    let lines = lines_of(&rt, rt.alloc(), "A", &options);
    assert!(&rt; matches!(lines, Err(ParagraphError::Size)));
}
