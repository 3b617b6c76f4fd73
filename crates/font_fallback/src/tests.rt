//! Choices among fonts that are the letters they have.
use crate::{Chosen, FallbackError, Span, Tried, choose_fonts};
use std::alloc::{AllocError, Global};
use std::process::Abort;
use std::test::Fail;

/// Whether a font has each letter of a text.
fn letters(alloc: Global, font: &str, text: &[u8]) -> Result<Tried<usize>, AllocError> {
    let mut has = Vec::new(alloc);
    for letter in text {
        has.push(font.as_bytes().contains(letter))?;
    }
    Ok(Tried {
        has,
        made: font.len(),
    })
}

/// The fonts that are chosen for a text; a font that isn't in the list can't be tried.
fn chosen(
    alloc: Global,
    fonts: &[&str],
    text: &[u8],
) -> Result<Chosen<usize>, FallbackError<AllocError>> {
    choose_fonts(alloc, fonts.len(), text.len(), |font| {
        letters(alloc, fonts.get(font).copied().unwrap_or(""), text)
    })
}

/// That a text has these spans, each a font, a start and an end, after so many fonts were tried.
fn gives(
    rt: &(impl Abort + Alloc<A = Global>),
    fonts: &[&str],
    text: &[u8],
    tried: usize,
    spans: &[(usize, usize, usize)],
) -> Result<(), Fail> {
    let found = chosen(rt.alloc(), fonts, text)?;
    assert_eq!(rt; found.tried.len(), tried);
    let mut wanted: Vec<Span> = Vec::new(rt.alloc());
    for (font, start, end) in spans {
        wanted.push(Span {
            font: *font,
            start: *start,
            end: *end,
        })?;
    }
    assert_eq!(rt; found.spans.as_slice(), wanted.as_slice());
    Ok(())
}

#[test]
fn choices(rt: HostRuntime) -> Result<(), Fail> {
    // the first font has all: one span, and no other font is tried
    gives(&rt, &["abc", "xyz"], b"cab", 1, &[(0, 0, 3)])?;
    // neighbours of one font are one span
    gives(
        &rt,
        &["abc", "xyz"],
        b"abxya",
        2,
        &[(0, 0, 2), (1, 2, 4), (0, 4, 5)],
    )?;
    // what none has is the first font's, and joins its neighbours
    gives(
        &rt,
        &["abc", "xyz", "q"],
        b"a?x",
        3,
        &[(0, 0, 2), (1, 2, 3)],
    )?;
    // a letter of two fonts is the earlier one's
    gives(
        &rt,
        &["a", "ab", "abc"],
        b"cba",
        3,
        &[(2, 0, 1), (1, 1, 2), (0, 2, 3)],
    )?;
    // an empty text has no span, and needs no font
    gives(&rt, &["abc"], b"", 0, &[])
}

#[test]
fn an_empty_list_is_an_error(rt: HostRuntime) {
    assert!(rt; matches!(chosen(rt.alloc(), &[], b"a"), Err(FallbackError::NoFonts)));
    assert!(rt; matches!(chosen(rt.alloc(), &[], b""), Err(FallbackError::NoFonts)));
}

#[test]
fn a_refusal_of_a_font_is_handed_on(rt: HostRuntime) {
    let refused = choose_fonts(rt.alloc(), 2, 3, |font| {
        if font == 1 {
            return Err("no font");
        }
        Ok(Tried {
            has: Vec::new(rt.alloc()),
            made: (),
        })
    });
    assert!(rt; matches!(refused, Err(FallbackError::Refused("no font"))));
}
