//! Texts cut into lines, each of whose pieces is shaped again, with what stands around it as
//! context. A piece begins the text if it is the first one, and ends it if it is the last.
use crate::comparing::assert_that;
use crate::users::seen::assert_looks_alike;
use crate::users::shaping::{
    IN_ORDER, Shaper, Shaping, by_graphemes, face_of, glyphs_of, lines_of, split_at, towards,
};
use shape_pipeline::lines::Line;
use shape_pipeline::{BufferClusterLevel, Direction, GlyphBuffer, MapFace};
use shape_unicode::UnicodeDatabase;
use shape_users::breaking::lines_of_text;
use shape_users::lines::may_cut;
use std::alloc::Global;
use std::process::Abort;

/// Asserts that a line's piece of a text, shaped again, looks as its glyphs do.
fn assert_line(
    rt: &impl Abort,
    alloc: Global,
    how: Shaping<'_>,
    whole: &GlyphBuffer,
    text: &str,
    line: Line,
) {
    let (front, after) = split_at(rt, text, line.text_end);
    let (before, piece) = split_at(rt, front, line.text_start);
    let how = Shaping {
        direction: whole.direction(),
        script: whole.script(),
        around: Some((before, after)),
        ..how
    };
    let again = glyphs_of(rt, alloc, how, piece);
    assert_that(
        rt,
        line.glyph_start.saturating_add(again.len()) == line.glyph_end,
    );
    assert_looks_alike(rt, whole, line.glyph_start, &again, line.text_start);
}

/// Asserts that a text has several lines of a width, each of whose pieces looks as it does in the
/// whole.
fn assert_lines(rt: &impl Abort, alloc: Global, how: Shaping<'_>, text: &str, width: u32) {
    let whole = glyphs_of(rt, alloc, how, text);
    let lines = lines_of(rt, alloc, &whole, text, width);
    for line in &lines {
        assert_line(rt, alloc, how, &whole, text, *line);
    }
    assert_that(rt, 1 < lines.len());
}

/// Asserts this in both directions of a line, at the two levels that keep clusters in order.
fn assert_settings(rt: &impl Abort, alloc: Global, how: Shaping<'_>, text: &str, width: u32) {
    for direction in [Direction::LeftToRight, Direction::RightToLeft] {
        for level in IN_ORDER {
            assert_lines(rt, alloc, towards(how, direction, level), text, width);
        }
    }
}

/// Asserts this of some widths.
fn assert_text(rt: &impl Abort, alloc: Global, lined: Lined) {
    let face = face_of(rt, alloc, lined.known);
    let how = Shaping {
        around: Some(("", "")),
        ..by_graphemes(&face, lined.shaper)
    };
    for width in lined.widths {
        assert_settings(rt, alloc, how, lined.text, *width);
    }
}

/// Compares how many glyphs and lines of a width a text has.
fn assert_counts(rt: &impl Abort, alloc: Global, known: &str, text: &str, counts: (usize, usize)) {
    assert!(rt; text.len() <= 1000);
    let face = face_of(rt, alloc, known);
    let found = lines_of_text::<UnicodeDatabase, MapFace>(alloc, &face, text, 1000);
    let found = found.expect(rt, "memory");
    assert_that(rt, (found.glyphs.len(), found.lines.len()) == counts);
}

/// A line may end before the clusters 0 and 3 of a letter with its accent and a letter after it,
/// and not before 1.
fn assert_cuts(rt: &impl Abort, alloc: Global) {
    let face = face_of(rt, alloc, "e\u{301}x");
    let how = by_graphemes(&face, Shaper::Default);
    let how = towards(how, Direction::Invalid, BufferClusterLevel::Characters);
    let glyphs = glyphs_of(rt, alloc, how, "e\u{301}x");
    assert_that(rt, may_cut(&glyphs, 0) && may_cut(&glyphs, 3));
    assert_that(rt, !may_cut(&glyphs, 1));
}

/// The lines are x, then e with its accent; the space and e; x.
#[test]
fn from_a_string_to_its_lines(rt: HostRuntime) {
    assert_counts(&rt, rt.alloc(), "e\u{301}x ", "xe\u{301} ex", (6, 3));
    assert_cuts(&rt, rt.alloc());
}

/// A text that is shaped over a face of some characters, and cut into lines of some widths.
#[derive(Clone, Copy)]
struct Lined {
    shaper: Shaper,
    known: &'static str,
    text: &'static str,
    widths: &'static [u32],
}

const MARKS: &str = "ex \u{301}\u{323}\u{e9}\u{25cc}";

/// Letters and points of Hebrew, and letters and marks of Arabic.
const POINTED: &str = "\u{5E9}\u{5D9}\u{5B4}\u{5BC} \u{628}\u{64E}\u{651}";

/// The second text gets a dotted circle, since it begins with a mark.
const LINED: [Lined; 5] = [
    Lined {
        shaper: Shaper::Default,
        known: MARKS,
        text: "xe\u{323}\u{301} \u{e9}x\u{301}e x",
        widths: &[0, 500, 1000, 1700],
    },
    Lined {
        shaper: Shaper::Default,
        known: MARKS,
        text: "\u{301}\u{323}xe\u{301}x",
        widths: &[0, 500, 1000, 1700],
    },
    Lined {
        shaper: Shaper::Ligatures,
        known: "afi\u{301} ",
        text: "afi fa\u{301}fi\u{301} iffa",
        widths: &[0, 500, 1000],
    },
    Lined {
        shaper: Shaper::Hebrew,
        known: POINTED,
        text: "\u{5E9}\u{5BC}\u{5B4} \u{5D9}\u{5B4}\u{5E9}",
        widths: &[0, 1000],
    },
    Lined {
        shaper: Shaper::Arabic,
        known: POINTED,
        text: "\u{628}\u{64E}\u{651} \u{628}\u{651}\u{628}",
        widths: &[0, 1000],
    },
];

#[test]
fn lines_look_as_in_the_whole(rt: HostRuntime) {
    for lined in &LINED {
        assert_text(&rt, rt.alloc(), *lined);
    }
}
