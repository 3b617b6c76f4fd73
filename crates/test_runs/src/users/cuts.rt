//! Texts cut where no glyph is unsafe to break: the parts, each shaped by itself, look as they did
//! together.
//!
//! What is tried: every text of two and three characters of a few alphabets, towards all four
//! directions, at the two levels that keep clusters in order, over a face of a few glyphs, with the
//! default shaper, the engine with ligatures, and both script shapers. A part is shaped in the
//! direction and script of the whole.
use crate::comparing::assert_that;
use crate::users::seen::assert_looks_alike;
use crate::users::shaping::{
    IN_ORDER, Shaper, Shaping, by_graphemes, face_of, glyphs_of, split_at, towards,
};
use shape_pipeline::{Direction, GlyphBuffer, Script};
use std::alloc::Global;
use std::process::Abort;

/// The number of glyphs of a part of a text, the first cluster of which is at `start`. They must
/// look as the first or the last glyphs of the whole.
fn part_len(
    rt: &impl Abort,
    alloc: Global,
    how: Shaping<'_>,
    whole: &GlyphBuffer,
    (part, start): (&str, u32),
    is_first: bool,
) -> usize {
    let part = glyphs_of(rt, alloc, how, part);
    let from = match is_first {
        true => 0,
        false => whole.len().saturating_sub(part.len()),
    };
    assert_looks_alike(rt, whole, from, &part, start);
    part.len()
}

/// Asserts that the parts of a text that is cut at a place look together as the whole does.
fn assert_parts(
    rt: &impl Abort,
    alloc: Global,
    how: Shaping<'_>,
    whole: &GlyphBuffer,
    text: &str,
    place: u32,
) {
    let (front, back) = split_at(rt, text, place);
    let is_forward = !how.direction.is_backward();
    let front = part_len(rt, alloc, how, whole, (front, 0), is_forward);
    let back = part_len(rt, alloc, how, whole, (back, place), !is_forward);
    assert_that(rt, front.saturating_add(back) == whole.len());
}

/// How often a text may be cut. The parts must look as the whole does, wherever it is.
fn cuts_of(rt: &impl Abort, alloc: Global, how: Shaping<'_>, text: &str) -> u32 {
    let whole = glyphs_of(rt, alloc, how, text);
    let mut cuts: u32 = 0;
    for cluster in &whole.clusters(alloc).expect(rt, "memory") {
        if cluster.cluster != 0 && !cluster.unsafe_to_break {
            assert_parts(rt, alloc, how, &whole, text, cluster.cluster);
            cuts = cuts.saturating_add(1);
        }
    }
    cuts
}

const DIRECTIONS: [Direction; 4] = [
    Direction::LeftToRight,
    Direction::RightToLeft,
    Direction::TopToBottom,
    Direction::BottomToTop,
];

/// How often a text may be cut, in all directions and at the two levels.
fn cuts_of_text(rt: &impl Abort, alloc: Global, how: Shaping<'_>, text: &str) -> u32 {
    let mut cuts: u32 = 0;
    for direction in DIRECTIONS {
        for level in IN_ORDER {
            let how = towards(how, direction, level);
            cuts = cuts.saturating_add(cuts_of(rt, alloc, how, text));
        }
    }
    cuts
}

/// How often the texts may be cut that have one character of an alphabet after a beginning.
fn cuts_after(rt: &impl Abort, alloc: Global, how: Shaping<'_>, text: &str, alphabet: &str) -> u32 {
    let mut cuts: u32 = 0;
    for c in alphabet.chars() {
        let longer = format!(in alloc; "{text}{c}").expect(rt, "memory");
        cuts = cuts.saturating_add(cuts_of_text(rt, alloc, how, longer.as_str()));
    }
    cuts
}

/// How often the texts of two and three characters may be cut that begin with one.
fn cuts_from(rt: &impl Abort, alloc: Global, how: Shaping<'_>, first: char, alphabet: &str) -> u32 {
    let mut text = String::new(alloc);
    text.push(first).expect(rt, "memory");
    let mut cuts = cuts_after(rt, alloc, how, text.as_str(), alphabet);
    for second in alphabet.chars() {
        text.push(second).expect(rt, "memory");
        cuts = cuts.saturating_add(cuts_after(rt, alloc, how, text.as_str(), alphabet));
        text.pop();
    }
    cuts
}

/// Asserts that texts of two and three characters of an alphabet may be cut often, over a face that
/// has a glyph for each.
fn assert_cut(rt: &impl Abort, alloc: Global, shaper: Shaper, script: Script, alphabet: &str) {
    let face = face_of(rt, alloc, alphabet);
    let how = Shaping {
        script: Some(script),
        ..by_graphemes(&face, shaper)
    };
    let mut cuts: u32 = 0;
    for first in alphabet.chars() {
        cuts = cuts.saturating_add(cuts_from(rt, alloc, how, first, alphabet));
    }
    assert_that(rt, 200 < cuts);
}

/// The shapers, with the script and the alphabet of each.
const ALPHABETS: [(Shaper, Script, &str); 4] = [
    (Shaper::Default, Script::LATIN, "ex \u{301}\u{323}\u{e9}"),
    (Shaper::Ligatures, Script::LATIN, "afi\u{301}x"),
    (
        Shaper::Hebrew,
        Script::HEBREW,
        "\u{5E9}\u{5D9}\u{5B4}\u{5BC}\u{5BD}\u{5C1}\u{FB1D}",
    ),
    (
        Shaper::Arabic,
        Script::ARABIC,
        "\u{628}\u{64E}\u{651}\u{654}\u{655}\u{627}",
    ),
];

#[test]
fn parts_look_as_in_the_whole(rt: HostRuntime) {
    for (shaper, script, alphabet) in &ALPHABETS {
        assert_cut(&rt, rt.alloc(), *shaper, *script, alphabet);
    }
}
