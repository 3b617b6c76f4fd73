//! Faces, as the words of cases write them.
//!
//! Characters have glyphs of their own numbers, as `a 0301`; the word `every` alone gives each one
//! its own. After `variant`, which stands before characters, as in `variant a`, there is also glyph
//! 7 for U+0061 with U+FE00 after it.
//!
//! A face with widths has glyphs as `a=1(600)`: a character, its glyph in base 16 and its advance,
//! then the bearings, width and height of its box, if it has one: `0301=2(200,50,800,200,-150)`.

use crate::cases::{Settings, character, cut, number, number_in_hex};
use shape_buffer::buffer::GlyphId;
use shape_buffer::interfaces::{MapFace, Metrics, hb_glyph_extents_t};
use std::process::Abort;
use test_fixtures::TestFace;

/// What stands before the characters of a face with a variant.
const VARIANT: &str = "variant ";

/// The words of a face that write characters.
fn without_name(words: &str) -> &str {
    if words == "every" {
        ""
    } else {
        words.strip_prefix(VARIANT).unwrap_or(words)
    }
}

/// The characters that the words of a face write.
pub fn characters_of(rt: &(impl Abort + AllocGlobal), words: &str) -> Vec<char> {
    let mut characters = Vec::new(rt.alloc());
    for word in without_name(words).split_whitespace() {
        characters.push(character(rt, word)).expect(rt, "error");
    }
    characters
}

/// A face of these characters, or of every one.
pub fn face_over<'a>(words: &str, characters: &'a [char]) -> TestFace<'a> {
    TestFace {
        every: words == "every",
        variant: words.starts_with(VARIANT),
        ..TestFace::of(characters)
    }
}

/// The box of a glyph, by its bearings, width and height.
fn box_of(rt: &impl Abort, numbers: &str) -> hb_glyph_extents_t {
    let (x_bearing, rest) = cut(rt, numbers, ",");
    let (y_bearing, rest) = cut(rt, rest, ",");
    let (width, height) = cut(rt, rest, ",");
    hb_glyph_extents_t {
        x_bearing: number(rt, x_bearing),
        y_bearing: number(rt, y_bearing),
        width: number(rt, width),
        height: number(rt, height),
    }
}

/// The advance of a glyph, and its box if one is written.
fn metrics_of(rt: &impl Abort, numbers: &str) -> Metrics {
    let numbers = numbers.strip_suffix(')').expect(rt, numbers);
    match numbers.split_once(",") {
        Some((advance, extents)) => Metrics {
            advance: number(rt, advance),
            extents: Some(box_of(rt, extents)),
        },
        None => Metrics {
            advance: number(rt, numbers),
            extents: None,
        },
    }
}

/// Gives a character a glyph.
fn add_glyph(rt: &impl Abort, face: &mut MapFace, c: char, glyph: u32, metrics: Metrics) {
    face.set_glyph(c, GlyphId(glyph), metrics)
        .expect(rt, "error");
}

/// Gives the character of a word the glyph that the word writes.
fn add_word(rt: &impl Abort, face: &mut MapFace, word: &str) {
    let (c, rest) = cut(rt, word, "=");
    let (glyph, metrics) = cut(rt, rest, "(");
    let (c, glyph) = (character(rt, c), number_in_hex(rt, glyph));
    add_glyph(rt, face, c, glyph, metrics_of(rt, metrics));
}

/// The face with the glyphs and the units that are set.
pub fn face_of(rt: &(impl Abort + AllocGlobal), settings: &Settings<'_>) -> MapFace {
    let mut face = MapFace::new(rt.alloc(), settings.units);
    for word in settings.face.split_whitespace() {
        add_word(rt, &mut face, word);
    }
    face
}
