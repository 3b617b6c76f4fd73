//! Fonts of letters: each glyph is a letter, ten units wide.
ghost use Rattle.std.specs.Prelude.{map};
ghost use Rattle.test_lines.specs.Letters.{reach_of_letters};

use shape_buffer::buffer::{GlyphBuffer, GlyphPosition, ShapeError, UnicodeBuffer};
use shape_buffer::hb_glyph_info_t;
use std::alloc::{AllocError, Global};
use text_lines::{Part, PartShaper};

/// A font that has some letters, and how large and high it is.
#[derive(Clone, Copy)]
pub struct LetterFont<'a> {
    pub letters: &'a str,
    pub units: u16,
    pub above: i32,
    pub below: i32,
}

/// Fonts that each have some letters, for a text. A letter that a font hasn't is glyph 0.
#[derive(Clone, Copy)]
pub struct Letters<'a> {
    pub text: &'a str,
    pub fonts: &'a [LetterFont<'a>],
}

/// A glyph where it stands.
#[derive(Clone, Copy)]
struct Placed {
    info: hb_glyph_info_t,
    position: GlyphPosition,
}

/// The glyph of a letter of a cluster.
fn letter(c: char, has: bool, cluster: u32) -> Placed {
    let mut info = hb_glyph_info_t::new(c, cluster);
    info.glyph_id = if has { u32::from(c) } else { 0 };
    let mut position = GlyphPosition::zero();
    position.x_advance = 10;
    Placed { info, position }
}

/// The glyphs of a part of a text in a font that has these letters, in the order of the text.
fn placed_in(alloc: Global, text: &str, part: Part, has: &str) -> Result<Vec<Placed>, AllocError> {
    let mut placed = Vec::new(alloc);
    for (at, c) in text.get(part.start..part.end).unwrap_or("").char_indices() {
        let cluster = u32::try_from(part.start.saturating_add(at)).unwrap_or(u32::MAX);
        placed.push(letter(c, has.contains(c), cluster))?;
    }
    Ok(placed)
}

/// A buffer of glyphs.
fn buffer_of(alloc: Global, placed: &[Placed]) -> Result<GlyphBuffer, ShapeError> {
    let infos: Vec<hb_glyph_info_t> = placed.iter().map(|glyph| glyph.info).collect(alloc)?;
    let positions: Vec<GlyphPosition> = placed.iter().map(|glyph| glyph.position).collect(alloc)?;
    let mut buffer = UnicodeBuffer::new(alloc).into_inner();
    buffer.put_lists(infos, positions)?;
    Ok(buffer.into_glyphs())
}

impl PartShaper for Letters<'_> {
    ghost fonts = { λ shaper. map reach_of_letters shaper.fonts.now };

    fn font_count(&self) -> usize {
        self.fonts.len()
    }

    fn units_per_em(&self, font: usize) -> u16 {
        match self.fonts.get(font) {
            Some(font) => font.units,
            None => 0,
        }
    }

    fn reach(&self, font: usize) -> (i32, i32) {
        match self.fonts.get(font) {
            Some(font) => (font.above, font.below),
            None => (0, 0),
        }
    }

    fn shape(&mut self, alloc: Global, font: usize, part: Part) -> Result<GlyphBuffer, ShapeError> {
        let has = self.fonts.get(font).map_or("", |font| font.letters);
        let mut placed = placed_in(alloc, self.text, part, has)?;
        if part.level % 2 == 1 {
            placed.reverse();
        }
        buffer_of(alloc, &placed)
    }
}
