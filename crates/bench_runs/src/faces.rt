//! Faces over the bytes of a font file: opening them, and looking glyphs up.
//!
//! An export returns a sum of what it was given, and 0 if the file has no face or a growth was
//! refused.
ghost use Rattle.std.specs.Prelude.{◌≡◌};

use opened_face::OpenedFace;
use shape_buffer::{ShapeError, hb_font_t};
use shape_font::FontFace;
use std::alloc::Global;

/// Makes a face of the bytes.
#[inline(never)]
fn face_of(font: &[u8]) -> Option<FontFace<'_>> {
    FontFace::from_slice(font, 0)
}

/// Opens a face.
#[inline(never)]
fn open<'a>(alloc: Global, face: FontFace<'a>) -> Result<OpenedFace<'a>, ShapeError> {
    OpenedFace::new(alloc, face)
}

/// Makes a face of the bytes and opens it if that is asked for. Returns how many glyphs the face
/// has.
fn opened_count(alloc: Global, font: &[u8], opened: bool) -> usize {
    let Some(face) = face_of(font) else {
        return 0;
    };
    if !opened {
        return usize::from(face.glyph_count());
    }
    match open(alloc, face) {
        Ok(opened) => usize::from(opened.face().glyph_count()),
        Err(_) => 0,
    }
}

/// A sum over the glyphs of characters and their advances, begun with the last one, so that no call
/// is like another.
#[inline(never)]
fn looked_up<F: hb_font_t>(face: &F, chars: &[u32], last: u32) -> u32 {
    let mut sum = last;
    for code in chars {
        if let Some(c) = char::from_u32(*code) {
            if let Some(glyph) = face.get_nominal_glyph(c) {
                let advance = face.glyph_h_advance(glyph).unsigned_abs();
                sum = sum
                    .wrapping_mul(31)
                    .wrapping_add(glyph.0)
                    .wrapping_add(advance);
            }
        }
    }
    sum
}

/// The sum over a text, so many times.
fn repeated<F: hb_font_t>(face: &F, chars: &[u32], times: u32) -> u32 {
    let mut sum = 0;
    for _ in 0..times {
        sum = looked_up(face, chars, sum);
    }
    sum
}

/// Makes a face of the bytes so many times, and opens it each time if `opened` isn't 0. Returns how
/// many glyphs the face has.
#[unsafe(no_mangle)]
pub extern "C" fn bench_open(alloc: Global, font: &[u8], opened: u32, times: u32) -> usize
    ensures { times ≡ 0 → result ≡ 0 }
{
    if times == 0 {
        return 0;
    }
    let mut count = 0;
    for _ in 0..times {
        count = opened_count(alloc, font, opened != 0);
    }
    count
}

/// Looks the glyphs of a text up so many times, and their advances: by the face, or by the opened
/// face if `opened` isn't 0.
#[unsafe(no_mangle)]
pub extern "C" fn bench_look_up(
    alloc: Global,
    font: &[u8],
    chars: &[u32],
    opened: u32,
    times: u32,
) -> usize
    ensures { times ≡ 0 → result ≡ 0 }
{
    if times == 0 {
        return 0;
    }
    let Some(face) = face_of(font) else {
        return 0;
    };
    if opened == 0 {
        return repeated(&face, chars, times) as usize;
    }
    match open(alloc, face) {
        Ok(opened) => repeated(&opened, chars, times) as usize,
        Err(_) => 0,
    }
}
