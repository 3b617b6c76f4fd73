//! Cutting glyphs into lines, whose cost should grow in step with the glyphs whatever the width and
//! the advances.
ghost use Rattle.std.specs.Prelude.{◌≡◌, ◌<◌, ◌^◌, length};
ghost use Rattle.std.specs.List.Sorted.{IsNonDecreasing};

use line_breaks::line_breaks;
use shape_buffer::buffer::{GlyphBuffer, GlyphPosition, ShapeError, UnicodeBuffer};
use shape_lines::{Breaks, can_cut, cut_lines, cut_lines_at};
use std::alloc::Global;

/// Glyphs each in a cluster of its own, with two advances that alternate.
fn laid(alloc: Global, count: u32, even: i32, odd: i32) -> Result<GlyphBuffer, ShapeError> {
    let mut text = UnicodeBuffer::new(alloc);
    for i in 0..count {
        text.add('a', i)?;
    }
    let mut buffer = text.into_inner();
    for place in 0..buffer.len() {
        let mut position = GlyphPosition::zero();
        position.x_advance = if place % 2 == 0 { even } else { odd };
        if place < buffer.len() {
            buffer.set_position(place, position);
        }
    }
    Ok(buffer.into_glyphs())
}

/// Cuts so many glyphs into lines, and gives how many lines there are.
#[inline(never)]
fn cut(alloc: Global, glyphs: &GlyphBuffer, count: u32, width: u32) -> Result<usize, ShapeError> {
    if !can_cut(glyphs, count) {
        return Ok(0);
    }
    Ok(cut_lines(alloc, glyphs, count, width)?.len())
}

/// The lines of so many glyphs with two advances.
fn lines_of(
    alloc: Global,
    advances: (i32, i32),
    width: u32,
    count: u32,
) -> Result<usize, ShapeError> {
    let glyphs = laid(alloc, count, advances.0, advances.1)?;
    cut(alloc, &glyphs, count, width)
}

/// Cuts so many glyphs, whose advances alternate, into lines of a width, and gives how many there
/// are.
#[unsafe(no_mangle)]
pub extern "C" fn bench_lines(alloc: Global, even: i32, odd: i32, width: u32, count: u32) -> usize
    ensures { count ≡ 0 → result ≡ 0 }
{
    if count == 0 {
        return 0;
    }
    lines_of(alloc, (even, odd), width, count).unwrap_or(0)
}

/// Cuts so many glyphs into lines at allowed places, and gives how many lines there are.
#[inline(never)]
fn cut_at(
    alloc: Global,
    glyphs: &GlyphBuffer,
    count: u32,
    width: u32,
    breaks: &Breaks<'_>,
) -> Result<usize, ShapeError>
    requires allowed { IsNonDecreasing breaks.now.allowed.now }
    requires mandatory { IsNonDecreasing breaks.now.mandatory.now }
    requires spaces { IsNonDecreasing breaks.now.spaces.now }
{
    if !can_cut(glyphs, count) {
        return Ok(0);
    }
    Ok(cut_lines_at(alloc, glyphs, count, width, breaks)?.len())
}

/// Cuts glyphs so many times anywhere.
fn cut_times(
    alloc: Global,
    glyphs: &GlyphBuffer,
    count: u32,
    width: u32,
    times: u32,
) -> Result<usize, ShapeError> {
    let mut lines = 0;
    for _ in 0..times {
        lines = cut(alloc, glyphs, count, width)?;
    }
    Ok(lines)
}

/// Cuts the glyphs of a text so many times where its lines may end.
fn cut_text_times(
    alloc: Global,
    glyphs: &GlyphBuffer,
    text: &str,
    width: u32,
    times: u32,
) -> Result<usize, ShapeError>
    requires { length text.now < 2 ^ 32 }
{
    let breaks = line_breaks(alloc, text)?;
    let places = Breaks {
        allowed: breaks.allowed.as_slice(),
        mandatory: breaks.mandatory.as_slice(),
        spaces: breaks.spaces.as_slice(),
        anywhere: true,
    };
    let mut lines = 0;
    for _ in 0..times {
        lines = cut_at(alloc, glyphs, text.len() as u32, width, &places)?;
    }
    Ok(lines)
}

/// Cuts a text of one byte a character so many times, each glyph 600 wide.
fn text_lines(
    alloc: Global,
    text: &str,
    width: u32,
    allowed: bool,
    times: u32,
) -> Result<usize, ShapeError> {
    if text.len() > u32::MAX as usize {
        return Err(ShapeError::Length);
    }
    let count = text.len() as u32;
    let glyphs = laid(alloc, count, 600, 600)?;
    if allowed {
        cut_text_times(alloc, &glyphs, text, width, times)
    } else {
        cut_times(alloc, &glyphs, count, width, times)
    }
}

/// Cuts a text of ASCII so many times into lines of a width, each glyph 600 wide, and gives how
/// many lines there are: where its lines may end, or anywhere, if `allowed` is 0.
#[unsafe(no_mangle)]
pub extern "C" fn bench_text_lines(
    alloc: Global,
    utf8: &[u8],
    width: u32,
    allowed: u32,
    times: u32,
) -> usize
    ensures { times ≡ 0 → result ≡ 0 }
{
    let Ok(text) = str::from_utf8(utf8) else {
        return 0;
    };
    if times == 0 {
        return 0;
    }
    text_lines(alloc, text, width, allowed != 0, times).unwrap_or(0)
}
