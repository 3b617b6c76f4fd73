//! The whole: a text in lines.
ghost use Rattle.std.specs.Prelude.{◌≡◌, ◌<◌, ◌≤◌, ◌^◌, length, map, slice_index_or};
ghost use Rattle.std.specs.Prelude.{All, IfOk, IsErr};
ghost use Rattle.std.specs.Str.{chars};
ghost use Rattle.text_lines.specs.Levels.{IsLevelled, byte_levels};
ghost use Rattle.text_lines.specs.Pieces.{bytes_in};
ghost use Rattle.text_lines.specs.Lines.{AreCutBy, AreLines, cut_text, line_text};
ghost use Rattle.text_lines.specs.Reach.{Reaches, no_font, reach_in, reaches_in, size_of};

use crate::cells::{cells, lines_of};
use crate::fitting::runs;
use crate::lines::TextLine;
use crate::options::{ParagraphError, ParagraphOptions};
use crate::parts::{PartShaper, parts};
use crate::pieces::{Laid, Span};
use crate::reading::levels_of;
use crate::scaling::Scale;
use line_breaks::line_breaks;
use shape_lines::{Line, LineAt};
use std::alloc::{AllocError, Global};

/// The size that is asked for, or that of the first font.
fn size_or_first<S: PartShaper>(shaper: &S, size: Option<u32>) -> u32
    ensures { result ≡ size_of size (S.fonts shaper.now) }
{
    match size {
        Some(size) => size,
        None => u32::from(shaper.units_per_em(0)),
    }
}

/// The scales of fonts for a size.
fn scales<S: PartShaper>(alloc: Global, shaper: &S, size: u32) -> Result<Vec<Scale>, AllocError> {
    let mut scales = Vec::new(alloc);
    for font in 0..shaper.font_count() {
        scales.push(Scale::new(size, shaper.units_per_em(font)))?;
    }
    Ok(scales)
}

/// How far a font reaches in a size.
fn reach_of<S: PartShaper>(shaper: &S, size: u32, font: usize) -> Result<(i32, i32), ParagraphError>
    ensures { IfOk result
        (λ reach. reach ≡ reach_in size (slice_index_or (S.fonts shaper.now) font no_font)) }
{
    let scale = Scale::new(size, shaper.units_per_em(font));
    let (above, below) = shaper.reach(font);
    Ok((scale.times(above)?, scale.times(below)?))
}

/// How far the fonts reach in a size.
fn reaches<S: PartShaper>(
    alloc: Global,
    shaper: &S,
    size: u32,
) -> Result<Vec<(i32, i32)>, ParagraphError>
    ensures { IfOk result (λ reaches. reaches.items ≡ reaches_in size (S.fonts shaper.now)) }
{
    let mut reaches = Vec::new(alloc);
    for font in 0..shaper.font_count() {
        reaches.push(reach_of(shaper, size, font)?)?;
    }
    Ok(reaches)
}

/// The lines of a text, each from the end of the one before it, and the last one up to the end of
/// the text. Refuses with `Uncut` if they aren't that.
fn lines<S: PartShaper>(
    alloc: Global,
    shaper: &mut S,
    laid: &Laid<'_>,
    cut: &[LineAt],
    text_end: usize,
) -> Result<Vec<TextLine>, ParagraphError>
    requires { length laid.now.levels.now.bytes.items ≡ length laid.now.levels.now.classes.items }
    ensures follow { IfOk result (λ lines. AreLines 0 text_end lines.items) }
    ensures texts { IfOk result (λ lines. map line_text lines.items ≡ map cut_text cut.now) }
    ensures reach { IfOk result (λ lines. All (Reaches laid.now.reaches.now) lines.items) }
    ensures levels { IfOk result
        (λ lines. All (IsLevelled (bytes_in laid.now.levels.now)) lines.items) }
{
    let mut lines = Vec::new(alloc);
    let mut start = 0;
    for place in 0..cut.len() {
        let line = span_of(cut[place].line);
        if line.start != start || line.end < start {
            return Err(ParagraphError::Uncut);
        }
        lines.push(laid.line(alloc, shaper, line)?)?;
        start = line.end;
    }
    if start != text_end {
        return Err(ParagraphError::Uncut);
    }
    Ok(lines)
}

/// A line of glyphs.
fn span_of(line: Line) -> Span
    ensures start { result.start ≡ line.text_start }
    ensures end { result.end ≡ line.text_end }
{
    Span {
        first: line.glyph_start,
        last: line.glyph_end,
        start: line.text_start as usize,
        end: line.text_end as usize,
    }
}

/// A text of fewer than 2^32 bytes in lines.
fn laid_out<S: PartShaper>(
    alloc: Global,
    shaper: &mut S,
    text: &str,
    options: &ParagraphOptions<'_>,
) -> Result<Vec<TextLine>, ParagraphError>
    requires { length text.now < 2 ^ 32 }
    ensures follow { IfOk result (λ lines. AreLines 0 (length text.now) lines.items) }
    ensures cut { IfOk result (λ lines. AreCutBy text.now options.now.width lines.items) }
    ensures reach { let fonts = S.fonts shaper.old in IfOk result
        (λ lines. All (Reaches (reaches_in (size_of options.now.size fonts) fonts)) lines.items) }
    ensures levels { let bytes = byte_levels options.now.direction (chars text.now) in IfOk result
        (λ lines. All (IsLevelled bytes) lines.items) }
{
    let size = size_or_first(shaper, options.size);
    let scales = scales(alloc, shaper, size)?;
    let reaches = reaches(alloc, shaper, size)?;
    let levels = levels_of(alloc, text, options.direction)?;
    let parts = parts(alloc, text, &levels)?;
    let runs = runs(alloc, shaper, text, &parts)?;
    let breaks = line_breaks(alloc, text)?;
    let cells = cells(alloc, &runs, &scales, &breaks)?;
    let text_end = text.len() as u32;
    let cut = lines_of(alloc, &cells, text_end, options.width, &breaks)?;
    let laid = Laid {
        levels: &levels,
        runs: &runs,
        cells: &cells,
        scales: &scales,
        reaches: &reaches,
    };
    lines(alloc, shaper, &laid, &cut, text.len())
}

/// The lines of a text, in its order, by what shapes its parts: each cluster in the first font
/// that has it, each line as long as its width lets it, its runs from left to right.
pub fn text_lines<S: PartShaper>(
    alloc: Global,
    shaper: &mut S,
    text: &str,
    options: &ParagraphOptions<'_>,
) -> Result<Vec<TextLine>, ParagraphError>
    ensures follow { IfOk result (λ lines. AreLines 0 (length text.now) lines.items) }
    ensures cut { IfOk result (λ lines. AreCutBy text.now options.now.width lines.items) }
    ensures reach { let fonts = S.fonts shaper.old in IfOk result
        (λ lines. All (Reaches (reaches_in (size_of options.now.size fonts) fonts)) lines.items) }
    ensures levels { let bytes = byte_levels options.now.direction (chars text.now) in IfOk result
        (λ lines. All (IsLevelled bytes) lines.items) }
    ensures length { 2 ^ 32 ≤ length text.now → IsErr result }
{
    if text.len() > u32::MAX as usize {
        return Err(ParagraphError::Length);
    }
    if shaper.font_count() == 0 {
        return Err(ParagraphError::NoFonts);
    }
    laid_out(alloc, shaper, text, options)
}
