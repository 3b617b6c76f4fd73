//! The spans of a text: its clusters, as far as neighbours have one font.
ghost use Rattle.std.specs.Prelude.{◌≡◌, ◌⊎◌, ◌≢◌, ℕ, ◌<◌, ◌≤◌, length, slice_index, IfOk};
ghost use Rattle.font_fallback.specs.Choice.{AreSpans};

use std::alloc::{AllocError, Global};

/// A part of a text in one font: its clusters from `start` up to `end`, counted from the first of
/// the text.
#[derive(Clone, Copy, PartialEq, Eq, Debug)]
pub struct Span {
    /// The number of the font in its list.
    pub font: usize,
    pub start: usize,
    pub end: usize,
}

/// The place after the clusters of one font that begin at a place.
fn same_until(fonts: &[usize], start: usize) -> usize
    requires { start < length fonts.now }
    ensures after { start < result }
    ensures within { result ≤ length fonts.now }
    ensures same { (k : ℕ) → start ≤ k → k < result
        → slice_index fonts.now k ≡ slice_index fonts.now start }
    ensures other { (result ≡ length fonts.now)
        ⊎ (slice_index fonts.now result ≢ slice_index fonts.now start) }
{
    for place in start + 1..fonts.len() {
        if fonts[place] != fonts[start] {
            return place;
        }
    }
    fonts.len()
}

/// The spans of a text, given the font of each cluster. Refuses if memory runs out.
pub(crate) fn spans(alloc: Global, fonts: &[usize]) -> Result<Vec<Span>, AllocError>
    ensures { IfOk result
        (λ spans. AreSpans (λ k. slice_index fonts.now k) 0 (length fonts.now) spans.items) }
{
    let mut spans = Vec::new(alloc);
    let mut start = 0;
    while start < fonts.len() {
        let end = same_until(fonts, start);
        spans.push(Span {
            font: fonts[start],
            start,
            end,
        })?;
        start = end;
    }
    Ok(spans)
}
