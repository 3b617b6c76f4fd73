//! A font for each cluster of a part, and its glyphs: the runs of a text.
//!
//! The clusters are extended grapheme clusters (UAX 29), so none is parted among fonts. A font has
//! a cluster if none of the glyphs that it makes of it in its part is 0, `.notdef`.
use crate::options::ParagraphError;
use crate::parts::{Part, PartShaper};
use font_fallback::{Chosen, Tried, choose_fonts};
use shape_buffer::buffer::{GlyphBuffer, GlyphCluster, ShapeError, UnicodeBuffer};
use std::alloc::{AllocError, Global};
use unicode_segmentation::UnicodeSegmentation;

/// A part of a text in one font, with its glyphs.
#[derive(Drop)]
pub(crate) struct Run {
    pub part: Part,
    pub font: usize,
    pub glyphs: GlyphBuffer,
}

/// A buffer without glyphs.
fn no_glyphs(alloc: Global) -> GlyphBuffer {
    UnicodeBuffer::new(alloc).into_inner().into_glyphs()
}

/// Where the clusters of a part begin.
fn cluster_starts(alloc: Global, text: &str, part: Part) -> Result<Vec<usize>, AllocError> {
    let mut starts = Vec::new(alloc);
    let inside = text.get(part.start..part.end).unwrap_or("");
    for (at, _) in inside.grapheme_indices(true) {
        starts.push(part.start.saturating_add(at))?;
    }
    Ok(starts)
}

/// Whether no glyph of some clusters is 0.
fn is_whole(glyphs: &GlyphBuffer, cluster: &GlyphCluster) -> bool {
    match glyphs.glyph_infos().get(cluster.start..cluster.end) {
        Some(infos) => infos.iter().all(|info| info.glyph_id != 0),
        None => true,
    }
}

/// The last of the shaped clusters from one on that begins at an offset or before it; the first of
/// them if none does.
fn cluster_at(shaped: &[GlyphCluster], from: usize, offset: usize) -> usize {
    let mut at = from;
    for next in from.saturating_add(1)..shaped.len() {
        match shaped.get(next) {
            Some(cluster) if cluster.cluster as usize <= offset => at = next,
            _ => return at,
        }
    }
    at
}

/// Whether no glyph is 0 in the shaped clusters from one on that begin before an offset.
fn are_whole(glyphs: &GlyphBuffer, shaped: &[GlyphCluster], from: usize, end: usize) -> bool {
    shaped
        .get(from..)
        .unwrap_or(&[])
        .iter()
        .take_while(|cluster| (cluster.cluster as usize) < end)
        .all(|cluster| is_whole(glyphs, cluster))
}

/// Which clusters of a part, given where they begin, have all their glyphs.
fn covered(
    alloc: Global,
    glyphs: &GlyphBuffer,
    starts: &[usize],
    end: usize,
) -> Result<Vec<bool>, ShapeError> {
    let shaped = glyphs.clusters(alloc)?;
    let mut has = Vec::with_capacity(alloc, starts.len())?;
    let mut from = 0;
    for place in 0..starts.len() {
        from = cluster_at(&shaped, from, starts[place]);
        let next = starts.get(place.saturating_add(1)).copied().unwrap_or(end);
        has.push(are_whole(glyphs, &shaped, from, next))?;
    }
    Ok(has)
}

/// A part as a font shapes it, and which of its clusters the font has.
fn tried<S: PartShaper>(
    alloc: Global,
    shaper: &mut S,
    font: usize,
    part: Part,
    starts: &[usize],
) -> Result<Tried<GlyphBuffer>, ShapeError> {
    let made = shaper.shape(alloc, font, part)?;
    let has = covered(alloc, &made, starts, part.end)?;
    Ok(Tried { has, made })
}

/// The part of a text that some clusters of a part are.
fn part_of(part: Part, starts: &[usize], first: usize, last: usize) -> Part {
    Part {
        start: starts.get(first).copied().unwrap_or(part.end),
        end: starts.get(last).copied().unwrap_or(part.end),
        ..part
    }
}

/// Adds the runs of a part: one with the glyphs that are there if one font shows all of it, else
/// one for each span, shaped by itself.
fn add_chosen<S: PartShaper>(
    alloc: Global,
    runs: &mut Vec<Run>,
    shaper: &mut S,
    part: Part,
    starts: &[usize],
    chosen: Chosen<GlyphBuffer>,
) -> Result<(), ParagraphError> {
    let Chosen { spans, tried } = chosen;
    if let [span] = spans.as_slice() {
        if let Some(one) = tried.into_iter().nth(span.font) {
            runs.push(Run {
                part,
                font: span.font,
                glyphs: one.made,
            })?;
        }
        return Ok(());
    }
    for span in &spans {
        let part = part_of(part, starts, span.start, span.end);
        let glyphs = shaper.shape(alloc, span.font, part)?;
        runs.push(Run {
            part,
            font: span.font,
            glyphs,
        })?;
    }
    Ok(())
}

/// The runs of the parts of a text, in its order. Refuses with `NoFonts` if there are no fonts.
pub(crate) fn runs<S: PartShaper>(
    alloc: Global,
    shaper: &mut S,
    text: &str,
    parts: &[Part],
) -> Result<Vec<Run>, ParagraphError> {
    let mut runs = Vec::new(alloc);
    for part in parts {
        if !part.shown {
            runs.push(Run {
                part: *part,
                font: 0,
                glyphs: no_glyphs(alloc),
            })?;
            continue;
        }
        let starts = cluster_starts(alloc, text, *part)?;
        let count = shaper.font_count();
        let chosen = choose_fonts(alloc, count, starts.len(), |font| {
            tried(alloc, shaper, font, *part, &starts)
        })?;
        add_chosen(alloc, &mut runs, shaper, *part, &starts, chosen)?;
    }
    Ok(runs)
}
