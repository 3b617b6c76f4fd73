//! Items that become one with the variation selector after them: their clusters are merged first.
//!
//! The round is defined as one walk that merges on its way. Merging first gives the same:
//! expanded items copy cluster and mask, and a selector that goes is in one cluster with its
//! item.
ghost use Rattle.std.specs.Prelude.{◌≡◌, ◌+◌, ◌<◌, ◌^◌, ◌++◌, length, IfOk, OnOk, OnErr};
ghost use Rattle.shape_items.specs.Spans.{all_merged};
ghost use Rattle.shape_normalize.specs.RoundOne;

use crate::ot_shape_normalize::round_one::sequences::{
    count_alone, first_sequence, first_variant, is_selector_sequence,
};
use shape_buffer::buffer::{GlyphId, hb_buffer_t, hb_glyph_info_t};
use shape_buffer::interfaces::{hb_font_t, hb_unicode_funcs_t};
use std::alloc::{AllocError, Global};

/// The glyph of the first two of these items, if the face has one for the two.
fn variation_sequence_glyph<F: hb_font_t>(face: &F, part: &[hb_glyph_info_t]) -> Option<GlyphId>
    ensures { result ≡ RoundOne.variation_sequence_glyph (F.face face.now) part.now }
{
    let (info, after) = part.split_first()?;
    let (selector, _) = after.split_first()?;
    face.glyph_variation_index(info.codepoint, selector.codepoint)
}

/// Adds the spans of the items of a sequence that become one with the selector after them. Kept out
/// of line, since most sequences of a text hold no selector: inlined, it leaves no register to the
/// walk over those.
#[inline(never)]
fn push_variation_sequences<U: hb_unicode_funcs_t, F: hb_font_t>(
    face: &F,
    start: usize,
    sequence: &[hb_glyph_info_t],
    spans: &mut Vec<(usize, usize)>,
) -> Result<(), AllocError>
    requires { start + length sequence.now < 2 ^ 64 }
    ensures { OnOk result (spans.new.items ≡ spans.old.items
        ++ RoundOne.variation_sequence_spans (F.face face.now) start
        (RoundOne.variants U.unicode sequence.now)) }
{
    let mut place = start;
    let mut rest = sequence;
    'parts: while let Some((part, after)) = first_variant::<U>(rest) {
        if variation_sequence_glyph(face, part).is_some() {
            spans.push((place, place + 2))?;
        }
        place += part.len();
        rest = after;
    }
    Ok(())
}

/// The spans of all items that become one with the selector after them. Takes no memory if there
/// are none.
fn variation_sequences<U: hb_unicode_funcs_t, F: hb_font_t>(
    alloc: Global,
    face: &F,
    infos: &[hb_glyph_info_t],
) -> Result<Vec<(usize, usize)>, AllocError>
    ensures { IfOk result (λ spans. spans.items
        ≡ RoundOne.variation_sequences_from U.unicode (F.face face.now) 0
        (RoundOne.sequences infos.now)) }
{
    let mut spans = Vec::new(alloc);
    let mut place = 0;
    let mut rest = infos;
    'sequences: while let Some((sequence, after)) = first_sequence(rest) {
        if is_selector_sequence::<U>(sequence) {
            push_variation_sequences::<U, F>(face, place, sequence, &mut spans)?;
        }
        let (alone, behind) = after.split_at(count_alone(after));
        place += sequence.len() + alone.len();
        rest = behind;
    }
    Ok(spans)
}

/// Merges the clusters of each item that becomes one with the selector after it, and of that
/// selector.
pub(super) fn merge_variation_sequences<U: hb_unicode_funcs_t, F: hb_font_t>(
    alloc: Global,
    face: &F,
    buffer: &mut hb_buffer_t,
) -> Result<(), AllocError>
    ensures merged { OnOk result (buffer.new
        ≡ all_merged (RoundOne.variation_sequences_from U.unicode (F.face face.now) 0
        (RoundOne.sequences buffer.old.items)) buffer.old) }
    ensures err { OnErr result (buffer.new ≡ buffer.old) }
{
    let spans = variation_sequences::<U, F>(alloc, face, buffer.infos())?;
    buffer.merge_spans(&spans);
    Ok(())
}
