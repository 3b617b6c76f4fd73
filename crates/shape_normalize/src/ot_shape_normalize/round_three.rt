//! Round three: marks are composed with their starters again.
//!
//! A face may have one glyph for what was split into a starter and its marks, so each mark that
//! isn't blocked is composed with its starter, if the face has a glyph for the two as one (The
//! Unicode Standard, D115 to D117). Marks may stand out of order, in a run too long to be put in
//! order or if a hook has reordered them. So the greatest ccc since the starter decides, and not
//! that of the last mark.
//!
//! A walk puts each composed character in its starter's place, and notes the span that ends with
//! the mark. In most texts nothing composes, and nothing is written. Otherwise the clusters of the
//! spans are merged while all items still stand in the list, and then the marks are taken out of it
//! in place: no list of items is made.
//!
//! Spans are merged one by one as long as each begins in its least cluster, as in a text whose
//! clusters rise: such a merge grows to the right alone. From the first other span on they are
//! merged at once.
ghost use Rattle.std.specs.Prelude.{◌≡◌, ◌<◌, ◌≤◌, length, set, drop, slice_index_or};
ghost use Rattle.std.specs.Prelude.{IfOk, IsOkUnless, OnOk};
ghost use Rattle.canonical_form.specs.Recompose.{compose_with_glyph};
ghost use Rattle.shape_items.specs.Buffer.{cleared};
ghost use Rattle.shape_items.specs.Items.{Item};
ghost use Rattle.shape_items.specs.Spans.{AreSpansInOrder, spans_merged_out};
ghost use Rattle.shape_items.specs.UnicodeProps.{with_scratch_of};
ghost use Rattle.shape_normalize.specs.Recast.{recast_to, seen_chars};
ghost use Rattle.shape_normalize.specs.RoundThree.{recomposed_items, chained_spans, composed_chars};
ghost use Rattle.shape_normalize.specs.RoundThree.{is_blocked_after, composed_char};
ghost use Rattle.shape_normalize.specs.RoundThree.{AreComposedInPlace, ends_at, ends_taken_out};
ghost use Rattle.shape_normalize.specs.RoundThree.{round_three};
ghost use Rattle.shape_plan.specs.Rules.{has_glyph};

use crate::ot_shape_normalize::recast::recast_to;
use shape_buffer::buffer::{ScratchFlags, ShapeError, hb_buffer_t, hb_glyph_info_t};
use shape_buffer::interfaces::{hb_font_t, hb_ot_layout_t, hb_unicode_funcs_t};
use shape_plan::ot_shaper::hb_ot_shaper_t;
use shape_plan::shaping_types::{Meaning, PlanOf, ShapingTypes};
use std::alloc::{AllocError, Global};

/// What two characters compose to: the hook's if it is given and the plan uses the shaper, else
/// Unicode's.
fn compose_of<T: ShapingTypes>(
    plan: &PlanOf<'_, T>,
    face: &T::Face,
    a: char,
    b: char,
) -> Option<char>
    ensures { result ≡ (⟦<T as Meaning>⟧.rules plan.now face.now).compose a b }
{
    match plan.shaper() {
        Some(shaper) if T::Shaper::HAS_COMPOSE => shaper.compose(plan, face, a, b),
        _ => T::Unicode::compose(a, b),
    }
}

/// What two characters compose to, if the face has a glyph for it.
fn compose_with_glyph_of<T: ShapingTypes>(
    plan: &PlanOf<'_, T>,
    face: &T::Face,
    a: char,
    b: char,
) -> Option<char>
    ensures { result ≡ compose_with_glyph
        (⟦<T as Meaning>⟧.rules plan.now face.now).compose
        (has_glyph (T.Face.face face.now).nominal_glyph) a b }
{
    compose_of::<T>(plan, face, a, b).filter(|&c| face.has_glyph(c))
}

/// Whether an item of this ccc is blocked from its starter by marks between them of this greatest
/// ccc, 0 if there are none.
fn is_blocked(greatest: u8, ccc: u8) -> bool
    ensures { result ≡ is_blocked_after greatest ccc }
{
    greatest > 0 && ccc <= greatest
}

/// The character that a starter makes with an item after it, past marks of this greatest ccc, if
/// the two compose.
fn composed_of<T: ShapingTypes>(
    plan: &PlanOf<'_, T>,
    face: &T::Face,
    starter: &hb_glyph_info_t,
    greatest: u8,
    next: &hb_glyph_info_t,
) -> Option<char>
    ensures { result ≡ composed_char (⟦<T as Meaning>⟧.rules plan.now face.now)
        starter.now greatest next.now }
{
    let ccc = next._hb_glyph_info_get_modified_combining_class();
    if next._hb_glyph_info_is_unicode_mark() && !is_blocked(greatest, ccc) {
        compose_with_glyph_of::<T>(plan, face, starter.codepoint, next.codepoint)
    } else {
        None
    }
}

/// Puts a composed character in the place of its starter.
fn put_composed<U: hb_unicode_funcs_t, F: hb_font_t>(
    face: &F,
    buffer: &mut hb_buffer_t,
    starter: usize,
    c: char,
)
    requires { starter < length buffer.old.items }
    ensures { (item : Item) → item ≡ slice_index_or buffer.old.items starter item
        → buffer.new ≡ record buffer.old {
          items = set buffer.old.items starter
              (recast_to U.unicode (F.face face.now).nominal_glyph item c);
          scratch_flags = with_scratch_of U.unicode c buffer.old.scratch_flags;
        } }
{
    let mut scratch_flags = buffer.scratch_flags();
    let item = recast_to::<U, F>(face, &buffer.infos()[starter], c, &mut scratch_flags);
    buffer.set_info(starter, item);
    buffer.set_scratch_flags(scratch_flags);
}

/// Puts each composed character in the place of its starter, and gives the spans of what was
/// composed; each ends with the mark that went into a starter, which still stands in its own place.
///
/// A span goes from a starter to the first mark that was composed with it, or from each such mark
/// to the next: merged in order they do what spans that all begin at the starter do, and their
/// lengths stay linear if a starter takes many marks.
fn compose_in_place<T: ShapingTypes>(
    alloc: Global,
    plan: &PlanOf<'_, T>,
    face: &T::Face,
    buffer: &mut hb_buffer_t,
) -> Result<Vec<(usize, usize)>, AllocError>
    ensures spans { IfOk result (λ spans. spans.items ≡ chained_spans (recomposed_items
        (⟦<T as Meaning>⟧.rules plan.now face.now) buffer.old.items)) }
    ensures items { OnOk result (AreComposedInPlace
        (⟦<T as Meaning>⟧.rules plan.now face.now) buffer.old.items buffer.new.items) }
    ensures flags { OnOk result (buffer.new.scratch_flags
        ≡ seen_chars T.Unicode.unicode buffer.old.scratch_flags (composed_chars (recomposed_items
        (⟦<T as Meaning>⟧.rules plan.now face.now) buffer.old.items))) }
    ensures rest { buffer.new ≡ record buffer.old {
      items = buffer.new.items;
      scratch_flags = buffer.new.scratch_flags;
    } }
{
    let mut spans = Vec::new(alloc);
    if buffer.is_empty() {
        return Ok(spans);
    }
    let mut starter = 0;
    let mut from = 0;
    let mut greatest = 0;
    for place in 1..buffer.len() {
        let infos = buffer.infos();
        let next = &infos[place];
        let ccc = next._hb_glyph_info_get_modified_combining_class();
        if let Some(c) = composed_of::<T>(plan, face, &infos[starter], greatest, next) {
            spans.push((from, place + 1))?;
            put_composed::<T::Unicode, T::Face>(face, buffer, starter, c);
            from = place;
            continue;
        }
        if ccc == 0 {
            starter = place;
            from = place;
            greatest = 0;
        } else {
            greatest = greatest.max(ccc);
        }
    }
    Ok(spans)
}

/// Whether no item is in a smaller cluster than the first one.
fn begins_least(infos: &[hb_glyph_info_t]) -> bool {
    let Some(first) = infos.first() else {
        return true;
    };
    infos.iter().all(|info| first.cluster <= info.cluster)
}

/// Merges the clusters of each span, in order.
///
/// A span that begins in its least cluster grows to the right alone, over items that no later one
/// grows over again. So such spans are merged one by one, without a walk over the items beside
/// them.
fn merge_composed(buffer: &mut hb_buffer_t, spans: &[(usize, usize)])
    requires { AreSpansInOrder 0 (length buffer.old.items) spans.now }
    ensures { buffer.new ≡ spans_merged_out spans.now buffer.old }
{
    let mut merged = 0;
    while merged < spans.len() {
        let (start, end) = spans[merged];
        if !begins_least(&buffer.infos()[start..end]) {
            break;
        }
        buffer.merge_out_clusters(start, end);
        merged += 1;
    }
    buffer.merge_spans_out(&spans[merged..]);
}

/// Whether the first of the spans that are left ends here.
fn ends_next(spans: &[(usize, usize)], taken: usize, end: usize) -> bool
    ensures { result ≡ ends_at end (drop taken spans.now) }
{
    taken < spans.len() && spans[taken].1 == end
}

/// Takes out the last item of each of these spans, and leaves the others at positions of zeros.
fn take_out_ends(buffer: &mut hb_buffer_t, spans: &[(usize, usize)])
    ensures { buffer.new ≡ ends_taken_out spans.now buffer.old }
{
    let Some((_, end)) = spans.first() else {
        buffer.clear_positions();
        return;
    };
    let mut kept = end.saturating_sub(1);
    let mut taken = 0;
    for place in kept..buffer.len() {
        if ends_next(spans, taken, place + 1) {
            taken += 1;
        } else {
            buffer.set_info(kept, buffer.infos()[place]);
            kept += 1;
        }
    }
    buffer.truncate(kept);
    buffer.clear_positions();
}

/// Composes marks with their starters. Refuses with `Memory` if a growth was refused; the settings
/// that clearing keeps are then as they were.
pub(crate) fn recompose<T: ShapingTypes>(
    alloc: Global,
    plan: &PlanOf<'_, T>,
    buffer: &mut hb_buffer_t,
    face: &T::Face,
) -> Result<(), ShapeError>
    ensures ok { OnOk result (buffer.new
        ≡ round_three (⟦<T as Meaning>⟧.rules plan.now face.now) buffer.old) }
    ensures memory { IsOkUnless result ShapeError.Memory }
    ensures settings { cleared buffer.new ≡ cleared buffer.old }
{
    let spans = compose_in_place::<T>(alloc, plan, face, buffer)?;
    merge_composed(buffer, &spans);
    take_out_ends(buffer, &spans);
    Ok(())
}
