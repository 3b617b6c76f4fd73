//! Combining sequences: an item with the marks directly after it (The Unicode Standard, D56).
ghost use Rattle.std.specs.Prelude.{◌≡◌, ◌≤◌, ◌∷◌, ◌++◌, [], length, map, not, take, drop, MatchOption};
ghost use Rattle.std.specs.List.{list_any, prefix_len};
ghost use Rattle.canonical_form.specs.Divided.{IsFirstPart};
ghost use Rattle.shape_items.specs.Items.{is_mark_item};
ghost use Rattle.shape_normalize.specs.RoundOne;
ghost use Rattle.shape_normalize.specs.RoundOne.{sequences};

use shape_buffer::buffer::hb_glyph_info_t;
use shape_buffer::interfaces::hb_unicode_funcs_t;

/// How many marks stand at the beginning.
fn count_marks(infos: &[hb_glyph_info_t]) -> usize
    ensures value { result ≡ prefix_len is_mark_item infos.now }
    ensures within { result ≤ length infos.now }
{
    infos
        .iter()
        .take_while(|info| info._hb_glyph_info_is_unicode_mark())
        .count()
}

/// How many items that are no marks stand at the beginning.
fn count_unmarked(infos: &[hb_glyph_info_t]) -> usize
    ensures value { result ≡ prefix_len (λ item. not (is_mark_item item)) infos.now }
    ensures within { result ≤ length infos.now }
{
    infos
        .iter()
        .take_while(|info| !info._hb_glyph_info_is_unicode_mark())
        .count()
}

/// How many sequences of one item stand at the beginning, each followed by an item that is no mark;
/// so the last item of a list isn't counted.
pub(super) fn count_alone(infos: &[hb_glyph_info_t]) -> usize
    ensures alone { sequences infos.now
        ≡ map (λ item. item ∷ []) (take result infos.now) ++ sequences (drop result infos.now) }
    ensures within { result ≤ length infos.now }
{
    match infos.split_first() {
        Some((_, after)) => count_unmarked(after),
        None => 0,
    }
}

/// How many variation selectors stand at the beginning.
fn count_selectors<U: hb_unicode_funcs_t>(infos: &[hb_glyph_info_t]) -> usize
    ensures value { result ≡ prefix_len (RoundOne.is_selector_item U.unicode) infos.now }
    ensures within { result ≤ length infos.now }
{
    infos
        .iter()
        .take_while(|info| U::is_variation_selector(info.codepoint))
        .count()
}

/// The first sequence, and the items after it; nothing if there is no item. The first item may be a
/// mark itself.
pub(super) fn first_sequence(
    infos: &[hb_glyph_info_t],
) -> Option<(&[hb_glyph_info_t], &[hb_glyph_info_t])>
    ensures { MatchOption result (infos.now ≡ [])
        (λ p. IsFirstPart is_mark_item infos.now p.0.now p.1.now) }
{
    let (_, after) = infos.split_first()?;
    Some(infos.split_at(1 + count_marks(after)))
}

/// The first item with the variation selectors directly after it, and the items after them; nothing
/// if there is no item. The first item may be a selector itself.
pub(super) fn first_variant<U: hb_unicode_funcs_t>(
    infos: &[hb_glyph_info_t],
) -> Option<(&[hb_glyph_info_t], &[hb_glyph_info_t])>
    ensures { MatchOption result (infos.now ≡ [])
        (λ p. IsFirstPart (RoundOne.is_selector_item U.unicode) infos.now p.0.now p.1.now) }
{
    let (_, after) = infos.split_first()?;
    Some(infos.split_at(1 + count_selectors::<U>(after)))
}

/// Whether an item of a sequence stands with marks.
pub(super) fn is_with_marks(sequence: &[hb_glyph_info_t]) -> bool
    ensures { result ≡ RoundOne.is_with_marks sequence.now }
{
    sequence.len() > 1
}

/// Whether one of these items is a variation selector.
pub(crate) fn holds_selector<U: hb_unicode_funcs_t>(infos: &[hb_glyph_info_t]) -> bool
    ensures { result ≡ list_any (RoundOne.is_selector_item U.unicode) infos.now }
{
    infos
        .iter()
        .any(|info| U::is_variation_selector(info.codepoint))
}

/// Whether a sequence isn't expanded: it has marks and holds a variation selector.
pub(super) fn is_selector_sequence<U: hb_unicode_funcs_t>(sequence: &[hb_glyph_info_t]) -> bool
    ensures { result ≡ RoundOne.is_selector_sequence U.unicode sequence.now }
{
    is_with_marks(sequence) && holds_selector::<U>(sequence)
}
