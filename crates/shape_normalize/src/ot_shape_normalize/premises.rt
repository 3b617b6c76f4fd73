//! The premises of canonical form, tested on a text.
//!
//! Normalising promises canonical form, and decides equivalence, under premises that a text from
//! outside may miss: a face lacks a glyph, or marks stand in too long a row. This is the test of
//! them. Full of the text is walked from its end to its beginning, the order in which a chain gives
//! its parts; so all that is kept is how the walked part begins, and no memory is taken.
//!
//! The premises range over all numbers, as Unicode's laws do. A hook is called on characters; past
//! them "does not split" meets every law.
ghost use Rattle.std.specs.Prelude.{◌≡◌, ◌↔◌, ◌&&◌, IsTrue, not, is_some};
ghost use Rattle.std.specs.List.{list_all};
ghost use Rattle.canonical_form.specs.Chain.{full};
ghost use Rattle.shape_normalize.specs.CanonicalForm.{CanonicalFormPremises, HasLawfulHooks};
ghost use Rattle.shape_normalize.specs.PremiseTest;
ghost use Rattle.shape_plan.specs.Rules.{decompositions, has_glyph};

use crate::ot_shape_normalize::decompose::split_of;
use crate::ot_shape_normalize::has_mark_past_first;
use crate::ot_shape_normalize::mode::{goes_short, recomposes};
use crate::ot_shape_normalize::round_two::reorders_marks;
use shape_buffer::buffer::{hb_buffer_t, hb_glyph_info_t};
use shape_buffer::interfaces::{hb_font_t, hb_ot_layout_t, hb_unicode_funcs_t};
use shape_plan::ot_shape_plan::hb_ot_shape_plan_t;
use shape_plan::ot_shaper::{MAX_COMBINING_MARKS, Runs, hb_ot_shaper_t};
use shape_plan::shaping_types::{Meaning, PlanOf, ShapingTypes, TypesOf};

/// How a list of characters begins, as the walk goes on in front of it.
#[derive(Clone, Copy)]
pub(crate) struct Front {
    /// How many marks it begins with.
    row: usize,
    /// The ccc of its first character, 0 if there is none.
    ccc: u8,
    /// Whether no mark in it has a lower ccc than the mark before it.
    ordered: bool,
}

/// How a list begins once `c` came in front of it. `None` if it begins with more than 32 marks
/// then, or if the face has no glyph for `c`.
fn with_char<U: hb_unicode_funcs_t, F: hb_font_t>(
    face: &F,
    front: Option<Front>,
    c: char,
) -> Option<Front>
    ensures { result ≡ PremiseTest.front_with U.unicode.ccc
        (has_glyph (F.face face.now).nominal_glyph) c front }
{
    let front = front?;
    if !face.has_glyph(c) {
        return None;
    }
    let ccc = U::modified_combining_class(c);
    let ordered = front.ordered && (front.ccc == 0 || ccc <= front.ccc);
    if ccc == 0 {
        return Some(Front {
            row: 0,
            ccc,
            ordered,
        });
    }
    if front.row < MAX_COMBINING_MARKS {
        Some(Front {
            row: front.row + 1,
            ccc,
            ordered,
        })
    } else {
        None
    }
}

/// The same for Full of a character: its chain gives the last part first.
fn with_full<T: ShapingTypes>(
    plan: &PlanOf<'_, T>,
    face: &T::Face,
    before: Option<Front>,
    c: char,
) -> Option<Front>
    ensures { let rules = ⟦<T as Meaning>⟧.rules plan.now face.now in
        result ≡ PremiseTest.front_before T.Unicode.unicode.ccc
        (has_glyph (T.Face.face face.now).nominal_glyph) (full (decompositions rules) c) before }
{
    let mut front = before;
    let mut point = c;
    'chain: while let Some((a, b)) = split_of::<T>(plan, face, point) {
        if b != '\0' {
            front = with_char::<T::Unicode, T::Face>(face, front, b);
        }
        point = a;
    }
    with_char::<T::Unicode, T::Face>(face, front, point)
}

/// How Full of a text begins. `None` if one of its characters has no glyph, or a run of marks in it
/// is longer than 32.
fn front_of<T: ShapingTypes>(
    plan: &PlanOf<'_, T>,
    face: &T::Face,
    infos: &[hb_glyph_info_t],
) -> Option<Front>
    ensures { let rules = ⟦<T as Meaning>⟧.rules plan.now face.now in
        result ≡ PremiseTest.front_of rules infos.now }
{
    let mut front = Front {
        row: 0,
        ccc: 0,
        ordered: true,
    };
    let mut left = infos;
    'items: while let Some((info, before)) = left.split_last() {
        front = with_full::<T>(plan, face, Some(front), info.codepoint)?;
        left = before;
    }
    Some(front)
}

/// Whether each character of Full has a glyph, no run of marks in it is longer than 32, and the
/// marks end in order: one stands past the first item, so that they are put in order, or they are
/// in order in Full, and the mode doesn't compose.
fn is_supported<T: ShapingTypes>(
    plan: &PlanOf<'_, T>,
    face: &T::Face,
    infos: &[hb_glyph_info_t],
) -> bool
    ensures { let rules = ⟦<T as Meaning>⟧.rules plan.now face.now in
        result ≡ PremiseTest.is_supported_text rules infos.now }
{
    match front_of::<T>(plan, face, infos) {
        Some(front) => has_mark_past_first(infos) || !recomposes::<T>(plan) && front.ordered,
        None => false,
    }
}

/// Whether an item's mark and ccc are those of its character, which is no variation selector.
fn is_plain<U: hb_unicode_funcs_t>(info: &hb_glyph_info_t) -> bool
    ensures { result ≡ PremiseTest.is_plain_item U.unicode info.now }
{
    info._hb_glyph_info_is_unicode_mark() == U::general_category(info.codepoint).is_mark()
        && info._hb_glyph_info_get_modified_combining_class()
            == U::modified_combining_class(info.codepoint)
        && !U::is_variation_selector(info.codepoint)
}

/// Whether all items are plain.
fn are_plain<U: hb_unicode_funcs_t>(infos: &[hb_glyph_info_t]) -> bool
    ensures { result ≡ list_all (PremiseTest.is_plain_item U.unicode) infos.now }
{
    infos.iter().all(|info| is_plain::<U>(info))
}

/// Whether the mode decomposes fully, and no hook reorders marks.
fn is_full<T: ShapingTypes>(plan: &PlanOf<'_, T>) -> bool
    ensures { (face : T.Face) → let rules = ⟦<T as Meaning>⟧.rules plan.now face in
        result ≡ PremiseTest.is_full_mode rules.short && not (is_some rules.reorder) }
{
    let short = goes_short::<T>(plan, true) || goes_short::<T>(plan, false);
    let reorders = reorders_marks::<T>(plan);
    !short && !reorders
}

/// Whether a text, prepared for normalising, meets the premises of canonical form, except for those
/// that a shaper's hooks must provide ([`crate::laws::hooks_not_given_are_lawful`] has them of
/// hooks that aren't given): the mode decomposes fully, no hook reorders marks, items are as they
/// were prepared, there is no variation selector, in the full decomposition each character has a
/// glyph and no run of marks is longer than 32, and a mark stands past the first character; in a
/// mode that doesn't compose it is enough that no mark of the full decomposition has a lower ccc
/// than the mark before it, as in U+00E9 alone.
///
/// So a caller can tell of texts from outside whether they take canonical form, and whether
/// [`crate::ot_shape_normalize::normalized_equal`] tells of two of them if they are equivalent.
/// Takes no memory.
pub fn meets_canonical_premises<U, F, M, S>(
    plan: &hb_ot_shape_plan_t<'_, S, M::Map, S::Data>,
    face: &F,
    buffer: &hb_buffer_t,
) -> bool
where
    U: hb_unicode_funcs_t,
    F: hb_font_t,
    M: hb_ot_layout_t<F>,
    S: hb_ot_shaper_t<U, F, M>,
    ensures { let rules = ⟦<S as Runs<U, F, M>>⟧.rules plan.now face.now in
        HasLawfulHooks rules → IsTrue result ↔ CanonicalFormPremises rules buffer.now }
{
    have_premises::<TypesOf<U, F, M, S>>(plan, face, buffer.infos())
}

/// Whether the items of a text meet them.
fn have_premises<T: ShapingTypes>(
    plan: &PlanOf<'_, T>,
    face: &T::Face,
    infos: &[hb_glyph_info_t],
) -> bool
    ensures { result
        ≡ PremiseTest.meets_premises (⟦<T as Meaning>⟧.rules plan.now face.now) infos.now }
{
    is_full::<T>(plan) && are_plain::<T::Unicode>(infos) && is_supported::<T>(plan, face, infos)
}
