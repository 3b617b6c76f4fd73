//! Normalising: the characters of a text become those that the face has glyphs for.
//!
//! A character may be spelled in several ways, and a face rarely has glyphs for all of them. So
//! each character is expanded along the chain of its splits, where its first part may split again,
//! and so on; the characters of some point of the chain are put in its place, if the face has
//! glyphs for all of them. A shaper may bring splits of its own. The marks after a character are
//! then put in one order, so that spellings of one text become one list (UAX 15; The Unicode
//! Standard, D68 and D107 to D109).
//!
//! No promise rests on ccc after a given reorder hook, which may renumber: items with selectors
//! and items by their place are then compared except for ccc. Rounds one and two are defined over
//! items, and the places that items came from are claimed beside them, since a hook is a function
//! on buffers that carries no place.
ghost use Rattle.std.specs.Prelude.{◌≡◌, ◌≤◌, [], length, IsOk, OnOk, OnErr, Err};
ghost use Rattle.std.specs.List.{list_any};
ghost use Rattle.shape_items.specs.Buffer.{cleared, limit_of};
ghost use Rattle.shape_items.specs.Items.{is_mark_item};
ghost use Rattle.shape_normalize.specs.NormalForm;
ghost use Rattle.shape_normalize.specs.Normalized.{normalized};
ghost use Rattle.shape_normalize.specs.RoundOne.{ExpandsPastLimit, round_one};
ghost use Rattle.shape_normalize.specs.RoundTwo;

mod cgj;
mod compare;
mod context;
mod decompose;
mod expand_and_order;
mod mode;
mod one_character;
mod one_walk;
mod premises;
mod recast;
mod round_one;
mod round_three;
mod round_two;
mod runs;

use crate::ot_shape_normalize::cgj::unhide_cgj;
use crate::ot_shape_normalize::expand_and_order::expand_and_order;
use crate::ot_shape_normalize::mode::recomposes;
use crate::ot_shape_normalize::round_three::recompose;
pub use compare::normalized_equal;
pub use context::hb_ot_shape_normalize_context_t;
pub use premises::meets_canonical_premises;
use shape_buffer::buffer::{ShapeError, hb_buffer_t, hb_glyph_info_t};
use shape_buffer::interfaces::{hb_font_t, hb_ot_layout_t, hb_unicode_funcs_t};
use shape_buffer::passing::passed_over;
pub use shape_plan::normalization_mode::{
    HB_OT_SHAPE_NORMALIZATION_MODE_AUTO, HB_OT_SHAPE_NORMALIZATION_MODE_COMPOSED_DIACRITICS,
    HB_OT_SHAPE_NORMALIZATION_MODE_COMPOSED_DIACRITICS_NO_SHORT_CIRCUIT,
    HB_OT_SHAPE_NORMALIZATION_MODE_DECOMPOSED, HB_OT_SHAPE_NORMALIZATION_MODE_DEFAULT,
    HB_OT_SHAPE_NORMALIZATION_MODE_NONE, hb_ot_shape_normalization_mode_t,
};
use shape_plan::ot_shape_plan::hb_ot_shape_plan_t;
use shape_plan::ot_shaper::{Runs, hb_ot_shaper_t};
use shape_plan::shaping_types::{Meaning, PlanOf, ShapingTypes, TypesOf};
use std::alloc::Global;

/// Makes the list of a buffer the normalised one, at positions of zeros, by the mode that the
/// plan's shaper prefers: see [`HB_OT_SHAPE_NORMALIZATION_MODE_NONE`] and the others.
///
/// Each item becomes the items of an expansion of its character that the face has glyphs for, the
/// shortest or the longest one, and takes the glyph that the face returns; a space or a
/// non-breaking hyphen without a glyph takes that of another. A sequence of an item and its marks
/// that holds a variation selector isn't expanded. If a mark stood past the first item as
/// normalising began, each run of at most 32 marks is put in the order of their ccc, the clusters
/// of the spans that this moves are merged, the shaper may reorder the run, and in the modes that
/// compose, marks are composed with their starters again, whose clusters are merged. Each CGJ that
/// keeps nothing apart is unhidden. A mark is composed only if its ccc is greater than that of
/// every mark between it and its starter. So under the first premises of `canonical_form` the list
/// is equivalent to the text, however many marks stand in a row; canonical form itself asks for
/// runs of at most 32.
///
/// Refuses with `Length` if the expanded list is longer than the buffer's limit, and with `Memory`
/// if a growth was refused; after a refusal the buffer is cleared. An empty buffer is left as it
/// is, and no memory is taken.
pub fn _hb_ot_shape_normalize<U, F, M, S>(
    alloc: Global,
    plan: &hb_ot_shape_plan_t<'_, S, M::Map, S::Data>,
    buffer: &mut hb_buffer_t,
    face: &F,
) -> Result<(), ShapeError>
where
    U: hb_unicode_funcs_t,
    F: hb_font_t,
    M: hb_ot_layout_t<F>,
    S: hb_ot_shaper_t<U, F, M>,
    ensures ok { OnOk result (NormalForm.Normalizes
        (⟦<S as Runs<U, F, M>>⟧.rules plan.now face.now) buffer.old buffer.new) }
    ensures length { result ≡ Err ShapeError.Length → ExpandsPastLimit
        (⟦<S as Runs<U, F, M>>⟧.rules plan.now face.now) buffer.old }
    ensures settings { cleared buffer.new ≡ cleared buffer.old }
    ensures cleared { OnErr result (buffer.new ≡ cleared buffer.old) }
    ensures empty { buffer.old.items ≡ [] → IsOk result }
{
    let outcome = run_rounds::<TypesOf<U, F, M, S>>(alloc, plan, buffer, face);
    if outcome.is_err() {
        buffer.reset();
    }
    outcome
}

/// Expands the items and unhides CGJ; if there are marks past the first item, puts them in order,
/// and composes them in the modes that do. Leaves an empty list as it is.
fn run_rounds<T: ShapingTypes>(
    alloc: Global,
    plan: &PlanOf<'_, T>,
    buffer: &mut hb_buffer_t,
    face: &T::Face,
) -> Result<(), ShapeError>
    ensures ok { OnOk result (buffer.new
        ≡ normalized (⟦<T as Meaning>⟧.rules plan.now face.now) buffer.old) }
    ensures counted { OnOk result (length (round_one
        (⟦<T as Meaning>⟧.rules plan.now face.now) buffer.old).items ≤ limit_of buffer.old) }
    ensures length { result ≡ Err ShapeError.Length → ExpandsPastLimit
        (⟦<T as Meaning>⟧.rules plan.now face.now) buffer.old }
    ensures settings { cleared buffer.new ≡ cleared buffer.old }
    ensures empty { buffer.old.items ≡ [] → IsOk result }
{
    if buffer.len() == 0 {
        return Ok(());
    }
    let has_marks = has_mark_past_first(buffer.infos());
    expand_and_order::<T>(alloc, plan, buffer, face, has_marks)?;
    unhide_cgj(buffer);
    if has_marks && recomposes::<T>(plan) {
        recompose::<T>(alloc, plan, buffer, face)?;
    }
    Ok(())
}

/// Whether a mark stands past the first item.
fn has_mark_past_first(infos: &[hb_glyph_info_t]) -> bool
    ensures { result ≡ RoundTwo.has_mark_past_first infos.now }
{
    if infos.is_empty() {
        return false;
    }
    has_mark(&infos[1..])
}

/// Whether one of these items is a mark. Looks one by one only at those from the first four on that
/// have one.
fn has_mark(infos: &[hb_glyph_info_t]) -> bool
    ensures { result ≡ list_any is_mark_item infos.now }
{
    let first = passed_over(infos, |info| info._hb_glyph_info_is_unicode_mark());
    has_mark_one_by_one(&infos[first..])
}

fn has_mark_one_by_one(infos: &[hb_glyph_info_t]) -> bool
    ensures { result ≡ list_any is_mark_item infos.now }
{
    infos
        .iter()
        .any(|info| info._hb_glyph_info_is_unicode_mark())
}
