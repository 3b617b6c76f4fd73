//! Round one: each item becomes the items of its character's expansion, or takes a glyph with the
//! variation selector after it.
//!
//! Whether the shortest or the longest expansion is taken depends on the mode, and on whether the
//! item stands in a sequence with marks. A sequence with marks that holds a variation selector
//! isn't expanded.
//!
//! `Length` counts what is emitted: the test is made when the items that a character becomes are
//! known, and no estimate refuses earlier.
ghost use Rattle.std.specs.Prelude.{◌≡◌, ◌<◌, ◌≤◌, ◌++◌, length, fold, vec_len, OnOk, IfOk};
ghost use Rattle.std.specs.Prelude.{Err};
ghost use Rattle.std.specs.List.{flat_map};
ghost use Rattle.shape_items.specs.Buffer.{cleared, limit_of};
ghost use Rattle.shape_normalize.specs.RoundOne.{emitted_for, expanded, round_one, seen_emitted};
ghost use Rattle.shape_normalize.specs.RoundOne.{ExpandsPastLimit};
ghost use Rattle.shape_normalize.specs.RoundOne.{seen_sequence, sequence_items, sequences};

mod selectors;
mod sequences;
mod variation_sequences;

use crate::ot_shape_normalize::mode::goes_short;
use crate::ot_shape_normalize::one_character::Emitted;
use crate::ot_shape_normalize::round_one::sequences::{
    count_alone, first_sequence, is_selector_sequence, is_with_marks,
};
use crate::ot_shape_normalize::round_one::variation_sequences::merge_variation_sequences;
pub(crate) use sequences::holds_selector;
use shape_buffer::buffer::{ShapeError, hb_buffer_t, hb_glyph_info_t};
use shape_buffer::interfaces::{hb_font_t, hb_ot_layout_t, hb_unicode_funcs_t};
use shape_plan::ot_shaper::hb_ot_shaper_t;
use shape_plan::shaping_types::{Meaning, PlanOf, ShapingTypes};
use std::alloc::Global;

impl Emitted {
    /// Emits what the items of a sequence become, each by itself. Refuses with `Length` if that
    /// passes the limit.
    fn put_items<T: ShapingTypes>(
        &mut self,
        plan: &PlanOf<'_, T>,
        face: &T::Face,
        buffer: &hb_buffer_t,
        sequence: &[hb_glyph_info_t],
        shortest: bool,
    ) -> Result<(), ShapeError>
        requires { vec_len self.old.infos ≤ self.old.limit }
        ensures infos { OnOk result (self.new.infos.items
            ≡ self.old.infos.items ++ flat_map (emitted_for
            (⟦<T as Meaning>⟧.rules plan.now face.now) buffer.now.invisible_glyph shortest)
            sequence.now) }
        ensures flags { OnOk result (self.new.scratch_flags ≡ fold (seen_emitted
            (⟦<T as Meaning>⟧.rules plan.now face.now) buffer.now.invisible_glyph shortest)
            self.old.scratch_flags sequence.now) }
        ensures within { OnOk result (vec_len self.new.infos ≤ self.new.limit) }
        ensures limit { OnOk result (self.new.limit ≡ self.old.limit) }
        ensures length { result ≡ Err ShapeError.Length
            → self.old.limit < length (self.old.infos.items ++ flat_map (emitted_for
            (⟦<T as Meaning>⟧.rules plan.now face.now) buffer.now.invisible_glyph shortest)
            sequence.now) }
    {
        let invisible = buffer.invisible_glyph();
        'items: for info in sequence {
            self.put_item::<T>(plan, face, info, shortest, invisible)?;
        }
        Ok(())
    }

    /// Emits what the sequences of one item at the beginning of a list become, in one loop over
    /// them, and gives what stands after them. Refuses with `Length` if that passes the limit.
    fn put_alone<'a, T: ShapingTypes>(
        &mut self,
        plan: &PlanOf<'_, T>,
        face: &T::Face,
        buffer: &hb_buffer_t,
        infos: &'a [hb_glyph_info_t],
    ) -> Result<&'a [hb_glyph_info_t], ShapeError>
        requires { vec_len self.old.infos ≤ self.old.limit }
        ensures infos { let rules = ⟦<T as Meaning>⟧.rules plan.now face.now in
            let invisible = buffer.now.invisible_glyph in
            let not_found = buffer.now.not_found_variation_selector_glyph in
            IfOk result (λ rest. self.new.infos.items ++ expanded rules invisible not_found rest.now
            ≡ self.old.infos.items ++ expanded rules invisible not_found infos.now) }
        ensures flags { let rules = ⟦<T as Meaning>⟧.rules plan.now face.now in
            let seen = seen_sequence rules buffer.now.invisible_glyph in
            IfOk result (λ rest. fold seen self.new.scratch_flags (sequences rest.now)
            ≡ fold seen self.old.scratch_flags (sequences infos.now)) }
        ensures within { OnOk result (vec_len self.new.infos ≤ self.new.limit) }
        ensures limit { OnOk result (self.new.limit ≡ self.old.limit) }
        ensures fewer { IfOk result (λ rest. length rest.now ≤ length infos.now) }
        ensures length { result ≡ Err ShapeError.Length
            → self.old.limit < length (self.old.infos.items ++ expanded
            (⟦<T as Meaning>⟧.rules plan.now face.now) buffer.now.invisible_glyph
            buffer.now.not_found_variation_selector_glyph infos.now) }
    {
        let count = count_alone(infos);
        if count == 0 {
            return Ok(infos);
        }
        let (alone, rest) = infos.split_at(count);
        let shortest = goes_short::<T>(plan, false);
        self.put_items::<T>(plan, face, buffer, alone, shortest)?;
        Ok(rest)
    }

    /// Emits what a sequence becomes. Refuses with `Length` if that passes the limit.
    fn put_sequence<T: ShapingTypes>(
        &mut self,
        plan: &PlanOf<'_, T>,
        face: &T::Face,
        buffer: &hb_buffer_t,
        sequence: &[hb_glyph_info_t],
    ) -> Result<(), ShapeError>
        requires { vec_len self.old.infos ≤ self.old.limit }
        ensures infos { OnOk result (self.new.infos.items ≡ self.old.infos.items ++ sequence_items
            (⟦<T as Meaning>⟧.rules plan.now face.now)
            buffer.now.invisible_glyph buffer.now.not_found_variation_selector_glyph sequence.now) }
        ensures flags { OnOk result (self.new.scratch_flags ≡ seen_sequence
            (⟦<T as Meaning>⟧.rules plan.now face.now)
            buffer.now.invisible_glyph self.old.scratch_flags sequence.now) }
        ensures within { OnOk result (vec_len self.new.infos ≤ self.new.limit) }
        ensures limit { OnOk result (self.new.limit ≡ self.old.limit) }
        ensures length { result ≡ Err ShapeError.Length
            → self.old.limit < length (self.old.infos.items ++ sequence_items
            (⟦<T as Meaning>⟧.rules plan.now face.now)
            buffer.now.invisible_glyph buffer.now.not_found_variation_selector_glyph sequence.now) }
    {
        if is_selector_sequence::<T::Unicode>(sequence) {
            return self.put_variants::<T::Unicode, T::Face>(face, buffer, sequence);
        }
        let shortest = goes_short::<T>(plan, is_with_marks(sequence));
        self.put_items::<T>(plan, face, buffer, sequence, shortest)
    }
}

/// What the items of a list become, in order. Refuses with `Length` if that passes the limit.
fn expand_all<T: ShapingTypes>(
    alloc: Global,
    plan: &PlanOf<'_, T>,
    face: &T::Face,
    buffer: &hb_buffer_t,
) -> Result<Emitted, ShapeError>
    ensures infos { IfOk result (λ out. out.infos.items ≡ expanded
        (⟦<T as Meaning>⟧.rules plan.now face.now)
        buffer.now.invisible_glyph buffer.now.not_found_variation_selector_glyph buffer.now.items) }
    ensures flags { IfOk result (λ out. out.scratch_flags ≡ fold
        (seen_sequence (⟦<T as Meaning>⟧.rules plan.now face.now) buffer.now.invisible_glyph)
        buffer.now.scratch_flags (sequences buffer.now.items)) }
    ensures within { IfOk result (λ out. vec_len out.infos ≤ limit_of buffer.now) }
    ensures length { result ≡ Err ShapeError.Length → limit_of buffer.now < length (expanded
        (⟦<T as Meaning>⟧.rules plan.now face.now)
        buffer.now.invisible_glyph buffer.now.not_found_variation_selector_glyph buffer.now.items) }
{
    let mut out = Emitted::begin(alloc, buffer);
    out.infos.reserve_exact(buffer.len())?;
    let mut rest = buffer.infos();
    'sequences: while let Some((sequence, after)) = first_sequence(rest) {
        out.put_sequence::<T>(plan, face, buffer, sequence)?;
        rest = out.put_alone::<T>(plan, face, buffer, after)?;
    }
    Ok(out)
}

/// Puts what the items become in their place. Refuses with `Length` if that passes the limit; after
/// a refusal the settings that clearing keeps are as they were.
pub(crate) fn expand<T: ShapingTypes>(
    alloc: Global,
    plan: &PlanOf<'_, T>,
    buffer: &mut hb_buffer_t,
    face: &T::Face,
) -> Result<(), ShapeError>
    ensures ok { OnOk result (buffer.new
        ≡ round_one (⟦<T as Meaning>⟧.rules plan.now face.now) buffer.old) }
    ensures within { OnOk result (length buffer.new.items ≤ limit_of buffer.old) }
    ensures length { result ≡ Err ShapeError.Length → ExpandsPastLimit
        (⟦<T as Meaning>⟧.rules plan.now face.now) buffer.old }
    ensures settings { cleared buffer.new ≡ cleared buffer.old }
{
    merge_variation_sequences::<T::Unicode, T::Face>(alloc, face, buffer)?;
    let expanded = expand_all::<T>(alloc, plan, face, buffer)?;
    let scratch_flags = expanded.scratch_flags;
    buffer.replace_infos(expanded.infos)?;
    buffer.set_scratch_flags(scratch_flags);
    Ok(())
}
