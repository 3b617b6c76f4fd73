//! Sequences that hold a variation selector: an item and its selector become one item if the face
//! has a glyph for the two; all other items stay.
ghost use Rattle.std.specs.Prelude.{◌≡◌, ◌<◌, ◌≤◌, ◌∷◌, ◌++◌, length, map, fold, vec_len, OnOk};
ghost use Rattle.std.specs.Prelude.{Err};
ghost use Rattle.std.specs.List.{flat_map};
ghost use Rattle.shape_normalize.specs.RoundOne.{marked_selector, skipped_item, seen_variant};
ghost use Rattle.shape_normalize.specs.RoundOne.{variant_items, variants, with_selector_fallback};

use crate::ot_shape_normalize::one_character::Emitted;
use crate::ot_shape_normalize::round_one::sequences::first_variant;
use bitflags::Flags;
use shape_buffer::buffer::{GlyphId, ScratchFlags, ShapeError, hb_buffer_t, hb_glyph_info_t};
use shape_buffer::interfaces::{hb_font_t, hb_unicode_funcs_t};
use std::alloc::AllocError;

/// The item with the glyph of its character, or as it is if it has none.
fn skipped<F: hb_font_t>(face: &F, info: &hb_glyph_info_t) -> hb_glyph_info_t
    ensures { result ≡ skipped_item (F.face face.now).nominal_glyph info.now }
{
    let mut skipped = *info;
    if let Some(GlyphId(glyph)) = face.get_nominal_glyph(info.codepoint) {
        skipped.glyph_index = glyph;
    }
    skipped
}

/// Adds items that stay.
fn push_skipped<F: hb_font_t>(
    out: &mut Vec<hb_glyph_info_t>,
    face: &F,
    infos: &[hb_glyph_info_t],
) -> Result<(), AllocError>
    ensures { OnOk result (out.new.items
        ≡ out.old.items ++ map (skipped_item (F.face face.now).nominal_glyph) infos.now) }
{
    for info in infos {
        out.push(skipped(face, info))?;
    }
    Ok(())
}

/// Marks a selector that made no glyph with its item; if the buffer has a not-found glyph for
/// selectors, it is no longer ignorable.
fn mark_selector(info: &mut hb_glyph_info_t, not_found: Option<GlyphId>)
    ensures { info.new ≡ marked_selector not_found info.old }
{
    info._hb_glyph_info_set_selector_mark(true);
    if not_found.is_some() {
        info._hb_glyph_info_set_ignorable(false);
    }
}

impl Emitted {
    /// Emits an item that became one with its selector, and those after them.
    fn put_variation_sequence<F: hb_font_t>(
        &mut self,
        face: &F,
        info: &hb_glyph_info_t,
        glyph: GlyphId,
        rest: &[hb_glyph_info_t],
    ) -> Result<(), AllocError>
        ensures infos { OnOk result (self.new.infos.items ≡ self.old.infos.items
            ++ record info.now { glyph_index = glyph.0 }
            ∷ map (skipped_item (F.face face.now).nominal_glyph) rest.now) }
        ensures flags { self.new.scratch_flags ≡ self.old.scratch_flags }
        ensures limit { self.new.limit ≡ self.old.limit }
    {
        let mut one = *info;
        one.glyph_index = glyph.0;
        self.infos.push(one)?;
        push_skipped(&mut self.infos, face, rest)?;
        Ok(())
    }

    /// Emits an item, its selector that makes no glyph with it, and those after them.
    fn put_apart<F: hb_font_t>(
        &mut self,
        face: &F,
        info: &hb_glyph_info_t,
        selector: &hb_glyph_info_t,
        rest: &[hb_glyph_info_t],
        not_found: Option<GlyphId>,
    ) -> Result<(), AllocError>
        ensures infos { OnOk result (self.new.infos.items ≡ self.old.infos.items
            ++ skipped_item (F.face face.now).nominal_glyph info.now
            ∷ marked_selector not_found (skipped_item (F.face face.now).nominal_glyph selector.now)
            ∷ map (skipped_item (F.face face.now).nominal_glyph) rest.now) }
        ensures flags { self.new.scratch_flags ≡ with_selector_fallback self.old.scratch_flags }
        ensures limit { self.new.limit ≡ self.old.limit }
    {
        self.scratch_flags
            .insert(ScratchFlags::HAS_VARIATION_SELECTOR_FALLBACK);
        let mut marked = skipped(face, selector);
        mark_selector(&mut marked, not_found);
        self.infos.push(skipped(face, info))?;
        self.infos.push(marked)?;
        push_skipped(&mut self.infos, face, rest)?;
        Ok(())
    }

    /// Emits what an item and the selectors directly after it become. Refuses with `Length` if that
    /// passes the limit.
    fn put_variant<F: hb_font_t>(
        &mut self,
        face: &F,
        part: &[hb_glyph_info_t],
        not_found: Option<GlyphId>,
    ) -> Result<(), ShapeError>
        requires { vec_len self.old.infos ≤ self.old.limit }
        ensures infos { OnOk result (self.new.infos.items
            ≡ self.old.infos.items ++ variant_items (F.face face.now) not_found part.now) }
        ensures flags { OnOk result (self.new.scratch_flags
            ≡ seen_variant (F.face face.now) self.old.scratch_flags part.now) }
        ensures within { OnOk result (vec_len self.new.infos ≤ self.new.limit) }
        ensures limit { OnOk result (self.new.limit ≡ self.old.limit) }
        ensures length { result ≡ Err ShapeError.Length
            → self.old.limit < length (self.old.infos.items
            ++ variant_items (F.face face.now) not_found part.now) }
    {
        let room = self.limit - self.infos.len();
        let [info, selector, rest @ ..] = part else {
            if room < part.len() {
                return Err(ShapeError::Length);
            }
            push_skipped(&mut self.infos, face, part)?;
            return Ok(());
        };
        let glyph = face.glyph_variation_index(info.codepoint, selector.codepoint);
        if room < part.len() - usize::from(glyph.is_some()) {
            return Err(ShapeError::Length);
        }
        match glyph {
            Some(glyph) => self.put_variation_sequence(face, info, glyph, rest)?,
            None => self.put_apart(face, info, selector, rest, not_found)?,
        }
        Ok(())
    }

    /// Emits what a sequence that holds a variation selector becomes. Refuses with `Length` if that
    /// passes the limit.
    pub(super) fn put_variants<U: hb_unicode_funcs_t, F: hb_font_t>(
        &mut self,
        face: &F,
        buffer: &hb_buffer_t,
        sequence: &[hb_glyph_info_t],
    ) -> Result<(), ShapeError>
        requires { vec_len self.old.infos ≤ self.old.limit }
        ensures infos { OnOk result (self.new.infos.items ≡ self.old.infos.items
            ++ flat_map (variant_items (F.face face.now)
            buffer.now.not_found_variation_selector_glyph) (variants U.unicode sequence.now)) }
        ensures flags { OnOk result (self.new.scratch_flags
            ≡ fold (seen_variant (F.face face.now)) self.old.scratch_flags
            (variants U.unicode sequence.now)) }
        ensures within { OnOk result (vec_len self.new.infos ≤ self.new.limit) }
        ensures limit { OnOk result (self.new.limit ≡ self.old.limit) }
        ensures length { result ≡ Err ShapeError.Length
            → self.old.limit < length (self.old.infos.items
            ++ flat_map (variant_items (F.face face.now)
            buffer.now.not_found_variation_selector_glyph) (variants U.unicode sequence.now)) }
    {
        let not_found = buffer.not_found_variation_selector_glyph();
        let mut rest = sequence;
        'parts: while let Some((part, after)) = first_variant::<U>(rest) {
            self.put_variant(face, part, not_found)?;
            rest = after;
        }
        Ok(())
    }
}
