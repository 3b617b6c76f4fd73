//! Normalising one character: its item becomes the items of an expansion, or keeps the character.
//!
//! The mode says which expansion is asked for, the shortest or the longest ([`Shortest`]). An item
//! that has a glyph and is asked for the shortest stays; any other is expanded along the chain of
//! its splits, if it can be. An item without a glyph that has no expansion either may take that of
//! another character: a space that of U+0020, or the invisible glyph, and remembers how wide it is;
//! U+2011 that of U+2010. No shaper has a say in that, so the functions for one item that stays
//! state it by the rules without one.
ghost use Rattle.std.specs.Prelude.{◌≡◌, ◌<◌, ◌≤◌, [], ◌∷◌, ◌++◌, length, map, reverse, vec_len};
ghost use Rattle.std.specs.Prelude.{if◌then◌else◌, is_ok, Bool, IsTrue, OnOk, IfOk, IfSome};
ghost use Rattle.std.specs.Prelude.{IfNone, Err, None};
ghost use Rattle.shape_items.specs.Buffer.{limit_of};
ghost use Rattle.shape_items.specs.UnicodeProps.{with_scratch_of};
ghost use Rattle.shape_plan.specs.Rules;
ghost use Rattle.shape_plan.specs.Rules.{rules_without_shaper};
ghost use Rattle.shape_normalize.specs.OneWalk.{shortest_of};
ghost use Rattle.shape_normalize.specs.Recast;
ghost use Rattle.shape_normalize.specs.RoundOne;

use crate::ot_shape_normalize::decompose::{Expansion, decompose};
use crate::ot_shape_normalize::mode::goes_short;
use crate::ot_shape_normalize::recast::{MappedChar, glyph_index, recast};
use bitflags::Flags;
use shape_buffer::buffer::{
    GlyphId, ScratchFlags, ShapeError, hb_buffer_t, hb_glyph_info_t, hb_unicode_general_category_t,
};
use shape_buffer::interfaces::space_types::NOT_SPACE;
use shape_buffer::interfaces::{hb_font_t, hb_ot_layout_t, hb_unicode_funcs_t};
use shape_plan::ot_shaper::hb_ot_shaper_t;
use shape_plan::shaping_types::{Meaning, PlanOf, ShapingTypes};
use std::alloc::{AllocError, Global};

const SPACE: char = ' ';

const HYPHEN: char = '\u{2010}';

const NON_BREAKING_HYPHEN: char = '\u{2011}';

/// Whether the shortest expansion is asked for, of items by themselves and of those that stand in
/// sequences with marks; the mode is asked once for a whole text.
#[derive(Clone, Copy)]
pub(crate) struct Shortest {
    alone: bool,
    with_marks: bool,
}

impl Shortest {
    pub(crate) fn of<T: ShapingTypes>(plan: &PlanOf<'_, T>) -> Self
        ensures { result
            ≡ shortest_of (Rules.goes_short
            (Rules.used_mode T.Shaper.constants.preference plan.now)) }
    {
        Shortest {
            alone: goes_short::<T>(plan, false),
            with_marks: goes_short::<T>(plan, true),
        }
    }

    /// Whether it is asked for, by whether an item stands in a sequence with marks.
    pub(crate) fn is_asked(&self, with_marks: bool) -> bool
        ensures { (short : Bool → Bool) → self.now ≡ shortest_of short
            → result ≡ short with_marks }
    {
        if with_marks {
            self.with_marks
        } else {
            self.alone
        }
    }
}

/// The glyph that replaces a space: that of U+0020, else the invisible one.
fn space_glyph<U: hb_unicode_funcs_t, F: hb_font_t>(
    face: &F,
    invisible: Option<GlyphId>,
) -> Option<GlyphId>
    ensures { result
        ≡ RoundOne.space_glyph (rules_without_shaper U.unicode (F.face face.now)) invisible }
{
    face.get_nominal_glyph(SPACE).or(invisible)
}

/// Whether an item is a space that another glyph replaces. Its own category counts, which a shaper
/// may have set.
fn is_fallback_space<U: hb_unicode_funcs_t, F: hb_font_t>(
    face: &F,
    info: &hb_glyph_info_t,
    invisible: Option<GlyphId>,
) -> bool
    ensures { result
        ≡ RoundOne.is_fallback_space (rules_without_shaper U.unicode (F.face face.now))
        invisible info.now }
{
    let separates = matches!(
        info._hb_glyph_info_get_general_category(),
        hb_unicode_general_category_t::SpaceSeparator
    );
    separates
        && U::space_fallback(info.codepoint) != NOT_SPACE
        && space_glyph::<U, F>(face, invisible).is_some()
}

/// The index of the glyph of an item whose character has none, 0 if nothing replaces it.
fn fallback_index<U: hb_unicode_funcs_t, F: hb_font_t>(
    face: &F,
    info: &hb_glyph_info_t,
    invisible: Option<GlyphId>,
) -> u32
    ensures { result
        ≡ RoundOne.fallback_index (rules_without_shaper U.unicode (F.face face.now))
        invisible info.now }
{
    if is_fallback_space::<U, F>(face, info, invisible) {
        return space_glyph::<U, F>(face, invisible).map_or(0, |glyph| glyph.0);
    }
    if info.codepoint == NON_BREAKING_HYPHEN {
        return glyph_index(face, HYPHEN);
    }
    0
}

/// An item that keeps its character, for which the face has no glyph. A call of its own, so that an
/// item with a glyph isn't charged for what this keeps.
#[inline(never)]
fn lacking_item<U: hb_unicode_funcs_t, F: hb_font_t>(
    face: &F,
    info: &hb_glyph_info_t,
    invisible: Option<GlyphId>,
    scratch_flags: &mut ScratchFlags,
) -> hb_glyph_info_t
    requires { (F.face face.now).nominal_glyph info.now.codepoint ≡ None }
    ensures item { result
        ≡ RoundOne.whole_item (rules_without_shaper U.unicode (F.face face.now))
        invisible info.now }
    ensures flags { scratch_flags.new ≡ (if RoundOne.remembers_space
        (rules_without_shaper U.unicode (F.face face.now)) invisible info.now
        then RoundOne.with_space_fallback scratch_flags.old else scratch_flags.old) }
{
    let mut whole = *info;
    whole.glyph_index = fallback_index::<U, F>(face, info, invisible);
    let is_space = is_fallback_space::<U, F>(face, info, invisible);
    if is_space {
        whole._hb_glyph_info_set_space_type(U::space_fallback(info.codepoint));
        scratch_flags.insert(ScratchFlags::HAS_SPACE_FALLBACK);
    }
    whole
}

/// An item that keeps its character, with its glyph, or with what replaces that; `lacks` says that
/// it is known to have none, and the face isn't asked again.
#[inline(always)]
fn kept_item<U: hb_unicode_funcs_t, F: hb_font_t>(
    face: &F,
    info: &hb_glyph_info_t,
    invisible: Option<GlyphId>,
    lacks: bool,
    scratch_flags: &mut ScratchFlags,
) -> hb_glyph_info_t
    requires { IsTrue lacks → (F.face face.now).nominal_glyph info.now.codepoint ≡ None }
    ensures item { result
        ≡ RoundOne.whole_item (rules_without_shaper U.unicode (F.face face.now))
        invisible info.now }
    ensures flags { scratch_flags.new ≡ (if RoundOne.remembers_space
        (rules_without_shaper U.unicode (F.face face.now)) invisible info.now
        then RoundOne.with_space_fallback scratch_flags.old else scratch_flags.old) }
{
    if lacks {
        return lacking_item::<U, F>(face, info, invisible, scratch_flags);
    }
    match face.get_nominal_glyph(info.codepoint) {
        Some(GlyphId(glyph)) => with_glyph(info, glyph),
        None => lacking_item::<U, F>(face, info, invisible, scratch_flags),
    }
}

/// An item with this glyph. Part of its callers, so that the loop over a text writes the index
/// alone.
#[inline(always)]
fn with_glyph(info: &hb_glyph_info_t, glyph: u32) -> hb_glyph_info_t
    ensures { result ≡ record info.now { glyph_index = glyph } }
{
    let mut whole = *info;
    whole.glyph_index = glyph;
    whole
}

/// Appends an item. Where there is room, which is nearly always, no call is made.
#[inline(always)]
fn push_item(infos: &mut Vec<hb_glyph_info_t>, item: hb_glyph_info_t) -> Result<(), AllocError>
    ensures { infos.new.items
        ≡ (if is_ok result then infos.old.items ++ item ∷ [] else infos.old.items) }
{
    if infos.len() < infos.capacity() {
        infos.push_reserved(item);
        return Ok(());
    }
    infos.push(item)?;
    Ok(())
}

/// The items that were emitted, at most `limit` of them, and the scratch flags that their
/// characters show.
#[derive(Drop)]
pub(crate) struct Emitted {
    pub(crate) infos: Vec<hb_glyph_info_t>,
    pub(crate) limit: usize,
    pub(crate) scratch_flags: ScratchFlags,
    /// Room for what an item becomes.
    pub(crate) expansion: Expansion,
}

impl Emitted {
    /// No item, within the limit of a buffer and with its scratch flags. Takes no memory.
    pub(crate) fn begin(alloc: Global, buffer: &hb_buffer_t) -> Self
        ensures infos { result.infos.items ≡ [] }
        ensures limit { result.limit ≡ limit_of buffer.now }
        ensures flags { result.scratch_flags ≡ buffer.now.scratch_flags }
    {
        Emitted {
            infos: Vec::new(alloc),
            limit: buffer.length_limit(),
            scratch_flags: buffer.scratch_flags(),
            expansion: Expansion::new(alloc),
        }
    }

    /// The item with its glyph, if it keeps its character; none if it expands, and then `expansion`
    /// is what it becomes. The face is asked once about an item that has a glyph and keeps it. Part
    /// of the loops that call it: most items of a text have a glyph, and no more is done for one.
    #[inline(always)]
    pub(crate) fn keep_or_expand<T: ShapingTypes>(
        &mut self,
        plan: &PlanOf<'_, T>,
        face: &T::Face,
        info: &hb_glyph_info_t,
        shortest: bool,
        invisible: Option<GlyphId>,
    ) -> Result<Option<hb_glyph_info_t>, AllocError>
        ensures item { IfOk result (λ found. IfSome found (λ whole. RoundOne.emitted_for
            (⟦<T as Meaning>⟧.rules plan.now face.now) invisible shortest info.now ≡ whole ∷ [])) }
        ensures flags { IfOk result (λ found. IfSome found (λ _. self.new.scratch_flags
            ≡ RoundOne.seen_emitted (⟦<T as Meaning>⟧.rules plan.now face.now)
            invisible shortest self.old.scratch_flags info.now)) }
        ensures same { IfOk result (λ found.
            IfNone found (self.new.scratch_flags ≡ self.old.scratch_flags)) }
        ensures parts { IfOk result (λ found. IfNone found (RoundOne.emitted_for
            (⟦<T as Meaning>⟧.rules plan.now face.now) invisible shortest info.now
            ≡ map (Recast.recast T.Unicode.unicode info.now)
            (self.new.expansion.first ∷ reverse self.new.expansion.seconds.items))) }
        ensures seen { IfOk result (λ found. IfNone found (RoundOne.seen_emitted
            (⟦<T as Meaning>⟧.rules plan.now face.now)
            invisible shortest self.old.scratch_flags info.now
            ≡ Recast.seen_mapped T.Unicode.unicode self.old.scratch_flags
            (self.new.expansion.first ∷ reverse self.new.expansion.seconds.items))) }
        ensures infos { self.new.infos ≡ self.old.infos }
        ensures limit { self.new.limit ≡ self.old.limit }
    {
        if shortest {
            if let Some(GlyphId(glyph)) = face.get_nominal_glyph(info.codepoint) {
                return Ok(Some(with_glyph(info, glyph)));
            }
        }
        self.expand_or_keep::<T>(plan, face, info, shortest, invisible)
    }

    /// The same of an item that has no glyph, or whose longest expansion is asked for.
    #[inline(always)]
    fn expand_or_keep<T: ShapingTypes>(
        &mut self,
        plan: &PlanOf<'_, T>,
        face: &T::Face,
        info: &hb_glyph_info_t,
        shortest: bool,
        invisible: Option<GlyphId>,
    ) -> Result<Option<hb_glyph_info_t>, AllocError>
        requires { IsTrue shortest → (T.Face.face face.now).nominal_glyph info.now.codepoint ≡ None }
        ensures item { IfOk result (λ found. IfSome found (λ whole. RoundOne.emitted_for
            (⟦<T as Meaning>⟧.rules plan.now face.now) invisible shortest info.now ≡ whole ∷ [])) }
        ensures flags { IfOk result (λ found. IfSome found (λ _. self.new.scratch_flags
            ≡ RoundOne.seen_emitted (⟦<T as Meaning>⟧.rules plan.now face.now)
            invisible shortest self.old.scratch_flags info.now)) }
        ensures same { IfOk result (λ found.
            IfNone found (self.new.scratch_flags ≡ self.old.scratch_flags)) }
        ensures parts { IfOk result (λ found. IfNone found (RoundOne.emitted_for
            (⟦<T as Meaning>⟧.rules plan.now face.now) invisible shortest info.now
            ≡ map (Recast.recast T.Unicode.unicode info.now)
            (self.new.expansion.first ∷ reverse self.new.expansion.seconds.items))) }
        ensures seen { IfOk result (λ found. IfNone found (RoundOne.seen_emitted
            (⟦<T as Meaning>⟧.rules plan.now face.now)
            invisible shortest self.old.scratch_flags info.now
            ≡ Recast.seen_mapped T.Unicode.unicode self.old.scratch_flags
            (self.new.expansion.first ∷ reverse self.new.expansion.seconds.items))) }
        ensures infos { self.new.infos ≡ self.old.infos }
        ensures limit { self.new.limit ≡ self.old.limit }
    {
        if decompose::<T>(plan, face, info.codepoint, shortest, &mut self.expansion)? {
            return Ok(None);
        }
        let flags = &mut self.scratch_flags;
        let whole = kept_item::<T::Unicode, T::Face>(face, info, invisible, shortest, flags);
        Ok(Some(whole))
    }

    /// Emits an item of an expansion.
    fn put_char<U: hb_unicode_funcs_t>(
        &mut self,
        info: &hb_glyph_info_t,
        mapped: MappedChar,
    ) -> Result<(), AllocError>
        ensures infos { OnOk result (self.new.infos.items
            ≡ self.old.infos.items ++ Recast.recast U.unicode info.now mapped ∷ []) }
        ensures flags { OnOk result (self.new.scratch_flags
            ≡ with_scratch_of U.unicode mapped.c self.old.scratch_flags) }
        ensures expansion { self.new.expansion ≡ self.old.expansion }
        ensures limit { self.new.limit ≡ self.old.limit }
    {
        let copy = recast::<U>(info, mapped, &mut self.scratch_flags);
        push_item(&mut self.infos, copy)?;
        Ok(())
    }

    /// Emits the items of the expansion, which keeps no second part.
    fn put_expansion<U: hb_unicode_funcs_t>(
        &mut self,
        info: &hb_glyph_info_t,
    ) -> Result<(), AllocError>
        ensures infos { OnOk result (self.new.infos.items ≡ self.old.infos.items
            ++ map (Recast.recast U.unicode info.now)
            (self.old.expansion.first ∷ reverse self.old.expansion.seconds.items)) }
        ensures flags { OnOk result (self.new.scratch_flags
            ≡ Recast.seen_mapped U.unicode self.old.scratch_flags
            (self.old.expansion.first ∷ reverse self.old.expansion.seconds.items)) }
        ensures limit { OnOk result (self.new.limit ≡ self.old.limit) }
    {
        self.put_char::<U>(info, self.expansion.first)?;
        while let Some(part) = self.expansion.seconds.pop() {
            self.put_char::<U>(info, part)?;
        }
        Ok(())
    }

    /// Emits what an item becomes. Refuses with `Length` if that passes the limit. Part of the
    /// loops that call it, for each item of a text.
    #[inline(always)]
    pub(crate) fn put_item<T: ShapingTypes>(
        &mut self,
        plan: &PlanOf<'_, T>,
        face: &T::Face,
        info: &hb_glyph_info_t,
        shortest: bool,
        invisible: Option<GlyphId>,
    ) -> Result<(), ShapeError>
        requires { vec_len self.old.infos ≤ self.old.limit }
        ensures infos { OnOk result (self.new.infos.items
            ≡ self.old.infos.items ++ RoundOne.emitted_for
            (⟦<T as Meaning>⟧.rules plan.now face.now) invisible shortest info.now) }
        ensures flags { OnOk result (self.new.scratch_flags ≡ RoundOne.seen_emitted
            (⟦<T as Meaning>⟧.rules plan.now face.now)
            invisible shortest self.old.scratch_flags info.now) }
        ensures within { OnOk result (vec_len self.new.infos ≤ self.new.limit) }
        ensures limit { OnOk result (self.new.limit ≡ self.old.limit) }
        ensures length { result ≡ Err ShapeError.Length
            → self.old.limit < length (self.old.infos.items ++ RoundOne.emitted_for
            (⟦<T as Meaning>⟧.rules plan.now face.now) invisible shortest info.now) }
    {
        let room = self.limit - self.infos.len();
        let found = self.keep_or_expand::<T>(plan, face, info, shortest, invisible)?;
        let Some(whole) = found else {
            if room <= self.expansion.seconds.len() {
                return Err(ShapeError::Length);
            }
            self.put_expansion::<T::Unicode>(info)?;
            return Ok(());
        };
        if room == 0 {
            return Err(ShapeError::Length);
        }
        push_item(&mut self.infos, whole)?;
        Ok(())
    }
}
