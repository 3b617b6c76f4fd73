//! Rounds one and two in one walk, for a list whose sequences are all expanded, by a plan without
//! the hook that reorders, or without a mark past the first item: in place, up to the first item
//! that expands, and from there on into a list of its own.
//!
//! Most texts become no longer. So each item takes its glyph where it stands, and no memory is
//! taken, as long as nothing expands. If marks stand past the first item, the walk follows the runs
//! of what it emits. The spans that their order moves are merged in one call after the walk, since
//! one by one they would write the items of clusters that chain again and again.
ghost use Rattle.std.specs.Prelude.{◌≡◌, ◌≤◌, ◌<◌, ◌==◌, ◌++◌, drop, take, length, vec_len};
ghost use Rattle.std.specs.Prelude.{IfOk, IsOkUnless, OnOk, Err, [], map, true};
ghost use Rattle.shape_items.specs.Buffer.{cleared, limit_of};
ghost use Rattle.shape_items.specs.Items.{ccc_of_item};
ghost use Rattle.shape_normalize.specs.RoundOne.{ExpandsPastLimit, round_one};
ghost use Rattle.shape_normalize.specs.OneWalk.{FollowsRuns, HasNoSelectorSequence};
ghost use Rattle.shape_normalize.specs.OneWalk.{expanded_after, seen_after, stands_with_marks};

use crate::ot_shape_normalize::one_character::{Emitted, Shortest};
use crate::ot_shape_normalize::runs::FollowedRuns;
use shape_buffer::buffer::{ShapeError, hb_buffer_t, hb_glyph_info_t};
use shape_buffer::interfaces::{hb_font_t, hb_ot_layout_t, hb_unicode_funcs_t};
use shape_plan::ot_shaper::hb_ot_shaper_t;
use shape_plan::shaping_types::{Meaning, PlanOf, ShapingTypes};
use std::alloc::Global;

/// Whether the item at a place stands in a sequence with marks.
fn stands_with_marks_at(infos: &[hb_glyph_info_t], i: usize) -> bool
    requires { i < length infos.now }
    ensures { result ≡ stands_with_marks (i == 0) (drop i infos.now) }
{
    let is_after = infos[i]._hb_glyph_info_is_unicode_mark() && i != 0;
    is_after || i + 1 < infos.len() && infos[i + 1]._hb_glyph_info_is_unicode_mark()
}

/// Gives each item its glyph, up to the first that expands, and follows the runs, if `follows` says
/// so. Returns the place of that one, or the length. Emits nothing; `out` has the buffer's scratch
/// flags.
#[inline(always)]
fn place_glyphs<T: ShapingTypes>(
    plan: &PlanOf<'_, T>,
    face: &T::Face,
    buffer: &mut hb_buffer_t,
    out: &mut Emitted,
    follows: bool,
    runs: &mut FollowedRuns,
) -> Result<usize, ShapeError>
    requires flags { out.old.scratch_flags ≡ buffer.old.scratch_flags }
    requires runs { FollowsRuns [] runs.old }
    ensures placed { let rules = ⟦<T as Meaning>⟧.rules plan.now face.now in
        IfOk result (λ n. take n buffer.new.items
        ++ expanded_after rules buffer.old.invisible_glyph (n == 0) (drop n buffer.new.items)
        ≡ expanded_after rules buffer.old.invisible_glyph true buffer.old.items) }
    ensures seen { let rules = ⟦<T as Meaning>⟧.rules plan.now face.now in
        IfOk result (λ n. seen_after rules buffer.old.invisible_glyph (n == 0)
        buffer.new.scratch_flags (drop n buffer.new.items)
        ≡ seen_after rules buffer.old.invisible_glyph true
        buffer.old.scratch_flags buffer.old.items) }
    ensures within { IfOk result (λ n. n ≤ length buffer.new.items) }
    ensures rest { buffer.new ≡ record buffer.old {
      items = buffer.new.items;
      scratch_flags = buffer.new.scratch_flags;
    } }
    ensures infos { out.new.infos ≡ out.old.infos }
    ensures limit { out.new.limit ≡ out.old.limit }
    ensures flags { OnOk result (out.new.scratch_flags ≡ buffer.new.scratch_flags) }
    ensures runs { IfOk result (λ n. follows ≡ true
        → FollowsRuns (map ccc_of_item (take n buffer.new.items)) runs.new) }
    ensures memory { IsOkUnless result ShapeError.Memory }
{
    let shortest = Shortest::of::<T>(plan);
    let invisible = buffer.invisible_glyph();
    for i in 0..buffer.len() {
        let infos = buffer.infos();
        let is_short = shortest.is_asked(stands_with_marks_at(infos, i));
        let found = out.keep_or_expand::<T>(plan, face, &infos[i], is_short, invisible)?;
        let Some(whole) = found else {
            buffer.set_scratch_flags(out.scratch_flags);
            return Ok(i);
        };
        buffer.set_info(i, whole);
        runs.follow_at(follows, buffer.infos(), i)?;
    }
    buffer.set_scratch_flags(out.scratch_flags);
    Ok(buffer.len())
}

impl Emitted {
    /// Emits the first items of a list as they are, with room for half as many more as those after
    /// them. Refuses with `Length` if they pass the limit.
    fn put_placed(&mut self, infos: &[hb_glyph_info_t], from: usize) -> Result<(), ShapeError>
        requires none { self.old.infos.items ≡ [] }
        requires from { from ≤ length infos.now }
        ensures infos { OnOk result (self.new.infos.items ≡ take from infos.now) }
        ensures within { OnOk result (vec_len self.new.infos ≤ self.new.limit) }
        ensures limit { self.new.limit ≡ self.old.limit }
        ensures flags { self.new.scratch_flags ≡ self.old.scratch_flags }
        ensures length { result ≡ Err ShapeError.Length → self.old.limit < from }
    {
        if self.limit < from {
            return Err(ShapeError::Length);
        }
        let room = infos.len().saturating_add((infos.len() - from) / 2);
        self.infos.reserve_exact(room)?;
        self.infos.extend_from_slice(&infos[..from])?;
        Ok(())
    }

    /// Emits what the items after those that were emitted become, and follows the runs of that, if
    /// `follows` says so. Refuses with `Length` if that passes the limit.
    fn put_rest<T: ShapingTypes>(
        &mut self,
        plan: &PlanOf<'_, T>,
        face: &T::Face,
        buffer: &hb_buffer_t,
        follows: bool,
        runs: &mut FollowedRuns,
    ) -> Result<(), ShapeError>
        requires placed { self.old.infos.items ≡ take (vec_len self.old.infos) buffer.now.items }
        requires from { vec_len self.old.infos ≤ length buffer.now.items }
        requires within { vec_len self.old.infos ≤ self.old.limit }
        requires runs { follows ≡ true
            → FollowsRuns (map ccc_of_item self.old.infos.items) runs.old }
        ensures infos { let rules = ⟦<T as Meaning>⟧.rules plan.now face.now in
            let from = vec_len self.old.infos in
            OnOk result (self.new.infos.items ≡ self.old.infos.items ++ expanded_after rules
            buffer.now.invisible_glyph (from == 0) (drop from buffer.now.items)) }
        ensures flags { let rules = ⟦<T as Meaning>⟧.rules plan.now face.now in
            let from = vec_len self.old.infos in
            OnOk result (self.new.scratch_flags ≡ seen_after rules buffer.now.invisible_glyph
            (from == 0) self.old.scratch_flags (drop from buffer.now.items)) }
        ensures within { OnOk result (vec_len self.new.infos ≤ self.old.limit) }
        ensures length { let rules = ⟦<T as Meaning>⟧.rules plan.now face.now in
            let from = vec_len self.old.infos in
            result ≡ Err ShapeError.Length → self.old.limit
            < length (self.old.infos.items ++ expanded_after rules
            buffer.now.invisible_glyph (from == 0) (drop from buffer.now.items)) }
        ensures runs { OnOk result (follows ≡ true
            → FollowsRuns (map ccc_of_item self.new.infos.items) runs.new) }
    {
        let shortest = Shortest::of::<T>(plan);
        let infos = buffer.infos();
        let invisible = buffer.invisible_glyph();
        for i in self.infos.len()..infos.len() {
            let is_short = shortest.is_asked(stands_with_marks_at(infos, i));
            let before = self.infos.len();
            self.put_item::<T>(plan, face, &infos[i], is_short, invisible)?;
            runs.follow_from(follows, &self.infos, before)?;
        }
        Ok(())
    }
}

/// Puts what the items become in their place, if each sequence is expanded, and follows the runs of
/// that, if `follows` says so. Refuses with `Length` if that passes the limit; after a refusal the
/// settings that clearing keeps are as they were. It is compiled for each of the two by itself.
#[inline(always)]
pub(crate) fn expand_in_one_walk<T: ShapingTypes>(
    alloc: Global,
    plan: &PlanOf<'_, T>,
    buffer: &mut hb_buffer_t,
    face: &T::Face,
    follows: bool,
    runs: &mut FollowedRuns,
) -> Result<(), ShapeError>
    requires expands { HasNoSelectorSequence T.Unicode.unicode buffer.old.items }
    requires runs { FollowsRuns [] runs.old }
    ensures ok { OnOk result (buffer.new
        ≡ round_one (⟦<T as Meaning>⟧.rules plan.now face.now) buffer.old) }
    ensures within { OnOk result (length buffer.new.items ≤ limit_of buffer.old) }
    ensures length { result ≡ Err ShapeError.Length → ExpandsPastLimit
        (⟦<T as Meaning>⟧.rules plan.now face.now) buffer.old }
    ensures settings { cleared buffer.new ≡ cleared buffer.old }
    ensures runs { OnOk result (follows ≡ true
        → FollowsRuns (map ccc_of_item buffer.new.items) runs.new) }
{
    let mut out = Emitted::begin(alloc, buffer);
    let from = place_glyphs::<T>(plan, face, buffer, &mut out, follows, runs)?;
    if from == buffer.len() {
        if out.limit < from {
            return Err(ShapeError::Length);
        }
        buffer.clear_positions();
        return Ok(());
    }
    out.put_placed(buffer.infos(), from)?;
    out.put_rest::<T>(plan, face, buffer, follows, runs)?;
    let scratch_flags = out.scratch_flags;
    buffer.replace_infos(out.infos)?;
    buffer.set_scratch_flags(scratch_flags);
    Ok(())
}
