//! Rounds one and two: in one walk, or one after the other if marks stand past the first item and a
//! sequence holds a variation selector or a shaper reorders marks.
//!
//! A variation sequence is merged before it becomes one item, and a shaper that reorders may merge
//! what a later run takes in: both concern the whole list, so round one is over before round two
//! begins.
//!
//! Both ways have one definition, what the two rounds make. Which is taken is decided before the
//! first write, since items that stay keep the glyph index that they had.
ghost use Rattle.std.specs.Prelude.{◌≡◌, ◌≤◌, [], length, map, OnOk, Err, if◌then◌else◌, None};
ghost use Rattle.std.specs.Prelude.{true, false};
ghost use Rattle.shape_items.specs.Buffer.{cleared, limit_of};
ghost use Rattle.shape_items.specs.Items.{ccc_of_item};
ghost use Rattle.shape_normalize.specs.OneWalk.{FollowsRuns, HasNoSelectorSequence};
ghost use Rattle.shape_normalize.specs.RoundOne.{ExpandsPastLimit, round_one};
ghost use Rattle.shape_normalize.specs.RoundTwo;

use crate::ot_shape_normalize::one_walk::expand_in_one_walk;
use crate::ot_shape_normalize::round_one::{expand, holds_selector};
use crate::ot_shape_normalize::round_two::{order_runs, reorders_marks};
use crate::ot_shape_normalize::runs::FollowedRuns;
use shape_buffer::buffer::{ShapeError, hb_buffer_t, hb_glyph_info_t};
use shape_buffer::interfaces::{hb_font_t, hb_ot_layout_t, hb_unicode_funcs_t};
use shape_plan::ot_shaper::hb_ot_shaper_t;
use shape_plan::shaping_types::{Meaning, PlanOf, ShapingTypes};
use std::alloc::Global;

/// Whether a list may hold a sequence that isn't expanded; `has_marks` says whether a mark stands
/// past its first item. Without one each sequence is one item, and no item is asked.
fn may_hold_selector_sequence<U: hb_unicode_funcs_t>(
    infos: &[hb_glyph_info_t],
    has_marks: bool,
) -> bool
    requires { has_marks ≡ RoundTwo.has_mark_past_first infos.now }
    ensures { result ≡ false → HasNoSelectorSequence U.unicode infos.now }
{
    has_marks && holds_selector::<U>(infos)
}

/// Whether a list takes the two rounds, one after the other.
fn takes_two_rounds<T: ShapingTypes>(
    plan: &PlanOf<'_, T>,
    infos: &[hb_glyph_info_t],
    has_marks: bool,
) -> bool
    requires { has_marks ≡ RoundTwo.has_mark_past_first infos.now }
    ensures expands { result ≡ false → HasNoSelectorSequence T.Unicode.unicode infos.now }
    ensures no_hook { (face : T.Face) → result ≡ false
        → (⟦<T as Meaning>⟧.rules plan.now face).reorder ≡ None }
{
    reorders_marks::<T>(plan) || may_hold_selector_sequence::<T::Unicode>(infos, has_marks)
}

/// Expands the items in a round of their own, and follows the runs of that, unless a shaper
/// reorders.
fn expand_then_follow<T: ShapingTypes>(
    alloc: Global,
    plan: &PlanOf<'_, T>,
    buffer: &mut hb_buffer_t,
    face: &T::Face,
    runs: &mut FollowedRuns,
) -> Result<(), ShapeError>
    requires { FollowsRuns [] runs.old }
    ensures ok { OnOk result (buffer.new
        ≡ round_one (⟦<T as Meaning>⟧.rules plan.now face.now) buffer.old) }
    ensures within { OnOk result (length buffer.new.items ≤ limit_of buffer.old) }
    ensures length { result ≡ Err ShapeError.Length → ExpandsPastLimit
        (⟦<T as Meaning>⟧.rules plan.now face.now) buffer.old }
    ensures settings { cleared buffer.new ≡ cleared buffer.old }
    ensures runs { OnOk result ((⟦<T as Meaning>⟧.rules plan.now face.now).reorder ≡ None
        → FollowsRuns (map ccc_of_item buffer.new.items) runs.new) }
{
    expand::<T>(alloc, plan, buffer, face)?;
    let follows = !reorders_marks::<T>(plan);
    runs.follow_from(follows, buffer.infos(), 0)
}

/// Expands the items by one of the two ways: without a mark past the first item, as `has_marks`
/// says, in one walk, since no hook is called and each sequence is one item. If marks stand there
/// and no shaper reorders, the runs of the expanded list are followed.
fn expand_by_way<T: ShapingTypes>(
    alloc: Global,
    plan: &PlanOf<'_, T>,
    buffer: &mut hb_buffer_t,
    face: &T::Face,
    has_marks: bool,
    runs: &mut FollowedRuns,
) -> Result<(), ShapeError>
    requires marks { has_marks ≡ RoundTwo.has_mark_past_first buffer.old.items }
    requires runs { FollowsRuns [] runs.old }
    ensures ok { OnOk result (buffer.new
        ≡ round_one (⟦<T as Meaning>⟧.rules plan.now face.now) buffer.old) }
    ensures within { OnOk result (length buffer.new.items ≤ limit_of buffer.old) }
    ensures length { result ≡ Err ShapeError.Length → ExpandsPastLimit
        (⟦<T as Meaning>⟧.rules plan.now face.now) buffer.old }
    ensures settings { cleared buffer.new ≡ cleared buffer.old }
    ensures runs { OnOk result (has_marks ≡ true
        → (⟦<T as Meaning>⟧.rules plan.now face.now).reorder ≡ None
        → FollowsRuns (map ccc_of_item buffer.new.items) runs.new) }
{
    if !has_marks {
        return expand_in_one_walk::<T>(alloc, plan, buffer, face, false, runs);
    }
    if takes_two_rounds::<T>(plan, buffer.infos(), has_marks) {
        return expand_then_follow::<T>(alloc, plan, buffer, face, runs);
    }
    expand_in_one_walk::<T>(alloc, plan, buffer, face, true, runs)
}

/// Expands the items and puts the marks in order, if some stand past the first item, as `has_marks`
/// says. Refuses with `Length` if the expanded list passes the limit; after a refusal the settings
/// that clearing keeps are as they were.
pub(crate) fn expand_and_order<T: ShapingTypes>(
    alloc: Global,
    plan: &PlanOf<'_, T>,
    buffer: &mut hb_buffer_t,
    face: &T::Face,
    has_marks: bool,
) -> Result<(), ShapeError>
    requires { has_marks ≡ RoundTwo.has_mark_past_first buffer.old.items }
    ensures ok { let rules = ⟦<T as Meaning>⟧.rules plan.now face.now in
        OnOk result (buffer.new ≡ (if RoundTwo.has_mark_past_first buffer.old.items
        then RoundTwo.marks_ordered rules.reorder (round_one rules buffer.old)
        else round_one rules buffer.old)) }
    ensures counted { OnOk result (length (round_one
        (⟦<T as Meaning>⟧.rules plan.now face.now) buffer.old).items ≤ limit_of buffer.old) }
    ensures length { result ≡ Err ShapeError.Length → ExpandsPastLimit
        (⟦<T as Meaning>⟧.rules plan.now face.now) buffer.old }
    ensures settings { cleared buffer.new ≡ cleared buffer.old }
{
    let mut runs = FollowedRuns::new(alloc);
    expand_by_way::<T>(alloc, plan, buffer, face, has_marks, &mut runs)?;
    if has_marks {
        return order_runs::<T>(alloc, plan, face, buffer, &mut runs);
    }
    Ok(())
}
