//! The hooks of a script shaper: what each is called for, what it means and what its author must
//! provide.
//!
//! A hook is a trait of its own, implemented for a type that the shaper names: the shaper itself as
//! a rule, or [`no_hook`](crate::ot_shaper::no_hook) if it gives none. `S` is the shaper, `D` what
//! it keeps in a plan.
//!
//! A hook has no default body: a body in a trait is proved for every implementation, so it can't
//! meet the meaning that each one gives. What `reorder_marks` must do is a list of steps over a
//! run in order: exchanges of its items, merges within it, other nonzero ccc. That it permutes
//! the run is a law.
ghost use Rattle.std.specs.Prelude.{◌≡◌, ◌<◌, ◌≤◌, ℕ, Bool, Option, List, length, MatchResult};
ghost use Rattle.std.specs.Prelude.{OnOk, IfErr};
ghost use Rattle.canonical_form.specs.Chain.{FallsAlong};
ghost use Rattle.shape_items.specs.Buffer.{Buffer};
ghost use Rattle.shape_buffer.specs.MapBuilder.{Builder, with_requests};
ghost use Rattle.shape_buffer.specs.Outcome.{IsWithinLimit, Made, Outcome, step};
ghost use Rattle.shape_common.specs.declared.text_types.Direction.{Direction as AnyDirection};
ghost use Rattle.shape_common.specs.declared.text_types.Script.{Script as AnyScript};
ghost use Rattle.shape_buffer.specs.declared.interfaces.map_request.MapRequest.{MapRequest as AnyRequest};
ghost use Rattle.shape_plan.specs.Plan.{Plan};
ghost use Rattle.shape_plan.specs.Reorder.{IsRunInOrder, ReordersRanges};
ghost use Rattle.shape_plan.specs.Shaper.{ChangesMasksAlone};

use crate::ot_shape_plan::hb_ot_shape_plan_t;
use shape_buffer::buffer::{Direction, Script, ShapeError, hb_buffer_t};
use shape_buffer::interfaces::{hb_ot_layout_t, hb_ot_map_builder_t, hb_unicode_funcs_t};
use std::alloc::Global;

/// Splits characters in place of Unicode's splits.
pub trait decompose_hook<S, D, U: hb_unicode_funcs_t, F, M: hb_ot_layout_t<F>> {
    /// What a character splits into.
    ghost split: { S → Plan S M.Map D → F → ℕ → Option (ℕ × ℕ) };

    /// Falls from a character to the first part of its split.
    ghost height: { S → Plan S M.Map D → F → ℕ → ℕ };

    ghost GIVEN: { Bool };

    /// Whether the hook is called.
    const GIVEN: bool;

    /// The two parts that a character splits into in one step; the second one is U+0000 if it has
    /// one part alone.
    fn decompose(
        shaper: &S,
        plan: &hb_ot_shape_plan_t<'_, S, M::Map, D>,
        face: &F,
        c: char,
    ) -> Option<(char, char)>
        ensures { result ≡ split shaper.now plan.now face.now c };

    /// The height falls along every split, so that no chain of splits goes on for ever.
    ghost falls: { (shaper : S) (plan : Plan S M.Map D) (face : F)
        → FallsAlong (split shaper plan face) (height shaper plan face) };
}

/// Composes characters in place of Unicode's composites.
pub trait compose_hook<S, D, U: hb_unicode_funcs_t, F, M: hb_ot_layout_t<F>> {
    /// What two characters make.
    ghost compose: { S → Plan S M.Map D → F → ℕ → ℕ → Option ℕ };

    ghost GIVEN: { Bool };

    /// Whether the hook is called.
    const GIVEN: bool;

    /// The character that two characters make in one step.
    fn compose(
        shaper: &S,
        plan: &hb_ot_shape_plan_t<'_, S, M::Map, D>,
        face: &F,
        a: char,
        b: char,
    ) -> Option<char>
        ensures { result ≡ compose shaper.now plan.now face.now a b };
}

/// Puts marks in an order of the shaper's own.
pub trait reorder_marks_hook<S, D, U: hb_unicode_funcs_t, F, M: hb_ot_layout_t<F>> {
    /// The buffer with the items of a range in their new order.
    ghost reordered: { S → Plan S M.Map D → Buffer → ℕ → ℕ → Buffer };

    ghost GIVEN: { Bool };

    /// Whether the hook is called.
    const GIVEN: bool;

    /// Puts the items from place `start` up to `end`, at most 32 marks in canonical order, in an
    /// order of the shaper's own. May merge clusters within the run, and give its items other
    /// nonzero ccc.
    fn reorder_marks(
        shaper: &S,
        plan: &hb_ot_shape_plan_t<'_, S, M::Map, D>,
        buffer: &mut hb_buffer_t,
        start: usize,
        end: usize,
    )
        requires some { start < end }
        requires within { end ≤ length buffer.old.items }
        requires run { IsRunInOrder buffer.old.items start end }
        ensures { buffer.new ≡ reordered shaper.now plan.now buffer.old start end };

    /// The items of a run are exchanged, clusters within it merged, and ccc set.
    ghost reorders: { (shaper : S) (plan : Plan S M.Map D)
        → ReordersRanges (reordered shaper plan) };
}

/// Sets masks of items before glyphs are substituted.
pub trait setup_masks_hook<S, D, U: hb_unicode_funcs_t, F, M: hb_ot_layout_t<F>> {
    /// The buffer with its masks set.
    ghost masked: { S → Plan S M.Map D → F → Buffer → Buffer };

    ghost GIVEN: { Bool };

    /// Whether the hook is called.
    const GIVEN: bool;

    /// Sets masks; may also note that the run has seen flags of glyphs.
    fn setup_masks(
        shaper: &S,
        plan: &hb_ot_shape_plan_t<'_, S, M::Map, D>,
        face: &F,
        buffer: &mut hb_buffer_t,
    )
        ensures { Made (masked shaper.now plan.now face.now) buffer.old buffer.new };

    /// Nothing else is changed.
    ghost masks_alone: { (shaper : S) (plan : Plan S M.Map D) (face : F) (b : Buffer)
        → ChangesMasksAlone b (masked shaper plan face b) };
}

/// Changes the text before it is normalised.
pub trait preprocess_text_hook<S, D, U: hb_unicode_funcs_t, F, M: hb_ot_layout_t<F>> {
    /// The buffer as the hook leaves it.
    ghost preprocessed: { S → Plan S M.Map D → F → Buffer → Buffer };

    ghost GIVEN: { Bool };

    /// Whether the hook is called.
    const GIVEN: bool;

    /// Changes anything but the limit. Refuses with `Length` if the list would pass the limit, with
    /// `Memory` if a growth was refused.
    fn preprocess_text(
        shaper: &S,
        alloc: Global,
        plan: &hb_ot_shape_plan_t<'_, S, M::Map, D>,
        face: &F,
        buffer: &mut hb_buffer_t,
    ) -> Result<(), ShapeError>
        requires { IsWithinLimit buffer.old }
        ensures { Outcome (step (preprocessed shaper.now plan.now face.now))
            buffer.old buffer.new result };
}

/// Changes the glyphs after they were positioned.
pub trait postprocess_glyphs_hook<S, D, U: hb_unicode_funcs_t, F, M: hb_ot_layout_t<F>> {
    /// The buffer as the hook leaves it.
    ghost postprocessed: { S → Plan S M.Map D → F → Buffer → Buffer };

    ghost GIVEN: { Bool };

    /// Whether the hook is called.
    const GIVEN: bool;

    /// Changes anything but the limit. Refuses with `Length` if the list would pass the limit, with
    /// `Memory` if a growth was refused.
    fn postprocess_glyphs(
        shaper: &S,
        alloc: Global,
        plan: &hb_ot_shape_plan_t<'_, S, M::Map, D>,
        face: &F,
        buffer: &mut hb_buffer_t,
    ) -> Result<(), ShapeError>
        requires { IsWithinLimit buffer.old }
        ensures { Outcome (step (postprocessed shaper.now plan.now face.now))
            buffer.old buffer.new result };
}

/// Changes the glyphs between two stages of substitution.
pub trait pause_hook<S, D, U: hb_unicode_funcs_t, F, M: hb_ot_layout_t<F>> {
    /// The buffer after the pause of a number.
    ghost paused: { S → Plan S M.Map D → F → ℕ → Buffer → Buffer };

    ghost GIVEN: { Bool };

    /// Whether the hook is called.
    const GIVEN: bool;

    /// Runs the pause of number `n`, as it was requested of the planner. Refuses with `Length` if
    /// the list would pass the limit, with `Memory` if a growth was refused.
    fn pause(
        shaper: &S,
        alloc: Global,
        n: u32,
        plan: &hb_ot_shape_plan_t<'_, S, M::Map, D>,
        face: &F,
        buffer: &mut hb_buffer_t,
    ) -> Result<(), ShapeError>
        requires { IsWithinLimit buffer.old }
        ensures { Outcome (step (paused shaper.now plan.now face.now n))
            buffer.old buffer.new result };
}

/// Requests the features of a script: after variations, the forms of a direction, fractions,
/// alternates at random and tracking, and before the features of every text, those of a direction
/// and the user's.
pub trait collect_features_hook<S> {
    /// What is requested, by the builder as it stands, the direction and the script.
    ghost collected: { S → Builder → AnyDirection → Option AnyScript → List AnyRequest };

    ghost GIVEN: { Bool };

    /// Whether the hook is called.
    const GIVEN: bool;

    /// Appends requests, and changes nothing else. Refuses with `Memory` alone; nothing is said of
    /// the builder then.
    fn collect_features(
        shaper: &S,
        alloc: Global,
        builder: &mut hb_ot_map_builder_t,
        direction: Direction,
        script: Option<Script>,
    ) -> Result<(), ShapeError>
        ensures ok { OnOk result (builder.new
            ≡ with_requests builder.old (collected shaper.now builder.old direction script)) }
        ensures memory { IfErr result (λ e. e ≡ ShapeError.Memory) };
}

/// Requests features after those of the user, so that they win.
pub trait override_features_hook<S> {
    /// What is requested, by the builder as it stands, the direction and the script.
    ghost overriding: { S → Builder → AnyDirection → Option AnyScript → List AnyRequest };

    ghost GIVEN: { Bool };

    /// Whether the hook is called.
    const GIVEN: bool;

    /// Appends requests, and changes nothing else. Refuses with `Memory` alone; nothing is said of
    /// the builder then.
    fn override_features(
        shaper: &S,
        alloc: Global,
        builder: &mut hb_ot_map_builder_t,
        direction: Direction,
        script: Option<Script>,
    ) -> Result<(), ShapeError>
        ensures ok { OnOk result (builder.new
            ≡ with_requests builder.old (overriding shaper.now builder.old direction script)) }
        ensures memory { IfErr result (λ e. e ≡ ShapeError.Memory) };
}

/// Makes what a shaper keeps in a plan.
pub trait create_data_hook<S, D, U: hb_unicode_funcs_t, F, M: hb_ot_layout_t<F>> {
    /// What is made for a plan, which has no data yet.
    ghost made: { S → Plan S M.Map D → D };

    ghost GIVEN: { Bool };

    /// Whether the hook is called.
    const GIVEN: bool;

    /// Makes the data of a plan. Refuses with `Memory` alone.
    fn create_data(
        shaper: &S,
        alloc: Global,
        plan: &hb_ot_shape_plan_t<'_, S, M::Map, D>,
    ) -> Result<D, ShapeError>
        ensures { MatchResult result (λ «data». «data» ≡ made shaper.now plan.now)
            (λ e. e ≡ ShapeError.Memory) };
}
