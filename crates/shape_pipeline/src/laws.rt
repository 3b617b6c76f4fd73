//! Laws that spare callers a proof: each function has laws as its contract, and nothing to do.
//!
//! A run has the obligations of its shaper's hooks and its engine's lookups: that they preserve
//! clusters, that they preserve flags, and for canonical form that hooks preserve equivalence. A
//! caller with the default shaper and the engine that changes nothing has all of it by
//! [`plain_runs_have_no_obligations`], one with another shaper without hooks by
//! [`runs_without_hooks_have_no_obligations`]; one with hooks or lookups of its own proves those
//! alone, and takes the rest from here.
ghost use Rattle.std.specs.Prelude.{◌≡◌, ◌≢◌, ◌⊎◌, ◌<◌, ℕ, false, All};
ghost use Rattle.std.specs.List.Sorted.{IsNonDecreasing};
ghost use Rattle.shape_items.specs.Buffer.{Buffer};
ghost use Rattle.shape_items.specs.ClusterOrder.{IsMonotoneLevel};
ghost use Rattle.shape_items.specs.Clusters.{clusters};
ghost use Rattle.shape_buffer.specs.Guess.{guessed};
ghost use Rattle.shape_buffer.specs.Preservation.{LookupsPreserveClusters, LookupsPreserveFlags};
ghost use Rattle.shape_buffer.specs.NoLookups.{no_lookups};
ghost use Rattle.shape_common.specs.declared.text_types.Direction.{Direction};
ghost use Rattle.shape_normalize.specs.CanonicalForm.{text_of};
ghost use Rattle.shape_lines.specs.CanCut.{CanCut};
ghost use Rattle.shape_normalize.specs.Normalized.{normalized, HookPreservesClusters};
ghost use Rattle.shape_plan.specs.Preservation.{RunPreservesFlags, has_steps};
ghost use Rattle.shape_plan.specs.Plan.{Plan};
ghost use Rattle.shape_plan.specs.Run.{Run};
ghost use Rattle.shape_plan.specs.Shapers.{no_hooks};
ghost use Rattle.shape_prepare.specs.PreparedPoint.{PreservesPrepared};
ghost use Rattle.shape_plan.specs.declared.ot_shaper.shapers.hb_default_shaper_t.{hb_default_shaper_t as DefaultShaper};
ghost use Rattle.shape_pipeline.specs.Headline.{NormalForm, FlagsAreByCluster};
ghost use Rattle.shape_pipeline.specs.Canonical.{ListIsCanonical, RunPreservesEquivalence};
ghost use Rattle.shape_pipeline.specs.Canonical.{LeavesText, SpellingsMeet, prepared_characters};
ghost use Rattle.shape_pipeline.specs.Order.{RunPreservesClusters, RunOrdersClusters, EndsInOrder};
ghost use Rattle.shape_pipeline.specs.Order.{ClustersComeInOrder, OrderIsKept};
ghost use Rattle.shape_pipeline.specs.Shaped.{run_made};
ghost use Rattle.shape_pipeline.specs.Premises.{LeavesBuffers, OrderByHook, OrderInTheEnd};
ghost use Rattle.shape_pipeline.specs.Premises.{FlagsByHook, HasNoObligations};

use shape_buffer::interfaces::{NoLookups, hb_font_t, hb_ot_layout_t, hb_unicode_funcs_t};
pub use shape_normalize::laws::{hooks_not_given_are_lawful, reordering_permutes_the_run};
use shape_plan::ot_shape_plan::hb_ot_shape_plan_t;
use shape_plan::ot_shaper::{Runs, hb_default_shaper_t, hb_ot_shaper_t};
pub use shape_prepare::laws::{
    preparing_prepares, preparing_preserves_characters, preparing_preserves_firsts,
    preparing_preserves_flags, preparing_preserves_order,
};

/// The engine that changes nothing preserves clusters and flags, whatever was compiled and whatever
/// the face.
pub fn no_lookups_preserve()
    ensures clusters { LookupsPreserveClusters no_lookups }
    ensures flags { LookupsPreserveFlags no_lookups }
{}

/// Hooks that aren't given are never called, and hooks that leave buffers as they are change
/// nothing. So a run by a shaper without other hooks preserves clusters, or flags, if its engine's
/// lookups do. For clusters its hook that reorders marks must preserve them too. Of hooks that
/// split and compose nothing is asked.
pub fn hooks_not_given_preserve<U, F, M, S>()
where
    U: hb_unicode_funcs_t,
    F: hb_font_t,
    M: hb_ot_layout_t<F>,
    S: hb_ot_shaper_t<U, F, M>,
    ensures clusters { (plan : Plan S M.Map S.Data) (face : F)
        → let run = ⟦<S as Runs<U, F, M>>⟧.run plan face in
        (has_steps S.constants ≡ false) ⊎ ((shaper : S) → LeavesBuffers (S.hooks shaper plan face))
        → LookupsPreserveClusters run.lookups → HookPreservesClusters run.rules → RunPreservesClusters run }
    ensures flags { (plan : Plan S M.Map S.Data) (face : F)
        → let run = ⟦<S as Runs<U, F, M>>⟧.run plan face in
        (has_steps S.constants ≡ false) ⊎ ((shaper : S) → LeavesBuffers (S.hooks shaper plan face))
        → LookupsPreserveFlags run.lookups → RunPreservesFlags run }
{}

/// Hook by hook: a shaper that gives one hook must provide what that one does, and nothing of the
/// others. A run preserves clusters, or flags, if each of its hooks that is given does and its
/// engine's lookups do; for clusters its hook that reorders marks must preserve them too, and
/// nothing is asked of `setup_masks`, which changes masks alone. It preserves equivalence if none
/// splits, composes or reorders, and a given `preprocess_text` leaves prepared items prepared.
pub fn given_hooks_preserve<U, F, M, S>()
where
    U: hb_unicode_funcs_t,
    F: hb_font_t,
    M: hb_ot_layout_t<F>,
    S: hb_ot_shaper_t<U, F, M>,
    ensures clusters { (plan : Plan S M.Map S.Data) (face : F)
        → let run = ⟦<S as Runs<U, F, M>>⟧.run plan face in
        ((shaper : S) → OrderByHook run (S.hooks shaper plan face))
        → LookupsPreserveClusters run.lookups → HookPreservesClusters run.rules → RunPreservesClusters run }
    ensures flags { (plan : Plan S M.Map S.Data) (face : F)
        → let run = ⟦<S as Runs<U, F, M>>⟧.run plan face in
        ((shaper : S) → FlagsByHook run (S.hooks shaper plan face))
        → LookupsPreserveFlags run.lookups → RunPreservesFlags run }
    ensures equivalence { (plan : Plan S M.Map S.Data) (face : F)
        → let run = ⟦<S as Runs<U, F, M>>⟧.run plan face in
        S.constants.has_decompose ≡ false → S.constants.has_compose ≡ false
        → S.constants.has_reorder_marks ≡ false
        → (S.constants.has_preprocess_text ≡ false)
        ⊎ ((shaper : S) → PreservesPrepared U.unicode (S.hooks shaper plan face).preprocess)
        → RunPreservesEquivalence run }
{}

/// A shaper whose pauses leave clusters out of order, as they do that move signs before their
/// letters and merge later, and whose last hook, `postprocess_glyphs`, puts them in order again
/// (`cluster_order::order_clusters` does so). Its pauses must bring no cluster, its other hooks
/// preserve clusters, and its engine's lookups, too.
pub fn ordering_hooks_preserve<U, F, M, S>()
where
    U: hb_unicode_funcs_t,
    F: hb_font_t,
    M: hb_ot_layout_t<F>,
    S: hb_ot_shaper_t<U, F, M>,
    ensures { (plan : Plan S M.Map S.Data) (face : F)
        → let run = ⟦<S as Runs<U, F, M>>⟧.run plan face in
        ((shaper : S) → OrderInTheEnd run (S.hooks shaper plan face))
        → LookupsPreserveClusters run.lookups → HookPreservesClusters run.rules → RunOrdersClusters run }
{}

/// A run has no obligations if its shaper's hooks, whichever of them are given, do what is done
/// without them, none reorders marks, and its lookups preserve clusters and flags. Then the run
/// preserves both, too, and what canonical form asks of a shaper holds of every text.
pub fn runs_without_hooks_have_no_obligations<U, F, M, S>()
where
    U: hb_unicode_funcs_t,
    F: hb_font_t,
    M: hb_ot_layout_t<F>,
    S: hb_ot_shaper_t<U, F, M>,
    ensures { (plan : Plan S M.Map S.Data) (face : F)
        → let run = ⟦<S as Runs<U, F, M>>⟧.run plan face in
        S.constants.has_reorder_marks ≡ false
        → ((shaper : S) → S.hooks shaper plan face ≡ no_hooks U.unicode)
        → LookupsPreserveClusters run.lookups → LookupsPreserveFlags run.lookups → HasNoObligations run }
{}

/// A run of the default shaper with the engine that changes nothing has no obligations, whatever
/// the Unicode functions, the plan and the face: also under the plan that `shape` makes.
pub fn plain_runs_have_no_obligations<U: hb_unicode_funcs_t, F: hb_font_t>()
    ensures { (plan : Plan DefaultShaper Unit Unit) (face : F)
        → HasNoObligations (⟦<hb_default_shaper_t as Runs<U, F, NoLookups>>⟧.run plan face) }
{}

/// If preparing leaves the characters of a text (no dotted circle goes in, nothing is reversed,
/// mirrored or taken in its vertical form, and a given hook leaves characters), they are those of
/// the prepared text. So two such texts are led to the same normalised characters exactly when they
/// are equivalent, if hooks preserve equivalence and canonical form can be asked of both.
pub fn equivalent_spellings_meet<U, F, M, S>()
where
    U: hb_unicode_funcs_t,
    F: hb_font_t,
    M: hb_ot_layout_t<F>,
    S: hb_ot_shaper_t<U, F, M>,
    ensures prepared { (plan : Plan S M.Map S.Data) (face : F)
        → let run = ⟦<S as Runs<U, F, M>>⟧.run plan face in
        (text : Buffer) → LeavesText run text → prepared_characters run text ≡ text_of text }
    ensures meet { (plan : Plan S M.Map S.Data) (face : F)
        → let run = ⟦<S as Runs<U, F, M>>⟧.run plan face in
        RunPreservesEquivalence run → SpellingsMeet run }
{}

/// What `shape` and `shape_with_plan` return can be cut into lines, by `ok.clusters` and
/// `ok.flags`: at a monotone level, if the text's clusters never fall, lookups and hooks preserve
/// clusters and flags, and each cluster of the text is below its end. If `push_str` brought the
/// text in, that is its length in bytes: the clauses `clusters` of `push_str` say both.
pub fn glyphs_can_be_cut()
    ensures { (run : Run) (target : Direction) (text glyphs : Buffer) (text_end : ℕ)
        → ClustersComeInOrder run target (guessed run.unicode text) glyphs
        → FlagsAreByCluster run text glyphs
        → RunOrdersClusters run → RunPreservesFlags run
        → IsMonotoneLevel text.cluster_level → IsNonDecreasing (clusters text.items)
        → All (λ item. item.cluster < text_end) text.items → CanCut glyphs text_end }
{}

/// What is promised of whole runs, for callers of `shape_internal`, whose `ok` says what a run
/// makes: over any text in a known direction its clusters come in order and its flags by cluster,
/// under their premises; the normalised list of any buffer has its form, and that of any text is
/// canonical, under its premise. A run that ends in order does so by a plan for the text's
/// direction. Does nothing.
pub fn whole_runs_keep_promises<U, F, M, S>(
    plan: &hb_ot_shape_plan_t<'_, S, M::Map, S::Data>,
    face: &F,
)
where
    U: hb_unicode_funcs_t,
    F: hb_font_t,
    M: hb_ot_layout_t<F>,
    S: hb_ot_shaper_t<U, F, M>,
    ensures clusters { let run = ⟦<S as Runs<U, F, M>>⟧.run plan.now face.now in
        (text : Buffer) → text.direction ≢ Direction.Invalid → RunPreservesClusters run
        → OrderIsKept run text.direction text (run_made run text.direction text) }
    ensures ends_in_order { let run = ⟦<S as Runs<U, F, M>>⟧.run plan.now face.now in
        (text : Buffer) → run.direction ≡ text.direction → EndsInOrder run
        → OrderIsKept run text.direction text (run_made run text.direction text) }
    ensures flags { let run = ⟦<S as Runs<U, F, M>>⟧.run plan.now face.now in
        (target : Direction) (text : Buffer)
        → FlagsAreByCluster run text (run_made run target text) }
    ensures form { let run = ⟦<S as Runs<U, F, M>>⟧.run plan.now face.now in
        (text : Buffer) → NormalForm run.rules text (normalized run.rules text) }
    ensures canonical { let run = ⟦<S as Runs<U, F, M>>⟧.run plan.now face.now in
        (text : Buffer) → ListIsCanonical run text }
{
    plan.masks_are_features();
}
