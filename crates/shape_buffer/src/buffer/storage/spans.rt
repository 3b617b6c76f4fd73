//! Merging, marking and deleting: what changes clusters and flags of spans of items.
ghost use Rattle.std.specs.Prelude.{◌≡◌, ◌≤◌, [], Bool, length};
ghost use Rattle.std.specs.Fn.{FnReturnsAt};
ghost use Rattle.shape_items.specs.BufferClusters;
ghost use Rattle.shape_items.specs.ClusterOrder.{PreservesClusters};
ghost use Rattle.shape_items.specs.Clusters.{clusters};
ghost use Rattle.shape_items.specs.Delete.{deleted};
ghost use Rattle.shape_items.specs.GraphemeSpans.{grapheme_spans};
ghost use Rattle.shape_items.specs.Items.{Item};
ghost use Rattle.shape_items.specs.PreservesFlags.{PreservesFlags};
ghost use Rattle.shape_items.specs.Spans;

use crate::buffer::storage::hb_buffer_t;
use bitflags::Flags;
use shape_common::{BufferClusterLevel, BufferFlags, ScratchFlags};
use shape_items::clusters::{
    delete_items, mark_break, mark_concat, mark_tatweel, merge_each, merge_graphemes, merge_items,
};
use shape_items::hb_glyph_info_t;

/// As many spans as a run of 32 marks can have: so few cost less one by one than a walk over the
/// list.
const FEW_SPANS: usize = 16;

impl hb_buffer_t {
    /// Merges the clusters of the items from `start` up to `end`: they, and the items beside them
    /// that share a cluster which changes, get the least cluster of the span, and an item whose
    /// cluster changes loses its defined flags. At level CHARACTERS the span is marked unsafe to
    /// break instead. A span of fewer than two items changes nothing. The time is in step with the
    /// items it touches (measured, not proved).
    pub fn merge_clusters(&mut self, start: usize, end: usize)
        requires ordered { start ≤ end }
        requires within { end ≤ length self.old.items }
        ensures merged { self.new ≡ BufferClusters.merge_clusters start end self.old }
        ensures len { length self.new.items ≡ length self.old.items }
        ensures preserves { PreservesClusters (clusters self.old.items) (clusters self.new.items)
            × PreservesFlags self.old self.new }
    {
        if self.cluster_level == BufferClusterLevel::Characters {
            self.unsafe_to_break(start, end);
        } else {
            merge_items(self.infos.as_mut_slice(), start, end);
        }
    }

    /// Merges as `merge_clusters` does, but changes nothing at level CHARACTERS.
    pub fn merge_out_clusters(&mut self, start: usize, end: usize)
        requires ordered { start ≤ end }
        requires within { end ≤ length self.old.items }
        ensures merged { self.new ≡ BufferClusters.merge_out_clusters start end self.old }
        ensures len { length self.new.items ≡ length self.old.items }
        ensures preserves { PreservesClusters (clusters self.old.items) (clusters self.new.items)
            × PreservesFlags self.old self.new }
    {
        if self.cluster_level != BufferClusterLevel::Characters {
            merge_items(self.infos.as_mut_slice(), start, end);
        }
    }

    /// Merges the clusters of many spans, as one call of `merge_clusters` after the other would. A
    /// span is a start and an end; none begins before the one before it. Takes no memory; the time
    /// is in step with the list and the lengths of the spans, whatever the clusters are (measured,
    /// not proved). Few spans, as those of one run of marks, are merged one by one: the items
    /// before them aren't walked over.
    pub fn merge_spans(&mut self, spans: &[(usize, usize)])
        requires in_order { Spans.AreSpansInOrder 0 (length self.old.items) spans.now }
        ensures merged { self.new ≡ Spans.all_merged spans.now self.old }
        ensures len { length self.new.items ≡ length self.old.items }
        ensures preserves { PreservesClusters (clusters self.old.items) (clusters self.new.items)
            × PreservesFlags self.old self.new }
    {
        if spans.len() <= FEW_SPANS {
            self.merge_one_by_one(spans);
            return;
        }
        if self.cluster_level == BufferClusterLevel::Characters {
            self.merge_one_by_one(spans);
        } else {
            self.merge_at_once(spans);
        }
    }

    /// Merges as `merge_spans` does, but changes nothing at level CHARACTERS.
    pub fn merge_spans_out(&mut self, spans: &[(usize, usize)])
        requires in_order { Spans.AreSpansInOrder 0 (length self.old.items) spans.now }
        ensures merged { self.new ≡ Spans.spans_merged_out spans.now self.old }
        ensures len { length self.new.items ≡ length self.old.items }
        ensures preserves { PreservesClusters (clusters self.old.items) (clusters self.new.items)
            × PreservesFlags self.old self.new }
    {
        if self.cluster_level == BufferClusterLevel::Characters {
            return;
        }
        self.merge_at_once(spans);
    }

    /// Merges the clusters of each grapheme, as one call of `merge_clusters` after the other would;
    /// at level CHARACTERS nothing changes. A grapheme is an item with the continuations directly
    /// after it. Takes no memory; the time is in step with the list, whatever the clusters are
    /// (measured, not proved).
    pub fn merge_graphemes(&mut self)
        ensures merged { self.new
            ≡ Spans.spans_merged_out (grapheme_spans self.old.items) self.old }
        ensures len { length self.new.items ≡ length self.old.items }
        ensures preserves { PreservesClusters (clusters self.old.items) (clusters self.new.items)
            × PreservesFlags self.old self.new }
    {
        if self.cluster_level == BufferClusterLevel::Characters {
            return;
        }
        self.merge_graphemes_at_once();
    }

    /// Merges the spans, whatever the level is.
    fn merge_at_once(&mut self, spans: &[(usize, usize)])
        requires { Spans.AreSpansInOrder 0 (length self.old.items) spans.now }
        ensures { self.new ≡ record self.old { items = Spans.merge_each spans.now self.old.items } }
    {
        let starts = self.run_starts.as_mut_slice();
        merge_each(self.infos.as_mut_slice(), starts, spans);
    }

    /// Merges the graphemes, whatever the level is.
    fn merge_graphemes_at_once(&mut self)
        ensures { self.new ≡ record self.old {
          items = Spans.merge_each (grapheme_spans self.old.items) self.old.items;
        } }
    {
        let starts = self.run_starts.as_mut_slice();
        merge_graphemes(self.infos.as_mut_slice(), starts);
    }

    /// Merges span by span. At level CHARACTERS each merge marks its span and touches no more.
    fn merge_one_by_one(&mut self, spans: &[(usize, usize)])
        requires { Spans.AreSpansInOrder 0 (length self.old.items) spans.now }
        ensures { self.new ≡ Spans.all_merged spans.now self.old }
    {
        for (start, end) in spans {
            self.merge_clusters(*start, *end);
        }
    }

    /// Marks the items from `start` up to `end` unsafe to break and to concat, except for those of
    /// their least cluster, and sets the scratch flag HAS_GLYPH_FLAGS. A span of fewer than two
    /// items changes nothing. The time is in step with the span (measured, not proved).
    pub fn unsafe_to_break(&mut self, start: usize, end: usize)
        requires ordered { start ≤ end }
        requires within { end ≤ length self.old.items }
        ensures marked { self.new ≡ BufferClusters.unsafe_to_break start end self.old }
        ensures preserves { PreservesFlags self.old self.new }
    {
        if end - start < 2 {
            return;
        }
        self.scratch_flags.insert(ScratchFlags::HAS_GLYPH_FLAGS);
        mark_break(self.infos.as_mut_slice(), start, end);
    }

    /// Marks the items from `start` up to `end` safe to insert tatweel, except for those of their
    /// least cluster, and sets the scratch flag HAS_GLYPH_FLAGS, if the flag
    /// PRODUCE_SAFE_TO_INSERT_TATWEEL asks for it; a span of fewer than two items changes nothing
    /// then. If it isn't asked for, marks the span unsafe to break (HarfBuzz,
    /// `safe_to_insert_tatweel`).
    pub fn safe_to_insert_tatweel(&mut self, start: usize, end: usize)
        requires ordered { start ≤ end }
        requires within { end ≤ length self.old.items }
        ensures marked { self.new ≡ BufferClusters.safe_to_insert_tatweel start end self.old }
        ensures preserves { PreservesFlags self.old self.new }
    {
        if self
            .flags
            .contains(BufferFlags::PRODUCE_SAFE_TO_INSERT_TATWEEL)
        {
            self.mark_tatweel(start, end);
        } else {
            self.unsafe_to_break(start, end);
        }
    }

    /// Marks a span safe to insert tatweel, whatever is asked for.
    fn mark_tatweel(&mut self, start: usize, end: usize)
        requires ordered { start ≤ end }
        requires within { end ≤ length self.old.items }
        ensures marked { self.new ≡ BufferClusters.tatweel_marked start end self.old }
        ensures preserves { PreservesFlags self.old self.new }
    {
        if end - start < 2 {
            return;
        }
        self.scratch_flags.insert(ScratchFlags::HAS_GLYPH_FLAGS);
        mark_tatweel(self.infos.as_mut_slice(), start, end);
    }

    /// Marks the items from `start` up to `end` unsafe to concat and sets the scratch flag
    /// HAS_GLYPH_FLAGS, if the flag PRODUCE_UNSAFE_TO_CONCAT asks for it.
    pub fn unsafe_to_concat(&mut self, start: usize, end: usize)
        requires ordered { start ≤ end }
        requires within { end ≤ length self.old.items }
        ensures marked { self.new ≡ BufferClusters.unsafe_to_concat start end self.old }
        ensures preserves { PreservesFlags self.old self.new }
    {
        if !self.flags.contains(BufferFlags::PRODUCE_UNSAFE_TO_CONCAT) {
            return;
        }
        self.scratch_flags.insert(ScratchFlags::HAS_GLYPH_FLAGS);
        mark_concat(self.infos.as_mut_slice(), start, end);
    }

    /// Deletes the glyphs that the test picks, from left to right, each with its position. The test
    /// is asked of an item as it stands when it is reached. Before a glyph of cluster `c` goes, the
    /// first case that holds decides: the next item, picked or not, has cluster `c`, and nothing is
    /// done; items were kept, and if `c` is below the last kept one's cluster, the last kept items
    /// with that cluster get the picked item's cluster and its defined flags in place of theirs;
    /// there is a next item, and the two are merged as `merge_clusters` does. Takes no memory; the
    /// time is in step with the list, whatever the clusters are (measured, not proved).
    pub fn delete_glyphs_inplace<F: Fn(&hb_glyph_info_t) -> bool>(&mut self, test: F)
    where
        F: Drop,
        requires { F.IsAlwaysCallable test }
        ensures deleted { (picks : Item → Bool)
            → ((x : Item) (b : Bool) → FnReturnsAt F.Fn test x b → b ≡ picks x)
            → self.new ≡ deleted picks self.old }
        ensures preserves { (picks : Item → Bool)
            → ((x : Item) (b : Bool) → FnReturnsAt F.Fn test x b → b ≡ picks x)
            → PreservesClusters (clusters self.old.items) (clusters self.new.items)
            × PreservesFlags self.old self.new }
        ensures fewer { length self.new.items ≤ length self.old.items }
        ensures as_many { length self.new.positions ≡ length self.new.items }
        ensures rest { record self.new
            { items = []; positions = []; scratch_flags = record { 0 = 0 } }
            ≡ record self.old { items = []; positions = []; scratch_flags = record { 0 = 0 } } }
    {
        self.has_positions = true;
        delete_items(
            &mut self.infos,
            &mut self.positions,
            self.run_starts.as_mut_slice(),
            &mut self.scratch_flags,
            self.cluster_level,
            test,
        );
    }
}
