//! Merging of many spans, one after the other, without memory.
//!
//! Each merge may take in the items before its span, and with them all that was merged before. So
//! the items before the span at hand stand as runs whose writing is put off: the last run alone
//! takes a smaller cluster. The items from the span on are as they are.
ghost use Rattle.std.specs.Prelude.{◌≡◌, ◌≤◌, List, ◌++◌, length, take, drop, map, slice_range};
ghost use Rattle.shape_items.specs.Items.{Item};
ghost use Rattle.shape_items.specs.Clusters.{merge};
ghost use Rattle.shape_items.specs.Spans;
ghost use Rattle.shape_items.specs.GraphemeSpans.{is_continuation, ends, grapheme_spans};
ghost use Rattle.shape_items.specs.Unwritten.{StandsFor};

use crate::clusters::unwritten::{give_to_last, open_run, write_runs};
use crate::clusters::{growth_right, least_cluster, put_all_in};
use crate::items::hb_glyph_info_t;

/// Notes the runs of the items from `kept` up to `start`, if those before them are so many runs;
/// gives how many runs there are.
fn open_runs(
    infos: &[hb_glyph_info_t],
    starts: &mut [usize],
    runs: usize,
    kept: usize,
    start: usize,
) -> usize
    requires ordered { kept ≤ start }
    requires within { start ≤ length infos.now }
    requires room { length infos.now ≤ length starts.old }
    requires runs { runs ≤ kept }
    ensures stands { (given : List Item)
        → StandsFor (take kept infos.now) (take runs starts.old) given
        → StandsFor (take start infos.now) (take result starts.new)
        (given ++ slice_range infos.now kept start) }
    ensures runs { result ≤ start }
    ensures as_many { length starts.new ≡ length starts.old }
{
    let mut count = runs;
    for i in kept..start {
        count = open_run(&infos[..i], starts, count, infos[i].cluster);
    }
    count
}

/// Puts the last run into the least cluster of a span that comes next, if the run ends in the
/// cluster of the span's first item and the least is below that; gives how many runs there are.
fn grow_left(kept: &mut [hb_glyph_info_t], starts: &[usize], first: u32, least: u32) -> usize
    requires { (given : List Item) × StandsFor kept.old starts.now given }
    ensures stands { (given : List Item) → StandsFor kept.old starts.now given
        → StandsFor kept.new (take result starts.now) (Spans.grown_left first least given) }
    ensures as_many { length kept.new ≡ length kept.old }
    ensures runs { result ≤ length starts.now }
{
    let len = kept.len();
    if len == 0 {
        return starts.len();
    }
    let mut taken = kept[len - 1];
    if first <= least {
        return starts.len();
    }
    if taken.cluster != first {
        return starts.len();
    }
    taken.cluster = least;
    // a merge hands on no flag
    taken.mask = 0;
    give_to_last(kept, starts, &taken)
}

/// Merges a span, if the items before it stand as these runs; gives how many runs there are. Kept
/// out of line, since most graphemes are one item: inlined, it leaves no register to the walk over
/// those.
#[inline(never)]
fn merge_after(infos: &mut [hb_glyph_info_t], starts: &[usize], start: usize, end: usize) -> usize
    requires ordered { start ≤ end }
    requires within { end ≤ length infos.old }
    requires stands { (given : List Item) × StandsFor (take start infos.old) starts.now given }
    ensures merged { (given : List Item) → StandsFor (take start infos.old) starts.now given
        → (left : List Item) × StandsFor (take start infos.new) (take result starts.now) left
        × (left ++ drop start infos.new ≡ merge start end (given ++ drop start infos.old)) }
    ensures as_many { length infos.new ≡ length infos.old }
    ensures runs { result ≤ length starts.now }
{
    if end - start < 2 {
        return starts.len();
    }
    let items: &[hb_glyph_info_t] = infos;
    let first = items[start].cluster;
    let least = least_cluster(&items[start..end]);
    let to = end + growth_right(items, end - 1, least);
    put_all_in(&mut infos[start..to], least);
    grow_left(&mut infos[..start], starts, first, least)
}

/// Merges the spans, in order. `starts` has room for a number for each item.
pub fn merge_each(infos: &mut [hb_glyph_info_t], starts: &mut [usize], spans: &[(usize, usize)])
    requires in_order { Spans.AreSpansInOrder 0 (length infos.old) spans.now }
    requires room { length infos.old ≤ length starts.old }
    ensures merged { infos.new ≡ Spans.merge_each spans.now infos.old }
    ensures room { length starts.new ≡ length starts.old }
{
    let mut kept = 0;
    let mut runs = 0;
    for (start, end) in spans {
        runs = open_runs(infos, starts, runs, kept, *start);
        runs = merge_after(infos, &starts[..runs], *start, *end);
        kept = *start;
    }
    write_runs(&mut infos[..kept], &starts[..runs]);
}

/// Whether a grapheme ends before this place.
fn ends_grapheme(infos: &[hb_glyph_info_t], end: usize) -> bool
    requires { end ≤ length infos.now }
    ensures { result ≡ ends (map is_continuation (drop end infos.now)) }
{
    end == infos.len() || !infos[end]._hb_glyph_info_get_continuation()
}

/// Merges each grapheme, in order; one of a single item is passed over. `starts` has room for a
/// number for each item.
pub fn merge_graphemes(infos: &mut [hb_glyph_info_t], starts: &mut [usize])
    requires { length infos.old ≤ length starts.old }
    ensures merged { infos.new ≡ Spans.merge_each (grapheme_spans infos.old) infos.old }
    ensures room { length starts.new ≡ length starts.old }
{
    let mut kept = 0;
    let mut runs = 0;
    let mut start = 0;
    for last in 0..infos.len() {
        let end = last + 1;
        if ends_grapheme(infos, end) {
            if start < last {
                runs = open_runs(infos, starts, runs, kept, start);
                runs = merge_after(infos, &starts[..runs], start, end);
                kept = start;
            }
            start = end;
        }
    }
    write_runs(&mut infos[..kept], &starts[..runs]);
}
