//! What attachment has marked unsafe to break. Attaching a mark marks all from its base on, and in
//! a run of marks on one base nearly all of that was marked for the one before: only what is new is
//! written, so that a run takes time in step with it.
ghost use Rattle.std.specs.Prelude.{◌≡◌, ◌+◌, ◌<◌, ◌≤◌, List, length};
ghost use Rattle.shape_items.specs.BufferClusters.{unsafe_to_break, with_glyph_flags};
ghost use Rattle.shape_items.specs.Clusters.{map_range, mark_break};
ghost use Rattle.shape_items.specs.Items.{Item};
ghost use Rattle.layout_positions.specs.Edits;
ghost use Rattle.layout_positions.specs.Flagged.{IsFlagged};

use crate::edits::break_between;
use bitflags::Flags;
use shape_buffer::{UNSAFE_TO_BREAK, UNSAFE_TO_CONCAT, hb_buffer_t, hb_glyph_info_t};
use shape_common::ScratchFlags;
use shape_items::clusters::least_cluster;

/// A span that is marked unsafe to break, but for its least cluster; up to place `low` all of it
/// is.
#[derive(Clone, Copy)]
pub struct Flagged {
    pub from: usize,
    pub low: usize,
    pub to: usize,
    pub least: u32,
}

/// No span.
pub fn none_flagged() -> Flagged
    ensures { (items : List Item) → IsFlagged result items }
{
    Flagged {
        from: 0,
        low: 0,
        to: 0,
        least: 0,
    }
}

/// An item marked unsafe to break, unless it is of this cluster.
fn broken_item(item: &hb_glyph_info_t, cluster: u32) -> hb_glyph_info_t
    ensures { result ≡ mark_break cluster item.now }
{
    let mut item = *item;
    if item.cluster != cluster {
        item.mask |= UNSAFE_TO_BREAK | UNSAFE_TO_CONCAT;
    }
    item
}

/// Marks the items of a range unsafe to break, but for those of a cluster.
#[tactic(auto, using(crate::proofs::FlaggedLemmas::broken_none, crate::proofs::FlaggedLemmas::broken_more))]
fn break_others(buffer: &mut hb_buffer_t, start: usize, end: usize, cluster: u32)
    requires ordered { start ≤ end }
    requires within { end ≤ length buffer.old.items }
    ensures { buffer.new ≡ record buffer.old {
      items = map_range (mark_break cluster) start end buffer.old.items;
    } }
{
    for i in start..end {
        let item = broken_item(&buffer.infos()[i], cluster);
        buffer.set_info(i, item);
    }
}

/// Marks a span anew.
fn break_anew(buffer: &mut hb_buffer_t, from: usize, to: usize) -> Flagged
    requires long { from + 1 < to }
    requires within { to ≤ length buffer.old.items }
    ensures made { buffer.new ≡ unsafe_to_break from to buffer.old }
    ensures flagged { IsFlagged result buffer.new.items }
{
    buffer.unsafe_to_break(from, to);
    Flagged {
        from,
        low: from,
        to,
        least: least_cluster(&buffer.infos()[from..to]),
    }
}

/// Marks a longer span than the one that is marked. If its least cluster is a new one, the items of
/// the former are marked too.
fn break_further(buffer: &mut hb_buffer_t, flagged: Flagged, to: usize) -> Flagged
    requires before { IsFlagged flagged buffer.old.items }
    requires some { flagged.from < flagged.to }
    requires more { flagged.to < to }
    requires within { to ≤ length buffer.old.items }
    ensures made { buffer.new ≡ unsafe_to_break flagged.from to buffer.old }
    ensures flagged { IsFlagged result buffer.new.items }
{
    let mut scratch_flags = buffer.scratch_flags();
    scratch_flags.insert(ScratchFlags::HAS_GLYPH_FLAGS);
    buffer.set_scratch_flags(scratch_flags);
    let least = least_cluster(&buffer.infos()[flagged.to..to]);
    if least < flagged.least {
        break_others(buffer, flagged.low, to, least);
        return Flagged {
            from: flagged.from,
            low: flagged.to,
            to,
            least,
        };
    }
    break_others(buffer, flagged.to, to, flagged.least);
    Flagged { to, ..flagged }
}

/// Marks the items from `start` up to `end`, or to the end of the list, unsafe to break, of which a
/// span may be marked.
pub fn break_from(buffer: &mut hb_buffer_t, flagged: Flagged, start: usize, end: usize) -> Flagged
    requires before { IsFlagged flagged buffer.old.items }
    ensures made { buffer.new ≡ Edits.broken start end buffer.old }
    ensures flagged { IsFlagged result buffer.new.items }
{
    let last = end.min(buffer.len());
    if flagged.from == start && start < flagged.to && flagged.to < last {
        return break_further(buffer, flagged, last);
    }
    if start < last && 1 < last - start {
        return break_anew(buffer, start, last);
    }
    break_between(buffer, start, end);
    none_flagged()
}
