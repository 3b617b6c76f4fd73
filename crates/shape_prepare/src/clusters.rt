//! The clusters of graphemes.
//!
//! A caller who asks for graphemes gets one cluster for each. For any other it is marked that a
//! line can't be broken inside one without shaping anew. Text of ASCII characters alone has
//! graphemes of one item, so nothing is done for it.
ghost use Rattle.std.specs.Prelude.{◌≡◌, ◌≢◌};
ghost use Rattle.shape_items.specs.BufferClusters.{merge_clusters, unsafe_to_break};
ghost use Rattle.shape_buffer.specs.Outcome.{Made};
ghost use Rattle.shape_common.specs.declared.text_types.BufferClusterLevel.TheVariants.{Characters};
ghost use Rattle.shape_prepare.specs.ClustersFormed.{clusters_formed, over_graphemes};

use crate::grapheme_walk::{GraphemeChange, each_grapheme};
use bitflags::Flags;
use shape_buffer::buffer::{BufferClusterLevel, ScratchFlags, hb_buffer_t};

/// If a character past ASCII was seen, merges each grapheme at level MONOTONE_GRAPHEMES, and marks
/// each unsafe to break at the other levels. Takes no memory.
pub fn form_clusters(buffer: &mut hb_buffer_t)
    ensures { Made clusters_formed buffer.old buffer.new }
{
    if !buffer.scratch_flags().contains(ScratchFlags::HAS_NON_ASCII) {
        return;
    }
    if buffer.cluster_level() == BufferClusterLevel::MonotoneGraphemes {
        merge_graphemes(buffer);
    } else {
        mark_graphemes(buffer);
    }
}

/// Merges the clusters of each grapheme, at a level that merges.
pub(crate) fn merge_graphemes(buffer: &mut hb_buffer_t)
    requires { buffer.old.cluster_level ≢ Characters }
    ensures { Made (over_graphemes merge_clusters) buffer.old buffer.new }
{
    buffer.merge_graphemes();
}

/// Marks each grapheme unsafe to break.
fn mark_graphemes(buffer: &mut hb_buffer_t)
    ensures { Made (over_graphemes unsafe_to_break) buffer.old buffer.new }
{
    each_grapheme(buffer, GraphemeChange::Mark);
}
