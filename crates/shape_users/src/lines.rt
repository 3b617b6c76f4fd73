//! Where a line may end: the question that a line breaker asks of a shaped text.
//!
//! A line breaker shapes a paragraph once and cuts it where lines end. If a glyph lacks
//! `UNSAFE_TO_BREAK`, the part before it and the part from it on are meant to look alone as they do
//! together; otherwise they are to be shaped again. That they do is not proved; the tests of `cuts`
//! try it at the two levels that keep clusters in order, on every short text of a few alphabets. At
//! level CHARACTERS it is not always so: U+05B4 U+05E9 U+200D, in Hebrew and left to right, look
//! different cut after the first character. The caller speaks of the text by clusters, which lead
//! back to it.
ghost use Rattle.std.specs.Prelude.{◌≡◌, All};
ghost use Rattle.std.specs.List.{find};
ghost use Rattle.std.specs.Option.{option_map};
ghost use Rattle.shape_items.specs.Items.{has_cluster};
ghost use Rattle.shape_items.specs.Clusters.{clusters};
ghost use Rattle.shape_common.specs.Direction.{is_backward};
ghost use Rattle.shape_items.specs.Flags.{HasOneSetOfFlags};
ghost use Rattle.shape_items.specs.ClusterOrder.{IsOrderedFor};
ghost use Rattle.shape_users.specs.Lines.{cut_at, lacks_break};
ghost use Rattle.shape_users.specs.Worked.Shown.{WorkedCuts};

use shape_buffer::{GlyphBuffer, UNSAFE_TO_BREAK, hb_glyph_info_t};

/// Whether a line may end before the character of a cluster: glyphs of that cluster are there, and
/// the first of them in the list lacks `UNSAFE_TO_BREAK`. If the clusters stand in the order of the
/// text's direction, and each has one set of flags, as `shape` promises, each glyph of the cluster
/// says the same. A number inside a character is the cluster of no glyph: no line may end there.
pub fn may_cut(glyphs: &GlyphBuffer, cluster: u32) -> bool
    ensures answer { result ≡ cut_at cluster glyphs.now.items }
    ensures each { IsOrderedFor (is_backward glyphs.now.direction) (clusters glyphs.now.items)
        → HasOneSetOfFlags glyphs.now.items
        → All (λ glyph. glyph.cluster ≡ cluster → lacks_break glyph ≡ result) glyphs.now.items }
{
    first_lacks_break(glyphs.glyph_infos(), cluster).unwrap_or(false)
}

/// Whether the first glyph of a cluster lacks `UNSAFE_TO_BREAK`, if there is one.
fn first_lacks_break(glyphs: &[hb_glyph_info_t], cluster: u32) -> Option<bool>
    ensures { result ≡ option_map lacks_break (find (has_cluster cluster) glyphs.now) }
{
    glyphs
        .iter()
        .find(|glyph| glyph.cluster == cluster)
        .map(|glyph| glyph.mask & UNSAFE_TO_BREAK == 0)
}

/// Which clusters a line may begin with, and which not, on glyphs worked out by hand.
pub fn cuts_meet_worked_cases()
    ensures { WorkedCuts }
{}
