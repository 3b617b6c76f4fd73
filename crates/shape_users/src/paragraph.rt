//! From glyphs to the text that they show, and back.
//!
//! A paragraph layout draws a range of glyphs, and is asked which text that was: for a selection, a
//! search, a screen reader. The other way round it is asked which glyphs to mark. Both stand on the
//! clusters of the glyphs, in the order of the text's direction, and on nothing else.
ghost use Rattle.std.specs.Prelude.{◌≡◌, ℕ, ◌-◌, ◌<◌, ◌≤◌, ◌⊎◌, ◌↔◌, length};
ghost use Rattle.shape_items.specs.Clusters.{clusters};
ghost use Rattle.shape_common.specs.Direction.{is_backward};
ghost use Rattle.shape_items.specs.ClusterOrder.{IsOrderedFor};
ghost use Rattle.shape_users.specs.Paragraph.{cluster_at, EndsIn, FirstToLast, ShowsExactly};
ghost use Rattle.shape_users.specs.Worked.Shown.{WorkedShown};

use shape_buffer::buffer::{GlyphBuffer, hb_glyph_info_t};

/// The text from one cluster up to another.
#[derive(Clone, Copy, Debug, PartialEq, Eq)]
pub struct TextSpan {
    pub start: u32,
    pub end: u32,
}

/// The glyphs from one place up to another.
#[derive(Clone, Copy, Debug, PartialEq, Eq)]
pub struct GlyphSpan {
    pub start: usize,
    pub end: usize,
}

/// The text that the glyphs from place `start` up to `end` show: from the least of their clusters
/// up to the next cluster after the greatest, or to `text_len` if there is none. If the clusters
/// stand in the order of the text's direction, and each is below `text_len`, the clusters in it are
/// those of the range. The range must hold a glyph.
pub fn text_of_glyphs(glyphs: &GlyphBuffer, start: usize, end: usize, text_len: u32) -> TextSpan
    requires some { start < end }
    requires within { end ≤ length glyphs.now.items }
    ensures begins { (result.start ≡ cluster_at glyphs.now.items start)
        ⊎ (result.start ≡ cluster_at glyphs.now.items (end - 1)) }
    ensures ends { EndsIn glyphs.now.items text_len result.end }
    ensures exact { IsOrderedFor (is_backward glyphs.now.direction) (clusters glyphs.now.items)
        → ((k : ℕ) → k < length glyphs.now.items → cluster_at glyphs.now.items k < text_len)
        → ShowsExactly glyphs.now.items start end result.start result.end }
{
    let infos = glyphs.glyph_infos();
    let first = infos[start].cluster;
    let last = infos[end - 1].cluster;
    TextSpan {
        start: first.min(last),
        end: next_cluster(infos, first.max(last), text_len),
    }
}

/// The least cluster above another, or `text_len` if there is none below that.
fn next_cluster(glyphs: &[hb_glyph_info_t], cluster: u32, text_len: u32) -> u32
    ensures ends { EndsIn glyphs.now text_len result }
    ensures above { cluster < text_len → cluster < result }
    ensures least { (k : ℕ) → k < length glyphs.now
        → (cluster_at glyphs.now k ≤ cluster) ⊎ (result ≤ cluster_at glyphs.now k) }
{
    let mut next = text_len;
    for glyph in glyphs {
        if cluster < glyph.cluster && glyph.cluster < next {
            next = glyph.cluster;
        }
    }
    next
}

/// The glyphs that show the text of a span: if the clusters stand in the order of the text's
/// direction, those whose cluster lies in it.
pub fn glyphs_of_text(glyphs: &GlyphBuffer, text: TextSpan) -> GlyphSpan
    ensures ordered { result.start ≤ result.end }
    ensures within { result.end ≤ length glyphs.now.items }
    ensures exact { IsOrderedFor (is_backward glyphs.now.direction) (clusters glyphs.now.items)
        → (k : ℕ) → k < length glyphs.now.items
        → ((result.start ≤ k) × (k < result.end))
        ↔ ((text.start ≤ cluster_at glyphs.now.items k)
        × (cluster_at glyphs.now.items k < text.end)) }
{
    first_to_last(glyphs.glyph_infos(), text)
}

/// From the first glyph whose cluster lies in a span of text up to after the last one.
fn first_to_last(glyphs: &[hb_glyph_info_t], text: TextSpan) -> GlyphSpan
    ensures { FirstToLast glyphs.now text.start text.end
        (length glyphs.now) result.start result.end }
{
    let mut start = 0;
    let mut end = 0;
    for place in 0..glyphs.len() {
        let cluster = glyphs[place].cluster;
        if text.start <= cluster && cluster < text.end {
            if start == end {
                start = place;
            }
            end = place + 1;
        }
    }
    GlyphSpan { start, end }
}

/// Where spans of text end, which text glyphs show and which glyphs show a text, on lists worked
/// out by hand.
pub fn shown_text_meets_worked_cases()
    ensures { WorkedShown }
{}
