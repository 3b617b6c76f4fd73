//! The glyphs of a text as they are cut at allowed places, each with what the lists of places say
//! of it.
ghost use Rattle.std.specs.Prelude.{◌≡◌, ℕ, ◌<◌, ◌≤◌, ◌==◌, ◌&&◌, nat_lt, length, slice_index, IfOk};
ghost use Rattle.std.specs.List.Sorted.{IsNonDecreasing};
ghost use Rattle.shape_items.specs.Clusters.{clusters};
ghost use Rattle.shape_lines.specs.CanCut.{IsMonotone};
ghost use Rattle.shape_lines.specs.Spots.{marks_of, spots_of};
ghost use Rattle.shape_lines.specs.TextOrder.{text_order};

use crate::reading::{begins_cluster, cluster_at, piece_at};
use shape_buffer::buffer::GlyphBuffer;
use std::alloc::{AllocError, Global};

/// Where the lines of a text may end, in units of its clusters. Each list rises.
#[derive(Clone, Copy, Debug)]
pub struct Breaks<'a> {
    /// Where a line may end: before the glyphs of each of these clusters.
    pub allowed: &'a [u32],
    /// Where a line must end.
    pub mandatory: &'a [u32],
    /// The clusters of spaces: those that stand last in a line aren't measured.
    pub spaces: &'a [u32],
    /// Whether a line may end at any place of a cut, where none that ends at an allowed place fits.
    pub anywhere: bool,
}

/// A glyph: its width, whether a line may or must end before it by the lists, whether the place is
/// one of a cut, and whether the glyph is a space's.
#[derive(Clone, Copy, Debug)]
pub(super) struct Spot {
    pub(super) width: i64,
    pub(super) allowed: bool,
    pub(super) mandatory: bool,
    pub(super) safe: bool,
    pub(super) space: bool,
}

/// Which glyphs of a text have a cluster of each list.
#[derive(Drop)]
struct ListMarks {
    allowed: Vec<bool>,
    mandatory: Vec<bool>,
    spaces: Vec<bool>,
}

/// The glyphs in the order of the text.
pub(super) fn spots(
    alloc: Global,
    glyphs: &GlyphBuffer,
    breaks: &Breaks<'_>,
) -> Result<Vec<Spot>, AllocError>
    requires monotone { IsMonotone (clusters glyphs.now.items) }
    requires allowed { IsNonDecreasing breaks.now.allowed.now }
    requires mandatory { IsNonDecreasing breaks.now.mandatory.now }
    requires spaces { IsNonDecreasing breaks.now.spaces.now }
    ensures { IfOk result (λ spots. spots.items ≡ spots_of glyphs.now breaks.now.allowed.now
        breaks.now.mandatory.now breaks.now.spaces.now) }
{
    let marks = marks_of_lists(alloc, glyphs, breaks)?;
    let mut spots = Vec::with_capacity(alloc, glyphs.len())?;
    for place in 0..glyphs.len() {
        let begins = begins_cluster(glyphs, place);
        let piece = piece_at(glyphs, place);
        spots.push(Spot {
            width: piece.width,
            allowed: both(begins, marks.allowed[place]),
            mandatory: both(begins, marks.mandatory[place]),
            safe: piece.cut,
            space: marks.spaces[place],
        })?;
    }
    Ok(spots)
}

/// Which glyphs of the text have a cluster of each list.
fn marks_of_lists(
    alloc: Global,
    glyphs: &GlyphBuffer,
    breaks: &Breaks<'_>,
) -> Result<ListMarks, AllocError>
    requires monotone { IsMonotone (clusters glyphs.now.items) }
    requires allowed { IsNonDecreasing breaks.now.allowed.now }
    requires mandatory { IsNonDecreasing breaks.now.mandatory.now }
    requires spaces { IsNonDecreasing breaks.now.spaces.now }
    ensures allowed { IfOk result (λ marks. marks.allowed.items
        ≡ marks_of breaks.now.allowed.now (text_order glyphs.now)) }
    ensures mandatory { IfOk result (λ marks. marks.mandatory.items
        ≡ marks_of breaks.now.mandatory.now (text_order glyphs.now)) }
    ensures spaces { IfOk result (λ marks. marks.spaces.items
        ≡ marks_of breaks.now.spaces.now (text_order glyphs.now)) }
{
    Ok(ListMarks {
        allowed: marks(alloc, glyphs, breaks.allowed)?,
        mandatory: marks(alloc, glyphs, breaks.mandatory)?,
        spaces: marks(alloc, glyphs, breaks.spaces)?,
    })
}

/// Which glyphs of the text have a cluster of this list, which rises.
fn marks(alloc: Global, glyphs: &GlyphBuffer, listed: &[u32]) -> Result<Vec<bool>, AllocError>
    requires monotone { IsMonotone (clusters glyphs.now.items) }
    requires sorted { IsNonDecreasing listed.now }
    ensures { IfOk result (λ marks. marks.items ≡ marks_of listed.now (text_order glyphs.now)) }
{
    let mut marks = Vec::with_capacity(alloc, glyphs.len())?;
    let mut next = 0;
    for place in 0..glyphs.len() {
        let cluster = cluster_at(glyphs, place);
        next = skip_below(listed, next, cluster);
        marks.push(is_next(listed, next, cluster))?;
    }
    Ok(marks)
}

/// Whether both hold.
fn both(one: bool, other: bool) -> bool
    ensures { result ≡ (one && other) }
{
    one && other
}

/// Whether a cluster stands at a place of a list.
fn is_next(listed: &[u32], next: usize, cluster: u32) -> bool
    ensures { result ≡ (nat_lt next (length listed.now) && (slice_index listed.now next == cluster)) }
{
    next < listed.len() && listed[next] == cluster
}

/// The first place of a list, from a place on, whose cluster isn't below this one.
fn skip_below(listed: &[u32], from: usize, cluster: u32) -> usize
    requires { from ≤ length listed.now }
    ensures order { from ≤ result }
    ensures within { result ≤ length listed.now }
    ensures below { (k : ℕ) → from ≤ k → k < result → slice_index listed.now k < cluster }
    ensures reached { result < length listed.now → cluster ≤ slice_index listed.now result }
{
    for at in from..listed.len() {
        if listed[at] >= cluster {
            return at;
        }
    }
    listed.len()
}
