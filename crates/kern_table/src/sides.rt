//! Glyphs that stand in pairs, stored once, so that most pairs need no search.
//!
//! A font kerns few of its glyphs. So for each glyph it is stored whether a pair has it at its
//! left, and whether one has it at its right: two glyphs of which one has no pair have no value.
//! This is done for the first subtable of OpenType's version, if it has format 0: nearly every font
//! has that one alone.
ghost use Rattle.std.specs.Prelude.{◌≡◌, ◌≤◌, ◌<◌, length, true, false, IfOk, IsOkUnless, slice_index_or};
ghost use Rattle.kern_table.specs.Pairs.{IsRead, HoldSides};
ghost use Rattle.kern_table.specs.Sides.{glyph_of_pair, AreMarked, HoldPairs};

use crate::headers::is_apple;
use crate::pairs::{Subtable, read_subtable};
use shape_buffer::buffer::ShapeError;
use shape_font::bytes::long;
use std::alloc::Global;

/// For each glyph whether it stands at the left of a pair, and whether at the right. A glyph past
/// the end may stand at either.
#[derive(Clone, Copy)]
pub struct Sides<'a> {
    pub lefts: &'a [bool],
    pub rights: &'a [bool],
}

impl<'a> Sides<'a> {
    /// No glyph: each may stand at either side.
    pub fn none() -> Sides<'a>
        ensures lefts { length result.lefts.now ≡ 0 }
        ensures rights { length result.rights.now ≡ 0 }
    {
        Sides {
            lefts: &[],
            rights: &[],
        }
    }
}

/// The glyphs that stand in pairs of the first subtable of a table.
#[derive(Drop)]
pub struct PairGlyphs {
    lefts: Vec<bool>,
    rights: Vec<bool>,
}

/// The glyph at a side of pair `i`.
fn glyph_at(subtable: Subtable<'_>, at_left: bool, i: u32) -> u32
    requires read { IsRead subtable }
    requires listed { i < subtable.count }
    ensures { result ≡ glyph_of_pair subtable.entry.kern.now subtable.entry.start at_left i }
{
    let glyphs = long(subtable.kern, subtable.body + 8 + 6 * i as usize);
    if at_left {
        glyphs / 65536
    } else {
        glyphs % 65536
    }
}

/// Marks the glyphs at a side of the pairs of a subtable, among so many glyphs. Refuses with
/// `Memory` if a growth was refused.
fn marks(
    alloc: Global,
    subtable: Subtable<'_>,
    at_left: bool,
    glyph_count: u16,
) -> Result<Vec<bool>, ShapeError>
    requires { IsRead subtable }
    ensures ok { IfOk result (λ marks. AreMarked subtable.entry.kern.now subtable.entry.start at_left
        subtable.entry.count marks.items) }
    ensures few { IfOk result (λ marks. length marks.items ≡ glyph_count) }
    ensures memory { IsOkUnless result ShapeError.Memory }
{
    let mut marks = vec![in alloc; false; usize::from(glyph_count)]?;
    for i in 0..subtable.count {
        let glyph = glyph_at(subtable, at_left, i) as usize;
        if glyph < marks.len() {
            marks[glyph] = true;
        }
    }
    Ok(marks)
}

impl PairGlyphs {
    /// Stores which of so many glyphs stand in pairs of the first subtable, two bytes for each;
    /// nothing if it has another format or no pair, or if the table is Apple's. Refuses with
    /// `Memory` if a growth was refused.
    pub fn new(alloc: Global, kern: &[u8], glyph_count: u16) -> Result<PairGlyphs, ShapeError>
        ensures ok { IfOk result (λ glyphs. HoldPairs kern.now glyphs) }
        ensures few { IfOk result (λ glyphs. (length glyphs.lefts.items ≤ glyph_count)
            × (length glyphs.rights.items ≤ glyph_count)) }
        ensures memory { IsOkUnless result ShapeError.Memory }
    {
        let subtable = read_subtable(kern, 4, Sides::none());
        if is_apple(kern) || subtable.format != 0 || subtable.count == 0 {
            return Ok(PairGlyphs {
                lefts: Vec::new(alloc),
                rights: Vec::new(alloc),
            });
        }
        Ok(PairGlyphs {
            lefts: marks(alloc, subtable, true, glyph_count)?,
            rights: marks(alloc, subtable, false, glyph_count)?,
        })
    }

    /// What is stored.
    pub fn sides(&self) -> Sides<'_>
        ensures lefts { result.lefts.now ≡ self.now.lefts.items }
        ensures rights { result.rights.now ≡ self.now.rights.items }
    {
        Sides {
            lefts: self.lefts.as_slice(),
            rights: self.rights.as_slice(),
        }
    }
}
