//! Digests of Coverage tables.
ghost use Rattle.std.specs.Prelude.{◌≡◌, ◌<◌, ◌^◌};
ghost use Rattle.shape_font.specs.Bytes.{u16_of};
ghost use Rattle.layout_digests.specs.Coverages;
ghost use Rattle.layout_digests.specs.Digests.{IsWithin};

use crate::digest::Digest;
use shape_font::bytes::{records, u16_at};

/// How many glyphs a list has (format 1).
fn listed_count(table: &[u8], start: usize) -> u32
    requires { start < 2 ^ 40 }
    ensures value { result ≡ Coverages.listed_count table.now start }
    ensures few { result < 2 ^ 16 }
{
    records(table, u32::from(u16_at(table, start + 2)), start + 4, 2)
}

/// How many ranges a list has (format 2).
fn range_count(table: &[u8], start: usize) -> u32
    requires { start < 2 ^ 40 }
    ensures value { result ≡ Coverages.range_count table.now start }
    ensures few { result < 2 ^ 16 }
{
    records(table, u32::from(u16_at(table, start + 2)), start + 4, 6)
}

/// How many glyphs or ranges a Coverage table lists: the steps that its digest takes.
pub fn entry_count(table: &[u8], start: usize) -> u32
    requires { start < 2 ^ 40 }
    ensures { result < 2 ^ 16 }
{
    match u16_at(table, start) {
        1 => listed_count(table, start),
        2 => range_count(table, start),
        _ => 0,
    }
}

/// Puts the glyphs of a list in.
#[tactic(auto, using(crate::proofs::CoverageLemmas::one_listed, crate::proofs::CoverageLemmas::within_then))]
fn with_listed(table: &[u8], start: usize, digest: Digest) -> Digest
    requires { start < 2 ^ 40 }
    ensures glyphs { Coverages.HasListed table.now start result
        (Coverages.listed_count table.now start) }
    ensures kept { IsWithin digest result }
{
    let mut all = digest;
    for i in 0..listed_count(table, start) {
        let glyph = u32::from(u16_at(table, start + 4 + 2 * i as usize));
        all = all.with_range(glyph, glyph);
    }
    all
}

/// Puts the glyphs of a list of ranges in.
#[tactic(auto, using(crate::proofs::CoverageLemmas::one_range, crate::proofs::CoverageLemmas::within_then))]
fn with_ranges(table: &[u8], start: usize, digest: Digest) -> Digest
    requires { start < 2 ^ 40 }
    ensures ranges { Coverages.HasRanges table.now start result
        (Coverages.range_count table.now start) }
    ensures kept { IsWithin digest result }
{
    let mut all = digest;
    for i in 0..range_count(table, start) {
        let at = start + 4 + 6 * i as usize;
        all = all.with_range(
            u32::from(u16_at(table, at)),
            u32::from(u16_at(table, at + 2)),
        );
    }
    all
}

/// Puts the glyphs that the Coverage table at `start` covers into a digest. Takes a step for each
/// glyph or range that it lists.
#[tactic(auto, using(crate::proofs::CoverageLemmas::covered_listed, crate::proofs::CoverageLemmas::covered_ranges, crate::proofs::CoverageLemmas::covered_none))]
pub fn with_coverage(table: &[u8], start: usize, digest: Digest) -> Digest
    requires { start < 2 ^ 40 }
    ensures covered { Coverages.HasCovered table.now start result }
    ensures kept { IsWithin digest result }
{
    match u16_at(table, start) {
        1 => with_listed(table, start, digest),
        2 => with_ranges(table, start, digest),
        _ => digest,
    }
}
