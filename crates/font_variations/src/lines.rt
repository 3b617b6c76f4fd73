//! What is added to the measures of lines at some coordinates, by the table `MVAR`.
ghost use Rattle.std.specs.Prelude.{◌≡◌, ◌<◌, ◌^◌};
ghost use Rattle.font_variations.specs.Lines;

use crate::deltas::delta;
use crate::parts::part_at;
use font_bytes::bytes::{u16_at, u32_at};

/// The first of so many records of this size that is for the tag.
#[tactic(auto, using(crate::proofs::LineLemmas::tagged_next, crate::proofs::LineLemmas::tagged_here, crate::proofs::LineLemmas::tagged_end))]
fn tagged(mvar: &[u8], tag: u32, size: u16, count: u16) -> Option<u16>
    ensures { result ≡ Lines.tagged_from mvar.now tag size count 0 }
{
    for i in 0..count {
        if u32_at(mvar, 12 + usize::from(size) * usize::from(i)) == tag {
            return Some(i);
        }
    }
    None
}

/// Whether the table is read: it is of major version 1, and holds all records, which have room for
/// what they say.
fn has_records(mvar: &[u8]) -> bool
    ensures { result ≡ Lines.has_records mvar.now }
{
    let size = usize::from(u16_at(mvar, 6));
    u16_at(mvar, 0) == 1 && 8 <= size && 12 + size * usize::from(u16_at(mvar, 8)) <= mvar.len()
}

/// What record `i` says.
fn record_delta(mvar: &[u8], coordinates: &[i32], i: u16) -> f32
    ensures { result ≡ Lines.record_delta mvar.now coordinates.now i }
{
    let store = part_at(mvar, usize::from(u16_at(mvar, 10)));
    let at = 16 + usize::from(u16_at(mvar, 6)) * usize::from(i);
    delta(store, coordinates, u32_at(mvar, at))
}

/// What is added at the coordinates to the measure with this tag, as `hasc`, before it is rounded;
/// 0 if the table has no record for it.
#[tactic(auto, unfolding(crate::specs::Lines::line_delta))]
pub fn line_delta(mvar: &[u8], coordinates: &[i32], tag: u32) -> f32
    ensures { result ≡ Lines.line_delta mvar.now coordinates.now tag }
{
    if !has_records(mvar) {
        return 0.0;
    }
    match tagged(mvar, tag, u16_at(mvar, 6), u16_at(mvar, 8)) {
        Some(i) => record_delta(mvar, coordinates, i),
        None => 0.0,
    }
}
