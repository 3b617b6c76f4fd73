//! Flags of points: one for each, of which a run of equal ones is written once (OpenType, "glyf",
//! simple glyphs).
ghost use Rattle.std.specs.Prelude.{◌≡◌, ◌≤◌, length, IfOk};
ghost use Rattle.std.specs.Option.{IfSome, option_map};
ghost use Rattle.glyf_points.specs.Flags;

use font_bytes::bytes::u8_at;
use std::alloc::{AllocError, Global};

/// The next byte says how many more points have this flag.
const REPEAT: u8 = 8;

/// The flag of a point: for how many more points it counts, and where the next one stands.
#[derive(Clone, Copy)]
pub(crate) struct Flag {
    pub flag: u8,
    pub left: u8,
    pub next: usize,
}

/// Flags of points, and where they end.
#[derive(Drop)]
pub(crate) struct FlagList {
    pub flags: Vec<u8>,
    pub end: usize,
}

/// The flag of the point after one with this flag. None if it is cut off.
pub(crate) fn flag_after(glyph: &[u8], before: Flag) -> Option<Flag>
    requires { before.next ≤ length glyph.now }
    ensures flag { result ≡ Flags.flag_after glyph.now before }
    ensures inside { IfSome result (λ f. f.next ≤ length glyph.now) }
{
    if before.left != 0 {
        return Some(Flag {
            left: before.left - 1,
            ..before
        });
    }
    let flag = u8_at(glyph, before.next);
    let repeats = flag & REPEAT != 0;
    let next = before.next + if repeats { 2 } else { 1 };
    if glyph.len() < next {
        return None;
    }
    let left = if repeats {
        u8_at(glyph, before.next + 1)
    } else {
        0
    };
    Some(Flag { flag, left, next })
}

/// The flags of so many points from a place on. None if they are cut off. Refuses only if a growth
/// was refused.
#[tactic(auto, using(crate::proofs::FlagLemmas::flags_begun, crate::proofs::FlagLemmas::flags_step, crate::proofs::FlagLemmas::flags_cut, crate::proofs::FlagLemmas::flags_end))]
pub(crate) fn flags(
    alloc: Global,
    glyph: &[u8],
    start: usize,
    count: u32,
) -> Result<Option<FlagList>, AllocError>
    requires { start ≤ length glyph.now }
    ensures list { IfOk result (λ found. option_map (λ f. Flags.read f.flags.items f.end) found
        ≡ Flags.flags_of glyph.now count (Flags.first start)) }
    ensures inside { IfOk result (λ found. IfSome found (λ f. f.end ≤ length glyph.now)) }
{
    let mut flags = Vec::new(alloc);
    let mut last = Flag {
        flag: 0,
        left: 0,
        next: start,
    };
    for _i in 0..count {
        let Some(flag) = flag_after(glyph, last) else {
            return Ok(None);
        };
        flags.push(flag.flag)?;
        last = flag;
    }
    Ok(Some(FlagList {
        flags,
        end: last.next,
    }))
}
