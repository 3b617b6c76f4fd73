//! Steps of a walk over a buffer: where it stands, what a step is charged, and how many steps lead
//! past glyphs that the digest of the lookup doesn't hold, with none of them tried.
ghost use Rattle.std.specs.Prelude.{◌≡◌, ℕ, ◌<◌, ◌≤◌, ◌+◌, ◌^◌, false, length};
ghost use Rattle.layout_matching.specs.Found as found_rules;
ghost use Rattle.layout_matching.specs.Loops.{times};
ghost use Rattle.layout_matching.specs.Work;
ghost use Rattle.layout_positions.specs.Digested.{IsDigested, AreUnheld};
ghost use Rattle.layout_positions.specs.Walk;
ghost use Rattle.layout_positions.specs.declared.bases.BaseSeen.{BaseSeen};

use crate::subtables::Carried;
use layout_buffer::ItemList;
use layout_digests::{Digest, Digested};
use layout_matching::beside::plain_charged;
use layout_matching::indexed::Indexed;
use layout_matching::skipping::is_transparent;
use layout_matching::work::lookup_charged;
use shape_buffer::{hb_buffer_t, hb_glyph_info_t};

/// Where a walk over a buffer stands, and what is carried on.
#[derive(Clone, Copy)]
pub struct Spot {
    pub at: usize,
    pub carried: Carried,
}

/// What is left after a lookup that isn't one of context was charged at a place.
#[inline(always)]
pub(crate) fn charge(
    indexed: &Indexed<'_>,
    buffer: &hb_buffer_t,
    at: usize,
    left: usize,
) -> Option<usize>
    requires near { indexed.now.lookup.now.place < 2 ^ 17 }
    requires plain { found_rules.is_context indexed.now.lookup.now ≡ false }
    requires inside { at < length buffer.now.items }
    ensures { result ≡ Work.lookup_charged indexed.now.lookup.now buffer.now.items at left }
{
    let lookup = indexed.lookup;
    let infos = buffer.infos();
    if !lookup.positioning {
        return lookup_charged(indexed, &ItemList::of_slice(infos), at, left);
    }
    if is_transparent(lookup, false, &infos[at]) {
        plain_charged(lookup, &ItemList::of_slice(infos), at, left)
    } else {
        Some(left)
    }
}

/// How many glyphs from a place on, of so many, a digest doesn't hold.
#[tactic(auto, using(crate::proofs::DigestLemmas::one_unheld))]
fn unheld(digest: &Digest, items: &[hb_glyph_info_t], from: usize, most: usize) -> usize
    requires { from + most ≤ length items.now }
    ensures few { result ≤ most }
    ensures free { AreUnheld digest.now items.now from result }
{
    for k in 0..most {
        if digest.has(items[from + k].glyph_id) {
            return k;
        }
    }
    most
}

/// How many steps of a walk, at most so many, lead to the next glyph that the digest of the lookup
/// holds.
#[inline(always)]
pub(crate) fn steps_over(
    named: &Digested<'_>,
    buffer: &hb_buffer_t,
    at: usize,
    most: usize,
) -> usize
    requires said { IsDigested named.now }
    ensures few { result ≤ most }
    ensures fits { at + result < 2 ^ 64 }
    ensures passed { (seen : BaseSeen) (left : ℕ) → record {
      buffer = buffer.now;
      at = at + result;
      seen = seen;
      left = left;
    } ≡ times (Walk.lookup_step named.now.lookup) result
        (record { buffer = buffer.now; at = at; seen = seen; left = left }) }
{
    if buffer.len() <= at {
        return 0;
    }
    unheld(
        &named.digest,
        buffer.infos(),
        at,
        most.min(buffer.len() - at),
    )
}
