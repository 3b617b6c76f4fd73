//! Which items of a list a lookup meets: those that it is on for, and whose glyphs its digest
//! holds.
ghost use Rattle.std.specs.Prelude.{◌≡◌, ◌<◌, ◌≤◌, length, true, false};
ghost use Rattle.layout_matching.specs.Skipping.{nth};
ghost use Rattle.layout_context.specs.Digested as Digests;
ghost use Rattle.layout_context.specs.Digested.{IsDigested};
ghost use Rattle.layout_context.specs.Reverse.{is_reverse as is_reversed};

use crate::reverse::is_reverse;
use layout_digests::Digested;
use layout_matching::skipping::is_skipped;
use shape_buffer::hb_glyph_info_t;

/// Whether the lookup is on for an item, and its digest holds the glyph. The mask is asked first:
/// many lookups are on for few.
#[inline(always)]
fn meets(named: &Digested<'_>, item: &hb_glyph_info_t) -> bool
    ensures { result ≡ Digests.meets named.now item.now }
{
    item.mask & named.lookup.mask != 0
        && named.digest.has(item.glyph_id)
        && !is_skipped(&named.lookup, item)
}

/// How many of so many items at the start of a slice come before the first one that the lookup
/// meets; all, if it meets none.
#[inline(always)]
pub(crate) fn unmet(named: &Digested<'_>, infos: &[hb_glyph_info_t], most: usize) -> usize
    requires { most ≤ length infos.now }
    ensures few { result ≤ most }
    ensures free { Digests.MeetsNone named.now infos.now result }
    ensures met { result < most → Digests.meets named.now (nth infos.now result) ≡ true }
{
    for k in 0..most {
        if meets(named, &infos[k]) {
            return k;
        }
    }
    most
}

/// Whether a lookup goes forwards, and meets no item of a list.
pub fn is_unmet(named: &Digested<'_>, infos: &[hb_glyph_info_t]) -> bool
    requires { IsDigested named.now }
    ensures none { result ≡ true → Digests.MeetsNone named.now infos.now (length infos.now) }
    ensures forwards { result ≡ true → is_reversed named.now.lookup ≡ false }
{
    unmet(named, infos, infos.len()) == infos.len() && !is_reverse(&named.lookup)
}
