//! Alternates (kind 3): by the value of the mask, or at random.
ghost use Rattle.std.specs.Prelude.{◌≡◌, ◌<◌, ◌^◌, length, None};
ghost use Rattle.layout_substitution.specs.Applied;

use crate::apply::{Spot, replace};
use crate::edits::{break_span, item};
use crate::substitutes::{alternate, count, listed, set};
use layout_buffer::GapBuffer;
use layout_matching::lookup::Lookup;
use shape_buffer::hb_glyph_info_t;

/// The value of a mask that asks for an alternate at random.
const MAX_VALUE: u32 = 255;

/// The value that a mask has for the lookup.
fn value(lookup: &Lookup<'_>, there: &hb_glyph_info_t) -> u32
    ensures { result ≡ Applied.value_of lookup.now there.now }
{
    if lookup.unit == 0 {
        0
    } else {
        (there.mask & lookup.mask) / lookup.unit
    }
}

/// Whether the mask asks for an alternate at random: by the greatest value of a feature that lets
/// it.
fn is_random(lookup: &Lookup<'_>, there: &hb_glyph_info_t) -> bool
    ensures { result ≡ Applied.is_random lookup.now there.now }
{
    lookup.random && value(lookup, there) == MAX_VALUE
}

/// The random state after this one, by a product that is cut to 32 bits.
fn next_random(state: u32) -> u32
    ensures { result ≡ Applied.next_random state }
{
    let product = (u64::from(state) * 48271 % 4_294_967_296) as u32;
    product % 2_147_483_647
}

/// An alternate at random of those listed at `set`. It depends on all that was shaped before, so
/// that nothing is safe to break.
fn replace_at_random(
    lookup: &Lookup<'_>,
    buffer: &mut GapBuffer,
    spot: Spot,
    set: usize,
) -> Option<Spot>
    requires near { set < 2 ^ 36 }
    requires inside { spot.at < length buffer.old.items }
    ensures made { buffer.new ≡ (Applied.random_put lookup.now spot buffer.old set).buffer }
    ensures next { result ≡ (Applied.random_put lookup.now spot buffer.old set).next }
    ensures still { result ≡ None → buffer.new ≡ buffer.old }
{
    let count = count(lookup.table, set);
    if count == 0 {
        return None;
    }
    let mut next = spot;
    next.random = next_random(spot.random);
    let glyph = u32::from(listed(lookup.table, set, next.random % count));
    let end = buffer.len();
    break_span(buffer, 0, end);
    replace(lookup, buffer, next, glyph)
}

/// An alternate at random, if the glyph has any.
fn apply_random(
    lookup: &Lookup<'_>,
    start: usize,
    buffer: &mut GapBuffer,
    spot: Spot,
) -> Option<Spot>
    requires near { start < 2 ^ 35 }
    requires inside { spot.at < length buffer.old.items }
    ensures made { buffer.new ≡ (Applied.random_applied lookup.now start spot buffer.old).buffer }
    ensures next { result ≡ (Applied.random_applied lookup.now start spot buffer.old).next }
    ensures still { result ≡ None → buffer.new ≡ buffer.old }
{
    match set(lookup.table, start, item(buffer, spot.at).glyph_id) {
        Some(set) => replace_at_random(lookup, buffer, spot, set),
        None => None,
    }
}

/// An alternate, by the value of the mask, or at random.
#[inline(never)]
pub(crate) fn apply_alternate(
    lookup: &Lookup<'_>,
    start: usize,
    buffer: &mut GapBuffer,
    spot: Spot,
) -> Option<Spot>
    requires near { start < 2 ^ 35 }
    requires inside { spot.at < length buffer.old.items }
    ensures made { buffer.new
        ≡ (Applied.alternate_applied lookup.now start spot buffer.old).buffer }
    ensures next { result ≡ (Applied.alternate_applied lookup.now start spot buffer.old).next }
    ensures still { result ≡ None → buffer.new ≡ buffer.old }
{
    let there = item(buffer, spot.at);
    if is_random(lookup, &there) {
        return apply_random(lookup, start, buffer, spot);
    }
    match alternate(lookup.table, start, there.glyph_id, value(lookup, &there)) {
        Some(glyph) => replace(lookup, buffer, spot, glyph),
        None => None,
    }
}
