//! Lookups of type 1: one glyph for one. They are most of what is tried, so they have a path of
//! their own, on which no table says anew of what type a subtable is, and nothing but a glyph is
//! handed on.
ghost use Rattle.std.specs.Prelude.{◌≡◌, ◌<◌, ◌^◌, length};
ghost use Rattle.layout_substitution.specs.Kinds.{single_in, first_single, single_put, singles_applied};
ghost use Rattle.layout_substitution.specs.Edits.{item_at};

use crate::apply::{Spot, put_glyph};
use crate::edits::{item, next_place};
use crate::substitutes::single;
use layout_buffer::GapBuffer;
use layout_matching::lookup::Lookup;
use layout_tables::lookups::subtable_count;
use layout_tables::offsets::offset16;

/// The glyph in place of this one by subtable `i`.
#[inline(always)]
fn glyph_in(lookup: &Lookup<'_>, glyph: u32, i: u32) -> Option<u32>
    requires near { lookup.now.place < 2 ^ 17 }
    requires few { i < 2 ^ 16 }
    ensures { result ≡ single_in lookup.now glyph i }
{
    let start = offset16(
        lookup.table,
        lookup.place,
        lookup.place + 6 + 2 * i as usize,
    )?;
    single(lookup.table, start, glyph)
}

/// The glyph in place of this one by the first subtable that has one.
#[tactic(auto, using(layout_matching::proofs::LoopLemmas::first_some_next, layout_matching::proofs::LoopLemmas::first_some_found, layout_matching::proofs::LoopLemmas::first_some_end))]
#[inline(always)]
fn first_glyph(lookup: &Lookup<'_>, glyph: u32) -> Option<u32>
    requires { lookup.now.place < 2 ^ 17 }
    ensures { result ≡ first_single lookup.now glyph }
{
    for i in 0..subtable_count(lookup.table, lookup.place) {
        if let Some(other) = glyph_in(lookup, glyph, i) {
            return Some(other);
        }
    }
    None
}

/// Puts the glyph of the first subtable that has one at a place, and returns it.
#[inline(never)]
fn put_first_glyph(lookup: &Lookup<'_>, buffer: &mut GapBuffer, at: usize) -> Option<u32>
    requires { lookup.now.place < 2 ^ 17 }
    ensures made { buffer.new ≡ single_put lookup.now at buffer.old }
    ensures put { result ≡ first_single lookup.now (item_at buffer.old at).glyph_id }
{
    let there = item(buffer, at);
    let put = first_glyph(lookup, there.glyph_id);
    if let Some(glyph) = put {
        put_glyph(lookup, buffer, at, glyph);
    }
    put
}

/// A lookup of type 1 at a place.
#[inline(always)]
pub(crate) fn apply_singles(lookup: &Lookup<'_>, buffer: &mut GapBuffer, spot: Spot) -> Option<Spot>
    requires near { lookup.now.place < 2 ^ 17 }
    requires inside { spot.at < length buffer.old.items }
    ensures made { buffer.new ≡ (singles_applied lookup.now spot buffer.old).buffer }
    ensures next { result ≡ (singles_applied lookup.now spot buffer.old).next }
{
    let count = buffer.len();
    match put_first_glyph(lookup, buffer, spot.at) {
        Some(_) => {
            let mut next = spot;
            next.at = next_place(count, spot.at);
            Some(next)
        }
        None => None,
    }
}
