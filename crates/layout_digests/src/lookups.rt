//! Digests of the lookups of a table (`GSUB`, or `GPOS`): the glyphs that each may begin at.
//!
//! Lookups may share subtables, and subtables lists, so that lists are read more often than the
//! table has bytes for. Once as many entries and subtables were read as the table has bytes, a
//! lookup's digest holds every glyph: so it takes time in step with the bytes, whatever they are.
ghost use Rattle.std.specs.Prelude.{◌≡◌, ◌<◌, ◌^◌, ℕ, false};
ghost use Rattle.std.specs.Option.{IfSome, option_map_or};
ghost use Rattle.layout_tables.specs.Coverage.{covers};
ghost use Rattle.layout_digests.specs.Coverages.{HasCovered};
ghost use Rattle.layout_digests.specs.Digests.{IsWithin};
ghost use Rattle.layout_digests.specs.Lookups as lookup_rules;

use crate::coverage::{entry_count, with_coverage};
use crate::digest::Digest;
use layout_matching::formats::first_of_rule;
use layout_tables::lookups::{LookupSubtable, lookup, subtable, subtable_count};
use layout_tables::offsets::offset16;
use shape_font::bytes::u16_at;

/// A table of lookups: `GSUB`, or `GPOS` if `positioning`.
#[derive(Clone, Copy)]
pub struct Lookups<'a> {
    pub table: &'a [u8],
    pub positioning: bool,
}

/// A digest as far as it is made, and how many entries and subtables may still be read.
#[derive(Clone, Copy)]
pub(crate) struct Reading {
    pub digest: Digest,
    pub left: usize,
}

pub(crate) fn is_chained_kind(positioning: bool, kind: u16) -> bool
    ensures { result ≡ lookup_rules.is_chained_kind positioning kind }
{
    kind == if positioning { 8 } else { 6 }
}

pub(crate) fn is_context_kind(positioning: bool, kind: u16) -> bool
    ensures { result ≡ lookup_rules.is_context_kind positioning kind }
{
    kind == if positioning { 7 } else { 5 } || is_chained_kind(positioning, kind)
}

pub(crate) fn extension_kind(positioning: bool) -> u16
    ensures { result ≡ lookup_rules.extension_kind positioning }
{
    if positioning { 9 } else { 7 }
}

/// Where the Coverage table of the glyphs stands that the subtable begins at; none if it begins at
/// none.
#[tactic(auto, using(crate::proofs::LookupLemmas::numbered, crate::proofs::LookupLemmas::ruled))]
fn first_coverage(lookups: Lookups<'_>, subtable: LookupSubtable) -> Option<usize>
    requires { subtable.start < 2 ^ 35 }
    ensures value { (glyph : ℕ)
        → lookup_rules.begins_at lookups.entry.table.now lookups.entry.positioning subtable glyph
        ≡ option_map_or (λ list. covers lookups.entry.table.now list glyph) result false }
    ensures near { IfSome result (λ list. list < 2 ^ 40) }
{
    let (table, start) = (lookups.table, subtable.start);
    if is_context_kind(lookups.positioning, subtable.kind) && u16_at(table, start) == 3 {
        let is_chain = is_chained_kind(lookups.positioning, subtable.kind);
        return first_of_rule(table, is_chain, start);
    }
    offset16(table, start, start + 2)
}

/// Puts the glyphs in that the Coverage table at `list` covers, or all glyphs if too much was read.
pub(crate) fn with_list(table: &[u8], list: usize, reading: Reading) -> Reading
    requires { list < 2 ^ 40 }
    ensures covered { HasCovered table.now list result.digest }
    ensures kept { IsWithin reading.digest result.digest }
{
    let count = entry_count(table, list) as usize;
    if reading.left < count {
        return Reading {
            digest: Digest::every(),
            left: 0,
        };
    }
    Reading {
        digest: with_coverage(table, list, reading.digest),
        left: reading.left - count,
    }
}

/// Puts the glyphs in that subtable `i` of the lookup at `place` begins at.
pub(crate) fn with_subtable(lookups: Lookups<'_>, place: usize, i: u32, reading: Reading) -> Reading
    requires place { place < 2 ^ 17 }
    requires few { i < 2 ^ 16 }
    ensures firsts { lookup_rules.HasFirst lookups.entry.table.now lookups.entry.positioning place
        i result.digest }
    ensures kept { IsWithin reading.digest result.digest }
{
    let extension = extension_kind(lookups.positioning);
    let Some(subtable) = subtable(lookups.table, extension, place, i) else {
        return reading;
    };
    match first_coverage(lookups, subtable) {
        Some(list) => with_list(lookups.table, list, reading),
        None => reading,
    }
}

/// The digest of the lookup at `place`, and how much may still be read.
#[tactic(auto, using(crate::proofs::LookupLemmas::one_more))]
fn lookup_digest(lookups: Lookups<'_>, place: usize, left: usize) -> Reading
    requires { place < 2 ^ 17 }
    ensures { lookup_rules.IsDigest lookups.entry.table.now lookups.entry.positioning place
        result.digest }
{
    let count = subtable_count(lookups.table, place);
    if left < count as usize {
        return Reading {
            digest: Digest::every(),
            left,
        };
    }
    let mut reading = Reading {
        digest: Digest::new(),
        left: left - count as usize,
    };
    for i in 0..count {
        reading = with_subtable(lookups, place, i, reading);
    }
    reading
}

/// The digest of the lookup with this index, of no glyph if the table has no such lookup.
pub(crate) fn digest_of(lookups: Lookups<'_>, index: u16, left: usize) -> Reading
    ensures { lookup_rules.IsDigestAt lookups.entry.table.now lookups.entry.positioning index
        result.digest }
{
    match lookup(lookups.table, index) {
        Some(place) => lookup_digest(lookups, place, left),
        None => Reading {
            digest: Digest::new(),
            left,
        },
    }
}
