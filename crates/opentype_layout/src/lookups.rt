//! The lookups of a plan, ready to be applied.
ghost use Rattle.std.specs.Prelude.{◌≡◌, ◌<◌, ◌^◌, ℕ, List};
ghost use Rattle.std.specs.Option.{ForSome, IfSome, option_map};
ghost use Rattle.layout_digests.specs.LigatureSets.{AreSetsAt, HoldSets};
ghost use Rattle.layout_digests.specs.WholeRules.{HoldWholes};
ghost use Rattle.layout_digests.specs.Stored.{AreStored, IsHead, IsStoredAt};
ghost use Rattle.layout_digests.specs.declared.stored.Head.{Head as HeadOf};
ghost use Rattle.layout_digests.specs.declared.digested.Digested.{Digested as DigestedLookup};
ghost use Rattle.opentype_layout.specs.Digested.{IsSaid};
ghost use Rattle.layout_tables.specs.Lookups.{lookup_of};
ghost use Rattle.opentype_layout.specs.Lookups;

use font_sizes::Scale;
use layout_digests::stored::head_at;
use layout_digests::{Digest, Digested, Head, StoredLookup};
use layout_map::lookups::LookupMap;
use layout_matching::firsts::{First, Firsts};
use layout_matching::ligature_sets::StoredSets;
use layout_matching::lookup::Lookup;
use layout_matching::whole_rules::WholeRule;
use layout_tables::lookups::lookup_count;
use layout_tables::offsets::{header_offset, offset16};

/// The tables that lookups read: `GSUB`, or `GPOS` if `positioning`, and `GDEF`; the coordinates of
/// the font, with what devices of `GPOS` may cost there; and what numbers of `GPOS` are multiplied
/// by, none at no size.
#[derive(Clone, Copy)]
pub struct LookupTables<'a> {
    pub table: &'a [u8],
    pub gdef: &'a [u8],
    pub coordinates: &'a [i32],
    pub device_work: u32,
    pub scale: Option<Scale>,
    pub positioning: bool,
}

/// What is stored of the lookups of a table, of their subtables, of their sets of ligatures, and of
/// their rules of format 3. None need be stored.
#[derive(Clone, Copy)]
pub struct Stored<'a> {
    pub lookups: &'a [StoredLookup],
    pub firsts: &'a [First],
    pub sets: &'a [StoredSets],
    pub wholes: &'a [Vec<Option<WholeRule>>],
}

impl<'a> Stored<'a> {
    /// What is stored of the sets of ligatures of the lookup with this index.
    #[inline(always)]
    pub(crate) fn sets_of(&self, index: u16) -> Option<&'a StoredSets>
        ensures { (table : List ℕ) → HoldSets table self.now.sets.now
            → ForSome result (λ s. AreSetsAt table index s.now) }
    {
        let i = usize::from(index);
        if i < self.sets.len() {
            Some(&self.sets[i])
        } else {
            None
        }
    }
}

/// The list of lookups of a table, read once for all lookups of a stage: where it stands, and how
/// many it has.
#[derive(Clone, Copy)]
pub(crate) struct LookupList {
    place: Option<usize>,
    count: u32,
}

pub(crate) fn list_of(table: &[u8]) -> LookupList
    ensures list { Lookups.IsListOf table.now result }
    ensures near { IfSome result.place (λ list. list < 2 ^ 16) }
{
    LookupList {
        place: header_offset(table, 8),
        count: lookup_count(table),
    }
}

/// Where the lookup with this index stands; none if the table has no such lookup.
fn place_in(table: &[u8], list: LookupList, index: u16) -> Option<usize>
    requires list { Lookups.IsListOf table.now list }
    requires near { IfSome list.place (λ list. list < 2 ^ 16) }
    ensures value { result ≡ lookup_of table.now index }
    ensures near { IfSome result (λ place. place < 2 ^ 17) }
{
    if list.count <= u32::from(index) {
        return None;
    }
    let start = list.place?;
    offset16(table, start, start + 2 + 2 * usize::from(index))
}

/// The least bit of a mask; 0 of an empty one.
fn least_bit(mask: u32) -> u32
    ensures { result ≡ Lookups.least_bit mask }
{
    if mask == 0 {
        0
    } else {
        1 << mask.trailing_zeros()
    }
}

/// The lookup with this head, with the use that a plan makes of it.
#[inline(always)]
fn used<'a>(tables: LookupTables<'a>, map: &LookupMap, head: &Head) -> Lookup<'a>
    ensures { result ≡ Lookups.lookup_by tables.entry map.now head.now }
{
    Lookup {
        table: tables.table,
        gdef: tables.gdef,
        coordinates: tables.coordinates,
        device_work: tables.device_work,
        scale: tables.scale,
        place: head.place,
        flags: head.flags,
        mark_set: head.mark_set,
        mask: map.mask,
        unit: least_bit(map.mask),
        auto_zwnj: map.auto_zwnj,
        auto_zwj: map.auto_zwj,
        per_syllable: map.per_syllable,
        random: map.random,
        positioning: tables.positioning,
    }
}

/// The head of the lookup with this index, as the table has it; none if it has no such lookup.
/// Where a face is opened none is read.
#[inline(never)]
fn head_in(table: &[u8], list: LookupList, index: u16) -> Option<Head>
    requires list { Lookups.IsListOf table.now list }
    requires near { IfSome list.place (λ list. list < 2 ^ 16) }
    ensures place { option_map (λ (h : HeadOf). h.place) result ≡ lookup_of table.now index }
    ensures head { IfSome result (IsHead table.now) }
{
    match place_in(table, list, index) {
        Some(place) => Some(head_at(table, place)),
        None => None,
    }
}

/// What is stored of the lookup with this index; if nothing is, its head and a digest of all
/// glyphs.
#[inline(always)]
pub(crate) fn stored_at(
    tables: LookupTables<'_>,
    list: LookupList,
    stored: Stored<'_>,
    index: u16,
) -> StoredLookup
    requires list { Lookups.IsListOf tables.table.now list }
    requires near { IfSome list.place (λ list. list < 2 ^ 16) }
    requires stored { AreStored tables.table.now tables.positioning stored.firsts.now
        stored.lookups.now }
    ensures { IsStoredAt tables.entry.table.now tables.entry.positioning index
        stored.entry.firsts.now result }
{
    let i = usize::from(index);
    if i < stored.lookups.len() {
        stored.lookups[i]
    } else {
        StoredLookup {
            head: head_in(tables.table, list, index),
            digest: Digest::every(),
            from: 0,
            count: 0,
        }
    }
}

/// A lookup that is stored, with the use that a plan makes of it, and its digest. Inlined, since
/// what it returns would be copied.
#[tactic(auto, using(crate::proofs::StoredLemmas::known_some))]
#[inline(always)]
pub(crate) fn made_ready<'a>(
    tables: LookupTables<'a>,
    stored: Stored<'a>,
    map: &LookupMap,
    known: &StoredLookup,
    head: &Head,
) -> Digested<'a>
    requires known { IsStoredAt tables.table.now tables.positioning map.now.index stored.firsts.now
        known.now }
    requires wholes { HoldWholes tables.table.now tables.positioning stored.wholes.now }
    requires head { known.now.head ≡ Some head.now }
    ensures value { Some result.lookup ≡ Lookups.lookup_of tables.entry map.now }
    ensures by { result.lookup ≡ Lookups.lookup_by tables.entry map.now head.now }
    ensures said { IsSaid tables.entry.positioning result }
{
    Digested {
        lookup: used(tables, map, head),
        digest: known.digest,
        firsts: Firsts {
            all: stored.firsts,
            from: known.from,
            count: known.count,
            wholes: stored.wholes,
            index: map.index,
        },
    }
}
