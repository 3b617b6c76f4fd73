//! What is stored of the lookups of a table, once for a font: for each the set of the glyphs that
//! it may begin at, and if it has more than one subtable, such a set for each of these.
ghost use Rattle.std.specs.Prelude.{◌≡◌, ◌+◌, ◌≤◌, ◌<◌, ◌^◌, length, IfOk, OnOk, IsOkUnless};
ghost use Rattle.std.specs.Option.{IfSome, option_map};
ghost use Rattle.layout_tables.specs.Lookups.{lookup_count_of, lookup_of};
ghost use Rattle.layout_digests.specs.declared.stored.Head.{Head as HeadOf};
ghost use Rattle.layout_digests.specs.Stored as stored_rules;
ghost use Rattle.layout_digests.specs.WholeRules.{HoldWholes};

use crate::digest::Digest;
use crate::lookups::{Lookups, Reading, digest_of, with_subtable};
use crate::whole_rules::stored_wholes;
use layout_matching::firsts::First;
use layout_matching::whole_rules::WholeRule;
use layout_tables::lookups::{
    lookup, lookup_count, lookup_flag, lookup_type, mark_filtering_set, subtable_count,
};
use shape_buffer::ShapeError;
use std::alloc::Global;

/// What a lookup begins with (OpenType, "Lookup table"): where it stands in its table, its flags
/// and its set of marks, its type, and how many subtables it has.
#[derive(Clone, Copy)]
pub struct Head {
    pub place: usize,
    pub flags: u16,
    pub mark_set: u16,
    pub kind: u16,
    pub subtables: u32,
}

/// What is stored of a lookup: its head, none if the table has no such lookup, its digest, and
/// which of the stored subtables are its own.
#[derive(Clone, Copy)]
pub struct StoredLookup {
    pub head: Option<Head>,
    pub digest: Digest,
    pub from: u32,
    pub count: u32,
}

/// What is stored of the lookups of a table, by their indexes, of the subtables of all of them, one
/// lookup after the other, and for each lookup of the rules of format 3 of its subtables.
#[derive(Drop)]
pub struct StoredLookups {
    pub lookups: Vec<StoredLookup>,
    pub firsts: Vec<First>,
    pub wholes: Vec<Vec<Option<WholeRule>>>,
}

/// Which of the stored subtables are those of a lookup, and how many entries and subtables may
/// still be read.
#[derive(Clone, Copy)]
struct Span {
    from: u32,
    count: u32,
    left: usize,
}

/// Stores the subtables of the lookup at `place` from number `from` on.
#[tactic(auto, using(crate::proofs::StoredLemmas::one_first, crate::proofs::StoredLemmas::extended))]
fn push_subtables(
    firsts: &mut Vec<First>,
    lookups: Lookups<'_>,
    place: usize,
    span: Span,
) -> Result<Span, ShapeError>
    requires place { place < 2 ^ 17 }
    requires from { span.from ≡ length firsts.old.items }
    requires count { span.count < 2 ^ 16 }
    ensures inside { IfOk result (λ s. s.from + s.count ≤ length firsts.new.items) }
    ensures held { IfOk result (λ s. stored_rules.HoldsFirsts lookups.entry.table.now
        lookups.entry.positioning place firsts.new.items s.from s.count) }
    ensures kept { OnOk result (stored_rules.Extends firsts.old.items firsts.new.items) }
    ensures memory { IsOkUnless result ShapeError.Memory }
{
    let mut left = span.left;
    for i in 0..span.count {
        let digest = Digest::new();
        let reading = with_subtable(lookups, place, i, Reading { digest, left });
        left = reading.left;
        firsts.push(reading.digest.words())?;
    }
    Ok(Span {
        from: span.from,
        count: span.count,
        left,
    })
}

/// Stores the subtables of the lookup at `place`, if it has more than one: the digest of the lookup
/// says as much of one alone.
#[tactic(auto, using(crate::proofs::StoredLemmas::nothing_held, crate::proofs::StoredLemmas::as_before))]
fn push_lookup(
    firsts: &mut Vec<First>,
    lookups: Lookups<'_>,
    place: usize,
    left: usize,
) -> Result<Span, ShapeError>
    requires place { place < 2 ^ 17 }
    ensures inside { IfOk result (λ s. s.from + s.count ≤ length firsts.new.items) }
    ensures held { IfOk result (λ s. stored_rules.HoldsFirsts lookups.entry.table.now
        lookups.entry.positioning place firsts.new.items s.from s.count) }
    ensures kept { OnOk result (stored_rules.Extends firsts.old.items firsts.new.items) }
    ensures memory { IsOkUnless result ShapeError.Memory }
{
    let count = subtable_count(lookups.table, place);
    let from = firsts.len();
    if count < 2 || left < count as usize || u32::MAX as usize <= from {
        return Ok(Span {
            from: 0,
            count: 0,
            left,
        });
    }
    let left = left - count as usize;
    push_subtables(
        firsts,
        lookups,
        place,
        Span {
            from: from as u32,
            count,
            left,
        },
    )
}

/// What is stored of the lookup with this index, of no glyph if the table has no such lookup.
fn push_index(
    firsts: &mut Vec<First>,
    lookups: Lookups<'_>,
    index: u16,
    left: usize,
) -> Result<Span, ShapeError>
    ensures inside { IfOk result (λ s. s.from + s.count ≤ length firsts.new.items) }
    ensures held { IfOk result (λ s. stored_rules.HoldsFirstsAt lookups.entry.table.now
        lookups.entry.positioning index firsts.new.items s.from s.count) }
    ensures kept { OnOk result (stored_rules.Extends firsts.old.items firsts.new.items) }
    ensures memory { IsOkUnless result ShapeError.Memory }
{
    match lookup(lookups.table, index) {
        Some(place) => push_lookup(firsts, lookups, place, left),
        None => Ok(Span {
            from: 0,
            count: 0,
            left,
        }),
    }
}

/// The head of the lookup at `place`.
pub fn head_at(table: &[u8], place: usize) -> Head
    requires { place < 2 ^ 17 }
    ensures place { result.place ≡ place }
    ensures head { stored_rules.IsHead table.now result }
{
    Head {
        place,
        flags: lookup_flag(table, place),
        mark_set: mark_filtering_set(table, place),
        kind: lookup_type(table, place),
        subtables: subtable_count(table, place),
    }
}

/// The head of the lookup with this index; none if the table has no such lookup.
fn head_of(table: &[u8], index: u16) -> Option<Head>
    ensures place { option_map (λ (h : HeadOf). h.place) result ≡ lookup_of table.now index }
    ensures head { IfSome result (stored_rules.IsHead table.now) }
{
    match lookup(table, index) {
        Some(place) => Some(head_at(table, place)),
        None => None,
    }
}

/// What is stored of each lookup of a table. Takes a step for each entry of their lists and for
/// each subtable, and no more steps than three times the bytes of the table. Refuses with `Memory` if a
/// growth was refused.
#[tactic(auto, using(crate::proofs::StoredLemmas::one_stored, crate::proofs::StoredLemmas::all_inside))]
pub fn stored(alloc: Global, lookups: Lookups<'_>) -> Result<StoredLookups, ShapeError>
    ensures ok { IfOk result (λ s. stored_rules.AreStored lookups.entry.table.now
        lookups.entry.positioning s.firsts.items s.lookups.items) }
    ensures count { IfOk result (λ s. length s.lookups.items
        ≡ lookup_count_of lookups.entry.table.now) }
    ensures wholes { IfOk result (λ s. HoldWholes lookups.entry.table.now
        lookups.entry.positioning s.wholes.items) }
    ensures memory { IsOkUnless result ShapeError.Memory }
{
    let count = lookup_count(lookups.table);
    let mut left = lookups.table.len();
    let mut rest = lookups.table.len();
    let mut firsts = Vec::new(alloc);
    let mut all = Vec::with_capacity(alloc, count as usize)?;
    for index in 0..count {
        let reading = digest_of(lookups, index as u16, left);
        left = reading.left;
        let span = push_index(&mut firsts, lookups, index as u16, rest)?;
        rest = span.left;
        all.push(StoredLookup {
            head: head_of(lookups.table, index as u16),
            digest: reading.digest,
            from: span.from,
            count: span.count,
        })?;
    }
    let wholes = stored_wholes(alloc, lookups)?;
    Ok(StoredLookups {
        lookups: all,
        firsts,
        wholes,
    })
}
