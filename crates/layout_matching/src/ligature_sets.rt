//! What is stored of the sets of ligatures of a font, once, by the glyphs that they begin with:
//! what each costs, and which glyphs may follow its first one. Of most sets the glyph after the
//! place refuses each ligature, and then nothing of the table is read.
ghost use Rattle.std.specs.Prelude.{◌≡◌, Some, ◌<◌, ◌≤◌, ◌+◌, ◌-◌, ◌*◌, ◌^◌, ℕ, List, Bool, length, true, false};
ghost use Rattle.std.specs.Option.{IfSome, option_and_then};
ghost use Rattle.layout_tables.specs.Lookups.{lookup_type_of};
ghost use Rattle.layout_matching.specs.Firsts.{may_begin};
ghost use Rattle.layout_matching.specs.LigatureSets as set_rules;
ghost use Rattle.layout_matching.specs.Sifted as Sifting;
ghost use Rattle.layout_matching.specs.Work;
ghost use Rattle.layout_matching.specs.declared.glance.Glance.TheVariants.{Only};

use crate::firsts::First;
use crate::found::number_in;
use crate::indexed::Indexed;
use crate::lookup::Lookup;
use crate::nearest::ends_searches;
use crate::passing::is_free_beside;
use crate::rules::{rule_at, rules};
use crate::sets::passed_charged;
use crate::tally::{Tally, charged};
use crate::work::SUBTABLE_WORK;
use layout_buffer::ItemList;
use shape_font::bytes::{records, u16_at};
use std::alloc::Global;

/// What is stored of a set of ligatures: where its subtable stands and where it does, what its
/// ligatures cost, how many glyphs after the first one the longest has, how often they look beside
/// a place, which glyphs may be a second component, and whether each ligature has one.
#[derive(Clone, Copy, PartialEq, Eq, Debug)]
pub struct LigatureSet {
    pub start: usize,
    pub set: usize,
    pub work: u32,
    pub after: u32,
    pub tries: u32,
    pub seconds: First,
    pub is_closed: bool,
}

/// What is stored of the sets of ligatures of a lookup's first subtable, by the glyphs that they
/// begin with: for each glyph from the first one on the number of its set, if that is stored.
#[derive(Drop)]
pub struct StoredSets {
    pub first: u32,
    pub numbers: Vec<Option<u16>>,
    pub sets: Vec<LigatureSet>,
}

impl StoredSets {
    /// Nothing is stored.
    pub fn none(alloc: Global) -> StoredSets
        ensures { (t : List ℕ) (place : ℕ) → set_rules.AreSets t place result }
    {
        StoredSets {
            first: 0,
            numbers: Vec::new(alloc),
            sets: Vec::new(alloc),
        }
    }

    /// What is stored of the set of a glyph.
    #[inline(always)]
    pub fn for_glyph(&self, glyph: u32) -> Option<&LigatureSet>
        ensures { (t : List ℕ) (place : ℕ) → set_rules.AreSets t place self.now
            → IfSome result (λ s. set_rules.IsSetFor t place glyph s.now) }
    {
        if glyph < self.first {
            return None;
        }
        let i = (glyph - self.first) as usize;
        if self.numbers.len() <= i {
            return None;
        }
        let number = usize::from(self.numbers[i]?);
        if number < self.sets.len() {
            Some(&self.sets[number])
        } else {
            None
        }
    }
}

/// Before the first ligature of a set.
fn no_ligature(start: usize, set: usize) -> LigatureSet
    ensures start { result.start ≡ start }
    ensures set { result.set ≡ set }
    ensures has { (t : List ℕ) (set : ℕ) → set_rules.HasFirst t set 0 result }
    ensures work { result.work ≡ 0 }
    ensures after { result.after ≡ 1 }
    ensures tries { result.tries ≡ 1 }
{
    LigatureSet {
        start,
        set,
        work: 0,
        after: 1,
        tries: 1,
        seconds: First::none(),
        is_closed: true,
    }
}

/// The glyphs that may be a second component, with that of one ligature more. If it has none, each
/// glyph may.
#[tactic(auto, using(crate::proofs::LigatureSetLemmas::second_in, crate::proofs::LigatureSetLemmas::no_second))]
fn with_second(table: &[u8], ligature: usize, seconds: First) -> First
    requires { ligature < 2 ^ 37 }
    ensures out { (glyph : ℕ) → may_begin result glyph ≡ false
        → Sifting.begins_with_another table.now (Only glyph) ligature ≡ true }
    ensures kept { (glyph : ℕ) → may_begin seconds glyph ≡ true → may_begin result glyph ≡ true }
{
    if u16_at(table, ligature + 2) <= 1 {
        return First::every();
    }
    seconds.with_glyph(u32::from(u16_at(table, ligature + 4)))
}

/// What is stored of a set, with ligature `r`, too.
#[tactic(auto, using(crate::proofs::LigatureSetLemmas::null_more, crate::proofs::LigatureSetLemmas::ligature_more))]
fn with_ligature(table: &[u8], set: usize, r: u32, before: LigatureSet) -> LigatureSet
    requires set { set < 2 ^ 36 }
    requires few { r < 2 ^ 16 - 1 }
    requires work { before.work ≤ r * 2 ^ 16 }
    requires after { before.after < 2 ^ 16 }
    requires tries { before.tries ≤ r + 1 }
    ensures start { result.start ≡ before.start }
    ensures set { result.set ≡ before.set }
    ensures has { set_rules.HasFirst table.now set r before
        → set_rules.HasFirst table.now set (r + 1) result }
    ensures work { result.work ≤ (r + 1) * 2 ^ 16 }
    ensures after { result.after < 2 ^ 16 }
    ensures tries { result.tries ≤ r + 2 }
{
    let mut next = before;
    let Some(ligature) = rule_at(table, set, r) else {
        next.work += 1;
        return next;
    };
    let components = u16_at(table, ligature + 2);
    next.work += u32::from(components) + 1;
    next.after = next.after.max(u32::from(components.saturating_sub(1)));
    next.tries += 1;
    next.seconds = with_second(table, ligature, before.seconds);
    next.is_closed = before.is_closed && 1 < components;
    next
}

/// What is stored of the set of ligatures at a place of the table, of the subtable at `start`.
fn stored_set(table: &[u8], start: usize, set: usize) -> LigatureSet
    requires { set < 2 ^ 36 }
    ensures start { result.start ≡ start }
    ensures set { result.set ≡ set }
    ensures has { set_rules.HasSet table.now set result }
{
    let mut stored = no_ligature(start, set);
    for r in 0..records(table, u32::from(u16_at(table, set)), set + 2, 2) {
        stored = with_ligature(table, set, r, stored);
    }
    stored
}

/// What is stored of the set of a glyph in the subtable at `start`, if it has one, and what is left
/// suffices: a step for the set and each of its ligatures.
pub fn stored_for(table: &[u8], start: usize, glyph: u32, left: &mut usize) -> Option<LigatureSet>
    requires { start < 2 ^ 35 }
    ensures { IfSome result (set_rules.IsSetIn table.now start glyph) }
{
    let number = number_in(table, start, glyph)?;
    let set = rules(table, start, 4, number)?;
    *left = charged(1 + usize::from(u16_at(table, set)), *left)?;
    Some(stored_set(table, start, set))
}

/// Whether the glyph right after a place, or the end of the list, refuses each ligature of a set of
/// which this is stored.
#[tactic(auto, using(crate::proofs::LigatureSetLemmas::end_refuses, crate::proofs::LigatureSetLemmas::glyph_refuses))]
#[inline(always)]
fn is_refused(lookup: &Lookup<'_>, items: &ItemList<'_>, at: usize, stored: &LigatureSet) -> bool
    requires { at < length items.now }
    ensures { result ≡ true → (set n : ℕ)
        → set_rules.HasFirst lookup.now.table.now set n stored.now
        → Sifting.AreOut lookup.now.table.now (Sifting.second_glance lookup.now items.now at) set n }
{
    // The list can be counted, so the place after one of its own can.
    let count = items.len();
    let next = at + 1;
    if count <= next {
        return stored.is_closed;
    }
    let there = items.at(next);
    ends_searches(lookup, there) && !stored.seconds.has(there.glyph_id)
}

/// What is left after a subtable of ligatures with a set of which this is stored, and after what
/// its ligatures pass over beside a place. Nearly always that is nothing.
#[tactic(auto, using(crate::proofs::PassingLemmas::passed_free))]
#[inline(always)]
fn left_beside(
    lookup: &Lookup<'_>,
    items: &ItemList<'_>,
    at: usize,
    stored: &LigatureSet,
    left: usize,
) -> Option<usize>
    requires { at < length items.now }
    ensures { result ≡ option_and_then (Work.passed_charged lookup.now false items.now at)
        (set_rules.subtable_paid stored.now left) }
{
    let left = charged(SUBTABLE_WORK, left)?;
    let left = charged(stored.work as usize, left)?;
    let count = Tally {
        left,
        before: 1,
        after: stored.after as usize,
        tries: stored.tries as usize,
    };
    if is_free_beside(lookup, items, at, count) {
        return Some(left);
    }
    passed_charged(lookup, false, items, at, count)
}

/// What is left after the first subtable of a lookup of ligatures, where the subtable and the set
/// of the glyph stand, and whether the glyph after the place refuses each ligature of the set.
#[derive(Clone, Copy, PartialEq, Eq, Debug)]
pub struct PaidSet {
    pub start: usize,
    pub set: usize,
    pub left: usize,
    pub is_refused: bool,
}

/// The set of the first subtable of a lookup of ligatures for the glyph at a place, charged for by
/// what is stored of it; none if nothing is, or if what is left doesn't suffice.
#[tactic(auto, using(crate::proofs::LigatureSetLemmas::stored_charged))]
#[inline(always)]
pub fn set_paid(
    indexed: &Indexed<'_>,
    items: &ItemList<'_>,
    at: usize,
    left: usize,
) -> Option<PaidSet>
    requires inside { at < length items.now }
    requires substitution { indexed.now.lookup.now.positioning ≡ false }
    requires four { lookup_type_of indexed.now.lookup.now.table.now indexed.now.lookup.now.place ≡ 4 }
    ensures left { IfSome result (λ p. Work.charged_at_subtable indexed.now.lookup.now items.now at 0 left
        ≡ Some p.left) }
    ensures start { IfSome result (λ p. set_rules.first_start indexed.now.lookup.now.table.now
        indexed.now.lookup.now.place ≡ Some p.start) }
    ensures set { IfSome result (λ p. Sifting.set_there indexed.now.lookup.now items.now at p.start
        ≡ Some p.set) }
    ensures out { IfSome result (λ p. p.is_refused ≡ true
        → Sifting.AreOut indexed.now.lookup.now.table.now
        (Sifting.second_glance indexed.now.lookup.now items.now at) p.set
        (set_rules.count_of indexed.now.lookup.now.table.now p.set)) }
    ensures near { IfSome result (λ p. p.start < 2 ^ 35) }
    ensures close { IfSome result (λ p. p.set < 2 ^ 36) }
{
    let lookup = indexed.lookup;
    let stored = indexed.set_for(items.at(at).glyph_id)?;
    let left = left_beside(lookup, items, at, stored, left)?;
    Some(PaidSet {
        start: stored.start,
        set: stored.set,
        left,
        is_refused: is_refused(lookup, items, at, stored),
    })
}
