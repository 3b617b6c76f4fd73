//! A lookup with what is stored of its subtables, so that those are passed over that don't begin
//! at a glyph: nothing of them is read. What the lookup does is the same.
ghost use Rattle.std.specs.Prelude.{◌≡◌, ◌≤◌, ◌<◌, ◌+◌, ℕ, length, false};
ghost use Rattle.std.specs.Option.{ForSome, IfSome};
ghost use Rattle.layout_matching.specs.Firsts.{AreFirsts, AreOut, IsOut};
ghost use Rattle.layout_matching.specs.LigatureSets.{AreSets, IsSetFor};
ghost use Rattle.layout_matching.specs.WholeRules.{AreWholesOf, IsWholeOf};

use crate::firsts::Firsts;
use crate::ligature_sets::{LigatureSet, StoredSets};
use crate::lookup::Lookup;
use crate::whole_rules::WholeRule;

/// A lookup, the glyphs that its subtables may begin at and their rules of format 3, as far as
/// these are stored, and what is stored of the sets of ligatures of its first subtable.
#[derive(Clone, Copy)]
pub struct Indexed<'a> {
    pub lookup: &'a Lookup<'a>,
    firsts: Firsts<'a>,
    sets: Option<&'a StoredSets>,
    ghost stored: { AreFirsts lookup.now firsts },
    ghost ruled: { AreWholesOf lookup.now firsts },
    ghost said: { ForSome sets (λ s. AreSets lookup.now.table.now lookup.now.place s.now) },
}

impl<'a> Indexed<'a> {
    /// A lookup with what is stored of its subtables.
    #[inline(always)]
    pub fn new(lookup: &'a Lookup<'a>, firsts: Firsts<'a>) -> Indexed<'a>
        requires firsts { AreFirsts lookup.now firsts }
        requires wholes { AreWholesOf lookup.now firsts }
        ensures { result.lookup.now ≡ lookup.now }
    {
        Indexed {
            lookup,
            firsts,
            sets: None,
        }
    }

    /// The same, with what is stored of sets of ligatures.
    #[inline(always)]
    pub fn with_sets(
        lookup: &'a Lookup<'a>,
        firsts: Firsts<'a>,
        sets: Option<&'a StoredSets>,
    ) -> Indexed<'a>
        requires firsts { AreFirsts lookup.now firsts }
        requires wholes { AreWholesOf lookup.now firsts }
        requires sets { ForSome sets (λ s. AreSets lookup.now.table.now lookup.now.place s.now) }
        ensures { result.lookup.now ≡ lookup.now }
    {
        Indexed {
            lookup,
            firsts,
            sets,
        }
    }

    /// A lookup of whose subtables nothing is stored.
    #[inline(always)]
    pub fn unstored(lookup: &'a Lookup<'a>) -> Indexed<'a>
        ensures { result.lookup.now ≡ lookup.now }
    {
        let firsts = Firsts {
            all: &[],
            from: 0,
            count: 0,
            wholes: &[],
            index: 0,
        };
        Indexed {
            lookup,
            firsts,
            sets: None,
        }
    }

    /// What is stored of the set of ligatures of a glyph in the first subtable.
    #[inline(always)]
    pub fn set_for(&self, glyph: u32) -> Option<&'a LigatureSet>
        ensures { IfSome result (λ s. IsSetFor self.now.lookup.now.table.now self.now.lookup.now.place
            glyph s.now) }
    {
        self.sets?.for_glyph(glyph)
    }

    /// What is stored of the one rule of subtable `i`.
    #[inline(always)]
    pub fn whole_at(&self, i: u32) -> Option<&'a WholeRule>
        ensures { IfSome result (λ w. IsWholeOf self.now.lookup.now i w.now) }
    {
        let wholes = self.firsts.wholes_of();
        let i = i as usize;
        if i < wholes.len() {
            wholes[i].as_ref()
        } else {
            None
        }
    }

    /// The next of so many subtables, from number `i` on, that may begin at a glyph; their count,
    /// if none may. Those before it do nothing there.
    #[inline(always)]
    pub fn next_begun(&self, i: u32, count: u32, glyph: u32) -> u32
        requires { i ≤ count }
        ensures from { i ≤ result }
        ensures few { result ≤ count }
        ensures out { AreOut self.now.lookup.now i result glyph }
    {
        let stored = self.stored_of(count);
        for k in i..stored {
            if self.stored_begins(k, glyph) {
                return k;
            }
        }
        i.max(stored)
    }

    /// How many of so many subtables are stored.
    #[inline(always)]
    fn stored_of(&self, count: u32) -> u32
        ensures few { result ≤ count }
        ensures said { result ≤ self.now.firsts.count }
        ensures inside { (k : ℕ) → k < result
            → self.now.firsts.from + k < length self.now.firsts.all.now }
    {
        let most = count.min(self.firsts.count);
        let room = self
            .firsts
            .all
            .len()
            .saturating_sub(self.firsts.from as usize);
        if room < most as usize {
            room as u32
        } else {
            most
        }
    }

    /// Whether a subtable that is stored may begin at a glyph. If not, it does nothing there.
    #[inline(always)]
    fn stored_begins(&self, k: u32, glyph: u32) -> bool
        requires said { k < self.now.firsts.count }
        requires inside { self.now.firsts.from + k < length self.now.firsts.all.now }
        ensures { result ≡ false → IsOut self.now.lookup.now k glyph }
    {
        self.firsts.all[self.firsts.from as usize + k as usize].has(glyph)
    }

    /// Whether subtable `i` may begin at a glyph. If not, it does nothing there.
    #[inline(always)]
    pub fn may_begin(&self, i: u32, glyph: u32) -> bool
        ensures { result ≡ false → IsOut self.now.lookup.now i glyph }
    {
        let at = self.firsts.from as usize + i as usize;
        self.firsts.count <= i || self.firsts.all.len() <= at || self.firsts.all[at].has(glyph)
    }
}
