//! The glyphs that a subtable may begin at, in three words: a glyph's bits are those of its number,
//! its sixteenth and its 512th, the last six bits each. More glyphs than the subtable begins at may
//! be among them, and never fewer.
ghost use Rattle.std.specs.Prelude.{◌≡◌, ◌/◌, ℕ, true, false};
ghost use Rattle.layout_matching.specs.Firsts as first_rules;
ghost use Rattle.layout_matching.specs.WholeRules.{AreWholes, AreWholesOf};
ghost use Rattle.layout_matching.specs.declared.lookup.Lookup.{Lookup};

use crate::whole_rules::WholeRule;

/// The glyphs that a subtable may begin at, or more.
#[derive(Clone, Copy, PartialEq, Eq, Debug)]
pub struct First {
    pub fine: u64,
    pub middle: u64,
    pub coarse: u64,
}

/// What is stored of the subtables of a lookup: so many in a row of those of all lookups, from one
/// place on, and their rules of format 3, with this index among those of all lookups. None need be
/// stored.
#[derive(Clone, Copy)]
pub struct Firsts<'a> {
    pub all: &'a [First],
    pub from: u32,
    pub count: u32,
    pub wholes: &'a [Vec<Option<WholeRule>>],
    pub index: u16,
}

/// Whether the word has the bit for a number.
#[tactic(auto, using(crate::proofs::FirstLemmas::tested))]
#[inline(always)]
pub fn has_bit(word: u64, n: u32) -> bool
    ensures { result ≡ first_rules.has_bit word n }
{
    word >> (n % 64) & 1 == 1
}

/// A word with the bit for a number, and those that it had.
#[tactic(auto, using(crate::proofs::FirstLemmas::set_before, crate::proofs::FirstLemmas::bit_set))]
pub fn with_bit(word: u64, n: u32) -> u64
    ensures set { first_rules.has_bit result n ≡ true }
    ensures kept { first_rules.KeepsBits word result }
{
    word | 1 << (n % 64)
}

impl<'a> Firsts<'a> {
    /// What is stored of the rules of format 3 of the lookup's subtables, in their order.
    #[inline(always)]
    pub(crate) fn wholes_of(&self) -> &'a [Option<WholeRule>]
        ensures { (lookup : Lookup) → AreWholesOf lookup self.now → AreWholes lookup result.now }
    {
        let index = usize::from(self.index);
        if index < self.wholes.len() {
            self.wholes[index].as_slice()
        } else {
            &[]
        }
    }
}

impl First {
    /// No glyph.
    pub fn none() -> First
        ensures { result ≡ first_rules.no_first }
    {
        First {
            fine: 0,
            middle: 0,
            coarse: 0,
        }
    }

    /// Every glyph.
    #[tactic(auto, using(crate::proofs::FirstLemmas::all_set))]
    pub fn every() -> First
        ensures { (glyph : ℕ) → first_rules.may_begin result glyph ≡ true }
    {
        First {
            fine: u64::MAX,
            middle: u64::MAX,
            coarse: u64::MAX,
        }
    }

    /// These glyphs and one more.
    #[tactic(auto, using(crate::proofs::FirstLemmas::glyph_in, crate::proofs::FirstLemmas::glyphs_kept))]
    pub fn with_glyph(self, glyph: u32) -> First
        ensures glyph { first_rules.may_begin result glyph ≡ true }
        ensures kept { (other : ℕ) → first_rules.may_begin self other ≡ true
            → first_rules.may_begin result other ≡ true }
    {
        First {
            fine: with_bit(self.fine, glyph),
            middle: with_bit(self.middle, glyph / 16),
            coarse: with_bit(self.coarse, glyph / 512),
        }
    }

    /// Whether a glyph is among them.
    #[inline(always)]
    pub fn has(&self, glyph: u32) -> bool
        ensures { result ≡ first_rules.may_begin self.now glyph }
    {
        has_bit(self.fine, glyph)
            && has_bit(self.middle, glyph / 16)
            && has_bit(self.coarse, glyph / 512)
    }
}
