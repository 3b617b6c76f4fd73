//! Sets of glyphs in six words: of a glyph's number, its half, quarter, sixteenth, 64th and 512th,
//! the last six bits each.
//!
//! Of a long list of glyphs few of the words say little: those of a few glyphs of a block tell
//! neighbours apart, those of many tell blocks apart.
ghost use Rattle.std.specs.Prelude.{◌≡◌, ◌≤◌, ◌<◌, ◌%◌, ℕ, true, false};
ghost use Rattle.layout_matching.specs.Firsts as first_rules;
ghost use Rattle.layout_digests.specs.Digests;

use layout_matching::firsts::{First, has_bit, with_bit};

/// A set of glyphs. It may hold glyphs that were not put in.
#[derive(Clone, Copy, PartialEq, Eq, Debug)]
pub struct Digest {
    pub fine: u64,
    pub halves: u64,
    pub quarters: u64,
    pub middle: u64,
    pub blocks: u64,
    pub coarse: u64,
}

/// The bits from this one on.
#[tactic(auto, using(crate::proofs::WordLemmas::from_on))]
fn ones_from(k: u32) -> u64
    requires { k < 64 }
    ensures { (n : ℕ) → k ≤ n % 64 → first_rules.has_bit result n ≡ true }
{
    u64::MAX - ((1 << k) - 1)
}

/// The bits up to this one.
#[tactic(auto, using(crate::proofs::WordLemmas::up_to))]
fn ones_to(k: u32) -> u64
    requires { k < 64 }
    ensures { (n : ℕ) → n % 64 ≤ k → first_rules.has_bit result n ≡ true }
{
    let bit = 1 << k;
    bit - 1 + bit
}

/// The bits for the numbers from one to another.
#[tactic(auto, using(crate::proofs::WordLemmas::in_block, crate::proofs::WordLemmas::in_two, layout_matching::proofs::FirstLemmas::all_set))]
fn span(first: u32, last: u32) -> u64
    ensures { Digests.HasBits result first last }
{
    let from = ones_from(first % 64);
    let to = ones_to(last % 64);
    if first / 64 == last / 64 {
        from & to
    } else if first / 64 + 1 == last / 64 {
        from | to
    } else {
        u64::MAX
    }
}

/// A word with the bits for the numbers from one to another, and those that it had.
#[tactic(auto, using(layout_matching::proofs::FirstLemmas::set_before, layout_matching::proofs::FirstLemmas::set_after))]
fn with_span(word: u64, first: u32, last: u32) -> u64
    ensures set { Digests.HasBits result first last }
    ensures kept { first_rules.KeepsBits word result }
{
    word | span(first, last)
}

/// A word with all bits.
fn filled(word: u64) -> u64
    ensures set { (n : ℕ) → first_rules.has_bit result n ≡ true }
    ensures kept { first_rules.KeepsBits word result }
{
    word | u64::MAX
}

/// Whether two words share a bit.
#[tactic(auto, using(crate::proofs::WordLemmas::unshared))]
fn share(word: u64, other: u64) -> bool
    ensures { result ≡ false → (n : ℕ) → first_rules.has_bit word n ≡ true
        → first_rules.has_bit other n ≡ false }
{
    word & other != 0
}

impl Digest {
    /// The set of no glyph.
    pub fn new() -> Self {
        Digest {
            fine: 0,
            halves: 0,
            quarters: 0,
            middle: 0,
            blocks: 0,
            coarse: 0,
        }
    }

    /// The set of all glyphs.
    #[tactic(auto, using(crate::proofs::WordLemmas::all_glyphs))]
    pub fn every() -> Self
        ensures { (glyph : ℕ) → Digests.has result glyph ≡ true }
    {
        Digest {
            fine: u64::MAX,
            halves: u64::MAX,
            quarters: u64::MAX,
            middle: u64::MAX,
            blocks: u64::MAX,
            coarse: u64::MAX,
        }
    }

    /// Whether the set holds a glyph.
    #[tactic(auto, unfolding(crate::specs::Digests::has))]
    pub fn has(&self, glyph: u32) -> bool
        ensures { result ≡ Digests.has self.now glyph }
    {
        has_bit(self.fine, glyph)
            && has_bit(self.halves, glyph / 2)
            && has_bit(self.quarters, glyph / 4)
            && has_bit(self.middle, glyph / 16)
            && has_bit(self.blocks, glyph / 64)
            && has_bit(self.coarse, glyph / 512)
    }

    /// The three of its words that are stored for a subtable.
    #[tactic(auto, using(crate::proofs::WordLemmas::lacking))]
    pub fn words(&self) -> First
        ensures { (glyph : ℕ) → first_rules.may_begin result glyph ≡ false
            → Digests.has self.now glyph ≡ false }
    {
        First {
            fine: self.fine,
            middle: self.middle,
            coarse: self.coarse,
        }
    }

    /// The set with the glyphs from one to another. If the last is before the first, there is none.
    #[tactic(auto, using(crate::proofs::WordLemmas::ranged, crate::proofs::WordLemmas::kept))]
    pub fn with_range(self, first: u32, last: u32) -> Self
        ensures glyphs { Digests.HasGlyphs result first last }
        ensures kept { Digests.IsWithin self result }
    {
        Digest {
            fine: with_span(self.fine, first, last),
            halves: with_span(self.halves, first / 2, last / 2),
            quarters: with_span(self.quarters, first / 4, last / 4),
            middle: with_span(self.middle, first / 16, last / 16),
            blocks: with_span(self.blocks, first / 64, last / 64),
            coarse: with_span(self.coarse, first / 512, last / 512),
        }
    }

    /// The set with a glyph, in the three words that `may_share` compares; the others are filled.
    /// So a list is gone over quickly.
    #[tactic(auto, using(crate::proofs::WordLemmas::glyph_in, crate::proofs::WordLemmas::kept))]
    pub fn with_glyph(self, glyph: u32) -> Self
        ensures glyph { Digests.has result glyph ≡ true }
        ensures kept { Digests.IsWithin self result }
    {
        Digest {
            fine: with_bit(self.fine, glyph),
            halves: filled(self.halves),
            quarters: filled(self.quarters),
            middle: with_bit(self.middle, glyph / 16),
            blocks: filled(self.blocks),
            coarse: with_bit(self.coarse, glyph / 512),
        }
    }

    /// Whether two sets may share a glyph. If not, no glyph of the one is in the other.
    #[tactic(auto, using(crate::proofs::WordLemmas::apart_fine, crate::proofs::WordLemmas::apart_middle, crate::proofs::WordLemmas::apart_coarse))]
    pub fn may_share(&self, other: &Digest) -> bool
        ensures { result ≡ false → (glyph : ℕ) → Digests.has self.now glyph ≡ true
            → Digests.has other.now glyph ≡ false }
    {
        share(self.fine, other.fine)
            && share(self.middle, other.middle)
            && share(self.coarse, other.coarse)
    }
}
