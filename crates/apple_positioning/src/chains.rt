//! Extended kerning: the chain of subtables of the table `kerx`, and their headers.
ghost use Rattle.std.specs.Prelude.{◌≡◌, ◌∷◌, ◌<◌, ◌≤◌, ◌+◌, ◌^◌, [], None, length};
ghost use Rattle.std.specs.Option.{IfSome};
ghost use Rattle.apple_positioning.specs.Chains as chain_rules;

use shape_font::bytes::{u16_at, u32_at};

/// What is left of a chain of subtables.
#[derive(Clone, Copy, Debug)]
pub struct Chain<'a> {
    table: &'a [u8],
    start: usize,
    left: u32,
}

/// What a subtable says of itself before the fields of its format.
#[derive(Clone, Copy, Debug)]
pub struct Header {
    /// For vertical lines.
    pub is_vertical: bool,
    /// Glyphs move across the line.
    pub is_cross_stream: bool,
    /// Has values for instances of a variable font. HarfBuzz doesn't look at this bit of `kerx`.
    pub has_variation: bool,
    /// The glyphs are processed from the last to the first.
    pub is_backward: bool,
    /// The number of its format.
    pub format: u32,
    /// How many values each place has, for instances of a variable font; 0 for one.
    pub tuple_count: u32,
}

/// The most bytes that a table can have.
const MOST_BYTES: usize = 0xFFFF_FFFF;

/// How many bytes the header of a subtable has.
const HEADER_SIZE: usize = 12;

/// How many subtables the table says that it has; none in a version below 2.
pub fn subtable_count(kerx: &[u8]) -> u32
    ensures { result ≡ chain_rules.subtable_count kerx.now }
{
    if u16_at(kerx, 0) < 2 {
        return 0;
    }
    u32_at(kerx, 4)
}

/// Whether a subtable ends the chain: it is shorter than its header, or longer than what is left of
/// the table.
fn ends_chain(kerx: &[u8], start: usize) -> bool
    requires { start < 2 ^ 34 }
    ensures value { result ≡ chain_rules.ends_chain kerx.now start }
{
    let len = u32_at(kerx, start) as usize;
    len < HEADER_SIZE || kerx.len().min(MOST_BYTES) < start + len
}

/// Whether a bit of a number is set.
pub(crate) fn bit_of(n: u32, bit: u32) -> bool
    requires { 0 < bit }
    ensures { result ≡ chain_rules.bit_of n bit }
{
    n / bit % 2 == 1
}

impl<'a> Chain<'a> {
    /// The chain of a table, from its first subtable on.
    pub fn of(kerx: &'a [u8]) -> Chain<'a>
        ensures all { chain_rules.rest_of result ≡ chain_rules.subtables_of kerx.now }
        ensures left { result.left ≡ chain_rules.subtable_count kerx.now }
        ensures near { result.start < 2 ^ 34 }
    {
        Chain {
            table: kerx,
            start: 8,
            left: subtable_count(kerx),
        }
    }

    /// The bytes of the next subtable, which is left behind; none at the end of the chain. The last
    /// one has all bytes that are left of the table.
    #[tactic(auto, using(crate::proofs::ChainLemmas::chain_next, crate::proofs::ChainLemmas::chain_ended, crate::proofs::ChainLemmas::chain_last))]
    pub fn next_subtable(&mut self) -> Option<&'a [u8]>
        requires { self.old.start < 2 ^ 34 }
        ensures some { IfSome result (λ s.
            chain_rules.rest_of self.old ≡ s.now ∷ chain_rules.rest_of self.new) }
        ensures none { result ≡ None → chain_rules.rest_of self.old ≡ [] }
        ensures left { IfSome result (λ _. self.new.left + 1 ≡ self.old.left) }
        ensures near { self.new.start < 2 ^ 34 }
    {
        if self.left == 0 || ends_chain(self.table, self.start) {
            return None;
        }
        let (start, end) = (
            self.start,
            self.start + u32_at(self.table, self.start) as usize,
        );
        self.left -= 1;
        self.start = end;
        if self.left == 0 {
            Some(&self.table[start..])
        } else {
            Some(&self.table[start..end])
        }
    }
}

/// The header of a subtable, by its bytes.
pub fn read_header(subtable: &[u8]) -> Header
    ensures { result ≡ chain_rules.header_of subtable.now }
{
    let coverage = u32_at(subtable, 4);
    Header {
        is_vertical: bit_of(coverage, 0x8000_0000),
        is_cross_stream: bit_of(coverage, 0x4000_0000),
        has_variation: bit_of(coverage, 0x2000_0000),
        is_backward: bit_of(coverage, 0x1000_0000),
        format: coverage % 256,
        tuple_count: u32_at(subtable, 8),
    }
}
