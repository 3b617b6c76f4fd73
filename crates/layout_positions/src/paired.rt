//! What a walk over a long list knows of pairs of glyphs: what the lookup has for them. In a text
//! the same two glyphs come beside each other again and again, and what a lookup of pairs has for
//! them takes a search in each of its subtables: those aren't searched again for two glyphs as
//! long as they are kept in mind.
ghost use Rattle.std.specs.Prelude.{◌≡◌, ◌<◌, ◌^◌, ◌&&◌, All, Some, None, is_some, nat_eq};
ghost use Rattle.std.specs.Option.{IfSome};
ghost use Rattle.layout_positions.specs.Paired as pair_rules;
ghost use Rattle.layout_positions.specs.Pairs;
ghost use Rattle.layout_positions.specs.Values;

use crate::adjustment::has_pairs;
use crate::anchors::number_there;
use crate::pairs::{PairRecords, PairValues, pair_records, plain_advance, values_of};
use crate::values::Adjustment;
use layout_matching::indexed::Indexed;
use layout_matching::lookup::Lookup;
use layout_tables::lookups::{subtable, subtable_count};
use shape_font::bytes::u16_at;

/// What a subtable has for two glyphs, and whether it lists them one by one.
#[derive(Clone, Copy)]
pub struct FoundPair {
    pub listed: bool,
    pub values: PairValues,
}

/// Nothing, or a pair that changes the advance of its first glyph alone, as most do.
#[derive(Clone, Copy)]
pub struct PlainPair {
    pub advance: i32,
    pub is_found: bool,
    pub listed: bool,
}

/// What was found for two glyphs. What most pairs say is a few words, which are cheap to move.
#[derive(Clone, Copy)]
pub enum PairFound {
    Plain(PlainPair),
    Other(FoundPair),
}

/// Two glyphs, and what the lookup has for them, once that was sought: nothing, or a pair that
/// changes the advance of its first glyph alone.
#[derive(Clone, Copy)]
pub struct KnownPair {
    pub left: u32,
    pub right: u32,
    pub advance: i32,
    pub is_sought: bool,
    pub is_found: bool,
    pub listed: bool,
}

/// The advance of a record, if it changes that along a horizontal line alone.
#[tactic(auto, using(crate::proofs::PairedLemmas::advance_alone))]
fn advance_of(value: &Adjustment) -> Option<i32>
    ensures { IfSome result (λ x. value.now ≡ Values.advance_only x) }
{
    if value.x_placement != 0 || value.y_placement != 0 || value.y_advance != 0 {
        return None;
    }
    if value.counted.placement || value.counted.x_advance || value.counted.y_advance {
        return None;
    }
    Some(value.x_advance)
}

/// The advance of a pair that changes that of its first glyph alone.
#[tactic(auto, using(crate::proofs::PairedLemmas::pair_alone))]
fn pair_advance(values: &PairValues) -> Option<i32>
    ensures { IfSome result (λ x. values.now ≡ Pairs.advance_values x) }
{
    if values.has_second {
        return None;
    }
    match advance_of(&values.second) {
        Some(0) => advance_of(&values.first),
        _ => None,
    }
}

/// A pair that changes the advance of its first glyph alone.
#[inline(always)]
fn advance_found(listed: bool, advance: i32) -> PairFound
    ensures { pair_rules.found_in result ≡ Some (pair_rules.advance_pair listed advance) }
{
    PairFound::Plain(PlainPair {
        advance,
        is_found: true,
        listed,
    })
}

/// That nothing was found.
#[inline(always)]
fn nothing_found() -> PairFound
    ensures { pair_rules.found_in result ≡ None }
{
    PairFound::Plain(PlainPair {
        advance: 0,
        is_found: false,
        listed: false,
    })
}

/// What any records of a pair say. A call of its own, since few pairs need it.
#[inline(never)]
fn read_any(lookup: &Lookup<'_>, listed: bool, records: &PairRecords) -> PairFound
    requires base { records.now.base < 2 ^ 35 }
    requires at { records.now.at < 480000000000 }
    ensures { pair_rules.found_in result
        ≡ Some (pair_rules.found_there lookup.now listed records.now) }
{
    let values = values_of(lookup, records);
    match pair_advance(&values) {
        Some(advance) => advance_found(listed, advance),
        None => PairFound::Other(FoundPair { listed, values }),
    }
}

/// What the records of a pair say.
#[inline(always)]
fn read_pair(lookup: &Lookup<'_>, listed: bool, records: &PairRecords) -> PairFound
    requires base { records.now.base < 2 ^ 35 }
    requires at { records.now.at < 480000000000 }
    ensures { pair_rules.found_in result
        ≡ Some (pair_rules.found_there lookup.now listed records.now) }
{
    match plain_advance(lookup, records) {
        Some(advance) => advance_found(listed, advance),
        None => read_any(lookup, listed, records),
    }
}

/// What the subtable of pair adjustment at `start` has for two glyphs, of which the first one has
/// this number in its list.
#[inline(always)]
fn pair_numbered(lookup: &Lookup<'_>, start: usize, number: u32, left: u32, right: u32) -> PairFound
    requires { start < 2 ^ 34 }
    ensures { pair_rules.found_in result
        ≡ pair_rules.pair_numbered lookup.now start left right number }
{
    match pair_records(lookup, start, number, left, right) {
        Some(records) => read_pair(lookup, u16_at(lookup.table, start) == 1, &records),
        None => nothing_found(),
    }
}

/// What the subtable of pair adjustment at `start` has for two glyphs.
#[inline(always)]
fn pair_in(lookup: &Lookup<'_>, start: usize, left: u32, right: u32) -> PairFound
    requires { start < 2 ^ 34 }
    ensures { pair_rules.found_in result ≡ pair_rules.pair_in lookup.now start left right }
{
    if !has_pairs(lookup.table, start) {
        return nothing_found();
    }
    match number_there(lookup.table, start, start + 2, left) {
        Some(number) => pair_numbered(lookup, start, number, left, right),
        None => nothing_found(),
    }
}

/// What subtable `k` of the lookup has for two glyphs; none if it isn't one of pairs.
#[tactic(auto, using(crate::proofs::PairedLemmas::pair_has, crate::proofs::PairedLemmas::none_has))]
#[inline(always)]
fn pair_at(indexed: &Indexed<'_>, left: u32, right: u32, k: u32) -> Option<PairFound>
    requires place { indexed.now.lookup.now.place < 2 ^ 17 }
    requires few { k < 2 ^ 16 }
    ensures { IfSome result
        (λ f. pair_rules.HasAt indexed.now.lookup.now left right k (pair_rules.found_in f)) }
{
    let lookup = indexed.lookup;
    if lookup.positioning && !indexed.may_begin(k, left) {
        return Some(nothing_found());
    }
    match subtable(lookup.table, 9, lookup.place, k) {
        Some(subtable) if subtable.kind == 2 => {
            Some(pair_in(lookup, subtable.start, left, right))
        }
        Some(_) => None,
        None => Some(nothing_found()),
    }
}

/// Whether something was found.
#[tactic(auto, using(crate::proofs::PairedLemmas::plain_some))]
#[inline(always)]
fn has_found(found: &PairFound) -> bool
    ensures { result ≡ is_some (pair_rules.found_in found.now) }
{
    match found {
        PairFound::Plain(plain) => plain.is_found,
        PairFound::Other(_) => true,
    }
}

/// What the first subtable has that has something for two glyphs; none if one before it isn't one
/// of pairs.
#[tactic(auto, using(crate::proofs::PairedLemmas::passes_none, crate::proofs::PairedLemmas::none_first))]
#[inline(never)]
pub(crate) fn first_pair(indexed: &Indexed<'_>, left: u32, right: u32) -> Option<PairFound>
    requires { indexed.now.lookup.now.place < 2 ^ 17 }
    ensures { IfSome result
        (λ f. pair_rules.HasFor indexed.now.lookup.now left right (pair_rules.found_in f)) }
{
    for k in 0..subtable_count(indexed.lookup.table, indexed.lookup.place) {
        let found = pair_at(indexed, left, right, k)?;
        if has_found(&found) {
            return Some(found);
        }
    }
    Some(nothing_found())
}

/// Where two glyphs are kept among so many, a power of 2.
#[inline(always)]
fn slot(left: u32, right: u32, count: usize) -> usize {
    (left as usize * 31 + right as usize) & count.saturating_sub(1)
}

/// What is known of two glyphs.
#[inline(always)]
fn found_of(known: &KnownPair) -> PlainPair
    ensures { pair_rules.plain_found result ≡ pair_rules.found_of known.now }
{
    PlainPair {
        advance: known.advance,
        is_found: known.is_found,
        listed: known.listed,
    }
}

/// Whether it is known what the lookup has for these two glyphs.
#[inline(always)]
fn is_for(known: &KnownPair, left: u32, right: u32) -> bool
    ensures { result ≡ (known.now.is_sought && nat_eq known.now.left left
        && nat_eq known.now.right right) }
{
    known.is_sought && known.left == left && known.right == right
}

/// What the lookup has for two glyphs, if it is kept in mind.
#[tactic(auto, using(crate::proofs::PairedLemmas::known_for))]
#[inline(always)]
pub(crate) fn recalled(
    lookup: &Lookup<'_>,
    left: u32,
    right: u32,
    known: &[KnownPair],
) -> Option<PlainPair>
    requires { All (pair_rules.IsKnownPair lookup.now) known.now }
    ensures { IfSome result
        (λ p. pair_rules.HasFor lookup.now left right (pair_rules.plain_found p)) }
{
    let i = slot(left, right, known.len());
    if i < known.len() && is_for(&known[i], left, right) {
        Some(found_of(&known[i]))
    } else {
        None
    }
}

/// Two glyphs and what was found for them, as it is kept in mind.
#[inline(always)]
fn noted(left: u32, right: u32, plain: &PlainPair) -> KnownPair
    ensures left { result.left ≡ left }
    ensures right { result.right ≡ right }
    ensures found { pair_rules.found_of result ≡ pair_rules.plain_found plain.now }
{
    KnownPair {
        left,
        right,
        advance: plain.advance,
        is_sought: true,
        is_found: plain.is_found,
        listed: plain.listed,
    }
}

/// Keeps in mind what the lookup has for two glyphs, in place of what was known of others.
#[tactic(auto, using(crate::proofs::PairedLemmas::noted_known))]
#[inline(always)]
pub(crate) fn keep(
    lookup: &Lookup<'_>,
    left: u32,
    right: u32,
    plain: &PlainPair,
    known: &mut [KnownPair],
)
    requires new { pair_rules.HasFor lookup.now left right (pair_rules.plain_found plain.now) }
    requires all { All (pair_rules.IsKnownPair lookup.now) known.old }
    ensures { All (pair_rules.IsKnownPair lookup.now) known.new }
{
    let i = slot(left, right, known.len());
    if i < known.len() {
        known[i] = noted(left, right, plain);
    }
}
