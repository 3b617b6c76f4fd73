//! The rules of a set that the glyphs around a place refuse at once, one after the other. Some sets
//! have hundreds, of which none applies: of each no more than two or three numbers are read.
ghost use Rattle.std.specs.Prelude.{◌≡◌, ◌<◌, ◌≤◌, ◌+◌, ◌^◌, length, true, false};
ghost use Rattle.std.specs.Option.{IfSome};
ghost use Rattle.shape_font.specs.Bytes.{u16_of, fitting};
ghost use Rattle.layout_matching.specs.Glance as glances;
ghost use Rattle.layout_matching.specs.Scanning.{AreRefused, IsRefused, TellsAll};
ghost use Rattle.layout_matching.specs.declared.glance.Glances.{Glances as TheGlances};

use crate::glance::{Glance, Glances};
use shape_font::bytes::word;

/// The values that a rule may begin with: before its place, after its first glyph, and behind a
/// rule of one glyph.
#[derive(Clone, Copy)]
pub(crate) struct Values {
    pub(crate) before: u32,
    pub(crate) input: u32,
    pub(crate) after: u32,
}

/// No value of a table.
const NO_VALUE: u32 = 65536;

/// The one value that a glance lets a row begin with, one that no row has if it lets none; none if
/// it lets any.
#[inline(always)]
fn value_told(glance: Glance) -> Option<u32>
    ensures { IfSome result (λ v. glances.Tells v glance) }
{
    match glance {
        Glance::Open => None,
        Glance::Closed => Some(NO_VALUE),
        Glance::Only(value) => Some(value),
    }
}

/// The same of all three; of the one after its first glyph for a rule that isn't chained.
#[inline(always)]
fn values_told(around: &Glances, is_chain: bool) -> Option<Values>
    ensures { IfSome result (λ v. TellsAll is_chain v around.now) }
{
    let input = value_told(around.input)?;
    if !is_chain {
        return Some(Values {
            before: NO_VALUE,
            input,
            after: NO_VALUE,
        });
    }
    Some(Values {
        before: value_told(around.before)?,
        input,
        after: value_told(around.after)?,
    })
}

/// Whether a rule at a place of the table that isn't chained has another second value.
#[tactic(auto, using(crate::proofs::ScanLemmas::told_second))]
#[inline(always)]
fn plain_is_refused_by(table: &[u8], values: &Values, place: usize) -> bool
    requires near { place < 2 ^ 37 }
    requires inside { place + 8 ≤ length table.now }
    ensures { result ≡ true → (g : TheGlances) → TellsAll false values.now g
        → glances.plain_refused table.now g place ≡ true }
{
    1 < word(table, place) && u32::from(word(table, place + 4)) != values.input
}

/// Whether a chained rule at a place of the table begins with none of these values.
#[tactic(auto, using(crate::proofs::ScanLemmas::told_before, crate::proofs::ScanLemmas::told_input, crate::proofs::ScanLemmas::told_after))]
#[inline(always)]
fn chain_is_refused_by(table: &[u8], values: &Values, place: usize) -> bool
    requires near { place < 2 ^ 37 }
    requires inside { place + 8 ≤ length table.now }
    ensures { result ≡ true → (g : TheGlances) → TellsAll true values.now g
        → glances.chain_refused table.now g place ≡ true }
{
    if 0 < word(table, place) {
        return u32::from(word(table, place + 2)) != values.before;
    }
    if 1 < word(table, place + 2) {
        return u32::from(word(table, place + 4)) != values.input;
    }
    0 < word(table, place + 4) && u32::from(word(table, place + 6)) != values.after
}

/// Whether a rule at a place of the table begins with none of these values.
#[inline(always)]
fn is_refused_by(table: &[u8], values: &Values, is_chain: bool, place: usize) -> bool
    requires near { place < 2 ^ 37 }
    requires inside { place + 8 ≤ length table.now }
    ensures { result ≡ true → (g : TheGlances) → TellsAll is_chain values.now g
        → glances.is_refused table.now g is_chain place ≡ true }
{
    if is_chain {
        chain_is_refused_by(table, values, place)
    } else {
        plain_is_refused_by(table, values, place)
    }
}

/// Whether rule `r` of a set begins with none of these values. One at the very end of the table
/// isn't looked at.
#[inline(always)]
fn rule_is_refused(table: &[u8], set: usize, values: &Values, is_chain: bool, r: u32) -> bool
    requires set { set < 2 ^ 36 }
    requires inside { r < fitting table.now (u16_of table.now set) (set + 2) 2 }
    ensures { result ≡ true → (g : TheGlances) → TellsAll is_chain values.now g
        → IsRefused table.now set g is_chain r }
{
    let place = set + usize::from(word(table, set + 2 + 2 * r as usize));
    place + 8 <= table.len() && is_refused_by(table, values, is_chain, place)
}

/// The next rule of a set, from number `r` on, that these values don't refuse.
#[inline(always)]
fn next_by(table: &[u8], set: usize, values: &Values, is_chain: bool, r: u32, count: u32) -> u32
    requires set { set < 2 ^ 36 }
    requires count { count ≡ fitting table.now (u16_of table.now set) (set + 2) 2 }
    requires from { r ≤ count }
    ensures from { r ≤ result }
    ensures few { result ≤ count }
    ensures refused { (g : TheGlances) → TellsAll is_chain values.now g
        → AreRefused table.now set g is_chain r result }
{
    for k in r..count {
        if !rule_is_refused(table, set, values, is_chain, k) {
            return k;
        }
    }
    count
}

/// The next rule of a set, chained or not, from number `r` on, that the glyphs around the place may
/// not refuse at once.
pub(crate) fn next_unrefused(
    table: &[u8],
    set: usize,
    around: &Glances,
    is_chain: bool,
    r: u32,
    count: u32,
) -> u32
    requires set { set < 2 ^ 36 }
    requires count { count ≡ fitting table.now (u16_of table.now set) (set + 2) 2 }
    requires from { r ≤ count }
    ensures from { r ≤ result }
    ensures few { result ≤ count }
    ensures refused { AreRefused table.now set around.now is_chain r result }
{
    match values_told(around, is_chain) {
        Some(values) => next_by(table, set, &values, is_chain, r, count),
        None => r,
    }
}
