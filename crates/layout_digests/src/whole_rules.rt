//! What is stored of the rules of format 3 of a table, once for a font: for each lookup of context
//! those of its subtables, in their order.
ghost use Rattle.std.specs.Prelude.{◌<◌, ◌^◌, IfOk, IsOkUnless};
ghost use Rattle.std.specs.Option.{IfSome};
ghost use Rattle.layout_digests.specs.WholeRules as whole_rules;

use crate::digest::Digest;
use crate::lookups::{
    Lookups, Reading, extension_kind, is_chained_kind, is_context_kind, with_list,
};
use layout_matching::firsts::First;
use layout_matching::whole_rules::{WholeRule, nearest_lists, stored_rule};
use layout_tables::lookups::{lookup, lookup_count, lookup_type, subtable, subtable_count};
use shape_buffer::ShapeError;
use shape_font::bytes::u16_at;
use std::alloc::Global;

/// How many bytes a subtable has at least, with its offset: so many it costs to look at it, so that
/// what is stored takes memory in step with the bytes of the table.
const SUBTABLE_BYTES: usize = 8;

/// The glyphs that a list covers, or more; every glyph once too much was read, and none if there is
/// no list.
#[tactic(auto, using(crate::proofs::WholeRuleLemmas::held_list))]
pub(crate) fn glyphs_of(table: &[u8], list: Option<usize>, left: &mut usize) -> First
    requires { IfSome list (λ place. place < 2 ^ 40) }
    ensures { whole_rules.HoldsList table.now list result }
{
    let Some(list) = list else {
        return First::none();
    };
    let digest = Digest::new();
    let reading = with_list(
        table,
        list,
        Reading {
            digest,
            left: *left,
        },
    );
    *left = reading.left;
    reading.digest.words()
}

/// What is stored of subtable `i` of the lookup at `place`; none if it has no rule of format 3 that
/// begins with a glyph.
#[tactic(auto, using(crate::proofs::WholeRuleLemmas::nearest_held))]
fn whole_at(lookups: Lookups<'_>, place: usize, i: u32, left: &mut usize) -> Option<WholeRule>
    requires place { place < 2 ^ 17 }
    requires few { i < 2 ^ 16 }
    ensures { IfSome result (whole_rules.IsWholeAt lookups.entry.table.now lookups.entry.positioning
        place i) }
{
    let (table, positioning) = (lookups.table, lookups.positioning);
    let subtable = subtable(table, extension_kind(positioning), place, i)?;
    if !is_context_kind(positioning, subtable.kind) || u16_at(table, subtable.start) != 3 {
        return None;
    }
    let is_chain = is_chained_kind(positioning, subtable.kind);
    let mut rule = stored_rule(table, is_chain, subtable)?;
    let lists = nearest_lists(table, is_chain, subtable.start);
    rule.nearest_before = glyphs_of(table, lists.before, left);
    rule.nearest_after = glyphs_of(table, lists.after, left);
    Some(rule)
}

/// The same of the subtables of the lookup at `place`, of those before too much was read.
fn wholes_of(
    alloc: Global,
    lookups: Lookups<'_>,
    place: usize,
    left: &mut usize,
) -> Result<Vec<Option<WholeRule>>, ShapeError>
    requires { place < 2 ^ 17 }
    ensures ok { IfOk result (λ wholes. whole_rules.AreWholesOf lookups.entry.table.now
        lookups.entry.positioning place wholes.items) }
    ensures memory { IsOkUnless result ShapeError.Memory }
{
    let mut wholes = Vec::new(alloc);
    for i in 0..subtable_count(lookups.table, place) {
        if *left < SUBTABLE_BYTES {
            return Ok(wholes);
        }
        *left -= SUBTABLE_BYTES;
        wholes.push(whole_at(lookups, place, i, left))?;
    }
    Ok(wholes)
}

/// The same of the lookup with this index; none, if its type is neither context nor extension.
#[tactic(auto, using(crate::proofs::WholeRuleLemmas::no_wholes, crate::proofs::WholeRuleLemmas::placed_wholes))]
fn wholes_at(
    alloc: Global,
    lookups: Lookups<'_>,
    index: u16,
    left: &mut usize,
) -> Result<Vec<Option<WholeRule>>, ShapeError>
    ensures ok { IfOk result (λ wholes. whole_rules.AreWholesAt lookups.entry.table.now
        lookups.entry.positioning index wholes.items) }
    ensures memory { IsOkUnless result ShapeError.Memory }
{
    let Some(place) = lookup(lookups.table, index) else {
        return Ok(Vec::new(alloc));
    };
    let kind = lookup_type(lookups.table, place);
    if kind == extension_kind(lookups.positioning) || is_context_kind(lookups.positioning, kind) {
        return wholes_of(alloc, lookups, place, left);
    }
    Ok(Vec::new(alloc))
}

/// What is stored of the rules of format 3 of each lookup of a table. Takes a step for each entry
/// of the lists of their nearest glyphs and eight for each subtable, and no more steps than the
/// bytes of the table, and one for each lookup. Refuses with `Memory` if a growth was refused.
pub fn stored_wholes(
    alloc: Global,
    lookups: Lookups<'_>,
) -> Result<Vec<Vec<Option<WholeRule>>>, ShapeError>
    ensures ok { IfOk result (λ all. whole_rules.HoldWholes lookups.entry.table.now
        lookups.entry.positioning all.items) }
    ensures memory { IsOkUnless result ShapeError.Memory }
{
    let mut left = lookups.table.len();
    let mut all = Vec::new(alloc);
    for index in 0..lookup_count(lookups.table) {
        let wholes = wholes_at(alloc, lookups, index as u16, &mut left)?;
        all.push(wholes)?;
    }
    Ok(all)
}
