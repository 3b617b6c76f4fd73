//! Subtables of lookups, applied at a place of a buffer.
ghost use Rattle.std.specs.Prelude.{◌≡◌, ◌≢◌, ◌<◌, ◌+◌, ◌^◌, length, None, OnOk, IfOk, IsErrOf};
ghost use Rattle.shape_items.specs.Buffer.{limit_of};
ghost use Rattle.shape_buffer.specs.declared.buffer.error.ShapeError.TheVariants.{Length};
ghost use Rattle.layout_substitution.specs.Applied;
ghost use Rattle.layout_substitution.specs.Ligatures.{ligature_made, one_ligated, set_ligated, ligature_applied};
ghost use Rattle.layout_matching.specs.Loops.{times};
ghost use Rattle.layout_substitution.specs.Edits.{item_at, put_at};
ghost use Rattle.layout_substitution.specs.Replaced;

use crate::deletion::delete;
use crate::edits::{insert_after, item, next_place, put};
use crate::ligature::{Components, found, put_ligature};
use crate::ligature_reach::mark_tried;
use crate::replaced::{replaced, taken_apart};
use crate::substitutes::{components, count, ligature_glyph, listed, set, single};
use layout_buffer::GapBuffer;
use layout_matching::lookup::Lookup;
use shape_buffer::{ShapeError, hb_glyph_info_t};

/// Where a lookup stands in a buffer, and what it counts.
#[derive(Clone, Copy, PartialEq, Eq, Debug)]
pub struct Spot {
    pub at: usize,
    /// The random state, by which alternates are picked.
    pub random: u32,
    /// How much may still be asked for in the stage: what is charged for is taken off.
    pub left: usize,
    /// How many items there were when the lookup began.
    pub whole: usize,
}

/// Puts another glyph at a place.
#[inline(always)]
pub fn put_glyph(lookup: &Lookup<'_>, buffer: &mut GapBuffer, at: usize, glyph: u32)
    ensures { buffer.new ≡ put_at at (Replaced.replaced lookup.now 0 glyph
        (item_at buffer.old at)) buffer.old }
{
    let there = item(buffer, at);
    put(buffer, at, replaced(lookup, 0, glyph, there));
}

/// Puts another glyph at the place. Returns the next one.
pub(crate) fn replace(
    lookup: &Lookup<'_>,
    buffer: &mut GapBuffer,
    spot: Spot,
    glyph: u32,
) -> Option<Spot>
    requires { spot.at < length buffer.old.items }
    ensures made { buffer.new ≡ (Applied.put_one lookup.now spot buffer.old glyph).buffer }
    ensures next { result ≡ (Applied.put_one lookup.now spot buffer.old glyph).next }
    ensures some { result ≢ None }
{
    let count = buffer.len();
    put_glyph(lookup, buffer, spot.at, glyph);
    let mut next = spot;
    next.at = next_place(count, spot.at);
    Some(next)
}

/// One glyph for one.
#[inline(never)]
pub(crate) fn apply_single(
    lookup: &Lookup<'_>,
    start: usize,
    buffer: &mut GapBuffer,
    spot: Spot,
) -> Option<Spot>
    requires near { start < 2 ^ 35 }
    requires inside { spot.at < length buffer.old.items }
    ensures made { buffer.new ≡ (Applied.single_applied lookup.now start spot buffer.old).buffer }
    ensures next { result ≡ (Applied.single_applied lookup.now start spot buffer.old).next }
{
    let there = item(buffer, spot.at);
    match single(lookup.table, start, there.glyph_id) {
        Some(glyph) => replace(lookup, buffer, spot, glyph),
        None => None,
    }
}

/// Glyph `k` of a list, in the cluster and with the mask of the item at a place.
fn copy_of(
    lookup: &Lookup<'_>,
    buffer: &GapBuffer,
    list: usize,
    at: usize,
    there: &hb_glyph_info_t,
    k: u32,
) -> hb_glyph_info_t
    requires near { list < 2 ^ 36 }
    ensures { result ≡ Applied.copy_like lookup.now list (item_at buffer.now at) there.now k }
{
    let now = item(buffer, at);
    let glyph = u32::from(listed(lookup.table, list, k));
    let mut copy = taken_apart(lookup, glyph, k, *there);
    copy.cluster = now.cluster;
    copy.mask = now.mask;
    copy
}

/// Puts the last `n` glyphs of a list, after the first, in after a place.
#[tactic(auto, using(layout_matching::proofs::LoopLemmas::times_step))]
fn put_copies(
    lookup: &Lookup<'_>,
    buffer: &mut GapBuffer,
    list: usize,
    at: usize,
    there: &hb_glyph_info_t,
    n: u32,
) -> Result<(), ShapeError>
    requires near { list < 2 ^ 36 }
    requires inside { at < length buffer.old.items }
    ensures ok { OnOk result (buffer.new
        ≡ Applied.copies_put lookup.now list at there.now n buffer.old) }
    ensures length { IsErrOf result Length → limit_of buffer.old < length buffer.old.items + n }
{
    let mut k = n;
    for _i in 0..n {
        let copy = copy_of(lookup, buffer, list, at, there, k);
        insert_after(buffer, at, copy)?;
        k = k.saturating_sub(1);
    }
    Ok(())
}

/// Puts the first glyph of a list at a place.
fn put_first(lookup: &Lookup<'_>, buffer: &mut GapBuffer, list: usize, at: usize)
    requires near { list < 2 ^ 36 }
    ensures { buffer.new ≡ Applied.first_put lookup.now list at (item_at buffer.old at) buffer.old }
{
    let there = item(buffer, at);
    let glyph = u32::from(listed(lookup.table, list, 0));
    put(buffer, at, taken_apart(lookup, glyph, 0, there));
}

/// Puts the glyphs of a list in place of one.
#[tactic(auto, using(crate::proofs::CopyLemmas::length_first, crate::proofs::CopyLemmas::limit_first, crate::proofs::CopyLemmas::length_several))]
fn put_several(
    lookup: &Lookup<'_>,
    buffer: &mut GapBuffer,
    list: usize,
    at: usize,
) -> Result<(), ShapeError>
    requires near { list < 2 ^ 36 }
    requires inside { at < length buffer.old.items }
    ensures ok { OnOk result (buffer.new ≡ Applied.several_put lookup.now list at buffer.old) }
    ensures length { IsErrOf result Length
        → limit_of buffer.old < length (Applied.several_put lookup.now list at buffer.old).items }
{
    let there = item(buffer, at);
    let n = count(lookup.table, list).saturating_sub(1);
    put_first(lookup, buffer, list, at);
    put_copies(lookup, buffer, list, at, &there, n)
}

/// Puts a list of glyphs in place of one.
fn put_list(
    lookup: &Lookup<'_>,
    buffer: &mut GapBuffer,
    list: usize,
    at: usize,
) -> Result<(), ShapeError>
    requires near { list < 2 ^ 36 }
    requires inside { at < length buffer.old.items }
    ensures ok { OnOk result (buffer.new ≡ Applied.list_put lookup.now list at buffer.old) }
    ensures length { IsErrOf result Length
        → limit_of buffer.old < length (Applied.list_put lookup.now list at buffer.old).items }
{
    if count(lookup.table, list) == 1 {
        put_glyph(lookup, buffer, at, u32::from(listed(lookup.table, list, 0)));
        return Ok(());
    }
    put_several(lookup, buffer, list, at)
}

/// Puts a list of glyphs in place of one. Returns where the lookup goes on.
fn put_glyphs(
    lookup: &Lookup<'_>,
    buffer: &mut GapBuffer,
    spot: Spot,
    list: usize,
) -> Result<Option<Spot>, ShapeError>
    requires near { list < 2 ^ 36 }
    requires inside { spot.at < length buffer.old.items }
    ensures made { OnOk result (buffer.new
        ≡ (Applied.glyphs_put lookup.now spot buffer.old list).buffer) }
    ensures next { IfOk result (λ next. next
        ≡ (Applied.glyphs_put lookup.now spot buffer.old list).next) }
    ensures some { IfOk result (λ next. next ≢ None) }
    ensures length { IsErrOf result Length
        → limit_of buffer.old < length
        (Applied.glyphs_put lookup.now spot buffer.old list).buffer.items }
{
    let after = buffer.len().saturating_sub(spot.at + 1);
    put_list(lookup, buffer, list, spot.at)?;
    let mut next = spot;
    next.at = buffer.len().saturating_sub(after);
    Ok(Some(next))
}

/// The same; none deletes it.
fn put_sequence(
    lookup: &Lookup<'_>,
    buffer: &mut GapBuffer,
    spot: Spot,
    list: usize,
) -> Result<Option<Spot>, ShapeError>
    requires near { list < 2 ^ 36 }
    requires inside { spot.at < length buffer.old.items }
    ensures made { OnOk result (buffer.new
        ≡ (Applied.sequence_put lookup.now spot buffer.old list).buffer) }
    ensures next { IfOk result (λ next. next
        ≡ (Applied.sequence_put lookup.now spot buffer.old list).next) }
    ensures still { IfOk result (λ next. next ≡ None → buffer.new ≡ buffer.old) }
    ensures length { IsErrOf result Length
        → limit_of buffer.old < length
        (Applied.sequence_put lookup.now spot buffer.old list).buffer.items }
{
    if count(lookup.table, list) == 0 {
        return Ok(delete(buffer, spot));
    }
    put_glyphs(lookup, buffer, spot, list)
}

/// Several glyphs for one.
#[inline(never)]
pub(crate) fn apply_multiple(
    lookup: &Lookup<'_>,
    start: usize,
    buffer: &mut GapBuffer,
    spot: Spot,
) -> Result<Option<Spot>, ShapeError>
    requires near { start < 2 ^ 35 }
    requires inside { spot.at < length buffer.old.items }
    ensures made { OnOk result (buffer.new
        ≡ (Applied.multiple_applied lookup.now start spot buffer.old).buffer) }
    ensures next { IfOk result (λ next. next
        ≡ (Applied.multiple_applied lookup.now start spot buffer.old).next) }
    ensures still { IfOk result (λ next. next ≡ None → buffer.new ≡ buffer.old) }
    ensures length { IsErrOf result Length
        → limit_of buffer.old < length
        (Applied.multiple_applied lookup.now start spot buffer.old).buffer.items }
{
    let there = item(buffer, spot.at);
    match set(lookup.table, start, there.glyph_id) {
        Some(list) => put_sequence(lookup, buffer, spot, list),
        None => Ok(None),
    }
}

/// A ligature that was found; one of a single component replaces it.
pub(crate) fn make_ligature(
    lookup: &Lookup<'_>,
    buffer: &mut GapBuffer,
    spot: Spot,
    one: Components,
) -> Option<Spot>
    requires near { one.ligature < 2 ^ 37 }
    requires last { one.last < length buffer.old.items }
    requires inside { spot.at < length buffer.old.items }
    ensures made { buffer.new ≡ (ligature_made lookup.now spot buffer.old one).buffer }
    ensures next { result ≡ (ligature_made lookup.now spot buffer.old one).next }
    ensures some { result ≢ None }
{
    if components(lookup.table, one.ligature) == 1 {
        let glyph = u32::from(ligature_glyph(lookup.table, one.ligature));
        replace(lookup, buffer, spot, glyph)
    } else {
        Some(put_ligature(lookup, buffer, spot, one))
    }
}

/// The first ligature of a set that stands there.
fn ligate_first(lookup: &Lookup<'_>, buffer: &mut GapBuffer, spot: Spot, set: usize) -> Option<Spot>
    requires near { set < 2 ^ 36 }
    requires inside { spot.at < length buffer.old.items }
    ensures made { buffer.new ≡ (one_ligated lookup.now spot set buffer.old).buffer }
    ensures next { result ≡ (one_ligated lookup.now spot set buffer.old).next }
    ensures still { result ≡ None → buffer.new ≡ buffer.old }
{
    match found(lookup, buffer, spot.at, set) {
        Some(one) => make_ligature(lookup, buffer, spot, one),
        None => None,
    }
}

/// The same, after what was looked at in vain is marked.
fn apply_set(lookup: &Lookup<'_>, buffer: &mut GapBuffer, spot: Spot, set: usize) -> Option<Spot>
    requires near { set < 2 ^ 36 }
    requires inside { spot.at < length buffer.old.items }
    ensures made { buffer.new ≡ (set_ligated lookup.now spot buffer.old set).buffer }
    ensures next { result ≡ (set_ligated lookup.now spot buffer.old set).next }
    ensures as_many { result ≡ None → length buffer.new.items ≡ length buffer.old.items }
    ensures limit { result ≡ None → limit_of buffer.new ≡ limit_of buffer.old }
{
    mark_tried(lookup, buffer, spot.at, set);
    ligate_first(lookup, buffer, spot, set)
}

/// One glyph for several.
#[inline(never)]
pub(crate) fn apply_ligature(
    lookup: &Lookup<'_>,
    start: usize,
    buffer: &mut GapBuffer,
    spot: Spot,
) -> Option<Spot>
    requires near { start < 2 ^ 35 }
    requires inside { spot.at < length buffer.old.items }
    ensures made { buffer.new ≡ (ligature_applied lookup.now start spot buffer.old).buffer }
    ensures next { result ≡ (ligature_applied lookup.now start spot buffer.old).next }
    ensures as_many { result ≡ None → length buffer.new.items ≡ length buffer.old.items }
    ensures limit { result ≡ None → limit_of buffer.new ≡ limit_of buffer.old }
{
    let there = item(buffer, spot.at);
    match set(lookup.table, start, there.glyph_id) {
        Some(set) => apply_set(lookup, buffer, spot, set),
        None => None,
    }
}
