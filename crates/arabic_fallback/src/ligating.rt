//! How a ligature is made: its components become one glyph, and marks between and after them stand
//! on it.
ghost use Rattle.std.specs.Prelude.{◌≡◌, ◌<◌, ◌≤◌, ◌+◌, length, IfOk, OnOk, IsOkUnless};
ghost use Rattle.shape_items.specs.Buffer.{limit_of};
ghost use Rattle.shape_buffer.specs.Outcome.{Made};
ghost use Rattle.arabic_fallback.specs.Seeking.{nth};
ghost use Rattle.arabic_fallback.specs.Ligating;
ghost use Rattle.arabic_fallback.specs.Ligatures.{found_in};
ghost use Rattle.arabic_fallback.specs.Vain.{vain_marked};

use crate::following::{charge_following, followers};
use crate::ligatures::{Found, LigatureGlyphs, found_in};
use crate::merging::charge_merging;
use crate::replaced::{NewGlyph, as_component, as_ligature, components_of, gone, is_gone};
use crate::seeking::{Rule, is_mark, is_on};
use crate::vain::mark_vain;
use crate::work::search_charged;
use shape_buffer::buffer::{ShapeError, hb_buffer_t, hb_glyph_info_t};
use std::alloc::Global;

/// How many components each of the glyphs has that a ligature is made of.
#[derive(Clone, Copy, PartialEq, Eq, Debug)]
pub struct Counts {
    pub first: u8,
    pub second: u8,
    pub third: u8,
}

/// How a ligature is made: the places of its components, how many each of these has, whether it has
/// an id of its own, whether it is one of marks, its id, and the id of its last component.
#[derive(Clone, Copy, PartialEq, Eq, Debug)]
pub struct Ligation {
    pub at: usize,
    pub found: Found,
    pub counts: Counts,
    pub own: bool,
    pub marks: bool,
    pub id: u8,
    pub last_id: u8,
}

/// The item at a place, a new one past the end.
fn item(infos: &[hb_glyph_info_t], i: usize) -> hb_glyph_info_t
    ensures { result ≡ nth infos.now i }
{
    if i < infos.len() {
        infos[i]
    } else {
        hb_glyph_info_t::new('\0', 0)
    }
}

/// Whether all components after the first one are marks.
fn all_marks(infos: &[hb_glyph_info_t], found: Found) -> bool
    ensures { result ≡ Ligating.all_marks infos.now found }
{
    is_mark(&item(infos, found.second))
        && match found.third {
            Some(third) => is_mark(&item(infos, third)),
            None => true,
        }
}

fn counts_of(infos: &[hb_glyph_info_t], at: usize, found: Found) -> Counts
    ensures { result ≡ Ligating.counts_of infos.now at found }
{
    Counts {
        first: components_of(&item(infos, at)),
        second: components_of(&item(infos, found.second)),
        third: match found.third {
            Some(third) => components_of(&item(infos, third)),
            None => 0,
        },
    }
}

/// Gives the ligature an id if it has one of its own. Returns the id, 0 for none.
fn give_id(buffer: &mut hb_buffer_t, own: bool) -> u8
    ensures id { result ≡ Ligating.id_of own buffer.old }
    ensures given { buffer.new ≡ Ligating.id_given own buffer.old }
    ensures as_many { length buffer.new.items ≡ length buffer.old.items }
    ensures limit { limit_of buffer.new ≡ limit_of buffer.old }
{
    if own { buffer.allocate_lig_id() } else { 0 }
}

/// How the ligature is made; it is given its id.
fn ligation_of(buffer: &mut hb_buffer_t, at: usize, found: Found) -> Ligation
    ensures how { result ≡ Ligating.ligation_of at found buffer.old }
    ensures given { buffer.new ≡ Ligating.id_given result.own buffer.old }
    ensures as_many { length buffer.new.items ≡ length buffer.old.items }
    ensures limit { limit_of buffer.new ≡ limit_of buffer.old }
{
    let first = item(buffer.infos(), at);
    let marks = all_marks(buffer.infos(), found);
    let own = !(marks && first._hb_glyph_info_get_glyph_class().0 & 10 != 0);
    let counts = counts_of(buffer.infos(), at, found);
    let last_id = item(buffer.infos(), found.last)._hb_glyph_info_get_ligature_id();
    Ligation {
        at,
        found,
        counts,
        own,
        marks: marks && is_mark(&first),
        id: give_id(buffer, own),
        last_id,
    }
}

/// How many components come before those of the component that stands last before a place.
fn before_of(made: &Ligation, k: usize) -> u32
    ensures value { result ≡ Ligating.before_of made.now k }
    ensures few { result ≤ 510 }
{
    if k <= made.found.second {
        return 0;
    }
    match made.found.third {
        Some(third) if third < k => { u32::from(made.counts.first) + u32::from(made.counts.second) }
        _ => u32::from(made.counts.first),
    }
}

/// How many components the component has that stands last before a place.
fn count_at(made: &Ligation, k: usize) -> u8
    ensures { result ≡ Ligating.count_at made.now k }
{
    if k <= made.found.second {
        return made.counts.first;
    }
    match made.found.third {
        Some(third) if third < k => made.counts.third,
        _ => made.counts.second,
    }
}

/// The component of the new ligature that a mark at a place stands on.
fn component_among(made: &Ligation, k: usize, there: &hb_glyph_info_t) -> u32
    ensures { result ≡ Ligating.component_among made.now k there.now }
{
    let component = there._hb_glyph_info_get_ligature_component();
    let count = count_at(made, k);
    let among = if component == 0 {
        count
    } else {
        component.min(count)
    };
    before_of(made, k) + u32::from(among)
}

fn is_component(found: Found, k: usize) -> bool
    ensures { result ≡ Ligating.is_component found k }
{
    k == found.second || found.third == Some(k)
}

/// What an item after the first component becomes: a component is to go, and what stands between
/// them, or follows, is a mark on the ligature.
fn joined_item(made: &Ligation, k: usize, there: hb_glyph_info_t) -> hb_glyph_info_t
    ensures { result ≡ Ligating.joined_item made.now k there }
{
    if is_component(made.found, k) {
        return gone(there);
    }
    if made.own || made.found.last < k {
        as_component(made.id, component_among(made, k, &there), there)
    } else {
        there
    }
}

/// Replaces the item at a place; past the end nothing changes.
fn put(buffer: &mut hb_buffer_t, i: usize, item: hb_glyph_info_t)
    ensures made { buffer.new ≡ Ligating.put_at i item buffer.old }
    ensures as_many { length buffer.new.items ≡ length buffer.old.items }
    ensures limit { limit_of buffer.new ≡ limit_of buffer.old }
{
    if i < buffer.len() {
        buffer.set_info(i, item);
    }
}

/// Merges the clusters of a span.
fn merge(buffer: &mut hb_buffer_t, start: usize, end: usize)
    ensures made { buffer.new ≡ Ligating.merged start end buffer.old }
    ensures as_many { length buffer.new.items ≡ length buffer.old.items }
    ensures limit { limit_of buffer.new ≡ limit_of buffer.old }
{
    if start <= end && end <= buffer.len() {
        buffer.merge_clusters(start, end);
    }
}

/// What becomes of the item at a place after the first component.
fn join_at(buffer: &mut hb_buffer_t, made: &Ligation, k: usize)
    ensures made { buffer.new ≡ Ligating.joined_at made.now k buffer.old }
    ensures as_many { length buffer.new.items ≡ length buffer.old.items }
    ensures limit { limit_of buffer.new ≡ limit_of buffer.old }
{
    let there = item(buffer.infos(), k);
    put(buffer, k, joined_item(made, k, there));
}

/// Joins so many items after the first component.
fn join_to(buffer: &mut hb_buffer_t, made: &Ligation, count: usize)
    requires { made.now.at + 1 + count ≤ length buffer.old.items }
    ensures made { buffer.new ≡ Ligating.joined_to made.now count buffer.old }
    ensures as_many { length buffer.new.items ≡ length buffer.old.items }
    ensures limit { limit_of buffer.new ≡ limit_of buffer.old }
{
    let _len = buffer.len();
    for i in 0..count {
        join_at(buffer, made, made.at + 1 + i);
    }
}

fn total_of(counts: Counts) -> u32
    ensures { result ≡ Ligating.total_of counts }
{
    u32::from(counts.first) + u32::from(counts.second) + u32::from(counts.third)
}

/// Puts a ligature in place of its first component.
fn put_over(buffer: &mut hb_buffer_t, made: &Ligation)
    ensures made { buffer.new ≡ Ligating.put_over made.now buffer.old }
    ensures as_many { length buffer.new.items ≡ length buffer.old.items }
    ensures limit { limit_of buffer.new ≡ limit_of buffer.old }
{
    let first = item(buffer.infos(), made.at);
    let total = total_of(made.counts);
    put(
        buffer,
        made.at,
        as_ligature(made.own, made.id, total, made.found.ligature, first),
    );
}

/// Makes a ligature of its components. Those after the first one are marked, to go when the lookup
/// is done.
fn ligate(buffer: &mut hb_buffer_t, made: &Ligation)
    requires ordered { made.now.at < made.now.found.last }
    requires within { made.now.found.last < length buffer.old.items }
    ensures made { buffer.new ≡ Ligating.ligature_made made.now buffer.old }
    ensures as_many { length buffer.new.items ≡ length buffer.old.items }
    ensures limit { limit_of buffer.new ≡ limit_of buffer.old }
{
    let count = made.found.last - made.at + followers(made, buffer.infos());
    merge(buffer, made.at, made.found.last + 1);
    join_to(buffer, made, count);
    put_over(buffer, made);
}

/// Makes a ligature of components that were found from a place on.
fn put_ligature(buffer: &mut hb_buffer_t, at: usize, found: Found)
    requires ordered { at < found.last }
    requires within { found.last < length buffer.old.items }
    ensures made { buffer.new ≡ Ligating.ligature_put at found buffer.old }
    ensures as_many { length buffer.new.items ≡ length buffer.old.items }
    ensures limit { limit_of buffer.new ≡ limit_of buffer.old }
{
    charge_merging(buffer, at, found.last);
    let made = ligation_of(buffer, at, found);
    charge_following(buffer, &made);
    ligate(buffer, &made);
}

/// Marks what ligatures look at in vain, and makes the one that was found, if one was. Returns the
/// place that the lookup goes on at.
fn try_found(buffer: &mut hb_buffer_t, rule: Rule, rows: &[LigatureGlyphs], at: usize) -> usize
    requires { at < length buffer.old.items }
    ensures made { record { buffer = buffer.new; next = result }
        ≡ Ligating.tried_at at (found_in rule rows.now buffer.old.items at)
        (vain_marked rule rows.now at buffer.old) }
    ensures as_many { length buffer.new.items ≡ length buffer.old.items }
    ensures limit { limit_of buffer.new ≡ limit_of buffer.old }
{
    let found = found_in(rule, rows, buffer.infos(), at);
    mark_vain(buffer, rule, rows, at);
    match found {
        Some(found) => {
            put_ligature(buffer, at, found);
            found.last + 1
        }
        None => at + 1,
    }
}

/// The same, if what lookups may still ask for suffices for the search. Else nothing is left.
fn search_at(buffer: &mut hb_buffer_t, rule: Rule, rows: &[LigatureGlyphs], at: usize) -> usize
    requires { at < length buffer.old.items }
    ensures made { record { buffer = buffer.new; next = result }
        ≡ Ligating.searched_at rule rows.now at buffer.old }
    ensures as_many { length buffer.new.items ≡ length buffer.old.items }
    ensures limit { limit_of buffer.new ≡ limit_of buffer.old }
{
    match search_charged(rule, rows, buffer.infos(), at, buffer.max_ops()) {
        Some(left) => {
            buffer.set_max_ops(left);
            try_found(buffer, rule, rows, at)
        }
        None => {
            buffer.set_max_ops(0);
            at + 1
        }
    }
}

/// Makes the first ligature that stands at a place, if the lookup goes on there and is on. Returns
/// the place that it goes on at.
fn ligate_at(
    buffer: &mut hb_buffer_t,
    rule: Rule,
    rows: &[LigatureGlyphs],
    at: usize,
    next: usize,
) -> usize
    requires { at < length buffer.old.items }
    ensures made { record { buffer = buffer.new; next = result }
        ≡ Ligating.ligated_at rule rows.now at (record { buffer = buffer.old; next = next }) }
    ensures as_many { length buffer.new.items ≡ length buffer.old.items }
    ensures limit { limit_of buffer.new ≡ limit_of buffer.old }
{
    if at >= next && is_on(rule, &buffer.infos()[at]) {
        search_at(buffer, rule, rows, at)
    } else {
        next
    }
}

/// Marks and makes all ligatures, from left to right.
fn ligate_each(buffer: &mut hb_buffer_t, rule: Rule, rows: &[LigatureGlyphs])
    ensures { Made (Ligating.each_ligated rule rows.now) buffer.old buffer.new }
{
    let mut next = 0;
    for at in 0..buffer.len() {
        next = ligate_at(buffer, rule, rows, at, next);
    }
}

/// The items that stay.
fn kept(alloc: Global, infos: &[hb_glyph_info_t]) -> Result<Vec<hb_glyph_info_t>, ShapeError>
    ensures ok { IfOk result (λ items. items.items ≡ Ligating.kept infos.now) }
    ensures memory { IsOkUnless result ShapeError.Memory }
{
    let mut items = Vec::new(alloc);
    for info in infos {
        if !is_gone(info) {
            items.push(*info)?;
        }
    }
    Ok(items)
}

/// Takes out all components that are to go. Refuses with `Memory` alone.
#[tactic(auto, using(crate::proofs::KeptLemmas::length_kept))]
fn clear_away(alloc: Global, buffer: &mut hb_buffer_t) -> Result<(), ShapeError>
    ensures ok { OnOk result (Made Ligating.cleared_away buffer.old buffer.new) }
    ensures memory { IsOkUnless result ShapeError.Memory }
{
    let items = kept(alloc, buffer.infos())?;
    match buffer.replace_infos(items) {
        Ok(()) => Ok(()),
        Err(_) => Err(ShapeError::Memory),
    }
}

/// Makes all ligatures, from left to right. Refuses with `Memory` alone.
pub fn ligate_all(
    alloc: Global,
    buffer: &mut hb_buffer_t,
    rule: Rule,
    rows: &[LigatureGlyphs],
) -> Result<(), ShapeError>
    ensures ok { OnOk result (Made (Ligating.ligated rule rows.now) buffer.old buffer.new) }
    ensures memory { IsOkUnless result ShapeError.Memory }
{
    ligate_each(buffer, rule, rows);
    clear_away(alloc, buffer)
}
