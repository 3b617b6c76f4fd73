//! Ligatures: one glyph in place of several (kind 4). Of those of a set the first whose components
//! stand in a row is made; the clusters of its components are merged, and marks between them, and
//! after the last one, stand on it from then on.
ghost use Rattle.std.specs.Prelude.{◌≡◌, ◌<◌, ◌-◌, ◌+◌, ◌^◌, Some, length, true, IsTrue};
ghost use Rattle.std.specs.Option.{IfSome};
ghost use Rattle.layout_matching.specs.Loops.{times};
ghost use Rattle.layout_substitution.specs.Ligatures;

use crate::apply::Spot;
use crate::edits::{item, merge, next_place, put, take_out};
use crate::ligation::{count_behind, how_to_ligate, with_left};
use crate::merging::charge_merging;
use crate::replaced::{as_component, as_ligature, components_of};
use crate::substitutes::{components, count, has_components, ligature_at, ligature_glyph};
use layout_buffer::GapBuffer;
use layout_matching::glance::Glance;
use layout_matching::input::match_input;
use layout_matching::ligatures::{begins_with_another, second_glance};
use layout_matching::lookup::Lookup;
use layout_matching::rules::{Row, Test};
use layout_matching::seeking::{Seek, fits};
use layout_matching::skipping::is_skipped;
use shape_buffer::hb_glyph_info_t;

/// A ligature whose components were found: where the last one stands, and whether all after the
/// first are marks.
#[derive(Clone, Copy, PartialEq, Eq, Debug)]
pub struct Components {
    pub ligature: usize,
    pub last: usize,
    pub all_marks: bool,
}

/// How a ligature is made: its components, whether it has a number of its own, whether of marks
/// alone, and its number.
#[derive(Clone, Copy, PartialEq, Eq, Debug)]
pub struct Ligation {
    pub seek: Seek,
    pub own: bool,
    pub marks: bool,
    pub id: u8,
}

/// A walk over the items of a ligature: how many components are still to come, the number of the
/// ligature that the last component belonged to, how many components that had, and how many all had
/// so far.
#[derive(Clone, Copy, PartialEq, Eq, Debug)]
pub struct Joining {
    pub at: usize,
    pub left: u16,
    pub id: u8,
    pub components: u8,
    pub so_far: u16,
}

/// The components of a ligature, as a row of glyphs whose count has the first one too.
pub(crate) fn component_row(lookup: &Lookup<'_>, ligature: usize) -> Row
    requires { ligature < 2 ^ 37 }
    ensures { result ≡ Ligatures.component_row lookup.now ligature }
{
    Row {
        test: Test::Glyph,
        from: 0,
        count: components(lookup.table, ligature),
        values: ligature + 4,
    }
}

/// The components of the ligature from `at` on, at most 64.
pub(crate) fn matched_at(
    lookup: &Lookup<'_>,
    buffer: &GapBuffer,
    at: usize,
    ligature: usize,
) -> Option<Components>
    requires near { ligature < 2 ^ 37 }
    requires inside { at < length buffer.now.items }
    ensures value { result ≡ Ligatures.ligature_matched lookup.now buffer.now at ligature }
    ensures inside { IfSome result (λ m. m.last < length buffer.now.items) }
    ensures near { IfSome result (λ m. m.ligature < 2 ^ 37) }
{
    if !has_components(lookup.table, ligature) {
        return None;
    }
    match match_input(lookup, &buffer.items(), at, component_row(lookup, ligature)) {
        Some(found) => Some(Components {
            ligature,
            last: found.last,
            all_marks: found.all_marks,
        }),
        None => None,
    }
}

/// Ligature `i` of the set, if its components stand at `at`.
#[tactic(auto, using(crate::proofs::SecondLemmas::refused_ligature))]
#[inline(always)]
fn matched_in(
    lookup: &Lookup<'_>,
    buffer: &GapBuffer,
    at: usize,
    set: usize,
    i: u32,
    second: Glance,
) -> Option<Components>
    requires near { set < 2 ^ 36 }
    requires few { i < 2 ^ 16 }
    requires inside { at < length buffer.now.items }
    requires second { second ≡ Ligatures.second_glance lookup.now buffer.now at }
    ensures value { result ≡ Ligatures.ligature_in lookup.now buffer.now at set i }
    ensures inside { IfSome result (λ m. m.last < length buffer.now.items) }
    ensures near { IfSome result (λ m. m.ligature < 2 ^ 37) }
{
    let Some(ligature) = ligature_at(lookup.table, set, i) else {
        return None;
    };
    if begins_with_another(lookup.table, second, ligature) {
        return None;
    }
    matched_at(lookup, buffer, at, ligature)
}

/// The first ligature of the set whose components stand at `at`.
#[tactic(auto, using(layout_matching::proofs::LoopLemmas::first_some_next, layout_matching::proofs::LoopLemmas::first_some_found, layout_matching::proofs::LoopLemmas::first_some_end))]
pub(crate) fn found(
    lookup: &Lookup<'_>,
    buffer: &GapBuffer,
    at: usize,
    set: usize,
) -> Option<Components>
    requires near { set < 2 ^ 36 }
    requires inside { at < length buffer.now.items }
    ensures value { result ≡ Ligatures.ligature_found lookup.now buffer.now at set }
    ensures inside { IfSome result (λ m. m.last < length buffer.now.items) }
    ensures near { IfSome result (λ m. m.ligature < 2 ^ 37) }
{
    let second = second_glance(lookup, &buffer.items(), at);
    for i in 0..count(lookup.table, set) {
        if let Some(one) = matched_in(lookup, buffer, at, set, i, second) {
            return Some(one);
        }
    }
    None
}

/// The component of the new ligature that a mark on a component of the last one stands on.
fn component_of(walk: Joining, there: &hb_glyph_info_t) -> u32
    ensures { result ≡ Ligatures.component_among walk there.now }
{
    let component = there._hb_glyph_info_get_ligature_component();
    let among = if component == 0 {
        walk.components
    } else {
        component.min(walk.components)
    };
    u32::from(walk.so_far).saturating_sub(u32::from(walk.components)) + u32::from(among)
}

/// Goes over an item that stays; it becomes a mark on the ligature if that has a number of its own.
fn leave_between(buffer: &mut GapBuffer, own: bool, id: u8, walk: Joining) -> Joining
    requires { walk.at < length buffer.old.items }
    ensures { record { buffer = buffer.new; walk = result }
        ≡ Ligatures.between_stays own id (record { buffer = buffer.old; walk = walk }) }
{
    let count = buffer.len();
    if walk.at < count && own {
        let there = item(buffer, walk.at);
        put(
            buffer,
            walk.at,
            as_component(id, component_of(walk, &there), there),
        );
    }
    let mut walk = walk;
    walk.at += 1;
    walk
}

/// Takes a component out.
fn drop_component(buffer: &mut GapBuffer, walk: Joining) -> Joining
    ensures { record { buffer = buffer.new; walk = result }
        ≡ Ligatures.component_gone (record { buffer = buffer.old; walk = walk }) }
{
    let there = item(buffer, walk.at);
    take_out(buffer, walk.at);
    let components = components_of(&there);
    Joining {
        at: walk.at,
        left: walk.left.saturating_sub(1),
        id: there._hb_glyph_info_get_ligature_id(),
        components,
        so_far: ((u32::from(walk.so_far) + u32::from(components)) % 65536) as u16,
    }
}

/// The component that is looked for next: number 0 is the one after the first.
fn looked_for(made: &Ligation, walk: Joining) -> u32
    ensures { result ≡ Ligatures.looked_for made.now walk }
{
    u32::from(
        made.seek
            .row
            .count
            .saturating_sub(1)
            .saturating_sub(walk.left),
    )
}

/// Whether the item at the walk stays: the lookup skips it, or it isn't the component that is
/// looked for.
fn stays(lookup: &Lookup<'_>, buffer: &GapBuffer, made: &Ligation, walk: Joining) -> bool
    ensures { result ≡ Ligatures.stays lookup.now made.now
        (record { buffer = buffer.now; walk = walk }) }
{
    let there = item(buffer, walk.at);
    is_skipped(lookup, &there) || !fits(lookup, &made.seek, looked_for(made, walk), &there)
}

/// Goes over one item after the first component.
fn join_one(lookup: &Lookup<'_>, buffer: &mut GapBuffer, made: &Ligation, walk: Joining) -> Joining
    ensures { record { buffer = buffer.new; walk = result }
        ≡ Ligatures.join_step lookup.now made.now
        (record { buffer = buffer.old; walk = walk }) }
{
    if buffer.len() <= walk.at {
        return walk;
    }
    if stays(lookup, buffer, made, walk) {
        leave_between(buffer, made.own, made.id, walk)
    } else {
        drop_component(buffer, walk)
    }
}

/// Goes over so many items after the first component.
#[tactic(auto, using(layout_matching::proofs::LoopLemmas::times_step))]
fn join_all(
    lookup: &Lookup<'_>,
    buffer: &mut GapBuffer,
    made: &Ligation,
    n: usize,
    walk: Joining,
) -> Joining
    ensures { record { buffer = buffer.new; walk = result }
        ≡ times (Ligatures.join_step lookup.now made.now) n
        (record { buffer = buffer.old; walk = walk }) }
{
    let mut walk = walk;
    for _i in 0..n {
        walk = join_one(lookup, buffer, made, walk);
    }
    walk
}

/// Whether the item stands on a component of the ligature that the last component was.
fn follows(buffer: &GapBuffer, walk: Joining) -> bool
    ensures value { result ≡ Ligatures.follows (record { buffer = buffer.now; walk = walk }) }
    ensures inside { IsTrue result → walk.at < length buffer.now.items }
{
    if buffer.len() <= walk.at {
        return false;
    }
    let there = item(buffer, walk.at);
    there._hb_glyph_info_get_ligature_id() == walk.id
        && 0 < there._hb_glyph_info_get_ligature_component()
}

/// Puts the marks that follow onto the ligature.
#[tactic(auto, using(layout_matching::proofs::LoopLemmas::times_step, crate::proofs::LigatureLemmas::follow_on, crate::proofs::LigatureLemmas::follow_stops))]
fn follow_all(buffer: &mut GapBuffer, id: u8, walk: Joining) -> Joining
    ensures { record { buffer = buffer.new; walk = result }
        ≡ times (Ligatures.follow_step id) (length buffer.old.items)
        (record { buffer = buffer.old; walk = walk }) }
{
    let mut walk = walk;
    for _i in 0..buffer.len() {
        if !follows(buffer, walk) {
            return walk;
        }
        walk = leave_between(buffer, true, id, walk);
    }
    walk
}

/// The same, unless the ligature is one of marks alone, or the last component belonged to none.
fn follow(buffer: &mut GapBuffer, made: &Ligation, walk: Joining) -> Joining
    ensures { record { buffer = buffer.new; walk = result }
        ≡ Ligatures.followed made.now (record { buffer = buffer.old; walk = walk }) }
{
    if made.marks || walk.id == 0 {
        return walk;
    }
    follow_all(buffer, made.id, walk)
}

/// Puts all components into one cluster, and takes all after the first one out.
fn join(
    lookup: &Lookup<'_>,
    buffer: &mut GapBuffer,
    made: &Ligation,
    found: Components,
    at: usize,
) -> Joining
    requires near { found.ligature < 2 ^ 37 }
    requires last { found.last < length buffer.old.items }
    requires inside { at < length buffer.old.items }
    ensures { record { buffer = buffer.new; walk = result }
        ≡ Ligatures.joined lookup.now made.now found at buffer.old }
{
    let first = item(buffer, at);
    let of_first = components_of(&first);
    let walk = Joining {
        at: next_place(buffer.len(), at),
        left: components(lookup.table, found.ligature).saturating_sub(1),
        id: first._hb_glyph_info_get_ligature_id(),
        components: of_first,
        so_far: u16::from(of_first),
    };
    let end = next_place(buffer.len(), found.last);
    merge(buffer, at, end);
    let walk = join_all(lookup, buffer, made, found.last.saturating_sub(at), walk);
    follow(buffer, made, walk)
}

/// Puts the ligature in place of its first component, after a walk over the others.
fn put_over(
    lookup: &Lookup<'_>,
    buffer: &mut GapBuffer,
    made: &Ligation,
    found: Components,
    at: usize,
    walk: Joining,
)
    requires { found.ligature < 2 ^ 37 }
    ensures { buffer.new ≡ Ligatures.ligature_over lookup.now made.now found at
        (record { buffer = buffer.old; walk = walk }) }
{
    let glyph = u32::from(ligature_glyph(lookup.table, found.ligature));
    let now = item(buffer, at);
    let components = u32::from(walk.so_far);
    put(
        buffer,
        at,
        as_ligature(lookup, made.own, made.id, components, glyph, now),
    );
}

/// Puts a ligature, made in this way, in place of its components. Returns where the lookup goes on:
/// with `left` items after it.
fn ligate(
    lookup: &Lookup<'_>,
    buffer: &mut GapBuffer,
    spot: Spot,
    made: &Ligation,
    found: Components,
    left: usize,
) -> Spot
    requires near { found.ligature < 2 ^ 37 }
    requires last { found.last < length buffer.old.items }
    requires inside { spot.at < length buffer.old.items }
    ensures made { buffer.new
        ≡ (Ligatures.ligated lookup.now spot made.now found left buffer.old).buffer }
    ensures next { Some result
        ≡ (Ligatures.ligated lookup.now spot made.now found left buffer.old).next }
{
    let paid = charge_merging(buffer, spot, found.last);
    let walk = join(lookup, buffer, made, found, spot.at);
    put_over(lookup, buffer, made, found, spot.at, walk);
    with_left(buffer, paid, left, walk.at)
}

/// Puts a ligature in place of its components. Returns where the lookup goes on.
pub(crate) fn put_ligature(
    lookup: &Lookup<'_>,
    buffer: &mut GapBuffer,
    spot: Spot,
    found: Components,
) -> Spot
    requires near { found.ligature < 2 ^ 37 }
    requires last { found.last < length buffer.old.items }
    requires inside { spot.at < length buffer.old.items }
    ensures made { buffer.new ≡ (Ligatures.ligature_put lookup.now spot buffer.old found).buffer }
    ensures next { Some result ≡ (Ligatures.ligature_put lookup.now spot buffer.old found).next }
{
    let left = count_behind(buffer, found.last);
    let made = how_to_ligate(lookup, buffer, spot.at, found);
    ligate(lookup, buffer, spot, &made, found, left)
}
