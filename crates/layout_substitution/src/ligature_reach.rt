//! How far the search for a ligature looked in vain, up to the first ligature of a set that stands
//! there.
ghost use Rattle.std.specs.Prelude.{◌≡◌, ◌<◌, ◌^◌, length, true};
ghost use Rattle.shape_items.specs.Buffer.{limit_of};
ghost use Rattle.layout_substitution.specs.Edits.{concat_marked};
ghost use Rattle.layout_substitution.specs.Ligatures;

use crate::edits::{asks_for_concat, concat_span, item};
use crate::ligature::component_row;
use crate::substitutes::{components, count, has_components, ligature_at};
use layout_buffer::GapBuffer;
use layout_matching::input::{match_input, seek_input};
use layout_matching::lookup::Lookup;
use layout_matching::rules::{Row, Test};
use layout_matching::seeking::{Seek, next};
use layout_matching::skipping::is_transparent;
use layout_matching::tried::{Reach, input_end, joined, match_at, untried, vain};
use shape_buffer::hb_glyph_info_t;
use shape_font::bytes::u16_at;

/// How far the search for the components of a ligature looked in vain.
fn ligature_reach(lookup: &Lookup<'_>, buffer: &GapBuffer, at: usize, ligature: usize) -> Reach
    requires near { ligature < 2 ^ 37 }
    requires inside { at < length buffer.now.items }
    ensures { result ≡ Ligatures.ligature_reach lookup.now buffer.now at ligature }
{
    if !has_components(lookup.table, ligature) {
        return untried(at);
    }
    let row = component_row(lookup, ligature);
    match match_input(lookup, &buffer.items(), at, row) {
        Some(_) => match_at(at),
        None => vain(at, at, input_end(lookup, &buffer.items(), at, row)),
    }
}

/// The same for ligature `i` of a set.
fn reach_by_ligature(
    lookup: &Lookup<'_>,
    buffer: &GapBuffer,
    at: usize,
    set: usize,
    i: u32,
) -> Reach
    requires near { set < 2 ^ 36 }
    requires few { i < 2 ^ 16 }
    requires inside { at < length buffer.now.items }
    ensures { result ≡ Ligatures.ligature_reach_in lookup.now buffer.now at set i }
{
    match ligature_at(lookup.table, set, i) {
        Some(ligature) => ligature_reach(lookup, buffer, at, ligature),
        None => untried(at),
    }
}

/// How far all ligatures of a set look that are tried at `at`, up to the first that stands there.
#[tactic(auto, using(layout_matching::proofs::ReachLemmas::until_next, layout_matching::proofs::ReachLemmas::until_stays, layout_matching::proofs::ReachLemmas::until_end))]
fn all_reach(lookup: &Lookup<'_>, buffer: &GapBuffer, at: usize, set: usize) -> Reach
    requires near { set < 2 ^ 36 }
    requires inside { at < length buffer.now.items }
    ensures { result ≡ Ligatures.all_reach lookup.now buffer.now at set }
{
    let mut reach = untried(at);
    for i in 0..count(lookup.table, set) {
        if reach.matched {
            return reach;
        }
        reach = joined(reach, reach_by_ligature(lookup, buffer, at, set, i));
    }
    reach
}

/// The next glyph that the lookup sees after `at`, unless it may be passed over.
fn next_glyph(lookup: &Lookup<'_>, buffer: &GapBuffer, at: usize) -> Option<u32>
    requires { at < length buffer.now.items }
    ensures { result ≡ Ligatures.next_glyph lookup.now buffer.now at }
{
    let seek = seek_any(lookup, &item(buffer, at));
    match next(lookup, &seek, &buffer.items(), 0, at) {
        Some(j) => seen_glyph(lookup, buffer, j),
        None => None,
    }
}

/// What is looked for: any glyph within what is matched.
fn seek_any(lookup: &Lookup<'_>, first: &hb_glyph_info_t) -> Seek
    ensures { result ≡ Ligatures.seek_any lookup.now first.now }
{
    let row = Row {
        test: Test::Any,
        from: 0,
        count: 1,
        values: 0,
    };
    seek_input(lookup, first, row)
}

/// The glyph at `j`, unless it may be passed over.
fn seen_glyph(lookup: &Lookup<'_>, buffer: &GapBuffer, j: usize) -> Option<u32>
    ensures { result ≡ Ligatures.seen_glyph lookup.now buffer.now j }
{
    let there = item(buffer, j);
    if is_transparent(lookup, true, &there) {
        None
    } else {
        Some(there.glyph_id)
    }
}

/// Whether the second component of a ligature isn't the next glyph.
fn begins_otherwise(lookup: &Lookup<'_>, glyph: u32, ligature: usize) -> bool
    requires { ligature < 2 ^ 37 }
    ensures { result ≡ Ligatures.begins_otherwise lookup.now glyph ligature }
{
    1 < components(lookup.table, ligature) && u32::from(u16_at(lookup.table, ligature + 4)) != glyph
}

/// How far ligature `i` of a set looked, if its second component is the next glyph.
fn quick_reach(
    lookup: &Lookup<'_>,
    buffer: &GapBuffer,
    at: usize,
    set: usize,
    glyph: u32,
    i: u32,
) -> Reach
    requires near { set < 2 ^ 36 }
    requires few { i < 2 ^ 16 }
    requires inside { at < length buffer.now.items }
    ensures { result ≡ Ligatures.quick_reach_in lookup.now buffer.now at set glyph i }
{
    match ligature_at(lookup.table, set, i) {
        Some(ligature) => {
            if begins_otherwise(lookup, glyph, ligature) {
                return untried(at);
            }
            ligature_reach(lookup, buffer, at, ligature)
        }
        None => untried(at),
    }
}

/// How far those ligatures of a set look whose second component is the next glyph.
#[tactic(auto, using(layout_matching::proofs::ReachLemmas::until_next, layout_matching::proofs::ReachLemmas::until_stays, layout_matching::proofs::ReachLemmas::until_end))]
fn quickly_reached(
    lookup: &Lookup<'_>,
    buffer: &GapBuffer,
    at: usize,
    set: usize,
    glyph: u32,
) -> Reach
    requires near { set < 2 ^ 36 }
    requires inside { at < length buffer.now.items }
    ensures { result ≡ Ligatures.quickly_reached lookup.now buffer.now at set glyph }
{
    let mut reach = untried(at);
    for i in 0..count(lookup.table, set) {
        if reach.matched {
            return reach;
        }
        reach = joined(reach, quick_reach(lookup, buffer, at, set, glyph, i));
    }
    reach
}

/// How far the ligatures of a set look that are tried at `at`, up to the first that stands there.
/// In a set of more than four HarfBuzz compares the second components first, and doesn't mark that
/// if a ligature is made.
fn ligatures_reach(lookup: &Lookup<'_>, buffer: &GapBuffer, at: usize, set: usize) -> Reach
    requires near { set < 2 ^ 36 }
    requires inside { at < length buffer.now.items }
    ensures { result ≡ Ligatures.ligatures_reach lookup.now buffer.now at set }
{
    let all = all_reach(lookup, buffer, at, set);
    if !all.matched || count(lookup.table, set) <= 4 {
        return all;
    }
    match next_glyph(lookup, buffer, at) {
        Some(glyph) => quickly_reached(lookup, buffer, at, set, glyph),
        None => all,
    }
}

/// Marks what the ligatures of a set looked at in vain unsafe to concat, if the buffer asks for
/// that.
#[tactic(auto, using(crate::proofs::EditLemmas::concat_marked_unasked))]
pub(crate) fn mark_tried(lookup: &Lookup<'_>, buffer: &mut GapBuffer, at: usize, set: usize)
    requires near { set < 2 ^ 36 }
    requires inside { at < length buffer.old.items }
    ensures made { buffer.new
        ≡ concat_marked (Ligatures.ligatures_reach lookup.now buffer.old at set) buffer.old }
    ensures as_many { length buffer.new.items ≡ length buffer.old.items }
    ensures limit { limit_of buffer.new ≡ limit_of buffer.old }
{
    if !asks_for_concat(buffer) {
        return;
    }
    let reach = ligatures_reach(lookup, buffer, at, set);
    concat_span(buffer, reach);
}
