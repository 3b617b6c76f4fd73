//! Whether a lookup would substitute glyphs that stand alone. Nothing is changed, and no memory is
//! taken.
ghost use Rattle.std.specs.Prelude.{◌≡◌, ◌<◌, ◌^◌};
ghost use Rattle.layout_substitution.specs.Would as would_rules;

use crate::substitutes::{components, count, has_components, ligature_at, set};
use layout_matching::found::number_in;
use layout_matching::rules::{Row, Test};
use layout_matching::would::{Alone, context_begins, context_would, first_of, is_input};
use layout_tables::lookups::{LookupSubtable, subtable, subtable_count};
use shape_font::bytes::u16_at;

/// Whether the components of a ligature are these glyphs.
fn ligature_would(table: &[u8], glyphs: &[u32], ligature: usize) -> bool
    requires { ligature < 2 ^ 37 }
    ensures { result ≡ would_rules.ligature_would table.now glyphs.now ligature }
{
    let row = Row {
        test: Test::Glyph,
        from: 0,
        count: components(table, ligature),
        values: ligature + 4,
    };
    has_components(table, ligature) && is_input(table, &row, glyphs)
}

/// The same of ligature `i` of a set.
fn ligature_would_in(table: &[u8], glyphs: &[u32], set: usize, i: u32) -> bool
    requires near { set < 2 ^ 36 }
    requires few { i < 2 ^ 16 }
    ensures { result ≡ would_rules.ligature_would_in table.now glyphs.now set i }
{
    match ligature_at(table, set, i) {
        Some(ligature) => ligature_would(table, glyphs, ligature),
        None => false,
    }
}

/// Whether the components of one ligature of a set are these glyphs.
#[tactic(auto, using(layout_matching::proofs::LoopLemmas::some_next, layout_matching::proofs::LoopLemmas::some_found, layout_matching::proofs::LoopLemmas::some_end))]
fn set_would(table: &[u8], glyphs: &[u32], set: usize) -> bool
    requires { set < 2 ^ 36 }
    ensures { result ≡ would_rules.set_would table.now glyphs.now set }
{
    for i in 0..count(table, set) {
        if ligature_would_in(table, glyphs, set, i) {
            return true;
        }
    }
    false
}

/// Whether the subtable of ligatures at `start` has one of exactly these glyphs.
fn ligatures_would(table: &[u8], start: usize, glyphs: &[u32]) -> bool
    requires { start < 2 ^ 35 }
    ensures { result ≡ would_rules.ligatures_would table.now start glyphs.now }
{
    match set(table, start, first_of(glyphs)) {
        Some(set) => set_would(table, glyphs, set),
        None => false,
    }
}

/// Whether the subtable is of a known format, with one list of the glyphs that it begins at.
fn has_list(table: &[u8], subtable: LookupSubtable) -> bool
    requires { subtable.start < 2 ^ 35 }
    ensures { result ≡ would_rules.has_list table.now subtable }
{
    let format = u16_at(table, subtable.start);
    format == 1 || (subtable.kind == 1 && format == 2)
}

/// Whether a subtable that names no other lookups, and isn't one of context, begins at a glyph.
fn is_listed(table: &[u8], subtable: LookupSubtable, glyph: u32) -> bool
    requires { subtable.start < 2 ^ 35 }
    ensures { result ≡ would_rules.is_listed table.now subtable glyph }
{
    ((0 < subtable.kind && subtable.kind < 5) || subtable.kind == 8)
        && has_list(table, subtable)
        && number_in(table, subtable.start, glyph).is_some()
}

/// Whether the subtable begins at a glyph.
fn begins(table: &[u8], subtable: LookupSubtable, glyph: u32) -> bool
    requires { subtable.start < 2 ^ 35 }
    ensures { result ≡ would_rules.begins table.now subtable glyph }
{
    match subtable.kind {
        5 => context_begins(table, false, subtable.start, glyph),
        6 => context_begins(table, true, subtable.start, glyph),
        _ => is_listed(table, subtable, glyph),
    }
}

/// Whether the subtable substitutes exactly these glyphs.
fn subtable_would(table: &[u8], alone: Alone<'_>, subtable: LookupSubtable) -> bool
    requires { subtable.start < 2 ^ 35 }
    ensures { result ≡ would_rules.subtable_would table.now alone.entry.glyphs.now
        alone.entry.zero_context subtable }
{
    match subtable.kind {
        4 => ligatures_would(table, subtable.start, alone.glyphs),
        5 => context_would(table, false, subtable.start, alone),
        6 => context_would(table, true, subtable.start, alone),
        _ => alone.glyphs.len() == 1 && is_listed(table, subtable, first_of(alone.glyphs)),
    }
}

/// Whether subtable `i` of the lookup substitutes exactly these glyphs.
fn would_at(table: &[u8], place: usize, alone: Alone<'_>, i: u32) -> bool
    requires near { place < 2 ^ 17 }
    requires few { i < 2 ^ 16 }
    ensures { result ≡ would_rules.would_at table.now place alone.entry.glyphs.now
        alone.entry.zero_context i }
{
    match subtable(table, 7, place, i) {
        Some(subtable) => subtable_would(table, alone, subtable),
        None => false,
    }
}

/// Whether a subtable of the lookup substitutes exactly these glyphs.
#[tactic(auto, using(layout_matching::proofs::LoopLemmas::some_next, layout_matching::proofs::LoopLemmas::some_found, layout_matching::proofs::LoopLemmas::some_end))]
fn some_would(table: &[u8], place: usize, alone: Alone<'_>) -> bool
    requires { place < 2 ^ 17 }
    ensures { result ≡ would_rules.some_would table.now place alone.entry.glyphs.now
        alone.entry.zero_context }
{
    for i in 0..subtable_count(table, place) {
        if would_at(table, place, alone, i) {
            return true;
        }
    }
    false
}

/// Whether subtable `i` of the lookup begins at a glyph.
fn begins_at(table: &[u8], place: usize, glyph: u32, i: u32) -> bool
    requires near { place < 2 ^ 17 }
    requires few { i < 2 ^ 16 }
    ensures { result ≡ would_rules.begins_at table.now place glyph i }
{
    match subtable(table, 7, place, i) {
        Some(subtable) => begins(table, subtable, glyph),
        None => false,
    }
}

/// Whether a subtable of the lookup begins at a glyph.
#[tactic(auto, using(layout_matching::proofs::LoopLemmas::some_next, layout_matching::proofs::LoopLemmas::some_found, layout_matching::proofs::LoopLemmas::some_end))]
fn lookup_begins(table: &[u8], place: usize, glyph: u32) -> bool
    requires { place < 2 ^ 17 }
    ensures { result ≡ would_rules.lookup_begins table.now place glyph }
{
    for i in 0..subtable_count(table, place) {
        if begins_at(table, place, glyph, i) {
            return true;
        }
    }
    false
}

/// Whether the lookup at `place` would substitute exactly these glyphs. Where the lookup begins is
/// asked last: most lookups are of fewer glyphs, or of more, and no list is searched then.
pub fn lookup_would(table: &[u8], place: usize, alone: Alone<'_>) -> bool
    requires { place < 2 ^ 17 }
    ensures { result ≡ would_rules.lookup_would table.now place alone.entry.glyphs.now
        alone.entry.zero_context }
{
    !alone.glyphs.is_empty()
        && some_would(table, place, alone)
        && lookup_begins(table, place, first_of(alone.glyphs))
}
