//! The lookups that a rule names, and the glyphs that they are applied at.
ghost use Rattle.std.specs.Prelude.{◌≡◌, ◌<◌, ◌^◌, length, IfOk, IsOkUnless};
ghost use Rattle.std.specs.Option.{IfSome};
ghost use Rattle.layout_matching.specs.Nesting;

use crate::input::seek_input;
use crate::lookup::Lookup;
use crate::rules::{FAR, Rule};
use crate::seeking::push_places;
use layout_buffer::ItemList;
use layout_tables::lookups::{lookup, mark_filtering_set};
use shape_buffer::ShapeError;
use shape_font::bytes::u16_at;
use std::alloc::Global;

/// A lookup that a rule names, and the matched glyph that it is applied at: glyph number `index` of
/// them, at `place`.
#[derive(Clone, Copy)]
pub struct Target<'a> {
    pub lookup: Lookup<'a>,
    pub place: usize,
    pub index: usize,
}

/// Another lookup of the table, on for the same glyphs.
pub fn with_place<'a>(here: &Lookup<'a>, place: usize) -> Lookup<'a>
    requires { place < 2 ^ 17 }
    ensures { result ≡ Nesting.lookup_with here.now place }
{
    Lookup {
        table: here.table,
        gdef: here.gdef,
        coordinates: here.coordinates,
        device_work: here.device_work,
        scale: here.scale,
        place,
        flags: u16_at(here.table, place + 2),
        mark_set: mark_filtering_set(here.table, place),
        mask: here.mask,
        unit: here.unit,
        auto_zwnj: here.auto_zwnj,
        auto_zwj: here.auto_zwj,
        per_syllable: here.per_syllable,
        random: here.random,
        positioning: here.positioning,
    }
}

/// Where record `r` of a rule stands in the table, in bytes.
pub fn record_at(rule: &Rule, r: u32) -> usize
    ensures value { result ≡ Nesting.record_at rule.now r }
    ensures near { result < 2 ^ 39 }
{
    rule.lookups.min(FAR) + 4 * r as usize
}

/// What record `r` of a rule names, if the glyph and the lookup are there. `places` are those of
/// the matched glyphs.
pub fn target_at<'a>(here: &Lookup<'a>, rule: &Rule, places: &[usize], r: u32) -> Option<Target<'a>>
    ensures value { result ≡ Nesting.target_of here.now rule.now places.now r }
    ensures near { IfSome result (λ t. t.lookup.place < 2 ^ 17) }
    ensures few { IfSome result (λ t. t.index < 2 ^ 16) }
    ensures inside { IfSome result (λ t. t.index < length places.now) }
{
    let at = record_at(rule, r);
    let index = usize::from(u16_at(here.table, at));
    if places.len() <= index {
        return None;
    }
    match lookup(here.table, u16_at(here.table, at + 2)) {
        Some(place) => Some(Target {
            lookup: with_place(here, place),
            place: places[index],
            index,
        }),
        None => None,
    }
}

/// The places of the glyphs that a rule matches, the first one at `at`; none for a rule of no
/// glyph. Refuses with `Memory` alone.
pub fn places(
    alloc: Global,
    lookup: &Lookup<'_>,
    items: &ItemList<'_>,
    at: usize,
    rule: &Rule,
) -> Result<Vec<usize>, ShapeError>
    requires { at < length items.now }
    ensures ok { IfOk result (λ v. v.items ≡ Nesting.places_of lookup.now items.now at rule.now) }
    ensures memory { IsOkUnless result ShapeError.Memory }
{
    let mut all = Vec::new(alloc);
    if rule.input.count == 0 {
        return Ok(all);
    }
    all.push(at)?;
    let seek = seek_input(lookup, &items.item(at), rule.input);
    let n = u32::from(rule.input.count.saturating_sub(1));
    push_places(lookup, &seek, items, n, at, &mut all)?;
    Ok(all)
}
