//! Ligatures that stand at a place of a text.
ghost use Rattle.std.specs.Prelude.{◌≡◌, ◌<◌, ◌≤◌, length, IfOk, OnOk, IsOkUnless};
ghost use Rattle.std.specs.Option.{IfSome};
ghost use Rattle.arabic_fallback.specs.Classes.{class_by};
ghost use Rattle.arabic_fallback.specs.Ligatures.{third_of, glyphs_of, with_ligature, ligature_rows};
ghost use Rattle.arabic_fallback.specs.Ligatures.{component_at, second_found, found_by, found_in};

use crate::classes::class_of;
use crate::forms::glyph_of;
use crate::replaced::NewGlyph;
use crate::seeking::{Rule, joins, place_from};
use crate::tables::Ligature;
use shape_buffer::buffer::{ShapeError, hb_glyph_info_t};
use shape_buffer::interfaces::{hb_font_t, hb_ot_layout_t};
use std::alloc::Global;

/// The glyphs of a ligature's components.
#[derive(Clone, Copy, PartialEq, Eq, Debug)]
pub struct Components {
    pub first: u32,
    pub second: u32,
    pub third: Option<u32>,
}

/// A ligature, by its components.
#[derive(Clone, Copy, PartialEq, Eq, Debug)]
pub struct LigatureGlyphs {
    pub components: Components,
    pub ligature: NewGlyph,
}

/// Where the components after the first one stand.
#[derive(Clone, Copy, PartialEq, Eq, Debug)]
pub struct Found {
    pub second: usize,
    pub third: Option<usize>,
    pub last: usize,
    pub ligature: NewGlyph,
}

/// The glyph of a third component, if there is one; none if the face lacks it.
fn third_of<F: hb_font_t>(face: &F, c: char) -> Option<Option<u32>>
    ensures { result ≡ third_of (F.face face.now) c }
{
    if c == '\0' {
        return Some(None);
    }
    match glyph_of(face, c) {
        Some(glyph) => Some(Some(glyph)),
        None => None,
    }
}

/// The glyphs of the components of a ligature and of itself, if the face has them all.
fn glyphs_of<F: hb_font_t>(face: &F, row: Ligature) -> Option<(Components, u32)>
    ensures { result ≡ glyphs_of (F.face face.now) row }
{
    let first = glyph_of(face, row.0)?;
    let second = glyph_of(face, row.1)?;
    let third = third_of(face, row.2)?;
    let ligature = glyph_of(face, row.3)?;
    Some((
        Components {
            first,
            second,
            third,
        },
        ligature,
    ))
}

/// Appends the glyphs of a ligature, if the face has them all.
fn append<F: hb_font_t, M: hb_ot_layout_t<F>>(
    alloc: Global,
    face: &F,
    map: &M::Map,
    rows: &mut Vec<LigatureGlyphs>,
    row: Ligature,
) -> Result<(), ShapeError>
    ensures ok { OnOk result (rows.new.items ≡ with_ligature (F.face face.now)
        (class_by (M.layout face.now).has_glyph_classes (M.lookups map.now face.now).substitute_start)
        rows.old.items row) }
    ensures memory { IsOkUnless result ShapeError.Memory }
{
    if let Some((components, glyph)) = glyphs_of(face, row) {
        let class = class_of::<F, M>(alloc, face, map, glyph)?;
        rows.push(LigatureGlyphs {
            components,
            ligature: NewGlyph { glyph, class },
        })?;
    }
    Ok(())
}

/// The ligatures of a table that the face has all glyphs for. Refuses with `Memory` alone.
pub fn ligature_rows<F: hb_font_t, M: hb_ot_layout_t<F>>(
    alloc: Global,
    face: &F,
    map: &M::Map,
    table: &[Ligature],
) -> Result<Vec<LigatureGlyphs>, ShapeError>
    ensures ok { IfOk result (λ rows. rows.items ≡ ligature_rows (F.face face.now)
        (class_by (M.layout face.now).has_glyph_classes (M.lookups map.now face.now).substitute_start)
        table.now) }
    ensures memory { IsOkUnless result ShapeError.Memory }
{
    let mut rows = Vec::new(alloc);
    for row in table {
        append::<F, M>(alloc, face, map, &mut rows, *row)?;
    }
    Ok(rows)
}

/// Where a component stands after a place, if it joins with the first one.
pub fn component_at(
    rule: Rule,
    glyph: u32,
    infos: &[hb_glyph_info_t],
    at: usize,
    after: usize,
) -> Option<usize>
    requires first { at < length infos.now }
    requires within { after < length infos.now }
    ensures value { result ≡ component_at rule glyph infos.now at after }
    ensures inside { IfSome result (λ j. j < length infos.now) }
    ensures after { IfSome result (λ j. after < j) }
{
    match place_from(rule, glyph, infos, after + 1) {
        Some(j) => {
            if joins(&infos[at], &infos[j]) {
                Some(j)
            } else {
                None
            }
        }
        None => None,
    }
}

/// The components of a ligature of which the second is found.
fn second_found(
    rule: Rule,
    row: &LigatureGlyphs,
    infos: &[hb_glyph_info_t],
    at: usize,
    second: usize,
) -> Option<Found>
    requires first { at < length infos.now }
    requires within { second < length infos.now }
    ensures value { result ≡ second_found rule row.now infos.now at second }
    ensures inside { IfSome result (λ f. f.last < length infos.now) }
    ensures after { IfSome result (λ f. second ≤ f.last) }
{
    let Some(glyph) = row.components.third else {
        return Some(Found {
            second,
            third: None,
            last: second,
            ligature: row.ligature,
        });
    };
    match component_at(rule, glyph, infos, at, second) {
        Some(third) => Some(Found {
            second,
            third: Some(third),
            last: third,
            ligature: row.ligature,
        }),
        None => None,
    }
}

/// The components of a ligature from a place on.
pub fn found_by(
    rule: Rule,
    row: &LigatureGlyphs,
    infos: &[hb_glyph_info_t],
    at: usize,
) -> Option<Found>
    requires { at < length infos.now }
    ensures value { result ≡ found_by rule row.now infos.now at }
    ensures inside { IfSome result (λ f. f.last < length infos.now) }
    ensures after { IfSome result (λ f. at < f.last) }
{
    if infos[at].glyph_id != row.components.first {
        return None;
    }
    match component_at(rule, row.components.second, infos, at, at) {
        Some(second) => second_found(rule, row, infos, at, second),
        None => None,
    }
}

/// The first of the ligatures whose components stand at a place.
pub fn found_in(
    rule: Rule,
    rows: &[LigatureGlyphs],
    infos: &[hb_glyph_info_t],
    at: usize,
) -> Option<Found>
    requires { at < length infos.now }
    ensures value { result ≡ found_in rule rows.now infos.now at }
    ensures inside { IfSome result (λ f. f.last < length infos.now) }
    ensures after { IfSome result (λ f. at < f.last) }
{
    for row in rows {
        if let Some(found) = found_by(rule, row, infos, at) {
            return Some(found);
        }
    }
    None
}
