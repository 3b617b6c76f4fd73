//! The whole of the fallback.
ghost use Rattle.std.specs.Prelude.{◌≡◌, OnOk, IsOkUnless};
ghost use Rattle.shape_buffer.specs.Outcome.{IsWithinLimit, Made, Outcome, step};
ghost use Rattle.arabic_fallback.specs.Classes.{class_by};
ghost use Rattle.arabic_fallback.specs.Fallback.{ligated_by, all_formed, all_ligated, fallback_shaped};

use crate::forms::{Form, put_forms};
use crate::ligating::ligate_all;
use crate::ligatures::ligature_rows;
use crate::seeking::Rule;
use crate::tables::{Ligature, MARKS, PAIRS, TRIPLES};
use shape_buffer::buffer::{ShapeError, hb_buffer_t, hb_mask_t};
use shape_buffer::interfaces::{hb_font_t, hb_ot_layout_t};
use std::alloc::Global;

/// The masks of the features that are done without lookups.
#[derive(Clone, Copy, PartialEq, Eq, Debug)]
pub struct FallbackMasks {
    pub init: hb_mask_t,
    pub medi: hb_mask_t,
    pub fina: hb_mask_t,
    pub isol: hb_mask_t,
    pub rlig: hb_mask_t,
}

/// Makes the ligatures of a table. Refuses with `Memory` alone.
fn put_ligatures<F: hb_font_t, M: hb_ot_layout_t<F>>(
    alloc: Global,
    face: &F,
    map: &M::Map,
    rule: Rule,
    table: &[Ligature],
    buffer: &mut hb_buffer_t,
) -> Result<(), ShapeError>
    ensures ok { OnOk result (Made (ligated_by (F.face face.now)
        (class_by (M.layout face.now).has_glyph_classes (M.lookups map.now face.now).substitute_start)
        rule table.now) buffer.old buffer.new) }
    ensures memory { IsOkUnless result ShapeError.Memory }
{
    let rows = ligature_rows::<F, M>(alloc, face, map, table)?;
    ligate_all(alloc, buffer, rule, rows.as_slice())
}

/// Puts letters in their forms.
fn form_all<F: hb_font_t, M: hb_ot_layout_t<F>>(
    alloc: Global,
    face: &F,
    map: &M::Map,
    masks: FallbackMasks,
    buffer: &mut hb_buffer_t,
) -> Result<(), ShapeError>
    ensures ok { OnOk result (Made (all_formed (F.face face.now)
        (class_by (M.layout face.now).has_glyph_classes (M.lookups map.now face.now).substitute_start)
        masks) buffer.old buffer.new) }
    ensures memory { IsOkUnless result ShapeError.Memory }
{
    put_forms::<F, M>(alloc, face, map, masks.init, Form::Init, buffer)?;
    put_forms::<F, M>(alloc, face, map, masks.medi, Form::Medi, buffer)?;
    put_forms::<F, M>(alloc, face, map, masks.fina, Form::Fina, buffer)?;
    put_forms::<F, M>(alloc, face, map, masks.isol, Form::Isol, buffer)
}

/// Makes the ligatures of three letters, of two, and of marks.
fn ligate_tables<F: hb_font_t, M: hb_ot_layout_t<F>>(
    alloc: Global,
    face: &F,
    map: &M::Map,
    mask: hb_mask_t,
    buffer: &mut hb_buffer_t,
) -> Result<(), ShapeError>
    ensures ok { OnOk result (Made (all_ligated (F.face face.now)
        (class_by (M.layout face.now).has_glyph_classes (M.lookups map.now face.now).substitute_start)
        mask) buffer.old buffer.new) }
    ensures memory { IsOkUnless result ShapeError.Memory }
{
    let letters = Rule {
        mask,
        ignores_marks: true,
    };
    let marks = Rule {
        mask,
        ignores_marks: false,
    };
    put_ligatures::<F, M>(alloc, face, map, letters, &TRIPLES, buffer)?;
    put_ligatures::<F, M>(alloc, face, map, letters, &PAIRS, buffer)?;
    put_ligatures::<F, M>(alloc, face, map, marks, &MARKS, buffer)
}

/// Forms first, then ligatures.
fn shape_all<F: hb_font_t, M: hb_ot_layout_t<F>>(
    alloc: Global,
    face: &F,
    map: &M::Map,
    masks: FallbackMasks,
    buffer: &mut hb_buffer_t,
) -> Result<(), ShapeError>
    ensures ok { OnOk result (Made (fallback_shaped (F.face face.now)
        (class_by (M.layout face.now).has_glyph_classes (M.lookups map.now face.now).substitute_start)
        masks) buffer.old buffer.new) }
    ensures memory { IsOkUnless result ShapeError.Memory }
{
    form_all::<F, M>(alloc, face, map, masks, buffer)?;
    ligate_tables::<F, M>(alloc, face, map, masks.rlig, buffer)
}

/// Puts Arabic letters of a buffer of glyphs in their forms, and makes their ligatures, by the
/// glyphs that the face has for presentation forms: initial, medial, final and isolated forms, each
/// where its mask is on, then ligatures. A glyph gets the class that the engine gives it, if the
/// face has classes, and a ligature else that of ligatures. Refuses with `Memory` alone.
pub fn shape_fallback<F: hb_font_t, M: hb_ot_layout_t<F>>(
    alloc: Global,
    face: &F,
    map: &M::Map,
    masks: FallbackMasks,
    buffer: &mut hb_buffer_t,
) -> Result<(), ShapeError>
    requires { IsWithinLimit buffer.old }
    ensures outcome { Outcome (step (fallback_shaped (F.face face.now)
        (class_by (M.layout face.now).has_glyph_classes (M.lookups map.now face.now).substitute_start)
        masks)) buffer.old buffer.new result }
{
    shape_all::<F, M>(alloc, face, map, masks, buffer)
}
